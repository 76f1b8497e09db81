//! Systems of equations, and differences that follow from them. The variable of the lowest number leads.
ghost use Rattle.std.specs.Prelude.{◌≤◌, ◌<◌};

use crate::drafts::{Draft, NotMade, push};
use std::alloc::Global;

/// The greatest size of a system.
pub const LARGEST: u32 = 100_000;

/// The lanes of a state of the rounds.
const LANES: u32 = 3;

/// The variables of one round that are factors: each lane and three powers of it.
const FACTORS: u32 = 4 * LANES;

/// The weighted sum of the bits.
const SUM: u64 = 5;

/// The variables of a state of the rounds, or of powers.
type Lanes = [u32; 3];

/// Polynomials that are zero, and differences that are zero where those are.
#[derive(Drop)]
pub struct System {
    /// The order of the field.
    order: u64,
    pub generators: Vec<Draft>,
    pub differences: Vec<Draft>,
}

/// One variable minus another one.
fn difference(alloc: Global, left: u32, right: u32, minus_one: u64) -> Result<Draft, NotMade> {
    let mut draft = Vec::new(alloc);
    push(&mut draft, 1, &[left])?;
    push(&mut draft, minus_one, &[right])?;
    Ok(draft)
}

impl System {
    pub fn new(alloc: Global, order: u64) -> System {
        System {
            order,
            generators: Vec::new(alloc),
            differences: Vec::new(alloc),
        }
    }

    fn alloc(&self) -> Global {
        *self.generators.allocator()
    }

    /// The negation of a number.
    fn minus(&self, number: u64) -> u64 {
        self.order.wrapping_sub(number % self.order.max(1))
    }

    /// Appends a generator.
    fn add(&mut self, draft: Draft) -> Result<(), NotMade> {
        self.generators.push(draft)?;
        Ok(())
    }

    /// Two variables are equal.
    fn equate(&mut self, left: u32, right: u32) -> Result<(), NotMade> {
        let draft = difference(self.alloc(), left, right, self.minus(1))?;
        self.add(draft)
    }

    /// Two variables are equal where the generators are zero.
    fn differ(&mut self, left: u32, right: u32) -> Result<(), NotMade> {
        let draft = difference(self.alloc(), left, right, self.minus(1))?;
        self.differences.push(draft)?;
        Ok(())
    }

    /// A variable minus the product that defines it.
    fn definition(&self, defined: u32, left: u32, right: u32) -> Result<Draft, NotMade> {
        let mut draft = Vec::new(self.alloc());
        push(&mut draft, 1, &[defined])?;
        push(&mut draft, self.minus(1), &[left, right])?;
        Ok(draft)
    }

    /// Defines a variable as a product.
    fn define(&mut self, defined: u32, left: u32, right: u32) -> Result<(), NotMade> {
        let draft = self.definition(defined, left, right)?;
        self.add(draft)
    }

    /// The sum of Katsura's variables, each but the first one twice, minus 1.
    fn katsura_sum(&mut self, size: u32) -> Result<(), NotMade>
        requires small { size ≤ LARGEST }
    {
        let mut draft = Vec::new(self.alloc());
        for place in 0..2 * size + 1 {
            push(&mut draft, 1, &[place.abs_diff(size)])?;
        }
        push(&mut draft, self.minus(1), &[])?;
        self.add(draft)
    }

    /// The sum of products of two of Katsura's variables whose places differ by a number, minus the variable of this
    /// number.
    fn katsura_products(&mut self, size: u32, number: u32) -> Result<(), NotMade>
        requires small { size ≤ LARGEST }
        requires number { number ≤ size }
    {
        let mut draft = Vec::new(self.alloc());
        for place in 0..2 * size + 1 {
            let other = place.abs_diff(size + number);
            if other <= size {
                push(&mut draft, 1, &[place.abs_diff(size), other])?;
            }
        }
        push(&mut draft, self.minus(1), &[number])?;
        self.add(draft)
    }

    /// Katsura's equations in one variable more than the size.
    pub fn katsura(&mut self, size: u32) -> Result<(), NotMade>
        requires small { size ≤ LARGEST }
    {
        self.katsura_sum(size)?;
        for number in 0..size {
            self.katsura_products(size, number)?;
        }
        Ok(())
    }

    /// The cyclic equations in so many variables: the sums of products of each count, of which the product of all is 1.
    pub fn cyclic(&mut self, size: u32) -> Result<(), NotMade>
        requires some { 1 ≤ size }
        requires small { size ≤ LARGEST }
    {
        for count in 1..size {
            let draft = cycles(self.alloc(), size, size, count)?;
            self.add(draft)?;
        }
        let mut draft = cycles(self.alloc(), size, 1, size)?;
        push(&mut draft, self.minus(1), &[])?;
        self.add(draft)
    }

    /// Definitions of variables as products of two others each, in two copies with equal factors.
    pub fn definitions(&mut self, size: u32) -> Result<(), NotMade>
        requires small { size ≤ LARGEST }
    {
        for number in 0..size {
            self.definition_twice(size, number)?;
        }
        Ok(())
    }

    fn definition_twice(&mut self, size: u32, number: u32) -> Result<(), NotMade>
        requires small { size ≤ LARGEST }
        requires number { number < size }
    {
        let (z, x, y) = (number, 2 * size + number, 3 * size + number);
        let (w, u, v) = (size + number, 4 * size + number, 5 * size + number);
        self.define(z, x, y)?;
        self.define(w, u, v)?;
        self.equate(x, u)?;
        self.equate(y, v)?;
        self.differ(z, w)
    }

    /// Random linear equations, as many as variables.
    pub fn linear(&mut self, size: u32) -> Result<(), NotMade> {
        let mut residues = Residues { state: 1 };
        for _ in 0..size {
            let draft = residues.equation(self.alloc(), size)?;
            self.add(draft)?;
        }
        Ok(())
    }

    /// Bits whose sum with the weights 1, 2, 4 and so on is a constant.
    pub fn bits(&mut self, size: u32) -> Result<(), NotMade> {
        let mut sum = Vec::new(self.alloc());
        let mut weight = 1u64;
        for bit in 0..size {
            self.define(bit, bit, bit)?;
            push(&mut sum, weight, &[bit])?;
            weight = weight.wrapping_mul(2) % self.order.max(1);
        }
        push(&mut sum, self.minus(SUM), &[])?;
        self.add(sum)
    }

    /// Rounds of exponent 7 with a dense linear layer each, in two copies with equal inputs.
    pub fn rounds(&mut self, size: u32) -> Result<(), NotMade> {
        let mut numbers = RoundNumbers::new(size);
        let mut left = numbers.factors.take_lanes();
        let mut right = numbers.factors.take_lanes();
        for (x, y) in left.into_iter().zip(right) {
            self.equate(x, y)?;
        }
        for number in 0..size {
            left = self.round(&mut numbers, left, number)?;
            right = self.round(&mut numbers, right, number)?;
        }
        for (x, y) in left.into_iter().zip(right) {
            self.differ(x, y)?;
        }
        Ok(())
    }

    /// The state after a round.
    fn round(
        &mut self,
        numbers: &mut RoundNumbers,
        state: Lanes,
        number: u32,
    ) -> Result<Lanes, NotMade> {
        let mut constant = number.saturating_mul(LANES);
        let mut powers = state;
        for lane in &mut powers {
            constant = constant.saturating_add(1);
            *lane = self.power(numbers, *lane, constant)?;
        }
        let next = numbers.factors.take_lanes();
        for (lane, twice) in next.into_iter().zip(powers) {
            self.mix(lane, powers, twice)?;
        }
        Ok(next)
    }

    /// Defines the 7th power of a variable with a constant added to it, by the powers 2, 4 and 6.
    fn power(
        &mut self,
        numbers: &mut RoundNumbers,
        base: u32,
        constant: u32,
    ) -> Result<u32, NotMade> {
        let [second, fourth, sixth] = numbers.factors.take_lanes();
        let seventh = numbers.sevenths.take();
        self.square(second, base, u64::from(constant))?;
        self.define(fourth, second, second)?;
        self.define(sixth, fourth, second)?;
        self.multiply(seventh, sixth, base, u64::from(constant))?;
        Ok(seventh)
    }

    /// Defines a variable as the square of another one with a constant added to it.
    fn square(&mut self, defined: u32, base: u32, constant: u64) -> Result<(), NotMade> {
        let mut draft = self.definition(defined, base, base)?;
        push(&mut draft, self.minus(constant.wrapping_mul(2)), &[base])?;
        push(&mut draft, self.minus(constant.wrapping_mul(constant)), &[])?;
        self.add(draft)
    }

    /// Defines a variable as a product, whose second factor has a constant added to it.
    fn multiply(
        &mut self,
        defined: u32,
        left: u32,
        right: u32,
        constant: u64,
    ) -> Result<(), NotMade> {
        let mut draft = self.definition(defined, left, right)?;
        push(&mut draft, self.minus(constant), &[left])?;
        self.add(draft)
    }

    /// Defines a lane as the sum of the powers, of which one counts twice.
    fn mix(&mut self, lane: u32, powers: Lanes, twice: u32) -> Result<(), NotMade> {
        let mut draft = difference(self.alloc(), lane, twice, self.minus(1))?;
        for power in powers {
            push(&mut draft, self.minus(1), &[power])?;
        }
        self.add(draft)
    }
}

/// The sum of the products of so many variables that follow one another, from each of the first ones on. The first of all
/// variables comes after the last.
fn cycles(alloc: Global, size: u32, firsts: u32, count: u32) -> Result<Draft, NotMade>
    requires small { size ≤ LARGEST }
    requires firsts { firsts ≤ size }
    requires count { count ≤ size }
{
    let mut draft = Vec::new(alloc);
    for first in 0..firsts {
        push_cycle(&mut draft, size, first, count)?;
    }
    Ok(draft)
}

/// Appends the product of so many variables from one on.
fn push_cycle(draft: &mut Draft, size: u32, first: u32, count: u32) -> Result<(), NotMade>
    requires small { size ≤ LARGEST }
    requires first { first < size }
    requires count { count ≤ size }
{
    let mut factors = Vec::new(*draft.allocator());
    for step in 0..count {
        factors.push((first + step) % size)?;
    }
    push(draft, 1, factors.as_slice())
}

/// Numbers of variables, of which a later one leads.
#[derive(Drop)]
struct Numbers {
    next: u32,
}

impl Numbers {
    fn take(&mut self) -> u32 {
        self.next = self.next.saturating_sub(1);
        self.next
    }

    fn take_lanes(&mut self) -> Lanes {
        [self.take(), self.take(), self.take()]
    }
}

/// The variables of rounds. As in the engine those lead that are no factors.
#[derive(Drop)]
struct RoundNumbers {
    sevenths: Numbers,
    factors: Numbers,
}

impl RoundNumbers {
    /// So many rounds of two copies, before the first.
    fn new(count: u32) -> RoundNumbers {
        let sevenths = count.saturating_mul(2 * LANES);
        let factors = count.saturating_add(1).saturating_mul(2 * FACTORS);
        RoundNumbers {
            sevenths: Numbers { next: sevenths },
            factors: Numbers {
                next: sevenths.saturating_add(factors),
            },
        }
    }
}

/// Pseudo random residues, by the linear congruential generator of Knuth's MMIX.
#[derive(Drop)]
struct Residues {
    state: u64,
}

impl Residues {
    fn draw(&mut self) -> u64 {
        self.state = self
            .state
            .wrapping_mul(6_364_136_223_846_793_005)
            .wrapping_add(1_442_695_040_888_963_407);
        self.state >> 32
    }

    /// An equation in so many variables.
    fn equation(&mut self, alloc: Global, variables: u32) -> Result<Draft, NotMade> {
        let mut draft = Vec::new(alloc);
        for variable in 0..variables {
            push(&mut draft, self.draw(), &[variable])?;
        }
        push(&mut draft, self.draw(), &[])?;
        Ok(draft)
    }
}
