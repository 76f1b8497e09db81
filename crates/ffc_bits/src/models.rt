//! Values of bits with which the lines that are in bits may have a common zero, by trial: no line is derived of them.
ghost use Rattle.std.specs.Prelude.{◌≡◌};
ghost use Rattle.ffc_base.specs.Metering.{Metered};

use crate::equation::Equation;
use crate::forms::{Bits, Form, bit_forms, bit_of};
use crate::gates::{MOST_INPUTS, MOST_TERMS, is_one, variables_of};
use crate::integers::{best_scale, equation_of};
use ffc_base::{Meter, SearchStop};
use ffc_field::Field;
use ffc_line::Line;
use ffc_mono::MonoOrder;
use ffc_poly::Poly;
use ffc_zeroone::{Condition, Puzzle, Sum};
use std::alloc::{AllocError, Global};
use std::collections::BTreeMap;

/// A sum of bits reaches so many multiples of the order at most.
const MOST_MULTIPLES: i128 = 32;

/// And their number has so many binary digits.
const MOST_DIGITS: usize = 6;

/// Bits, with their numbers in a puzzle.
struct Model {
    alloc: Global,
    puzzle: Puzzle,
    numbers: BTreeMap<u32, usize>,
}

impl Drop for Model {
    fn drop(self) {
        let Model {
            alloc: _,
            puzzle: _,
            numbers: _,
        } = self;
    }
}

impl Model {
    /// The number of a bit.
    fn number(&mut self, x: u32) -> Result<usize, AllocError> {
        if let Some(number) = self.numbers.get(&x) {
            return Ok(*number);
        }
        let number = self.puzzle.add_variable()?;
        self.numbers.insert(x, number)?;
        Ok(number)
    }

    /// Adds that a form is 0 modulo the order: that it is a multiple of that over the integers.
    fn add_form<F: Field>(&mut self, form: &Form) -> Result<(), AllocError> {
        let found = best_scale::<F>(self.alloc, form.constant, &form.terms, MOST_MULTIPLES)?;
        let Some(scale) = found else {
            return Ok(());
        };
        let equation = equation_of(self.alloc, form.constant, &form.terms, scale)?;
        let mut terms = Vec::new(self.alloc);
        for (x, c) in &equation.terms {
            terms.push((self.number(*x)?, *c))?;
        }
        let constant = self.add_multiples::<F>(&equation, &mut terms)?;
        self.puzzle.add_sum(Sum { constant, terms })
    }

    /// Adds the multiples of the order that a sum of bits may be, as a sum of bits of its own, and answers the constant with the
    /// least of them. Those nearest to the middle of the sum are tried first.
    fn add_multiples<F: Field>(
        &mut self,
        equation: &Equation,
        terms: &mut Vec<(usize, i128)>,
    ) -> Result<i128, AllocError> {
        let order = i128::from(F::ORDER);
        let (low, high) = equation.reach();
        let least = 0i128.saturating_sub(most_within(0i128.saturating_sub(low), order));
        let middle = (low / 2).saturating_add(high / 2).saturating_add(order / 2);
        let mut nearest = most_within(middle, order).saturating_sub(least);
        let mut left = most_within(high, order).saturating_sub(least);
        let mut weight = order;
        for _ in 0..MOST_DIGITS {
            if left <= 0 {
                break;
            }
            let number = self.puzzle.add_variable()?;
            terms.push((number, 0i128.saturating_sub(weight)))?;
            self.puzzle.choose_first(number, nearest % 2 == 1)?;
            weight = weight.saturating_mul(2);
            nearest /= 2;
            left /= 2;
        }
        Ok(
            equation
                .constant
                .saturating_sub(least.saturating_mul(order)),
        )
    }

    /// Adds what a line of a higher degree allows of its bits, where these are few and no more than one other variable is in it,
    /// whose value it says.
    fn add_line<F: Field, O: MonoOrder>(
        &mut self,
        poly: &Poly<F, O>,
        bits: &Bits,
    ) -> Result<(), AllocError> {
        if poly.len() > MOST_TERMS || !has_product(poly) || bit_of(poly).is_some() {
            return Ok(());
        }
        let mut inputs = Vec::new(self.alloc);
        let mut other = None;
        for x in variables_of(self.alloc, poly)? {
            if bits.contains_key(&x) {
                inputs.push(x)?;
            } else if other.is_some() {
                return Ok(());
            } else {
                other = Some(x);
            }
        }
        if inputs.len() > MOST_INPUTS {
            return Ok(());
        }
        let Some(allowed) = allowed_choices(poly, inputs.as_slice(), other) else {
            return Ok(());
        };
        let mut variables = Vec::new(self.alloc);
        for x in inputs {
            variables.push(self.number(x)?)?;
        }
        self.puzzle.add_condition(Condition { variables, allowed })
    }

    /// The bits that have values, with these.
    fn values(&self) -> Result<Vec<(u32, bool)>, AllocError> {
        let mut values = Vec::new(self.alloc);
        for (x, number) in &self.numbers {
            if let Some(value) = self.puzzle.value(*number) {
                values.push((*x, value))?;
            }
        }
        Ok(values)
    }
}

/// Whether a polynomial has a degree above 1.
fn has_product<F: Field, O: MonoOrder>(poly: &Poly<F, O>) -> bool {
    match poly.lead() {
        Some((_, m)) => m.degree() > 1,
        None => false,
    }
}

/// The greatest number whose multiple of the order is no greater than this.
fn most_within(n: i128, order: i128) -> i128 {
    let quotient = n.checked_div(order).unwrap_or(0);
    if quotient.saturating_mul(order) > n {
        quotient.saturating_sub(1)
    } else {
        quotient
    }
}

/// The choices of values of these bits, by the numbers that have them as their binary digits, with which a polynomial may be 0,
/// whatever the other variable is. None where these are all, or the other variable has a square.
fn allowed_choices<F: Field, O: MonoOrder>(
    poly: &Poly<F, O>,
    inputs: &[u32],
    other: Option<u32>,
) -> Option<u64> {
    let count = 1u64.checked_shl(u32::try_from(inputs.len()).ok()?)?;
    let mut allowed = 0u64;
    let mut is_open = true;
    for choice in 0..count {
        let (rest, slope) = value_of(poly, inputs, other, choice)?;
        if rest.residue() == 0 || slope.residue() != 0 {
            allowed |= 1u64.checked_shl(u32::try_from(choice).ok()?)?;
        } else {
            is_open = false;
        }
    }
    if is_open { None } else { Some(allowed) }
}

/// A polynomial at a choice of the values of some bits: what is left without the other variable, and its coefficient.
fn value_of<F: Field, O: MonoOrder>(
    poly: &Poly<F, O>,
    inputs: &[u32],
    other: Option<u32>,
    choice: u64,
) -> Option<(F, F)> {
    let mut rest = F::of(0);
    let mut slope = F::of(0);
    for (c, m) in poly.iter() {
        let mut has_other = false;
        let mut is_there = true;
        for power in m.pairs() {
            if other == Some(power.0) {
                if power.1 > 1 {
                    return None;
                }
                has_other = true;
            } else if !is_one(inputs, power.0, choice) {
                is_there = false;
            }
        }
        if is_there && has_other {
            slope = slope.add(c);
        } else if is_there {
            rest = rest.add(c);
        }
    }
    Some((rest, slope))
}

/// Values of bits with which the lines that are in bits may have a common zero, if some are found.
pub fn find_model<F: Field, O: MonoOrder>(
    alloc: Global,
    lines: &[Line<F, O>],
    bits: &Bits,
    meter: &mut Meter,
) -> Result<Vec<(u32, bool)>, SearchStop>
    ensures metered { Metered SearchStop.Spent result meter.old meter.new }
{
    let mut model = Model {
        alloc,
        puzzle: Puzzle::new(alloc),
        numbers: BTreeMap::new(alloc),
    };
    for form in bit_forms(alloc, lines, bits)? {
        model.add_form::<F>(&form)?;
    }
    for line in lines {
        model.add_line(&line.poly, bits)?;
    }
    if model.puzzle.solve(meter)? {
        Ok(model.values()?)
    } else {
        Ok(Vec::new(alloc))
    }
}
