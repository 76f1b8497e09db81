//! Values by going forward, as a circuit is evaluated: inputs are guessed, an equality that is linear in its last unknown
//! variable gives it a value, and a weighted sum of bits gives the bits of its value. So a circuit that is not bound has a
//! witness at the cost of its size.
use crate::digits::{bits_of, digits_of};
use crate::generators::{Generator, GeneratorStop, variables_of};
use crate::occurrences::Occurrences;
use ffc_base::{Meter, Unit};
use ffc_field::Field;
use ffc_mono::MonoRef;
use std::alloc::{AllocError, Global};
use std::collections::{BTreeMap, BTreeSet};

/// How inputs are guessed, one way after the other.
#[derive(Clone, Copy)]
enum Guess {
    /// Each input has this value.
    Same(u8),
    /// The inputs have the values 1, 2, 3 and so on.
    Counted,
    /// Their values have no pattern.
    Scattered,
}

const GUESSES: [Guess; 4] = [
    Guess::Same(0),
    Guess::Same(1),
    Guess::Counted,
    Guess::Scattered,
];

/// 2^64 divided by the golden ratio: its multiples modulo an order are spread evenly (Knuth, volume 3, section 6.4).
const SPREAD: u128 = 11_400_714_819_323_198_485;

impl Guess {
    /// The value of the next input, where so many were guessed before.
    fn value<F: Field>(self, before: u32) -> F {
        let next = u128::from(before) + 1;
        match self {
            Guess::Same(value) => F::of(u128::from(value)),
            Guess::Counted => F::of(next),
            Guess::Scattered => F::of(SPREAD * next),
        }
    }
}

/// Values of some variables: residues, since a map of elements would be made anew for each field.
pub type Values = BTreeMap<u32, u64>;

/// What is known of a polynomial whose variables have values but for one at most.
#[derive(Clone, Copy)]
enum Known<F: Field> {
    /// Its value.
    Value(F),
    /// It is 0 where the variable has this value, and nowhere else.
    Root(u32, F),
    /// Nothing: it is not linear in the variable.
    Open,
}

/// A product of values, and the variable of the monomial that has none.
pub fn partial<F: Field>(values: &Values, c: F, m: MonoRef<'_>) -> (F, Option<(u32, u32)>) {
    let mut product = c;
    let mut unknown = None;
    for power in m.pairs() {
        match values.get(&power.0) {
            Some(residue) => {
                let value = F::of(u128::from(*residue));
                product = product.mul(value.pow(u64::from(power.1)));
            }
            None => unknown = Some(*power),
        }
    }
    (product, unknown)
}

/// What the values of all variables but one say of a polynomial.
fn look_at<F: Field>(values: &Values, poly: &Generator<F>) -> Known<F> {
    let mut rest = F::of(0);
    let mut slope = F::of(0);
    let mut variable = None;
    for (c, m) in poly.iter() {
        let (product, unknown) = partial(values, c, m);
        match unknown {
            None => rest = rest.add(product),
            Some((x, 1)) => {
                slope = slope.add(product);
                variable = Some(x);
            }
            Some(_) => return Known::Open,
        }
    }
    match (variable, slope.inv()) {
        (None, _) => Known::Value(rest),
        (Some(x), Some(inverse)) => Known::Root(x, rest.neg().mul(inverse)),
        (Some(_), None) => Known::Open,
    }
}

/// An evaluation that is under way.
struct Evaluation<'a, F: Field> {
    polys: &'a [&'a Generator<F>],
    occurrences: &'a Occurrences,
    bits: &'a BTreeSet<u32>,
    values: Values,
    /// How many variables of each polynomial have no value.
    missing: Vec<usize>,
    /// Polynomials that had one such variable when they were put here.
    open: Vec<usize>,
}

impl<F: Field> Drop for Evaluation<'_, F> {
    fn drop(self) {
        let Evaluation {
            polys: _,
            occurrences: _,
            bits: _,
            values: _,
            missing: _,
            open: _,
        } = self;
    }
}

impl<'a, F: Field> Evaluation<'a, F> {
    /// The evaluation in which no variable has a value.
    fn begin(
        alloc: Global,
        polys: &'a [&'a Generator<F>],
        occurrences: &'a Occurrences,
        bits: &'a BTreeSet<u32>,
    ) -> Result<Self, AllocError> {
        let missing = occurrences.counts(alloc)?;
        let mut open = Vec::new(alloc);
        for (place, count) in missing.iter().enumerate() {
            if *count <= 1 {
                open.push(place)?;
            }
        }
        Ok(Evaluation {
            polys,
            occurrences,
            bits,
            values: BTreeMap::new(alloc),
            missing,
            open,
        })
    }

    /// Gives a variable a value.
    fn set(&mut self, x: u32, value: F) -> Result<(), AllocError> {
        self.values.insert(x, value.residue())?;
        for place in self.occurrences.places_of(x) {
            if let Some(missing) = self.missing.get_mut(*place) {
                *missing = missing.saturating_sub(1);
                if *missing <= 1 {
                    self.open.push(*place)?;
                }
            }
        }
        Ok(())
    }

    /// Whether a polynomial in which this bit occurs is a weighted sum of bits without values, beside variables with values.
    /// Then they get the digits of its value, where that has any.
    fn decompose(&mut self, alloc: Global, bit: u32) -> Result<bool, AllocError> {
        for place in self.occurrences.places_of(bit) {
            if let Some(poly) = self.polys.get(*place) {
                if let Some(digits) = digits_of(alloc, &self.values, self.bits, poly)? {
                    for digit in digits {
                        self.set(digit.0, F::of(u128::from(digit.1)))?;
                    }
                    return Ok(true);
                }
            }
        }
        Ok(false)
    }

    /// Gives values to the variables that follow from those that have one. Says whether no polynomial has a value other than 0.
    fn follow(&mut self) -> Result<bool, AllocError> {
        for _ in 0..u64::MAX {
            let Some(place) = self.open.pop() else {
                break;
            };
            let Some(poly) = self.polys.get(place) else {
                continue;
            };
            match look_at(&self.values, poly) {
                Known::Value(value) => {
                    if value.residue() != 0 {
                        return Ok(false);
                    }
                }
                Known::Root(x, value) => self.set(x, value)?,
                Known::Open => {}
            }
        }
        Ok(true)
    }

    /// Gives a value to a variable that has none.
    fn choose(
        &mut self,
        alloc: Global,
        x: u32,
        guess: Guess,
        before: u32,
    ) -> Result<(), AllocError> {
        let value = guess.value::<F>(before);
        if !self.bits.contains(&x) {
            return self.set(x, value);
        }
        if self.decompose(alloc, x)? {
            return Ok(());
        }
        self.set(x, F::of(u128::from(value.residue() % 2)))
    }

    /// Guesses these variables one after the other, but those that follow. Says whether all polynomials are 0.
    fn run(&mut self, alloc: Global, variables: &[u32], guess: Guess) -> Result<bool, AllocError> {
        let mut guessed = 0u32;
        if !self.follow()? {
            return Ok(false);
        }
        for x in variables {
            if !self.values.contains_key(x) {
                self.choose(alloc, *x, guess, guessed)?;
                guessed = guessed.saturating_add(1);
                if !self.follow()? {
                    return Ok(false);
                }
            }
        }
        Ok(true)
    }

    /// Whether no polynomial of these is 0.
    fn are_nonzero(&self, polys: &[Generator<F>]) -> bool {
        polys.iter().all(
            |poly| matches!(look_at(&self.values, poly), Known::Value(v) if v.residue() != 0),
        )
    }

    /// The variables with their values.
    fn pairs(&self, alloc: Global) -> Result<Vec<(u32, u64)>, AllocError> {
        let mut pairs = Vec::new(alloc);
        for (x, value) in &self.values {
            pairs.push((*x, *value))?;
        }
        Ok(pairs)
    }
}

/// In which order variables are guessed.
#[derive(Clone, Copy)]
pub enum Inputs {
    /// From the variable of the lowest number on, as a circuit is written.
    First,
    /// From the one of the highest number on.
    Last,
}

/// Which inputs are guessed, where the polynomials that are to be 0 come from so many equalities. With at least as many of these as
/// variables and bits the inputs may be fixed: then one guess shows it, and only with the equalities as they are written.
fn guesses(inputs: Inputs, unknowns: usize, equalities: usize) -> &'static [Guess] {
    match inputs {
        _ if unknowns > equalities => &GUESSES,
        Inputs::First => &GUESSES[..1],
        Inputs::Last => &[],
    }
}

/// Values at which each of `equal` is 0 and none of `unequal` is, if they follow from guessed inputs, where these come from so many
/// equalities. Each guess of all inputs is one Trial.
pub fn values_forward<F: Field>(
    alloc: Global,
    equal: &[&Generator<F>],
    unequal: &[Generator<F>],
    equalities: usize,
    inputs: Inputs,
    meter: &mut Meter,
) -> Result<Option<Vec<(u32, u64)>>, GeneratorStop> {
    let mut occurrences = Occurrences::new(alloc);
    for poly in equal {
        occurrences.add(alloc, poly)?;
    }
    let bits = bits_of(alloc, equal)?;
    let mut variables = occurrences.all(alloc)?;
    let unknowns = variables.len().saturating_add(bits.len());
    if let Inputs::Last = inputs {
        variables.as_mut_slice().reverse();
    }
    for x in variables_of(alloc, unequal)? {
        variables.push(x)?;
    }
    for guess in guesses(inputs, unknowns, equalities) {
        meter.take(Unit::Trial)?;
        let mut evaluation = Evaluation::begin(alloc, equal, &occurrences, &bits)?;
        if evaluation.run(alloc, variables.as_slice(), *guess)? && evaluation.are_nonzero(unequal) {
            return Ok(Some(evaluation.pairs(alloc)?));
        }
    }
    Ok(None)
}
