//! The rewriting of a polynomial by lines, each of which replaces a power of a variable, in their order and whatever the order of
//! monomials is.
ghost use Rattle.std.specs.Prelude.{◌≡◌, IsErrOf};

use crate::derived::Source;
use crate::polynomials::within;
use ffc_base::SearchStop;
use ffc_field::Field;
use ffc_mono::{Mono, MonoOrder, MonoRef};
use ffc_poly::Poly;
use std::alloc::Global;

/// At most so many multiples are subtracted by one line.
const MOST_STEPS: usize = 64;

/// A line that replaces a power of a variable.
pub struct Rewrite<'a, F: Field, O: MonoOrder> {
    pub source: Source,
    pub poly: &'a Poly<F, O>,
    pub variable: u32,
    pub exponent: u32,
}

impl<F: Field, O: MonoOrder> Drop for Rewrite<'_, F, O> {
    fn drop(self) {
        let Rewrite {
            source: _,
            poly: _,
            variable: _,
            exponent: _,
        } = self;
    }
}

/// A monomial divided by a power of a variable, where that divides it.
fn quotient(
    alloc: Global,
    m: MonoRef<'_>,
    x: u32,
    exponent: u32,
) -> Result<Option<Mono>, SearchStop>
    ensures unmetered { ¬ (IsErrOf result SearchStop.Spent) }
{
    if exponent == 0 {
        return Ok(None);
    }
    let power = crate::polynomials::monomial(Mono::from_pairs(alloc, &[(x, exponent)]))?;
    if !power.as_ref().divides(m) {
        return Ok(None);
    }
    let whole = m.to_mono(alloc)?;
    if power.divides(&whole) {
        Ok(Some(whole.quotient(&power)?))
    } else {
        Ok(None)
    }
}

impl<F: Field, O: MonoOrder> Rewrite<'_, F, O> {
    /// The coefficient of the power that is replaced.
    fn coefficient(&self) -> Option<F> {
        for (c, m) in self.poly.iter() {
            match m.pairs() {
                [power] if *power == (self.variable, self.exponent) => return Some(c),
                _ => {}
            }
        }
        None
    }

    /// The first term that has the power: its coefficient, and the rest of its monomial.
    fn first_in(&self, alloc: Global, poly: &Poly<F, O>) -> Result<Option<(F, Mono)>, SearchStop>
        ensures unmetered { ¬ (IsErrOf result SearchStop.Spent) }
    {
        for (c, m) in poly.iter() {
            if let Some(rest) = quotient(alloc, m, self.variable, self.exponent)? {
                return Ok(Some((c, rest)));
            }
        }
        Ok(None)
    }

    /// Replaces the power wherever it occurs, and answers what is left, with what the line was multiplied by.
    pub fn run(
        &self,
        alloc: Global,
        poly: Poly<F, O>,
    ) -> Result<(Poly<F, O>, Poly<F, O>), SearchStop>
        ensures unmetered { ¬ (IsErrOf result SearchStop.Spent) }
    {
        let Some(inverse) = self.coefficient().and_then(|c| c.inv()) else {
            return Err(SearchStop::GaveUp);
        };
        let mut rest = poly;
        let mut factors: Vec<(F, Mono)> = Vec::new(alloc);
        for _ in 0..MOST_STEPS {
            let Some((c, mono)) = self.first_in(alloc, &rest)? else {
                break;
            };
            let factor = c.mul(inverse);
            rest = within(rest.sub_multiple(factor, mono.as_ref(), self.poly))?;
            factors.push((factor, mono))?;
        }
        let factor = within(Poly::from_terms(alloc, factors.as_slice()))?;
        Ok((rest, factor))
    }
}

/// The multiples of these lines that a polynomial is the sum of, where they replace all of it, one after the other.
pub fn rewritten<F: Field, O: MonoOrder>(
    alloc: Global,
    poly: Poly<F, O>,
    rules: &[Rewrite<'_, F, O>],
) -> Result<Option<Vec<(Source, Poly<F, O>)>>, SearchStop>
    ensures unmetered { ¬ (IsErrOf result SearchStop.Spent) }
{
    let mut rest = poly;
    let mut parts = Vec::new(alloc);
    for rule in rules {
        let (left, factor) = rule.run(alloc, rest)?;
        rest = left;
        if !factor.is_zero() {
            parts.push((rule.source, factor))?;
        }
    }
    Ok(if rest.is_zero() { Some(parts) } else { None })
}

/// The polynomial x*x - x.
pub fn square_less<F: Field, O: MonoOrder>(alloc: Global, x: u32) -> Result<Poly<F, O>, SearchStop>
    ensures unmetered { ¬ (IsErrOf result SearchStop.Spent) }
{
    let mut terms = Vec::new(alloc);
    let square = crate::polynomials::monomial(Mono::from_pairs(alloc, &[(x, 2)]))?;
    terms.push((F::of(1), square))?;
    terms.push((F::of(1).neg(), crate::polynomials::single(alloc, x)?))?;
    within(Poly::from_terms(alloc, terms.as_slice()))
}
