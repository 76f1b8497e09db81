//! The polynomials of consequences.
ghost use Rattle.std.specs.Prelude.{◌≡◌, IsErrOf};

use ffc_base::SearchStop;
use ffc_field::Field;
use ffc_mono::{Mono, MonoOrder, MonoStop};
use ffc_poly::{Poly, PolyStop};
use std::alloc::Global;

/// A polynomial, where no limit is passed.
pub fn within<F: Field, O: MonoOrder>(
    made: Result<Poly<F, O>, PolyStop>,
) -> Result<Poly<F, O>, SearchStop>
    ensures unmetered { ¬ (IsErrOf result SearchStop.Spent) }
{
    match made {
        Ok(poly) => Ok(poly),
        Err(PolyStop::Memory) => Err(SearchStop::Memory),
        Err(_) => Err(SearchStop::GaveUp),
    }
}

/// A monomial, where no limit is passed.
pub fn monomial(made: Result<Mono, MonoStop>) -> Result<Mono, SearchStop>
    ensures unmetered { ¬ (IsErrOf result SearchStop.Spent) }
{
    match made {
        Ok(mono) => Ok(mono),
        Err(MonoStop::Memory) => Err(SearchStop::Memory),
        Err(MonoStop::DegreeOver) => Err(SearchStop::GaveUp),
    }
}

/// The monomial of one variable.
pub fn single(alloc: Global, x: u32) -> Result<Mono, SearchStop>
    ensures unmetered { ¬ (IsErrOf result SearchStop.Spent) }
{
    monomial(Mono::from_pairs(alloc, &[(x, 1)]))
}

/// The polynomial of these terms: coefficients with variables, or with none.
pub fn linear<F: Field, O: MonoOrder>(
    alloc: Global,
    parts: Vec<(F, Option<u32>)>,
) -> Result<Poly<F, O>, SearchStop>
    ensures unmetered { ¬ (IsErrOf result SearchStop.Spent) }
{
    let mut terms = Vec::new(alloc);
    for (c, variable) in parts {
        match variable {
            Some(x) => terms.push((c, single(alloc, x)?))?,
            None => terms.push((c, monomial(Mono::from_pairs(alloc, &[]))?))?,
        }
    }
    within(Poly::from_terms(alloc, terms.as_slice()))
}

/// A constant.
pub fn constant<F: Field, O: MonoOrder>(alloc: Global, value: F) -> Result<Poly<F, O>, SearchStop>
    ensures unmetered { ¬ (IsErrOf result SearchStop.Spent) }
{
    let mut parts = Vec::new(alloc);
    parts.push((value, None))?;
    linear(alloc, parts)
}

/// The polynomial that is 0 where just an even number of three bits is 1, or, with true, an odd number: the first one is the
/// exclusive or of the others, or its negation.
pub fn exclusive_or<F: Field, O: MonoOrder>(
    alloc: Global,
    bits: (u32, u32, u32),
    is_odd: bool,
) -> Result<Poly<F, O>, SearchStop>
    ensures unmetered { ¬ (IsErrOf result SearchStop.Spent) }
{
    let (x, y, z) = bits;
    let one = F::of(1);
    let sign = if is_odd { one } else { one.neg() };
    let mut terms = Vec::new(alloc);
    terms.push((one, single(alloc, x)?))?;
    terms.push((sign, single(alloc, y)?))?;
    terms.push((sign, single(alloc, z)?))?;
    let product = monomial(single(alloc, y)?.mul(&single(alloc, z)?))?;
    terms.push((sign.neg().add(sign.neg()), product))?;
    if is_odd {
        terms.push((one.neg(), monomial(Mono::from_pairs(alloc, &[]))?))?;
    }
    within(Poly::from_terms(alloc, terms.as_slice()))
}
