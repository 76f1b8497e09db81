//! Polynomials before their field is chosen.
use ffc_field::Field;
use ffc_mono::{GradedReverseLex, Mono, MonoStop};
use ffc_poly::{Poly, PolyStop};
use std::alloc::{AllocError, AllocFailed, Global};

pub type Sparse<F> = Poly<F, GradedReverseLex>;

/// The terms of a polynomial, each with a number for the coefficient.
pub type Draft = Vec<(u64, Mono)>;

/// A limit was passed, or there was no memory.
#[derive(Clone, Copy, Debug, Drop)]
pub struct NotMade;

impl From<MonoStop> for NotMade {
    fn from(_: MonoStop) -> NotMade {
        NotMade
    }
}

impl From<PolyStop> for NotMade {
    fn from(_: PolyStop) -> NotMade {
        NotMade
    }
}

impl From<AllocError> for NotMade {
    fn from(_: AllocError) -> NotMade {
        NotMade
    }
}

impl<T: Drop> From<AllocFailed<T>> for NotMade {
    fn from(_: AllocFailed<T>) -> NotMade {
        NotMade
    }
}

/// A monomial times a power of a variable.
pub fn times_power(
    alloc: Global,
    product: Mono,
    variable: u32,
    exponent: u32,
) -> Result<Mono, MonoStop> {
    if exponent == 0 {
        return Ok(product);
    }
    let power = Mono::from_pairs(alloc, &[(variable, exponent)])?;
    product.mul(&power)
}

/// Appends a number times a product of variables.
pub fn push(draft: &mut Draft, number: u64, factors: &[u32]) -> Result<(), NotMade> {
    let alloc = *draft.allocator();
    let mut product = Mono::from_pairs(alloc, &[])?;
    for variable in factors {
        product = times_power(alloc, product, *variable, 1)?;
    }
    draft.push((number, product))?;
    Ok(())
}

/// The polynomial over a field.
pub fn poly_of<F: Field>(alloc: Global, draft: Draft) -> Result<Sparse<F>, NotMade> {
    let mut terms = Vec::new(alloc);
    for (number, product) in draft {
        terms.push((F::of(u128::from(number)), product))?;
    }
    Ok(Poly::from_terms(alloc, terms.as_slice())?)
}

/// The polynomials over a field.
pub fn polys_of<F: Field>(alloc: Global, drafts: Vec<Draft>) -> Result<Vec<Sparse<F>>, NotMade> {
    let mut polys = Vec::new(alloc);
    for draft in drafts {
        polys.push(poly_of(alloc, draft)?)?;
    }
    Ok(polys)
}
