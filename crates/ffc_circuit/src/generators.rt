//! What equalities say as polynomials that are zero.
ghost use Rattle.std.specs.Prelude.{◌≡◌};

use crate::equalities::{is_of_order, sides};
use ffc_base::{SearchStop, Spent};
use ffc_cdcl::Lit;
use ffc_encode::{EncodeStop, Polynomials};
use ffc_field::Field;
use ffc_mono::{GradedReverseLex, Mono, MonoStop};
use ffc_poly::{Poly, PolyStop};
use ffc_term::{NodeId, NodeTable, distinct};
use std::alloc::{AllocError, AllocFailed, Global};
use thiserror::Error;

/// A polynomial that is zero where an equality holds.
pub type Generator<F> = Poly<F, GradedReverseLex>;

/// Why polynomials are not made, or not evaluated: a stop of a search, with the errors of polynomials that become one.
#[derive(Clone, Copy, Debug, PartialEq, Eq, Error)]
pub enum GeneratorStop {
    /// A limit of polynomials is passed, or sides are not of the field.
    #[error("no polynomials for these equalities")]
    GaveUp,
    /// The meter is full.
    #[error("the budget is spent")]
    Spent,
    /// Out of memory.
    #[error("out of memory")]
    Memory,
}

impl From<AllocError> for GeneratorStop {
    fn from(_: AllocError) -> GeneratorStop {
        GeneratorStop::Memory
    }
}

impl<T: Drop> From<AllocFailed<T>> for GeneratorStop {
    fn from(_: AllocFailed<T>) -> GeneratorStop {
        GeneratorStop::Memory
    }
}

impl From<EncodeStop> for GeneratorStop {
    fn from(stop: EncodeStop) -> GeneratorStop {
        match stop {
            EncodeStop::TooHigh | EncodeStop::TooLong => GeneratorStop::GaveUp,
            EncodeStop::Memory => GeneratorStop::Memory,
        }
    }
}

impl From<PolyStop> for GeneratorStop {
    fn from(stop: PolyStop) -> GeneratorStop {
        match stop {
            PolyStop::DegreeOver | PolyStop::TermsOver => GeneratorStop::GaveUp,
            PolyStop::Memory => GeneratorStop::Memory,
        }
    }
}

impl From<MonoStop> for GeneratorStop {
    fn from(stop: MonoStop) -> GeneratorStop {
        match stop {
            MonoStop::DegreeOver => GeneratorStop::GaveUp,
            MonoStop::Memory => GeneratorStop::Memory,
        }
    }
}

impl From<Spent> for GeneratorStop {
    fn from(_: Spent) -> GeneratorStop {
        GeneratorStop::Spent
    }
}

impl From<GeneratorStop> for SearchStop {
    fn from(stop: GeneratorStop) -> SearchStop {
        match stop {
            GeneratorStop::GaveUp => SearchStop::GaveUp,
            GeneratorStop::Spent => SearchStop::Spent,
            GeneratorStop::Memory => SearchStop::Memory,
        }
    }
}

/// One side of an equality minus the other. Polynomials of nodes that were made before are not made again.
fn difference<F: Field>(
    polys: &mut Polynomials<'_, F, GradedReverseLex>,
    table: &NodeTable,
    id: NodeId,
) -> Result<Generator<F>, GeneratorStop>
    requires of_table { polys.old ≡ table.now }
    ensures of_table { polys.new ≡ polys.old }
{
    let Some((left, right)) = sides(table, id) else {
        return Err(GeneratorStop::GaveUp);
    };
    if !is_of_order(table, F::ORDER, left) || !is_of_order(table, F::ORDER, right) {
        return Err(GeneratorStop::GaveUp);
    }
    let left = polys.copy_of(left)?;
    let right = polys.copy_of(right)?;
    Ok(left.sub(&right)?)
}

/// The polynomial that is a constant.
fn constant<F: Field>(alloc: Global, value: F) -> Result<Generator<F>, GeneratorStop> {
    let mut terms = Vec::new(alloc);
    terms.push((value, Mono::from_pairs(alloc, &[])?))?;
    Ok(Poly::from_terms(alloc, terms.as_slice())?)
}

/// Says that a polynomial has an inverse, which is a variable: their product minus 1.
pub fn with_inverse<F: Field>(
    alloc: Global,
    poly: &Generator<F>,
    variable: u32,
) -> Result<Generator<F>, GeneratorStop> {
    let inverse = Mono::from_pairs(alloc, &[(variable, 1)])?;
    let minus_one = constant(alloc, F::of(1).neg())?;
    Ok(minus_one.add_multiple(F::of(1), inverse.as_ref(), poly)?)
}

/// The differences of the sides of equalities: zero where an equality holds.
pub fn differences<F: Field>(
    alloc: Global,
    table: &NodeTable,
    equalities: &[Lit],
) -> Result<Vec<Generator<F>>, GeneratorStop> {
    let mut polys = Polynomials::new(alloc, table);
    let mut made = Vec::new(alloc);
    for equality in equalities {
        made.push(difference::<F>(&mut polys, table, equality.node)?)?;
    }
    Ok(made)
}

/// Copies of the polynomials at these places.
pub fn copies_at<F: Field>(
    alloc: Global,
    polys: &[Generator<F>],
    places: &[usize],
) -> Result<Vec<Generator<F>>, GeneratorStop> {
    let mut copies = Vec::new(alloc);
    for place in places {
        if let Some(poly) = polys.get(*place) {
            copies.push(poly.scale(F::of(1))?)?;
        }
    }
    Ok(copies)
}

/// Appends the variables of a polynomial.
fn append_variables<F: Field>(
    poly: &Generator<F>,
    variables: &mut Vec<u32>,
) -> Result<(), AllocError> {
    for (_, monomial) in poly.iter() {
        for power in monomial.pairs() {
            variables.push(power.0)?;
        }
    }
    Ok(())
}

/// The variables of some polynomials, each once, in increasing order.
pub fn variables_of<F: Field>(
    alloc: Global,
    polys: &[Generator<F>],
) -> Result<Vec<u32>, AllocError> {
    let mut variables = Vec::new(alloc);
    for poly in polys {
        append_variables(poly, &mut variables)?;
    }
    distinct(alloc, variables.as_slice())
}
