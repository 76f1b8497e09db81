//! A sum of powers of a variable, reduced by lines with Horner's rule, and the multiples of lines that were subtracted.
ghost use Rattle.std.specs.Prelude.{◌≡◌};
ghost use Rattle.ffc_base.specs.Metering.{Metered};

use ffc_base::{Meter, Stop};
use ffc_basis::Reduced;
use ffc_field::Field;
use ffc_line::LineId;
use ffc_mono::{Mono, MonoOrder, MonoStop};
use ffc_poly::{Poly, PolyStop};
use ffc_stack::BasisStack;
use std::alloc::{AllocError, Global};

/// Numbers of lines, and what each is multiplied by.
pub type Parts<F, O> = Vec<(LineId, Poly<F, O>)>;

/// What is left of a polynomial, and the multiples of lines that were subtracted.
pub(crate) struct Remainder<F: Field, O: MonoOrder> {
    pub rest: Poly<F, O>,
    pub parts: Parts<F, O>,
}

impl<F: Field, O: MonoOrder> Drop for Remainder<F, O> {
    fn drop(self) {
        let Remainder { rest: _, parts: _ } = self;
    }
}

impl<F: Field, O: MonoOrder> Remainder<F, O> {
    /// The multiples of lines.
    pub(crate) fn into_parts(self) -> Parts<F, O> {
        let Remainder { rest: _, parts } = self;
        parts
    }
}

/// A polynomial, or none where it passes a limit of polynomials.
fn within<F: Field, O: MonoOrder>(
    made: Result<Poly<F, O>, PolyStop>,
) -> Result<Option<Poly<F, O>>, AllocError> {
    match made {
        Ok(poly) => Ok(Some(poly)),
        Err(PolyStop::Memory) => Err(AllocError),
        Err(_) => Ok(None),
    }
}

/// A constant.
pub(crate) fn constant<F: Field, O: MonoOrder>(
    alloc: Global,
    c: F,
) -> Result<Poly<F, O>, AllocError> {
    let one = match Mono::from_pairs(alloc, &[]) {
        Ok(one) => one,
        Err(MonoStop::DegreeOver) => unreachable!(),
        Err(MonoStop::Memory) => return Err(AllocError),
    };
    let mut terms = Vec::new(alloc);
    terms.push((c, one))?;
    match Poly::from_terms(alloc, terms.as_slice()) {
        Ok(poly) => Ok(poly),
        Err(PolyStop::Memory) => Err(AllocError),
        Err(_) => unreachable!(),
    }
}

/// The product with a monomial, if it is within the limits.
pub(crate) fn product_with<F: Field, O: MonoOrder>(
    poly: &Poly<F, O>,
    x: &Mono,
) -> Result<Option<Poly<F, O>>, AllocError> {
    within(poly.mul_term(F::of(1), x))
}

/// A polynomial reduced by the lines, if no limit is passed.
pub(crate) fn reduced_by<F: Field, O: MonoOrder>(
    stack: &mut BasisStack<F, O>,
    poly: &Poly<F, O>,
    meter: &mut Meter,
) -> Result<Option<Reduced<F, O>>, Stop>
    ensures unchanged { stack.new ≡ stack.old }
    ensures metered { Metered Stop.Spent result meter.old meter.new }
{
    let reduced = stack.reduce(poly, meter)?;
    if reduced.over.is_some() {
        return Ok(None);
    }
    Ok(Some(reduced))
}

/// Each part times a monomial.
fn parts_times<F: Field, O: MonoOrder>(
    alloc: Global,
    parts: &[(LineId, Poly<F, O>)],
    x: &Mono,
) -> Result<Option<Parts<F, O>>, AllocError> {
    let mut products = Vec::new(alloc);
    for part in parts {
        let Some(product) = product_with(&part.1, x)? else {
            return Ok(None);
        };
        products.push((part.0, product))?;
    }
    Ok(Some(products))
}

/// The place of a line's part.
fn place_of<F: Field, O: MonoOrder>(parts: &[(LineId, Poly<F, O>)], line: LineId) -> Option<usize> {
    for (place, part) in parts.iter().enumerate() {
        if part.0 == line {
            return Some(place);
        }
    }
    None
}

/// Adds a polynomial to the part of a line. Whether this is within the limits.
fn add_part<F: Field, O: MonoOrder>(
    parts: &mut Parts<F, O>,
    line: LineId,
    poly: &Poly<F, O>,
) -> Result<bool, AllocError> {
    if let Some(place) = place_of(parts.as_slice(), line) {
        if let Some(part) = parts.get_mut(place) {
            let Some(sum) = within(part.1.add(poly))? else {
                return Ok(false);
            };
            part.1 = sum;
            return Ok(true);
        }
    }
    parts.push((line, poly.clone()?))?;
    Ok(true)
}

/// Adds further parts. Whether this is within the limits.
fn add_parts<F: Field, O: MonoOrder>(
    parts: &mut Parts<F, O>,
    more: &[(LineId, Poly<F, O>)],
) -> Result<bool, AllocError> {
    for part in more {
        if !add_part(parts, part.0, &part.1)? {
            return Ok(false);
        }
    }
    Ok(true)
}

/// x times a polynomial, and a constant.
fn raised<F: Field, O: MonoOrder>(
    alloc: Global,
    poly: &Poly<F, O>,
    x: &Mono,
    c: F,
) -> Result<Option<Poly<F, O>>, AllocError> {
    let Some(product) = product_with(poly, x)? else {
        return Ok(None);
    };
    let constant = constant(alloc, c)?;
    within(product.add(&constant))
}

/// One step of Horner's rule: x times what a remainder is of, and a constant.
fn step<F: Field, O: MonoOrder>(
    alloc: Global,
    stack: &mut BasisStack<F, O>,
    before: &Remainder<F, O>,
    x: &Mono,
    c: F,
    meter: &mut Meter,
) -> Result<Option<Remainder<F, O>>, Stop>
    ensures unchanged { stack.new ≡ stack.old }
    ensures metered { Metered Stop.Spent result meter.old meter.new }
{
    let Some(poly) = raised(alloc, &before.rest, x, c)? else {
        return Ok(None);
    };
    let Some(reduced) = reduced_by(stack, &poly, meter)? else {
        return Ok(None);
    };
    let Some(mut parts) = parts_times(alloc, before.parts.as_slice(), x)? else {
        return Ok(None);
    };
    if !add_parts(&mut parts, reduced.parts.as_slice())? {
        return Ok(None);
    }
    let rest = reduced.rest.clone()?;
    Ok(Some(Remainder { rest, parts }))
}

/// The sum of the powers of x with these coefficients, from the power 0 on, reduced by the lines.
pub(crate) fn remainder_of<F: Field, O: MonoOrder>(
    alloc: Global,
    stack: &mut BasisStack<F, O>,
    x: &Mono,
    coefs: &[F],
    meter: &mut Meter,
) -> Result<Option<Remainder<F, O>>, Stop>
    ensures unchanged { stack.new ≡ stack.old }
    ensures metered { Metered Stop.Spent result meter.old meter.new }
{
    let mut remainder = Remainder {
        rest: Poly::zero(alloc),
        parts: Vec::new(alloc),
    };
    for c in coefs.iter().rev() {
        let Some(next) = step(alloc, stack, &remainder, x, *c, meter)? else {
            return Ok(None);
        };
        remainder = next;
    }
    Ok(Some(remainder))
}
