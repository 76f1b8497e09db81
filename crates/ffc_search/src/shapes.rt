//! What generators say of sums of bits that are named step by step (`ffc_runningsums`).
use ffc_bits::bit_of;
use ffc_field::Field;
use ffc_line::Line;
use ffc_mono::MonoOrder;
use ffc_poly::Poly;
use ffc_runningsums::{Difference, Shape};
use std::alloc::{AllocError, Global};

/// An equation of a step names two sums and a bit.
const MOST_VARIABLES: usize = 3;

/// A generator that says that a variable is a bit, if it does.
fn bit<F: Field, O: MonoOrder>(poly: &Poly<F, O>) -> Option<Shape> {
    let x = bit_of(poly)?;
    let (c, _) = poly.lead()?;
    Some(Shape::Bit(x, c.residue()))
}

/// A generator that is a sum of multiples of few variables, if it is.
fn linear<F: Field, O: MonoOrder>(
    alloc: Global,
    poly: &Poly<F, O>,
) -> Result<Option<Shape>, AllocError> {
    let mut terms = Vec::new(alloc);
    let mut constant = 0;
    for (c, m) in poly.iter() {
        match m.pairs() {
            [] => constant = c.residue(),
            [power] if power.1 == 1 && terms.len() < MOST_VARIABLES => {
                terms.push((power.0, c.residue()))?;
            }
            _ => return Ok(None),
        }
    }
    if terms.is_empty() {
        return Ok(None);
    }
    Ok(Some(Shape::Linear(terms, constant)))
}

/// The variables of a product of two.
fn factors(m: &[(u32, u32)]) -> Option<(u32, u32)> {
    match m {
        [one, other] if one.1 == 1 && other.1 == 1 => Some((one.0, other.0)),
        _ => None,
    }
}

/// The variable that two products of two variables share, and the other ones.
fn shared(one: &[(u32, u32)], other: &[(u32, u32)]) -> Option<(u32, u32, u32)> {
    let (a, b) = factors(one)?;
    let (c, d) = factors(other)?;
    if a == c {
        Some((a, b, d))
    } else if b == d {
        Some((b, a, c))
    } else if a == d {
        Some((a, b, c))
    } else if b == c {
        Some((b, a, d))
    } else {
        None
    }
}

/// A generator that says that two variables differ, if it does.
fn difference<F: Field, O: MonoOrder>(poly: &Poly<F, O>) -> Option<Shape> {
    if poly.len() != 3 {
        return None;
    }
    let (c, one) = poly.term(0);
    let (d, other) = poly.term(1);
    let (constant, last) = poly.term(2);
    if last.degree() != 0 || c.add(d).residue() != 0 {
        return None;
    }
    let (inverse, one, other) = shared(one.pairs(), other.pairs())?;
    Some(Shape::Differ(Difference {
        inverse,
        one,
        other,
        scale: c.residue(),
        constant: constant.residue(),
    }))
}

/// What a generator says.
fn shape_of<F: Field, O: MonoOrder>(alloc: Global, poly: &Poly<F, O>) -> Result<Shape, AllocError> {
    if let Some(shape) = linear(alloc, poly)? {
        return Ok(shape);
    }
    match bit(poly) {
        Some(shape) => Ok(shape),
        None => Ok(difference(poly).unwrap_or(Shape::Other)),
    }
}

/// What the generators among lines say, in order.
pub fn shapes_of<F: Field, O: MonoOrder>(
    alloc: Global,
    lines: &[Line<F, O>],
) -> Result<Vec<Shape>, AllocError> {
    let mut shapes = Vec::new(alloc);
    for line in lines {
        if line.parts.is_empty() {
            shapes.push(shape_of(alloc, &line.poly)?)?;
        }
    }
    Ok(shapes)
}
