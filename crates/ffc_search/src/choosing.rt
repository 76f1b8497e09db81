//! The polynomial in one variable by whose roots cases are made.
ghost use Rattle.std.specs.Prelude.{◌≡◌};
ghost use Rattle.ffc_base.specs.Metering.{Metered};

use crate::reducing::reduced_within;
use crate::survey::{Linear, leading_power};
use crate::weights::Weights;
use ffc_base::{Meter, SearchStop};
use ffc_field::Field;
use ffc_line::{Line, LineId};
use ffc_mono::MonoOrder;
use ffc_poly::{Poly, PolyStop};
use ffc_roots::to_univariate;
use ffc_stack::BasisStack;
use ffc_uni::Uni;
use std::alloc::{AllocError, Global};
use std::collections::BTreeSet;
use std::mem;

/// Lines of so many terms replace a variable wherever it leads (`ffc_basis` does that before all else).
const SHORT: usize = 2;

/// A polynomial in one variable: a line less multiples of other lines, or a sum of multiples of lines.
pub struct Candidate<F: Field, O: MonoOrder> {
    pub line: Option<LineId>,
    /// What the other lines are multiplied by, or all of them, where there is no line of its own.
    pub parts: Vec<(LineId, Poly<F, O>)>,
    pub variable: u32,
    pub poly: Uni<F>,
}

impl<F: Field, O: MonoOrder> Drop for Candidate<F, O> {
    fn drop(self) {
        let Candidate {
            line: _,
            parts: _,
            variable: _,
            poly: _,
        } = self;
    }
}

/// The leading term.
fn leading_term<F: Field, O: MonoOrder>(
    alloc: Global,
    poly: &Poly<F, O>,
) -> Result<Poly<F, O>, AllocError> {
    let mut terms = Vec::new(alloc);
    if let Some((c, m)) = poly.lead() {
        terms.push((c, m.to_mono(alloc)?))?;
    }
    match Poly::from_terms(alloc, &terms) {
        Ok(leading) => Ok(leading),
        Err(PolyStop::Memory) => Err(AllocError),
        Err(_) => unreachable!(),
    }
}

/// A sum, or none where it passes a limit of polynomials.
fn within<F: Field, O: MonoOrder>(
    sum: Result<Poly<F, O>, PolyStop>,
) -> Result<Option<Poly<F, O>>, AllocError> {
    match sum {
        Ok(poly) => Ok(Some(poly)),
        Err(PolyStop::Memory) => Err(AllocError),
        Err(_) => Ok(None),
    }
}

/// A line whose leading monomial is a power of x as a candidate, where after the reduction of its other terms no variable but
/// x is left.
fn candidate_of<F: Field, O: MonoOrder>(
    alloc: Global,
    stack: &mut BasisStack<F, O>,
    place: usize,
    x: u32,
    linear: &Linear,
    meter: &mut Meter,
) -> Result<Option<Candidate<F, O>>, SearchStop>
    ensures unchanged { stack.new ≡ stack.old }
    ensures metered { Metered SearchStop.Spent result meter.old meter.new }
{
    let Some(line) = stack.lines().get(place) else {
        return Ok(None);
    };
    if let Some(poly) = to_univariate(alloc, &line.poly, x)? {
        return Ok(Some(Candidate {
            line: Some(place as LineId),
            parts: Vec::new(alloc),
            variable: x,
            poly,
        }));
    }
    if linear.contains_key(&x) {
        return Ok(None);
    }
    let lead = leading_term(alloc, &line.poly)?;
    let Some(tail) = within(line.poly.sub(&lead))? else {
        return Ok(None);
    };
    let Some(mut reduced) = reduced_within(stack, &tail, meter)? else {
        return Ok(None);
    };
    let Some(whole) = within(lead.add(&reduced.rest))? else {
        return Ok(None);
    };
    let Some(poly) = to_univariate(alloc, &whole, x)? else {
        return Ok(None);
    };
    Ok(Some(Candidate {
        line: Some(place as LineId),
        parts: mem::replace(&mut reduced.parts, Vec::new(alloc)),
        variable: x,
        poly,
    }))
}

/// The variable and its exponent, where a line's leading monomial is a power of it, the exponent is 2 or more, and reduction
/// does not replace the variable by less than the line has.
fn open_power<F: Field, O: MonoOrder>(line: &Line<F, O>, linear: &Linear) -> Option<(u32, u32)> {
    let (x, exponent) = leading_power(&line.poly)?;
    if exponent < 2 {
        return None;
    }
    match linear.get(&x) {
        Some((_, len)) if *len <= line.poly.len().max(SHORT) => None,
        _ => Some((x, exponent)),
    }
}

/// The lines that lead by an open power, those of least degree first, then those whose variables have more weight, then those
/// whose variables lead first.
fn open_lines<F: Field, O: MonoOrder>(
    alloc: Global,
    lines: &[Line<F, O>],
    linear: &Linear,
    weights: &Weights,
) -> Result<BTreeSet<(u32, u64, u32, usize)>, AllocError> {
    let mut open = BTreeSet::new(alloc);
    for (place, line) in lines.iter().enumerate() {
        if let Some((x, exponent)) = open_power(line, linear) {
            open.insert((exponent, u64::MAX - weights.of(x), x, place))?;
        }
    }
    Ok(open)
}

/// The candidate of least degree, and among them that of the greatest weight.
pub fn best_candidate<F: Field, O: MonoOrder>(
    alloc: Global,
    stack: &mut BasisStack<F, O>,
    linear: &Linear,
    weights: &Weights,
    meter: &mut Meter,
) -> Result<Option<Candidate<F, O>>, SearchStop>
    ensures unchanged { stack.new ≡ stack.old }
    ensures metered { Metered SearchStop.Spent result meter.old meter.new }
{
    for (_, _, x, place) in open_lines(alloc, stack.lines(), linear, weights)? {
        if let Some(found) = candidate_of(alloc, stack, place, x, linear, meter)? {
            return Ok(Some(found));
        }
    }
    Ok(None)
}
