//! Cases by the roots of a polynomial in one variable: which these are, and why there are no others.
ghost use Rattle.ffc_base.specs.Metering.{Metered};

use crate::choosing::Candidate;
use ffc_base::{Meter, SearchStop};
use ffc_bits::{Derived, Source};
use ffc_casetree::{
    FactId, NO_FACT, Tree, multiples_of, record, record_sum, residues, scaled_line, terms_in,
};
use ffc_cert::CertLine;
use ffc_field::Field;
use ffc_line::{Line, LineId};
use ffc_mono::MonoOrder;
use ffc_poly::{Poly, PolyStop};
use ffc_roots::{Roots, roots};
use ffc_uni::{Chain, Uni};
use std::alloc::{AllocError, Global};

/// The roots of a polynomial, and why there are no others, where the polynomial is not the product of its X - root.
#[derive(Drop)]
pub struct Cases<F: Field> {
    pub zeros: Vec<F>,
    proof: Option<Roots<F>>,
}

/// The roots of a polynomial of degree 1, or of degree 2 without a constant, where these are different: for those of a bit no
/// power has to be taken.
fn short_roots<F: Field>(alloc: Global, poly: &Uni<F>) -> Result<Option<Vec<F>>, AllocError> {
    let (constant, slope) = match poly.coefs() {
        [constant, slope] => (*constant, *slope),
        [zero, constant, slope] if zero.residue() == 0 && constant.residue() != 0 => {
            (*constant, *slope)
        }
        _ => return Ok(None),
    };
    let Some(inverse) = slope.inv() else {
        return Ok(None);
    };
    let mut zeros = Vec::new(alloc);
    if poly.coefs().len() > 2 {
        zeros.push(F::of(0))?;
    }
    zeros.push(constant.neg().mul(inverse))?;
    Ok(Some(zeros))
}

/// The roots of a polynomial that is no constant.
pub fn cases_of<F: Field>(
    alloc: Global,
    poly: &Uni<F>,
    meter: &mut Meter,
) -> Result<Cases<F>, SearchStop>
    ensures metered { Metered SearchStop.Spent result meter.old meter.new }
{
    if let Some(zeros) = short_roots(alloc, poly)? {
        return Ok(Cases { zeros, proof: None });
    }
    if poly.coefs().len() < 2 {
        return Err(SearchStop::GaveUp);
    }
    let found = roots(alloc, poly, meter)?;
    let mut zeros = Vec::new(alloc);
    zeros.extend_from_slice(found.zeros.as_slice())?;
    let is_product = zeros.len() == poly.coefs().len().saturating_sub(1);
    let proof = if is_product { None } else { Some(found) };
    Ok(Cases { zeros, proof })
}

/// The parts, subtracted.
fn negated<F: Field, O: MonoOrder>(
    alloc: Global,
    parts: &[(LineId, Poly<F, O>)],
) -> Result<Vec<(LineId, Poly<F, O>)>, AllocError> {
    let mut negated = Vec::new(alloc);
    for part in parts {
        match part.1.scale(F::of(1).neg()) {
            Ok(opposite) => negated.push((part.0, opposite))?,
            Err(PolyStop::Memory) => return Err(AllocError),
            Err(_) => unreachable!(),
        }
    }
    Ok(negated)
}

/// Records a candidate as a fact. Should the candidate's line be none, it gets a number that no fact has, with which no tree is
/// accepted.
fn record_candidate<F: Field, O: MonoOrder>(
    alloc: Global,
    tree: &mut Tree,
    lines: &[Line<F, O>],
    derived: &Derived<F, O>,
    candidate: &Candidate<F, O>,
) -> Result<FactId, AllocError> {
    for part in candidate.parts.as_slice() {
        let _ = record(alloc, tree, lines, derived, Source::Line(part.0))?;
    }
    let Some(line) = candidate.line else {
        let multiples = multiples_of(alloc, tree, &candidate.parts)?;
        return record_sum(alloc, tree, multiples);
    };
    let fact = record(alloc, tree, lines, derived, Source::Line(line))?;
    if candidate.parts.is_empty() {
        return Ok(fact);
    }
    let parts = negated(alloc, &candidate.parts)?;
    let mut multiples = multiples_of(alloc, tree, &parts)?;
    multiples.push(scaled_line(alloc, fact, F::of(1))?)?;
    record_sum(alloc, tree, multiples)
}

/// Records the chain of a fact in x: its power less x.
fn record_chain<F: Field>(
    alloc: Global,
    tree: &mut Tree,
    fact: FactId,
    x: u32,
    chain: &Chain<F>,
) -> Result<FactId, AllocError> {
    let mut steps = Vec::new(alloc);
    for step in chain.steps.as_slice() {
        let quotient = residues(alloc, step.0.coefs())?;
        let remainder = residues(alloc, step.1.coefs())?;
        steps.push(CertLine::Step(quotient, remainder))?;
    }
    tree.add_chain(fact, x, steps)
}

/// Records a fact times the inverse of its leading coefficient.
fn record_monic<F: Field>(
    alloc: Global,
    tree: &mut Tree,
    fact: FactId,
    poly: &Uni<F>,
) -> Result<FactId, AllocError> {
    let Some(lead) = poly.coefs().last() else {
        return Ok(fact);
    };
    if lead.residue() == 1 {
        return Ok(fact);
    }
    let Some(inverse) = lead.inv() else {
        return Ok(NO_FACT);
    };
    let mut multiples = Vec::new(alloc);
    multiples.push(scaled_line(alloc, fact, inverse)?)?;
    record_sum(alloc, tree, multiples)
}

/// Records the product of the x - root from a candidate, a constant where it has no root.
pub fn record_product<F: Field, O: MonoOrder>(
    alloc: Global,
    tree: &mut Tree,
    lines: &[Line<F, O>],
    derived: &Derived<F, O>,
    candidate: &Candidate<F, O>,
    cases: &Cases<F>,
) -> Result<FactId, AllocError> {
    let fact = record_candidate(alloc, tree, lines, derived, candidate)?;
    let Some(found) = &cases.proof else {
        return record_monic(alloc, tree, fact, &candidate.poly);
    };
    let x = candidate.variable;
    let power = record_chain(alloc, tree, fact, x, &found.chain)?;
    let mut multiples = Vec::new(alloc);
    multiples.push((fact, terms_in(alloc, &found.a, x)?))?;
    multiples.push((power, terms_in(alloc, &found.b, x)?))?;
    record_sum(alloc, tree, multiples)
}
