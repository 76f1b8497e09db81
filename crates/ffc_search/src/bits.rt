//! Turns by what equations of bits force.
ghost use Rattle.std.specs.Prelude.{◌≡◌, ℕ};
ghost use Rattle.ffc_base.specs.Metering.{Metered};
ghost use Rattle.ffc_search.specs.Above.{StaysAbove};

use crate::branches::{Walk, push_consequences};
use crate::choosing::Candidate;
use crate::following::zero_from;
use crate::reducing::reduced_within;
use ffc_base::{Meter, SearchStop};
use ffc_basis::Progress;
use ffc_bits::{Consequence, Said, Source, StepId, square_less};
use ffc_field::Field;
use ffc_line::{Line, LineId};
use ffc_mono::MonoOrder;
use ffc_poly::Poly;
use ffc_roots::to_univariate;
use ffc_stack::BasisStack;
use std::alloc::{AllocError, Global};

/// What bits say in a turn.
#[derive(Drop)]
pub struct Turned {
    /// How far the lines were completed with what follows, if something does.
    pub progress: Option<Progress>,
    /// Where nothing does, the bit by which cases are made first.
    pub heaviest: Option<u32>,
}

/// Those of the consequences that the lines do not say already, the generators that they will be noted.
fn new_ones<F: Field, O: MonoOrder>(
    alloc: Global,
    stack: &mut BasisStack<F, O>,
    walk: &mut Walk<F, O>,
    consequences: Vec<Consequence<F, O>>,
    meter: &mut Meter,
) -> Result<Vec<Poly<F, O>>, SearchStop>
    ensures unchanged { stack.new ≡ stack.old }
    ensures metered { Metered SearchStop.Spent result meter.old meter.new }
{
    let mut polys = Vec::new(alloc);
    for (step, poly) in consequences {
        let is_known = match reduced_within(stack, &poly, meter)? {
            Some(reduced) => reduced.rest.is_zero(),
            None => false,
        };
        if !is_known {
            let line = stack.lines().len().saturating_add(polys.len());
            walk.derived.note_pushed(step, line as LineId)?;
            polys.push(poly)?;
        }
    }
    Ok(polys)
}

/// What is new of what follows; of the further sums only where nothing else is.
fn new_consequences<F: Field, O: MonoOrder>(
    alloc: Global,
    stack: &mut BasisStack<F, O>,
    walk: &mut Walk<F, O>,
    said: &mut Said<F, O>,
    meter: &mut Meter,
) -> Result<Vec<Poly<F, O>>, SearchStop>
    ensures unchanged { stack.new ≡ stack.old }
    ensures metered { Metered SearchStop.Spent result meter.old meter.new }
{
    let consequences = std::mem::replace(&mut said.consequences, Vec::new(alloc));
    let polys = new_ones(alloc, stack, walk, consequences, meter)?;
    if !polys.is_empty() {
        return Ok(polys);
    }
    let sums = std::mem::replace(&mut said.sums, Vec::new(alloc));
    new_ones(alloc, stack, walk, sums, meter)
}

/// Adds the line that says of a variable that it is a bit, which a step derives.
fn push_bit<F: Field, O: MonoOrder>(
    alloc: Global,
    stack: &mut BasisStack<F, O>,
    walk: &mut Walk<F, O>,
    before: usize,
    x: u32,
    step: StepId,
    meter: &mut Meter,
) -> Result<Progress, SearchStop>
    ensures above { (floor : ℕ) → StaysAbove floor stack.old stack.new }
    ensures metered { Metered SearchStop.Spent result meter.old meter.new }
{
    walk.derived
        .note_pushed(step, stack.lines().len() as LineId)?;
    let poly = square_less(alloc, x)?;
    push_consequences(stack, walk, before, &[poly], meter)
}

/// The equations of gates that the lines do not say already, the first time that they are asked for.
fn new_equations<F: Field, O: MonoOrder>(
    alloc: Global,
    stack: &mut BasisStack<F, O>,
    walk: &mut Walk<F, O>,
    meter: &mut Meter,
) -> Result<Vec<Poly<F, O>>, SearchStop>
    ensures unchanged { stack.new ≡ stack.old }
    ensures metered { Metered SearchStop.Spent result meter.old meter.new }
{
    let Some(reasoning) = &walk.reasoning else {
        return Ok(Vec::new(alloc));
    };
    if walk.has_equations {
        return Ok(Vec::new(alloc));
    }
    let equations = reasoning.equations(alloc, stack.lines(), &mut walk.derived)?;
    walk.has_equations = true;
    new_ones(alloc, stack, walk, equations, meter)
}

/// Adds what equations of bits force as a level of the stack, if that is anything new.
pub fn by_bits<F: Field, O: MonoOrder>(
    alloc: Global,
    stack: &mut BasisStack<F, O>,
    walk: &mut Walk<F, O>,
    meter: &mut Meter,
) -> Result<Turned, SearchStop>
    ensures above { (floor : ℕ) → StaysAbove floor stack.old stack.new }
    ensures metered { Metered SearchStop.Spent result meter.old meter.new }
{
    let mut turned = Turned {
        progress: None,
        heaviest: None,
    };
    let before = walk.derived.len();
    let polys = new_equations(alloc, stack, walk, meter)?;
    if !polys.is_empty() {
        let progress = push_consequences(stack, walk, before, polys.as_slice(), meter)?;
        turned.progress = Some(progress);
        return Ok(turned);
    }
    let Some(reasoning) = &walk.reasoning else {
        return Ok(turned);
    };
    let mut said = reasoning.ask(alloc, stack.lines(), &mut walk.derived, meter)?;
    let polys = new_consequences(alloc, stack, walk, &mut said, meter)?;
    if !polys.is_empty() {
        let progress = push_consequences(stack, walk, before, polys.as_slice(), meter)?;
        turned.progress = Some(progress);
        return Ok(turned);
    }
    walk.derived.cut(before, stack.lines().len() as LineId);
    match said.heaviest {
        None => {}
        Some((x, Source::Line(_))) => turned.heaviest = Some(x),
        Some((x, Source::Step(step))) => {
            let progress = push_bit(alloc, stack, walk, before, x, step, meter)?;
            turned.progress = Some(progress);
        }
    }
    Ok(turned)
}

/// A common zero where bits have values that their equations allow, if such values are found: they are sought once in a round.
pub fn zero_by_bits<F: Field, O: MonoOrder>(
    alloc: Global,
    lines: &[Line<F, O>],
    walk: &mut Walk<F, O>,
    vars: &[u32],
    meter: &mut Meter,
) -> Result<Option<Vec<F>>, SearchStop>
    ensures metered { Metered SearchStop.Spent result meter.old meter.new }
{
    let Some(reasoning) = &walk.reasoning else {
        return Ok(None);
    };
    if walk.has_tried_bits {
        return Ok(None);
    }
    let values = reasoning.model(alloc, lines, meter)?;
    walk.has_tried_bits = true;
    if values.is_empty() {
        return Ok(None);
    }
    let bits = values.as_slice();
    let found = zero_from(alloc, lines, vars, bits, &walk.differences)?;
    Ok(found)
}

/// The line that says of a variable that it is a bit, to make cases by its roots.
pub fn candidate_of_bit<F: Field, O: MonoOrder>(
    alloc: Global,
    lines: &[Line<F, O>],
    x: u32,
) -> Result<Option<Candidate<F, O>>, AllocError> {
    for (place, line) in lines.iter().enumerate() {
        if line.poly.len() == 2 {
            if let Some(poly) = to_univariate(alloc, &line.poly, x)? {
                if poly.coefs().len() == 3 {
                    return Ok(Some(Candidate {
                        line: Some(place as LineId),
                        parts: Vec::new(alloc),
                        variable: x,
                        poly,
                    }));
                }
            }
        }
    }
    Ok(None)
}
