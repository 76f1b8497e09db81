//! Bases of systems of equations, completed as far as so many units go.
ghost use Rattle.std.specs.Prelude.{◌≤◌};

use crate::drafts::{NotMade, Sparse, polys_of};
use crate::systems::{LARGEST, System};
use ffc_base::{Meter, Stop, Unit};
use ffc_basis::{Basis, Completion};
use ffc_field::{BabyBear, Field, KoalaBear};
use ffc_mono::GradedReverseLex;
use std::alloc::Global;
use std::io;

/// How far a basis was completed, and how many differences its lines reduce to zero.
#[derive(Debug, Drop)]
struct Outcome {
    /// What it is, if the units were enough.
    completion: Option<Completion>,
    lines: usize,
    units: u64,
    zeros: usize,
    differences: usize,
}

/// Appends the equations of a case.
fn append(system: &mut System, kind: u32, size: u32) -> Result<(), NotMade>
    requires some { 1 ≤ size }
    requires small { size ≤ LARGEST }
{
    match kind {
        0 => system.katsura(size),
        1 => system.cyclic(size),
        2 => system.definitions(size),
        3 => system.rounds(size),
        4 => system.linear(size),
        _ => system.bits(size),
    }
}

/// The system of a case over the field of this order.
fn system(alloc: Global, order: u64, kind: u32, size: u32) -> Result<System, NotMade> {
    let mut system = System::new(alloc, order);
    append(&mut system, kind, size.clamp(1, LARGEST))?;
    Ok(system)
}

/// How many of these polynomials the lines reduce to zero.
fn zeros<F: Field>(
    basis: &mut Basis<F, GradedReverseLex>,
    polys: &[Sparse<F>],
    meter: &mut Meter,
) -> Result<usize, NotMade> {
    let mut count = 0usize;
    for poly in polys {
        match basis.reduce(poly, meter) {
            Ok(reduced) => count = count.saturating_add(usize::from(reduced.rest.is_zero())),
            Err(Stop::Spent) => return Ok(count),
            Err(Stop::Memory) => return Err(NotMade),
        }
    }
    Ok(count)
}

/// Completes a basis, if the units are enough.
fn completed<F: Field>(
    basis: &mut Basis<F, GradedReverseLex>,
    meter: &mut Meter,
) -> Result<Option<Completion>, NotMade> {
    match basis.complete(meter) {
        Ok(completion) => Ok(Some(completion)),
        Err(Stop::Spent) => Ok(None),
        Err(Stop::Memory) => Err(NotMade),
    }
}

/// What completing a basis with so many units comes to. The differences may take as many again.
fn measured<F: Field>(
    basis: &mut Basis<F, GradedReverseLex>,
    differences: &[Sparse<F>],
    units: u64,
) -> Result<Outcome, NotMade> {
    let mut meter = Meter::new(units);
    let completion = completed(basis, &mut meter)?;
    let zeros = zeros(basis, differences, &mut Meter::new(units))?;
    Ok(Outcome {
        completion,
        lines: basis.lines().len(),
        units: meter.count(Unit::Reduction),
        zeros,
        differences: differences.len(),
    })
}

/// The same for the basis of a case.
fn case<F: Field>(alloc: Global, kind: u32, size: u32, units: u32) -> Result<Outcome, NotMade> {
    let System {
        generators,
        differences,
        ..
    } = system(alloc, F::ORDER, kind, size)?;
    let generators = polys_of::<F>(alloc, generators)?;
    let differences = polys_of::<F>(alloc, differences)?;
    let mut basis = Basis::start(alloc, generators.as_slice())?;
    measured(&mut basis, differences.as_slice(), u64::from(units))
}

/// What a completion is, in words.
fn words(completion: &Option<Completion>) -> &'static str {
    match completion {
        Some(Completion::Constant(_)) => "constant",
        Some(Completion::Closed) => "closed",
        Some(Completion::SetAside(_)) => "closed but for pairs set aside",
        None => "out of units",
    }
}

fn print<R: Print>(rt: &R, outcome: &Outcome) -> io::Result<()> {
    let words = words(&outcome.completion);
    println!(rt; "{words}, {} lines, {} units", outcome.lines, outcome.units)?;
    if outcome.differences == 0 {
        return Ok(());
    }
    println!(rt;
        "{} of {} differences are zero",
        outcome.zeros, outcome.differences
    )
}

/// Runs a case over BabyBear: 0 Katsura's equations, 1 the cyclic ones, 2 definitions in two copies with equal factors,
/// 3 rounds in two copies with equal inputs, 4 random linear equations, 5 bits with their sum; 6 more for the same over
/// KoalaBear.
pub fn run<R: Print>(rt: &R, alloc: Global, kind: u32, size: u32, units: u32) -> io::Result<()> {
    let found = if kind < 6 {
        case::<BabyBear>(alloc, kind, size, units)
    } else {
        case::<KoalaBear>(alloc, kind - 6, size, units)
    };
    match found {
        Ok(outcome) => print(rt, &outcome),
        Err(_) => println!(rt; "no result"),
    }
}
