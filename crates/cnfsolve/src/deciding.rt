//! What is found of formulas.
ghost use Rattle.std.specs.Prelude.{◌≡◌, [], IfOk, IfErr};
ghost use Rattle.ffc_base.specs.Metering.{total};
ghost use Rattle.cnfsolve.specs.Answers.{Answers, IsRight, IsVerdict};
ghost use Rattle.cnfsolve.specs.Reading.{formulas_of};
ghost use Rattle.cnfsolve.specs.Steps.{Stops};

use crate::faults::ReadStop;
use crate::reading::read_formulas;
use ffc_base::{Meter, SearchStop, Unit};
use ffc_cdcl::laws::refutations_are_sound;
use ffc_cdcl::{Lit, Literals, Outcome, Solver, Theory, TheoryAnswer};
use std::alloc::Global;

/// A theory with no lemmas, which agrees with every trail.
#[derive(Drop)]
struct Agreeing;

impl Theory for Agreeing {
    ghost use Rattle.std.specs.Prelude.{[]};

    ghost lemmas = { λ _. [] };

    ghost fits = { λ _ _. Unit {0} };

    fn check(
        &mut self,
        _standing: usize,
        _trail: &[Lit],
        _meter: &mut Meter,
    ) -> Result<TheoryAnswer, SearchStop> {
        Ok(TheoryAnswer::Agreed)
    }
}

/// What is found of a formula.
#[derive(Drop)]
pub enum Verdict {
    /// These literals make each clause true.
    Satisfiable(Literals),
    /// So many steps refute it.
    Unsatisfiable(usize),
    Unknown(SearchStop),
}

/// A verdict with the work that it took.
#[derive(Drop)]
pub struct Answer {
    pub verdict: Verdict,
    pub conflicts: u64,
    /// Literals that were put on the trail.
    pub assignments: u64,
    /// Units of all kinds.
    pub units: u64,
}

/// The units that were taken.
fn units_of(meter: &Meter) -> u64
    ensures { result ≡ total meter.now }
{
    // The sum is at most the budget, which is a number of 64 bits.
    let _budget = meter.budget();
    meter.count(Unit::Trial)
        + meter.count(Unit::Reduction)
        + meter.count(Unit::Assignment)
        + meter.count(Unit::Chain)
}

/// Solves a formula.
fn verdict_on(formula: &mut Solver, meter: &mut Meter) -> Verdict
    requires { formula.old.lemmas ≡ [] }
    ensures right { IsVerdict formula.old.added result }
    ensures spent { result ≡ Verdict.Unknown SearchStop.Spent → total meter.new ≡ meter.new.budget }
    ensures budget { meter.new.budget ≡ meter.old.budget }
{
    refutations_are_sound();
    match formula.solve(&mut Agreeing, meter) {
        Ok(Outcome::Model(trail)) => Verdict::Satisfiable(trail),
        Ok(Outcome::Refuted(steps)) => Verdict::Unsatisfiable(steps.len()),
        Err(stop) => Verdict::Unknown(stop),
    }
}

/// Decides a formula within a budget.
fn decide(formula: Solver, budget: u64) -> Answer
    requires { formula.lemmas ≡ [] }
    ensures { IsRight budget formula result }
{
    let mut solver = formula;
    let mut meter = Meter::new(budget);
    let verdict = verdict_on(&mut solver, &mut meter);
    Answer {
        verdict,
        conflicts: solver.conflicts(),
        assignments: meter.count(Unit::Assignment),
        units: units_of(&meter),
    }
}

/// What is found of each formula of a text in the DIMACS format, each within this budget.
pub fn answers(alloc: Global, text: &[u8], budget: u64) -> Result<Vec<Answer>, ReadStop>
    ensures right { IfOk result (λ found. Answers budget text.now found.items) }
    ensures refused { IfErr result (Stops (formulas_of text.now)) }
{
    let formulas = read_formulas(alloc, text)?;
    let mut answers = Vec::new(alloc);
    for formula in formulas {
        if let Err(_) = answers.push(decide(formula, budget)) {
            return Err(ReadStop::Memory);
        }
    }
    Ok(answers)
}
