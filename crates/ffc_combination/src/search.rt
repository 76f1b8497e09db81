//! Both choices of generators at the degrees in turn.
ghost use Rattle.std.specs.Prelude.{◌≡◌, ◌<◌, ◌≤◌, IfOk, OnOk, IfSome, IsTrue, Ok, None};
ghost use Rattle.ffc_base.specs.Metering.{Takes};
ghost use Rattle.ffc_check.specs.Judged.{judged_check};
ghost use Rattle.ffc_combination.specs.Attempts.{TakesAtMost, units_at};
ghost use Rattle.ffc_combination.specs.Generators.{AreKnown};
ghost use Rattle.ffc_combination.specs.Search.{AreAllExcluded, AreBounded, AreChoicesOf, AreKnownIfSome, CanWait};
ghost use Rattle.ffc_combination.specs.Search.{DefersBoth, IsChosen, IsOutcome, IsOutcomeOfBoth, tested_of};
ghost use Rattle.ffc_combination.specs.Search.{units_of_both};
ghost use Rattle.ffc_combination.specs.Values.{IsRightCombined};
ghost use Rattle.ffc_trees.specs.FirstLines.{first_lines};
ghost use Rattle.ffc_trials.specs.Parts.{IsConeOf};

use crate::attempts::{Attempt, attempted, deferred_units, units_for};
use crate::choices::Choice;
use crate::combined::Combined;
use crate::generators::Generator;
use crate::solving::settled;
use ffc_base::{Meter, Unit};
use ffc_cert::Literal;
use ffc_field::Field;
use ffc_refutation::{Reason, by_combination};
use ffc_term::Check;
use ffc_trials::Cone;
use std::alloc::{AllocError, Global};

/// The highest degree.
const HIGHEST: u32 = 1024;

/// The choice of the equalities alone, and, where there are disequations, that of all.
#[derive(Drop)]
pub(crate) struct Choices {
    pub(crate) equations: Choice,
    pub(crate) all: Option<Choice>,
}

/// The generators of both choices, where they are made.
#[derive(Drop)]
struct Known<F: Field> {
    equations: Vec<Generator<F>>,
    all: Vec<Generator<F>>,
}

/// What is found at a degree.
#[derive(Drop)]
enum Outcome {
    /// A refutation, or a model.
    Decided(Combined),
    /// No sum of multiples of the generators is 1, nor are all constants determined, or the matrix is too large.
    Excluded,
    /// Fewer units are left than the degree may take.
    Unpaid,
}

impl Choices {
    /// The literals that are false where all assertions are true.
    fn tested(&self) -> &[Literal]
        ensures { result.now ≡ tested_of self.now }
    {
        match &self.all {
            None => self.equations.literals.as_slice(),
            Some(all) => all.literals.as_slice(),
        }
    }
}

/// How many units a degree may take for both choices. It bears on time alone.
fn units_together(choices: &Choices, degree: u32) -> u64
    requires bounded { AreBounded choices.now }
    requires limit { degree ≤ 1024 }
{
    let units = units_for(&choices.equations, degree).unwrap_or(0);
    match &choices.all {
        None => units,
        Some(all) => units + units_for(all, degree).unwrap_or(0),
    }
}

/// How many units the next degree may take for both choices, where what is excluded there is excluded at this degree.
fn deferred_units_of_both(choices: &Choices, degree: u32) -> Option<u64>
    requires bounded { AreBounded choices.now }
    requires limit { degree < 1024 }
    ensures { IfSome result (DefersBoth degree choices.now) }
{
    let units = deferred_units(&choices.equations, degree)?;
    match &choices.all {
        None => Some(units),
        Some(all) => {
            let more = deferred_units(all, degree)?;
            Some(units + more)
        }
    }
}

/// Whether a degree waits for the next one: what is excluded there is excluded here, that degree can be paid, and its units have as many
/// binary digits. So of the many degrees that there are with few variables, few are tried. That a degree does not wait bears on time
/// alone.
fn waits(choices: &Choices, degree: u32, left: u64) -> bool
    requires bounded { AreBounded choices.now }
    requires limit { degree ≤ 1024 }
    ensures { IsTrue result → CanWait degree choices.now left }
{
    if degree == HIGHEST {
        return false;
    }
    let Some(next) = deferred_units_of_both(choices, degree) else {
        return false;
    };
    let units = units_together(choices, degree);
    next <= left && next.leading_zeros() == units.leading_zeros()
}

/// Decides a check by one choice at one degree.
fn tried<F: Field>(
    alloc: Global,
    check: &Check,
    cone: &Cone,
    reasons: &[Reason],
    choice: &Choice,
    tested: &[Literal],
    generators: &mut Vec<Generator<F>>,
    degree: u32,
    meter: &mut Meter,
) -> Result<Outcome, AllocError>
    requires cone { IsConeOf (judged_check check.now) cone.now }
    requires choice { IsChosen (judged_check check.now) F.ORDER degree reasons.now choice.now tested.now }
    requires known { AreKnown F.ORDER (first_lines check.now.table.now F.ORDER choice.now.literals.items)
        generators.old.items }
    ensures known { OnOk result (AreKnown F.ORDER (first_lines check.now.table.now F.ORDER choice.now.literals.items)
        generators.new.items) }
    ensures answer { IfOk result (IsOutcome (judged_check check.now) F.ORDER degree choice.now meter.old) }
    ensures units { TakesAtMost (units_at degree choice.now) meter.old meter.new }
{
    match attempted::<F>(alloc, check.table, choice, generators, degree, meter)? {
        Attempt::Found(summands) => {
            let literals = Vec::from_slice(alloc, choice.literals.as_slice())?;
            let lines = by_combination(alloc, reasons, F::ORDER, literals, summands)?;
            Ok(Outcome::Decided(Combined::Refuted(lines)))
        }
        Attempt::Solved(determined) => {
            if let Err(_) = meter.take(Unit::Trial) {
                unreachable!()
            }
            let combined = settled::<F>(alloc, check, cone, reasons, choice, tested, determined)?;
            Ok(Outcome::Decided(combined))
        }
        Attempt::Excluded => Ok(Outcome::Excluded),
        Attempt::Unpaid => Ok(Outcome::Unpaid),
    }
}

/// Decides a check by either choice at one degree.
fn tried_both<F: Field>(
    alloc: Global,
    check: &Check,
    cone: &Cone,
    reasons: &[Reason],
    choices: &Choices,
    known: &mut Known<F>,
    degree: u32,
    meter: &mut Meter,
) -> Result<Outcome, AllocError>
    requires cone { IsConeOf (judged_check check.now) cone.now }
    requires choices { AreChoicesOf (judged_check check.now) F.ORDER reasons.now choices.now }
    requires equations { AreKnown F.ORDER (first_lines check.now.table.now F.ORDER choices.now.equations.literals.items)
        known.old.equations.items }
    requires all { AreKnownIfSome F.ORDER check.now.table.now choices.now.all known.old.all.items }
    requires least { 2 ≤ degree }
    requires limit { degree ≤ 1024 }
    ensures equations { OnOk result
        (AreKnown F.ORDER (first_lines check.now.table.now F.ORDER choices.now.equations.literals.items)
        known.new.equations.items) }
    ensures all { OnOk result (AreKnownIfSome F.ORDER check.now.table.now choices.now.all known.new.all.items) }
    ensures answer { IfOk result (IsOutcomeOfBoth (judged_check check.now) F.ORDER degree choices.now meter.old) }
    ensures units { TakesAtMost (units_of_both degree choices.now) meter.old meter.new }
{
    let (first, tested) = (&choices.equations, choices.tested());
    let own = &mut known.equations;
    match tried::<F>(
        alloc, check, cone, reasons, first, tested, own, degree, meter,
    )? {
        Outcome::Decided(combined) => Ok(Outcome::Decided(combined)),
        Outcome::Unpaid => Ok(Outcome::Unpaid),
        Outcome::Excluded => match &choices.all {
            Some(all) => {
                let own = &mut known.all;
                tried::<F>(alloc, check, cone, reasons, all, tested, own, degree, meter)
            }
            None => Ok(Outcome::Excluded),
        },
    }
}

/// Decides a check by either choice at some degree, as far as the units that are left go. Each choice has its generators made once.
pub(crate) fn searched<F: Field>(
    alloc: Global,
    check: &Check,
    cone: &Cone,
    reasons: &[Reason],
    choices: &Choices,
    meter: &mut Meter,
) -> Result<Option<Combined>, AllocError>
    requires cone { IsConeOf (judged_check check.now) cone.now }
    requires choices { AreChoicesOf (judged_check check.now) F.ORDER reasons.now choices.now }
    ensures found { IfOk result (λ o. IfSome o (IsRightCombined (judged_check check.now))) }
    ensures none { result ≡ Ok None → AreAllExcluded F.ORDER check.now.table.now choices.now meter.old }
    ensures units { Takes meter.old meter.new }
{
    let mut known = Known::<F> {
        equations: Vec::new(alloc),
        all: Vec::new(alloc),
    };
    for degree in 2..HIGHEST + 1 {
        if waits(choices, degree, meter.left()) {
            continue;
        }
        let found = tried_both(
            alloc, check, cone, reasons, choices, &mut known, degree, meter,
        )?;
        match found {
            Outcome::Decided(combined) => return Ok(Some(combined)),
            Outcome::Unpaid => return Ok(None),
            Outcome::Excluded => (),
        }
    }
    Ok(None)
}
