//! Attempts with a bound: each decides every check of its kind for which so many units suffice.
ghost use Rattle.std.specs.Prelude.{◌≡◌, true, false, Ok, None, IfOk, IfSome};
ghost use Rattle.ffc_bounds.specs.Conjunctions.{has_order};
ghost use Rattle.ffc_bounds.specs.Forced.{IsRefutedByForcing};
ghost use Rattle.ffc_bounds.specs.Linear.{is_linear_within};
ghost use Rattle.ffc_check.specs.Judged.{judged_check};
ghost use Rattle.ffc_flat.specs.Answering.{IsRightAnswer};
ghost use Rattle.ffc_linear.specs.declared.deciding.LinearAnswer.TheVariants.{Undecided};
ghost use Rattle.ffc_rules.specs.Entries.{limits};
ghost use Rattle.ffc_rules.specs.Laws.{IsValid};
ghost use Rattle.ffc_single.specs.Bounds.{IsDecidedSingle};
ghost use Rattle.ffc_theory.specs.Bounds.{IsBeyondEarly, IsBeyondLate, IsAnswerBeyond};
ghost use Rattle.ffc_trials.specs.Parts.{IsConeOf};
ghost use Rattle.ffc_trials.specs.Stops.{IsGiven, IsWithinLimits};

use ffc_base::Meter;
use ffc_cert::Entry;
use ffc_field::{Field, ForField};
use ffc_flat::{conflict, flat};
use ffc_linear::{LinearAnswer, linear};
use ffc_single::single;
use ffc_term::Check;
use ffc_trials::{Cone, completed_model, field_of};
use std::alloc::{AllocError, Global};

/// Answers a check by the roots of its equations in one constant.
fn answer_by_roots<F: Field>(
    alloc: Global,
    check: &Check,
    cone: &Cone,
    steps: u64,
) -> Result<LinearAnswer, AllocError>
    requires valid { IsValid (judged_check check.now) }
    requires cone { IsConeOf (judged_check check.now) cone.now }
    requires field { has_order check.now.table.now check.now.in_force.now F.ORDER ≡ true }
    requires within { IsWithinLimits (judged_check check.now) }
    ensures right { IfOk result (IsRightAnswer (judged_check check.now)) }
    ensures undecided { result ≡ Ok Undecided → IsDecidedSingle steps (judged_check check.now) → ⊥ }
{
    let mut meter = Meter::new(steps);
    single::<F>(alloc, check, cone, &mut meter)
}

/// Answers a check by what its clauses force.
fn answer_by_clauses(
    alloc: Global,
    check: &Check,
    cone: &Cone,
    steps: u64,
) -> Result<LinearAnswer, AllocError>
    requires valid { IsValid (judged_check check.now) }
    requires cone { IsConeOf (judged_check check.now) cone.now }
    ensures right { IfOk result (IsRightAnswer (judged_check check.now)) }
    ensures undecided { result ≡ Ok Undecided → IsRefutedByForcing steps (judged_check check.now) → ⊥ }
{
    let mut meter = Meter::new(steps);
    match conflict(alloc, check, cone, &mut meter)? {
        Some(lines) => Ok(LinearAnswer::Refuted(lines)),
        None => Ok(LinearAnswer::Undecided),
    }
}

/// Answers a check that is not linear by what its clauses force, and else by roots.
fn answer_otherwise<F: Field>(
    alloc: Global,
    check: &Check,
    cone: &Cone,
    steps: u64,
) -> Result<LinearAnswer, AllocError>
    requires valid { IsValid (judged_check check.now) }
    requires cone { IsConeOf (judged_check check.now) cone.now }
    requires field { has_order check.now.table.now check.now.in_force.now F.ORDER ≡ true }
    requires within { IsWithinLimits (judged_check check.now) }
    requires not_linear { is_linear_within limits (judged_check check.now) steps ≡ false }
    ensures { IfOk result (IsAnswerBeyond (IsBeyondEarly steps) (judged_check check.now)) }
{
    match answer_by_clauses(alloc, check, cone, steps)? {
        LinearAnswer::Undecided => answer_by_roots::<F>(alloc, check, cone, steps),
        answer => Ok(answer),
    }
}

/// Answers a check by linear algebra, and else by the other attempts that are asked before the engine. Each has a meter of its own.
fn answer_early<F: Field>(
    alloc: Global,
    check: &Check,
    cone: &Cone,
    steps: u64,
) -> Result<LinearAnswer, AllocError>
    requires valid { IsValid (judged_check check.now) }
    requires cone { IsConeOf (judged_check check.now) cone.now }
    requires field { has_order check.now.table.now check.now.in_force.now F.ORDER ≡ true }
    requires within { IsWithinLimits (judged_check check.now) }
    ensures { IfOk result (IsAnswerBeyond (IsBeyondEarly steps) (judged_check check.now)) }
{
    let mut meter = Meter::new(steps);
    let answer = linear::<F>(alloc, check, cone, &mut meter)?;
    if !matches!(answer, LinearAnswer::Undecided) {
        return Ok(answer);
    }
    answer_otherwise::<F>(alloc, check, cone, steps)
}

/// Answers a check by combinations of what its clauses force.
fn answer_late<F: Field>(
    alloc: Global,
    check: &Check,
    cone: &Cone,
    steps: u64,
) -> Result<LinearAnswer, AllocError>
    requires valid { IsValid (judged_check check.now) }
    requires cone { IsConeOf (judged_check check.now) cone.now }
    requires field { has_order check.now.table.now check.now.in_force.now F.ORDER ≡ true }
    requires within { IsWithinLimits (judged_check check.now) }
    ensures { IfOk result (IsAnswerBeyond (IsBeyondLate steps) (judged_check check.now)) }
{
    let mut meter = Meter::new(steps);
    flat::<F>(alloc, check, cone, &mut meter)
}

/// The attempts before the engine, over the field of a check.
#[derive(Clone, Copy)]
struct Early<'a> {
    alloc: Global,
    check: &'a Check<'a>,
    cone: &'a Cone,
    steps: u64,
}

impl ForField for Early<'_> {
    type Out = Result<LinearAnswer, AllocError>;

    ghost can_run = { λ w p. IsValid (judged_check w.check.now)
        × IsConeOf (judged_check w.check.now) w.cone.now
        × IsWithinLimits (judged_check w.check.now)
        × (has_order w.check.now.table.now w.check.now.in_force.now p ≡ true) };

    ghost gives = { λ w _ r. IfOk r (IsAnswerBeyond (IsBeyondEarly w.steps) (judged_check w.check.now)) };

    fn run<F: Field>(self) -> Result<LinearAnswer, AllocError> {
        answer_early::<F>(self.alloc, self.check, self.cone, self.steps)
    }
}

/// The attempt after it.
#[derive(Clone, Copy)]
struct Late<'a> {
    alloc: Global,
    check: &'a Check<'a>,
    cone: &'a Cone,
    steps: u64,
}

impl ForField for Late<'_> {
    type Out = Result<LinearAnswer, AllocError>;

    ghost can_run = { λ w p. IsValid (judged_check w.check.now)
        × IsConeOf (judged_check w.check.now) w.cone.now
        × IsWithinLimits (judged_check w.check.now)
        × (has_order w.check.now.table.now w.check.now.in_force.now p ≡ true) };

    ghost gives = { λ w _ r. IfOk r (IsAnswerBeyond (IsBeyondLate w.steps) (judged_check w.check.now)) };

    fn run<F: Field>(self) -> Result<LinearAnswer, AllocError> {
        answer_late::<F>(self.alloc, self.check, self.cone, self.steps)
    }
}

/// The entry that an answer gives, where it decides.
fn entry_of(alloc: Global, check: &Check, answer: LinearAnswer) -> Result<Option<Entry>, AllocError>
    requires valid { IsValid (judged_check check.now) }
    requires right { IsRightAnswer (judged_check check.now) answer }
    ensures given { IfOk result (λ found. IfSome found (IsGiven (judged_check check.now))) }
    ensures undecided { result ≡ Ok None → answer ≡ Undecided }
{
    match answer {
        LinearAnswer::Undecided => Ok(None),
        LinearAnswer::Values(known) => {
            let pairs = completed_model(alloc, check, known.as_slice())?;
            Ok(Some(Entry::Sat(pairs)))
        }
        LinearAnswer::Refuted(lines) => Ok(Some(Entry::UnsatSteps(lines))),
    }
}

/// The entry of a check that a bound of linear algebra, of propagation or of roots says is decided within a budget of `steps`.
/// None of any other.
pub(crate) fn decided_early(
    alloc: Global,
    check: &Check,
    cone: &Cone,
    steps: u64,
) -> Result<Option<Entry>, AllocError>
    requires valid { IsValid (judged_check check.now) }
    requires cone { IsConeOf (judged_check check.now) cone.now }
    requires within { IsWithinLimits (judged_check check.now) }
    ensures given { IfOk result (λ found. IfSome found (IsGiven (judged_check check.now))) }
    ensures beyond { result ≡ Ok None → IsBeyondEarly steps (judged_check check.now) }
{
    let Some(field) = field_of(check, cone) else {
        return Ok(None);
    };
    let attempts = Early {
        alloc,
        check,
        cone,
        steps,
    };
    let answer = field.run(attempts)?;
    entry_of(alloc, check, answer)
}

/// The entry of a check that a bound of combinations says is decided within a budget of `steps`. None of any other.
pub(crate) fn decided_late(
    alloc: Global,
    check: &Check,
    cone: &Cone,
    steps: u64,
) -> Result<Option<Entry>, AllocError>
    requires valid { IsValid (judged_check check.now) }
    requires cone { IsConeOf (judged_check check.now) cone.now }
    requires within { IsWithinLimits (judged_check check.now) }
    ensures given { IfOk result (λ found. IfSome found (IsGiven (judged_check check.now))) }
    ensures beyond { result ≡ Ok None → IsBeyondLate steps (judged_check check.now) }
{
    let Some(field) = field_of(check, cone) else {
        return Ok(None);
    };
    let attempt = Late {
        alloc,
        check,
        cone,
        steps,
    };
    let answer = field.run(attempt)?;
    entry_of(alloc, check, answer)
}
