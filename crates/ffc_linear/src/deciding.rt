//! Deciding linear checks.
ghost use Rattle.std.specs.Prelude.{◌≡◌, ◌≢◌, ◌+◌, ◌-◌, ◌*◌, ◌≤◌, length, map, true, IfOk, Ok};
ghost use Rattle.ffc_base.specs.Metering.{Takes, total};
ghost use Rattle.ffc_base.specs.declared.stop.Stop.TheVariants as stops;
ghost use Rattle.ffc_bounds.specs.Conjunctions.{field_constants, has_order};
ghost use Rattle.ffc_bounds.specs.Linear.{is_linear_within};
ghost use Rattle.ffc_check.specs.Judged.{judged_check};
ghost use Rattle.ffc_conjunction.specs.Literals.{AreLiteralsOf};
ghost use Rattle.ffc_linear.specs.Answering.{IsLinearAnswer};
ghost use Rattle.ffc_linear.specs.Decisions.{Decides, IsLinearSystem, HasCombined};
ghost use Rattle.ffc_linear.specs.Units.{TakesWithin};
ghost use Rattle.ffc_rules.specs.Entries.{limits};
ghost use Rattle.ffc_rules.specs.Laws.{IsValid};
ghost use Rattle.ffc_smt.specs.Numbers.{is_order};
ghost use Rattle.ffc_trials.specs.Parts.{IsConeOf};

use crate::affine::affine_forms;
use crate::refuting::{refute_disequation, refute_equations};
use crate::suppositions::{field_constants, is_linear_within};
use crate::values::model_of;
use ffc_base::{Meter, Stop};
use ffc_cert::{CertLine, Sequence};
use ffc_conjunction::Conjunction;
use ffc_echelon::{Solution, Vector, solve};
use ffc_field::{F2, Field};
use ffc_refutation::by_conflict;
use ffc_term::{Check, NodeId};
use ffc_trials::{Cone, field_order};
use std::alloc::{AllocError, Global};

/// What an attempt with a bound finds of a check. `linear` leaves just the checks undecided that are not linear within the units
/// that are left, and then takes none; of the others a clause says which checks they do not leave undecided.
#[derive(Drop)]
pub enum LinearAnswer {
    /// The check is left undecided.
    Undecided,
    /// Values of its field constants, in increasing order of their nodes, with which all assertions are true.
    Values(Vec<(NodeId, u64)>),
    /// A refutation.
    Refuted(Sequence<CertLine>),
}

/// The error of a stop that is not a spent budget.
fn out_of_memory(stop: Stop) -> AllocError
    requires { stop ≢ stops.Spent }
{
    match stop {
        Stop::Spent => unreachable!(),
        Stop::Memory => AllocError,
    }
}

/// Refutes a disequation that is a combination of the equations.
fn combined<F: Field>(
    alloc: Global,
    check: &Check,
    conjunction: &Conjunction,
    place: usize,
    coefficients: &[F],
) -> Result<LinearAnswer, AllocError>
    requires { HasCombined (judged_check check.now) F.ORDER conjunction.now place (map F.value coefficients.now) }
    ensures { IfOk result (Decides (judged_check check.now)) }
{
    let nodes = check.table.len();
    let reasons = conjunction.reasons.as_slice();
    let equations = conjunction.equations.as_slice();
    let disequation = conjunction.disequations[place];
    let lines = refute_disequation(alloc, nodes, reasons, equations, disequation, coefficients)?;
    Ok(LinearAnswer::Refuted(lines))
}

/// Refutes the equations or a disequation by a combination of the equations, or gives the constants values.
fn settled<F: Field>(
    alloc: Global,
    check: &Check,
    conjunction: &Conjunction,
    constants: &[NodeId],
    equal: &[Vector<F>],
    unequal: &[Vector<F>],
    meter: &mut Meter,
) -> Result<LinearAnswer, Stop>
    requires { IsLinearSystem (judged_check check.now) F.ORDER conjunction.now constants.now equal.now unequal.now }
    ensures answer { IfOk result (Decides (judged_check check.now)) }
    ensures units { TakesWithin ((length equal.now + length unequal.now) * length constants.now
        + length constants.now * (length unequal.now + 1)) stops.Spent result meter.old meter.new }
{
    match solve(alloc, constants.len() as u32, equal, unequal, meter)? {
        Solution::Contradiction(coefficients) => {
            let reasons = conjunction.reasons.as_slice();
            let equations = conjunction.equations.as_slice();
            let lines = refute_equations(alloc, reasons, equations, coefficients.as_slice())?;
            Ok(LinearAnswer::Refuted(lines))
        }
        Solution::Combination(place, coefficients) => {
            let answer = combined(alloc, check, conjunction, place, coefficients.as_slice())?;
            Ok(answer)
        }
        Solution::Values(values) => {
            let pairs = model_of(alloc, constants, values.as_slice())?;
            Ok(LinearAnswer::Values(pairs))
        }
    }
}

/// Decides a linear check over this field. What is left of the budget is enough.
fn decided<F: Field>(
    alloc: Global,
    check: &Check,
    conjunction: &Conjunction,
    constants: &[NodeId],
    meter: &mut Meter,
) -> Result<LinearAnswer, AllocError>
    requires valid { IsValid (judged_check check.now) }
    requires order { is_order F.ORDER ≡ true }
    requires field { has_order check.now.table.now check.now.in_force.now F.ORDER ≡ true }
    requires literals { AreLiteralsOf (judged_check check.now) conjunction.now }
    requires constants { constants.now ≡ field_constants check.now.table.now check.now.in_force.now }
    requires budget { total meter.old ≤ meter.old.budget }
    requires linear { is_linear_within limits (judged_check check.now) (meter.old.budget - total meter.old) ≡ true }
    ensures answer { IfOk result (IsLinearAnswer (judged_check check.now) (meter.old.budget - total meter.old)) }
    ensures units { Takes meter.old meter.new }
{
    if conjunction.clashes {
        let lines = by_conflict(alloc, conjunction.reasons.as_slice())?;
        return Ok(LinearAnswer::Refuted(lines));
    }
    let equations = conjunction.equations.as_slice();
    let equal: Vec<Vector<F>> = affine_forms(alloc, check.table, constants, equations)?;
    let disequations = conjunction.disequations.as_slice();
    let unequal: Vec<Vector<F>> = affine_forms(alloc, check.table, constants, disequations)?;
    let (equal, unequal) = (equal.as_slice(), unequal.as_slice());
    match settled(alloc, check, conjunction, constants, equal, unequal, meter) {
        Ok(answer) => Ok(answer),
        Err(stop) => Err(out_of_memory(stop)),
    }
}

/// Decides a check that is linear within the units that are left, by Gaussian elimination. F is the field of each field
/// node of the check. Each multiple of a row that is subtracted is a Reduction, and each value that is tried for a
/// constant a Trial.
///
/// # Errors
///
/// Out of memory.
pub fn linear<F: Field>(
    alloc: Global,
    check: &Check,
    cone: &Cone,
    meter: &mut Meter,
) -> Result<LinearAnswer, AllocError>
    requires valid { IsValid (judged_check check.now) }
    requires cone { IsConeOf (judged_check check.now) cone.now }
    requires field { has_order check.now.table.now check.now.in_force.now F.ORDER ≡ true }
    ensures answer { IfOk result (IsLinearAnswer (judged_check check.now) (meter.old.budget - total meter.old)) }
    ensures untouched { result ≡ Ok LinearAnswer.Undecided → meter.new ≡ meter.old }
    ensures units { Takes meter.old meter.new }
{
    let Some(conjunction) = Conjunction::of(alloc, check, cone.nodes.as_slice())? else {
        return Ok(LinearAnswer::Undecided);
    };
    let constants = field_constants(alloc, check, cone)?;
    let constants = constants.as_slice();
    if !is_linear_within(check, cone, &conjunction, constants, meter.left()) {
        return Ok(LinearAnswer::Undecided);
    }
    if field_order(check, cone) == F::ORDER {
        return decided::<F>(alloc, check, &conjunction, constants, meter);
    }
    // There is no field node, so each field serves.
    decided::<F2>(alloc, check, &conjunction, constants, meter)
}
