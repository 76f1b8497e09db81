//! Deciding checks by what their clauses force and by combinations of it.
ghost use Rattle.std.specs.Prelude.{◌≡◌, ◌-◌, true, IfOk};
ghost use Rattle.ffc_base.specs.Metering.{Takes, total};
ghost use Rattle.ffc_bounds.specs.Conjunctions.{has_order};
ghost use Rattle.ffc_check.specs.Judged.{judged_check};
ghost use Rattle.ffc_flat.specs.Answering.{IsFlatAnswer};
ghost use Rattle.ffc_rules.specs.Laws.{IsValid};
ghost use Rattle.ffc_trials.specs.Parts.{IsConeOf};
ghost use Rattle.ffc_trials.specs.Stops.{IsWithinLimits};

use ffc_base::{Meter, Stop};
use ffc_combination::{Combined, combination};
use ffc_field::Field;
use ffc_linear::LinearAnswer;
use ffc_propagation::{Propagated, propagate};
use ffc_refutation::by_conflict;
use ffc_term::Check;
use ffc_trials::Cone;
use std::alloc::{AllocError, Global};

/// Decides a check of which unit propagation makes some clause false, or of which some combination of what is forced, of a bounded
/// degree, is 1, or, where it is a conjunction of equations and disequations without `ite`, determines each constant. F is the field
/// of each field node of the check.
///
/// # Errors
///
/// Out of memory.
pub fn flat<F: Field>(
    alloc: Global,
    check: &Check,
    cone: &Cone,
    meter: &mut Meter,
) -> Result<LinearAnswer, AllocError>
    requires valid { IsValid (judged_check check.now) }
    requires cone { IsConeOf (judged_check check.now) cone.now }
    requires field { has_order check.now.table.now check.now.in_force.now F.ORDER ≡ true }
    requires within { IsWithinLimits (judged_check check.now) }
    ensures answer { IfOk result (IsFlatAnswer (judged_check check.now) (meter.old.budget - total meter.old)) }
    ensures units { Takes meter.old meter.new }
{
    // What is left is what is compared with the bound.
    let _left = meter.left();
    match propagate(alloc, check, cone.nodes.as_slice(), meter) {
        Ok(Propagated::Refuted(reasons)) => {
            let lines = by_conflict(alloc, reasons.as_slice())?;
            Ok(LinearAnswer::Refuted(lines))
        }
        Ok(Propagated::Forced { literals, reasons }) => {
            let (literals, reasons) = (literals.as_slice(), reasons.as_slice());
            match combination::<F>(alloc, check, cone, literals, reasons, meter)? {
                Some(Combined::Refuted(lines)) => Ok(LinearAnswer::Refuted(lines)),
                Some(Combined::Values(pairs)) => Ok(LinearAnswer::Values(pairs)),
                None => Ok(LinearAnswer::Undecided),
            }
        }
        Err(Stop::Spent) => Ok(LinearAnswer::Undecided),
        Err(Stop::Memory) => Err(AllocError),
    }
}
