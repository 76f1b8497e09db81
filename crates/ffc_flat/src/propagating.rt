//! Refuting checks by what their clauses force.
ghost use Rattle.std.specs.Prelude.{◌-◌, IfOk, IfNone, IfSome};
ghost use Rattle.ffc_base.specs.Metering.{Takes, total};
ghost use Rattle.ffc_bounds.specs.Forced.{IsRefutedByForcing};
ghost use Rattle.ffc_check.specs.Judged.{judged_check};
ghost use Rattle.ffc_refutation.specs.Given.{AreReadable, AreRight};
ghost use Rattle.ffc_rules.specs.Laws.{IsValid};
ghost use Rattle.ffc_trials.specs.Parts.{IsConeOf};

use ffc_base::{Meter, Stop};
use ffc_cert::{CertLine, Sequence};
use ffc_propagation::{Propagated, propagate};
use ffc_refutation::by_conflict;
use ffc_term::Check;
use ffc_trials::Cone;
use std::alloc::{AllocError, Global};

/// Refutes a check of which unit propagation over the clauses of its nodes makes some clause false. Each literal that is forced is
/// an Assignment; there is at most one for each node.
///
/// # Errors
///
/// Out of memory.
pub fn conflict(
    alloc: Global,
    check: &Check,
    cone: &Cone,
    meter: &mut Meter,
) -> Result<Option<Sequence<CertLine>>, AllocError>
    requires valid { IsValid (judged_check check.now) }
    requires cone { IsConeOf (judged_check check.now) cone.now }
    ensures found { IfOk result (λ o. IfSome o (λ lines. AreReadable lines × AreRight (judged_check check.now) lines)) }
    ensures none { IfOk result (λ o. IfNone o
        (IsRefutedByForcing (meter.old.budget - total meter.old) (judged_check check.now) → ⊥)) }
    ensures units { Takes meter.old meter.new }
{
    // What is left is what is compared with the bound.
    let _left = meter.left();
    match propagate(alloc, check, cone.nodes.as_slice(), meter) {
        Ok(Propagated::Refuted(reasons)) => {
            let lines = by_conflict(alloc, reasons.as_slice())?;
            Ok(Some(lines))
        }
        Ok(Propagated::Forced { .. }) => Ok(None),
        Err(Stop::Spent) => Ok(None),
        Err(Stop::Memory) => Err(AllocError),
    }
}
