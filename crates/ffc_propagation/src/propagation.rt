//! What unit propagation forces of a check.
ghost use Rattle.std.specs.Prelude.{◌≡◌, ◌+◌, ◌<◌, length, IfOk, IsErrOf};
ghost use Rattle.ffc_base.specs.Metering.{total};
ghost use Rattle.ffc_base.specs.declared.stop.Stop.TheVariants as stops;
ghost use Rattle.ffc_check.specs.Judged.{judged_check};
ghost use Rattle.ffc_propagation.specs.Answers.{IsPropagated, IsFound, AssignsAtMost};
ghost use Rattle.ffc_rules.specs.Cones.{cone};
ghost use Rattle.ffc_rules.specs.Laws.{IsValid};

use crate::occurrences::Occurrences;
use crate::settling::settle;
use crate::trail::Trail;
use ffc_base::{Meter, Stop, Unit};
use ffc_cert::Literal;
use ffc_encode::clauses_of;
use ffc_refutation::Reason;
use ffc_term::{Check, NodeId};
use std::alloc::{AllocError, Global};

/// What propagation finds of a check.
#[derive(Drop)]
pub enum Propagated {
    /// The literals that are forced, each after those that force it, with the reason of each. None is there with its negation.
    Forced {
        literals: Vec<Literal>,
        reasons: Vec<Reason>,
    },
    /// Reasons that force literals one after another, and a last one whose clause is then false.
    Refuted(Vec<Reason>),
}

/// The literals that are forced, and whether a clause is then false.
fn found(alloc: Global, check: &Check, nodes: &[NodeId]) -> Result<(Trail, bool), AllocError>
    requires valid { IsValid (judged_check check.now) }
    requires nodes { nodes.now ≡ cone check.now.table.now check.now.in_force.now }
    ensures { IfOk result (λ r. IsFound (judged_check check.now) r.0 r.1) }
{
    let clauses = clauses_of(alloc, check.table, nodes)?;
    let clauses = clauses.as_slice();
    let mut occurrences = Occurrences::of(alloc, check.table.len(), clauses)?;
    let mut trail = Trail::new(alloc, check.table.len())?;
    if trail.take_active(check.in_force)? {
        return Ok((trail, true));
    }
    let clash = settle(&mut trail, &mut occurrences, clauses)?;
    Ok((trail, clash))
}

/// What unit propagation over the clauses of the check's nodes and its assertions forces. `nodes` are those of the check. Each
/// literal that is forced is an Assignment, which is counted when all are found. It takes time by the number of the nodes of the
/// table and of the literals of the clauses.
///
/// # Errors
///
/// The budget is spent, or out of memory.
pub fn propagate(
    alloc: Global,
    check: &Check,
    nodes: &[NodeId],
    meter: &mut Meter,
) -> Result<Propagated, Stop>
    requires valid { IsValid (judged_check check.now) }
    requires nodes { nodes.now ≡ cone check.now.table.now check.now.in_force.now }
    ensures answer { IfOk result (IsPropagated (judged_check check.now)) }
    ensures spent { IsErrOf result stops.Spent → meter.old.budget < total meter.old + length nodes.now }
    ensures units { AssignsAtMost (length nodes.now) meter.old meter.new }
{
    let (trail, clash) = found(alloc, check, nodes)?;
    let Trail {
        marks: _,
        literals,
        reasons,
    } = trail;
    meter.charge(Unit::Assignment, literals.len() as u64)?;
    if clash {
        Ok(Propagated::Refuted(reasons))
    } else {
        Ok(Propagated::Forced { literals, reasons })
    }
}
