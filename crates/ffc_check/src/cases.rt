//! Entries by cases: every assignment of a check's constants makes something active false.
ghost use Rattle.std.specs.Prelude.{◌≡◌, ◌<◌, length, IfOk};
ghost use Rattle.std.specs.List.Sorted.{IsStrictlyIncreasing};
ghost use Rattle.ffc_term.specs.Checks.{IsClosed, AreNodesOf, AreConstantsOf};
ghost use Rattle.ffc_term.specs.Lists.{HaveSameNumbers};
ghost use Rattle.ffc_term.specs.Tables.{constant_count};
ghost use Rattle.ffc_rules.specs.Assignments.{has_model_below};
ghost use Rattle.ffc_rules.specs.Entries.{limits, cases_fault};
ghost use Rattle.ffc_rules.specs.Cones.{span};
ghost use Rattle.ffc_rules.specs.Laws.{IsValid};
ghost use Rattle.ffc_check.specs.Answers.{Answers};
ghost use Rattle.ffc_check.specs.Judged.{judged_check};

use crate::assigning::{default_values, give_digits, is_model};
use crate::stop::{CheckStop, breaks};
use ffc_cktree::rules;
use ffc_term::{Assignment, Check, NodeId, Value, distinct};
use std::alloc::{AllocError, Global};

/// The most work of a check that is gone through: the number of its assignments times that of its nodes.
const MOST_WORK: u128 = 16_777_216;

/// Whether one of the first assignments, so many, makes all that is active true. It takes no memory, and costs for each
/// assignment the evaluation of the nodes up to the first assertion that is false.
fn search(
    check: &Check,
    nodes: &[NodeId],
    asserted: &[NodeId],
    constants: &[NodeId],
    count: u64,
    values: Vec<Value>,
    out: &mut [Value],
) -> bool
    requires valid { IsValid (judged_check check.now) }
    requires nodes { AreNodesOf check.now.table.now check.now.in_force.now nodes.now }
    requires closed { IsClosed check.now.table.now nodes.now }
    requires increasing { IsStrictlyIncreasing asserted.now }
    requires asserted { HaveSameNumbers asserted.now check.now.in_force.now }
    requires constants { AreConstantsOf check.now.table.now check.now.in_force.now constants.now }
    requires values { length values.items ≡ constant_count check.now.table.now }
    requires long { length out.old ≡ length check.now.table.now }
    ensures { result ≡ has_model_below check.now.table.now check.now.in_force.now count }
{
    let mut values = values;
    for number in 0..count {
        give_digits(check.table, constants, number, values.as_mut_slice());
        let assignment = Assignment::new(values);
        if is_model(check, nodes, asserted, &assignment, out) {
            return true;
        }
        values = assignment.into_vec();
    }
    false
}

/// The same, with memory for the values of constants and nodes, which is taken before the first assignment.
fn has_model(alloc: Global, check: &Check, count: u64) -> Result<bool, AllocError>
    requires valid { IsValid (judged_check check.now) }
    ensures { IfOk result (λ found. found ≡ has_model_below check.now.table.now check.now.in_force.now count) }
{
    let nodes = check.table.nodes_of(check.in_force)?;
    let asserted = distinct(alloc, check.in_force)?;
    let constants = check.table.constants_of(check.in_force)?;
    let values = default_values(alloc, check.table)?;
    let mut out = vec![in alloc; Value::Bool(false); check.table.len() as usize]?;
    Ok(search(
        check,
        nodes.as_slice(),
        asserted.as_slice(),
        constants.as_slice(),
        count,
        values,
        out.as_mut_slice(),
    ))
}

/// Judges an entry by cases. It costs for each assignment of the check's constants the evaluation of its nodes up to the first
/// assertion that is false.
pub fn check_cases(alloc: Global, check: &Check, line: u64) -> Result<(), CheckStop>
    requires valid { IsValid (judged_check check.now) }
    ensures { Answers result (cases_fault limits (judged_check check.now) line) }
{
    let measures = check.table.measures(check.in_force)?;
    if measures.work > MOST_WORK {
        return Err(breaks(rules::LIMIT, line));
    }
    if has_model(alloc, check, measures.span as u64)? {
        Err(breaks(rules::ENUMERATION, line))
    } else {
        Ok(())
    }
}
