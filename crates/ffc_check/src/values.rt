//! Entries that list values.
ghost use Rattle.std.specs.Prelude.{◌≡◌, ℕ, ◌+◌, ◌<◌, ◌^◌, length, All, IfOk, IfSome};
ghost use Rattle.std.specs.Option.{option_map};
ghost use Rattle.ffc_rules.specs.Assignments.{are_true, listed_assignment};
ghost use Rattle.ffc_rules.specs.Entries.{first_misfit, sat_fault};
ghost use Rattle.ffc_rules.specs.Laws.{IsValid, AreValues};
ghost use Rattle.ffc_check.specs.Answers.{Answers};
ghost use Rattle.ffc_check.specs.Judged.{judged_check};

use crate::assigning::{default_values, give_listed, is_model};
use crate::stop::{CheckStop, breaks};
use ffc_cktree::rules;
use ffc_term::{Assignment, Check, NodeId, NodeTable, Value, distinct};
use std::alloc::{AllocError, Global};

/// The first pair, by its place, that does not name the constant there and one of its values.
fn first_misfit(table: &NodeTable, declared: &[NodeId], pairs: &[(u32, u64)]) -> Option<usize>
    requires within { All (λ id. id < length table.now) declared.now }
    requires long { length pairs.now ≡ length declared.now }
    ensures misfit { (line : ℕ) → first_misfit table.now declared.now pairs.now line
        ≡ option_map (λ i. line + i) result }
    ensures inside { IfSome result (λ i. i < length pairs.now) }
{
    for (i, id) in declared.iter().enumerate() {
        let pair = pairs[i];
        if pair.0 != *id {
            return Some(i);
        }
        if pair.1 >= table.node(*id).value_count() {
            return Some(i);
        }
    }
    None
}

/// Whether all that is active is true, where the constants have the listed values.
fn makes_true(alloc: Global, check: &Check, pairs: &[(u32, u64)]) -> Result<bool, AllocError>
    requires valid { IsValid (judged_check check.now) }
    requires values { AreValues check.now.table.now check.now.declared.now pairs.now }
    ensures { IfOk result (λ good. good ≡ are_true check.now.table.now check.now.in_force.now
        (listed_assignment check.now.table.now pairs.now)) }
{
    let nodes = check.table.nodes_of(check.in_force)?;
    let asserted = distinct(alloc, check.in_force)?;
    let mut values = default_values(alloc, check.table)?;
    give_listed(check.table, pairs, values.as_mut_slice());
    let mut out = vec![in alloc; Value::Bool(false); check.table.len() as usize]?;
    let assignment = Assignment::new(values);
    Ok(is_model(
        check,
        nodes.as_slice(),
        asserted.as_slice(),
        &assignment,
        out.as_mut_slice(),
    ))
}

/// Judges listed values: each constant has one of its own, and with them all that is active is true.
pub fn check_values(
    alloc: Global,
    check: &Check,
    pairs: &[(u32, u64)],
    line: u64,
) -> Result<(), CheckStop>
    requires valid { IsValid (judged_check check.now) }
    requires line { line + length pairs.now + 1 < 2 ^ 64 }
    ensures { Answers result (sat_fault (judged_check check.now) pairs.now line) }
{
    if pairs.len() != check.declared.len() {
        return Err(breaks(rules::VALUES, line));
    }
    match first_misfit(check.table, check.declared, pairs) {
        Some(i) => Err(breaks(rules::VALUES, line + 1 + i as u64)),
        None => {
            if makes_true(alloc, check, pairs)? {
                Ok(())
            } else {
                Err(breaks(rules::VALUES, line))
            }
        }
    }
}
