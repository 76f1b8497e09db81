//! Unit propagation over counted clauses (Dowling and Gallier 1984): each literal that is forced is looked at once, and then each
//! clause that has its negation counts one less.
ghost use Rattle.std.specs.Prelude.{◌≡◌, ℕ, ◌+◌, ◌<◌, ◌==◌, length, count_by, All, IfOk};
ghost use Rattle.ffc_propagation.specs.Forcing.{IsGivenClause, IsForcing, Forced};
ghost use Rattle.ffc_propagation.specs.Settling.{clauses_of, HasState, IsSettling, IsSettled, IsSettledAt};
ghost use Rattle.ffc_propagation.specs.Settling.{TakesAt, TakesAll, Settles, Completes};
ghost use Rattle.ffc_rules.specs.Entries.{NodeCheck};

use crate::occurrences::{Occurrences, negated};
use crate::trail::Trail;
use ffc_encode::NodeClause;
use ffc_refutation::Reason;
use std::alloc::AllocError;

/// Takes a clause where at most one literal of it is open by the counts. Whether it is false.
fn take_unit(
    trail: &mut Trail,
    occurrences: &Occurrences,
    clauses: &[NodeClause],
    number: usize,
) -> Result<bool, AllocError>
    requires within { number < length clauses.now }
    requires state { HasState (clauses_of clauses.now) trail.old occurrences.now }
    ensures taken { IfOk result (TakesAt (clauses_of clauses.now) number trail.old trail.new occurrences.now) }
    ensures forced { (c : NodeCheck) → All (IsGivenClause c) clauses.now → IsForcing c trail.old
        → IfOk result (Forced c trail.new) }
{
    if !occurrences.is_unit(number) {
        return Ok(false);
    }
    let clause = &clauses[number];
    let reason = Reason::Scheme(clause.node, clause.scheme, clause.index);
    trail.take(clause.lits.as_slice(), reason)
}

/// Takes the clauses that have one literal, before any literal is looked at. Whether one of them is false.
fn take_units(
    trail: &mut Trail,
    occurrences: &Occurrences,
    clauses: &[NodeClause],
) -> Result<bool, AllocError>
    requires { IsSettling (clauses_of clauses.now) 0 trail.old occurrences.now }
    ensures settled { IfOk result (Settles (clauses_of clauses.now) 0 trail.old trail.new occurrences.now) }
    ensures forced { (c : NodeCheck) → All (IsGivenClause c) clauses.now → IsForcing c trail.old
        → IfOk result (Forced c trail.new) }
{
    for number in 0..clauses.len() {
        if take_unit(trail, occurrences, clauses, number)? {
            return Ok(true);
        }
    }
    Ok(false)
}

/// Takes the clauses of a row, where all others are settled. Whether one of them is false.
fn take_row(
    trail: &mut Trail,
    occurrences: &Occurrences,
    clauses: &[NodeClause],
    row: &[u32],
) -> Result<bool, AllocError>
    requires state { HasState (clauses_of clauses.now) trail.old occurrences.now }
    requires within { All (λ k. k < length clauses.now) row.now }
    requires others { (k : ℕ) → k < length clauses.now → count_by (λ j. j == k) row.now ≡ 0
        → IsSettledAt (clauses_of clauses.now) trail.old occurrences.now k }
    ensures settled { IfOk result (TakesAll (clauses_of clauses.now) trail.old trail.new occurrences.now) }
    ensures forced { (c : NodeCheck) → All (IsGivenClause c) clauses.now → IsForcing c trail.old
        → IfOk result (Forced c trail.new) }
{
    for number in row {
        if take_unit(trail, occurrences, clauses, *number as usize)? {
            return Ok(true);
        }
    }
    Ok(false)
}

/// Looks at the next literal, and takes the clauses that have at most one open literal from now on. Whether one of them is
/// false.
fn look_at(
    trail: &mut Trail,
    occurrences: &mut Occurrences,
    clauses: &[NodeClause],
    looked: usize,
) -> Result<bool, AllocError>
    requires more { looked < length trail.old.literals.items }
    requires settled { IsSettled (clauses_of clauses.now) looked trail.old occurrences.old }
    ensures settled { IfOk result (Settles (clauses_of clauses.now) (looked + 1) trail.old trail.new occurrences.new) }
    ensures forced { (c : NodeCheck) → All (IsGivenClause c) clauses.now → IsForcing c trail.old
        → IfOk result (Forced c trail.new) }
{
    let literal = negated(trail.literals[looked]);
    occurrences.lower(literal);
    take_row(trail, occurrences, clauses, occurrences.row(literal))
}

/// Looks at all literals, those too that are forced meanwhile. Whether a clause is false.
pub(crate) fn settle(
    trail: &mut Trail,
    occurrences: &mut Occurrences,
    clauses: &[NodeClause],
) -> Result<bool, AllocError>
    requires { IsSettling (clauses_of clauses.now) 0 trail.old occurrences.old }
    ensures settled { IfOk result (Completes (clauses_of clauses.now) trail.old trail.new occurrences.new) }
    ensures forced { (c : NodeCheck) → All (IsGivenClause c) clauses.now → IsForcing c trail.old
        → IfOk result (Forced c trail.new) }
{
    if take_units(trail, occurrences, clauses)? {
        return Ok(true);
    }
    let mut looked = 0;
    while looked < trail.literals.len() {
        if look_at(trail, occurrences, clauses, looked)? {
            return Ok(true);
        }
        looked += 1;
    }
    Ok(false)
}
