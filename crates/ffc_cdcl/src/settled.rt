//! Clauses under a trail: whether they are true, and whether propagation has nothing left to do with them.
ghost use Rattle.std.specs.Prelude.{◌≡◌, ◌≤◌, true, All, length, take};
ghost use Rattle.ffc_cdcl.specs.Literals.{HasTrue, MakesTrue};
ghost use Rattle.ffc_cdcl.specs.Settled.{IsSettled};

use crate::literal::{Lit, Literals};
use crate::trail::Trail;

/// Whether a trail has a literal of a clause.
fn has_true(trail: &Trail, clause: &[Lit]) -> bool
    ensures { result ≡ true → HasTrue trail.now.literals clause.now }
{
    for literal in clause {
        if trail.is_true(*literal) {
            return true;
        }
    }
    false
}

/// The first clause from a number on of which a trail has no literal.
pub fn first_untrue(trail: &Trail, clauses: &[Literals], from: usize) -> usize {
    for k in from..clauses.len() {
        if !has_true(trail, clauses[k].as_slice()) {
            return k;
        }
    }
    clauses.len()
}

/// Whether a trail has a literal of each clause.
pub fn makes_true(trail: &Trail, clauses: &[Literals]) -> bool
    ensures { result ≡ true → MakesTrue trail.now.literals clauses.now }
{
    for clause in clauses {
        if !has_true(trail, clause.as_slice()) {
            return false;
        }
    }
    true
}

/// Whether a clause has a true literal, or two different ones whose nodes have no value.
fn is_settled(trail: &Trail, clause: &[Lit]) -> bool
    ensures { result ≡ true → IsSettled trail.now clause.now }
{
    let mut found: Option<Lit> = None;
    for literal in clause {
        if trail.is_true(*literal) {
            return true;
        }
        if trail.is_open(literal.node) {
            match found {
                None => found = Some(*literal),
                Some(first) => {
                    if !first.is_same(*literal) {
                        return true;
                    }
                }
            }
        }
    }
    false
}

/// Whether propagation has nothing left to do with these clauses.
pub fn all_settled(trail: &Trail, clauses: &[Literals]) -> bool
    ensures { result ≡ true → All (IsSettled trail.now) clauses.now }
{
    for clause in clauses {
        if !is_settled(trail, clause.as_slice()) {
            return false;
        }
    }
    true
}
