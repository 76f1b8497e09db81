//! Whether a clause follows from earlier ones by hints (reverse unit propagation with hints in order, as in LRAT; Cruz-Filipe,
//! Heule, Hunt, Kaufmann and Schneider-Kamp 2017).
ghost use Rattle.std.specs.Prelude.{◌≡◌, ◌<◌, length, map, All, [], IfOk, OnOk};
ghost use Rattle.ffc_clause.specs.Clauses.{negated};
ghost use Rattle.ffc_clause.specs.Hints.{open_literals, is_contradiction, follows};
ghost use Rattle.ffc_check.specs.Opening.{opening_of};

use crate::arena::ClauseList;
use crate::assumed::Assumed;
use ffc_cert::Literal;
use std::alloc::AllocError;

/// The open literals of a clause: those whose negations are not assumed.
#[derive(Clone, Copy)]
pub enum Opening {
    Closed,
    One(Literal),
    Several,
}

/// The open literals of a clause, where these are assumed. It stops at the second one that differs from the first.
fn opening_under(clause: &[Literal], assumed: &Assumed) -> Opening
    ensures { result ≡ opening_of (open_literals assumed.now clause.now) }
{
    let mut found = None;
    for literal in clause {
        if assumed.contains(negated(*literal)) {
            continue;
        }
        match found {
            None => found = Some(*literal),
            Some(first) => {
                if first != *literal {
                    return Opening::Several;
                }
            }
        }
    }
    match found {
        None => Opening::Closed,
        Some(literal) => Opening::One(literal),
    }
}

/// The negation of a literal.
fn negated(literal: Literal) -> Literal
    ensures { result ≡ negated literal }
{
    (!literal.0, literal.1)
}

/// Assumes the negations of these literals.
fn assume_negated(assumed: &mut Assumed, literals: &[Literal]) -> Result<(), AllocError>
    requires { assumed.old ≡ [] }
    ensures { OnOk result (assumed.new ≡ map negated literals.now) }
{
    let mut i = literals.len();
    while i > 0 {
        i -= 1;
        assumed.assume(negated(literals[i]))?;
    }
    Ok(())
}

/// Whether the assumed literals give a contradiction by hints.
fn contradicts(
    clauses: &ClauseList,
    assumed: &mut Assumed,
    hints: &[u32],
) -> Result<bool, AllocError>
    requires { All (λ h. h < length clauses.now) hints.now }
    ensures { IfOk result (λ b. b ≡ is_contradiction clauses.now assumed.old hints.now) }
{
    for (i, hint) in hints.iter().enumerate() {
        match opening_under(clauses.clause(*hint as usize), assumed) {
            Opening::Closed => return Ok(i + 1 == hints.len()),
            Opening::One(literal) => assumed.assume(literal)?,
            Opening::Several => return Ok(false),
        }
    }
    Ok(false)
}

/// Whether a clause follows by hints. It costs the literals that it reads, and once an entry the marks up to the highest
/// literal.
pub fn follows(
    clauses: &ClauseList,
    assumed: &mut Assumed,
    clause: &[Literal],
    hints: &[u32],
) -> Result<bool, AllocError>
    requires nothing { assumed.old ≡ [] }
    requires earlier { All (λ h. h < length clauses.now) hints.now }
    ensures answer { IfOk result (λ b. b ≡ follows clauses.now clause.now hints.now) }
    ensures nothing { OnOk result (assumed.new ≡ []) }
{
    assume_negated(assumed, clause)?;
    let answer = contradicts(clauses, assumed, hints)?;
    assumed.clear();
    Ok(answer)
}
