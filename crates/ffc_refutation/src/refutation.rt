//! Refutations from reasons.
ghost use Rattle.std.specs.Prelude.{◌≡◌, ◌≤◌, length, map, IfOk};
ghost use Rattle.ffc_rules.specs.Entries.{NodeCheck};
ghost use Rattle.ffc_refutation.specs.Forcing.{IsConflict, line_of};
ghost use Rattle.ffc_refutation.specs.Combinations.{IsRefuted};
ghost use Rattle.ffc_refutation.specs.Given.{AreReadable, AreRight};
ghost use Rattle.ffc_refutation.specs.Written.{empty_by, AreLines, AreNumbered};

use crate::combination::{Summand, with_tree};
use crate::narrow::is_narrow;
use crate::reason::Reason;
use ffc_cert::{CertLine, Literal, Sequence};
use std::alloc::{AllocError, Global};

/// The lines that give the clauses of reasons.
fn lines_of(alloc: Global, reasons: &[Reason]) -> Result<Vec<CertLine>, AllocError>
    ensures lines { IfOk result (λ lines. lines.items ≡ map line_of reasons.now) }
    ensures ranges { IfOk result (λ lines. AreLines reasons.now) }
{
    let mut lines = Vec::new(alloc);
    for reason in reasons {
        lines.push(reason.line())?;
    }
    Ok(lines)
}

/// The empty clause, with so many clauses as its hints, from the first.
fn empty_by(alloc: Global, count: u32) -> Result<CertLine, AllocError>
    ensures { IfOk result (λ line. line ≡ empty_by count) }
{
    let mut hints = Vec::with_capacity(alloc, count as usize)?;
    for hint in 0..count {
        hints.push(hint)?;
    }
    Ok(CertLine::Hinted(Sequence::new(alloc), Sequence::from_vec(hints)))
}

/// The nodes of literals have 32 bits, as each of their type has.
fn have_numbers(lits: &[Literal])
    ensures { AreNumbered lits.now }
{
    for lit in lits {
        is_narrow(lit.1);
    }
}

/// The refutation by reasons that force literals, and a last one whose clause is then false.
pub fn by_conflict(alloc: Global, reasons: &[Reason]) -> Result<Sequence<CertLine>, AllocError>
    requires few { length reasons.now ≤ 1048577 }
    ensures readable { IfOk result AreReadable }
    ensures right { IfOk result (λ lines. (c : NodeCheck) → IsConflict c reasons.now → AreRight c lines) }
{
    let mut lines = lines_of(alloc, reasons)?;
    lines.push(empty_by(alloc, reasons.len() as u32)?)?;
    Ok(Sequence::from_vec(lines))
}

/// The refutation by reasons that force literals, and a lemma over equalities of this order that is then false. A combination of
/// its first lines is a constant other than 0; it is written in sums of at most 448 terms.
pub fn by_combination(
    alloc: Global,
    reasons: &[Reason],
    order: u64,
    lits: Vec<Literal>,
    summands: Vec<Summand>,
) -> Result<Sequence<CertLine>, AllocError>
    requires few { length reasons.now ≤ 1048577 }
    requires short { length lits.items ≤ 8192 }
    requires terms { length summands.items ≤ 8192 }
    ensures readable { IfOk result (λ lines. (c : NodeCheck) → IsRefuted c reasons.now order lits.items summands.items
        → AreReadable lines) }
    ensures right { IfOk result (λ lines. (c : NodeCheck) → IsRefuted c reasons.now order lits.items summands.items
        → AreRight c lines) }
{
    have_numbers(&lits);
    let first = lits.len() as u32;
    let mut lines = lines_of(alloc, reasons)?;
    lines.push(CertLine::Lemma {
        order: Some(order),
        lits: Sequence::from_vec(lits),
    })?;
    let mut lines = with_tree(alloc, lines, first, summands)?;
    lines.push(empty_by(alloc, reasons.len() as u32 + 1)?)?;
    Ok(Sequence::from_vec(lines))
}
