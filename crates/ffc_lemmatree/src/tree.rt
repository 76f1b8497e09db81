//! Refutations by a lemma whose tree closes.
ghost use Rattle.std.specs.Prelude.{◌≡◌, ◌≤◌, length, IfOk};
ghost use Rattle.ffc_rules.specs.Entries.{NodeCheck};
ghost use Rattle.ffc_refutation.specs.Given.{AreReadable, AreRight};
ghost use Rattle.ffc_refutation.specs.Written.{AreNumbered};
ghost use Rattle.ffc_lemmatree.specs.Trees.{IsRefutedByTree};

use crate::narrow::is_narrow;
use crate::reasons::{empty_by, lines_of};
use ffc_cert::{CertLine, Literal, Sequence};
use ffc_refutation::Reason;
use std::alloc::{AllocError, Global};

/// The nodes of literals have 32 bits, as each of their type has.
fn have_numbers(lits: &[Literal])
    ensures { AreNumbered lits.now }
{
    for lit in lits {
        is_narrow(lit.1);
    }
}

/// The refutation by reasons that force literals, and a lemma over equalities of this order that is then false and whose tree
/// closes.
pub fn by_tree(
    alloc: Global,
    reasons: &[Reason],
    order: u64,
    lits: Vec<Literal>,
    mut tree: Vec<CertLine>,
) -> Result<Sequence<CertLine>, AllocError>
    requires few { length reasons.now ≤ 1048577 }
    requires short { length lits.items ≤ 8192 }
    ensures readable { IfOk result (λ lines. (c : NodeCheck)
        → IsRefutedByTree c reasons.now order lits.items tree.items → AreReadable lines) }
    ensures right { IfOk result (λ lines. (c : NodeCheck)
        → IsRefutedByTree c reasons.now order lits.items tree.items → AreRight c lines) }
{
    have_numbers(&lits);
    let mut lines = lines_of(alloc, reasons)?;
    lines.push(CertLine::Lemma {
        order: Some(order),
        lits: Sequence::from_vec(lits),
    })?;
    lines.append(&mut tree)?;
    lines.push(empty_by(alloc, reasons.len() as u32 + 1)?)?;
    Ok(Sequence::from_vec(lines))
}
