//! Lines of a certificate that give clauses without a tree.
ghost use Rattle.std.specs.Prelude.{◌≡◌, map, IfOk};
ghost use Rattle.ffc_cert.specs.Ranges.{IsLine};
ghost use Rattle.ffc_refutation.specs.Forcing.{line_of};
ghost use Rattle.ffc_refutation.specs.Written.{empty_by, AreLines};

use ffc_cert::{CertLine, Sequence};
use ffc_refutation::Reason;
use std::alloc::{AllocError, Global};

/// The line that gives a reason's clause.
fn line_of(reason: Reason) -> CertLine
    ensures line { result ≡ line_of reason }
    ensures range { IsLine (line_of reason) }
{
    match reason {
        Reason::Assertion(number) => CertLine::Assume(number),
        Reason::Scheme(node, scheme, index) => CertLine::Scheme(node, scheme, index),
    }
}

/// The lines that give the clauses of reasons.
pub(crate) fn lines_of(alloc: Global, reasons: &[Reason]) -> Result<Vec<CertLine>, AllocError>
    ensures lines { IfOk result (λ lines. lines.items ≡ map line_of reasons.now) }
    ensures ranges { IfOk result (λ lines. AreLines reasons.now) }
{
    let mut lines = Vec::new(alloc);
    for reason in reasons {
        lines.push(line_of(*reason))?;
    }
    Ok(lines)
}

/// The empty clause, with so many clauses as its hints, from the first.
pub(crate) fn empty_by(alloc: Global, count: u32) -> Result<CertLine, AllocError>
    ensures { IfOk result (λ line. line ≡ empty_by count) }
{
    let mut hints = Vec::with_capacity(alloc, count as usize)?;
    for hint in 0..count {
        hints.push(hint)?;
    }
    Ok(CertLine::Hinted(Sequence::new(alloc), Sequence::from_vec(hints)))
}
