//! The entries of a certificate, read from a source.
ghost use Rattle.std.specs.Prelude.{◌≡◌, ◌≤◌, false, IfOk, IfErr, IfSome, OnOk, IsErrOf};
ghost use Rattle.ffc_base.specs.Outside.{Rose};
ghost use Rattle.ffc_cert.specs.Certificate.{IsRead};
ghost use Rattle.ffc_verify.specs.Reading.{EndsAs, Grows, HasLine, IsAtEnd, IsNext, IsOpen, MovesOn, TakesPiece, TakesPieces};

use crate::stop::{PIECE, Stop};
use ffc_base::Source;
use ffc_cert::{CertFault, CertReader, CertStop, Numbered};

/// The next entry, or how a certificate ends.
#[derive(Drop)]
pub(crate) enum NextEntry {
    Entry(Numbered),
    /// The text ends with the last entry that is wanted.
    Complete,
    Fault(CertFault),
}

/// Feeds the reader one more piece, and says whether there was one.
fn read_piece<C: Source>(entries: &mut CertReader, cert: &mut C) -> Result<bool, Stop>
    requires { IsOpen entries.old }
    ensures moves { OnOk result (MovesOn entries.old.text (C.left cert.old) entries.new.text (C.left cert.new)) }
    ensures taken { IfSome (C.left cert.old) (λ bytes. TakesPiece bytes (C.left cert.new)) }
    ensures grows { Grows entries.old entries.new }
    ensures only { entries.new ≡ record entries.old { text = entries.new.text } }
    ensures end { IfOk result (λ got. got ≡ false → (entries.new ≡ entries.old) × IsAtEnd (C.left cert.old)) }
    ensures later { C.faults cert.old ≤ C.faults cert.new }
    ensures cause { IsErrOf result Stop.Failed → Rose (C.faults cert.old) (C.faults cert.new) }
{
    let mut buffer = [0u8; PIECE];
    let Ok(count) = cert.read(&mut buffer) else {
        return Err(Stop::Failed);
    };
    if count == 0 {
        return Ok(false);
    }
    match entries.feed(&buffer[..count]) {
        Ok(()) => Ok(true),
        Err(CertStop::Memory) => Err(Stop::Memory),
        Err(CertStop::Fault(_)) => unreachable!(),
    }
}

/// Says that the text ends here.
fn end_entries(entries: &mut CertReader) -> Result<NextEntry, Stop>
    requires read { IsRead entries.old }
    requires open { IsOpen entries.old }
    ensures end { IfOk result (EndsAs entries.old) }
    ensures line { IfOk result HasLine }
    ensures text { entries.new.text ≡ entries.old.text }
    ensures memory { IfErr result (λ stop. stop ≡ Stop.Memory) }
{
    match entries.finish() {
        Ok(()) => Ok(NextEntry::Complete),
        Err(CertStop::Fault(fault)) => Ok(NextEntry::Fault(fault)),
        Err(CertStop::Memory) => Err(Stop::Memory),
    }
}

/// Reads on to the next entry of the certificate, or to its end.
pub(crate) fn next_entry<C: Source>(
    entries: &mut CertReader,
    cert: &mut C,
) -> Result<NextEntry, Stop>
    requires { IsOpen entries.old }
    ensures next { IfOk result (IsNext entries.old entries.new (C.left cert.old)) }
    ensures line { IfOk result HasLine }
    ensures moves { OnOk result (MovesOn entries.old.text (C.left cert.old) entries.new.text (C.left cert.new)) }
    ensures taken { IfSome (C.left cert.old) (λ bytes. TakesPieces entries.old bytes (C.left cert.new)) }
    ensures grows { Grows entries.old entries.new }
    ensures later { C.faults cert.old ≤ C.faults cert.new }
    ensures cause { IsErrOf result Stop.Failed → Rose (C.faults cert.old) (C.faults cert.new) }
{
    for _ in 0..u64::MAX {
        match entries.next_entry() {
            Ok(Some(entry)) => return Ok(NextEntry::Entry(entry)),
            Ok(None) => {}
            Err(CertStop::Fault(fault)) => return Ok(NextEntry::Fault(fault)),
            Err(CertStop::Memory) => return Err(Stop::Memory),
        }
        if !read_piece(entries, cert)? {
            return end_entries(entries);
        }
    }
    // So many pieces fit no memory.
    Err(Stop::Memory)
}
