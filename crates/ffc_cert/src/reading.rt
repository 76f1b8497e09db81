//! The reader: bytes in any pieces to entries and faults.
ghost use Rattle.std.specs.Prelude.{◌≡◌, ◌+◌, ◌<◌, ◌^◌, ◌++◌, [], false, true, Some, None, Err, IfOk, IfErr, IfSome};
ghost use Rattle.std.specs.Prelude.{IfNone, OnOk, MatchOption};
ghost use Rattle.ffc_cert.specs.Certificate.{IsRead, due_entry, due_fault, end_fault, version_of};
ghost use Rattle.ffc_cert.specs.Taking.{MatchStop};
ghost use Rattle.ffc_cert.specs.WellFormed.{IsReadableIn};

use crate::entries::{CertFault, CertStop, Numbered};
use crate::scanning::Scanner;
use ffc_base::GhostText;
use std::alloc::Global;
use std::marker::Model;

/// How many bytes a text has at most. A longer one is answered as out of memory.
const MAX_TEXT: u64 = 9_223_372_036_854_775_807;

/// The version that line 1 of a text names, of those that are read, and `None` until line 1 is whole.
fn named_version(bits: bool, text: &[u8]) -> Option<u8>
    ensures { result ≡ version_of bits text.now }
{
    if text.starts_with(b"ffcert 1\n") {
        Some(1)
    } else if text.starts_with(b"ffcert 2\n") {
        Some(2)
    } else if bits && text.starts_with(b"ffcert 3\n") {
        Some(3)
    } else {
        None
    }
}

/// The version after a piece: the one that is known, or what line 1 of the text names now.
fn version_after(bits: bool, version: Option<u8>, text: &[u8]) -> Option<u8>
    ensures { MatchOption version (result ≡ version_of bits text.now) (λ known. result ≡ Some known) }
{
    match version {
        Some(known) => Some(known),
        None => named_version(bits, text),
    }
}

/// Reads a certificate that comes in pieces. Clauses see whether version 3 is read, the text so far, from how many entries
/// it is to be, how many were given, and the fault that is kept: from the first fault on, each call answers that fault.
///
/// Each byte is looked at a few times, so the time is linear in the text, whatever the pieces are. Of the text it holds the
/// line that is not whole and what was fed since the last call of `next_entry` found nothing more: its memory is at most a
/// constant times the longest line and these bytes, and the entry that is being read.
#[derive(Drop)]
pub struct CertReader {
    alloc: Global,
    bits: bool,
    wanted: u64,
    /// The text so far.
    fed: GhostText,
    /// The text without the bytes that were dropped.
    window: Vec<u8>,
    /// What line 1 names, once it is whole.
    version: Option<u8>,
    scanner: Scanner,
    given: u64,
    fault: Option<CertFault>,
    finished: bool,
}

impl Model for CertReader {
    ghost use Rattle.ffc_cert.specs.Certificate.{Certificate};
    ghost use Rattle.ffc_cert.specs.Kept.{IsKept};

    ghost Value = { Certificate };

    ghost view = { λ r. record {
      bits = r.bits;
      wanted = r.wanted;
      text = r.fed.bytes;
      given = r.given;
      fault = r.fault;
      finished = r.finished;
    } };

    ghost invariant = { λ r. IsKept r.bits r.wanted r.fed.bytes r.given r.fault r.scanner r.window.items r.version };
}

impl CertReader {
    /// A reader of a text of which nothing has come, and that is to have so many entries. Version 3 is read where `bits` is
    /// true. It takes no memory.
    pub fn new(alloc: Global, entries: u64, bits: bool) -> CertReader
        requires { entries < 2 ^ 32 }
        ensures { result ≡ record { bits = bits; wanted = entries; text = []; given = 0; fault = None; finished = false } }
    {
        CertReader {
            alloc,
            bits,
            wanted: entries,
            fed: GhostText::new(),
            window: Vec::new(alloc),
            version: None,
            scanner: Scanner::new(alloc, bits),
            given: 0,
            fault: None,
            finished: false,
        }
    }

    /// Appends a piece to the text.
    pub fn feed(&mut self, piece: &[u8]) -> Result<(), CertStop>
        requires { self.old.finished ≡ false }
        ensures ok { OnOk result ((self.old.fault ≡ None)
            × (self.new ≡ record self.old { text = self.old.text ++ piece.now })) }
        ensures stop { IfErr result (λ stop. (self.new ≡ self.old)
            × MatchStop stop (λ fault. self.old.fault ≡ Some fault) (self.old.fault ≡ None)) }
    {
        match self.fault {
            Some(fault) => return Err(CertStop::Fault(fault)),
            None => {}
        }
        self.let_go();
        let length = self.scanner.gone + self.window.len() as u64;
        if piece.len() as u64 > MAX_TEXT - length {
            return Err(CertStop::Memory);
        }
        self.window.extend_from_slice(piece)?;
        self.fed.append(piece);
        self.version = version_after(self.bits, self.version, &self.window);
        Ok(())
    }

    /// Lets go of the lines that were read, once they have more bytes than the rest: so over a run the cost is constant a
    /// byte.
    fn let_go(&mut self)
        requires { self.old.fault ≡ None }
        ensures { self.new ≡ self.old }
    {
        let dead = (self.scanner.start - self.scanner.gone) as usize;
        let live = self.window.len() - dead;
        if self.version.is_none() || dead <= live {
            return;
        }
        self.window.copy_within(dead.., 0);
        self.window.truncate(live);
        self.scanner.gone = self.scanner.start;
    }

    /// Gives the next entry. `None` says that it isn't whole in the text so far, or that all were given, and that nothing
    /// judged so far is at fault. A line is judged once it is whole, and a byte after the last entry at once. A given entry
    /// is well formed in the version of the text, and its own text is not too long.
    pub fn next_entry(&mut self) -> Result<Option<Numbered>, CertStop>
        ensures entry { IfOk result (λ found. found ≡ due_entry self.old.fault self.old.bits self.old.wanted self.old.text
            self.old.given) }
        ensures readable { IfOk result
            (λ found. IfSome found (λ entry. IsReadableIn (version_of self.old.bits self.old.text) entry.entry)) }
        ensures number { IfOk result (λ found. IfSome found (λ entry. entry.number ≡ self.old.given + 1)) }
        ensures first_line { IfOk result (λ found. IfSome found (λ entry. entry.first_line < 2 ^ 63)) }
        ensures kept { IfSome self.old.fault (λ fault. result ≡ Err (CertStop.Fault fault)) }
        ensures given { IfOk result
            (λ found. IfSome found (λ entry. self.new ≡ record self.old { given = self.old.given + 1 })) }
        ensures none { IfOk result (λ found. IfNone found (self.new ≡ self.old)) }
        ensures no_fault { OnOk result (due_fault self.old.fault self.old.bits self.old.wanted self.old.text
            self.old.given ≡ None) }
        ensures stop { IfErr result (λ stop. MatchStop stop
            (λ fault. (due_fault self.old.fault self.old.bits self.old.wanted self.old.text self.old.given ≡ Some fault)
            × (self.new ≡ record self.old { fault = Some fault }))
            (self.new ≡ self.old)) }
    {
        match self.fault {
            Some(fault) => return Err(CertStop::Fault(fault)),
            None => {}
        }
        match self.scanner.scan(self.alloc, self.bits, self.wanted, &self.fed, &self.window) {
            Ok(Some(entry)) => {
                self.given += 1;
                Ok(Some(entry))
            }
            Ok(None) => Ok(None),
            Err(CertStop::Fault(fault)) => {
                self.fault = Some(fault);
                Err(CertStop::Fault(fault))
            }
            Err(CertStop::Memory) => Err(CertStop::Memory),
        }
    }

    /// Says that the text ends here. That is a fault where line 1 or a wanted entry is not whole: code 4 on the line at
    /// which the text ends.
    pub fn finish(&mut self) -> Result<(), CertStop>
        requires { IsRead self.old }
        ensures ok { OnOk result ((end_fault self.old.fault self.old.bits self.old.wanted self.old.text ≡ None)
            × (self.new ≡ record self.old { finished = true })) }
        ensures stop { IfErr result (λ stop. MatchStop stop
            (λ fault. (end_fault self.old.fault self.old.bits self.old.wanted self.old.text ≡ Some fault)
            × (self.new ≡ record self.old { fault = Some fault; finished = true }))
            (self.new ≡ self.old)) }
        ensures kept { IfSome self.old.fault (λ fault. result ≡ Err (CertStop.Fault fault)) }
    {
        match self.fault {
            Some(fault) => {
                self.finished = true;
                return Err(CertStop::Fault(fault));
            }
            None => {}
        }
        match self.scanner.end(self.alloc, self.bits, self.wanted, &self.fed, &self.window) {
            Ok(None) => {
                self.finished = true;
                Ok(())
            }
            Ok(Some(fault)) => {
                self.finished = true;
                self.fault = Some(fault);
                Err(CertStop::Fault(fault))
            }
            Err(stop) => Err(stop),
        }
    }

    /// The version that line 1 names, and `None` until line 1 is whole.
    pub fn version(&self) -> Option<u8>
        ensures { result ≡ version_of self.now.bits self.now.text }
    {
        self.version
    }
}
