//! The way through a certificate, line by line.
ghost use Rattle.std.specs.Prelude.{◌≡◌, ◌<◌, ◌≤◌, ◌^◌, ◌*◌, ◌+◌, length, OnOk, IfOk, Result, nat_lt, ◌&&◌};
ghost use Rattle.ffc_cert.specs.declared.flaws.Flaw.{Flaw as LineFlaw};
ghost use Rattle.ffc_cert.specs.declared.progress.Place.TheVariants.{Header, Between, Assignment, Refutation};
ghost use Rattle.ffc_cert.specs.Items.{Gives};
ghost use Rattle.ffc_cert.specs.Reading.{awaited_after, is_whole, entry_number, code_of, fault_at, limited, moved};
ghost use Rattle.ffc_cert.specs.Reading.{numbered, completed, header_line, opening_line, assignment_line};
ghost use Rattle.ffc_cert.specs.Reading.{refutation_line, begun, with_value, with_line, next_at, named, origin};
ghost use Rattle.ffc_cert.specs.Reading.{is_complete, open_fault};
ghost use Rattle.ffc_cert.specs.Scan.{end_here};
ghost use Rattle.ffc_cert.specs.Trees.{new_trees};
ghost use Rattle.ffc_cert.specs.Bounds.{HasRoom, Follows};
ghost use Rattle.ffc_cert.specs.Taking.{Judges, Takes, complete_after};

use crate::entries::{CertFault, CertLine, CertStop, Entry, Numbered};
use crate::flaws::{Flaw, LineStop};
use crate::forms::{Awaited, Opening};
use crate::sequences::Sequence;
use crate::{MAX_BYTES, forms};
use std::alloc::Global;
use std::mem;

/// Where a line is in the text.
#[derive(Clone, Copy, Debug, PartialEq, Eq)]
pub enum Place {
    /// At line 1.
    Header,
    /// At the first line of an entry, or after the last entry.
    Between,
    /// In an assignment, with so many lines of values left.
    Assignment(u32),
    /// In a refutation that needs these lines.
    Refutation(Awaited),
}

/// The state after the lines so far.
#[derive(Debug, Drop)]
pub struct Progress {
    /// Whether version 3 is read.
    pub bits: bool,
    /// What line 1 named, and 0 before.
    pub version: u8,
    pub place: Place,
    /// How many entries are complete.
    pub complete: u64,
    /// The number of the next line, from 1.
    pub line: u64,
    /// The number of the first line of the entry that the next line is in.
    pub first_line: u64,
    /// How many bytes of that entry there are.
    pub bytes: u64,
    /// Its values so far.
    pub values: Sequence<(u32, u64)>,
    /// Its lines of clauses and trees so far.
    pub lines: Sequence<CertLine>,
}

impl Awaited {
    /// What is needed after this line.
    #[tactic(auto, unfolding(crate::specs::Reading::awaited_after))]
    fn after(self, line: &CertLine) -> Awaited
        requires { self.trees + new_trees line.now < 2 ^ 64 }
        ensures { result ≡ awaited_after line.now self }
    {
        match line {
            CertLine::Assume(_) | CertLine::Scheme(_, _, _) | CertLine::Hinted(_, _) => Awaited {
                clauses: self.clauses.saturating_sub(1),
                ..self
            },
            CertLine::Lemma { .. } => Awaited {
                clauses: self.clauses.saturating_sub(1),
                trees: 1,
                steps: 0,
            },
            CertLine::Combine(_) | CertLine::Bits(_, _, _, _) => self,
            CertLine::Chain(_, _, steps) => Awaited {
                steps: u64::from(*steps),
                ..self
            },
            CertLine::Step(_, _) => Awaited {
                steps: self.steps.saturating_sub(1),
                ..self
            },
            CertLine::Split(_, _, zeros) => Awaited {
                trees: self.trees.saturating_sub(1) + zeros.as_slice().len() as u64,
                ..self
            },
            CertLine::Values(_, trees) => Awaited {
                trees: self.trees.saturating_sub(1) + u64::from(*trees),
                ..self
            },
            CertLine::Close => Awaited {
                trees: self.trees.saturating_sub(1),
                ..self
            },
        }
    }

    /// Whether nothing is needed.
    #[tactic(auto, unfolding(crate::specs::Reading::is_whole))]
    fn is_whole(self) -> bool
        ensures { result ≡ is_whole self }
    {
        self.clauses == 0 && self.trees == 0 && self.steps == 0
    }
}

#[tactic(auto, unfolding(crate::specs::Reading::code_of))]
fn code_of(cut: bool, flaw: Flaw) -> u8
    ensures { result ≡ code_of cut flaw }
{
    match flaw {
        Flaw::Form => 2,
        Flaw::Number => 3,
        Flaw::Missing => { if cut { 5 } else { 2 } }
    }
}

impl Progress {
    /// Before line 1.
    pub fn new(alloc: Global, bits: bool) -> Progress
        ensures start { result ≡ origin bits }
        ensures room { HasRoom result }
    {
        Progress {
            bits,
            version: 0,
            place: Place::Header,
            complete: 0,
            line: 1,
            first_line: 1,
            bytes: 0,
            values: Sequence::new(alloc),
            lines: Sequence::new(alloc),
        }
    }

    /// A fault of the next line.
    #[tactic(auto, unfolding(crate::specs::Reading::entry_number))]
    pub fn fault(&self, code: u8) -> CertFault
        requires { HasRoom self.now }
        ensures { result ≡ fault_at code self.now }
    {
        let entry = match self.place {
            Place::Header => 0,
            Place::Between | Place::Assignment(_) | Place::Refutation(_) => self.complete + 1,
        };
        CertFault {
            entry,
            line: self.line,
            code,
        }
    }

    /// What a line of an entry says, or its fault.
    #[tactic(auto, unfolding(crate::specs::Reading::limited))]
    fn limited<T: Drop>(&self, line: &[u8], read: Result<T, LineStop>) -> Result<T, CertStop>
        requires room { HasRoom self.now }
        requires short { length line.now ≤ MAX_BYTES + 1 }
        ensures judged { (r : Result T LineFlaw) → Gives read r → Judges result (limited line.now self.now r) }
        ensures fits { OnOk result (self.now.bytes + (length line.now + 1) ≤ MAX_BYTES) }
        ensures read { IfOk result (λ x. read ≡ Ok x) }
    {
        match read {
            Err(LineStop::Memory) => Err(CertStop::Memory),
            Err(LineStop::Flaw(flaw)) => {
                let cut = line.len() as u64 > MAX_BYTES;
                Err(CertStop::Fault(self.fault(code_of(cut, flaw))))
            }
            Ok(read) => {
                if self.bytes + (line.len() as u64 + 1) > MAX_BYTES {
                    return Err(CertStop::Fault(self.fault(5)));
                }
                Ok(read)
            }
        }
    }

    /// Goes on after a line of so many bytes with its LF.
    fn go_on(&mut self, place: Place, size: u64)
        requires room { HasRoom self.old }
        requires fits { self.old.bytes + size ≤ MAX_BYTES }
        ensures { self.new ≡ moved place size self.old }
    {
        self.place = place;
        self.line += 1;
        self.bytes += size;
    }

    /// Completes the entry that the next line ends.
    fn complete_with(&mut self, alloc: Global, entry: Entry) -> Numbered
        requires { HasRoom self.old }
        ensures given { result ≡ numbered entry self.old }
        ensures after { self.new ≡ completed self.old }
    {
        let number = self.complete + 1;
        let first_line = self.first_line;
        self.place = Place::Between;
        self.complete = number;
        self.line += 1;
        self.first_line = self.line;
        self.bytes = 0;
        self.values = Sequence::new(alloc);
        self.lines = Sequence::new(alloc);
        Numbered {
            number,
            first_line,
            entry,
        }
    }

    #[tactic(auto, unfolding(crate::specs::Reading::header_line))]
    fn take_header(&mut self, line: &[u8]) -> Result<Option<Numbered>, CertStop>
        requires { HasRoom self.old }
        ensures taken { Takes result self.old self.new (header_line self.old line.now) }
        ensures follows { Follows self.old self.new }
        ensures counts { IfOk result (λ taken. self.new.complete ≡ complete_after taken self.old.complete) }
    {
        let version = if line == b"ffcert 1".as_slice() {
            1
        } else if line == b"ffcert 2".as_slice() {
            2
        } else if self.bits && line == b"ffcert 3".as_slice() {
            3
        } else {
            return Err(CertStop::Fault(self.fault(1)));
        };
        self.version = version;
        self.place = Place::Between;
        self.line += 1;
        self.first_line = self.line;
        Ok(None)
    }

    #[tactic(auto, using(crate::proofs::TakingLemmas::takings), unfolding(crate::specs::Reading::opening_line, crate::specs::Reading::begun))]
    fn take_opening(&mut self, alloc: Global, line: &[u8]) -> Result<Option<Numbered>, CertStop>
        requires room { HasRoom self.old }
        requires short { length line.now ≤ MAX_BYTES + 1 }
        ensures taken { Takes result self.old self.new (opening_line self.old line.now) }
        ensures follows { Follows self.old self.new }
        ensures counts { IfOk result (λ taken. self.new.complete ≡ complete_after taken self.old.complete) }
    {
        let opening = self.limited(line, forms::first_line(line))?;
        let size = line.len() as u64 + 1;
        match opening {
            Opening::Assignment(0) => {
                let entry = Entry::Sat(Sequence::new(alloc));
                Ok(Some(self.complete_with(alloc, entry)))
            }
            Opening::Refutation(0) => {
                let entry = Entry::UnsatSteps(Sequence::new(alloc));
                Ok(Some(self.complete_with(alloc, entry)))
            }
            Opening::Assignment(count) => {
                self.go_on(Place::Assignment(count), size);
                Ok(None)
            }
            Opening::Refutation(count) => {
                let awaited = Awaited {
                    clauses: u64::from(count),
                    trees: 0,
                    steps: 0,
                };
                self.go_on(Place::Refutation(awaited), size);
                Ok(None)
            }
            Opening::Whole(entry) => Ok(Some(self.complete_with(alloc, entry))),
        }
    }

    #[tactic(auto, using(crate::proofs::TakingLemmas::takings), unfolding(crate::specs::Reading::assignment_line, crate::specs::Reading::with_value))]
    fn take_value(
        &mut self,
        alloc: Global,
        left: u32,
        line: &[u8],
    ) -> Result<Option<Numbered>, CertStop>
        requires room { HasRoom self.old }
        requires short { length line.now ≤ MAX_BYTES + 1 }
        ensures taken { Takes result self.old self.new (assignment_line left self.old line.now) }
        ensures follows { Follows self.old self.new }
        ensures counts { IfOk result (λ taken. self.new.complete ≡ complete_after taken self.old.complete) }
    {
        let value = self.limited(line, forms::value_line(line))?;
        let size = line.len() as u64 + 1;
        self.values.push(value)?;
        if left == 1 {
            let values = mem::replace(&mut self.values, Sequence::new(alloc));
            return Ok(Some(self.complete_with(alloc, Entry::Sat(values))));
        }
        self.go_on(Place::Assignment(left.saturating_sub(1)), size);
        Ok(None)
    }

    #[tactic(auto, using(crate::proofs::TakingLemmas::takings), unfolding(crate::specs::Reading::refutation_line, crate::specs::Reading::with_line))]
    fn take_refutation(
        &mut self,
        alloc: Global,
        awaited: Awaited,
        line: &[u8],
    ) -> Result<Option<Numbered>, CertStop>
        requires room { HasRoom self.old }
        requires short { length line.now ≤ MAX_BYTES + 1 }
        requires trees { awaited.trees ≤ 2 ^ 32 * self.old.bytes }
        ensures taken { Takes result self.old self.new (refutation_line awaited self.old line.now) }
        ensures follows { Follows self.old self.new }
        ensures counts { IfOk result (λ taken. self.new.complete ≡ complete_after taken self.old.complete) }
    {
        let read = forms::refutation_line(alloc, self.version, awaited, line);
        let read = self.limited(line, read)?;
        let size = line.len() as u64 + 1;
        let awaited = awaited.after(&read);
        self.lines.push(read)?;
        if awaited.is_whole() {
            let lines = mem::replace(&mut self.lines, Sequence::new(alloc));
            return Ok(Some(self.complete_with(alloc, Entry::UnsatSteps(lines))));
        }
        self.go_on(Place::Refutation(awaited), size);
        Ok(None)
    }

    /// Whether each wanted entry is complete.
    #[tactic(auto, unfolding(crate::specs::Reading::is_complete))]
    fn is_complete(&self, wanted: u64) -> bool
        ensures { result ≡ is_complete self.now.place self.now.complete wanted }
    {
        match self.place {
            Place::Between => self.complete == wanted,
            Place::Header | Place::Assignment(_) | Place::Refutation(_) => false,
        }
    }

    /// Whether there are bytes after the last wanted entry.
    pub fn is_over(&self, wanted: u64, rest: &[u8]) -> bool
        ensures { result ≡ (is_complete self.now.place self.now.complete wanted && nat_lt 0 (length rest.now)) }
    {
        self.is_complete(wanted) && !rest.is_empty()
    }

    /// The fault of a text that ends where nothing more is found in it.
    #[tactic(auto, unfolding(crate::specs::Scan::end_here))]
    pub fn fault_at_end(&self, wanted: u64) -> Option<CertFault>
        requires { HasRoom self.now }
        ensures { result ≡ open_fault (end_here wanted self.now) }
    {
        if self.is_complete(wanted) {
            return None;
        }
        Some(self.fault(4))
    }

    /// Takes the next line, of which no byte past the limit is looked at. A fault or running out of memory changes nothing.
    #[tactic(auto, unfolding(crate::specs::Reading::next_at, crate::specs::Reading::next_in))]
    pub fn take_line(
        &mut self,
        alloc: Global,
        wanted: u64,
        line: &[u8],
    ) -> Result<Option<Numbered>, CertStop>
        requires { HasRoom self.old }
        ensures taken { Takes result self.old self.new (next_at wanted self.old line.now) }
        ensures follows { Follows self.old self.new }
        ensures counts { IfOk result (λ taken. self.new.complete ≡ complete_after taken self.old.complete) }
    {
        let seen = line.len().min(MAX_BYTES as usize + 1);
        let line = &line[..seen];
        match self.place {
            Place::Header => self.take_header(line),
            Place::Between => {
                if self.complete == wanted {
                    return Err(CertStop::Fault(self.fault(2)));
                }
                self.take_opening(alloc, line)
            }
            Place::Assignment(left) => self.take_value(alloc, left, line),
            Place::Refutation(awaited) => self.take_refutation(alloc, awaited, line),
        }
    }
}
