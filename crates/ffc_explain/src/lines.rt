//! The report on a script whose certificate is accepted.
use crate::answers::Answers;
use crate::checks::{explain, write_check};
use crate::names::Names;
use crate::page::Page;
use crate::walk::{Step, Walk};
use ffc_cert::{CertReader, Entry};
use ffc_elab::Command;
use std::alloc::{AllocError, Global};

/// More entries than a certificate has.
const ALL_ENTRIES: u64 = 4_294_967_295;

/// How many checks have which verdict.
#[derive(Clone, Copy)]
struct Totals {
    sat: u64,
    unsat: u64,
    unknown: u64,
}

/// A report that is being written.
#[derive(Drop)]
struct Lines<'a> {
    alloc: Global,
    explains: bool,
    entries: CertReader,
    answers: &'a Answers,
    /// The number of the next answer.
    answer: usize,
    totals: Totals,
}

impl Totals {
    fn all(&self) -> u64 {
        self.sat
            .saturating_add(self.unsat)
            .saturating_add(self.unknown)
    }

    fn count(&mut self, entry: &Entry) {
        match entry {
            Entry::Sat(_) => self.sat = self.sat.saturating_add(1),
            Entry::UnsatCases | Entry::UnsatSteps(_) => self.unsat = self.unsat.saturating_add(1),
            Entry::Unknown(_) => self.unknown = self.unknown.saturating_add(1),
        }
    }

    fn write(&self, page: &mut Page) {
        page.count(self.all(), "check");
        page.text(": ");
        page.number(self.sat);
        page.text(" sat, ");
        page.number(self.unsat);
        page.text(" unsat, ");
        page.number(self.unknown);
        page.text(" unknown; certificate accepted\n");
    }
}

impl Lines<'_> {
    /// Writes the next answer, each of its lines indented.
    fn write_answer(&mut self, page: &mut Page) {
        page.indented(self.answers.at(self.answer));
        self.answer = self.answer.saturating_add(1);
    }

    /// Writes the report of a check.
    fn check(&mut self, walk: &Walk, line: u64, page: &mut Page) {
        self.answer = self.answer.saturating_add(1);
        let Ok(Some(numbered)) = self.entries.next_entry() else {
            page.fail();
            return;
        };
        self.totals.count(&numbered.entry);
        let names = Names::of(self.alloc, walk.context());
        write_check(&names, numbered.number, line, &numbered.entry, page);
        if self.explains {
            explain(&names, &numbered.entry, page);
        }
    }

    /// Writes what there is to say of a command.
    fn take(&mut self, walk: &Walk, step: &Step, page: &mut Page) {
        match &step.command {
            Command::Check | Command::CheckAssuming(_) => self.check(walk, step.line, page),
            Command::Quiet(_) => {
                if walk.context().print_success() {
                    self.answer = self.answer.saturating_add(1);
                }
            }
            Command::Exit => {}
            _ => self.write_answer(page),
        }
    }
}

/// Writes a line for each check, with the answers that the script asked for after it, and the totals. The certificate is an
/// accepted one, of any version.
pub fn write_lines(
    alloc: Global,
    explains: bool,
    script: &[u8],
    certificate: &[u8],
    answers: &Answers,
) -> Result<Vec<u8>, AllocError> {
    let mut page = Page::new(alloc);
    let mut entries = CertReader::new(alloc, ALL_ENTRIES, true);
    let Ok(mut walk) = Walk::new(alloc, script) else {
        return Err(AllocError);
    };
    if entries.feed(certificate).is_err() {
        return Err(AllocError);
    }
    let mut lines = Lines {
        alloc,
        explains,
        entries,
        answers,
        answer: 0,
        totals: Totals {
            sat: 0,
            unsat: 0,
            unknown: 0,
        },
    };
    for _ in 0..u64::MAX {
        match walk.next() {
            Ok(Some(step)) => lines.take(&walk, &step, &mut page),
            Ok(None) => break,
            Err(_) => return Err(AllocError),
        }
    }
    lines.totals.write(&mut page);
    page.finish()
}
