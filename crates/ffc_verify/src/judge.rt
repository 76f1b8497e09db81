//! Judging the entries of a certificate beside the checks of a script.
ghost use Rattle.std.specs.Prelude.{◌≡◌, ◌+◌, ◌<◌, ◌≤◌, ◌^◌, ◌++◌, length, true, false, None, IfOk, IfErr, OnOk};
ghost use Rattle.std.specs.Prelude.{IfSome, IfNone, IsErrOf};
ghost use Rattle.ffc_base.specs.Outside.{Rose};
ghost use Rattle.ffc_check.specs.Judged.{IsReadableEntry, judged_check};
ghost use Rattle.ffc_rules.specs.Judging as judging;
ghost use Rattle.ffc_rules.specs.Entries.{entry_fault};
ghost use Rattle.ffc_rules.specs.Laws.{IsValid};
ghost use Rattle.ffc_smt.specs.Scripts.{reads, Done};
ghost use Rattle.ffc_verify.specs.Judged.{EndsAsVerdict, IsBrokenBy, IsRefusedFor, IsTakenUp, IsVerdict, TakesUp};
ghost use Rattle.ffc_verify.specs.Judged.{cores_after, counts_in, refusal_for};
ghost use Rattle.ffc_verify.specs.Reading.{Grows, IsOpen, MovesOn, TakesPieces};
ghost use Rattle.ffc_verify.specs.Status.{ReadsAsNeeded};
ghost use Rattle.ffc_verify.specs.Walking.{GivesCheck, IsCounted, IsThrough};

use crate::entries::{NextEntry, next_entry};
use crate::lines::append_core;
use crate::script::{next_check, script_reader};
use crate::stop::Stop;
use crate::verdicts::{Cause, Refusal, Tally, Verdict};
use ffc_base::Source;
use ffc_cert::{CertFault, CertReader, Entry, Numbered};
use ffc_check::{CheckStop, check_entry};
use ffc_lex::Text;
use ffc_script::{ScriptReader, ScriptStop};
use ffc_term::Check;
use std::alloc::{AllocError, Global};

/// What an entry is judged beside.
#[derive(Clone, Copy)]
struct Beside<'a> {
    check: Check<'a>,
    /// The names of what is active.
    names: &'a [Option<Text>],
    /// Whether the lines of cores are kept.
    cores: bool,
}

impl Tally {
    /// Counts an entry.
    fn count(&mut self, entry: &Entry)
        requires { self.old.sat + self.old.unsat + self.old.unknown < 2 ^ 32 }
        ensures counts { counts_in self.new ≡ judging.counted entry.now (counts_in self.old) }
        ensures all { self.new.sat + self.new.unsat + self.new.unknown ≡ self.old.sat + self.old.unsat
            + self.old.unknown + 1 }
        ensures cores { self.new.cores.items ≡ self.old.cores.items }
    {
        match entry {
            Entry::Sat(_) => self.sat += 1,
            Entry::UnsatCases | Entry::UnsatSteps(_) => self.unsat += 1,
            Entry::Unknown(_) => self.unknown += 1,
        }
    }

    /// Takes up an entry that breaks no rule.
    fn take(&mut self, alloc: Global, beside: &Beside, entry: &Numbered) -> Result<(), AllocError>
        requires { self.old.sat + self.old.unsat + self.old.unknown < 2 ^ 32 }
        ensures counts { OnOk result (counts_in self.new ≡ judging.counted entry.now.entry (counts_in self.old)) }
        ensures all { OnOk result (self.new.sat + self.new.unsat + self.new.unknown ≡ self.old.sat + self.old.unsat
            + self.old.unknown + 1) }
        ensures cores { OnOk result (self.new.cores.items ≡ self.old.cores.items
            ++ cores_after beside.now.cores beside.now.names.now (length beside.now.check.in_force.now) entry.now) }
    {
        self.count(&entry.entry);
        if beside.cores {
            let in_force = beside.check.in_force.len() as u64;
            append_core(alloc, entry, beside.names, in_force, &mut self.cores)?;
        }
        Ok(())
    }
}

/// Why an entry is refused, if it breaks a rule.
fn judge_entry(alloc: Global, beside: &Beside, entry: &Numbered) -> Result<Option<Refusal>, Stop>
    requires valid { IsValid (judged_check beside.now.check) }
    requires readable { IsReadableEntry entry.now.entry }
    requires line { entry.now.first_line < 2 ^ 63 }
    ensures none { IfOk result
        (λ found. IfNone found (entry_fault (judged_check beside.now.check) entry.now.entry entry.now.first_line
        ≡ None)) }
    ensures some { IfOk result (λ found. IfSome found (IsBrokenBy (judged_check beside.now.check) entry.now)) }
    ensures memory { IfErr result (λ stop. stop ≡ Stop.Memory) }
{
    match check_entry(alloc, &beside.check, &entry.entry, entry.first_line) {
        Ok(()) => Ok(None),
        Err(CheckStop::Broken(broken)) => Ok(Some(Refusal {
            entry: entry.number,
            line: broken.line,
            cause: Cause::Rule(broken.rule),
        })),
        Err(CheckStop::Memory) => Err(Stop::Memory),
    }
}

/// Takes an entry up, unless it breaks a rule.
fn take_entry(
    alloc: Global,
    beside: &Beside,
    entry: &Numbered,
    tally: &mut Tally,
) -> Result<Option<Refusal>, Stop>
    requires valid { IsValid (judged_check beside.now.check) }
    requires readable { IsReadableEntry entry.now.entry }
    requires line { entry.now.first_line < 2 ^ 63 }
    requires few { tally.old.sat + tally.old.unsat + tally.old.unknown < 2 ^ 32 }
    ensures none { IfOk result (λ found. IfNone found (TakesUp beside.now entry.now tally.old tally.new)) }
    ensures some { IfOk result (λ found. IfSome found (IsBrokenBy (judged_check beside.now.check) entry.now)) }
    ensures memory { IfErr result (λ stop. stop ≡ Stop.Memory) }
{
    match judge_entry(alloc, beside, entry) {
        Ok(None) => match tally.take(alloc, beside, entry) {
            Ok(()) => Ok(None),
            Err(_) => Err(Stop::Memory),
        },
        Ok(Some(refusal)) => Ok(Some(refusal)),
        Err(stop) => Err(stop),
    }
}

/// A fault of form as the cause.
fn refused_for(fault: CertFault) -> Refusal
    ensures { result ≡ refusal_for fault }
{
    Refusal {
        entry: fault.entry,
        line: fault.line,
        cause: Cause::Format(fault.code),
    }
}

/// Reads and judges the entry of a check.
fn judge_next<C: Source>(
    alloc: Global,
    beside: &Beside,
    entries: &mut CertReader,
    cert: &mut C,
    tally: &mut Tally,
) -> Result<Option<Refusal>, Stop>
    requires valid { IsValid (judged_check beside.now.check) }
    requires open { IsOpen entries.old }
    requires few { tally.old.sat + tally.old.unsat + tally.old.unknown < 2 ^ 32 }
    requires awaited { entries.old.given < entries.old.wanted }
    ensures none { IfOk result
        (λ found. IfNone found (IsTakenUp beside.now entries.old entries.new tally.old tally.new)) }
    ensures some { IfOk result
        (λ found. IfSome found (IsRefusedFor (judged_check beside.now.check) entries.old entries.new (C.left cert.old))) }
    ensures moves { OnOk result (MovesOn entries.old.text (C.left cert.old) entries.new.text (C.left cert.new)) }
    ensures taken { IfSome (C.left cert.old) (λ bytes. TakesPieces entries.old bytes (C.left cert.new)) }
    ensures grows { Grows entries.old entries.new }
    ensures later { C.faults cert.old ≤ C.faults cert.new }
    ensures cause { IsErrOf result Stop.Failed → Rose (C.faults cert.old) (C.faults cert.new) }
{
    match next_entry(entries, cert) {
        Ok(NextEntry::Entry(entry)) => take_entry(alloc, beside, &entry, tally),
        Ok(NextEntry::Complete) => unreachable!(),
        Ok(NextEntry::Fault(fault)) => Ok(Some(refused_for(fault))),
        Err(stop) => Err(stop),
    }
}

/// Reads the certificate to its end, after the last entry.
fn judge_end<C: Source>(
    entries: &mut CertReader,
    cert: &mut C,
    tally: Tally,
) -> Result<Verdict, Stop>
    requires open { IsOpen entries.old }
    requires all { entries.old.given ≡ entries.old.wanted }
    ensures ok { IfOk result (EndsAsVerdict entries.old entries.new (C.left cert.old) tally) }
    ensures moves { OnOk result (MovesOn entries.old.text (C.left cert.old) entries.new.text (C.left cert.new)) }
    ensures taken { IfSome (C.left cert.old) (λ bytes. TakesPieces entries.old bytes (C.left cert.new)) }
    ensures grows { Grows entries.old entries.new }
    ensures later { C.faults cert.old ≤ C.faults cert.new }
    ensures cause { IsErrOf result Stop.Failed → Rose (C.faults cert.old) (C.faults cert.new) }
{
    match next_entry(entries, cert) {
        Ok(NextEntry::Entry(_)) => unreachable!(),
        Ok(NextEntry::Complete) => Ok(Verdict::Accepted(tally)),
        Ok(NextEntry::Fault(fault)) => Ok(Verdict::Refused(refused_for(fault))),
        Err(stop) => Err(stop),
    }
}

/// Reads on to the next check of a script that has no fault.
fn more_checks(reader: &mut ScriptReader) -> Result<bool, Stop>
    requires over { reader.old.over ≡ false }
    requires done { (reads reader.old.text).end ≡ Done }
    ensures check { IfOk result (λ found. found ≡ true → GivesCheck reader.old reader.new) }
    ensures none { IfOk result (λ found. found ≡ false → IsThrough reader.old) }
    ensures memory { IfErr result (λ stop. stop ≡ Stop.Memory) }
{
    match next_check(reader) {
        Ok(found) => Ok(found),
        Err(ScriptStop::Memory) => Err(Stop::Memory),
        Err(ScriptStop::Fault(_)) => unreachable!(),
    }
}

/// Judges a certificate, which is read entry by entry, for a script that has no fault and so many checks.
pub(crate) fn judge<C: Source>(
    alloc: Global,
    script: &[u8],
    checks: u64,
    bits: bool,
    cores: bool,
    cert: &mut C,
) -> Result<Verdict, Stop>
    requires short { length script.now ≤ 67108865 }
    requires counted { IsCounted script.now checks }
    ensures ok { IfOk result
        (λ verdict. IfSome (C.left cert.old) (λ certificate. IsVerdict bits cores script.now certificate verdict)) }
    ensures read { IfSome (C.left cert.old) (λ certificate. ReadsAsNeeded bits script.now certificate (C.left cert.new)) }
    ensures later { C.faults cert.old ≤ C.faults cert.new }
    ensures cause { IsErrOf result Stop.Failed → Rose (C.faults cert.old) (C.faults cert.new) }
{
    let Ok(mut reader) = script_reader(alloc, script) else {
        return Err(Stop::Memory);
    };
    let mut entries = CertReader::new(alloc, checks, bits);
    let mut tally = Tally {
        sat: 0,
        unsat: 0,
        unknown: 0,
        cores: Vec::new(alloc),
    };
    'checks: loop {
        match more_checks(&mut reader) {
            Ok(true) => {}
            Ok(false) => return judge_end(&mut entries, cert, tally),
            Err(stop) => return Err(stop),
        }
        reader.steps_are_few();
        reader.steps_come_first();
        let beside = Beside {
            check: reader.check(),
            names: reader.context().names(),
            cores,
        };
        match judge_next(alloc, &beside, &mut entries, cert, &mut tally) {
            Ok(None) => {}
            Ok(Some(refusal)) => return Ok(Verdict::Refused(refusal)),
            Err(stop) => return Err(stop),
        }
    }
}
