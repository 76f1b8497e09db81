//! Testing an entry before it is given for a check.
ghost use Rattle.std.specs.Prelude.{◌≡◌, IsTrue, IfOk, IfErr, IfSome};
ghost use Rattle.ffc_cert.specs.WellFormed.{IsReadable};
ghost use Rattle.ffc_rules.specs.Entries.{EntryOk};
ghost use Rattle.ffc_rules.specs.Laws.{IsValid};
ghost use Rattle.ffc_check.specs.Judged.{judged_check};
ghost use Rattle.ffc_trials.specs.Stops.{IsGivenIn, IsVerdict};
ghost use Rattle.ffc_trials.specs.Versions.{written_version};

use crate::readable::is_readable;
use crate::stop::DecideStop;
use ffc_cert::Entry;
use ffc_check::{CheckStop, check_entry};
use ffc_term::Check;
use std::alloc::Global;

/// Where a proposed entry is taken to begin when it is judged: after the first line of a certificate.
const FIRST_LINE: u64 = 2;

/// Whether an entry says if its check has a model.
fn is_verdict(entry: &Entry) -> bool
    ensures { IsTrue result → IsVerdict entry.now }
{
    match entry {
        Entry::Sat(_) | Entry::UnsatCases | Entry::UnsatSteps(_) => true,
        Entry::Unknown(_) => false,
    }
}

/// Whether the checker accepts an entry, which may have lines of bits or may not.
fn is_accepted(alloc: Global, check: &Check, entry: &Entry, bits: bool) -> Result<bool, DecideStop>
    requires valid { IsValid (judged_check check.now) }
    requires readable { IsReadable (written_version bits) entry.now }
    ensures accepted { IfOk result (λ accepted. IsTrue accepted → EntryOk (judged_check check.now) entry.now) }
    ensures only { IfErr result (λ stop. stop ≡ DecideStop.Memory) }
{
    match check_entry(alloc, check, entry, FIRST_LINE) {
        Ok(()) => Ok(true),
        Err(CheckStop::Broken(_)) => Ok(false),
        Err(CheckStop::Memory) => Err(DecideStop::Memory),
    }
}

/// The entry, where it may be given: it says whether the check has a model, is readable in version 2, or with `bits` in version 3,
/// and the checker accepts it.
pub fn tested(
    alloc: Global,
    check: &Check,
    entry: Entry,
    bits: bool,
) -> Result<Option<Entry>, DecideStop>
    requires valid { IsValid (judged_check check.now) }
    ensures given { IfOk result (λ found. IfSome found (IsGivenIn bits (judged_check check.now))) }
    ensures only { IfErr result (λ stop. stop ≡ DecideStop.Memory) }
{
    if !is_verdict(&entry) {
        return Ok(None);
    }
    if !is_readable(&entry, bits) {
        return Ok(None);
    }
    if !is_accepted(alloc, check, &entry, bits)? {
        return Ok(None);
    }
    Ok(Some(entry))
}
