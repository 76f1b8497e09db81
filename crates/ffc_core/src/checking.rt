//! Judging an entry and a core of it.
ghost use Rattle.std.specs.Prelude.{◌≡◌, ℕ, ◌<◌, ◌^◌, ◌||◌, true, false, List, length, get_or, None, Some, Err, IfOk};
ghost use Rattle.std.specs.Prelude.{OnOk, MatchOption};
ghost use Rattle.ffc_term.specs.declared.value.Value.{Value as NodeValue};
ghost use Rattle.ffc_rules.specs.Cones.{is_listed};
ghost use Rattle.ffc_rules.specs.Cores.{core};
ghost use Rattle.ffc_rules.specs.Entries.{breaks, entry_fault};
ghost use Rattle.ffc_rules.specs.Laws.{IsValid, IsUnsat, AreTrueAt};
ghost use Rattle.ffc_check.specs.declared.stop.Broken.{Broken as BrokenRule};
ghost use Rattle.ffc_check.specs.Judged.{judged_check, IsReadableEntry};
ghost use Rattle.ffc_core.specs.declared.checking.CoreStop.TheVariants as stops;
ghost use Rattle.ffc_core.specs.Outside.{IsLeastOutside, AreListed};

use crate::cores::core_of;
use ffc_cert::Entry;
use ffc_check::{Broken, CheckStop, check_entry};
use ffc_term::Check;
use std::alloc::{AllocError, Global};
use thiserror::Error;

/// Why a core is not accepted.
#[derive(Clone, Copy, Debug, PartialEq, Eq, Error)]
pub enum CoreStop {
    /// The entry is not accepted.
    #[error(transparent)]
    Broken(Broken),
    /// The entry uses this number of the active list, which the core leaves out.
    #[error("assertion {0} is used and not in the core")]
    Outside(u64),
    /// Out of memory.
    #[error("out of memory")]
    Memory,
}

impl From<AllocError> for CoreStop {
    ghost use Rattle.std.specs.Prelude.{◌≡◌};
    ghost use Rattle.ffc_core.specs.declared.checking.CoreStop.TheVariants.{Memory};

    ghost from_gives = { λ _ stop. stop ≡ Memory };

    fn from(_: AllocError) -> CoreStop {
        CoreStop::Memory
    }
}

impl From<CheckStop> for CoreStop {
    ghost use Rattle.std.specs.Prelude.{◌≡◌};
    ghost use Rattle.ffc_core.specs.Answers.{passed_on};

    ghost from_gives = { λ from stop. stop ≡ passed_on from };

    fn from(stop: CheckStop) -> CoreStop {
        match stop {
            CheckStop::Broken(broken) => CoreStop::Broken(broken),
            CheckStop::Memory => CoreStop::Memory,
        }
    }
}

/// Marks these numbers.
fn mark_listed(marks: &mut [bool], numbers: &[u64])
    ensures marked { (h : ℕ) → h < length marks.old → get_or marks.new h false
        ≡ (is_listed numbers.now h || get_or marks.old h false) }
    ensures len { length marks.new ≡ length marks.old }
{
    for number in numbers {
        let h = *number as usize;
        if h < marks.len() {
            marks[h] = true;
        }
    }
}

/// Which numbers below a count are listed.
fn listed_below(alloc: Global, numbers: &[u64], count: usize) -> Result<Vec<bool>, AllocError>
    ensures len { IfOk result (λ v. length v.items ≡ count) }
    ensures listed { IfOk result (λ v. (k : ℕ) → k < count → get_or v.items k false ≡ is_listed numbers.now k) }
{
    let mut marks = vec![in alloc; false; count]?;
    mark_listed(marks.as_mut_slice(), numbers);
    Ok(marks)
}

/// The least number that is used and not listed.
fn first_missing(used: &[bool], listed: &[bool]) -> Option<usize>
    requires { length listed.now ≡ length used.now }
    ensures missing { MatchOption result
        ((j : ℕ) → j < length used.now → get_or used.now j false ≡ true → get_or listed.now j false ≡ true)
        (λ k. (k < length used.now) × (get_or used.now k false ≡ true) × (get_or listed.now k false ≡ false)
        × ((j : ℕ) → j < k → get_or used.now j false ≡ true → get_or listed.now j false ≡ true)) }
{
    for k in 0..used.len() {
        if used[k] && !listed[k] {
            return Some(k);
        }
    }
    None
}

/// The least number of an entry's core that a list leaves out.
fn first_outside(
    alloc: Global,
    entry: &Entry,
    count: usize,
    listed: &[u64],
) -> Result<Option<u64>, AllocError>
    ensures { IfOk result (λ found. MatchOption found (AreListed (core entry.now count) listed.now)
        (IsLeastOutside (core entry.now count) listed.now)) }
{
    let numbers = core_of(alloc, entry, count as u64)?;
    let used = listed_below(alloc, numbers.as_slice(), count)?;
    let among = listed_below(alloc, listed, count)?;
    match first_missing(used.as_slice(), among.as_slice()) {
        None => Ok(None),
        Some(k) => Ok(Some(k as u64)),
    }
}

/// Judges an entry that begins at this line of its certificate, and whether the list has all numbers of its core. Beside the
/// judging of the entry it takes time in proportion to the entry and the two lists.
pub fn check_core(
    alloc: Global,
    check: &Check,
    entry: &Entry,
    first_line: u64,
    listed: &[u64],
) -> Result<(), CoreStop>
    requires valid { IsValid (judged_check check.now) }
    requires readable { IsReadableEntry entry.now }
    requires line { first_line < 2 ^ 63 }
    requires unsat { IsUnsat entry.now }
    ensures ok { OnOk result ((entry_fault (judged_check check.now) entry.now first_line ≡ None)
        × AreListed (core entry.now (length check.now.in_force.now)) listed.now) }
    ensures broken { (b : BrokenRule) → result ≡ Err (stops.Broken b)
        → entry_fault (judged_check check.now) entry.now first_line ≡ Some (breaks b.rule b.line) }
    ensures outside { (k : ℕ) → result ≡ Err (stops.Outside k)
        → (entry_fault (judged_check check.now) entry.now first_line ≡ None)
        × IsLeastOutside (core entry.now (length check.now.in_force.now)) listed.now k }

    // No assignment makes all true that is listed.
    ensures meaning { OnOk result ((assignment : List NodeValue) → AreTrueAt (judged_check check.now) listed.now
        assignment → ⊥) }
{
    check_entry(alloc, check, entry, first_line)?;
    match first_outside(alloc, entry, check.in_force.len(), listed)? {
        None => Ok(()),
        Some(k) => Err(CoreStop::Outside(k)),
    }
}
