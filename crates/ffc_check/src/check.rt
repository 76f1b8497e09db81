//! Judging an entry.
ghost use Rattle.std.specs.Prelude.{◌≡◌, ◌<◌, ◌^◌, None, Some, Err, OnOk};
ghost use Rattle.ffc_rules.specs.Entries.{breaks, entry_fault};
ghost use Rattle.ffc_rules.specs.Laws.{IsValid, IsTrueOf};
ghost use Rattle.ffc_check.specs.declared.stop.Broken.{Broken as BrokenRule};
ghost use Rattle.ffc_check.specs.declared.stop.CheckStop.TheVariants as stops;
ghost use Rattle.ffc_check.specs.Answers.{Answers};
ghost use Rattle.ffc_check.specs.Judged.{judged_check, IsReadableEntry};

use crate::cases::check_cases;
use crate::stop::CheckStop;
use crate::values::check_values;
use crate::walk::check_lines;
use ffc_cert::Entry;
use ffc_term::Check;
use std::alloc::Global;

/// Judges an entry that begins at this line of its certificate. A refutation costs about what its text has to be read, its
/// products, the square of the lengths that are written for each step of a chain, for each choice of a line of bits the terms of
/// its line and those that are written, and once the marks up to its highest literal; an entry by cases the work of the check, and
/// once the active list.
pub fn check_entry(
    alloc: Global,
    check: &Check,
    entry: &Entry,
    first_line: u64,
) -> Result<(), CheckStop>
    requires valid { IsValid (judged_check check.now) }
    requires readable { IsReadableEntry entry.now }
    requires line { first_line < 2 ^ 63 }

    // With enough memory the answer is Ok exactly where no line breaks a rule.
    ensures ok { OnOk result (entry_fault (judged_check check.now) entry.now first_line ≡ None) }
    ensures broken { (b : BrokenRule) → result ≡ Err (stops.Broken b)
        → entry_fault (judged_check check.now) entry.now first_line ≡ Some (breaks b.rule b.line) }

    // An accepted refutation says that no assignment makes all that is active true, accepted values that they do.
    ensures meaning { OnOk result (IsTrueOf (judged_check check.now) entry.now) }
{
    judge(alloc, check, entry, first_line)
}

/// The same answer, in one clause.
fn judge(alloc: Global, check: &Check, entry: &Entry, first_line: u64) -> Result<(), CheckStop>
    requires valid { IsValid (judged_check check.now) }
    requires readable { IsReadableEntry entry.now }
    requires line { first_line < 2 ^ 63 }
    ensures { Answers result (entry_fault (judged_check check.now) entry.now first_line) }
{
    match entry {
        Entry::Sat(pairs) => check_values(alloc, check, pairs.as_slice(), first_line),
        Entry::UnsatCases => check_cases(alloc, check, first_line),
        Entry::UnsatSteps(lines) => check_lines(alloc, check, lines.as_slice(), first_line + 1),
        Entry::Unknown(_) => Ok(()),
    }
}
