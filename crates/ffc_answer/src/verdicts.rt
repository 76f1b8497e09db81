//! The answers to checks, and to faults.
ghost use Rattle.std.specs.Prelude.{◌≡◌, ◌++◌, IfOk, OnOk, string_bytes};
ghost use Rattle.ffc_answer.specs.Answers.{fault_answer, verdict};
ghost use Rattle.ffc_answer.specs.Seen.{verdict_seen};
ghost use Rattle.std.specs.Option.{option_copied};

use ffc_cert::Entry;
use std::alloc::{AllocError, Global};

/// The answer to a check.
pub fn verdict_of(entry: &Entry) -> &'static str
    ensures { result.now ≡ verdict entry.now }
{
    match entry {
        Entry::Sat(_) => "sat\n",
        Entry::UnsatCases | Entry::UnsatSteps(_) => "unsat\n",
        Entry::Unknown(_) => "unknown\n",
    }
}

/// The answer to a fault at this place.
pub fn error_line(alloc: Global, line: u64, column: u64, code: u8) -> Result<String, AllocError>
    ensures { IfOk result (λ text. string_bytes text ≡ fault_answer line column code) }
{
    let mut text = String::from_str(alloc, "(error \"")?;
    write!(text, "{line}:{column} {code}")?;
    text.push_str("\")\n")?;
    Ok(text)
}

/// Appends the answer to the last check.
pub(crate) fn append_verdict(last: Option<&Entry>, out: &mut Vec<u8>) -> Result<(), AllocError>
    ensures { OnOk result (out.new.items ≡ out.old.items ++ verdict_seen (option_copied last.entry)) }
{
    match last {
        None => Ok(()),
        Some(entry) => out.extend_from_slice(verdict_of(entry).as_bytes()),
    }
}
