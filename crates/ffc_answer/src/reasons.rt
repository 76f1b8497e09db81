//! Why a check was not decided.
ghost use Rattle.std.specs.Prelude.{◌≡◌, ◌++◌, OnOk};
ghost use Rattle.std.specs.Option.{option_copied};
ghost use Rattle.ffc_answer.specs.Answers.{cause_text};
ghost use Rattle.ffc_answer.specs.Seen.{HasBudget, EntryHasBudget, reason_seen};

use crate::texts::{append_error, append_number};
use ffc_cert::{Cause, Entry};
use std::alloc::AllocError;

fn append_cause(cause: Cause, out: &mut Vec<u8>) -> Result<(), AllocError>
    requires { HasBudget cause }
    ensures { OnOk result (out.new.items ≡ out.old.items ++ cause_text cause) }
{
    match cause {
        Cause::Degree => out.extend_from_slice(b"degree"),
        Cause::Terms => out.extend_from_slice(b"terms"),
        Cause::Steps(trials, reductions, assignments, chains) => {
            out.extend_from_slice(b"(steps ")?;
            append_number(trials + reductions + assignments + chains, out)?;
            out.push(b')')?;
            Ok(())
        }
        Cause::Memory => out.extend_from_slice(b"memory"),
    }
}

/// Appends the reason of the last entry, where it is unknown.
pub(crate) fn append_reason(last: Option<&Entry>, out: &mut Vec<u8>) -> Result<(), AllocError>
    requires { EntryHasBudget (option_copied last) }
    ensures { OnOk result (out.new.items ≡ out.old.items ++ reason_seen (option_copied last.entry)) }
{
    match last {
        Some(Entry::Unknown(cause)) => {
            out.extend_from_slice(b"(:reason-unknown ")?;
            append_cause(*cause, out)?;
            out.extend_from_slice(b")\n")
        }
        _ => append_error(b"no reason", out),
    }
}
