//! The answer to a command.
ghost use Rattle.std.specs.Prelude.{◌≡◌, ◌++◌, Option, OnErr, OnOk};
ghost use Rattle.ffc_smt.specs.Scripts.{Step};
ghost use Rattle.ffc_answer.specs.Answers.{Last, answer_of};
ghost use Rattle.ffc_answer.specs.Seen.{CanAnswer, answer_seen, success_seen};
ghost use Rattle.ffc_answer.specs.Views.{IsView};

use crate::cores::{append_assumptions, append_core};
use crate::models::{append_model, append_values};
use crate::reasons::append_reason;
use crate::texts::append_line;
use crate::verdicts::append_verdict;
use crate::view::View;
use ffc_elab::Command;
use std::alloc::{AllocError, Global};

/// Appends the answer to a command that asks for nothing.
fn append_success(view: &View, out: &mut Vec<u8>) -> Result<(), AllocError>
    ensures { OnOk result (out.new.items ≡ out.old.items ++ success_seen view.now) }
{
    if view.context.print_success() {
        append_line(b"success", out)
    } else {
        Ok(())
    }
}

fn append_answer(
    alloc: Global,
    command: &Command,
    view: &View,
    out: &mut Vec<u8>,
) -> Result<(), AllocError>
    requires { CanAnswer view.now command.now }
    ensures { OnOk result (out.new.items ≡ out.old.items ++ answer_seen view.now command.now) }
{
    match command {
        Command::Quiet(_) => append_success(view, out),
        Command::Check | Command::CheckAssuming(_) => append_verdict(view.last, out),
        Command::GetModel => append_model(alloc, view, out),
        Command::GetValue(asked) => append_values(alloc, view, asked.as_slice(), out),
        Command::GetReason => append_reason(view.last, out),
        Command::GetCore => append_core(alloc, view, out),
        Command::GetAssumptions => append_assumptions(alloc, view, out),
        Command::Say(text) => append_line(text.bytes(), out),
        Command::Unsupported => append_line(b"unsupported", out),
        Command::Exit => Ok(()),
    }
}

/// Appends the answer to a command (SMT-LIB 2.6, section 3.9.1); of a check it is the verdict. Values cost the cone of what is
/// asked for, and a few passes over the table. Where memory is out, nothing is appended.
///
/// What is appended is said by what the view has, and of a view of a script's step it is the answer to that step.
pub fn write_answer(
    alloc: Global,
    command: &Command,
    view: &View,
    out: &mut Vec<u8>,
) -> Result<(), AllocError>
    requires { CanAnswer view.now command.now }
    ensures seen { OnOk result (out.new.items ≡ out.old.items ++ answer_seen view.now command.now) }
    ensures ok { OnOk result ((l : Option Last) (x : Step) → IsView view.now command.now l x → out.new.items
        ≡ out.old.items ++ answer_of l x) }
    ensures err { OnErr result (out.new.items ≡ out.old.items) }
{
    let mut answer = Vec::new(alloc);
    append_answer(alloc, command, view, &mut answer)?;
    out.extend_from_slice(answer.as_slice())
}
