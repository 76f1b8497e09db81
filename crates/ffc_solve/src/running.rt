//! Reading a script in pieces, and answering it as far as it has come.
ghost use Rattle.std.specs.Prelude.{◌≡◌, ℕ, ◌+◌, ◌≤◌, ◌⊎◌, length, List, Option, Some, true, false, OnOk, OnErr, IfOk};
ghost use Rattle.std.specs.Prelude.{IfErr, IfSome, IsErrOf};
ghost use Rattle.ffc_base.specs.Outside.{Rose, Appends, AppendsPrefix};
ghost use Rattle.ffc_answer.specs.Answers.{fault_answer};
ghost use Rattle.ffc_script.specs.Answers.{HasRun};
ghost use Rattle.ffc_solve.specs.Changes.{change};
ghost use Rattle.ffc_solve.specs.Solving.{EndsSoon, IsTaken};
ghost use Rattle.ffc_solve.specs.Remembering.{IsBudget};
ghost use Rattle.ffc_solve.specs.Underway.{AnswersSoonAt, HasFed, IsAnswered, IsCut, IsEnd, IsFinished, IsFirst, IsPausedAt};
ghost use Rattle.ffc_solve.specs.Underway.{IsUnfinished};

use crate::dialogue::{Advance, Dialogue};
use crate::stop::{Stop, write_out};
use ffc_answer::error_line;
use ffc_base::{Sink, Source};
use ffc_script::{ScriptStop, long_texts_are_cut};
use ffc_words::ScriptFault;
use std::alloc::Global;

/// How many bytes of a script are taken: those that count, and one more.
const MOST_TAKEN: usize = 67_108_865;

/// How many bytes are asked for at a time.
const PIECE: usize = 4096;

/// Reads a piece of the script, where there is one.
fn read_on<S: Source>(dialogue: &mut Dialogue, script: &mut S) -> Result<bool, Stop>
    requires active { dialogue.old.reader.over ≡ false }
    requires taken { dialogue.old.taken ≡ length dialogue.old.reader.text }
    requires short { length dialogue.old.reader.text ≤ 67108865 }
    ensures more { IfOk result (λ more. more ≡ true → HasFed dialogue.old dialogue.new (change S.left script)) }
    ensures end { IfOk result (λ more. more ≡ false → (dialogue.new ≡ dialogue.old)
        × IsEnd dialogue.old (change S.left script)) }
    ensures failed { IsErrOf result Stop.ReadFault → (dialogue.new ≡ dialogue.old)
        × (S.left script.new ≡ S.left script.old) }
    ensures memory { IsErrOf result Stop.Memory → IfSome (S.left script.old) (λ bytes. (piece : List ℕ)
        × IsTaken piece bytes (S.left script.new) × (length dialogue.old.reader.text + length piece ≤ 67108865)
        × (length piece ≤ 4096)) }
    ensures later { S.faults script.old ≤ S.faults script.new }
    ensures cause { IsErrOf result Stop.ReadFault → Rose (S.faults script.old) (S.faults script.new) }
    ensures only { IfErr result (λ stop. (stop ≡ Stop.ReadFault) ⊎ (stop ≡ Stop.Memory)) }
{
    let room = PIECE.min(MOST_TAKEN - dialogue.taken);
    if room == 0 {
        return Ok(false);
    }
    let mut buffer = [0u8; PIECE];
    let Ok(count) = script.read(&mut buffer[..room]) else {
        return Err(Stop::ReadFault);
    };
    if count == 0 {
        return Ok(false);
    }
    dialogue.reader.feed(&buffer[..count])?;
    dialogue.taken += count;
    Ok(true)
}

/// Answers a fault.
fn tell_fault<O: Sink>(alloc: Global, fault: ScriptFault, out: &mut O) -> Result<(), Stop>
    ensures ok { OnOk result (Appends (fault_answer fault.line fault.column fault.code) (O.holds out.old)
        (O.holds out.new)) }
    ensures err { OnErr result (AppendsPrefix (fault_answer fault.line fault.column fault.code) (O.holds out.old)
        (O.holds out.new)) }
    ensures later { O.faults out.old ≤ O.faults out.new }
    ensures cause { IsErrOf result Stop.WriteFault → Rose (O.faults out.old) (O.faults out.new) }
    ensures only { IfErr result (λ stop. (stop ≡ Stop.WriteFault) ⊎ (stop ≡ Stop.Memory)) }
{
    let text = error_line(alloc, fault.line, fault.column, fault.code.number())?;
    write_out(out, text.as_bytes())
}

/// Answers the end of a text, and says whether it is a fault.
fn finish<O: Sink>(dialogue: &mut Dialogue, out: &mut O) -> Result<bool, Stop>
    requires { HasRun dialogue.old.reader }
    ensures ok { IfOk result (λ refused. IsFinished dialogue.old.reader refused (change O.holds out)) }
    ensures err { OnErr result (IsUnfinished dialogue.old.reader (change O.holds out)) }
    ensures tally { dialogue.new.tally ≡ dialogue.old.tally }
    ensures later { O.faults out.old ≤ O.faults out.new }
    ensures cause { IsErrOf result Stop.WriteFault → Rose (O.faults out.old) (O.faults out.new) }
    ensures only { IfErr result (λ stop. (stop ≡ Stop.WriteFault) ⊎ (stop ≡ Stop.Memory)) }
{
    match dialogue.reader.finish() {
        Ok(()) => Ok(false),
        Err(stop) => match stop {
            ScriptStop::Fault(fault) => {
                tell_fault(dialogue.alloc, fault, out)?;
                Ok(true)
            }
            ScriptStop::Memory => Err(Stop::Memory),
        },
    }
}

/// Answers a script to its end, and says whether it has a fault.
pub fn run<S: Source, O: Sink, C: Sink>(
    dialogue: &mut Dialogue,
    script: &mut S,
    out: &mut O,
    cert: &mut C,
) -> Result<bool, Stop>
    requires first { IsFirst dialogue.old }
    requires budget { IsBudget dialogue.old.task.steps }
    ensures ok { IfOk result
        (λ refused. IfSome (S.left script.old) (λ bytes. IsAnswered dialogue.old.task bytes refused dialogue.new
        (change C.holds cert) (change O.holds out))) }
    ensures err { OnErr result (IfSome (S.left script.old) (λ bytes. IsCut dialogue.old.task bytes
        (change C.holds cert) (change O.holds out))) }
    ensures paused { IsErrOf result Stop.ReadFault → IfSome (S.left script.old) (λ bytes. (text : List ℕ)
        × IsTaken text bytes (S.left script.new)
        × IsPausedAt dialogue.old.task text (change C.holds cert) (change O.holds out)) }
    ensures taken { IfSome (S.left script.old) (λ bytes. (text : List ℕ) × IsTaken text bytes (S.left script.new)
        × EndsSoon text × AnswersSoonAt text (change C.holds cert) (change O.holds out)) }
    ensures same_name { C.name cert.new ≡ C.name cert.old }
    ensures later_out { O.faults out.old ≤ O.faults out.new }
    ensures cause_script { IsErrOf result Stop.ReadFault → Rose (S.faults script.old) (S.faults script.new) }
    ensures cause_out { IsErrOf result Stop.WriteFault → Rose (O.faults out.old) (O.faults out.new) }
    ensures cause_cert { IsErrOf result Stop.CertFault → Rose (C.faults cert.old) (C.faults cert.new) }
{
    long_texts_are_cut();
    'commands: loop {
        dialogue.reader.steps_are_few();
        dialogue.reader.steps_come_first();
        match dialogue.advance(out, cert)? {
            Advance::Answered => {}
            Advance::Ended => return Ok(false),
            Advance::Fault(fault) => {
                tell_fault(dialogue.alloc, fault, out)?;
                return Ok(true);
            }
            Advance::Waiting => match read_on(dialogue, script) {
                Ok(true) => {}
                Ok(false) => return finish(dialogue, out),
                Err(stop) => return Err(stop),
            },
        }
    }
}
