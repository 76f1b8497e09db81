//! The checks of a script.
ghost use Rattle.std.specs.Prelude.{◌≡◌, ◌≤◌, [], false, true, length, IfOk, IfErr, OnOk};
ghost use Rattle.ffc_script.specs.Answers.{EndsAt, HasRun, SaysAll};
ghost use Rattle.ffc_verify.specs.Walking.{GivesCheck, IsCounted, IsFaultOf, IsThrough, kind_by};

use ffc_elab::Command;
use ffc_script::{ScriptReader, ScriptStop};
use std::alloc::Global;

/// What a command is to a walk from check to check.
#[derive(Clone, Copy, PartialEq, Eq)]
enum Kind {
    Check,
    Last,
    Other,
}

fn kind_of(command: Command) -> Kind
    ensures { result ≡ kind_by command }
{
    match command {
        Command::Check | Command::CheckAssuming(_) => Kind::Check,
        Command::Exit => Kind::Last,
        _ => Kind::Other,
    }
}

/// A reader of a whole script.
pub(crate) fn script_reader(alloc: Global, script: &[u8]) -> Result<ScriptReader, ScriptStop>
    requires { length script.now ≤ 67108865 }
    ensures fed { IfOk result (λ r. r ≡ record { text = script.now; forms = []; over = false }) }
    ensures memory { IfErr result (λ stop. stop ≡ ScriptStop.Memory) }
{
    let mut reader = ScriptReader::new(alloc)?;
    match reader.feed(script) {
        Ok(()) => Ok(reader),
        Err(_) => Err(ScriptStop::Memory),
    }
}

/// Says that the script ends here, where no check is left.
fn end_script(reader: &mut ScriptReader) -> Result<bool, ScriptStop>
    requires { HasRun reader.old }
    ensures ok { IfOk result (λ found. found ≡ false) }
    ensures all { OnOk result (SaysAll reader.old) }
    ensures stop { IfErr result (EndsAt reader.old) }
{
    match reader.finish() {
        Ok(()) => Ok(false),
        Err(stop) => Err(stop),
    }
}

/// Reads on to the next check, and says whether there is one.
pub(crate) fn next_check(reader: &mut ScriptReader) -> Result<bool, ScriptStop>
    requires { reader.old.over ≡ false }
    ensures check { IfOk result (λ found. found ≡ true → GivesCheck reader.old reader.new) }
    ensures none { IfOk result (λ found. found ≡ false → IsThrough reader.old) }
    ensures stop { IfErr result (IsFaultOf reader.old.text) }
{
    'commands: loop {
        let command = match reader.next_command() {
            Ok(Some(command)) => command,
            Ok(None) => return end_script(reader),
            Err(stop) => return Err(stop),
        };
        reader.steps_are_few();
        match kind_of(command) {
            Kind::Check => return Ok(true),
            Kind::Last => return Ok(false),
            Kind::Other => {}
        }
    }
}

/// How many checks a script has, or its fault.
pub(crate) fn count_checks(alloc: Global, script: &[u8]) -> Result<u64, ScriptStop>
    requires { length script.now ≤ 67108865 }
    ensures ok { IfOk result (IsCounted script.now) }
    ensures stop { IfErr result (IsFaultOf script.now) }
{
    let mut reader = match script_reader(alloc, script) {
        Ok(reader) => reader,
        Err(stop) => return Err(stop),
    };
    let mut count = 0;
    'checks: loop {
        match next_check(&mut reader) {
            Ok(true) => {
                reader.steps_are_few();
                count += 1;
            }
            Ok(false) => return Ok(count),
            Err(stop) => return Err(stop),
        }
    }
}
