//! How a program ends.
ghost use Rattle.std.specs.Prelude.{◌≡◌};
ghost use Rattle.std.specs.Process.{exit_status};

use std::process::ExitCode;

/// Ends a program with the number of its status, once a line is written to standard error where one is given.
pub fn end_with<R: Eprint>(rt: &R, line: Option<&str>, status: u8) -> ExitCode
    ensures { exit_status result ≡ status }
{
    if let Some(line) = line {
        // There is nobody to tell where standard error takes no text.
        let _ = eprintln!(rt; "{line}");
    }
    ExitCode::from(status)
}
