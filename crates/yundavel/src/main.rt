//! Decides the checks of a script, has each answer checked, and says in words what was found.
#![tactic(auto)]

ghost use Rattle.std.specs.Prelude.{◌≡◌};
ghost use Rattle.std.specs.Process.{exit_status};
ghost use Rattle.ffc_report.specs.Status.{code_of};

mod running;

use ffc_base::{Sink, StdSink, end_with};
use ffc_report::{ReportStatus, complaint};
use running::{Outcome, run_with_words};
use std::io;
use std::process::ExitCode;

/// Prints an error. Bytes that are no UTF-8 are replaced.
fn print_error<R: Eprint + AllocGlobal>(rt: &R, text: &[u8]) {
    if let Ok(text) = String::from_utf8_lossy(rt.alloc(), text) {
        // There is nobody to tell where standard error takes no text.
        let _ = rt.eprint(text);
    }
}

/// Prints a text, and gives the status that it comes with, or that of a fault in writing.
fn print<R: Print + Eprint + AllocGlobal>(
    rt: &R,
    text: &[u8],
    status: ReportStatus,
) -> ReportStatus {
    let mut out = StdSink::new(io::writer(rt));
    if text.is_empty() || out.write(text).is_ok() {
        return status;
    }
    print_error(
        rt,
        complaint(rt.alloc(), ReportStatus::WriteFault).as_slice(),
    );
    ReportStatus::WriteFault
}

/// Ends with the number of the status.
fn end<R: Eprint>(rt: &R, status: ReportStatus) -> ExitCode
    ensures { exit_status result ≡ code_of status }
{
    end_with(rt, None, status.code())
}

fn main(rt: HostRuntime) -> ExitCode {
    match run_with_words(&rt) {
        Outcome::Notice(text) => {
            let _ = rt.print(text);
            ExitCode::SUCCESS
        }
        Outcome::Ran {
            status,
            text,
            complaint,
        } => {
            print_error(&rt, complaint.as_slice());
            let status = print(&rt, text.as_slice(), status);
            end(&rt, status)
        }
    }
}
