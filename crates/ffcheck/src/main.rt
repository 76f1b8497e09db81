//! Judges a certificate for the SMT-LIB script on standard input.
#![tactic(auto)]

ghost use Rattle.std.specs.Prelude.{◌≡◌, map};
ghost use Rattle.std.specs.Process.{exit_status};
ghost use Rattle.ffc_verify.specs.Arguments.{AreTaken};
ghost use Rattle.ffc_verify.specs.Status.{code_of};

use ffc_base::{FileSource, StdSink, StdSource, end_with};
use ffc_verify::{CheckPlan, CheckStatus, check_main};
use std::io::{self, ErrorKind};
use std::process::ExitCode;
use std::rt::{Env, Files};
use std::{env, fs};

/// How a run ended, and what the system said where a call of it failed.
#[derive(Clone, Copy)]
struct Ended {
    status: CheckStatus,
    /// Why the call failed that the status speaks of.
    why: Option<io::Error>,
}

/// Why the call failed that the status speaks of, by why calls on the three objects failed last.
fn why_of(
    status: CheckStatus,
    script: Option<&io::Error>,
    cert: Option<&io::Error>,
    out: Option<&io::Error>,
) -> Option<io::Error> {
    match status {
        CheckStatus::ReadFault => script.copied(),
        CheckStatus::CertFault => cert.copied(),
        CheckStatus::WriteFault => out.copied(),
        _ => None,
    }
}

/// Judges with the arguments of the command line, the program's name first.
fn judge<R: Files + Input + Print + AllocGlobal>(rt: &R, words: &[&str]) -> Ended
    ensures usage { result.status ≡ CheckStatus.Usage → ¬ (AreTaken (map (λ w. w.now) words.now)) }
{
    let mut script = StdSource::new(rt.reader());
    let mut cert = FileSource::new(rt);
    let mut out = StdSink::new(io::writer(rt));
    let status = check_main(rt.alloc(), words, &mut script, &mut cert, &mut out);
    let why = why_of(status, script.failure(), cert.failure(), out.failure());
    Ended { status, why }
}

/// Judges with three files open that give and take no byte: they have the places of standard objects that were closed at
/// the start, so that no other file gets such a place.
fn judge_in_place<R: Files + Input + Print + AllocGlobal>(rt: &R, words: &[&str]) -> Ended {
    let _first = fs::open(rt, "/");
    let _second = fs::open(rt, "/");
    let _third = fs::open(rt, "/");
    judge(rt, words)
}

/// Says what failed and, where the system says it, why. There is nobody to tell where standard error takes no text.
fn tell<R: Eprint>(rt: &R, doing: &str, name: &str, why: Option<io::Error>) {
    let _ = match why {
        Some(why) => eprintln!(rt; "ffcheck: cannot {doing} {name}: {why}"),
        None => eprintln!(rt; "ffcheck: cannot {doing} {name}"),
    };
}

/// Says what failed, where a call of the system did.
fn tell_failure<R: Eprint + AllocGlobal>(rt: &R, words: &[&str], ended: &Ended) {
    match ended.status {
        CheckStatus::ReadFault => tell(rt, "read", "the script", ended.why),
        CheckStatus::CertFault => match CheckPlan::read(rt.alloc(), words) {
            Ok(plan) => tell(rt, "read", plan.cert, ended.why),
            Err(_) => tell(rt, "read", "the certificate", ended.why),
        },
        CheckStatus::WriteFault => tell(rt, "write", "the answer", ended.why),
        _ => {}
    }
}

/// Judges with the arguments of the command line. The call fails where memory is out or an argument is no UTF-8.
fn judge_with_words<R: Files + Env + Input + Print + Eprint + AllocGlobal>(
    rt: &R,
) -> io::Result<CheckStatus> {
    let words: Vec<String> = env::args(rt)?.collect(rt.alloc())?;
    let words: Vec<&str> = words.iter().map(|word| word.as_str()).collect(rt.alloc())?;
    let ended = judge_in_place(rt, words.as_slice());
    tell_failure(rt, words.as_slice(), &ended);
    Ok(ended.status)
}

/// Ends with the number of the status. Says how the program is used where the arguments were refused, and that memory is
/// out.
fn end<R: Eprint>(rt: &R, status: CheckStatus) -> ExitCode
    ensures { exit_status result ≡ code_of status }
{
    let line = match status {
        CheckStatus::Usage => Some("usage: ffcheck CERT [--cores] [--bits]"),
        CheckStatus::Memory => Some("ffcheck: out of memory"),
        _ => None,
    };
    end_with(rt, line, status.code())
}

fn main(rt: HostRuntime) -> ExitCode {
    let status = match judge_with_words(&rt) {
        Ok(status) => status,
        Err(error) if error.kind() == ErrorKind::OutOfMemory => CheckStatus::Memory,
        Err(_) => CheckStatus::Usage,
    };
    end(&rt, status)
}
