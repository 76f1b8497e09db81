//! Answers the SMT-LIB script on standard input, and writes a certificate of the answers to a file.
#![tactic(auto)]

ghost use Rattle.std.specs.Prelude.{◌≡◌, ◌⊎◌, map};
ghost use Rattle.std.specs.Process.{exit_status};
ghost use Rattle.ffc_solve.specs.Arguments.{AreRefused};
ghost use Rattle.ffc_solve.specs.Status.{code_of};

use ffc_base::{FileSink, Sink, StdSink, StdSource, end_with};
use ffc_solve::{Plan, SolveStatus, solve_main};
use std::io::{self, ErrorKind};
use std::process::ExitCode;
use std::rt::{Env, Files};
use std::{env, fs};

/// How a run ended, and what the system said where a call of it failed.
#[derive(Clone, Copy)]
struct Ended {
    status: SolveStatus,
    /// Why the call failed that the status speaks of.
    why: Option<io::Error>,
    /// Whether the certificate's file was made.
    is_created: bool,
}

/// Why the call failed that the status speaks of, by why calls on the three objects failed last.
fn why_of(
    status: SolveStatus,
    script: Option<&io::Error>,
    out: Option<&io::Error>,
    cert: Option<&io::Error>,
) -> Option<io::Error> {
    match status {
        SolveStatus::ReadFault => script.copied(),
        SolveStatus::WriteFault => out.copied(),
        SolveStatus::CertFault => cert.copied(),
        _ => None,
    }
}

/// Answers the script on standard input. The words are the arguments, the program's name first.
fn answer<R: Files + Input + Print + AllocGlobal>(rt: &R, words: &[&str]) -> Ended
    ensures usage { result.status ≡ SolveStatus.Usage → AreRefused (map (λ w. w.now) words.now) }
    ensures refused { AreRefused (map (λ w. w.now) words.now) → (result.status ≡ SolveStatus.Usage)
        ⊎ (result.status ≡ SolveStatus.Memory) }
{
    let mut script = StdSource::new(rt.reader());
    let mut out = StdSink::new(io::writer(rt));
    let mut cert = FileSink::new(rt);
    let status = solve_main(rt.alloc(), words, &mut script, &mut out, &mut cert);
    let why = why_of(status, script.failure(), out.failure(), cert.failure());
    // A write of no bytes fails only where there is no file.
    let is_created = cert.write(b"").is_ok();
    Ended {
        status,
        why,
        is_created,
    }
}

/// Answers with three files open that give and take no byte: they have the places of standard objects that were closed at
/// the start, so that no other file gets such a place.
fn answer_in_place<R: Files + Input + Print + AllocGlobal>(rt: &R, words: &[&str]) -> Ended {
    let _first = fs::open(rt, "/");
    let _second = fs::open(rt, "/");
    let _third = fs::open(rt, "/");
    answer(rt, words)
}

/// Says what failed and, where the system says it, why. There is nobody to tell where standard error takes no text.
fn tell<R: Eprint>(rt: &R, doing: &str, name: &str, why: Option<io::Error>) {
    let _ = match why {
        Some(why) => eprintln!(rt; "ffsolve: cannot {doing} {name}: {why}"),
        None => eprintln!(rt; "ffsolve: cannot {doing} {name}"),
    };
}

/// Says what failed, where a call of the system did.
fn tell_failure<R: Eprint + AllocGlobal>(rt: &R, words: &[&str], ended: &Ended) {
    match ended.status {
        SolveStatus::ReadFault => tell(rt, "read", "the script", ended.why),
        SolveStatus::WriteFault => tell(rt, "write", "the answers", ended.why),
        SolveStatus::CertFault => {
            let doing = if ended.is_created { "write" } else { "create" };
            match Plan::read(rt.alloc(), words) {
                Ok(plan) => tell(rt, doing, plan.cert_name.as_str(), ended.why),
                Err(_) => tell(rt, doing, "the certificate", ended.why),
            }
        }
        _ => {}
    }
}

/// Answers with the arguments. The call fails where memory runs out or an argument is no UTF-8.
fn answer_with_words<R: Files + Env + Input + Print + Eprint + AllocGlobal>(
    rt: &R,
) -> io::Result<SolveStatus> {
    let words: Vec<String> = env::args(rt)?.collect(rt.alloc())?;
    let words: Vec<&str> = words.iter().map(|word| word.as_str()).collect(rt.alloc())?;
    let ended = answer_in_place(rt, words.as_slice());
    tell_failure(rt, words.as_slice(), &ended);
    Ok(ended.status)
}

/// Ends with the number of the status. Says how the program is used where the words were refused, and that memory is out.
fn end<R: Eprint>(rt: &R, status: SolveStatus) -> ExitCode
    ensures { exit_status result ≡ code_of status }
{
    let line = match status {
        SolveStatus::Usage => Some("usage: ffsolve --cert FILE [--steps N] [--make N] [--bits]"),
        SolveStatus::Memory => Some("ffsolve: out of memory"),
        _ => None,
    };
    end_with(rt, line, status.code())
}

fn main(rt: HostRuntime) -> ExitCode {
    let status = match answer_with_words(&rt) {
        Ok(status) => status,
        Err(error) if error.kind() == ErrorKind::OutOfMemory => SolveStatus::Memory,
        Err(_) => SolveStatus::Usage,
    };
    end(&rt, status)
}
