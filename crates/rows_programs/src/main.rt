//! Runs `ffsolve` and `ffcheck` over objects in memory, on rows that are files, and prints what they did:
//! `rows_programs FILE ..`.
//!
//! Each line of a file is a step, and its first word says which; a line whose first word is `#` is for the reader.
//!
//! | Step | What it does |
//! |---|---|
//! | `row NAME` | begins a row with no script and no certificate |
//! | `also NAME` | begins a row that keeps the script and the certificate of the row before |
//! | `script` | begins the script anew: the texts that follow are its bytes |
//! | `certificate` | begins the certificate anew: the texts that follow are its bytes |
//! | `\| TEXT` | a text and the end of its line |
//! | `+ TEXT` | a text without the end of a line |
//! | `* N TEXT` | a text N times; `{i}` in it is the number of the time, counted from 0, and `{i+1}` counts from 1 |
//! | `generated N` | the script is the one that `ffsolve --make N` answers |
//! | `script-line N TEXT` | line N of the script is this text |
//! | `cert-line N TEXT` | line N of the certificate is this text |
//! | `cert-cut N` | the certificate has its first N lines alone |
//! | `script-piece N` | a read of the script gives at most N bytes; else all that is asked for |
//! | `cert-piece N` | a read of the certificate gives at most N bytes; else 3 |
//! | `script-fails N ..` | calls of the script's object that fail, by number from 1 |
//! | `cert-fails N:P ..` | the same of the certificate's object, where P bytes of a failed write are still written |
//! | `out-fails N:P ..` | the same of the output |
//! | `ffsolve WORD ..` | runs `ffsolve` with these arguments; what it writes is then the certificate |
//! | `ffcheck WORD ..` | runs `ffcheck` with these arguments on the script and the certificate |
//! | `show-cert` | shows the certificate |
//! | `show-sums` | shows it with the counts of units of an entry added up |
//! | `show-faults` | shows how many calls of the last run failed |
//! | `hide-out` | does not show what the runs of the row print |
//! | `out-has TEXT` | says whether the last run has printed this text |
//! | `cert-has TEXT` | says whether the certificate has this text |
//!
//! In the bytes of a script or a certificate a backslash and two hexadecimal digits are a byte; bytes are shown as they
//! are written here. The certificate's object and the output hold `before` when a run begins; of the output what was
//! added to it is shown. Each step is printed, but for the texts that are added once, so that none can be left out unseen.
//! A line that is no step is shown as one that cannot be read.
#![tactic(auto)]

mod bytes;
mod changes;
mod objects;
mod repeats;
mod rows;
mod runs;
mod steps;
mod sums;
mod texts;

use crate::rows::Rows;
use std::rt::{Env, Files};
use std::{env, fs, io};

/// Takes the rows of a file, and prints how many there were.
fn run_file<R: Files + Print + AllocGlobal>(rt: &R, name: &str) -> io::Result<()> {
    let text = fs::read_to_string(rt, name)?;
    println!(rt; "{name}")?;
    let mut rows = Rows::new(rt.alloc());
    for line in text.lines() {
        rows.take(rt, line)?;
    }
    rows.print_counts(rt)
}

fn run_files<R: Env + Files + Print + AllocGlobal>(rt: &R) -> io::Result<()> {
    let mut names = env::args(rt)?;
    let _program = names.next();
    for name in names {
        run_file(rt, name.as_str())?;
    }
    Ok(())
}

fn main(rt: HostRuntime) -> io::Result<()> {
    run_files(&rt)
}
