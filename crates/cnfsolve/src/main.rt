//! Decides formulas in the DIMACS format, which come one after another on standard input.
//!
//! `cnfsolve [BUDGET]` prints of each formula its verdict, the literals of a model and the work that it took. A search
//! that has taken so many units ends without a verdict. The status is 0 where all formulas were read, 1 where the text
//! is refused, 2 where the argument is, and 3 where memory is out or a call of the system failed.
#![tactic(auto)]

mod deciding;
mod faults;
mod printing;
mod reading;
mod stages;
mod words;

use crate::deciding::answers;
use crate::faults::ReadStop;
use std::env;
use std::io::{self, Read};
use std::process::ExitCode;
use std::rt::Env;

/// The units of a search where no argument says it.
const BUDGET: u64 = 1_000_000_000;

/// The budget that the arguments give, or None where they give no number.
fn budget_given<R: Env + AllocGlobal>(rt: &R) -> io::Result<Option<u64>> {
    let mut arguments = env::args(rt)?;
    let _program = arguments.next();
    match arguments.next() {
        Some(argument) => Ok(argument.parse::<u64>().ok()),
        None => Ok(Some(BUDGET)),
    }
}

/// Answers the formulas on standard input, or says where they are refused. Gives the status.
fn run<R: Env + Input + Print + Eprint + AllocGlobal>(rt: &R) -> io::Result<u8> {
    let Some(budget) = budget_given(rt)? else {
        eprintln!(rt; "usage: cnfsolve [BUDGET]")?;
        return Ok(2);
    };
    let mut text = Vec::new(rt.alloc());
    rt.reader().read_to_end(&mut text)?;
    match answers(rt.alloc(), text.as_slice(), budget) {
        Ok(answers) => {
            for answer in answers.as_slice() {
                println!(rt; "{answer}")?;
            }
            Ok(0)
        }
        Err(ReadStop::Fault(fault)) => {
            eprintln!(rt; "{fault}")?;
            Ok(1)
        }
        Err(ReadStop::Memory) => {
            eprintln!(rt; "out of memory")?;
            Ok(3)
        }
    }
}

fn main(rt: HostRuntime) -> ExitCode {
    match run(&rt) {
        Ok(status) => ExitCode::from(status),
        Err(_) => ExitCode::from(3),
    }
}
