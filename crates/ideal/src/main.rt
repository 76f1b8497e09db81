//! Answers whether 1, or a polynomial, is in an ideal over one of the eight fields.
//!
//! `ideal` reads lines on standard input, in the format of docs/FORMATS.md, "Ideals", and prints an answer to each question, in
//! order, and in place of each line that is refused, why. The status is 0 where no line was refused, 1 where one was or the text
//! is not UTF-8, and 3 where memory is out or a call of the system failed.
#![tactic(auto)]

mod problem;
mod questions;
mod reading;
mod refusals;
mod writing;

use crate::problem::Problem;
use crate::refusals::Refusal;
use std::io::{self, Read};
use std::process::ExitCode;
use std::str;

/// Answers the lines of a text. Gives the status.
fn answer_all<R: Print + Eprint + AllocGlobal>(rt: &R, text: &str) -> io::Result<u8> {
    let mut problem = Problem::new(rt.alloc());
    let mut page = String::new(rt.alloc());
    let mut status = 0;
    let mut number = 0u64;
    for line in text.lines() {
        number = number.saturating_add(1);
        page.clear();
        match problem.take(line, &mut page) {
            Ok(()) => rt.print(page.as_str())?,
            Err(Refusal::Memory) => {
                eprintln!(rt; "out of memory")?;
                return Ok(3);
            }
            Err(refusal) => {
                println!(rt; "line {number}: {refusal}")?;
                status = 1;
            }
        }
    }
    Ok(status)
}

/// Answers the lines on standard input. Gives the status.
fn run<R: Input + Print + Eprint + AllocGlobal>(rt: &R) -> io::Result<u8> {
    let mut bytes = Vec::new(rt.alloc());
    rt.reader().read_to_end(&mut bytes)?;
    match str::from_utf8(bytes.as_slice()) {
        Ok(text) => answer_all(rt, text),
        Err(_) => {
            eprintln!(rt; "the text is not UTF-8")?;
            Ok(1)
        }
    }
}

fn main(rt: HostRuntime) -> ExitCode {
    match run(&rt) {
        Ok(status) => ExitCode::from(status),
        Err(_) => ExitCode::from(3),
    }
}
