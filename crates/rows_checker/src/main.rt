//! Library calls that the checker is made of, by rows of data: each file that the arguments name has rows of one library,
//! and begins with what they show, how they are written and where the wanted answers are from.
//!
//! Each row is printed again with what was found below it. The file `stdout` of the crate has what is wanted, computed by
//! hand or from the algebra.
#![tactic(auto)]

mod built;
mod certificates;
mod checks;
mod commands;
mod entries;
mod forms;
mod lexing;
mod nodes;
mod pieces;
mod polynomials;
mod queries;
mod reading;
mod scripts;
mod texts;

use crate::built::Built;
use crate::commands::OUT_OF_MEMORY;
use std::rt::{Env, Files};
use std::{env, fs, io};

/// Prints a finding, each line of it further in than the row that it is of.
fn print_finding(rt: &impl Print, finding: &str) -> io::Result<()> {
    for line in finding.lines() {
        println!(rt; "    {line}")?;
    }
    Ok(())
}

/// Prints a row and what is found. Returns how many findings there are, which is one or none.
fn print_row<R: Print + AllocGlobal>(rt: &R, built: &mut Built, row: &str) -> io::Result<u64> {
    println!(rt; "{row}")?;
    let finding = built.row(rt.alloc(), row);
    let found = match &finding {
        Ok(found) => found.as_str(),
        Err(_) => OUT_OF_MEMORY,
    };
    print_finding(rt, found)?;
    Ok(u64::from(!found.is_empty()))
}

/// Prints the rows of a text but for its comments.
fn print_rows<R: Print + AllocGlobal>(rt: &R, text: &str) -> io::Result<u64> {
    let mut built = Built::new(rt.alloc())?;
    let mut count = 0u64;
    for row in text.lines() {
        if !row.starts_with('#') {
            count = count.saturating_add(print_row(rt, &mut built, row)?);
        }
    }
    Ok(count)
}

/// Prints the rows of a file, and how many things were found.
fn print_file<R: Files + Print + AllocGlobal>(rt: &R, name: &str) -> io::Result<()> {
    let text = fs::read_to_string(rt, name)?;
    println!(rt; "{name}:")?;
    let count = print_rows(rt, text.as_str())?;
    println!(rt; "{name}: {count} findings")
}

fn main(rt: HostRuntime) -> io::Result<()> {
    let mut arguments = env::args(&rt)?;
    let _program = arguments.next();
    for name in arguments {
        print_file(&rt, name.as_str())?;
    }
    Ok(())
}
