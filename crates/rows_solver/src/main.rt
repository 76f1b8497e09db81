//! Reads rows of calls of the solver's libraries from files, and prints what was found with each.
//!
//! `rows_solver FILE..` reads the files in turn. A line is a row, but for a line that begins with `#` and an empty one. A
//! row has steps, separated by `|`: the first says what is called on which input, further ones go on with what the first
//! one made. Each step is printed with what was found; `refused` is printed of one that is not written as it should be,
//! whose call requires what does not hold, or in which memory is out. Rows with an order of monomials are over F5, BabyBear or
//! Goldilocks.
#![tactic(auto)]

mod bases;
mod fields;
mod formulas;
mod levels;
mod meters;
mod monomials;
mod naming;
mod one_variable;
mod outside;
mod page;
mod polynomials;
mod reading;
mod rows;
mod searches;
mod tables;
mod writing;

use crate::page::Page;
use crate::rows::row;
use std::rt::{Env, Files};
use std::{env, fs, io};

/// Whether a line of a file is a row.
fn is_row(line: &str) -> bool {
    !line.is_empty() && !line.starts_with('#')
}

/// Prints the row of a line, and says whether there was one.
fn print_row<R: Files + Input + Print + AllocGlobal>(
    rt: &R,
    page: &mut Page,
    line: &str,
) -> io::Result<bool> {
    if !is_row(line) {
        return Ok(false);
    }
    row(rt, page, line);
    rt.println(page.text())?;
    page.clear();
    Ok(true)
}

/// Prints the rows of a file, and how many there are.
fn print_rows<R: Files + Input + Print + AllocGlobal>(
    rt: &R,
    page: &mut Page,
    name: &str,
) -> io::Result<()> {
    let text = fs::read_to_string(rt, name)?;
    let mut count: u64 = 0;
    for line in text.lines() {
        if print_row(rt, page, line)? {
            count = count.wrapping_add(1);
        }
    }
    println!(rt; "{name}: {count} rows")
}

fn main(rt: HostRuntime) -> io::Result<()> {
    let mut page = Page::new(rt.alloc());
    let mut arguments = env::args(&rt)?;
    let _program = arguments.next();
    for name in arguments {
        print_rows(&rt, &mut page, name.as_str())?;
    }
    Ok(())
}
