//! Shows what parts of Yundavel cost: `time` around a run shows that its time grows with the input and not faster.
//!
//! `bench lex KIB PIECE` reads a generated script, `bench cert KIB PIECE` a generated certificate, each of so many KiB
//! in pieces of so many bytes; `bench elab KIB PIECE` also takes the forms of such a script. `bench term COUNT` makes,
//! measures and evaluates a chain of so many nodes. `bench poly CASE TERMS TIMES` computes with polynomials of so many
//! terms so many times. `bench roots CASE DEGREE` finds all roots of a polynomial of this degree. `bench check CASE
//! SIZE COUNT` judges a generated entry. `bench bases CASE SIZE UNITS` completes the basis of a system of this size
//! with so many units. `bench linear CASE SIZE` solves so many linear equations. Without arguments each runs on a small
//! input.
#![tactic(auto)]

mod bases;
mod certificates;
mod chains;
mod checks;
mod drafts;
mod elaboration;
mod entries;
mod linear;
mod pieces;
mod polynomials;
mod refutations;
mod roots;
mod scripts;
mod systems;

use crate::pieces::pieces_of;
use std::alloc::Global;
use std::{env, io};

/// The parts that are measured.
#[derive(Clone, Copy)]
enum Part {
    Lex,
    Elab,
    Cert,
    Term,
    Poly,
    Roots,
    Check,
    Bases,
    Linear,
}

/// The numbers that stand for the arguments after a part's name.
type Numbers = (u32, u32, u32);

/// Each part with the numbers that take the place of arguments that are left out, which are a small input.
const PARTS: [(&str, Part, Numbers); 9] = [
    ("lex", Part::Lex, (64, 4096, 0)),
    ("elab", Part::Elab, (64, 4096, 0)),
    ("cert", Part::Cert, (64, 4096, 0)),
    ("term", Part::Term, (1000, 0, 0)),
    ("poly", Part::Poly, (0, 60, 1)),
    ("roots", Part::Roots, (0, 16, 0)),
    ("check", Part::Check, (0, 4, 1)),
    ("bases", Part::Bases, (0, 3, 1_000_000)),
    ("linear", Part::Linear, (0, 16, 0)),
];

fn run<R: Print>(rt: &R, alloc: Global, part: Part, numbers: Numbers) -> io::Result<()> {
    let (first, second, third) = numbers;
    match part {
        Part::Lex => scripts::run(rt, alloc, pieces_of(first, second)),
        Part::Elab => elaboration::run(rt, alloc, pieces_of(first, second)),
        Part::Cert => certificates::run(rt, alloc, pieces_of(first, second)),
        Part::Term => chains::run(rt, alloc, first),
        Part::Poly => polynomials::run(rt, alloc, first, second, third),
        Part::Roots => roots::run(rt, alloc, first, second),
        Part::Check => entries::run(rt, alloc, first, second, third),
        Part::Bases => bases::run(rt, alloc, first, second, third),
        Part::Linear => linear::run(rt, alloc, first, second),
    }
}

/// Runs each part on a small input.
fn run_all<R: Print>(rt: &R, alloc: Global) -> io::Result<()> {
    for (_, part, numbers) in PARTS {
        run(rt, alloc, part, numbers)?;
    }
    Ok(())
}

/// The part of a name, with the numbers of a small input.
fn part_of(name: &str) -> Option<(Part, Numbers)> {
    for (known, part, numbers) in PARTS {
        if known == name {
            return Some((part, numbers));
        }
    }
    None
}

/// The number of an argument, or another one where there is none.
fn number(argument: Option<String>, otherwise: u32) -> u32 {
    match argument {
        Some(argument) => argument.parse::<u32>().unwrap_or(otherwise),
        None => otherwise,
    }
}

fn main(rt: HostRuntime) -> io::Result<()> {
    let mut arguments = env::args(&rt)?;
    let _program = arguments.next();
    let Some(name) = arguments.next() else {
        return run_all(&rt, rt.alloc());
    };
    let Some((part, (first, second, third))) = part_of(name.as_str()) else {
        return println!(rt;
            "bench lex KIB PIECE | elab KIB PIECE | cert KIB PIECE | term COUNT | poly CASE TERMS TIMES | roots CASE DEGREE | check CASE SIZE COUNT | bases CASE SIZE UNITS | linear CASE SIZE"
        );
    };
    let numbers = (
        number(arguments.next(), first),
        number(arguments.next(), second),
        number(arguments.next(), third),
    );
    run(&rt, rt.alloc(), part, numbers)
}
