//! The families of circuits.
use crate::script::{self, Part};
use crate::{bits, choices, comparing, gates, linear, rounds, tests_for_zero, words};
use std::io;

/// What a script says after its first lines.
#[derive(Clone, Copy)]
enum Body {
    Parts(&'static [Part]),
    Equations { contradicted: bool },
    Pigeons,
}

/// A family's name, and what a script of it says with its verdict.
const LINES: [&str; 28] = [
    "zero             tests for zero in a chain: the last answer is a bit               unsat",
    "zero-open        the same, where the last answer is not bound                      sat",
    "zero-twice       two copies of the chain with one input: their answers are equal   unsat",
    "range            bits whose sum is past their greatest                             unsat",
    "range-open       bits whose sum is in their range                                  sat",
    "unique           two lists of bits with one sum have the same first bit            unsat",
    "select           selections in a chain give one of their inputs                    unsat",
    "xor              exclusive ors of bits in a chain give a bit                       unsat",
    "adder            an adder of bits agrees with the sum of their numbers             unsat",
    "compare          two numbers of bits, each below the other                         unsat",
    "compare-open     the first number is below the second                              sat",
    "limbs            the last carry of two limbs is that of their words                unsat",
    "limbs-open       the carry of the low limbs may not be the last one                sat",
    "adder-twice      two adders by gates have the same last carry                      unsat",
    "adder-twice-open the last carry may not be the last bit of the sum                 sat",
    "bytes            a word of bits and its four bytes have the same last bit          unsat",
    "bytes-open       the first bit of a word may not be the last of its bytes          sat",
    "inverse          inverses are unique                                               unsat",
    "square           square roots are unique up to their sign                          unsat",
    "rounds           two copies of a permutation of width 3, exponent 7, agree         unsat",
    "rounds-open      the same, where one input may differ                              sat",
    "mimc             two copies of rounds of width 1, exponent 7, agree                unsat",
    "linear           linear equations that contradict their sum                        unsat",
    "linear-open      the same without the sum                                          sat",
    "product          choices of two values each, whose product is 0                    unsat",
    "sum              choices of two values each, whose sum is too great                unsat",
    "pigeons          one more number than there are values, all different              unsat",
    "ite              a counter by ite stays in its range                               unsat",
];

/// Lists the families.
pub fn list<R: Print>(rt: &R) -> io::Result<()> {
    for line in LINES {
        println!(rt; "{line}")?;
    }
    Ok(())
}

/// The parts of a family's script, if it is one of parts.
fn parts_of(name: &str) -> Option<&'static [Part]> {
    tests_for_zero::parts_of(name)
        .or(bits::parts_of(name))
        .or(comparing::parts_of(name))
        .or(words::parts_of(name))
        .or(gates::parts_of(name))
        .or(rounds::parts_of(name))
        .or(choices::parts_of(name))
}

/// The script of a family, or an empty one.
fn body_of(name: &str) -> Body {
    match name {
        "linear" => Body::Equations { contradicted: true },
        "linear-open" => Body::Equations {
            contradicted: false,
        },
        "pigeons" => Body::Pigeons,
        _ => match parts_of(name) {
            Some(parts) => Body::Parts(parts),
            None => Body::Parts(&[]),
        },
    }
}

fn print_body<R: Print>(rt: &R, body: Body, size: u32) -> io::Result<()> {
    match body {
        Body::Parts(parts) => script::print(rt, parts, size),
        Body::Equations { contradicted } => linear::print_equations(rt, size, contradicted),
        Body::Pigeons => choices::print_pigeons(rt, size),
    }
}

/// Prints a script of a family.
pub fn print<R: Print>(rt: &R, name: &str, order: u64, size: u32) -> io::Result<()> {
    println!(rt; "(set-logic QF_FF)")?;
    println!(rt; "(define-sort F () (_ FiniteField {order}))")?;
    print_body(rt, body_of(name), size)?;
    println!(rt; "(check-sat)")
}
