//! Linear equations.
ghost use Rattle.std.specs.Prelude.{◌≤◌};

use crate::script::{Part, print, print_text};
use std::io;

const CONSTANTS: &[Part] = &[Part::Each("(declare-const x{i} F)\n")];

/// The coefficient of a constant in an equation, from 1 to 1,000.
fn coefficient(row: u32, column: u32) -> u64
    ensures { (1 ≤ result) × (result ≤ 1000) }
{
    let seed = u64::from(row)
        .wrapping_mul(7919)
        .wrapping_add(u64::from(column).wrapping_mul(104_729));
    seed.wrapping_mul(6_364_136_223_846_793_005)
        .wrapping_add(1_442_695_040_888_963_407)
        / 4_294_967_296
        % 1000
        + 1
}

/// The sum of a constant's coefficients in some equations.
fn coefficients(first: u32, end: u32, column: u32) -> u64 {
    let mut sum: u64 = 0;
    for row in first..end {
        sum = sum.wrapping_add(coefficient(row, column));
    }
    sum
}

/// Prints the sum of some equations, with what their values add up to.
fn print_sum<R: Print>(rt: &R, size: u32, first: u32, end: u32, value: u64) -> io::Result<()> {
    print!(rt; "(assert (= (ff.add (as ff0 F)")?;
    for column in 0..size {
        let sum = coefficients(first, end, column);
        print!(rt; " (ff.mul (as ff{sum} F) x{column})")?;
    }
    println!(rt; ") (as ff{value} F)))")
}

/// As many linear equations as constants, and their sum with another value.
pub fn print_equations<R: Print>(rt: &R, size: u32, contradicted: bool) -> io::Result<()> {
    print(rt, CONSTANTS, size)?;
    for row in 0..size {
        print_sum(rt, size, row, row.wrapping_add(1), 1)?;
    }
    if contradicted {
        print_sum(rt, size, 0, size, u64::from(size) + 1)?;
    }
    Ok(())
}
