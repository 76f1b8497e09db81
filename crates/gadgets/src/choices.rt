//! Choices of values by clauses, and a counter by `ite`.
use crate::script::Part;
use std::io;

/// Choices of one of two values each, whose product, step by step, is 0.
pub const PRODUCT: &[Part] = &[
    Part::Once(
        "(declare-const p0 F)
(assert (= p0 (as ff1 F)))
",
    ),
    Part::Each(
        "(declare-const x{i} F)
(assert (or (= x{i} (as ff{i+2} F)) (= x{i} (as ff{i+3} F))))
(declare-const p{i+1} F)
(assert (= p{i+1} (ff.mul p{i} x{i})))
",
    ),
    Part::Once("(assert (= p{n} (as ff0 F)))\n"),
];

/// Choices whose sum, step by step, is one more than their greatest.
pub const SUM: &[Part] = &[
    Part::Once(
        "(declare-const p0 F)
(assert (= p0 (as ff0 F)))
",
    ),
    Part::Each(
        "(declare-const x{i} F)
(assert (or (= x{i} (as ff{i+2} F)) (= x{i} (as ff{i+3} F))))
(declare-const p{i+1} F)
(assert (= p{i+1} (ff.add p{i} x{i})))
",
    ),
    Part::Once("(assert (= p{n} (as ff{n(n+5)/2+1} F)))\n"),
];

/// A counter that rises by 1 where a Boolean constant is true, and ends past its range.
pub const COUNTER: &[Part] = &[
    Part::Once(
        "(declare-const y0 F)
(assert (= y0 (as ff0 F)))
",
    ),
    Part::Each(
        "(declare-const y{i+1} F)
(declare-const b{i} Bool)
(assert (= y{i+1} (ite b{i} (ff.add y{i} (as ff1 F)) y{i})))
",
    ),
    Part::Each("(assert (not (= y{n} (as ff{i} F))))\n"),
    Part::Once("(assert (not (= y{n} (as ff{n} F))))\n"),
];

/// One more constant than there are values, all different.
pub fn print_pigeons<R: Print>(rt: &R, size: u32) -> io::Result<()> {
    let count = size.wrapping_add(1);
    for i in 0..count {
        print_pigeon(rt, i, size)?;
    }
    print!(rt; "(assert (distinct")?;
    for i in 0..count {
        print!(rt; " x{i}")?;
    }
    println!(rt; "))")
}

/// A constant that has one of the values.
fn print_pigeon<R: Print>(rt: &R, i: u32, size: u32) -> io::Result<()> {
    println!(rt; "(declare-const x{i} F)")?;
    print!(rt; "(assert (or false")?;
    for value in 0..size {
        print!(rt; " (= x{i} (as ff{value} F))")?;
    }
    println!(rt; "))")
}

/// The script of a family.
pub fn parts_of(name: &str) -> Option<&'static [Part]> {
    match name {
        "product" => Some(PRODUCT),
        "sum" => Some(SUM),
        "ite" => Some(COUNTER),
        _ => None,
    }
}
