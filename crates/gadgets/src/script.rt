//! Scripts as parts, whose texts have numbers in braces.
use std::io;

/// A text, and for which numbers it is printed: those below the size, one more, or those below its double or fourfold.
#[derive(Clone, Copy)]
pub enum Part {
    Once(&'static str),
    Each(&'static str),
    OneMore(&'static str),
    Twice(&'static str),
    FourTimes(&'static str),
    AllButLast(&'static str),
    Last(&'static str),
}

/// What may stand in braces, for the number i and the size n.
const NAMES: [&str; 24] = [
    "i",
    "i+1",
    "i+2",
    "i+3",
    "2^i",
    "3i",
    "3i+1",
    "3i+2",
    "3i+3",
    "3i+4",
    "3i+5",
    "n",
    "n+1",
    "2n",
    "3n",
    "4n",
    "n+i",
    "2n+i",
    "3n+i",
    "2^n",
    "2^n-1",
    "2^(2n)",
    "2^(3n)",
    "n(n+5)/2+1",
];

/// The power of 2, modulo 2^64.
fn power_of_two(i: u32) -> u64 {
    if i < 64 { 1 << i } else { 0 }
}

/// The number that stands for a name.
fn value(name: &str, i: u32, size: u32) -> u64 {
    let (j, n) = (u64::from(i), u64::from(size));
    let (power, after) = (power_of_two(i), power_of_two(size));
    let values = [
        j,
        j + 1,
        j + 2,
        j + 3,
        power,
        3 * j,
        3 * j + 1,
        3 * j + 2,
        3 * j + 3,
        3 * j + 4,
        3 * j + 5,
        n,
        n + 1,
        2 * n,
        3 * n,
        4 * n,
        n + j,
        2 * n + j,
        3 * n + j,
        after,
        after.wrapping_sub(1),
        after.wrapping_mul(after),
        after.wrapping_mul(after).wrapping_mul(after),
        n.wrapping_mul(n + 5) / 2 + 1,
    ];
    for (known, value) in NAMES.into_iter().zip(values) {
        if known == name {
            return value;
        }
    }
    0
}

/// Prints a text with the numbers in its braces.
pub fn print_text<R: Print>(rt: &R, text: &str, i: u32, size: u32) -> io::Result<()> {
    for piece in text.split('{') {
        match piece.split_once('}') {
            None => print!(rt; "{piece}")?,
            Some((name, rest)) => print!(rt; "{}{rest}", value(name, i, size))?,
        }
    }
    Ok(())
}

/// Prints parts of a script of this size.
pub fn print<R: Print>(rt: &R, parts: &[Part], size: u32) -> io::Result<()> {
    for part in parts {
        let (text, first, end) = match *part {
            Part::Once(text) => (text, 0, 1),
            Part::Each(text) => (text, 0, size),
            Part::OneMore(text) => (text, 0, size.saturating_add(1)),
            Part::Twice(text) => (text, 0, size.saturating_mul(2)),
            Part::FourTimes(text) => (text, 0, size.saturating_mul(4)),
            Part::AllButLast(text) => (text, 0, size.saturating_sub(1)),
            Part::Last(text) => (text, size.saturating_sub(1), size),
        };
        for i in first..end {
            print_text(rt, text, i, size)?;
        }
    }
    Ok(())
}
