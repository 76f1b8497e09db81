//! Orders of monomials, operations on them, and their limits.
use crate::naming::{MonomialOrder, named, ordering};
use crate::page::Page;
use crate::reading::{Words, monomial, power};
use crate::writing::{write_monomial, write_monomial_or, write_powers};
use ffc_mono::{GradedReverseLex, Lex, Mono, MonoOrder, MonoRow};
use std::alloc::Global;
use std::cmp;
use std::collections::HashMap;

/// A call on monomials.
#[derive(Clone, Copy)]
enum Verb {
    Power,
    Degree,
    Product,
    Multiple,
    Divides,
    Quotient,
    Compare,
    Falling,
    Row,
    Keys,
}

const VERBS: [(&str, Verb); 10] = [
    ("power", Verb::Power),
    ("degree", Verb::Degree),
    ("product", Verb::Product),
    ("lcm", Verb::Multiple),
    ("divides", Verb::Divides),
    ("quotient", Verb::Quotient),
    ("compare", Verb::Compare),
    ("falling", Verb::Falling),
    ("row", Verb::Row),
    ("keys", Verb::Keys),
];

/// The next word, as a monomial.
fn next(alloc: Global, words: &mut Words<'_>) -> Option<Mono> {
    monomial(alloc, words.next()?)
}

/// The monomials of these words.
fn monomials(alloc: Global, texts: &[&str]) -> Option<Vec<Mono>> {
    let mut out = Vec::new(alloc);
    for text in texts {
        out.push(monomial(alloc, text)?).ok()?;
    }
    Some(out)
}

fn compare(ordering: MonomialOrder, a: &Mono, b: &Mono) -> cmp::Ordering {
    match ordering {
        MonomialOrder::Lex => Lex::compare(a, b),
        MonomialOrder::GradedReverseLex => GradedReverseLex::compare(a, b),
    }
}

fn write_comparison(page: &mut Page, found: cmp::Ordering) {
    page.say(match found {
        cmp::Ordering::Less => "less",
        cmp::Ordering::Equal => "equal",
        cmp::Ordering::Greater => "greater",
    });
}

/// How many of the monomials compare with the one at this place as their places say, in a list that falls.
fn count_falling(ordering: MonomialOrder, list: &[Mono], place: usize, a: &Mono) -> u64 {
    let mut count: u64 = 0;
    for (other, b) in list.iter().enumerate() {
        if compare(ordering, a, b) == other.cmp(&place) {
            count = count.wrapping_add(1);
        }
    }
    count
}

/// How many pairs of monomials compare as their places say, each pair both ways, in a list that falls.
fn count_pairs(ordering: MonomialOrder, list: &[Mono]) -> u64 {
    let mut count: u64 = 0;
    for (place, a) in list.iter().enumerate() {
        count = count.wrapping_add(count_falling(ordering, list, place, a));
    }
    count
}

/// Writes the quotient, which there is where the divisor divides.
fn write_quotient(page: &mut Page, a: &Mono, by: &Mono) -> Option<()> {
    if !by.divides(a) {
        return None;
    }
    write_monomial_or(page, a.quotient(by));
    Some(())
}

/// A row of monomials: the first, the product and the second.
fn three(alloc: Global, a: &Mono, b: &Mono) -> Option<MonoRow> {
    let mut row = MonoRow::new(alloc);
    row.push(a.as_ref()).ok()?;
    if a.as_ref().degree() + b.as_ref().degree() > 1024 {
        return None;
    }
    row.push_product(a.as_ref(), b.as_ref()).ok()?;
    row.push(b.as_ref()).ok()?;
    Some(row)
}

/// Appends the second and the third of a row to it, and leaves four.
fn lengthen(row: &mut MonoRow) -> Option<()> {
    let whole = row.clone().ok()?;
    if whole.len() < 3 {
        return None;
    }
    row.extend_from(&whole, 1, 3).ok()?;
    row.truncate(4);
    Some(())
}

/// Writes the monomials of a row, and which of the monomials each divides and has a common factor with.
fn write_row(page: &mut Page, row: &MonoRow) {
    let mut before = "";
    for i in 0..row.len() {
        page.say(before);
        write_powers(page, row.get(i).pairs());
        for j in 0..row.len() {
            page.say(if row.get(i).divides(row.get(j)) {
                " d"
            } else {
                " -"
            });
            page.say(if row.get(i).is_coprime(row.get(j)) {
                "c"
            } else {
                "-"
            });
        }
        before = ", ";
    }
}

/// Writes a row that is made of two monomials.
fn write_lengthened(alloc: Global, page: &mut Page, a: &Mono, b: &Mono) -> Option<()> {
    let mut row = three(alloc, a, b)?;
    lengthen(&mut row)?;
    write_row(page, &row);
    Some(())
}

/// Puts a monomial into a map as the key of 3, and looks monomials up.
fn write_values(alloc: Global, page: &mut Page, key: Mono, others: &[Mono]) -> Option<()> {
    let mut values = HashMap::new(alloc);
    values.insert(key, 3u64).ok()?;
    let mut before = "";
    for other in others {
        page.say(before);
        match values.get(other) {
            Some(value) => page.number(*value),
            None => page.say("none"),
        }
        before = ", ";
    }
    Some(())
}

/// Writes the monomial of a variable to a power.
fn write_power(alloc: Global, words: &mut Words<'_>, page: &mut Page) -> Option<()> {
    let variable = words.small()?;
    let exponent = words.small()?;
    write_monomial_or(page, power(alloc, variable, exponent));
    Some(())
}

/// Writes how many pairs of the monomials compare as their places say.
fn write_falling(alloc: Global, words: &mut Words<'_>, page: &mut Page) -> Option<()> {
    let ordering = ordering(words.next()?)?;
    let list = monomials(alloc, words.rest())?;
    page.number(count_pairs(ordering, list.as_slice()));
    page.count(" of ", (list.len() as u64).wrapping_mul(list.len() as u64));
    Some(())
}

/// Looks monomials up.
fn write_keys(alloc: Global, words: &mut Words<'_>, page: &mut Page) -> Option<()> {
    let key = next(alloc, words)?;
    let others = monomials(alloc, words.rest())?;
    write_values(alloc, page, key, others.as_slice())
}

/// Compares two monomials.
fn write_order(alloc: Global, words: &mut Words<'_>, page: &mut Page) -> Option<()> {
    let ordering = ordering(words.next()?)?;
    let a = next(alloc, words)?;
    let b = next(alloc, words)?;
    write_comparison(page, compare(ordering, &a, &b));
    Some(())
}

/// Computes with two monomials.
fn with_two(alloc: Global, page: &mut Page, verb: Verb, a: &Mono, b: &Mono) -> Option<()> {
    match verb {
        Verb::Product => write_monomial_or(page, a.mul(b)),
        Verb::Multiple => write_monomial_or(page, a.lcm(b)),
        Verb::Divides => page.answer(a.divides(b)),
        Verb::Quotient => return write_quotient(page, a, b),
        _ => return write_lengthened(alloc, page, a, b),
    }
    Some(())
}

/// Reads two monomials, and computes with them.
fn read_two(alloc: Global, page: &mut Page, verb: Verb, words: &mut Words<'_>) -> Option<()> {
    let a = next(alloc, words)?;
    let b = next(alloc, words)?;
    with_two(alloc, page, verb, &a, &b)
}

/// Writes the degree of a monomial.
fn write_degree(alloc: Global, words: &mut Words<'_>, page: &mut Page) -> Option<()> {
    let a = next(alloc, words)?;
    page.number(u64::from(a.degree()));
    Some(())
}

/// Computes with monomials.
pub fn row(alloc: Global, words: &mut Words<'_>, page: &mut Page) -> Option<()> {
    match named(&VERBS, words.next()?)? {
        Verb::Power => write_power(alloc, words, page),
        Verb::Degree => write_degree(alloc, words, page),
        Verb::Compare => write_order(alloc, words, page),
        Verb::Falling => write_falling(alloc, words, page),
        Verb::Keys => write_keys(alloc, words, page),
        verb => read_two(alloc, page, verb, words),
    }
}
