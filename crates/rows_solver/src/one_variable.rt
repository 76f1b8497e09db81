//! Polynomials in one variable by their coefficients, from the lowest: products, quotients, values, chains and roots.
use crate::naming::named;
use crate::page::Page;
use crate::reading::{Words, elements, poly};
use crate::writing::{write_elements, write_poly};
use ffc_base::{Meter, Unit};
use ffc_field::Field;
use ffc_mono::Lex;
use ffc_poly::Poly;
use ffc_roots::{from_univariate, roots, to_univariate};
use ffc_uni::{Chain, Uni, pow_mod_chain};
use std::alloc::{AllocError, Global};

/// A call on polynomials in one variable.
#[derive(Clone, Copy)]
enum Verb {
    Coefficients,
    FromRoots,
    Product,
    Division,
    Remainder,
    Value,
    Chain,
    Pairs,
    Roots,
    ToMany,
    FromMany,
}

const VERBS: [(&str, Verb); 11] = [
    ("coefficients", Verb::Coefficients),
    ("from-roots", Verb::FromRoots),
    ("product", Verb::Product),
    ("division", Verb::Division),
    ("remainder", Verb::Remainder),
    ("value", Verb::Value),
    ("chain", Verb::Chain),
    ("pairs", Verb::Pairs),
    ("roots", Verb::Roots),
    ("to-many", Verb::ToMany),
    ("from-many", Verb::FromMany),
];

/// The next word, as a polynomial's coefficients.
fn next<F: Field>(alloc: Global, words: &mut Words<'_>) -> Option<Uni<F>> {
    let coefs = elements::<F>(alloc, words.next()?)?;
    Uni::from_coefs(alloc, coefs.as_slice()).ok()
}

/// The next word, as a polynomial's roots.
fn next_by_roots<F: Field>(alloc: Global, words: &mut Words<'_>) -> Option<Uni<F>> {
    let roots = elements::<F>(alloc, words.next()?)?;
    Uni::from_roots(alloc, roots.as_slice()).ok()
}

fn write_uni<F: Field>(page: &mut Page, uni: &Uni<F>) {
    write_elements(page, uni.coefs());
}

/// Writes a polynomial, or why there is none.
fn write_uni_or<F: Field>(page: &mut Page, found: Result<Uni<F>, AllocError>) {
    match found {
        Ok(uni) => write_uni(page, &uni),
        Err(stop) => page.show(&stop),
    }
}

/// Writes the quotient and the remainder.
fn write_division<F: Field>(page: &mut Page, a: &Uni<F>, by: &Uni<F>) -> Option<()> {
    if by.is_zero() {
        return None;
    }
    let (quotient, remainder) = a.div_rem(by).ok()?;
    write_uni(page, &quotient);
    page.say(" remainder ");
    write_uni(page, &remainder);
    Some(())
}

/// Writes the remainder.
fn write_remainder<F: Field>(page: &mut Page, a: &Uni<F>, by: &Uni<F>) -> Option<()> {
    if by.is_zero() {
        return None;
    }
    write_uni_or(page, a.rem(by));
    Some(())
}

/// Writes the last remainder of a chain, with the number of its pairs.
fn write_power<F: Field>(page: &mut Page, chain: &Chain<F>, none: &Uni<F>) {
    write_uni(page, chain.steps.last_remainder(none));
    page.count("; pairs ", chain.steps.as_slice().len() as u64);
}

/// Writes the quotient and the remainder of each pair of a chain.
fn write_pairs<F: Field>(page: &mut Page, chain: &Chain<F>) {
    let mut before = "";
    for (quotient, remainder) in chain.steps.as_slice() {
        page.say(before);
        write_uni(page, quotient);
        page.say(" remainder ");
        write_uni(page, remainder);
        before = "; ";
    }
}

/// Writes what a chain for the power of X to the order has, and how many units it took.
fn write_chain<F: Field>(
    alloc: Global,
    page: &mut Page,
    f: &Uni<F>,
    units: u64,
    has_pairs: bool,
) -> Option<()> {
    if f.coefs().len() < 2 {
        return None;
    }
    let none = Uni::from_coefs(alloc, &[]).ok()?;
    let mut meter = Meter::new(units);
    match pow_mod_chain(alloc, f, &mut meter) {
        Ok(chain) if has_pairs => write_pairs(page, &chain),
        Ok(chain) => write_power(page, &chain, &none),
        Err(stop) => page.show(&stop),
    }
    page.count("; units ", meter.count(Unit::Chain));
    Some(())
}

/// Writes the roots that are found with so many units.
fn write_roots<F: Field>(alloc: Global, page: &mut Page, f: &Uni<F>, units: u64) -> Option<()> {
    if f.coefs().len() < 2 {
        return None;
    }
    match roots(alloc, f, &mut Meter::new(units)) {
        Ok(found) => write_elements(page, found.zeros.as_slice()),
        Err(stop) => page.show(&stop),
    }
    Some(())
}

/// The next two words, as a polynomial's coefficients and further roots of it.
fn next_with_roots<F: Field>(alloc: Global, words: &mut Words<'_>) -> Option<Uni<F>> {
    let factor = next::<F>(alloc, words)?;
    let others = next_by_roots::<F>(alloc, words)?;
    factor.mul(&others).ok()
}

/// Writes a polynomial of one variable as one of many.
fn write_of_many<F: Field>(
    alloc: Global,
    page: &mut Page,
    uni: &Uni<F>,
    variable: u32,
) -> Option<()> {
    let many: Poly<F, Lex> = from_univariate(alloc, uni, variable).ok()?;
    write_poly(page, &many);
    page.count("; terms ", many.len() as u64);
    Some(())
}

/// Writes a polynomial of many variables as one of this variable, where it is one.
fn write_of_one<F: Field>(
    alloc: Global,
    page: &mut Page,
    many: &Poly<F, Lex>,
    variable: u32,
) -> Option<()> {
    match to_univariate(alloc, many, variable).ok()? {
        Some(uni) => write_uni(page, &uni),
        None => page.say("none"),
    }
    Some(())
}

/// Computes with two polynomials.
fn with_two<F: Field>(page: &mut Page, verb: Verb, a: &Uni<F>, b: &Uni<F>) -> Option<()> {
    match verb {
        Verb::Division => return write_division(page, a, b),
        Verb::Remainder => return write_remainder(page, a, b),
        _ => write_uni_or(page, a.mul(b)),
    }
    Some(())
}

/// Reads two polynomials, and computes with them.
fn read_two<F: Field>(
    alloc: Global,
    page: &mut Page,
    verb: Verb,
    words: &mut Words<'_>,
) -> Option<()> {
    let a = next::<F>(alloc, words)?;
    let b = next::<F>(alloc, words)?;
    with_two(page, verb, &a, &b)
}

/// Writes a polynomial's coefficients, and whether it is zero.
fn write_coefficients<F: Field>(page: &mut Page, a: &Uni<F>) {
    write_uni(page, a);
    page.say(if a.is_zero() { ", zero" } else { ", not zero" });
}

/// Computes with a polynomial.
fn with_one<F: Field>(
    alloc: Global,
    page: &mut Page,
    verb: Verb,
    a: &Uni<F>,
    words: &mut Words<'_>,
) -> Option<()> {
    match verb {
        Verb::Value => page.number(a.eval(words.element::<F>()?).residue()),
        Verb::Chain => return write_chain(alloc, page, a, words.number()?, false),
        Verb::Pairs => return write_chain(alloc, page, a, words.number()?, true),
        Verb::ToMany => return write_of_many(alloc, page, a, words.small()?),
        _ => write_coefficients(page, a),
    }
    Some(())
}

/// Reads a polynomial, and computes with it.
fn read_one<F: Field>(
    alloc: Global,
    page: &mut Page,
    verb: Verb,
    words: &mut Words<'_>,
) -> Option<()> {
    let a = next::<F>(alloc, words)?;
    with_one(alloc, page, verb, &a, words)
}

/// Reads roots, and writes the polynomial that has just these.
fn write_from_roots<F: Field>(alloc: Global, words: &mut Words<'_>, page: &mut Page) -> Option<()> {
    let product = next_by_roots::<F>(alloc, words)?;
    write_uni(page, &product);
    Some(())
}

/// Reads a polynomial, and writes its roots.
fn read_and_write_roots<F: Field>(
    alloc: Global,
    words: &mut Words<'_>,
    page: &mut Page,
) -> Option<()> {
    let f = next_with_roots::<F>(alloc, words)?;
    write_roots(alloc, page, &f, words.number()?)
}

/// Reads a polynomial of many variables, and writes it as one of one variable.
fn read_of_many<F: Field>(alloc: Global, words: &mut Words<'_>, page: &mut Page) -> Option<()> {
    let many = poly::<F, Lex>(alloc, words.next()?)?;
    write_of_one(alloc, page, &many, words.small()?)
}

/// Computes with polynomials in one variable.
pub fn row<F: Field>(alloc: Global, words: &mut Words<'_>, page: &mut Page) -> Option<()> {
    match named(&VERBS, words.next()?)? {
        Verb::FromRoots => write_from_roots::<F>(alloc, words, page),
        Verb::Roots => read_and_write_roots::<F>(alloc, words, page),
        Verb::FromMany => read_of_many::<F>(alloc, words, page),
        verb @ (Verb::Product | Verb::Division | Verb::Remainder) => {
            read_two::<F>(alloc, page, verb, words)
        }
        verb => read_one::<F>(alloc, page, verb, words),
    }
}
