//! Sums, products, values and limits of polynomials.
use crate::naming::named;
use crate::page::Page;
use crate::reading::{Words, elements, monomial, poly, polys, power};
use crate::writing::{write_poly, write_poly_or, write_term};
use ffc_field::Field;
use ffc_mono::{Mono, MonoOrder, MonoRef};
use ffc_poly::{Accumulator, Poly, PolyStop};
use std::alloc::{AllocError, Global};

/// A call on polynomials.
#[derive(Clone, Copy)]
enum Verb {
    /// The polynomial itself.
    Terms,
    Constant,
    Lead,
    Value,
    Sum,
    Total,
    Product,
    Scaled,
    Multiple,
    Equal,
    Plus,
    Less,
    Accumulate,
    Variables,
}

const VERBS: [(&str, Verb); 14] = [
    ("terms", Verb::Terms),
    ("constant", Verb::Constant),
    ("lead", Verb::Lead),
    ("value", Verb::Value),
    ("sum", Verb::Sum),
    ("total", Verb::Total),
    ("product", Verb::Product),
    ("scaled", Verb::Scaled),
    ("multiple", Verb::Multiple),
    ("equal", Verb::Equal),
    ("plus", Verb::Plus),
    ("less", Verb::Less),
    ("accumulate", Verb::Accumulate),
    ("variables", Verb::Variables),
];

/// The next word, as a polynomial.
fn next<F: Field, O: MonoOrder>(alloc: Global, words: &mut Words<'_>) -> Option<Poly<F, O>> {
    poly::<F, O>(alloc, words.next()?)
}

/// Writes the leading term.
fn write_lead<F: Field, O: MonoOrder>(page: &mut Page, poly: &Poly<F, O>) {
    match poly.lead() {
        Some((coefficient, monomial)) => write_term(page, coefficient, monomial),
        None => page.say("none"),
    }
}

/// Writes a polynomial plus or less a multiple of another one.
fn write_added<F: Field, O: MonoOrder>(
    page: &mut Page,
    verb: Verb,
    a: &Poly<F, O>,
    c: F,
    m: MonoRef<'_>,
    b: &Poly<F, O>,
) {
    match verb {
        Verb::Plus => write_poly_or(page, a.add_multiple(c, m, b)),
        _ => write_poly_or(page, a.sub_multiple(c, m, b)),
    }
}

/// A term's multiple that is added to nothing but a polynomial, or subtracted from it.
fn write_multiple_of<F: Field, O: MonoOrder>(
    alloc: Global,
    page: &mut Page,
    verb: Verb,
    a: &Poly<F, O>,
    words: &mut Words<'_>,
) -> Option<()> {
    let c = words.element::<F>()?;
    let m = monomial(alloc, words.next()?)?;
    let b = next::<F, O>(alloc, words)?;
    match verb {
        Verb::Accumulate => write_accumulated(alloc, page, a, c, m.as_ref(), &b),
        _ => write_added(page, verb, a, c, m.as_ref(), &b),
    }
    Some(())
}

/// Writes a leading term.
fn write_next<F: Field>(page: &mut Page, found: Result<Option<(F, Mono)>, AllocError>) {
    match found {
        Ok(Some((coefficient, monomial))) => write_term(page, coefficient, monomial.as_ref()),
        Ok(None) => page.say("none"),
        Err(stop) => page.show(&stop),
    }
}

/// Takes the leading term of a sum, looks at the next one, and writes both and the rest.
fn write_taken<F: Field, O: MonoOrder>(page: &mut Page, mut sum: Accumulator<F, O>) {
    page.say("takes ");
    write_next(page, sum.take_lead());
    page.say(", then ");
    write_next(page, sum.lead());
    page.say(", leaves ");
    write_poly_or(page, sum.into_poly());
}

/// A polynomial that is added to nothing, less a multiple of another one.
fn accumulated<F: Field, O: MonoOrder>(
    alloc: Global,
    a: &Poly<F, O>,
    c: F,
    m: MonoRef<'_>,
    b: &Poly<F, O>,
) -> Result<Accumulator<F, O>, PolyStop> {
    let mut sum = Accumulator::new(alloc);
    sum.add(a)?;
    sum.subtract_multiple(c, m, b)?;
    Ok(sum)
}

/// Writes the terms of such a sum.
fn write_accumulated<F: Field, O: MonoOrder>(
    alloc: Global,
    page: &mut Page,
    a: &Poly<F, O>,
    c: F,
    m: MonoRef<'_>,
    b: &Poly<F, O>,
) {
    match accumulated(alloc, a, c, m, b) {
        Ok(sum) => write_taken(page, sum),
        Err(stop) => page.show(&stop),
    }
}

/// The sum of so many variables.
fn variables<F: Field, O: MonoOrder>(alloc: Global, first: u32, count: u32) -> Option<Poly<F, O>> {
    let mut terms = Vec::new(alloc);
    for i in 0..count {
        let variable = power(alloc, first.wrapping_add(i), 1).ok()?;
        terms.push((F::of(1), variable)).ok()?;
    }
    Poly::from_terms(alloc, terms.as_slice()).ok()
}

/// The product of the sum of so many variables and of the sum of as many further ones.
fn product_of_variables<F: Field, O: MonoOrder>(
    alloc: Global,
    page: &mut Page,
    count: u32,
) -> Option<()> {
    let a = variables::<F, O>(alloc, 0, count)?;
    let b = variables::<F, O>(alloc, count, count)?;
    with_two(page, Verb::Product, &a, &b)
}

/// Writes a value of a polynomial.
fn write_value<F: Field, O: MonoOrder>(
    alloc: Global,
    page: &mut Page,
    a: &Poly<F, O>,
    words: &mut Words<'_>,
) -> Option<()> {
    let at = elements::<F>(alloc, words.next()?)?;
    page.number(a.eval(at.as_slice()).residue());
    Some(())
}

/// Writes a multiple of a polynomial by a term.
fn write_multiple<F: Field, O: MonoOrder>(
    alloc: Global,
    page: &mut Page,
    a: &Poly<F, O>,
    words: &mut Words<'_>,
) -> Option<()> {
    let c = words.element::<F>()?;
    let m = monomial(alloc, words.next()?)?;
    write_poly_or(page, a.mul_term(c, &m));
    Some(())
}

/// Computes with two polynomials.
fn with_two<F: Field, O: MonoOrder>(
    page: &mut Page,
    verb: Verb,
    a: &Poly<F, O>,
    b: &Poly<F, O>,
) -> Option<()> {
    match verb {
        Verb::Sum => write_poly_or(page, a.add(b)),
        Verb::Product => write_poly_or(page, a.mul(b)),
        _ => {
            let same = a.clone().ok()?;
            page.answer(same == *b);
        }
    }
    Some(())
}

/// Reads two polynomials, and computes with them.
fn read_two<F: Field, O: MonoOrder>(
    alloc: Global,
    page: &mut Page,
    verb: Verb,
    words: &mut Words<'_>,
) -> Option<()> {
    let a = next::<F, O>(alloc, words)?;
    let b = next::<F, O>(alloc, words)?;
    with_two(page, verb, &a, &b)
}

/// Computes with a polynomial.
fn with_one<F: Field, O: MonoOrder>(
    alloc: Global,
    page: &mut Page,
    verb: Verb,
    a: &Poly<F, O>,
    words: &mut Words<'_>,
) -> Option<()> {
    match verb {
        Verb::Constant => page.answer(a.is_constant()),
        Verb::Lead => write_lead(page, a),
        Verb::Scaled => write_poly_or(page, a.scale(words.element::<F>()?)),
        Verb::Value => return write_value(alloc, page, a, words),
        Verb::Multiple => return write_multiple(alloc, page, a, words),
        Verb::Plus | Verb::Less | Verb::Accumulate => {
            return write_multiple_of(alloc, page, verb, a, words);
        }
        _ => write_poly(page, a),
    }
    Some(())
}

/// Reads a polynomial, and computes with it.
fn read_one<F: Field, O: MonoOrder>(
    alloc: Global,
    page: &mut Page,
    verb: Verb,
    words: &mut Words<'_>,
) -> Option<()> {
    let a = next::<F, O>(alloc, words)?;
    with_one(alloc, page, verb, &a, words)
}

/// Writes the sum of the polynomials that are left to read.
fn write_total<F: Field, O: MonoOrder>(
    alloc: Global,
    page: &mut Page,
    words: &Words<'_>,
) -> Option<()> {
    let parts = polys::<F, O>(alloc, words.rest())?;
    write_poly_or(page, Poly::sum(alloc, parts.as_slice()));
    Some(())
}

/// Computes with polynomials.
pub fn row<F: Field, O: MonoOrder>(
    alloc: Global,
    words: &mut Words<'_>,
    page: &mut Page,
) -> Option<()> {
    match named(&VERBS, words.next()?)? {
        Verb::Total => write_total::<F, O>(alloc, page, words),
        Verb::Variables => product_of_variables::<F, O>(alloc, page, words.small()?),
        verb @ (Verb::Sum | Verb::Product | Verb::Equal) => {
            read_two::<F, O>(alloc, page, verb, words)
        }
        verb => read_one::<F, O>(alloc, page, verb, words),
    }
}
