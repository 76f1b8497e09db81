//! Products, sums and steps of a reduction on polynomials of a given size.
use crate::drafts::{Draft, NotMade, Sparse, poly_of, push, times_power};
use ffc_field::{BabyBear, Field, Goldilocks};
use ffc_mono::{GradedReverseLex, Mono, MonoStop};
use ffc_poly::{Accumulator, PolyStop};
use std::alloc::Global;
use std::io;

/// How many variables the digits of a number fill.
const VARIABLES: u32 = 6;

/// A subtracted multiple has so many terms.
const SHORT: u32 = 10;

/// The monomial whose exponents are the digits of a number.
fn digits(alloc: Global, number: u32, base: u32) -> Result<Mono, MonoStop> {
    let base = base.max(2);
    let mut product = Mono::from_pairs(alloc, &[])?;
    let mut left = number;
    for variable in 0..VARIABLES {
        product = times_power(alloc, product, variable, left % base)?;
        left /= base;
    }
    Ok(product)
}

/// A coefficient other than 0.
fn coefficient(number: u32) -> u64 {
    u64::from(number) * 1_000_003 + 1
}

/// The monomials of the numbers from one on, in this base.
fn numbered(alloc: Global, from: u32, count: u32, base: u32) -> Result<Draft, NotMade> {
    let mut draft = Vec::new(alloc);
    for i in 0..count {
        let monomial = digits(alloc, from.saturating_add(i), base)?;
        draft.push((coefficient(i), monomial))?;
    }
    Ok(draft)
}

/// The sum of so many variables.
fn linear(alloc: Global, count: u32) -> Result<Draft, NotMade> {
    let mut draft = Vec::new(alloc);
    for i in 0..count {
        push(&mut draft, coefficient(i), &[i])?;
    }
    Ok(draft)
}

/// The first operand of a case.
fn first(alloc: Global, kind: u32, count: u32) -> Result<Draft, NotMade> {
    match kind {
        0 => numbered(alloc, 0, count, 3),
        1 => linear(alloc, count),
        _ => numbered(alloc, 0, count, 6),
    }
}

/// The second operand of a case.
fn second(alloc: Global, kind: u32, count: u32) -> Result<Draft, NotMade> {
    match kind {
        0 | 1 => first(alloc, kind, count),
        3 | 4 => numbered(alloc, 0, SHORT, 6),
        _ => numbered(alloc, count / 2, count, 6),
    }
}

/// The terms of a product or of a sum that is made so many times.
fn repeated<F: Field>(
    a: &Sparse<F>,
    b: &Sparse<F>,
    is_product: bool,
    times: u32,
) -> Result<usize, PolyStop> {
    let mut terms = 0;
    for _ in 0..times {
        let result = if is_product { a.mul(b) } else { a.add(b) };
        terms = result?.len();
    }
    Ok(terms)
}

/// The monomial of the multiples.
fn factor(alloc: Global) -> Result<Mono, MonoStop> {
    Mono::from_pairs(alloc, &[(0, 1), (3, 1)])
}

/// Subtracts a multiple and adds it again.
fn there_and_back<F: Field>(p: &Sparse<F>, m: &Mono, q: &Sparse<F>) -> Result<Sparse<F>, PolyStop> {
    p.sub_multiple(F::of(3), m.as_ref(), q)?
        .add_multiple(F::of(3), m.as_ref(), q)
}

/// The terms of what is left after so many times a multiple was subtracted and added again.
fn steps<F: Field>(
    alloc: Global,
    start: Sparse<F>,
    q: &Sparse<F>,
    times: u32,
) -> Result<usize, NotMade> {
    let m = factor(alloc)?;
    let mut p = start;
    for _ in 0..times {
        p = there_and_back(&p, &m, q)?;
    }
    Ok(p.len())
}

/// A step on an accumulator, and whether there is a leading term after it.
fn step<F: Field>(
    p: &mut Accumulator<F, GradedReverseLex>,
    c: F,
    m: &Mono,
    q: &Sparse<F>,
) -> Result<bool, PolyStop> {
    p.subtract_multiple(c, m.as_ref(), q)?;
    Ok(p.lead()?.is_some())
}

/// The same as the steps on an accumulator, with the leading term looked at after each step.
fn accumulated<F: Field>(
    alloc: Global,
    start: &Sparse<F>,
    q: &Sparse<F>,
    times: u32,
) -> Result<usize, NotMade> {
    let m = factor(alloc)?;
    let mut p = Accumulator::new(alloc);
    p.add(start)?;
    let mut leads = 0usize;
    for _ in 0..times {
        leads = leads.max(usize::from(step(&mut p, F::of(3), &m, q)?));
        leads = leads.max(usize::from(step(&mut p, F::of(3).neg(), &m, q)?));
    }
    Ok(p.into_poly()?.len().max(leads))
}

/// The terms of the result of a case, with so many terms, done so many times.
fn case<F: Field>(alloc: Global, kind: u32, count: u32, times: u32) -> Result<usize, NotMade> {
    let a = poly_of::<F>(alloc, first(alloc, kind, count)?)?;
    let b = poly_of::<F>(alloc, second(alloc, kind, count)?)?;
    match kind {
        3 => steps(alloc, a, &b, times),
        4 => accumulated(alloc, &a, &b, times),
        _ => Ok(repeated(&a, &b, kind < 2, times)?),
    }
}

/// Prints how many terms the result of a case has: 0 a product in six variables, 1 one in as many variables as terms, 2 a
/// sum, 3 steps that subtract and add a multiple, 4 the same on an accumulator, and 5 more for the same over BabyBear in
/// place of Goldilocks.
pub fn run<R: Print>(rt: &R, alloc: Global, kind: u32, count: u32, times: u32) -> io::Result<()> {
    let found = if kind < 5 {
        case::<Goldilocks>(alloc, kind, count, times)
    } else {
        case::<BabyBear>(alloc, kind - 5, count, times)
    };
    match found {
        Ok(terms) => println!(rt; "{terms} terms"),
        Err(_) => println!(rt; "no result"),
    }
}
