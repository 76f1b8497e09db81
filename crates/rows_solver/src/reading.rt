//! Words, numbers, monomials and polynomials, as rows write them.
use crate::naming::variable;
use ffc_field::Field;
use ffc_mono::{Mono, MonoOrder, MonoStop};
use ffc_poly::Poly;
use std::alloc::Global;

/// The words of a step, which are read in turn.
#[derive(Drop)]
pub struct Words<'a> {
    words: &'a [&'a str],
    read: usize,
}

impl<'a> Words<'a> {
    pub fn new(words: &'a [&'a str]) -> Self {
        Words { words, read: 0 }
    }

    /// The next word.
    pub fn next(&mut self) -> Option<&'a str> {
        let word = self.words.get(self.read)?;
        self.read = self.read.wrapping_add(1);
        Some(*word)
    }

    /// The next word, as a number.
    pub fn number(&mut self) -> Option<u64> {
        self.next()?.parse::<u64>().ok()
    }

    /// The next word, as a small number.
    pub fn small(&mut self) -> Option<u32> {
        self.next()?.parse::<u32>().ok()
    }

    /// The next word, as an element.
    pub fn element<F: Field>(&mut self) -> Option<F> {
        Some(F::of(self.next()?.parse::<u128>().ok()?))
    }

    /// The words that are left.
    pub fn rest(&self) -> &'a [&'a str] {
        self.words.get(self.read..).unwrap_or(&[])
    }
}

/// The words of a step.
pub fn words_of<'a>(alloc: Global, step: &'a str) -> Option<Vec<&'a str>> {
    step.split_whitespace().collect(alloc).ok()
}

/// Numbers with commas between them, or `-` where there are none.
pub fn numbers(alloc: Global, text: &str) -> Option<Vec<u64>> {
    let mut out = Vec::new(alloc);
    if text == "-" {
        return Some(out);
    }
    for part in text.split(',') {
        out.push(part.parse::<u64>().ok()?).ok()?;
    }
    Some(out)
}

/// The elements of these numbers.
pub fn elements<F: Field>(alloc: Global, text: &str) -> Option<Vec<F>> {
    let mut out = Vec::new(alloc);
    for number in numbers(alloc, text)? {
        out.push(F::of(u128::from(number))).ok()?;
    }
    Some(out)
}

/// A variable to a power.
pub fn power(alloc: Global, variable: u32, exponent: u32) -> Result<Mono, MonoStop> {
    let pair: [(u32, u32); 1] = [(variable, exponent)];
    let pairs: &[(u32, u32)] = if exponent == 0 { &[] } else { &pair };
    Mono::from_pairs(alloc, pairs)
}

/// A factor as `x^2` or `y`.
fn factor(alloc: Global, text: &str) -> Option<Mono> {
    match text.split_once('^') {
        None => power(alloc, variable(text)?, 1).ok(),
        Some((name, exponent)) => {
            power(alloc, variable(name)?, exponent.parse::<u32>().ok()?).ok()
        }
    }
}

/// The product of the variables of a term.
pub fn monomial(alloc: Global, text: &str) -> Option<Mono> {
    let mut product = power(alloc, 0, 0).ok()?;
    for part in text.split('*') {
        if part.parse::<u128>().is_err() {
            product = product.mul(&factor(alloc, part)?).ok()?;
        }
    }
    Some(product)
}

/// The product of the numbers of a term.
fn coefficient<F: Field>(text: &str) -> F {
    let mut product = F::of(1);
    for part in text.split('*') {
        if let Ok(number) = part.parse::<u128>() {
            product = product.mul(F::of(number));
        }
    }
    product
}

/// A term as `2*x^2*y` or `-3`.
fn term<F: Field>(alloc: Global, text: &str) -> Option<(F, Mono)> {
    match text.strip_prefix('-') {
        Some(size) => Some((coefficient::<F>(size).neg(), monomial(alloc, size)?)),
        None => Some((coefficient::<F>(text), monomial(alloc, text)?)),
    }
}

/// The terms of a sum as `x^2-2*x*y+3`. A `-` belongs to the term after it.
fn terms<F: Field>(alloc: Global, text: &str) -> Option<Vec<(F, Mono)>> {
    let signed = text.replace(alloc, "-", "+-").ok()?;
    let mut out = Vec::new(alloc);
    for part in signed.as_str().split('+') {
        if !part.is_empty() {
            out.push(term::<F>(alloc, part)?).ok()?;
        }
    }
    Some(out)
}

/// The polynomial of a sum.
pub fn poly<F: Field, O: MonoOrder>(alloc: Global, text: &str) -> Option<Poly<F, O>> {
    let terms = terms::<F>(alloc, text)?;
    Poly::from_terms(alloc, terms.as_slice()).ok()
}

/// The polynomials of these sums.
pub fn polys<F: Field, O: MonoOrder>(alloc: Global, texts: &[&str]) -> Option<Vec<Poly<F, O>>> {
    let mut out = Vec::new(alloc);
    for text in texts {
        out.push(poly::<F, O>(alloc, text)?).ok()?;
    }
    Some(out)
}
