//! Polynomials as sums of terms: `x0^2*x1 - 3*x2 + 1`.
use crate::refusals::Refusal;
use ffc_field::Field;
use ffc_mono::{GradedReverseLex, Mono};
use ffc_poly::Poly;
use std::alloc::Global;

/// A number below 2^64.
pub fn number(text: &str) -> Result<u64, Refusal> {
    text.parse::<u64>().map_err(|_| Refusal::Number)
}

/// A variable to a power.
fn power(alloc: Global, variable: u32, exponent: u32) -> Result<Mono, Refusal> {
    let pair: [(u32, u32); 1] = [(variable, exponent)];
    let pairs: &[(u32, u32)] = if exponent == 0 { &[] } else { &pair };
    Ok(Mono::from_pairs(alloc, pairs)?)
}

/// The number of a variable, as `x3`.
fn variable(text: &str) -> Result<u32, Refusal> {
    let Some(digits) = text.trim().strip_prefix('x') else {
        return Err(Refusal::Factor);
    };
    digits.parse::<u32>().map_err(|_| Refusal::Factor)
}

/// A power as `x3^2` or `x3`.
fn power_of(alloc: Global, text: &str) -> Result<Mono, Refusal> {
    match text.split_once('^') {
        None => power(alloc, variable(text)?, 1),
        Some((name, exponent)) => match exponent.trim().parse::<u32>() {
            Ok(exponent) => power(alloc, variable(name)?, exponent),
            Err(_) => Err(Refusal::Exponent),
        },
    }
}

/// A product of numbers and powers.
fn product<F: Field>(alloc: Global, text: &str) -> Result<(F, Mono), Refusal> {
    let mut coefficient = F::of(1);
    let mut monomial = power(alloc, 0, 0)?;
    for factor in text.split('*') {
        match factor.trim().parse::<u64>() {
            Ok(number) => coefficient = coefficient.mul(F::of(u128::from(number))),
            Err(_) => monomial = monomial.mul(&power_of(alloc, factor)?)?,
        }
    }
    Ok((coefficient, monomial))
}

/// A product, negated after `-`.
fn term<F: Field>(alloc: Global, text: &str) -> Result<(F, Mono), Refusal> {
    let Some(negated) = text.strip_prefix('-') else {
        return product::<F>(alloc, text);
    };
    let (coefficient, monomial) = product::<F>(alloc, negated)?;
    Ok((coefficient.neg(), monomial))
}

/// The terms of a sum. A `-` belongs to the term after it.
fn terms<F: Field>(alloc: Global, text: &str) -> Result<Vec<(F, Mono)>, Refusal> {
    let signed = text.trim().replace(alloc, "-", "+-")?;
    let is_negated = text.trim().starts_with('-');
    let mut found = Vec::new(alloc);
    for (place, part) in signed.as_str().split('+').enumerate() {
        let part = part.trim();
        if !part.is_empty() {
            found.push(term::<F>(alloc, part)?)?;
        } else if place > 0 || !is_negated {
            return Err(Refusal::Term);
        }
    }
    Ok(found)
}

/// The polynomial of a sum.
pub fn poly<F: Field>(alloc: Global, text: &str) -> Result<Poly<F, GradedReverseLex>, Refusal> {
    let found = terms::<F>(alloc, text)?;
    Ok(Poly::from_terms(alloc, found.as_slice())?)
}

/// The polynomials of these sums.
pub fn polys<F: Field>(
    alloc: Global,
    texts: &[&str],
) -> Result<Vec<Poly<F, GradedReverseLex>>, Refusal> {
    let mut found = Vec::new(alloc);
    for text in texts {
        found.push(poly::<F>(alloc, text)?)?;
    }
    Ok(found)
}
