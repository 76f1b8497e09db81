//! Numbers, monomials and polynomials, as rows write them.
use crate::naming::letter;
use crate::page::Page;
use ffc_field::Field;
use ffc_mono::{Mono, MonoOrder, MonoRef};
use ffc_poly::Poly;
use std::fmt::Display;

/// Writes a variable.
fn write_variable(page: &mut Page, variable: u32) {
    match letter(variable) {
        Some(letter) => page.say(letter),
        None => page.count("x", u64::from(variable)),
    }
}

/// Writes a variable to a power.
fn write_power(page: &mut Page, variable: u32, exponent: u32) {
    write_variable(page, variable);
    if exponent != 1 {
        page.count("^", u64::from(exponent));
    }
}

/// Writes a product of powers.
pub fn write_powers(page: &mut Page, pairs: &[(u32, u32)]) {
    if pairs.is_empty() {
        page.say("1");
    }
    let mut before = "";
    for (variable, exponent) in pairs {
        page.say(before);
        write_power(page, *variable, *exponent);
        before = "*";
    }
}

pub fn write_monomial(page: &mut Page, monomial: &Mono) {
    write_powers(page, monomial.pairs());
}

/// Writes a term.
pub fn write_term<F: Field>(page: &mut Page, coefficient: F, monomial: MonoRef<'_>) {
    let residue = coefficient.residue();
    if monomial.degree() == 0 {
        page.number(residue);
        return;
    }
    if residue != 1 {
        page.number(residue);
        page.say("*");
    }
    write_powers(page, monomial.pairs());
}

/// Writes the terms of a polynomial in its order.
pub fn write_poly<F: Field, O: MonoOrder>(page: &mut Page, poly: &Poly<F, O>) {
    if poly.is_zero() {
        page.say("0");
    }
    let mut is_later = false;
    for (coefficient, monomial) in poly.iter() {
        if is_later {
            page.say("+");
        }
        write_term(page, coefficient, monomial);
        is_later = true;
    }
}

/// Writes elements with commas between them, or `-` where there are none.
pub fn write_elements<F: Field>(page: &mut Page, elements: &[F]) {
    if elements.is_empty() {
        page.say("-");
    }
    let mut before = "";
    for element in elements {
        page.count(before, element.residue());
        before = ",";
    }
}

/// Writes a monomial, or why there is none.
pub fn write_monomial_or<E: Display + Drop>(page: &mut Page, found: Result<Mono, E>) {
    match found {
        Ok(monomial) => write_monomial(page, &monomial),
        Err(stop) => page.show(&stop),
    }
}

/// Writes a polynomial, or why there is none.
pub fn write_poly_or<F: Field, O: MonoOrder, E: Display + Drop>(
    page: &mut Page,
    found: Result<Poly<F, O>, E>,
) {
    match found {
        Ok(poly) => write_poly(page, &poly),
        Err(stop) => page.show(&stop),
    }
}
