//! Polynomials of an explanation, over the integers modulo an order.
//!
//! They are made only to be shown. One that would be long is not made.
use crate::names::{Names, write_residue};
use crate::page::Page;
use ffc_cert::Term;
use std::alloc::{AllocError, Global};
use std::collections::BTreeMap;

/// A monomial: variables, which increase, with their exponents.
type Powers = Vec<(u32, u32)>;

/// A monomial after its rank, so that monomials of a higher degree come first.
type Key = (u32, Powers);

/// How many terms a polynomial has at most.
const MOST_TERMS: usize = 256;

/// How many terms are shown.
const MOST_SHOWN: usize = 12;

/// A polynomial by its monomials, none of which has the coefficient 0.
#[derive(Drop)]
pub(crate) struct Polynomial {
    order: u64,
    terms: BTreeMap<Key, u64>,
}

/// The sum of residues.
pub(crate) fn sum(a: u64, b: u64, order: u64) -> u64 {
    let sum = u128::from(a) + u128::from(b);
    let residue = sum.checked_rem(u128::from(order)).unwrap_or(0);
    u64::try_from(residue).unwrap_or(0)
}

/// The product of residues.
pub(crate) fn product(a: u64, b: u64, order: u64) -> u64 {
    let product = u128::from(a).wrapping_mul(u128::from(b));
    let residue = product.checked_rem(u128::from(order)).unwrap_or(0);
    u64::try_from(residue).unwrap_or(0)
}

/// The rank of a monomial: the higher its degree, the lower.
fn rank(powers: &[(u32, u32)]) -> u32 {
    let mut degree = 0u32;
    for power in powers {
        degree = degree.saturating_add(power.1);
    }
    u32::MAX - degree
}

/// Puts a power into a monomial.
fn put_power(powers: &mut Powers, variable: u32, exponent: u32) -> Result<(), AllocError> {
    for power in powers.iter_mut() {
        if power.0 == variable {
            power.1 = power.1.saturating_add(exponent);
            return Ok(());
        }
    }
    powers.push((variable, exponent))?;
    Ok(())
}

/// The product of two monomials.
fn times(alloc: Global, a: &[(u32, u32)], b: &[(u32, u32)]) -> Result<Powers, AllocError> {
    let mut powers = a.to_vec(alloc)?;
    for power in b {
        put_power(&mut powers, power.0, power.1)?;
    }
    powers.as_mut_slice().sort_unstable();
    Ok(powers)
}

impl Polynomial {
    /// The polynomial 0.
    pub(crate) fn zero(alloc: Global, order: u64) -> Polynomial {
        Polynomial {
            order,
            terms: BTreeMap::new(alloc),
        }
    }

    /// A constant.
    pub(crate) fn constant(alloc: Global, order: u64, value: u64) -> Option<Polynomial> {
        let mut made = Polynomial::zero(alloc, order);
        made.add_term(value, Vec::new(alloc)).then_some(made)
    }

    /// A variable.
    pub(crate) fn variable(alloc: Global, order: u64, variable: u32) -> Option<Polynomial> {
        let mut made = Polynomial::zero(alloc, order);
        let Ok(powers) = times(alloc, &[(variable, 1)], &[]) else {
            return None;
        };
        made.add_term(1, powers).then_some(made)
    }

    /// Adds a term, and says whether the polynomial is still short.
    fn add_term(&mut self, coefficient: u64, powers: Powers) -> bool {
        let key = (rank(powers.as_slice()), powers);
        let before = match self.terms.get(&key) {
            Some(before) => *before,
            None => 0,
        };
        let after = sum(before, coefficient, self.order);
        if after == 0 {
            let _ = self.terms.remove(&key);
            return true;
        }
        self.terms.insert(key, after).is_ok() && self.terms.len() <= MOST_TERMS
    }

    /// Adds the product of a term and a polynomial, and says whether the sum is still short.
    fn add_multiple(
        &mut self,
        alloc: Global,
        coefficient: u64,
        powers: &[(u32, u32)],
        other: &Polynomial,
    ) -> bool {
        for (others, factor) in other.terms.iter() {
            let Ok(powers) = times(alloc, powers, others.1.as_slice()) else {
                return false;
            };
            if !self.add_term(product(coefficient, *factor, self.order), powers) {
                return false;
            }
        }
        true
    }

    /// Adds a polynomial times a residue, and says whether the sum is still short.
    pub(crate) fn add_scaled(&mut self, alloc: Global, scale: u64, other: &Polynomial) -> bool {
        self.add_multiple(alloc, scale, &[], other)
    }

    /// Adds the product of two polynomials, and says whether the sum is still short.
    pub(crate) fn add_product(&mut self, alloc: Global, a: &Polynomial, b: &Polynomial) -> bool {
        for (key, coefficient) in a.terms.iter() {
            if !self.add_multiple(alloc, *coefficient, key.1.as_slice(), b) {
                return false;
            }
        }
        true
    }

    /// The sum of terms as a certificate has them.
    pub(crate) fn of_terms(alloc: Global, order: u64, terms: &[Term]) -> Option<Polynomial> {
        let mut made = Polynomial::zero(alloc, order);
        for term in terms {
            let Ok(powers) = term.1.as_slice().to_vec(alloc) else {
                return None;
            };
            if !made.add_term(term.0, powers) {
                return None;
            }
        }
        Some(made)
    }

    /// The polynomial in one variable with these coefficients, from the lowest.
    pub(crate) fn of_coefficients(
        alloc: Global,
        order: u64,
        variable: u32,
        coefficients: &[u64],
    ) -> Option<Polynomial> {
        let mut made = Polynomial::zero(alloc, order);
        let mut exponent = 0u32;
        for coefficient in coefficients {
            let power = [(variable, exponent)];
            let powers = if exponent == 0 { &[] } else { power.as_slice() };
            let Ok(powers) = powers.to_vec(alloc) else {
                return None;
            };
            if !made.add_term(*coefficient, powers) {
                return None;
            }
            exponent = exponent.saturating_add(1);
        }
        Some(made)
    }

    /// The value of a constant; none where there is a variable.
    pub(crate) fn as_constant(&self) -> Option<u64> {
        if self.terms.is_empty() {
            return Some(0);
        }
        match self.terms.iter().next() {
            Some((key, coefficient)) if key.1.is_empty() && self.terms.len() == 1 => {
                Some(*coefficient)
            }
            _ => None,
        }
    }
}

/// Writes a variable: a constant, an `ite`, or the inverse of a difference.
pub(crate) fn write_variable(names: &Names<'_>, variable: u32, page: &mut Page) {
    match names.node(variable) {
        Some(_) => names.write_term(variable, page),
        None => {
            page.text("[inverse ");
            page.number(u64::from(variable.saturating_sub(names.table.len())));
            page.text("]");
        }
    }
}

/// Writes a product of powers.
fn write_powers(names: &Names<'_>, powers: &[(u32, u32)], page: &mut Page) {
    let mut before = "";
    for power in powers {
        page.text(before);
        write_variable(names, power.0, page);
        if power.1 != 1 {
            page.text("^");
            page.number(u64::from(power.1));
        }
        before = "*";
    }
}

impl Polynomial {
    /// Writes a term after a sign: where its coefficient is above half of the order, the negative one.
    fn write_term(
        &self,
        names: &Names<'_>,
        powers: &[(u32, u32)],
        coefficient: u64,
        is_first: bool,
        page: &mut Page,
    ) {
        let is_negative = self.order > 2 && coefficient > self.order / 2;
        let size = if is_negative {
            self.order.saturating_sub(coefficient)
        } else {
            coefficient
        };
        page.text(match (is_first, is_negative) {
            (true, true) => "-",
            (true, false) => "",
            (false, true) => " - ",
            (false, false) => " + ",
        });
        if size != 1 || powers.is_empty() {
            page.number(size);
            page.text(if powers.is_empty() { "" } else { "*" });
        }
        write_powers(names, powers, page);
    }

    /// Writes it as a sum. Of a long one the first terms are written, and how many it has.
    pub(crate) fn write(&self, names: &Names<'_>, page: &mut Page) {
        if self.terms.is_empty() {
            page.text("0");
        }
        let mut written = 0usize;
        for (key, coefficient) in self.terms.iter() {
            if written == MOST_SHOWN {
                page.text(" + .. (");
                page.number(self.terms.len() as u64);
                page.text(" terms)");
                return;
            }
            self.write_term(names, key.1.as_slice(), *coefficient, written == 0, page);
            written = written.saturating_add(1);
        }
    }
}

/// Writes a polynomial, or that it is long.
pub(crate) fn write_polynomial(
    polynomial: &Option<Polynomial>,
    names: &Names<'_>,
    page: &mut Page,
) {
    match polynomial {
        Some(polynomial) => polynomial.write(names, page),
        None => page.text("(a long polynomial)"),
    }
}
