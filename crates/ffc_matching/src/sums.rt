//! Sums of multiples of lines, and how long they are as text.
use crate::monomials::{Monomials, digits};
use crate::polynomials::Poly;
use ffc_congruence::{inverse, negative, product, sum};
use std::alloc::{AllocError, Global};

/// Lines times terms: the number of the line, the monomial, the coefficient.
#[derive(Drop)]
pub struct Sum {
    pub terms: Vec<(u32, u32, u64)>,
}

impl Sum {
    /// The sum of nothing.
    pub fn zero(alloc: Global) -> Sum {
        Sum {
            terms: Vec::new(alloc),
        }
    }

    /// Adds a line times a polynomial times a constant.
    pub fn add_line(
        &mut self,
        line: u32,
        factor: &Poly,
        scale: u64,
        p: u64,
    ) -> Result<(), AllocError> {
        for (monomial, value) in &factor.terms {
            self.terms
                .push((line, *monomial, product(*value, scale, p)))?;
        }
        Ok(())
    }

    /// Adds another one.
    pub fn add(&mut self, other: Sum) -> Result<(), AllocError> {
        if self.terms.is_empty() {
            *self = other;
            Ok(())
        } else {
            self.terms.extend_from_slice(other.terms.as_slice())
        }
    }

    /// Whether its terms are in increasing order, each monomial of a line once.
    fn is_settled(&self) -> bool {
        let mut before: Option<(u32, u32)> = None;
        for (line, monomial, value) in &self.terms {
            let follows = match before {
                Some(last) => last.0 < *line || last.0 == *line && last.1 < *monomial,
                None => true,
            };
            if !follows || *value == 0 {
                return false;
            }
            before = Some((*line, *monomial));
        }
        true
    }

    /// The same in increasing order, each monomial of a line once, and without those whose coefficients are 0.
    pub fn settled(self, alloc: Global, p: u64) -> Result<Sum, AllocError> {
        if self.is_settled() {
            return Ok(self);
        }
        let Sum { mut terms } = self;
        terms.sort_unstable();
        let mut settled = Sum {
            terms: Vec::with_capacity(alloc, terms.len())?,
        };
        let mut last: Option<(u32, u32, u64)> = None;
        for (line, monomial, value) in &terms {
            last = match last {
                Some(before) if before.0 == *line && before.1 == *monomial => {
                    Some((*line, *monomial, sum(before.2, *value, p)))
                }
                _ => {
                    settled.push(last)?;
                    Some((*line, *monomial, *value))
                }
            };
        }
        settled.push(last)?;
        Ok(settled)
    }

    /// Appends a term, unless it is 0.
    fn push(&mut self, term: Option<(u32, u32, u64)>) -> Result<(), AllocError> {
        if let Some(term) = term {
            if term.2 != 0 {
                self.terms.push(term)?;
            }
        }
        Ok(())
    }

    /// The product with a polynomial and a constant.
    pub fn multiplied(
        &self,
        monomials: &mut Monomials,
        factor: &Poly,
        constant: u64,
        p: u64,
    ) -> Result<Sum, AllocError> {
        let count = self.terms.len().saturating_mul(factor.terms.len());
        let mut made = Sum {
            terms: Vec::with_capacity(monomials.alloc, count)?,
        };
        for (line, monomial, value) in &self.terms {
            let value = product(*value, constant, p);
            for (second, factor) in &factor.terms {
                let monomial = monomials.times(*monomial, *second)?;
                made.terms
                    .push((*line, monomial, product(value, *factor, p)))?;
            }
        }
        made.settled(monomials.alloc, p)
    }

    /// How many bytes it takes in a line, times a constant; with none, where each coefficient has the sign that is shorter. The
    /// terms are settled.
    pub fn bytes(&self, monomials: &Monomials, scale: Option<u64>, p: u64) -> u64 {
        let mut bytes = 0u64;
        let mut current = None;
        let mut count = 0u64;
        for (line, monomial, value) in &self.terms {
            if current != Some(*line) {
                current = Some(*line);
                count = 0;
                bytes = bytes.saturating_add(digits(u64::from(*line)).saturating_add(3));
            }
            count = count.saturating_add(1);
            if count == 10 || count == 100 {
                bytes = bytes.saturating_add(1);
            }
            bytes = bytes.saturating_add(term_bytes(monomials, *monomial, *value, scale, p));
        }
        bytes
    }

    /// The constant of a few by which it is shortest.
    pub fn best_scale(&self, monomials: &Monomials, p: u64) -> u64 {
        let minus = negative(1, p);
        let first = match self.terms.first() {
            Some(term) => term.2,
            None => 1,
        };
        let other = if first == 1 || first == minus {
            1
        } else {
            inverse(first, p)
        };
        let mut best = 1;
        let mut least = self.bytes(monomials, Some(1), p);
        for scale in [minus, other, negative(other, p)] {
            if scale != best && scale != 0 {
                let bytes = self.bytes(monomials, Some(scale), p);
                if bytes < least {
                    best = scale;
                    least = bytes;
                }
            }
        }
        best
    }
}

/// How many bytes a term of a factor takes.
fn term_bytes(monomials: &Monomials, monomial: u32, value: u64, scale: Option<u64>, p: u64) -> u64 {
    let coefficient = match scale {
        Some(1) => value,
        Some(scale) => product(value, scale, p),
        None => value.min(p.saturating_sub(value)),
    };
    digits(coefficient)
        .saturating_add(monomials.bytes(monomial))
        .saturating_add(2)
}

/// How many bytes a factor takes.
pub fn factor_bytes(monomials: &Monomials, factor: &Poly, p: u64) -> u64 {
    let mut bytes = digits(factor.terms.len() as u64).saturating_add(1);
    for (monomial, value) in &factor.terms {
        bytes = bytes.saturating_add(term_bytes(monomials, *monomial, *value, None, p));
    }
    bytes
}
