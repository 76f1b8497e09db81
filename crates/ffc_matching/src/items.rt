//! Differences as sums of multiples of lines: written as lines of their own where that makes the tree shorter.
use crate::monomials::{Monomials, ONE};
use crate::polynomials::Poly;
use crate::sums::{Sum, factor_bytes};
use crate::writing::Lines;
use ffc_congruence::{inverse, product};
use std::alloc::{AllocError, Global};

/// Longer sums are lines of their own.
const MOST_FOLDED: usize = 64;

/// So many more terms a sum may have that is put into another one than the factor and the sum have apart.
const MORE_TERMS: usize = 2;

/// The bytes of a line besides its sum, and of a reference to it besides the factor.
const LINE: u64 = 4;

const REFERENCE: u64 = 5;

/// Constants below this have few digits.
const SHORT: u64 = 1_000;

/// A difference.
#[derive(Drop)]
pub struct Item {
    /// What it is a sum of.
    sum: Sum,
    /// How many terms it has at most.
    length: u64,
    /// How often it is used.
    uses: u32,
    /// How many bytes the sum takes, once that is counted.
    bytes: Option<u64>,
    /// The line whose multiple it is, once that is written.
    line: Option<(u32, u64)>,
}

impl Item {
    /// A sum that is used so often.
    pub fn of(sum: Sum, length: u64, uses: u32) -> Item {
        Item {
            sum,
            length,
            uses,
            bytes: None,
            line: None,
        }
    }

    /// A line.
    pub fn of_line(alloc: Global, line: u32) -> Item {
        Item {
            sum: Sum::zero(alloc),
            length: 0,
            uses: 0,
            bytes: None,
            line: Some((line, 1)),
        }
    }

    /// How many bytes its sum takes.
    fn own_bytes(&mut self, monomials: &Monomials, p: u64) -> u64 {
        match self.bytes {
            Some(bytes) => bytes,
            None => {
                let bytes = self.sum.bytes(monomials, None, p);
                self.bytes = Some(bytes);
                bytes
            }
        }
    }

    /// The product with a factor and a constant as a sum of multiples of the same lines, where that makes the tree no longer.
    fn folded(
        &mut self,
        monomials: &mut Monomials,
        factor: &Poly,
        constant: u64,
        p: u64,
    ) -> Result<Option<Sum>, AllocError> {
        let terms = self.sum.terms.len();
        let own = factor.terms.len();
        let apart = terms.saturating_add(own).saturating_add(MORE_TERMS);
        if terms > MOST_FOLDED || terms.saturating_mul(own) > apart {
            return Ok(None);
        }
        let folded = self.sum.multiplied(monomials, factor, constant, p)?;
        if self.uses <= 1 && is_sign(factor, constant, p) {
            return Ok(Some(folded));
        }
        let uses = u64::from(self.uses);
        let reference = factor_bytes(monomials, factor, p).saturating_add(REFERENCE);
        let line = self.own_bytes(monomials, p).saturating_add(LINE);
        let as_line = reference.saturating_mul(uses).saturating_add(line);
        let is_shorter = folded.bytes(monomials, None, p).saturating_mul(uses) <= as_line;
        Ok(is_shorter.then_some(folded))
    }

    /// Writes the line whose multiple it is.
    fn written(
        &mut self,
        lines: &mut Lines,
        monomials: &Monomials,
        p: u64,
    ) -> Result<(u32, u64), AllocError> {
        let scale = self.sum.best_scale(monomials, p);
        let number = lines.write(&self.sum, monomials, scale, self.length, p)?;
        let line = (number, inverse(scale, p));
        self.line = Some(line);
        Ok(line)
    }

    /// Adds it times a factor and a constant to a sum.
    pub fn add_to(
        &mut self,
        sum: &mut Sum,
        factor: &Poly,
        constant: u64,
        lines: &mut Lines,
        monomials: &mut Monomials,
        p: u64,
    ) -> Result<(), AllocError> {
        let (line, scale) = match self.line {
            Some(line) => line,
            None => match self.folded(monomials, factor, constant, p)? {
                Some(folded) => return sum.add(folded),
                None => self.written(lines, monomials, p)?,
            },
        };
        sum.add_line(line, factor, product(scale, constant, p), p)
    }
}

/// The value of a factor that is a constant.
fn constant_of(factor: &Poly) -> Option<u64> {
    let [term] = factor.terms.as_slice() else {
        return None;
    };
    let (monomial, value) = *term;
    if monomial == ONE { Some(value) } else { None }
}

/// Whether a factor times a constant is 1 or its negative.
fn is_sign(factor: &Poly, constant: u64, p: u64) -> bool {
    let Some(value) = constant_of(factor) else {
        return false;
    };
    let value = product(value, constant, p);
    value == 1 || value == p.saturating_sub(1)
}

/// Whether a factor is a constant of few digits, up to its sign: terms are hardly longer times such a one.
pub fn is_short(factor: &Poly, p: u64) -> bool {
    match constant_of(factor) {
        Some(value) => value.min(p.saturating_sub(value)) < SHORT,
        None => false,
    }
}
