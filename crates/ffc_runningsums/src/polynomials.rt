//! Polynomials in one variable, as residues from the lowest coefficient on.
use crate::arithmetic::{difference, inverse, product};
use std::alloc::{AllocError, Global};
use std::collections::BTreeSet;
use std::mem;

/// A polynomial times X - root.
fn times_linear(alloc: Global, poly: &[u64], root: u64, p: u64) -> Result<Vec<u64>, AllocError> {
    let mut times = Vec::new(alloc);
    let mut below = 0u64;
    for c in poly {
        times.push(difference(below, product(root, *c, p), p))?;
        below = *c;
    }
    times.push(below)?;
    Ok(times)
}

/// The product of X - root over these roots.
pub fn from_roots(alloc: Global, roots: &BTreeSet<u64>, p: u64) -> Result<Vec<u64>, AllocError> {
    let mut poly = vec![in alloc; 1u64; 1]?;
    for root in roots {
        poly = times_linear(alloc, poly.as_slice(), *root, p)?;
    }
    Ok(poly)
}

/// Subtracts a multiple of a polynomial times a power of X.
fn subtract(
    from: &mut Vec<u64>,
    scale: u64,
    power: usize,
    poly: &[u64],
    p: u64,
) -> Result<(), AllocError> {
    let len = from.len().max(poly.len().saturating_add(power));
    from.resize(len, 0)?;
    for (i, c) in poly.iter().enumerate() {
        if let Some(known) = from.get_mut(i.saturating_add(power)) {
            *known = difference(*known, product(scale, *c, p), p);
        }
    }
    Ok(())
}

/// Multiplies each coefficient.
fn scale_by(poly: &mut Vec<u64>, scale: u64, p: u64) {
    for c in poly.iter_mut() {
        *c = product(*c, scale, p);
    }
}

/// Drops leading coefficients that are 0.
fn trim(poly: &mut Vec<u64>) {
    for _ in 0..u64::MAX {
        match poly.last() {
            Some(0) => {
                let _ = poly.pop();
            }
            _ => break,
        }
    }
}

/// A combination of two polynomials, and their factors in it.
#[derive(Drop)]
struct Combination {
    rest: Vec<u64>,
    first: Vec<u64>,
    second: Vec<u64>,
}

impl Combination {
    fn degree(&self) -> usize {
        self.rest.len().saturating_sub(1)
    }

    /// Makes the leading coefficient 1.
    fn normalize(&mut self, p: u64) {
        let Some(lead) = self.rest.last().copied() else {
            return;
        };
        if lead != 1 {
            let scale = inverse(lead, p);
            scale_by(&mut self.rest, scale, p);
            scale_by(&mut self.first, scale, p);
            scale_by(&mut self.second, scale, p);
        }
    }

    /// Takes the remainder modulo another combination, which is monic.
    fn reduce(&mut self, other: &Combination, p: u64) -> Result<(), AllocError> {
        for _ in 0..u64::MAX {
            if self.rest.len() < other.rest.len() {
                break;
            }
            let Some(lead) = self.rest.last().copied() else {
                break;
            };
            let power = self.rest.len().saturating_sub(other.rest.len());
            subtract(&mut self.rest, lead, power, other.rest.as_slice(), p)?;
            subtract(&mut self.first, lead, power, other.first.as_slice(), p)?;
            subtract(&mut self.second, lead, power, other.second.as_slice(), p)?;
            trim(&mut self.rest);
        }
        Ok(())
    }
}

/// Factors with which two monic polynomials without a common root sum to 1, by Euclid's algorithm.
pub fn bezout(
    alloc: Global,
    a: Vec<u64>,
    b: Vec<u64>,
    p: u64,
) -> Result<(Vec<u64>, Vec<u64>), AllocError> {
    let mut big = Combination {
        rest: a,
        first: vec![in alloc; 1u64; 1]?,
        second: Vec::new(alloc),
    };
    let mut small = Combination {
        rest: b,
        first: Vec::new(alloc),
        second: vec![in alloc; 1u64; 1]?,
    };
    for _ in 0..u64::MAX {
        if small.degree() == 0 {
            break;
        }
        small.normalize(p);
        big.reduce(&small, p)?;
        mem::swap(&mut big, &mut small);
    }
    small.normalize(p);
    let Combination {
        rest: _,
        first,
        second,
    } = small;
    Ok((first, second))
}
