//! Sums of few bits that are never 0: each is multiplied by the polynomial that has the inverse of its value at each choice of the
//! bits, so that one line closes a branch in place of a case for each choice.
use ffc_bits::{Derived, Reason, Source, StepId, bit_of};
use ffc_field::Field;
use ffc_line::{Line, LineId};
use ffc_mono::{Mono, MonoOrder, MonoStop};
use ffc_poly::{Poly, PolyStop};
use std::alloc::{AllocError, Global};
use std::collections::BTreeMap;

/// A sum has at most so many bits: the factor has a term for each choice of them.
const MOST_BITS: usize = 4;

/// The places of bits in a choice of them.
const PLACES: [usize; MOST_BITS] = [1, 2, 4, 8];

/// The lines that say of variables that they are bits.
pub type BitLines = BTreeMap<u32, LineId>;

/// The lines that say of variables that they are bits, the first one of each.
pub fn bit_lines<F: Field, O: MonoOrder>(
    alloc: Global,
    lines: &[Line<F, O>],
) -> Result<BitLines, AllocError> {
    let mut bits = BTreeMap::new(alloc);
    for (i, line) in lines.iter().enumerate() {
        if let Some(x) = bit_of(&line.poly) {
            if !bits.contains_key(&x) {
                bits.insert(x, i as LineId)?;
            }
        }
    }
    Ok(bits)
}

/// A sum of multiples of bits and a constant.
struct BitSum<F: Field> {
    constant: F,
    /// The residues of coefficients, and the lines that say that the variables are bits.
    terms: Vec<(u64, LineId)>,
    /// The products of bits, for each choice of them.
    products: Vec<Mono>,
}

impl<F: Field> Drop for BitSum<F> {
    fn drop(self) {
        let BitSum {
            constant: _,
            terms: _,
            products: _,
        } = self;
    }
}

/// A product of monomials, or none where it passes the limit.
fn product(m: &Mono, x: &Mono) -> Result<Option<Mono>, AllocError> {
    match m.mul(x) {
        Ok(product) => Ok(Some(product)),
        Err(MonoStop::Memory) => Err(AllocError),
        Err(MonoStop::DegreeOver) => Ok(None),
    }
}

/// The polynomial of these terms, or none where it passes a limit.
fn poly_of<F: Field, O: MonoOrder>(
    alloc: Global,
    terms: &[(F, Mono)],
) -> Result<Option<Poly<F, O>>, AllocError> {
    match Poly::from_terms(alloc, terms) {
        Ok(poly) => Ok(Some(poly)),
        Err(PolyStop::Memory) => Err(AllocError),
        Err(_) => Ok(None),
    }
}

impl<F: Field> BitSum<F> {
    /// A polynomial as a sum of few bits, if it is one.
    fn of<O: MonoOrder>(
        alloc: Global,
        poly: &Poly<F, O>,
        bits: &BitLines,
    ) -> Result<Option<Self>, AllocError> {
        let one = match Mono::from_pairs(alloc, &[]) {
            Ok(one) => one,
            Err(MonoStop::Memory) => return Err(AllocError),
            Err(MonoStop::DegreeOver) => unreachable!(),
        };
        let mut sum = BitSum {
            constant: F::of(0),
            terms: Vec::new(alloc),
            products: Vec::new(alloc),
        };
        sum.products.push(one)?;
        for (c, m) in poly.iter() {
            match m.pairs() {
                [] => sum.constant = c,
                [power] if power.1 == 1 && sum.terms.len() < MOST_BITS => {
                    let Some(line) = bits.get(&power.0) else {
                        return Ok(None);
                    };
                    sum.add(alloc, c, *line, &m.to_mono(alloc)?)?;
                }
                _ => return Ok(None),
            }
        }
        Ok(Some(sum))
    }

    /// Adds a multiple of a bit.
    fn add(&mut self, alloc: Global, c: F, line: LineId, x: &Mono) -> Result<(), AllocError> {
        self.terms.push((c.residue(), line))?;
        let mut more = Vec::new(alloc);
        for m in self.products.as_slice() {
            if let Some(product) = product(m, x)? {
                more.push(product)?;
            }
        }
        for m in more {
            self.products.push(m)?;
        }
        Ok(())
    }

    /// The inverse of the value of the sum for each choice of the bits, if none of these values is 0.
    fn inverses(&self, alloc: Global) -> Result<Option<Vec<F>>, AllocError> {
        let mut inverses = Vec::new(alloc);
        for choice in 0..self.products.len() {
            let mut value = self.constant;
            for (term, place) in self.terms.iter().zip(PLACES) {
                if choice & place != 0 {
                    value = value.add(F::of(u128::from(term.0)));
                }
            }
            let Some(inverse) = value.inv() else {
                return Ok(None);
            };
            inverses.push(inverse)?;
        }
        Ok(Some(inverses))
    }

    /// The coefficients of the polynomial that has these values, for each product of bits.
    fn interpolated(&self, mut values: Vec<F>) -> Vec<F> {
        for place in PLACES {
            for choice in 0..values.len() {
                if choice & place != 0 {
                    subtract(&mut values, choice, choice ^ place);
                }
            }
        }
        values
    }

    /// The terms of the polynomial with these coefficients.
    fn factor(&self, alloc: Global, coefs: &[F]) -> Result<Vec<(F, Mono)>, AllocError> {
        let mut terms = Vec::new(alloc);
        for (c, m) in coefs.iter().zip(self.products.as_slice()) {
            terms.push((*c, m.clone()?))?;
        }
        Ok(terms)
    }

    /// The terms with which the square of the bit at a place, less the bit, occurs in the product of the sum and the polynomial
    /// with these coefficients, negated.
    fn excess(
        &self,
        alloc: Global,
        coefs: &[F],
        place: usize,
        c: F,
    ) -> Result<Vec<(F, Mono)>, AllocError> {
        let mut terms = Vec::new(alloc);
        for (choice, coefficient) in coefs.iter().enumerate() {
            if choice & place != 0 {
                if let Some(m) = self.products.get(choice ^ place) {
                    terms.push((coefficient.mul(c).neg(), m.clone()?))?;
                }
            }
        }
        Ok(terms)
    }
}

/// Subtracts one value from another.
fn subtract<F: Field>(values: &mut Vec<F>, from: usize, what: usize) {
    if let Some(value) = values.get(what).copied() {
        if let Some(known) = values.get_mut(from) {
            *known = known.sub(value);
        }
    }
}

/// Derives the constant 1 from a line that is a sum of few bits, if it is never 0.
fn refute<F: Field, O: MonoOrder>(
    alloc: Global,
    lines: &[Line<F, O>],
    place: usize,
    bits: &BitLines,
    derived: &mut Derived<F, O>,
) -> Result<Option<StepId>, AllocError> {
    let Some(line) = lines.get(place) else {
        return Ok(None);
    };
    let Some(sum) = BitSum::of(alloc, &line.poly, bits)? else {
        return Ok(None);
    };
    let Some(values) = sum.inverses(alloc)? else {
        return Ok(None);
    };
    let coefs = sum.interpolated(values);
    let mut parts = Vec::new(alloc);
    let Some(factor) = poly_of(alloc, sum.factor(alloc, coefs.as_slice())?.as_slice())? else {
        return Ok(None);
    };
    parts.push((Source::Line(place as LineId), factor))?;
    for ((c, bit), place) in sum.terms.iter().zip(PLACES) {
        let Some(lead) = lead_of(lines, *bit) else {
            return Ok(None);
        };
        let c = F::of(u128::from(*c)).mul(lead);
        let terms = sum.excess(alloc, coefs.as_slice(), place, c)?;
        let Some(excess) = poly_of(alloc, terms.as_slice())? else {
            return Ok(None);
        };
        parts.push((Source::Line(*bit), excess))?;
    }
    Ok(Some(derived.push(Reason::Sum(parts), lines.len())?))
}

/// The inverse of the leading coefficient of a line.
fn lead_of<F: Field, O: MonoOrder>(lines: &[Line<F, O>], line: LineId) -> Option<F> {
    let (c, _) = lines.get(line as usize)?.poly.lead()?;
    c.inv()
}

/// Derives the constant 1 from the first line from a number on that is a sum of few bits and never 0, if there is one.
pub fn refuted_sum<F: Field, O: MonoOrder>(
    alloc: Global,
    lines: &[Line<F, O>],
    since: usize,
    bits: &BitLines,
    derived: &mut Derived<F, O>,
) -> Result<Option<StepId>, AllocError> {
    for place in since..lines.len() {
        if let Some(step) = refute(alloc, lines, place, bits, derived)? {
            return Ok(Some(step));
        }
    }
    Ok(None)
}
