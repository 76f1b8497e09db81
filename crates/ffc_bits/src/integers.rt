//! Linear forms over the field as equations over the integers.
use crate::equation::Equation;
use ffc_field::Field;
use std::alloc::{AllocError, Global};
use std::collections::{BTreeMap, BTreeSet};

/// At most so many scales are tried of a form.
const MOST_SCALES: usize = 128;

/// The integer of the least size that is this element.
pub fn representative<F: Field>(c: F) -> i128 {
    let residue = i128::from(c.residue());
    let order = i128::from(F::ORDER);
    if residue.saturating_mul(2) < order {
        residue
    } else {
        residue.saturating_sub(order)
    }
}

/// The element that an integer is.
pub fn element<F: Field>(n: i128) -> F {
    let size = F::of(n.unsigned_abs());
    if n < 0 { size.neg() } else { size }
}

/// Whether numbers between these are 0 modulo the order only where they are 0.
pub fn is_within<F: Field>(low: i128, high: i128) -> bool {
    let order = i128::from(F::ORDER);
    low.saturating_add(order) > 0 && high < order
}

/// Whether the checker, which takes each number of a line with the least size, finds the same of the line that an equation is: its
/// numbers have that size, or all its sums are on one side of 0.
pub fn is_read_alike<F: Field>(equation: &Equation) -> bool {
    let (low, high) = equation.reach();
    if low > 0 || high < 0 {
        return true;
    }
    if representative(element::<F>(equation.constant)) != equation.constant {
        return false;
    }
    for (_, c) in &equation.terms {
        if representative(element::<F>(*c)) != *c {
            return false;
        }
    }
    true
}

/// The element of a residue.
pub fn of_residue<F: Field>(residue: u64) -> F {
    F::of(u128::from(residue))
}

/// How far a form reaches over the integers.
#[derive(Clone, Copy)]
struct Reach {
    /// The distance between the least and the greatest value.
    width: u128,
    /// The greatest size of a coefficient.
    heaviest: u128,
}

/// How far a form times a scale reaches over the integers: none where its values are further apart than a bound, or, without
/// multiples of the order, pass that.
fn reach_of<F: Field>(
    constant: u64,
    terms: &BTreeMap<u32, u64>,
    scale: F,
    multiples: i128,
    bound: u128,
) -> Option<Reach> {
    let mut low = representative(of_residue::<F>(constant).mul(scale));
    let mut high = low;
    let mut heaviest = 0;
    for (_, c) in terms {
        let weight = representative(of_residue::<F>(*c).mul(scale));
        heaviest = weight.unsigned_abs().max(heaviest);
        if weight < 0 {
            low = low.saturating_add(weight);
        } else {
            high = high.saturating_add(weight);
        }
        let is_over = multiples == 0 && !is_within::<F>(low, high);
        if is_over || high.abs_diff(low) >= bound {
            return None;
        }
    }
    Some(Reach {
        width: high.abs_diff(low),
        heaviest,
    })
}

impl Reach {
    /// Whether no coefficient is greater than the last of so many powers of two.
    fn is_natural(self, count: usize) -> bool {
        let last = u32::try_from(count.saturating_sub(1)).unwrap_or(u32::MAX);
        match 1u128.checked_shl(last) {
            Some(power) => self.heaviest <= power,
            None => true,
        }
    }
}

/// The scale with which a form reaches least far over the integers, of those that make a coefficient 1 or -1. None where each
/// passes the order, or, where it may be as many multiples of that, these. The search ends where the coefficients are like as many powers of two as they have sizes, which no scale
/// changes.
pub fn best_scale<F: Field>(
    alloc: Global,
    constant: u64,
    terms: &BTreeMap<u32, u64>,
    multiples: i128,
) -> Result<Option<F>, AllocError> {
    let sizes = distinct::<F>(alloc, terms)?;
    let order = u128::from(F::ORDER);
    let mut bound = order.saturating_mul(multiples.unsigned_abs().max(2));
    let mut best = None;
    let mut candidates = Vec::new(alloc);
    candidates.push(F::of(1))?;
    for size in &sizes {
        if let Some(scale) = F::of(u128::from(*size)).inv() {
            candidates.push(scale)?;
        }
    }
    for scale in candidates {
        if let Some(reach) = reach_of(constant, terms, scale, multiples, bound) {
            best = Some(scale);
            if reach.is_natural(sizes.len()) {
                break;
            }
            bound = reach.width;
        }
    }
    Ok(best)
}

/// The sizes of the coefficients, each once, as far as they are tried.
fn distinct<F: Field>(alloc: Global, terms: &BTreeMap<u32, u64>) -> Result<Vec<u64>, AllocError> {
    let mut seen = BTreeSet::new(alloc);
    let mut sizes = Vec::new(alloc);
    for (_, c) in terms {
        let size = (*c).min(of_residue::<F>(*c).neg().residue());
        if sizes.len() < MOST_SCALES && seen.insert(size)? {
            sizes.push(size)?;
        }
    }
    Ok(sizes)
}

/// A form times a scale, over the integers.
pub fn equation_of<F: Field>(
    alloc: Global,
    constant: u64,
    terms: &BTreeMap<u32, u64>,
    scale: F,
) -> Result<Equation, AllocError> {
    let mut equation = Equation::new(alloc);
    equation.add_constant(representative(of_residue::<F>(constant).mul(scale)));
    for (x, c) in terms {
        equation.add(*x, representative(of_residue::<F>(*c).mul(scale)))?;
    }
    Ok(equation)
}
