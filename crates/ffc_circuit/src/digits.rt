//! Weighted sums of bits, and the digits that they have.
use crate::forward::{Values, partial};
use crate::generators::Generator;
use ffc_field::Field;
use std::alloc::{AllocError, Global};
use std::collections::BTreeSet;

/// The variable of a polynomial that says of it that it is a bit: x^2 - x or a multiple.
fn bit_of<F: Field>(poly: &Generator<F>) -> Option<u32> {
    if poly.len() != 2 {
        return None;
    }
    let mut sum = F::of(0);
    let mut square = None;
    let mut single = None;
    for (c, m) in poly.iter() {
        sum = sum.add(c);
        if let [power] = m.pairs() {
            let (x, exponent) = *power;
            if exponent == 2 {
                square = Some(x);
            } else if exponent == 1 {
                single = Some(x);
            }
        }
    }
    if sum.residue() == 0 && square == single {
        square
    } else {
        None
    }
}

/// The variables that are bits by one of these polynomials.
pub fn bits_of<F: Field>(
    alloc: Global,
    polys: &[&Generator<F>],
) -> Result<BTreeSet<u32>, AllocError> {
    let mut bits = BTreeSet::new(alloc);
    for poly in polys {
        if let Some(x) = bit_of(poly) {
            bits.insert(x)?;
        }
    }
    Ok(bits)
}

/// A weighted sum of bits: the weights with their bits, and what the sum is, as numbers below the order.
#[derive(Drop)]
struct WeightedSum {
    weights: Vec<(u64, u32)>,
    total: u64,
}

/// A polynomial that is 0 as a weighted sum of bits without values, with the sign for which the greatest weight is less. None
/// where it has another variable without a value.
fn weighted_sum<F: Field>(
    alloc: Global,
    values: &Values,
    bits: &BTreeSet<u32>,
    poly: &Generator<F>,
) -> Result<Option<WeightedSum>, AllocError> {
    let mut rest = F::of(0);
    let mut weights = Vec::new(alloc);
    let mut negated = Vec::new(alloc);
    let (mut most, mut most_negated) = (0, 0);
    for (c, m) in poly.iter() {
        match partial(values, c, m) {
            (product, None) => rest = rest.add(product),
            (product, Some((x, 1))) if bits.contains(&x) => {
                weights.push((product.residue(), x))?;
                negated.push((product.neg().residue(), x))?;
                most = product.residue().max(most);
                most_negated = product.neg().residue().max(most_negated);
            }
            _ => return Ok(None),
        }
    }
    Ok(Some(if most <= most_negated {
        WeightedSum {
            weights,
            total: rest.neg().residue(),
        }
    } else {
        WeightedSum {
            weights: negated,
            total: rest.residue(),
        }
    }))
}

/// Bits with values with which a polynomial is 0, where it is a weighted sum of bits: from the greatest weight on each is 1
/// where its weight is within what is left. These are the digits where the weights are the powers of two.
pub fn digits_of<F: Field>(
    alloc: Global,
    values: &Values,
    bits: &BTreeSet<u32>,
    poly: &Generator<F>,
) -> Result<Option<Vec<(u32, u8)>>, AllocError> {
    let Some(sum) = weighted_sum(alloc, values, bits, poly)? else {
        return Ok(None);
    };
    let WeightedSum {
        mut weights,
        mut total,
    } = sum;
    weights.sort_unstable();
    let mut digits = Vec::new(alloc);
    for (weight, x) in weights.iter().rev() {
        let fits = *weight <= total;
        if fits {
            total -= *weight;
        }
        digits.push((*x, u8::from(fits)))?;
    }
    Ok(if total == 0 { Some(digits) } else { None })
}
