//! Values that follow from those of some variables, by generators that have one variable without a value.
use crate::differences::Differences;
use crate::points::{set_coordinate, zero_at};
use ffc_field::Field;
use ffc_line::Line;
use ffc_mono::{MonoOrder, MonoRef};
use ffc_poly::Poly;
use std::alloc::{AllocError, Global};
use std::collections::BTreeMap;

/// The generators are gone through so often at most.
const MOST_PASSES: usize = 64;

/// The values of variables: residues, since a map of elements would be made anew for each field.
type Known = BTreeMap<u32, u64>;

/// A monomial times a coefficient, where its variables have values, with the only one that has none, if that is no power.
fn value_of<F: Field>(c: F, m: MonoRef<'_>, known: &Known) -> Option<(F, Option<u32>)> {
    let mut value = c;
    let mut open = None;
    for power in m.pairs() {
        match known.get(&power.0) {
            Some(residue) => {
                let root = F::of(u128::from(*residue));
                for _ in 0..power.1 {
                    value = value.mul(root);
                }
            }
            None => {
                if power.1 > 1 || open.is_some() {
                    return None;
                }
                open = Some(power.0);
            }
        }
    }
    Some((value, open))
}

/// The only variable of a polynomial without a value, and the value with which it is 0.
fn root_of<F: Field, O: MonoOrder>(poly: &Poly<F, O>, known: &Known) -> Option<(u32, F)> {
    let mut rest = F::of(0);
    let mut slope = F::of(0);
    let mut variable = None;
    for (c, m) in poly.iter() {
        let (value, open) = value_of(c, m, known)?;
        if open.is_none() {
            rest = rest.add(value);
            continue;
        }
        if variable.is_some() && variable != open {
            return None;
        }
        variable = open;
        slope = slope.add(value);
    }
    Some((variable?, rest.neg().mul(slope.inv()?)))
}

/// Adds the values that follow, and says whether there were any.
fn follow<F: Field, O: MonoOrder>(
    lines: &[Line<F, O>],
    known: &mut Known,
) -> Result<bool, AllocError> {
    let mut is_new = false;
    for line in lines {
        if line.parts.is_empty() {
            if let Some((x, value)) = root_of(&line.poly, known) {
                known.insert(x, value.residue())?;
                is_new = true;
            }
        }
    }
    Ok(is_new)
}

/// The first variable of a generator that has no value.
fn first_open<F: Field, O: MonoOrder>(lines: &[Line<F, O>], known: &Known) -> Option<u32> {
    for line in lines {
        if line.parts.is_empty() {
            for (_, m) in line.poly.iter() {
                for power in m.pairs() {
                    if !known.contains_key(&power.0) {
                        return Some(power.0);
                    }
                }
            }
        }
    }
    None
}

/// The values that follow from those of some bits, where each further variable that is free is 1, if these are a common zero of
/// the generators.
pub fn zero_from<F: Field, O: MonoOrder>(
    alloc: Global,
    lines: &[Line<F, O>],
    vars: &[u32],
    bits: &[(u32, bool)],
    differences: &Differences<F, O>,
) -> Result<Option<Vec<F>>, AllocError> {
    let mut known = BTreeMap::new(alloc);
    for (x, is_one) in bits {
        known.insert(*x, u64::from(*is_one))?;
    }
    for _ in 0..MOST_PASSES {
        if !follow(lines, &mut known)? {
            let Some(x) = first_open(lines, &known) else {
                break;
            };
            known.insert(x, 1)?;
        }
    }
    let mut point = Vec::new(alloc);
    for (x, value) in known.iter() {
        set_coordinate(&mut point, *x, F::of(u128::from(*value)))?;
    }
    zero_at(alloc, lines, vars, point, differences)
}
