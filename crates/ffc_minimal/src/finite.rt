//! Variables in which the common zeros of lines are finitely many, by the lines' leading monomials (Cox, Little and O'Shea,
//! chapter 5, section 3, theorem 6).
use ffc_field::Field;
use ffc_line::Line;
use ffc_mono::{MonoOrder, MonoRef};
use ffc_poly::Poly;
use std::alloc::{AllocError, Global};
use std::collections::BTreeMap;

/// The lines are gone through so often at most.
const MOST_PASSES: usize = 64;

/// For each variable the lowest power of it that is a leading monomial.
type Powers = BTreeMap<u32, u32>;

/// The variables of which a power is a leading monomial.
fn leading_powers<F: Field, O: MonoOrder>(
    alloc: Global,
    lines: &[Line<F, O>],
) -> Result<Powers, AllocError> {
    let mut powers = BTreeMap::new(alloc);
    for line in lines {
        if let Some((_, m)) = line.poly.lead() {
            if let [power] = m.pairs() {
                let lowest = powers.get(&power.0).copied().unwrap_or(u32::MAX);
                powers.insert(power.0, power.1.min(lowest))?;
            }
        }
    }
    Ok(powers)
}

/// Whether all variables of a monomial are among these.
fn is_among(m: MonoRef<'_>, powers: &Powers) -> bool {
    for power in m.pairs() {
        if !powers.contains_key(&power.0) {
            return false;
        }
    }
    true
}

/// Whether all variables of a polynomial are among these.
fn are_among<F: Field, O: MonoOrder>(poly: &Poly<F, O>, powers: &Powers) -> bool {
    for (_, m) in poly.iter() {
        if !is_among(m, powers) {
            return false;
        }
    }
    true
}

/// Leaves out the variables of leading monomials of lines that have other variables besides. Whether there were any.
fn leave_out<F: Field, O: MonoOrder>(lines: &[Line<F, O>], powers: &mut Powers) -> bool {
    let mut is_changed = false;
    for line in lines {
        if let Some((_, m)) = line.poly.lead() {
            if is_among(m, powers) && !are_among(&line.poly, powers) {
                for power in m.pairs() {
                    powers.remove(&power.0);
                }
                is_changed = true;
            }
        }
    }
    is_changed
}

/// Variables of which a power each is a leading monomial, where each line whose leading monomial has no other variable has no
/// other one at all; with the lowest such powers. What reduction leaves of a polynomial in these variables is a sum of finitely
/// many monomials, so that powers of each of them depend on lower ones.
pub fn finite_variables<F: Field, O: MonoOrder>(
    alloc: Global,
    lines: &[Line<F, O>],
) -> Result<BTreeMap<u32, u32>, AllocError> {
    let mut powers = leading_powers(alloc, lines)?;
    for _ in 0..MOST_PASSES {
        if !leave_out(lines, &mut powers) {
            return Ok(powers);
        }
    }
    Ok(BTreeMap::new(alloc))
}
