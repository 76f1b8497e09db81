//! Rows: slices of coefficients from the lowest.
ghost use Rattle.std.specs.Prelude.{◌≡◌, ℕ, ◌+◌, ◌-◌, ◌*◌, ◌%◌, ◌<◌, ◌≤◌, [], ◌∷◌, ◌++◌, length, map, max, min, take};
ghost use Rattle.std.specs.Prelude.{IfOk, OnOk};
ghost use Rattle.ffc_field.specs.Modular.{mul_mod};
ghost use Rattle.ffc_uni.specs.Univariate.{SameUnivariate, IsNormal, coefficient_at, plus, multiple, times};
ghost use Rattle.ffc_uni.specs.Univariate.{product_of_roots, value_of};
ghost use Rattle.ffc_uni.specs.Rows.{leading};

use crate::coefficient::{coefficient, coefficient_from, coefficient_of_square};
use ffc_field::Field;
use std::alloc::{AllocError, Global};

/// How many coefficients come before the zeros at the end.
pub fn length_without_zeros<F: Field>(row: &[F]) -> usize
    ensures within { result ≤ length row.now }
    ensures normal { IsNormal F.ORDER (map F.value (take result row.now)) }
    ensures same { SameUnivariate F.ORDER (map F.value (take result row.now)) (map F.value row.now) }
{
    for place in (0..row.len()).rev() {
        if row[place].residue() != 0 {
            return place + 1;
        }
    }
    0
}

/// The value at x, by Horner's rule.
pub fn value_at<F: Field>(row: &[F], x: F) -> F
    ensures { F.value result ≡ value_of F.ORDER (F.value x) (map F.value row.now) }
{
    let mut value = F::of(0);
    for place in (0..row.len()).rev() {
        value = row[place].add_scaled(x, value);
    }
    value
}

/// Adds c times a row, in one pass.
fn add_multiple<F: Field>(out: &mut [F], c: F, row: &[F])
    requires { length row.now ≤ length out.old }
    ensures { SameUnivariate F.ORDER (map F.value out.new)
        (plus (map F.value out.old) (multiple (F.value c) (map F.value row.now))) }
{
    for (place, coef) in row.iter().enumerate() {
        out[place] = out[place].add_scaled(c, *coef);
    }
}

/// a + c*b for a constant c, in one buffer.
pub fn sum<F: Field>(alloc: Global, a: &[F], c: F, b: &[F]) -> Result<Vec<F>, AllocError>
    ensures same { IfOk result (λ v. SameUnivariate F.ORDER (map F.value v.items)
        (plus (map F.value a.now) (multiple (F.value c) (map F.value b.now)))) }
    ensures long { IfOk result (λ v. length v.items ≡ max (length a.now) (length b.now)) }
{
    let mut out = Vec::new(alloc);
    out.extend_from_slice(a)?;
    out.resize(a.len().max(b.len()), F::of(0))?;
    add_multiple(out.as_mut_slice(), c, b);
    Ok(out)
}

/// Appends the coefficients of the product of two rows to an empty one.
fn append_product<F: Field>(
    out: &mut Vec<F>,
    a: &[F],
    b: &[F],
    count: usize,
) -> Result<(), AllocError>
    requires empty { out.old.items ≡ [] }
    requires some { 1 ≤ length b.now }
    requires all { count ≡ length a.now + (length b.now - 1) }
    ensures product { OnOk result (SameUnivariate F.ORDER (map F.value out.new.items)
        (times (map F.value a.now) (map F.value b.now))) }
    ensures long { OnOk result (length out.new.items ≡ count) }
{
    for place in 0..count {
        let next = coefficient(a, b, place);
        out.push(next)?;
    }
    Ok(())
}

/// The product, in place of what the buffer had: each pair of coefficients is multiplied once, and each coefficient of the
/// product is reduced once.
pub fn multiply_into<F: Field>(out: &mut Vec<F>, a: &[F], b: &[F]) -> Result<(), AllocError>
    ensures product { OnOk result (SameUnivariate F.ORDER (map F.value out.new.items)
        (times (map F.value a.now) (map F.value b.now))) }
    ensures short { OnOk result (length out.new.items ≤ length a.now + (length b.now - 1)) }
{
    out.clear();
    if b.is_empty() {
        return Ok(());
    }
    match a.len().checked_add(b.len() - 1) {
        Some(count) => append_product(out, a, b, count),
        None => Err(AllocError),
    }
}

/// Appends the coefficients of the square of a row to an empty one.
fn append_square<F: Field>(out: &mut Vec<F>, a: &[F], count: usize) -> Result<(), AllocError>
    requires empty { out.old.items ≡ [] }
    requires some { 1 ≤ length a.now }
    requires all { count ≡ length a.now + (length a.now - 1) }
    ensures square { OnOk result (SameUnivariate F.ORDER (map F.value out.new.items)
        (times (map F.value a.now) (map F.value a.now))) }
    ensures long { OnOk result (length out.new.items ≡ count) }
{
    for place in 0..count {
        let next = coefficient_of_square(a, place);
        out.push(next)?;
    }
    Ok(())
}

/// The square, in place of what the buffer had, with half as many products.
pub fn square_into<F: Field>(out: &mut Vec<F>, a: &[F]) -> Result<(), AllocError>
    ensures square { OnOk result (SameUnivariate F.ORDER (map F.value out.new.items)
        (times (map F.value a.now) (map F.value a.now))) }
    ensures short { OnOk result (length out.new.items ≤ length a.now + (length a.now - 1)) }
{
    out.clear();
    if a.is_empty() {
        return Ok(());
    }
    match a.len().checked_add(a.len() - 1) {
        Some(count) => append_square(out, a, count),
        None => Err(AllocError),
    }
}

/// Multiplies by X - root in one pass, and answers the leading coefficient, for which there is no place.
fn times_root<F: Field>(out: &mut [F], root: F) -> F
    ensures { SameUnivariate F.ORDER (map F.value out.new ++ F.value result ∷ [])
        (times ((F.ORDER - F.value root) ∷ 1 ∷ []) (map F.value out.old)) }
{
    let scale = root.neg();
    let mut below = F::of(0);
    for place in 0..out.len() {
        let coef = out[place];
        out[place] = below.add_scaled(scale, coef);
        below = coef;
    }
    below
}

/// The product of the X - root, in one buffer.
pub fn root_product<F: Field>(alloc: Global, roots: &[F]) -> Result<Vec<F>, AllocError>
    ensures product { IfOk result (λ v. SameUnivariate F.ORDER (map F.value v.items)
        (product_of_roots F.ORDER (map F.value roots.now))) }
    ensures long { IfOk result (λ v. length v.items ≡ length roots.now + 1) }
{
    let mut out = Vec::new(alloc);
    out.push(F::of(1))?;
    for place in (0..roots.len()).rev() {
        let top = times_root(out.as_mut_slice(), roots[place]);
        out.push(top)?;
    }
    Ok(out)
}

/// The inverse of the leading coefficient.
pub fn leading_inverse<F: Field>(row: &[F]) -> F
    requires normal { IsNormal F.ORDER (map F.value row.now) }
    requires nonzero { 1 ≤ length row.now }
    ensures { mul_mod F.ORDER (leading (map F.value row.now)) (F.value result) ≡ 1 }
{
    match row[row.len() - 1].inv() {
        Some(inverse) => inverse,
        None => unreachable!(),
    }
}

/// The quotient, from the highest coefficient on.
fn quotient<F: Field>(alloc: Global, row: &[F], by: &[F], inverse: F) -> Result<Vec<F>, AllocError>
    requires nonzero { 1 ≤ length by.now }
    requires inverse { mul_mod F.ORDER (leading (map F.value by.now)) (F.value inverse) ≡ 1 }
    ensures long { IfOk result (λ q. length q.items ≡ length row.now - (length by.now - 1)) }
    ensures cancels { IfOk result (λ q. (k : ℕ) → length by.now ≤ k + 1
        → coefficient_at (times (map F.value q.items) (map F.value by.now)) k % F.ORDER
        ≡ coefficient_at (map F.value row.now) k % F.ORDER) }
{
    let degree = by.len() - 1;
    let places = row.len().saturating_sub(degree);
    let mut quotient = Vec::new(alloc);
    quotient.resize(places, F::of(0))?;
    for place in (0..places).rev() {
        let above = coefficient_from(quotient.as_slice(), by, place + 1, place + degree);
        let top = row[place + degree].sub(above);
        quotient[place] = top.mul(inverse);
    }
    Ok(quotient)
}

/// The remainder, with the quotient at hand.
fn remainder<F: Field>(
    alloc: Global,
    row: &[F],
    by: &[F],
    quotient: &[F],
) -> Result<Vec<F>, AllocError>
    requires nonzero { 1 ≤ length by.now }
    ensures long { IfOk result (λ r. length r.items ≡ min (length row.now) (length by.now - 1)) }
    ensures left { IfOk result (λ r. (k : ℕ) → k < length r.items
        → (coefficient_at (times (map F.value quotient.now) (map F.value by.now)) k
        + coefficient_at (map F.value r.items) k) % F.ORDER ≡ coefficient_at (map F.value row.now) k % F.ORDER) }
{
    let mut out = Vec::new(alloc);
    for place in 0..row.len().min(by.len() - 1) {
        let product = coefficient(quotient, by, place);
        let left = row[place].sub(product);
        out.push(left)?;
    }
    Ok(out)
}

/// Quotient and remainder, by long division. Each coefficient of both is a sum of products that is reduced once.
pub fn quotient_and_remainder<F: Field>(
    alloc: Global,
    row: &[F],
    by: &[F],
    inverse: F,
) -> Result<(Vec<F>, Vec<F>), AllocError>
    requires nonzero { 1 ≤ length by.now }
    requires inverse { mul_mod F.ORDER (leading (map F.value by.now)) (F.value inverse) ≡ 1 }
    ensures division { IfOk result (λ d. SameUnivariate F.ORDER (map F.value row.now)
        (plus (times (map F.value d.0.items) (map F.value by.now)) (map F.value d.1.items))) }
    ensures lower { IfOk result (λ d. length d.1.items < length by.now) }
    ensures short { IfOk result (λ d. length d.0.items ≡ length row.now - (length by.now - 1)) }
{
    let quotient = quotient(alloc, row, by, inverse)?;
    let remainder = remainder(alloc, row, by, quotient.as_slice())?;
    Ok((quotient, remainder))
}
