//! Rows of coefficients from the lowest, and their products.
ghost use Rattle.std.specs.Prelude.{◌≡◌, ◌+◌, ◌-◌, ◌^◌, ◌<◌, ◌≤◌, true, [], ◌∷◌, length, map, max, IfOk};
ghost use Rattle.ffc_uni.specs.Univariate.{SameUnivariate, IsNormal, plus, multiple, times, product_of_roots};
ghost use Rattle.ffc_uni.specs.Rows.{shifted};
ghost use Rattle.ffc_trees.specs.TreeLines.{is_same, are_below};

use ffc_field::Field;
use std::alloc::{AllocError, Global};

/// Whether all coefficients are residues.
pub fn are_below(order: u64, coefs: &[u64]) -> bool
    ensures { result ≡ are_below order coefs.now }
{
    for coef in coefs {
        if *coef >= order {
            return false;
        }
    }
    true
}

/// Residues as elements of the field.
pub fn elements<F: Field>(alloc: Global, coefs: &[u64]) -> Result<Vec<F>, AllocError>
    requires { are_below F.ORDER coefs.now ≡ true }
    ensures { IfOk result (λ v. map F.value v.items ≡ coefs.now) }
{
    let mut row = Vec::new(alloc);
    for coef in coefs {
        row.push(F::of(u128::from(*coef)))?;
    }
    Ok(row)
}

/// The row of a polynomial with two coefficients.
pub fn pair<F: Field>(alloc: Global, low: F, high: F) -> Result<Vec<F>, AllocError>
    ensures { IfOk result (λ v. v.items ≡ low ∷ high ∷ []) }
{
    let mut row = Vec::new(alloc);
    row.push(low)?;
    row.push(high)?;
    Ok(row)
}

/// A row up to its last coefficient other than 0.
pub fn without_zeros<F: Field>(row: &[F]) -> &[F]
    ensures within { length result.now ≤ length row.now }
    ensures normal { IsNormal F.ORDER (map F.value result.now) }
    ensures same { SameUnivariate F.ORDER (map F.value result.now) (map F.value row.now) }
{
    for place in (0..row.len()).rev() {
        if row[place].residue() != 0 {
            return &row[..place + 1];
        }
    }
    &row[..0]
}

/// Adds c times a row, in one pass.
fn add_multiple<F: Field>(out: &mut [F], c: F, row: &[F])
    requires { length row.now ≤ length out.old }
    ensures { SameUnivariate F.ORDER (map F.value out.new)
        (plus (map F.value out.old) (multiple (F.value c) (map F.value row.now))) }
{
    for (place, coef) in row.iter().enumerate() {
        out[place] = out[place].add(c.mul(*coef));
    }
}

/// Adds c*X^place times a row.
fn add_shifted<F: Field>(out: &mut [F], place: usize, c: F, row: &[F])
    requires { place + length row.now ≤ length out.old }
    ensures { SameUnivariate F.ORDER (map F.value out.new)
        (plus (map F.value out.old) (shifted place (multiple (F.value c) (map F.value row.now)))) }
{
    add_multiple(&mut out[place..], c, row);
}

/// Adds the product of two rows, one multiple of b for each coefficient of a.
fn add_product<F: Field>(out: &mut [F], a: &[F], b: &[F])
    requires { length a.now + length b.now ≤ length out.old + 1 }
    ensures { SameUnivariate F.ORDER (map F.value out.new)
        (plus (map F.value out.old) (times (map F.value a.now) (map F.value b.now))) }
{
    for (place, coef) in a.iter().enumerate() {
        add_shifted(out, place, *coef, b);
    }
}

/// a*b + rest, in one buffer. It costs the product of the lengths of a and b.
pub fn product_and_rest<F: Field>(
    alloc: Global,
    a: &[F],
    b: &[F],
    rest: &[F],
) -> Result<Vec<F>, AllocError>
    requires { length a.now + length b.now < 2 ^ 64 }
    ensures sum { IfOk result (λ v. SameUnivariate F.ORDER (map F.value v.items)
        (plus (times (map F.value a.now) (map F.value b.now)) (map F.value rest.now))) }
    ensures long { IfOk result (λ v. length v.items ≡ max (length rest.now) (length a.now + length b.now - 1)) }
{
    let mut out = Vec::new(alloc);
    out.extend_from_slice(rest)?;
    let long = (a.len() + b.len()).saturating_sub(1);
    out.resize(rest.len().max(long), F::of(0))?;
    add_product(out.as_mut_slice(), a, b);
    Ok(out)
}

/// a*b, in one buffer.
pub fn product_of<F: Field>(alloc: Global, a: &[F], b: &[F]) -> Result<Vec<F>, AllocError>
    requires { length a.now + length b.now < 2 ^ 64 }
    ensures product { IfOk result (λ v. SameUnivariate F.ORDER (map F.value v.items)
        (times (map F.value a.now) (map F.value b.now))) }
    ensures long { IfOk result (λ v. length v.items ≡ length a.now + length b.now - 1) }
{
    let none = Vec::new(alloc);
    product_and_rest(alloc, a, b, none.as_slice())
}

/// Adds the square of a row. The product of two different coefficients is made once, and added twice.
fn add_square<F: Field>(out: &mut [F], a: &[F])
    requires { length a.now + length a.now ≤ length out.old + 1 }
    ensures { SameUnivariate F.ORDER (map F.value out.new)
        (plus (map F.value out.old) (times (map F.value a.now) (map F.value a.now))) }
{
    for (place, coef) in a.iter().enumerate() {
        add_shifted(out, place + place, *coef, &[*coef]);
        add_shifted(out, place + place + 1, coef.add(*coef), &a[place + 1..]);
    }
}

/// a*a, in one buffer. It costs half of what a product of two rows of this length does.
pub fn square_of<F: Field>(alloc: Global, a: &[F]) -> Result<Vec<F>, AllocError>
    requires { length a.now + length a.now < 2 ^ 64 }
    ensures { IfOk result (λ v. SameUnivariate F.ORDER (map F.value v.items)
        (times (map F.value a.now) (map F.value a.now))) }
{
    let mut out = Vec::new(alloc);
    out.resize((a.len() + a.len()).saturating_sub(1), F::of(0))?;
    add_square(out.as_mut_slice(), a);
    Ok(out)
}

/// Whether all coefficients are 0.
fn are_zero<F: Field>(row: &[F]) -> bool
    ensures { result ≡ is_same F.ORDER [] (map F.value row.now) }
{
    for coef in row {
        if coef.residue() != 0 {
            return false;
        }
    }
    true
}

/// Whether two rows are the same polynomial.
pub fn are_same<F: Field>(a: &[F], b: &[F]) -> bool
    ensures { result ≡ is_same F.ORDER (map F.value a.now) (map F.value b.now) }
{
    let mut left = a;
    let mut right = b;
    while let (Some((x, left_rest)), Some((y, right_rest))) = (
        left.split_first(),
        right.split_first(),
    ) {
        if x.residue() != y.residue() {
            return false;
        }
        left = left_rest;
        right = right_rest;
    }
    are_zero(left) && are_zero(right)
}

/// The product of the X - root for residues. It costs the square of their number.
pub fn root_product<F: Field>(alloc: Global, roots: &[F]) -> Result<Vec<F>, AllocError>
    requires { length roots.now < 2 ^ 63 }
    ensures { IfOk result (λ v. SameUnivariate F.ORDER (map F.value v.items)
        (product_of_roots F.ORDER (map F.value roots.now))) }
{
    let mut product = Vec::new(alloc);
    product.push(F::of(1))?;
    for place in (0..roots.len()).rev() {
        let factor = pair(alloc, roots[place].neg(), F::of(1))?;
        product = product_of(alloc, factor.as_slice(), product.as_slice())?;
    }
    Ok(product)
}
