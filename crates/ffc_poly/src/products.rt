//! Products of terms in strictly decreasing order.
ghost use Rattle.std.specs.Prelude.{◌≡◌, ◌≢◌, ◌+◌, ◌<◌, ◌≤◌, ◌↔◌, [], ◌∷◌, length, false, slice_range, IsTrue, IfOk};
ghost use Rattle.ffc_ring.specs.Polynomial.{SamePolynomial, term_product, product, PassesDegree};
ghost use Rattle.ffc_poly.specs.Ordered.{IsOrdered, AreWithin, HasDegree, RowFits, ProductFits, times};

use crate::sums::add_scaled;
use crate::terms::TermList;
use ffc_field::Field;
use ffc_mono::{DEGREE_LIMIT, MonoOrder, MonoRef};
use std::alloc::{AllocError, Global};

/// c*m times each of the terms, in one pass. The order stays, since products keep it.
pub fn times_term<F: Field>(
    alloc: Global,
    c: F,
    m: MonoRef<'_>,
    terms: &TermList<F>,
) -> Result<TermList<F>, AllocError>
    requires { RowFits DEGREE_LIMIT m.powers.now terms.now }
    ensures { IfOk result (λ v. v ≡ times F.ORDER (F.value c) m.entry.powers.now terms.now) }
{
    let mut out = TermList::new(alloc);
    for i in 0..terms.len() {
        let (t, n) = terms.get(i);
        out.push_product(c.mul(t), m, n)?;
    }
    Ok(out)
}

/// The terms of c*m times an ordered list, for a constant c other than 0.
pub fn multiply_terms<F: Field, O: MonoOrder>(
    alloc: Global,
    c: F,
    m: MonoRef<'_>,
    terms: &TermList<F>,
) -> Result<TermList<F>, AllocError>
    requires terms_are { IsOrdered F.ORDER O.cmp DEGREE_LIMIT terms.now }
    requires c_is { F.value c ≢ 0 }
    requires fits { RowFits DEGREE_LIMIT m.powers.now terms.now }
    ensures ordered { IfOk result (λ v. IsOrdered F.ORDER O.cmp DEGREE_LIMIT v) }
    ensures same { IfOk result
        (λ v. SamePolynomial F.ORDER v (term_product (F.value c) m.entry.powers.now terms.now)) }
    ensures length { IfOk result (λ v. length v ≡ length terms.now) }
{
    times_term(alloc, c, m, terms)
}

/// The product of the terms of a from one place to another and b: the rows, which are b times each of these terms, are
/// merged by halves. With n of them and m terms in b it takes at most n*m comparisons for each halving of n, and holds
/// at most 2*n*m terms.
pub fn product_of<F: Field, O: MonoOrder>(
    alloc: Global,
    a: &TermList<F>,
    from: usize,
    to: usize,
    b: &TermList<F>,
) -> Result<TermList<F>, AllocError>
    requires between { from ≤ to }
    requires within { to ≤ length a.now }
    requires a_is { IsOrdered F.ORDER O.cmp DEGREE_LIMIT a.now }
    requires b_is { IsOrdered F.ORDER O.cmp DEGREE_LIMIT b.now }
    requires fits { ProductFits DEGREE_LIMIT a.now b.now }
    ensures ordered { IfOk result (λ v. IsOrdered F.ORDER O.cmp DEGREE_LIMIT v) }
    ensures same { IfOk result (λ v. SamePolynomial F.ORDER v (product (slice_range a.now from to) b.now)) }
{
    let count = to - from;
    if count == 0 {
        return Ok(TermList::new(alloc));
    }
    if count == 1 {
        let (c, m) = a.get(from);
        return multiply_terms::<F, O>(alloc, c, m, b);
    }
    let mid = from + count / 2;
    let front = product_of::<F, O>(alloc, a, from, mid, b)?;
    let back = product_of::<F, O>(alloc, a, mid, to, b)?;
    add_scaled::<F, O>(alloc, &front, F::of(1), &back)
}

/// The product a*b, in rows of the longer factor.
pub fn product<F: Field, O: MonoOrder>(
    alloc: Global,
    a: &TermList<F>,
    b: &TermList<F>,
) -> Result<TermList<F>, AllocError>
    requires a_is { IsOrdered F.ORDER O.cmp DEGREE_LIMIT a.now }
    requires b_is { IsOrdered F.ORDER O.cmp DEGREE_LIMIT b.now }
    requires fits { ProductFits DEGREE_LIMIT a.now b.now }
    ensures ordered { IfOk result (λ v. IsOrdered F.ORDER O.cmp DEGREE_LIMIT v) }
    ensures same { IfOk result (λ v. SamePolynomial F.ORDER v (product a.now b.now)) }
{
    if a.len() <= b.len() {
        product_of::<F, O>(alloc, a, 0, a.len(), b)
    } else {
        product_of::<F, O>(alloc, b, 0, b.len(), a)
    }
}

/// The greatest total degree of a term, and 0 where there is none.
fn greatest_degree<F: Field>(terms: &TermList<F>) -> u32
    ensures within { AreWithin result terms.now }
    ensures reached { 0 < result → HasDegree result terms.now }
    ensures limit { result ≤ DEGREE_LIMIT }
{
    let mut greatest = 0;
    for i in 0..terms.len() {
        greatest = terms.get(i).1.degree().max(greatest);
    }
    greatest
}

/// Whether some term of c*m times an ordered list passes the limit on degrees, for a constant c other than 0.
pub fn multiple_passes_degree<F: Field, O: MonoOrder>(
    c: F,
    m: MonoRef<'_>,
    terms: &TermList<F>,
) -> bool
    requires terms_are { IsOrdered F.ORDER O.cmp DEGREE_LIMIT terms.now }
    requires c_is { F.value c ≢ 0 }
    ensures passes { IsTrue result ↔ PassesDegree F.ORDER DEGREE_LIMIT ((F.value c, m.entry.powers.now) ∷ [])
        terms.now }
    ensures fits { result ≡ false → RowFits DEGREE_LIMIT m.entry.powers.now terms.now }
{
    m.degree() + greatest_degree(terms) > DEGREE_LIMIT
}

/// Whether the product of some term of a and some term of b passes the limit on degrees.
pub fn product_passes_degree<F: Field, O: MonoOrder>(a: &TermList<F>, b: &TermList<F>) -> bool
    requires a_is { IsOrdered F.ORDER O.cmp DEGREE_LIMIT a.now }
    requires b_is { IsOrdered F.ORDER O.cmp DEGREE_LIMIT b.now }
    ensures passes { IsTrue result ↔ PassesDegree F.ORDER DEGREE_LIMIT a.now b.now }
    ensures fits { result ≡ false → ProductFits DEGREE_LIMIT a.now b.now }
{
    greatest_degree(a) + greatest_degree(b) > DEGREE_LIMIT
}
