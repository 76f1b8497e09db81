//! Sums of terms in strictly decreasing order.
ghost use Rattle.std.specs.Prelude.{◌≡◌, ◌≢◌, ◌≤◌, [], ◌++◌, length, drop, IfOk};
ghost use Rattle.ffc_ring.specs.Monomial.{IsMonomial, degree};
ghost use Rattle.ffc_ring.specs.Polynomial.{SamePolynomial, scaled};
ghost use Rattle.ffc_poly.specs.Ordered.{residues, IsOrdered, kept};

use crate::terms::TermList;
use ffc_field::Field;
use ffc_mono::{DEGREE_LIMIT, Mono, MonoOrder};
use std::alloc::{AllocError, Global};
use std::cmp::Ordering;

/// a + c*b for a constant c other than 0, in one merge: each comparison takes a term off one of both, or off both.
pub fn add_scaled<F: Field, O: MonoOrder>(
    alloc: Global,
    a: &TermList<F>,
    c: F,
    b: &TermList<F>,
) -> Result<TermList<F>, AllocError>
    requires a_is { IsOrdered F.ORDER O.cmp DEGREE_LIMIT a.now }
    requires b_is { IsOrdered F.ORDER O.cmp DEGREE_LIMIT b.now }
    requires c_is { F.value c ≢ 0 }
    ensures ordered { IfOk result (λ v. IsOrdered F.ORDER O.cmp DEGREE_LIMIT v) }
    ensures same { IfOk result (λ v. SamePolynomial F.ORDER v (a.now ++ scaled (F.value c) b.now)) }
{
    add_scaled_from::<F, O>(alloc, a, 0, c, b, 0)
}

/// The same for the terms of both from a place on.
pub fn add_scaled_from<F: Field, O: MonoOrder>(
    alloc: Global,
    a: &TermList<F>,
    from_a: usize,
    c: F,
    b: &TermList<F>,
    from_b: usize,
) -> Result<TermList<F>, AllocError>
    requires in_a { from_a ≤ length a.now }
    requires in_b { from_b ≤ length b.now }
    requires a_is { IsOrdered F.ORDER O.cmp DEGREE_LIMIT (drop from_a a.now) }
    requires b_is { IsOrdered F.ORDER O.cmp DEGREE_LIMIT (drop from_b b.now) }
    requires c_is { F.value c ≢ 0 }
    ensures ordered { IfOk result (λ v. IsOrdered F.ORDER O.cmp DEGREE_LIMIT v) }
    ensures same { IfOk result
        (λ v. SamePolynomial F.ORDER v (drop from_a a.now ++ scaled (F.value c) (drop from_b b.now))) }
{
    let mut out = TermList::new(alloc);
    let mut i = from_a;
    let mut j = from_b;
    while i < a.len() && j < b.len() {
        let (s, m) = a.get(i);
        let (t, n) = b.get(j);
        match O::compare_borrowed(m, n) {
            Ordering::Less => {
                out.push(c.mul(t), n)?;
                j += 1;
            }
            Ordering::Equal => {
                let sum = s.add_scaled(c, t);
                if sum.residue() != 0 {
                    out.push(sum, m)?;
                }
                i += 1;
                j += 1;
            }
            Ordering::Greater => {
                out.push(s, m)?;
                i += 1;
            }
        }
    }
    out.extend_from(a, i, a.len())?;
    out.extend_multiple(c, b, j, b.len())?;
    Ok(out)
}

/// The terms of c times an ordered list, for a constant c other than 0.
pub fn scale_terms<F: Field, O: MonoOrder>(
    alloc: Global,
    c: F,
    terms: &TermList<F>,
) -> Result<TermList<F>, AllocError>
    requires terms_are { IsOrdered F.ORDER O.cmp DEGREE_LIMIT terms.now }
    requires c_is { F.value c ≢ 0 }
    ensures ordered { IfOk result (λ v. IsOrdered F.ORDER O.cmp DEGREE_LIMIT v) }
    ensures same { IfOk result (λ v. SamePolynomial F.ORDER v (scaled (F.value c) terms.now)) }
    ensures length { IfOk result (λ v. length v ≡ length terms.now) }
{
    let mut out = TermList::new(alloc);
    out.extend_multiple(c, terms, 0, terms.len())?;
    Ok(out)
}

/// The sum of any terms, merged by halves. With n terms it takes at most n comparisons for each halving of n.
pub fn sum_of<F: Field, O: MonoOrder>(
    alloc: Global,
    terms: &[(F, Mono)],
) -> Result<TermList<F>, AllocError>
    ensures ordered { IfOk result (λ v. IsOrdered F.ORDER O.cmp DEGREE_LIMIT v) }
    ensures same { IfOk result (λ v. SamePolynomial F.ORDER v (residues F.value terms.now)) }
{
    match terms {
        [] => Ok(TermList::new(alloc)),
        [term] => single(alloc, term),
        _ => {
            let (front, back) = terms.split_at(terms.len() / 2);
            let front = sum_of::<F, O>(alloc, front)?;
            let back = sum_of::<F, O>(alloc, back)?;
            add_scaled::<F, O>(alloc, &front, F::of(1), &back)
        }
    }
}

/// The list of this term, or none where its coefficient is 0.
fn single<F: Field>(alloc: Global, term: &(F, Mono)) -> Result<TermList<F>, AllocError>
    ensures monomial { IsMonomial term.now.1 }
    ensures degree { degree term.now.1 ≤ DEGREE_LIMIT }
    ensures terms { IfOk result (λ v. v ≡ kept (F.value term.now.0) term.now.1 []) }
{
    let mut out = TermList::new(alloc);
    let _degree = term.1.degree();
    if term.0.residue() != 0 {
        out.push(term.0, term.1.as_ref())?;
    }
    Ok(out)
}
