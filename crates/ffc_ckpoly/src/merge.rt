//! Terms in strictly decreasing order, merged.
ghost use Rattle.std.specs.Prelude.{◌≡◌, ◌≢◌, ◌+◌, ◌<◌, [], ◌∷◌, ◌++◌, length, drop, IfOk, OnOk, IsTrue};
ghost use Rattle.ffc_ring.specs.Polynomial.{SamePolynomial, scaled};
ghost use Rattle.ffc_ckpoly.specs.Flat.{HaveMonomials};
ghost use Rattle.ffc_ckpoly.specs.Sorted.{residues, IsSorted, multiplied};

use crate::powers::{Power, compare};
use ffc_field::Field;
use std::alloc::{AllocError, Global};
use std::cmp::Ordering;

/// Appends c times each of the terms, for a constant c other than 0.
fn append_scaled<'a, F: Field>(
    out: &mut Vec<(F, &'a [Power])>,
    c: F,
    terms: &[(F, &'a [Power])],
) -> Result<(), AllocError>
    ensures { OnOk result (residues F.value out.new.items
        ≡ residues F.value out.old.items ++ multiplied F.ORDER (F.value c) (residues F.value terms.now)) }
{
    for term in terms {
        out.push((c.mul(term.0), term.1))?;
    }
    Ok(())
}

/// a + c*b for a constant c other than 0, in one merge: each comparison takes a term off one of both, or off both.
pub fn sum_with<'a, F: Field>(
    alloc: Global,
    a: &[(F, &'a [Power])],
    c: F,
    b: &[(F, &'a [Power])],
) -> Result<Vec<(F, &'a [Power])>, AllocError>
    requires a_is { IsSorted F.ORDER (residues F.value a.now) }
    requires b_is { IsSorted F.ORDER (residues F.value b.now) }
    requires c_is { F.value c ≢ 0 }
    ensures sorted { IfOk result (λ v. IsSorted F.ORDER (residues F.value v.items)) }
    ensures same { IfOk result (λ v. SamePolynomial F.ORDER (residues F.value v.items) (residues F.value a.now
        ++ scaled (F.value c) (residues F.value b.now))) }
{
    let one = F::of(1);
    let mut out = Vec::new(alloc);
    let mut i = 0;
    let mut j = 0;
    while i < a.len() && j < b.len() {
        let s = &a[i];
        let t = &b[j];
        match compare(s.1, t.1) {
            Ordering::Less => {
                out.push((c.mul(t.0), t.1))?;
                j += 1;
            }
            Ordering::Equal => {
                let coefficient = s.0.add(c.mul(t.0));
                if coefficient.residue() != 0 {
                    out.push((coefficient, s.1))?;
                }
                i += 1;
                j += 1;
            }
            Ordering::Greater => {
                out.push((s.0, s.1))?;
                i += 1;
            }
        }
    }
    append_scaled(&mut out, one, &a[i..])?;
    append_scaled(&mut out, c, &b[j..])?;
    Ok(out)
}

/// The list of this term, or none where its coefficient is 0.
fn single<'a, F: Field>(
    alloc: Global,
    term: &(F, &'a [Power]),
) -> Result<Vec<(F, &'a [Power])>, AllocError>
    requires { HaveMonomials (residues F.value (term.now ∷ [])) }
    ensures sorted { IfOk result (λ v. IsSorted F.ORDER (residues F.value v.items)) }
    ensures same { IfOk result (λ v. SamePolynomial F.ORDER (residues F.value v.items)
        (residues F.value (term.now ∷ []))) }
{
    let mut out = Vec::new(alloc);
    if term.0.residue() != 0 {
        out.push((term.0, term.1))?;
    }
    Ok(out)
}

/// Whether the term at a place is other than 0 and above the next one.
fn goes_first<F: Field>(terms: &[(F, &[Power])], place: usize) -> bool
    requires { place < length terms.now }
    ensures { IsTrue result → HaveMonomials (residues F.value terms.now)
        → IsSorted F.ORDER (residues F.value (drop (place + 1) terms.now))
        → IsSorted F.ORDER (residues F.value (drop place terms.now)) }
{
    let term = &terms[place];
    if term.0.residue() == 0 {
        return false;
    }
    if place + 1 == terms.len() {
        return true;
    }
    let next = &terms[place + 1];
    match compare(term.1, next.1) {
        Ordering::Greater => true,
        _ => false,
    }
}

/// Whether terms are in strictly decreasing order already, with coefficients other than 0. It looks at the terms up to the
/// last that is not.
fn is_sorted<F: Field>(terms: &[(F, &[Power])]) -> bool
    requires { HaveMonomials (residues F.value terms.now) }
    ensures { IsTrue result → IsSorted F.ORDER (residues F.value terms.now) }
{
    for place in (0..terms.len()).rev() {
        if !goes_first(terms, place) {
            return false;
        }
    }
    true
}

/// The sum of any terms, merged by halves down to parts that are in order: with n terms it takes at most 2*n comparisons for
/// each halving of n. A multiple of a polynomial has few such parts, since its terms are mostly in the polynomial's order.
pub fn sum_of<'a, F: Field>(
    alloc: Global,
    terms: &[(F, &'a [Power])],
) -> Result<Vec<(F, &'a [Power])>, AllocError>
    requires { HaveMonomials (residues F.value terms.now) }
    ensures sorted { IfOk result (λ v. IsSorted F.ORDER (residues F.value v.items)) }
    ensures same { IfOk result (λ v. SamePolynomial F.ORDER (residues F.value v.items) (residues F.value terms.now)) }
{
    if is_sorted(terms) {
        return Vec::from_slice(alloc, terms);
    }
    match terms {
        [] => Ok(Vec::new(alloc)),
        [term] => single(alloc, term),
        _ => {
            let (front, back) = terms.split_at(terms.len() / 2);
            let front = sum_of(alloc, front)?;
            let back = sum_of(alloc, back)?;
            sum_with(alloc, front.as_slice(), F::of(1), back.as_slice())
        }
    }
}
