//! Polynomials in one variable, and their coefficients from the lowest.
ghost use Rattle.std.specs.Prelude.{◌≡◌, ◌+◌, ◌-◌, ◌^◌, ◌≤◌, ◌<◌, true, false, [], ◌∷◌, ◌++◌, length, map, IfOk, OnOk};
ghost use Rattle.std.specs.Prelude.{IfSome, IfNone};
ghost use Rattle.ffc_ring.specs.Polynomial.{SamePolynomial};
ghost use Rattle.ffc_trees.specs.Normal.{IsNormal, degree_of};
ghost use Rattle.ffc_trees.specs.TreeLines.{is_power, is_in, coefficients_of};
ghost use Rattle.ffc_uni.specs.Univariate.{plus, power_of, terms_in};
ghost use Rattle.ffc_uni.specs.Rows.{shifted};
ghost use Rattle.ffc_ckpoly.specs.Flat.{cut, Parts, HaveMonomials};
ghost use Rattle.ffc_ckpoly.specs.Sorted.{residues, IsSorted};

use crate::buffer::Buffer;
use crate::poly::CkPoly;
use crate::powers::{Power, degree};
use ffc_field::Field;
use std::alloc::{AllocError, Global};

/// Whether a monomial is a power of x.
fn is_power(powers: &[Power], x: u32) -> bool
    ensures { result ≡ is_power x powers.now }
{
    match powers {
        [] => true,
        [power] => power.0 == x,
        _ => false,
    }
}

/// Whether there is no variable but x.
fn are_powers<F: Field>(terms: &[(F, &[Power])], x: u32) -> bool
    ensures { result ≡ is_in x (residues F.value terms.now) }
{
    for term in terms {
        if !is_power(term.1, x) {
            return false;
        }
    }
    true
}

/// Puts a coefficient at its place, with zeros before it.
fn put_at<F: Field>(coefs: &mut Vec<F>, place: u64, coef: F) -> Result<(), AllocError>
    requires { length coefs.old.items ≤ place }
    ensures { OnOk result (map F.value coefs.new.items ≡ plus (shifted place (F.value coef ∷ []))
        (map F.value coefs.old.items)) }
{
    coefs.resize(place as usize, F::of(0))?;
    coefs.push(coef)?;
    Ok(())
}

/// The coefficients of terms in x alone, from the lowest.
fn coefficients_of<F: Field>(
    alloc: Global,
    terms: &[(F, &[Power])],
    x: u32,
) -> Result<Vec<F>, AllocError>
    requires sorted { IsSorted F.ORDER (residues F.value terms.now) }
    requires alone { is_in x (residues F.value terms.now) ≡ true }
    ensures { IfOk result (λ v. map F.value v.items ≡ coefficients_of (residues F.value terms.now)) }
{
    let mut coefs = Vec::new(alloc);
    for place in (0..terms.len()).rev() {
        let term = &terms[place];
        put_at(&mut coefs, degree(term.1), term.0)?;
    }
    Ok(coefs)
}

/// Appends the term of a coefficient and a power of x.
fn push_power<F: Field>(
    buffer: &mut Buffer<F>,
    coef: F,
    x: u32,
    exponent: usize,
) -> Result<(), AllocError>
    requires { Parts 0 buffer.old.marks.items buffer.old.powers.items }
    ensures terms { OnOk result (cut F.value 0 buffer.new.marks.items buffer.new.powers.items
        ≡ cut F.value 0 buffer.old.marks.items buffer.old.powers.items ++ (F.value coef, power_of x exponent) ∷ []) }
    ensures parts { OnOk result (Parts 0 buffer.new.marks.items buffer.new.powers.items) }
    ensures fits { exponent < 2 ^ 64 }
{
    if exponent == 0 {
        buffer.push(coef, &[])
    } else {
        buffer.push(coef, &[(x, exponent as u64)])
    }
}

impl<F: Field> CkPoly<F> {
    /// Its coefficients from the lowest, or `None` where it has another variable than x.
    pub fn coefficients(&self, alloc: Global, x: u32) -> Result<Option<Vec<F>>, AllocError>
        ensures other { IfOk result (λ o. IfNone o (is_in x self.now ≡ false)) }
        ensures alone { IfOk result (λ o. IfSome o (λ v. is_in x self.now ≡ true)) }
        ensures short { IfOk result (λ o. IfSome o (λ v. length v.items ≤ degree_of self.now + 1)) }
        ensures row { IfOk result (λ o. IfSome o (λ v. map F.value v.items ≡ coefficients_of self.now)) }
        ensures normal { IsNormal F.ORDER self.now }
    {
        let _count = self.terms();
        let terms = self.borrowed()?;
        if !are_powers(terms.as_slice(), x) {
            return Ok(None);
        }
        let coefs = coefficients_of(alloc, terms.as_slice(), x)?;
        Ok(Some(coefs))
    }

    /// The polynomial in x with these coefficients from the lowest.
    pub fn from_coefficients(alloc: Global, x: u32, coefs: &[F]) -> Result<Self, AllocError>
        ensures sum { IfOk result (λ r. SamePolynomial F.ORDER r (terms_in x (map F.value coefs.now))) }
        ensures normal { IfOk result (λ r. IsNormal F.ORDER r) }
        ensures low { IfOk result (λ r. degree_of r ≤ length coefs.now - 1) }
    {
        let mut buffer = Buffer::new(alloc);
        for (exponent, coef) in coefs.iter().enumerate() {
            push_power(&mut buffer, *coef, x, exponent)?;
        }
        CkPoly::sum_in(alloc, &buffer)
    }
}
