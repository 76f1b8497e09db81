//! Polynomials as a certificate writes them.
use ffc_cert::{Multiple, Power, Sequence, Term};
use ffc_field::Field;
use ffc_mono::{MonoOrder, MonoRef};
use ffc_poly::Poly;
use ffc_uni::Uni;
use std::alloc::{AllocError, Global};

/// A monomial.
fn monomial(alloc: Global, m: MonoRef<'_>) -> Result<Sequence<Power>, AllocError> {
    let mut powers = Vec::new(alloc);
    powers.extend_from_slice(m.pairs())?;
    Ok(Sequence::from_vec(powers))
}

/// The terms of a polynomial.
pub fn terms_of<F: Field, O: MonoOrder>(
    alloc: Global,
    poly: &Poly<F, O>,
) -> Result<Sequence<Term>, AllocError> {
    let mut terms = Vec::new(alloc);
    for i in 0..poly.len() {
        let (c, m) = poly.term(i);
        terms.push((c.residue(), monomial(alloc, m)?))?;
    }
    Ok(Sequence::from_vec(terms))
}

/// The power of a variable. A power that a line cannot have is left out.
fn power(alloc: Global, x: u32, exponent: usize) -> Result<Sequence<Power>, AllocError> {
    let mut powers = Vec::new(alloc);
    match u32::try_from(exponent) {
        Ok(0) => {}
        Ok(e) => powers.push((x, e))?,
        Err(_) => {}
    }
    Ok(Sequence::from_vec(powers))
}

/// The terms of a polynomial in x.
pub fn terms_in<F: Field>(alloc: Global, u: &Uni<F>, x: u32) -> Result<Sequence<Term>, AllocError> {
    let mut terms = Vec::new(alloc);
    for (exponent, c) in u.coefs().iter().enumerate() {
        if c.residue() != 0 {
            terms.push((c.residue(), power(alloc, x, exponent)?))?;
        }
    }
    Ok(Sequence::from_vec(terms))
}

/// A constant times a line.
pub fn scaled_line<F: Field>(alloc: Global, number: u32, c: F) -> Result<Multiple, AllocError> {
    let mut terms = Vec::new(alloc);
    terms.push((c.residue(), Sequence::new(alloc)))?;
    Ok((number, Sequence::from_vec(terms)))
}

/// Residues of coefficients or roots.
pub fn residues<F: Field>(alloc: Global, elements: &[F]) -> Result<Sequence<u64>, AllocError> {
    let mut residues = Vec::new(alloc);
    for element in elements {
        residues.push(element.residue())?;
    }
    Ok(Sequence::from_vec(residues))
}
