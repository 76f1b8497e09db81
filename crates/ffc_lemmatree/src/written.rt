//! Polynomials in one variable as a certificate has them.
ghost use Rattle.std.specs.Prelude.{◌≡◌, ◌<◌, ◌≤◌, ◌++◌, ◌∷◌, [], All, IfOk, length, map};
ghost use Rattle.ffc_uni.specs.Univariate.{IsNormal, power_of};
ghost use Rattle.ffc_lemmatree.specs.Written.{appended, written_in, sum_line};

use ffc_cert::{CertLine, Power, Sequence, Term};
use ffc_field::Field;
use ffc_uni::Uni;
use std::alloc::{AllocError, Global};

/// How many coefficients a polynomial has at most that is written.
pub(crate) const MOST_COEFFICIENTS: usize = 256;

/// The residues of elements.
pub(crate) fn residues<F: Field>(alloc: Global, elements: &[F]) -> Result<Vec<u64>, AllocError>
    ensures value { IfOk result (λ r. r.items ≡ map F.value elements.now) }
    ensures below { IfOk result (λ r. All (λ z. z < F.ORDER) (map F.value elements.now)) }
{
    let mut residues = Vec::new(alloc);
    for place in 0..elements.len() {
        residues.push(elements[place].residue())?;
    }
    Ok(residues)
}

/// The coefficients of a polynomial.
pub(crate) fn coefficients<F: Field>(alloc: Global, u: &Uni<F>) -> Result<Vec<u64>, AllocError>
    ensures value { IfOk result (λ r. r.items ≡ u.now) }
    ensures normal { IfOk result (λ r. IsNormal F.ORDER u.now) }
{
    residues(alloc, u.coefs())
}

/// A power of a variable times a monomial that is above it.
fn power_before(
    alloc: Global,
    x: u32,
    exponent: u32,
    last: &[Power],
) -> Result<Sequence<Power>, AllocError>
    ensures { IfOk result (λ m. m ≡ power_of x exponent ++ last.now) }
{
    let mut powers = Vec::new(alloc);
    if exponent > 0 {
        powers.push((x, exponent))?;
    }
    powers.extend_from_slice(last)?;
    Ok(Sequence::from_vec(powers))
}

/// The terms of a polynomial in x, times a monomial that is above it.
fn terms_before(
    alloc: Global,
    x: u32,
    coefficients: &[u64],
    last: &[Power],
) -> Result<Vec<Term>, AllocError>
    requires { length coefficients.now ≤ 256 }
    ensures { IfOk result (λ terms. terms.items ≡ appended last.now (written_in x coefficients.now)) }
{
    let mut terms = Vec::new(alloc);
    for place in 0..coefficients.len() {
        let coefficient = coefficients[place];
        if coefficient != 0 {
            terms.push((coefficient, power_before(alloc, x, place as u32, last)?))?;
        }
    }
    Ok(terms)
}

/// A polynomial in x.
pub(crate) fn polynomial(
    alloc: Global,
    x: u32,
    coefficients: &[u64],
) -> Result<Sequence<Term>, AllocError>
    requires { length coefficients.now ≤ 256 }
    ensures { IfOk result (λ terms. terms ≡ written_in x coefficients.now) }
{
    Ok(Sequence::from_vec(terms_before(alloc, x, coefficients, &[])?))
}

/// A polynomial in x times the variable w.
pub(crate) fn polynomial_times(
    alloc: Global,
    x: u32,
    coefficients: &[u64],
    w: u32,
) -> Result<Sequence<Term>, AllocError>
    requires { length coefficients.now ≤ 256 }
    ensures { IfOk result (λ terms. terms ≡ appended ((w, 1) ∷ []) (written_in x coefficients.now)) }
{
    Ok(Sequence::from_vec(terms_before(alloc, x, coefficients, &[(w, 1)])?))
}

/// A constant.
pub(crate) fn constant(alloc: Global, c: u64) -> Result<Sequence<Term>, AllocError>
    ensures { IfOk result (λ terms. terms ≡ (c, []) ∷ []) }
{
    let mut terms = Vec::new(alloc);
    terms.push((c, Sequence::new(alloc)))?;
    Ok(Sequence::from_vec(terms))
}

/// The sum of two lines, each times a polynomial.
pub(crate) fn sum_line(
    alloc: Global,
    x: u32,
    first: (u32, &[u64]),
    second: (u32, &[u64]),
) -> Result<CertLine, AllocError>
    requires first { length first.1.now ≤ 256 }
    requires second { length second.1.now ≤ 256 }
    ensures { IfOk result
        (λ line. line ≡ sum_line x first.entry.0 first.entry.1.now second.entry.0 second.entry.1.now) }
{
    let mut multiples = Vec::new(alloc);
    multiples.push((first.0, polynomial(alloc, x, first.1)?))?;
    multiples.push((second.0, polynomial(alloc, x, second.1)?))?;
    Ok(CertLine::Combine(Sequence::from_vec(multiples)))
}
