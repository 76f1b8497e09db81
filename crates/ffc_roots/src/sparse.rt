//! Between polynomials of many variables in which one occurs, and polynomials in one variable.
ghost use Rattle.std.specs.Prelude.{◌≡◌, ◌≤◌, ◌<◌, ◌↔◌, [], ◌∷◌, length, map, IfOk, IfSome, IfNone, OnOk, IsErrOf};
ghost use Rattle.ffc_ring.specs.Polynomial.{SamePolynomial};
ghost use Rattle.ffc_uni.specs.Rows.{shifted};
ghost use Rattle.ffc_uni.specs.Univariate.{SameUnivariate, plus, power_of, terms_in};
ghost use Rattle.ffc_poly.specs.Ordered.{residues};
ghost use Rattle.ffc_roots.specs.Sparse.{IsPowerOf, IsInOne};

use ffc_field::Field;
use ffc_mono::{DEGREE_LIMIT, Mono, MonoOrder, MonoRef, MonoStop};
use ffc_poly::{Poly, PolyStop};
use ffc_uni::Uni;
use std::alloc::{AllocError, Global};

/// How many coefficients a polynomial has at most whose degree is within the limit.
const MOST_COEFFICIENTS: usize = DEGREE_LIMIT as usize + 1;

/// The exponent of a power of a variable.
fn exponent_of(variable: u32, m: MonoRef<'_>) -> Option<u32>
    ensures some { IfSome result (λ k. m.entry.powers.now ≡ power_of variable k) }
    ensures none { IfNone result (IsPowerOf variable m.entry.powers.now → ⊥) }
{
    match m.pairs() {
        [] => Some(0),
        [power] if power.0 == variable => Some(power.1),
        _ => None,
    }
}

/// Adds to the coefficient at a place. A row that is too short is filled up with zeros.
fn add_at<F: Field>(row: &mut Vec<F>, place: u32, c: F) -> Result<(), AllocError>
    ensures { OnOk result (SameUnivariate F.ORDER (map F.value row.new.items)
        (plus (map F.value row.old.items) (shifted place (F.value c ∷ [])))) }
{
    let place = place as usize;
    if place >= row.len() {
        row.resize(place + 1, F::of(0))?;
    }
    row[place] = row[place].add(c);
    Ok(())
}

/// A polynomial in which at most this variable occurs, as one in one variable; `None` where another one occurs. One pass
/// over its terms.
pub fn to_univariate<F: Field, O: MonoOrder>(
    alloc: Global,
    f: &Poly<F, O>,
    variable: u32,
) -> Result<Option<Uni<F>>, AllocError>
    ensures some { IfOk result (λ found. IfSome found (λ u. SamePolynomial F.ORDER (terms_in variable u) f.now)) }
    ensures none { IfOk result (λ found. IfNone found (IsInOne variable f.now → ⊥)) }
{
    let mut row = Vec::new(alloc);
    for i in 0..f.len() {
        let (c, m) = f.term(i);
        let Some(exponent) = exponent_of(variable, m) else {
            return Ok(None);
        };
        add_at(&mut row, exponent, c)?;
    }
    Ok(Some(Uni::from_coefs(alloc, row.as_slice())?))
}

/// A power of a variable.
fn power(alloc: Global, variable: u32, exponent: u32) -> Result<Mono, AllocError>
    requires { exponent ≤ DEGREE_LIMIT }
    ensures { IfOk result (λ m. m ≡ power_of variable exponent) }
{
    let power = if exponent == 0 {
        Mono::from_pairs(alloc, &[])
    } else {
        Mono::from_pairs(alloc, &[(variable, exponent)])
    };
    match power {
        Ok(m) => Ok(m),
        Err(MonoStop::DegreeOver) => unreachable!(),
        Err(MonoStop::Memory) => Err(AllocError),
    }
}

/// The terms of a polynomial in this variable.
fn terms_of<F: Field>(
    alloc: Global,
    coefs: &[F],
    variable: u32,
) -> Result<Vec<(F, Mono)>, AllocError>
    requires { length coefs.now ≤ MOST_COEFFICIENTS }
    ensures { IfOk result (λ v. residues F.value v.items ≡ terms_in variable (map F.value coefs.now)) }
{
    let mut terms = Vec::new(alloc);
    for place in 0..coefs.len() {
        let m = power(alloc, variable, place as u32)?;
        terms.push((coefs[place], m))?;
    }
    Ok(terms)
}

/// A polynomial in one variable, as one of many variables in which this one occurs. It takes as many steps as it has
/// coefficients, for each halving of their number.
pub fn from_univariate<F: Field, O: MonoOrder>(
    alloc: Global,
    u: &Uni<F>,
    variable: u32,
) -> Result<Poly<F, O>, PolyStop>
    ensures same { IfOk result (λ f. SamePolynomial F.ORDER f (terms_in variable u.now)) }
    ensures degree_over { IsErrOf result PolyStop.DegreeOver ↔ (MOST_COEFFICIENTS < length u.now) }
    ensures few { IsErrOf result PolyStop.TermsOver → ⊥ }
{
    let coefs = u.coefs();
    if coefs.len() > MOST_COEFFICIENTS {
        return Err(PolyStop::DegreeOver);
    }
    let terms = terms_of(alloc, coefs, variable)?;
    Poly::from_terms(alloc, &terms)
}
