//! Whether a polynomial is a sum of multiples of lines. The multiples that were found on the way to a minimal polynomial are
//! tested once they are whole: that costs about what finding them does.
ghost use Rattle.std.specs.Prelude.{◌≡◌, ◌<◌, [], ◌++◌, length, get_or, IfOk, IfSome, IsTrue};
ghost use Rattle.ffc_ring.specs.Polynomial.{SamePolynomial, product};
ghost use Rattle.ffc_uni.specs.Univariate.{terms_in};
ghost use Rattle.ffc_line.specs.Lines.{polys_of, combination, AreBefore};

use ffc_field::Field;
use ffc_line::{Line, LineId};
use ffc_mono::MonoOrder;
use ffc_poly::{Poly, PolyStop};
use ffc_roots::from_univariate;
use ffc_uni::Uni;
use std::alloc::{AllocError, Global};

/// A sum and a product, if they are within the limits of polynomials.
fn plus_product<F: Field, O: MonoOrder>(
    sum: &Poly<F, O>,
    a: &Poly<F, O>,
    b: &Poly<F, O>,
) -> Result<Option<Poly<F, O>>, AllocError>
    ensures { IfOk result (λ o. IfSome o (λ r. SamePolynomial F.ORDER r (sum.now ++ product a.now b.now))) }
{
    let product = match a.mul(b) {
        Ok(product) => product,
        Err(PolyStop::Memory) => return Err(AllocError),
        Err(_) => return Ok(None),
    };
    match sum.add(&product) {
        Ok(whole) => Ok(Some(whole)),
        Err(PolyStop::Memory) => Err(AllocError),
        Err(_) => Ok(None),
    }
}

/// The sum of the parts' multiples of the lines, if these exist and it is within the limits of polynomials.
fn sum_of<F: Field, O: MonoOrder>(
    alloc: Global,
    lines: &[Line<F, O>],
    parts: &[(LineId, Poly<F, O>)],
) -> Result<Option<Poly<F, O>>, AllocError>
    ensures sum { IfOk result (λ o. IfSome o (λ r. SamePolynomial F.ORDER r (combination (polys_of lines.now) parts.now))) }
    ensures lines_exist { IfOk result (λ o. IfSome o (λ r. AreBefore (length lines.now) parts.now)) }
{
    let mut sum = Poly::zero(alloc);
    for part in parts {
        let number = part.0 as usize;
        if number >= lines.len() {
            return Ok(None);
        }
        let line = &lines[number];
        let Some(next) = plus_product(&sum, &part.1, &line.poly)? else {
            return Ok(None);
        };
        sum = next;
    }
    Ok(Some(sum))
}

/// Whether a polynomial in x is the sum of the parts' multiples of the lines.
pub(crate) fn is_sum<F: Field, O: MonoOrder>(
    alloc: Global,
    lines: &[Line<F, O>],
    x: u32,
    poly: &Uni<F>,
    parts: &[(LineId, Poly<F, O>)],
) -> Result<bool, AllocError>
    ensures sum { IfOk result (λ yes. IsTrue yes
        → SamePolynomial F.ORDER (terms_in x poly.now) (combination (polys_of lines.now) parts.now)) }
    ensures lines_exist { IfOk result (λ yes. IsTrue yes → AreBefore (length lines.now) parts.now) }
{
    let whole: Poly<F, O> = match from_univariate(alloc, poly, x) {
        Ok(whole) => whole,
        Err(PolyStop::Memory) => return Err(AllocError),
        Err(_) => return Ok(false),
    };
    let Some(sum) = sum_of(alloc, lines, parts)? else {
        return Ok(false);
    };
    Ok(whole == sum)
}
