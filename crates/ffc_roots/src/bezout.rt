//! A common divisor of two polynomials as a combination of both, by Euclid's algorithm with recorded steps.
ghost use Rattle.std.specs.Prelude.{◌≢◌, ◌<◌, [], ◌∷◌, length, IfOk};
ghost use Rattle.ffc_uni.specs.Univariate.{SameUnivariate};
ghost use Rattle.ffc_roots.specs.Divisors.{IsCommonDivisor, IsLeftOver};

use ffc_field::Field;
use ffc_uni::Uni;
use std::alloc::{AllocError, Global};

/// A combination a*f + b*h of two polynomials f and h. The other cofactor, a, is the quotient of what is left by f.
#[derive(Debug, Drop)]
pub struct Combination<F: Field> {
    pub value: Uni<F>,
    pub b: Uni<F>,
}

/// The constant polynomial c.
pub fn constant<F: Field>(alloc: Global, c: F) -> Result<Uni<F>, AllocError>
    ensures { IfOk result (λ x. SameUnivariate F.ORDER x (F.value c ∷ [])) }
{
    let mut coefs = Vec::new(alloc);
    coefs.push(c)?;
    Uni::from_coefs(alloc, &coefs)
}

/// What is left of the first combination when it is divided by the second.
fn left_over<F: Field>(
    first: &Combination<F>,
    second: &Combination<F>,
) -> Result<Combination<F>, AllocError>
    requires { second.now.value ≢ [] }
    ensures step { IfOk result (IsLeftOver F.ORDER first.now second.now) }
    ensures lower { IfOk result (λ c. length c.value < length second.now.value) }
{
    let (quotient, value) = first.value.div_rem(&second.value)?;
    let b = first.b.sub(&quotient.mul(&second.b)?)?;
    Ok(Combination { value, b })
}

/// A common divisor of f and h of highest degree, as a combination of both.
pub fn common_divisor<F: Field>(
    alloc: Global,
    f: &Uni<F>,
    h: &Uni<F>,
) -> Result<Combination<F>, AllocError>
    requires { f.now ≢ [] }
    ensures divisor { IfOk result (λ c. IsCommonDivisor F.ORDER f.now h.now c.b c.value) }
    ensures some { IfOk result (λ c. c.value ≢ []) }
{
    let mut first = Combination {
        value: f.clone()?,
        b: constant(alloc, F::of(0))?,
    };
    let mut second = Combination {
        value: h.clone()?,
        b: constant(alloc, F::of(1))?,
    };
    while !second.value.is_zero() {
        let next = left_over(&first, &second)?;
        first = second;
        second = next;
    }
    Ok(first)
}
