//! Powers of polynomials modulo a polynomial.
ghost use Rattle.std.specs.Prelude.{◌≡◌, ◌≢◌, ◌<◌, ◌≤◌, [], ◌∷◌, length, IfOk, OnOk};
ghost use Rattle.ffc_base.specs.Metering.{Metered, total};
ghost use Rattle.ffc_field.specs.Modular.{mul_mod};
ghost use Rattle.ffc_uni.specs.Rows.{leading};
ghost use Rattle.ffc_uni.specs.Univariate.{Coefficients, SameUnivariate, IsRemainder, raised, with_factor};
ghost use Rattle.ffc_uni.specs.Units.{chained, IsAtMost};

use crate::chain::{divided_product, divided_square};
use crate::uni::Uni;
use ffc_base::{Meter, Stop};
use ffc_field::Field;
use std::alloc::{AllocError, Global};

/// The polynomial 1.
fn one<F: Field>(alloc: Global) -> Result<Uni<F>, AllocError>
    ensures same { IfOk result (λ x. SameUnivariate F.ORDER x (1 ∷ [])) }
    ensures short { IfOk result (λ x. length x ≤ 1) }
{
    let mut coefs = Vec::new(alloc);
    coefs.push(F::of(1))?;
    Uni::from_coefs(alloc, &coefs)
}

/// The square of a power, and where one more factor is wanted the product with it, modulo f, whose leading coefficient
/// has this inverse. One Chain is taken for each product.
fn next_power<F: Field>(
    power: &Uni<F>,
    base: &Uni<F>,
    one_more: bool,
    f: &Uni<F>,
    inverse: F,
    buffer: &mut Vec<F>,
    meter: &mut Meter,
) -> Result<Uni<F>, Stop>
    requires f { f.now ≢ [] }
    requires inverse { mul_mod F.ORDER (leading f.now) (F.value inverse) ≡ 1 }
    ensures power { IfOk result (λ r. (a : Coefficients) → IsRemainder F.ORDER f.now a power.now
        → IsRemainder F.ORDER f.now (with_factor base.now one_more a) r) }
    ensures lower { IfOk result (λ r. length r < length f.now) }
    ensures units { IsAtMost 2 meter.old meter.new }
    ensures taken { OnOk result (total meter.old < total meter.new) }
    ensures within { OnOk result (total meter.new ≤ meter.new.budget) }
    ensures metered { Metered Stop.Spent result meter.old meter.new }
{
    let (_, square) = divided_square(power, f, inverse, buffer, meter)?;
    if !one_more {
        return Ok(square);
    }
    let (_, product) = divided_product(base, &square, f, inverse, buffer, meter)?;
    Ok(product)
}

/// The power of a polynomial modulo f, by squaring and multiplying over the binary digits of the exponent from the
/// highest. One Chain is taken for each product, at most 128, and before it is made.
///
/// # Errors
///
/// Spent, where the meter is full, or Memory.
pub fn pow_mod<F: Field>(
    alloc: Global,
    base: &Uni<F>,
    exponent: u64,
    f: &Uni<F>,
    meter: &mut Meter,
) -> Result<Uni<F>, Stop>
    requires { 2 ≤ length f.now }
    ensures power { IfOk result (λ r. IsRemainder F.ORDER f.now (raised base.now exponent) r) }
    ensures lower { IfOk result (λ r. length r < length f.now) }
    ensures units { IsAtMost 128 meter.old meter.new }
    ensures taken { OnOk result (0 < exponent → total meter.old < total meter.new) }
    ensures within { OnOk result (0 < exponent → total meter.new ≤ meter.new.budget) }
    ensures metered { Metered Stop.Spent result meter.old meter.new }
{
    let inverse = f.leading_inverse();
    let mut power = one(alloc)?;
    let mut buffer = Vec::new(alloc);
    for place in (0..64u32).rev() {
        let front = exponent >> place;
        if front > 0 {
            power = next_power(&power, base, front % 2 == 1, f, inverse, &mut buffer, meter)?;
        }
    }
    Ok(power)
}
