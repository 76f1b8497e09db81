//! A common divisor of two polynomials as a combination of both, by Euclid's algorithm with recorded cofactors (Knuth,
//! "The Art of Computer Programming", volume 2, section 4.5.2). Each multiple of a monomial that is subtracted is a
//! Reduction.
ghost use Rattle.std.specs.Prelude.{◌≡◌, ◌≢◌, ◌+◌, ◌*◌, ◌≤◌, [], ◌∷◌, length, IfOk, IfSome, Ok, None};
ghost use Rattle.ffc_base.specs.declared.stop.Stop.TheVariants as stops;
ghost use Rattle.ffc_linear.specs.Units.{TakesWithin};
ghost use Rattle.ffc_single.specs.Euclid.{IsLessMultiple, IsLeftOver, IsFirstDivision, IsEuclid};
ghost use Rattle.ffc_single.specs.Euclid.{IsNextDivisor, HasRootsOf};
ghost use Rattle.ffc_uni.specs.Univariate.{Coefficients, SameUnivariate};

use ffc_base::{Meter, Stop, Unit};
use ffc_field::Field;
use ffc_uni::Uni;
use std::alloc::{AllocError, Global};

/// A combination a*g + b*h of two polynomials g and h.
#[derive(Drop)]
pub(crate) struct Combination<F: Field> {
    pub value: Uni<F>,
    pub a: Uni<F>,
    pub b: Uni<F>,
}

/// The constant polynomial c.
fn constant<F: Field>(alloc: Global, c: F) -> Result<Uni<F>, AllocError>
    ensures same { IfOk result (λ x. SameUnivariate F.ORDER x (F.value c ∷ [])) }
    ensures short { IfOk result (λ x. length x ≤ 1) }
{
    let mut coefs = Vec::new(alloc);
    coefs.push(c)?;
    Uni::from_coefs(alloc, &coefs)
}

/// The polynomial 0.
fn zero<F: Field>(alloc: Global) -> Result<Uni<F>, AllocError>
    ensures { IfOk result (λ x. x ≡ []) }
{
    Uni::from_coefs(alloc, &[])
}

/// Takes a Reduction for each coefficient of a quotient.
fn charge_quotient<F: Field>(quotient: &Uni<F>, meter: &mut Meter) -> Result<(), Stop>
    ensures { TakesWithin (length quotient.now) stops.Spent result meter.old meter.new }
{
    let count = quotient.coefs().len() as u64;
    meter.charge(Unit::Reduction, count)?;
    Ok(())
}

/// A cofactor less a multiple of the one after it.
fn less_multiple<F: Field>(
    first: &Uni<F>,
    quotient: &Uni<F>,
    second: &Uni<F>,
) -> Result<Uni<F>, AllocError>
    ensures { IfOk result (IsLessMultiple F.ORDER first.now quotient.now second.now) }
{
    first.sub(&quotient.mul(second)?)
}

/// What is left of the first combination when it is divided by the second.
fn left_over<F: Field>(
    first: &Combination<F>,
    second: &Combination<F>,
    meter: &mut Meter,
) -> Result<Combination<F>, Stop>
    requires { second.now.value ≢ [] }
    ensures next { IfOk result (IsLeftOver F.ORDER first.now second.now) }
    ensures units { TakesWithin (length first.now.value) stops.Spent result meter.old meter.new }
{
    let (quotient, value) = first.value.div_rem(&second.value)?;
    charge_quotient(&quotient, meter)?;
    let a = less_multiple(&first.a, &quotient, &second.a)?;
    let b = less_multiple(&first.b, &quotient, &second.b)?;
    Ok(Combination { value, a, b })
}

/// The first two combinations: g, and what is left of h when it is divided by g.
fn first_two<F: Field>(
    alloc: Global,
    g: &Uni<F>,
    quotient: &Uni<F>,
    rest: Uni<F>,
) -> Result<(Combination<F>, Combination<F>), AllocError>
    ensures { IfOk result (λ two. (h : Coefficients) → IsFirstDivision F.ORDER g.now h quotient.now rest
        → IsEuclid F.ORDER g.now h two.0 two.1) }
{
    let first = Combination {
        value: g.clone()?,
        a: constant(alloc, F::of(1))?,
        b: zero(alloc)?,
    };
    let nothing: Uni<F> = zero(alloc)?;
    let second = Combination {
        value: rest,
        a: nothing.sub(quotient)?,
        b: constant(alloc, F::of(1))?,
    };
    Ok((first, second))
}

/// A common divisor of g and h of highest degree, as a combination of both; `None` where h is a multiple of g.
pub(crate) fn common_divisor<F: Field>(
    alloc: Global,
    g: &Uni<F>,
    h: &Uni<F>,
    meter: &mut Meter,
) -> Result<Option<Combination<F>>, Stop>
    requires { g.now ≢ [] }
    ensures some { IfOk result (λ found. IfSome found (IsNextDivisor F.ORDER g.now h.now)) }
    ensures none { result ≡ Ok None → HasRootsOf F.ORDER g.now h.now }
    ensures units { TakesWithin (length h.now + length g.now * length g.now) stops.Spent result meter.old meter.new }
{
    let (quotient, rest) = h.div_rem(g)?;
    charge_quotient(&quotient, meter)?;
    if rest.is_zero() {
        return Ok(None);
    }
    let (mut first, mut second) = first_two(alloc, g, &quotient, rest)?;
    while !second.value.is_zero() {
        let next = left_over(&first, &second, meter)?;
        first = second;
        second = next;
    }
    // Reading the coefficients is what says that the last is not 0.
    let _coefficients = first.value.coefs();
    Ok(Some(first))
}
