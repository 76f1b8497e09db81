//! The power of X to the field's order, modulo a polynomial.
ghost use Rattle.std.specs.Prelude.{◌≡◌, ◌≢◌, ℕ, ◌+◌, ◌-◌, ◌<◌, ◌≤◌, [], ◌∷◌, ◌++◌, length, IfOk, OnOk, OnErr, IsErrOf};
ghost use Rattle.ffc_base.specs.Metering.{Metered, total};
ghost use Rattle.ffc_uni.specs.Univariate.{SameUnivariate, times};
ghost use Rattle.ffc_uni.specs.Univariate as polynomials;
ghost use Rattle.ffc_uni.specs.Chains.{IsDivision, IsChain, IsWithDigit, AreLower, last_remainder, pairs_over};
ghost use Rattle.ffc_uni.specs.Chains.{pair_count};
ghost use Rattle.ffc_field.specs.Modular.{mul_mod};
ghost use Rattle.ffc_uni.specs.Rows.{leading};
ghost use Rattle.ffc_uni.specs.Units.{chained, IsCounted};

use crate::row;
use crate::uni::Uni;
use ffc_base::{Meter, Stop, Unit};
use ffc_field::Field;
use std::alloc::{AllocError, Global};
use std::marker::Model;

/// Pairs of quotient and remainder, in order. Clauses see a list.
#[derive(Debug, Drop)]
pub struct Steps<F: Field> {
    pairs: Vec<(Uni<F>, Uni<F>)>,
}

impl<F: Field> Model for Steps<F> {
    ghost use Rattle.std.specs.Prelude.{List};
    ghost use Rattle.ffc_uni.specs.Chains.{Pair};

    ghost Value = { List Pair };

    ghost view = { λ steps. steps.pairs.items };
}

impl<F: Field> Steps<F> {
    /// No step. It takes no memory.
    fn new(alloc: Global) -> Self
        ensures { result ≡ [] }
    {
        Steps {
            pairs: Vec::new(alloc),
        }
    }

    /// Appends a pair. Out of memory, the pair is dropped, and the steps are as before.
    fn push(&mut self, pair: (Uni<F>, Uni<F>)) -> Result<(), AllocError>
        ensures ok { OnOk result (self.new ≡ self.old ++ pair ∷ []) }
        ensures err { OnErr result (self.new ≡ self.old) }
    {
        self.pairs.push(pair)?;
        Ok(())
    }

    /// The pairs. It takes no memory.
    pub fn as_slice(&self) -> &[(Uni<F>, Uni<F>)]
        ensures { result.now ≡ self.now }
    {
        &self.pairs
    }

    /// The last remainder, or `first` where there is no step. It takes no memory.
    pub fn last_remainder<'a>(&'a self, first: &'a Uni<F>) -> &'a Uni<F>
        ensures { result.now ≡ last_remainder first.now self.now }
    {
        match self.as_slice().last() {
            Some(pair) => &pair.1,
            None => first,
        }
    }
}

/// The power of X to the field's order modulo a polynomial, by squaring and multiplying. With the polynomial at hand
/// each step can be checked by one multiplication, and the last remainder is the power (Knuth, "The Art of Computer
/// Programming", volume 2, section 4.6.3).
#[derive(Debug, Drop)]
pub struct Chain<F: Field> {
    pub steps: Steps<F>,
}

/// The polynomial X.
fn indeterminate<F: Field>(alloc: Global) -> Result<Uni<F>, AllocError>
    ensures same { IfOk result (λ x. SameUnivariate F.ORDER x polynomials.indeterminate) }
    ensures short { IfOk result (λ x. length x ≤ 2) }
{
    let mut coefs = Vec::new(alloc);
    coefs.push(F::of(0))?;
    coefs.push(F::of(1))?;
    Uni::from_coefs(alloc, &coefs)
}

/// The product of two polynomials, divided by f, whose leading coefficient has this inverse. One Chain is taken first. The
/// buffer holds the product, so that many products make it once.
pub(crate) fn divided_product<F: Field>(
    a: &Uni<F>,
    b: &Uni<F>,
    f: &Uni<F>,
    inverse: F,
    buffer: &mut Vec<F>,
    meter: &mut Meter,
) -> Result<(Uni<F>, Uni<F>), Stop>
    requires f { f.now ≢ [] }
    requires inverse { mul_mod F.ORDER (leading f.now) (F.value inverse) ≡ 1 }
    ensures division { IfOk result (λ s. IsDivision F.ORDER f.now (times a.now b.now) s) }
    ensures lower { IfOk result (λ s. length s.1 < length f.now) }
    ensures short { IfOk result (λ s. length s.0 ≤ length a.now + (length b.now - 1) - (length f.now - 1)) }
    ensures counted { IsCounted 1 meter.old meter.new result }
{
    meter.take(Unit::Chain)?;
    row::multiply_into(buffer, a.coefs(), b.coefs())?;
    Ok(f.divide(buffer.as_slice(), inverse)?)
}

/// The same of a square.
pub(crate) fn divided_square<F: Field>(
    a: &Uni<F>,
    f: &Uni<F>,
    inverse: F,
    buffer: &mut Vec<F>,
    meter: &mut Meter,
) -> Result<(Uni<F>, Uni<F>), Stop>
    requires f { f.now ≢ [] }
    requires inverse { mul_mod F.ORDER (leading f.now) (F.value inverse) ≡ 1 }
    ensures division { IfOk result (λ s. IsDivision F.ORDER f.now (times a.now a.now) s) }
    ensures lower { IfOk result (λ s. length s.1 < length f.now) }
    ensures short { IfOk result (λ s. length s.0 ≤ length a.now + (length a.now - 1) - (length f.now - 1)) }
    ensures counted { IsCounted 1 meter.old meter.new result }
{
    meter.take(Unit::Chain)?;
    row::square_into(buffer, a.coefs())?;
    Ok(f.divide(buffer.as_slice(), inverse)?)
}

/// Appends the steps of one more binary digit: the square, and where the digit is 1 the product with `x`.
fn append_digit<F: Field>(
    steps: &mut Steps<F>,
    x: &Uni<F>,
    f: &Uni<F>,
    inverse: F,
    one: bool,
    buffer: &mut Vec<F>,
    meter: &mut Meter,
) -> Result<(), Stop>
    requires x { SameUnivariate F.ORDER x.now polynomials.indeterminate }
    requires short { length x.now ≤ 2 }
    requires f { 2 ≤ length f.now }
    requires lower { AreLower f.now steps.old }
    requires inverse { mul_mod F.ORDER (leading f.now) (F.value inverse) ≡ 1 }
    ensures steps { OnOk result (IsWithDigit F.ORDER f.now one steps.old steps.new) }
    ensures counted { IsCounted (pairs_over (one ∷ [])) meter.old meter.new result }
{
    let square = divided_square(steps.last_remainder(x), f, inverse, buffer, meter)?;
    steps.push(square)?;
    if one {
        let next = divided_product(x, steps.last_remainder(x), f, inverse, buffer, meter)?;
        steps.push(next)?;
    }
    Ok(())
}

/// The steps of the order's binary digits after the first, from the highest.
fn digit_steps<F: Field>(alloc: Global, f: &Uni<F>, meter: &mut Meter) -> Result<Steps<F>, Stop>
    requires { 2 ≤ length f.now }
    ensures chain { IfOk result (λ steps. IsChain F.ORDER f.now steps) }
    ensures lower { IfOk result (λ steps. AreLower f.now steps) }
    ensures counted { IsCounted (pair_count F.ORDER) meter.old meter.new result }
{
    let x = indeterminate(alloc)?;
    let inverse = f.leading_inverse();
    let mut steps = Steps::new(alloc);
    let mut buffer = Vec::new(alloc);
    let mut place = 63 - F::ORDER.leading_zeros();
    while place > 0 {
        place -= 1;
        let one = (F::ORDER >> place) % 2 == 1;
        append_digit(&mut steps, &x, f, inverse, one, &mut buffer, meter)?;
    }
    Ok(steps)
}

/// The chain of X to the order of F modulo f: over the binary digits of the order after the first, from the highest.
/// One Chain is taken for each pair, at most 126, and before it is made. The leading coefficient of f is inverted once.
///
/// # Errors
///
/// Spent exactly where fewer units than there are pairs are left at entry, or Memory.
pub fn pow_mod_chain<F: Field>(
    alloc: Global,
    f: &Uni<F>,
    meter: &mut Meter,
) -> Result<Chain<F>, Stop>
    requires { 2 ≤ length f.now }
    ensures chain { IfOk result (λ c. IsChain F.ORDER f.now c.steps) }
    ensures lower { IfOk result (λ c. AreLower f.now c.steps) }
    ensures units { OnOk result (meter.new ≡ chained meter.old (pair_count F.ORDER)) }
    ensures enough { OnOk result (total meter.old + pair_count F.ORDER ≤ meter.old.budget) }
    ensures spent { IsErrOf result Stop.Spent → meter.old.budget < total meter.old + pair_count F.ORDER }
    ensures metered { Metered Stop.Spent result meter.old meter.new }
    ensures only_chains { (n : ℕ) × (n ≤ pair_count F.ORDER) × (meter.new ≡ chained meter.old n) }
{
    let steps = digit_steps(alloc, f, meter)?;
    Ok(Chain { steps })
}
