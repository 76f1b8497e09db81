//! A product of different factors X - root, split into them (Berlekamp 1970; Rabin, "Probabilistic algorithms in finite
//! fields", 1980).
ghost use Rattle.std.specs.Prelude.{◌≡◌, ◌≢◌, ℕ, suc, ◌+◌, ◌-◌, ◌*◌, ◌<◌, ◌≤◌, [], ◌∷◌, length, min, IfOk, IfSome};
ghost use Rattle.std.specs.Prelude.{IfNone, OnOk};
ghost use Rattle.ffc_base.specs.Metering.{Metered};
ghost use Rattle.ffc_uni.specs.Units.{IsChained, IsAtMost};
ghost use Rattle.ffc_uni.specs.Univariate.{IsNormal, SameUnivariate, product_of_roots, times};
ghost use Rattle.ffc_roots.specs.Divisors.{IsDivisor, field_polynomial};
ghost use Rattle.ffc_roots.specs.Parts.{IsParted, HasRoots, IsTakenApart, AreRising, weight, weight_of, splits_in};
ghost use Rattle.ffc_roots.specs.Parts.{splits_of};
ghost use Rattle.ffc_roots.specs.Separation.{AreSeparated, SeparatesNone};

use crate::bezout::{common_divisor, constant};
use crate::ordered::insert_root;
use ffc_base::{Meter, Stop};
use ffc_field::Field;
use ffc_uni::{Uni, pow_mod};
use std::alloc::{AllocError, Global};

/// Two factors of a polynomial.
#[derive(Debug, Drop)]
pub struct Parts<F: Field> {
    first: Uni<F>,
    second: Uni<F>,
}

/// The polynomial X + c.
fn x_plus<F: Field>(alloc: Global, c: F) -> Result<Uni<F>, AllocError>
    ensures same { IfOk result (λ x. SameUnivariate F.ORDER x (F.value c ∷ 1 ∷ [])) }
    ensures long { IfOk result (λ x. length x ≡ 2) }
{
    let mut coefs = Vec::new(alloc);
    coefs.push(c)?;
    coefs.push(F::of(1))?;
    Uni::from_coefs(alloc, &coefs)
}

/// The polynomial as a divisor of it times another one, where both are of lower degree.
fn parted<F: Field>(f: &Uni<F>, factor: Uni<F>) -> Result<Option<Parts<F>>, AllocError>
    requires { IsDivisor F.ORDER factor f.now }
    ensures normal { IsNormal F.ORDER factor }
    ensures parts { IfOk result (λ o. IfSome o (IsParted F.ORDER f.now)) }
    ensures none { IfOk result (λ o. IfNone o ((2 ≤ length factor) × (length factor < length f.now) → ⊥)) }
{
    let length = factor.coefs().len();
    if length < 2 || f.coefs().len() <= length {
        return Ok(None);
    }
    let (second, _) = f.div_rem(&factor)?;
    Ok(Some(Parts {
        first: factor,
        second,
    }))
}

/// The factors of f by whether the sum of a root and c is 0, or else by whether it is a square, if that separates the
/// roots. One Chain is taken for each product modulo f.
fn part_by<F: Field>(
    alloc: Global,
    f: &Uni<F>,
    c: F,
    meter: &mut Meter,
) -> Result<Option<Parts<F>>, Stop>
    requires long { 3 ≤ length f.now }
    requires normal { IsNormal F.ORDER f.now }
    ensures parts { IfOk result (λ o. IfSome o (IsParted F.ORDER f.now)) }
    ensures none { IfOk result (λ o. IfNone o (SeparatesNone F.ORDER f.now (F.value c))) }
    ensures units { IsAtMost 128 meter.old meter.new }
    ensures metered { Metered Stop.Spent result meter.old meter.new }
{
    let linear = x_plus(alloc, c)?;
    if f.eval(c.neg()).residue() == 0 {
        return Ok(parted(f, linear)?);
    }
    let power = pow_mod(alloc, &linear, (F::ORDER - 1) / 2, f, meter)?;
    let other = power.sub(&constant(alloc, F::of(1))?)?;
    let common = common_divisor(alloc, f, &other)?;
    Ok(parted(f, common.value)?)
}

/// Two factors of f, which has different roots in the field, by the first residue that separates two of them.
fn part<F: Field>(alloc: Global, f: &Uni<F>, meter: &mut Meter) -> Result<Parts<F>, Stop>
    requires long { 3 ≤ length f.now }
    requires normal { IsNormal F.ORDER f.now }
    requires divides { IsDivisor F.ORDER f.now (field_polynomial F.ORDER) }
    ensures parts { IfOk result (IsParted F.ORDER f.now) }
    ensures units { (bound : ℕ) → AreSeparated F.ORDER f.now bound → IsAtMost (128 * bound) meter.old meter.new }
    ensures chained { IsChained meter.old meter.new }
    ensures metered { Metered Stop.Spent result meter.old meter.new }
{
    for n in 0..F::ORDER {
        if let Some(parts) = part_by(alloc, f, F::of(u128::from(n)), meter)? {
            return Ok(parts);
        }
    }
    unreachable!()
}

/// The root of a polynomial of degree 1.
fn linear_root<F: Field>(f: &Uni<F>) -> F
    requires { length f.now ≡ 2 }
    ensures { HasRoots F.ORDER f.now (F.value result ∷ []) }
{
    let coefs = f.coefs();
    let constant = coefs[0];
    match coefs[1].inv() {
        Some(inverse) => constant.mul(inverse).neg(),
        None => unreachable!(),
    }
}

/// Takes a polynomial apart: its root where it has degree 1, and where it has a higher one two factors, to be taken apart
/// later.
fn take_apart<F: Field>(
    alloc: Global,
    f: &Uni<F>,
    roots: &mut Vec<u64>,
    pending: &mut Vec<Uni<F>>,
    meter: &mut Meter,
) -> Result<(), Stop>
    requires rising { AreRising F.ORDER 0 roots.old.items }
    requires divides { IsDivisor F.ORDER (times f.now (product_of_roots F.ORDER roots.old.items))
        (field_polynomial F.ORDER) }
    ensures product { OnOk result (IsTakenApart F.ORDER f.now roots.old.items pending.old.items roots.new.items
        pending.new.items) }
    ensures rising { OnOk result (AreRising F.ORDER 0 roots.new.items) }
    ensures fewer { OnOk result (weight_of pending.new.items < weight_of pending.old.items + weight (length f.now)) }
    ensures splits { OnOk result (min 1 (splits_of (length f.now)) + splits_in pending.new.items
        ≤ splits_in pending.old.items + splits_of (length f.now)) }
    ensures units { (bound : ℕ) → AreSeparated F.ORDER f.now bound
        → IsAtMost (128 * (bound * min 1 (splits_of (length f.now)))) meter.old meter.new }
    ensures chained { IsChained meter.old meter.new }
    ensures metered { Metered Stop.Spent result meter.old meter.new }
{
    let length = f.coefs().len();
    if length == 2 {
        insert_root::<F>(roots, linear_root(f))?;
        return Ok(());
    }
    if length < 2 {
        return Ok(());
    }
    let parts = part(alloc, f, meter)?;
    pending.push(parts.first)?;
    pending.push(parts.second)?;
    Ok(())
}

/// The roots of a product of different factors X - root, as residues that increase. Fewer polynomials than the product's
/// degree are parted.
pub fn split<F: Field>(alloc: Global, product: &Uni<F>, meter: &mut Meter) -> Result<Vec<u64>, Stop>
    requires { IsDivisor F.ORDER product.now (field_polynomial F.ORDER) }
    ensures roots { IfOk result (λ roots. HasRoots F.ORDER product.now roots.items) }
    ensures rising { IfOk result (λ roots. AreRising F.ORDER 0 roots.items) }
    ensures units { (bound : ℕ) → AreSeparated F.ORDER product.now bound
        → IsAtMost (128 * (bound * splits_of (length product.now))) meter.old meter.new }
    ensures chained { IsChained meter.old meter.new }
    ensures metered { Metered Stop.Spent result meter.old meter.new }
{
    let mut roots = Vec::new(alloc);
    let mut pending = Vec::new(alloc);
    pending.push(product.clone()?)?;
    while let Some(f) = pending.pop() {
        take_apart(alloc, &f, &mut roots, &mut pending, meter)?;
    }
    Ok(roots)
}
