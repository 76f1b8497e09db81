//! Roots of a polynomial in one variable.
ghost use Rattle.std.specs.Prelude.{◌≡◌, ◌≢◌, ℕ, ◌+◌, ◌-◌, ◌*◌, ◌<◌, ◌≤◌, ◌⊎◌, [], length, map, IfOk, IsErrOf};
ghost use Rattle.std.specs.List.Sorted.{IsStrictlyIncreasing};
ghost use Rattle.ffc_base.specs.Metering.{Metered};
ghost use Rattle.ffc_field.specs.Modular.{mul_mod};
ghost use Rattle.ffc_uni.specs.Univariate.{IsNormal, SameUnivariate, coefficient_at, product_of_roots, indeterminate};
ghost use Rattle.ffc_uni.specs.Chains.{IsChain, AreLower, last_remainder};
ghost use Rattle.ffc_uni.specs.Units.{IsChained};
ghost use Rattle.ffc_roots.specs.Roots.{AreRoots, IsCombination, without_x};
ghost use Rattle.ffc_roots.specs.Divisors.{IsCommonDivisor};
ghost use Rattle.ffc_roots.specs.Parts.{HasRoots};
ghost use Rattle.ffc_roots.specs.Separation.{AreSeparated, HasOneRootAtMost, HasFewerUnits, unit_bound};

use crate::bezout::{Combination, common_divisor};
use crate::elements::Elements;
use crate::found::Roots;
use crate::ordered::elements_of;
use crate::split::split;
use ffc_base::{Meter, Stop};
use ffc_field::Field;
use ffc_uni::{Uni, pow_mod_chain};
use std::alloc::{AllocError, Global};

/// The polynomial X.
fn x<F: Field>(alloc: Global) -> Result<Uni<F>, AllocError>
    ensures same { IfOk result (λ x. SameUnivariate F.ORDER x indeterminate) }
    ensures short { IfOk result (λ x. length x ≤ 2) }
{
    let mut coefs = Vec::new(alloc);
    coefs.push(F::of(0))?;
    coefs.push(F::of(1))?;
    Uni::from_coefs(alloc, &coefs)
}

/// The inverse of the leading coefficient.
fn leading_inverse<F: Field>(f: &Uni<F>) -> F
    requires { f.now ≢ [] }
    ensures normal { IsNormal F.ORDER f.now }
    ensures inverse { mul_mod F.ORDER (coefficient_at f.now (length f.now - 1)) (F.value result) ≡ 1 }
{
    let coefs = f.coefs();
    match coefs[coefs.len() - 1].inv() {
        Some(inverse) => inverse,
        None => unreachable!(),
    }
}

/// The cofactors of f and h with which their common divisor is the product of the X - root, that of h reduced modulo f.
fn cofactors<F: Field>(
    alloc: Global,
    f: &Uni<F>,
    h: &Uni<F>,
    common: &Combination<F>,
    roots: &[F],
) -> Result<(Uni<F>, Uni<F>), AllocError>
    requires f { 2 ≤ length f.now }
    requires normal { IsNormal F.ORDER f.now }
    requires h { length h.now ≤ length f.now }
    requires common { IsCommonDivisor F.ORDER f.now h.now common.now.b common.now.value }
    requires some { common.now.value ≢ [] }
    requires roots { HasRoots F.ORDER common.now.value (map F.value roots.now) }
    ensures identity { IfOk result
        (λ r. IsCombination F.ORDER f.now h.now r.0 r.1 (product_of_roots F.ORDER (map F.value roots.now))) }
    ensures short { IfOk result (λ r. (length r.0 ≤ length f.now) × (length r.1 ≤ length f.now)) }
{
    let inverse = leading_inverse(&common.value);
    let product = Uni::from_roots(alloc, roots)?;
    let (_, b) = common.b.scale(inverse)?.div_rem(f)?;
    let rest = product.sub(&b.mul(h)?)?;
    let (a, _) = rest.div_rem(f)?;
    Ok((a, b))
}

/// All roots of f in the field, in increasing order, with the identity that proves them. The chain takes at most 126
/// units, and each residue that is tried to separate roots at most 128 more.
///
/// # Errors
///
/// Spent, where the meter is full, or Memory.
pub fn roots<F: Field>(alloc: Global, f: &Uni<F>, meter: &mut Meter) -> Result<Roots<F>, Stop>
    requires { 2 ≤ length f.now }
    ensures roots { IfOk result (λ r. AreRoots F.ORDER f.now r.zeros) }
    ensures increasing { IfOk result (λ r. IsStrictlyIncreasing r.zeros) }
    ensures chain { IfOk result (λ r. IsChain F.ORDER f.now r.chain.steps) }
    ensures lower { IfOk result (λ r. AreLower f.now r.chain.steps) }
    ensures short { IfOk result (λ r. (length r.a ≤ length f.now) × (length r.b ≤ length f.now)) }
    ensures identity { IfOk result
        (λ r. IsCombination F.ORDER f.now (without_x F.ORDER (last_remainder indeterminate r.chain.steps)) r.a r.b
        (product_of_roots F.ORDER r.zeros)) }

    // Where f has one root at most, these units are enough; and else d * S times as many, where each two different roots
    // are separated by some number below S.
    ensures few { IsErrOf result Stop.Spent → HasOneRootAtMost F.ORDER f.now
        → HasFewerUnits meter.old (unit_bound (length f.now - 1)) }
    ensures many { IsErrOf result Stop.Spent → (bound : ℕ) → AreSeparated F.ORDER f.now bound
        → HasFewerUnits meter.old (unit_bound (length f.now - 1))
        ⊎ HasFewerUnits meter.old ((length f.now - 1) * bound * unit_bound (length f.now - 1)) }
    ensures metered { Metered Stop.Spent result meter.old meter.new }
    ensures chained { IsChained meter.old meter.new }
{
    let _normal = f.coefs();
    let chain = pow_mod_chain(alloc, f, meter)?;
    let x = x(alloc)?;
    let h = chain.steps.last_remainder(&x).sub(&x)?;
    let common = common_divisor(alloc, f, &h)?;
    let _normal_divisor = common.value.coefs();
    let residues = split(alloc, &common.value, meter)?;
    let zeros = elements_of(alloc, residues.as_slice())?;
    let (a, b) = cofactors(alloc, f, &h, &common, zeros.as_slice())?;
    Ok(Roots {
        zeros: Elements::new(zeros),
        chain,
        a,
        b,
    })
}
