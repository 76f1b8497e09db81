//! What holds in every field of prime order, from the laws of [`Field`] alone.
ghost use Rattle.std.specs.Prelude.{◌≡◌, ℕ};
ghost use Rattle.ffc_field.specs.declared.id.FieldId.{FieldId};
ghost use Rattle.ffc_field.specs.Modular.{IsPrime, pow_mod};
ghost use Rattle.ffc_field.specs.Orders.{order_of_id};
ghost use Rattle.ffc_field.specs.Proth.{ProthTheorem};
ghost use Rattle.ffc_field.specs.Laws.{IsCommutativeRing, HasPowers, HasNoZeroDivisors, ObeysFermat, HasInverses};

use crate::field::Field;

/// The residues are a commutative ring.
pub fn ring<F: Field>()
    ensures { IsCommutativeRing F.ORDER }
{}

/// Powers are repeated products.
pub fn powers<F: Field>()
    ensures { HasPowers F.ORDER }
{}

/// A product is 0 only where a factor is (Euclid, Elements, VII.30).
pub fn no_zero_divisors<F: Field>()
    ensures { HasNoZeroDivisors F.ORDER }
{}

/// The power of an element to the order is the element (Fermat 1640).
pub fn fermat<F: Field>(x: F)
    ensures order { ObeysFermat F.ORDER }
    ensures element { pow_mod F.ORDER (F.value x) F.ORDER ≡ F.value x }
{
    let _ = x;
}

/// Each element but 0 has one inverse, its power to the order less 2.
pub fn inverses<F: Field>()
    ensures { HasInverses F.ORDER }
{}

/// A number `k * 2^e + 1` with `k < 2^e` is prime where the power of some number to half of `k * 2^e` is -1 modulo
/// it (Proth 1878). The odd orders are prime by it.
pub fn proth()
    ensures { ProthTheorem }
{}

/// The eight orders are prime, and no two names have one order.
pub fn orders()
    ensures prime { (id : FieldId) → IsPrime (order_of_id id) }
    ensures apart { (a b : FieldId) → order_of_id a ≡ order_of_id b → a ≡ b }
{}
