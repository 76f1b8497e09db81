//! From a field's name to code over its type.
ghost use Rattle.std.specs.Prelude.{◌≡◌, ℕ};
ghost use Rattle.ffc_field.specs.Orders.{order_of_id};

use crate::field::Field;
use crate::id::FieldId;
use crate::{BabyBear, F2, F3, F5, F17, F65537, Goldilocks, KoalaBear};

/// Work that can be done over each field, for a caller that has the name of the field alone.
///
/// The members speak of the order, not of the type: two fields of one order are the same to a contract. `gives` sees
/// the work as it begins, so what the work changes through a `&mut` is returned in `Out`.
pub trait ForField {
    type Out;

    /// Where the work may be done over the field of an order.
    ghost can_run: { Self → ℕ → Type 0 };

    /// What the work gives over the field of an order.
    ghost gives: { Self → ℕ → Self.Out → Type 0 };

    /// Does the work over the field `F`.
    fn run<F: Field>(self) -> Self::Out
        requires { can_run self F.ORDER }
        ensures { gives self F.ORDER result };
}

impl FieldId {
    /// Does work over the field of this name: the one place where a name is turned into a type.
    pub fn run<V: ForField>(self, work: V) -> V::Out
        requires { V.can_run work (order_of_id self) }
        ensures { V.gives work (order_of_id self) result }
    {
        match self {
            FieldId::F2 => work.run::<F2>(),
            FieldId::F3 => work.run::<F3>(),
            FieldId::F5 => work.run::<F5>(),
            FieldId::F17 => work.run::<F17>(),
            FieldId::F65537 => work.run::<F65537>(),
            FieldId::BabyBear => work.run::<BabyBear>(),
            FieldId::KoalaBear => work.run::<KoalaBear>(),
            FieldId::Goldilocks => work.run::<Goldilocks>(),
        }
    }
}
