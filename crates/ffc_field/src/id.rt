//! The eight fields by name.
ghost use Rattle.std.specs.Prelude.{◌≡◌, IsNone, IfSome};
ghost use Rattle.ffc_field.specs.Orders.{order_of_id, IsOrder};

/// One of the eight fields.
#[derive(Clone, Copy, Debug, PartialEq, Eq, Hash, PartialOrd, Ord)]
pub enum FieldId {
    F2,
    F3,
    F5,
    F17,
    F65537,
    BabyBear,
    KoalaBear,
    Goldilocks,
}

impl FieldId {
    /// The field of this order; none where the order is not one of the eight.
    pub fn of_order(n: u128) -> Option<FieldId>
        ensures found { IfSome result (λ id. order_of_id id ≡ n) }
        ensures only { (id : FieldId) → order_of_id id ≡ n → result ≡ Some id }
        ensures none { IsNone result → IsOrder n → ⊥ }
    {
        match n {
            2 => Some(FieldId::F2),
            3 => Some(FieldId::F3),
            5 => Some(FieldId::F5),
            17 => Some(FieldId::F17),
            65537 => Some(FieldId::F65537),
            2013265921 => Some(FieldId::BabyBear),
            2130706433 => Some(FieldId::KoalaBear),
            18446744069414584321 => Some(FieldId::Goldilocks),
            _ => None,
        }
    }

    /// The order.
    pub fn order(self) -> u64
        ensures { result ≡ order_of_id self }
    {
        match self {
            FieldId::F2 => 2,
            FieldId::F3 => 3,
            FieldId::F5 => 5,
            FieldId::F17 => 17,
            FieldId::F65537 => 65537,
            FieldId::BabyBear => 2013265921,
            FieldId::KoalaBear => 2130706433,
            FieldId::Goldilocks => 18446744069414584321,
        }
    }
}
