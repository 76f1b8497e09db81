//! Sums and differences modulo an order, with no division.
ghost use Rattle.std.specs.Prelude.{◌≡◌, ◌<◌};
ghost use Rattle.ffc_field.specs.Modular.{add_mod, sub_mod};

/// The sum of two residues, modulo the order.
#[tactic(auto, using(crate::proofs::Rests::rest_same, crate::proofs::Rests::rest_once))]
pub fn sum(order: u64, a: u64, b: u64) -> u64
    requires a_below { a < order }
    requires b_below { b < order }
    ensures { result ≡ add_mod order a b }
{
    let gap = order - b;
    if a < gap { a + b } else { a - gap }
}

/// The difference of two residues, modulo the order.
#[tactic(auto, using(crate::proofs::Rests::rest_same, crate::proofs::Rests::rest_once))]
pub fn difference(order: u64, a: u64, b: u64) -> u64
    requires a_below { a < order }
    requires b_below { b < order }
    ensures { result ≡ sub_mod order a b }
{
    if a < b { a + (order - b) } else { a - b }
}
