//! The order 2^64 - 2^32 + 1, and the reduction by its own rule.
ghost use Rattle.std.specs.Prelude.{ℕ};
ghost use Rattle.std.proofs.Common.{rules};
ghost use Rattle.ffc_field.specs.Primality.{goldilocks_is_prime};

use crate::order::Order;
use crate::remainder::{difference, sum};

/// 2^64 - 2^32 + 1.
const ORDER: u64 = 0xffff_ffff_0000_0001;

/// 2^64 modulo the order, 2^32 - 1; also the largest number of 32 bits.
const EPSILON: u64 = 0xffff_ffff;

/// The order 2^64 - 2^32 + 1.
#[derive(Clone, Copy, Debug, PartialEq, Eq, Hash)]
pub struct GoldilocksOrder;

impl Order<u64> for GoldilocksOrder {
    ghost ORDER = { 18446744069414584321 };

    ghost prime = { goldilocks_is_prime };

    ghost fits = { Prim.search rules };

    const ORDER: u64 = ORDER;

    /// With no division: modulo the order 2^64 is 2^32 - 1, and 2^96 is -1, so with the digits of 32 bits
    /// `low + middle * 2^64 + top * 2^96` is `low - top + middle * (2^32 - 1)`.
    fn reduce(n: u128) -> u64 {
        let word = (n & 0xffff_ffff_ffff_ffff) as u64;
        let low = if word < ORDER { word } else { word - ORDER };
        let high = (n >> 64) as u64;
        let top = high >> 32;
        let middle = high & EPSILON;
        sum(ORDER, difference(ORDER, low, top), middle * EPSILON)
    }
}
