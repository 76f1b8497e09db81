//! The eight prime orders.
ghost use Rattle.std.specs.Prelude.{◌≡◌, ℕ, ◌%◌, ◌<◌, ◌≤◌, ◌^◌};
ghost use Rattle.std.proofs.Common.{rules};
ghost use Rattle.ffc_field.specs.Modular.{IsPrime};
ghost use Rattle.ffc_field.specs.Primality.{two_is_prime, three_is_prime, five_is_prime, seventeen_is_prime};
ghost use Rattle.ffc_field.specs.Primality.{fermat_four_is_prime, baby_bear_is_prime, koala_bear_is_prime};

use crate::word::Word;

/// A prime order whose residues fit the word `W`.
pub trait Order<W: Word>: Copy + Eq {
    ghost ORDER: { ℕ };

    /// The order.
    const ORDER: u64;

    /// The remainder modulo the order: by a division, unless the order has a rule of its own.
    fn reduce(n: u128) -> u64
        ensures { result ≡ n % ORDER }
    {
        if n < 1 << 64 {
            n as u64 % Self::ORDER
        } else {
            (n % Self::ORDER as u128) as u64
        }
    }

    /// The order is prime.
    ghost prime: { IsPrime ORDER };

    /// The order, and so each residue, fits the word.
    ghost fits: { ORDER < W.CAPACITY };
}

/// The order 2.
#[derive(Clone, Copy, Debug, PartialEq, Eq, Hash)]
pub struct Two;

impl Order<u8> for Two {
    ghost ORDER = { 2 };

    ghost prime = { two_is_prime };

    ghost fits = { Prim.search rules };

    const ORDER: u64 = 2;
}

/// The order 3.
#[derive(Clone, Copy, Debug, PartialEq, Eq, Hash)]
pub struct Three;

impl Order<u8> for Three {
    ghost ORDER = { 3 };

    ghost prime = { three_is_prime };

    ghost fits = { Prim.search rules };

    const ORDER: u64 = 3;
}

/// The order 5.
#[derive(Clone, Copy, Debug, PartialEq, Eq, Hash)]
pub struct Five;

impl Order<u8> for Five {
    ghost ORDER = { 5 };

    ghost prime = { five_is_prime };

    ghost fits = { Prim.search rules };

    const ORDER: u64 = 5;
}

/// The order 17.
#[derive(Clone, Copy, Debug, PartialEq, Eq, Hash)]
pub struct Seventeen;

impl Order<u8> for Seventeen {
    ghost ORDER = { 17 };

    ghost prime = { seventeen_is_prime };

    ghost fits = { Prim.search rules };

    const ORDER: u64 = 17;
}

/// The order 65537, the fourth Fermat number, 2^16 + 1.
#[derive(Clone, Copy, Debug, PartialEq, Eq, Hash)]
pub struct FermatFour;

impl Order<u32> for FermatFour {
    ghost ORDER = { 65537 };

    ghost prime = { fermat_four_is_prime };

    ghost fits = { Prim.search rules };

    const ORDER: u64 = 65537;
}

/// The order 15 * 2^27 + 1.
#[derive(Clone, Copy, Debug, PartialEq, Eq, Hash)]
pub struct BabyBearOrder;

impl Order<u32> for BabyBearOrder {
    ghost ORDER = { 2013265921 };

    ghost prime = { baby_bear_is_prime };

    ghost fits = { Prim.search rules };

    const ORDER: u64 = 2013265921;
}

/// The order 127 * 2^24 + 1.
#[derive(Clone, Copy, Debug, PartialEq, Eq, Hash)]
pub struct KoalaBearOrder;

impl Order<u32> for KoalaBearOrder {
    ghost ORDER = { 2130706433 };

    ghost prime = { koala_bear_is_prime };

    ghost fits = { Prim.search rules };

    const ORDER: u64 = 2130706433;
}
