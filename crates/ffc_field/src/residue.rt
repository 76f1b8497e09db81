//! Residues of a prime order, and the arithmetic on them.
ghost use Rattle.std.specs.Prelude.{◌≡◌, ℕ, ◌%◌, ◌<◌, ◌≤◌, ◌^◌, IfOk};
ghost use Rattle.std.proofs.Common.{rules, ap};
ghost use Rattle.ffc_field.specs.Bounded.{same_pair};

use crate::field::Field;
use crate::order::Order;
use crate::remainder::{difference, sum};
use crate::word::Word;
use std::alloc::AllocError;
use std::marker::PhantomData;

/// A residue of the order `O`, kept in the word `W`.
#[derive(Copy, Debug, PartialEq, Eq, Hash)]
pub struct Residue<W: Word, O: Order<W>> {
    word: W,
    order: PhantomData<O>,
    ghost below: { W.number word < O.ORDER },
}

impl<W: Word, O: Order<W>> Clone for Residue<W, O> {
    ghost is_clone = { λ residue copy. copy ≡ residue };

    ghost is_infallible = { λ _. Unit {0} };

    fn clone(&self) -> Result<Self, AllocError> {
        Ok(*self)
    }
}

impl<W: Word, O: Order<W>> Residue<W, O> {
    fn new(residue: u64) -> Self
        requires { residue < O.ORDER }
        ensures { W.number result.word ≡ residue }
    {
        Residue {
            word: W::narrow(residue),
            order: PhantomData,
        }
    }
}

impl<W: Word, O: Order<W>> Field for Residue<W, O> {
    ghost ORDER = { O.ORDER };

    ghost value = { λ x. W.number x.word };

    ghost prime = { O.prime };

    ghost fits = { Prim.search (O.fits, W.fits, rules) };

    ghost below = { λ x. x.below };

    ghost one_value = { λ x y same. ap (λ s. record { word = s.0; order = x.order; below = s.1 })
        (same_pair W.number O.ORDER x.word y.word x.below y.below (W.one_number x.word y.word same)) };

    ghost eq_is = { Prim.search (W.eq_is, rules) };

    const ORDER: u64 = O::ORDER;

    fn of(n: u128) -> Self {
        Residue::new(O::reduce(n))
    }

    fn residue(self) -> u64 {
        self.word.widen()
    }

    fn add(self, other: Self) -> Self {
        Residue::new(sum(O::ORDER, self.residue(), other.residue()))
    }

    fn sub(self, other: Self) -> Self {
        Residue::new(difference(O::ORDER, self.residue(), other.residue()))
    }

    fn mul(self, other: Self) -> Self {
        Residue::new(O::reduce(self.residue() as u128 * other.residue() as u128))
    }

    fn add_scaled(self, scale: Self, other: Self) -> Self {
        let product = scale.residue() as u128 * other.residue() as u128;
        Residue::new(O::reduce(self.residue() as u128 + product))
    }

    fn neg(self) -> Self {
        Residue::new(difference(O::ORDER, 0, self.residue()))
    }

    /// By repeated squaring (Knuth, The Art of Computer Programming, volume 2, 4.6.3): at most 127 products.
    fn pow(self, e: u64) -> Self {
        if e == 0 {
            return Self::of(1);
        }
        let mut product = Self::of(1);
        let mut square = self;
        let mut rest = e;
        while rest > 1 {
            if rest % 2 == 1 {
                product = product.mul(square);
            }
            square = square.mul(square);
            rest /= 2;
        }
        product.mul(square)
    }

    /// The power to the order less 2, by Fermat's theorem.
    fn inv(self) -> Option<Self> {
        if self.residue() == 0 {
            None
        } else {
            Some(self.pow(O::ORDER - 2))
        }
    }
}
