//! Ordered terms whose first ones are taken off one by one.
ghost use Rattle.std.specs.Prelude.{◌≡◌, ◌<◌, [], ◌∷◌, length, drop, get_or};

use crate::terms::TermList;
use ffc_field::Field;
use ffc_mono::MonoRef;
use std::marker::Model;

/// The terms of a list from a place on.
#[derive(Debug)]
pub struct Tail<F: Field> {
    pub terms: TermList<F>,
    pub from: usize,
}

impl<F: Field> Drop for Tail<F> {
    fn drop(self) {
        let Tail { terms: _, from: _ } = self;
    }
}

impl<F: Field> Model for Tail<F> {
    ghost use Rattle.std.specs.Prelude.{ℕ, ◌≤◌, List, length, drop};

    ghost Value = { List (ℕ × List (ℕ × ℕ)) };

    ghost view = { λ t. drop t.from t.terms };

    ghost invariant = { λ t. t.from ≤ length t.terms };
}

impl<F: Field> Tail<F> {
    /// All of these terms.
    pub fn new(terms: TermList<F>) -> Self
        ensures { result ≡ terms }
    {
        Tail { terms, from: 0 }
    }

    /// How many terms are left.
    pub fn len(&self) -> usize
        ensures { result ≡ length self.now }
    {
        self.terms.len() - self.from
    }

    /// The first term.
    pub fn first(&self) -> (F, MonoRef<'_>)
        requires { 0 < length self.now }
        ensures coefficient { F.value result.0 ≡ (get_or self.now 0 (0, [])).0 }
        ensures monomial { result.1.powers.now ≡ (get_or self.now 0 (0, [])).1 }
    {
        self.terms.get(self.from)
    }

    /// Takes the first term off.
    pub fn drop_first(&mut self)
        requires { 0 < length self.old }
        ensures { self.new ≡ drop 1 self.old }
    {
        let _end = self.terms.len();
        self.from += 1;
    }

    /// Puts another coefficient in place of that of the first term.
    pub fn set_first(&mut self, c: F)
        requires { 0 < length self.old }
        ensures { self.new ≡ (F.value c, (get_or self.old 0 (0, [])).1) ∷ drop 1 self.old }
    {
        self.terms.set_coefficient(self.from, c);
    }
}
