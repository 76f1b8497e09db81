//! Monomials by number.
ghost use Rattle.std.specs.Prelude.{◌≡◌, ◌<◌, ◌≤◌, [], ◌∷◌, ◌++◌, length, get_or, IfOk, IfSome, IfNone, OnErr};
ghost use Rattle.std.specs.List.{insert};
ghost use Rattle.ffc_dense.specs.Columns.{AreColumns, IsNew, IsPlaceFor};

use ffc_mono::{Mono, MonoOrder};
use indexmap::IndexSet;
use std::alloc::{AllocError, Global};
use std::cmp::Ordering;
use std::marker::{Model, PhantomData};

/// There are at most so many monomials, as a polynomial has terms.
pub(crate) const COLUMN_LIMIT: usize = 131_072;

/// Monomials by number, from 0. A clause sees them in the order of their numbers, and their numbers from the greatest monomial
/// to the least.
pub(crate) struct Columns<O: MonoOrder> {
    monomials: IndexSet<Mono>,
    numbers: Vec<u32>,
    order: PhantomData<O>,
}

impl<O: MonoOrder> Drop for Columns<O> {
    fn drop(self) {
        let Columns {
            monomials: _,
            numbers: _,
            order: _,
        } = self;
    }
}

impl<O: MonoOrder> Model for Columns<O> {
    ghost use Rattle.std.specs.Prelude.{ℕ, List, ◌≤◌, length};
    ghost use Rattle.ffc_dense.specs.Columns.{AreColumns};

    ghost Value = { List (List (ℕ × ℕ)) × List ℕ };

    ghost view = { λ c. (c.monomials.keys, c.numbers.items) };

    ghost invariant = { λ c. AreColumns O.cmp c.monomials.keys c.numbers.items × (length c.monomials.keys ≤ 131072) };
}

impl<O: MonoOrder> Columns<O> {
    /// No monomials. It takes no memory.
    pub(crate) fn new(alloc: Global) -> Self
        ensures { result ≡ ([], []) }
    {
        Columns {
            monomials: IndexSet::new(alloc),
            numbers: Vec::new(alloc),
            order: PhantomData,
        }
    }

    /// How many monomials there are.
    pub(crate) fn len(&self) -> usize
        ensures value { result ≡ length self.now.0 }
        ensures columns { AreColumns O.cmp self.now.0 self.now.1 }
        ensures few { result ≤ COLUMN_LIMIT }
    {
        self.monomials.len()
    }

    /// How many numbers there are in order.
    pub(crate) fn places(&self) -> usize
        ensures { result ≡ length self.now.1 }
    {
        self.numbers.len()
    }

    /// The number at a place.
    pub(crate) fn at(&self, place: usize) -> usize
        requires { place < length self.now.1 }
        ensures value { result ≡ get_or self.now.1 place 0 }
        ensures within { result < length self.now.0 }
    {
        self.numbers[place] as usize
    }

    /// The monomial of a number.
    pub(crate) fn monomial(&self, number: usize) -> &Mono
        requires { number < length self.now.0 }
        ensures { result.now ≡ get_or self.now.0 number [] }
    {
        &self.monomials.as_slice()[number]
    }

    /// The number of a monomial.
    pub(crate) fn find(&self, m: &Mono) -> Option<usize>
        ensures some { IfSome result (λ n. (n < length self.now.0) × (get_or self.now.0 n [] ≡ m.now)) }
        ensures none { IfNone result (IsNew self.now.0 m.now) }
    {
        match self.monomials.get_index_of(m) {
            Some(number) => Some(number),
            None => None,
        }
    }

    /// Where the number of a new monomial belongs.
    fn place_for(&self, m: &Mono) -> usize
        requires { IsNew self.now.0 m.now }
        ensures { IsPlaceFor O.cmp self.now.0 self.now.1 m.now result }
    {
        let _count = self.len();
        let mut low = 0;
        let mut high = self.places();
        while low < high {
            let middle = low + (high - low) / 2;
            let other = self.monomial(self.at(middle));
            match O::compare(other, m) {
                Ordering::Greater => low = middle + 1,
                Ordering::Equal => high = middle,
                Ordering::Less => high = middle,
            }
        }
        low
    }

    /// Gives a new monomial the next number, and answers the place of that.
    pub(crate) fn insert(&mut self, m: Mono) -> Result<usize, AllocError>
        requires new { IsNew self.old.0 m }
        requires room { length self.old.0 < COLUMN_LIMIT }
        ensures inside { IfOk result (λ place. place ≤ length self.old.1) }
        ensures inserted { IfOk result (λ place. self.new
            ≡ (self.old.0 ++ m ∷ [], insert self.old.1 place (length self.old.0))) }
        ensures unchanged { OnErr result (self.new ≡ self.old) }
    {
        let place = self.place_for(&m);
        let number = self.len();
        self.numbers.reserve(1)?;
        self.monomials.insert_full(m)?;
        match self.numbers.insert(place, number as u32) {
            Ok(()) => Ok(place),
            Err(_) => unreachable!(),
        }
    }
}
