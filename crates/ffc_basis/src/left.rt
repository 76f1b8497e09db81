//! What is left of a polynomial that is reduced in place: a sum of ordered lists, or coefficients by number in a table that
//! keeps the multiples of lines that were subtracted.
ghost use Rattle.std.specs.Prelude.{◌≡◌, ◌+◌, ◌≤◌, ◌↔◌, ◌⊎◌, ◌∷◌, [], false, List, length};
ghost use Rattle.std.specs.Prelude.{IsTrue, IsNone, IfOk, IfSome, OnOk, OnErr, MatchOption};
ghost use Rattle.ffc_ring.specs.Polynomial.{Terms, SamePolynomial, term_product, difference};
ghost use Rattle.ffc_mono.specs.Leading.{IsLeading};
ghost use Rattle.ffc_dense.specs.Tables.{AreMultiplesOf, IsLineOf, LeadsMultiple};

use crate::reduction::past_limit;
use ffc_dense::Table;
use ffc_field::Field;
use ffc_mono::{Mono, MonoOrder};
use ffc_poly::{Accumulator, Poly, PolyStop, TERM_LIMIT};
use std::alloc::{AllocError, Global};
use std::marker::Model;
use std::mem;

/// A remainder has at least so many terms where the accumulator serves.
const LONG: usize = 64;

/// And so many times the terms of the line that was subtracted last. Where lines are about as long as what is left, the
/// merges of the accumulator cost more than the copies that they spare.
const TIMES_THE_LINE: usize = 8;

/// A polynomial beside a table of multiples, or in it. A clause sees its terms, and the multiples that are kept.
pub(crate) struct Left<F: Field, O: MonoOrder> {
    sum: Accumulator<F, O>,
    table: Table<F, O>,
    /// Whether the polynomial is that of the table.
    is_in_table: bool,
}

impl<F: Field, O: MonoOrder> Drop for Left<F, O> {
    fn drop(self) {
        let Left {
            sum: _,
            table: _,
            is_in_table: _,
        } = self;
    }
}

impl<F: Field, O: MonoOrder> Model for Left<F, O> {
    ghost use Rattle.std.specs.Prelude.{ℕ, List, if◌then◌else◌};

    ghost Value = { List (ℕ × List (ℕ × ℕ)) × List (ℕ × List (ℕ × ℕ) × List (ℕ × List (ℕ × ℕ))) };

    ghost view = { λ l. (if l.is_in_table then l.table.0 else l.sum, l.table.1) };
}

/// Whether the accumulator serves, where so many terms are left and the last line had so many. There has to be room for steps.
fn is_long(terms: usize, line: usize) -> bool {
    terms >= LONG && terms <= TERM_LIMIT / 2 && terms / TIMES_THE_LINE >= line
}

/// The table, in whose place an empty one is put.
fn taken<F: Field, O: MonoOrder>(alloc: Global, table: &mut Table<F, O>) -> Table<F, O>
    ensures table { result ≡ table.old }
    ensures empty { table.new ≡ ([], []) }
{
    mem::replace(table, Table::new(alloc))
}

/// Loads a polynomial into the table, where that pays and there is room.
fn is_loaded<F: Field, O: MonoOrder>(
    table: &mut Table<F, O>,
    poly: &Poly<F, O>,
    terms: usize,
) -> Result<bool, AllocError>
    ensures terms { IfOk result (λ done. IsTrue done → SamePolynomial F.ORDER table.new.0 poly.now) }
    ensures multiples { (gs : List Terms) → AreMultiplesOf F.ORDER gs table.old.1 → AreMultiplesOf F.ORDER gs table.new.1 }
{
    if !table.pays(terms) {
        return Ok(false);
    }
    table.load(poly)
}

/// A polynomial as a sum.
fn summed<F: Field, O: MonoOrder>(
    alloc: Global,
    poly: &Poly<F, O>,
) -> Result<Accumulator<F, O>, AllocError>
    ensures { IfOk result (λ sum. SamePolynomial F.ORDER sum poly.now) }
{
    let _length = poly.len();
    let mut sum = Accumulator::new(alloc);
    match sum.add(poly) {
        Ok(()) => Ok(sum),
        Err(PolyStop::Memory) => Err(AllocError),
        Err(_) => unreachable!(),
    }
}

/// Begins to reduce a polynomial of which so many terms are left, after a step by a line with so many: in the table where that
/// pays, or as a sum where it is long beside the line. The table is taken.
pub(crate) fn begun<F: Field, O: MonoOrder>(
    alloc: Global,
    table: &mut Table<F, O>,
    poly: &Poly<F, O>,
    terms: usize,
    line: usize,
) -> Result<Option<Left<F, O>>, AllocError>
    ensures same { IfOk result (λ o. IfSome o (λ l. SamePolynomial F.ORDER l.0 poly.now)) }
    ensures multiples { IfOk result (λ o. IfSome o (λ l. (gs : List Terms) → AreMultiplesOf F.ORDER gs table.old.1
        → AreMultiplesOf F.ORDER gs l.1)) }
    ensures rest { (gs : List Terms) → AreMultiplesOf F.ORDER gs table.old.1 → AreMultiplesOf F.ORDER gs table.new.1 }
{
    if is_loaded(table, poly, terms)? {
        let left = Left {
            sum: Accumulator::new(alloc),
            table: taken(alloc, table),
            is_in_table: true,
        };
        return Ok(Some(left));
    }
    if !is_long(terms, line) {
        return Ok(None);
    }
    let sum = summed(alloc, poly)?;
    let left = Left {
        sum,
        table: taken(alloc, table),
        is_in_table: false,
    };
    Ok(Some(left))
}

impl<F: Field, O: MonoOrder> Left<F, O> {
    /// A bound on how many terms there are with so many finished ones, where that many were the bound before.
    pub(crate) fn bound(&self, finished: usize, most: usize) -> usize
        ensures { (result ≡ most) ⊎ ((finished + length self.now.0 ≤ result) × (result ≤ most)) }
    {
        if !self.is_in_table {
            return most;
        }
        let count = self.table.len();
        if finished < most && count < most - finished {
            return finished + count;
        }
        most
    }

    /// The leading coefficient and monomial, or none at zero.
    pub(crate) fn lead(&mut self) -> Result<Option<(F, Mono)>, AllocError>
        ensures same { SamePolynomial F.ORDER self.new.0 self.old.0 }
        ensures multiples { self.new.1 ≡ self.old.1 }
        ensures leading { IfOk result (λ o. IfSome o (λ t. IsLeading F.ORDER O.cmp self.old.0 (F.value t.0) t.1)) }
    {
        if self.is_in_table {
            self.table.lead()
        } else {
            self.sum.lead()
        }
    }

    /// The multiple of a line that the table keeps at the leading monomial, if there is one.
    pub(crate) fn held(&mut self) -> Result<Option<(usize, F, Mono)>, AllocError>
        ensures same { SamePolynomial F.ORDER self.new.0 self.old.0 }
        ensures multiples { self.new.1 ≡ self.old.1 }
        ensures held { IfOk result (λ o. IfSome o (λ t. (gs : List Terms) → AreMultiplesOf F.ORDER gs self.old.1
            → LeadsMultiple F.ORDER O.cmp gs self.old.0 t.0 (F.value t.1) t.2)) }
    {
        if self.is_in_table {
            self.table.held()
        } else {
            Ok(None)
        }
    }

    /// The same, taken off.
    pub(crate) fn take_lead(&mut self) -> Result<Option<(F, Mono)>, AllocError>
        ensures multiples { self.new.1 ≡ self.old.1 }
        ensures zero { IfOk result (λ o. IsNone o ↔ SamePolynomial F.ORDER self.old.0 []) }
        ensures leading { IfOk result (λ o. IfSome o (λ t. IsLeading F.ORDER O.cmp self.old.0 (F.value t.0) t.1)) }
        ensures rest { IfOk result (λ o. MatchOption o (SamePolynomial F.ORDER self.new.0 [])
            (λ t. SamePolynomial F.ORDER self.old.0 ((F.value t.0, t.1) ∷ self.new.0))) }
    {
        if self.is_in_table {
            self.table.take_lead()
        } else {
            self.sum.take_lead()
        }
    }

    /// Subtracts c*m*q, where q is a line with this number and c*m*q has the leading term; or changes nothing, where a limit is
    /// passed or more multiples are not to be kept.
    pub(crate) fn subtract_multiple(
        &mut self,
        line: usize,
        c: F,
        m: &Mono,
        q: &Poly<F, O>,
    ) -> Result<bool, AllocError>
        ensures difference { IfOk result (λ done. IsTrue done → (gs : List Terms)
            → AreMultiplesOf F.ORDER gs self.old.1 → IsLineOf gs line q.now → SamePolynomial F.ORDER self.new.0
            (difference F.ORDER self.old.0 (term_product (F.value c) m.now q.now))) }
        ensures stays { IfOk result (λ done. done ≡ false → SamePolynomial F.ORDER self.new.0 self.old.0) }
        ensures multiples { (gs : List Terms) → AreMultiplesOf F.ORDER gs self.old.1 → IsLineOf gs line q.now
            → AreMultiplesOf F.ORDER gs self.new.1 }
    {
        if self.is_in_table {
            return self.table.subtract_multiple(line, c, m, q);
        }
        match self.sum.subtract_multiple(c, m.as_ref(), q) {
            Ok(()) => Ok(true),
            Err(stop) => {
                past_limit(stop)?;
                Ok(false)
            }
        }
    }

    /// The polynomial. The table is given back.
    pub(crate) fn into_poly(self, table: &mut Table<F, O>) -> Result<Poly<F, O>, AllocError>
        ensures same { IfOk result (λ r. SamePolynomial F.ORDER r self.0) }
        ensures given { OnOk result (table.new.1 ≡ self.1) }
        ensures unchanged { OnErr result (table.new ≡ table.old) }
    {
        let Left {
            sum,
            table: own,
            is_in_table,
        } = self;
        if is_in_table {
            let poly = own.polynomial()?;
            *table = own;
            return Ok(poly);
        }
        let poly = sum.into_poly()?;
        *table = own;
        Ok(poly)
    }
}
