//! Sums that grow and shrink by multiples of short polynomials.
ghost use Rattle.std.specs.Prelude.{◌≡◌, ◌≢◌, ℕ, ◌+◌, ◌<◌, ◌≤◌, ◌↔◌, [], ◌∷◌, ◌++◌, length, IsNone, IfOk, IfSome, OnOk};
ghost use Rattle.std.specs.Prelude.{OnErr, IsErrOf, MatchOption};
ghost use Rattle.ffc_ring.specs.Polynomial.{SamePolynomial, term_product, scaled, difference, PassesDegree};
ghost use Rattle.ffc_ring.specs.Polynomial.{PassesTerms};
ghost use Rattle.ffc_mono.specs.Leading.{IsLeading};
ghost use Rattle.ffc_poly.specs.Ordered.{IsWithinTerms, IsOverTerms};

use crate::poly::{Poly, TERM_LIMIT};
use crate::stop::PolyStop;
use crate::tail::Tail;
use crate::tails::{self, is_within};
use ffc_field::Field;
use ffc_mono::{DEGREE_LIMIT, Mono, MonoOrder, MonoRef};
use std::alloc::{AllocError, Global};
use std::marker::{Model, PhantomData};

/// A polynomial as a sum of ordered lists, each about twice as long as the next or longer (Yan, "The geobucket data
/// structure for polynomials", 1998). So subtracting a multiple of a short polynomial from a long one seldom touches the
/// long one. A clause sees the terms of all lists, one after another, and compares them as polynomials.
#[derive(Debug)]
pub struct Accumulator<F: Field, O: MonoOrder> {
    tails: Vec<Tail<F>>,
    order: PhantomData<O>,
}

impl<F: Field, O: MonoOrder> Drop for Accumulator<F, O> {
    fn drop(self) {
        let Accumulator { tails: _, order: _ } = self;
    }
}

impl<F: Field, O: MonoOrder> Model for Accumulator<F, O> {
    ghost use Rattle.std.specs.Prelude.{ℕ, List};
    ghost use Rattle.ffc_ring.specs.Polynomial.{PassesTerms};
    ghost use Rattle.ffc_poly.specs.Ordered.{sum_of};
    ghost use Rattle.ffc_poly.specs.Tails.{AreOrdered};

    ghost Value = { List (ℕ × List (ℕ × ℕ)) };

    ghost view = { λ a. sum_of a.tails.items };

    ghost invariant = { λ a. AreOrdered F.ORDER O.cmp 1024 a.tails.items
        × (PassesTerms F.ORDER 131072 (sum_of a.tails.items) → ⊥) };
}

impl<F: Field, O: MonoOrder> Accumulator<F, O> {
    /// The polynomial 0. It takes no memory.
    pub fn new(alloc: Global) -> Self
        ensures { result ≡ [] }
    {
        Accumulator {
            tails: Vec::new(alloc),
            order: PhantomData,
        }
    }

    /// Adds k*p for a constant k other than 0.
    fn put(&mut self, k: F, p: &Poly<F, O>) -> Result<(), PolyStop>
        requires { F.value k ≢ 0 }
        ensures sum { OnOk result (SamePolynomial F.ORDER self.new (self.old ++ scaled (F.value k) p.now)) }
        ensures fits { OnOk result (IsWithinTerms F.ORDER TERM_LIMIT (self.old ++ scaled (F.value k) p.now)) }
        ensures over { IsErrOf result PolyStop.TermsOver → IsOverTerms F.ORDER TERM_LIMIT
            (self.old ++ scaled (F.value k) p.now) }
        ensures no_product { IsErrOf result PolyStop.DegreeOver → ⊥ }
        ensures unchanged { OnErr result (self.new ≡ self.old) }
    {
        let terms = p.listed();
        if is_within(self.tails.as_slice(), TERM_LIMIT - p.len()) {
            tails::append_multiple::<F, O>(&mut self.tails, k, terms)?;
            return Ok(());
        }
        let alloc = *self.tails.allocator();
        let whole = tails::merged_with_multiple::<F, O>(alloc, self.tails.as_slice(), k, terms)?;
        if whole.len() > TERM_LIMIT {
            return Err(PolyStop::TermsOver);
        }
        self.tails = tails::single(alloc, whole)?;
        Ok(())
    }

    /// Adds a polynomial. Where it passes the limit on terms, or there is no memory, nothing changes.
    pub fn add(&mut self, p: &Poly<F, O>) -> Result<(), PolyStop>
        ensures sum { OnOk result (SamePolynomial F.ORDER self.new (self.old ++ p.now)) }
        ensures fits { OnOk result (PassesTerms F.ORDER TERM_LIMIT (self.old ++ p.now) → ⊥) }
        ensures terms_over { IsErrOf result PolyStop.TermsOver → PassesTerms F.ORDER TERM_LIMIT (self.old ++ p.now) }
        ensures short { length self.old + length p.now ≤ TERM_LIMIT → IsErrOf result PolyStop.TermsOver → ⊥ }
        ensures no_product { IsErrOf result PolyStop.DegreeOver → ⊥ }
        ensures unchanged { OnErr result (self.new ≡ self.old) }
    {
        self.put(F::of(1), p)
    }

    /// Subtracts a polynomial. Where it passes the limit on terms, or there is no memory, nothing changes.
    pub fn subtract(&mut self, p: &Poly<F, O>) -> Result<(), PolyStop>
        ensures difference { OnOk result (SamePolynomial F.ORDER self.new (difference F.ORDER self.old p.now)) }
        ensures fits { OnOk result (PassesTerms F.ORDER TERM_LIMIT (difference F.ORDER self.old p.now) → ⊥) }
        ensures terms_over { IsErrOf result PolyStop.TermsOver → PassesTerms F.ORDER TERM_LIMIT
            (difference F.ORDER self.old p.now) }
        ensures short { length self.old + length p.now ≤ TERM_LIMIT → IsErrOf result PolyStop.TermsOver → ⊥ }
        ensures no_product { IsErrOf result PolyStop.DegreeOver → ⊥ }
        ensures unchanged { OnErr result (self.new ≡ self.old) }
    {
        self.put(F::of(1).neg(), p)
    }

    /// Subtracts c*m*q. Where it passes a limit, or there is no memory, nothing changes.
    pub fn subtract_multiple(
        &mut self,
        c: F,
        m: MonoRef<'_>,
        q: &Poly<F, O>,
    ) -> Result<(), PolyStop>
        ensures difference { OnOk result (SamePolynomial F.ORDER self.new
            (difference F.ORDER self.old (term_product (F.value c) m.entry.powers.now q.now))) }
        ensures fits { OnOk result (PassesTerms F.ORDER TERM_LIMIT
            (difference F.ORDER self.old (term_product (F.value c) m.entry.powers.now q.now)) → ⊥) }
        ensures terms_over { IsErrOf result PolyStop.TermsOver
            → PassesTerms F.ORDER TERM_LIMIT
            (difference F.ORDER self.old (term_product (F.value c) m.entry.powers.now q.now)) }
        ensures short { length self.old + length q.now ≤ TERM_LIMIT → IsErrOf result PolyStop.TermsOver → ⊥ }
        ensures degree_over { IsErrOf result PolyStop.DegreeOver ↔ PassesDegree F.ORDER DEGREE_LIMIT
            ((F.value c, m.entry.powers.now) ∷ []) q.now }
        ensures unchanged { OnErr result (self.new ≡ self.old) }
    {
        let multiple = q.times(c, m)?;
        self.subtract(&multiple)
    }

    /// The leading coefficient and monomial, or none at zero. Leading terms that cancel are dropped as they are met.
    pub fn lead(&mut self) -> Result<Option<(F, Mono)>, AllocError>
        ensures same { SamePolynomial F.ORDER self.new self.old }
        ensures zero { IfOk result (λ o. IsNone o ↔ SamePolynomial F.ORDER self.old []) }
        ensures leading { IfOk result (λ o. IfSome o (λ t. IsLeading F.ORDER O.cmp self.old (F.value t.0) t.1)) }
    {
        let Some((_, first)) = tails::settled_lead::<F, O>(&mut self.tails)? else {
            return Ok(None);
        };
        Ok(Some(first))
    }

    /// The same, taken off. Without memory the polynomial stays.
    pub fn take_lead(&mut self) -> Result<Option<(F, Mono)>, AllocError>
        ensures zero { IfOk result (λ o. IsNone o ↔ SamePolynomial F.ORDER self.old []) }
        ensures leading { IfOk result (λ o. IfSome o (λ t. IsLeading F.ORDER O.cmp self.old (F.value t.0) t.1)) }
        ensures rest { IfOk result (λ o. MatchOption o (SamePolynomial F.ORDER self.new [])
            (λ t. SamePolynomial F.ORDER self.old ((F.value t.0, t.1) ∷ self.new))) }
        ensures unchanged { OnErr result (SamePolynomial F.ORDER self.new self.old) }
    {
        let Some((i, first)) = tails::settled_lead::<F, O>(&mut self.tails)? else {
            return Ok(None);
        };
        tails::drop_lead::<F, O>(&mut self.tails, i);
        Ok(Some(first))
    }

    /// The polynomial.
    pub fn into_poly(self) -> Result<Poly<F, O>, AllocError>
        ensures { IfOk result (λ r. SamePolynomial F.ORDER r self) }
    {
        let alloc = *self.tails.allocator();
        let terms = tails::merged::<F, O>(alloc, self.tails.as_slice())?;
        Ok(Poly::of_terms(terms))
    }
}
