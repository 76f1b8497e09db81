//! Polynomials.
ghost use Rattle.std.specs.Prelude.{◌≡◌, ◌≢◌, ℕ, ◌+◌, ◌*◌, ◌<◌, ◌≤◌, ◌↔◌, List, [], ◌∷◌, ◌++◌, length, drop, get_or};
ghost use Rattle.std.specs.Prelude.{IsTrue, IsNone, IfOk, IfSome, OnOk, IsErrOf, IfErr};
ghost use Rattle.ffc_field.specs.Modular.{add_mod, sub_mod, mul_mod};
ghost use Rattle.ffc_ring.specs.Monomial.{mono_value};
ghost use Rattle.ffc_ring.specs.Polynomial.{SamePolynomial, term_product, product, scaled, difference, poly_value};
ghost use Rattle.ffc_ring.specs.Polynomial.{PassesDegree, PassesTerms};
ghost use Rattle.ffc_mono.specs.Leading.{IsLeading};
ghost use Rattle.ffc_poly.specs.Ordered.{residues, sum_of, IsOrdered, IsConstant, IsWithinTerms, IsOverTerms, point_of};

use crate::iteration::TermIter;
use crate::stop::PolyStop;
use crate::terms::TermList;
use crate::{multiples, products, sums, values};
use ffc_field::Field;
use ffc_mono::{DEGREE_LIMIT, Mono, MonoOrder, MonoRef};
use std::alloc::{AllocError, Global};
use std::marker::{Model, PhantomData};

/// The greatest number of terms.
pub const TERM_LIMIT: usize = 131_072;

/// A polynomial: its terms in strictly decreasing order, with coefficients other than 0. A clause sees the list of
/// pairs of residue and monomial.
#[derive(Debug)]
pub struct Poly<F: Field, O: MonoOrder> {
    terms: TermList<F>,
    order: PhantomData<O>,
}

impl<F: Field, O: MonoOrder> Drop for Poly<F, O> {
    fn drop(self) {
        let Poly { terms: _, order: _ } = self;
    }
}

impl<F: Field, O: MonoOrder> Model for Poly<F, O> {
    ghost use Rattle.std.specs.Prelude.{ℕ, ◌≤◌, List, length};
    ghost use Rattle.ffc_poly.specs.Ordered.{IsOrdered};

    ghost Value = { List (ℕ × List (ℕ × ℕ)) };

    ghost view = { λ a. a.terms };

    ghost invariant = { λ a. IsOrdered F.ORDER O.cmp 1024 a.terms × (length a.terms ≤ 131072) };
}

impl<F: Field, O: MonoOrder> Clone for Poly<F, O> {
    ghost use Rattle.std.specs.Prelude.{◌≡◌};

    ghost is_clone = { λ a b. b ≡ a };

    fn clone(&self) -> Result<Self, AllocError> {
        Ok(Poly {
            terms: self.terms.clone()?,
            order: PhantomData,
        })
    }
}

impl<F: Field, O: MonoOrder> PartialEq for Poly<F, O> {
    ghost use Rattle.std.specs.Cmp.{partial_equiv_from_equiv};
    ghost use Rattle.ffc_poly.specs.Equality.{same_terms, same_terms_equivalence};

    ghost eq = { same_terms };

    ghost laws = { partial_equiv_from_equiv same_terms_equivalence };

    fn eq(&self, other: &Self) -> bool
        ensures value { result ≡ same_terms self.now other.now }
        ensures list { IsTrue result ↔ (self.now ≡ other.now) }
        ensures polynomial { IsTrue result ↔ SamePolynomial F.ORDER self.now other.now }
    {
        values::are_equal(self.listed(), other.listed())
    }
}

impl<F: Field, O: MonoOrder> Eq for Poly<F, O> {
    ghost use Rattle.ffc_poly.specs.Equality.{same_terms_equivalence};

    ghost laws = { same_terms_equivalence };
}

impl<F: Field, O: MonoOrder> Poly<F, O> {
    /// The polynomial 0. It takes no memory.
    pub fn zero(alloc: Global) -> Self
        ensures { result ≡ [] }
    {
        Poly {
            terms: TermList::new(alloc),
            order: PhantomData,
        }
    }

    /// The polynomial of these terms, which are ordered, where they are not too many.
    fn within(terms: TermList<F>) -> Result<Self, PolyStop>
        requires { IsOrdered F.ORDER O.cmp DEGREE_LIMIT terms }
        ensures value { IfOk result (λ r. r ≡ terms) }
        ensures fits { OnOk result (IsWithinTerms F.ORDER TERM_LIMIT terms) }
        ensures over { IsErrOf result PolyStop.TermsOver → IsOverTerms F.ORDER TERM_LIMIT terms }
        ensures no_product { IsErrOf result PolyStop.DegreeOver → ⊥ }
    {
        if terms.len() > TERM_LIMIT {
            return Err(PolyStop::TermsOver);
        }
        Ok(Poly {
            terms,
            order: PhantomData,
        })
    }

    /// The polynomial of these terms, which are ordered and not too many.
    pub(crate) fn of_terms(terms: TermList<F>) -> Self
        requires ordered { IsOrdered F.ORDER O.cmp DEGREE_LIMIT terms }
        requires fits { PassesTerms F.ORDER TERM_LIMIT terms → ⊥ }
        ensures { result ≡ terms }
    {
        Poly {
            terms,
            order: PhantomData,
        }
    }

    /// The sum of any terms. With n terms it takes at most n comparisons for each halving of n, and copies each
    /// monomial at most so often.
    pub fn from_terms(alloc: Global, terms: &[(F, Mono)]) -> Result<Self, PolyStop>
        ensures sum { IfOk result (λ r. SamePolynomial F.ORDER r (residues F.value terms.now)) }
        ensures fits { OnOk result (PassesTerms F.ORDER TERM_LIMIT (residues F.value terms.now) → ⊥) }
        ensures terms_over { IsErrOf result PolyStop.TermsOver → PassesTerms F.ORDER TERM_LIMIT
            (residues F.value terms.now) }
        ensures short { length terms.now ≤ TERM_LIMIT → IsErrOf result PolyStop.TermsOver → ⊥ }
        ensures no_product { IsErrOf result PolyStop.DegreeOver → ⊥ }
    {
        Self::within(sums::sum_of::<F, O>(alloc, terms)?)
    }

    /// The sum of any polynomials, merged by halves. With n terms in k of them it takes at most n comparisons for each
    /// halving of k.
    pub fn sum(alloc: Global, parts: &[Self]) -> Result<Self, PolyStop>
        ensures sum { IfOk result (λ r. SamePolynomial F.ORDER r (sum_of parts.now)) }
        ensures fits { OnOk result (PassesTerms F.ORDER TERM_LIMIT (sum_of parts.now) → ⊥) }
        ensures terms_over { IsErrOf result PolyStop.TermsOver → PassesTerms F.ORDER TERM_LIMIT (sum_of parts.now) }
        ensures short { length (sum_of parts.now) ≤ TERM_LIMIT → IsErrOf result PolyStop.TermsOver → ⊥ }
        ensures no_product { IsErrOf result PolyStop.DegreeOver → ⊥ }
    {
        Self::within(Self::merged(alloc, parts)?)
    }

    /// The terms of the sum.
    fn merged(alloc: Global, parts: &[Self]) -> Result<TermList<F>, AllocError>
        ensures ordered { IfOk result (λ v. IsOrdered F.ORDER O.cmp DEGREE_LIMIT v) }
        ensures same { IfOk result (λ v. SamePolynomial F.ORDER v (sum_of parts.now)) }
    {
        match parts {
            [] => Ok(TermList::new(alloc)),
            [part] => part.listed().clone(),
            _ => {
                let (front, back) = parts.split_at(parts.len() / 2);
                let front = Self::merged(alloc, front)?;
                let back = Self::merged(alloc, back)?;
                sums::add_scaled::<F, O>(alloc, &front, F::of(1), &back)
            }
        }
    }

    /// The terms, in strictly decreasing order.
    pub(crate) fn listed(&self) -> &TermList<F>
        ensures value { result.now ≡ self.now }
        ensures ordered { IsOrdered F.ORDER O.cmp DEGREE_LIMIT self.now }
        ensures fits { length self.now ≤ TERM_LIMIT }
    {
        &self.terms
    }

    /// How many terms there are.
    pub fn len(&self) -> usize
        ensures value { result ≡ length self.now }
        ensures ordered { IsOrdered F.ORDER O.cmp DEGREE_LIMIT self.now }
        ensures fits { result ≤ TERM_LIMIT }
    {
        self.listed().len()
    }

    /// The coefficient and the monomial of the term at a place, counted from the leading one.
    pub fn term(&self, i: usize) -> (F, MonoRef<'_>)
        requires { i < length self.now }
        ensures coefficient { F.value result.0 ≡ (get_or self.now i (0, [])).0 }
        ensures monomial { result.1.powers.now ≡ (get_or self.now i (0, [])).1 }
    {
        self.listed().get(i)
    }

    /// The terms in order, the leading one first.
    pub fn iter(&self) -> TermIter<'_, F>
        ensures { drop result.next result.terms.now ≡ self.now }
    {
        TermIter::new(self.listed())
    }

    /// Whether it is the polynomial 0.
    pub fn is_zero(&self) -> bool
        ensures { IsTrue result ↔ (self.now ≡ []) }
    {
        self.len() == 0
    }

    /// self + c*other for a constant c other than 0.
    fn add_scaled(&self, c: F, other: &Self) -> Result<Self, PolyStop>
        requires { F.value c ≢ 0 }
        ensures sum { IfOk result (λ r. SamePolynomial F.ORDER r (self.now ++ scaled (F.value c) other.now)) }
        ensures fits { OnOk result (IsWithinTerms F.ORDER TERM_LIMIT (self.now ++ scaled (F.value c) other.now)) }
        ensures over { IsErrOf result PolyStop.TermsOver → IsOverTerms F.ORDER TERM_LIMIT
            (self.now ++ scaled (F.value c) other.now) }
        ensures no_product { IsErrOf result PolyStop.DegreeOver → ⊥ }
    {
        let alloc = self.terms.allocator();
        let terms = sums::add_scaled::<F, O>(alloc, self.listed(), c, other.listed())?;
        Self::within(terms)
    }

    /// The sum, in one merge.
    pub fn add(&self, other: &Self) -> Result<Self, PolyStop>
        ensures sum { IfOk result (λ r. SamePolynomial F.ORDER r (self.now ++ other.now)) }
        ensures value { IfOk result (λ r. (point : ℕ → ℕ) → poly_value F.ORDER point r
            ≡ add_mod F.ORDER (poly_value F.ORDER point self.now) (poly_value F.ORDER point other.now)) }
        ensures fits { OnOk result (PassesTerms F.ORDER TERM_LIMIT (self.now ++ other.now) → ⊥) }
        ensures terms_over { IsErrOf result PolyStop.TermsOver → PassesTerms F.ORDER TERM_LIMIT
            (self.now ++ other.now) }
        ensures short { length self.now + length other.now ≤ TERM_LIMIT → IsErrOf result PolyStop.TermsOver → ⊥ }
        ensures no_product { IsErrOf result PolyStop.DegreeOver → ⊥ }
    {
        self.add_scaled(F::of(1), other)
    }

    /// The difference, in one merge.
    pub fn sub(&self, other: &Self) -> Result<Self, PolyStop>
        ensures difference { IfOk result (λ r. SamePolynomial F.ORDER r (difference F.ORDER self.now other.now)) }
        ensures value { IfOk result (λ r. (point : ℕ → ℕ) → poly_value F.ORDER point r
            ≡ sub_mod F.ORDER (poly_value F.ORDER point self.now) (poly_value F.ORDER point other.now)) }
        ensures fits { OnOk result (PassesTerms F.ORDER TERM_LIMIT (difference F.ORDER self.now other.now) → ⊥) }
        ensures terms_over { IsErrOf result PolyStop.TermsOver → PassesTerms F.ORDER TERM_LIMIT
            (difference F.ORDER self.now other.now) }
        ensures short { length self.now + length other.now ≤ TERM_LIMIT → IsErrOf result PolyStop.TermsOver → ⊥ }
        ensures no_product { IsErrOf result PolyStop.DegreeOver → ⊥ }
    {
        self.add_scaled(F::of(1).neg(), other)
    }

    /// self + c*m*other, in one merge: no list of the products is made.
    pub fn add_multiple(&self, c: F, m: MonoRef<'_>, other: &Self) -> Result<Self, PolyStop>
        ensures sum { IfOk result
            (λ r. SamePolynomial F.ORDER r (self.now ++ term_product (F.value c) m.entry.powers.now other.now)) }
        ensures fits { OnOk result
            (PassesTerms F.ORDER TERM_LIMIT (self.now ++ term_product (F.value c) m.entry.powers.now other.now) → ⊥) }
        ensures terms_over { IsErrOf result PolyStop.TermsOver
            → PassesTerms F.ORDER TERM_LIMIT (self.now ++ term_product (F.value c) m.entry.powers.now other.now) }
        ensures short { length self.now + length other.now ≤ TERM_LIMIT → IsErrOf result PolyStop.TermsOver → ⊥ }
        ensures degree_over { IsErrOf result PolyStop.DegreeOver ↔ PassesDegree F.ORDER DEGREE_LIMIT
            ((F.value c, m.entry.powers.now) ∷ []) other.now }
    {
        let own = self.listed();
        if c.residue() == 0 {
            return Ok(self.clone()?);
        }
        let more = other.listed();
        if products::multiple_passes_degree::<F, O>(c, m, more) {
            return Err(PolyStop::DegreeOver);
        }
        let alloc = self.terms.allocator();
        Self::within(multiples::merged_multiple::<F, O>(alloc, own, c, m, more)?)
    }

    /// self - c*m*other, in one merge: no list of the products is made.
    pub fn sub_multiple(&self, c: F, m: MonoRef<'_>, other: &Self) -> Result<Self, PolyStop>
        ensures difference { IfOk result (λ r. SamePolynomial F.ORDER r
            (difference F.ORDER self.now (term_product (F.value c) m.entry.powers.now other.now))) }
        ensures fits { OnOk result (PassesTerms F.ORDER TERM_LIMIT
            (difference F.ORDER self.now (term_product (F.value c) m.entry.powers.now other.now)) → ⊥) }
        ensures terms_over { IsErrOf result PolyStop.TermsOver
            → PassesTerms F.ORDER TERM_LIMIT
            (difference F.ORDER self.now (term_product (F.value c) m.entry.powers.now other.now)) }
        ensures short { length self.now + length other.now ≤ TERM_LIMIT → IsErrOf result PolyStop.TermsOver → ⊥ }
        ensures degree_over { IsErrOf result PolyStop.DegreeOver ↔ PassesDegree F.ORDER DEGREE_LIMIT
            ((F.value c, m.entry.powers.now) ∷ []) other.now }
    {
        self.add_multiple(c.neg(), m, other)
    }

    /// The product. Whether a product of two terms has too high a degree is seen before. Then the rows, which are the
    /// longer polynomial times each term of the shorter, are merged by halves: with n terms in the shorter and m in the
    /// longer it takes at most n*m comparisons for each halving of n, and holds at most 2*n*m terms. It makes n*m
    /// monomials, and clones none.
    pub fn mul(&self, other: &Self) -> Result<Self, PolyStop>
        ensures product { IfOk result (λ r. SamePolynomial F.ORDER r (product self.now other.now)) }
        ensures value { IfOk result (λ r. (point : ℕ → ℕ) → poly_value F.ORDER point r
            ≡ mul_mod F.ORDER (poly_value F.ORDER point self.now) (poly_value F.ORDER point other.now)) }
        ensures fits { OnOk result (PassesTerms F.ORDER TERM_LIMIT (product self.now other.now) → ⊥) }
        ensures terms_over { IsErrOf result PolyStop.TermsOver → PassesTerms F.ORDER TERM_LIMIT
            (product self.now other.now) }
        ensures degree_over { IsErrOf result PolyStop.DegreeOver ↔ PassesDegree F.ORDER DEGREE_LIMIT self.now
            other.now }
    {
        let alloc = self.terms.allocator();
        if self.is_zero() {
            return Ok(Self::zero(alloc));
        }
        if other.is_zero() {
            return Ok(Self::zero(alloc));
        }
        let a = self.listed();
        let b = other.listed();
        if products::product_passes_degree::<F, O>(a, b) {
            return Err(PolyStop::DegreeOver);
        }
        Self::within(products::product::<F, O>(alloc, a, b)?)
    }

    /// The product with c*m, in one pass.
    pub fn mul_term(&self, c: F, m: &Mono) -> Result<Self, PolyStop>
        ensures product { IfOk result (λ r. SamePolynomial F.ORDER r (term_product (F.value c) m.now self.now)) }
        ensures value { IfOk result (λ r. (point : ℕ → ℕ) → poly_value F.ORDER point r
            ≡ mul_mod F.ORDER (F.value c * mono_value point m.now) (poly_value F.ORDER point self.now)) }
        ensures no_more_terms { IsErrOf result PolyStop.TermsOver → ⊥ }
        ensures degree_over { IsErrOf result PolyStop.DegreeOver ↔ PassesDegree F.ORDER DEGREE_LIMIT
            ((F.value c, m.now) ∷ []) self.now }
    {
        self.times(c, m.as_ref())
    }

    /// The product with c and a borrowed monomial, in one pass.
    pub fn times(&self, c: F, m: MonoRef<'_>) -> Result<Self, PolyStop>
        ensures product { IfOk result
            (λ r. SamePolynomial F.ORDER r (term_product (F.value c) m.entry.powers.now self.now)) }
        ensures value { IfOk result (λ r. (point : ℕ → ℕ) → poly_value F.ORDER point r
            ≡ mul_mod F.ORDER (F.value c * mono_value point m.entry.powers.now) (poly_value F.ORDER point self.now)) }
        ensures no_longer { IfOk result (λ r. length r ≤ length self.now) }
        ensures no_more_terms { IsErrOf result PolyStop.TermsOver → ⊥ }
        ensures degree_over { IsErrOf result PolyStop.DegreeOver ↔ PassesDegree F.ORDER DEGREE_LIMIT
            ((F.value c, m.entry.powers.now) ∷ []) self.now }
    {
        let alloc = self.terms.allocator();
        if c.residue() == 0 {
            return Ok(Self::zero(alloc));
        }
        let own = self.listed();
        if products::multiple_passes_degree::<F, O>(c, m, own) {
            return Err(PolyStop::DegreeOver);
        }
        let terms = products::multiply_terms::<F, O>(alloc, c, m, own)?;
        Ok(Poly {
            terms,
            order: PhantomData,
        })
    }

    /// The product with a constant, in one pass.
    pub fn scale(&self, c: F) -> Result<Self, PolyStop>
        ensures product { IfOk result (λ r. SamePolynomial F.ORDER r (scaled (F.value c) self.now)) }
        ensures value { IfOk result (λ r. (point : ℕ → ℕ) → poly_value F.ORDER point r
            ≡ mul_mod F.ORDER (F.value c) (poly_value F.ORDER point self.now)) }
        ensures memory { IfErr result (λ stop. stop ≡ PolyStop.Memory) }
    {
        let alloc = self.terms.allocator();
        if c.residue() == 0 {
            return Ok(Self::zero(alloc));
        }
        let terms = sums::scale_terms::<F, O>(alloc, c, self.listed())?;
        Ok(Poly {
            terms,
            order: PhantomData,
        })
    }

    /// The value at a point. A variable past its end is 0. It takes no memory.
    pub fn eval(&self, at: &[F]) -> F
        ensures { F.value result ≡ poly_value F.ORDER (point_of F.value at.now) self.now }
    {
        values::value_at(self.listed(), at)
    }

    /// The leading coefficient and monomial. It takes no memory.
    pub fn lead(&self) -> Option<(F, MonoRef<'_>)>
        ensures zero { IsNone result ↔ (self.now ≡ []) }
        ensures leading { IfSome result (λ t. IsLeading F.ORDER O.cmp self.now (F.value t.0) t.1.powers.now) }
    {
        if self.len() == 0 {
            None
        } else {
            Some(self.term(0))
        }
    }

    /// Whether it has no monomial but 1. It takes no memory.
    pub fn is_constant(&self) -> bool
        ensures { IsTrue result ↔ IsConstant F.ORDER self.now }
    {
        if self.len() == 0 {
            true
        } else {
            self.term(0).1.degree() == 0
        }
    }
}
