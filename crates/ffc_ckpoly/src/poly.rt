//! Polynomials.
ghost use Rattle.std.specs.Prelude.{◌≡◌, ◌≢◌, ℕ, ◌+◌, ◌^◌, ◌<◌, ◌++◌, [], length, IfOk, OnOk};
ghost use Rattle.ffc_field.specs.Modular.{add_mod, sub_mod, mul_mod};
ghost use Rattle.ffc_ring.specs.Monomial.{IsMonomial, degree};
ghost use Rattle.ffc_ring.specs.Polynomial.{AreTerms, SamePolynomial, product, scaled, difference, poly_value};
ghost use Rattle.ffc_trees.specs.Normal.{IsNormal, degree_of};
ghost use Rattle.ffc_trees.specs.TreeLines.{is_nonzero_constant};
ghost use Rattle.ffc_ckpoly.specs.Flat.{cut, Parts, times, RowFits, HaveMonomials, as_written};
ghost use Rattle.ffc_ckpoly.specs.Sorted.{residues, IsSorted, point_of};

use crate::buffer::{Buffer, products_of, terms_of};
use crate::merge::{sum_of, sum_with};
use crate::powers::{Power, written_degree};
use crate::reading::{greatest_degree, value_at};
use ffc_field::Field;
use std::alloc::{AllocError, Global};
use std::marker::Model;

/// A polynomial: terms with different monomials and coefficients other than 0, in one buffer. A clause sees the list of
/// pairs of residue and monomial.
#[derive(Debug)]
pub struct CkPoly<F: Field> {
    buffer: Buffer<F>,
}

impl<F: Field> Drop for CkPoly<F> {
    fn drop(self) {
        let CkPoly { buffer: _ } = self;
    }
}

impl<F: Field> Model for CkPoly<F> {
    ghost use Rattle.std.specs.Prelude.{ℕ, List};
    ghost use Rattle.ffc_ckpoly.specs.Flat.{cut, Parts};
    ghost use Rattle.ffc_ckpoly.specs.Sorted.{IsSorted};

    ghost Value = { List (ℕ × List (ℕ × ℕ)) };

    ghost view = { λ a. cut F.value 0 a.buffer.marks.items a.buffer.powers.items };

    ghost invariant = { λ a. Parts 0 a.buffer.marks.items a.buffer.powers.items
        × IsSorted F.ORDER (cut F.value 0 a.buffer.marks.items a.buffer.powers.items) };
}

impl<F: Field> CkPoly<F> {
    /// The polynomial 0. It takes no memory.
    pub fn zero(alloc: Global) -> Self
        ensures { result ≡ [] }
    {
        CkPoly {
            buffer: Buffer::new(alloc),
        }
    }

    /// Its terms, in strictly decreasing order of their monomials.
    pub fn borrowed(&self) -> Result<Vec<(F, &[Power])>, AllocError>
        ensures terms { IfOk result (λ v. residues F.value v.items ≡ self.now) }
        ensures sorted { IsSorted F.ORDER self.now }
    {
        let alloc = *self.buffer.marks.allocator();
        terms_of(
            alloc,
            self.buffer.marks.as_slice(),
            self.buffer.powers.as_slice(),
        )
    }

    /// The polynomial of terms in order.
    fn packed(alloc: Global, terms: &[(F, &[Power])]) -> Result<Self, AllocError>
        requires { IsSorted F.ORDER (residues F.value terms.now) }
        ensures terms { IfOk result (λ r. r ≡ residues F.value terms.now) }
        ensures normal { IfOk result (λ r. IsNormal F.ORDER r) }
    {
        let mut buffer = Buffer::new(alloc);
        for term in terms {
            buffer.push(term.0, term.1)?;
        }
        Ok(CkPoly { buffer })
    }

    /// Its terms.
    pub(crate) fn into_buffer(self) -> Buffer<F>
        ensures terms { cut F.value 0 result.marks.items result.powers.items ≡ self }
        ensures parts { Parts 0 result.marks.items result.powers.items }
        ensures monomials { HaveMonomials (cut F.value 0 result.marks.items result.powers.items) }
    {
        let CkPoly { buffer } = self;
        buffer
    }

    /// The same polynomial once more.
    pub(crate) fn copied(&self, alloc: Global) -> Result<Self, AllocError>
        ensures same { IfOk result (λ r. r ≡ self.now) }
        ensures normal { IfOk result (λ r. IsNormal F.ORDER r) }
    {
        let terms = self.borrowed()?;
        CkPoly::packed(alloc, terms.as_slice())
    }

    /// The sum of the terms in a buffer.
    pub(crate) fn sum_in(alloc: Global, buffer: &Buffer<F>) -> Result<Self, AllocError>
        requires parts { Parts 0 buffer.now.marks.items buffer.now.powers.items }
        requires monomials { HaveMonomials (cut F.value 0 buffer.now.marks.items buffer.now.powers.items) }
        ensures sum { IfOk result
            (λ r. SamePolynomial F.ORDER r (cut F.value 0 buffer.now.marks.items buffer.now.powers.items)) }
        ensures normal { IfOk result (λ r. IsNormal F.ORDER r) }
    {
        let terms = terms_of(alloc, buffer.marks.as_slice(), buffer.powers.as_slice())?;
        let sum = sum_of(alloc, terms.as_slice())?;
        CkPoly::packed(alloc, sum.as_slice())
    }

    /// Appends the products of c, m and each of its terms to a buffer, which takes no other memory.
    pub(crate) fn append_multiple(
        &self,
        out: &mut Buffer<F>,
        c: F,
        m: &[Power],
    ) -> Result<(), AllocError>
        requires parts { Parts 0 out.old.marks.items out.old.powers.items }
        requires m_is { IsMonomial m.now }
        requires fits { degree m.now + degree_of self.now < 2 ^ 64 }
        ensures terms { OnOk result (cut F.value 0 out.new.marks.items out.new.powers.items
            ≡ cut F.value 0 out.old.marks.items out.old.powers.items ++ times F.ORDER (F.value c) m.now self.now) }
        ensures parts { OnOk result (Parts 0 out.new.marks.items out.new.powers.items) }
        ensures row { RowFits m.now self.now }
    {
        out.push_row(
            c,
            m,
            self.buffer.marks.as_slice(),
            self.buffer.powers.as_slice(),
        )
    }

    /// The sum of any terms.
    pub fn from_terms(alloc: Global, terms: &[(F, Vec<(u32, u32)>)]) -> Result<Self, AllocError>
        requires { AreTerms (as_written F.value terms.now (λ v. v.items)) }
        ensures sum { IfOk result (λ r. SamePolynomial F.ORDER r (as_written F.value terms.now (λ v. v.items))) }
        ensures normal { IfOk result (λ r. IsNormal F.ORDER r) }
    {
        let mut buffer = Buffer::new(alloc);
        for term in terms {
            let powers = term.1.as_slice();
            let _degree = written_degree(powers);
            buffer.push_written(term.0, powers)?;
        }
        CkPoly::sum_in(alloc, &buffer)
    }

    /// self + c*other for a constant c other than 0, in one merge.
    fn plus_multiple(&self, c: F, other: &Self) -> Result<Self, AllocError>
        requires { F.value c ≢ 0 }
        ensures sum { IfOk result (λ r. SamePolynomial F.ORDER r (self.now ++ scaled (F.value c) other.now)) }
        ensures normal { IfOk result (λ r. IsNormal F.ORDER r) }
    {
        let alloc = *self.buffer.marks.allocator();
        let left = self.borrowed()?;
        let right = other.borrowed()?;
        let sum = sum_with(alloc, left.as_slice(), c, right.as_slice())?;
        CkPoly::packed(alloc, sum.as_slice())
    }

    /// The sum, in one merge.
    pub fn add(&self, other: &Self) -> Result<Self, AllocError>
        ensures sum { IfOk result (λ r. SamePolynomial F.ORDER r (self.now ++ other.now)) }
        ensures normal { IfOk result (λ r. IsNormal F.ORDER r) }
        ensures value { IfOk result (λ r. (point : ℕ → ℕ) → poly_value F.ORDER point r
            ≡ add_mod F.ORDER (poly_value F.ORDER point self.now) (poly_value F.ORDER point other.now)) }
    {
        self.plus_multiple(F::of(1), other)
    }

    /// The difference, in one merge.
    pub fn sub(&self, other: &Self) -> Result<Self, AllocError>
        ensures difference { IfOk result (λ r. SamePolynomial F.ORDER r (difference F.ORDER self.now other.now)) }
        ensures normal { IfOk result (λ r. IsNormal F.ORDER r) }
        ensures value { IfOk result (λ r. (point : ℕ → ℕ) → poly_value F.ORDER point r
            ≡ sub_mod F.ORDER (poly_value F.ORDER point self.now) (poly_value F.ORDER point other.now)) }
    {
        self.plus_multiple(F::of(1).neg(), other)
    }

    /// The product: the products of each two terms, merged by halves.
    pub fn mul(&self, other: &Self) -> Result<Self, AllocError>
        requires { degree_of self.now + degree_of other.now < 2 ^ 64 }
        ensures product { IfOk result (λ r. SamePolynomial F.ORDER r (product self.now other.now)) }
        ensures normal { IfOk result (λ r. IsNormal F.ORDER r) }
        ensures value { IfOk result (λ r. (point : ℕ → ℕ) → poly_value F.ORDER point r
            ≡ mul_mod F.ORDER (poly_value F.ORDER point self.now) (poly_value F.ORDER point other.now)) }
    {
        let alloc = *self.buffer.marks.allocator();
        let left = self.borrowed()?;
        let products = products_of(alloc, left.as_slice(), &other.buffer)?;
        CkPoly::sum_in(alloc, &products)
    }

    /// Whether it is a constant other than 0. It costs nothing.
    pub fn is_nonzero_constant(&self) -> bool
        ensures { result ≡ is_nonzero_constant F.ORDER self.now }
    {
        self.terms() == 1 && self.buffer.powers.is_empty()
    }

    /// How many terms it has.
    pub fn terms(&self) -> usize
        ensures count { result ≡ length self.now }
        ensures normal { IsNormal F.ORDER self.now }
    {
        self.buffer.marks.len()
    }

    /// The greatest degree of a term, and 0 where there is none.
    pub fn degree(&self) -> u64
        ensures { result ≡ degree_of self.now }
    {
        greatest_degree(self.buffer.marks.as_slice(), self.buffer.powers.as_slice())
    }

    /// The value at a point. A variable past its end is 0. It takes no memory.
    pub fn value(&self, at: &[F]) -> F
        ensures { F.value result ≡ poly_value F.ORDER (point_of F.value at.now) self.now }
    {
        value_at(
            self.buffer.marks.as_slice(),
            self.buffer.powers.as_slice(),
            at,
        )
    }
}
