//! Polynomials in one variable.
ghost use Rattle.std.specs.Prelude.{◌≡◌, ◌≢◌, ℕ, ◌+◌, ◌<◌, ◌≤◌, ◌-◌, ◌↔◌, [], length, map, max, IsTrue, IfOk};
ghost use Rattle.ffc_field.specs.Modular.{mul_mod};
ghost use Rattle.ffc_uni.specs.Equality.{same_coefficients};
ghost use Rattle.ffc_uni.specs.Rows.{leading};
ghost use Rattle.ffc_uni.specs.Univariate.{SameUnivariate, IsNormal, IsRemainder, plus, minus, multiple, times};
ghost use Rattle.ffc_uni.specs.Univariate.{product_of_roots, value_of};

use crate::row;
use ffc_field::Field;
use std::alloc::{AllocError, Global};
use std::marker::Model;

/// A polynomial in one variable: its coefficients from the lowest, the last not 0. Clauses see the list of residues.
#[derive(Debug, Drop)]
pub struct Uni<F: Field> {
    coefs: Vec<F>,
}

impl<F: Field> Model for Uni<F> {
    ghost use Rattle.std.specs.Prelude.{ℕ, List, map};
    ghost use Rattle.ffc_uni.specs.Univariate.{IsNormal};

    ghost Value = { List ℕ };

    ghost view = { λ u. map F.value u.coefs.items };

    ghost invariant = { λ u. IsNormal F.ORDER (map F.value u.coefs.items) };
}

impl<F: Field> Clone for Uni<F> {
    ghost use Rattle.std.specs.Prelude.{◌≡◌};

    ghost is_clone = { λ a b. b ≡ a };

    fn clone(&self) -> Result<Self, AllocError> {
        let mut coefs = Vec::new(*self.coefs.allocator());
        coefs.extend_from_slice(self.coefs())?;
        Ok(Uni { coefs })
    }
}

impl<F: Field> PartialEq for Uni<F> {
    ghost use Rattle.std.specs.Cmp.{partial_equiv_from_equiv};
    ghost use Rattle.ffc_uni.specs.Equality.{same_coefficients, same_coefficients_equivalence};

    ghost eq = { same_coefficients };

    ghost laws = { partial_equiv_from_equiv same_coefficients_equivalence };

    fn eq(&self, other: &Self) -> bool
        ensures value { result ≡ same_coefficients self.now other.now }
        ensures list { IsTrue result ↔ (self.now ≡ other.now) }
        ensures polynomial { IsTrue result ↔ SameUnivariate F.ORDER self.now other.now }
    {
        self.coefs() == other.coefs()
    }
}

impl<F: Field> Eq for Uni<F> {
    ghost use Rattle.ffc_uni.specs.Equality.{same_coefficients_equivalence};

    ghost laws = { same_coefficients_equivalence };
}

impl<F: Field> Uni<F> {
    /// The polynomial with these coefficients, from the lowest.
    pub fn from_coefs(alloc: Global, coefs: &[F]) -> Result<Self, AllocError>
        ensures same { IfOk result (λ r. SameUnivariate F.ORDER r (map F.value coefs.now)) }
        ensures short { IfOk result (λ r. length r ≤ length coefs.now) }
    {
        let length = row::length_without_zeros(coefs);
        let mut row = Vec::new(alloc);
        row.extend_from_slice(&coefs[..length])?;
        Ok(Uni { coefs: row })
    }

    /// The polynomial of a row, without the zeros at its end.
    fn from_row(mut row: Vec<F>) -> Self
        ensures same { SameUnivariate F.ORDER result (map F.value row.items) }
        ensures short { length result ≤ length row.items }
    {
        let length = row::length_without_zeros(row.as_slice());
        row.truncate(length);
        Uni { coefs: row }
    }

    /// The coefficients from the lowest, the last not 0. It takes no memory.
    pub fn coefs(&self) -> &[F]
        ensures value { map F.value result.now ≡ self.now }
        ensures normal { IsNormal F.ORDER self.now }
    {
        self.coefs.as_slice()
    }

    /// Whether it is the polynomial 0. It takes no memory.
    pub fn is_zero(&self) -> bool
        ensures { IsTrue result ↔ (self.now ≡ []) }
    {
        self.coefs().is_empty()
    }

    /// The sum, in one pass.
    pub fn add(&self, other: &Self) -> Result<Self, AllocError>
        ensures sum { IfOk result (λ r. SameUnivariate F.ORDER r (plus self.now other.now)) }
        ensures short { IfOk result (λ r. length r ≤ max (length self.now) (length other.now)) }
    {
        self.with_multiple(F::of(1), other)
    }

    /// The difference, in one pass.
    pub fn sub(&self, other: &Self) -> Result<Self, AllocError>
        ensures difference { IfOk result (λ r. SameUnivariate F.ORDER r (minus F.ORDER self.now other.now)) }
        ensures short { IfOk result (λ r. length r ≤ max (length self.now) (length other.now)) }
    {
        self.with_multiple(F::of(1).neg(), other)
    }

    /// The sum with c times another one.
    fn with_multiple(&self, c: F, other: &Self) -> Result<Self, AllocError>
        ensures sum { IfOk result (λ r. SameUnivariate F.ORDER r (plus self.now (multiple (F.value c) other.now))) }
        ensures short { IfOk result (λ r. length r ≤ max (length self.now) (length other.now)) }
    {
        let alloc = *self.coefs.allocator();
        Ok(Self::from_row(row::sum(alloc, self.coefs(), c, other.coefs())?))
    }

    /// The product with a constant, in one pass.
    pub fn scale(&self, c: F) -> Result<Self, AllocError>
        ensures product { IfOk result (λ r. SameUnivariate F.ORDER r (multiple (F.value c) self.now)) }
        ensures short { IfOk result (λ r. length r ≤ length self.now) }
    {
        let alloc = *self.coefs.allocator();
        Ok(Self::from_row(row::sum(alloc, &[], c, self.coefs())?))
    }

    /// The product: each pair of coefficients is multiplied once.
    pub fn mul(&self, other: &Self) -> Result<Self, AllocError>
        ensures product { IfOk result (λ r. SameUnivariate F.ORDER r (times self.now other.now)) }
        ensures short { IfOk result (λ r. length r ≤ length self.now + (length other.now - 1)) }
        ensures value { IfOk result (λ r. (x : ℕ) → value_of F.ORDER x r ≡ mul_mod F.ORDER (value_of F.ORDER x self.now)
            (value_of F.ORDER x other.now)) }
    {
        let mut product = Vec::new(*self.coefs.allocator());
        row::multiply_into(&mut product, self.coefs(), other.coefs())?;
        Ok(Self::from_row(product))
    }

    /// The product of the X - root: one pass over it for each root.
    pub fn from_roots(alloc: Global, roots: &[F]) -> Result<Self, AllocError>
        ensures product { IfOk result
            (λ r. SameUnivariate F.ORDER r (product_of_roots F.ORDER (map F.value roots.now))) }
        ensures long { IfOk result (λ r. length r ≡ length roots.now + 1) }
    {
        Ok(Self::from_row(row::root_product(alloc, roots)?))
    }

    /// The inverse of the leading coefficient, which a division needs.
    pub(crate) fn leading_inverse(&self) -> F
        requires { self.now ≢ [] }
        ensures { mul_mod F.ORDER (leading self.now) (F.value result) ≡ 1 }
    {
        row::leading_inverse(self.coefs())
    }

    /// Quotient Q and remainder R with self = Q*by + R, where R is 0 or of lower degree than `by`. The leading coefficient
    /// of `by` is inverted once. Each coefficient of Q and R is a sum of products that is reduced once.
    pub fn div_rem(&self, by: &Self) -> Result<(Self, Self), AllocError>
        requires { by.now ≢ [] }
        ensures division { IfOk result (λ d. SameUnivariate F.ORDER self.now (plus (times d.0 by.now) d.1)) }
        ensures lower { IfOk result (λ d. length d.1 < length by.now) }
        ensures short { IfOk result (λ d. length d.0 ≤ length self.now - (length by.now - 1)) }
    {
        by.divide(self.coefs(), by.leading_inverse())
    }

    /// The remainder of the division by another polynomial.
    pub fn rem(&self, by: &Self) -> Result<Self, AllocError>
        requires { by.now ≢ [] }
        ensures remainder { IfOk result (λ r. IsRemainder F.ORDER by.now self.now r) }
        ensures lower { IfOk result (λ r. length r < length by.now) }
    {
        let (_, remainder) = self.div_rem(by)?;
        Ok(remainder)
    }

    /// Quotient and remainder of a row by this polynomial, with the inverse of its leading coefficient at hand, so that many
    /// divisions find it once.
    pub(crate) fn divide(&self, row: &[F], inverse: F) -> Result<(Self, Self), AllocError>
        requires nonzero { self.now ≢ [] }
        requires inverse { mul_mod F.ORDER (leading self.now) (F.value inverse) ≡ 1 }
        ensures division { IfOk result (λ d. SameUnivariate F.ORDER (map F.value row.now)
            (plus (times d.0 self.now) d.1)) }
        ensures lower { IfOk result (λ d. length d.1 < length self.now) }
        ensures short { IfOk result (λ d. length d.0 ≤ length row.now - (length self.now - 1)) }
    {
        let alloc = *self.coefs.allocator();
        let (quotient, remainder) = row::quotient_and_remainder(alloc, row, self.coefs(), inverse)?;
        Ok((Self::from_row(quotient), Self::from_row(remainder)))
    }

    /// The value at x, by Horner's rule. It takes no memory.
    pub fn eval(&self, x: F) -> F
        ensures { F.value result ≡ value_of F.ORDER (F.value x) self.now }
    {
        row::value_at(self.coefs(), x)
    }
}
