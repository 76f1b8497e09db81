//! Terms laid flat.
ghost use Rattle.std.specs.Prelude.{◌≡◌, ℕ, ◌+◌, ◌<◌, ◌≤◌, [], ◌∷◌, ◌++◌, map, length, set, get_or, slice_range};
ghost use Rattle.std.specs.Prelude.{OnOk};
ghost use Rattle.std.specs.Vec.{vec_len, vec_capacity};
ghost use Rattle.ffc_field.specs.Modular.{mul_mod};
ghost use Rattle.ffc_ring.specs.Monomial.{degree, mono_mul};
ghost use Rattle.ffc_poly.specs.Ordered.{values_of, multiplied};

use ffc_field::Field;
use ffc_mono::{MonoRef, MonoRow};
use std::alloc::{AllocError, Global};
use std::marker::Model;

/// Terms in any order: their coefficients in one vector, and their monomials in a row. A clause sees the list of pairs of
/// residue and monomial.
#[derive(Debug)]
pub struct TermList<F: Field> {
    coefficients: Vec<F>,
    monomials: MonoRow,
}

impl<F: Field> Drop for TermList<F> {
    fn drop(self) {
        let TermList {
            coefficients: _,
            monomials: _,
        } = self;
    }
}

impl<F: Field> Model for TermList<F> {
    ghost use Rattle.std.specs.Prelude.{◌≡◌, ℕ, List, length};
    ghost use Rattle.ffc_poly.specs.Ordered.{zipped};

    ghost Value = { List (ℕ × List (ℕ × ℕ)) };

    ghost view = { λ a. zipped F.value a.coefficients.items a.monomials };

    ghost invariant = { λ a. length a.coefficients.items ≡ length a.monomials };
}

impl<F: Field> TermList<F> {
    /// No terms. It takes no memory.
    pub fn new(alloc: Global) -> Self
        ensures { result ≡ [] }
    {
        TermList {
            coefficients: Vec::new(alloc),
            monomials: MonoRow::new(alloc),
        }
    }

    pub fn allocator(&self) -> Global {
        *self.coefficients.allocator()
    }

    /// How many terms there are.
    pub fn len(&self) -> usize
        ensures { result ≡ length self.now }
    {
        self.monomials.len()
    }

    /// The term at a place.
    pub fn get(&self, i: usize) -> (F, MonoRef<'_>)
        requires { i < length self.now }
        ensures coefficient { F.value result.0 ≡ (get_or self.now i (0, [])).0 }
        ensures monomial { result.1.powers.now ≡ (get_or self.now i (0, [])).1 }
    {
        (self.coefficients[i], self.monomials.get(i))
    }

    /// Puts another coefficient in place of that of a term.
    pub fn set_coefficient(&mut self, i: usize, c: F)
        requires { i < length self.old }
        ensures { self.new ≡ set self.old i (F.value c, (get_or self.old i (0, [])).1) }
    {
        self.coefficients[i] = c;
    }

    /// Appends a term.
    pub fn push(&mut self, c: F, m: MonoRef<'_>) -> Result<(), AllocError>
        ensures { OnOk result (self.new ≡ self.old ++ (F.value c, m.entry.powers.now) ∷ []) }
    {
        self.coefficients.reserve(1)?;
        self.monomials.push(m)?;
        self.coefficients.push(c)?;
        Ok(())
    }

    /// Appends c*m*n.
    pub fn push_product(&mut self, c: F, m: MonoRef<'_>, n: MonoRef<'_>) -> Result<(), AllocError>
        requires { degree m.powers.now + degree n.powers.now ≤ 1024 }
        ensures { OnOk result (self.new ≡ self.old ++ (F.value c, mono_mul m.entry.powers.now n.entry.powers.now)
            ∷ []) }
    {
        self.coefficients.reserve(1)?;
        self.monomials.push_product(m, n)?;
        self.coefficients.push(c)?;
        Ok(())
    }

    /// Appends a run of other terms.
    pub fn extend_from(&mut self, other: &Self, from: usize, to: usize) -> Result<(), AllocError>
        requires ordered { from ≤ to }
        requires within { to ≤ length other.now }
        ensures { OnOk result (self.new ≡ self.old ++ slice_range other.now from to) }
    {
        let coefficients = part(other.coefficients.as_slice(), from, to);
        self.coefficients.reserve(to - from)?;
        self.monomials.extend_from(&other.monomials, from, to)?;
        self.coefficients.extend_from_slice(coefficients)?;
        Ok(())
    }

    /// Appends c times a run of other terms.
    pub fn extend_multiple(
        &mut self,
        c: F,
        other: &Self,
        from: usize,
        to: usize,
    ) -> Result<(), AllocError>
        requires ordered { from ≤ to }
        requires within { to ≤ length other.now }
        ensures { OnOk result (self.new ≡ self.old ++ multiplied F.ORDER (F.value c) (slice_range other.now from to)) }
    {
        let coefficients = part(other.coefficients.as_slice(), from, to);
        self.coefficients.reserve(to - from)?;
        self.monomials.extend_from(&other.monomials, from, to)?;
        append_multiples(&mut self.coefficients, c, coefficients);
        Ok(())
    }
}

impl<F: Field> Clone for TermList<F> {
    ghost use Rattle.std.specs.Prelude.{◌≡◌};

    ghost is_clone = { λ a b. b ≡ a };

    fn clone(&self) -> Result<Self, AllocError> {
        let coefficients = Vec::from_slice(
            *self.coefficients.allocator(),
            self.coefficients.as_slice(),
        )?;
        let monomials = self.monomials.clone()?;
        Ok(TermList {
            coefficients,
            monomials,
        })
    }
}

/// The coefficients from one place to another.
fn part<F: Field>(coefficients: &[F], from: usize, to: usize) -> &[F]
    requires ordered { from ≤ to }
    requires within { to ≤ length coefficients.now }
    ensures { result.now ≡ slice_range coefficients.now from to }
{
    &coefficients[from..to]
}

/// Appends c times each coefficient where there is space for all.
fn append_multiples<F: Field>(out: &mut Vec<F>, c: F, coefficients: &[F])
    requires { vec_len out.old + length coefficients.now ≤ vec_capacity out.old }
    ensures { values_of F.value out.new.items
        ≡ values_of F.value out.old.items ++ map (mul_mod F.ORDER (F.value c)) (values_of F.value coefficients.now) }
{
    for coefficient in coefficients {
        push_within(out, c.mul(*coefficient));
    }
}

/// Appends a coefficient where there is space for it.
fn push_within<F: Field>(out: &mut Vec<F>, c: F)
    requires { vec_len out.old < vec_capacity out.old }
    ensures items { out.new.items ≡ out.old.items ++ c ∷ [] }
    ensures len { vec_len out.new ≡ vec_len out.old + 1 }
    ensures capacity { vec_capacity out.old ≤ vec_capacity out.new }
{
    match out.push(c) {
        Ok(()) => {}
        Err(_) => unreachable!(),
    }
}
