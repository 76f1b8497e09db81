//! Polynomials as coefficients by number of the monomial.
ghost use Rattle.std.specs.Prelude.{◌≡◌, ◌≢◌, ℕ, ◌+◌, ◌<◌, ◌≤◌, ◌∷◌, [], ◌++◌, false, List, All, Contains, length, get_or, drop};
ghost use Rattle.std.specs.Vec.{vec_len, vec_capacity};
ghost use Rattle.std.specs.Prelude.{IfOk, IfSome, IsTrue, OnOk};
ghost use Rattle.ffc_ring.specs.Monomial.{Monomial};
ghost use Rattle.ffc_ring.specs.Polynomial.{Terms, SamePolynomial, scaled, difference};
ghost use Rattle.ffc_mono.specs.Leading.{IsLeading};
ghost use Rattle.ffc_poly.specs.Ordered.{IsOrdered, values_of, residues};
ghost use Rattle.ffc_dense.specs.Columns.{AreApart, listed, terms_of, AreNumbers, Grows, IsLonger};

use crate::columns::{COLUMN_LIMIT, Columns};
use ffc_field::Field;
use ffc_mono::{Mono, MonoOrder, MonoRef};
use ffc_poly::Poly;
use std::alloc::{AllocError, Global};
use std::marker::Model;

/// A polynomial. A clause sees the monomials that have numbers, and terms, of which some are 0.
pub(crate) struct Dense<F: Field, O: MonoOrder> {
    columns: Columns<O>,
    coefficients: Vec<F>,
    /// What stands before this place is not of the polynomial.
    from: usize,
}

impl<F: Field, O: MonoOrder> Drop for Dense<F, O> {
    fn drop(self) {
        let Dense {
            columns: _,
            coefficients: _,
            from: _,
        } = self;
    }
}

impl<F: Field, O: MonoOrder> Model for Dense<F, O> {
    ghost use Rattle.std.specs.Prelude.{◌≡◌, ℕ, ◌≤◌, List, drop, length};
    ghost use Rattle.ffc_poly.specs.Ordered.{values_of};
    ghost use Rattle.ffc_dense.specs.Columns.{listed};

    ghost Value = { List (List (ℕ × ℕ)) × List (ℕ × List (ℕ × ℕ)) };

    ghost view = { λ d. (d.columns.0, listed (values_of F.value d.coefficients.items) d.columns.0 (drop d.from d.columns.1)) };

    ghost invariant = { λ d. (length d.coefficients.items ≡ length d.columns.0) × (d.from ≤ length d.columns.1) };
}

/// Adds c times terms to coefficients by number.
fn add_multiple<F: Field>(coefficients: &mut Vec<F>, c: F, terms: &[(u32, F)])
    requires { AreNumbers (vec_len coefficients.old) terms.now }
    ensures long { vec_len coefficients.new ≡ vec_len coefficients.old }
    ensures sum { (ms : List Monomial) (ns : List ℕ) → AreApart ns → All (λ t. Contains ns t.0) terms.now
        → SamePolynomial F.ORDER (listed (values_of F.value coefficients.new.items) ms ns)
        (listed (values_of F.value coefficients.old.items) ms ns
        ++ scaled (F.value c) (terms_of F.value ms terms.now)) }
{
    for term in terms {
        let number = term.0 as usize;
        coefficients[number] = coefficients[number].add_scaled(c, term.1);
    }
}

/// Makes each coefficient 0.
fn clear<F: Field>(coefficients: &mut Vec<F>)
    ensures long { vec_len coefficients.new ≡ vec_len coefficients.old }
    ensures zero { (n : ℕ) → get_or (values_of F.value coefficients.new.items) n 0 ≡ 0 }
{
    for number in 0..coefficients.len() {
        coefficients[number] = F::of(0);
    }
}

/// The first place from one on at which the coefficient is not 0, or the place after the last.
fn first_nonzero<F: Field, O: MonoOrder>(
    columns: &Columns<O>,
    coefficients: &[F],
    from: usize,
) -> usize
    requires long { length coefficients.now ≡ length columns.now.0 }
    requires inside { from ≤ length columns.now.1 }
    ensures after { from ≤ result }
    ensures within { result ≤ length columns.now.1 }
    ensures zeros { (j : ℕ) → from ≤ j → j < result
        → get_or (values_of F.value coefficients.now) (get_or columns.now.1 j 0) 0 ≡ 0 }
    ensures some { result < length columns.now.1
        → get_or (values_of F.value coefficients.now) (get_or columns.now.1 result 0) 0 ≢ 0 }
{
    for place in from..columns.places() {
        if coefficients[columns.at(place)].residue() != 0 {
            return place;
        }
    }
    columns.places()
}

/// Appends a term, unless it is 0.
fn push_nonzero<F: Field>(terms: &mut Vec<(F, Mono)>, c: F, m: &Mono) -> Result<(), AllocError>
    ensures sum { OnOk result ((rest : Terms)
        → SamePolynomial F.ORDER (residues F.value terms.new.items ++ rest)
        (residues F.value terms.old.items ++ (F.value c, m.now) ∷ rest)) }
    ensures long { OnOk result (vec_len terms.new ≤ vec_len terms.old + 1) }
{
    if c.residue() == 0 {
        return Ok(());
    }
    terms.push((c, m.clone()?))?;
    Ok(())
}

/// The terms from a place on that are not 0.
fn nonzero_terms<F: Field, O: MonoOrder>(
    alloc: Global,
    columns: &Columns<O>,
    coefficients: &[F],
    from: usize,
) -> Result<Vec<(F, Mono)>, AllocError>
    requires long { length coefficients.now ≡ length columns.now.0 }
    requires inside { from ≤ length columns.now.1 }
    ensures same { IfOk result (λ ts. SamePolynomial F.ORDER (residues F.value ts.items)
        (listed (values_of F.value coefficients.now) columns.now.0 (drop from columns.now.1))) }
    ensures few { IfOk result (λ ts. vec_len ts ≤ COLUMN_LIMIT) }
{
    let _count = columns.len();
    let mut terms = Vec::new(alloc);
    for place in from..columns.places() {
        let number = columns.at(place);
        push_nonzero(&mut terms, coefficients[number], columns.monomial(number))?;
    }
    Ok(terms)
}

impl<F: Field, O: MonoOrder> Dense<F, O> {
    /// The polynomial 0, and no monomial has a number. It takes no memory.
    pub(crate) fn new(alloc: Global) -> Self
        ensures { result ≡ ([], []) }
    {
        Dense {
            columns: Columns::new(alloc),
            coefficients: Vec::new(alloc),
            from: 0,
        }
    }

    /// How many monomials have numbers.
    pub(crate) fn len(&self) -> usize
        ensures value { result ≡ length self.now.0 }
        ensures terms { length self.now.1 ≤ result }
        ensures few { result ≤ COLUMN_LIMIT }
    {
        self.columns.len()
    }

    /// The number of a monomial, which gets one where it has none.
    fn number(&mut self, alloc: Global, m: MonoRef<'_>) -> Result<usize, AllocError>
        requires { length self.old.0 < COLUMN_LIMIT }
        ensures number { IfOk result (λ n. (n < length self.new.0) × (get_or self.new.0 n [] ≡ m.entry.powers.now)) }
        ensures grows { Grows F.ORDER self.old self.new }
        ensures one { length self.new.0 ≤ length self.old.0 + 1 }
    {
        let m = m.to_mono(alloc)?;
        if let Some(number) = self.columns.find(&m) {
            return Ok(number);
        }
        let number = self.columns.len();
        self.coefficients.reserve(1)?;
        let place = self.columns.insert(m)?;
        push_zero(&mut self.coefficients);
        if place < self.from {
            self.from += 1;
        }
        Ok(number)
    }

    /// The terms of a polynomial by number, where there is room for its monomials.
    pub(crate) fn numbered(
        &mut self,
        alloc: Global,
        p: &Poly<F, O>,
    ) -> Result<Option<Vec<(u32, F)>>, AllocError>
        ensures terms { IfOk result (λ o. IfSome o (λ ts. terms_of F.value self.new.0 ts.items ≡ p.now)) }
        ensures numbers { IfOk result (λ o. IfSome o (λ ts. AreNumbers (length self.new.0) ts.items)) }
        ensures grows { Grows F.ORDER self.old self.new }
    {
        if self.len() > COLUMN_LIMIT - p.len() {
            return Ok(None);
        }
        let mut terms = Vec::with_capacity(alloc, p.len())?;
        for place in 0..p.len() {
            let (c, m) = p.term(place);
            let number = self.number(alloc, m)?;
            let _count = self.len();
            terms.push((number as u32, c))?;
        }
        Ok(Some(terms))
    }

    /// Puts terms in place of the polynomial.
    fn load(&mut self, terms: &[(u32, F)])
        requires { AreNumbers (length self.old.0) terms.now }
        ensures monomials { self.new.0 ≡ self.old.0 }
        ensures terms { SamePolynomial F.ORDER self.new.1 (terms_of F.value self.old.0 terms.now) }
    {
        let _count = self.columns.len();
        clear(&mut self.coefficients);
        self.from = 0;
        add_multiple(&mut self.coefficients, F::of(1), terms);
    }

    /// Puts another polynomial in place of this one, unless there is no room for its monomials.
    pub(crate) fn replace(&mut self, alloc: Global, p: &Poly<F, O>) -> Result<bool, AllocError>
        ensures terms { IfOk result (λ done. IsTrue done → SamePolynomial F.ORDER self.new.1 p.now) }
        ensures more { IsLonger self.old.0 self.new.0 }
    {
        let Some(terms) = self.numbered(alloc, p)? else {
            return Ok(false);
        };
        self.load(terms.as_slice());
        Ok(true)
    }

    /// The terms other than 0.
    pub(crate) fn terms(&self, alloc: Global) -> Result<Vec<(F, Mono)>, AllocError>
        ensures same { IfOk result (λ ts. SamePolynomial F.ORDER (residues F.value ts.items) self.now.1) }
        ensures few { IfOk result (λ ts. vec_len ts ≤ COLUMN_LIMIT) }
    {
        let coefficients = self.coefficients.as_slice();
        nonzero_terms(alloc, &self.columns, coefficients, self.from)
    }

    /// Drops the first terms that are 0, and says whether a term is left.
    pub(crate) fn settle(&mut self) -> bool
        ensures monomials { self.new.0 ≡ self.old.0 }
        ensures same { SamePolynomial F.ORDER self.new.1 self.old.1 }
        ensures none { result ≡ false → self.new.1 ≡ [] }
        ensures some { IsTrue result → (0 < length self.new.1) × ((get_or self.new.1 0 (0, [])).0 ≢ 0) }
    {
        let _count = self.columns.len();
        self.from = first_nonzero(&self.columns, self.coefficients.as_slice(), self.from);
        self.from < self.columns.places()
    }

    /// The first term, which leads where its coefficient is not 0.
    pub(crate) fn first(&self) -> (F, &Mono)
        requires { 0 < length self.now.1 }
        ensures coefficient { F.value result.0 ≡ (get_or self.now.1 0 (0, [])).0 }
        ensures monomial { result.1.now ≡ (get_or self.now.1 0 (0, [])).1 }
        ensures leading { F.value result.0 ≢ 0 → IsLeading F.ORDER O.cmp self.now.1 (F.value result.0) result.1.now }
    {
        let _count = self.columns.len();
        let number = self.columns.at(self.from);
        (self.coefficients[number], self.columns.monomial(number))
    }

    /// Drops the first term.
    pub(crate) fn drop_first(&mut self)
        requires { 0 < length self.old.1 }
        ensures { self.new ≡ (self.old.0, drop 1 self.old.1) }
    {
        let _places = self.columns.places();
        self.from += 1;
    }

    /// The number of the first term's monomial, or 0 where there is no term.
    pub(crate) fn first_number(&self) -> usize
        ensures { 0 < length self.now.1 → (result < length self.now.0)
            × (get_or self.now.0 result [] ≡ (get_or self.now.1 0 (0, [])).1) }
    {
        if self.from < self.columns.places() {
            self.columns.at(self.from)
        } else {
            0
        }
    }

    /// Subtracts c times terms whose first monomial is that of the first term, or changes nothing.
    pub(crate) fn subtract(&mut self, c: F, terms: &[(u32, F)]) -> bool
        requires numbers { AreNumbers (length self.old.0) terms.now }
        requires ordered { IsOrdered F.ORDER O.cmp 1024 (terms_of F.value self.old.0 terms.now) }
        ensures monomials { self.new.0 ≡ self.old.0 }
        ensures difference { IsTrue result → SamePolynomial F.ORDER self.new.1
            (difference F.ORDER self.old.1 (scaled (F.value c) (terms_of F.value self.old.0 terms.now))) }
        ensures unchanged { result ≡ false → self.new ≡ self.old }
    {
        let _count = self.columns.len();
        let Some(lead) = terms.first() else {
            return false;
        };
        if self.from >= self.columns.places() {
            return false;
        }
        if lead.0 as usize != self.columns.at(self.from) {
            return false;
        }
        add_multiple(&mut self.coefficients, c.neg(), terms);
        true
    }
}

/// Appends 0 where there is space for it.
fn push_zero<F: Field>(coefficients: &mut Vec<F>)
    requires { vec_len coefficients.old < vec_capacity coefficients.old }
    ensures items { (z : F) × (F.value z ≡ 0) × (coefficients.new.items ≡ coefficients.old.items ++ z ∷ []) }
    ensures len { vec_len coefficients.new ≡ vec_len coefficients.old + 1 }
{
    match coefficients.push(F::of(0)) {
        Ok(()) => {}
        Err(_) => unreachable!(),
    }
}
