//! A polynomial from which multiples of lines are subtracted, and the multiples that were subtracted before.
ghost use Rattle.std.specs.Prelude.{◌≡◌, ◌≢◌, ℕ, ◌<◌, ◌≤◌, ◌∷◌, [], ◌++◌, ◌↔◌, false, List, All, Option, None, Some, length, get_or, take};
ghost use Rattle.std.specs.Prelude.{IfOk, IfSome, IsTrue, IsNone, OnOk, OnErr, MatchOption};
ghost use Rattle.std.specs.Vec.{vec_len};
ghost use Rattle.ffc_ring.specs.Monomial.{Monomial};
ghost use Rattle.ffc_ring.specs.Polynomial.{Terms, SamePolynomial, term_product, scaled, difference};
ghost use Rattle.ffc_mono.specs.Leading.{IsLeading};
ghost use Rattle.ffc_dense.specs.Columns.{terms_of, Grows};
ghost use Rattle.ffc_dense.specs.Tables.{multiples_of, IsKept, AreKept, AreMultiplesOf, IsLineOf, HasMultiple, PutsAtMost, KeepsBefore};
ghost use Rattle.ffc_dense.specs.Tables.{IsHeldAt, LeadsMultiple};

use crate::dense::Dense;
use ffc_field::Field;
use ffc_mono::{Mono, MonoOrder};
use ffc_poly::{Poly, PolyStop, TERM_LIMIT};
use std::alloc::{AllocError, Global};
use std::fmt::{self, Debug, Formatter, Write};
use std::marker::Model;

/// A line times a monomial, with the numbers of the product's monomials.
pub(crate) struct Kept<F: Field> {
    line: usize,
    monomial: Mono,
    terms: Vec<(u32, F)>,
}

impl<F: Field> Drop for Kept<F> {
    fn drop(self) {
        let Kept {
            line: _,
            monomial: _,
            terms: _,
        } = self;
    }
}

/// A polynomial, and multiples of the lines of a basis. A clause sees the polynomial's terms, and of each multiple that is kept
/// the number of the line, the monomial and the product.
pub struct Table<F: Field, O: MonoOrder> {
    dense: Dense<F, O>,
    /// Each stands at the number of its leading monomial.
    kept: Vec<Option<Kept<F>>>,
    /// How many terms these have.
    stored: usize,
    /// What may be spent on new monomials.
    credit: usize,
    /// What reductions elsewhere earned since that was spent.
    earned: usize,
}

impl<F: Field, O: MonoOrder> Drop for Table<F, O> {
    fn drop(self) {
        let Table {
            dense: _,
            kept: _,
            stored: _,
            credit: _,
            earned: _,
        } = self;
    }
}

impl<F: Field, O: MonoOrder> Debug for Table<F, O> {
    fn fmt<W: Write>(&self, f: &mut Formatter<W>) -> fmt::Result {
        f.write_str("Table")
    }
}

impl<F: Field, O: MonoOrder> Model for Table<F, O> {
    ghost use Rattle.std.specs.Prelude.{ℕ, List};
    ghost use Rattle.ffc_dense.specs.Tables.{multiples_of, AreKept};

    ghost Value = { List (ℕ × List (ℕ × ℕ)) × List (ℕ × List (ℕ × ℕ) × List (ℕ × List (ℕ × ℕ))) };

    ghost view = { λ t. (t.dense.1, multiples_of F.value t.dense.0 t.kept.items) };

    ghost invariant = { λ t. AreKept F.ORDER F.value O.cmp t.dense.0 t.kept.items };
}

/// Where so many monomials have numbers, a reduction begins with an empty table.
const MANY_COLUMNS: usize = 65_536;

/// And where the multiples that were kept since it was empty have so many terms, after which no more are kept.
const MANY_TERMS: usize = 4_194_304;

/// What may be spent at first.
const FIRST_CREDIT: usize = 8_192;

/// There is never more to spend.
const MOST_CREDIT: usize = 1_048_576;

/// Shorter polynomials are reduced elsewhere.
const SHORT: usize = 16;

/// After reductions elsewhere of so many terms there is something to spend again.
const ENOUGH: usize = 32_768;

/// What a new monomial costs. A term of a multiple that was kept earns 1.
const COLUMN_COST: usize = 16;

/// Whether the multiple of a line by a monomial is kept at a place.
fn holds<F: Field>(kept: &[Option<Kept<F>>], slot: usize, line: usize, m: &Mono) -> bool
    ensures { IsTrue result → HasMultiple kept.now slot line m.now }
{
    if slot >= kept.len() {
        return false;
    }
    match &kept[slot] {
        Some(multiple) => multiple.line == line && multiple.monomial == *m,
        None => false,
    }
}

/// The multiple at a place, where its first monomial has that number: its line and the monomial that this is multiplied by.
fn held_at<F: Field>(kept: &[Option<Kept<F>>], slot: usize) -> Option<(usize, &Mono)>
    ensures { IfSome result (λ t. IsHeldAt kept.now slot t.0 t.1.now) }
{
    if slot >= kept.len() {
        return None;
    }
    let Some(multiple) = &kept[slot] else {
        return None;
    };
    let Some(lead) = multiple.terms.first() else {
        return None;
    };
    if lead.0 as usize != slot {
        return None;
    }
    Some((multiple.line, &multiple.monomial))
}

/// Makes a place for a multiple.
fn extend<F: Field>(kept: &mut Vec<Option<Kept<F>>>, slot: usize) -> Result<(), AllocError>
    ensures place { OnOk result (slot < vec_len kept.new) }
    ensures nothing { (i : ℕ) → get_or kept.new.items i None ≡ get_or kept.old.items i None }
{
    while kept.len() <= slot {
        kept.push(None)?;
    }
    Ok(())
}

/// Keeps a multiple at a place.
fn put<F: Field>(
    kept: &mut Vec<Option<Kept<F>>>,
    slot: usize,
    multiple: Kept<F>,
) -> Result<(), AllocError>
    ensures at { OnOk result (HasMultiple kept.new.items slot multiple.line multiple.monomial) }
    ensures others { PutsAtMost multiple kept.old.items kept.new.items }
{
    extend(kept, slot)?;
    kept[slot] = Some(multiple);
    Ok(())
}

/// Whether a multiple, if any, is of a line before a number.
fn is_before<F: Field>(multiple: &Option<Kept<F>>, len: usize) -> bool
    ensures { IsTrue result → IfSome multiple.now (λ k. k.line < len) }
{
    match multiple {
        Some(multiple) => multiple.line < len,
        None => true,
    }
}

/// Drops the multiples of lines from a number on.
fn drop_from<F: Field>(kept: &mut Vec<Option<Kept<F>>>, len: usize)
    ensures { KeepsBefore len kept.old.items kept.new.items }
{
    for slot in 0..kept.len() {
        if !is_before(&kept[slot], len) {
            kept[slot] = None;
        }
    }
}

/// A line times a monomial, where no limit is passed.
fn product<F: Field, O: MonoOrder>(
    alloc: Global,
    dense: &mut Dense<F, O>,
    line: usize,
    m: &Mono,
    q: &Poly<F, O>,
) -> Result<Option<Kept<F>>, AllocError>
    ensures line { IfOk result (λ o. IfSome o (λ k. k.line ≡ line)) }
    ensures monomial { IfOk result (λ o. IfSome o (λ k. k.monomial ≡ m.now)) }
    ensures kept { IfOk result (λ o. IfSome o (λ k. IsKept F.ORDER F.value O.cmp dense.new.0 (Some k))) }
    ensures product { IfOk result (λ o. IfSome o (λ k. SamePolynomial F.ORDER
        (terms_of F.value dense.new.0 k.terms.items) (term_product 1 m.now q.now))) }
    ensures grows { Grows F.ORDER dense.old dense.new }
{
    let product = match q.times(F::of(1), m.as_ref()) {
        Ok(product) => product,
        Err(PolyStop::Memory) => return Err(AllocError),
        Err(_) => return Ok(None),
    };
    let _length = product.len();
    let Some(terms) = dense.numbered(alloc, &product)? else {
        return Ok(None);
    };
    Ok(Some(Kept {
        line,
        monomial: m.clone()?,
        terms,
    }))
}

/// Makes a multiple and keeps it at a place, where no limit is passed.
fn keep<F: Field, O: MonoOrder>(
    dense: &mut Dense<F, O>,
    kept: &mut Vec<Option<Kept<F>>>,
    slot: usize,
    line: usize,
    m: &Mono,
    q: &Poly<F, O>,
) -> Result<bool, AllocError>
    requires { AreKept F.ORDER F.value O.cmp dense.old.0 kept.old.items }
    ensures at { IfOk result (λ done. IsTrue done → HasMultiple kept.new.items slot line m.now) }
    ensures monomials { Grows F.ORDER dense.old dense.new }
    ensures kept { AreKept F.ORDER F.value O.cmp dense.new.0 kept.new.items }
    ensures multiples { (gs : List Terms)
        → AreMultiplesOf F.ORDER gs (multiples_of F.value dense.old.0 kept.old.items) → IsLineOf gs line q.now
        → AreMultiplesOf F.ORDER gs (multiples_of F.value dense.new.0 kept.new.items) }
{
    let alloc = *kept.allocator();
    let Some(multiple) = product(alloc, dense, line, m, q)? else {
        return Ok(false);
    };
    put(kept, slot, multiple)?;
    Ok(true)
}

/// Subtracts c times the multiple at a place, or changes nothing.
fn subtract_kept<F: Field, O: MonoOrder>(
    dense: &mut Dense<F, O>,
    kept: &[Option<Kept<F>>],
    slot: usize,
    c: F,
) -> bool
    requires { AreKept F.ORDER F.value O.cmp dense.old.0 kept.now }
    ensures monomials { dense.new.0 ≡ dense.old.0 }
    ensures difference { IsTrue result → (k : Kept F) × (get_or kept.now slot None ≡ Some k)
        × SamePolynomial F.ORDER dense.new.1
        (difference F.ORDER dense.old.1 (scaled (F.value c) (terms_of F.value dense.old.0 k.terms.items))) }
    ensures unchanged { result ≡ false → dense.new ≡ dense.old }
{
    if slot >= kept.len() {
        return false;
    }
    match &kept[slot] {
        Some(multiple) => dense.subtract(c, multiple.terms.as_slice()),
        None => false,
    }
}

/// Subtracts c*m*q, where m*q is kept at a place and q is a line with this number, or changes nothing.
fn subtract_held<F: Field, O: MonoOrder>(
    dense: &mut Dense<F, O>,
    kept: &[Option<Kept<F>>],
    slot: usize,
    line: usize,
    c: F,
    m: &Mono,
    q: &Poly<F, O>,
) -> bool
    requires kept { AreKept F.ORDER F.value O.cmp dense.old.0 kept.now }
    requires held { HasMultiple kept.now slot line m.now }
    ensures monomials { dense.new.0 ≡ dense.old.0 }
    ensures difference { IsTrue result → (gs : List Terms)
        → AreMultiplesOf F.ORDER gs (multiples_of F.value dense.old.0 kept.now) → IsLineOf gs line q.now
        → SamePolynomial F.ORDER dense.new.1 (difference F.ORDER dense.old.1
        (term_product (F.value c) m.now q.now)) }
    ensures unchanged { result ≡ false → dense.new ≡ dense.old }
{
    let _place = (line, m.degree(), q.len());
    subtract_kept(dense, kept, slot, c)
}

/// What is left to spend, where so many monomials had numbers before and have now.
fn spent(credit: usize, before: usize, now: usize) -> usize {
    let cost = now.saturating_sub(before).saturating_mul(COLUMN_COST);
    credit.saturating_sub(cost)
}

impl<F: Field, O: MonoOrder> Table<F, O> {
    /// The polynomial 0, and no multiples. It takes no memory.
    pub fn new(alloc: Global) -> Self
        ensures { result ≡ ([], []) }
    {
        Table {
            dense: Dense::new(alloc),
            kept: Vec::new(alloc),
            stored: 0,
            credit: FIRST_CREDIT,
            earned: 0,
        }
    }

    /// Whether to reduce a polynomial of so many terms here: what may be spent on new monomials is not spent. If it is, the
    /// polynomial is reduced elsewhere.
    pub fn pays(&mut self, terms: usize) -> bool
        ensures { self.new ≡ self.old }
    {
        if terms < SHORT {
            return false;
        }
        if self.credit > 0 {
            return true;
        }
        self.earned = self.earned.saturating_add(terms);
        if self.earned >= ENOUGH {
            self.earned = 0;
            self.credit = FIRST_CREDIT;
        }
        false
    }

    /// How many monomials have numbers: the polynomial has no more terms.
    pub fn len(&self) -> usize
        ensures terms { length self.now.0 ≤ result }
        ensures few { result ≤ TERM_LIMIT }
    {
        self.dense.len()
    }

    /// Drops the multiples of lines from a number on. It takes no memory.
    pub fn cut(&mut self, len: usize)
        ensures terms { self.new.0 ≡ self.old.0 }
        ensures multiples { (gs : List Terms) → AreMultiplesOf F.ORDER gs self.old.1
            → AreMultiplesOf F.ORDER (take len gs) self.new.1 }
    {
        drop_from(&mut self.kept, len);
    }

    /// Begins with an empty table where this one is large.
    fn renew(&mut self)
        ensures { (gs : List Terms) → AreMultiplesOf F.ORDER gs self.old.1 → AreMultiplesOf F.ORDER gs self.new.1 }
    {
        if self.dense.len() > MANY_COLUMNS || self.stored > MANY_TERMS {
            let alloc = *self.kept.allocator();
            *self = Table::new(alloc);
        }
    }

    /// Puts a polynomial in place of this one, unless there is no room for it.
    pub fn load(&mut self, p: &Poly<F, O>) -> Result<bool, AllocError>
        ensures terms { IfOk result (λ done. IsTrue done → SamePolynomial F.ORDER self.new.0 p.now) }
        ensures multiples { (gs : List Terms) → AreMultiplesOf F.ORDER gs self.old.1
            → AreMultiplesOf F.ORDER gs self.new.1 }
    {
        self.renew();
        let alloc = *self.kept.allocator();
        let count = self.dense.len();
        let done = self.dense.replace(alloc, p)?;
        self.credit = spent(self.credit, count, self.dense.len());
        Ok(done)
    }

    /// The polynomial.
    pub fn polynomial(&self) -> Result<Poly<F, O>, AllocError>
        ensures { IfOk result (λ r. SamePolynomial F.ORDER r self.now.0) }
    {
        let alloc = *self.kept.allocator();
        let terms = self.dense.terms(alloc)?;
        match Poly::from_terms(alloc, terms.as_slice()) {
            Ok(poly) => Ok(poly),
            Err(PolyStop::Memory) => Err(AllocError),
            Err(_) => unreachable!(),
        }
    }

    /// The leading coefficient and monomial, or none at zero.
    pub fn lead(&mut self) -> Result<Option<(F, Mono)>, AllocError>
        ensures same { SamePolynomial F.ORDER self.new.0 self.old.0 }
        ensures multiples { self.new.1 ≡ self.old.1 }
        ensures zero { IfOk result (λ o. IsNone o ↔ SamePolynomial F.ORDER self.old.0 []) }
        ensures leading { IfOk result (λ o. IfSome o (λ t. IsLeading F.ORDER O.cmp self.old.0 (F.value t.0) t.1)) }
    {
        if !self.dense.settle() {
            return Ok(None);
        }
        let (c, m) = self.dense.first();
        Ok(Some((c, m.clone()?)))
    }

    /// The same, taken off. Without memory the polynomial stays.
    pub fn take_lead(&mut self) -> Result<Option<(F, Mono)>, AllocError>
        ensures multiples { self.new.1 ≡ self.old.1 }
        ensures zero { IfOk result (λ o. IsNone o ↔ SamePolynomial F.ORDER self.old.0 []) }
        ensures leading { IfOk result (λ o. IfSome o (λ t. IsLeading F.ORDER O.cmp self.old.0 (F.value t.0) t.1)) }
        ensures rest { IfOk result (λ o. MatchOption o (SamePolynomial F.ORDER self.new.0 [])
            (λ t. SamePolynomial F.ORDER self.old.0 ((F.value t.0, t.1) ∷ self.new.0))) }
        ensures unchanged { OnErr result (SamePolynomial F.ORDER self.new.0 self.old.0) }
    {
        if !self.dense.settle() {
            return Ok(None);
        }
        let (c, m) = self.dense.first();
        let lead = (c, m.clone()?);
        self.dense.drop_first();
        Ok(Some(lead))
    }

    /// The multiple that is kept at the leading monomial, if there is one: the number of its line, the leading coefficient of
    /// the polynomial, and the monomial that the line is multiplied by. So no line is sought that divides the leading monomial.
    pub fn held(&mut self) -> Result<Option<(usize, F, Mono)>, AllocError>
        ensures same { SamePolynomial F.ORDER self.new.0 self.old.0 }
        ensures multiples { self.new.1 ≡ self.old.1 }
        ensures held { IfOk result (λ o. IfSome o (λ t. (gs : List Terms) → AreMultiplesOf F.ORDER gs self.old.1
            → LeadsMultiple F.ORDER O.cmp gs self.old.0 t.0 (F.value t.1) t.2)) }
    {
        if !self.dense.settle() {
            return Ok(None);
        }
        let slot = self.dense.first_number();
        let Some((line, m)) = held_at(self.kept.as_slice(), slot) else {
            return Ok(None);
        };
        let (c, _) = self.dense.first();
        let m = m.clone()?;
        let _degree = m.degree();
        Ok(Some((line, c, m)))
    }

    /// Subtracts c*m*q, where q is a line with this number and c*m*q has the leading term. The product m*q is made where it is
    /// not kept, unless too much was spent on new monomials or a limit is passed: then the polynomial stays.
    pub fn subtract_multiple(
        &mut self,
        line: usize,
        c: F,
        m: &Mono,
        q: &Poly<F, O>,
    ) -> Result<bool, AllocError>
        ensures difference { IfOk result (λ done. IsTrue done → (gs : List Terms)
            → AreMultiplesOf F.ORDER gs self.old.1 → IsLineOf gs line q.now → SamePolynomial F.ORDER self.new.0
            (difference F.ORDER self.old.0 (term_product (F.value c) m.now q.now))) }
        ensures stays { IfOk result (λ done. done ≡ false → SamePolynomial F.ORDER self.new.0 self.old.0) }
        ensures multiples { (gs : List Terms) → AreMultiplesOf F.ORDER gs self.old.1 → IsLineOf gs line q.now
            → AreMultiplesOf F.ORDER gs self.new.1 }
    {
        let slot = self.dense.first_number();
        if holds(self.kept.as_slice(), slot, line, m) {
            self.credit = self.credit.saturating_add(q.len()).min(MOST_CREDIT);
            let kept = self.kept.as_slice();
            return Ok(subtract_held(&mut self.dense, kept, slot, line, c, m, q));
        }
        if self.credit == 0 || self.stored > MANY_TERMS {
            return Ok(false);
        }
        let count = self.dense.len();
        let done = keep(&mut self.dense, &mut self.kept, slot, line, m, q)?;
        self.credit = spent(self.credit, count, self.dense.len());
        if !done {
            return Ok(false);
        }
        self.stored = self.stored.saturating_add(q.len());
        let kept = self.kept.as_slice();
        Ok(subtract_held(&mut self.dense, kept, slot, line, c, m, q))
    }
}
