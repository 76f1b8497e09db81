//! The record of a reduction: for each line the terms that it was multiplied by, in the order of the steps. A step appends
//! its term to a list. Polynomials are made of the lists once, where the reduction is done: merged at each step, all that
//! is recorded for a line would be copied each time.
ghost use Rattle.std.specs.Prelude.{◌≡◌, ◌<◌, ◌≤◌, [], ◌∷◌, ◌++◌, length, vec_len, get_or, IfOk, IfErr, IfSome, IfNone};
ghost use Rattle.std.specs.Prelude.{OnOk, OnErr, IsErrOf, IsTrue, MatchOption};
ghost use Rattle.ffc_ring.specs.Polynomial.{Terms, AreTerms, SamePolynomial, PassesTerms, scaled};
ghost use Rattle.ffc_poly.specs.Ordered.{residues};
ghost use Rattle.ffc_line.specs.Lines.{HasPart, IsLineOfNone, ArePolynomials};
ghost use Rattle.ffc_basis.specs.Outcomes.{AreScaled};
ghost use Rattle.ffc_basis.specs.Reduction.{IsAddedAt, IsRecorded};
ghost use Rattle.ffc_basis.specs.Records.{AreShort, AreOfDifferentLines};

use crate::reduction::only_memory;
use ffc_field::Field;
use ffc_line::LineId;
use ffc_mono::{Mono, MonoOrder};
use ffc_poly::{Poly, PolyStop, TERM_LIMIT};
use std::alloc::{AllocError, Global};
use std::marker::Model;

/// The terms that a line is multiplied by. A clause sees the number of the line and the residues of the terms.
pub(crate) struct Multiples<F: Field> {
    line: LineId,
    terms: Vec<(F, Mono)>,
}

impl<F: Field> Drop for Multiples<F> {
    fn drop(self) {
        let Multiples { line: _, terms: _ } = self;
    }
}

impl<F: Field> Model for Multiples<F> {
    ghost use Rattle.std.specs.Prelude.{ℕ, List};
    ghost use Rattle.ffc_poly.specs.Ordered.{residues};

    ghost Value = { ℕ × List (ℕ × List (ℕ × ℕ)) };

    ghost view = { λ m. (m.line, residues F.value m.terms.items) };
}

impl<F: Field> Multiples<F> {
    /// One term.
    fn single(alloc: Global, line: LineId, c: F, m: &Mono) -> Result<Self, AllocError>
        ensures { IfOk result (λ r. r ≡ (line, (F.value c, m.now) ∷ [])) }
    {
        let mut terms = Vec::new(alloc);
        terms.push((c, m.clone()?))?;
        Ok(Multiples { line, terms })
    }

    /// The number of the line.
    fn line(&self) -> LineId
        ensures { result ≡ self.now.0 }
    {
        self.line
    }

    /// How many terms there are.
    fn len(&self) -> usize
        ensures { result ≡ length self.now.1 }
    {
        self.terms.len()
    }

    /// Appends a term.
    fn push(&mut self, c: F, m: &Mono) -> Result<(), AllocError>
        ensures pushed { OnOk result (self.new ≡ (self.old.0, self.old.1 ++ (F.value c, m.now) ∷ [])) }
        ensures unchanged { OnErr result (self.new ≡ self.old) }
    {
        self.terms.push((c, m.clone()?))?;
        Ok(())
    }

    /// The polynomial of the terms.
    fn polynomial<O: MonoOrder>(&self) -> Result<Poly<F, O>, AllocError>
        requires { length self.now.1 ≤ TERM_LIMIT }
        ensures { IfOk result (λ r. SamePolynomial F.ORDER r self.now.1) }
    {
        match Poly::<F, O>::from_terms(*self.terms.allocator(), self.terms.as_slice()) {
            Ok(whole) => Ok(whole),
            Err(stop) => Err(only_memory(stop)),
        }
    }

    /// The terms and one more, with each monomial once.
    fn merge<O: MonoOrder>(&mut self, c: F, m: &Mono) -> Result<(), PolyStop>
        requires { length self.old.1 ≤ TERM_LIMIT }
        ensures line { self.new.0 ≡ self.old.0 }
        ensures sum { OnOk result (SamePolynomial F.ORDER self.new.1 (self.old.1 ++ (F.value c, m.now) ∷ [])) }
        ensures terms { AreTerms self.old.1 → AreTerms self.new.1 }
        ensures short { length self.new.1 ≤ TERM_LIMIT }
        ensures over { IsErrOf result PolyStop.TermsOver → PassesTerms F.ORDER 131072
            (self.old.1 ++ (F.value c, m.now) ∷ []) }
        ensures no_product { IsErrOf result PolyStop.DegreeOver → ⊥ }
        ensures unchanged { OnErr result (self.new ≡ self.old) }
    {
        let alloc = *self.terms.allocator();
        let whole = self.polynomial::<O>()?;
        let single = term::<F, O>(alloc, c, m)?;
        let sum = match whole.add(&single) {
            Ok(sum) => sum,
            Err(stop) => return Err(stop),
        };
        let _length = sum.len();
        self.terms = listed(alloc, &sum)?;
        Ok(())
    }

    /// Adds a term.
    fn add<O: MonoOrder>(&mut self, c: F, m: &Mono) -> Result<(), PolyStop>
        requires { length self.old.1 ≤ TERM_LIMIT }
        ensures line { self.new.0 ≡ self.old.0 }
        ensures sum { OnOk result (SamePolynomial F.ORDER self.new.1 (self.old.1 ++ (F.value c, m.now) ∷ [])) }
        ensures terms { AreTerms self.old.1 → AreTerms self.new.1 }
        ensures short { length self.new.1 ≤ TERM_LIMIT }
        ensures over { IsErrOf result PolyStop.TermsOver → PassesTerms F.ORDER 131072
            (self.old.1 ++ (F.value c, m.now) ∷ []) }
        ensures no_product { IsErrOf result PolyStop.DegreeOver → ⊥ }
        ensures unchanged { OnErr result (self.new ≡ self.old) }
    {
        if self.len() >= TERM_LIMIT {
            return self.merge::<O>(c, m);
        }
        let _degree = m.degree();
        self.push(c, m)?;
        Ok(())
    }

    /// The polynomial of the terms, times a constant.
    fn times<O: MonoOrder>(&self, c: F) -> Result<Poly<F, O>, AllocError>
        requires { length self.now.1 ≤ TERM_LIMIT }
        ensures { IfOk result (λ r. SamePolynomial F.ORDER r (scaled (F.value c) self.now.1)) }
    {
        let whole = self.polynomial::<O>()?;
        match whole.scale(c) {
            Ok(multiple) => Ok(multiple),
            Err(stop) => Err(only_memory(stop)),
        }
    }
}

/// The polynomial c*m.
fn term<F: Field, O: MonoOrder>(alloc: Global, c: F, m: &Mono) -> Result<Poly<F, O>, AllocError>
    ensures { IfOk result (λ r. SamePolynomial F.ORDER r ((F.value c, m.now) ∷ [])) }
{
    let mut terms = Vec::new(alloc);
    terms.push((c, m.clone()?))?;
    match Poly::from_terms(alloc, terms.as_slice()) {
        Ok(single) => Ok(single),
        Err(PolyStop::Memory) => Err(AllocError),
        Err(_) => unreachable!(),
    }
}

/// The terms of a polynomial.
fn listed<F: Field, O: MonoOrder>(
    alloc: Global,
    poly: &Poly<F, O>,
) -> Result<Vec<(F, Mono)>, AllocError>
    ensures { IfOk result (λ v. residues F.value v.items ≡ poly.now) }
{
    let mut terms = Vec::new(alloc);
    for place in 0..poly.len() {
        let (c, m) = poly.term(place);
        terms.push((c, m.to_mono(alloc)?))?;
    }
    Ok(terms)
}

/// The place of a line in a record.
fn place_of<F: Field>(multiples: &[Multiples<F>], line: LineId) -> Option<usize>
    ensures some { IfSome result (λ i. (i < length multiples.now) × ((get_or multiples.now i (0, [])).0 ≡ line)) }
    ensures none { IfNone result (IsLineOfNone line multiples.now) }
{
    for place in 0..multiples.len() {
        let part = &multiples[place];
        if part.line() == line {
            return Some(place);
        }
    }
    None
}

/// Adds a term to the list at a place.
fn add_at<F: Field, O: MonoOrder>(
    multiples: &mut Vec<Multiples<F>>,
    place: usize,
    c: F,
    m: &Mono,
) -> Result<(), PolyStop>
    requires place { place < vec_len multiples.old }
    requires short { AreShort multiples.old.items }
    ensures added { OnOk result (IsAddedAt F.ORDER multiples.old.items multiples.new.items place
        ((F.value c, m.now) ∷ [])) }
    ensures short { AreShort multiples.new.items }
    ensures over { IsErrOf result PolyStop.TermsOver → PassesTerms F.ORDER 131072
        ((get_or multiples.old.items place (0, [])).1 ++ (F.value c, m.now) ∷ []) }
    ensures no_product { IsErrOf result PolyStop.DegreeOver → ⊥ }
    ensures unchanged { OnErr result (multiples.new.items ≡ multiples.old.items) }
{
    let part = &mut multiples[place];
    part.add::<O>(c, m)
}

/// Appends a list of one term.
fn append<F: Field>(
    multiples: &mut Vec<Multiples<F>>,
    line: LineId,
    c: F,
    m: &Mono,
) -> Result<(), AllocError>
    ensures appended { OnOk result (multiples.new.items ≡ multiples.old.items ++ (line, (F.value c, m.now) ∷ []) ∷ []) }
    ensures short { AreShort multiples.old.items → AreShort multiples.new.items }
    ensures unchanged { OnErr result (multiples.new.items ≡ multiples.old.items) }
{
    let _degree = m.degree();
    let single = Multiples::single(*multiples.allocator(), line, c, m)?;
    multiples.push(single)?;
    Ok(())
}

/// The polynomials of the lists, times a constant.
fn times<F: Field, O: MonoOrder>(
    alloc: Global,
    multiples: &[Multiples<F>],
    c: F,
) -> Result<Vec<(LineId, Poly<F, O>)>, AllocError>
    requires { AreShort multiples.now }
    ensures scaled { IfOk result (λ r. AreScaled F.ORDER (F.value c) multiples.now r.items) }
    ensures polynomials { IfOk result (λ r. AreOfDifferentLines multiples.now → ArePolynomials F.ORDER O.cmp r.items) }
{
    let mut parts = Vec::new(alloc);
    for part in multiples {
        let multiple = part.times::<O>(c)?;
        let _length = multiple.len();
        parts.push((part.line(), multiple))?;
    }
    Ok(parts)
}

/// So many places are remembered.
const HINTS: usize = 128;

/// Where it is remembered at which place the part of a line is. Another line may have taken its place.
fn hint_of(line: LineId) -> usize
    ensures { result < HINTS }
{
    (line % HINTS as u64) as usize
}

/// What lines were multiplied by. A clause sees the parts: the number of each line with its terms.
pub(crate) struct Record<F: Field> {
    multiples: Vec<Multiples<F>>,
    /// Places of parts. A step mostly takes a line that has a part, which is to be found without a look at all parts.
    hints: [usize; HINTS],
}

impl<F: Field> Drop for Record<F> {
    fn drop(self) {
        let Record {
            multiples: _,
            hints: _,
        } = self;
    }
}

impl<F: Field> Model for Record<F> {
    ghost use Rattle.std.specs.Prelude.{ℕ, List};
    ghost use Rattle.ffc_basis.specs.Records.{AreShort};

    ghost Value = { List (ℕ × List (ℕ × List (ℕ × ℕ))) };

    ghost view = { λ r. r.multiples.items };

    ghost invariant = { λ r. AreShort r.multiples.items };
}

impl<F: Field> Record<F> {
    /// Nothing is recorded. It takes no memory.
    pub(crate) fn new(alloc: Global) -> Self
        ensures { result ≡ [] }
    {
        Record {
            multiples: Vec::new(alloc),
            hints: [0; HINTS],
        }
    }

    /// How many lines have a part.
    pub(crate) fn len(&self) -> usize
        ensures value { result ≡ length self.now }
        ensures short { AreShort self.now }
    {
        self.multiples.len()
    }

    /// The place of a line.
    pub(crate) fn place_of(&self, line: LineId) -> Option<usize>
        ensures some { IfSome result (λ i. (i < length self.now) × ((get_or self.now i (0, [])).0 ≡ line)) }
        ensures none { IfNone result (IsLineOfNone line self.now) }
    {
        let hint = self.hints[hint_of(line)];
        if hint < self.multiples.len() && self.multiples[hint].line() == line {
            return Some(hint);
        }
        place_of(self.multiples.as_slice(), line)
    }

    /// Whether the part at a place, if any, can have one more term.
    pub(crate) fn has_room(&self, place: Option<usize>) -> bool
        requires { IfSome place (λ i. i < length self.now) }
        ensures { IsTrue result → IfSome place (λ i. length (get_or self.now i (0, [])).1 < TERM_LIMIT) }
    {
        match place {
            Some(i) => self.multiples[i].len() < TERM_LIMIT,
            None => true,
        }
    }

    /// Records a multiple as a part of its own.
    pub(crate) fn append(&mut self, line: LineId, c: F, m: &Mono) -> Result<(), AllocError>
        ensures recorded { OnOk result (IsRecorded F.ORDER self.old self.new line (F.value c) m.now) }
        ensures unchanged { OnErr result (self.new ≡ self.old) }
    {
        let place = self.multiples.len();
        append(&mut self.multiples, line, c, m)?;
        self.hints[hint_of(line)] = place;
        Ok(())
    }

    /// Records a multiple in the part at a place, or as a part of its own.
    pub(crate) fn add_at<O: MonoOrder>(
        &mut self,
        place: Option<usize>,
        line: LineId,
        c: F,
        m: &Mono,
    ) -> Result<(), PolyStop>
        requires some { IfSome place (λ i. (i < length self.old) × ((get_or self.old i (0, [])).0 ≡ line)) }
        requires none { IfNone place (IsLineOfNone line self.old) }
        ensures recorded { OnOk result (IsRecorded F.ORDER self.old self.new line (F.value c) m.now) }
        ensures lines { OnOk result (AreOfDifferentLines self.old → AreOfDifferentLines self.new) }
        ensures over { IsErrOf result PolyStop.TermsOver → MatchOption place ⊥ (λ i. PassesTerms F.ORDER 131072
            ((get_or self.old i (0, [])).1 ++ (F.value c, m.now) ∷ [])) }
        ensures no_product { IsErrOf result PolyStop.DegreeOver → ⊥ }
        ensures unchanged { OnErr result (self.new ≡ self.old) }
    {
        match place {
            Some(place) => add_at::<F, O>(&mut self.multiples, place, c, m),
            None => {
                let place = self.multiples.len();
                append(&mut self.multiples, line, c, m)?;
                self.hints[hint_of(line)] = place;
                Ok(())
            }
        }
    }

    /// Records a multiple in the part of its line.
    pub(crate) fn add<O: MonoOrder>(&mut self, line: LineId, c: F, m: &Mono) -> Result<(), PolyStop>
        ensures recorded { OnOk result (IsRecorded F.ORDER self.old self.new line (F.value c) m.now) }
        ensures lines { OnOk result (AreOfDifferentLines self.old → AreOfDifferentLines self.new) }
        ensures over { IsErrOf result PolyStop.TermsOver → (t : Terms) × HasPart self.old line t
            × PassesTerms F.ORDER 131072 (t ++ (F.value c, m.now) ∷ []) }
        ensures no_product { IsErrOf result PolyStop.DegreeOver → ⊥ }
        ensures unchanged { OnErr result (self.new ≡ self.old) }
    {
        let place = self.place_of(line);
        self.add_at::<O>(place, line, c, m)
    }

    /// The parts times a constant, as polynomials.
    pub(crate) fn times<O: MonoOrder>(&self, c: F) -> Result<Vec<(LineId, Poly<F, O>)>, AllocError>
        ensures scaled { IfOk result (λ r. AreScaled F.ORDER (F.value c) self.now r.items) }
        ensures polynomials { IfOk result (λ r. AreOfDifferentLines self.now → ArePolynomials F.ORDER O.cmp r.items) }
    {
        times::<F, O>(*self.multiples.allocator(), self.multiples.as_slice(), c)
    }
}
