//! Remainders that are reduced in place. A step is not to copy all that is left: the terms stand in an accumulator or in a
//! table (left.rt), from which the leading one is taken off as soon as no line divides it.
ghost use Rattle.std.specs.Prelude.{◌≡◌, ℕ, ◌+◌, ◌<◌, ◌≤◌, false, [], List, length, get_or, IsTrue, IfOk, IfSome, IfNone};
ghost use Rattle.std.specs.Prelude.{OnOk, OnErr, IsErrOf};
ghost use Rattle.ffc_base.specs.Metering.{Metered, total};
ghost use Rattle.ffc_ring.specs.Monomial.{Monomial};
ghost use Rattle.ffc_ring.specs.Polynomial.{Terms, SamePolynomial, term_product, difference};
ghost use Rattle.ffc_mono.specs.Leading.{IsLeading};
ghost use Rattle.ffc_dense.specs.Tables.{AreMultiplesOf, IsLineOf};
ghost use Rattle.ffc_basis.specs.Indexing.{IsIndexOf};
ghost use Rattle.ffc_line.specs.Lines.{polys_of, IsLineOfNone};
ghost use Rattle.ffc_basis.specs.Records.{AreOfDifferentLines};
ghost use Rattle.ffc_basis.specs.Reduction.{IsIrreducible, IsReduced, AreIrreducible, IsRecorded};
ghost use Rattle.ffc_basis.specs.Remainders.{Continues, StaysBounded, IsSplit, IsStepOfLead, front_of, whole_of};
ghost use Rattle.ffc_basis.specs.Units.{TakesReductions};

use crate::index::Index;
use crate::left::{self, Left};
use crate::record::Record;
use crate::reduction::{Step, only_memory, quotient_of, step_at};
use ffc_base::{Meter, Stop, Unit};
use ffc_dense::Table;
use ffc_field::Field;
use ffc_line::Line;
use ffc_mono::{Mono, MonoOrder};
use ffc_poly::{Poly, TERM_LIMIT};
use std::alloc::{AllocError, Global};

/// What is left of a polynomial: terms that no line divides, from the leading one on, and the sum of those below them.
pub(crate) struct Remainder<F: Field, O: MonoOrder> {
    finished: Vec<(F, Mono)>,
    left: Left<F, O>,
    /// There are at most so many terms in all.
    most: usize,
}

impl<F: Field, O: MonoOrder> Drop for Remainder<F, O> {
    fn drop(self) {
        let Remainder {
            finished: _,
            left: _,
            most: _,
        } = self;
    }
}

/// A polynomial of so many terms, none of which is finished.
fn begun<F: Field, O: MonoOrder>(
    alloc: Global,
    left: Left<F, O>,
    poly: &Poly<F, O>,
) -> Remainder<F, O>
    requires { SamePolynomial F.ORDER left.0 poly.now }
    ensures split { IsSplit F.ORDER O.cmp (front_of F.value result) result.left.0 result.most }
    ensures none { front_of F.value result ≡ [] }
    ensures left { result.left ≡ left }
    ensures same { SamePolynomial F.ORDER (whole_of F.value result) poly.now }
{
    Remainder {
        finished: Vec::new(alloc),
        left,
        most: poly.len(),
    }
}

/// Bounds the number of terms anew.
fn tighten<F: Field, O: MonoOrder>(rest: &mut Remainder<F, O>)
    requires { IsSplit F.ORDER O.cmp (front_of F.value rest.old) rest.old.left.0 rest.old.most }
    ensures split { IsSplit F.ORDER O.cmp (front_of F.value rest.new) rest.new.left.0 rest.new.most }
    ensures front { front_of F.value rest.new ≡ front_of F.value rest.old }
    ensures left { rest.new.left ≡ rest.old.left }
{
    rest.most = rest.left.bound(rest.finished.len(), rest.most);
}

/// Appends the leading term of what is left to the finished ones.
fn finish<F: Field, O: MonoOrder>(rest: &mut Remainder<F, O>) -> Result<(), AllocError>
    requires { IsSplit F.ORDER O.cmp (front_of F.value rest.old) rest.old.left.0 rest.old.most }
    ensures split { OnOk result (IsSplit F.ORDER O.cmp (front_of F.value rest.new) rest.new.left.0 rest.new.most) }
    ensures same { OnOk result (SamePolynomial F.ORDER (whole_of F.value rest.new) (whole_of F.value rest.old)) }
    ensures multiples { rest.new.left.1 ≡ rest.old.left.1 }
    ensures reduced { OnOk result ((gs : List Terms)
        → ((c : ℕ) (m : Monomial) → IsLeading F.ORDER O.cmp rest.old.left.0 c m → IsIrreducible F.ORDER O.cmp gs m)
        → IsReduced F.ORDER O.cmp gs (front_of F.value rest.old)
        → IsReduced F.ORDER O.cmp gs (front_of F.value rest.new)) }
{
    match rest.left.take_lead()? {
        None => Ok(()),
        Some(lead) => {
            rest.finished.push(lead)?;
            Ok(())
        }
    }
}

/// Subtracts a multiple of a line, where that certainly passes no limit.
fn subtract_within<F: Field, O: MonoOrder>(
    rest: &mut Remainder<F, O>,
    line: &Poly<F, O>,
    step: &Step<F>,
) -> Result<bool, AllocError>
    requires { rest.old.most ≤ TERM_LIMIT }
    ensures front { front_of F.value rest.new ≡ front_of F.value rest.old }
    ensures subtracted { IfOk result (λ done. IsTrue done → (gs : List Terms)
        → AreMultiplesOf F.ORDER gs rest.old.left.1 → IsLineOf gs step.now.line line.now
        → SamePolynomial F.ORDER rest.new.left.0
        (difference F.ORDER rest.old.left.0 (term_product (F.value step.now.coefficient) step.now.monomial line.now))) }
    ensures most { IfOk result (λ done. IsTrue done → rest.new.most ≡ rest.old.most + length line.now) }
    ensures within { IfOk result (λ done. IsTrue done → rest.new.most ≤ TERM_LIMIT) }
    ensures stays { IfOk result (λ done. done ≡ false
        → SamePolynomial F.ORDER rest.new.left.0 rest.old.left.0 × (rest.new.most ≡ rest.old.most)) }
    ensures multiples { (gs : List Terms) → AreMultiplesOf F.ORDER gs rest.old.left.1
        → IsLineOf gs step.now.line line.now → AreMultiplesOf F.ORDER gs rest.new.left.1 }
{
    if rest.most > TERM_LIMIT - line.len() {
        return Ok(false);
    }
    let c = step.coefficient;
    if !rest
        .left
        .subtract_multiple(step.line, c, &step.monomial, line)?
    {
        return Ok(false);
    }
    rest.most += line.len();
    Ok(true)
}

/// Records a multiple in the part at a place, which has room for it.
fn record_within<F: Field, O: MonoOrder>(
    parts: &mut Record<F>,
    place: Option<usize>,
    step: &Step<F>,
) -> Result<(), AllocError>
    requires some { IfSome place (λ i. (i < length parts.old)
        × ((get_or parts.old i (0, [])).0 ≡ step.now.line)) }
    requires none { IfNone place (IsLineOfNone step.now.line parts.old) }
    requires room { IfSome place (λ i. length (get_or parts.old i (0, [])).1 < TERM_LIMIT) }
    ensures recorded { OnOk result
        (IsRecorded F.ORDER parts.old parts.new step.now.line (F.value step.now.coefficient) step.now.monomial) }
    ensures lines { OnOk result (AreOfDifferentLines parts.old → AreOfDifferentLines parts.new) }
{
    match parts.add_at::<O>(place, step.line as u64, step.coefficient, &step.monomial) {
        Ok(()) => Ok(()),
        Err(stop) => Err(only_memory(stop)),
    }
}

/// Subtracts a multiple that cancels the leading term of what is left, records it, and takes a unit for it; or changes
/// nothing, where a limit may be passed.
fn cancel_lead<F: Field, O: MonoOrder>(
    lines: &[Line<F, O>],
    rest: &mut Remainder<F, O>,
    parts: &mut Record<F>,
    step: &Step<F>,
    meter: &mut Meter,
) -> Result<bool, Stop>
    requires split { IsSplit F.ORDER O.cmp (front_of F.value rest.old) rest.old.left.0 rest.old.most }
    requires reduced { IsReduced F.ORDER O.cmp (polys_of lines.now) (front_of F.value rest.old) }
    requires step { IsStepOfLead F.ORDER O.cmp (polys_of lines.now) rest.old.left.0 step.now.line
        (F.value step.now.coefficient) step.now.monomial }
    requires multiples { AreMultiplesOf F.ORDER (polys_of lines.now) rest.old.left.1 }
    ensures split { OnOk result (IsSplit F.ORDER O.cmp (front_of F.value rest.new) rest.new.left.0 rest.new.most) }
    ensures front { front_of F.value rest.new ≡ front_of F.value rest.old }
    ensures multiples { OnOk result (AreMultiplesOf F.ORDER (polys_of lines.now) rest.new.left.1) }
    ensures continues { OnOk result (Continues F.ORDER O.cmp (polys_of lines.now)
        (whole_of F.value rest.old) parts.old meter.old (whole_of F.value rest.new) parts.new meter.new) }
    ensures takes { TakesReductions meter.old meter.new }
    ensures unpaid { OnErr result (meter.new ≡ meter.old) }
    ensures spent { IsErrOf result Stop.Spent → total meter.new ≡ meter.new.budget }
{
    let place = parts.place_of(step.line as u64);
    if !parts.has_room(place) {
        return Ok(false);
    }
    let line = &lines[step.line].poly;
    let _length = line.len();
    let _degree = step.monomial.degree();
    tighten(rest);
    if !subtract_within(rest, line, step)? {
        return Ok(false);
    }
    record_within::<F, O>(parts, place, step)?;
    meter.take(Unit::Reduction)?;
    Ok(true)
}

/// Finishes or cancels the leading term of what is left, by a line that is sought. Ends where nothing is left, or where a
/// limit may be passed.
fn search_lead<F: Field, O: MonoOrder>(
    alloc: Global,
    lines: &[Line<F, O>],
    index: &Index,
    rest: &mut Remainder<F, O>,
    parts: &mut Record<F>,
    meter: &mut Meter,
) -> Result<bool, Stop>
    requires index { IsIndexOf F.ORDER O.cmp (polys_of lines.now) index.now }
    requires split { IsSplit F.ORDER O.cmp (front_of F.value rest.old) rest.old.left.0 rest.old.most }
    requires reduced { IsReduced F.ORDER O.cmp (polys_of lines.now) (front_of F.value rest.old) }
    requires multiples { AreMultiplesOf F.ORDER (polys_of lines.now) rest.old.left.1 }
    ensures split { OnOk result (IsSplit F.ORDER O.cmp (front_of F.value rest.new) rest.new.left.0 rest.new.most) }
    ensures reduced { OnOk result (IsReduced F.ORDER O.cmp (polys_of lines.now) (front_of F.value rest.new)) }
    ensures multiples { OnOk result (AreMultiplesOf F.ORDER (polys_of lines.now) rest.new.left.1) }
    ensures continues { OnOk result (Continues F.ORDER O.cmp (polys_of lines.now)
        (whole_of F.value rest.old) parts.old meter.old (whole_of F.value rest.new) parts.new meter.new) }
    ensures takes { TakesReductions meter.old meter.new }
    ensures unpaid { OnErr result (meter.new ≡ meter.old) }
    ensures spent { IsErrOf result Stop.Spent → total meter.new ≡ meter.new.budget }
{
    let Some(first) = rest.left.lead()? else {
        return Ok(false);
    };
    match step_at(alloc, lines, index, first.0, first.1.as_ref())? {
        None => {
            finish(rest)?;
            Ok(true)
        }
        Some(step) => cancel_lead(lines, rest, parts, &step, meter),
    }
}

/// The multiple of a line that is kept and has the leading term of what is left, if there is one. So no line is sought.
fn held_step<F: Field, O: MonoOrder>(
    lines: &[Line<F, O>],
    left: &mut Left<F, O>,
) -> Result<Option<Step<F>>, AllocError>
    requires { AreMultiplesOf F.ORDER (polys_of lines.now) left.old.1 }
    ensures same { SamePolynomial F.ORDER left.new.0 left.old.0 }
    ensures multiples { left.new.1 ≡ left.old.1 }
    ensures step { IfOk result (λ o. IfSome o (λ s. IsStepOfLead F.ORDER O.cmp (polys_of lines.now) left.new.0
        s.line (F.value s.coefficient) s.monomial)) }
{
    let Some(held) = left.held()? else {
        return Ok(None);
    };
    let line = held.0;
    let poly = &lines[line].poly;
    let _length = poly.len();
    let Some(lead) = poly.lead() else {
        return Ok(None);
    };
    Ok(Some(Step {
        line,
        coefficient: quotient_of(held.1, lead.0),
        monomial: held.2,
    }))
}

/// Finishes or cancels the leading term of what is left. Ends where nothing is left, or where a limit may be passed.
fn reduce_lead<F: Field, O: MonoOrder>(
    alloc: Global,
    lines: &[Line<F, O>],
    index: &Index,
    rest: &mut Remainder<F, O>,
    parts: &mut Record<F>,
    meter: &mut Meter,
) -> Result<bool, Stop>
    requires index { IsIndexOf F.ORDER O.cmp (polys_of lines.now) index.now }
    requires split { IsSplit F.ORDER O.cmp (front_of F.value rest.old) rest.old.left.0 rest.old.most }
    requires reduced { IsReduced F.ORDER O.cmp (polys_of lines.now) (front_of F.value rest.old) }
    requires multiples { AreMultiplesOf F.ORDER (polys_of lines.now) rest.old.left.1 }
    ensures split { OnOk result (IsSplit F.ORDER O.cmp (front_of F.value rest.new) rest.new.left.0 rest.new.most) }
    ensures reduced { OnOk result (IsReduced F.ORDER O.cmp (polys_of lines.now) (front_of F.value rest.new)) }
    ensures multiples { OnOk result (AreMultiplesOf F.ORDER (polys_of lines.now) rest.new.left.1) }
    ensures continues { OnOk result (Continues F.ORDER O.cmp (polys_of lines.now)
        (whole_of F.value rest.old) parts.old meter.old (whole_of F.value rest.new) parts.new meter.new) }
    ensures takes { TakesReductions meter.old meter.new }
    ensures unpaid { OnErr result (meter.new ≡ meter.old) }
    ensures spent { IsErrOf result Stop.Spent → total meter.new ≡ meter.new.budget }
{
    match held_step(lines, &mut rest.left)? {
        Some(step) => cancel_lead(lines, rest, parts, &step, meter),
        None => search_lead(alloc, lines, index, rest, parts, meter),
    }
}

impl<F: Field, O: MonoOrder> Remainder<F, O> {
    /// The polynomial, and how many of its first terms are finished. The table is given back.
    fn joined(
        self,
        alloc: Global,
        table: &mut Table<F, O>,
    ) -> Result<(Poly<F, O>, usize), AllocError>
        requires { IsSplit F.ORDER O.cmp (front_of F.value self) self.left.0 self.most }
        ensures same { IfOk result (λ r. SamePolynomial F.ORDER r.0 (whole_of F.value self)) }
        ensures first { IfOk result (λ r. (gs : List Terms) → IsReduced F.ORDER O.cmp gs (front_of F.value self)
            → AreIrreducible F.ORDER O.cmp gs r.0 r.1) }
        ensures multiples { (gs : List Terms) → AreMultiplesOf F.ORDER gs self.left.1
            → AreMultiplesOf F.ORDER gs table.old.1 → AreMultiplesOf F.ORDER gs table.new.1 }
    {
        let Remainder {
            finished,
            left,
            most: _,
        } = self;
        let head = match Poly::from_terms(alloc, finished.as_slice()) {
            Ok(head) => head,
            Err(stop) => return Err(only_memory(stop)),
        };
        let tail = left.into_poly(table)?;
        let whole = match head.add(&tail) {
            Ok(whole) => whole,
            Err(stop) => return Err(only_memory(stop)),
        };
        let _lengths = (tail.len(), whole.len());
        let place = head.len();
        Ok((whole, place))
    }
}

/// Finishes or cancels leading terms as long as that goes on.
fn reduce_leads<F: Field, O: MonoOrder>(
    alloc: Global,
    lines: &[Line<F, O>],
    index: &Index,
    rest: &mut Remainder<F, O>,
    parts: &mut Record<F>,
    meter: &mut Meter,
) -> Result<(), Stop>
    requires index { IsIndexOf F.ORDER O.cmp (polys_of lines.now) index.now }
    requires split { IsSplit F.ORDER O.cmp (front_of F.value rest.old) rest.old.left.0 rest.old.most }
    requires reduced { IsReduced F.ORDER O.cmp (polys_of lines.now) (front_of F.value rest.old) }
    requires multiples { AreMultiplesOf F.ORDER (polys_of lines.now) rest.old.left.1 }
    ensures split { OnOk result (IsSplit F.ORDER O.cmp (front_of F.value rest.new) rest.new.left.0 rest.new.most) }
    ensures reduced { OnOk result (IsReduced F.ORDER O.cmp (polys_of lines.now) (front_of F.value rest.new)) }
    ensures multiples { OnOk result (AreMultiplesOf F.ORDER (polys_of lines.now) rest.new.left.1) }
    ensures continues { OnOk result (Continues F.ORDER O.cmp (polys_of lines.now)
        (whole_of F.value rest.old) parts.old meter.old (whole_of F.value rest.new) parts.new meter.new) }
    ensures metered { Metered Stop.Spent result meter.old meter.new }
    ensures takes { TakesReductions meter.old meter.new }
    ensures bound { OnErr result (StaysBounded F.ORDER O.cmp (polys_of lines.now) (whole_of F.value rest.old)
        parts.old meter.old meter.new) }
{
    for _ in 0..u64::MAX {
        if !reduce_lead(alloc, lines, index, rest, parts, meter)? {
            return Ok(());
        }
    }
    Ok(())
}

/// Reduces a polynomial in place as far as certainly no limit is passed, and says how many of the first terms that are left
/// no line divides.
fn reduce_in_place<F: Field, O: MonoOrder>(
    alloc: Global,
    lines: &[Line<F, O>],
    index: &Index,
    table: &mut Table<F, O>,
    left: Left<F, O>,
    poly: &Poly<F, O>,
    parts: &mut Record<F>,
    meter: &mut Meter,
) -> Result<(Poly<F, O>, usize), Stop>
    requires index { IsIndexOf F.ORDER O.cmp (polys_of lines.now) index.now }
    requires left { SamePolynomial F.ORDER left.0 poly.now }
    requires multiples { AreMultiplesOf F.ORDER (polys_of lines.now) left.1 }
    requires table { AreMultiplesOf F.ORDER (polys_of lines.now) table.old.1 }
    ensures table { AreMultiplesOf F.ORDER (polys_of lines.now) table.new.1 }
    ensures continues { IfOk result (λ r. Continues F.ORDER O.cmp (polys_of lines.now)
        poly.now parts.old meter.old r.0 parts.new meter.new) }
    ensures irreducible { IfOk result (λ r. AreIrreducible F.ORDER O.cmp (polys_of lines.now) r.0 r.1) }
    ensures metered { Metered Stop.Spent result meter.old meter.new }
    ensures takes { TakesReductions meter.old meter.new }
    ensures bound { OnErr result (StaysBounded F.ORDER O.cmp (polys_of lines.now) poly.now parts.old meter.old
        meter.new) }
{
    let mut rest = begun(alloc, left, poly);
    reduce_leads(alloc, lines, index, &mut rest, parts, meter)?;
    let reduced = rest.joined(alloc, table)?;
    Ok(reduced)
}

/// Reduces a polynomial further in place, where that pays after a step by this line. It has so many first terms that no line
/// divides.
pub(crate) fn go_on<F: Field, O: MonoOrder>(
    alloc: Global,
    lines: &[Line<F, O>],
    index: &Index,
    table: &mut Table<F, O>,
    rest: (Poly<F, O>, usize),
    line: usize,
    parts: &mut Record<F>,
    meter: &mut Meter,
) -> Result<(Poly<F, O>, usize), Stop>
    requires index { IsIndexOf F.ORDER O.cmp (polys_of lines.now) index.now }
    requires line { line < length lines.now }
    requires irreducible { AreIrreducible F.ORDER O.cmp (polys_of lines.now) rest.0 rest.1 }
    requires table { AreMultiplesOf F.ORDER (polys_of lines.now) table.old.1 }
    ensures table { AreMultiplesOf F.ORDER (polys_of lines.now) table.new.1 }
    ensures continues { IfOk result (λ r. Continues F.ORDER O.cmp (polys_of lines.now)
        rest.0 parts.old meter.old r.0 parts.new meter.new) }
    ensures irreducible { IfOk result (λ r. AreIrreducible F.ORDER O.cmp (polys_of lines.now) r.0 r.1) }
    ensures metered { Metered Stop.Spent result meter.old meter.new }
    ensures takes { TakesReductions meter.old meter.new }
    ensures bound { OnErr result (StaysBounded F.ORDER O.cmp (polys_of lines.now) rest.0 parts.old meter.old
        meter.new) }
{
    let terms = rest.0.len().saturating_sub(rest.1);
    let Some(left) = left::begun(alloc, table, &rest.0, terms, lines[line].poly.len())? else {
        return Ok(rest);
    };
    reduce_in_place(alloc, lines, index, table, left, &rest.0, parts, meter)
}
