//! Reduction by the lines of a basis.
ghost use Rattle.std.specs.Prelude.{◌≡◌, ◌≢◌, ◌<◌, [], length, get_or, IfOk, IfErr, IfSome};
ghost use Rattle.std.specs.Prelude.{IfNone, OnOk, OnErr};
ghost use Rattle.ffc_base.specs.Metering.{Metered};
ghost use Rattle.ffc_field.specs.Modular.{mul_mod};
ghost use Rattle.ffc_ring.specs.Monomial.{Divides, mono_mul};
ghost use Rattle.ffc_ring.specs.Polynomial.{Terms};
ghost use Rattle.ffc_dense.specs.Tables.{AreMultiplesOf};
ghost use Rattle.ffc_basis.specs.Indexing.{IsIndexOf};
ghost use Rattle.ffc_line.specs.Lines.{polys_of, ArePolynomials};
ghost use Rattle.ffc_basis.specs.Outcomes.{AreScaled};
ghost use Rattle.ffc_basis.specs.Records.{AreOfDifferentLines};
ghost use Rattle.ffc_basis.specs.Remainders.{IsRecordedReduction};
ghost use Rattle.ffc_basis.specs.Reduction.{IsIrreducible, IsStep, IsReduction, IsReduced};
ghost use Rattle.ffc_basis.specs.Reduction.{SameFirst, IsCancelled, IsStopped, PassesLimit};
ghost use Rattle.ffc_basis.specs.Units.{TakesReductions, IsReductionBound};

use crate::dividing::oldest_divisor;
use crate::index::Index;
use crate::record::Record;
use crate::remainder::go_on;
use ffc_base::{Meter, Stop, Unit};
use ffc_dense::Table;
use ffc_field::Field;
use ffc_line::{Line, LineId};
use ffc_mono::{Mono, MonoOrder, MonoRef};
use ffc_poly::{Poly, PolyStop};
use std::alloc::{AllocError, Global};

/// What is left of a polynomial, and the multiples of lines that were subtracted.
#[derive(Debug)]
pub struct Reduced<F: Field, O: MonoOrder> {
    pub rest: Poly<F, O>,
    /// The numbers of lines, and what each was multiplied by.
    pub parts: Vec<(LineId, Poly<F, O>)>,
    /// A line and the monomial by which it was to be multiplied, where that passes a limit.
    pub over: Option<(LineId, Mono)>,
}

impl<F: Field, O: MonoOrder> Drop for Reduced<F, O> {
    fn drop(self) {
        let Reduced {
            rest: _,
            parts: _,
            over: _,
        } = self;
    }
}

/// A multiple of a line by a term.
#[derive(Drop)]
pub(crate) struct Step<F: Field> {
    pub line: usize,
    pub coefficient: F,
    pub monomial: Mono,
}

/// The coefficient c divided by d. A line of a completion has the leading coefficient 1, which needs no inverse.
pub(crate) fn quotient_of<F: Field>(c: F, d: F) -> F
    requires { F.value d ≢ 0 }
    ensures { mul_mod F.ORDER (F.value result) (F.value d) ≡ F.value c }
{
    if d.residue() == 1 {
        return c;
    }
    match d.inv() {
        Some(inverse) => c.mul(inverse),
        None => unreachable!(),
    }
}

/// The multiple of the term d*n that is c*m.
pub(crate) fn multiple_of<F: Field>(
    alloc: Global,
    line: usize,
    lead: (F, MonoRef<'_>),
    c: F,
    m: MonoRef<'_>,
) -> Result<Step<F>, AllocError>
    requires nonzero { F.value lead.0 ≢ 0 }
    requires divides { Divides lead.1.powers.now m.powers.now }
    ensures line { IfOk result (λ s. s.line ≡ line) }
    ensures monomial { IfOk result (λ s. mono_mul lead.entry.1.powers.now s.monomial ≡ m.entry.powers.now) }
    ensures coefficient { IfOk result (λ s. mul_mod F.ORDER (F.value s.coefficient) (F.value lead.entry.0)
        ≡ F.value c) }
{
    let monomial = m.to_mono(alloc)?.quotient(&lead.1.to_mono(alloc)?)?;
    Ok(Step {
        line,
        coefficient: quotient_of(c, lead.0),
        monomial,
    })
}

/// The multiple of a line that has the leading term c*m, of the oldest line where there are several.
pub(crate) fn step_at<F: Field, O: MonoOrder>(
    alloc: Global,
    lines: &[Line<F, O>],
    index: &Index,
    c: F,
    m: MonoRef<'_>,
) -> Result<Option<Step<F>>, AllocError>
    requires index { IsIndexOf F.ORDER O.cmp (polys_of lines.now) index.now }
    ensures none { IfOk result (λ o. IfNone o (IsIrreducible F.ORDER O.cmp (polys_of lines.now) m.entry.powers.now)) }
    ensures some { IfOk result (λ o. IfSome o (λ s.
        IsStep F.ORDER O.cmp (polys_of lines.now) (F.value c) m.entry.powers.now s.line (F.value s.coefficient)
        s.monomial)) }
    ensures reducible { IfOk result (λ o. IfSome o (λ s.
        IsIrreducible F.ORDER O.cmp (polys_of lines.now) m.entry.powers.now → ⊥)) }
{
    let Some(number) = oldest_divisor(lines, index, m) else {
        return Ok(None);
    };
    let Some(lead) = lines[number].poly.lead() else {
        unreachable!();
    };
    Ok(Some(multiple_of(alloc, number, lead, c, m)?))
}

/// Subtracts a multiple that cancels the term at a place, and records it.
fn subtract<F: Field, O: MonoOrder>(
    lines: &[Line<F, O>],
    rest: &mut Poly<F, O>,
    parts: &mut Record<F>,
    place: usize,
    step: &Step<F>,
) -> Result<(), PolyStop>
    requires within { place < length rest.old }
    requires step { IsStep F.ORDER O.cmp (polys_of lines.now) (get_or rest.old place (0, [])).0
        (get_or rest.old place (0, [])).1
        step.now.line (F.value step.now.coefficient) step.now.monomial }
    ensures reduction { OnOk result ((poly : Terms)
        → IsRecordedReduction F.ORDER O.cmp (polys_of lines.now) poly rest.old parts.old
        → IsRecordedReduction F.ORDER O.cmp (polys_of lines.now) poly rest.new parts.new) }
    ensures first { OnOk result (SameFirst rest.old rest.new place) }
    ensures cancelled { OnOk result (IsCancelled F.ORDER O.cmp (polys_of lines.now) rest.old rest.new place) }
    ensures over { IfErr result (λ stop. stop ≢ PolyStop.Memory
        → PassesLimit F.ORDER (polys_of lines.now) rest.old parts.old step.now.line (F.value step.now.coefficient)
        step.now.monomial) }
    ensures unchanged { OnErr result ((rest.new ≡ rest.old) × (parts.new ≡ parts.old)) }
{
    let poly = &lines[step.line].poly;
    let _length = (rest.len(), poly.len());
    let next = match rest.sub_multiple(step.coefficient, step.monomial.as_ref(), poly) {
        Ok(next) => next,
        Err(stop) => return Err(stop),
    };
    let _new_length = next.len();
    match parts.add::<O>(step.line as u64, step.coefficient, &step.monomial) {
        Ok(()) => {
            *rest = next;
            Ok(())
        }
        Err(stop) => Err(stop),
    }
}

/// Goes on where a limit was passed, and not where there was no memory.
pub(crate) fn past_limit(stop: PolyStop) -> Result<(), AllocError>
    ensures { OnOk result (stop ≢ PolyStop.Memory) }
{
    match stop {
        PolyStop::Memory => Err(AllocError),
        PolyStop::DegreeOver => Ok(()),
        PolyStop::TermsOver => Ok(()),
    }
}

/// The error where no limit can be passed.
pub(crate) fn only_memory(stop: PolyStop) -> AllocError
    requires { stop ≡ PolyStop.Memory }
{
    match stop {
        PolyStop::Memory => AllocError,
        _ => unreachable!(),
    }
}

/// What is left of a polynomial, and the record of the multiples of lines that were subtracted.
pub(crate) struct Recorded<F: Field, O: MonoOrder> {
    pub rest: Poly<F, O>,
    pub parts: Record<F>,
    /// A line and the monomial by which it was to be multiplied, where that passes a limit.
    pub over: Option<(LineId, Mono)>,
}

impl<F: Field, O: MonoOrder> Drop for Recorded<F, O> {
    fn drop(self) {
        let Recorded {
            rest: _,
            parts: _,
            over: _,
        } = self;
    }
}

impl<F: Field, O: MonoOrder> Recorded<F, O> {
    /// The same with polynomials as parts.
    pub(crate) fn finished(self) -> Result<Reduced<F, O>, AllocError>
        ensures rest { IfOk result (λ r. r.rest ≡ self.rest) }
        ensures over { IfOk result (λ r. r.over ≡ self.over) }
        ensures same { IfOk result (λ r. AreScaled F.ORDER 1 self.parts r.parts.items) }
        ensures polynomials { IfOk result (λ r. AreOfDifferentLines self.parts → ArePolynomials F.ORDER O.cmp r.parts.items) }
    {
        let Recorded { rest, parts, over } = self;
        let parts = parts.times::<O>(F::of(1))?;
        Ok(Reduced { rest, parts, over })
    }
}

/// Reduces a polynomial, from its leading term on, until no leading monomial of a line divides a monomial that is left, or a
/// limit is passed.
pub(crate) fn reduce_recorded<F: Field, O: MonoOrder>(
    alloc: Global,
    lines: &[Line<F, O>],
    index: &Index,
    table: &mut Table<F, O>,
    poly: &Poly<F, O>,
    meter: &mut Meter,
) -> Result<Recorded<F, O>, Stop>
    requires index { IsIndexOf F.ORDER O.cmp (polys_of lines.now) index.now }
    requires table { AreMultiplesOf F.ORDER (polys_of lines.now) table.old.1 }
    ensures table { AreMultiplesOf F.ORDER (polys_of lines.now) table.new.1 }
    ensures reduction { IfOk result (λ r. IsRecordedReduction F.ORDER O.cmp (polys_of lines.now) poly.now r.rest
        r.parts) }
    ensures reduced { IfOk result (λ r. IfNone r.over (IsReduced F.ORDER O.cmp (polys_of lines.now) r.rest)) }
    ensures over { IfOk result
        (λ r. IfSome r.over (λ t. IsStopped F.ORDER O.cmp (polys_of lines.now) r.rest r.parts t.0 t.1)) }
    ensures metered { Metered Stop.Spent result meter.old meter.new }
    ensures takes { TakesReductions meter.old meter.new }
    ensures bound { IsReductionBound F.ORDER O.cmp (polys_of lines.now) poly.now meter.old meter.new }
{
    let _length = poly.len();
    let mut rest = poly.clone()?;
    let mut parts = Record::new(alloc);
    let mut place = 0;
    while place < rest.len() {
        let (c, m) = rest.term(place);
        let Some(step) = step_at(alloc, lines, index, c, m)? else {
            place += 1;
            continue;
        };
        meter.take(Unit::Reduction)?;
        match subtract(lines, &mut rest, &mut parts, place, &step) {
            Ok(()) => {
                let further = go_on(
                    alloc,
                    lines,
                    index,
                    table,
                    (rest, place),
                    step.line,
                    &mut parts,
                    meter,
                )?;
                let _new_length = further.0.len();
                (rest, place) = further;
            }
            Err(stop) => {
                past_limit(stop)?;
                return Ok(Recorded {
                    rest,
                    parts,
                    over: Some((step.line as u64, step.monomial)),
                });
            }
        }
    }
    Ok(Recorded {
        rest,
        parts,
        over: None,
    })
}

/// Reduces a polynomial, and makes polynomials of the parts.
pub(crate) fn reduce_by<F: Field, O: MonoOrder>(
    alloc: Global,
    lines: &[Line<F, O>],
    index: &Index,
    table: &mut Table<F, O>,
    poly: &Poly<F, O>,
    meter: &mut Meter,
) -> Result<Reduced<F, O>, Stop>
    requires index { IsIndexOf F.ORDER O.cmp (polys_of lines.now) index.now }
    requires table { AreMultiplesOf F.ORDER (polys_of lines.now) table.old.1 }
    ensures table { AreMultiplesOf F.ORDER (polys_of lines.now) table.new.1 }
    ensures reduction { IfOk result (λ r. IsReduction F.ORDER O.cmp (polys_of lines.now) poly.now r.rest
        r.parts.items) }
    ensures reduced { IfOk result (λ r. IfNone r.over (IsReduced F.ORDER O.cmp (polys_of lines.now) r.rest)) }
    ensures over { IfOk result
        (λ r. IfSome r.over (λ t. IsStopped F.ORDER O.cmp (polys_of lines.now) r.rest r.parts.items t.0 t.1)) }
    ensures metered { Metered Stop.Spent result meter.old meter.new }
    ensures takes { TakesReductions meter.old meter.new }
    ensures bound { IsReductionBound F.ORDER O.cmp (polys_of lines.now) poly.now meter.old meter.new }
{
    let recorded = reduce_recorded(alloc, lines, index, table, poly, meter)?;
    let reduced = recorded.finished()?;
    Ok(reduced)
}
