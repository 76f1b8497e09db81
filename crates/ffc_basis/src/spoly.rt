//! S-polynomials of two lines, and the lines that are made of them.
ghost use Rattle.std.specs.Prelude.{◌≡◌, ◌≢◌, ◌<◌, [], length, get_or, IfOk, IfErr, IfSome, IfNone, OnOk};
ghost use Rattle.ffc_base.specs.Metering.{Metered};
ghost use Rattle.ffc_ring.specs.Monomial.{degree, mono_lcm};
ghost use Rattle.ffc_ring.specs.Polynomial.{SamePolynomial, scaled, term_product, difference};
ghost use Rattle.ffc_dense.specs.Tables.{AreMultiplesOf};
ghost use Rattle.ffc_basis.specs.Indexing.{IsIndexOf};
ghost use Rattle.ffc_line.specs.Lines.{polys_of};
ghost use Rattle.ffc_basis.specs.Reduction.{IsRecorded, IsReduced, IsStopped};
ghost use Rattle.ffc_basis.specs.Remainders.{IsRecordedReduction};
ghost use Rattle.ffc_basis.specs.Completion.{PassesSPolynomial};
ghost use Rattle.ffc_basis.specs.PairTable.{AreBothClosed};
ghost use Rattle.ffc_basis.specs.Outcomes.{IsOutcome, IsSum, PassesDifference, AreScaled, AreSubtracted, IsMonic};
ghost use Rattle.ffc_basis.specs.Units.{TakesReductions, IsPairBound};

use crate::index::Index;
use crate::record::Record;
use crate::reduction::{Recorded, Step, multiple_of, past_limit, reduce_recorded};
use ffc_base::{Meter, Stop};
use ffc_dense::Table;
use ffc_field::Field;
use ffc_line::{Line, LineId};
use ffc_mono::{Mono, MonoOrder, MonoRef, MonoStop};
use ffc_poly::{Poly, PolyStop};
use std::alloc::{AllocError, Global};

/// The S-polynomial of two lines: the sum of two multiples of them.
pub(crate) struct SPolynomial<F: Field, O: MonoOrder> {
    first: Step<F>,
    second: Step<F>,
    pub poly: Poly<F, O>,
}

impl<F: Field, O: MonoOrder> Drop for SPolynomial<F, O> {
    fn drop(self) {
        let SPolynomial {
            first: _,
            second: _,
            poly: _,
        } = self;
    }
}

/// What a pair's S-polynomial gives.
pub(crate) enum Outcome<F: Field, O: MonoOrder> {
    /// It reduces to zero.
    Closed,
    /// A limit is passed.
    Over,
    /// What is left of it is a line.
    Added(Line<F, O>),
}

/// The least common multiple of two borrowed monomials.
pub(crate) fn lcm_of(alloc: Global, m: MonoRef<'_>, n: MonoRef<'_>) -> Result<Mono, PolyStop>
    ensures value { IfOk result (λ l. l ≡ mono_lcm m.entry.powers.now n.entry.powers.now) }
    ensures over { IfErr result (λ stop. stop ≢ PolyStop.Memory → 1024
        < degree (mono_lcm m.entry.powers.now n.entry.powers.now)) }
{
    match m.to_mono(alloc)?.lcm(&n.to_mono(alloc)?) {
        Ok(lcm) => Ok(lcm),
        Err(MonoStop::DegreeOver) => Err(PolyStop::DegreeOver),
        Err(MonoStop::Memory) => Err(PolyStop::Memory),
    }
}

/// The multiple of one polynomial minus that of another.
fn difference_of<F: Field, O: MonoOrder>(
    a: &Poly<F, O>,
    first: &Step<F>,
    b: &Poly<F, O>,
    second: &Step<F>,
) -> Result<Poly<F, O>, PolyStop>
    ensures difference { IfOk result (λ s. SamePolynomial F.ORDER s (difference F.ORDER
        (term_product (F.value first.now.coefficient) first.now.monomial a.now)
        (term_product (F.value second.now.coefficient) second.now.monomial b.now))) }
    ensures over { IfErr result (λ stop. stop ≢ PolyStop.Memory
        → PassesDifference F.ORDER a.now (F.value first.now.coefficient) first.now.monomial b.now
        (F.value second.now.coefficient) second.now.monomial) }
{
    let raised = match a.times(first.coefficient, first.monomial.as_ref()) {
        Ok(raised) => raised,
        Err(stop) => return Err(stop),
    };
    match raised.sub_multiple(second.coefficient, second.monomial.as_ref(), b) {
        Ok(poly) => Ok(poly),
        Err(stop) => Err(stop),
    }
}

/// The S-polynomial of two lines that are not 0.
pub(crate) fn s_polynomial<F: Field, O: MonoOrder>(
    alloc: Global,
    lines: &[Line<F, O>],
    i: usize,
    j: usize,
) -> Result<Option<SPolynomial<F, O>>, PolyStop>
    requires first { i < length lines.now }
    requires second { j < length lines.now }
    ensures made { IfOk result (λ o. IfSome o (IsSum F.ORDER F.value O.cmp (polys_of lines.now) i j)) }
    ensures missing { IfOk result (λ o. IfNone o (AreBothClosed F.ORDER O.cmp (polys_of lines.now) i j)) }
    ensures over { IfErr result (λ stop. stop ≢ PolyStop.Memory
        → PassesSPolynomial F.ORDER O.cmp (get_or (polys_of lines.now) i []) (get_or (polys_of lines.now) j [])) }
{
    let a = &lines[i].poly;
    let b = &lines[j].poly;
    let _lengths = (a.len(), b.len());
    let Some(m) = a.lead() else {
        return Ok(None);
    };
    let Some(n) = b.lead() else {
        return Ok(None);
    };
    let lcm = match lcm_of(alloc, m.1, n.1) {
        Ok(lcm) => lcm,
        Err(stop) => return Err(stop),
    };
    let first = multiple_of(alloc, i, m, F::of(1), lcm.as_ref())?;
    let second = multiple_of(alloc, j, n, F::of(1), lcm.as_ref())?;
    let _degrees = (first.monomial.degree(), second.monomial.degree());
    let poly = match difference_of(a, &first, b, &second) {
        Ok(poly) => poly,
        Err(stop) => return Err(stop),
    };
    let second = Step {
        line: j,
        coefficient: second.coefficient.neg(),
        monomial: second.monomial,
    };
    Ok(Some(SPolynomial {
        first,
        second,
        poly,
    }))
}

/// A polynomial times a constant.
fn scaled<F: Field, O: MonoOrder>(c: F, poly: &Poly<F, O>) -> Result<Poly<F, O>, AllocError>
    ensures { IfOk result (λ r. SamePolynomial F.ORDER r (scaled (F.value c) poly.now)) }
{
    match poly.scale(c) {
        Ok(multiple) => Ok(multiple),
        Err(PolyStop::Memory) => Err(AllocError),
        Err(_) => unreachable!(),
    }
}

/// Records a multiple in the part of its line, or as a part of its own where that part would have too many terms.
fn record_anyway<F: Field, O: MonoOrder>(
    parts: &mut Record<F>,
    line: LineId,
    c: F,
    m: &Mono,
) -> Result<(), AllocError>
    ensures { OnOk result (IsRecorded F.ORDER parts.old parts.new line (F.value c) m.now) }
{
    match parts.add::<O>(line, c, m) {
        Ok(()) => Ok(()),
        Err(stop) => {
            past_limit(stop)?;
            parts.append(line, c, m)
        }
    }
}

/// Records the two multiples that an S-polynomial is the sum of, negated: so the sum of all that is recorded is what is left of
/// it, negated.
fn record_both<F: Field, O: MonoOrder>(
    parts: &mut Record<F>,
    spoly: &SPolynomial<F, O>,
) -> Result<(), AllocError>
    ensures { OnOk result (AreSubtracted F.ORDER parts.old
        spoly.now.first.line (F.value spoly.now.first.coefficient) spoly.now.first.monomial
        spoly.now.second.line (F.value spoly.now.second.coefficient) spoly.now.second.monomial parts.new) }
{
    let first = &spoly.first;
    let second = &spoly.second;
    record_anyway::<F, O>(
        parts,
        first.line as u64,
        first.coefficient.neg(),
        &first.monomial,
    )?;
    record_anyway::<F, O>(
        parts,
        second.line as u64,
        second.coefficient.neg(),
        &second.monomial,
    )
}

/// The line whose polynomial has the leading coefficient 1, where the polynomial is the negated sum of the recorded multiples.
fn monic<F: Field, O: MonoOrder>(
    poly: &Poly<F, O>,
    parts: &Record<F>,
) -> Result<Line<F, O>, AllocError>
    requires { poly.now ≢ [] }
    ensures { IfOk result (IsMonic F.ORDER O.cmp poly.now parts.now) }
{
    let Some(lead) = poly.lead() else {
        unreachable!();
    };
    let Some(inverse) = lead.0.inv() else {
        unreachable!();
    };
    Ok(Line {
        poly: scaled(inverse, poly)?,
        parts: parts.times::<O>(inverse.neg())?,
    })
}

/// What the reduced S-polynomial of two lines gives.
fn outcome_of<F: Field, O: MonoOrder>(
    lines: &[Line<F, O>],
    i: usize,
    j: usize,
    spoly: &SPolynomial<F, O>,
    mut recorded: Recorded<F, O>,
) -> Result<Outcome<F, O>, AllocError>
    requires first { i < length lines.now }
    requires second { j < length lines.now }
    requires sum { IsSum F.ORDER F.value O.cmp (polys_of lines.now) i j spoly.now }
    requires reduction { IsRecordedReduction F.ORDER O.cmp (polys_of lines.now) spoly.now.poly recorded.rest
        recorded.parts }
    requires reduced { IfNone recorded.over (IsReduced F.ORDER O.cmp (polys_of lines.now) recorded.rest) }
    requires over { IfSome recorded.over
        (λ t. IsStopped F.ORDER O.cmp (polys_of lines.now) recorded.rest recorded.parts t.0 t.1) }
    ensures { IfOk result (IsOutcome F.ORDER O.cmp (polys_of lines.now) i j) }
{
    let _lengths = (lines[i].poly.len(), lines[j].poly.len());
    if recorded.over.is_some() {
        // The pair is set aside for parts that are polynomials.
        let _reduced = recorded.finished()?;
        return Ok(Outcome::Over);
    }
    let _count = recorded.parts.len();
    if recorded.rest.is_zero() {
        return Ok(Outcome::Closed);
    }
    record_both(&mut recorded.parts, spoly)?;
    let line = monic(&recorded.rest, &recorded.parts)?;
    Ok(Outcome::Added(line))
}

/// Reduces the S-polynomial of two lines.
pub(crate) fn reduce_pair<F: Field, O: MonoOrder>(
    alloc: Global,
    lines: &[Line<F, O>],
    index: &Index,
    table: &mut Table<F, O>,
    i: usize,
    j: usize,
    meter: &mut Meter,
) -> Result<Outcome<F, O>, Stop>
    requires index { IsIndexOf F.ORDER O.cmp (polys_of lines.now) index.now }
    requires first { i < length lines.now }
    requires second { j < length lines.now }
    requires table { AreMultiplesOf F.ORDER (polys_of lines.now) table.old.1 }
    ensures table { AreMultiplesOf F.ORDER (polys_of lines.now) table.new.1 }
    ensures outcome { IfOk result (IsOutcome F.ORDER O.cmp (polys_of lines.now) i j) }
    ensures metered { Metered Stop.Spent result meter.old meter.new }
    ensures takes { TakesReductions meter.old meter.new }
    ensures bound { IsPairBound F.ORDER O.cmp (polys_of lines.now) meter.old meter.new }
{
    let _lengths = (lines[i].poly.len(), lines[j].poly.len());
    let found = match s_polynomial(alloc, lines, i, j) {
        Ok(found) => found,
        Err(stop) => {
            past_limit(stop)?;
            return Ok(Outcome::Over);
        }
    };
    let Some(spoly) = found else {
        return Ok(Outcome::Closed);
    };
    let recorded = reduce_recorded(alloc, lines, index, table, &spoly.poly, meter)?;
    let outcome = outcome_of(lines, i, j, &spoly, recorded)?;
    Ok(outcome)
}
