//! The pairs of a basis, and what is known of each.
ghost use Rattle.std.specs.Prelude.{◌≡◌, ◌+◌, ◌<◌, ◌≤◌, [], length, min, map, filter, nat_lt, vec_len, get_or, set};
ghost use Rattle.std.specs.Prelude.{IfOk, IfSome, IfNone, OnOk};
ghost use Rattle.std.specs.Bool.{OnTrue, OnFalse};
ghost use Rattle.ffc_base.specs.Metering.{Metered};
ghost use Rattle.ffc_dense.specs.Tables.{AreMultiplesOf};
ghost use Rattle.ffc_basis.specs.Indexing.{IsIndexOf};
ghost use Rattle.ffc_line.specs.Lines.{polys_of, AreLines, AreLists};
ghost use Rattle.ffc_basis.specs.Completion.{IsConstantLine};
ghost use Rattle.ffc_basis.specs.Completed.{IsFront, IsProgress, HasTaken};
ghost use Rattle.ffc_basis.specs.Outcomes.{IsOutcome};
ghost use Rattle.ffc_basis.specs.PairTable.{AreNeedless, ArePairs, AreRecords, AreFew, AreKnown, AreSettled, AreDone};
ghost use Rattle.ffc_basis.specs.PairTable.{IsPaired, IsLeftOut};
ghost use Rattle.ffc_basis.specs.PairTable.{IsPendingAt, seconds, settled_count, known_by, forgotten, with_state};
ghost use Rattle.ffc_basis.specs.PairTable.{over_of, answer_of};
ghost use Rattle.ffc_basis.specs.Units.{TakesReductions, IsPairBound, IsPairsBound, IsCompletionBound};

use crate::chain::is_chained;
use crate::completion::{Completion, Progress};
use crate::index::{Index, push_line};
use crate::pair::{PairRecord, PairState, Pairs};
use crate::queue::Queue;
use crate::represented::follows_from_others;
use crate::spoly::{Outcome, reduce_pair};
use ffc_base::{Meter, Stop, Unit};
use ffc_dense::Table;
use ffc_field::Field;
use ffc_line::Line;
use ffc_mono::MonoOrder;
use ffc_poly::Poly;
use std::alloc::{AllocError, Global};

/// The pairs of the first lines, but those whose leading monomials are coprime.
#[derive(Debug, Drop)]
pub(crate) struct Pairing {
    records: Vec<PairRecord>,
    /// Of so many lines each pair is there.
    paired: usize,
    queue: Queue,
}

impl Pairing {
    /// No pairs. It takes no memory.
    pub fn new(alloc: Global) -> Self
        ensures records { result.records.items ≡ [] }
        ensures paired { result.paired ≡ 0 }
    {
        Pairing {
            records: Vec::new(alloc),
            paired: 0,
            queue: Queue::new(alloc),
        }
    }

    /// Drops the pairs of the lines from a number on, and what is known of others by them. It takes no memory.
    pub fn cut(&mut self, len: usize)
        ensures records { self.new.records.items
            ≡ map (forgotten len) (filter (λ r. nat_lt r.second len) self.old.records.items) }
        ensures paired { self.new.paired ≡ min self.old.paired len }
    {
        drop_after(&mut self.records, len);
        forget_after(&mut self.records, len);
        self.paired = self.paired.min(len);
        let is_over = has_over(self.records.as_slice());
        self.queue
            .cut(*self.records.allocator(), self.records.len(), is_over);
    }
}

/// Drops the pairs of lines from a number on.
fn drop_after(records: &mut Vec<PairRecord>, len: usize)
    ensures { records.new.items ≡ filter (λ r. nat_lt r.second len) records.old.items }
{
    records.retain(|r| r.second < len);
}

/// What is known by the first lines alone.
fn known_by(state: PairState, len: usize) -> PairState
    ensures { result ≡ known_by len state }
{
    match state {
        PairState::Pending => PairState::Pending,
        PairState::Closed(n) => {
            if n <= len {
                PairState::Closed(n)
            } else {
                PairState::Pending
            }
        }
        PairState::Represented(n) => {
            if n <= len {
                PairState::Represented(n)
            } else {
                PairState::Pending
            }
        }
        PairState::Over(n) => {
            if n <= len {
                PairState::Over(n)
            } else {
                PairState::Pending
            }
        }
    }
}

/// Forgets what is known by lines from a number on.
fn forget_after(records: &mut Vec<PairRecord>, len: usize)
    ensures { records.new.items ≡ map (forgotten len) records.old.items }
{
    for place in 0..records.len() {
        let r = records[place];
        records[place] = PairRecord {
            first: r.first,
            second: r.second,
            state: known_by(r.state, len),
        };
    }
}

/// Whether the S-polynomial of two polynomials has to be reduced: both are not 0, and a variable occurs in both leading
/// monomials.
pub(crate) fn is_needed<F: Field, O: MonoOrder>(a: &Poly<F, O>, b: &Poly<F, O>) -> bool
    ensures { OnFalse result (AreNeedless F.ORDER O.cmp a.now b.now) }
{
    let _lengths = (a.len(), b.len());
    let Some((_, m)) = a.lead() else {
        return false;
    };
    let Some((_, n)) = b.lead() else {
        return false;
    };
    !m.is_coprime(n)
}

/// Makes the pairs of a line with the earlier ones whose leading monomials have a variable in common with its own.
fn pair_line<F: Field, O: MonoOrder>(
    alloc: Global,
    lines: &[Line<F, O>],
    index: &Index,
    records: &mut Vec<PairRecord>,
    queue: &mut Queue,
    second: usize,
) -> Result<(), AllocError>
    requires index { IsIndexOf F.ORDER O.cmp (polys_of lines.now) index.now }
    requires within { second < length lines.now }
    requires pairs { ArePairs F.ORDER O.cmp (polys_of lines.now) records.old.items second }
    ensures more { IsPaired second second records.old.items records.new.items }
    ensures paired { OnOk result (ArePairs F.ORDER O.cmp (polys_of lines.now) records.new.items (second + 1)) }
{
    let Some((_, lead)) = lines[second].poly.lead() else {
        return Ok(());
    };
    let mut partners = index.partners(alloc, lead, second)?;
    let _count = partners.len();
    while let Some(first) = partners.pop_first() {
        let pair = PairRecord {
            first,
            second,
            state: PairState::Pending,
        };
        queue.put(lines, index, &pair, records.len())?;
        records.push(pair)?;
    }
    Ok(())
}

/// Makes the pairs of the first line that has none yet. Without memory it has none still.
fn pair_next<F: Field, O: MonoOrder>(
    alloc: Global,
    lines: &[Line<F, O>],
    index: &Index,
    pairing: &mut Pairing,
) -> Result<(), AllocError>
    requires index { IsIndexOf F.ORDER O.cmp (polys_of lines.now) index.now }
    requires within { pairing.old.paired < length lines.now }
    requires pairs { ArePairs F.ORDER O.cmp (polys_of lines.now) pairing.old.records.items pairing.old.paired }
    requires few { AreFew (seconds pairing.old.records.items) pairing.old.paired }
    ensures pairs { ArePairs F.ORDER O.cmp (polys_of lines.now) pairing.new.records.items pairing.new.paired }
    ensures few { AreFew (seconds pairing.new.records.items) pairing.new.paired }
    ensures settled { settled_count pairing.new.records.items ≡ settled_count pairing.old.records.items }
    ensures paired { OnOk result (pairing.new.paired ≡ pairing.old.paired + 1) }
{
    let second = pairing.paired;
    let count = pairing.records.len();
    match pair_line(
        alloc,
        lines,
        index,
        &mut pairing.records,
        &mut pairing.queue,
        second,
    ) {
        Ok(()) => {
            pairing.paired = second + 1;
            Ok(())
        }
        Err(stop) => {
            pairing.records.truncate(count);
            Err(stop)
        }
    }
}

/// Marks the pair at a place as represented, where it follows from others.
fn leave_out_at<F: Field, O: MonoOrder>(
    alloc: Global,
    lines: &[Line<F, O>],
    index: &Index,
    pairing: &mut Pairing,
    place: usize,
) -> Result<bool, AllocError>
    requires index { IsIndexOf F.ORDER O.cmp (polys_of lines.now) index.now }
    requires pending { IsPendingAt pairing.old.records.items place }
    requires pairs { ArePairs F.ORDER O.cmp (polys_of lines.now) pairing.old.records.items pairing.old.paired }
    ensures left_out { IsLeftOut F.ORDER O.cmp (polys_of lines.now) pairing.old.records.items
        pairing.new.records.items pairing.new.paired }
    ensures paired { pairing.new.paired ≡ pairing.old.paired }
{
    let count = lines.len();
    let pair = pairing.records[place];
    if follows_from_others(
        alloc,
        lines,
        index,
        pairing.records.as_slice(),
        pair.first,
        pair.second,
    )? {
        mark(
            &mut pairing.records,
            place,
            pair,
            PairState::Represented(count),
        );
        return Ok(true);
    }
    Ok(false)
}

/// Marks the next late pair as represented, where it follows from others, and says whether there was one.
fn leave_out_next<F: Field, O: MonoOrder>(
    alloc: Global,
    lines: &[Line<F, O>],
    index: &Index,
    pairing: &mut Pairing,
) -> Result<bool, AllocError>
    requires index { IsIndexOf F.ORDER O.cmp (polys_of lines.now) index.now }
    requires pairs { ArePairs F.ORDER O.cmp (polys_of lines.now) pairing.old.records.items pairing.old.paired }
    ensures left_out { IsLeftOut F.ORDER O.cmp (polys_of lines.now) pairing.old.records.items
        pairing.new.records.items pairing.new.paired }
    ensures paired { pairing.new.paired ≡ pairing.old.paired }
{
    let next = pairing.queue.next_late(pairing.records.as_slice())?;
    let Some(place) = next else {
        return Ok(false);
    };
    if !leave_out_at(alloc, lines, index, pairing, place)? {
        pairing.queue.put_back()?;
    }
    Ok(true)
}

/// Marks the pairs that follow from others, where no other pair waits.
fn leave_out<F: Field, O: MonoOrder>(
    alloc: Global,
    lines: &[Line<F, O>],
    index: &Index,
    pairing: &mut Pairing,
) -> Result<(), AllocError>
    requires index { IsIndexOf F.ORDER O.cmp (polys_of lines.now) index.now }
    requires pairs { ArePairs F.ORDER O.cmp (polys_of lines.now) pairing.old.records.items pairing.old.paired }
    ensures left_out { IsLeftOut F.ORDER O.cmp (polys_of lines.now) pairing.old.records.items
        pairing.new.records.items pairing.new.paired }
    ensures paired { pairing.new.paired ≡ pairing.old.paired }
{
    if pairing.queue.keeps_all {
        return Ok(());
    }
    let front = pairing
        .queue
        .front(lines, index, pairing.records.as_slice())?;
    if front.is_some() {
        return Ok(());
    }
    for _ in 0..u64::MAX {
        if !leave_out_next(alloc, lines, index, pairing)? {
            return Ok(());
        }
    }
    Ok(())
}

/// Makes the pairs of the lines that have none yet, lets all pending pairs wait, and leaves out those that follow from others.
fn pair_lines<F: Field, O: MonoOrder>(
    alloc: Global,
    lines: &[Line<F, O>],
    index: &Index,
    pairing: &mut Pairing,
) -> Result<(), AllocError>
    requires index { IsIndexOf F.ORDER O.cmp (polys_of lines.now) index.now }
    requires pairs { ArePairs F.ORDER O.cmp (polys_of lines.now) pairing.old.records.items pairing.old.paired }
    requires few { AreFew (seconds pairing.old.records.items) pairing.old.paired }
    ensures pairs { ArePairs F.ORDER O.cmp (polys_of lines.now) pairing.new.records.items pairing.new.paired }
    ensures few { AreFew (seconds pairing.new.records.items) pairing.new.paired }
    ensures settled { settled_count pairing.new.records.items ≡ settled_count pairing.old.records.items }
    ensures paired { OnOk result (pairing.new.paired ≡ length lines.now) }
{
    pairing.queue.refresh(pairing.records.as_slice())?;
    while pairing.paired < lines.len() {
        pair_next(alloc, lines, index, pairing)?;
    }
    leave_out(alloc, lines, index, pairing)?;
    Ok(())
}

/// The place of the first pending pair.
fn first_pending(records: &[PairRecord]) -> Option<usize>
    ensures some { IfSome result (IsPendingAt records.now) }
    ensures none { IfNone result (AreKnown records.now) }
{
    for place in 0..records.len() {
        if records[place].is_pending() {
            return Some(place);
        }
    }
    None
}

/// The place of the first pair that is not settled.
fn first_unsettled(records: &[PairRecord]) -> Option<usize>
    ensures some { IfSome result (IsPendingAt records.now) }
    ensures none { IfNone result (AreSettled records.now) }
{
    for place in 0..records.len() {
        if !records[place].is_settled() {
            return Some(place);
        }
    }
    None
}

/// Whether a limit was passed at a pair.
fn has_over(records: &[PairRecord]) -> bool
    ensures { OnFalse result (over_of records.now ≡ []) }
{
    for r in records {
        if r.is_over() {
            return true;
        }
    }
    false
}

/// The place of the first pair that is still to be reduced: pairs that follow from others are not, unless a limit was passed
/// at a pair.
fn first_open(records: &[PairRecord]) -> Option<usize>
    ensures some { IfSome result (IsPendingAt records.now) }
    ensures none { IfNone result (AreDone records.now) }
{
    if has_over(records) {
        return first_unsettled(records);
    }
    first_pending(records)
}

/// The place of the pair that comes next.
fn next_place<F: Field, O: MonoOrder>(
    lines: &[Line<F, O>],
    index: &Index,
    records: &[PairRecord],
    queue: &mut Queue,
) -> Result<Option<usize>, AllocError>
    ensures some { IfOk result (λ o. IfSome o (IsPendingAt records.now)) }
    ensures none { IfOk result (λ o. IfNone o (AreDone records.now)) }
{
    if let Some(place) = queue.next_near(lines, index, records)? {
        return Ok(Some(place));
    }
    if let Some(place) = queue.next_open(records)? {
        return Ok(Some(place));
    }
    if let Some(place) = queue.next_late(records)? {
        return Ok(Some(place));
    }
    Ok(first_open(records))
}

/// The pairs at which a limit was passed.
fn over_pairs(alloc: Global, records: &[PairRecord]) -> Result<Pairs, AllocError>
    ensures { IfOk result (λ pairs. pairs ≡ over_of records.now) }
{
    let mut pairs = Pairs::new(alloc);
    for r in records {
        if let PairState::Over(_) = r.state {
            pairs.push(r.first as u64, r.second as u64)?;
        }
    }
    Ok(pairs)
}

/// What the basis is where no pair is pending.
fn settled_answer(alloc: Global, records: &[PairRecord]) -> Result<Completion, AllocError>
    ensures { IfOk result (λ answer. answer ≡ answer_of (over_of records.now)) }
{
    let pairs = over_pairs(alloc, records)?;
    if pairs.as_slice().is_empty() {
        Ok(Completion::Closed)
    } else {
        Ok(Completion::SetAside(pairs))
    }
}

/// Writes what is known of the pair at a place.
fn mark(records: &mut Vec<PairRecord>, place: usize, pair: PairRecord, state: PairState)
    requires { place < vec_len records.old }
    ensures { records.new.items ≡ set records.old.items place (with_state pair state) }
{
    records[place] = PairRecord {
        first: pair.first,
        second: pair.second,
        state,
    };
}

/// Writes what a pair's S-polynomial gave, and appends the line that it may give.
fn settle<F: Field, O: MonoOrder>(
    lines: &mut Vec<Line<F, O>>,
    index: &mut Index,
    pairing: &mut Pairing,
    place: usize,
    pair: PairRecord,
    outcome: Outcome<F, O>,
) -> Result<(), AllocError>
    requires within { place < vec_len pairing.old.records }
    requires pending { IsPendingAt pairing.old.records.items place }
    requires pair { get_or pairing.old.records.items place pair ≡ pair }
    requires lines { AreLines F.ORDER lines.old.items }
    requires pairs { ArePairs F.ORDER O.cmp (polys_of lines.old.items) pairing.old.records.items pairing.old.paired }
    requires outcome { IsOutcome F.ORDER O.cmp (polys_of lines.old.items) pair.first pair.second outcome }
    ensures index { IsIndexOf F.ORDER O.cmp (polys_of lines.old.items) index.old
        → IsIndexOf F.ORDER O.cmp (polys_of lines.new.items) index.new }
    ensures front { IsFront F.ORDER O.cmp lines.old.items lines.new.items }
    ensures lines { AreLines F.ORDER lines.new.items }
    ensures pairs { ArePairs F.ORDER O.cmp (polys_of lines.new.items) pairing.new.records.items pairing.new.paired }
    ensures seconds { seconds pairing.new.records.items ≡ seconds pairing.old.records.items }
    ensures paired { pairing.new.paired ≡ pairing.old.paired }
    ensures settled { OnOk result (settled_count pairing.new.records.items ≡ settled_count pairing.old.records.items
        + 1) }
{
    let count = lines.len();
    match outcome {
        Outcome::Closed => {
            mark(&mut pairing.records, place, pair, PairState::Closed(count));
            Ok(())
        }
        Outcome::Over => {
            mark(&mut pairing.records, place, pair, PairState::Over(count));
            pairing.queue.keeps_all = true;
            Ok(())
        }
        Outcome::Added(line) => {
            let _length = line.poly.len();
            push_line(lines, index, line)?;
            mark(
                &mut pairing.records,
                place,
                pair,
                PairState::Closed(count + 1),
            );
            Ok(())
        }
    }
}

/// What the S-polynomial of two lines gives: it is reduced, where the second criterion doesn't show by itself that it reduces to
/// zero. That is tried where no pair is left out for others.
fn outcome_of<F: Field, O: MonoOrder>(
    alloc: Global,
    lines: &[Line<F, O>],
    index: &Index,
    table: &mut Table<F, O>,
    records: &[PairRecord],
    keeps_all: bool,
    i: usize,
    j: usize,
    meter: &mut Meter,
) -> Result<Outcome<F, O>, Stop>
    requires index { IsIndexOf F.ORDER O.cmp (polys_of lines.now) index.now }
    requires first { i < length lines.now }
    requires second { j < length lines.now }
    requires records { AreRecords F.ORDER O.cmp (polys_of lines.now) records.now }
    requires lists { AreLists (polys_of lines.now) }
    requires table { AreMultiplesOf F.ORDER (polys_of lines.now) table.old.1 }
    ensures table { AreMultiplesOf F.ORDER (polys_of lines.now) table.new.1 }
    ensures outcome { IfOk result (IsOutcome F.ORDER O.cmp (polys_of lines.now) i j) }
    ensures metered { Metered Stop.Spent result meter.old meter.new }
    ensures takes { TakesReductions meter.old meter.new }
    ensures bound { IsPairBound F.ORDER O.cmp (polys_of lines.now) meter.old meter.new }
{
    if keeps_all && is_chained(alloc, lines, index, records, i, j)? {
        return Ok(Outcome::Closed);
    }
    reduce_pair(alloc, lines, index, table, i, j, meter)
}

/// Settles the pair at a place.
fn treat<F: Field, O: MonoOrder>(
    lines: &mut Vec<Line<F, O>>,
    index: &mut Index,
    table: &mut Table<F, O>,
    pairing: &mut Pairing,
    place: usize,
    meter: &mut Meter,
) -> Result<(), Stop>
    requires index { IsIndexOf F.ORDER O.cmp (polys_of lines.old.items) index.old }
    requires pending { IsPendingAt pairing.old.records.items place }
    requires lines { AreLines F.ORDER lines.old.items }
    requires pairs { ArePairs F.ORDER O.cmp (polys_of lines.old.items) pairing.old.records.items pairing.old.paired }
    requires table { AreMultiplesOf F.ORDER (polys_of lines.old.items) table.old.1 }
    ensures table { AreMultiplesOf F.ORDER (polys_of lines.new.items) table.new.1 }
    ensures index { IsIndexOf F.ORDER O.cmp (polys_of lines.new.items) index.new }
    ensures front { IsFront F.ORDER O.cmp lines.old.items lines.new.items }
    ensures lines { AreLines F.ORDER lines.new.items }
    ensures pairs { ArePairs F.ORDER O.cmp (polys_of lines.new.items) pairing.new.records.items pairing.new.paired }
    ensures seconds { seconds pairing.new.records.items ≡ seconds pairing.old.records.items }
    ensures paired { pairing.new.paired ≡ pairing.old.paired }
    ensures settled { OnOk result (settled_count pairing.new.records.items ≡ settled_count pairing.old.records.items
        + 1) }
    ensures metered { Metered Stop.Spent result meter.old meter.new }
    ensures takes { TakesReductions meter.old meter.new }
    ensures bound { IsPairsBound F.ORDER O.cmp (polys_of lines.old.items) 1 meter.old meter.new }
    ensures forward { OnOk result (meter.old.reductions < meter.new.reductions) }
{
    let pair = pairing.records[place];
    meter.take(Unit::Reduction)?;
    let outcome = outcome_of(
        *lines.allocator(),
        lines.as_slice(),
        index,
        table,
        pairing.records.as_slice(),
        pairing.queue.keeps_all,
        pair.first,
        pair.second,
        meter,
    )?;
    settle(lines, index, pairing, place, pair, outcome)?;
    Ok(())
}

/// Whether the line with this number is there and a constant other than 0.
fn is_constant_at<F: Field, O: MonoOrder>(lines: &[Line<F, O>], number: usize) -> bool
    ensures { OnTrue result (IsConstantLine F.ORDER (polys_of lines.now) number) }
{
    number < lines.len() && !lines[number].poly.is_zero() && lines[number].poly.is_constant()
}

/// The first line that is a constant other than 0, which the index has.
fn constant_line<F: Field, O: MonoOrder>(lines: &[Line<F, O>], index: &Index) -> Option<usize>
    ensures { IfSome result (IsConstantLine F.ORDER (polys_of lines.now)) }
{
    match index.constant {
        Some(line) if is_constant_at(lines, line) => Some(line),
        _ => None,
    }
}

/// Whether another pair is due: fewer than so many units were taken, or the next pair simplifies, or none waits.
fn is_due<F: Field, O: MonoOrder>(
    lines: &[Line<F, O>],
    index: &Index,
    records: &[PairRecord],
    queue: &mut Queue,
    taken: u64,
    units: u64,
) -> Result<bool, AllocError>
    ensures { IfOk result (λ due. OnFalse due (units ≤ taken)) }
{
    if taken < units {
        return Ok(true);
    }
    queue.simplifies(lines, index, records)
}

/// Goes on with Buchberger's algorithm, until at least so many units were taken and the next pair does not simplify.
pub(crate) fn advance<F: Field, O: MonoOrder>(
    lines: &mut Vec<Line<F, O>>,
    index: &mut Index,
    table: &mut Table<F, O>,
    pairing: &mut Pairing,
    units: u64,
    meter: &mut Meter,
) -> Result<Progress, Stop>
    requires index { IsIndexOf F.ORDER O.cmp (polys_of lines.old.items) index.old }
    requires lines { AreLines F.ORDER lines.old.items }
    requires pairs { ArePairs F.ORDER O.cmp (polys_of lines.old.items) pairing.old.records.items pairing.old.paired }
    requires few { AreFew (seconds pairing.old.records.items) pairing.old.paired }
    requires table { AreMultiplesOf F.ORDER (polys_of lines.old.items) table.old.1 }
    ensures table { AreMultiplesOf F.ORDER (polys_of lines.new.items) table.new.1 }
    ensures index { IsIndexOf F.ORDER O.cmp (polys_of lines.new.items) index.new }
    ensures front { IsFront F.ORDER O.cmp lines.old.items lines.new.items }
    ensures lines { AreLines F.ORDER lines.new.items }
    ensures pairs { ArePairs F.ORDER O.cmp (polys_of lines.new.items) pairing.new.records.items pairing.new.paired }
    ensures few { AreFew (seconds pairing.new.records.items) pairing.new.paired }
    ensures bound { IsCompletionBound F.ORDER O.cmp (polys_of lines.new.items) meter.old meter.new }
    ensures found { IfOk result (IsProgress F.ORDER O.cmp (polys_of lines.new.items)) }
    ensures left { IfOk result (HasTaken meter.old meter.new units) }
    ensures metered { Metered Stop.Spent result meter.old meter.new }
    ensures takes { TakesReductions meter.old meter.new }
{
    let alloc = *lines.allocator();
    if let Some(line) = constant_line(lines.as_slice(), index) {
        return Ok(Progress::Done(Completion::Constant(line as u64)));
    }
    let before = meter.count(Unit::Reduction);
    let mut taken = 0;
    pair_lines(alloc, lines.as_slice(), index, pairing)?;
    while is_due(
        lines.as_slice(),
        index,
        pairing.records.as_slice(),
        &mut pairing.queue,
        taken,
        units,
    )? {
        let next = next_place(
            lines.as_slice(),
            index,
            pairing.records.as_slice(),
            &mut pairing.queue,
        )?;
        let Some(place) = next else {
            let answer = settled_answer(alloc, pairing.records.as_slice())?;
            return Ok(Progress::Done(answer));
        };
        let count = lines.len();
        treat(lines, index, table, pairing, place, meter)?;
        taken = meter.count(Unit::Reduction) - before;
        if is_constant_at(lines.as_slice(), count) {
            return Ok(Progress::Done(Completion::Constant(count as u64)));
        }
        pair_lines(alloc, lines.as_slice(), index, pairing)?;
    }
    Ok(Progress::Left)
}
