//! Buchberger's second criterion where all pairs are settled in the end (Buchberger 1979; Gebauer and Möller 1988; Cox, Little
//! and O'Shea, chapter 2, section 10). A third line's leading monomial divides the least common multiple of those of two lines,
//! and the S-polynomials of both with it are sums of multiples of lines below their own least common multiples. Then the
//! S-polynomial of the two lines is such a sum. That it reduces to zero follows only once all pairs are so or closed.
ghost use Rattle.std.specs.Prelude.{◌<◌, [], All, length, get_or, IsTrue, IfOk};
ghost use Rattle.ffc_basis.specs.Chains.{IsLeadLcm};
ghost use Rattle.ffc_basis.specs.Dividing.{LeadsDivisor};
ghost use Rattle.ffc_basis.specs.Indexing.{IsIndexOf};
ghost use Rattle.ffc_line.specs.Lines.{polys_of, AreLists};
ghost use Rattle.ffc_basis.specs.PairTable.{AreRecords, HasRepresented};
ghost use Rattle.ffc_basis.specs.Representations.{AreBothRepresented};

use crate::chain::place_of_pair;
use crate::index::Index;
use crate::pair::PairRecord;
use crate::pairing::is_needed;
use crate::queue::turned;
use crate::reduction::past_limit;
use crate::spoly::lcm_of;
use ffc_field::Field;
use ffc_line::Line;
use ffc_mono::{Mono, MonoOrder, MonoRef};
use std::alloc::{AllocError, Global};

/// Whether a pair is recorded as represented or closed.
pub(crate) fn is_recorded(records: &[PairRecord], first: usize, second: usize) -> bool
    ensures { IsTrue result → HasRepresented records.now first second }
{
    let place = place_of_pair(records, first, second);
    if place < records.len() {
        let pair = records[place];
        if pair.first == first && pair.second == second {
            return pair.is_represented();
        }
    }
    false
}

/// Whether it is known that the S-polynomials of two lines are sums of multiples below the least common multiple.
fn is_represented<F: Field, O: MonoOrder>(
    lines: &[Line<F, O>],
    records: &[PairRecord],
    first: usize,
    second: usize,
) -> bool
    requires ordered { first < second }
    requires within { second < length lines.now }
    requires records { AreRecords F.ORDER O.cmp (polys_of lines.now) records.now }
    requires lists { AreLists (polys_of lines.now) }
    ensures { IsTrue result → AreBothRepresented F.ORDER O.cmp (polys_of lines.now) first second }
{
    if is_recorded(records, first, second) {
        return true;
    }
    !is_needed(&lines[first].poly, &lines[second].poly)
}

/// The same of two lines either way round.
fn is_represented_between<F: Field, O: MonoOrder>(
    lines: &[Line<F, O>],
    records: &[PairRecord],
    i: usize,
    j: usize,
) -> bool
    requires first { i < length lines.now }
    requires second { j < length lines.now }
    requires records { AreRecords F.ORDER O.cmp (polys_of lines.now) records.now }
    requires lists { AreLists (polys_of lines.now) }
    ensures { IsTrue result → AreBothRepresented F.ORDER O.cmp (polys_of lines.now) i j }
{
    if i < j {
        is_represented(lines, records, i, j)
    } else if j < i {
        is_represented(lines, records, j, i)
    } else {
        false
    }
}

/// Whether the leading monomial of a line divides a monomial.
fn is_led_by<F: Field, O: MonoOrder>(lines: &[Line<F, O>], line: usize, m: MonoRef<'_>) -> bool
    requires { line < length lines.now }
    ensures { IsTrue result → LeadsDivisor F.ORDER O.cmp (polys_of lines.now) m.entry.powers.now line }
{
    match lines[line].poly.lead() {
        Some((_, lead)) => lead.divides(m),
        None => false,
    }
}

/// Whether the pair of two lines follows from its pairs with a third one.
fn is_represented_by<F: Field, O: MonoOrder>(
    lines: &[Line<F, O>],
    records: &[PairRecord],
    i: usize,
    j: usize,
    third: usize,
    lcm: &Mono,
) -> bool
    requires first { i < length lines.now }
    requires second { j < length lines.now }
    requires third { third < length lines.now }
    requires lcm { IsLeadLcm F.ORDER O.cmp (get_or (polys_of lines.now) i []) (get_or (polys_of lines.now) j []) lcm.now }
    requires records { AreRecords F.ORDER O.cmp (polys_of lines.now) records.now }
    requires lists { AreLists (polys_of lines.now) }
    ensures { IsTrue result → AreBothRepresented F.ORDER O.cmp (polys_of lines.now) i j }
{
    if !is_led_by(lines, third, lcm.as_ref()) {
        return false;
    }
    if !is_represented_between(lines, records, i, third) {
        return false;
    }
    is_represented_between(lines, records, third, j)
}

/// Whether it does from the pairs with one of these lines.
fn is_represented_by_any<F: Field, O: MonoOrder>(
    lines: &[Line<F, O>],
    records: &[PairRecord],
    i: usize,
    j: usize,
    thirds: &[usize],
    lcm: &Mono,
) -> bool
    requires first { i < length lines.now }
    requires second { j < length lines.now }
    requires thirds { All (λ k. k < length lines.now) thirds.now }
    requires lcm { IsLeadLcm F.ORDER O.cmp (get_or (polys_of lines.now) i []) (get_or (polys_of lines.now) j []) lcm.now }
    requires records { AreRecords F.ORDER O.cmp (polys_of lines.now) records.now }
    requires lists { AreLists (polys_of lines.now) }
    ensures { IsTrue result → AreBothRepresented F.ORDER O.cmp (polys_of lines.now) i j }
{
    let before = thirds
        .partition_point(|third| *third < i.max(j))
        .min(thirds.len());
    for step in 0..thirds.len() {
        let third = thirds[turned(before, step)];
        if is_represented_by(lines, records, i, j, third, lcm) {
            return true;
        }
    }
    false
}

/// Whether it does from the pairs with a line whose leading monomial divides the least common multiple.
fn is_represented_by_divisor<F: Field, O: MonoOrder>(
    lines: &[Line<F, O>],
    index: &Index,
    records: &[PairRecord],
    i: usize,
    j: usize,
    lcm: &Mono,
) -> bool
    requires index { IsIndexOf F.ORDER O.cmp (polys_of lines.now) index.now }
    requires first { i < length lines.now }
    requires second { j < length lines.now }
    requires lcm { IsLeadLcm F.ORDER O.cmp (get_or (polys_of lines.now) i []) (get_or (polys_of lines.now) j []) lcm.now }
    requires records { AreRecords F.ORDER O.cmp (polys_of lines.now) records.now }
    requires lists { AreLists (polys_of lines.now) }
    ensures { IsTrue result → AreBothRepresented F.ORDER O.cmp (polys_of lines.now) i j }
{
    for power in lcm.as_ref().pairs() {
        if is_represented_by_any(lines, records, i, j, index.begun_by(power.0), lcm) {
            return true;
        }
    }
    false
}

/// Whether the pair of two lines follows from others.
pub(crate) fn follows_from_others<F: Field, O: MonoOrder>(
    alloc: Global,
    lines: &[Line<F, O>],
    index: &Index,
    records: &[PairRecord],
    i: usize,
    j: usize,
) -> Result<bool, AllocError>
    requires index { IsIndexOf F.ORDER O.cmp (polys_of lines.now) index.now }
    requires first { i < length lines.now }
    requires second { j < length lines.now }
    requires records { AreRecords F.ORDER O.cmp (polys_of lines.now) records.now }
    requires lists { AreLists (polys_of lines.now) }
    ensures { IfOk result (λ b. IsTrue b → AreBothRepresented F.ORDER O.cmp (polys_of lines.now) i j) }
{
    let Some(m) = lines[i].poly.lead() else {
        return Ok(false);
    };
    let Some(n) = lines[j].poly.lead() else {
        return Ok(false);
    };
    let lcm = match lcm_of(alloc, m.1, n.1) {
        Ok(lcm) => lcm,
        Err(stop) => {
            past_limit(stop)?;
            return Ok(false);
        }
    };
    Ok(is_represented_by_divisor(lines, index, records, i, j, &lcm))
}
