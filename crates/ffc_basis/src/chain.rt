//! Buchberger's second criterion (Buchberger 1979; Cox, Little and O'Shea, chapter 2, section 10): a pair of lines
//! needs no reduction where a third line's leading monomial divides the least common multiple of theirs, and its pairs
//! with both are done. Here that is tested as a basis is completed: the S-polynomial of the two lines is the sum of
//! multiples of the other two S-polynomials, and reduces to zero as they do where no monomial of these multiples is
//! above its leading one.
//!
//! Mostly no S-polynomial is made for that. In each the leading terms of the lines cancel, so its monomials are at most
//! the second monomials of the lines, each multiplied as its line is. The greater one of these leads, unless both
//! cancel as well: then the S-polynomials are made after all (leads.rt).
ghost use Rattle.std.specs.Prelude.{◌<◌, [], length, get_or, IsTrue, IfOk, IfSome};
ghost use Rattle.std.specs.Bool.{OnFalse};
ghost use Rattle.ffc_basis.specs.Chains.{IsRaised, AreApart, IsUnder, IsLeadLcm, IsTop};
ghost use Rattle.ffc_basis.specs.Indexing.{IsIndexOf};
ghost use Rattle.ffc_line.specs.Lines.{polys_of, AreLists};
ghost use Rattle.ffc_basis.specs.PairTable.{AreRecords, AreBothClosed};

use crate::dividing::divisors;
use crate::index::Index;
use crate::leads::follows_by_leads;
use crate::pair::PairRecord;
use crate::pairing::is_needed;
use crate::reduction::past_limit;
use crate::spoly::lcm_of;
use ffc_field::Field;
use ffc_line::Line;
use ffc_mono::{Mono, MonoOrder, MonoStop};
use ffc_poly::Poly;
use std::alloc::{AllocError, Global};
use std::cmp::Ordering;

/// What is compared of a line times the monomial that makes its leading monomial a given multiple of it.
#[derive(Drop)]
pub(crate) struct Raised {
    /// The second monomial, where it has two terms.
    second: Option<Mono>,
}

/// What is compared of two lines.
#[derive(Drop)]
pub(crate) struct Top {
    /// The least common multiple of the leading monomials of the lines.
    lcm: Mono,
    /// The leading monomial of the S-polynomial.
    lead: Mono,
}

/// The second monomial times the monomial that makes the leading one this multiple of it.
fn raise<F: Field, O: MonoOrder>(
    alloc: Global,
    poly: &Poly<F, O>,
    top: &Mono,
) -> Result<Option<Raised>, AllocError>
    ensures { IfOk result (λ o. IfSome o (IsRaised F.ORDER O.cmp poly.now top.now)) }
{
    let count = poly.len();
    let Some((_, lead)) = poly.lead() else {
        return Ok(None);
    };
    if !lead.divides(top.as_ref()) {
        return Ok(None);
    }
    if count < 2 {
        return Ok(Some(Raised { second: None }));
    }
    let up = top.quotient(&lead.to_mono(alloc)?)?;
    let _degree = up.degree();
    let (_, second) = poly.term(1);
    match up.mul(&second.to_mono(alloc)?) {
        Ok(second) => Ok(Some(Raised {
            second: Some(second),
        })),
        Err(MonoStop::DegreeOver) => Ok(None),
        Err(MonoStop::Memory) => Err(AllocError),
    }
}

/// Whether the second terms of two polynomials cancel in their S-polynomial, where they have the same monomial there.
fn cancel<F: Field, O: MonoOrder>(a: &Poly<F, O>, b: &Poly<F, O>) -> bool
    ensures { OnFalse result (AreApart F.ORDER O.cmp a.now b.now) }
{
    if a.len().min(b.len()) < 2 {
        return true;
    }
    let Some(m) = a.lead() else {
        return true;
    };
    let Some(n) = b.lead() else {
        return true;
    };
    let first = a.term(1).0.mul(n.0);
    let second = b.term(1).0.mul(m.0);
    first.residue() == second.residue()
}

/// What is compared of two polynomials, of which the second monomials are known.
fn top_by<F: Field, O: MonoOrder>(
    a: &Poly<F, O>,
    b: &Poly<F, O>,
    lcm: Mono,
    first: Raised,
    second: Raised,
) -> Option<Top>
    requires multiple { IsLeadLcm F.ORDER O.cmp a.now b.now lcm }
    requires first { IsRaised F.ORDER O.cmp a.now lcm first }
    requires second { IsRaised F.ORDER O.cmp b.now lcm second }
    ensures { IfSome result (IsTop F.ORDER O.cmp a.now b.now) }
{
    let _lengths = (a.len(), b.len());
    let Some(own) = first.second else {
        let lead = second.second?;
        return Some(Top { lcm, lead });
    };
    let Some(other) = second.second else {
        return Some(Top { lcm, lead: own });
    };
    match O::compare(&own, &other) {
        Ordering::Greater => Some(Top { lcm, lead: own }),
        Ordering::Less => Some(Top { lcm, lead: other }),
        Ordering::Equal => {
            if cancel(a, b) {
                None
            } else {
                Some(Top { lcm, lead: own })
            }
        }
    }
}

/// What is compared of two polynomials, where they have an S-polynomial other than 0 and no limit is passed.
fn top_of<F: Field, O: MonoOrder>(
    alloc: Global,
    a: &Poly<F, O>,
    b: &Poly<F, O>,
) -> Result<Option<Top>, AllocError>
    ensures { IfOk result (λ o. IfSome o (IsTop F.ORDER O.cmp a.now b.now)) }
{
    let Some((_, m)) = a.lead() else {
        return Ok(None);
    };
    let Some((_, n)) = b.lead() else {
        return Ok(None);
    };
    let lcm = match lcm_of(alloc, m, n) {
        Ok(lcm) => lcm,
        Err(stop) => {
            past_limit(stop)?;
            return Ok(None);
        }
    };
    let Some(first) = raise(alloc, a, &lcm)? else {
        return Ok(None);
    };
    let Some(second) = raise(alloc, b, &lcm)? else {
        return Ok(None);
    };
    Ok(top_by(a, b, lcm, first, second))
}

/// Whether a line, times what makes its leading monomial the least common multiple, has no other monomial above that
/// which leads the S-polynomial.
fn is_under<F: Field, O: MonoOrder>(
    alloc: Global,
    poly: &Poly<F, O>,
    top: &Top,
) -> Result<bool, AllocError>
    ensures { IfOk result (λ b. IsTrue b → IsUnder F.ORDER O.cmp poly.now top.now.lcm top.now.lead) }
{
    let Some(line) = raise(alloc, poly, &top.lcm)? else {
        return Ok(false);
    };
    let Some(second) = line.second else {
        return Ok(true);
    };
    match O::compare(&second, &top.lead) {
        Ordering::Less => Ok(true),
        Ordering::Equal => Ok(true),
        Ordering::Greater => Ok(false),
    }
}

/// Whether a pair comes before that of these two lines.
fn is_before(pair: &PairRecord, first: usize, second: usize) -> bool {
    pair.second < second || pair.second == second && pair.first < first
}

/// How many pairs there are before that of two lines, where all are recorded.
fn pairs_before(first: usize, second: usize) -> usize {
    let earlier = second.saturating_mul(second.saturating_sub(1)) / 2;
    earlier.saturating_add(first)
}

/// Where the record of a pair is, if there is one: they are ordered by their second lines and then by their first ones. It is
/// sought from the place down that it has where all pairs are recorded, since mostly few are not.
pub(crate) fn place_of_pair(records: &[PairRecord], first: usize, second: usize) -> usize {
    let mut high = pairs_before(first, second).min(records.len());
    for shift in 0..32u32 {
        let step = 1usize << shift;
        if step > high || is_before(&records[high - step], first, second) {
            let low = high.saturating_sub(step);
            let part = &records[low..high];
            return low.saturating_add(part.partition_point(|r| is_before(r, first, second)));
        }
        high -= step;
    }
    records.partition_point(|r| is_before(r, first, second))
}

/// Whether it is known that the pair of two lines reduces to zero.
fn is_closed<F: Field, O: MonoOrder>(
    lines: &[Line<F, O>],
    records: &[PairRecord],
    first: usize,
    second: usize,
) -> bool
    requires ordered { first < second }
    requires within { second < length lines.now }
    requires records { AreRecords F.ORDER O.cmp (polys_of lines.now) records.now }
    ensures { IsTrue result → AreBothClosed F.ORDER O.cmp (polys_of lines.now) first second }
{
    let place = place_of_pair(records, first, second);
    if place < records.len() {
        let pair = records[place];
        if pair.first == first && pair.second == second {
            return pair.is_closed();
        }
    }
    !is_needed(&lines[first].poly, &lines[second].poly)
}

/// The same of two lines either way round.
pub(crate) fn is_closed_between<F: Field, O: MonoOrder>(
    lines: &[Line<F, O>],
    records: &[PairRecord],
    i: usize,
    j: usize,
) -> bool
    requires first { i < length lines.now }
    requires second { j < length lines.now }
    requires records { AreRecords F.ORDER O.cmp (polys_of lines.now) records.now }
    ensures { IsTrue result → AreBothClosed F.ORDER O.cmp (polys_of lines.now) i j }
{
    if i < j {
        is_closed(lines, records, i, j)
    } else if j < i {
        is_closed(lines, records, j, i)
    } else {
        false
    }
}

/// Whether the leading monomial of a polynomial divides a monomial.
pub(crate) fn is_led_by_divisor<F: Field, O: MonoOrder>(poly: &Poly<F, O>, m: &Mono) -> bool {
    match poly.lead() {
        Some((_, lead)) => lead.divides(m.as_ref()),
        None => false,
    }
}

/// Whether the pair of two lines follows from its pairs with a third one, which are done.
fn is_chained_by<F: Field, O: MonoOrder>(
    alloc: Global,
    lines: &[Line<F, O>],
    records: &[PairRecord],
    i: usize,
    j: usize,
    third: usize,
    top: &Top,
) -> Result<bool, AllocError>
    requires first { i < length lines.now }
    requires second { j < length lines.now }
    requires third { third < length lines.now }
    requires top { IsTop F.ORDER O.cmp (get_or (polys_of lines.now) i []) (get_or (polys_of lines.now) j []) top.now }
    requires records { AreRecords F.ORDER O.cmp (polys_of lines.now) records.now }
    requires lists { AreLists (polys_of lines.now) }
    ensures { IfOk result (λ b. IsTrue b → AreBothClosed F.ORDER O.cmp (polys_of lines.now) i j) }
{
    let poly = &lines[third].poly;
    if !is_led_by_divisor(poly, &top.lcm) {
        return Ok(false);
    }
    if !is_closed_between(lines, records, i, third) {
        return Ok(false);
    }
    if !is_closed_between(lines, records, third, j) {
        return Ok(false);
    }
    is_under(alloc, poly, top)
}

/// Whether the pair of two lines follows from pairs that are done.
pub(crate) fn is_chained<F: Field, O: MonoOrder>(
    alloc: Global,
    lines: &[Line<F, O>],
    index: &Index,
    records: &[PairRecord],
    i: usize,
    j: usize,
) -> Result<bool, AllocError>
    requires index { IsIndexOf F.ORDER O.cmp (polys_of lines.now) index.now }
    requires first { i < length lines.now }
    requires second { j < length lines.now }
    requires records { AreRecords F.ORDER O.cmp (polys_of lines.now) records.now }
    requires lists { AreLists (polys_of lines.now) }
    ensures { IfOk result (λ b. IsTrue b → AreBothClosed F.ORDER O.cmp (polys_of lines.now) i j) }
{
    let Some(top) = top_of(alloc, &lines[i].poly, &lines[j].poly)? else {
        return follows_by_leads(alloc, lines, index, records, i, j);
    };
    let thirds = divisors(alloc, lines, index, top.lcm.as_ref())?;
    for third in &thirds {
        if is_chained_by(alloc, lines, records, i, j, *third, &top)? {
            return Ok(true);
        }
    }
    Ok(false)
}
