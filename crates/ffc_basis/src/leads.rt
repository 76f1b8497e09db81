//! Buchberger's second criterion for two lines whose second terms cancel in their S-polynomial as well. Then the second
//! monomials tell nothing of its leading monomial, so S-polynomials are made to compare those.
ghost use Rattle.std.specs.Prelude.{◌≡◌, ℕ, ◌<◌, [], All, length, IsTrue, IfOk, IfSome, IfNone};
ghost use Rattle.ffc_mono.specs.Leading.{IsLeading};
ghost use Rattle.ffc_basis.specs.Chains.{IsWholeOfPair, IsNoHigher};
ghost use Rattle.ffc_basis.specs.Completion.{IsPairClosed};
ghost use Rattle.ffc_basis.specs.Indexing.{IsIndexOf};
ghost use Rattle.ffc_line.specs.Lines.{polys_of, AreLists};
ghost use Rattle.ffc_basis.specs.PairTable.{AreRecords, AreBothClosed};

use crate::chain::{is_closed_between, is_led_by_divisor};
use crate::dividing::divisors;
use crate::index::Index;
use crate::pair::PairRecord;
use crate::reduction::past_limit;
use crate::spoly::{lcm_of, s_polynomial};
use ffc_field::Field;
use ffc_line::Line;
use ffc_mono::{Mono, MonoOrder, MonoStop};
use ffc_poly::Poly;
use std::alloc::{AllocError, Global};
use std::cmp::Ordering;

/// What is compared of the S-polynomial of two lines.
#[derive(Drop)]
pub(crate) struct Whole {
    /// The least common multiple of the leading monomials of the lines.
    lcm: Mono,
    /// The leading monomial of the S-polynomial, where it is not 0.
    lead: Option<Mono>,
}

/// The leading monomial of a polynomial.
fn lead_of<F: Field, O: MonoOrder>(
    alloc: Global,
    poly: &Poly<F, O>,
) -> Result<Option<Mono>, AllocError>
    ensures none { IfOk result (λ o. IfNone o (poly.now ≡ [])) }
    ensures some { IfOk result (λ o. IfSome o (λ k. (e : ℕ) × IsLeading F.ORDER O.cmp poly.now e k)) }
{
    let Some((_, lead)) = poly.lead() else {
        return Ok(None);
    };
    Ok(Some(lead.to_mono(alloc)?))
}

/// What is compared of two lines that are not 0, where no limit is passed.
fn whole_of<F: Field, O: MonoOrder>(
    alloc: Global,
    lines: &[Line<F, O>],
    i: usize,
    j: usize,
) -> Result<Option<Whole>, AllocError>
    requires first { i < length lines.now }
    requires second { j < length lines.now }
    ensures { IfOk result (λ o. IfSome o (IsWholeOfPair F.ORDER O.cmp (polys_of lines.now) i j)) }
{
    let a = &lines[i].poly;
    let b = &lines[j].poly;
    let Some(m) = a.lead() else {
        return Ok(None);
    };
    let Some(n) = b.lead() else {
        return Ok(None);
    };
    let lcm = match lcm_of(alloc, m.1, n.1) {
        Ok(lcm) => lcm,
        Err(stop) => {
            past_limit(stop)?;
            return Ok(None);
        }
    };
    let found = match s_polynomial(alloc, lines, i, j) {
        Ok(found) => found,
        Err(stop) => {
            past_limit(stop)?;
            return Ok(None);
        }
    };
    let Some(spoly) = found else {
        return Ok(None);
    };
    let _length = spoly.poly.len();
    let lead = lead_of(alloc, &spoly.poly)?;
    Ok(Some(Whole { lcm, lead }))
}

/// Whether an S-polynomial, raised to a common multiple, has no leading monomial above this one.
fn is_no_higher<O: MonoOrder>(part: &Whole, top: &Mono, lead: &Mono) -> Result<bool, AllocError>
    ensures { IfOk result (λ b. IsTrue b → IsNoHigher O.cmp part.now top.now lead.now) }
{
    if !part.lcm.divides(top) {
        return Ok(false);
    }
    let up = top.quotient(&part.lcm)?;
    let _degree = up.degree();
    let Some(own) = &part.lead else {
        return Ok(true);
    };
    let raised = match up.mul(own) {
        Ok(raised) => raised,
        Err(MonoStop::DegreeOver) => return Ok(false),
        Err(MonoStop::Memory) => return Err(AllocError),
    };
    match O::compare(&raised, lead) {
        Ordering::Less => Ok(true),
        Ordering::Equal => Ok(true),
        Ordering::Greater => Ok(false),
    }
}

/// Whether the pair of two lines follows from the pairs of both with a third one.
fn follows<F: Field, O: MonoOrder>(
    alloc: Global,
    lines: &[Line<F, O>],
    i: usize,
    j: usize,
    third: usize,
    whole: &Whole,
) -> Result<bool, AllocError>
    requires first { i < length lines.now }
    requires second { j < length lines.now }
    requires third { third < length lines.now }
    requires whole { IsWholeOfPair F.ORDER O.cmp (polys_of lines.now) i j whole.now }
    requires lists { AreLists (polys_of lines.now) }
    requires first_closed { IsPairClosed F.ORDER O.cmp (polys_of lines.now) i third }
    requires second_closed { IsPairClosed F.ORDER O.cmp (polys_of lines.now) third j }
    ensures { IfOk result (λ b. IsTrue b → AreBothClosed F.ORDER O.cmp (polys_of lines.now) i j) }
{
    let Some(lead) = &whole.lead else {
        return Ok(false);
    };
    let Some(first) = whole_of(alloc, lines, i, third)? else {
        return Ok(false);
    };
    if !is_no_higher::<O>(&first, &whole.lcm, lead)? {
        return Ok(false);
    }
    let Some(second) = whole_of(alloc, lines, third, j)? else {
        return Ok(false);
    };
    if !is_no_higher::<O>(&second, &whole.lcm, lead)? {
        return Ok(false);
    }
    Ok(true)
}

/// The lines whose leading monomials divide the least common multiple of those of two lines. They are found before any
/// S-polynomial is made, since on sparse lines there are mostly none but the two.
fn thirds_of<F: Field, O: MonoOrder>(
    alloc: Global,
    lines: &[Line<F, O>],
    index: &Index,
    i: usize,
    j: usize,
) -> Result<Vec<usize>, AllocError>
    requires index { IsIndexOf F.ORDER O.cmp (polys_of lines.now) index.now }
    requires first { i < length lines.now }
    requires second { j < length lines.now }
    ensures { IfOk result (λ found. All (λ k. k < length lines.now) found.items) }
{
    let Some(m) = lines[i].poly.lead() else {
        return Ok(Vec::new(alloc));
    };
    let Some(n) = lines[j].poly.lead() else {
        return Ok(Vec::new(alloc));
    };
    match lcm_of(alloc, m.1, n.1) {
        Ok(lcm) => divisors(alloc, lines, index, lcm.as_ref()),
        Err(stop) => {
            past_limit(stop)?;
            Ok(Vec::new(alloc))
        }
    }
}

/// Whether the pair of two lines follows from its pairs with a third one, which are done.
fn is_followed<F: Field, O: MonoOrder>(
    alloc: Global,
    lines: &[Line<F, O>],
    records: &[PairRecord],
    i: usize,
    j: usize,
    third: usize,
    whole: &Whole,
) -> Result<bool, AllocError>
    requires first { i < length lines.now }
    requires second { j < length lines.now }
    requires third { third < length lines.now }
    requires whole { IsWholeOfPair F.ORDER O.cmp (polys_of lines.now) i j whole.now }
    requires lists { AreLists (polys_of lines.now) }
    requires records { AreRecords F.ORDER O.cmp (polys_of lines.now) records.now }
    ensures { IfOk result (λ b. IsTrue b → AreBothClosed F.ORDER O.cmp (polys_of lines.now) i j) }
{
    if !is_led_by_divisor(&lines[third].poly, &whole.lcm) {
        return Ok(false);
    }
    if !is_closed_between(lines, records, i, third) {
        return Ok(false);
    }
    if !is_closed_between(lines, records, third, j) {
        return Ok(false);
    }
    follows(alloc, lines, i, j, third, whole)
}

/// Whether the pair of two lines follows from pairs that are done, by the leading monomials of their S-polynomials.
pub(crate) fn follows_by_leads<F: Field, O: MonoOrder>(
    alloc: Global,
    lines: &[Line<F, O>],
    index: &Index,
    records: &[PairRecord],
    i: usize,
    j: usize,
) -> Result<bool, AllocError>
    requires index { IsIndexOf F.ORDER O.cmp (polys_of lines.now) index.now }
    requires first { i < length lines.now }
    requires second { j < length lines.now }
    requires records { AreRecords F.ORDER O.cmp (polys_of lines.now) records.now }
    requires lists { AreLists (polys_of lines.now) }
    ensures { IfOk result (λ b. IsTrue b → AreBothClosed F.ORDER O.cmp (polys_of lines.now) i j) }
{
    let thirds = thirds_of(alloc, lines, index, i, j)?;
    // The two lines are among them.
    if thirds.len() <= 2 {
        return Ok(false);
    }
    let Some(whole) = whole_of(alloc, lines, i, j)? else {
        return Ok(false);
    };
    for third in &thirds {
        if is_followed(alloc, lines, records, i, j, *third, &whole)? {
            return Ok(true);
        }
    }
    Ok(false)
}
