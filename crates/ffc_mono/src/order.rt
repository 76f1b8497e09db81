//! Monomial orders.
ghost use Rattle.std.specs.Prelude.{◌≡◌};
ghost use Rattle.std.specs.declared.cmp.Ordering.{Ordering};
ghost use Rattle.ffc_ring.specs.Monomial.{Monomial};
ghost use Rattle.ffc_mono.specs.MonomialOrder.{IsMonomialOrder};
ghost use Rattle.ffc_mono.specs.Orders.{lex_cmp, reverse_lex_cmp, graded_reverse_lex_cmp, IsLexGreater};
ghost use Rattle.ffc_mono.specs.Orders.{IsGradedReverseLexGreater, AnswersBy, LexIsByFirstDifference};
ghost use Rattle.ffc_mono.specs.Orders.{GradedReverseLexIsByLastDifference};

use crate::borrowed::MonoRef;
use crate::mono::Mono;
use crate::powers::Power;
use std::cmp::Ordering;

/// A monomial order (Cox, Little and O'Shea, chapter 2, section 2). Its laws hold at all monomials, and not
/// only at those that a `Mono` can hold.
pub trait MonoOrder {
    /// The comparison, of all monomials.
    ghost cmp: { Monomial → Monomial → Ordering };

    /// Compares two borrowed monomials. It takes no memory.
    fn compare_borrowed(a: MonoRef<'_>, b: MonoRef<'_>) -> Ordering
        ensures { result ≡ cmp a.entry.powers.now b.entry.powers.now };

    /// Compares two monomials. It takes no memory.
    fn compare(a: &Mono, b: &Mono) -> Ordering
        ensures { result ≡ cmp a.now b.now }
    {
        Self::compare_borrowed(a.as_ref(), b.as_ref())
    }

    /// It is total, 1 is least, and products keep it.
    ghost laws: { IsMonomialOrder cmp };
}

/// Lexicographic order: at the lowest-numbered variable where the exponents differ, the greater exponent is
/// greater.
#[derive(Clone, Copy, Debug, PartialEq, Eq)]
pub struct Lex;

/// Graded reverse lexicographic order: the greater total degree is greater; at equal degree, at the
/// highest-numbered variable where the exponents differ, the smaller exponent is greater.
#[derive(Clone, Copy, Debug, PartialEq, Eq)]
pub struct GradedReverseLex;

impl MonoOrder for Lex {
    ghost use Rattle.ffc_mono.specs.OrderLaws.{lex_laws};

    ghost cmp = { lex_cmp };

    ghost laws = { lex_laws };

    fn compare_borrowed(a: MonoRef<'_>, b: MonoRef<'_>) -> Ordering
        ensures value { result ≡ lex_cmp a.entry.powers.now b.entry.powers.now }
        ensures words { AnswersBy IsLexGreater a.entry.powers.now b.entry.powers.now result }
    {
        first_difference(a.pairs(), b.pairs())
    }

    fn compare(a: &Mono, b: &Mono) -> Ordering
        ensures value { result ≡ lex_cmp a.now b.now }
        ensures words { AnswersBy IsLexGreater a.now b.now result }
    {
        Self::compare_borrowed(a.as_ref(), b.as_ref())
    }
}

impl MonoOrder for GradedReverseLex {
    ghost use Rattle.ffc_mono.specs.OrderLaws.{graded_reverse_lex_laws};

    ghost cmp = { graded_reverse_lex_cmp };

    ghost laws = { graded_reverse_lex_laws };

    fn compare_borrowed(a: MonoRef<'_>, b: MonoRef<'_>) -> Ordering
        ensures value { result ≡ graded_reverse_lex_cmp a.entry.powers.now b.entry.powers.now }
        ensures words { AnswersBy IsGradedReverseLexGreater a.entry.powers.now b.entry.powers.now result }
    {
        let by_degree = a.degree().cmp(&b.degree());
        if by_degree.is_ne() {
            return by_degree;
        }
        last_difference(a.pairs(), b.pairs())
    }

    fn compare(a: &Mono, b: &Mono) -> Ordering
        ensures value { result ≡ graded_reverse_lex_cmp a.now b.now }
        ensures words { AnswersBy IsGradedReverseLexGreater a.now b.now result }
    {
        Self::compare_borrowed(a.as_ref(), b.as_ref())
    }
}

/// Compares by the first powers that differ.
fn first_difference(a: &[Power], b: &[Power]) -> Ordering
    ensures { result ≡ lex_cmp a.now b.now }
{
    let mut left = a;
    let mut right = b;
    while let (Some((p, left_rest)), Some((q, right_rest))) = (
        left.split_first(),
        right.split_first(),
    ) {
        let by_power = q.0.cmp(&p.0).then(p.1.cmp(&q.1));
        if by_power.is_ne() {
            return by_power;
        }
        left = left_rest;
        right = right_rest;
    }
    left.len().cmp(&right.len())
}

/// Compares by the last powers that differ.
fn last_difference(a: &[Power], b: &[Power]) -> Ordering
    ensures { result ≡ reverse_lex_cmp a.now b.now }
{
    let mut left = a;
    let mut right = b;
    while let (Some((p, left_rest)), Some((q, right_rest))) = (
        left.split_last(),
        right.split_last(),
    ) {
        let by_power = q.0.cmp(&p.0).then(q.1.cmp(&p.1));
        if by_power.is_ne() {
            return by_power;
        }
        left = left_rest;
        right = right_rest;
    }
    right.len().cmp(&left.len())
}

/// Lexicographic order is by the first variable where the exponents differ, at all monomials.
pub fn lex_order()
    ensures { LexIsByFirstDifference }
{}

/// Graded reverse lexicographic order is by the total degree and then by the last variable where the
/// exponents differ, at all monomials.
pub fn graded_reverse_lex_order()
    ensures { GradedReverseLexIsByLastDifference }
{}
