//! Sums of ordered lists of terms.
ghost use Rattle.std.specs.Prelude.{◌≡◌, ◌≢◌, ℕ, ◌<◌, ◌≤◌, ◌⊎◌, ◌↔◌, [], ◌∷◌, ◌++◌, length, get_or, set, drop, ◌+◌};
ghost use Rattle.std.specs.Prelude.{false, IsTrue, IsNone, IfOk, IfSome, OnOk, OnErr, MatchOption};
ghost use Rattle.ffc_ring.specs.Polynomial.{SamePolynomial, PassesTerms, scaled};
ghost use Rattle.ffc_mono.specs.Leading.{IsLeading};
ghost use Rattle.ffc_poly.specs.Ordered.{sum_of, IsOrdered, kept};
ghost use Rattle.ffc_poly.specs.Tails.{AreOrdered, lead_of, AreEmpty, IsHighest, IsAlone, IsRival, IsTop};

use crate::sums::{add_scaled, add_scaled_from, scale_terms};
use crate::tail::Tail;
use crate::terms::TermList;
use ffc_field::Field;
use ffc_mono::{DEGREE_LIMIT, Mono, MonoOrder};
use std::alloc::{AllocError, Global};
use std::cmp::Ordering;

/// Merges the last two lists where the last one is more than half as long as the one before it. Without memory they stay.
fn merge_last<F: Field, O: MonoOrder>(tails: &mut Vec<Tail<F>>) -> bool
    requires { AreOrdered F.ORDER O.cmp DEGREE_LIMIT tails.old.items }
    ensures ordered { AreOrdered F.ORDER O.cmp DEGREE_LIMIT tails.new.items }
    ensures same { SamePolynomial F.ORDER (sum_of tails.new.items) (sum_of tails.old.items) }
    ensures shorter { IsTrue result → length tails.new.items < length tails.old.items }
{
    let count = tails.len();
    if count < 2 {
        return false;
    }
    let a = &tails[count - 2];
    let b = &tails[count - 1];
    if b.len() <= a.len() / 2 {
        return false;
    }
    let alloc = *tails.allocator();
    let Ok(merged) = add_scaled_from::<F, O>(alloc, &a.terms, a.from, F::of(1), &b.terms, b.from)
    else {
        return false;
    };
    tails.pop();
    tails[count - 2] = Tail::new(merged);
    true
}

/// Merges the last two lists until the last is at most half as long as the one before it, as far as there is memory.
pub fn settle<F: Field, O: MonoOrder>(tails: &mut Vec<Tail<F>>)
    requires { AreOrdered F.ORDER O.cmp DEGREE_LIMIT tails.old.items }
    ensures ordered { AreOrdered F.ORDER O.cmp DEGREE_LIMIT tails.new.items }
    ensures same { SamePolynomial F.ORDER (sum_of tails.new.items) (sum_of tails.old.items) }
{
    while merge_last::<F, O>(tails) {}
}

/// The sum of the lists as one, from the last to the first.
pub fn merged<F: Field, O: MonoOrder>(
    alloc: Global,
    tails: &[Tail<F>],
) -> Result<TermList<F>, AllocError>
    requires { AreOrdered F.ORDER O.cmp DEGREE_LIMIT tails.now }
    ensures ordered { IfOk result (λ v. IsOrdered F.ORDER O.cmp DEGREE_LIMIT v) }
    ensures same { IfOk result (λ v. SamePolynomial F.ORDER v (sum_of tails.now)) }
{
    let mut whole = TermList::new(alloc);
    let mut left = tails;
    while let Some((last, rest)) = left.split_last() {
        whole = add_scaled_from::<F, O>(alloc, &last.terms, last.from, F::of(1), &whole, 0)?;
        left = rest;
    }
    Ok(whole)
}

/// The sum of the lists and c times an ordered list as one, for a constant c other than 0.
pub fn merged_with_multiple<F: Field, O: MonoOrder>(
    alloc: Global,
    tails: &[Tail<F>],
    c: F,
    terms: &TermList<F>,
) -> Result<TermList<F>, AllocError>
    requires tails_are { AreOrdered F.ORDER O.cmp DEGREE_LIMIT tails.now }
    requires terms_are { IsOrdered F.ORDER O.cmp DEGREE_LIMIT terms.now }
    requires c_is { F.value c ≢ 0 }
    ensures ordered { IfOk result (λ v. IsOrdered F.ORDER O.cmp DEGREE_LIMIT v) }
    ensures same { IfOk result (λ v. SamePolynomial F.ORDER v (sum_of tails.now ++ scaled (F.value c) terms.now)) }
{
    let whole = merged::<F, O>(alloc, tails)?;
    add_scaled::<F, O>(alloc, &whole, c, terms)
}

/// Appends a list.
fn append<F: Field>(tails: &mut Vec<Tail<F>>, terms: TermList<F>) -> Result<(), AllocError>
    ensures appended { OnOk result (tails.new.items ≡ tails.old.items ++ terms ∷ []) }
    ensures unchanged { OnErr result (tails.new.items ≡ tails.old.items) }
{
    tails.push(Tail::new(terms))?;
    Ok(())
}

/// Appends c times an ordered list, for a constant c other than 0, and settles the lists. Without memory nothing
/// changes.
pub fn append_multiple<F: Field, O: MonoOrder>(
    tails: &mut Vec<Tail<F>>,
    c: F,
    terms: &TermList<F>,
) -> Result<(), AllocError>
    requires tails_are { AreOrdered F.ORDER O.cmp DEGREE_LIMIT tails.old.items }
    requires terms_are { IsOrdered F.ORDER O.cmp DEGREE_LIMIT terms.now }
    requires c_is { F.value c ≢ 0 }
    ensures ordered { AreOrdered F.ORDER O.cmp DEGREE_LIMIT tails.new.items }
    ensures same { OnOk result (SamePolynomial F.ORDER (sum_of tails.new.items)
        (sum_of tails.old.items ++ scaled (F.value c) terms.now)) }
    ensures unchanged { OnErr result (tails.new.items ≡ tails.old.items) }
{
    let alloc = *tails.allocator();
    let multiple = scale_terms::<F, O>(alloc, c, terms)?;
    append(tails, multiple)?;
    settle::<F, O>(tails);
    Ok(())
}

/// A list of one.
pub fn single<F: Field>(alloc: Global, terms: TermList<F>) -> Result<Vec<Tail<F>>, AllocError>
    ensures items { IfOk result (λ v. v.items ≡ terms ∷ []) }
    ensures sum { IfOk result (λ v. sum_of v.items ≡ terms) }
{
    let mut tails = Vec::new(alloc);
    tails.push(Tail::new(terms))?;
    Ok(tails)
}

/// Whether the lists have at most so many terms together.
pub fn is_within<F: Field>(tails: &[Tail<F>], limit: usize) -> bool
    ensures { IsTrue result → length (sum_of tails.now) ≤ limit }
{
    let mut left = limit;
    for tail in tails {
        let count = tail.len();
        if count > left {
            return false;
        }
        left -= count;
    }
    true
}

/// Which of two places has the higher leading monomial, where the first may be none and the second list be empty.
fn higher<F: Field, O: MonoOrder>(tails: &[Tail<F>], best: Option<usize>, i: usize) -> Option<usize>
    requires place { i < length tails.now }
    requires so_far { MatchOption best (AreEmpty tails.now i) (λ b. IsHighest O.cmp tails.now i b) }
    ensures { MatchOption result (AreEmpty tails.now (i + 1)) (λ b. IsHighest O.cmp tails.now (i + 1) b) }
{
    let next = &tails[i];
    if next.len() == 0 {
        return best;
    }
    let Some(b) = best else {
        return Some(i);
    };
    let old = &tails[b];
    if O::compare_borrowed(old.first().1, next.first().1) == Ordering::Less {
        Some(i)
    } else {
        best
    }
}

/// The place of a list whose leading monomial is below none of the others', or none where all lists are empty.
fn highest<F: Field, O: MonoOrder>(tails: &[Tail<F>]) -> Option<usize>
    ensures { MatchOption result (AreEmpty tails.now (length tails.now))
        (λ b. IsHighest O.cmp tails.now (length tails.now) b) }
{
    let mut best = None;
    for i in 0..tails.len() {
        best = higher::<F, O>(tails, best, i);
    }
    best
}

/// Whether the list at j is another one than that at i and has the same leading monomial.
fn is_rival<F: Field>(tails: &[Tail<F>], i: usize, j: usize) -> bool
    requires first { i < length tails.now }
    requires second { j < length tails.now }
    requires some { 0 < length (get_or tails.now i []) }
    ensures rival { IsTrue result → IsRival tails.now i j }
    ensures other { result ≡ false → j ≢ i → (get_or tails.now j [] ≡ [])
        ⊎ (lead_of tails.now j ≢ lead_of tails.now i) }
{
    if j == i {
        return false;
    }
    let one = &tails[i];
    let other = &tails[j];
    if other.len() == 0 {
        return false;
    }
    other.first().1 == one.first().1
}

/// The place of another list with the same leading monomial.
fn rival_of<F: Field>(tails: &[Tail<F>], i: usize) -> Option<usize>
    requires place { i < length tails.now }
    requires some { 0 < length (get_or tails.now i []) }
    ensures { MatchOption result (IsAlone tails.now (length tails.now) i) (λ j. IsRival tails.now i j) }
{
    for j in 0..tails.len() {
        if is_rival(tails, i, j) {
            return Some(j);
        }
    }
    None
}

/// Takes the first term of a list off.
fn drop_first_of<F: Field>(tails: &mut Vec<Tail<F>>, i: usize)
    requires place { i < length tails.old.items }
    requires some { 0 < length (get_or tails.old.items i []) }
    ensures { tails.new.items ≡ set tails.old.items i (drop 1 (get_or tails.old.items i [])) }
{
    let tail = &mut tails[i];
    tail.drop_first();
}

/// Puts another coefficient in place of that of the first term of a list.
fn set_first_of<F: Field>(tails: &mut Vec<Tail<F>>, i: usize, c: F)
    requires place { i < length tails.old.items }
    requires some { 0 < length (get_or tails.old.items i []) }
    ensures { tails.new.items ≡ set tails.old.items i ((F.value c, lead_of tails.old.items i)
        ∷ drop 1 (get_or tails.old.items i [])) }
{
    let tail = &mut tails[i];
    tail.set_first(c);
}

/// The coefficient of the first term of a list.
fn coefficient_of<F: Field>(tails: &[Tail<F>], i: usize) -> F
    requires place { i < length tails.now }
    requires some { 0 < length (get_or tails.now i []) }
    ensures { F.value result ≡ (get_or (get_or tails.now i []) 0 (0, [])).0 }
{
    let tail = &tails[i];
    tail.first().0
}

/// The first term of a list.
fn first_of<F: Field>(alloc: Global, tails: &[Tail<F>], i: usize) -> Result<(F, Mono), AllocError>
    requires place { i < length tails.now }
    requires some { 0 < length (get_or tails.now i []) }
    ensures { IfOk result (λ t. (F.value t.0, t.1) ≡ get_or (get_or tails.now i []) 0 (0, [])) }
{
    let tail = &tails[i];
    let (c, m) = tail.first();
    let monomial = m.to_mono(alloc)?;
    Ok((c, monomial))
}

/// Gives the first term of a list another coefficient, or takes the term off where that is 0.
fn replace_first_of<F: Field>(tails: &mut Vec<Tail<F>>, i: usize, c: F)
    requires place { i < length tails.old.items }
    requires some { 0 < length (get_or tails.old.items i []) }
    ensures { tails.new.items ≡ set tails.old.items i (kept (F.value c) (lead_of tails.old.items i)
        (drop 1 (get_or tails.old.items i []))) }
{
    if c.residue() == 0 {
        drop_first_of(tails, i);
    } else {
        set_first_of(tails, i, c);
    }
}

/// Merges the first terms of two lists, which have the same monomial.
fn merge_firsts<F: Field, O: MonoOrder>(tails: &mut Vec<Tail<F>>, i: usize, j: usize)
    requires ordered { AreOrdered F.ORDER O.cmp DEGREE_LIMIT tails.old.items }
    requires place { i < length tails.old.items }
    requires some { 0 < length (get_or tails.old.items i []) }
    requires rival { IsRival tails.old.items i j }
    ensures ordered { AreOrdered F.ORDER O.cmp DEGREE_LIMIT tails.new.items }
    ensures same { SamePolynomial F.ORDER (sum_of tails.new.items) (sum_of tails.old.items) }
    ensures shorter { length (sum_of tails.new.items) < length (sum_of tails.old.items) }
{
    let c = coefficient_of(tails.as_slice(), i);
    let d = coefficient_of(tails.as_slice(), j);
    drop_first_of(tails, j);
    replace_first_of(tails, i, c.add(d));
}

/// Merges equal leading terms until one list has the leading monomial alone. It answers the list's place, or none where
/// all lists are empty.
fn settled<F: Field, O: MonoOrder>(tails: &mut Vec<Tail<F>>) -> Option<usize>
    requires { AreOrdered F.ORDER O.cmp DEGREE_LIMIT tails.old.items }
    ensures ordered { AreOrdered F.ORDER O.cmp DEGREE_LIMIT tails.new.items }
    ensures same { SamePolynomial F.ORDER (sum_of tails.new.items) (sum_of tails.old.items) }
    ensures found { MatchOption result (AreEmpty tails.new.items (length tails.new.items))
        (λ i. IsTop O.cmp tails.new.items i) }
{
    loop {
        let Some(i) = highest::<F, O>(tails.as_slice()) else {
            return None;
        };
        let Some(j) = rival_of(tails.as_slice(), i) else {
            return Some(i);
        };
        merge_firsts::<F, O>(tails, i, j);
    }
}

/// The place of the list that begins with the leading term of the sum, and that term, or none at zero. Leading terms
/// that cancel are dropped as they are met.
pub fn settled_lead<F: Field, O: MonoOrder>(
    tails: &mut Vec<Tail<F>>,
) -> Result<Option<(usize, (F, Mono))>, AllocError>
    requires { AreOrdered F.ORDER O.cmp DEGREE_LIMIT tails.old.items }
    ensures ordered { AreOrdered F.ORDER O.cmp DEGREE_LIMIT tails.new.items }
    ensures same { SamePolynomial F.ORDER (sum_of tails.new.items) (sum_of tails.old.items) }
    ensures zero { IfOk result (λ o. IsNone o ↔ SamePolynomial F.ORDER (sum_of tails.old.items) []) }
    ensures leading { IfOk result (λ o. IfSome o
        (λ t. IsLeading F.ORDER O.cmp (sum_of tails.old.items) (F.value t.1.0) t.1.1)) }
    ensures top { IfOk result (λ o. IfSome o (λ t. IsTop O.cmp tails.new.items t.0)) }
    ensures first { IfOk result (λ o. IfSome o
        (λ t. (F.value t.1.0, t.1.1) ≡ get_or (get_or tails.new.items t.0 []) 0 (0, []))) }
{
    let alloc = *tails.allocator();
    let Some(i) = settled::<F, O>(tails) else {
        return Ok(None);
    };
    let first = first_of(alloc, tails.as_slice(), i)?;
    Ok(Some((i, first)))
}

/// Takes the leading term of the sum off, with which the list at this place begins.
pub fn drop_lead<F: Field, O: MonoOrder>(tails: &mut Vec<Tail<F>>, i: usize)
    requires ordered { AreOrdered F.ORDER O.cmp DEGREE_LIMIT tails.old.items }
    requires top { IsTop O.cmp tails.old.items i }
    ensures ordered { AreOrdered F.ORDER O.cmp DEGREE_LIMIT tails.new.items }
    ensures rest { SamePolynomial F.ORDER (sum_of tails.old.items)
        (get_or (get_or tails.old.items i []) 0 (0, []) ∷ sum_of tails.new.items) }
    ensures fewer { (limit : ℕ) → PassesTerms F.ORDER limit (sum_of tails.new.items)
        → PassesTerms F.ORDER limit (sum_of tails.old.items) }
{
    drop_first_of(tails, i);
}
