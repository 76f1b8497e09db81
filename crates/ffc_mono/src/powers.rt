//! Monomials as slices of powers: pairs of variable and exponent, with strictly increasing variables and
//! exponents of at least 1. Each function here walks its slices once, side by side.
ghost use Rattle.std.specs.Prelude.{◌≡◌, ℕ, ◌+◌, ◌^◌, ◌<◌, ◌≤◌, ◌↔◌, ◌%◌, ◌++◌, length, take, false, IsTrue, IfOk};
ghost use Rattle.std.specs.Prelude.{OnOk, OnErr, SomeIff};
ghost use Rattle.ffc_ring.specs.Monomial.{IsMonomial, degree, joined, mono_mul, mono_lcm, mono_quotient, Divides};
ghost use Rattle.ffc_ring.specs.Monomial.{AreCoprime};
ghost use Rattle.std.specs.Int.{bit_at};
ghost use Rattle.ffc_mono.specs.Joining.{joining_of};
ghost use Rattle.ffc_mono.specs.Masks.{mask_of};

use smallvec::SmallVec;
use std::alloc::{AllocError, Global};

/// The power of a variable: its number, and an exponent.
pub type Power = (u32, u32);

/// Powers in memory: up to four take none of their own.
pub type Powers = SmallVec<Power, 4>;

/// How the exponents of a variable that two monomials share are merged.
#[derive(Clone, Copy)]
pub enum Joining {
    Sum,
    Maximum,
}

impl Joining {
    /// The merged exponent.
    fn of(self, first: u32, second: u32) -> u32
        requires { first + second < 2 ^ 32 }
        ensures { result ≡ joining_of self first second }
    {
        match self {
            Joining::Sum => first + second,
            Joining::Maximum => first.max(second),
        }
    }
}

/// The total degree, where it is at most `limit`.
pub fn degree_within(powers: &[Power], limit: u32) -> Option<u32>
    requires { limit < 2 ^ 31 }
    ensures { SomeIff result (degree powers.now ≤ limit) (degree powers.now) }
{
    let mut total = 0u32;
    for (_, exponent) in powers {
        if *exponent > limit - total {
            return None;
        }
        total += *exponent;
    }
    Some(total)
}

/// The total degree.
fn degree_of(powers: &[Power]) -> u32
    requires { degree powers.now < 2 ^ 32 }
    ensures { result ≡ degree powers.now }
{
    let mut total = 0u32;
    for (_, exponent) in powers {
        total += *exponent;
    }
    total
}

/// The total degree of the least common multiple.
pub fn lcm_degree(first: &[Power], second: &[Power]) -> u32
    requires first_is { IsMonomial first.now }
    requires second_is { IsMonomial second.now }
    requires fits { degree first.now + degree second.now < 2 ^ 32 }
    ensures { result ≡ degree (mono_lcm first.now second.now) }
{
    let mut total = 0u32;
    let mut left = first;
    let mut right = second;
    while let (Some((p, left_rest)), Some((q, right_rest))) = (
        left.split_first(),
        right.split_first(),
    ) {
        if p.0 < q.0 {
            total += p.1;
            left = left_rest;
        } else if q.0 < p.0 {
            total += q.1;
            right = right_rest;
        } else {
            total += p.1.max(q.1);
            left = left_rest;
            right = right_rest;
        }
    }
    total + degree_of(left) + degree_of(right)
}

/// Two monomials merged.
pub fn joined(
    alloc: Global,
    joining: Joining,
    first: &[Power],
    second: &[Power],
) -> Result<Powers, AllocError>
    requires first_is { IsMonomial first.now }
    requires second_is { IsMonomial second.now }
    requires fits { degree first.now + degree second.now < 2 ^ 32 }
    ensures { IfOk result (λ v. v.items ≡ joined (joining_of joining) first.now second.now) }
{
    let mut out = SmallVec::new(alloc);
    let mut left = first;
    let mut right = second;
    while let (Some((p, left_rest)), Some((q, right_rest))) = (
        left.split_first(),
        right.split_first(),
    ) {
        if p.0 < q.0 {
            out.push(*p)?;
            left = left_rest;
        } else if q.0 < p.0 {
            out.push(*q)?;
            right = right_rest;
        } else {
            out.push((p.0, joining.of(p.1, q.1)))?;
            left = left_rest;
            right = right_rest;
        }
    }
    out.extend_from_slice(left)?;
    out.extend_from_slice(right)?;
    Ok(out)
}

/// Appends the product of two monomials.
pub fn append_product(
    out: &mut Vec<Power>,
    first: &[Power],
    second: &[Power],
) -> Result<(), AllocError>
    requires first_is { IsMonomial first.now }
    requires second_is { IsMonomial second.now }
    requires fits { degree first.now + degree second.now < 2 ^ 32 }
    ensures product { OnOk result (out.new.items ≡ out.old.items ++ mono_mul first.now second.now) }
    ensures unchanged { OnErr result (out.new.items ≡ out.old.items) }
{
    let place = out.len();
    let result = append_powers(out, first, second);
    if result.is_err() {
        out.truncate(place);
    }
    result
}

/// Appends the powers of the product of two monomials, or some of them.
fn append_powers(out: &mut Vec<Power>, first: &[Power], second: &[Power]) -> Result<(), AllocError>
    requires first_is { IsMonomial first.now }
    requires second_is { IsMonomial second.now }
    requires fits { degree first.now + degree second.now < 2 ^ 32 }
    ensures product { OnOk result (out.new.items ≡ out.old.items ++ mono_mul first.now second.now) }
    ensures part { take (length out.old.items) out.new.items ≡ out.old.items }
{
    let mut left = first;
    let mut right = second;
    while let (Some((p, left_rest)), Some((q, right_rest))) = (
        left.split_first(),
        right.split_first(),
    ) {
        if p.0 < q.0 {
            out.push(*p)?;
            left = left_rest;
        } else if q.0 < p.0 {
            out.push(*q)?;
            right = right_rest;
        } else {
            out.push((p.0, p.1 + q.1))?;
            left = left_rest;
            right = right_rest;
        }
    }
    out.extend_from_slice(left)?;
    out.extend_from_slice(right)?;
    Ok(())
}

/// The bit of a variable in a divisor mask.
fn bit_of(variable: u32) -> u32
    ensures { result ≡ 2 ^ (variable % 32) }
{
    1u32 << (variable % 32)
}

/// The divisor mask.
pub fn mask_of(powers: &[Power]) -> u32
    ensures { result ≡ mask_of powers.now }
{
    let mut mask = 0u32;
    for power in powers {
        mask |= bit_of(power.0);
    }
    mask
}

/// Whether the masks leave it open that the first monomial divides the second.
pub fn may_divide(first: u32, second: u32) -> bool
    ensures { ((i : ℕ) → bit_at first i ≤ bit_at second i) → IsTrue result }
{
    first & !second == 0
}

/// Whether no variable occurs in both.
pub fn are_coprime(first: &[Power], second: &[Power]) -> bool
    requires first_is { IsMonomial first.now }
    requires second_is { IsMonomial second.now }
    ensures { IsTrue result ↔ AreCoprime first.now second.now }
{
    let mut left = first;
    let mut right = second;
    while let (Some((p, left_rest)), Some((q, right_rest))) = (
        left.split_first(),
        right.split_first(),
    ) {
        if p.0 == q.0 {
            return false;
        }
        if p.0 < q.0 {
            left = left_rest;
        } else {
            right = right_rest;
        }
    }
    true
}

/// Whether the first monomial divides the second. It stops at the first variable that shows that it does not.
pub fn divides(first: &[Power], second: &[Power]) -> bool
    requires first_is { IsMonomial first.now }
    requires second_is { IsMonomial second.now }
    ensures { IsTrue result ↔ Divides first.now second.now }
{
    let mut left = first;
    let mut right = second;
    while let Some((p, left_rest)) = left.split_first() {
        let Some((q, right_rest)) = right.split_first() else {
            return false;
        };
        if p.0 < q.0 {
            return false;
        }
        if p.0 == q.0 {
            if p.1 > q.1 {
                return false;
            }
            left = left_rest;
        }
        right = right_rest;
    }
    true
}

/// The first monomial divided by the second.
pub fn quotient(alloc: Global, first: &[Power], by: &[Power]) -> Result<Powers, AllocError>
    requires first_is { IsMonomial first.now }
    requires by_is { IsMonomial by.now }
    requires divides { Divides by.now first.now }
    ensures { IfOk result (λ v. v.items ≡ mono_quotient first.now by.now) }
{
    let mut out = SmallVec::new(alloc);
    let mut left = first;
    let mut right = by;
    while let (Some((p, left_rest)), Some((q, right_rest))) = (
        left.split_first(),
        right.split_first(),
    ) {
        if p.0 < q.0 {
            out.push(*p)?;
        } else {
            if q.1 < p.1 {
                out.push((p.0, p.1 - q.1))?;
            }
            right = right_rest;
        }
        left = left_rest;
    }
    out.extend_from_slice(left)?;
    Ok(out)
}
