//! Monomials as slices of powers: pairs of variable and exponent, with strictly increasing variables and exponents of at
//! least 1.
ghost use Rattle.std.specs.Prelude.{◌≡◌, ◌+◌, ◌^◌, ◌<◌, ◌++◌, OnOk};
ghost use Rattle.ffc_ring.specs.Monomial.{IsMonomial, degree, mono_mul};
ghost use Rattle.ffc_ckpoly.specs.Sorted.{word_order};

use std::alloc::AllocError;
use std::cmp::Ordering;

/// A variable and its exponent.
pub type Power = (u32, u64);

/// The order in which terms are kept.
pub fn compare(m: &[Power], n: &[Power]) -> Ordering
    ensures { result ≡ word_order m.now n.now }
{
    m.cmp(&n)
}

/// Appends the powers of the product of two monomials, in one walk over both.
pub fn append_product(out: &mut Vec<Power>, m: &[Power], n: &[Power]) -> Result<(), AllocError>
    requires m_is { IsMonomial m.now }
    requires n_is { IsMonomial n.now }
    requires fits { degree m.now + degree n.now < 2 ^ 64 }
    ensures { OnOk result (out.new.items ≡ out.old.items ++ mono_mul m.now n.now) }
{
    let mut left = m;
    let mut right = n;
    while let (Some((p, left_rest)), Some((q, right_rest))) = (
        left.split_first(),
        right.split_first(),
    ) {
        if p.0 < q.0 {
            out.push(*p)?;
            left = left_rest;
        } else if q.0 < p.0 {
            out.push(*q)?;
            right = right_rest;
        } else {
            out.push((p.0, p.1 + q.1))?;
            left = left_rest;
            right = right_rest;
        }
    }
    out.extend_from_slice(left)?;
    out.extend_from_slice(right)?;
    Ok(())
}

/// Appends powers whose exponents have 32 bits.
pub fn append_written(out: &mut Vec<Power>, m: &[(u32, u32)]) -> Result<(), AllocError>
    ensures { OnOk result (out.new.items ≡ out.old.items ++ m.now) }
{
    for power in m {
        out.push((power.0, u64::from(power.1)))?;
    }
    Ok(())
}

/// The sum of exponents of 32 bits: there are fewer than 2^32 variables, so it fits 64 bits.
pub fn written_degree(m: &[(u32, u32)]) -> u64
    requires { IsMonomial m.now }
    ensures value { result ≡ degree m.now }
    ensures fits { degree m.now < 2 ^ 64 }
{
    let mut sum = 0;
    let mut next = 0;
    for (variable, exponent) in m {
        let fits = *variable;
        let small = *exponent;
        sum += small as u64;
        next = fits as u64 + 1;
    }
    let _ = next;
    sum
}

/// The sum of the exponents.
pub fn degree(m: &[Power]) -> u64
    requires { degree m.now < 2 ^ 64 }
    ensures { result ≡ degree m.now }
{
    let mut sum = 0;
    for power in m {
        sum += power.1;
    }
    sum
}
