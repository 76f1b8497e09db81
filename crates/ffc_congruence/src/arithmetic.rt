//! Residues modulo an order.

/// The residue of a number. Modulo 0 it is 0.
fn reduced(n: u128, p: u64) -> u64 {
    let p = u128::from(p);
    if p == 0 { 0 } else { (n % p) as u64 }
}

/// The same of a shorter number.
fn remainder(n: u64, p: u64) -> u64 {
    if n < p {
        n
    } else if p == 0 {
        0
    } else {
        n % p
    }
}

pub fn sum(a: u64, b: u64, p: u64) -> u64 {
    match a.checked_add(b) {
        Some(n) => remainder(n, p),
        None => reduced(u128::from(a).wrapping_add(u128::from(b)), p),
    }
}

pub fn product(a: u64, b: u64, p: u64) -> u64 {
    match a.checked_mul(b) {
        Some(n) => remainder(n, p),
        None => reduced(u128::from(a).wrapping_mul(u128::from(b)), p),
    }
}

pub fn negative(a: u64, p: u64) -> u64 {
    remainder(p.wrapping_sub(a), p)
}

/// The inverse of a residue other than 0 modulo a prime, by Euclid's algorithm.
pub fn inverse(a: u64, p: u64) -> u64 {
    let (mut rest, mut next) = (p, a);
    // How many times `a` is taken in `rest` and in `next`, modulo `p`: the signs alternate.
    let (mut before, mut factor) = (0u64, 1u64);
    let mut is_negative = false;
    for _ in 0..u128::BITS {
        if next <= 1 {
            break;
        }
        let quotient = rest / next;
        let after = rest % next;
        let grown = before.wrapping_add(quotient.wrapping_mul(factor));
        rest = next;
        next = after;
        before = factor;
        factor = grown;
        is_negative = !is_negative;
    }
    if next == 0 {
        0
    } else if is_negative {
        p.wrapping_sub(factor)
    } else {
        factor
    }
}
