//! Residues modulo an order.

/// The residue of a number. Modulo 0 it is 0.
fn reduced(n: u128, p: u64) -> u64 {
    let p = u128::from(p);
    if p == 0 { 0 } else { (n % p) as u64 }
}

pub fn sum(a: u64, b: u64, p: u64) -> u64 {
    reduced(u128::from(a).wrapping_add(u128::from(b)), p)
}

pub fn product(a: u64, b: u64, p: u64) -> u64 {
    reduced(u128::from(a).wrapping_mul(u128::from(b)), p)
}

pub fn negative(a: u64, p: u64) -> u64 {
    reduced(u128::from(p.wrapping_sub(a)), p)
}

pub fn difference(a: u64, b: u64, p: u64) -> u64 {
    sum(a, negative(b, p), p)
}

/// The inverse of a residue other than 0 modulo a prime, by Fermat's theorem.
pub fn inverse(a: u64, p: u64) -> u64 {
    let mut power = a;
    let mut rest = p.saturating_sub(2);
    let mut inverse = reduced(1, p);
    for _ in 0..u64::BITS {
        if rest % 2 == 1 {
            inverse = product(inverse, power, p);
        }
        power = product(power, power, p);
        rest /= 2;
    }
    inverse
}
