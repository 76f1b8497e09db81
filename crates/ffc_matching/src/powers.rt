//! Differences of equal ids, and of powers of them.
use ffc_congruence::Premise;

/// Two ids in increasing order and an exponent: the power of the first less that of the second.
pub type Difference = (u32, u32, u32);

/// The difference of two ids' powers, and whether it is the negative of the one that was asked for.
pub fn ordered(from: u32, to: u32, power: u32) -> (Difference, bool) {
    ((from.min(to), from.max(to), power), from > to)
}

/// The difference in a premise, and whether it stands there as the negative.
pub fn difference_in(premise: &Premise) -> (Difference, bool) {
    ordered(premise.from, premise.to, premise.power)
}

/// The exponents of the differences that a difference of powers is a sum of multiples of: its halves, the lesser first.
pub fn halves(power: u32) -> (u32, u32) {
    let less = power / 2;
    (less, power.saturating_sub(less))
}
