//! Refutations by the values of variables, which keep the checker's rules by the way that they are made: literals that are forced by
//! unit propagation make a lemma false, sums of multiples of its first lines are variables less their values, and at these values a
//! literal of the lemma is true (`by_values`).
#![tactic(auto)]

mod dividing;
mod narrow;
mod refuting;
mod sums;
mod tree;

pub use refuting::by_values;
