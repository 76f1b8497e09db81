//! Refutations that keep the checker's rules by the way that they are made: literals that are forced by unit propagation, and then
//! a clause that is false (`by_conflict`), or a lemma over equalities that is false, with a combination of its first lines that is
//! a constant other than 0 (`by_combination`).
#![tactic(auto)]

mod combination;
mod narrow;
mod reason;
mod refutation;

pub use combination::{Determined, Summand};
pub use reason::Reason;
pub use refutation::{by_combination, by_conflict};
