//! Checks that are conjunctions of equations and disequations: their literals, each with the reason for which it is asserted.
#![tactic(auto)]

mod conjunction;
mod forcing;
mod walk;

pub use conjunction::Conjunction;
