//! A basis in levels: generators are pushed and popped, and what was completed below them stays.
#![tactic(auto)]

mod generators;
pub mod laws;
mod stack;

pub use stack::BasisStack;
