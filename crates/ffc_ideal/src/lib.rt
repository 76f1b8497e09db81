//! Ideals: Buchberger's criterion, and the questions that a completed basis answers by it.
#![tactic(auto)]

mod answers;
mod calls;
mod completing;
pub mod laws;
mod shown;

pub use answers::{IdealAnswer, IdealStop, Membership};
pub use calls::{closed_or_free, member};
