//! Values 0 and 1 of variables with which integer sums are 0 and short conditions hold, by trial.
//!
//! Sums are propagated as pseudo-Boolean constraints are, by bounds and by the lowest powers of two, and conditions of a few
//! variables by the list of values that they allow. Where nothing follows, a variable is given the value that brings its sum
//! towards 0, and the other one after a conflict (Davis, Logemann and Loveland 1962). The search gives up after a bounded number
//! of conflicts: what it is for is to find values, not to show that there are none.
#![tactic(auto)]

mod assignment;
mod constraints;
mod search;

pub use constraints::{Condition, Sum};
pub use search::Puzzle;
