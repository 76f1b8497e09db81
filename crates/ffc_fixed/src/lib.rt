//! What the equalities of a trail fix: values of nodes, by evaluation of the terms in both directions.
//!
//! A node whose children have values has one; so has the last child of a sum or a product whose other children and itself have
//! values, and one side of an equality that holds where the other side has one. Two sides whose values are not as the trail says
//! clash, long before all that matters has a value. What is found is tested by the caller.
#![tactic(auto)]

mod arithmetic;
mod explaining;
mod fixed;
mod known;
mod users;

pub use fixed::Fixed;
