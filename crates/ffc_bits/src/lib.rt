//! Bits as integers: what linear equations of bits force where their sums are too small to reach the order of the field.
//!
//! A sum of multiples of bits that stays between the order and its negation is 0 modulo the order only where it is 0 (the binary
//! value principle; Alekseev, Grigoriev, Hirsch and Tzameret 2020). So the linear lines of a stack in bits are integer equations,
//! and `Reasoning` propagates them as pseudo-Boolean constraints: by bounds, and by the lowest powers of two. What it derives are
//! lines that no completion of the stack gives; `Derived` keeps them with their reasons, for the tree in which they are written.
#![tactic(auto)]

mod clashes;
mod combining;
mod cuts;
mod derived;
mod equation;
mod forms;
mod gates;
mod integers;
mod known;
mod models;
mod polynomials;
mod reasoning;
mod relations;
mod rewriting;
mod system;

pub use derived::{Derived, Reason, Source, Step, StepId};
pub use forms::bit_of;
pub use reasoning::{Reasoning, Said};
pub use rewriting::square_less;
pub use system::Consequence;
