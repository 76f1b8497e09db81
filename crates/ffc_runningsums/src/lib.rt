//! Refutations of sums of bits that are named step by step: where s1 = s0 + b0, s2 = s1 + 2*b1 and so on, each s has few values,
//! by what it is from one end of the sums and by what it is from the other. Where no value serves both, the equations have no
//! common zero.
//!
//! A bit more doubles the values, so the two ends meet with about the square roots of what all bits can be. The values of a
//! variable are the roots of a polynomial of which lines of a tree show that it is 0 (writing.rt), and a Bezout identity of two
//! of these without a common root closes the tree (polynomials.rt). Where two bits are not equal, the two cases of them are
//! tried (refuting.rt). All is on residues, so it is no generic code. What is found is tested by the caller.
#![tactic(auto)]

mod arithmetic;
mod polynomials;
mod reaching;
mod refuting;
mod system;
mod writing;

pub use refuting::Sums;
pub use system::{Difference, Shape};
