//! Macaulay's matrix of a degree: the rows are the multiples of generators by monomials up to that degree, and the columns the
//! monomials. Elimination finds a sum of multiples that is a constant other than 0, or there is none (`identity`), and then which
//! variables less a residue are such sums (`solved`). How large the matrix is, is known before (`counted`).
#![tactic(auto)]

mod columns;
mod counting;
mod finding;
pub mod laws;
mod matrix;
mod monomials;
mod multiples;
pub mod rows;
mod solving;

pub use counting::{MOST, counted};
pub use finding::identity;
pub use solving::{Solution, solved};
