//! Conjunctions of equations and disequations in one constant (`single`): the common roots of the equations are those
//! of a common divisor of their polynomials. Where some disequation is false at each of them, the check is refuted;
//! else the constant gets the first root at which none is.
#![tactic(auto)]

mod deciding;
mod divisor;
mod euclid;
pub mod rows;
mod suppositions;
mod trials;
mod univariate;

pub use deciding::single;
