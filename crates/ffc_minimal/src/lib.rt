//! Minimal polynomials of variables modulo an ideal, where it has finitely many points in them (Faugère, Gianni, Lazard and Mora,
//! "Efficient computation of zero-dimensional Gröbner bases by change of ordering", 1993; to solve equations over finite fields
//! by their roots: Ozdemir, Kremer, Tinelli and Barrett, "Satisfiability modulo finite fields", 2023).
#![tactic(auto)]

mod dependency;
mod echelon;
mod finite;
mod minimal;
mod multiples;
mod sums;

pub use finite::finite_variables;
pub use minimal::{Minimal, minimal_polynomial};
