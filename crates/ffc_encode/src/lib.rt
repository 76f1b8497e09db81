//! Clauses and polynomials of nodes, for the solver.
#![tactic(auto)]

mod clauses;
mod leaves;
mod order;
mod polynomials;
mod products;
mod stop;
mod sums;

pub use clauses::{NodeClause, clauses_of};
pub use polynomials::{Polynomials, poly_of};
pub use stop::EncodeStop;
