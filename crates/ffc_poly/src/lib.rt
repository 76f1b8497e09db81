//! Sparse polynomials over a field, in a monomial order.
#![tactic(auto)]

mod accumulator;
mod iteration;
mod multiples;
mod poly;
mod products;
mod stop;
mod sums;
mod tail;
mod tails;
mod terms;
mod values;

pub use accumulator::Accumulator;
pub use iteration::TermIter;
pub use poly::{Poly, TERM_LIMIT};
pub use stop::PolyStop;
