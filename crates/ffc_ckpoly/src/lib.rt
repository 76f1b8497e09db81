//! The checker's polynomials over a prime field, written apart from those of the solver.
#![tactic(auto)]

mod buffer;
mod merge;
mod multiples;
mod nodes;
mod opening;
mod poly;
mod powers;
mod products;
mod reading;
mod univariate;
mod uses;

pub use nodes::{CkStop, NodePolys, ck_poly_of};
pub use poly::CkPoly;
pub use products::CkSum;
