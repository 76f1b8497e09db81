//! Polynomials in one variable over a field, and powers modulo a polynomial.
#![tactic(auto)]

mod chain;
mod coefficient;
pub mod laws;
mod power;
mod row;
mod uni;

pub use chain::{Chain, Steps, pow_mod_chain};
pub use power::pow_mod;
pub use uni::Uni;
