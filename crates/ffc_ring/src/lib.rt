//! Monomials and polynomials over the integers modulo a prime, as definitions alone, and the laws of both.
//!
//! What is defined here uses no order of monomials and no representation. The functions do nothing when
//! they run: each states the laws in its contract, which hold for all monomials and polynomials.
#![tactic(auto)]

pub mod monomials;
pub mod polynomials;
