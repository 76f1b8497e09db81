//! Linear checks, decided by Gaussian elimination (`linear`). Where a combination of the equations is a constant other than 0,
//! or is the form of a disequation, the check is refuted; else its constants have values at which all of it is true.
#![tactic(auto)]

mod affine;
mod deciding;
mod refuting;
mod suppositions;
mod values;

pub use deciding::{LinearAnswer, linear};
