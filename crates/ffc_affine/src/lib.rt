//! The linear equalities of a group, as they are on a trail, by elimination (`ffc_echelon`): values where all are linear, or a
//! combination by which linear ones refute each other. A basis of them would be completed by each pair of lines.
#![tactic(auto)]

mod combinations;
mod system;
mod vectors;

pub use system::{Decision, System};
