//! What unit propagation forces of a check: literals with the reasons that force them, or a refutation.
#![tactic(auto)]

pub mod laws;
mod occurrences;
mod propagation;
mod rows;
mod settling;
mod trail;

pub use propagation::{Propagated, propagate};
