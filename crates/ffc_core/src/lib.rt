//! The assertions and assumptions that a refutation uses.
#![tactic(auto)]

mod checking;
mod cores;
mod marks;

pub use checking::{CoreStop, check_core};
pub use cores::core_of;
