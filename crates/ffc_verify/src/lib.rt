//! Judges a certificate for a script.
#![tactic(auto)]

mod arguments;
mod entries;
mod judge;
pub mod laws;
mod lines;
mod script;
mod stop;
mod verdicts;
mod verify;

pub use arguments::{CheckPlan, PlanStop};
pub use verify::{CheckStatus, check_main};
