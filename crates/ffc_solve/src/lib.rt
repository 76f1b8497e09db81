//! Answers scripts about finite fields, with a certificate for each answer.
#![tactic(auto)]

mod arguments;
mod dialogue;
mod generated;
mod remembered;
mod running;
mod solve;
mod stop;

pub use arguments::{Name, Plan, PlanStop};
pub use generated::make_script;
pub use solve::{SolveStatus, solve_main};
