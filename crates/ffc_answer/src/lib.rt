//! The answers to the commands of a script.
//!
//! What a script is answered is said in `specs/Answers.antt`, over its commands and the entries of its checks.
#![tactic(auto)]

mod answering;
mod constants;
mod cores;
pub mod laws;
mod models;
mod reasons;
pub mod rows;
mod texts;
mod verdicts;
mod view;

pub use answering::write_answer;
pub use verdicts::{error_line, verdict_of};
pub use view::View;
