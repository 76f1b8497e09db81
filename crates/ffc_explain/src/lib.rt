//! What is said to people of scripts, certificates and their faults.
#![tactic(auto)]

mod answers;
mod checks;
mod complaints;
mod expanding;
mod faults;
mod lines;
mod names;
mod page;
mod places;
mod polynomials;
mod refutation;
mod rules;
mod schemes;
mod sorts;
mod trees;
mod values;
mod walk;

pub use answers::Answers;
pub use complaints::{write_refusal, write_script_fault};
pub use faults::{fault_name, fault_sentence};
pub use lines::write_lines;
pub use page::Page;
pub use rules::{form_name, form_sentence, rule_name, rule_sentence};
