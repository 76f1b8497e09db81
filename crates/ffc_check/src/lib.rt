//! The checker: entries of certificates, judged line by line.
//!
//! An entry is judged by the nodes of its check alone: what it is judged by, and what it has to be, is said in
//! `specs/Judged.antt` over the definitions of `ffc_rules`.
#![tactic(auto)]

mod arena;
mod assigning;
mod assumed;
mod cases;
mod check;
mod hints;
mod lemmas;
mod schemes;
mod stop;
mod values;
mod walk;

pub use check::check_entry;
pub use stop::{Broken, CheckStop};
