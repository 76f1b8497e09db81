//! The words of a form, with their places: what readers of sorts, terms and commands look at.
#![tactic(auto)]

mod faults;
mod form_words;

pub use faults::TakeStop;
pub use ffc_lex::{FaultCode, ScriptFault};
pub use form_words::FormWords;
