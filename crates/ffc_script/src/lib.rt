//! A script command by command, from bytes in any pieces.
//!
//! What a text says is said over the whole text (`reads` of `ffc_smt`). A `ScriptReader` is fed pieces of a text and gives
//! its commands one by one.
#![tactic(auto)]

mod laws;
mod reader;
mod stop;

pub use laws::long_texts_are_cut;
pub use reader::ScriptReader;
pub use stop::ScriptStop;
