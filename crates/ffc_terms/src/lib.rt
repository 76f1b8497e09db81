//! Sorts and terms: from the words of a form to code that makes a term's node.
#![tactic(auto)]

mod callees;
mod codes;
mod environment;
mod frames;
mod leaves;
mod named_words;
mod scope;
mod sorts;
mod terms;
mod values;
mod walk;

pub use codes::Op;
pub use environment::Names;
pub use named_words::{is_named, is_word, name_at};
pub use scope::{Macro, Meaning, Symbols};
pub use sorts::sort_at;
pub use terms::{TermRead, term_at};
