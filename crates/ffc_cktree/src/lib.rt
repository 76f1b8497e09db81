//! The case trees of lemmas, judged line by line.
#![tactic(auto)]

mod bits;
mod cases;
mod chain;
mod extent;
mod lemma;
mod rows;
pub mod rules;
mod stop;
mod sums;
mod walk;

pub use lemma::{Kept, lemma_tree};
pub use stop::{BrokenLine, TreeStop};
pub use walk::read_tree;
