//! The nodes of terms, made from their code.
#![tactic(auto)]

mod making;

pub use making::make;
