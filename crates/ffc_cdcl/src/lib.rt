//! Clause learning with a theory in the loop (Marques-Silva and Sakallah 1996; Moskewicz, Madigan, Zhao, Zhang and Malik 2001;
//! Eén and Sörensson 2003). A refutation is given as clauses with hints.
#![tactic(auto)]

mod analysis;
mod answer;
mod arena;
mod assumed;
pub mod laws;
mod learning;
mod lesson;
mod literal;
mod loading;
mod minimizing;
mod order;
mod pace;
mod packed;
mod refute;
mod search;
mod settled;
mod solve;
mod solver;
mod steering;
mod theory;
mod trail;
mod walk;
mod watches;

pub use answer::{Hint, HintedClause, Outcome};
pub use literal::{Lit, Literals};
pub use solver::Solver;
pub use theory::{Theory, TheoryAnswer};
