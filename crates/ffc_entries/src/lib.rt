//! Entries of a certificate from what a search over clauses and polynomials has found.
//!
//! `model` lists the values of a check's constants. `refutation` writes the clauses that a refutation rests on: each clause has an
//! `Origin`, which says what lines it is in a certificate. A `Lemma` is a clause over equalities of one field with the case tree
//! that shows it, made over just the equalities that the tree uses; `KeptLemmas` keeps lemmas for later checks. Nothing is
//! promised of an entry: whoever asks for one tests it.
#![tactic(auto)]

mod entry;
mod kept;
mod lemma;
mod models;
mod origin;
mod renumber;

pub use entry::{Shelf, is_proved, refutation};
pub use kept::KeptLemmas;
pub use lemma::Lemma;
pub use models::{Residues, model};
pub use origin::{Origin, Origins};
