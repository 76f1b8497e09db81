//! Refutations by a lemma with a case tree, which keep the checker's rules by the way that they are made: literals that are forced
//! by unit propagation make a lemma false, and its tree is any that closes (`by_tree`), or the one over the roots of polynomials in
//! one variable (`by_roots`).
#![tactic(auto)]

mod cases;
mod endings;
mod euclid;
mod fitting;
mod narrow;
mod reasons;
mod roots;
mod single;
mod tree;
mod written;

pub use endings::{Ending, EuclidStep, RootCase};
pub use single::by_roots;
pub use tree::by_tree;
