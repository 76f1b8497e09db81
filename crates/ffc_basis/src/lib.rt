//! Bases of ideals, by Buchberger's algorithm, with the combination of generators that each line is.
#![tactic(auto)]

mod basis;
mod chain;
mod completion;
mod dividing;
mod index;
mod leads;
mod left;
mod pair;
mod pairing;
mod queue;
mod record;
mod reduction;
mod remainder;
mod represented;
mod spoly;

pub use basis::Basis;
pub use completion::{Completion, Progress};
pub use pair::Pairs;
pub use reduction::Reduced;
