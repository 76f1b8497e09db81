//! What sums of multiples of what propagation forces say of a check (`combination`): the difference of the sides of each equality
//! that is forced is a generator, and so is that difference times a variable of its own less 1 where the negation is forced. Where
//! a sum of multiples of the generators up to some degree is a constant other than 0, the check is refuted. Where such sums are the
//! constants of a flat check less residues, these are the only values that they can have, and are tested.
#![tactic(auto)]

mod attempts;
mod choices;
mod combined;
mod generators;
mod literals;
mod refuting;
mod search;
mod solving;
mod values;

pub use combined::Combined;
pub use refuting::combination;
