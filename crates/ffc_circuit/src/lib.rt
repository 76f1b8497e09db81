//! The equalities of a check as a circuit: which of them its truth rests on, what they say as polynomials, and what values follow.
//!
//! A `Walk` goes from assertions down to the equalities on which their truth rests, by the values of a trail (`Truths`), as a
//! circuit is justified from its outputs, and back where literals leave the trail. `differences` makes the polynomials of
//! equalities (`Generator`), `groups_of` parts them into groups that share no variable, and a `Ranking` numbers their variables
//! in the order in which they are to lead.
//! `values_forward` evaluates: inputs are guessed, and the other variables follow from them.
#![tactic(auto)]

mod digits;
mod equalities;
mod forward;
mod generators;
mod groups;
mod justify;
mod occurrences;
mod ranking;
mod truths;

pub use equalities::{is_of_order, sides};
pub use forward::{Inputs, values_forward};
pub use generators::{Generator, GeneratorStop, copies_at, differences, with_inverse};
pub use groups::groups_of;
pub use justify::Walk;
pub use ranking::Ranking;
pub use truths::Truths;
