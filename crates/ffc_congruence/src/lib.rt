//! Which nodes of a field are equal by some equalities, and why: their congruence closure.
//!
//! Nodes that are equal by the equalities are in one class (closure.rt; Downey, Sethi and Tarjan 1980). A sum of equal terms is the
//! same sum, whichever of its terms is asked for; a product of equal factors is the same product; where all but one of them have
//! values, the last one has one (looking.rt, over forms.rt); and of two products with values other than 0 a factor is the same
//! where all others are (quotients.rt), as it is of two equal products beside a factor that is not 0 (cofactors.rt). Nothing is
//! multiplied out. Each step has its reason, an edge between two ids (classes.rt), so that two equal ids lead to the few equalities
//! that this rests on: the difference of the ends of an edge is a sum of multiples of differences of earlier ones (premises.rt).
#![tactic(auto)]

mod adding;
mod arithmetic;
mod clash;
mod classes;
mod closure;
mod cofactors;
mod forms;
mod index;
mod looking;
mod nodes;
mod premises;
mod queue;
mod quotients;
mod users;

pub use arithmetic::{inverse, negative, product, sum};
pub use clash::Clash;
pub use classes::{Classes, Edge, Step, Time};
pub use closure::{Closure, Mark, Reason};
pub use cofactors::Unlike;
pub use forms::{Form, merged};
pub use index::{Index, Solved};
pub use nodes::{children, sides};
pub use premises::Premise;
pub use queue::Queue;
