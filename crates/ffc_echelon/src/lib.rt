//! Systems of affine forms over a field: an echelon form with a record of how each row was made (`eliminate`), what is left of
//! a further form (`Echelon::reduce`) and of which inputs it is a combination (`Echelon::combination`), in which columns rows lead
//! (`Echelon::leads_in`), and a common zero at which other forms are not zero (`Echelon::solution`). `solve` does all of this, with
//! unknowns that few forms have taken first.
#![tactic(auto)]

mod buffer;
mod combination;
mod elimination;
mod form;
mod grouping;
pub mod laws;
mod ordering;
mod placing;
mod reduction;
mod rests;
mod solution;
mod solving;
mod value;
mod vector;

pub use elimination::{Elimination, eliminate};
pub use form::{Echelon, Reduction};
pub use solving::{Solution, solve};
pub use vector::Vector;
