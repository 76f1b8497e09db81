//! The triangular search: a common zero of the generators of a stack of lines, or a case tree that shows that there is none
//! (cases by roots as in Ozdemir, Kremer, Tinelli and Barrett, "Satisfiability Modulo Finite Fields", 2023).
#![tactic(auto)]

mod accepting;
mod answers;
mod bits;
mod bitsums;
mod branches;
mod choosing;
mod differences;
mod effort;
mod few;
mod following;
mod inverses;
mod points;
mod reducing;
mod roots;
mod rounds;
mod searching;
mod shallow;
mod shapes;
mod survey;
mod weights;

pub use answers::Found;
pub use reducing::reduced_within;
pub use searching::search;
