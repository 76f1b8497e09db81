//! Polynomials as coefficients by number of the monomial, for reductions that subtract the same multiples again and again:
//! each monomial is numbered once, the numbers of a multiple's monomials are kept, and a step is one pass over them.
#![tactic(auto)]

mod columns;
mod dense;
mod table;

pub use table::Table;
