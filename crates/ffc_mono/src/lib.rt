//! Monomials of total degree at most 1,024, and monomial orders.
#![tactic(auto)]

mod borrowed;
mod laws;
mod mono;
mod order;
mod powers;
mod row;

pub use borrowed::MonoRef;
pub use laws::{divisors, graded_orders, leading_terms};
pub use mono::{DEGREE_LIMIT, Mono, MonoStop};
pub use order::{GradedReverseLex, Lex, MonoOrder, graded_reverse_lex_order, lex_order};
pub use row::MonoRow;
