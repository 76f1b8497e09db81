//! Polynomials of nodes, and case trees over polynomials, as definitions alone, and what they show.
//!
//! A lemma of a refutation says that some literal of it is true, each on an equality of one prime field. Its tree
//! shows that: what would be 0 if all literals were false has no common zero. The functions do nothing when they run:
//! each states the laws in its contract.
#![tactic(auto)]

mod laws;
mod rows;

pub use laws::{
    bit_lines_vanish, first_lines_vanish, lemmas_are_sound, measures_bound, normal_lists,
    polynomials_have_variables, polynomials_keep_values, polynomials_stay, read_trees_close,
    rules_are_kept, sizes_are_one, trees_are_taken_off, trees_read_alike, trees_refute,
};
pub use rows::{bits, limits, polynomials, rules, worked_trees};
