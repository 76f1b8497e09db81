//! The parts of the elaborator below names and commands: words, numbers, functions, options, nodes of functions.
#![tactic(auto)]

mod applying;
mod heads;
mod numbers;
mod operators;
mod options;
mod tables;
mod words;

pub use applying::{
    all_distinct, all_equal, apply, choice, difference, differences, differences_from, equality,
    exclusive, implication, implications, neighbours, put,
};
pub use heads::{Head, head_named};
pub use numbers::{
    Signed, constant_of, is_order, literal_number, literal_order, number_of, order_of, residue_of,
    signed_of, size_of_digits,
};
pub use operators::{Operator, Wanted, operator_named};
pub use options::{Options, Setting, setting_named};
pub use words::{is_named, is_word, name_of};
