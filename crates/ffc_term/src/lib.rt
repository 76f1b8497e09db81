//! The table of nodes that the terms of a script share, what they measure, and their values.
#![tactic(auto)]

mod check;
mod eval;
pub mod fitting;
pub mod growth_laws;
mod kept;
pub mod laws;
mod list;
mod mark_set;
mod measure;
mod modular;
mod node;
mod store;
mod table;
mod value;
mod walk;

pub use check::Check;
pub use list::{NodeList, distinct};
pub use measure::Measures;
pub use node::{Node, NodeId, Sort};
pub use table::{NodeTable, TermStop};
pub use value::{Assignment, Value};
