//! The elaborator of scripts: from forms to commands and nodes.
#![tactic(auto)]

mod answers;
mod asked_lists;
mod asked_nodes;
mod asked_terms;
mod asked_texts;
mod asking;
mod assert;
mod asserting;
mod assertions;
mod assuming;
mod assumptions;
mod commands;
mod constants;
mod context;
mod declaring;
mod define;
mod defining;
mod definitions;
mod dispatch;
mod items;
mod levels;
mod making;
mod orders;
mod parameters;
mod plain;
mod plain_changes;
mod sort_names;
mod sorted_terms;
mod store;
mod taken;

pub use answers::{Asked, Command, Declared, Effect};
pub use context::Context;
