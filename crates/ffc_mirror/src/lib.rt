//! The nodes of a check in a table of their own, so that what is made for each node of a table follows the check and not the script.
//!
//! A `Mirror` follows the checks of a script: it keeps the nodes of the assertions that one check has in common with the next, drops
//! those of the others, and copies what is new. `Naming` says what nodes, variables and lines of a certificate are called elsewhere;
//! `renamed_all` and `relisted` write lines with these names. Nothing is promised of a copy: whoever uses it tests what comes of it.
#![tactic(auto)]

mod copying;
mod counted;
mod mirror;
mod naming;
mod outside;

pub use mirror::Mirror;
pub use naming::{Naming, relisted, renamed, renamed_all, terms};
pub use outside::{Inside, Outside};
