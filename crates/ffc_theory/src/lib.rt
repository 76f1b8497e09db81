//! Decides checks: gives each an entry of a certificate, or says why there is none.
//!
//! A check is decided by going through the assignments of its constants, by an attempt with a bound, which decides every
//! check of its kind within stated units, or by an entry that the engine proposes and the checker accepts. A `Session` decides
//! checks one after another, and keeps what the engine has learned.
#![tactic(auto)]

mod attempts;
mod deciding;
mod proposing;

pub use deciding::Session;
