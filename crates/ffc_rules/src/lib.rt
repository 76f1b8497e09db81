//! When an entry of a certificate is right for a check, as definitions alone, and the laws of that. The functions do nothing
//! when they run: each states the law in its contract.
#![tactic(auto)]

pub mod laws;
pub mod rows;
