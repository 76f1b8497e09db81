//! Which checks are decided within a stated number of units, as definitions. It has no running code: each function states in its
//! contract what was computed.
#![tactic(auto)]

pub mod rows;
