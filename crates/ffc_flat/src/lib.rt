//! Checks that are decided by what their clauses force: by a conflict alone (`conflict`), and by a conflict or a combination of the
//! polynomials of what is forced (`flat`).
#![tactic(auto)]

mod deciding;
mod propagating;

pub use deciding::flat;
pub use propagating::conflict;
