//! Lines: polynomials that are generators, or sums of multiples of earlier lines.
#![tactic(auto)]

mod line;

pub use line::{Line, LineId};
