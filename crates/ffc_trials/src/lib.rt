//! What is decided of a check without the engine over polynomials, and the test of what that engine proposes.
//!
//! A `Cone` has the nodes and constants that a check rests on. A check with few assignments is decided by trying all of them
//! (`decide_small`); `small_span` says which checks are so. Of any other check the first assignments are tried (`Enumeration`, at
//! least `first_count` of them), and `check_limits` says whether its equalities are within the limits
//! of polynomials. `tested` gives an entry only where it is readable and the checker accepts it. `DecideStop` says why a check is
//! left undecided.
#![tactic(auto)]

mod cone;
mod counting;
mod enumerate;
mod field;
mod known;
mod limits;
mod readable;
mod small;
mod stop;
mod testing;

pub use cone::Cone;
pub use enumerate::{Enumeration, Room};
pub use field::{field_of, field_order};
pub use known::completed_model;
pub use limits::{check_limits, first_count, small_span};
pub use readable::is_readable;
pub use small::decide_small;
pub use stop::DecideStop;
pub use testing::tested;
