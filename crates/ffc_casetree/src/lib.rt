//! Case trees, as a solver over the lines of a basis finds them and as a certificate has them.
//!
//! A `Tree` is built from its leaves while a search goes from case to case. It has facts, which are polynomials that are 0 in
//! the cases on which they rest, and branches that are closed. `record` records a line of the basis as the sum that it is of
//! earlier ones; what cases need beside these is recorded by `record_sum`, with polynomials as a certificate has them. A branch
//! that is closed rests on cases, and closes the innermost of them, whatever other cases were open. `into_lines` writes the tree
//! when its root is closed: of the facts only those that a branch needs, each once. `are_lines` and `first_line` serve the test
//! of a tree by the checker's own reading. Of what is written nothing is promised: that test decides.
#![tactic(auto)]

mod checked;
mod facts;
mod fitting;
mod layout;
mod nodes;
mod recording;
mod sums;
mod tree;
mod written;

pub use checked::first_line;
pub use facts::{FactId, NO_FACT};
pub use fitting::are_lines;
pub use nodes::NodeId;
pub use recording::{multiples_of, record};
pub use sums::record_sum;
pub use tree::{Mark, Tree};
pub use written::{residues, scaled_line, terms_in};
