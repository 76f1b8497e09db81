//! What the names in scope mean.
ghost use Rattle.std.specs.Prelude.{◌≡◌};
ghost use Rattle.std.specs.Option.{option_copied};
ghost use Rattle.ffc_terms.specs.Callees.{macro_at};

use crate::codes::Op;
use crate::environment::Names;
use ffc_term::{NodeId, Sort};

/// A definition with parameters.
#[derive(Drop)]
pub struct Macro {
    /// The sorts of the parameters, in order.
    pub parameters: Vec<Sort>,
    /// The sort of the body.
    pub sort: Sort,
    /// The body, whose local variables are the parameters, the last of them first.
    pub code: Vec<Op>,
    pub height: u32,
    pub weight: u32,
}

/// What a name of terms means.
#[derive(Drop)]
pub enum Meaning {
    /// A declared constant: its number, its sort and its node.
    Constant(u32, Sort, NodeId),
    /// A definition without parameters: its sort and its node.
    Defined(Sort, NodeId),
    Macro(Macro),
}

/// The names of terms and those of sorts that are in scope, in the order in which they came.
#[derive(Drop)]
pub struct Symbols {
    pub terms: Names<Meaning>,
    pub sorts: Names<Sort>,
}

impl Symbols {
    /// The macro that so many names of terms came before.
    pub fn macro_at(&self, place: usize) -> Option<&Macro>
        ensures { option_copied result ≡ macro_at self.now place }
    {
        if place >= self.terms.len() {
            return None;
        }
        match self.terms.value(place) {
            Meaning::Macro(found) => Some(found),
            Meaning::Constant(..) | Meaning::Defined(..) => None,
        }
    }
}
