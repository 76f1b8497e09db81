//! Lists of elements of a field.
ghost use Rattle.std.specs.Prelude.{◌≡◌, map};

use ffc_field::Field;
use std::marker::Model;

/// Elements of a field, in order. Clauses see the list of their residues.
#[derive(Debug, Drop)]
pub struct Elements<F: Field> {
    elements: Vec<F>,
}

impl<F: Field> Model for Elements<F> {
    ghost use Rattle.std.specs.Prelude.{ℕ, List, map};

    ghost Value = { List ℕ };

    ghost view = { λ e. map F.value e.elements.items };
}

impl<F: Field> Elements<F> {
    /// These elements. It takes no memory.
    pub fn new(elements: Vec<F>) -> Self
        ensures { result ≡ map F.value elements.items }
    {
        Elements { elements }
    }

    /// The elements. It takes no memory.
    pub fn as_slice(&self) -> &[F]
        ensures { map F.value result.now ≡ self.now }
    {
        self.elements.as_slice()
    }
}
