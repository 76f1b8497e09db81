//! A text that only clauses read.
ghost use Rattle.std.specs.Prelude.{◌≡◌, List, [], ◌++◌, ℕ};
ghost use Rattle.std.specs.Borrow.{ftrue};

use std::marker::Model;

/// Bytes that clauses read as a list, for a reader that drops the text that it has read. At run time there are none.
#[derive(Drop)]
pub struct GhostText {
    pub ghost bytes: { List ℕ },
}

impl Model for GhostText {
    ghost also_owns = { λ _. ftrue };
}

impl GhostText {
    /// The empty text.
    pub fn new() -> GhostText
        ensures { result.bytes ≡ [] }
    {
        GhostText {}
    }

    /// Appends a piece.
    pub fn append(&mut self, _piece: &[u8])
        ensures { self.new.bytes ≡ self.old.bytes ++ _piece.now }
    {}
}
