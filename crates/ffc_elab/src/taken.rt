//! The forms that a context has taken, which only clauses read.
ghost use Rattle.std.specs.Prelude.{◌≡◌, List, [], ◌∷◌, ◌++◌, map};
ghost use Rattle.std.specs.Borrow.{ftrue};
ghost use Rattle.ffc_smt.specs.Trees.{Word, word_of};

use ffc_lex::{Form, Lexer};
use std::marker::Model;

/// Forms that clauses read as a list of their words. At run time there are none.
#[derive(Drop)]
pub(crate) struct Taken {
    ghost forms: { List (List Word) },
}

impl Model for Taken {
    ghost also_owns = { λ _. ftrue };
}

impl Taken {
    pub(crate) fn new() -> Taken
        ensures { result.forms ≡ [] }
    {
        Taken {}
    }

    /// Appends a form.
    pub(crate) fn take(&mut self, _form: &Form, _lexer: &Lexer)
        ensures { self.new.forms ≡ self.old.forms ++ map (word_of _lexer.now.text) _form.now ∷ [] }
    {}
}
