//! What is around the next word of a term.
ghost use Rattle.std.specs.Prelude.{◌≡◌, ◌∷◌, [], OnOk, OnErr, IfSome, IfNone};
ghost use Rattle.std.specs.List.{slice_get};
ghost use Rattle.ffc_lex.specs.Faults.{code_number};
ghost use Rattle.ffc_words.specs.Words.{fault_of, word_at};
ghost use Rattle.ffc_terms.specs.Places as places;

use crate::callees::{Callee, Parts};
use crate::sorts::SortStage;
use ffc_parts::Signed;
use ffc_term::Sort;
use ffc_words::{FaultCode, FormWords, ScriptFault};
use std::alloc::{AllocError, Global};
use std::marker::Model;

/// Where a word is.
#[derive(Clone, Copy, PartialEq, Eq)]
pub(crate) struct Place {
    pub(crate) line: u64,
    pub(crate) column: u64,
}

/// The place of a word.
pub(crate) fn place_at(words: &FormWords, at: usize) -> Place
    ensures { result ≡ places.place_of (word_at words.now at) }
{
    Place {
        line: words.line(at),
        column: words.column(at),
    }
}

impl Place {
    /// A fault of this code here.
    pub(crate) fn fault(self, code: FaultCode) -> ScriptFault
        ensures { fault_of result ≡ places.fault (code_number code) self }
    {
        ScriptFault {
            line: self.line,
            column: self.column,
            code,
        }
    }
}

/// A term that is being read, and inside which another one is: where it begins, and what is known of its parts.
#[derive(Clone, Copy, PartialEq, Eq)]
pub(crate) enum Frame {
    Call(Place, Callee, Parts),
    /// A `let`, and inside the term of its last variable.
    Value(Place, Parts),
    /// A `let`, and inside its body.
    Body(Place, Parts),
}

/// What the next word is to be.
#[derive(Clone, Copy, PartialEq, Eq)]
pub(crate) enum Stage {
    /// A term begins, or the innermost call ends.
    Term,
    /// After the parenthesis that opens a term.
    Head(Place),
    /// After `(let`.
    Let(Place),
    /// A pair of a variable and its term begins, or their list ends.
    Bindings(Place, Parts),
    Variable(Place, Parts),
    /// A pair ends.
    Bound(Place, Parts),
    /// A `let` ends, whose body has this sort.
    End(Place, Parts, Sort),
    /// After `(as`.
    Constant(Place),
    /// The sort of a constant begins.
    SortStart(Place, Signed),
    /// The sort, which begins at the second place, goes on.
    SortMore(Place, Signed, Place, SortStage),
    /// A constant of the field of this order ends.
    Close(Place, Signed, u64),
}

/// Frames. Clauses see the innermost one first.
#[derive(Drop)]
pub(crate) struct Frames {
    list: Vec<Frame>,
}

impl Model for Frames {
    ghost use Rattle.std.specs.Prelude.{List, reverse};
    ghost use Rattle.ffc_terms.specs.declared.frames.Frame.{Frame};

    ghost Value = { List Frame };

    ghost view = { λ f. reverse f.list.items };
}

impl Frames {
    /// None. It takes no memory.
    pub(crate) fn new(alloc: Global) -> Frames
        ensures { result ≡ [] }
    {
        Frames {
            list: Vec::new(alloc),
        }
    }

    pub(crate) fn push(&mut self, frame: Frame) -> Result<(), AllocError>
        ensures ok { OnOk result (self.new ≡ frame ∷ self.old) }
        ensures err { OnErr result (self.new ≡ self.old) }
    {
        self.list.push(frame)?;
        Ok(())
    }

    pub(crate) fn pop(&mut self) -> Option<Frame>
        ensures some { IfSome result (λ frame. self.old ≡ frame ∷ self.new) }
        ensures none { IfNone result ((self.old ≡ []) × (self.new ≡ [])) }
    {
        self.list.pop()
    }

    /// The innermost one.
    pub(crate) fn last(&self) -> Option<Frame>
        ensures { result ≡ slice_get self.now 0 }
    {
        self.list.last().copied()
    }
}
