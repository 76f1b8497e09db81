//! Terms that are asked for, before their nodes are made.
ghost use Rattle.std.specs.Prelude.{◌≡◌, [], List};
ghost use Rattle.ffc_term.specs.declared.node.Node.{Node};
ghost use Rattle.ffc_smt.specs.Trees.{Tree, Word};
ghost use Rattle.ffc_smt.specs.Scopes.{State, scope_of};
ghost use Rattle.ffc_smt.specs.CommandReading.{asked_read, limits};
ghost use Rattle.ffc_words.specs.Words.{IsTreeAt};
ghost use Rattle.ffc_terms.specs.Codes.{IsScope};
ghost use Rattle.ffc_elab.specs.Asked.{ReadsAsked};

use crate::sorted_terms::MOST_HEIGHT;
use ffc_terms::{Names, Op, Symbols, TermRead, term_at};
use ffc_words::{FormWords, TakeStop};
use std::alloc::Global;

/// A term that was read: what makes its node, its weight up to 2^32 - 1, where it begins, and the place after it.
#[derive(Drop)]
pub(crate) struct AskedTerm {
    pub(crate) code: Vec<Op>,
    pub(crate) weight: u32,
    pub(crate) at: usize,
    pub(crate) next: usize,
}

impl AskedTerm {
    /// A term that was read from this place on.
    pub(crate) fn new(term: TermRead, at: usize) -> AskedTerm
        ensures { result ≡ record { code = term.code; weight = term.weight; at = at; next = term.next } }
    {
        AskedTerm {
            code: term.code,
            weight: term.weight,
            at,
            next: term.next,
        }
    }
}

/// The term of any sort that begins at a place, or its first fault.
pub(crate) fn value_at(
    alloc: Global,
    words: &FormWords,
    symbols: &Symbols,
    at: usize,
) -> Result<AskedTerm, TakeStop>
    ensures { (nodes : List Node) (s : State) (tree : Tree) (rest : List Word) → IsScope nodes symbols.now (scope_of s)
        → IsTreeAt words.now at tree rest
        → ReadsAsked nodes symbols.now words.now (asked_read limits s tree) tree at result }
{
    match term_at(alloc, words, symbols, Names::new(alloc), at, MOST_HEIGHT) {
        Err(stop) => Err(stop),
        Ok(term) => Ok(AskedTerm::new(term, at)),
    }
}
