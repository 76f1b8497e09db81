//! Terms of a given sort.
ghost use Rattle.std.specs.Prelude.{◌≡◌, List, map};
ghost use Rattle.ffc_term.specs.declared.node.Node.{Node};
ghost use Rattle.ffc_smt.specs.Trees.{Tree, Word};
ghost use Rattle.ffc_smt.specs.Scopes.{State, scope_of};
ghost use Rattle.ffc_smt.specs.Terms.{Parameter};
ghost use Rattle.ffc_smt.specs.TermReading.{is_sort};
ghost use Rattle.ffc_smt.specs.CommandReading.{limits, term_of_sort};
ghost use Rattle.ffc_words.specs.Words.{IsTreeAt};
ghost use Rattle.ffc_terms.specs.Codes.{IsScope};
ghost use Rattle.ffc_elab.specs.SortedTerms.{ReadsOfSort};

use ffc_term::Sort;
use ffc_terms::{Names, Symbols, TermRead, term_at};
use ffc_words::{FaultCode, FormWords, TakeStop};
use std::alloc::Global;

/// How high a term may be.
pub(crate) const MOST_HEIGHT: u32 = 65_536;

/// Whether two sorts are one.
fn same_sort(wanted: Sort, found: Sort) -> bool
    ensures { result ≡ is_sort wanted found }
{
    match wanted {
        Sort::Bool => match found {
            Sort::Bool => true,
            Sort::Field(_) => false,
        },
        Sort::Field(order) => match found {
            Sort::Bool => false,
            Sort::Field(other) => order == other,
        },
    }
}

/// The term of this sort that begins at a place, where these local variables are in scope, or its first fault: one of its
/// sort, at its first word, where it is of another sort.
pub(crate) fn sorted_term(
    alloc: Global,
    words: &FormWords,
    symbols: &Symbols,
    locals: Names<Sort>,
    wanted: Sort,
    at: usize,
) -> Result<TermRead, TakeStop>
    ensures { (nodes : List Node) (s : State) (parameters : List Parameter) (tree : Tree) (rest : List Word) → locals
        ≡ map (λ p. (p.name, p.sort)) parameters
        → IsScope nodes symbols.now (scope_of s) → IsTreeAt words.now at tree rest
        → ReadsOfSort nodes symbols.now locals wanted (term_of_sort limits s parameters wanted tree) tree at result }
{
    match term_at(alloc, words, symbols, locals, at, MOST_HEIGHT) {
        Err(stop) => Err(stop),
        Ok(term) => {
            if same_sort(wanted, term.sort) {
                Ok(term)
            } else {
                Err(TakeStop::Fault(words.fault(FaultCode::Sort, at)))
            }
        }
    }
}
