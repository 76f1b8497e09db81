//! Terms.
ghost use Rattle.std.specs.Prelude.{◌≡◌, List};
ghost use Rattle.ffc_term.specs.declared.node.Node.{Node};
ghost use Rattle.ffc_smt.specs.Trees.{Tree, Word};
ghost use Rattle.ffc_smt.specs.Scopes.{Scope};
ghost use Rattle.ffc_smt.specs.TermReading.{term_read};
ghost use Rattle.ffc_words.specs.Words.{IsTreeAt};
ghost use Rattle.ffc_terms.specs.Codes.{IsScope};
ghost use Rattle.ffc_terms.specs.TermAnswers.{ReadsTerm};
ghost use Rattle.ffc_terms.specs.Walking as walking;

use crate::codes::Op;
use crate::environment::Names;
use crate::scope::Symbols;
use crate::walk::{Reader, Walk};
use ffc_term::Sort;
use ffc_words::{FaultCode, FormWords, TakeStop};
use std::alloc::Global;

/// A term that was read: its code, its sort, its height, its weight up to 2^32 - 1, and the place after it.
#[derive(Debug, Drop)]
pub struct TermRead {
    pub code: Vec<Op>,
    pub sort: Sort,
    pub height: u32,
    pub weight: u32,
    pub next: usize,
}

/// The term that begins at this place: the words from it on, one by one.
fn term_from(reader: &Reader, locals: Names<Sort>, at: usize) -> Result<TermRead, TakeStop>
    ensures { walking.RunsAs reader.now.words.now
        (walking.at reader.now.limit reader.now.symbols.now locals reader.now.words.now at) result }
{
    let mut walk = Walk::new(reader.alloc, locals);
    for i in at..reader.words.len() {
        match walk.step(reader, i) {
            Ok(None) => {}
            Ok(Some(value)) => {
                return Ok(TermRead {
                    code: walk.into_code(),
                    sort: value.sort,
                    height: value.height,
                    weight: value.weight,
                    next: i + 1,
                });
            }
            Err(stop) => return Err(stop),
        }
    }
    Err(TakeStop::Fault(reader.words.fault(FaultCode::Shape, reader.words.len())))
}

/// The term that begins at this place, or its first fault, where these local variables are in scope.
///
/// It takes one step a word, with look-ups of the word in ordered maps, on a stack of its own: the depth of the term is
/// not on the stack of calls.
pub fn term_at(
    alloc: Global,
    words: &FormWords,
    symbols: &Symbols,
    locals: Names<Sort>,
    at: usize,
    limit: u32,
) -> Result<TermRead, TakeStop>
    ensures { (nodes : List Node) (scope : Scope) (tree : Tree) (rest : List Word) → IsScope nodes symbols.now scope
        → IsTreeAt words.now at tree rest
        → ReadsTerm nodes symbols.now locals (term_read limit scope locals tree) tree at result }
{
    words.are_in_order();
    let reader = Reader {
        alloc,
        words,
        symbols,
        limit,
    };
    term_from(&reader, locals, at)
}
