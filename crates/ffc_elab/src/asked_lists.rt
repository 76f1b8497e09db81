//! Lists of terms that are asked for.
ghost use Rattle.std.specs.Prelude.{ℕ, [], List, drop};
ghost use Rattle.ffc_term.specs.declared.node.Node.{Node};
ghost use Rattle.ffc_smt.specs.Trees.{First, Group, Tree, Trees, Word};
ghost use Rattle.ffc_smt.specs.Scopes.{State, scope_of};
ghost use Rattle.ffc_words.specs.Words.{AreItemsAt, IsTreeAt};
ghost use Rattle.ffc_terms.specs.Codes.{IsScope};
ghost use Rattle.ffc_elab.specs.Reading.{AreInOrder};
ghost use Rattle.ffc_elab.specs.Asked.{ReadsAsked};
ghost use Rattle.ffc_elab.specs.AskedLists.{GoesOn, IsMissing, IsReadSoFar, ReadsItems, ReadsList, listed_read};

use crate::asked_terms::{AskedTerm, value_at};
use crate::assumptions::assumption_at;
use crate::items::end_at;
use crate::plain::FIRST;
use ffc_lex::TokenKind;
use ffc_terms::Symbols;
use ffc_words::{FaultCode, FormWords, TakeStop};
use std::alloc::Global;

/// What a list is of.
#[derive(Clone, Copy)]
pub(crate) enum Listed {
    /// Terms of any sort, of which there is at least one.
    Values,
    Assumptions,
}

impl Listed {
    /// Whether a term is missing where a word of this kind comes first.
    fn is_missing(self, kind: TokenKind) -> bool
        ensures { IsMissing self kind result }
    {
        match self {
            Listed::Assumptions => false,
            Listed::Values => match kind {
                TokenKind::RightParen => true,
                _ => false,
            },
        }
    }
}

/// The terms of a list, their weight up to 2^32 - 1, and the place after them.
#[derive(Drop)]
pub(crate) struct AskedList {
    pub(crate) terms: Vec<AskedTerm>,
    pub(crate) weight: u32,
    pub(crate) next: usize,
}

/// The item that begins at a place, or its first fault.
fn listed_at(
    alloc: Global,
    words: &FormWords,
    symbols: &Symbols,
    listed: Listed,
    at: usize,
) -> Result<AskedTerm, TakeStop>
    ensures { (nodes : List Node) (s : State) (tree : Tree) (rest : List Word) → IsScope nodes symbols.now (scope_of s)
        → IsTreeAt words.now at tree rest
        → ReadsAsked nodes symbols.now words.now (listed_read listed s tree) tree at result }
{
    match listed {
        Listed::Values => value_at(alloc, words, symbols, at),
        Listed::Assumptions => assumption_at(alloc, words, symbols, at),
    }
}

impl AskedList {
    /// Reads the next item, unless the list ends.
    fn read_next(
        &mut self,
        alloc: Global,
        words: &FormWords,
        symbols: &Symbols,
        listed: Listed,
    ) -> Result<(), TakeStop>
        ensures { (nodes : List Node) (s : State) (items : Trees) (closing : Word) (rest : List Word)
            → IsScope nodes symbols.now (scope_of s)
            → (far : ℕ) → IsReadSoFar nodes symbols.now words.now (listed_read listed s) items closing rest far self.old
            → GoesOn nodes symbols.now words.now (listed_read listed s) items closing rest far self.new result }
    {
        match words.kind(self.next) {
            TokenKind::RightParen => Ok(()),
            _ => {
                let term = match listed_at(alloc, words, symbols, listed, self.next) {
                    Err(stop) => return Err(stop),
                    Ok(term) => term,
                };
                let weight = term.weight;
                let next = term.next;
                self.terms.push(term)?;
                self.weight = self.weight.saturating_add(weight);
                self.next = next;
                Ok(())
            }
        }
    }
}

/// The items of a list from a place on, up to the parenthesis that closes it, or their first fault.
fn read_items(
    alloc: Global,
    words: &FormWords,
    symbols: &Symbols,
    listed: Listed,
    at: usize,
) -> Result<AskedList, TakeStop>
    ensures { (nodes : List Node) (s : State) (items : Trees) (closing : Word) (rest : List Word)
        → IsScope nodes symbols.now (scope_of s)
        → AreItemsAt words.now at items closing rest → AreInOrder (drop at words.now)
        → ReadsItems nodes symbols.now words.now (listed_read listed s) items closing rest result }
{
    let mut list = AskedList {
        terms: Vec::new(alloc),
        weight: 0,
        next: at,
    };
    // An item has at least one word.
    for _ in at..words.len() {
        match list.read_next(alloc, words, symbols, listed) {
            Err(stop) => return Err(stop),
            Ok(()) => {}
        }
    }
    Ok(list)
}

/// The items of a list and the parenthesis that closes it, after which the form ends.
fn inner_list(
    alloc: Global,
    words: &FormWords,
    symbols: &Symbols,
    listed: Listed,
) -> Result<AskedList, TakeStop>
    ensures { (nodes : List Node) (s : State) (opening last closing : Word) (inner items : Trees)
        → IsScope nodes symbols.now (scope_of s)
        → AreItemsAt words.now 2 (First (Group opening inner last) items) closing [] → AreInOrder (drop 2 words.now)
        → ReadsList nodes symbols.now words.now listed s (First (Group opening inner last) items) closing result }
{
    if listed.is_missing(words.kind(FIRST + 1)) {
        return Err(TakeStop::Fault(words.fault(FaultCode::Shape, FIRST + 1)));
    }
    match read_items(alloc, words, symbols, listed, FIRST + 1) {
        Err(stop) => Err(stop),
        Ok(list) => {
            let _len = words.len();
            match end_at(words, list.next.saturating_add(1)) {
                Err(fault) => Err(TakeStop::Fault(fault)),
                Ok(()) => Ok(list),
            }
        }
    }
}

/// A list in parentheses, after which the form ends, or the first fault.
pub(crate) fn read_list(
    alloc: Global,
    words: &FormWords,
    symbols: &Symbols,
    listed: Listed,
) -> Result<AskedList, TakeStop>
    ensures { (nodes : List Node) (s : State) (items : Trees) (closing : Word) → IsScope nodes symbols.now (scope_of s)
        → AreItemsAt words.now 2 items closing [] → AreInOrder (drop 2 words.now)
        → ReadsList nodes symbols.now words.now listed s items closing result }
{
    match words.kind(FIRST) {
        TokenKind::LeftParen => inner_list(alloc, words, symbols, listed),
        _ => Err(TakeStop::Fault(words.fault(FaultCode::Shape, FIRST))),
    }
}
