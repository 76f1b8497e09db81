//! What `assert` says.
ghost use Rattle.std.specs.Prelude.{◌≡◌, ◌∷◌, [], drop, true, codes, is_some, List, map, IfOk};
ghost use Rattle.ffc_term.specs.declared.node.Node.{Node};
ghost use Rattle.ffc_lex.specs.declared.tokens.TokenKind.TheVariants as kinds;
ghost use Rattle.ffc_smt.specs.Faults.{item, last, read_map};
ghost use Rattle.ffc_smt.specs.Trees.{Leaf, Trees, Word, items_of};
ghost use Rattle.ffc_smt.specs.Meaning.{found};
ghost use Rattle.ffc_smt.specs.Scopes.{State, scope_of};
ghost use Rattle.ffc_smt.specs.Terms.{Parameter};
ghost use Rattle.ffc_smt.specs.TermReading as reading;
ghost use Rattle.ffc_smt.specs.CommandReading.{is_named_word, limits, term_of_sort};
ghost use Rattle.ffc_parts.specs.declared.heads.Head.TheVariants as head;
ghost use Rattle.ffc_terms.specs.Codes.{IsScope};
ghost use Rattle.ffc_words.specs.Outcomes.{outcome};
ghost use Rattle.ffc_words.specs.Words.{AreItemsAt, word_at};
ghost use Rattle.ffc_elab.specs.Reading.{AreInOrder, label_at, label_of, read_by_head, result_as};
ghost use Rattle.ffc_elab.specs.SortedTerms.{ReadsAsTerm};
ghost use Rattle.ffc_elab.specs.Asserting.{ReadsAssertion};

use crate::declaring::fresh_name;
use crate::items::end_at;
use crate::plain::FIRST;
use crate::sorted_terms::sorted_term;
use ffc_lex::TokenKind;
use ffc_term::Sort;
use ffc_terms::{Meaning, Names, Symbols, TermRead, is_word};
use ffc_words::{FaultCode, FormWords, ScriptFault, TakeStop};
use std::alloc::Global;

/// The place of the term in `(! T :named N)`.
const LABELLED: usize = FIRST + 2;

/// A term that is asserted, and the name that it is given.
#[derive(Drop)]
pub(crate) struct Assertion<'a> {
    pub(crate) term: TermRead,
    pub(crate) name: Option<&'a [u8]>,
}

/// A term of this sort, after which its list ends.
pub(crate) fn last_term(
    alloc: Global,
    words: &FormWords,
    symbols: &Symbols,
    locals: Names<Sort>,
    wanted: Sort,
    at: usize,
) -> Result<TermRead, TakeStop>
    ensures { (nodes : List Node) (s : State) (parameters : List Parameter) (items : Trees) (closing : Word)
        (rest : List Word) → locals ≡ map (λ p. (p.name, p.sort)) parameters
        → IsScope nodes symbols.now (scope_of s) → AreItemsAt words.now at items closing rest
        → AreInOrder (drop at words.now)
        → ReadsAsTerm nodes symbols.now locals
        (read_map (λ p. p.0) (item closing (term_of_sort limits s parameters wanted) last (items_of items))) result }
{
    match words.kind(at) {
        TokenKind::RightParen => Err(TakeStop::Fault(words.fault(FaultCode::Shape, at))),
        _ => match sorted_term(alloc, words, symbols, locals, wanted, at) {
            Err(stop) => Err(stop),
            Ok(term) => match end_at(words, term.next) {
                Err(fault) => Err(TakeStop::Fault(fault)),
                Ok(()) => Ok(term),
            },
        },
    }
}

/// The keyword `:named`.
fn named_word(words: &FormWords, at: usize) -> Result<(), ScriptFault>
    ensures { result_as (λ u. u) result ≡ outcome (reading.exactly is_named_word (Leaf (word_at words.now at))) }
{
    match words.kind(at) {
        TokenKind::Keyword => if words.bytes(at) == b":named".as_slice() {
            Ok(())
        } else {
            Err(words.fault(FaultCode::Shape, at))
        },
        _ => Err(words.fault(FaultCode::Shape, at)),
    }
}

/// `:named`, a new name, and the ends of the list and of the form, at these places.
fn label_between<'a>(
    words: &FormWords<'a>,
    terms: &Names<Meaning>,
    at: usize,
    name: usize,
    end: usize,
    last: usize,
) -> Result<&'a [u8], ScriptFault>
    ensures { result_as (λ b. b.now) result
        ≡ label_of (λ n. is_some (found terms.now n)) (word_at words.now at) (word_at words.now name)
        (word_at words.now end) (word_at words.now last) }
{
    named_word(words, at)?;
    let label = fresh_name(words, terms, name)?;
    end_at(words, end)?;
    end_at(words, last)?;
    Ok(label)
}

/// `:named` and a new name, with which the list and the form end.
fn label_at<'a>(
    words: &FormWords<'a>,
    terms: &Names<Meaning>,
    at: usize,
) -> Result<&'a [u8], ScriptFault>
    ensures { result_as (λ b. b.now) result ≡ label_at (λ n. is_some (found terms.now n)) words.now at }
{
    let _count = words.len();
    let name = at.saturating_add(1);
    let end = at.saturating_add(2);
    let last = at.saturating_add(3);
    label_between(words, terms, at, name, end, last)
}

/// `(! T :named N)`.
fn named_assertion<'a>(
    alloc: Global,
    words: &FormWords<'a>,
    symbols: &Symbols,
) -> Result<Assertion<'a>, TakeStop>
    ensures { (s : State) (items : Trees) (closing : Word) → IsScope s.nodes symbols.now (scope_of s)
        → AreItemsAt words.now 2 items closing [] → AreInOrder (drop 2 words.now)
        → (word_at words.now 2).kind ≡ kinds.LeftParen → reading.is_word (codes "!") (word_at words.now 3) ≡ true
        → ReadsAssertion s.nodes symbols.now (read_by_head limits s head.Assert closing (items_of items)) result }
{
    match words.kind(LABELLED) {
        TokenKind::RightParen => Err(TakeStop::Fault(words.fault(FaultCode::Shape, LABELLED))),
        _ => match sorted_term(
            alloc,
            words,
            symbols,
            Names::new(alloc),
            Sort::Bool,
            LABELLED,
        ) {
            Err(stop) => Err(stop),
            Ok(term) => match label_at(words, &symbols.terms, term.next) {
                Err(fault) => Err(TakeStop::Fault(fault)),
                Ok(name) => Ok(Assertion {
                    term,
                    name: Some(name),
                }),
            },
        },
    }
}

/// A term that is asserted without a name.
fn plain_assertion<'a>(
    alloc: Global,
    words: &FormWords<'a>,
    symbols: &Symbols,
) -> Result<Assertion<'a>, TakeStop>
    ensures { (s : State) (items : Trees) (closing : Word) → IsScope s.nodes symbols.now (scope_of s)
        → AreItemsAt words.now 2 items closing [] → AreInOrder (drop 2 words.now)
        → ((word_at words.now 2).kind ≡ kinds.LeftParen → reading.is_word (codes "!") (word_at words.now 3) ≡ true → ⊥)
        → ReadsAssertion s.nodes symbols.now (read_by_head limits s head.Assert closing (items_of items)) result }
{
    match last_term(alloc, words, symbols, Names::new(alloc), Sort::Bool, FIRST) {
        Err(stop) => Err(stop),
        Ok(term) => Ok(Assertion { term, name: None }),
    }
}

/// `assert`: the term, and its name if it has one.
pub(crate) fn read_assertion<'a>(
    alloc: Global,
    words: &FormWords<'a>,
    symbols: &Symbols,
) -> Result<Assertion<'a>, TakeStop>
    ensures { (s : State) (items : Trees) (closing : Word) → IsScope s.nodes symbols.now (scope_of s)
        → AreItemsAt words.now 2 items closing [] → AreInOrder (drop 2 words.now)
        → ReadsAssertion s.nodes symbols.now (read_by_head limits s head.Assert closing (items_of items)) result }
{
    match words.kind(FIRST) {
        TokenKind::LeftParen => if is_word(words, FIRST + 1, b"!") {
            named_assertion(alloc, words, symbols)
        } else {
            plain_assertion(alloc, words, symbols)
        },
        _ => plain_assertion(alloc, words, symbols),
    }
}
