//! Assumptions: names of Boolean sort, and such names negated.
ghost use Rattle.std.specs.Prelude.{◌≡◌, ◌+◌, ◌<◌, ◌^◌, true, [], List, IfOk};
ghost use Rattle.ffc_term.specs.declared.node.Node.{Node};
ghost use Rattle.ffc_term.specs.declared.node.Sort.TheVariants as sort;
ghost use Rattle.ffc_smt.specs.Trees.{Tree, Trees, Leaf, Group, Word, name_of};
ghost use Rattle.ffc_smt.specs.Scopes.{State, scope_of};
ghost use Rattle.ffc_smt.specs.CommandReading.{assumed, assumption_asked};
ghost use Rattle.ffc_words.specs.Words.{IsTreeAt, word_at};
ghost use Rattle.ffc_terms.specs.Codes.{IsScope};
ghost use Rattle.ffc_elab.specs.SortedTerms.{ReadsOfSort};
ghost use Rattle.ffc_elab.specs.Asked.{IsNegation, Negates, ReadsAsked};

use crate::asked_terms::AskedTerm;
use crate::sorted_terms::sorted_term;
use ffc_lex::TokenKind;
use ffc_parts::Operator;
use ffc_term::Sort;
use ffc_terms::{Names, Op, Symbols, TermRead, is_named, name_at};
use ffc_words::{FaultCode, FormWords, TakeStop};
use std::alloc::{AllocError, Global};

/// The name of Boolean sort at a place. Where it is no name, the fault is one of shape, where the assumption begins.
fn boolean_name(
    alloc: Global,
    words: &FormWords,
    symbols: &Symbols,
    at: usize,
    opening: usize,
) -> Result<TermRead, TakeStop>
    ensures { (nodes : List Node) (s : State) (w : Word) (rest : List Word) → IsScope nodes symbols.now (scope_of s)
        → IsTreeAt words.now at (Leaf w) rest
        → ReadsOfSort nodes symbols.now [] sort.Bool (assumed s (word_at words.now opening) w (name_of w))
        (Leaf w) at result }
{
    match name_at(words, at) {
        None => Err(TakeStop::Fault(words.fault(FaultCode::Shape, opening))),
        Some(_) => sorted_term(alloc, words, symbols, Names::new(alloc), Sort::Bool, at),
    }
}

/// Whether `(not`, a word and `)` begin at a place.
fn is_negation(words: &FormWords, at: usize) -> bool
    ensures is { (opening closing : Word) (items : Trees) (rest : List Word)
        → IsTreeAt words.now at (Group opening items closing) rest → IsNegation items result }
    ensures room { result ≡ true → at + 4 < 2 ^ 64 }
{
    if words.len().saturating_sub(at) < 4 {
        return false;
    }
    if !is_named(words, at + 1, b"not") {
        return false;
    }
    match words.kind(at + 2) {
        TokenKind::LeftParen | TokenKind::RightParen => false,
        _ => match words.kind(at + 3) {
            TokenKind::RightParen => true,
            _ => false,
        },
    }
}

/// The negation of a term that was read, from one place up to another.
fn negated(term: TermRead, at: usize, next: usize) -> Result<AskedTerm, AllocError>
    ensures { IfOk result (Negates term at next) }
{
    let weight = term.weight.saturating_add(1);
    let mut code = term.code;
    code.push(Op::Apply(Operator::Not, 1))?;
    Ok(AskedTerm {
        code,
        weight,
        at,
        next,
    })
}

/// `(not name)`.
fn negation_at(
    alloc: Global,
    words: &FormWords,
    symbols: &Symbols,
    at: usize,
) -> Result<AskedTerm, TakeStop>
    ensures { (nodes : List Node) (s : State) (opening closing : Word) (items : Trees) (rest : List Word)
        → IsScope nodes symbols.now (scope_of s)
        → IsTreeAt words.now at (Group opening items closing) rest
        → ReadsAsked nodes symbols.now words.now (assumption_asked s (Group opening items closing))
        (Group opening items closing) at result }
{
    if !is_negation(words, at) {
        return Err(TakeStop::Fault(words.fault(FaultCode::Shape, at)));
    }
    match boolean_name(alloc, words, symbols, at + 2, at) {
        Err(stop) => Err(stop),
        Ok(term) => match negated(term, at, at + 4) {
            Err(_) => Err(TakeStop::Memory),
            Ok(term) => Ok(term),
        },
    }
}

/// A name alone.
fn name_alone(
    alloc: Global,
    words: &FormWords,
    symbols: &Symbols,
    at: usize,
) -> Result<AskedTerm, TakeStop>
    ensures { (nodes : List Node) (s : State) (w : Word) (rest : List Word) → IsScope nodes symbols.now (scope_of s)
        → IsTreeAt words.now at (Leaf w) rest
        → ReadsAsked nodes symbols.now words.now (assumption_asked s (Leaf w)) (Leaf w) at result }
{
    match boolean_name(alloc, words, symbols, at, at) {
        Err(stop) => Err(stop),
        Ok(term) => Ok(AskedTerm::new(term, at)),
    }
}

/// The assumption that begins at a place, or its first fault.
pub(crate) fn assumption_at(
    alloc: Global,
    words: &FormWords,
    symbols: &Symbols,
    at: usize,
) -> Result<AskedTerm, TakeStop>
    ensures { (nodes : List Node) (s : State) (tree : Tree) (rest : List Word) → IsScope nodes symbols.now (scope_of s)
        → IsTreeAt words.now at tree rest
        → ReadsAsked nodes symbols.now words.now (assumption_asked s tree) tree at result }
{
    match words.kind(at) {
        TokenKind::LeftParen => negation_at(alloc, words, symbols, at),
        _ => name_alone(alloc, words, symbols, at),
    }
}
