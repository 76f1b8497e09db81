//! What `define-fun` says.
ghost use Rattle.std.specs.Prelude.{◌≡◌, [], drop, map, reverse, List};
ghost use Rattle.ffc_smt.specs.Trees.{Trees, Word, items_of};
ghost use Rattle.ffc_smt.specs.Scopes.{State, scope_of};
ghost use Rattle.ffc_smt.specs.Terms.{Parameter};
ghost use Rattle.ffc_smt.specs.CommandReading.{limits};
ghost use Rattle.ffc_parts.specs.declared.heads.Head.TheVariants as head;
ghost use Rattle.ffc_terms.specs.Codes.{IsScope};
ghost use Rattle.ffc_words.specs.Words.{AreItemsAt};
ghost use Rattle.ffc_elab.specs.Defining.{ReadsBody, ReadsDefinition, ReadsSortItem, body_after, pair_of};
ghost use Rattle.ffc_elab.specs.Reading.{AreInOrder, read_by_head};

use crate::asserting::last_term;
use crate::declaring::fresh_name;
use crate::parameters::{Parameters, parameters_at, reversed};
use crate::plain::FIRST;
use ffc_lex::TokenKind;
use ffc_term::Sort;
use ffc_terms::{Names, Symbols, TermRead, sort_at};
use ffc_words::{FaultCode, FormWords, ScriptFault, TakeStop};
use std::alloc::Global;

/// A name that is defined, the sorts of its parameters, the sort of its body, and the body.
#[derive(Drop)]
pub(crate) struct Definition<'a> {
    pub(crate) name: &'a [u8],
    pub(crate) parameters: Vec<Sort>,
    pub(crate) sort: Sort,
    pub(crate) body: TermRead,
}

/// A sort that is an item, and the place after it.
fn sort_item(
    words: &FormWords,
    sorts: &Names<Sort>,
    at: usize,
) -> Result<(Sort, usize), ScriptFault>
    ensures { (items : Trees) (closing : Word) (rest : List Word) → AreItemsAt words.now at items closing rest
        → ReadsSortItem sorts.now items closing at result }
{
    match words.kind(at) {
        TokenKind::RightParen => Err(words.fault(FaultCode::Shape, at)),
        _ => sort_at(sorts, words, at),
    }
}

/// The sort and the body of a definition, whose parameters have these names.
fn sort_and_body(
    alloc: Global,
    words: &FormWords,
    symbols: &Symbols,
    names: Names<Sort>,
    at: usize,
) -> Result<(Sort, TermRead), TakeStop>
    ensures { (s : State) (parameters : List Parameter) (items : Trees) (closing : Word) → names
        ≡ reverse (map pair_of parameters) → IsScope s.nodes symbols.now (scope_of s)
        → AreItemsAt words.now at items closing [] → AreInOrder (drop at words.now)
        → ReadsBody s.nodes symbols.now parameters (body_after s parameters closing items) result }
{
    match sort_item(words, &symbols.sorts, at) {
        Err(fault) => Err(TakeStop::Fault(fault)),
        Ok((sort, next)) => match reversed(alloc, names) {
            Err(_) => Err(TakeStop::Memory),
            Ok(locals) => match last_term(alloc, words, symbols, locals, sort, next) {
                Err(stop) => Err(stop),
                Ok(body) => Ok((sort, body)),
            },
        },
    }
}

/// `define-fun`: the name, the parameters, the sort and the body.
pub(crate) fn read_definition<'a>(
    alloc: Global,
    words: &FormWords<'a>,
    symbols: &Symbols,
) -> Result<Definition<'a>, TakeStop>
    ensures { (s : State) (items : Trees) (closing : Word) → IsScope s.nodes symbols.now (scope_of s)
        → AreItemsAt words.now 2 items closing [] → AreInOrder (drop 2 words.now)
        → ReadsDefinition s.nodes symbols.now (read_by_head limits s head.DefineFun closing (items_of items)) result }
{
    match fresh_name(words, &symbols.terms, FIRST) {
        Err(fault) => Err(TakeStop::Fault(fault)),
        Ok(name) => match parameters_at(alloc, words, &symbols.sorts, FIRST + 1) {
            Err(stop) => Err(stop),
            Ok((read, next)) => {
                let Parameters { names, sorts } = read;
                match sort_and_body(alloc, words, symbols, names, next) {
                    Err(stop) => Err(stop),
                    Ok((sort, body)) => Ok(Definition {
                        name,
                        parameters: sorts,
                        sort,
                        body,
                    }),
                }
            }
        },
    }
}
