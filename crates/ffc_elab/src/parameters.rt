//! The parameters of a definition.
ghost use Rattle.std.specs.Prelude.{◌≡◌, ℕ, [], drop, is_some, List, reverse, IfOk};
ghost use Rattle.ffc_smt.specs.Trees.{Leaf, Tree, Trees, Word};
ghost use Rattle.ffc_smt.specs.Scopes.{State, scope_of};
ghost use Rattle.ffc_words.specs.Outcomes.{outcome};
ghost use Rattle.ffc_words.specs.Words.{AreItemsAt, IsTreeAt, word_at};
ghost use Rattle.ffc_elab.specs.Defining.{Adds, ReadsClosedSort, ReadsInside, ReadsParameter, ReadsParameterItem};
ghost use Rattle.ffc_elab.specs.Defining.{new_among};
ghost use Rattle.ffc_elab.specs.Reading.{AreInOrder, result_as};

use crate::declaring::free_name;
use crate::items::end_at;
use ffc_lex::TokenKind;
use ffc_term::Sort;
use ffc_terms::{Names, name_at, sort_at};
use ffc_words::{FaultCode, FormWords, ScriptFault, TakeStop};
use std::alloc::{AllocError, Global};

/// Parameters that were read: their names, and their sorts in order.
#[derive(Drop)]
pub(crate) struct Parameters {
    pub(crate) names: Names<Sort>,
    pub(crate) sorts: Vec<Sort>,
}

/// A name that is new among these.
fn new_name<'a>(
    words: &FormWords<'a>,
    names: &Names<Sort>,
    at: usize,
) -> Result<&'a [u8], ScriptFault>
    ensures { result_as (λ b. b.now) result ≡ outcome (new_among names.now (Leaf (word_at words.now at))) }
{
    match name_at(words, at) {
        None => Err(words.fault(FaultCode::Shape, at)),
        Some(name) => {
            let taken = names.get(name).is_some();
            free_name(words, at, name, taken)
        }
    }
}

/// A sort with which a list ends, and the place after the list.
fn closed_sort(
    words: &FormWords,
    sorts: &Names<Sort>,
    at: usize,
) -> Result<(Sort, usize), ScriptFault>
    ensures { (items : Trees) (closing : Word) (rest : List Word) → AreItemsAt words.now at items closing rest
        → AreInOrder (drop at words.now) → ReadsClosedSort sorts.now items closing at result }
{
    let _count = words.len();
    match words.kind(at) {
        TokenKind::RightParen => Err(words.fault(FaultCode::Shape, at)),
        _ => match sort_at(sorts, words, at) {
            Err(fault) => Err(fault),
            Ok((sort, next)) => match end_at(words, next) {
                Err(fault) => Err(fault),
                Ok(()) => Ok((sort, next.saturating_add(1))),
            },
        },
    }
}

/// A parameter `(X S)` after those of these names, and the place after it.
fn parameter_at<'a>(
    words: &FormWords<'a>,
    names: &Names<Sort>,
    sorts: &Names<Sort>,
    at: usize,
) -> Result<(&'a [u8], Sort, usize), ScriptFault>
    ensures { (tree : Tree) (rest : List Word) → IsTreeAt words.now at tree rest → AreInOrder (drop at words.now)
        → ReadsParameter sorts.now names.now tree at result }
{
    let _count = words.len();
    match words.kind(at) {
        TokenKind::LeftParen => match new_name(words, names, at.saturating_add(1)) {
            Err(fault) => Err(fault),
            Ok(name) => match closed_sort(words, sorts, at.saturating_add(2)) {
                Err(fault) => Err(fault),
                Ok((sort, next)) => Ok((name, sort, next)),
            },
        },
        _ => Err(words.fault(FaultCode::Shape, at)),
    }
}

impl Parameters {
    /// None so far.
    fn new(alloc: Global) -> Parameters
        ensures { (result.names ≡ []) × (result.sorts.items ≡ []) }
    {
        Parameters {
            names: Names::new(alloc),
            sorts: Vec::new(alloc),
        }
    }

    /// Reads one more, and answers the place after it.
    fn read_next(
        &mut self,
        alloc: Global,
        words: &FormWords,
        sorts: &Names<Sort>,
        at: usize,
    ) -> Result<usize, TakeStop>
        ensures { (tree : Tree) (rest : List Word) → IsTreeAt words.now at tree rest → AreInOrder (drop at words.now)
            → Adds sorts.now self.old self.new tree at result }
    {
        match parameter_at(words, &self.names, sorts, at) {
            Err(fault) => Err(TakeStop::Fault(fault)),
            Ok((name, sort, next)) => {
                let key = Vec::from_slice(alloc, name)?;
                self.names.push(alloc, key, sort)?;
                self.sorts.push(sort)?;
                Ok(next)
            }
        }
    }
}

/// Parameters, up to the parenthesis that closes their list, and the place after it.
fn parameters_from(
    alloc: Global,
    words: &FormWords,
    sorts: &Names<Sort>,
    at: usize,
) -> Result<(Parameters, usize), TakeStop>
    ensures { (s : State) (items : Trees) (closing : Word) (rest : List Word) → sorts.now ≡ (scope_of s).sorts
        → AreItemsAt words.now at items closing rest → AreInOrder (drop at words.now)
        → ReadsInside s items closing at result }
{
    let mut read = Parameters::new(alloc);
    let mut next = at;
    let count = words.len();
    for _ in at..count {
        match words.kind(next) {
            TokenKind::RightParen => return Ok((read, next.saturating_add(1))),
            _ => match read.read_next(alloc, words, sorts, next) {
                Err(stop) => return Err(stop),
                Ok(after) => next = after,
            },
        }
    }
    Err(TakeStop::Fault(words.fault(FaultCode::Shape, count)))
}

/// The list of parameters at a place, and the place after it.
pub(crate) fn parameters_at(
    alloc: Global,
    words: &FormWords,
    sorts: &Names<Sort>,
    at: usize,
) -> Result<(Parameters, usize), TakeStop>
    ensures { (s : State) (items : Trees) (closing : Word) (rest : List Word) → sorts.now ≡ (scope_of s).sorts
        → AreItemsAt words.now at items closing rest → AreInOrder (drop at words.now)
        → ReadsParameterItem s items closing at result }
{
    let _count = words.len();
    match words.kind(at) {
        TokenKind::LeftParen => parameters_from(alloc, words, sorts, at.saturating_add(1)),
        _ => Err(TakeStop::Fault(words.fault(FaultCode::Shape, at))),
    }
}

/// The same names, the first ones last.
pub(crate) fn reversed(alloc: Global, names: Names<Sort>) -> Result<Names<Sort>, AllocError>
    ensures { IfOk result (λ r. r ≡ reverse names) }
{
    let mut names = names;
    let mut others = Names::new(alloc);
    while let Some((name, sort)) = names.pop() {
        others.push(alloc, name, sort)?;
    }
    Ok(others)
}
