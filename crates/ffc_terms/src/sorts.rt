//! Sorts: `Bool`, a name, `(_ FiniteField N)`.
ghost use Rattle.std.specs.Prelude.{◌≡◌, ◌+◌, ◌<◌, List, length, IfOk, IfErr};
ghost use Rattle.ffc_smt.specs.Trees.{Tree, Word, tokens_of};
ghost use Rattle.ffc_smt.specs.TermReading.{sort_read};
ghost use Rattle.ffc_words.specs.Outcomes.{outcome};
ghost use Rattle.ffc_words.specs.Words.{IsTreeAt, word_at};
ghost use Rattle.ffc_terms.specs.Answers.{answered};
ghost use Rattle.ffc_terms.specs.SortSteps as steps;

use crate::environment::Names;
use crate::named_words::{is_named, is_word, name_at};
use ffc_lex::TokenKind;
use ffc_parts::order_of;
use ffc_term::Sort;
use ffc_words::{FaultCode, FormWords, ScriptFault};

/// What the next word of a sort is to be.
#[derive(Clone, Copy, PartialEq, Eq)]
pub(crate) enum SortStage {
    Start,
    Underscore,
    Family,
    Order,
    /// The parenthesis that closes the sort of the field of this order.
    Close(u64),
}

/// What there is after a word.
#[derive(Clone, Copy, PartialEq, Eq)]
pub(crate) enum SortStep {
    More(SortStage),
    Whole(Sort),
}

/// The sort of a name.
fn named_sort(sorts: &Names<Sort>, words: &FormWords, at: usize) -> Result<SortStep, ScriptFault>
    ensures { answered result ≡ steps.named sorts.now (word_at words.now at) }
{
    let Some(name) = name_at(words, at) else {
        return Err(words.fault(FaultCode::Shape, at));
    };
    if name == b"Bool".as_slice() {
        return Ok(SortStep::Whole(Sort::Bool));
    }
    match sorts.get(name) {
        Some(sort) => Ok(SortStep::Whole(*sort)),
        None => Err(words.fault(FaultCode::Name, at)),
    }
}

/// The order of the field that a numeral names.
fn order(words: &FormWords, at: usize) -> Result<SortStep, ScriptFault>
    ensures { answered result ≡ steps.order (word_at words.now at) }
{
    if words.kind(at) != TokenKind::Numeral {
        return Err(words.fault(FaultCode::Shape, at));
    }
    match order_of(words.bytes(at)) {
        Some(p) => Ok(SortStep::More(SortStage::Close(p))),
        None => Err(words.fault(FaultCode::Modulus, at)),
    }
}

/// Reads the next word of a sort.
#[tactic(auto, unfolding(crate::specs::SortSteps::step))]
pub(crate) fn sort_step(
    sorts: &Names<Sort>,
    words: &FormWords,
    at: usize,
    stage: SortStage,
) -> Result<SortStep, ScriptFault>
    ensures { answered result ≡ steps.step sorts.now stage (word_at words.now at) }
{
    match stage {
        SortStage::Start => if words.kind(at) == TokenKind::LeftParen {
            Ok(SortStep::More(SortStage::Underscore))
        } else {
            named_sort(sorts, words, at)
        },
        SortStage::Underscore => if is_word(words, at, b"_") {
            Ok(SortStep::More(SortStage::Family))
        } else {
            Err(words.fault(FaultCode::Shape, at))
        },
        SortStage::Family => if is_named(words, at, b"FiniteField") {
            Ok(SortStep::More(SortStage::Order))
        } else {
            Err(words.fault(FaultCode::Shape, at))
        },
        SortStage::Order => order(words, at),
        SortStage::Close(p) => if words.kind(at) == TokenKind::RightParen {
            Ok(SortStep::Whole(Sort::Field(p)))
        } else {
            Err(words.fault(FaultCode::Shape, at))
        },
    }
}

/// The sort that begins at this place, and the place after it: the words from it on, one by one.
fn sort_from(
    sorts: &Names<Sort>,
    words: &FormWords,
    at: usize,
) -> Result<(Sort, usize), ScriptFault>
    ensures { steps.RunsAs words.now (steps.at sorts.now words.now at) result }
{
    let mut stage = SortStage::Start;
    for i in at..words.len() {
        match sort_step(sorts, words, i, stage) {
            Ok(SortStep::More(next)) => stage = next,
            Ok(SortStep::Whole(sort)) => return Ok((sort, i + 1)),
            Err(fault) => return Err(fault),
        }
    }
    Err(words.fault(FaultCode::Shape, words.len()))
}

/// The sort that begins at this place, and the place after it.
pub fn sort_at(
    sorts: &Names<Sort>,
    words: &FormWords,
    at: usize,
) -> Result<(Sort, usize), ScriptFault>
    ensures { (tree : Tree) (rest : List Word) → IsTreeAt words.now at tree rest → answered result
        ≡ steps.placed tree at (outcome (sort_read sorts.now tree)) }
{
    words.are_in_order();
    sort_from(sorts, words, at)
}
