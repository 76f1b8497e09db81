//! The items of commands that are single words.
ghost use Rattle.std.specs.Prelude.{◌≡◌, ◌≤◌, List, IfOk, option_map};
ghost use Rattle.ffc_smt.specs.Meaning.{found};
ghost use Rattle.ffc_smt.specs.Terms as smt;
ghost use Rattle.ffc_smt.specs.Trees.{Leaf, Trees, Word};
ghost use Rattle.ffc_smt.specs.CommandReading.{count_read, infos, logic_read, string_read, truth_read};
ghost use Rattle.ffc_words.specs.Outcomes.{outcome};
ghost use Rattle.ffc_words.specs.Words.{AreItemsAt, word_at};
ghost use Rattle.ffc_elab.specs.Reading.{end_at, info_of, keyword_of, later_items, result_as, up_to};

use crate::plain::Info;
use ffc_lex::TokenKind;
use ffc_parts::{name_of, number_of};
use ffc_words::{FaultCode, FormWords, ScriptFault};

/// The parenthesis that closes the form.
pub(crate) fn end_at(words: &FormWords, at: usize) -> Result<(), ScriptFault>
    ensures { result_as (λ u. u) result ≡ end_at (word_at words.now at) }
{
    match words.kind(at) {
        TokenKind::RightParen => Ok(()),
        _ => Err(words.fault(FaultCode::Shape, at)),
    }
}

/// A keyword, as it is written.
pub(crate) fn keyword_at<'a>(words: &FormWords<'a>, at: usize) -> Result<&'a [u8], ScriptFault>
    ensures { result_as (λ b. b.now) result ≡ keyword_of (word_at words.now at) }
{
    match words.kind(at) {
        TokenKind::Keyword => Ok(words.bytes(at)),
        _ => Err(words.fault(FaultCode::Shape, at)),
    }
}

/// A string, as it is written.
pub(crate) fn string_at<'a>(words: &FormWords<'a>, at: usize) -> Result<&'a [u8], ScriptFault>
    ensures { result_as (λ b. smt.Echo b.now) result ≡ outcome (string_read (Leaf (word_at words.now at))) }
{
    match words.kind(at) {
        TokenKind::Str => Ok(words.bytes(at)),
        _ => Err(words.fault(FaultCode::Shape, at)),
    }
}

/// `true` or `false`.
pub(crate) fn truth_at(words: &FormWords, at: usize) -> Result<bool, ScriptFault>
    ensures { result_as (λ b. b) result ≡ outcome (truth_read (Leaf (word_at words.now at))) }
{
    match name_of(words.kind(at), words.bytes(at)) {
        None => Err(words.fault(FaultCode::Shape, at)),
        Some(name) => {
            if name == b"true".as_slice() {
                Ok(true)
            } else if name == b"false".as_slice() {
                Ok(false)
            } else {
                Err(words.fault(FaultCode::Shape, at))
            }
        }
    }
}

/// The name of the logic.
pub(crate) fn logic_at(words: &FormWords, at: usize) -> Result<(), ScriptFault>
    ensures { result_as (λ u. smt.SetLogic) result ≡ outcome (logic_read (Leaf (word_at words.now at))) }
{
    match name_of(words.kind(at), words.bytes(at)) {
        None => Err(words.fault(FaultCode::Shape, at)),
        Some(name) => {
            if name == b"QF_FF".as_slice() {
                Ok(())
            } else {
                Err(words.fault(FaultCode::Logic, at))
            }
        }
    }
}

/// A number of levels, at most so many.
pub(crate) fn count_at(words: &FormWords, at: usize, most: u32) -> Result<u32, ScriptFault>
    ensures reads { result_as (λ n. n) result ≡ outcome (count_read (up_to most) (Leaf (word_at words.now at))) }
    ensures within { IfOk result (λ n. n ≤ most) }
{
    match words.kind(at) {
        TokenKind::Numeral => {
            let n = number_of(words.bytes(at));
            if n <= u64::from(most) {
                Ok(n as u32)
            } else {
                Err(words.fault(FaultCode::Levels, at))
            }
        }
        _ => Err(words.fault(FaultCode::Shape, at)),
    }
}

/// What `get-info` answers for a keyword.
pub(crate) fn info_named(keyword: &[u8]) -> Option<Info>
    ensures { option_map info_of result ≡ found infos keyword.now }
{
    if b":name".as_slice() == keyword {
        Some(Info::SolverName)
    } else if b":version".as_slice() == keyword {
        Some(Info::Version)
    } else if b":assertion-stack-levels".as_slice() == keyword {
        Some(Info::AssertionStackLevels)
    } else if b":reason-unknown".as_slice() == keyword {
        Some(Info::ReasonUnknown)
    } else {
        None
    }
}

/// The place after the item at this place, if there is one.
pub(crate) fn after_item(words: &FormWords, at: usize) -> usize
    ensures { (items : Trees) (closing : Word) (rest : List Word) → AreItemsAt words.now at items closing rest
        → AreItemsAt words.now result (later_items items) closing rest }
{
    match words.kind(at) {
        TokenKind::RightParen => at,
        _ => words.skip(at),
    }
}
