//! Names that are declared, with their sorts.
ghost use Rattle.std.specs.Prelude.{◌≡◌, [], drop, true, is_some, codes, Ok, if◌then◌else◌};
ghost use Rattle.std.specs.Str.{bytes_eq};
ghost use Rattle.ffc_smt.specs.Trees.{Leaf, Trees, Word, items_of};
ghost use Rattle.ffc_smt.specs.Faults.{item, last, read_map};
ghost use Rattle.ffc_smt.specs.Meaning.{found};
ghost use Rattle.ffc_smt.specs.TermReading.{sort_read};
ghost use Rattle.ffc_smt.specs.CommandReading.{fresh, fresh_read, limits, none_read};
ghost use Rattle.ffc_smt.specs.Scopes.{State, scope_of};
ghost use Rattle.ffc_smt.specs.Terms as smt;
ghost use Rattle.ffc_parts.specs.declared.heads.Head.TheVariants as head;
ghost use Rattle.ffc_terms.specs.Codes.{IsScope};
ghost use Rattle.ffc_words.specs.Outcomes.{outcome};
ghost use Rattle.ffc_words.specs.Words.{AreItemsAt, word_at};
ghost use Rattle.ffc_elab.specs.Reading.{AreInOrder, and_then, end_at, read_by_head, result_as};

use crate::items::end_at;
use crate::plain::FIRST;
use ffc_lex::{TokenKind, is_theory_symbol};
use ffc_term::Sort;
use ffc_terms::{Meaning, Names, Symbols, name_at, sort_at};
use ffc_words::{FaultCode, FormWords, ScriptFault};

/// A name, unless it is taken.
pub(crate) fn free_name<'a>(
    words: &FormWords,
    at: usize,
    name: &'a [u8],
    taken: bool,
) -> Result<&'a [u8], ScriptFault>
    ensures { result_as (λ b. b.now) result ≡ outcome (fresh taken (word_at words.now at) name.now) }
{
    if taken || is_theory_symbol(name) {
        return Err(words.fault(FaultCode::Twice, at));
    }
    Ok(name)
}

/// A new name of terms.
pub(crate) fn fresh_name<'a>(
    words: &FormWords<'a>,
    terms: &Names<Meaning>,
    at: usize,
) -> Result<&'a [u8], ScriptFault>
    ensures { result_as (λ b. b.now) result
        ≡ outcome (fresh_read (λ name. is_some (found terms.now name)) (Leaf (word_at words.now at))) }
{
    match name_at(words, at) {
        None => Err(words.fault(FaultCode::Shape, at)),
        Some(name) => {
            let taken = terms.get(name).is_some();
            free_name(words, at, name, taken)
        }
    }
}

/// A new name of sorts.
pub(crate) fn fresh_sort_name<'a>(
    words: &FormWords<'a>,
    sorts: &Names<Sort>,
    at: usize,
) -> Result<&'a [u8], ScriptFault>
    ensures { result_as (λ b. b.now) result
        ≡ outcome (fresh_read (λ name. if bytes_eq name (codes "Bool") then true else is_some (found sorts.now name))
        (Leaf (word_at words.now at))) }
{
    match name_at(words, at) {
        None => Err(words.fault(FaultCode::Shape, at)),
        Some(name) => {
            let taken = name == b"Bool".as_slice() || sorts.get(name).is_some();
            free_name(words, at, name, taken)
        }
    }
}

/// A sort, and the end of the form.
fn ended_sort(words: &FormWords, sort: Sort, at: usize) -> Result<Sort, ScriptFault>
    ensures { result_as (λ s. s) result ≡ and_then (end_at (word_at words.now at)) (λ u. Ok sort) }
{
    end_at(words, at)?;
    Ok(sort)
}

/// The sort at a place, after which the form ends.
pub(crate) fn last_sort(
    words: &FormWords,
    sorts: &Names<Sort>,
    at: usize,
) -> Result<Sort, ScriptFault>
    ensures { (items : Trees) (closing : Word) → AreItemsAt words.now at items closing []
        → AreInOrder (drop at words.now)
        → result_as (λ s. s) result
        ≡ outcome (read_map (λ p. p.0) (item closing (sort_read sorts.now) last (items_of items))) }
{
    match words.kind(at) {
        TokenKind::RightParen => Err(words.fault(FaultCode::Shape, at)),
        _ => match sort_at(sorts, words, at) {
            Err(fault) => Err(fault),
            Ok((sort, next)) => ended_sort(words, sort, next),
        },
    }
}

/// `()` and a sort at the place of the second item, after which the form ends.
pub(crate) fn constant_sort(words: &FormWords, sorts: &Names<Sort>) -> Result<Sort, ScriptFault>
    ensures { (items : Trees) (closing : Word) → AreItemsAt words.now 3 items closing [] → AreInOrder (drop 3 words.now)
        → result_as (λ s. s) result
        ≡ outcome
        (read_map (λ p. p.1.0) (item closing none_read (item closing (sort_read sorts.now) last) (items_of items))) }
{
    match words.kind(FIRST + 1) {
        TokenKind::LeftParen => match words.kind(FIRST + 2) {
            TokenKind::RightParen => last_sort(words, sorts, FIRST + 3),
            _ => Err(words.fault(FaultCode::Shape, FIRST + 2)),
        },
        _ => Err(words.fault(FaultCode::Shape, FIRST + 1)),
    }
}

/// `declare-const`: the name and its sort.
pub(crate) fn declare_const<'a>(
    words: &FormWords<'a>,
    symbols: &Symbols,
) -> Result<(&'a [u8], Sort), ScriptFault>
    ensures { (s : State) (items : Trees) (closing : Word) → IsScope s.nodes symbols.now (scope_of s)
        → AreItemsAt words.now 2 items closing [] → AreInOrder (drop 2 words.now)
        → result_as (λ d. smt.Declare d.0.now d.1) result
        ≡ outcome (read_by_head limits s head.DeclareConst closing (items_of items)) }
{
    match fresh_name(words, &symbols.terms, FIRST) {
        Err(fault) => Err(fault),
        Ok(name) => match last_sort(words, &symbols.sorts, FIRST + 1) {
            Err(fault) => Err(fault),
            Ok(sort) => Ok((name, sort)),
        },
    }
}

/// `declare-fun`: the name and its sort.
pub(crate) fn declare_fun<'a>(
    words: &FormWords<'a>,
    symbols: &Symbols,
) -> Result<(&'a [u8], Sort), ScriptFault>
    ensures { (s : State) (items : Trees) (closing : Word) → IsScope s.nodes symbols.now (scope_of s)
        → AreItemsAt words.now 2 items closing [] → AreInOrder (drop 2 words.now)
        → result_as (λ d. smt.Declare d.0.now d.1) result
        ≡ outcome (read_by_head limits s head.DeclareFun closing (items_of items)) }
{
    match fresh_name(words, &symbols.terms, FIRST) {
        Err(fault) => Err(fault),
        Ok(name) => match constant_sort(words, &symbols.sorts) {
            Err(fault) => Err(fault),
            Ok(sort) => Ok((name, sort)),
        },
    }
}

/// `define-sort`: the name and its sort.
pub(crate) fn define_sort<'a>(
    words: &FormWords<'a>,
    symbols: &Symbols,
) -> Result<(&'a [u8], Sort), ScriptFault>
    ensures { (s : State) (items : Trees) (closing : Word) → IsScope s.nodes symbols.now (scope_of s)
        → AreItemsAt words.now 2 items closing [] → AreInOrder (drop 2 words.now)
        → result_as (λ d. smt.DefineSort d.0.now d.1) result
        ≡ outcome (read_by_head limits s head.DefineSort closing (items_of items)) }
{
    match fresh_sort_name(words, &symbols.sorts, FIRST) {
        Err(fault) => Err(fault),
        Ok(name) => match constant_sort(words, &symbols.sorts) {
            Err(fault) => Err(fault),
            Ok(sort) => Ok((name, sort)),
        },
    }
}
