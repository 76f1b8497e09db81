//! Commands without names, sorts and terms.
ghost use Rattle.std.specs.Prelude.{◌≡◌, ℕ, ◌≤◌, IfOk, [], drop, map, Ok, Err, if◌then◌else◌};
ghost use Rattle.ffc_smt.specs.Trees.{Leaf, Trees, Word, items_of};
ghost use Rattle.ffc_smt.specs.Faults.{Read, item, read_map, word_fault};
ghost use Rattle.ffc_smt.specs.Scopes.{State, level_of};
ghost use Rattle.ffc_smt.specs.Meaning.{found};
ghost use Rattle.ffc_smt.specs.Terms as smt;
ghost use Rattle.ffc_smt.specs.CommandReading.{alone, at_most_one, count_read, counted, get_info, get_option, infos};
ghost use Rattle.ffc_smt.specs.CommandReading.{is_too_late, keyword_read, levels_read, limits, logic_read, one};
ghost use Rattle.ffc_smt.specs.CommandReading.{option_read, options, string_read, truth_read};
ghost use Rattle.ffc_parts.specs.Heads.{setting_of};
ghost use Rattle.ffc_parts.specs.declared.heads.Head.TheVariants as head;
ghost use Rattle.ffc_words.specs.Outcomes.{outcome};
ghost use Rattle.ffc_words.specs.Words.{AreItemsAt, word_at};
ghost use Rattle.ffc_elab.specs.Reading.{AreInOrder, IsPlainHead, IsWithin, and_then, end_at, keyword_of, plain_of};
ghost use Rattle.ffc_elab.specs.Reading.{read_by_head, result_as, up_to};

use crate::items::{
    after_item, count_at, end_at, info_named, keyword_at, logic_at, string_at, truth_at,
};
use ffc_lex::TokenKind;
use ffc_parts::{Head, Setting, setting_named};
use ffc_words::{FaultCode, FormWords, ScriptFault};

/// The place of a command's first item.
pub(crate) const FIRST: usize = 2;

/// How many levels may be open above level 0.
pub(crate) const MOST_LEVELS: u32 = 65_536;

/// What `get-info` answers.
#[derive(Clone, Copy, PartialEq, Eq)]
pub(crate) enum Info {
    SolverName,
    Version,
    AssertionStackLevels,
    ReasonUnknown,
}

/// A command that is read without looking at the names in scope.
#[derive(Clone, Copy)]
pub(crate) enum Plain<'a> {
    SetLogic,
    SetOption(Setting, bool),
    GetOption(Setting),
    SetInfo,
    GetInfo(Info),
    /// An option or an information that is not known.
    Unsupported,
    /// The literal as written.
    Echo(&'a [u8]),
    CheckSat,
    GetModel,
    GetUnsatCore,
    GetUnsatAssumptions,
    Push(u32),
    Pop(u32),
    ResetAssertions,
    Reset,
    Exit,
}

/// A command that was read, and then the end of its form.
fn ended<'a>(words: &FormWords<'a>, at: usize, command: Plain<'a>) -> Result<Plain<'a>, ScriptFault>
    ensures reads { result_as plain_of result
        ≡ and_then (end_at (word_at words.now at)) (λ u. Ok (plain_of command.entry)) }
    ensures within { (level : ℕ) → IsWithin level command.entry → IfOk result (IsWithin level) }
{
    end_at(words, at)?;
    Ok(command)
}

/// `set-logic`.
fn set_logic<'a>(words: &FormWords<'a>) -> Result<Plain<'a>, ScriptFault>
    ensures reads { result_as plain_of result ≡ and_then (outcome (logic_read (Leaf (word_at words.now 2))))
        (λ c. and_then (end_at (word_at words.now 3)) (λ u. Ok c)) }
    ensures within { (level : ℕ) → IfOk result (IsWithin level) }
{
    logic_at(words, FIRST)?;
    end_at(words, FIRST + 1)?;
    Ok(Plain::SetLogic)
}

/// `echo`.
fn echo<'a>(words: &FormWords<'a>) -> Result<Plain<'a>, ScriptFault>
    ensures reads { result_as plain_of result ≡ and_then (outcome (string_read (Leaf (word_at words.now 2))))
        (λ c. and_then (end_at (word_at words.now 3)) (λ u. Ok c)) }
    ensures within { (level : ℕ) → IfOk result (IsWithin level) }
{
    let text = string_at(words, FIRST)?;
    end_at(words, FIRST + 1)?;
    Ok(Plain::Echo(text))
}

/// What `get-option` asks for by a keyword.
fn option_named<'a>(keyword: &[u8]) -> Plain<'a>
    ensures reads { plain_of result ≡ get_option (found options keyword.now) }
    ensures within { (level : ℕ) → IsWithin level result }
{
    match setting_named(keyword) {
        None => Plain::Unsupported,
        Some(setting) => Plain::GetOption(setting),
    }
}

/// `get-option`.
fn get_option<'a>(words: &FormWords<'a>) -> Result<Plain<'a>, ScriptFault>
    ensures reads { result_as plain_of result ≡ and_then (keyword_of (word_at words.now 2))
        (λ key. and_then (end_at (word_at words.now 3)) (λ u. Ok (get_option (found options key)))) }
    ensures within { (level : ℕ) → IfOk result (IsWithin level) }
{
    let key = keyword_at(words, FIRST)?;
    end_at(words, FIRST + 1)?;
    Ok(option_named(key))
}

/// What `get-info` asks for by a keyword.
fn information_named<'a>(keyword: &[u8]) -> Plain<'a>
    ensures reads { plain_of result ≡ get_info (found infos keyword.now) }
    ensures within { (level : ℕ) → IsWithin level result }
{
    match info_named(keyword) {
        None => Plain::Unsupported,
        Some(info) => Plain::GetInfo(info),
    }
}

/// `get-info`.
fn get_info<'a>(words: &FormWords<'a>) -> Result<Plain<'a>, ScriptFault>
    ensures reads { result_as plain_of result ≡ and_then (keyword_of (word_at words.now 2))
        (λ key. and_then (end_at (word_at words.now 3)) (λ u. Ok (get_info (found infos key)))) }
    ensures within { (level : ℕ) → IfOk result (IsWithin level) }
{
    let key = keyword_at(words, FIRST)?;
    end_at(words, FIRST + 1)?;
    Ok(information_named(key))
}

/// An option that is known, with its value.
fn set_known<'a>(
    words: &FormWords<'a>,
    setting: Setting,
    logic: bool,
) -> Result<Plain<'a>, ScriptFault>
    ensures reads { (s : State) → s.logic ≡ logic → result_as plain_of result
        ≡ (if is_too_late s (setting_of setting) then Err (word_fault 7 (word_at words.now 2)) else
        and_then (outcome (truth_read (Leaf (word_at words.now 3))))
        (λ b. and_then (end_at (word_at words.now 4)) (λ u. Ok (smt.SetOption (setting_of setting) b)))) }
    ensures within { (level : ℕ) → IfOk result (IsWithin level) }
{
    if logic && setting == Setting::GlobalDeclarations {
        return Err(words.fault(FaultCode::Order, FIRST));
    }
    let value = truth_at(words, FIRST + 1)?;
    end_at(words, FIRST + 2)?;
    Ok(Plain::SetOption(setting, value))
}

/// A keyword, and the end of the form at this place.
fn information<'a>(words: &FormWords<'a>, end: usize) -> Result<Plain<'a>, ScriptFault>
    ensures reads { result_as plain_of result ≡ and_then (keyword_of (word_at words.now 2))
        (λ _. and_then (end_at (word_at words.now end)) (λ u. Ok smt.SetInfo)) }
    ensures within { (level : ℕ) → IfOk result (IsWithin level) }
{
    keyword_at(words, FIRST)?;
    end_at(words, end)?;
    Ok(Plain::SetInfo)
}

/// `set-info`: its value, if there is one, is not looked at.
fn set_info<'a>(words: &FormWords<'a>) -> Result<Plain<'a>, ScriptFault>
    ensures reads { (items : Trees) (closing : Word) → AreItemsAt words.now 2 items closing []
        → AreInOrder (drop 2 words.now)
        → result_as plain_of result
        ≡ outcome (read_map (λ _. smt.SetInfo) (item closing keyword_read at_most_one (items_of items))) }
    ensures within { (level : ℕ) → IfOk result (IsWithin level) }
{
    let end = after_item(words, FIRST + 1);
    information(words, end)
}

/// `set-option`.
fn set_option<'a>(words: &FormWords<'a>, logic: bool) -> Result<Plain<'a>, ScriptFault>
    ensures reads { (s : State) (items : Trees) (closing : Word) → s.logic ≡ logic
        → AreItemsAt words.now 2 items closing [] → AreInOrder (drop 2 words.now)
        → result_as plain_of result ≡ outcome (option_read s closing (items_of items)) }
    ensures within { (level : ℕ) → IfOk result (IsWithin level) }
{
    match keyword_at(words, FIRST) {
        Err(fault) => Err(fault),
        Ok(key) => match setting_named(key) {
            None => {
                let end = after_item(words, FIRST + 1);
                ended(words, end, Plain::Unsupported)
            }
            Some(setting) => set_known(words, setting, logic),
        },
    }
}

/// One level, where a number is left out.
fn one_level(words: &FormWords, most: u32) -> Result<u32, ScriptFault>
    ensures reads { result_as (λ n. n) result ≡ outcome (counted (up_to most) (word_at words.now 2) 1) }
    ensures within { IfOk result (λ n. n ≤ most) }
{
    if most == 0 {
        return Err(words.fault(FaultCode::Levels, FIRST));
    }
    Ok(1)
}

/// So many levels.
fn some_levels(words: &FormWords, most: u32) -> Result<u32, ScriptFault>
    ensures reads { result_as (λ n. n) result
        ≡ and_then (outcome (count_read (up_to most) (Leaf (word_at words.now 2))))
        (λ n. and_then (end_at (word_at words.now 3)) (λ u. Ok n)) }
    ensures within { IfOk result (λ n. n ≤ most) }
{
    let count = count_at(words, FIRST, most)?;
    end_at(words, FIRST + 1)?;
    Ok(count)
}

/// How many levels `push` or `pop` speaks of: at most so many, and 1 where the number is left out.
fn levels(words: &FormWords, most: u32) -> Result<u32, ScriptFault>
    ensures reads { (items : Trees) (closing : Word) → AreItemsAt words.now 2 items closing []
        → AreInOrder (drop 2 words.now)
        → result_as (λ n. n) result ≡ outcome (levels_read (up_to most) closing (items_of items)) }
    ensures within { IfOk result (λ n. n ≤ most) }
{
    match words.kind(FIRST) {
        TokenKind::RightParen => one_level(words, most),
        _ => some_levels(words, most),
    }
}

/// `push`, where so many levels are open.
fn push<'a>(words: &FormWords<'a>, level: u32) -> Result<Plain<'a>, ScriptFault>
    requires { level ≤ 65536 }
    ensures reads { (s : State) (items : Trees) (closing : Word) → level_of s ≡ level
        → AreItemsAt words.now 2 items closing [] → AreInOrder (drop 2 words.now)
        → result_as plain_of result ≡ outcome (read_by_head limits s head.Push closing (items_of items)) }
    ensures within { IfOk result (IsWithin level) }
{
    match levels(words, MOST_LEVELS - level) {
        Ok(count) => Ok(Plain::Push(count)),
        Err(fault) => Err(fault),
    }
}

/// `pop`, where so many levels are open.
fn pop<'a>(words: &FormWords<'a>, level: u32) -> Result<Plain<'a>, ScriptFault>
    ensures reads { (s : State) (items : Trees) (closing : Word) → level_of s ≡ level
        → AreItemsAt words.now 2 items closing [] → AreInOrder (drop 2 words.now)
        → result_as plain_of result ≡ outcome (read_by_head limits s head.Pop closing (items_of items)) }
    ensures within { IfOk result (IsWithin level) }
{
    match levels(words, level) {
        Ok(count) => Ok(Plain::Pop(count)),
        Err(fault) => Err(fault),
    }
}

/// A command that is one word.
fn alone<'a>(words: &FormWords<'a>, command: Plain<'a>) -> Result<Plain<'a>, ScriptFault>
    ensures reads { (items : Trees) (closing : Word) → AreItemsAt words.now 2 items closing []
        → result_as plain_of result ≡ outcome (alone (plain_of command.entry) closing (items_of items)) }
    ensures within { (level : ℕ) → IsWithin level command.entry → IfOk result (IsWithin level) }
{
    ended(words, FIRST, command)
}

/// A command without names, sorts and terms, where so many levels are open.
pub(crate) fn read_plain<'a>(
    words: &FormWords<'a>,
    head: Head,
    logic: bool,
    level: u32,
) -> Result<Plain<'a>, ScriptFault>
    requires plain { IsPlainHead head }
    requires few { level ≤ 65536 }
    ensures reads { (s : State) (items : Trees) (closing : Word) → s.logic ≡ logic → level_of s ≡ level
        → AreItemsAt words.now 2 items closing [] → AreInOrder (drop 2 words.now)
        → result_as plain_of result ≡ outcome (read_by_head limits s head closing (items_of items)) }
    ensures within { IfOk result (IsWithin level) }
{
    match head {
        Head::SetLogic => set_logic(words),
        Head::SetOption => set_option(words, logic),
        Head::GetOption => get_option(words),
        Head::SetInfo => set_info(words),
        Head::GetInfo => get_info(words),
        Head::Echo => echo(words),
        Head::CheckSat => alone(words, Plain::CheckSat),
        Head::GetUnsatCore => alone(words, Plain::GetUnsatCore),
        Head::GetUnsatAssumptions => alone(words, Plain::GetUnsatAssumptions),
        Head::GetModel => alone(words, Plain::GetModel),
        Head::Push => push(words, level),
        Head::Pop => pop(words, level),
        Head::ResetAssertions => alone(words, Plain::ResetAssertions),
        Head::Reset => alone(words, Plain::Reset),
        Head::Exit => alone(words, Plain::Exit),
        Head::DeclareConst
        | Head::DeclareFun
        | Head::DefineSort
        | Head::DefineFun
        | Head::Assert
        | Head::CheckSatAssuming
        | Head::GetValue => unreachable!(),
    }
}
