//! The forms of lines.
ghost use Rattle.std.specs.Prelude.{◌≡◌, ◌<◌, ◌^◌, IfOk};
ghost use Rattle.std.specs.Str.{bytes_eq};
ghost use Rattle.ffc_cert.specs.Items.{Reads, Gives, ended};
ghost use Rattle.ffc_cert.specs.Trees.{new_trees};
ghost use Rattle.ffc_cert.specs.Lines.{assume_at, scheme_at, hinted_at, order_at, lemma_at, combine_at, bits_at, bits_in};
ghost use Rattle.ffc_cert.specs.Lines.{chain_at, step_at, split_at, values_at, clause_form, tree_form, step_form, form_at};
ghost use Rattle.ffc_cert.specs.Lines.{line_at, value_at, sat_at, unsat_at, steps_at, unknown_at, opening_form};
ghost use Rattle.ffc_cert.specs.Lines.{opening_at};

use crate::entries::{Cause, CertLine, Entry};
use crate::flaws::{Flaw, LineStop};
use crate::items::{Items, narrow_in};
use crate::readable::{Readable, chosen};
use crate::sequences::Sequence;
use std::alloc::Global;

/// What the first line of an entry says: how many values follow, or how many clauses, or the whole entry.
#[derive(Debug, Drop)]
pub enum Opening {
    Assignment(u32),
    Refutation(u32),
    Whole(Entry),
}

/// What an entry still needs: clauses, after the one whose tree is being read; trees of that clause; and steps of a chain of
/// the tree.
#[derive(Clone, Copy, Debug, PartialEq, Eq)]
pub struct Awaited {
    pub clauses: u64,
    pub trees: u64,
    pub steps: u64,
}

/// Whether an item is this word.
fn is_word(item: &[u8], word: &str) -> bool
    ensures { result ≡ bytes_eq item.now word.now }
{
    item == word.as_bytes()
}

/// What was read, where no item is left.
#[tactic(auto, unfolding(crate::specs::Items::ended))]
fn ended<T: Drop>(read: T, items: &Items<'_>) -> Result<T, LineStop>
    ensures ended { Gives result (ended (read, items.now)) }
    ensures same { IfOk result (λ x. x ≡ read) }
{
    if items.is_empty() {
        Ok(read)
    } else {
        Err(LineStop::Flaw(Flaw::Form))
    }
}

#[tactic(auto, unfolding(crate::specs::Lines::assume_at))]
fn assume(items: &mut Items<'_>) -> Result<CertLine, LineStop>
    ensures reads { Reads result items.new (assume_at items.old) }
    ensures short { IfOk result (λ line. new_trees line < 2 ^ 32) }
{
    let number = items.narrow()?;
    Ok(CertLine::Assume(number))
}

#[tactic(auto, unfolding(crate::specs::Lines::scheme_at))]
fn scheme(items: &mut Items<'_>) -> Result<CertLine, LineStop>
    ensures reads { Reads result items.new (scheme_at items.old) }
    ensures short { IfOk result (λ line. new_trees line < 2 ^ 32) }
{
    let node = items.narrow()?;
    let scheme = items.narrow()?;
    let index = items.narrow()?;
    Ok(CertLine::Scheme(node, scheme, index))
}

#[tactic(auto, unfolding(crate::specs::Lines::hinted_at))]
fn hinted(alloc: Global, items: &mut Items<'_>) -> Result<CertLine, LineStop>
    ensures reads { Reads result items.new (hinted_at items.old) }
    ensures short { IfOk result (λ line. new_trees line < 2 ^ 32) }
{
    let lits = Sequence::read(alloc, items)?;
    let hints = Sequence::read(alloc, items)?;
    Ok(CertLine::Hinted(lits, hints))
}

/// The order of a lemma. Version 1 names none.
#[tactic(auto, unfolding(crate::specs::Lines::order_at))]
fn order(version: u8, items: &mut Items<'_>) -> Result<Option<u64>, LineStop>
    ensures { Reads result items.new (order_at version items.old) }
{
    if version == 1 {
        return Ok(None);
    }
    let order = items.wide()?;
    Ok(Some(order))
}

#[tactic(auto, unfolding(crate::specs::Lines::lemma_at))]
fn lemma(alloc: Global, version: u8, items: &mut Items<'_>) -> Result<CertLine, LineStop>
    ensures reads { Reads result items.new (lemma_at version items.old) }
    ensures short { IfOk result (λ line. new_trees line < 2 ^ 32) }
{
    let order = order(version, items)?;
    let lits = Sequence::read(alloc, items)?;
    Ok(CertLine::Lemma { order, lits })
}

#[tactic(auto, unfolding(crate::specs::Lines::combine_at))]
fn combine(alloc: Global, items: &mut Items<'_>) -> Result<CertLine, LineStop>
    ensures reads { Reads result items.new (combine_at items.old) }
    ensures short { IfOk result (λ line. new_trees line < 2 ^ 32) }
{
    let multiples = Sequence::read(alloc, items)?;
    Ok(CertLine::Combine(multiples))
}

#[tactic(auto, unfolding(crate::specs::Lines::bits_at))]
fn bits(alloc: Global, items: &mut Items<'_>) -> Result<CertLine, LineStop>
    ensures reads { Reads result items.new (bits_at items.old) }
    ensures short { IfOk result (λ line. new_trees line < 2 ^ 32) }
{
    let line = items.narrow()?;
    let chosen = chosen(alloc, items)?;
    let polynomial = Sequence::read(alloc, items)?;
    let bits = Sequence::read(alloc, items)?;
    Ok(CertLine::Bits(line, chosen, polynomial, bits))
}

/// A line of bits. No version but 3 has one.
#[tactic(auto, unfolding(crate::specs::Lines::bits_in))]
fn bits_in(alloc: Global, version: u8, items: &mut Items<'_>) -> Result<CertLine, LineStop>
    ensures reads { Reads result items.new (bits_in version items.old) }
    ensures short { IfOk result (λ line. new_trees line < 2 ^ 32) }
{
    if version == 3 {
        bits(alloc, items)
    } else {
        Err(LineStop::Flaw(Flaw::Form))
    }
}

#[tactic(auto, unfolding(crate::specs::Lines::chain_at))]
fn chain(items: &mut Items<'_>) -> Result<CertLine, LineStop>
    ensures reads { Reads result items.new (chain_at items.old) }
    ensures short { IfOk result (λ line. new_trees line < 2 ^ 32) }
{
    let line = items.narrow()?;
    let variable = items.narrow()?;
    let steps = items.narrow()?;
    Ok(CertLine::Chain(line, variable, steps))
}

#[tactic(auto, unfolding(crate::specs::Lines::step_at))]
fn step(alloc: Global, items: &mut Items<'_>) -> Result<CertLine, LineStop>
    ensures reads { Reads result items.new (step_at items.old) }
    ensures short { IfOk result (λ line. new_trees line < 2 ^ 32) }
{
    let quotient = Sequence::read(alloc, items)?;
    let remainder = Sequence::read(alloc, items)?;
    Ok(CertLine::Step(quotient, remainder))
}

#[tactic(auto, unfolding(crate::specs::Lines::split_at))]
fn split(alloc: Global, items: &mut Items<'_>) -> Result<CertLine, LineStop>
    ensures reads { Reads result items.new (split_at items.old) }
    ensures short { IfOk result (λ line. new_trees line < 2 ^ 32) }
{
    let line = items.narrow()?;
    let variable = items.narrow()?;
    let zeros = Sequence::read(alloc, items)?;
    Ok(CertLine::Split(line, variable, zeros))
}

#[tactic(auto, unfolding(crate::specs::Lines::values_at))]
fn values(items: &mut Items<'_>) -> Result<CertLine, LineStop>
    ensures reads { Reads result items.new (values_at items.old) }
    ensures short { IfOk result (λ line. new_trees line < 2 ^ 32) }
{
    let variable = items.narrow()?;
    let trees = items.narrow()?;
    Ok(CertLine::Values(variable, trees))
}

#[tactic(auto, unfolding(crate::specs::Lines::clause_form))]
fn clause_form(
    alloc: Global,
    version: u8,
    word: &[u8],
    items: &mut Items<'_>,
) -> Result<CertLine, LineStop>
    ensures reads { Reads result items.new (clause_form version word.now items.old) }
    ensures short { IfOk result (λ line. new_trees line < 2 ^ 32) }
{
    if is_word(word, "a") {
        assume(items)
    } else if is_word(word, "n") {
        scheme(items)
    } else if is_word(word, "r") {
        hinted(alloc, items)
    } else if is_word(word, "f") {
        lemma(alloc, version, items)
    } else {
        Err(LineStop::Flaw(Flaw::Form))
    }
}

#[tactic(auto, unfolding(crate::specs::Lines::tree_form))]
fn tree_form(
    alloc: Global,
    version: u8,
    word: &[u8],
    items: &mut Items<'_>,
) -> Result<CertLine, LineStop>
    ensures reads { Reads result items.new (tree_form version word.now items.old) }
    ensures short { IfOk result (λ line. new_trees line < 2 ^ 32) }
{
    if is_word(word, "c") {
        combine(alloc, items)
    } else if is_word(word, "b") {
        bits_in(alloc, version, items)
    } else if is_word(word, "p") {
        chain(items)
    } else if is_word(word, "s") {
        split(alloc, items)
    } else if is_word(word, "v") {
        values(items)
    } else if is_word(word, "z") {
        Ok(CertLine::Close)
    } else {
        Err(LineStop::Flaw(Flaw::Form))
    }
}

#[tactic(auto, unfolding(crate::specs::Lines::step_form))]
fn step_form(alloc: Global, word: &[u8], items: &mut Items<'_>) -> Result<CertLine, LineStop>
    ensures reads { Reads result items.new (step_form word.now items.old) }
    ensures short { IfOk result (λ line. new_trees line < 2 ^ 32) }
{
    if is_word(word, "u") {
        step(alloc, items)
    } else {
        Err(LineStop::Flaw(Flaw::Form))
    }
}

#[tactic(auto, unfolding(crate::specs::Lines::form_at))]
fn form(
    alloc: Global,
    version: u8,
    awaited: Awaited,
    word: &[u8],
    items: &mut Items<'_>,
) -> Result<CertLine, LineStop>
    ensures reads { Reads result items.new (form_at version awaited word.now items.old) }
    ensures short { IfOk result (λ line. new_trees line < 2 ^ 32) }
{
    if awaited.steps > 0 {
        step_form(alloc, word, items)
    } else if awaited.trees > 0 {
        tree_form(alloc, version, word, items)
    } else {
        clause_form(alloc, version, word, items)
    }
}

/// A line of a refutation that needs these next.
#[tactic(auto, unfolding(crate::specs::Lines::line_at))]
pub fn refutation_line(
    alloc: Global,
    version: u8,
    awaited: Awaited,
    line: &[u8],
) -> Result<CertLine, LineStop>
    ensures read { Gives result (line_at version awaited line.now) }
    ensures short { IfOk result (λ line. new_trees line < 2 ^ 32) }
{
    let (word, mut items) = Items::of_line(line);
    let read = form(alloc, version, awaited, word, &mut items)?;
    ended(read, &items)
}

/// A line of values: a node and its value.
#[tactic(auto, unfolding(crate::specs::Lines::value_at))]
pub fn value_line(line: &[u8]) -> Result<(u32, u64), LineStop>
    ensures { Gives result (value_at line.now) }
{
    let (word, mut items) = Items::of_line(line);
    if !is_word(word, "=") {
        return Err(LineStop::Flaw(Flaw::Form));
    }
    let node = items.narrow()?;
    let value = items.wide()?;
    ended((node, value), &items)
}

#[tactic(auto, unfolding(crate::specs::Lines::sat_at))]
fn sat(items: &mut Items<'_>) -> Result<Opening, LineStop>
    ensures { Reads result items.new (sat_at items.old) }
{
    let count = items.narrow()?;
    Ok(Opening::Assignment(count))
}

#[tactic(auto, unfolding(crate::specs::Lines::unsat_at))]
fn unsat(items: &mut Items<'_>) -> Result<Opening, LineStop>
    ensures { Reads result items.new (unsat_at items.old) }
{
    let item = items.next()?;
    if is_word(item, "e") {
        return Ok(Opening::Whole(Entry::UnsatCases));
    }
    let count = narrow_in(item)?;
    Ok(Opening::Refutation(count))
}

#[tactic(auto, unfolding(crate::specs::Lines::steps_at))]
fn spent(items: &mut Items<'_>) -> Result<Opening, LineStop>
    ensures { Reads result items.new (steps_at items.old) }
{
    let trials = items.wide()?;
    let reductions = items.wide()?;
    let assignments = items.wide()?;
    let chains = items.wide()?;
    Ok(Opening::Whole(Entry::Unknown(Cause::Steps(trials, reductions, assignments, chains))))
}

#[tactic(auto, unfolding(crate::specs::Lines::unknown_at))]
fn unknown(items: &mut Items<'_>) -> Result<Opening, LineStop>
    ensures { Reads result items.new (unknown_at items.old) }
{
    let item = items.next()?;
    if is_word(item, "degree") {
        Ok(Opening::Whole(Entry::Unknown(Cause::Degree)))
    } else if is_word(item, "terms") {
        Ok(Opening::Whole(Entry::Unknown(Cause::Terms)))
    } else if is_word(item, "memory") {
        Ok(Opening::Whole(Entry::Unknown(Cause::Memory)))
    } else if is_word(item, "steps") {
        spent(items)
    } else {
        Err(LineStop::Flaw(Flaw::Form))
    }
}

#[tactic(auto, unfolding(crate::specs::Lines::opening_form))]
fn opening_form(word: &[u8], items: &mut Items<'_>) -> Result<Opening, LineStop>
    ensures { Reads result items.new (opening_form word.now items.old) }
{
    if is_word(word, "sat") {
        sat(items)
    } else if is_word(word, "unsat") {
        unsat(items)
    } else if is_word(word, "unknown") {
        unknown(items)
    } else {
        Err(LineStop::Flaw(Flaw::Form))
    }
}

/// The first line of an entry.
#[tactic(auto, unfolding(crate::specs::Lines::opening_at))]
pub fn first_line(line: &[u8]) -> Result<Opening, LineStop>
    ensures { Gives result (opening_at line.now) }
{
    let (word, mut items) = Items::of_line(line);
    let read = opening_form(word, &mut items)?;
    ended(read, &items)
}
