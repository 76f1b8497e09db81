//! Numbers of items, and items that are made of others.
ghost use Rattle.std.specs.Prelude.{◌≡◌, ◌<◌, ◌^◌, ℕ, List, [], Result, IfOk, length};
ghost use Rattle.ffc_cert.specs.declared.flaws.Flaw.{Flaw};
ghost use Rattle.ffc_cert.specs.Items.{Reads, narrow_at, wide_at, literal_at, many_at, counted_at, powers_at, term_at};
ghost use Rattle.ffc_cert.specs.Items.{variables_at, chosen_at, multiple_at};

use crate::entries::{Literal, Multiple, Power, Term};
use crate::flaws::LineStop;
use crate::items::Items;
use crate::sequences::Sequence;
use std::alloc::{AllocError, Global};

/// What a line has after its first item.
pub trait Readable: Drop {
    ghost at: { List ℕ → Result (Self × List ℕ) Flaw };

    /// Takes the items of one from the front. Memory is taken by the bytes that are there, and never by a count.
    fn read(alloc: Global, items: &mut Items<'_>) -> Result<Self, LineStop>
        ensures { Reads result items.new (at items.old) };
}

impl Readable for u32 {
    ghost at = { narrow_at };

    fn read(_alloc: Global, items: &mut Items<'_>) -> Result<u32, LineStop> {
        items.narrow()
    }
}

impl Readable for u64 {
    ghost at = { wide_at };

    fn read(_alloc: Global, items: &mut Items<'_>) -> Result<u64, LineStop> {
        items.wide()
    }
}

impl Readable for Literal {
    ghost at = { literal_at };

    fn read(_alloc: Global, items: &mut Items<'_>) -> Result<Literal, LineStop> {
        items.literal()
    }
}

/// An empty list with room for so many items, or for those that the bytes left could hold, each with its space, if they are
/// fewer. So no memory is taken by a count alone.
fn with_room<T>(alloc: Global, count: u32, items: &Items<'_>) -> Result<Vec<T>, AllocError>
    ensures { IfOk result (λ read. read.items ≡ []) }
{
    Vec::with_capacity(alloc, (count as usize).min(items.len() / 2))
}

/// So many of a kind.
fn many<T: Readable>(
    alloc: Global,
    count: u32,
    items: &mut Items<'_>,
) -> Result<Sequence<T>, LineStop>
    ensures reads { Reads result items.new (many_at T.at count items.old) }
    ensures count { IfOk result (λ read. length read ≡ count) }
{
    let mut read = with_room(alloc, count, items)?;
    for _ in 0..count {
        let item = T::read(alloc, items)?;
        read.push(item)?;
    }
    Ok(Sequence::from_vec(read))
}

/// How many there are, and then each.
impl<T: Readable> Readable for Sequence<T> {
    ghost at = { counted_at T.at };

    #[tactic(auto, unfolding(crate::specs::Items::counted_at))]
    fn read(alloc: Global, items: &mut Items<'_>) -> Result<Sequence<T>, LineStop>
        ensures reads { Reads result items.new (counted_at T.at items.old) }
        ensures short { IfOk result (λ read. length read < 2 ^ 32) }
    {
        let count = items.narrow()?;
        many(alloc, count, items)
    }
}

/// So many powers of variables that increase strictly.
fn powers(alloc: Global, count: u32, items: &mut Items<'_>) -> Result<Sequence<Power>, LineStop>
    ensures { Reads result items.new (powers_at 0 count items.old) }
{
    let mut read = with_room(alloc, count, items)?;
    let mut least = 0u64;
    for _ in 0..count {
        let power = items.power(least)?;
        read.push(power)?;
        least = u64::from(power.0) + 1;
    }
    Ok(Sequence::from_vec(read))
}

/// So many variables that increase strictly.
fn variables(alloc: Global, count: u32, items: &mut Items<'_>) -> Result<Sequence<u32>, LineStop>
    ensures { Reads result items.new (variables_at 0 count items.old) }
{
    let mut read = with_room(alloc, count, items)?;
    let mut least = 0u64;
    for _ in 0..count {
        let variable = items.variable(least)?;
        read.push(variable)?;
        least = u64::from(variable) + 1;
    }
    Ok(Sequence::from_vec(read))
}

/// How many variables there are, and then each, from the lowest.
#[tactic(auto, unfolding(crate::specs::Items::chosen_at))]
pub fn chosen(alloc: Global, items: &mut Items<'_>) -> Result<Sequence<u32>, LineStop>
    ensures { Reads result items.new (chosen_at items.old) }
{
    let count = items.narrow()?;
    variables(alloc, count, items)
}

impl Readable for Term {
    ghost at = { term_at };

    #[tactic(auto, unfolding(crate::specs::Items::term_at))]
    fn read(alloc: Global, items: &mut Items<'_>) -> Result<Term, LineStop> {
        let coefficient = items.wide()?;
        let count = items.narrow()?;
        let powers = powers(alloc, count, items)?;
        Ok((coefficient, powers))
    }
}

impl Readable for Multiple {
    ghost at = { multiple_at };

    #[tactic(auto, unfolding(crate::specs::Items::multiple_at))]
    fn read(alloc: Global, items: &mut Items<'_>) -> Result<Multiple, LineStop> {
        let line = items.narrow()?;
        let polynomial = Sequence::read(alloc, items)?;
        Ok((line, polynomial))
    }
}
