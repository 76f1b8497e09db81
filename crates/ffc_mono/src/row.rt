//! Rows of monomials.
ghost use Rattle.std.specs.Prelude.{◌≡◌, ◌<◌, ◌≤◌, ◌+◌, ◌-◌, ◌^◌, ◌==◌, map, List, [], ◌∷◌, ◌++◌, length, take};
ghost use Rattle.std.specs.Prelude.{slice_range, get_or, All, OnOk, OnErr, IfOk, IsOk};
ghost use Rattle.std.specs.Vec.{vec_len, vec_capacity};
ghost use Rattle.ffc_ring.specs.Monomial.{degree, mono_mul};
ghost use Rattle.ffc_mono.specs.declared.row.Mark.{Mark};
ghost use Rattle.ffc_mono.specs.Rows.{start_at, moved};

use crate::borrowed::MonoRef;
use crate::powers::{self, Power};
use std::alloc::{AllocError, Global};
use std::marker::Model;

/// What a row keeps of a monomial beside its powers.
#[derive(Clone, Copy, Debug)]
pub struct Mark {
    /// Where its powers end.
    end: usize,
    total_degree: u32,
    mask: u32,
}

/// A row of monomials: their powers in one buffer, and a mark for each. A clause sees the list of monomials.
#[derive(Debug, Drop)]
pub struct MonoRow {
    powers: Vec<Power>,
    marks: Vec<Mark>,
}

impl Model for MonoRow {
    ghost use Rattle.std.specs.Prelude.{ℕ, List};
    ghost use Rattle.ffc_mono.specs.Rows.{cut_at, IsRow};

    ghost Value = { List (List (ℕ × ℕ)) };

    ghost view = { λ r. cut_at 0 r.marks.items r.powers.items };

    ghost invariant = { λ r. IsRow r.powers.items r.marks.items (cut_at 0 r.marks.items r.powers.items) };
}

impl MonoRow {
    /// The row with no monomials. It takes no memory.
    pub fn new(alloc: Global) -> Self
        ensures { result ≡ [] }
    {
        MonoRow {
            powers: Vec::new(alloc),
            marks: Vec::new(alloc),
        }
    }

    /// The row with no monomials, with space for so many of them and for so many powers.
    pub fn with_capacity(alloc: Global, monomials: usize, powers: usize) -> Result<Self, AllocError>
        ensures { IfOk result (λ r. r ≡ []) }
    {
        Ok(MonoRow {
            powers: Vec::with_capacity(alloc, powers)?,
            marks: Vec::with_capacity(alloc, monomials)?,
        })
    }

    /// How many monomials there are.
    pub fn len(&self) -> usize
        ensures { result ≡ length self.now }
    {
        self.marks.len()
    }

    /// Whether there is no monomial.
    pub fn is_empty(&self) -> bool
        ensures { result ≡ (length self.now == 0) }
    {
        self.len() == 0
    }

    /// The monomial at a place.
    pub fn get(&self, i: usize) -> MonoRef<'_>
        requires { i < length self.now }
        ensures { result.powers.now ≡ get_or self.now i [] }
    {
        let start = start_of(self.marks.as_slice(), i);
        let mark = self.marks[i];
        MonoRef {
            powers: part(self.powers.as_slice(), start, mark.end),
            total_degree: mark.total_degree,
            mask: mark.mask,
        }
    }

    /// Appends a monomial.
    pub fn push(&mut self, m: MonoRef<'_>) -> Result<(), AllocError>
        ensures pushed { OnOk result (self.new ≡ self.old ++ m.entry.powers.now ∷ []) }
        ensures unchanged { OnErr result (self.new ≡ self.old) }
    {
        self.marks.reserve(1)?;
        self.powers.extend_from_slice(m.powers)?;
        let end = self.powers.len();
        self.marks.push(Mark {
            end,
            total_degree: m.total_degree,
            mask: m.mask,
        })?;
        Ok(())
    }

    /// Appends the product of two monomials.
    pub fn push_product(&mut self, m: MonoRef<'_>, n: MonoRef<'_>) -> Result<(), AllocError>
        requires { degree m.powers.now + degree n.powers.now ≤ 1024 }
        ensures pushed { OnOk result (self.new ≡ self.old ++ mono_mul m.entry.powers.now n.entry.powers.now ∷ []) }
        ensures unchanged { OnErr result (self.new ≡ self.old) }
    {
        self.marks.reserve(1)?;
        powers::append_product(&mut self.powers, m.powers, n.powers)?;
        let end = self.powers.len();
        self.marks.push(Mark {
            end,
            total_degree: m.total_degree + n.total_degree,
            mask: m.mask | n.mask,
        })?;
        Ok(())
    }

    /// Appends a run of another row, in two copies.
    pub fn extend_from(&mut self, other: &MonoRow, from: usize, to: usize) -> Result<(), AllocError>
        requires ordered { from ≤ to }
        requires within { to ≤ length other.now }
        ensures appended { OnOk result (self.new ≡ self.old ++ slice_range other.now from to) }
        ensures unchanged { OnErr result (self.new ≡ self.old) }
    {
        let marks = other.marks.as_slice();
        let start = start_of(marks, from);
        let end = start_of(marks, to);
        let place = self.powers.len();
        self.marks.reserve(to - from)?;
        self.powers
            .extend_from_slice(part(other.powers.as_slice(), start, end))?;
        append_moved(
            &mut self.marks,
            marks_between(marks, from, to),
            start,
            place,
        );
        Ok(())
    }

    /// Drops the monomials from a place on.
    pub fn truncate(&mut self, len: usize)
        ensures { self.new ≡ take len self.old }
    {
        if len < self.marks.len() {
            let end = start_of(self.marks.as_slice(), len);
            self.marks.truncate(len);
            self.powers.truncate(end);
        }
    }
}

impl Clone for MonoRow {
    ghost use Rattle.std.specs.Prelude.{◌≡◌};

    ghost is_clone = { λ r s. s ≡ r };

    fn clone(&self) -> Result<MonoRow, AllocError> {
        let alloc = *self.powers.allocator();
        Ok(MonoRow {
            powers: Vec::from_slice(alloc, self.powers.as_slice())?,
            marks: Vec::from_slice(alloc, self.marks.as_slice())?,
        })
    }
}

/// The powers from one place to another.
fn part(powers: &[Power], start: usize, end: usize) -> &[Power]
    requires ordered { start ≤ end }
    requires within { end ≤ length powers.now }
    ensures { result.now ≡ slice_range powers.now start end }
{
    &powers[start..end]
}

/// The marks from one place to another.
fn marks_between(marks: &[Mark], from: usize, to: usize) -> &[Mark]
    requires ordered { from ≤ to }
    requires within { to ≤ length marks.now }
    ensures { result.now ≡ slice_range marks.now from to }
{
    &marks[from..to]
}

/// Where the powers of the monomial at a place begin. Past the last one it is where they end.
fn start_of(marks: &[Mark], i: usize) -> usize
    requires { i ≤ length marks.now }
    ensures { result ≡ start_at marks.now i }
{
    if i == 0 { 0 } else { marks[i - 1].end }
}

/// Appends marks of monomials that are moved from one place to another.
fn append_moved(out: &mut Vec<Mark>, marks: &[Mark], start: usize, place: usize)
    requires room { vec_len out.old + length marks.now ≤ vec_capacity out.old }
    requires after { All (λ (k : Mark). (start ≤ k.end) × (k.end - start + place < 2 ^ 64)) marks.now }
    ensures { out.new.items ≡ out.old.items ++ map (moved start place) marks.now }
{
    for mark in marks {
        let end = mark.end - start + place;
        push_within(
            out,
            Mark {
                end,
                total_degree: mark.total_degree,
                mask: mark.mask,
            },
        );
    }
}

/// Appends a mark where there is space for it.
fn push_within(out: &mut Vec<Mark>, mark: Mark)
    requires { vec_len out.old < vec_capacity out.old }
    ensures items { out.new.items ≡ out.old.items ++ mark ∷ [] }
    ensures len { vec_len out.new ≡ vec_len out.old + 1 }
    ensures capacity { vec_capacity out.old ≤ vec_capacity out.new }
{
    match out.push(mark) {
        Ok(()) => {}
        Err(_) => unreachable!(),
    }
}
