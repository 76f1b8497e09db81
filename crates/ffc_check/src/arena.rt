//! The clauses of a refutation.
ghost use Rattle.std.specs.Prelude.{◌≡◌, ℕ, ◌++◌, ◌∷◌, [], ◌<◌, ◌≤◌, length, Some, slice_get, slice_index, take, OnOk};
ghost use Rattle.ffc_rules.specs.Entries.{ends_empty};
ghost use Rattle.ffc_check.specs.Arena.{AreEnds, last_end, start_of};

use ffc_cert::Literal;
use std::alloc::{AllocError, Global};
use std::marker::Model;

/// Clauses, by number. Clauses see the list of them; their literals lie in one buffer.
#[derive(Drop)]
pub struct ClauseList {
    literals: Vec<Literal>,
    ends: Vec<usize>,
}

impl Model for ClauseList {
    ghost use Rattle.std.specs.Prelude.{List};
    ghost use Rattle.ffc_clause.specs.Clauses.{Clause};
    ghost use Rattle.ffc_check.specs.Arena.{clauses_in, IsArena};

    ghost Value = { List Clause };

    ghost view = { λ a. clauses_in a.literals.items 0 a.ends.items };

    ghost invariant = { λ a. IsArena a.literals.items a.ends.items };
}

/// Appends literals to a buffer. Out of memory, some of them may have been appended.
fn append(buffer: &mut Vec<Literal>, literals: &[Literal]) -> Result<(), AllocError>
    ensures ok { OnOk result (buffer.new.items ≡ buffer.old.items ++ literals.now) }
    ensures longer { (n : ℕ) × (buffer.new.items ≡ buffer.old.items ++ take n literals.now) }
{
    for literal in literals {
        buffer.push(*literal)?;
    }
    Ok(())
}

/// Where the clause of a number begins and ends.
fn bounds(ends: &[usize], k: usize) -> (usize, usize)
    requires inside { k < length ends.now }
    requires in_order { AreEnds 0 ends.now }
    ensures start { result.0 ≡ start_of 0 ends.now k }
    ensures end { result.1 ≡ slice_index ends.now k }
    ensures in_order { result.0 ≤ result.1 }
    ensures within { result.1 ≤ last_end 0 ends.now }
{
    if k == 0 {
        (0, ends[0])
    } else {
        (ends[k - 1], ends[k])
    }
}

/// Where the last clause ends.
fn last_end(ends: &[usize]) -> usize
    ensures { result ≡ last_end 0 ends.now }
{
    let count = ends.len();
    if count == 0 { 0 } else { ends[count - 1] }
}

impl ClauseList {
    /// No clauses. It takes no memory.
    pub fn new(alloc: Global) -> Self
        ensures { result ≡ [] }
    {
        ClauseList {
            literals: Vec::new(alloc),
            ends: Vec::new(alloc),
        }
    }

    pub fn len(&self) -> usize
        ensures { result ≡ length self.now }
    {
        self.ends.len()
    }

    /// The clause of this number.
    pub fn clause(&self, k: usize) -> &[Literal]
        requires { k < length self.now }
        ensures { slice_get self.now k ≡ Some result.now }
    {
        let (start, end) = bounds(self.ends.as_slice(), k);
        &self.literals[start..end]
    }

    /// Whether the last clause is the empty one.
    pub fn ends_empty(&self) -> bool
        ensures { result ≡ ends_empty self.now }
    {
        let count = self.ends.len();
        if count == 0 {
            return false;
        }
        self.clause(count - 1).is_empty()
    }

    /// Appends a clause.
    pub fn push(&mut self, clause: &[Literal]) -> Result<(), AllocError>
        ensures { OnOk result (self.new ≡ self.old ++ clause.now ∷ []) }
    {
        let end = last_end(self.ends.as_slice());
        self.literals.truncate(end);
        append(&mut self.literals, clause)?;
        self.ends.push(self.literals.len())?;
        Ok(())
    }
}
