//! The literals that are assumed while hints are followed.
ghost use Rattle.std.specs.Prelude.{◌≡◌, ℕ, ◌<◌, ◌==◌, ◌&&◌, not, [], ◌∷◌, length, OnOk};
ghost use Rattle.std.specs.List.{list_any};
ghost use Rattle.ffc_clause.specs.Clauses.{is_among};
ghost use Rattle.ffc_clause.specs.Marks.{place_of, mark_at};

use ffc_cert::Literal;
use std::alloc::{AllocError, Global};
use std::marker::Model;

/// Literals that are assumed. Clauses see the list of them, the last one first.
///
/// There is a mark for each literal up to the highest that was assumed so far, which is cleared and not made anew: so an
/// entry makes at most two marks for each node of the table in all, the most of them perhaps at its first clause, and apart
/// from this each call costs what it reads.
#[derive(Drop)]
pub struct Assumed {
    marks: Vec<bool>,
    trail: Vec<Literal>,
}

impl Model for Assumed {
    ghost use Rattle.std.specs.Prelude.{List, reverse};
    ghost use Rattle.ffc_clause.specs.Clauses.{Literal as ClauseLiteral};
    ghost use Rattle.ffc_clause.specs.Marks.{AreMarked};

    ghost Value = { List ClauseLiteral };

    ghost view = { λ a. reverse a.trail.items };

    ghost invariant = { λ a. AreMarked a.marks.items (reverse a.trail.items) };
}

/// The place of a literal's mark.
fn place(literal: Literal) -> usize
    ensures { result ≡ place_of literal }
{
    2 * literal.1 as usize + usize::from(literal.0)
}

/// Makes a list of marks longer, so that a place has one.
fn reach(marks: &mut Vec<bool>, place: usize) -> Result<(), AllocError>
    ensures same { (k : ℕ) → mark_at marks.new.items k ≡ mark_at marks.old.items k }
    ensures long { OnOk result (place < length marks.new.items) }
{
    while marks.len() <= place {
        marks.push(false)?;
    }
    Ok(())
}

/// Clears the marks of these literals.
fn clear_all(marks: &mut [bool], literals: &[Literal])
    ensures { (k : ℕ) → mark_at marks.new k
        ≡ (mark_at marks.old k && not (list_any (λ l. place_of l == k) literals.now)) }
{
    for literal in literals {
        let k = place(*literal);
        if k < marks.len() {
            marks[k] = false;
        }
    }
}

impl Assumed {
    /// Nothing is assumed. It takes no memory.
    pub fn new(alloc: Global) -> Self
        ensures { result ≡ [] }
    {
        Assumed {
            marks: Vec::new(alloc),
            trail: Vec::new(alloc),
        }
    }

    /// Whether a literal is assumed.
    pub fn contains(&self, literal: Literal) -> bool
        ensures { result ≡ is_among self.now literal }
    {
        let k = place(literal);
        k < self.marks.len() && self.marks[k]
    }

    /// Assumes one more literal.
    pub fn assume(&mut self, literal: Literal) -> Result<(), AllocError>
        ensures { OnOk result (self.new ≡ literal ∷ self.old) }
    {
        let k = place(literal);
        reach(&mut self.marks, k)?;
        self.trail.push(literal)?;
        self.marks[k] = true;
        Ok(())
    }

    /// Assumes nothing any more. It costs the literals that were assumed, and takes no memory.
    pub fn clear(&mut self)
        ensures { self.new ≡ [] }
    {
        clear_all(self.marks.as_mut_slice(), self.trail.as_slice());
        self.trail.clear();
    }
}
