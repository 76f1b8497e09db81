//! A row of clauses for each place of a literal.
ghost use Rattle.std.specs.Prelude.{◌≡◌, ◌*◌, ◌<◌, not, [], ◌∷◌, ◌++◌, length, replicate, slice_set, IfOk, if◌then◌else◌};
ghost use Rattle.ffc_propagation.specs.Rows.{row_at, ends_with};

use std::alloc::{AllocError, Global};
use std::marker::Model;

/// Whether the last number of a row is this one.
fn ends_with(row: &[u32], clause: u32) -> bool
    ensures { result ≡ ends_with row.now clause }
{
    match row.last() {
        Some(last) => *last == clause,
        None => false,
    }
}

/// A row for each place. Those that are empty have no list of their own, so that many of them cost little. Clauses see the rows.
#[derive(Drop)]
pub(crate) struct Rows {
    alloc: Global,
    /// Of each place the number of its list, from 1 on; 0 where the row is empty.
    index: Vec<u32>,
    lists: Vec<Vec<u32>>,
}

impl Model for Rows {
    ghost use Rattle.std.specs.Prelude.{ℕ, List, length};
    ghost use Rattle.ffc_propagation.specs.Rows.{rows_of, rows_in, IsIndex};

    ghost Value = { List (List ℕ) };

    ghost view = { λ r. rows_in (rows_of r.lists.items) r.index.items };

    ghost invariant = { λ r. IsIndex (length r.lists.items) r.index.items };
}

impl Rows {
    /// Empty rows for the literals of the nodes below a number.
    pub(crate) fn none(alloc: Global, nodes: u32) -> Result<Rows, AllocError>
        ensures { IfOk result (λ rows. rows ≡ replicate (2 * nodes) []) }
    {
        Ok(Rows {
            alloc,
            index: vec![in alloc; 0; 2 * nodes as usize]?,
            lists: Vec::new(alloc),
        })
    }

    /// The row of a place.
    pub(crate) fn row(&self, place: usize) -> &[u32]
        requires { place < length self.now }
        ensures { result.now ≡ row_at self.now place }
    {
        let number = self.index[place] as usize;
        if number == 0 {
            return &[];
        }
        self.lists[number - 1].as_slice()
    }

    /// Gives a place a row of one clause. More lists than 2^32 are more than there is memory for.
    fn begin(&mut self, place: usize, clause: u32) -> Result<(), AllocError>
        requires { place < length self.old }
        ensures { IfOk result (λ _. self.new ≡ slice_set self.old place (clause ∷ [])) }
    {
        let mut list = Vec::new(self.alloc);
        list.push(clause)?;
        let Ok(number) = u32::try_from(self.lists.len() + 1) else {
            return Err(AllocError);
        };
        self.lists.push(list)?;
        self.index[place] = number;
        Ok(())
    }

    /// Puts a clause after the others in the row of a place.
    fn extend(&mut self, place: usize, clause: u32) -> Result<(), AllocError>
        requires { place < length self.old }
        ensures { IfOk result (λ _. self.new ≡ slice_set self.old place (row_at self.old place ++ clause ∷ [])) }
    {
        let number = self.index[place] as usize;
        if number == 0 {
            return self.begin(place, clause);
        }
        self.lists[number - 1].push(clause)?;
        Ok(())
    }

    /// Appends a clause to the row of a place, unless it is the last one there. Whether it was appended.
    pub(crate) fn append(&mut self, place: usize, clause: u32) -> Result<bool, AllocError>
        requires { place < length self.old }
        ensures added { IfOk result (λ added. added ≡ not (ends_with (row_at self.old place) clause)) }
        ensures rows { IfOk result (λ added. self.new ≡ (if added then slice_set self.old place
            (row_at self.old place ++ clause ∷ []) else self.old)) }
    {
        if ends_with(self.row(place), clause) {
            return Ok(false);
        }
        self.extend(place, clause)?;
        Ok(true)
    }
}
