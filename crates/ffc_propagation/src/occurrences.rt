//! Which clauses have which literals, and how many different literals of each clause are not known to be false.
ghost use Rattle.std.specs.Prelude.{◌≡◌, ℕ, ◌+◌, ◌<◌, ◌≤◌, ◌==◌, nat_lt, false, List, [], length, count_by};
ghost use Rattle.std.specs.Prelude.{slice_index_or, All, IfOk, OnOk};
ghost use Rattle.ffc_clause.specs.Clauses.{Clause, negated};
ghost use Rattle.ffc_clause.specs.Marks.{place_of};
ghost use Rattle.ffc_propagation.specs.Counts.{IsCounted};
ghost use Rattle.ffc_propagation.specs.Rows.{row_at, AreRows};
ghost use Rattle.ffc_propagation.specs.Settling.{clauses_of, IsOpened};
ghost use Rattle.ffc_propagation.specs.Trails.{IsWithin};

use crate::rows::Rows;
use ffc_cert::Literal;
use ffc_encode::NodeClause;
use std::alloc::{AllocError, Global};

/// The negation of a literal.
pub(crate) fn negated(literal: Literal) -> Literal
    ensures { result ≡ negated literal }
{
    (!literal.0, literal.1)
}

/// The place of a literal among the literals of all nodes.
fn place(literal: Literal) -> usize
    ensures { result ≡ place_of literal }
{
    2 * literal.1 as usize + usize::from(literal.0)
}

/// Appends a clause to the row of each of its literals. How many different ones it has.
fn append_all(rows: &mut Rows, clause: u32, literals: &[Literal]) -> Result<usize, AllocError>
    requires { All (λ l. place_of l < length rows.old) literals.now }
    ensures rows { (clauses : List Clause) → AreRows clauses clause [] rows.old
        → OnOk result (AreRows clauses clause literals.now rows.new) }
    ensures counted { (clauses : List Clause) → AreRows clauses clause [] rows.old
        → IfOk result (IsCounted (λ m. false) literals.now) }
    ensures long { OnOk result (length rows.new ≡ length rows.old) }
{
    let mut count = 0;
    for literal in literals {
        if rows.append(place(*literal), clause)? {
            count += 1;
        }
    }
    Ok(count)
}

/// Counts one less at each of these clauses.
fn lower(counts: &mut [usize], row: &[u32])
    requires { (k : ℕ) → count_by (λ j. j == k) row.now ≤ slice_index_or counts.old k 0 }
    ensures { (k : ℕ) → slice_index_or counts.new k 0 + count_by (λ j. j == k) row.now
        ≡ slice_index_or counts.old k 0 }
{
    for clause in row {
        counts[*clause as usize] -= 1;
    }
}

/// For each literal the clauses that have it, and for each clause how many different literals it has whose negations are not
/// known.
#[derive(Drop)]
pub(crate) struct Occurrences {
    rows: Rows,
    counts: Vec<usize>,
}

impl Occurrences {
    /// Nothing is known. The clauses have nodes below a number. It costs the number and the literals of the clauses. More than
    /// 2^32 clauses are more than there is memory for.
    pub(crate) fn of(
        alloc: Global,
        nodes: u32,
        clauses: &[NodeClause],
    ) -> Result<Occurrences, AllocError>
        requires { All (IsWithin nodes) (clauses_of clauses.now) }
        ensures { IfOk result (IsOpened nodes (clauses_of clauses.now)) }
    {
        let mut rows = Rows::none(alloc, nodes)?;
        let mut counts = Vec::new(alloc);
        for (number, clause) in clauses.iter().enumerate() {
            let Ok(number) = u32::try_from(number) else {
                return Err(AllocError);
            };
            let count = append_all(&mut rows, number, clause.lits.as_slice())?;
            counts.push(count)?;
        }
        Ok(Occurrences { rows, counts })
    }

    /// The clauses that have a literal.
    pub(crate) fn row(&self, literal: Literal) -> &[u32]
        requires { place_of literal < length self.now.rows }
        ensures { result.now ≡ row_at self.now.rows (place_of literal) }
    {
        self.rows.row(place(literal))
    }

    /// Whether the negations of all literals of a clause but one are known.
    pub(crate) fn is_unit(&self, clause: usize) -> bool
        requires { clause < length self.now.counts.items }
        ensures { result ≡ nat_lt (slice_index_or self.now.counts.items clause 0) 2 }
    {
        self.counts[clause] < 2
    }

    /// Counts one less at each clause that has this literal, whose negation is known from now on.
    pub(crate) fn lower(&mut self, literal: Literal)
        requires within { place_of literal < length self.old.rows }
        requires enough { (k : ℕ) → count_by (λ j. j == k) (row_at self.old.rows (place_of literal))
            ≤ slice_index_or self.old.counts.items k 0 }
        ensures rows { self.new.rows ≡ self.old.rows }
        ensures long { length self.new.counts.items ≡ length self.old.counts.items }
        ensures counts { (k : ℕ) → slice_index_or self.new.counts.items k 0
            + count_by (λ j. j == k) (row_at self.old.rows (place_of literal))
            ≡ slice_index_or self.old.counts.items k 0 }
    {
        lower(self.counts.as_mut_slice(), self.rows.row(place(literal)));
    }
}
