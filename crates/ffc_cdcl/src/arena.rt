//! The clauses of a search: their literals in one buffer, in an order that the watches change.
ghost use Rattle.std.specs.Prelude.{◌≤◌, IfSome, length};

use crate::answer::Hint;
use crate::literal::Lit;
use crate::packed::Packed;
use std::alloc::{AllocError, Global};
use std::mem;

/// How many words a clause has before its literals: its length and its number.
const HEAD: usize = 2;

/// What is kept of a clause beside its literals.
#[derive(Clone, Copy)]
pub struct Record {
    /// Where it lies in the buffer, and None where it was dropped.
    pub place: Option<u32>,
    /// The least literal block distance that it was seen to have.
    pub lbd: u32,
    /// Which clause of the solver it is.
    pub hint: Hint,
}

/// Clauses by number. Every access is tested, so that it needs no invariant.
#[derive(Drop)]
pub struct Arena {
    alloc: Global,
    /// Of each clause its length, its number and its literals, each a `Packed`.
    pub words: Vec<u32>,
    pub records: Vec<Record>,
    /// The numbers of the clauses that are left, in increasing order, and since the last `compact` of those that were dropped.
    pub live: Vec<u32>,
}

/// The literals of the clause at a place of a buffer.
#[inline(always)]
fn span_in(words: &[u32], place: u32) -> Option<(usize, usize)>
    ensures after { IfSome result (λ r. place ≤ r.0) }
    ensures order { IfSome result (λ r. r.0 ≤ r.1) }
    ensures within { IfSome result (λ r. r.1 ≤ length words.now) }
{
    let place = place as usize;
    if place >= words.len() {
        return None;
    }
    let start = place + HEAD;
    let end = start.saturating_add(words[place] as usize);
    if end > words.len() {
        return None;
    }
    Some((start, end))
}

/// Writes literals over the first words.
fn write_all(words: &mut [u32], literals: &[Lit]) {
    for k in 0..literals.len() {
        if k < words.len() {
            words[k] = Packed::of(literals[k]).0;
        }
    }
}

impl Arena {
    /// No clauses. It takes no memory.
    pub fn new(alloc: Global) -> Self {
        Arena {
            alloc,
            words: Vec::new(alloc),
            records: Vec::new(alloc),
            live: Vec::new(alloc),
        }
    }

    /// Where the literals of the clause at a place lie.
    #[inline(always)]
    pub fn span(&self, place: u32) -> Option<(usize, usize)>
        ensures order { IfSome result (λ r. r.0 ≤ r.1) }
        ensures within { IfSome result (λ r. r.1 ≤ length self.now.words.items) }
    {
        span_in(self.words.as_slice(), place)
    }

    /// The number of the clause at a place.
    #[inline(always)]
    pub fn number_at(&self, place: u32) -> u32 {
        match self.words.as_slice().get(place as usize + 1) {
            Some(number) => *number,
            None => u32::MAX,
        }
    }

    /// What is kept of a clause.
    #[inline(always)]
    pub fn record(&self, clause: u32) -> Option<Record> {
        self.records.as_slice().get(clause as usize).copied()
    }

    /// Where a clause lies in the buffer, and None where it was dropped.
    #[inline(always)]
    pub fn place_of(&self, clause: u32) -> Option<u32> {
        self.record(clause)?.place
    }

    /// The literals of a clause, each a `Packed`, or none where it was dropped.
    pub fn literals_of(&self, clause: u32) -> &[u32] {
        let Some(place) = self.place_of(clause) else {
            return &[];
        };
        match self.span(place) {
            Some((start, end)) => &self.words[start..end],
            None => &[],
        }
    }

    /// Where the literals of a clause lie in the buffer; nowhere, where it was dropped.
    #[inline(always)]
    pub fn span_of(&self, clause: u32) -> (usize, usize) {
        match self.place_of(clause) {
            Some(place) => self.span(place).unwrap_or((0, 0)),
            None => (0, 0),
        }
    }

    /// The literal at a place in the buffer.
    #[inline(always)]
    pub fn literal_at(&self, word: usize) -> Lit {
        match self.words.as_slice().get(word) {
            Some(word) => Packed(*word).literal(),
            None => Packed(0).literal(),
        }
    }

    /// Which clause of the solver this one is.
    pub fn hint(&self, clause: u32) -> Option<Hint> {
        match self.record(clause) {
            Some(record) => Some(record.hint),
            None => None,
        }
    }

    /// Adds a clause, and gives its place and its number.
    pub fn add(
        &mut self,
        literals: &[Lit],
        hint: Hint,
        lbd: u32,
    ) -> Result<(u32, u32), AllocError> {
        let (Ok(place), Ok(number), Ok(length)) = (
            u32::try_from(self.words.len()),
            u32::try_from(self.records.len()),
            u32::try_from(literals.len()),
        ) else {
            return Err(AllocError);
        };
        self.words.push(length)?;
        self.words.push(number)?;
        for literal in literals {
            self.words.push(Packed::of(*literal).0)?;
        }
        self.records.push(Record {
            place: Some(place),
            lbd,
            hint,
        })?;
        self.live.push(number)?;
        Ok((place, number))
    }

    fn set_length(&mut self, place: u32, length: u32) {
        if (place as usize) < self.words.len() {
            self.words[place as usize] = length;
        }
    }

    fn set_hint(&mut self, clause: u32, hint: Hint) {
        if (clause as usize) < self.records.len() {
            self.records[clause as usize].hint = hint;
        }
    }

    /// Notes in how many levels a clause has literals.
    pub fn set_lbd(&mut self, clause: u32, lbd: u32) {
        if (clause as usize) < self.records.len() {
            self.records[clause as usize].lbd = lbd;
        }
    }

    fn set_place(&mut self, clause: u32, place: Option<u32>) {
        if (clause as usize) < self.records.len() {
            self.records[clause as usize].place = place;
        }
    }

    /// Leaves fewer literals of a clause, which then is this clause of the solver.
    pub fn shorten(&mut self, clause: u32, literals: &[Lit], hint: Hint) {
        let (Some(place), Ok(length)) = (self.place_of(clause), u32::try_from(literals.len()))
        else {
            return;
        };
        let Some((start, end)) = self.span(place) else {
            return;
        };
        if literals.len() > end - start {
            return;
        }
        write_all(&mut self.words[start..end], literals);
        self.set_length(place, length);
        self.set_hint(clause, hint);
    }

    /// Drops a clause. Its literals stay in the buffer until `compact`.
    pub fn drop_clause(&mut self, clause: u32) {
        self.set_place(clause, None);
    }

    /// Appends the clause at a place of another buffer, and gives its place here.
    fn copy_from(&mut self, words: &[u32], place: u32) -> Result<Option<u32>, AllocError> {
        let Ok(copied) = u32::try_from(self.words.len()) else {
            return Err(AllocError);
        };
        let Some((_, end)) = span_in(words, place) else {
            return Ok(None);
        };
        self.words.extend_from_slice(&words[place as usize..end])?;
        Ok(Some(copied))
    }

    /// Moves the clauses that were not dropped together, in the order of their numbers.
    pub fn compact(&mut self) -> Result<(), AllocError> {
        let words = mem::replace(&mut self.words, Vec::new(self.alloc));
        let live = mem::replace(&mut self.live, Vec::new(self.alloc));
        for clause in live.as_slice() {
            let clause = *clause;
            if let Some(place) = self.place_of(clause) {
                let copied = self.copy_from(words.as_slice(), place)?;
                self.set_place(clause, copied);
                self.live.push(clause)?;
            }
        }
        Ok(())
    }
}
