//! When a search begins anew, and which learned clauses it drops.
use crate::answer::Hint;
use crate::arena::Record;
use crate::packed::Packed;
use crate::search::{FIRST_REDUCTION, Search};
use std::alloc::AllocError;

/// How many conflicts the shortest run has.
const SHORTEST_RUN: u64 = 100;

/// Clauses of at most so many levels are never dropped (Audemard and Simon 2009).
pub const KEPT_LBD: u32 = 2;

/// By how many conflicts more than before learned clauses are kept until they are dropped again.
const PAUSE_GROWTH: u64 = 50;

/// The number at a place of the sequence 1, 1, 2, 1, 1, 2, 4, .. (Luby, Sinclair and Zuckerman 1993).
pub fn luby(index: u64) -> u64 {
    let mut place = index;
    for _ in 0..u64::BITS {
        let width = u64::BITS - place.saturating_add(1).leading_zeros();
        if width == 0 || width >= u64::BITS {
            return 1;
        }
        let size = 1u64 << (width - 1);
        if place.saturating_add(1) == size.saturating_mul(2).saturating_sub(1) {
            return size;
        }
        place = place.saturating_sub(size.saturating_sub(1));
    }
    1
}

impl Search {
    /// Whether it is time to begin anew.
    pub fn is_run_over(&mut self) -> bool {
        let length = luby(self.runs).saturating_mul(SHORTEST_RUN);
        if self.conflicts.saturating_sub(self.run_began) < length {
            return false;
        }
        self.runs = self.runs.saturating_add(1);
        self.run_began = self.conflicts;
        true
    }

    /// Whether a literal on the trail was propagated by this clause.
    fn is_reason(&self, clause: u32) -> bool {
        match self.arena.literals_of(clause).first().copied() {
            Some(word) => self.reason_of(Packed(word).literal()) == Some(clause),
            None => false,
        }
    }

    /// Whether a clause may be dropped. One of two literals stays, so that only the first literal of those that are dropped can
    /// have been propagated by them.
    fn is_candidate(&self, clause: u32, record: &Record) -> bool {
        let is_learned = match record.hint {
            Hint::Step(_) => true,
            _ => false,
        };
        is_learned
            && record.lbd > KEPT_LBD
            && record.place.is_some()
            && self.arena.literals_of(clause).len() > 2
            && !self.is_reason(clause)
    }

    /// The learned clauses that may be dropped, those of many levels and the older ones first.
    fn candidates(&self) -> Result<Vec<(u32, u32)>, AllocError> {
        let mut found = Vec::new(self.alloc);
        for clause in self.arena.live.as_slice() {
            let clause = *clause;
            if let Some(record) = self.arena.record(clause) {
                if self.is_candidate(clause, &record) {
                    found.push((u32::MAX - record.lbd, clause))?;
                }
            }
        }
        found.sort_unstable();
        Ok(found)
    }

    /// Moves the clauses that are left together, and lets each one watch its literals anew.
    fn compact(&mut self) -> Result<(), AllocError> {
        self.arena.compact()?;
        self.watches.clear();
        for k in 0..self.arena.live.len() {
            let Some(clause) = self.arena.live.as_slice().get(k).copied() else {
                break;
            };
            if let Some(place) = self.arena.place_of(clause) {
                let literals = self.arena.literals_of(clause);
                self.watches.watch(literals, place, clause)?;
            }
        }
        Ok(())
    }

    /// Drops half of them, where there are many. The solver keeps them with their hints.
    pub fn drop_learned(&mut self) -> Result<(), AllocError> {
        if self.conflicts < self.next_reduction {
            return Ok(());
        }
        self.reductions = self.reductions.saturating_add(1);
        let pause = self
            .reductions
            .saturating_mul(PAUSE_GROWTH)
            .saturating_add(FIRST_REDUCTION);
        self.next_reduction = self.conflicts.saturating_add(pause);
        let found = self.candidates()?;
        for k in 0..found.len() / 2 {
            self.arena.drop_clause(found[k].1);
        }
        self.compact()
    }
}
