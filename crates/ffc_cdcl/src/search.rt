//! The state of a search, and unit propagation.
ghost use Rattle.std.specs.Prelude.{◌≡◌, ◌<◌, [], IfOk, IsErrOf, length};
ghost use Rattle.ffc_base.specs.Metering.{Metered};
ghost use Rattle.ffc_cdcl.specs.Trails.{Pays};

use crate::answer::Hint;
use crate::arena::Arena;
use crate::lesson::Lesson;
use crate::order::Order;
use crate::packed::Packed;
use crate::trail::Trail;
use crate::walk::Walk;
use crate::watches::{Pair, Watched, Watcher, Watches, watch_another};
use ffc_base::{Meter, SearchStop};
use std::alloc::{AllocError, Global};

/// A search over the clauses of a solver. It is made anew by each call, and contracts speak of its trail alone: what it learns
/// is tested where it is kept.
#[derive(Drop)]
pub struct Search {
    pub alloc: Global,
    pub trail: Trail,
    pub arena: Arena,
    pub watches: Watches,
    pub order: Order,
    pub walk: Walk,
    pub lesson: Lesson,
    /// Which value each node had last.
    pub phases: Vec<bool>,
    /// How many of the trail's literals were propagated.
    pub propagated: usize,
    /// Clauses of at most one literal, which nothing watches.
    pub short: Vec<u32>,
    /// The clause of one literal that gives a node its value at level 0.
    pub units: Vec<Option<Hint>>,
    /// How many of the trail's literals have such a clause.
    pub derived: usize,
    /// Marks of nodes or of literals, all of them clear between calls.
    pub marks: Vec<bool>,
    /// Stamps on levels, of which the last is the greatest.
    pub stamps: Vec<u64>,
    pub stamp: u64,
    /// How many of the added clauses are known to be true, and how many were when each level began.
    pub cursor: usize,
    pub cursors: Vec<usize>,
    pub conflicts: u64,
    /// How many runs there were, and at which conflict this one began.
    pub runs: u64,
    pub run_began: u64,
    /// How often learned clauses were dropped, and at which conflict they are next.
    pub reductions: u64,
    pub next_reduction: u64,
}

/// At which conflict learned clauses are first dropped.
pub const FIRST_REDUCTION: u64 = 1000;

/// What became of a watcher: it stays, with a blocking literal, or it is gone.
#[derive(Clone, Copy)]
struct Visit {
    blocker: Option<Packed>,
    is_conflict: bool,
}

/// A watcher that stays.
fn kept_with(blocker: Packed) -> Visit {
    Visit {
        blocker: Some(blocker),
        is_conflict: false,
    }
}

/// A watcher that is gone.
fn gone() -> Visit {
    Visit {
        blocker: None,
        is_conflict: false,
    }
}

impl Search {
    /// A search over the nodes below a number, with no clauses.
    pub fn new(alloc: Global, nodes: u32) -> Result<Self, AllocError>
        ensures { IfOk result (λ s. s.trail ≡ record { nodes = nodes; literals = [] }) }
    {
        let count = nodes as usize;
        Ok(Search {
            alloc,
            trail: Trail::new(alloc, count)?,
            arena: Arena::new(alloc),
            watches: Watches::new(alloc, count)?,
            order: Order::new(alloc, count)?,
            walk: Walk::new(alloc),
            lesson: Lesson::new(alloc),
            phases: vec![in alloc; false; count]?,
            propagated: 0,
            short: Vec::new(alloc),
            units: vec![in alloc; None; count]?,
            derived: 0,
            marks: vec![in alloc; false; 2 * count]?,
            stamps: vec![in alloc; 0; count.saturating_add(1)]?,
            stamp: 0,
            cursor: 0,
            cursors: Vec::new(alloc),
            conflicts: 0,
            runs: 0,
            run_began: 0,
            reductions: 0,
            next_reduction: FIRST_REDUCTION,
        })
    }

    /// Visits a clause whose watched literal became false.
    fn visit(
        &mut self,
        watcher: Watcher,
        falsified: Packed,
        meter: &mut Meter,
    ) -> Result<Visit, SearchStop>
        ensures pays { Pays self.old.trail self.new.trail meter.old meter.new }
        ensures metered { Metered SearchStop.Spent result meter.old meter.new }
        ensures room { IsErrOf result SearchStop.Spent → length self.new.trail.literals < self.new.trail.nodes }
    {
        let Watcher { place, blocker } = watcher;
        if self.trail.has(blocker) {
            return Ok(kept_with(blocker));
        }
        let Some((start, end)) = self.arena.span(place) else {
            return Ok(gone());
        };
        let literals = &mut self.arena.words[start..end];
        match watch_another(&self.trail, literals, falsified) {
            Watched::Short => Ok(gone()),
            Watched::True(blocker) => Ok(kept_with(blocker)),
            Watched::Moved { to, other } => {
                let watcher = Watcher {
                    place,
                    blocker: other,
                };
                self.watches.push(to, watcher)?;
                Ok(gone())
            }
            Watched::Unit(literal) => {
                let clause = self.arena.number_at(place);
                let is_new = self.trail.assign(literal.literal(), Some(clause), meter)?;
                Ok(Visit {
                    blocker: Some(literal),
                    is_conflict: !is_new,
                })
            }
        }
    }

    /// Visits the clauses of two literals one of which became false. Gives one that is false, if one is.
    fn visit_pairs(
        &mut self,
        falsified: Packed,
        meter: &mut Meter,
    ) -> Result<Option<u32>, SearchStop>
        ensures pays { Pays self.old.trail self.new.trail meter.old meter.new }
        ensures metered { Metered SearchStop.Spent result meter.old meter.new }
        ensures room { IsErrOf result SearchStop.Spent → length self.new.trail.literals < self.new.trail.nodes }
    {
        let list = self.watches.take_pairs(falsified);
        let mut conflict = None;
        for k in 0..list.len() {
            let Pair { clause, other } = list[k];
            if self.trail.has(other) {
                continue;
            }
            if !self.trail.assign(other.literal(), Some(clause), meter)? {
                conflict = Some(clause);
                break;
            }
        }
        self.watches.put_pairs(falsified, list);
        Ok(conflict)
    }

    /// Visits the longer clauses that watch a literal which became false. Gives one that is false, if one is.
    fn visit_all(&mut self, falsified: Packed, meter: &mut Meter) -> Result<Option<u32>, SearchStop>
        ensures pays { Pays self.old.trail self.new.trail meter.old meter.new }
        ensures metered { Metered SearchStop.Spent result meter.old meter.new }
        ensures room { IsErrOf result SearchStop.Spent → length self.new.trail.literals < self.new.trail.nodes }
    {
        let mut list = self.watches.take(falsified);
        let mut kept = 0;
        let mut conflict = None;
        for k in 0..list.len() {
            let watcher = list[k];
            let place = watcher.place;
            let visit = match conflict {
                None => self.visit(watcher, falsified, meter)?,
                Some(_) => kept_with(watcher.blocker),
            };
            if visit.is_conflict {
                conflict = Some(self.arena.number_at(place));
            }
            if let Some(blocker) = visit.blocker {
                list[kept] = Watcher { place, blocker };
                kept += 1;
            }
        }
        list.truncate(kept);
        self.watches.put(falsified, list);
        Ok(conflict)
    }

    /// Propagates until nothing is left to propagate. Gives a clause that is false, if one is found.
    pub fn propagate(&mut self, meter: &mut Meter) -> Result<Option<u32>, SearchStop>
        ensures pays { Pays self.old.trail self.new.trail meter.old meter.new }
        ensures metered { Metered SearchStop.Spent result meter.old meter.new }
        ensures room { IsErrOf result SearchStop.Spent → length self.new.trail.literals < self.new.trail.nodes }
    {
        for _ in 0..self.trail.nodes() {
            let literals = self.trail.literals();
            if self.propagated >= literals.len() {
                break;
            }
            let falsified = Packed::of(literals[self.propagated]).negated();
            self.propagated += 1;
            if let Some(conflict) = self.visit_pairs(falsified, meter)? {
                return Ok(Some(conflict));
            }
            if let Some(conflict) = self.visit_all(falsified, meter)? {
                return Ok(Some(conflict));
            }
        }
        Ok(None)
    }

    /// Gives the nodes of clauses with one literal their values. Gives a clause that is false, if one is.
    pub fn assign_short(&mut self, meter: &mut Meter) -> Result<Option<u32>, SearchStop>
        ensures pays { Pays self.old.trail self.new.trail meter.old meter.new }
        ensures metered { Metered SearchStop.Spent result meter.old meter.new }
        ensures room { IsErrOf result SearchStop.Spent → length self.new.trail.literals < self.new.trail.nodes }
    {
        for k in 0..self.short.len() {
            let clause = self.short[k];
            let Some(word) = self.arena.literals_of(clause).first().copied() else {
                return Ok(Some(clause));
            };
            let literal = Packed(word).literal();
            if self.trail.is_false(literal) {
                return Ok(Some(clause));
            }
            self.trail.assign(literal, Some(clause), meter)?;
        }
        Ok(None)
    }

    /// Takes the trail back to a level.
    pub fn backjump(&mut self, level: u32) -> Result<(), AllocError> {
        for _ in 0..self.trail.nodes().saturating_add(1) {
            let Some(literal) = self.trail.pop_above(level) else {
                break;
            };
            let node = literal.node;
            if (node as usize) < self.phases.len() {
                self.phases[node as usize] = literal.positive;
            }
            self.order.insert(node)?;
        }
        self.propagated = self.propagated.min(self.trail.literals().len());
        let level = level as usize;
        if level < self.cursors.len() {
            self.cursor = self.cursors[level];
            self.cursors.truncate(level);
        }
        Ok(())
    }
}
