//! What a conflict teaches: the clause of the first unique implication point (Marques-Silva and Sakallah 1996; Zhang, Madigan,
//! Moskewicz and Malik 2001), with the hints by which it follows.
use crate::answer::Hint;
use crate::literal::Lit;
use crate::pace::KEPT_LBD;
use crate::packed::Packed;
use crate::search::Search;
use ffc_term::NodeId;
use std::alloc::AllocError;

/// Where a lesson leads.
#[derive(Clone, Copy)]
pub struct Turn {
    /// The level to go back to.
    pub level: u32,
    /// The literal block distance of the clause.
    pub lbd: u32,
}

/// Clears the mark of a node.
fn clear_at(marks: &mut [bool], node: NodeId) {
    if (node as usize) < marks.len() {
        marks[node as usize] = false;
    }
}

impl Search {
    /// The level of a literal's node.
    #[inline(always)]
    pub fn level_of(&self, literal: Lit) -> u32 {
        match self.trail.entry(literal.node) {
            Some(entry) => entry.level,
            None => 0,
        }
    }

    #[inline(always)]
    pub fn is_marked(&self, node: NodeId) -> bool {
        (node as usize) < self.marks.len() && self.marks[node as usize]
    }

    /// Marks a node until the marks of the lesson are cleared.
    #[inline(always)]
    pub fn mark(&mut self, node: NodeId) -> Result<(), AllocError> {
        self.lesson.marked.push(node)?;
        if (node as usize) < self.marks.len() {
            self.marks[node as usize] = true;
        }
        Ok(())
    }

    /// Clears the marks of the nodes that were marked after so many.
    pub fn clear_marks(&mut self, kept: usize) {
        for node in self.lesson.marked.as_slice().iter().skip(kept) {
            clear_at(self.marks.as_mut_slice(), *node);
        }
        self.lesson.marked.truncate(kept);
    }

    /// The clause of one literal for a node of level 0.
    pub fn unit_of(&self, node: NodeId) -> Option<Hint> {
        match self.units.as_slice().get(node as usize) {
            Some(unit) => *unit,
            None => None,
        }
    }

    /// Sets the clause of one literal for a node of level 0.
    pub fn set_unit(&mut self, node: NodeId, unit: Option<Hint>) {
        if (node as usize) < self.units.len() {
            self.units[node as usize] = unit;
        }
    }

    /// Puts into the lesson the hints by which one literal of a clause follows, or none, where the others are false at level 0.
    pub fn hint_units(&mut self, left: Option<Lit>, clause: u32) -> Result<(), AllocError> {
        self.lesson.hints.truncate(0);
        let (start, end) = self.arena.span_of(clause);
        for k in start..end {
            let literal = self.arena.literal_at(k);
            let is_left = match left {
                Some(other) => other.is_same(literal),
                None => false,
            };
            if !is_left {
                if let Some(unit) = self.unit_of(literal.node) {
                    self.lesson.hints.push(unit)?;
                }
            }
        }
        if let Some(hint) = self.arena.hint(clause) {
            self.lesson.hints.push(hint)?;
        }
        Ok(())
    }

    /// Whether one of these literals in the buffer is of level 0.
    fn has_settled(&self, start: usize, end: usize) -> bool {
        for k in start..end {
            if self.level_of(self.arena.literal_at(k)) == 0 {
                return true;
            }
        }
        false
    }

    /// Puts into the lesson what is left of a clause without its literals of level 0, with the hints by which that follows, and
    /// gives the clause's literal block distance; None where it has no such literal.
    pub fn shortened(&mut self, clause: u32) -> Result<Option<u32>, AllocError> {
        let (start, end) = self.arena.span_of(clause);
        if !self.has_settled(start, end) {
            return Ok(None);
        }
        self.lesson.shorter.truncate(0);
        self.lesson.hints.truncate(0);
        for k in start..end {
            let literal = self.arena.literal_at(k);
            if self.level_of(literal) > 0 {
                self.lesson.shorter.push(literal)?;
            } else if let Some(unit) = self.unit_of(literal.node) {
                self.lesson.hints.push(unit)?;
            }
        }
        let Some(record) = self.arena.record(clause) else {
            return Ok(None);
        };
        self.lesson.hints.push(record.hint)?;
        Ok(Some(record.lbd))
    }

    /// The highest level of a clause's literals.
    pub fn highest_level(&self, clause: u32) -> u32 {
        let mut highest = 0;
        for word in self.arena.literals_of(clause) {
            highest = self.level_of(Packed(*word).literal()).max(highest);
        }
        highest
    }

    /// The clause by which a literal was propagated.
    pub fn reason_of(&self, literal: Lit) -> Option<u32> {
        match self.trail.entry(literal.node) {
            Some(entry) => entry.reason,
            None => None,
        }
    }

    /// Takes the literals of a clause into the lesson. Gives how many of them have this level and were not marked before.
    fn take_clause(&mut self, clause: u32, level: u32) -> Result<usize, AllocError> {
        self.recount_levels(clause);
        let mut open = 0usize;
        let (start, end) = self.arena.span_of(clause);
        for k in start..end {
            let literal = self.arena.literal_at(k);
            let own = self.level_of(literal);
            if own == 0 || self.is_marked(literal.node) {
                continue;
            }
            self.mark(literal.node)?;
            self.order.bump(literal.node);
            if own >= level {
                open = open.saturating_add(1);
            } else {
                self.lesson.clause.push(literal)?;
            }
        }
        Ok(open)
    }

    /// Resolves back along the trail until one literal of the level is left, and gives it.
    fn resolve(&mut self, conflict: u32, level: u32) -> Result<Option<Lit>, AllocError> {
        let mut open = self.take_clause(conflict, level)?;
        let count = self.trail.literals().len();
        for k in 0..count {
            let Some(literal) = self.trail.literals().get(count - 1 - k).copied() else {
                return Ok(None);
            };
            if !self.is_marked(literal.node) {
                continue;
            }
            if open <= 1 {
                return Ok(Some(literal));
            }
            let Some(reason) = self.reason_of(literal) else {
                return Ok(None);
            };
            self.lesson.reasons.push(reason)?;
            open = (open - 1).saturating_add(self.take_clause(reason, level)?);
        }
        Ok(None)
    }

    /// Gives the lesson its hints: none of the clauses by which it follows has a literal of level 0 any more.
    pub fn gather(&mut self) -> Result<(), AllocError> {
        self.lesson.hints.truncate(0);
        for clause in self.lesson.sources.as_slice() {
            if let Some(hint) = self.arena.hint(*clause) {
                self.lesson.hints.push(hint)?;
            }
        }
        Ok(())
    }

    /// Begins to count levels: none has the new stamp.
    fn begin_stamps(&mut self) {
        self.stamp = self.stamp.saturating_add(1);
    }

    /// Stamps a level, and gives 1 where it had no stamp yet.
    #[inline(always)]
    fn stamp_level(&mut self, level: u32) -> u32 {
        let level = level as usize;
        if level < self.stamps.len() && self.stamps[level] != self.stamp {
            self.stamps[level] = self.stamp;
            1
        } else {
            0
        }
    }

    /// How many levels the literals of the lesson have.
    fn count_levels(&mut self) -> u32 {
        self.begin_stamps();
        let mut count = 0u32;
        for k in 0..self.lesson.clause.len() {
            let Some(literal) = self.lesson.clause.as_slice().get(k).copied() else {
                break;
            };
            count = count.saturating_add(self.stamp_level(self.level_of(literal)));
        }
        count
    }

    /// Counts the levels of a learned clause anew where it is used, and notes them where there are fewer than before (Audemard
    /// and Simon 2009).
    fn recount_levels(&mut self, clause: u32) {
        let Some(record) = self.arena.record(clause) else {
            return;
        };
        if record.lbd <= KEPT_LBD {
            return;
        }
        self.begin_stamps();
        let mut count = 0u32;
        let (start, end) = self.arena.span_of(clause);
        for k in start..end {
            let level = self.level_of(self.arena.literal_at(k));
            count = count.saturating_add(self.stamp_level(level));
        }
        if count < record.lbd {
            self.arena.set_lbd(clause, count);
        }
    }

    /// Puts a literal of the highest level second, and gives that level.
    fn arrange(&mut self) -> u32 {
        let mut highest = 0;
        let mut place = 1;
        for k in 1..self.lesson.clause.len() {
            let level = self.level_of(self.lesson.clause[k]);
            if level > highest {
                highest = level;
                place = k;
            }
        }
        if place < self.lesson.clause.len() && self.lesson.clause.len() > 1 {
            self.lesson.clause.as_mut_slice().swap(1, place);
        }
        highest
    }

    /// Finds what a conflict teaches whose highest level is the trail's.
    pub fn analyze(&mut self, conflict: u32) -> Result<Option<Turn>, AllocError> {
        self.lesson.clear();
        let level = self.trail.level();
        let Some(point) = self.resolve(conflict, level)? else {
            return Ok(None);
        };
        self.minimize()?;
        self.clear_marks(0);
        self.lesson.list_sources(conflict)?;
        let last = self.lesson.clause.len();
        self.lesson.clause.push(point.negated())?;
        self.lesson.clause.as_mut_slice().swap(0, last);
        let level = self.arrange();
        let lbd = self.count_levels();
        Ok(Some(Turn { level, lbd }))
    }
}
