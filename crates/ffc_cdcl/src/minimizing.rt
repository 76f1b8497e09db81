//! Literals of a learned clause that follow from its others are left out, by the clauses that propagated them and, in turn,
//! their literals (Sörensson and Biere 2009).
use crate::literal::Lit;
use crate::search::Search;
use std::alloc::AllocError;
use std::mem;

/// Which levels there are, by their last six bits: levels that are told apart are different.
#[derive(Clone, Copy)]
struct Levels(u64);

impl Levels {
    fn with(self, level: u32) -> Levels {
        Levels(self.0 | 1u64 << (level % u64::BITS))
    }

    /// Whether the level may be one of them.
    fn may_have(self, level: u32) -> bool {
        self.0 >> (level % u64::BITS) & 1 == 1
    }
}

impl Search {
    /// Whether a literal that is not marked may follow from marked ones, which then takes its own clause: it is marked, and its
    /// clause is still to be read.
    fn postpone(&mut self, literal: Lit, levels: Levels) -> Result<bool, AllocError> {
        let Some(entry) = self.trail.entry(literal.node) else {
            return Ok(false);
        };
        if entry.reason.is_none() || !levels.may_have(entry.level) {
            return Ok(false);
        }
        self.mark(literal.node)?;
        self.lesson.waiting.push(literal)?;
        Ok(true)
    }

    /// Reads the clause of a literal that is to follow from marked ones, and says whether it may.
    fn read_reason(&mut self, literal: Lit, levels: Levels) -> Result<bool, AllocError> {
        let (Some(entry), Some(reason)) = (self.trail.entry(literal.node), self.reason_of(literal))
        else {
            return Ok(false);
        };
        self.lesson.implied.push((entry.position, reason))?;
        let (start, end) = self.arena.span_of(reason);
        for k in start..end {
            let other = self.arena.literal_at(k);
            if self.is_marked(other.node) {
                continue;
            }
            if self.level_of(other) > 0 && !self.postpone(other, levels)? {
                return Ok(false);
            }
        }
        Ok(true)
    }

    /// Whether a marked literal follows from other marked ones. Where it does, all that it follows from are marked.
    fn follows_from_marked(&mut self, literal: Lit, levels: Levels) -> Result<bool, AllocError> {
        let marked = self.lesson.marked.len();
        let implied = self.lesson.implied.len();
        self.lesson.waiting.truncate(0);
        self.lesson.waiting.push(literal)?;
        // Each literal waits once, since it is marked then.
        for _ in 0..self.trail.nodes().saturating_add(1) {
            let Some(next) = self.lesson.waiting.pop() else {
                break;
            };
            if !self.read_reason(next, levels)? {
                self.clear_marks(marked);
                self.lesson.implied.truncate(implied);
                return Ok(false);
            }
        }
        Ok(true)
    }

    /// Leaves out the literals that follow from others.
    pub fn minimize(&mut self) -> Result<(), AllocError> {
        let clause = mem::replace(&mut self.lesson.clause, Vec::new(self.alloc));
        let mut levels = Levels(0);
        for literal in clause.as_slice() {
            levels = levels.with(self.level_of(*literal));
        }
        for literal in clause.as_slice() {
            let literal = *literal;
            if self.reason_of(literal).is_none() || !self.follows_from_marked(literal, levels)? {
                self.lesson.clause.push(literal)?;
            }
        }
        self.lesson.implied.as_mut_slice().sort_unstable();
        Ok(())
    }
}
