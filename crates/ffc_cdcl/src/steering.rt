//! The steps of a search: propagation before any decision, decisions, and what follows a lesson.
ghost use Rattle.std.specs.Prelude.{◌≡◌, ◌<◌, true, None, All, IfOk, IsErrOf, length};
ghost use Rattle.ffc_base.specs.Metering.{Metered};
ghost use Rattle.ffc_cdcl.specs.Literals.{NamesNoNodeTwice, MakesTrue};
ghost use Rattle.ffc_cdcl.specs.Settled.{IsSettled};
ghost use Rattle.ffc_cdcl.specs.Trails.{Pays};

use crate::analysis::Turn;
use crate::answer::Hint;
use crate::literal::{Lit, Literals};
use crate::search::Search;
use crate::settled::{all_settled, first_untrue, makes_true};
use ffc_base::{Meter, SearchStop};
use std::alloc::AllocError;

impl Search {
    /// `settle`, without its clause on the trail.
    fn settle_all(
        &mut self,
        added: &[Literals],
        meter: &mut Meter,
    ) -> Result<Option<u32>, SearchStop>
        ensures settled { IfOk result (λ conflict. conflict ≡ None → All (IsSettled self.new.trail) added.now) }
        ensures pays { Pays self.old.trail self.new.trail meter.old meter.new }
        ensures metered { Metered SearchStop.Spent result meter.old meter.new }
        ensures room { IsErrOf result SearchStop.Spent → length self.new.trail.literals < self.new.trail.nodes }
    {
        if let Some(conflict) = self.assign_short(meter)? {
            return Ok(Some(conflict));
        }
        if let Some(conflict) = self.propagate(meter)? {
            return Ok(Some(conflict));
        }
        // Watches that missed a clause would be a fault of the search, which then gives up.
        if all_settled(&self.trail, added) {
            Ok(None)
        } else {
            Err(SearchStop::GaveUp)
        }
    }

    /// Propagates before any decision. Gives a clause that is false, if one is; else propagation has nothing left to do with the
    /// added clauses.
    pub fn settle(
        &mut self,
        added: &[Literals],
        meter: &mut Meter,
    ) -> Result<Option<u32>, SearchStop>
        ensures settled { IfOk result (λ conflict. conflict ≡ None → All (IsSettled self.new.trail) added.now) }
        ensures distinct { NamesNoNodeTwice self.new.trail.literals }
        ensures pays { Pays self.old.trail self.new.trail meter.old meter.new }
        ensures metered { Metered SearchStop.Spent result meter.old meter.new }
        ensures room { IsErrOf result SearchStop.Spent → length self.new.trail.literals < self.new.trail.nodes }
    {
        let answer = self.settle_all(added, meter);
        self.trail.names_no_node_twice();
        answer
    }

    /// Whether each added clause is true.
    pub fn is_done(&mut self, added: &[Literals]) -> bool
        ensures done { result ≡ true → MakesTrue self.new.trail.literals added.now }
        ensures trail { self.new.trail ≡ self.old.trail }
    {
        self.cursor = first_untrue(&self.trail, added, self.cursor);
        self.cursor >= added.len() && makes_true(&self.trail, added)
    }

    /// Begins a level.
    fn open_level(&mut self) -> Result<(), AllocError>
        ensures { self.new.trail ≡ self.old.trail }
    {
        self.cursors.push(self.cursor)?;
        self.trail.begin_level()
    }

    /// Decides a node, where one is left without a value.
    fn decide(&mut self, meter: &mut Meter) -> Result<bool, SearchStop>
        ensures metered { Metered SearchStop.Spent result meter.old meter.new }
    {
        for _ in 0..self.order.len() {
            let Some(node) = self.order.pop() else {
                break;
            };
            if self.trail.is_open(node) {
                let positive = match self.phases.as_slice().get(node as usize) {
                    Some(phase) => *phase,
                    None => false,
                };
                self.open_level()?;
                return self.trail.assign(Lit { node, positive }, None, meter);
            }
        }
        Ok(false)
    }

    /// Goes on after a trail on which nothing was wrong: perhaps anew, and by a decision.
    pub fn branch(&mut self, meter: &mut Meter) -> Result<(), SearchStop>
        ensures metered { Metered SearchStop.Spent result meter.old meter.new }
    {
        if self.is_run_over() {
            self.backjump(0)?;
        }
        self.drop_learned()?;
        if self.decide(meter)? {
            Ok(())
        } else {
            Err(SearchStop::GaveUp)
        }
    }

    /// Goes back to the level of a lesson, and puts its first literal on the trail.
    pub fn follow(&mut self, hint: Hint, turn: Turn, meter: &mut Meter) -> Result<(), SearchStop>
        ensures metered { Metered SearchStop.Spent result meter.old meter.new }
    {
        self.backjump(turn.level)?;
        let Some(literal) = self.lesson.clause.as_slice().first().copied() else {
            return Err(SearchStop::GaveUp);
        };
        let number = self.attach_lesson(hint, turn.lbd)?;
        self.order.decay();
        self.conflicts = self.conflicts.saturating_add(1);
        if self.trail.assign(literal, Some(number), meter)? {
            Ok(())
        } else {
            Err(SearchStop::GaveUp)
        }
    }
}
