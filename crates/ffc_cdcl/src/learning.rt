//! What a solver learns from a clause that is false.
ghost use Rattle.std.specs.Prelude.{◌≡◌, ◌++◌, ◌∷◌, ◌⊎◌, [], IfOk, IfSome, IsErrOf};
ghost use Rattle.ffc_base.specs.Metering.{Metered};
ghost use Rattle.ffc_cdcl.specs.State.{IsKept, SameClauses};
ghost use Rattle.ffc_cdcl.specs.Steps.{IsRefutationBy};

use crate::answer::{Hint, HintedClause};
use crate::literal::{Lit, Literals};
use crate::search::Search;
use crate::solver::Solver;
use ffc_base::{Meter, SearchStop};

impl Solver {
    /// Learns the clause of one literal for a literal of level 0.
    fn derive_unit(&mut self, search: &mut Search, literal: Lit) -> Result<(), SearchStop>
        ensures same { SameClauses self.old self.new }
        ensures lemmas { self.new.lemmas ≡ self.old.lemmas }
        ensures unmetered { ¬ (IsErrOf result SearchStop.Spent) }
    {
        let Some(reason) = search.reason_of(literal) else {
            return Err(SearchStop::GaveUp);
        };
        if search.arena.literals_of(reason).len() < 2 {
            let hint = search.arena.hint(reason);
            search.set_unit(literal.node, hint);
            return Ok(());
        }
        search.hint_units(Some(literal), reason)?;
        let hint = Hint::Step(self.learned.len() as u64);
        let hints = search.lesson.hints.as_slice();
        if !self.learn(&mut search.walk, &[literal], hints, 0)? {
            return Err(SearchStop::GaveUp);
        }
        search.set_unit(literal.node, Some(hint));
        Ok(())
    }

    /// Learns the clauses of one literal for the literals of level 0 that have none yet.
    fn derive_units(&mut self, search: &mut Search) -> Result<(), SearchStop>
        ensures same { SameClauses self.old self.new }
        ensures lemmas { self.new.lemmas ≡ self.old.lemmas }
        ensures unmetered { ¬ (IsErrOf result SearchStop.Spent) }
    {
        let end = search.trail.end_of(0);
        for k in search.derived..end {
            let Some(literal) = search.trail.literals().get(k).copied() else {
                break;
            };
            self.derive_unit(search, literal)?;
        }
        search.derived = end;
        Ok(())
    }

    /// Learns what is left of a clause without its literals of level 0, and goes on with that in its place.
    fn shorten(&mut self, search: &mut Search, clause: u32) -> Result<(), SearchStop>
        ensures same { SameClauses self.old self.new }
        ensures lemmas { self.new.lemmas ≡ self.old.lemmas }
        ensures unmetered { ¬ (IsErrOf result SearchStop.Spent) }
    {
        let Some(lbd) = search.shortened(clause)? else {
            return Ok(());
        };
        let hint = Hint::Step(self.learned.len() as u64);
        let shorter = search.lesson.shorter.as_slice();
        let hints = search.lesson.hints.as_slice();
        if !self.learn(&mut search.walk, shorter, hints, lbd)? {
            return Err(SearchStop::GaveUp);
        }
        search.arena.shorten(clause, shorter, hint);
        Ok(())
    }

    /// Shortens the clauses by which the lesson follows.
    fn shorten_all(&mut self, search: &mut Search) -> Result<(), SearchStop>
        ensures same { SameClauses self.old self.new }
        ensures lemmas { self.new.lemmas ≡ self.old.lemmas }
        ensures unmetered { ¬ (IsErrOf result SearchStop.Spent) }
    {
        for k in 0..search.lesson.sources.len() {
            let Some(clause) = search.lesson.sources.as_slice().get(k).copied() else {
                break;
            };
            self.shorten(search, clause)?;
        }
        Ok(())
    }

    /// Learns the empty clause from a clause that is false at level 0, and gives the steps to it.
    pub(crate) fn refute(
        &mut self,
        search: &mut Search,
        conflict: u32,
    ) -> Result<Vec<HintedClause>, SearchStop>
        ensures refuted { IfOk result (λ steps. IsRefutationBy (IsKept self.new.lemmas) self.new.added steps.items) }
        ensures same { SameClauses self.old self.new }
        ensures lemmas { self.new.lemmas ≡ self.old.lemmas }
        ensures unmetered { ¬ (IsErrOf result SearchStop.Spent) }
    {
        self.derive_units(search)?;
        search.hint_units(None, conflict)?;
        let hints = search.lesson.hints.as_slice();
        if !self.learn(&mut search.walk, &[], hints, 0)? {
            return Err(SearchStop::GaveUp);
        }
        match self.refutation(&mut search.walk)? {
            Some(steps) => Ok(steps),
            None => Err(SearchStop::GaveUp),
        }
    }

    /// Learns from a clause that is false, or refutes by it.
    pub(crate) fn learn_from(
        &mut self,
        search: &mut Search,
        conflict: u32,
        meter: &mut Meter,
    ) -> Result<Option<Vec<HintedClause>>, SearchStop>
        ensures refuted { IfOk result
            (λ found. IfSome found (λ steps. IsRefutationBy (IsKept self.new.lemmas) self.new.added steps.items)) }
        ensures same { SameClauses self.old self.new }
        ensures lemmas { self.new.lemmas ≡ self.old.lemmas }
        ensures metered { Metered SearchStop.Spent result meter.old meter.new }
    {
        let level = search.highest_level(conflict);
        if level == 0 {
            return Ok(Some(self.refute(search, conflict)?));
        }
        self.conflicts = self.conflicts.saturating_add(1);
        self.derive_units(search)?;
        search.backjump(level)?;
        let Some(turn) = search.analyze(conflict)? else {
            return Err(SearchStop::GaveUp);
        };
        self.shorten_all(search)?;
        search.gather()?;
        let hint = Hint::Step(self.learned.len() as u64);
        let clause = search.lesson.clause.as_slice();
        let hints = search.lesson.hints.as_slice();
        if !self.learn(&mut search.walk, clause, hints, turn.lbd)? {
            return Err(SearchStop::GaveUp);
        }
        search.follow(hint, turn, meter)?;
        Ok(None)
    }

    /// Keeps a lemma that is false on the trail, and learns from it.
    pub(crate) fn learn_lemma(
        &mut self,
        search: &mut Search,
        lemma: &Literals,
        number: u64,
        meter: &mut Meter,
    ) -> Result<Option<Vec<HintedClause>>, SearchStop>
        ensures refuted { IfOk result
            (λ found. IfSome found (λ steps. IsRefutationBy (IsKept self.new.lemmas) self.new.added steps.items)) }
        ensures same { SameClauses self.old self.new }
        ensures lemmas { (self.new.lemmas ≡ self.old.lemmas) ⊎ (self.new.lemmas ≡ self.old.lemmas ++ (number, lemma.now)
            ∷ []) }
        ensures metered { Metered SearchStop.Spent result meter.old meter.new }
    {
        let hint = Hint::Lemma(self.lemmas.len() as u64);
        self.keep_lemma(number, lemma.as_slice())?;
        let conflict = search.attach_false(lemma.as_slice(), hint)?;
        self.learn_from(search, conflict, meter)
    }
}
