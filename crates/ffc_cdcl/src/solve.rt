//! The search for a model or a refutation.
ghost use Rattle.std.specs.Prelude.{◌≡◌, ◌<◌, ◌+◌, List, [], None, IfOk, IfSome, IsErrOf, IsSomeAnd, length};
ghost use Rattle.ffc_base.specs.Metering.{Metered, total};
ghost use Rattle.ffc_clause.specs.Propagation.{IsRefutedByPropagation};
ghost use Rattle.ffc_cdcl.specs.Outcomes.{OnModel, OnRefuted, OnSomeModel, OnSomeRefuted, IsModel};
ghost use Rattle.ffc_cdcl.specs.State.{AreListed, IsKept, LearnedFollow, SameClauses};
ghost use Rattle.ffc_cdcl.specs.Steps.{IsRefutation, IsRefutationBy};
ghost use Rattle.ffc_cdcl.specs.Theories.{KeepsLemmas};

use crate::answer::{HintedClause, Outcome};
use crate::literal::Literals;
use crate::search::Search;
use crate::solver::Solver;
use crate::theory::{Theory, TheoryAnswer};
use ffc_base::{Meter, SearchStop};

impl Solver {
    /// Propagates, asks the theory, and learns from a conflict or decides.
    fn turn<T: Theory>(
        &mut self,
        search: &mut Search,
        theory: &mut T,
        meter: &mut Meter,
    ) -> Result<Option<Outcome>, SearchStop>
        requires { AreListed (T.lemmas theory.old) self.old.lemmas }
        ensures model { IfOk result (OnSomeModel (λ trail. IsModel self.old.added trail × T.fits theory.new trail)) }
        ensures refuted { IfOk result
            (OnSomeRefuted (λ steps. IsRefutation self.old.added (T.lemmas theory.new) steps)) }
        ensures same { SameClauses self.old self.new }
        ensures listed { AreListed (T.lemmas theory.new) self.new.lemmas }
        ensures kept { KeepsLemmas (T.lemmas theory.old) (T.lemmas theory.new) }
        ensures metered { Metered SearchStop.Spent result meter.old meter.new }
    {
        if let Some(conflict) = search.propagate(meter)? {
            let found = self.learn_from(search, conflict, meter)?;
            return Ok(refuted_by(found));
        }
        let standing = search.trail.take_kept();
        match theory.check(standing, search.trail.literals(), meter)? {
            TheoryAnswer::Agreed => {
                if search.is_done(self.added.as_slice()) {
                    let trail = Literals::copied(self.alloc, search.trail.literals())?;
                    return Ok(Some(Outcome::Model(trail)));
                }
                search.branch(meter)?;
                Ok(None)
            }
            TheoryAnswer::Conflict(lemma, number) => {
                let found = self.learn_lemma(search, &lemma, number, meter)?;
                Ok(refuted_by(found))
            }
        }
    }

    /// Takes turns until there is an answer.
    fn run<T: Theory>(
        &mut self,
        search: &mut Search,
        theory: &mut T,
        meter: &mut Meter,
    ) -> Result<Outcome, SearchStop>
        requires { AreListed (T.lemmas theory.old) self.old.lemmas }
        ensures model { IfOk result (OnModel (λ trail. IsModel self.old.added trail × T.fits theory.new trail)) }
        ensures refuted { IfOk result (OnRefuted (λ steps. IsRefutation self.old.added (T.lemmas theory.new) steps)) }
        ensures same { SameClauses self.old self.new }
        ensures listed { AreListed (T.lemmas theory.new) self.new.lemmas }
        ensures kept { KeepsLemmas (T.lemmas theory.old) (T.lemmas theory.new) }
        ensures metered { Metered SearchStop.Spent result meter.old meter.new }
    {
        // Each turn without an answer puts a literal on the trail, which takes a unit.
        for _ in 0..meter.budget().saturating_add(1) {
            if let Some(outcome) = self.turn(search, theory, meter)? {
                return Ok(outcome);
            }
        }
        Err(SearchStop::GaveUp)
    }

    /// Propagates before the theory is asked, and refutes where that suffices.
    fn refute_at_once(
        &mut self,
        search: &mut Search,
        meter: &mut Meter,
    ) -> Result<Option<Vec<HintedClause>>, SearchStop>
        requires { search.old.trail ≡ record { nodes = self.old.nodes; literals = [] } }
        ensures refuted { IfOk result
            (λ found. IfSome found (λ steps. IsRefutationBy (IsKept self.new.lemmas) self.new.added steps.items)) }
        ensures settled { IfOk result (λ found. found ≡ None → IsRefutedByPropagation self.old.added → ⊥) }
        ensures same { SameClauses self.old self.new }
        ensures lemmas { self.new.lemmas ≡ self.old.lemmas }
        ensures metered { Metered SearchStop.Spent result meter.old meter.new }
        ensures bound { IsErrOf result SearchStop.Spent → meter.old.budget < total meter.old + self.old.nodes }
    {
        match search.settle(self.added.as_slice(), meter)? {
            Some(conflict) => Ok(Some(self.refute(search, conflict)?)),
            None => Ok(None),
        }
    }

    /// `solve`, without its clause on what was learned.
    fn answer<T: Theory>(
        &mut self,
        theory: &mut T,
        meter: &mut Meter,
    ) -> Result<Outcome, SearchStop>
        requires { AreListed (T.lemmas theory.old) self.old.lemmas }
        ensures model { IfOk result (OnModel (λ trail. IsModel self.old.added trail × T.fits theory.new trail)) }
        ensures refuted { IfOk result (OnRefuted (λ steps. IsRefutation self.old.added (T.lemmas theory.new) steps)) }
        ensures same { SameClauses self.old self.new }
        ensures listed { AreListed (T.lemmas theory.new) self.new.lemmas }
        ensures kept { KeepsLemmas (T.lemmas theory.old) (T.lemmas theory.new) }
        ensures metered { Metered SearchStop.Spent result meter.old meter.new }
        ensures bound { IsErrOf result SearchStop.Spent → IsRefutedByPropagation self.old.added → meter.old.budget
            < total meter.old + self.old.nodes }
    {
        self.forget();
        let mut search = self.begin()?;
        if let Some(steps) = self.refute_at_once(&mut search, meter)? {
            return Ok(Outcome::Refuted(steps));
        }
        self.run(&mut search, theory, meter)
    }

    /// Finds a trail that makes each added clause true and on which the theory agrees, or refutes the added clauses with the
    /// theory's lemmas.
    pub fn solve<T: Theory>(
        &mut self,
        theory: &mut T,
        meter: &mut Meter,
    ) -> Result<Outcome, SearchStop>
        requires { AreListed (T.lemmas theory.old) self.old.lemmas }
        ensures model { IfOk result (OnModel (λ trail. IsModel self.old.added trail × T.fits theory.new trail)) }
        ensures refuted { IfOk result (OnRefuted (λ steps. IsRefutation self.old.added (T.lemmas theory.new) steps)) }
        ensures kept { SameClauses self.old self.new }
        ensures listed { AreListed (T.lemmas theory.new) self.new.lemmas }
        ensures lemmas { KeepsLemmas (T.lemmas theory.old) (T.lemmas theory.new) }
        ensures follow { LearnedFollow self.new }
        ensures metered { Metered SearchStop.Spent result meter.old meter.new }
        ensures propagates { IsErrOf result SearchStop.Spent → IsRefutedByPropagation self.old.added → meter.old.budget
            < total meter.old + self.old.nodes }
    {
        let answer = self.answer(theory, meter);
        self.learned_follow();
        answer
    }
}

/// A refutation as an outcome.
fn refuted_by(found: Option<Vec<HintedClause>>) -> Option<Outcome>
    ensures model { OnSomeModel (λ _. ⊥) result }
    ensures refuted { OnSomeRefuted (λ steps. IsSomeAnd found (λ those. steps ≡ those.items)) result }
{
    match found {
        Some(steps) => Some(Outcome::Refuted(steps)),
        None => None,
    }
}
