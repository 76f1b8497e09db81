//! The theory: which equalities of a trail are judged, and the model or the lemma that comes of it.
ghost use Rattle.std.specs.Prelude.{◌≡◌, ◌++◌, ◌∷◌, [], IfOk, OnOk, OnErr, IsErrOf};
ghost use Rattle.ffc_base.specs.Metering.{Metered};
ghost use Rattle.ffc_cdcl.specs.Theories.{KeepsLemmas, NamesLemma, IsFalseOn};

use crate::components::Components;
use crate::equalities::{Equalities, Scope};
use crate::judging::{Judge, Judgement, negations};
use ffc_base::{Meter, SearchStop, Unit};
use ffc_cdcl::{Lit, Literals, Theory, TheoryAnswer};
use ffc_cert::Entry;
use ffc_circuit::Walk;
use ffc_congruence::Clash;
use ffc_entries::{Lemma, Origin, Residues, model};
use ffc_fixed::Fixed;
use ffc_matching::Matcher;
use ffc_term::Check;
use std::alloc::{AllocError, Global};

/// Judges trails by the equalities on which the truth of the assertions rests. Where those so far fix values that clash, it judges
/// the few that the clash rests on. Else it agrees as long as one of them has no value, since more of the trail decides them. Once
/// it has values of the constants with which they hold, those are a model whatever the other nodes are, and it agrees to
/// everything. Where their share of units is not enough for them, all equalities of the check are judged from then on.
#[derive(Drop)]
pub struct FieldTheory<'a> {
    alloc: Global,
    judge: Judge<'a>,
    /// It goes along with the trail, and with the equalities that it has come upon go what follows from them by congruence and
    /// what they fix.
    walk: Walk<'a>,
    matcher: Matcher<'a>,
    fixed: Fixed<'a>,
    /// All equalities of the check, and which of them are judged.
    equalities: Equalities,
    scope: Scope,
    /// With how many equalities matching has come to a clash whose refutation is too long.
    too_long: Option<usize>,
    /// Its lemmas, by number.
    clauses: Vec<Literals>,
    /// Where they are from.
    origins: Vec<Origin>,
    /// Whether something was set aside that more units may decide.
    unfinished: bool,
    found: Option<Entry>,
}

impl<'a> FieldTheory<'a> {
    /// The theory for a check, with no lemmas yet.
    pub fn new(
        alloc: Global,
        check: &Check<'a>,
        share: u64,
        bits: bool,
    ) -> Result<FieldTheory<'a>, AllocError>
        ensures { IfOk result (λ t. t.clauses.items ≡ []) }
    {
        Ok(FieldTheory {
            alloc,
            judge: Judge {
                alloc,
                check: *check,
                components: Components::of(alloc, check.table)?,
                share,
                bits,
            },
            walk: Walk::new(alloc, check.table, check.in_force)?,
            matcher: Matcher::new(alloc, check.table)?,
            fixed: Fixed::new(alloc, check.table)?,
            equalities: Equalities::of(alloc, check.table)?,
            scope: Scope::Needed,
            too_long: None,
            clauses: Vec::new(alloc),
            origins: Vec::new(alloc),
            unfinished: false,
            found: None,
        })
    }

    pub fn share(&self) -> u64 {
        self.judge.share
    }

    /// Whether something was set aside that more units may decide.
    pub fn is_unfinished(&self) -> bool {
        self.unfinished
    }

    /// Where its lemmas are from, by number.
    pub fn origins(&self) -> &[Origin] {
        self.origins.as_slice()
    }

    pub fn into_origins(self) -> Vec<Origin> {
        let FieldTheory {
            alloc: _,
            judge: _,
            walk: _,
            matcher: _,
            fixed: _,
            equalities: _,
            scope: _,
            too_long: _,
            clauses: _,
            origins,
            unfinished: _,
            found: _,
        } = self;
        origins
    }

    /// The model, if one was found.
    pub fn take_model(&mut self) -> Option<Entry>
        ensures { self.new.clauses ≡ self.old.clauses }
    {
        self.found.take()
    }

    /// Goes on with a trail whose first literals, so many, are those of the trail before.
    fn follow(&mut self, standing: usize, trail: &[Lit]) -> Result<(), AllocError>
        ensures { self.new.clauses ≡ self.old.clauses }
    {
        let kept = self.walk.follow(standing, trail)?;
        self.matcher.keep(kept);
        self.fixed.keep(kept);
        if let Some(count) = self.too_long {
            if kept < count {
                self.too_long = None;
            }
        }
        Ok(())
    }

    /// A lemma that matching finds of the equalities that the walk has come upon.
    fn matched(&mut self) -> Result<Option<Lemma>, AllocError>
        ensures { self.new.clauses ≡ self.old.clauses }
    {
        if self.too_long.is_some() {
            return Ok(None);
        }
        let Some(clash) = next_match(&mut self.matcher, self.walk.found())? else {
            return Ok(None);
        };
        let Some(found) = self.matcher.refutation(clash)? else {
            self.too_long = Some(self.matcher.len());
            return Ok(None);
        };
        Ok(Some(Lemma {
            order: found.order,
            lits: negations(self.alloc, found.equalities.as_slice())?,
            tree: found.tree,
        }))
    }

    /// Judges equalities. It is one Trial, besides what the searches take.
    fn judged(
        &self,
        equalities: &[Lit],
        at_once: bool,
        meter: &mut Meter,
    ) -> Result<Judgement, SearchStop>
        ensures metered { Metered SearchStop.Spent result meter.old meter.new }
    {
        meter.take(Unit::Trial)?;
        self.judge.judge(equalities, at_once, meter)
    }

    /// Equalities among those that the walk has come upon whose values clash.
    fn clash(&mut self) -> Result<Option<Vec<Lit>>, AllocError>
        ensures { self.new.clauses ≡ self.old.clauses }
    {
        next_clash(&mut self.fixed, self.walk.found())
    }

    /// Keeps a lemma.
    fn keep(&mut self, clause: &[Lit], origin: Origin) -> Result<(), AllocError>
        ensures ok { OnOk result (self.new.clauses.items ≡ self.old.clauses.items ++ clause.now ∷ []) }
        ensures err { OnErr result (self.new.clauses.items ≡ self.old.clauses.items) }
    {
        let copy = Literals::copied(self.alloc, clause)?;
        self.origins.push(origin)?;
        self.clauses.push(copy)?;
        Ok(())
    }

    /// Makes a clause that is false on a trail a lemma, and answers with it.
    fn object(
        &mut self,
        trail: &[Lit],
        clause: Literals,
        origin: Origin,
    ) -> Result<TheoryAnswer, SearchStop>
        ensures kept { KeepsLemmas self.old.clauses.items self.new.clauses.items }
        ensures lemma { IfOk result (NamesLemma self.new.clauses.items) }
        ensures refuted { IfOk result (IsFalseOn trail.now) }
        ensures unmetered { ¬ (IsErrOf result SearchStop.Spent) }
    {
        if !self.walk.truths().falsify(trail, clause.as_slice()) {
            // Its equalities are on the trail: this would be a fault of the walk.
            return Err(SearchStop::GaveUp);
        }
        let number = self.clauses.len() as u64;
        self.keep(clause.as_slice(), origin)?;
        Ok(TheoryAnswer::Conflict(clause, number))
    }

    /// Keeps the model of values with which the equalities hold.
    fn keep_model(&mut self, residues: &Residues) -> Result<(), AllocError>
        ensures { self.new.clauses ≡ self.old.clauses }
    {
        let entry = model(self.alloc, &self.judge.check, self.walk.truths(), residues)?;
        self.found = Some(entry);
        Ok(())
    }

    /// Judges the last trail by all its equalities, and gives the model that they lead to.
    pub fn judge_last(&mut self, meter: &mut Meter) -> Result<Option<Entry>, SearchStop>
        ensures same { self.new.clauses ≡ self.old.clauses }
        ensures metered { Metered SearchStop.Spent result meter.old meter.new }
    {
        let equalities = self.walk.equalities()?;
        if let Judgement::Values(residues) = self.judged(equalities.as_slice(), false, meter)? {
            self.keep_model(&residues)?;
        }
        Ok(self.take_model())
    }

    /// Answers by what was found of the equalities of a trail.
    fn answer(&mut self, trail: &[Lit], judgement: Judgement) -> Result<TheoryAnswer, SearchStop>
        ensures kept { KeepsLemmas self.old.clauses.items self.new.clauses.items }
        ensures lemma { IfOk result (NamesLemma self.new.clauses.items) }
        ensures refuted { IfOk result (IsFalseOn trail.now) }
        ensures unmetered { ¬ (IsErrOf result SearchStop.Spent) }
    {
        match judgement {
            Judgement::Values(residues) => {
                self.keep_model(&residues)?;
                Ok(TheoryAnswer::Agreed)
            }
            Judgement::Refuted(lemma) => {
                let clause = Literals::copied(self.alloc, lemma.lits.as_slice())?;
                self.object(trail, clause, Origin::Lemma(lemma))
            }
            Judgement::Undecided(equalities, unfinished) => {
                self.unfinished = self.unfinished || unfinished;
                let clause = negations(self.alloc, equalities.as_slice())?;
                self.object(trail, clause, Origin::SetAside)
            }
        }
    }

    /// Whether all equalities of the check are judged after this judgement of those that are needed.
    fn widens(&self, judgement: &Judgement) -> bool {
        matches!(self.scope, Scope::Needed)
            && matches!(judgement, Judgement::Undecided(_, true))
            && !self.judge.bits
            && self.equalities.lack_one(self.walk.truths())
    }

    /// Answers by the equalities on which the truth of the assertions rests, or agrees where all are judged from here on.
    fn answer_needed(
        &mut self,
        trail: &[Lit],
        meter: &mut Meter,
    ) -> Result<TheoryAnswer, SearchStop>
        ensures kept { KeepsLemmas self.old.clauses.items self.new.clauses.items }
        ensures lemma { IfOk result (NamesLemma self.new.clauses.items) }
        ensures refuted { IfOk result (IsFalseOn trail.now) }
        ensures metered { Metered SearchStop.Spent result meter.old meter.new }
    {
        let equalities = self.walk.equalities()?;
        let judgement = self.judged(equalities.as_slice(), false, meter)?;
        if self.widens(&judgement) {
            let until = meter.spent().saturating_add(meter.left() / 2);
            self.scope = Scope::All { until };
            return Ok(TheoryAnswer::Agreed);
        }
        self.answer(trail, judgement)
    }

    /// Answers by all equalities of the check, and agrees as long as one has no value.
    fn answer_all(
        &mut self,
        trail: &[Lit],
        until: u64,
        meter: &mut Meter,
    ) -> Result<TheoryAnswer, SearchStop>
        ensures kept { KeepsLemmas self.old.clauses.items self.new.clauses.items }
        ensures lemma { IfOk result (NamesLemma self.new.clauses.items) }
        ensures refuted { IfOk result (IsFalseOn trail.now) }
        ensures metered { Metered SearchStop.Spent result meter.old meter.new }
    {
        if self.equalities.lack_one(self.walk.truths()) {
            return Ok(TheoryAnswer::Agreed);
        }
        let equalities = self.equalities.valued(self.walk.truths())?;
        let judgement = self.judged(equalities.as_slice(), true, meter)?;
        if let Judgement::Undecided(_, _) = judgement {
            self.scope = Scope::NeededAgain;
            return self.answer_needed(trail, meter);
        }
        if meter.spent() >= until {
            self.scope = Scope::NeededAgain;
        }
        self.answer(trail, judgement)
    }
}

/// Adds those of some equalities that were not added before, until they clash.
fn next_match(matcher: &mut Matcher<'_>, equalities: &[Lit]) -> Result<Option<Clash>, AllocError> {
    for place in matcher.len()..equalities.len() {
        if let Some(clash) = matcher.add(equalities[place])? {
            return Ok(Some(clash));
        }
    }
    Ok(None)
}

/// Adds those of some equalities that were not added before, until their values clash.
fn next_clash(fixed: &mut Fixed<'_>, equalities: &[Lit]) -> Result<Option<Vec<Lit>>, AllocError> {
    for place in fixed.len()..equalities.len() {
        if let Some(clash) = fixed.add(equalities[place])? {
            return Ok(Some(clash));
        }
    }
    Ok(None)
}

impl Theory for FieldTheory<'_> {
    ghost lemmas = { λ t. t.clauses.items };

    ghost fits = { λ _ _. Unit {0} };

    fn check(
        &mut self,
        standing: usize,
        trail: &[Lit],
        meter: &mut Meter,
    ) -> Result<TheoryAnswer, SearchStop> {
        if self.found.is_some() {
            return Ok(TheoryAnswer::Agreed);
        }
        self.follow(standing, trail)?;
        if let Some(lemma) = self.matched()? {
            meter.take(Unit::Trial)?;
            return self.answer(trail, Judgement::Refuted(lemma));
        }
        if let Some(equalities) = self.clash()? {
            if let Judgement::Refuted(lemma) = self.judged(equalities.as_slice(), false, meter)? {
                return self.answer(trail, Judgement::Refuted(lemma));
            }
        }
        if self.walk.waits() {
            return Ok(TheoryAnswer::Agreed);
        }
        match self.scope {
            Scope::All { until } => self.answer_all(trail, until, meter),
            Scope::Needed | Scope::NeededAgain => self.answer_needed(trail, meter),
        }
    }
}
