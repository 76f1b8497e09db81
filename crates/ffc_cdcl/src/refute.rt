//! Refutations from the empty clause that was learned: only the learned clauses that it reaches, each one shown again to follow
//! by its hints.
ghost use Rattle.std.specs.Prelude.{◌≡◌, IfOk, IfSome};
ghost use Rattle.ffc_cdcl.specs.State.{IsKept};
ghost use Rattle.ffc_cdcl.specs.Steps.{Names, FollowsBy, IsRefutationBy, clauses_of};

use crate::answer::{Hint, HintedClause};
use crate::literal::{Lit, Literals};
use crate::solver::{Learned, Solver};
use crate::walk::Walk;
use std::alloc::AllocError;

/// Marks the clauses that these hints name.
fn mark_all(marks: &mut [bool], hints: &[Hint]) {
    for hint in hints {
        if let Hint::Step(k) = *hint {
            if (k as usize) < marks.len() {
                marks[k as usize] = true;
            }
        }
    }
}

impl Solver {
    /// Which of the learned clauses the last one reaches by hints.
    fn reached(&self) -> Result<Vec<bool>, AllocError> {
        let learned = self.learned.as_slice();
        let mut marks = vec![in self.alloc; false; learned.len()]?;
        let mut k = learned.len();
        while k > 0 {
            k -= 1;
            if k + 1 == learned.len() && k < marks.len() {
                marks[k] = true;
            }
            if k < marks.len() && marks[k] {
                mark_all(marks.as_mut_slice(), self.hints_of(&learned[k]));
            }
        }
        Ok(marks)
    }

    /// A hint with the numbers of an answer, and the clause that it names.
    fn translated<'a>(
        &'a self,
        hint: Hint,
        steps: &'a [HintedClause],
        numbers: &[usize],
    ) -> Option<(Hint, &'a [Lit])>
        ensures { IfSome result (λ named. Names (IsKept self.now.lemmas) self.now.added (clauses_of steps.now) named.0
            named.1.now) }
    {
        match hint {
            Hint::Added(k) => {
                let clause = self.added.get(k as usize)?;
                Some((hint, clause.as_slice()))
            }
            Hint::Lemma(k) => {
                let lemma = self.lemmas.get(k as usize)?;
                Some((Hint::Lemma(lemma.0), lemma.1.as_slice()))
            }
            Hint::Step(k) => {
                let number = *numbers.get(k as usize)?;
                let step = steps.get(number)?;
                Some((Hint::Step(number as u64), step.lits.as_slice()))
            }
        }
    }

    /// A learned clause as a step after others, where it follows by its hints.
    fn step(
        &self,
        walk: &mut Walk,
        learned: &Learned,
        steps: &[HintedClause],
        numbers: &[usize],
    ) -> Result<Option<HintedClause>, AllocError>
        ensures { IfOk result
            (λ found. IfSome found
            (λ step. FollowsBy (Names (IsKept self.now.lemmas) self.now.added (clauses_of steps.now)) step.lits
            step.hints.items)) }
    {
        let mut hints = Vec::new(self.alloc);
        walk.begin(learned.clause.as_slice())?;
        for hint in self.hints_of(learned) {
            let Some((named, clause)) = self.translated(*hint, steps, numbers) else {
                return Ok(None);
            };
            walk.take(clause)?;
            hints.push(named)?;
        }
        if !walk.follows() {
            return Ok(None);
        }
        let lits = Literals::copied(self.alloc, learned.clause.as_slice())?;
        Ok(Some(HintedClause { lits, hints }))
    }

    /// The steps to the last learned clause, where that is the empty one.
    pub(crate) fn refutation(
        &self,
        walk: &mut Walk,
    ) -> Result<Option<Vec<HintedClause>>, AllocError>
        ensures { IfOk result
            (λ found. IfSome found (λ steps. IsRefutationBy (IsKept self.now.lemmas) self.now.added steps.items)) }
    {
        let marks = self.reached()?;
        let mut numbers = vec![in self.alloc; 0; self.learned.len()]?;
        let mut steps: Vec<HintedClause> = Vec::new(self.alloc);
        for (k, learned) in self.learned.iter().enumerate() {
            if k >= marks.len() || k >= numbers.len() || !marks[k] {
                continue;
            }
            let number = steps.len();
            let Some(step) = self.step(walk, learned, steps.as_slice(), numbers.as_slice())? else {
                return Ok(None);
            };
            numbers[k] = number;
            steps.push(step)?;
        }
        let count = steps.len();
        if count == 0 || steps[count - 1].lits.len() > 0 {
            return Ok(None);
        }
        Ok(Some(steps))
    }
}
