//! Equalities as they are on a trail, judged field by field: values of all fields, or what one field refutes or leaves.
ghost use Rattle.std.specs.Prelude.{◌≡◌};
ghost use Rattle.ffc_base.specs.Metering.{Metered};

use crate::components::Components;
use crate::fields::{Answer, Problem, leave};
use ffc_base::{Meter, SearchStop};
use ffc_cdcl::{Lit, Literals};
use ffc_entries::{Lemma, Residues};
use ffc_field::FieldId;
use ffc_term::Check;
use std::alloc::{AllocError, Global};

/// What is found of equalities.
#[derive(Drop)]
pub enum Judgement {
    /// Values of all fields with which they hold.
    Values(Residues),
    /// Equalities that do not hold together.
    Refuted(Lemma),
    /// Equalities that are not decided; with true, more units may decide them.
    Undecided(Vec<Lit>, bool),
}

/// What the search over one field leads to.
#[derive(Drop)]
enum Verdict {
    /// Values with which its equalities hold.
    Fine(Vec<(u32, u64)>),
    /// Equalities that do not hold together.
    Refuted(Lemma),
    /// Its equalities are not decided; with true, more units may decide them.
    Undecided(Vec<Lit>, bool),
}

/// The negations of literals.
pub fn negations(alloc: Global, literals: &[Lit]) -> Result<Literals, AllocError> {
    let mut negated = Literals::new(alloc);
    for literal in literals {
        negated.push(literal.negated())?;
    }
    Ok(negated)
}

/// What equalities of a check are judged with.
#[derive(Drop)]
pub struct Judge<'a> {
    pub alloc: Global,
    pub check: Check<'a>,
    pub components: Components,
    /// How many units the equalities of one field on one trail may take.
    pub share: u64,
    /// Whether bits are reasoned about as integers.
    pub bits: bool,
}

impl Judge<'_> {
    /// Searches one field for values with which its equalities hold.
    fn judge_field(
        &self,
        field: FieldId,
        equalities: &[Lit],
        at_once: bool,
        meter: &mut Meter,
    ) -> Result<Verdict, SearchStop>
        ensures metered { Metered SearchStop.Spent result meter.old meter.new }
    {
        let alloc = self.alloc;
        let table = self.check.table;
        let parts = self
            .components
            .parts(alloc, table, field.order(), equalities)?;
        let problem = Problem {
            alloc,
            table,
            equalities,
            bits: self.bits,
            at_once,
        };
        match problem.over_field(field, parts.as_slice(), self.share, meter)? {
            Answer::Values(pairs) => Ok(Verdict::Fine(pairs)),
            Answer::Closed(chosen, ranking, tree, sums) => {
                let lemma = Lemma::of(
                    alloc,
                    field.order(),
                    chosen.as_slice(),
                    table.len(),
                    &ranking,
                    tree,
                    sums.as_slice(),
                )?;
                Ok(match lemma {
                    Some(lemma) => Verdict::Refuted(lemma),
                    None => Verdict::Undecided(chosen, false),
                })
            }
            Answer::Undecided(those, unfinished) => Ok(Verdict::Undecided(those, unfinished)),
        }
    }

    /// Searches all fields for values with which equalities hold, without completing those that hold where it is to be at once.
    pub fn judge(
        &self,
        equalities: &[Lit],
        at_once: bool,
        meter: &mut Meter,
    ) -> Result<Judgement, SearchStop>
        ensures metered { Metered SearchStop.Spent result meter.old meter.new }
    {
        let mut values = Vec::new(self.alloc);
        let mut undecided = None;
        for field in self.components.fields() {
            match self.judge_field(*field, equalities, at_once, meter)? {
                Verdict::Fine(pairs) => values.extend_from_slice(pairs.as_slice())?,
                Verdict::Undecided(those, unfinished) => {
                    leave(&mut undecided, those, unfinished);
                }
                Verdict::Refuted(lemma) => return Ok(Judgement::Refuted(lemma)),
            }
        }
        match undecided {
            Some((those, unfinished)) => Ok(Judgement::Undecided(those, unfinished)),
            None => {
                let mut residues = Residues::zero(self.alloc, self.check.table.len())?;
                residues.set(values.as_slice());
                Ok(Judgement::Values(residues))
            }
        }
    }
}
