//! The clauses of a check, with the line of a certificate that each one is.
ghost use Rattle.std.specs.Prelude.{◌≡◌, All};
ghost use Rattle.ffc_base.specs.Metering.{Metered};
ghost use Rattle.ffc_term.specs.Tables.{IsBooleanAt};
ghost use Rattle.ffc_cdcl.specs.State.{AreListed};

use crate::theory::FieldTheory;
use ffc_base::{Meter, SearchStop};
use ffc_cdcl::{HintedClause, Lit, Literals, Outcome, Solver};
use ffc_cert::Entry;
use ffc_encode::{NodeClause, clauses_of};
use ffc_entries::{Lemma, Origin, Origins, is_proved};
use ffc_term::{Check, NodeId};
use std::alloc::{AllocError, Global};

/// What is known once the clauses are refuted.
#[derive(Clone, Copy)]
pub enum Standing {
    /// The check has no model.
    Proved,
    /// Nothing, but more units may decide what was set aside.
    Unfinished,
    /// Nothing.
    Open,
}

/// A solver with a theory, and where each of its clauses is from, by the clause's number.
#[derive(Drop)]
pub struct Clauses<'a> {
    alloc: Global,
    bits: bool,
    solver: Solver,
    origins: Vec<Origin>,
    theory: FieldTheory<'a>,
    /// Lemmas of earlier checks, each with its place.
    kept: &'a [(usize, Literals)],
    ghost listed: { AreListed theory.clauses.items solver.lemmas },
}

impl<'a> Clauses<'a> {
    /// The clauses of a check: each assertion, the schemes of all its nodes, and lemmas of earlier checks. The equalities of one
    /// field on one trail may take a share of units, and with `bits` they are reasoned about as integers, where they are such.
    pub fn of(
        alloc: Global,
        check: &Check<'a>,
        kept: &'a [(usize, Literals)],
        share: u64,
        bits: bool,
    ) -> Result<Clauses<'a>, AllocError>
        requires active { All (IsBooleanAt check.now.table.now) check.now.in_force.now }
    {
        let mut clauses = Clauses {
            alloc,
            bits,
            solver: Solver::new(alloc, check.table.len())?,
            origins: Vec::new(alloc),
            theory: FieldTheory::new(alloc, check, share, bits)?,
            kept,
        };
        clauses.add_assertions(check.in_force)?;
        let nodes = check.table.nodes_of(check.in_force)?;
        for clause in clauses_of(alloc, check.table, nodes.as_slice())? {
            clauses.add_scheme(&clause)?;
        }
        for (place, lits) in kept {
            clauses.add(lits.as_slice(), Origin::Kept(*place))?;
        }
        Ok(clauses)
    }

    /// Adds a clause. One that names a node past the table is left out.
    fn add(&mut self, lits: &[Lit], origin: Origin) -> Result<(), AllocError> {
        if self.solver.can_add(lits) {
            let _ = self.solver.add_clause(lits)?;
            self.origins.push(origin)?;
        }
        Ok(())
    }

    fn add_assertions(&mut self, in_force: &[NodeId]) -> Result<(), AllocError> {
        let mut number = 0u32;
        for node in in_force {
            let literal = Lit {
                node: *node,
                positive: true,
            };
            self.add(&[literal], Origin::Assertion(number))?;
            number = number.saturating_add(1);
        }
        Ok(())
    }

    fn add_scheme(&mut self, clause: &NodeClause) -> Result<(), AllocError> {
        let mut lits = Literals::new(self.alloc);
        for (positive, node) in clause.lits.as_slice() {
            lits.push(Lit {
                node: *node,
                positive: *positive,
            })?;
        }
        let origin = Origin::Scheme(clause.node, clause.scheme, clause.index);
        self.add(lits.as_slice(), origin)
    }

    /// Adds a lemma.
    fn add_lemma(&mut self, lemma: Lemma) -> Result<(), AllocError> {
        let lits = Literals::copied(self.alloc, lemma.lits.as_slice())?;
        self.add(lits.as_slice(), Origin::Lemma(lemma))
    }

    /// Adds those clauses that are lemmas.
    fn add_lemmas(&mut self, origins: Vec<Origin>) -> Result<(), AllocError> {
        for origin in origins {
            if let Origin::Lemma(lemma) = origin {
                self.add_lemma(lemma)?;
            }
        }
        Ok(())
    }

    /// Forgets what was set aside, and doubles the share. Lemmas are kept.
    pub fn renew(&mut self, check: &Check<'a>) -> Result<(), AllocError>
        requires active { All (IsBooleanAt check.now.table.now) check.now.in_force.now }
    {
        let share = self.theory.share().saturating_mul(2);
        let fresh = Clauses::of(self.alloc, check, self.kept, share, self.bits)?;
        let old = std::mem::replace(self, fresh);
        let Origins { added, lemmas } = old.into_origins();
        self.add_lemmas(added)?;
        self.add_lemmas(lemmas)
    }

    /// What is known where these steps refute the clauses.
    pub fn standing(&self, steps: &[HintedClause]) -> Result<Standing, AllocError> {
        let lemmas = self.theory.origins();
        if is_proved(self.alloc, self.origins.as_slice(), lemmas, steps)? {
            return Ok(Standing::Proved);
        }
        if self.theory.is_unfinished() {
            Ok(Standing::Unfinished)
        } else {
            Ok(Standing::Open)
        }
    }

    /// A trail that makes all clauses true and on which the theory agreed, or a refutation.
    pub fn solve(&mut self, meter: &mut Meter) -> Result<Outcome, SearchStop>
        ensures metered { Metered SearchStop.Spent result meter.old meter.new }
    {
        self.solver.solve(&mut self.theory, meter)
    }

    /// The model that the theory found, if it did.
    pub fn take_model(&mut self) -> Option<Entry> {
        self.theory.take_model()
    }

    /// The model that the trail leads to that makes all clauses true, where the theory has not judged it.
    pub fn judge_last(&mut self, meter: &mut Meter) -> Result<Option<Entry>, SearchStop>
        ensures metered { Metered SearchStop.Spent result meter.old meter.new }
    {
        self.theory.judge_last(meter)
    }

    /// Where the clauses are from.
    pub fn into_origins(self) -> Origins {
        let Clauses {
            alloc: _,
            bits: _,
            solver: _,
            origins,
            theory,
            kept: _,
        } = self;
        Origins {
            added: origins,
            lemmas: theory.into_origins(),
        }
    }
}
