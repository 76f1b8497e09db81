//! Walks along hints (reverse unit propagation with hints in order, as in LRAT; Cruz-Filipe, Heule, Hunt, Kaufmann and
//! Schneider-Kamp 2017). A learned clause is kept only where such a walk has shown that it follows.
ghost use Rattle.std.specs.Prelude.{◌≡◌, List, [], ◌∷◌, ◌++◌, map, IsTrue, OnOk};
ghost use Rattle.ffc_clause.specs.Clauses.{Literal as ClauseLiteral, Clause, negated};
ghost use Rattle.ffc_clause.specs.Hints.{open_literals};
ghost use Rattle.ffc_cdcl.specs.Opening.{opening_of};
ghost use Rattle.ffc_cdcl.specs.Walking.{HasTaken, IsAt};

use crate::assumed::Assumed;
use crate::literal::Lit;
use std::alloc::{AllocError, Global};
use std::marker::Model;

/// The open literals of a clause: those whose negations are not assumed.
#[derive(Clone, Copy)]
pub enum Opening {
    Closed,
    One(Lit),
    Several,
}

/// The state of a walk.
#[derive(Clone, Copy)]
pub enum Phase {
    /// Each hint so far had one open literal.
    Open,
    /// The last hint had none, so the clause follows.
    Closed,
    /// Some hint broke the rule.
    Stuck,
}

/// A walk along hints for one clause.
#[derive(Drop)]
pub struct Walk {
    assumed: Assumed,
    phase: Phase,
}

impl Model for Walk {
    ghost use Rattle.ffc_cdcl.specs.Walking.{Progress};

    ghost Value = { Progress };

    ghost view = { λ w. record { assumed = w.assumed; phase = w.phase } };
}

/// The open literals of a clause, where these are assumed. It stops at the second one that differs from the first.
fn opening_under(clause: &[Lit], assumed: &Assumed) -> Opening
    ensures { result ≡ opening_of (open_literals assumed.now clause.now) }
{
    let mut found = None;
    for literal in clause {
        if assumed.contains(literal.negated()) {
            continue;
        }
        match found {
            None => found = Some(*literal),
            Some(first) => {
                if !literal.is_same(first) {
                    return Opening::Several;
                }
            }
        }
    }
    match found {
        None => Opening::Closed,
        Some(literal) => Opening::One(literal),
    }
}

/// Assumes the negations of these literals.
fn assume_negated(assumed: &mut Assumed, literals: &[Lit]) -> Result<(), AllocError>
    requires { assumed.old ≡ [] }
    ensures { OnOk result (assumed.new ≡ map negated literals.now) }
{
    let mut i = literals.len();
    while i > 0 {
        i -= 1;
        assumed.assume(literals[i].negated())?;
    }
    Ok(())
}

impl Walk {
    /// A walk that shows nothing. It takes no memory.
    pub fn new(alloc: Global) -> Self {
        Walk {
            assumed: Assumed::new(alloc),
            phase: Phase::Stuck,
        }
    }

    /// Begins a walk for a clause: the negations of its literals are assumed.
    pub fn begin(&mut self, clause: &[Lit]) -> Result<(), AllocError>
        ensures { OnOk result (HasTaken (map negated clause.now) [] self.new) }
    {
        self.assumed.clear();
        assume_negated(&mut self.assumed, clause)?;
        self.phase = Phase::Open;
        Ok(())
    }

    /// Takes the clause of the next hint. It costs the literals that it reads.
    pub fn take(&mut self, clause: &[Lit]) -> Result<(), AllocError>
        ensures { OnOk result ((start : List ClauseLiteral) (taken : List Clause) → HasTaken start taken self.old
            → HasTaken start (taken ++ clause.now ∷ []) self.new) }
    {
        match self.phase {
            Phase::Open => match opening_under(clause, &self.assumed) {
                Opening::Closed => self.phase = Phase::Closed,
                Opening::One(literal) => self.assumed.assume(literal)?,
                Opening::Several => self.phase = Phase::Stuck,
            },
            Phase::Closed => self.phase = Phase::Stuck,
            Phase::Stuck => {}
        }
        Ok(())
    }

    /// Whether the clauses that were taken show that the clause follows.
    pub fn follows(&self) -> bool
        ensures { IsTrue result → self.now.phase ≡ Phase.Closed }
    {
        match self.phase {
            Phase::Closed => true,
            _ => false,
        }
    }
}
