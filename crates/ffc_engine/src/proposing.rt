//! Rounds of a search over the clauses, and the entry that one of them ends with.
ghost use Rattle.std.specs.Prelude.{◌≡◌, All};
ghost use Rattle.ffc_base.specs.Metering.{Metered};
ghost use Rattle.ffc_base.specs.Metering.{Takes};
ghost use Rattle.ffc_term.specs.Checks.{IsCheck};
ghost use Rattle.ffc_term.specs.Tables.{IsBooleanAt};

use crate::clauses::{Clauses, Standing};
use ffc_base::{Meter, SearchStop};
use ffc_cdcl::{HintedClause, Outcome};
use ffc_cert::Entry;
use ffc_entries::{KeptLemmas, Origins, Shelf, refutation};
use ffc_mirror::Mirror;
use ffc_term::Check;
use std::alloc::{AllocError, Global};

/// At first, the equalities of one field on one trail take at most one part in this many of the units.
const FIRST_PARTS: u64 = 64;

/// Or this many units, where that is more.
const FIRST_UNITS: u64 = 4_096;

/// What a search over the clauses ends with.
#[derive(Drop)]
enum End {
    Model(Entry),
    Refuted(Vec<HintedClause>),
    Open,
}

/// The share of units of the first round.
fn first_share(meter: &Meter) -> u64 {
    FIRST_UNITS.max(meter.budget() / FIRST_PARTS)
}

/// One search over the clauses. A trail that makes all of them true has a value of each node on which the truth of the assertions
/// rests, so that the theory has judged it; should it not have, it is judged here.
fn round(clauses: &mut Clauses, meter: &mut Meter) -> Result<End, SearchStop>
    ensures metered { Metered SearchStop.Spent result meter.old meter.new }
{
    let outcome = clauses.solve(meter);
    if let Some(entry) = clauses.take_model() {
        return Ok(End::Model(entry));
    }
    match outcome? {
        Outcome::Refuted(steps) => Ok(End::Refuted(steps)),
        Outcome::Model(_) => match clauses.judge_last(meter)? {
            Some(entry) => Ok(End::Model(entry)),
            None => Ok(End::Open),
        },
    }
}

/// What a round's end means. None where another round, for which the clauses are renewed, may find more.
fn settled<'a>(
    check: &Check<'a>,
    clauses: &mut Clauses<'a>,
    end: End,
) -> Result<Option<End>, AllocError>
    requires active { All (IsBooleanAt check.now.table.now) check.now.in_force.now }
{
    let End::Refuted(steps) = end else {
        return Ok(Some(end));
    };
    match clauses.standing(steps.as_slice())? {
        Standing::Proved => Ok(Some(End::Refuted(steps))),
        Standing::Open => Ok(Some(End::Open)),
        Standing::Unfinished => {
            clauses.renew(check)?;
            Ok(None)
        }
    }
}

/// Takes rounds, each with twice the share of units for the equalities of one field, until one settles the check.
fn rounds<'a>(
    check: &Check<'a>,
    clauses: &mut Clauses<'a>,
    meter: &mut Meter,
) -> Result<End, SearchStop>
    requires active { All (IsBooleanAt check.now.table.now) check.now.in_force.now }
    ensures metered { Metered SearchStop.Spent result meter.old meter.new }
{
    for _ in 0..u64::MAX {
        let end = round(clauses, meter)?;
        if let Some(end) = settled(check, clauses, end)? {
            return Ok(end);
        }
    }
    Ok(End::Open)
}

/// What is kept from one check to the next: copies of the nodes of the last one, and the lemmas of all.
#[derive(Drop)]
pub struct Engine {
    alloc: Global,
    mirror: Mirror,
    lemmas: KeptLemmas,
    /// How many nodes the table had at the last check.
    nodes: u32,
}

impl Engine {
    /// Before the first check.
    pub fn new(alloc: Global) -> Result<Engine, AllocError> {
        Ok(Engine {
            alloc,
            mirror: Mirror::new(alloc)?,
            lemmas: KeptLemmas::new(alloc),
            nodes: 0,
        })
    }

    /// Goes over to the nodes of a check, and whether it can. What is kept of a longer table is dropped.
    fn follow(&mut self, check: &Check) -> Result<bool, AllocError>
        requires valid { IsCheck check.now }
    {
        if check.table.len() < self.nodes {
            self.lemmas.clear();
        }
        self.nodes = check.table.len();
        self.mirror.follow(check)
    }

    /// Keeps the lemmas of a search, and gives the entry of a refutation.
    fn concluded(
        &mut self,
        origins: Origins,
        end: Option<End>,
    ) -> Result<Option<Entry>, AllocError> {
        self.lemmas
            .keep_all(origins.added.as_slice(), &self.mirror, self.nodes)?;
        self.lemmas
            .keep_all(origins.lemmas.as_slice(), &self.mirror, self.nodes)?;
        let shelf = Shelf {
            lemmas: &self.lemmas,
            mirror: &self.mirror,
        };
        match end {
            Some(End::Model(entry)) => Ok(Some(entry)),
            Some(End::Refuted(steps)) => refutation(self.alloc, origins, shelf, steps.as_slice()),
            Some(End::Open) | None => Ok(None),
        }
    }

    /// Drops the lemmas where memory is out, so that later checks have it.
    fn give_back(&mut self, stop: &SearchStop) {
        if let SearchStop::Memory = stop {
            self.lemmas.clear();
        }
    }

    /// Proposes an entry over the copies.
    fn propose_inside(
        &mut self,
        first_order: u64,
        meter: &mut Meter,
    ) -> Result<Option<Entry>, SearchStop>
        ensures metered { Metered SearchStop.Spent result meter.old meter.new }
    {
        let Some(active) = self.mirror.active() else {
            return Ok(None);
        };
        let constants = self.mirror.constants()?;
        let kept = self.lemmas.over(&self.mirror)?;
        let check = Check {
            table: self.mirror.table(),
            declared: constants.as_slice(),
            in_force: active,
            first_order,
        };
        let share = first_share(meter);
        let mut clauses = Clauses::of(self.alloc, &check, kept.as_slice(), share, false)?;
        let end = rounds(&check, &mut clauses, meter);
        let origins = clauses.into_origins();
        match end {
            Ok(end) => Ok(self.concluded(origins, Some(end))?),
            Err(stop) => {
                self.concluded(origins, None)?;
                Err(stop)
            }
        }
    }

    /// Proposes an entry over the check's own nodes.
    fn propose_alone(&self, check: &Check, meter: &mut Meter) -> Result<Option<Entry>, SearchStop>
        requires active { All (IsBooleanAt check.now.table.now) check.now.in_force.now }
        ensures metered { Metered SearchStop.Spent result meter.old meter.new }
    {
        let mut clauses = Clauses::of(self.alloc, check, &[], first_share(meter), true)?;
        match rounds(check, &mut clauses, meter)? {
            End::Model(entry) => Ok(Some(entry)),
            End::Refuted(steps) => {
                let shelf = Shelf {
                    lemmas: &self.lemmas,
                    mirror: &self.mirror,
                };
                Ok(refutation(self.alloc, clauses.into_origins(), shelf, steps.as_slice())?)
            }
            End::Open => Ok(None),
        }
    }

    /// Proposes an entry for a check, which the caller has to test: values of the declared constants, or a refutation. None where
    /// nothing was found within the limits of polynomials. With `bits` equations of bits are reasoned about as integers, a refutation
    /// may have lines of bits, and nothing is kept.
    pub fn propose(
        &mut self,
        check: &Check,
        bits: bool,
        meter: &mut Meter,
    ) -> Result<Option<Entry>, SearchStop>
        requires valid { IsCheck check.now }
        ensures metered { Metered SearchStop.Spent result meter.old meter.new }
    {
        if bits {
            return self.propose_alone(check, meter);
        }
        if !self.follow(check)? {
            return Ok(None);
        }
        match self.propose_inside(check.first_order, meter) {
            Ok(Some(entry)) => {
                let outside = self.mirror.outside(check.table.len());
                Ok(outside.entry(self.alloc, check, entry)?)
            }
            Ok(None) => Ok(None),
            Err(stop) => {
                self.give_back(&stop);
                Err(stop)
            }
        }
    }
}
