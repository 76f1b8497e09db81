//! A meter for the work of a search.
ghost use Rattle.std.specs.Prelude.{◌≡◌, ◌+◌, ◌-◌, ◌<◌, ◌≤◌, ◌↔◌, IsErr, OnOk, OnErr};
ghost use Rattle.ffc_base.specs.Metering.{Takes, spending, total, count_of, more, one_more};

use std::marker::Model;
use thiserror::Error;

/// A kind of work.
#[derive(Clone, Copy, Debug, PartialEq, Eq)]
pub enum Unit {
    /// One full assignment evaluated, or one value placed in the search.
    Trial,
    /// One pair formed, or one monomial multiple subtracted.
    Reduction,
    /// One literal put on the trail.
    Assignment,
    /// One product modulo a polynomial.
    Chain,
}

/// The budget is spent.
#[derive(Clone, Copy, Debug, PartialEq, Eq, Error)]
#[error("the budget is spent")]
pub struct Spent;

/// Counts units of work of four kinds against one budget.
///
/// Only `take` and `charge` raise a count, and nothing lowers one. No call takes memory, and each takes constant time.
#[derive(Debug, Drop)]
pub struct Meter {
    budget: u64,
    left: u64,
    trials: u64,
    reductions: u64,
    assignments: u64,
    chains: u64,
}

impl Model for Meter {
    ghost use Rattle.std.specs.Prelude.{◌≡◌, ◌+◌};
    ghost use Rattle.ffc_base.specs.Metering.{Spending, spending, total};

    ghost Value = { Spending };

    ghost view = { λ m. spending m.budget m.trials m.reductions m.assignments m.chains };

    ghost invariant = { λ m.
        total (spending m.budget m.trials m.reductions m.assignments m.chains) + m.left ≡ m.budget };
}

impl Meter {
    /// A meter with nothing taken.
    pub fn new(budget: u64) -> Self
        ensures { result ≡ spending budget 0 0 0 0 }
    {
        Meter {
            budget,
            left: budget,
            trials: 0,
            reductions: 0,
            assignments: 0,
            chains: 0,
        }
    }

    /// Takes one unit of this kind, or says that the budget is spent.
    pub fn take(&mut self, kind: Unit) -> Result<(), Spent>
        ensures taken { OnOk result (self.new ≡ one_more self.old kind) }
        ensures spent { IsErr result ↔ (total self.old ≡ self.old.budget) }
        ensures kept { OnErr result (self.new ≡ self.old) }
        ensures one_unit { OnOk result (total self.new ≡ total self.old + 1) }
        ensures same_budget { self.new.budget ≡ self.old.budget }
        ensures within { total self.new ≤ self.new.budget }
    {
        if self.left == 0 {
            return Err(Spent);
        }
        self.left -= 1;
        match kind {
            Unit::Trial => self.trials += 1,
            Unit::Reduction => self.reductions += 1,
            Unit::Assignment => self.assignments += 1,
            Unit::Chain => self.chains += 1,
        }
        Ok(())
    }

    /// Counts so many units of this kind, which were taken by a meter of a part's own. Where fewer are left, those are taken, and
    /// the budget is spent.
    pub fn charge(&mut self, kind: Unit, count: u64) -> Result<(), Spent>
        ensures charged { OnOk result (self.new ≡ more self.old kind count) }
        ensures spent { IsErr result ↔ (self.old.budget < total self.old + count) }
        ensures full { OnErr result (self.new ≡ more self.old kind (self.old.budget - total self.old)) }
        ensures all { OnErr result (total self.new ≡ self.new.budget) }
        ensures takes { Takes self.old self.new }
    {
        let granted = count.min(self.left);
        self.left -= granted;
        match kind {
            Unit::Trial => self.trials += granted,
            Unit::Reduction => self.reductions += granted,
            Unit::Assignment => self.assignments += granted,
            Unit::Chain => self.chains += granted,
        }
        if granted < count { Err(Spent) } else { Ok(()) }
    }

    /// How many units were taken.
    pub fn spent(&self) -> u64
        ensures spent { result ≡ total self.now }
        ensures within { result ≤ self.now.budget }
    {
        self.budget - self.left
    }

    /// How many units are left.
    pub fn left(&self) -> u64
        ensures { result + total self.now ≡ self.now.budget }
    {
        self.left
    }

    /// How many units of this kind were taken.
    pub fn count(&self, kind: Unit) -> u64
        ensures count { result ≡ count_of self.now kind }
        ensures within { total self.now ≤ self.now.budget }
    {
        match kind {
            Unit::Trial => self.trials,
            Unit::Reduction => self.reductions,
            Unit::Assignment => self.assignments,
            Unit::Chain => self.chains,
        }
    }

    /// The most units that can be taken.
    pub fn budget(&self) -> u64
        ensures budget { result ≡ self.now.budget }
        ensures within { total self.now ≤ self.now.budget }
    {
        self.budget
    }
}
