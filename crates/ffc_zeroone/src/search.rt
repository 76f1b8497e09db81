//! The search for values.
ghost use Rattle.std.specs.Prelude.{◌≡◌};
ghost use Rattle.ffc_base.specs.Metering.{Metered};

use crate::assignment::Assignment;
use crate::constraints::{Condition, Constraint, Sum};
use ffc_base::{Meter, SearchStop, Unit};
use std::alloc::{AllocError, Global};
use std::collections::BTreeSet;

/// After so many conflicts the last choice of a first variable is changed.
const MOST_CONFLICTS: usize = 8;

/// And the search ends after looking at constraints so often.
const MOST_LOOKS: u64 = 16_384;

/// A choice that was made.
#[derive(Clone, Copy)]
struct Choice {
    /// How many variables had values before.
    count: usize,
    variable: usize,
    value: bool,
    is_last: bool,
}

/// Variables that are to be given values 0 and 1, with what has to hold of them.
#[derive(Drop)]
pub struct Puzzle {
    alloc: Global,
    assignment: Assignment,
    constraints: Vec<Constraint>,
    /// In which constraints each variable is.
    uses: Vec<Vec<usize>>,
    /// Variables that are given values before all others.
    first: Vec<(usize, bool)>,
    /// Constraints that are to be looked at.
    queue: BTreeSet<usize>,
    choices: Vec<Choice>,
    /// How many conflicts there were since a first variable was given its value.
    conflicts: usize,
}

impl Puzzle {
    /// The puzzle without variables. It takes no memory.
    pub fn new(alloc: Global) -> Self {
        Puzzle {
            alloc,
            assignment: Assignment::new(alloc),
            constraints: Vec::new(alloc),
            uses: Vec::new(alloc),
            first: Vec::new(alloc),
            queue: BTreeSet::new(alloc),
            choices: Vec::new(alloc),
            conflicts: 0,
        }
    }

    /// Adds a variable, and answers its number, from 0 on.
    pub fn add_variable(&mut self) -> Result<usize, AllocError> {
        self.uses.push(Vec::new(self.alloc))?;
        self.assignment.add()
    }

    /// Lets a variable get a value before all others: this one is tried first.
    pub fn choose_first(&mut self, variable: usize, value: bool) -> Result<(), AllocError> {
        self.first.push((variable, value))?;
        Ok(())
    }

    /// Adds a sum that has to be 0.
    pub fn add_sum(&mut self, sum: Sum) -> Result<(), AllocError> {
        self.add(Constraint::Sum(sum))
    }

    /// Adds a condition that has to hold.
    pub fn add_condition(&mut self, condition: Condition) -> Result<(), AllocError> {
        self.add(Constraint::Condition(condition))
    }

    /// Adds a constraint.
    fn add(&mut self, constraint: Constraint) -> Result<(), AllocError> {
        let place = self.constraints.len();
        for x in constraint.variables(self.alloc)? {
            if let Some(uses) = self.uses.get_mut(x) {
                uses.push(place)?;
            }
        }
        self.constraints.push(constraint)?;
        self.queue.insert(place)?;
        Ok(())
    }

    /// The value of a variable, if it was given one.
    pub fn value(&self, variable: usize) -> Option<bool> {
        self.assignment.value(variable)
    }

    /// Gives a variable a value.
    fn give(&mut self, variable: usize, value: bool) -> Result<(), AllocError> {
        self.assignment.give(variable, value)?;
        if let Some(uses) = self.uses.get(variable) {
            for place in uses.as_slice() {
                self.queue.insert(*place)?;
            }
        }
        Ok(())
    }

    /// Looks at a constraint, gives what it forces, and says whether it can hold. It is one Reduction.
    fn look_at(&mut self, place: usize, meter: &mut Meter) -> Result<bool, SearchStop>
        ensures metered { Metered SearchStop.Spent result meter.old meter.new }
    {
        meter.take(Unit::Reduction)?;
        let Some(constraint) = self.constraints.get(place) else {
            return Ok(true);
        };
        let mut forced = Vec::new(self.alloc);
        if !constraint.look(&self.assignment, &mut forced)? {
            return Ok(false);
        }
        for (x, value) in forced {
            self.give(x, value)?;
        }
        Ok(true)
    }

    /// Looks at the constraints that wait, and says whether all can hold.
    fn propagate(&mut self, meter: &mut Meter) -> Result<bool, SearchStop>
        ensures metered { Metered SearchStop.Spent result meter.old meter.new }
    {
        for _ in 0..u64::MAX {
            let Some(place) = self.queue.pop_first() else {
                break;
            };
            if !self.look_at(place, meter)? {
                self.queue.clear();
                return Ok(false);
            }
        }
        Ok(true)
    }

    /// The variable that gets a value next: a first one, or one of the constraint with the fewest variables without a value,
    /// sums before conditions.
    fn next(&self) -> Option<(usize, bool)> {
        for (x, value) in self.first.as_slice() {
            if self.assignment.value(*x).is_none() {
                return Some((*x, *value));
            }
        }
        let mut best: Option<((bool, usize), &Constraint)> = None;
        for constraint in self.constraints.as_slice() {
            let open = constraint.count_open(&self.assignment);
            let is_better = match best {
                Some((fewest, _)) => open < fewest,
                None => true,
            };
            if open.1 > 0 && is_better {
                best = Some((open, constraint));
            }
        }
        match best {
            Some((_, constraint)) => constraint.choice(&self.assignment),
            None => None,
        }
    }

    /// Gives a variable a value by choice.
    fn choose(&mut self, variable: usize, value: bool, is_last: bool) -> Result<(), AllocError> {
        self.choices.push(Choice {
            count: self.assignment.count(),
            variable,
            value,
            is_last,
        })?;
        self.give(variable, value)
    }

    /// Whether a variable is one of the first.
    fn is_first(&self, variable: usize) -> bool {
        self.first.iter().any(|(x, _)| *x == variable)
    }

    /// Changes the last choice that can be, and says whether there is one. After many conflicts only those of first variables can
    /// be.
    fn change(&mut self) -> Result<bool, AllocError> {
        self.conflicts = self.conflicts.saturating_add(1);
        for _ in 0..u64::MAX {
            let Some(choice) = self.choices.pop() else {
                break;
            };
            self.assignment.take_back(choice.count);
            let is_first = self.is_first(choice.variable);
            if choice.is_last || self.conflicts > MOST_CONFLICTS && !is_first {
                continue;
            }
            if is_first {
                self.conflicts = 0;
            }
            self.choose(choice.variable, !choice.value, true)?;
            return Ok(true);
        }
        Ok(false)
    }

    /// Gives all variables of constraints values with which these hold, if it finds such ones.
    fn go(&mut self, meter: &mut Meter) -> Result<bool, SearchStop>
        ensures metered { Metered SearchStop.Spent result meter.old meter.new }
    {
        for _ in 0..u64::MAX {
            if self.propagate(meter)? {
                match self.next() {
                    Some((x, value)) => self.choose(x, value, false)?,
                    None => return Ok(true),
                }
            } else if !self.change()? {
                break;
            }
        }
        Ok(false)
    }

    /// Gives all variables of constraints values with which these hold, if it finds such ones. Each look at a constraint is one
    /// Reduction.
    pub fn solve(&mut self, meter: &mut Meter) -> Result<bool, SearchStop>
        ensures metered { Metered SearchStop.Spent result meter.old meter.new }
    {
        let mut own = Meter::new(meter.left().min(MOST_LOOKS));
        let found = self.go(&mut own);
        meter.charge(Unit::Reduction, own.count(Unit::Reduction))?;
        match found {
            Err(SearchStop::Spent) => Ok(false),
            found => found,
        }
    }
}
