//! The generators without the inverses of differences, for rounds that form no S-polynomials.
ghost use Rattle.ffc_base.specs.Metering.{Metered};

use crate::branches::pop_to;
use crate::inverses::Given;
use crate::rounds::{Outcome, Task, round};
use crate::weights::Weights;
use ffc_base::{Meter, SearchStop};
use ffc_field::Field;
use ffc_line::Line;
use ffc_mono::MonoOrder;
use ffc_stack::BasisStack;
use std::alloc::Global;

/// A stack of the generators that are not inverses.
pub struct Shallow<F: Field, O: MonoOrder> {
    given: Given<F, O>,
    stack: BasisStack<F, O>,
    /// How many levels it has before a round.
    floor: u64,
}

impl<F: Field, O: MonoOrder> Drop for Shallow<F, O> {
    fn drop(self) {
        let Shallow {
            given: _,
            stack: _,
            floor: _,
        } = self;
    }
}

/// Whether a line is a constant other than 0.
fn has_constant<F: Field, O: MonoOrder>(lines: &[Line<F, O>]) -> bool {
    for line in lines {
        if line.poly.is_constant() && !line.poly.is_zero() {
            return true;
        }
    }
    false
}

impl<F: Field, O: MonoOrder> Shallow<F, O> {
    /// The stack of the generators among lines, if some of these are inverses and no line is a constant.
    pub fn begin(
        alloc: Global,
        lines: &[Line<F, O>],
        meter: &mut Meter,
    ) -> Result<Option<Self>, SearchStop>
        ensures metered { Metered SearchStop.Spent result meter.old meter.new }
    {
        let (given, others) = Given::apart(alloc, lines)?;
        if given.inverses.is_empty() || has_constant(lines) {
            return Ok(None);
        }
        let mut stack = BasisStack::new(alloc);
        let _ = stack.push_within(others.as_slice(), 0, meter)?;
        let floor = stack.depth();
        Ok(Some(Shallow {
            given,
            stack,
            floor,
        }))
    }

    /// One round. The levels of the round are left.
    pub fn round(
        &mut self,
        alloc: Global,
        vars: &[u32],
        task: Task,
        weights: Weights,
        meter: &mut Meter,
    ) -> Result<(Outcome<F>, Weights), SearchStop>
        ensures metered { Metered SearchStop.Spent result meter.old meter.new }
    {
        let task = Task {
            floor: self.floor,
            ..task
        };
        let found = round(
            alloc,
            &mut self.stack,
            &self.given,
            vars,
            task,
            weights,
            meter,
        )?;
        pop_to(&mut self.stack, self.floor);
        Ok(found)
    }
}
