//! Rounds of a search, each with more effort than the one before.
ghost use Rattle.std.specs.Prelude.{◌≡◌};
ghost use Rattle.ffc_base.specs.Metering.{Metered};
ghost use Rattle.ffc_base.specs.Metering.{Takes};
ghost use Rattle.ffc_search.specs.Above.{StaysAbove};

use crate::bits::{by_bits, candidate_of_bit, zero_by_bits};
use crate::bitsums::{bit_lines, refuted_sum};
use crate::branches::{Cause, Ended, Walk, branch_by, leave};
use crate::choosing::{Candidate, best_candidate};
use crate::effort::Effort;
use crate::few::minimal_candidate;
use crate::inverses::Given;
use crate::points::zero_at_hand;
use crate::roots::cases_of;
use crate::survey::{Linear, earliest, linear_lines, most_used};
use crate::weights::Weights;
use ffc_base::{Meter, SearchStop, Unit};
use ffc_basis::{Completion, Progress};
use ffc_bits::{Reasoning, Source, StepId};
use ffc_casetree::{NodeId, Tree};
use ffc_cert::CertLine;
use ffc_field::Field;
use ffc_mono::MonoOrder;
use ffc_stack::BasisStack;
use std::alloc::{AllocError, Global};

/// The greatest order whose values are listed in a tree.
const MOST_VALUES: u64 = 17;

/// What a round comes to.
#[derive(Drop)]
pub enum Outcome<F: Field> {
    /// A common zero.
    Values(Vec<F>),
    /// A tree whose branches are all closed, and for each line of bits in it the variables that its last numbers are for.
    Closed(Vec<CertLine>, Vec<Vec<u32>>),
    /// A branch was given up; with more effort it may not be.
    GivenUp,
    /// A branch has neither a zero at hand nor a further choice.
    Stuck,
}

/// What a turn comes to.
#[derive(Drop)]
enum Turn<F: Field> {
    On(Progress),
    Values(Vec<F>),
    Over,
}

/// What a round has to keep to: its effort, the levels below it, and whether bits are reasoned about.
#[derive(Clone, Copy)]
pub struct Task {
    pub effort: Effort,
    pub floor: u64,
    pub bits: bool,
}

/// Where a round ends, and whether it was cut short.
#[derive(Clone, Copy)]
struct Limits {
    /// How many units are taken where the round ends.
    end: u64,
    /// How many are taken where guessing ends.
    deadline: Option<u64>,
    /// Whether more effort may help.
    reached: bool,
}

impl Limits {
    /// How many of the round's units are left.
    fn left(&self, meter: &Meter) -> u64 {
        self.end.saturating_sub(meter.spent())
    }

    /// Leaves out of the round's units what was taken since so many were. What follows without a choice is no part of them.
    fn allow(&mut self, before: u64, meter: &Meter) {
        let taken = meter.spent().saturating_sub(before);
        self.end = self.end.saturating_add(taken);
    }
}

/// A turn that goes on with a case, if there is one.
fn turn_of<F: Field>(next: Option<Progress>) -> Turn<F> {
    match next {
        Some(progress) => Turn::On(progress),
        None => Turn::Over,
    }
}

/// Goes on by the roots of a polynomial.
fn by_roots<F: Field, O: MonoOrder>(
    alloc: Global,
    stack: &mut BasisStack<F, O>,
    walk: &mut Walk<F, O>,
    candidate: Candidate<F, O>,
    floor: u64,
    meter: &mut Meter,
) -> Result<Turn<F>, SearchStop>
    ensures above { StaysAbove floor stack.old stack.new }
    ensures metered { Metered SearchStop.Spent result meter.old meter.new }
{
    let cases = cases_of(alloc, &candidate.poly, meter)?;
    if cases.zeros.is_empty() {
        let ended = walk.close_by_candidate(alloc, stack.lines(), &candidate, &cases)?;
        return Ok(turn_of(leave(alloc, stack, walk, ended, floor, meter)?));
    }
    let values = cases.zeros.clone()?;
    let x = candidate.variable;
    let cause = Cause::Roots(candidate, cases);
    let next = branch_by(alloc, stack, walk, cause, x, values, floor, meter)?;
    Ok(turn_of(next))
}

/// The elements of these residues, from 0 on.
fn first_elements<F: Field>(alloc: Global, count: u64) -> Result<Vec<F>, AllocError> {
    let mut elements = Vec::new(alloc);
    for n in 0..count {
        elements.push(F::of(u128::from(n)))?;
    }
    Ok(elements)
}

/// How many values of a variable are guessed.
fn guesses(limits: &mut Limits, effort: Effort, meter: &Meter) -> u64 {
    limits.reached = true;
    let taken = meter.spent();
    let deadline = match limits.deadline {
        Some(deadline) => deadline,
        None => taken.saturating_add(effort.for_guesses()),
    };
    limits.deadline = Some(deadline);
    if taken > deadline {
        return 0;
    }
    effort.guesses()
}

/// Goes on by the values of a variable. Where none is left to choose, the branch is given up.
fn by_values<F: Field, O: MonoOrder>(
    alloc: Global,
    stack: &mut BasisStack<F, O>,
    walk: &mut Walk<F, O>,
    limits: &mut Limits,
    linear: &Linear,
    task: Task,
    meter: &mut Meter,
) -> Result<Turn<F>, SearchStop>
    ensures above { StaysAbove task.floor stack.old stack.new }
    ensures metered { Metered SearchStop.Spent result meter.old meter.new }
{
    let chosen = if task.effort.guesses_by_use() {
        most_used(alloc, stack.lines(), linear)?
    } else {
        earliest(alloc, stack.lines(), linear)?
    };
    let floor = task.floor;
    let Some(x) = chosen else {
        limits.reached = limits.reached || !walk.differences.is_empty();
        let next = leave(alloc, stack, walk, Ended::GivenUp, floor, meter)?;
        return Ok(turn_of(next));
    };
    let are_all = F::ORDER <= MOST_VALUES;
    let cause = if are_all { Cause::All } else { Cause::Guesses };
    let count = if are_all {
        F::ORDER
    } else {
        guesses(limits, task.effort, meter)
    };
    let values = first_elements(alloc, count)?;
    let next = branch_by(alloc, stack, walk, cause, x, values, floor, meter)?;
    Ok(turn_of(next))
}

/// Goes on where the lines have no constant: by roots, by a zero at hand, by more pairs where some are left, or by values.
fn advance<F: Field, O: MonoOrder>(
    alloc: Global,
    stack: &mut BasisStack<F, O>,
    walk: &mut Walk<F, O>,
    limits: &mut Limits,
    vars: &[u32],
    task: Task,
    left: bool,
    meter: &mut Meter,
) -> Result<Turn<F>, SearchStop>
    ensures above { StaysAbove task.floor stack.old stack.new }
    ensures metered { Metered SearchStop.Spent result meter.old meter.new }
{
    let before = meter.spent();
    if let Some(values) = zero_by_bits(alloc, stack.lines(), walk, vars, meter)? {
        return Ok(Turn::Values(values));
    }
    limits.allow(before, meter);
    let before = meter.spent();
    let said = by_bits(alloc, stack, walk, meter)?;
    if let Some(progress) = said.progress {
        limits.allow(before, meter);
        return Ok(Turn::On(progress));
    }
    let linear = linear_lines(alloc, stack.lines())?;
    if let Some(x) = said.heaviest {
        if let Some(values) = zero_at_hand(
            alloc,
            stack.lines(),
            vars,
            &linear,
            &walk.differences,
        )? {
            return Ok(Turn::Values(values));
        }
        if let Some(candidate) = candidate_of_bit(alloc, stack.lines(), x)? {
            return by_roots(alloc, stack, walk, candidate, task.floor, meter);
        }
    }
    if let Some(candidate) = best_candidate(alloc, stack, &linear, &walk.weights, meter)? {
        return by_roots(alloc, stack, walk, candidate, task.floor, meter);
    }
    if let Some(values) = zero_at_hand(alloc, stack.lines(), vars, &linear, &walk.differences)? {
        return Ok(Turn::Values(values));
    }
    if left {
        limits.reached = true;
    } else {
        let units = limits.left(meter);
        if let Some(candidate) = minimal_candidate(alloc, stack, units, meter)? {
            return by_roots(alloc, stack, walk, candidate, task.floor, meter);
        }
    }
    by_values(alloc, stack, walk, limits, &linear, task, meter)
}

/// A derived line that is a constant other than 0, where the lines of the innermost case have a sum of few bits that is never 0,
/// or say that a polynomial is 0 that may not be.
fn refuted<F: Field, O: MonoOrder>(
    alloc: Global,
    stack: &mut BasisStack<F, O>,
    walk: &mut Walk<F, O>,
    meter: &mut Meter,
) -> Result<Option<StepId>, SearchStop>
    ensures unchanged { stack.new ≡ stack.old }
    ensures metered { Metered SearchStop.Spent result meter.old meter.new }
{
    if walk.reasoning.is_none() {
        let (fresh, bits) = (walk.fresh, &walk.bits);
        let found = refuted_sum(alloc, stack.lines(), fresh, bits, &mut walk.derived)?;
        if found.is_some() {
            return Ok(found);
        }
    }
    walk.differences.look(stack, &mut walk.derived, meter)
}

/// Closes the present branch where its lines are refuted beside their completion; else goes on.
fn compare<F: Field, O: MonoOrder>(
    alloc: Global,
    stack: &mut BasisStack<F, O>,
    walk: &mut Walk<F, O>,
    limits: &mut Limits,
    vars: &[u32],
    task: Task,
    left: bool,
    meter: &mut Meter,
) -> Result<Turn<F>, SearchStop>
    ensures above { StaysAbove task.floor stack.old stack.new }
    ensures metered { Metered SearchStop.Spent result meter.old meter.new }
{
    let Some(step) = refuted(alloc, stack, walk, meter)? else {
        return advance(alloc, stack, walk, limits, vars, task, left, meter);
    };
    let ended = walk.close_by_line(alloc, stack.lines(), Source::Step(step))?;
    let next = leave(alloc, stack, walk, ended, task.floor, meter)?;
    Ok(turn_of(next))
}

/// One turn, from how far the lines of the present branch were completed.
fn take_turn<F: Field, O: MonoOrder>(
    alloc: Global,
    stack: &mut BasisStack<F, O>,
    walk: &mut Walk<F, O>,
    limits: &mut Limits,
    vars: &[u32],
    task: Task,
    progress: Progress,
    meter: &mut Meter,
) -> Result<Turn<F>, SearchStop>
    ensures above { StaysAbove task.floor stack.old stack.new }
    ensures metered { Metered SearchStop.Spent result meter.old meter.new }
{
    match progress {
        Progress::Done(Completion::Constant(line)) => {
            let ended = walk.close_by_line(alloc, stack.lines(), Source::Line(line))?;
            let next = leave(alloc, stack, walk, ended, task.floor, meter)?;
            Ok(turn_of(next))
        }
        Progress::Done(_) => compare(alloc, stack, walk, limits, vars, task, false, meter),
        Progress::Left => compare(alloc, stack, walk, limits, vars, task, true, meter),
    }
}

/// Takes turns until there is a common zero, no case waits, or the round's units are taken. Each turn takes a unit.
fn take_turns<F: Field, O: MonoOrder>(
    alloc: Global,
    stack: &mut BasisStack<F, O>,
    walk: &mut Walk<F, O>,
    limits: &mut Limits,
    vars: &[u32],
    task: Task,
    first: Progress,
    meter: &mut Meter,
) -> Result<Option<Vec<F>>, SearchStop>
    ensures above { StaysAbove task.floor stack.old stack.new }
    ensures metered { Metered SearchStop.Spent result meter.old meter.new }
{
    let mut progress = first;
    loop {
        meter.take(Unit::Trial)?;
        if meter.spent() > limits.end {
            limits.reached = true;
            return Ok(None);
        }
        match take_turn(alloc, stack, walk, limits, vars, task, progress, meter)? {
            Turn::On(next) => progress = next,
            Turn::Values(values) => return Ok(Some(values)),
            Turn::Over => return Ok(None),
        }
    }
}

/// What a round comes to.
fn outcome_of<F: Field>(
    alloc: Global,
    values: Option<Vec<F>>,
    root: Option<NodeId>,
    reached: bool,
    tree: Tree,
) -> Result<Outcome<F>, AllocError> {
    Ok(if let Some(values) = values {
        Outcome::Values(values)
    } else if let Some(root) = root {
        let (lines, sums) = tree.into_lines(alloc, root)?;
        Outcome::Closed(lines, sums)
    } else if reached {
        Outcome::GivenUp
    } else {
        Outcome::Stuck
    })
}

/// One round from these generators, on levels above those that are there, with weights that it learns from and adds to.
pub fn round<F: Field, O: MonoOrder>(
    alloc: Global,
    stack: &mut BasisStack<F, O>,
    given: &Given<F, O>,
    vars: &[u32],
    task: Task,
    weights: Weights,
    meter: &mut Meter,
) -> Result<(Outcome<F>, Weights), SearchStop>
    ensures above { StaysAbove task.floor stack.old stack.new }
    ensures metered { Metered SearchStop.Spent result meter.old meter.new }
{
    let effort = task.effort;
    let mut walk = Walk::begin(alloc, given, effort.in_branch(), weights)?;
    let mut limits = Limits {
        end: meter.spent().saturating_add(effort.allowance()),
        deadline: None,
        reached: false,
    };
    let before = meter.spent();
    let no_generators = Vec::new(alloc);
    let progress = stack.push_within(no_generators.as_slice(), effort.at_root(), meter)?;
    walk.bits = bit_lines(alloc, stack.lines())?;
    if task.bits {
        let reasoning = Reasoning::begin(alloc, stack.lines(), &mut walk.derived)?;
        walk.reasoning = Some(reasoning);
        limits.allow(before, meter);
    }
    let values = take_turns(
        alloc,
        stack,
        &mut walk,
        &mut limits,
        vars,
        task,
        progress,
        meter,
    )?;
    let (tree, root, weights) = walk.into_parts();
    let outcome = outcome_of(alloc, values, root, limits.reached, tree)?;
    Ok((outcome, weights))
}
