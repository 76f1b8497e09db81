//! The search.
ghost use Rattle.std.specs.Prelude.{◌≡◌, [], Ok, IfOk, IsTrue};
ghost use Rattle.ffc_base.specs.Metering.{Metered};
ghost use Rattle.ffc_trees.specs.TreeLines.{limits};
ghost use Rattle.ffc_trees.specs.Trees.{tree_read};
ghost use Rattle.ffc_trees.specs.Closing.{Closes};
ghost use Rattle.ffc_stack.specs.Stacks.{generators};
ghost use Rattle.ffc_search.specs.Above.{StaysAbove};
ghost use Rattle.ffc_search.specs.Finding.{OnValues, OnClosed, IsCommonZero};

use crate::accepting::is_accepted;
use crate::answers::Found;
use crate::branches::pop_to;
use crate::effort::Effort;
use crate::inverses::Given;
use crate::points::is_zero;
use crate::rounds::{Outcome, Task, round};
use crate::shallow::Shallow;
use crate::shapes::shapes_of;
use crate::weights::Weights;
use ffc_base::{Meter, SearchStop, Unit};
use ffc_field::Field;
use ffc_line::Line;
use ffc_mono::MonoOrder;
use ffc_roots::Elements;
use ffc_runningsums::Sums;
use ffc_stack::BasisStack;
use ffc_trees::read_trees_close;
use std::alloc::{AllocError, Global};

/// One round: a shallow one without the inverses, where these are apart, and else one on the stack.
fn one_round<F: Field, O: MonoOrder>(
    alloc: Global,
    stack: &mut BasisStack<F, O>,
    given: &Given<F, O>,
    shallow: &mut Option<Shallow<F, O>>,
    vars: &[u32],
    task: Task,
    weights: Weights,
    meter: &mut Meter,
) -> Result<(Outcome<F>, Weights), SearchStop>
    ensures above { StaysAbove task.floor stack.old stack.new }
    ensures metered { Metered SearchStop.Spent result meter.old meter.new }
{
    if !task.effort.is_deep() {
        if let Some(shallow) = shallow {
            return shallow.round(alloc, vars, task, weights, meter);
        }
    }
    round(alloc, stack, given, vars, task, weights, meter)
}

/// What a round comes to that was given up: a tree with the cases of two bits that are not equal, if their sums clash then.
fn by_pairs<F: Field>(
    alloc: Global,
    sums: &Sums,
    meter: &mut Meter,
) -> Result<Outcome<F>, SearchStop>
    ensures metered { Metered SearchStop.Spent result meter.old meter.new }
{
    match sums.refuted_by_pairs(alloc, meter)? {
        Some(lines) => Ok(Outcome::Closed(lines, Vec::new(alloc))),
        None => Ok(Outcome::GivenUp),
    }
}

/// The first round, between two looks at sums of bits that are named step by step.
fn first_round<F: Field, O: MonoOrder>(
    alloc: Global,
    stack: &mut BasisStack<F, O>,
    given: &Given<F, O>,
    shallow: &mut Option<Shallow<F, O>>,
    vars: &[u32],
    task: Task,
    weights: Weights,
    meter: &mut Meter,
) -> Result<(Outcome<F>, Weights), SearchStop>
    ensures above { StaysAbove task.floor stack.old stack.new }
    ensures metered { Metered SearchStop.Spent result meter.old meter.new }
{
    let mut sums = Sums::new(alloc, F::ORDER, shapes_of(alloc, stack.lines())?)?;
    if let Some(lines) = sums.refuted(alloc, meter)? {
        return Ok((Outcome::Closed(lines, Vec::new(alloc)), weights));
    }
    let (outcome, weights) = one_round(alloc, stack, given, shallow, vars, task, weights, meter)?;
    let outcome = match outcome {
        Outcome::GivenUp => by_pairs::<F>(alloc, &sums, meter)?,
        ended => ended,
    };
    Ok((outcome, weights))
}

/// One round, the first one or another.
fn turn_round<F: Field, O: MonoOrder>(
    alloc: Global,
    stack: &mut BasisStack<F, O>,
    given: &Given<F, O>,
    shallow: &mut Option<Shallow<F, O>>,
    vars: &[u32],
    task: Task,
    weights: Weights,
    meter: &mut Meter,
) -> Result<(Outcome<F>, Weights), SearchStop>
    ensures above { StaysAbove task.floor stack.old stack.new }
    ensures metered { Metered SearchStop.Spent result meter.old meter.new }
{
    if task.effort.is_first() {
        first_round(alloc, stack, given, shallow, vars, task, weights, meter)
    } else {
        one_round(alloc, stack, given, shallow, vars, task, weights, meter)
    }
}

/// The stack without inverses, if there are some. Equations of bits are better off with them.
fn without_inverses<F: Field, O: MonoOrder>(
    alloc: Global,
    lines: &[Line<F, O>],
    bits: bool,
    meter: &mut Meter,
) -> Result<Option<Shallow<F, O>>, SearchStop>
    ensures metered { Metered SearchStop.Spent result meter.old meter.new }
{
    if bits {
        return Ok(None);
    }
    Shallow::begin(alloc, lines, meter)
}

/// Rounds with more and more effort, to a zero or a tree. The levels of the last round are left.
fn attempt<F: Field, O: MonoOrder>(
    alloc: Global,
    stack: &mut BasisStack<F, O>,
    vars: &[u32],
    bits: bool,
    floor: u64,
    meter: &mut Meter,
) -> Result<Found<F>, SearchStop>
    ensures above { StaysAbove floor stack.old stack.new }
    ensures metered { Metered SearchStop.Spent result meter.old meter.new }
{
    let given = Given::whole(alloc, stack.lines())?;
    let mut shallow = without_inverses(alloc, stack.lines(), bits, meter)?;
    let mut effort = Effort::first(given.lines.len() as u64);
    let mut weights = Weights::new(alloc);
    loop {
        meter.take(Unit::Trial)?;
        let (outcome, learned) = turn_round(
            alloc,
            stack,
            &given,
            &mut shallow,
            vars,
            Task {
                effort,
                floor,
                bits,
            },
            weights,
            meter,
        )?;
        weights = learned;
        match outcome {
            Outcome::Values(values) => return Ok(Found::Values(Elements::new(values))),
            Outcome::Closed(lines, sums) => return Ok(Found::Closed(lines, sums)),
            Outcome::GivenUp => effort = effort.next(),
            Outcome::Stuck => return Err(SearchStop::GaveUp),
        }
        pop_to(stack, floor);
    }
}

/// Whether what was found is so: the values are a common zero, or the tree is read to its end.
fn is_right<F: Field, O: MonoOrder>(
    alloc: Global,
    lines: &[Line<F, O>],
    vars: &[u32],
    found: &Found<F>,
) -> Result<bool, AllocError>
    ensures values { IfOk result
        (λ yes. IsTrue yes → OnValues found.now (IsCommonZero F.ORDER (generators lines.now) vars.now)) }
    ensures closed { IfOk result
        (λ yes. IsTrue yes → OnClosed found.now (λ tree. tree_read limits F.ORDER (generators lines.now) tree
        ≡ Ok [])) }
{
    match found {
        Found::Values(values) => is_zero(alloc, lines, vars, values.as_slice()),
        Found::Closed(tree, _) => is_accepted(alloc, lines, tree.as_slice()),
    }
}

/// A common zero of the generators, as values of these variables, or a case tree from them that closes. What is found is
/// tested before it is answered. Afterwards the stack is as before. Where it is asked for, bits are reasoned about as integers,
/// and a tree may have lines of bits.
///
/// # Errors
///
/// Spent, where the meter is full; Memory; and GaveUp, where the search has no further choice, or a line passes a limit of
/// polynomials or of certificates.
pub fn search<F: Field, O: MonoOrder>(
    alloc: Global,
    stack: &mut BasisStack<F, O>,
    vars: &[u32],
    bits: bool,
    meter: &mut Meter,
) -> Result<Found<F>, SearchStop>
    ensures values { IfOk result
        (λ found. OnValues found (IsCommonZero F.ORDER (generators stack.old.lines) vars.now)) }
    ensures closed { IfOk result
        (λ found. OnClosed found (λ tree. tree_read limits F.ORDER (generators stack.old.lines) tree ≡ Ok [])) }
    ensures closes { IfOk result
        (λ found. OnClosed found (λ tree. Closes limits F.ORDER (generators stack.old.lines) tree [])) }
    ensures unchanged { stack.new ≡ stack.old }
    ensures metered { Metered SearchStop.Spent result meter.old meter.new }
{
    read_trees_close();
    let base = stack.depth();
    let outcome = attempt(alloc, stack, vars, bits, base, meter);
    pop_to(stack, base);
    let found = outcome?;
    if !is_right(alloc, stack.lines(), vars, &found)? {
        return Err(SearchStop::GaveUp);
    }
    Ok(found)
}
