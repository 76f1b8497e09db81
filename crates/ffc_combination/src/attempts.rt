//! One choice of generators at one degree.
ghost use Rattle.std.specs.Prelude.{ℕ, ◌*◌, ◌<◌, ◌≤◌, List, length, All, IfOk, OnOk, IfSome, IfNone};
ghost use Rattle.std.specs.List.Sorted.{IsStrictlyIncreasing};
ghost use Rattle.ffc_bounds.specs.Monomials.{columns, rows};
ghost use Rattle.ffc_combination.specs.Attempts.{Defers, HasSize, HasNoSize, IsAttempt, IsLookedFor, IsSized, LeavesTrial};
ghost use Rattle.ffc_combination.specs.Attempts.{LooksWithin, TakesAtMost, units_at};
ghost use Rattle.ffc_combination.specs.Choices.{IsBounded, IsChoice, constants_at};
ghost use Rattle.ffc_combination.specs.Generators.{AreKnown};
ghost use Rattle.ffc_macaulay.specs.Identities.{AreGenerators, AreLinesOf};
ghost use Rattle.ffc_ring.specs.Polynomial.{Terms};
ghost use Rattle.ffc_trees.specs.FirstLines.{first_lines};

use crate::choices::Choice;
use crate::generators::{Generator, make};
use ffc_base::{Meter, Stop};
use ffc_field::Field;
use ffc_macaulay::{Solution, counted, identity, solved};
use ffc_refutation::{Determined, Summand};
use ffc_term::NodeTable;
use std::alloc::{AllocError, Global};

/// What is found of a choice at a degree.
#[derive(Drop)]
pub(crate) enum Attempt {
    /// Multiples of the generators that sum to a constant other than 0.
    Found(Vec<Summand>),
    /// For each of the constants its value, and multiples that sum to the constant less it.
    Solved(Vec<Determined>),
    /// There are none that sum to 1, nor are all constants determined, or the matrix is too large.
    Excluded,
    /// Fewer units are left than the degree may take.
    Unpaid,
}

/// How many columns and rows the matrix of a degree has, where there is a generator, none has a higher degree and the matrix is not
/// too large.
fn size_of(choice: &Choice, degree: u32) -> Option<(u32, u32)>
    requires bound { All (λ e. e ≤ choice.now.greatest) choice.now.degrees.items }
    requires least { (d : ℕ) → All (λ e. e ≤ d) choice.now.degrees.items → choice.now.greatest ≤ d }
    requires limit { degree ≤ 1024 }
    ensures some { IfSome result (λ r. HasSize degree choice.now.variables.items choice.now.degrees.items r.0 r.1) }
    ensures none { IfNone result (HasNoSize degree choice.now.variables.items choice.now.degrees.items) }
{
    if choice.degrees.is_empty() {
        return None;
    }
    if degree < choice.greatest {
        return None;
    }
    counted(
        choice.variables.as_slice(),
        choice.degrees.as_slice(),
        degree,
    )
}

/// How many units a degree may take, where there is a generator, none has a higher degree and the matrix is not too large.
pub(crate) fn units_for(choice: &Choice, degree: u32) -> Option<u64>
    requires bounded { IsBounded choice.now }
    requires limit { degree ≤ 1024 }
    ensures some { IfSome result (IsSized degree choice.now) }
    ensures none { IfNone result (HasNoSize degree choice.now.variables.items choice.now.degrees.items) }
{
    let (columns, rows) = size_of(choice, degree)?;
    Some(2 * u64::from(rows) * u64::from(columns))
}

/// How many units the next degree may take, where what is excluded there is excluded at this degree: there is no generator, or none has
/// a higher degree and the matrix of the next degree is not too large, or that of this degree is.
pub(crate) fn deferred_units(choice: &Choice, degree: u32) -> Option<u64>
    requires bounded { IsBounded choice.now }
    requires limit { degree < 1024 }
    ensures { IfSome result (Defers degree choice.now) }
{
    if choice.degrees.is_empty() {
        return Some(0);
    }
    if degree < choice.greatest {
        return None;
    }
    if let Some(units) = units_for(choice, degree + 1) {
        return Some(units);
    }
    match units_for(choice, degree) {
        Some(_) => None,
        None => Some(0),
    }
}

/// Looks for a sum of multiples of the generators up to a degree that is a constant other than 0, and solves for the constants where
/// that is wanted.
fn looked_for<F: Field>(
    alloc: Global,
    choice: &Choice,
    generators: &[Generator<F>],
    degree: u32,
    meter: &mut Meter,
) -> Result<Solution, Stop>
    requires rises { IsStrictlyIncreasing choice.now.variables.items }
    requires constants { IfSome (constants_at degree choice.now) (λ count. count ≤ length choice.now.variables.items) }
    requires generators { AreGenerators degree choice.now.variables.items choice.now.degrees.items generators.now }
    requires least { 1 ≤ degree }
    requires limit { degree ≤ 1024 }
    requires columns { columns degree choice.now.variables.items ≤ 4096 }
    requires rows { rows degree choice.now.variables.items choice.now.degrees.items ≤ 4096 }
    requires some { 0 < rows degree choice.now.variables.items choice.now.degrees.items }
    ensures answer { IfOk result (λ found. (lines : List Terms) → AreLinesOf F.ORDER generators.now lines
        → IsLookedFor F.ORDER degree choice.now lines found) }
    ensures units { LooksWithin (2 * rows degree choice.now.variables.items choice.now.degrees.items
        * columns degree choice.now.variables.items) result meter.old meter.new }
{
    let (variables, degrees) = (choice.variables.as_slice(), choice.degrees.as_slice());
    match choice.constants_at(degree) {
        Some(count) => solved(alloc, variables, generators, degrees, degree, count, meter),
        None => match identity(alloc, variables, generators, degrees, degree, meter)? {
            Some(summands) => Ok(Solution::Identity(summands)),
            None => Ok(Solution::Neither),
        },
    }
}

/// Looks for a sum of multiples of the generators up to a degree that is a constant other than 0, and solves for the constants where
/// that is wanted. The generators are made where they are first needed. Where fewer units are left than the degree may take, none is
/// taken.
pub(crate) fn attempted<F: Field>(
    alloc: Global,
    table: &NodeTable,
    choice: &Choice,
    generators: &mut Vec<Generator<F>>,
    degree: u32,
    meter: &mut Meter,
) -> Result<Attempt, AllocError>
    requires choice { IsChoice F.ORDER table.now choice.now }
    requires known { AreKnown F.ORDER (first_lines table.now F.ORDER choice.now.literals.items) generators.old.items }
    requires least { 1 ≤ degree }
    requires limit { degree ≤ 1024 }
    ensures known { OnOk result
        (AreKnown F.ORDER (first_lines table.now F.ORDER choice.now.literals.items) generators.new.items) }
    ensures answer { IfOk result (IsAttempt F.ORDER table.now degree choice.now meter.old) }
    ensures trial { IfOk result (LeavesTrial (units_at degree choice.now) meter.old meter.new) }
    ensures units { TakesAtMost (units_at degree choice.now) meter.old meter.new }
{
    let Some((columns, rows)) = size_of(choice, degree) else {
        return Ok(Attempt::Excluded);
    };
    if meter.left() < 2 * u64::from(rows) * u64::from(columns) {
        return Ok(Attempt::Unpaid);
    }
    make(alloc, table, choice.literals.as_slice(), generators)?;
    match looked_for(alloc, choice, generators.as_slice(), degree, meter) {
        Ok(Solution::Identity(summands)) => Ok(Attempt::Found(summands)),
        Ok(Solution::Values(determined)) => Ok(Attempt::Solved(determined)),
        Ok(Solution::Neither) => Ok(Attempt::Excluded),
        Err(Stop::Spent) => unreachable!(),
        Err(Stop::Memory) => Err(AllocError),
    }
}
