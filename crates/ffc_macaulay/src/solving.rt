//! Sums of multiples of generators that are variables less their values, up to a degree.
ghost use Rattle.std.specs.Prelude.{◌≡◌, ℕ, ◌+◌, ◌-◌, ◌*◌, ◌<◌, ◌≤◌, List, [], ◌∷◌, ◌++◌, All, Contains, length, Some};
ghost use Rattle.std.specs.Prelude.{IfNone, IfOk, IfSome};
ghost use Rattle.std.specs.List.{AllZip};
ghost use Rattle.std.specs.List.Sorted.{IsStrictlyIncreasing};
ghost use Rattle.ffc_base.specs.declared.meter.Unit.TheVariants as unit;
ghost use Rattle.ffc_base.specs.declared.stop.Stop.TheVariants as stops;
ghost use Rattle.ffc_bounds.specs.Monomials.{columns, rows};
ghost use Rattle.ffc_echelon.specs.Forms.{IsFormOf, leading_column};
ghost use Rattle.ffc_echelon.specs.Units.{TakesAtMost};
ghost use Rattle.ffc_echelon.specs.Vectors.{AreCoordinates, IsBelow, coordinate};
ghost use Rattle.ffc_macaulay.specs.Identities.{AreGenerators, AreLinesOf};
ghost use Rattle.ffc_macaulay.specs.Solutions.{IsSolvedBy};
ghost use Rattle.ffc_macaulay.specs.Solving.{HasOpen, IsColumnOf, IsLed, IsOpenIn, IsValueIn, IsValueOf};
ghost use Rattle.ffc_macaulay.specs.Units.{TakesWithin};
ghost use Rattle.ffc_ring.specs.Polynomial.{Terms};

use crate::columns::column_of;
use crate::finding::{Found, eliminated, summands_of};
use crate::matrix::Matrix;
use ffc_base::{Meter, Stop};
use ffc_echelon::{Echelon, Vector};
use ffc_field::Field;
use ffc_mono::{GradedReverseLex, Mono};
use ffc_poly::Poly;
use ffc_refutation::{Determined, Summand};
use indexmap::IndexSet;
use std::alloc::{AllocError, Global};

/// What is found of the sums of multiples of generators, up to a degree.
#[derive(Drop)]
pub enum Solution {
    /// Multiples of the generators that sum to a constant other than 0.
    Identity(Vec<Summand>),
    /// For each of the constants its value, with the multiples that sum to it less the value.
    Values(Vec<Determined>),
    /// No sum of multiples is 1, and for some constant there is none that is it less a residue.
    Neither,
}

/// The vector that is 1 in one column.
fn unit_vector<F: Field>(alloc: Global, column: u32) -> Result<Vector<F>, AllocError>
    ensures { IfOk result (λ v. v ≡ (column, 1) ∷ []) }
{
    let mut coordinates = Vec::new(alloc);
    coordinates.push((column, F::of(1)))?;
    Ok(Vector::from_coordinates(coordinates))
}

/// The constant that a vector is, where it has no coordinate in the column of an unknown.
fn constant_of<F: Field>(vector: &Vector<F>, unknowns: u32) -> Option<u64>
    requires { IsBelow (unknowns + 1) vector.now }
    ensures residue { IfSome result (λ value. value < F.ORDER) }
    ensures same { IfSome result (λ value. (k : ℕ) → coordinate vector.now k ≡ coordinate ((unknowns, value) ∷ []) k) }
    ensures none { IfNone result ((c : ℕ) × (leading_column vector.now ≡ Some c) × (c < unknowns)) }
    ensures valid { AreCoordinates F.ORDER vector.now }
{
    let coordinates = vector.coordinates();
    if coordinates.is_empty() {
        return Some(0);
    }
    let first = coordinates[0];
    if first.0 < unknowns {
        return None;
    }
    Some(first.1.residue())
}

/// The value of the unknown in a column, where a combination of the rows is the unknown less a constant.
fn value_in<F: Field>(
    alloc: Global,
    matrix: &Matrix<F>,
    form: &Echelon<F>,
    column: u32,
    meter: &mut Meter,
) -> Result<Option<Determined>, Stop>
    requires form { IsFormOf F.ORDER (length matrix.now.unknowns.keys) matrix.now.rows.items form.now }
    requires rows { length matrix.now.rows.items ≡ length matrix.now.multiples.items }
    requires few { length matrix.now.unknowns.keys ≤ 4096 }
    requires inside { column < length matrix.now.unknowns.keys }
    ensures some { IfOk result (λ found. IfSome found (IsValueIn F.ORDER (length matrix.now.unknowns.keys)
        matrix.now.multiples.items matrix.now.rows.items column)) }
    ensures none { IfOk result (λ found. IfNone found (IsOpenIn F.ORDER (length matrix.now.unknowns.keys) form.now.kept column)) }
    ensures units { TakesAtMost unit.Reduction (length matrix.now.unknowns.keys) stops.Spent result meter.old meter.new }
{
    let reduction = form.reduce(&unit_vector(alloc, column)?, meter)?;
    let Some(value) = constant_of(&reduction.rest, matrix.unknowns.len() as u32) else {
        return Ok(None);
    };
    let coefficients = form.combination(alloc, &reduction)?;
    let multiples = matrix.multiples.as_slice();
    let summands = summands_of(alloc, multiples, coefficients.as_slice())?;
    Ok(Some(Determined { value, summands }))
}

/// The values of the unknowns in these columns, where each has one.
fn values_in<F: Field>(
    alloc: Global,
    matrix: &Matrix<F>,
    form: &Echelon<F>,
    columns: &[u32],
    meter: &mut Meter,
) -> Result<Option<Vec<Determined>>, Stop>
    requires form { IsFormOf F.ORDER (length matrix.now.unknowns.keys) matrix.now.rows.items form.now }
    requires rows { length matrix.now.rows.items ≡ length matrix.now.multiples.items }
    requires few { length matrix.now.unknowns.keys ≤ 4096 }
    requires inside { All (λ c. c < length matrix.now.unknowns.keys) columns.now }
    ensures some { IfOk result (λ found. IfSome found (λ values. AllZip (IsValueIn F.ORDER (length matrix.now.unknowns.keys)
        matrix.now.multiples.items matrix.now.rows.items) columns.now values.items)) }
    ensures none { IfOk result (λ found. IfNone found ((c : ℕ) × Contains columns.now c
        × IsOpenIn F.ORDER (length matrix.now.unknowns.keys) form.now.kept c)) }
    ensures units { TakesAtMost unit.Reduction (length columns.now * length matrix.now.unknowns.keys) stops.Spent result
        meter.old meter.new }
{
    let mut values = Vec::new(alloc);
    for column in columns {
        let Some(value) = value_in(alloc, matrix, form, *column, meter)? else {
            return Ok(None);
        };
        values.push(value)?;
    }
    Ok(Some(values))
}

/// The columns of variables, where a row leads in each of them.
fn led_columns<F: Field>(
    alloc: Global,
    unknowns: &IndexSet<Mono>,
    form: &Echelon<F>,
    variables: &[u32],
) -> Result<Option<Vec<u32>>, AllocError>
    requires few { length unknowns.now.keys ≤ 4096 }
    requires listed { All (λ x. Contains (unknowns.now.keys ++ [] ∷ []) ((x, 1) ∷ [])) variables.now }
    ensures some { IfOk result (λ found. IfSome found (λ columns.
        AllZip (IsLed unknowns.now.keys form.now.kept) variables.now columns.items)) }
    ensures none { IfOk result (λ found. IfNone found (HasOpen F.ORDER unknowns.now.keys form.now.kept variables.now)) }
{
    let mut columns = Vec::new(alloc);
    for variable in variables {
        let column = column_of(alloc, unknowns, *variable)?;
        if !form.leads_in(column) {
            return Ok(None);
        }
        columns.push(column)?;
    }
    Ok(Some(columns))
}

/// The values of variables, where each has one. A row has to lead in the column of each, so there are no more of them than rows.
fn values_of<F: Field>(
    alloc: Global,
    matrix: &Matrix<F>,
    form: &Echelon<F>,
    variables: &[u32],
    meter: &mut Meter,
) -> Result<Option<Vec<Determined>>, Stop>
    requires form { IsFormOf F.ORDER (length matrix.now.unknowns.keys) matrix.now.rows.items form.now }
    requires rows { length matrix.now.rows.items ≡ length matrix.now.multiples.items }
    requires few { length matrix.now.unknowns.keys ≤ 4096 }
    requires rises { IsStrictlyIncreasing variables.now }
    requires listed { All (λ x. Contains (matrix.now.unknowns.keys ++ [] ∷ []) ((x, 1) ∷ [])) variables.now }
    ensures some { IfOk result (λ found. IfSome found (λ values. AllZip (IsValueOf F.ORDER matrix.now.unknowns.keys
        matrix.now.multiples.items matrix.now.rows.items) variables.now values.items)) }
    ensures none { IfOk result (λ found. IfNone found
        (HasOpen F.ORDER matrix.now.unknowns.keys form.now.kept variables.now)) }
    ensures units { TakesAtMost unit.Reduction (length matrix.now.rows.items * length matrix.now.unknowns.keys) stops.Spent
        result meter.old meter.new }
{
    match led_columns(alloc, &matrix.unknowns, form, variables)? {
        Some(columns) => values_in(alloc, matrix, form, columns.as_slice(), meter),
        None => Ok(None),
    }
}

/// A sum of multiples of the generators by monomials that is a constant other than 0, as of `identity`; or for each of the first
/// variables, so many, its value: a residue such that a sum of multiples is the variable less it. All sums have degrees up to
/// `degree`. The unit vector of each variable is reduced by the rows of the echelon form (Lazard 1983); each multiple of a row that is
/// subtracted is a Reduction.
///
/// # Errors
///
/// The budget is spent, or out of memory.
pub fn solved<F: Field>(
    alloc: Global,
    variables: &[u32],
    generators: &[Poly<F, GradedReverseLex>],
    degrees: &[u32],
    degree: u32,
    constants: usize,
    meter: &mut Meter,
) -> Result<Solution, Stop>
    requires generators { AreGenerators degree variables.now degrees.now generators.now }
    requires limit { degree ≤ 1024 }
    requires columns { columns degree variables.now ≤ 4096 }
    requires rows { rows degree variables.now degrees.now ≤ 4096 }
    requires least { 1 ≤ degree }
    requires rises { IsStrictlyIncreasing variables.now }
    requires within { constants ≤ length variables.now }
    ensures answer { IfOk result (λ found. (lines : List Terms) → AreLinesOf F.ORDER generators.now lines
        → IsSolvedBy F.ORDER degree variables.now degrees.now lines constants found) }
    ensures units { TakesWithin (2 * rows degree variables.now degrees.now * (columns degree variables.now - 1))
        stops.Spent result meter.old meter.new }
{
    let given = &variables[..constants];
    match eliminated(alloc, variables, generators, degrees, degree, meter)? {
        Found::Identity(summands) => Ok(Solution::Identity(summands)),
        Found::Form(matrix, form) => match values_of(alloc, &matrix, &form, given, meter)? {
            Some(values) => Ok(Solution::Values(values)),
            None => Ok(Solution::Neither),
        },
    }
}
