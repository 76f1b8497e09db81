//! Gaussian elimination.
ghost use Rattle.std.specs.Prelude.{◌≡◌, ◌≢◌, ◌+◌, ◌*◌, ◌<◌, ◌^◌, List, [], ◌∷◌, ◌++◌, All, length, map, slice_get, slice_set};
ghost use Rattle.std.specs.Prelude.{IfOk, IfNone, IfSome, OnOk};
ghost use Rattle.ffc_base.specs.declared.meter.Unit.TheVariants as unit;
ghost use Rattle.ffc_base.specs.declared.stop.Stop.TheVariants as stops;
ghost use Rattle.ffc_echelon.specs.Vectors.{Coordinates, IsBelow};
ghost use Rattle.ffc_echelon.specs.Forms.{Kept, IsContradiction, IsRestOf};
ghost use Rattle.ffc_echelon.specs.Outcomes.{IsOutcome};
ghost use Rattle.ffc_echelon.specs.Progress.{scaled, AreKeptOf, AreCoefficientsOf, IsFormOfFirst, IsRowOf};
ghost use Rattle.ffc_echelon.specs.Units.{TakesAtMost};

use crate::buffer::add_at;
use crate::combination::combine;
use crate::form::{Echelon, Reduction, Row};
use crate::reduction::reduce_by;
use crate::vector::Vector;
use ffc_base::{Meter, Stop};
use ffc_field::Field;
use std::alloc::{AllocError, Global};

/// What elimination finds.
#[derive(Drop)]
pub enum Elimination<F: Field> {
    /// An echelon form: the affine forms have a common zero.
    Form(Echelon<F>),
    /// A coefficient for each affine form with which they sum to a constant other than 0.
    Contradiction(Vec<F>),
}

/// The vector times a scale.
fn scaled_by<F: Field>(alloc: Global, vector: &Vector<F>, scale: F) -> Result<Vector<F>, AllocError>
    requires { F.value scale ≢ 0 }
    ensures { IfOk result (λ r. r ≡ scaled F.ORDER (F.value scale) vector.now) }
{
    let given = vector.coordinates();
    let mut coordinates = Vec::new(alloc);
    for (column, coordinate) in given {
        coordinates.push((*column, scale.mul(*coordinate)))?;
    }
    Ok(Vector::from_coordinates(coordinates))
}

/// Keeps what is left of an input, whose first coordinate is in an unknown's column, as a row that leads by 1.
fn keep<F: Field>(
    rows: &mut Vec<Row<F>>,
    leads: &mut Vec<Option<u32>>,
    input: u32,
    lead: (u32, F),
    reduction: Reduction<F>,
) -> Result<(), AllocError>
    requires column { lead.0 < length leads.old.items }
    requires nonzero { F.value lead.1 ≢ 0 }
    requires few { length rows.old.items < 2 ^ 32 }
    ensures row { OnOk result ((r : Kept) × (rows.new.items ≡ rows.old.items ++ r ∷ [])
        × IsRowOf F.ORDER (F.value lead.1) input reduction.rest (map (λ m. (m.0, F.value m.1)) reduction.multipliers.items) r) }
    ensures lead { OnOk result (leads.new.items ≡ slice_set leads.old.items lead.0 (Some (length rows.old.items))) }
{
    let Some(scale) = lead.1.inv() else {
        unreachable!()
    };
    let vector = scaled_by(*rows.allocator(), &reduction.rest, scale)?;
    let number = rows.len() as u32;
    rows.push(Row {
        vector,
        input,
        multipliers: reduction.multipliers,
        scale,
    })?;
    leads[lead.0 as usize] = Some(number);
    Ok(())
}

/// The coefficients with which the inputs sum to what is left of one of them.
fn contradiction<F: Field>(
    alloc: Global,
    rows: &[Row<F>],
    inputs: usize,
    input: usize,
    multipliers: &[(u32, F)],
) -> Result<Vec<F>, AllocError>
    ensures { IfOk result (λ coefficients. (vectors : List Coordinates) (vector rest : Coordinates) → length vectors ≡ inputs
        → AreKeptOf F.ORDER vectors rows.now
        → slice_get vectors input ≡ Some vector
        → IsRestOf F.ORDER rows.now vector rest (map (λ m. (m.0, F.value m.1)) multipliers.now)
        → AreCoefficientsOf F.ORDER vectors rest (map F.value coefficients.items)) }
{
    let mut coefficients = combine(alloc, rows, inputs, F::of(1).neg(), multipliers)?;
    add_at(coefficients.as_mut_slice(), input, F::of(1));
    Ok(coefficients)
}

/// Reduces the next input, and keeps what is left of it. Where that is a constant alone, the answer has coefficients with which the
/// inputs sum to it.
fn eliminate_next<F: Field>(
    alloc: Global,
    inputs: &[Vector<F>],
    number: u32,
    rows: &mut Vec<Row<F>>,
    leads: &mut Vec<Option<u32>>,
    meter: &mut Meter,
) -> Result<Option<Vec<F>>, Stop>
    requires next { number < length inputs.now }
    requires few { length inputs.now < 2 ^ 32 }
    requires columns { length leads.old.items + 1 < 2 ^ 32 }
    requires within { All (IsBelow (length leads.old.items + 1)) inputs.now }
    requires form { IsFormOfFirst F.ORDER (length leads.old.items) inputs.now number rows.old.items leads.old.items }
    ensures form { IfOk result (λ o. IfNone o (IsFormOfFirst F.ORDER (length leads.old.items) inputs.now (number + 1)
        rows.new.items leads.new.items)) }
    ensures contradiction { IfOk result (λ o. IfSome o (λ c.
        IsContradiction F.ORDER (length leads.old.items) inputs.now (map F.value c.items))) }
    ensures units { TakesAtMost unit.Reduction (length leads.old.items) stops.Spent result meter.old meter.new }
{
    let vector = &inputs[number as usize];
    let reduction = reduce_by(alloc, rows.as_slice(), leads.as_slice(), vector, meter)?;
    let coordinates = reduction.rest.coordinates();
    if coordinates.is_empty() {
        return Ok(None);
    }
    let lead = coordinates[0];
    if (lead.0 as usize) < leads.len() {
        keep(rows, leads, number, lead, reduction)?;
        return Ok(None);
    }
    let multipliers = reduction.multipliers.as_slice();
    let coefficients = contradiction(
        alloc,
        rows.as_slice(),
        inputs.len(),
        number as usize,
        multipliers,
    )?;
    Ok(Some(coefficients))
}

/// Brings affine forms to echelon form, each of them reduced by the rows before it: at most one Reduction for each unknown. It
/// ends at the first combination that is a constant other than 0.
pub fn eliminate<F: Field>(
    alloc: Global,
    unknowns: u32,
    inputs: &[Vector<F>],
    meter: &mut Meter,
) -> Result<Elimination<F>, Stop>
    requires within { All (IsBelow (unknowns + 1)) inputs.now }
    requires columns { unknowns + 1 < 2 ^ 32 }
    requires few { length inputs.now < 2 ^ 32 }
    ensures found { IfOk result (IsOutcome F.ORDER F.value unknowns inputs.now) }
    ensures units { TakesAtMost unit.Reduction (length inputs.now * unknowns) stops.Spent result meter.old meter.new }
{
    let mut rows = Vec::new(alloc);
    let mut leads = vec![in alloc; None; unknowns as usize]?;
    for number in 0..inputs.len() as u32 {
        let found = eliminate_next(alloc, inputs, number, &mut rows, &mut leads, meter)?;
        if let Some(coefficients) = found {
            return Ok(Elimination::Contradiction(coefficients));
        }
    }
    Ok(Elimination::Form(Echelon {
        unknowns,
        inputs: inputs.len() as u32,
        rows,
        leads,
    }))
}
