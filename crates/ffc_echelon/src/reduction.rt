//! Reduction of a vector by rows, column by column.
ghost use Rattle.std.specs.Prelude.{◌≡◌, ℕ, ◌+◌, ◌<◌, ◌^◌, length, map, slice_index_or, IfOk, OnOk};
ghost use Rattle.ffc_base.specs.declared.meter.Unit.TheVariants as unit;
ghost use Rattle.ffc_base.specs.declared.stop.Stop.TheVariants as stops;
ghost use Rattle.ffc_echelon.specs.Vectors.{AreCoordinates, IsBelow, coordinate};
ghost use Rattle.ffc_echelon.specs.Forms.{AreLeading, IsReduced, IsRestOf};
ghost use Rattle.ffc_echelon.specs.Progress.{AreLeads};
ghost use Rattle.ffc_echelon.specs.Units.{TakesAtMost};

use crate::buffer::{add_multiple, nonzero, zeros};
use crate::form::{Reduction, Row};
use crate::vector::Vector;
use ffc_base::{Meter, Stop, Unit};
use ffc_field::Field;
use std::alloc::{AllocError, Global};

/// A buffer of a vector in so many columns.
pub(crate) fn scattered<F: Field>(
    alloc: Global,
    columns: usize,
    vector: &Vector<F>,
) -> Result<Vec<F>, AllocError>
    requires { IsBelow columns vector.now }
    ensures long { IfOk result (λ v. length v.items ≡ columns) }
    ensures valid { OnOk result (AreCoordinates F.ORDER vector.now) }
    ensures same { IfOk result (λ v. (k : ℕ) → slice_index_or (map F.value v.items) k 0 ≡ coordinate vector.now k) }
{
    let mut buffer = zeros(alloc, columns)?;
    add_multiple(buffer.as_mut_slice(), F::of(1), vector.coordinates());
    Ok(buffer)
}

/// What is left of a vector without coordinates in the columns in which rows lead. A row changes no column before its own, so
/// one pass over the columns is enough, and takes at most one Reduction for each.
pub(crate) fn reduce_by<F: Field>(
    alloc: Global,
    rows: &[Row<F>],
    leads: &[Option<u32>],
    vector: &Vector<F>,
    meter: &mut Meter,
) -> Result<Reduction<F>, Stop>
    requires leading { AreLeading (length leads.now) rows.now }
    requires leads { AreLeads (length leads.now) rows.now leads.now }
    requires columns { length leads.now + 1 < 2 ^ 32 }
    requires within { IsBelow (length leads.now + 1) vector.now }
    ensures valid { OnOk result (AreCoordinates F.ORDER vector.now) }
    ensures rest { IfOk result (λ r. IsRestOf F.ORDER rows.now vector.now r.rest
        (map (λ m. (m.0, F.value m.1)) r.multipliers.items)) }
    ensures reduced { IfOk result (λ r. IsReduced rows.now r.rest) }
    ensures below { IfOk result (λ r. IsBelow (length leads.now + 1) r.rest) }
    ensures units { TakesAtMost unit.Reduction (length leads.now) stops.Spent result meter.old meter.new }
{
    let mut buffer = scattered(alloc, leads.len() + 1, vector)?;
    let mut multipliers = Vec::new(alloc);
    for column in 0..leads.len() {
        let coordinate = buffer[column];
        if coordinate.residue() == 0 {
            continue;
        }
        let Some(number) = leads[column] else {
            continue;
        };
        meter.take(Unit::Reduction)?;
        let row = &rows[number as usize];
        add_multiple(
            buffer.as_mut_slice(),
            coordinate.neg(),
            row.vector.coordinates(),
        );
        multipliers.push((number, coordinate))?;
    }
    Ok(Reduction {
        rest: Vector::from_coordinates(nonzero(alloc, buffer.as_slice())?),
        multipliers,
    })
}
