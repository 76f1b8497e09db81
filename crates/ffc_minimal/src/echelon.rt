//! Rows in echelon form, which arrive one by one: normal forms of the powers of a variable, with which powers they are sums of.
ghost use Rattle.ffc_base.specs.Metering.{Metered};

use ffc_base::{Meter, Stop, Unit};
use ffc_field::Field;
use ffc_mono::{Mono, MonoOrder};
use ffc_poly::Poly;
use indexmap::IndexSet;
use std::alloc::{AllocError, Global};

/// A row: the normal form of a sum of powers.
#[derive(Drop)]
struct Row<F: Field> {
    /// The first column that has a coefficient, which is 1. The rows after it have none there.
    pivot: usize,
    values: Vec<F>,
    /// The coefficients of the sum, from the power 0 on.
    powers: Vec<F>,
}

/// The rows so far, and the monomials of their columns.
#[derive(Drop)]
pub(crate) struct Echelon<F: Field> {
    columns: IndexSet<Mono>,
    rows: Vec<Row<F>>,
}

/// Adds a multiple of a row to one that is at least as long.
fn add_multiple<F: Field>(row: &mut Vec<F>, c: F, other: &[F]) {
    for (place, value) in other.iter().enumerate() {
        if let Some(own) = row.get_mut(place) {
            *own = own.add_scaled(c, *value);
        }
    }
}

/// The row times a constant.
fn scale<F: Field>(row: &mut Vec<F>, c: F) {
    for value in row.iter_mut() {
        *value = value.mul(c);
    }
}

/// The place of the first element other than 0, and its inverse.
fn first_nonzero<F: Field>(values: &[F]) -> Option<(usize, F)> {
    for (place, value) in values.iter().enumerate() {
        if let Some(inverse) = value.inv() {
            return Some((place, inverse));
        }
    }
    None
}

/// Subtracts the multiple of a row that leaves nothing in the column of its pivot.
fn subtract<F: Field>(
    row: &Row<F>,
    values: &mut Vec<F>,
    powers: &mut Vec<F>,
    meter: &mut Meter,
) -> Result<(), Stop>
    ensures metered { Metered Stop.Spent result meter.old meter.new }
{
    let factor = match values.get(row.pivot) {
        Some(c) => c.neg(),
        None => F::of(0),
    };
    if factor.residue() == 0 {
        return Ok(());
    }
    meter.take(Unit::Reduction)?;
    add_multiple(values, factor, row.values.as_slice());
    add_multiple(powers, factor, row.powers.as_slice());
    Ok(())
}

impl<F: Field> Echelon<F> {
    /// No rows. It takes no memory.
    pub(crate) fn new(alloc: Global) -> Self {
        Echelon {
            columns: IndexSet::new(alloc),
            rows: Vec::new(alloc),
        }
    }

    /// The coefficients of a polynomial by columns, of which there are more with new monomials.
    fn values_of<O: MonoOrder>(
        &mut self,
        alloc: Global,
        poly: &Poly<F, O>,
    ) -> Result<Vec<F>, AllocError> {
        let mut values = Vec::new(alloc);
        values.resize(self.columns.len(), F::of(0))?;
        for place in 0..poly.len() {
            let (c, m) = poly.term(place);
            let (column, is_new) = self.columns.insert_full(m.to_mono(alloc)?)?;
            if is_new {
                values.push(c)?;
            } else if let Some(value) = values.get_mut(column) {
                *value = c;
            }
        }
        Ok(values)
    }

    /// Adds the normal form of a power as a row, the powers in order. Where it depends on the rows before, the coefficients of
    /// the sum of powers that is 0; that of the last power is 1. Each row that is subtracted is one Reduction.
    pub(crate) fn add<O: MonoOrder>(
        &mut self,
        alloc: Global,
        normal: &Poly<F, O>,
        meter: &mut Meter,
    ) -> Result<Option<Vec<F>>, Stop>
        ensures metered { Metered Stop.Spent result meter.old meter.new }
    {
        let mut values = self.values_of(alloc, normal)?;
        let mut powers = Vec::new(alloc);
        powers.resize(self.rows.len(), F::of(0))?;
        powers.push(F::of(1))?;
        for row in self.rows.as_slice() {
            subtract(row, &mut values, &mut powers, meter)?;
        }
        let Some((pivot, inverse)) = first_nonzero(values.as_slice()) else {
            return Ok(Some(powers));
        };
        scale(&mut values, inverse);
        scale(&mut powers, inverse);
        self.rows.push(Row {
            pivot,
            values,
            powers,
        })?;
        Ok(None)
    }
}
