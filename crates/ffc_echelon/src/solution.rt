//! Common zeros of affine forms at which other forms are not zero.
ghost use Rattle.std.specs.Prelude.{◌≡◌, ◌≢◌, ◌+◌, ◌*◌, ◌<◌, ◌++◌, [], ◌∷◌, All, length, map, count_by, is_none, is_some, slice_index_or, IfOk, OnOk};
ghost use Rattle.ffc_base.specs.declared.meter.Unit.TheVariants as unit;
ghost use Rattle.ffc_base.specs.declared.stop.Stop.TheVariants as stops;
ghost use Rattle.ffc_echelon.specs.Vectors.{AreCoordinates, Coordinates, IsBelow, dot};
ghost use Rattle.ffc_echelon.specs.Forms.{AreLeading, IsAvoided, IsReduced, IsSolution};
ghost use Rattle.ffc_echelon.specs.Placing.{AreGroups, IsFree, form_of};
ghost use Rattle.ffc_echelon.specs.Progress.{AreLeads};
ghost use Rattle.ffc_echelon.specs.Units.{TakesAtMost};

use crate::form::{Echelon, Row};
use crate::grouping::groups_of;
use crate::placing::place_free;
use crate::value::root_in;
use crate::vector::Vector;
use ffc_base::{Meter, Stop, Unit};
use ffc_field::Field;
use std::alloc::{AllocError, Global};

/// A point with 1 after the values of so many unknowns.
fn first_point<F: Field>(alloc: Global, unknowns: u32) -> Result<Vec<F>, AllocError>
    ensures long { IfOk result (λ point. length point.items ≡ unknowns + 1) }
    ensures one { IfOk result (λ point. slice_index_or (map F.value point.items) unknowns 0 ≡ 1) }
{
    let mut point = vec![in alloc; F::of(0); unknowns as usize]?;
    point.push(F::of(1))?;
    Ok(point)
}

/// Places the unknowns in which no row leads, in increasing order of column, such that no form is 0.
fn place_free_unknowns<F: Field>(
    alloc: Global,
    leads: &[Option<u32>],
    groups: &[Vec<(usize, F)>],
    forms: &[Vector<F>],
    point: &mut [F],
    meter: &mut Meter,
) -> Result<(), Stop>
    requires groups { AreGroups F.ORDER F.value (length leads.now) forms.now (length forms.now)
        (map (λ g. g.items) groups.now) }
    requires free { All (IsFree F.ORDER leads.now) forms.now }
    requires few { length forms.now < F.ORDER }
    requires long { length point.old ≡ length leads.now + 1 }
    requires one { slice_index_or (map F.value point.old) (length leads.now) 0 ≡ 1 }
    ensures apart { OnOk result (All (λ v. dot F.ORDER (map F.value point.new) v ≢ 0) forms.now) }
    ensures one { OnOk result (slice_index_or (map F.value point.new) (length leads.now) 0 ≡ 1) }
    ensures units { TakesAtMost unit.Trial (count_by is_none leads.now * (length forms.now + 1)) stops.Spent result
        meter.old meter.new }
{
    for column in 0..leads.len() {
        if leads[column].is_none() {
            let group = groups[column].as_slice();
            place_free(alloc, forms, group, point, column, meter)?;
        }
    }
    Ok(())
}

/// Gives an unknown in which a row leads the value at which the row is 0, from the last to the first.
fn place_leading_unknowns<F: Field>(
    leads: &[Option<u32>],
    rows: &[Row<F>],
    point: &mut [F],
    meter: &mut Meter,
) -> Result<(), Stop>
    requires leading { AreLeading (length leads.now) rows.now }
    requires leads { AreLeads (length leads.now) rows.now leads.now }
    requires long { length point.old ≡ length leads.now + 1 }
    ensures zeros { OnOk result (All (λ r. dot F.ORDER (map F.value point.new) r.coordinates ≡ 0) rows.now) }
    ensures kept { OnOk result ((v : Coordinates) → AreCoordinates F.ORDER v → IsReduced rows.now v
        → dot F.ORDER (map F.value point.new) v ≡ dot F.ORDER (map F.value point.old) v) }
    ensures one { OnOk result (slice_index_or (map F.value point.new) (length leads.now) 0
        ≡ slice_index_or (map F.value point.old) (length leads.now) 0) }
    ensures units { TakesAtMost unit.Trial (count_by is_some leads.now) stops.Spent result meter.old meter.new }
{
    for column in (0..leads.len()).rev() {
        if let Some(number) = leads[column] {
            meter.take(Unit::Trial)?;
            let row = &rows[number as usize];
            let root = root_in(&row.vector, point, column, F::of(1));
            point[column] = root;
        }
    }
    Ok(())
}

/// Values of the unknowns at which the rows are 0 and the forms are not.
fn solve<F: Field>(
    alloc: Global,
    unknowns: u32,
    rows: &[Row<F>],
    leads: &[Option<u32>],
    forms: &[Vector<F>],
    meter: &mut Meter,
) -> Result<Vec<F>, Stop>
    requires leading { AreLeading unknowns rows.now }
    requires leads { AreLeads unknowns rows.now leads.now }
    requires forms { All (IsAvoided (form_of unknowns rows.now)) forms.now }
    requires few { length forms.now < F.ORDER }
    ensures found { IfOk result (λ values. IsSolution F.ORDER (form_of unknowns rows.now) forms.now
        (map F.value values.items)) }
    ensures units { TakesAtMost unit.Trial (unknowns * (length forms.now + 1)) stops.Spent result meter.old meter.new }
{
    let groups = groups_of(alloc, unknowns, forms)?;
    let mut point = first_point(alloc, unknowns)?;
    place_free_unknowns(
        alloc,
        leads,
        groups.as_slice(),
        forms,
        point.as_mut_slice(),
        meter,
    )?;
    place_leading_unknowns(leads, rows, point.as_mut_slice(), meter)?;
    point.truncate(unknowns as usize);
    Ok(point)
}

impl<F: Field> Echelon<F> {
    /// A value for each unknown at which all rows are 0 and none of these forms is. Unknowns in which no row leads are placed
    /// first, each among one more residue than there are forms; a form excludes one residue of its last unknown. Each residue that
    /// is tried is a Trial, and so is the value of an unknown in which a row leads.
    pub fn solution(
        &self,
        alloc: Global,
        forms: &[Vector<F>],
        meter: &mut Meter,
    ) -> Result<Vec<F>, Stop>
        requires forms { All (IsAvoided self.now) forms.now }
        requires few { length forms.now < F.ORDER }
        ensures found { IfOk result (λ values. IsSolution F.ORDER self.now forms.now (map F.value values.items)) }
        ensures units { TakesAtMost unit.Trial (self.now.unknowns * (length forms.now + 1)) stops.Spent result meter.old
            meter.new }
    {
        let rows = self.rows.as_slice();
        let leads = self.leads.as_slice();
        solve(alloc, self.unknowns, rows, leads, forms, meter)
    }
}
