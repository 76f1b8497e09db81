//! The value of an unknown in which no row leads.
ghost use Rattle.std.specs.Prelude.{◌≡◌, ℕ, ◌+◌, ◌<◌, ◌≤◌, All, Some, false, length, map, count_by, replicate, slice_get, slice_set, IfOk, OnOk};
ghost use Rattle.ffc_base.specs.declared.meter.Unit.TheVariants as unit;
ghost use Rattle.ffc_base.specs.declared.stop.Stop.TheVariants as stops;
ghost use Rattle.ffc_echelon.specs.Vectors.{IsBelow};
ghost use Rattle.ffc_echelon.specs.Placing.{AreApart, DiffersAt, Excludes, is_marked};
ghost use Rattle.ffc_echelon.specs.Units.{TakesAtMost};

use crate::value::root_in;
use crate::vector::Vector;
use ffc_base::{Meter, Stop, Unit};
use ffc_field::Field;
use std::alloc::{AllocError, Global};

/// So many marks that are not set.
fn no_marks(alloc: Global, count: usize) -> Result<Vec<bool>, AllocError>
    ensures { IfOk result (λ marks. marks.items ≡ replicate count false) }
{
    vec![in alloc; false; count]
}

/// Marks the residues of an unknown at which one of these forms is 0.
fn mark_roots<F: Field>(
    marks: &mut [bool],
    forms: &[Vector<F>],
    group: &[(usize, F)],
    point: &[F],
    column: usize,
)
    requires inside { column < length point.now }
    requires within { All (IsBelow (length point.now)) forms.now }
    requires group { All (Excludes F.ORDER F.value forms.now column) group.now }
    requires few { length marks.old ≤ F.ORDER }
    ensures few { count_by is_marked marks.new ≤ count_by is_marked marks.old + length group.now }
    ensures apart { (y : ℕ) → slice_get marks.new y ≡ Some false
        → AreApart F.ORDER (slice_set (map F.value point.now) column y) forms.now group.now }
{
    for member in group {
        let root = root_in(&forms[member.0], point, column, member.1).residue();
        if root < marks.len() as u64 {
            marks[root as usize] = true;
        }
    }
}

/// The first mark that is not set. Each mark that is looked at is a Trial.
fn first_unmarked(marks: &[bool], meter: &mut Meter) -> Result<usize, Stop>
    requires { count_by is_marked marks.now < length marks.now }
    ensures found { IfOk result (λ k. slice_get marks.now k ≡ Some false) }
    ensures units { TakesAtMost unit.Trial (length marks.now) stops.Spent result meter.old meter.new }
{
    for (place, marked) in marks.iter().enumerate() {
        meter.take(Unit::Trial)?;
        if !*marked {
            return Ok(place);
        }
    }
    unreachable!()
}

/// Gives an unknown the least residue at which none of these forms is 0: a form excludes one residue, so one of the first is left.
pub(crate) fn place_free<F: Field>(
    alloc: Global,
    forms: &[Vector<F>],
    group: &[(usize, F)],
    point: &mut [F],
    column: usize,
    meter: &mut Meter,
) -> Result<(), Stop>
    requires inside { column < length point.old }
    requires within { All (IsBelow (length point.old)) forms.now }
    requires group { All (Excludes F.ORDER F.value forms.now column) group.now }
    requires few { length group.now < F.ORDER }
    ensures placed { OnOk result (DiffersAt (map F.value point.old) (map F.value point.new) column) }
    ensures apart { OnOk result (AreApart F.ORDER (map F.value point.new) forms.now group.now) }
    ensures units { TakesAtMost unit.Trial (length group.now + 1) stops.Spent result meter.old meter.new }
{
    let mut marks = no_marks(alloc, group.len() + 1)?;
    mark_roots(marks.as_mut_slice(), forms, group, point, column);
    let residue = first_unmarked(marks.as_slice(), meter)?;
    point[column] = F::of(residue as u128);
    Ok(())
}
