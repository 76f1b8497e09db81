//! Systems of affine forms of which some are to be 0, and others are not.
ghost use Rattle.std.specs.Prelude.{◌≡◌, ◌+◌, ◌*◌, ◌<◌, ◌^◌, List, All, length, IfOk};
ghost use Rattle.ffc_base.specs.declared.stop.Stop.TheVariants as stops;
ghost use Rattle.ffc_echelon.specs.Forms.{IsAvoided, IsFormOf};
ghost use Rattle.ffc_echelon.specs.Solving.{IsPlacedBy, IsSolvedBy};
ghost use Rattle.ffc_echelon.specs.Units.{TakesWithin};
ghost use Rattle.ffc_echelon.specs.Vectors.{AreCoordinates, Coordinates, IsBelow};

use crate::elimination::{Elimination, eliminate};
use crate::form::Echelon;
use crate::ordering::{rarest_first, reordered_all, restored};
use crate::rests::{Rests, rests_of};
use crate::vector::Vector;
use ffc_base::{Meter, Stop};
use ffc_field::Field;
use std::alloc::Global;

/// What is found of a system.
#[derive(Drop)]
pub enum Solution<F: Field> {
    /// A coefficient for each form that is to be 0, with which they sum to a constant other than 0.
    Contradiction(Vec<F>),
    /// The place of a form that is not to be 0, and a coefficient for each form that is, with which they sum to it.
    Combination(usize, Vec<F>),
    /// A value for each unknown.
    Values(Vec<F>),
}

/// Values at which an echelon form is 0, and what is left of other forms is not.
fn valued<F: Field>(
    alloc: Global,
    form: &Echelon<F>,
    rests: &[Vector<F>],
    meter: &mut Meter,
) -> Result<Solution<F>, Stop>
    requires rests { All (IsAvoided form.now) rests.now }
    requires enough { length rests.now < F.ORDER }
    ensures found { IfOk result (IsPlacedBy F.ORDER F.value form.now rests.now) }
    ensures units { TakesWithin (form.now.unknowns * (length rests.now + 1)) stops.Spent result meter.old meter.new }
{
    let values = form.solution(alloc, rests, meter)?;
    Ok(Solution::Values(values))
}

/// Reduces the forms that are not to be 0, and places the unknowns.
fn placed<F: Field>(
    alloc: Global,
    form: &Echelon<F>,
    unequal: &[Vector<F>],
    meter: &mut Meter,
) -> Result<Solution<F>, Stop>
    requires unequal { All (IsBelow (form.now.unknowns + 1)) unequal.now }
    requires valid { All (AreCoordinates F.ORDER) unequal.now }
    requires enough { length unequal.now < F.ORDER }
    ensures found { IfOk result (λ s. (equal : List Coordinates) → IsFormOf F.ORDER form.now.unknowns equal form.now
        → All (AreCoordinates F.ORDER) equal → All (IsBelow (form.now.unknowns + 1)) equal
        → IsSolvedBy F.ORDER F.value form.now.unknowns equal unequal.now s) }
    ensures units { TakesWithin (length unequal.now * form.now.unknowns + form.now.unknowns * (length unequal.now + 1))
        stops.Spent result meter.old meter.new }
{
    match rests_of(alloc, form, unequal, meter)? {
        Rests::Combined(place, coefficients) => Ok(Solution::Combination(place, coefficients)),
        Rests::Apart(rests) => valued(alloc, form, rests.as_slice(), meter),
    }
}

/// Solves a system as it stands.
fn solved<F: Field>(
    alloc: Global,
    unknowns: u32,
    equal: &[Vector<F>],
    unequal: &[Vector<F>],
    meter: &mut Meter,
) -> Result<Solution<F>, Stop>
    requires columns { unknowns + 1 < 2 ^ 32 }
    requires few { length equal.now < 2 ^ 32 }
    requires equal { All (IsBelow (unknowns + 1)) equal.now }
    requires unequal { All (IsBelow (unknowns + 1)) unequal.now }
    requires equal_valid { All (AreCoordinates F.ORDER) equal.now }
    requires unequal_valid { All (AreCoordinates F.ORDER) unequal.now }
    requires enough { length unequal.now < F.ORDER }
    ensures found { IfOk result (IsSolvedBy F.ORDER F.value unknowns equal.now unequal.now) }
    ensures units { TakesWithin ((length equal.now + length unequal.now) * unknowns + unknowns * (length unequal.now + 1)) stops.Spent result meter.old meter.new }
{
    match eliminate(alloc, unknowns, equal, meter)? {
        Elimination::Contradiction(coefficients) => Ok(Solution::Contradiction(coefficients)),
        Elimination::Form(form) => placed(alloc, &form, unequal, meter),
    }
}

/// Solves a system of affine forms, of which the first are to be 0, and the others are not: by an echelon form of the first, with
/// unknowns that few of them have taken first. Each multiple of a row that is subtracted is a Reduction, and each value that is
/// tried for an unknown a Trial.
pub fn solve<F: Field>(
    alloc: Global,
    unknowns: u32,
    equal: &[Vector<F>],
    unequal: &[Vector<F>],
    meter: &mut Meter,
) -> Result<Solution<F>, Stop>
    requires columns { unknowns + 1 < 2 ^ 32 }
    requires few { length equal.now < 2 ^ 32 }
    requires equal { All (IsBelow (unknowns + 1)) equal.now }
    requires unequal { All (IsBelow (unknowns + 1)) unequal.now }
    requires enough { length unequal.now < F.ORDER }
    ensures found { IfOk result (IsSolvedBy F.ORDER F.value unknowns equal.now unequal.now) }
    ensures units { TakesWithin ((length equal.now + length unequal.now) * unknowns + unknowns * (length unequal.now + 1)) stops.Spent result meter.old meter.new }
{
    let order = rarest_first(alloc, unknowns, equal)?;
    let order = order.as_slice();
    let first = reordered_all(alloc, order, equal)?;
    let others = reordered_all(alloc, order, unequal)?;
    match solved(alloc, unknowns, first.as_slice(), others.as_slice(), meter)? {
        Solution::Contradiction(coefficients) => Ok(Solution::Contradiction(coefficients)),
        Solution::Combination(place, coefficients) => Ok(Solution::Combination(
            place,
            coefficients,
        )),
        Solution::Values(values) => {
            let values = restored(alloc, order, values.as_slice())?;
            Ok(Solution::Values(values))
        }
    }
}
