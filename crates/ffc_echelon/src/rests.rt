//! What an echelon form leaves of other forms.
ghost use Rattle.std.specs.Prelude.{◌+◌, ◌*◌, All, IfOk, length};
ghost use Rattle.ffc_base.specs.declared.stop.Stop.TheVariants as stops;
ghost use Rattle.ffc_echelon.specs.Vectors.{IsBelow};
ghost use Rattle.ffc_echelon.specs.Resting.{IsRestFor, IsRestsOf};
ghost use Rattle.ffc_echelon.specs.Units.{TakesWithin};

use crate::form::Echelon;
use crate::vector::Vector;
use ffc_base::{Meter, Stop};
use ffc_field::Field;
use std::alloc::Global;

/// What an echelon form leaves of a vector.
#[derive(Drop)]
enum Rest<F: Field> {
    /// Something.
    Apart(Vector<F>),
    /// Nothing: it is the combination of the inputs with these coefficients.
    Combined(Vec<F>),
}

/// What an echelon form leaves of vectors.
#[derive(Drop)]
pub(crate) enum Rests<F: Field> {
    /// Something of each.
    Apart(Vec<Vector<F>>),
    /// Nothing of the one at this place, which is the combination of the inputs with these coefficients.
    Combined(usize, Vec<F>),
}

/// Reduces a vector by the rows of an echelon form.
fn rest_of<F: Field>(
    alloc: Global,
    form: &Echelon<F>,
    vector: &Vector<F>,
    meter: &mut Meter,
) -> Result<Rest<F>, Stop>
    requires { IsBelow (form.now.unknowns + 1) vector.now }
    ensures rest { IfOk result (IsRestFor F.ORDER F.value form.now vector.now) }
    ensures units { TakesWithin form.now.unknowns stops.Spent result meter.old meter.new }
{
    let reduction = form.reduce(vector, meter)?;
    if reduction.rest.coordinates().is_empty() {
        let coefficients = form.combination(alloc, &reduction)?;
        return Ok(Rest::Combined(coefficients));
    }
    Ok(Rest::Apart(reduction.rest))
}

/// Reduces each of these vectors by the rows of an echelon form, up to the first of which nothing is left.
pub(crate) fn rests_of<F: Field>(
    alloc: Global,
    form: &Echelon<F>,
    vectors: &[Vector<F>],
    meter: &mut Meter,
) -> Result<Rests<F>, Stop>
    requires { All (IsBelow (form.now.unknowns + 1)) vectors.now }
    ensures rests { IfOk result (IsRestsOf F.ORDER F.value form.now vectors.now) }
    ensures units { TakesWithin (length vectors.now * form.now.unknowns) stops.Spent result meter.old meter.new }
{
    let mut rests = Vec::new(alloc);
    for (place, vector) in vectors.iter().enumerate() {
        match rest_of(alloc, form, vector, meter)? {
            Rest::Apart(rest) => rests.push(rest)?,
            Rest::Combined(coefficients) => return Ok(Rests::Combined(place, coefficients)),
        }
    }
    Ok(Rests::Apart(rests))
}
