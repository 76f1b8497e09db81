//! Cases by the roots of a minimal polynomial, where lines have finitely many common zeros in some variables and none of them says
//! so in one variable.
ghost use Rattle.std.specs.Prelude.{◌≡◌};
ghost use Rattle.ffc_base.specs.Metering.{Metered};

use crate::choosing::Candidate;
use ffc_base::{Meter, SearchStop, Stop, Unit};
use ffc_field::Field;
use ffc_line::Line;
use ffc_minimal::{finite_variables, minimal_polynomial};
use ffc_mono::MonoOrder;
use ffc_stack::BasisStack;
use std::alloc::{AllocError, Global};

/// The greatest degree of a minimal polynomial.
const MOST_DEGREE: usize = 512;

/// Of the units that a round has left, a minimal polynomial may take one part in so many: where it is not found, values are tried
/// with the others.
const PARTS: u64 = 2;

/// The variable whose minimal polynomial is sought: the one that leads last among those that are not linear. Products with it
/// are least often reducible.
fn finite_variable<F: Field, O: MonoOrder>(
    alloc: Global,
    lines: &[Line<F, O>],
) -> Result<Option<u32>, AllocError> {
    let mut last = None;
    for (x, exponent) in finite_variables(alloc, lines)?.iter() {
        if *exponent > 1 {
            last = Some(*x);
        }
    }
    Ok(last)
}

/// The minimal polynomial of such a variable modulo the lines, which are a Gröbner basis, where the round has so many units left.
pub fn minimal_candidate<F: Field, O: MonoOrder>(
    alloc: Global,
    stack: &mut BasisStack<F, O>,
    units: u64,
    meter: &mut Meter,
) -> Result<Option<Candidate<F, O>>, SearchStop>
    ensures unchanged { stack.new ≡ stack.old }
    ensures metered { Metered SearchStop.Spent result meter.old meter.new }
{
    let Some(x) = finite_variable(alloc, stack.lines())? else {
        return Ok(None);
    };
    let mut own = Meter::new(meter.left().min(units / PARTS));
    let found = minimal_polynomial(alloc, stack, x, MOST_DEGREE, &mut own);
    meter.charge(Unit::Reduction, own.count(Unit::Reduction))?;
    match found {
        Ok(Some(minimal)) => {
            let (poly, parts) = minimal.into_parts();
            Ok(Some(Candidate {
                line: None,
                parts,
                variable: x,
                poly,
            }))
        }
        Ok(None) => Ok(None),
        Err(Stop::Spent) => Ok(None),
        Err(Stop::Memory) => Err(SearchStop::Memory),
    }
}
