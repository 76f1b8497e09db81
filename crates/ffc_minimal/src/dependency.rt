//! The lowest power of a variable that modulo the lines is a sum of lower ones.
ghost use Rattle.std.specs.Prelude.{◌≡◌};
ghost use Rattle.ffc_base.specs.Metering.{Metered};

use crate::echelon::Echelon;
use crate::multiples::{constant, product_with, reduced_by};
use ffc_base::{Meter, Stop};
use ffc_field::Field;
use ffc_mono::{Mono, MonoOrder};
use ffc_stack::BasisStack;
use std::alloc::Global;

/// The coefficients of the sum of powers of x that reduces to 0, of the lowest degree, which is below `most`; that of its highest
/// power is 1. None where no such sum does, or a limit of polynomials is passed.
pub(crate) fn dependency<F: Field, O: MonoOrder>(
    alloc: Global,
    stack: &mut BasisStack<F, O>,
    x: &Mono,
    most: usize,
    meter: &mut Meter,
) -> Result<Option<Vec<F>>, Stop>
    ensures unchanged { stack.new ≡ stack.old }
    ensures metered { Metered Stop.Spent result meter.old meter.new }
{
    let mut rows = Echelon::new(alloc);
    let mut power = constant::<F, O>(alloc, F::of(1))?;
    for _ in 0..most {
        let Some(reduced) = reduced_by(stack, &power, meter)? else {
            return Ok(None);
        };
        if let Some(coefs) = rows.add(alloc, &reduced.rest, meter)? {
            return Ok(Some(coefs));
        }
        let Some(next) = product_with(&reduced.rest, x)? else {
            return Ok(None);
        };
        power = next;
    }
    Ok(None)
}
