//! Reductions beside the completion of a basis, with a bound of their own.
ghost use Rattle.std.specs.Prelude.{◌≡◌};
ghost use Rattle.ffc_base.specs.Metering.{Metered, total};
ghost use Rattle.ffc_base.specs.Metering.{Takes};

use ffc_base::{Meter, SearchStop, Stop, Unit};
use ffc_basis::Reduced;
use ffc_field::Field;
use ffc_mono::MonoOrder;
use ffc_poly::Poly;
use ffc_stack::BasisStack;

/// How many units one reduction may take.
const MOST_REDUCTIONS: u64 = 1_024;

/// Reduces a polynomial by the lines, where this takes no more than a bounded number of units. The bound keeps one polynomial
/// from taking the whole budget.
pub fn reduced_within<F: Field, O: MonoOrder>(
    stack: &mut BasisStack<F, O>,
    poly: &Poly<F, O>,
    meter: &mut Meter,
) -> Result<Option<Reduced<F, O>>, SearchStop>
    ensures unchanged { stack.new ≡ stack.old }
    ensures metered { Metered SearchStop.Spent result meter.old meter.new }
{
    let mut own = Meter::new(meter.left().min(MOST_REDUCTIONS));
    let reduced = stack.reduce(poly, &mut own);
    meter.charge(Unit::Reduction, own.count(Unit::Reduction))?;
    match reduced {
        Ok(reduced) => Ok(Some(reduced)),
        Err(Stop::Spent) => Ok(None),
        Err(Stop::Memory) => Err(SearchStop::Memory),
    }
}
