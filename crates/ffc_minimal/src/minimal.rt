//! The minimal polynomial of a variable modulo the lines of a stack.
ghost use Rattle.std.specs.Prelude.{◌≡◌, [], ◌∷◌, length, IfOk, IfSome};
ghost use Rattle.ffc_base.specs.Metering.{Metered};
ghost use Rattle.ffc_ring.specs.Polynomial.{SamePolynomial};
ghost use Rattle.ffc_line.specs.Lines.{polys_of, combination, AreBefore};
ghost use Rattle.ffc_uni.specs.Univariate.{terms_in};

use crate::dependency::dependency;
use crate::multiples::{Parts, remainder_of};
use crate::sums::is_sum;
use ffc_base::{Meter, Stop};
use ffc_field::Field;
use ffc_mono::{Mono, MonoOrder, MonoStop};
use ffc_stack::BasisStack;
use ffc_uni::Uni;
use std::alloc::{AllocError, Global};

/// A polynomial in one variable, and the multiples of lines that it is the sum of.
pub struct Minimal<F: Field, O: MonoOrder> {
    pub poly: Uni<F>,
    /// Numbers of lines, and what each is multiplied by.
    pub parts: Parts<F, O>,
}

impl<F: Field, O: MonoOrder> Drop for Minimal<F, O> {
    fn drop(self) {
        let Minimal { poly: _, parts: _ } = self;
    }
}

impl<F: Field, O: MonoOrder> Minimal<F, O> {
    /// The polynomial and the multiples.
    pub fn into_parts(self) -> (Uni<F>, Parts<F, O>)
        ensures { (result.0 ≡ self.poly) × (result.1 ≡ self.parts) }
    {
        let Minimal { poly, parts } = self;
        (poly, parts)
    }
}

/// A variable as a monomial.
fn variable(alloc: Global, x: u32) -> Result<Mono, AllocError>
    ensures { IfOk result (λ m. m ≡ (x, 1) ∷ []) }
{
    match Mono::from_pairs(alloc, &[(x, 1)]) {
        Ok(variable) => Ok(variable),
        Err(MonoStop::DegreeOver) => unreachable!(),
        Err(MonoStop::Memory) => Err(AllocError),
    }
}

/// The polynomial in x of the lowest degree, at most `most`, that reduces to 0 by the lines, as the sum of multiples of lines
/// that it is; its leading coefficient is 1. Where the lines are a Gröbner basis it is the minimal polynomial of x modulo their
/// ideal. None where there is none, or a limit of polynomials is passed. Each power of x is reduced twice, and each row that is
/// subtracted in the elimination is one Reduction too.
pub fn minimal_polynomial<F: Field, O: MonoOrder>(
    alloc: Global,
    stack: &mut BasisStack<F, O>,
    x: u32,
    most: usize,
    meter: &mut Meter,
) -> Result<Option<Minimal<F, O>>, Stop>
    ensures sum { IfOk result (λ o. IfSome o (λ m. SamePolynomial F.ORDER (terms_in x m.poly)
        (combination (polys_of stack.old.lines) m.parts.items))) }
    ensures lines_exist { IfOk result (λ o. IfSome o (λ m. AreBefore (length stack.old.lines) m.parts.items)) }
    ensures unchanged { stack.new ≡ stack.old }
    ensures metered { Metered Stop.Spent result meter.old meter.new }
{
    let power = variable(alloc, x)?;
    let Some(coefs) = dependency(alloc, stack, &power, most.saturating_add(1), meter)? else {
        return Ok(None);
    };
    let found = remainder_of(alloc, stack, &power, coefs.as_slice(), meter)?;
    let Some(remainder) = found else {
        return Ok(None);
    };
    let poly = Uni::from_coefs(alloc, coefs.as_slice())?;
    let parts = remainder.into_parts();
    if !is_sum(alloc, stack.lines(), x, &poly, parts.as_slice())? {
        return Ok(None);
    }
    Ok(Some(Minimal { poly, parts }))
}
