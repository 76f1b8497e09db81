//! A common divisor of the polynomials of equations.
ghost use Rattle.std.specs.Prelude.{◌≡◌, ℕ, ◌+◌, ◌*◌, ◌<◌, ◌≤◌, [], length, All, IfOk, IfSome, OnOk, Ok, None};
ghost use Rattle.ffc_base.specs.Metering.{Takes};
ghost use Rattle.ffc_base.specs.declared.stop.Stop.TheVariants as stops;
ghost use Rattle.ffc_linear.specs.Units.{TakesWithin};
ghost use Rattle.ffc_single.specs.Dividing.{IsDivisorOf, IsFirstNonzero};
ghost use Rattle.ffc_uni.specs.Univariate.{Coefficients};

use crate::euclid::common_divisor;
use ffc_base::{Meter, Stop};
use ffc_field::Field;
use ffc_lemmatree::EuclidStep;
use ffc_uni::Uni;
use std::alloc::Global;

/// A common divisor of polynomials: the place of the one that it begins with, and the steps of Euclid's algorithm
/// from that one to the divisor.
#[derive(Drop)]
pub(crate) struct Divisor<F: Field> {
    pub start: u32,
    pub steps: Vec<EuclidStep<F>>,
    pub value: Uni<F>,
}

impl<F: Field> Divisor<F> {
    /// Goes on to a common divisor with the next polynomial, at this place.
    fn meet(
        &mut self,
        alloc: Global,
        forms: &[Uni<F>],
        place: usize,
        meter: &mut Meter,
    ) -> Result<(), Stop>
        requires inside { place < length forms.now }
        requires few { length forms.now ≤ 4096 }
        requires low { All (λ f. length f ≤ 256) forms.now }
        requires divisor { IsDivisorOf F.ORDER forms.now place self.old }
        ensures divisor { OnOk result (IsDivisorOf F.ORDER forms.now (place + 1) self.new) }
        ensures units { (n : ℕ) → All (λ f. length f ≤ n) forms.now
            → TakesWithin (n + n * n) stops.Spent result meter.old meter.new }
        ensures takes { Takes meter.old meter.new }
    {
        let Some(next) = common_divisor(alloc, &self.value, &forms[place], meter)? else {
            return Ok(());
        };
        self.steps.push(EuclidStep {
            equation: place as u32,
            a: next.a,
            b: next.b,
        })?;
        self.value = next.value;
        Ok(())
    }
}

/// The place of the first polynomial that is not 0.
fn first_nonzero<F: Field>(forms: &[Uni<F>]) -> Option<usize>
    ensures some { IfSome result (IsFirstNonzero forms.now) }
    ensures none { result ≡ None → All (λ (f : Coefficients). f ≡ []) forms.now }
{
    for (place, form) in forms.iter().enumerate() {
        if !form.is_zero() {
            return Some(place);
        }
    }
    None
}

/// A common divisor of polynomials, of highest degree; `None` where each of them is 0.
pub(crate) fn divisor_of<F: Field>(
    alloc: Global,
    forms: &[Uni<F>],
    meter: &mut Meter,
) -> Result<Option<Divisor<F>>, Stop>
    requires few { length forms.now ≤ 4096 }
    requires low { All (λ f. length f ≤ 256) forms.now }
    ensures some { IfOk result (λ found. IfSome found (IsDivisorOf F.ORDER forms.now (length forms.now))) }
    ensures none { result ≡ Ok None → All (λ (f : Coefficients). f ≡ []) forms.now }
    ensures units { (n : ℕ) → All (λ f. length f ≤ n) forms.now
        → TakesWithin (length forms.now * (n + n * n)) stops.Spent result meter.old meter.new }
    ensures takes { Takes meter.old meter.new }
{
    let Some(start) = first_nonzero(forms) else {
        return Ok(None);
    };
    let value = forms[start].clone()?;
    // Reading the coefficients is what says that the last is not 0.
    let _coefficients = value.coefs();
    let mut divisor = Divisor {
        start: start as u32,
        steps: Vec::new(alloc),
        value,
    };
    for place in start + 1..forms.len() {
        divisor.meet(alloc, forms, place, meter)?;
    }
    Ok(Some(divisor))
}
