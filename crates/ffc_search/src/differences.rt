//! Polynomials that are not 0, beside the lines of a stack: a branch is closed where one of them is 0 by the lines.
//!
//! As a line, the inverse of each would be written anew in each case, and pairs with it would wait. Here only the monomials of
//! such polynomials are reduced in each case, each once for all polynomials that have it.
ghost use Rattle.std.specs.Prelude.{◌≡◌};
ghost use Rattle.ffc_base.specs.Metering.{Metered};

use crate::inverses::Inverse;
use crate::points::set_coordinate;
use crate::reducing::reduced_within;
use ffc_base::{Meter, SearchStop};
use ffc_basis::Reduced;
use ffc_bits::{Derived, Reason, Source, StepId};
use ffc_field::Field;
use ffc_line::LineId;
use ffc_mono::{Mono, MonoOrder, MonoRef, MonoStop};
use ffc_poly::{Poly, PolyStop};
use ffc_stack::BasisStack;
use std::alloc::{AllocError, Global};
use std::collections::{BTreeMap, BTreeSet};
use std::mem;

/// A monomial, and what was left of it by the lines in each case in which that changed.
struct Image<F: Field, O: MonoOrder> {
    /// The monomial itself, and what was left of it since.
    rests: Vec<Poly<F, O>>,
    /// For each that was left, the derived line that is the difference of the monomial and it.
    steps: Vec<StepId>,
    /// Whether it changed when it was looked at last.
    changed: bool,
}

impl<F: Field, O: MonoOrder> Drop for Image<F, O> {
    fn drop(self) {
        let Image {
            rests: _,
            steps: _,
            changed: _,
        } = self;
    }
}

/// A polynomial that is not 0.
struct Difference<F: Field, O: MonoOrder> {
    /// Its inverse, and the derived line that is the generator that says so.
    inverse: u32,
    generator: StepId,
    poly: Poly<F, O>,
    /// The constant of the generator, and that of the polynomial.
    constant: F,
    rest: F,
    /// The other terms: residues of coefficients, and monomials by their places.
    terms: Vec<(u64, usize)>,
}

impl<F: Field, O: MonoOrder> Drop for Difference<F, O> {
    fn drop(self) {
        let Difference {
            inverse: _,
            generator: _,
            poly: _,
            constant: _,
            rest: _,
            terms: _,
        } = self;
    }
}

/// The polynomials that are not 0, with their monomials.
pub struct Differences<F: Field, O: MonoOrder> {
    alloc: Global,
    list: Vec<Difference<F, O>>,
    images: Vec<Image<F, O>>,
    /// The places of the monomials that are variables.
    places: BTreeMap<u32, usize>,
    /// The monomials that changed, in order.
    trail: Vec<usize>,
    /// The variables of the polynomials.
    variables: BTreeSet<u32>,
}

impl<F: Field, O: MonoOrder> Drop for Differences<F, O> {
    fn drop(self) {
        let Differences {
            alloc: _,
            list: _,
            images: _,
            places: _,
            trail: _,
            variables: _,
        } = self;
    }
}

/// A polynomial, or none where it passes a limit.
fn within<F: Field, O: MonoOrder>(
    made: Result<Poly<F, O>, PolyStop>,
) -> Result<Option<Poly<F, O>>, AllocError> {
    match made {
        Ok(poly) => Ok(Some(poly)),
        Err(PolyStop::Memory) => Err(AllocError),
        Err(_) => Ok(None),
    }
}

/// A term as a polynomial.
fn term<F: Field, O: MonoOrder>(alloc: Global, c: F, m: Mono) -> Result<Poly<F, O>, AllocError> {
    let mut terms = Vec::new(alloc);
    terms.push((c, m))?;
    match Poly::from_terms(alloc, &terms) {
        Ok(poly) => Ok(poly),
        Err(PolyStop::Memory) => Err(AllocError),
        Err(_) => unreachable!(),
    }
}

/// A constant as a polynomial.
fn constant<F: Field, O: MonoOrder>(alloc: Global, c: F) -> Result<Poly<F, O>, AllocError> {
    match Mono::from_pairs(alloc, &[]) {
        Ok(one) => term(alloc, c, one),
        Err(MonoStop::Memory) => Err(AllocError),
        Err(MonoStop::DegreeOver) => unreachable!(),
    }
}

/// A multiple of a variable as a polynomial.
fn multiple<F: Field, O: MonoOrder>(alloc: Global, c: F, x: u32) -> Result<Poly<F, O>, AllocError> {
    match Mono::from_pairs(alloc, &[(x, 1)]) {
        Ok(m) => term(alloc, c, m),
        Err(MonoStop::Memory) => Err(AllocError),
        Err(MonoStop::DegreeOver) => unreachable!(),
    }
}

/// What is left of a monomial, reduced further.
fn reduced<F: Field, O: MonoOrder>(
    stack: &mut BasisStack<F, O>,
    image: Option<&Image<F, O>>,
    meter: &mut Meter,
) -> Result<Option<Reduced<F, O>>, SearchStop>
    ensures unchanged { stack.new ≡ stack.old }
    ensures metered { Metered SearchStop.Spent result meter.old meter.new }
{
    let Some(rest) = image.and_then(|image| image.rest()) else {
        return Ok(None);
    };
    reduced_within(stack, rest, meter)
}

impl<F: Field, O: MonoOrder> Image<F, O> {
    /// What is left of it.
    fn rest(&self) -> Option<&Poly<F, O>> {
        self.rests.last()
    }

    /// The derived line that is the difference to what is left of it.
    fn step(&self) -> Option<StepId> {
        self.steps.last().copied()
    }
}

impl<F: Field, O: MonoOrder> Differences<F, O> {
    /// None. It takes no memory.
    pub fn new(alloc: Global) -> Self {
        Differences {
            alloc,
            list: Vec::new(alloc),
            images: Vec::new(alloc),
            places: BTreeMap::new(alloc),
            trail: Vec::new(alloc),
            variables: BTreeSet::new(alloc),
        }
    }

    /// Whether there are none.
    pub fn is_empty(&self) -> bool {
        self.list.is_empty()
    }

    /// Whether one of them has a variable.
    pub fn has(&self, x: u32) -> bool {
        self.variables.contains(&x)
    }

    /// Adds the polynomial of an inverse, whose generator is this derived line.
    pub fn add(&mut self, inverse: &Inverse<F, O>, generator: StepId) -> Result<(), AllocError> {
        let mut difference = Difference {
            inverse: inverse.variable,
            generator,
            poly: inverse.poly.clone()?,
            constant: inverse.constant,
            rest: F::of(0),
            terms: Vec::new(self.alloc),
        };
        for (c, m) in inverse.poly.iter() {
            if m.degree() == 0 {
                difference.rest = c;
            } else {
                difference.terms.push((c.residue(), self.place_of(m)?))?;
            }
        }
        self.list.push(difference)?;
        Ok(())
    }

    /// The place of a monomial. Those that are variables are shared.
    fn place_of(&mut self, m: MonoRef<'_>) -> Result<usize, AllocError> {
        for power in m.pairs() {
            self.variables.insert(power.0)?;
        }
        let x = match m.pairs() {
            [power] if power.1 == 1 => Some(power.0),
            _ => None,
        };
        if let Some(place) = x.and_then(|x| self.places.get(&x).copied()) {
            return Ok(place);
        }
        let place = self.images.len();
        let mut rests = Vec::new(self.alloc);
        rests.push(term(self.alloc, F::of(1), m.to_mono(self.alloc)?)?)?;
        self.images.push(Image {
            rests,
            steps: Vec::new(self.alloc),
            changed: true,
        })?;
        if let Some(x) = x {
            self.places.insert(x, place)?;
        }
        Ok(place)
    }

    /// How many changes there were.
    pub fn mark(&self) -> usize {
        self.trail.len()
    }

    /// Takes back the changes since there were so many.
    pub fn cut(&mut self, mark: usize) {
        for _ in mark..self.trail.len() {
            if let Some(place) = self.trail.pop() {
                if let Some(image) = self.images.get_mut(place) {
                    let _ = image.rests.pop();
                    let _ = image.steps.pop();
                }
            }
        }
    }

    /// Derives the difference of a monomial and what is left of it: a derived line, if there is one, and multiples of lines.
    fn derive(
        &self,
        derived: &mut Derived<F, O>,
        before: Option<StepId>,
        parts: Vec<(LineId, Poly<F, O>)>,
        since: usize,
    ) -> Result<StepId, AllocError> {
        let mut sum = Vec::new(self.alloc);
        if let Some(step) = before {
            sum.push((Source::Step(step), constant(self.alloc, F::of(1))?))?;
        }
        for (line, factor) in parts {
            sum.push((Source::Line(line), factor))?;
        }
        derived.push(Reason::Sum(sum), since)
    }

    /// Reduces what is left of a monomial.
    fn refresh(
        &mut self,
        stack: &mut BasisStack<F, O>,
        derived: &mut Derived<F, O>,
        place: usize,
        meter: &mut Meter,
    ) -> Result<(), SearchStop>
        ensures unchanged { stack.new ≡ stack.old }
        ensures metered { Metered SearchStop.Spent result meter.old meter.new }
    {
        self.keep(place);
        let Some(mut reduced) = reduced(stack, self.images.get(place), meter)? else {
            return Ok(());
        };
        if reduced.parts.is_empty() {
            return Ok(());
        }
        let parts = mem::replace(&mut reduced.parts, Vec::new(self.alloc));
        let before = self.images.get(place).and_then(|image| image.step());
        let step = self.derive(derived, before, parts, stack.lines().len())?;
        let rest = mem::replace(&mut reduced.rest, Poly::zero(self.alloc));
        self.change(place, rest, step)?;
        Ok(())
    }

    /// Notes that a monomial did not change.
    fn keep(&mut self, place: usize) {
        if let Some(image) = self.images.get_mut(place) {
            image.changed = false;
        }
    }

    /// Notes what is left of a monomial.
    fn change(&mut self, place: usize, rest: Poly<F, O>, step: StepId) -> Result<(), AllocError> {
        if let Some(image) = self.images.get_mut(place) {
            image.changed = true;
            image.rests.reserve(1)?;
            image.steps.push(step)?;
            image.rests.push(rest)?;
            self.trail.push(place)?;
        }
        Ok(())
    }

    /// What is left of the monomial at a place.
    fn rest_at(&self, place: usize) -> Option<&Poly<F, O>> {
        self.images.get(place).and_then(|image| image.rest())
    }

    /// Whether a monomial of a polynomial changed, and what is left of it may be 0: of two monomials the leading ones are alike.
    fn may_be_zero(&self, difference: &Difference<F, O>) -> bool {
        let mut changed = false;
        for term in difference.terms.as_slice() {
            if let Some(image) = self.images.get(term.1) {
                changed = changed || image.changed;
            }
        }
        changed && self.may_cancel(difference.terms.as_slice())
    }

    /// Whether multiples of monomials may be a constant.
    fn may_cancel(&self, terms: &[(u64, usize)]) -> bool {
        let (one, other) = match terms {
            [one, other] => (one.1, other.1),
            _ => return true,
        };
        match (self.rest_at(one), self.rest_at(other)) {
            (Some(one), Some(other)) => match (one.lead(), other.lead()) {
                (Some(one), Some(other)) => one.1 == other.1,
                _ => true,
            },
            _ => true,
        }
    }

    /// Whether a polynomial is 0 by the lines.
    fn is_zero(&self, difference: &Difference<F, O>) -> Result<bool, AllocError> {
        let alloc = self.alloc;
        let mut sum = constant(alloc, difference.rest)?;
        for (c, place) in difference.terms.as_slice() {
            let Some(rest) = self.rest_at(*place) else {
                return Ok(false);
            };
            let c = F::of(u128::from(*c));
            let Some(scaled) = within(rest.scale(c))? else {
                return Ok(false);
            };
            match within(sum.add(&scaled))? {
                Some(next) => sum = next,
                None => return Ok(false),
            }
        }
        Ok(sum.is_zero())
    }

    /// The first polynomial that is 0 by the lines, and was not when it was looked at last.
    fn vanished(&self) -> Result<Option<&Difference<F, O>>, AllocError> {
        for difference in self.list.as_slice() {
            if self.may_be_zero(difference) && self.is_zero(difference)? {
                return Ok(Some(difference));
            }
        }
        Ok(None)
    }

    /// Derives the constant of a generator whose polynomial is 0 by the lines.
    fn refute(
        &self,
        derived: &mut Derived<F, O>,
        difference: &Difference<F, O>,
        since: usize,
    ) -> Result<StepId, AllocError> {
        let alloc = self.alloc;
        let mut sum = Vec::new(alloc);
        let one = constant(alloc, F::of(1))?;
        sum.push((Source::Step(difference.generator), one))?;
        for (c, place) in difference.terms.as_slice() {
            if let Some(step) = self.images.get(*place).and_then(|image| image.step()) {
                let c = F::of(u128::from(*c));
                let factor = multiple(alloc, c.neg(), difference.inverse)?;
                sum.push((Source::Step(step), factor))?;
            }
        }
        derived.push(Reason::Sum(sum), since)
    }

    /// Looks at the polynomials again where the stack has new lines. Where one is 0 by the lines, it answers a derived line that
    /// is a constant other than 0.
    pub fn look(
        &mut self,
        stack: &mut BasisStack<F, O>,
        derived: &mut Derived<F, O>,
        meter: &mut Meter,
    ) -> Result<Option<StepId>, SearchStop>
        ensures unchanged { stack.new ≡ stack.old }
        ensures metered { Metered SearchStop.Spent result meter.old meter.new }
    {
        for place in 0..self.images.len() {
            self.refresh(stack, derived, place, meter)?;
        }
        match self.vanished()? {
            Some(difference) => {
                let step = self.refute(derived, difference, stack.lines().len())?;
                Ok(Some(step))
            }
            None => Ok(None),
        }
    }

    /// Gives the inverses the values that follow at a point. Says whether no polynomial is 0 there.
    pub fn invert(&self, point: &mut Vec<F>) -> Result<bool, AllocError> {
        for difference in self.list.as_slice() {
            let Some(inverse) = difference.poly.eval(point.as_slice()).inv() else {
                return Ok(false);
            };
            let value = difference.constant.neg().mul(inverse);
            set_coordinate(point, difference.inverse, value)?;
        }
        Ok(true)
    }
}
