//! Equations of bits that are propagated together: what one of them forces is put into the others.
ghost use Rattle.std.specs.Prelude.{◌≡◌, IsErrOf};
ghost use Rattle.ffc_base.specs.Metering.{Metered};

use crate::derived::{Derived, Reason, Source, StepId};
use crate::equation::{Equation, Forced, Outline};
use crate::forms::Bits;
use crate::integers::{element, is_read_alike, is_within, of_residue};
use crate::known::{Known, Rule, Rules};
use crate::polynomials::{constant, exclusive_or};
use ffc_base::{Meter, SearchStop, Unit};
use ffc_field::Field;
use ffc_mono::MonoOrder;
use ffc_poly::Poly;
use std::alloc::{AllocError, Global};
use std::collections::{BTreeMap, BTreeSet};
use std::mem;

/// An equation, with the multiples of lines that it is the sum of.
#[derive(Drop)]
pub struct Open {
    pub equation: Equation,
    pub parts: Vec<(Source, u64)>,
    /// The bits whose coefficients have the least power of two, as they were when it was looked at last.
    pub lowest: Vec<u32>,
    /// Whether an odd number of these is 1.
    pub is_odd: bool,
}

/// A consequence: its line and its polynomial.
pub type Consequence<F, O> = (StepId, Poly<F, O>);

/// Equations, what is known of their bits, and what follows.
pub struct System<'a, F: Field, O: MonoOrder> {
    alloc: Global,
    /// How many lines the stack has.
    since: usize,
    bits: &'a Bits,
    pub open: Vec<Open>,
    pub rules: Rules,
    /// The bits of which something was found.
    pub fresh: BTreeSet<u32>,
    /// In which equations each bit is, or was.
    pub uses: BTreeMap<u32, Vec<usize>>,
    /// Equations that are to be looked at.
    queue: BTreeSet<usize>,
    /// Equations that were looked at since they were last set against others.
    pub ripe: BTreeSet<usize>,
    pub found: Vec<Consequence<F, O>>,
    /// Whether an equation has no solution.
    pub is_closed: bool,
}

impl<F: Field, O: MonoOrder> Drop for System<'_, F, O> {
    fn drop(self) {
        let System {
            alloc: _,
            since: _,
            bits: _,
            open: _,
            rules: _,
            fresh: _,
            uses: _,
            queue: _,
            ripe: _,
            found: _,
            is_closed: _,
        } = self;
    }
}

impl<'a, F: Field, O: MonoOrder> System<'a, F, O> {
    /// The system without equations, with what is known of single bits.
    pub fn new(alloc: Global, since: usize, bits: &'a Bits, rules: Rules) -> Self {
        System {
            alloc,
            since,
            bits,
            open: Vec::new(alloc),
            rules,
            fresh: BTreeSet::new(alloc),
            uses: BTreeMap::new(alloc),
            queue: BTreeSet::new(alloc),
            ripe: BTreeSet::new(alloc),
            found: Vec::new(alloc),
            is_closed: false,
        }
    }

    /// Adds an equation, where there is no such one yet, nor its negation. Equations that are alike have one outline, by which
    /// they are found.
    pub fn add_new(
        &mut self,
        outlines: &mut BTreeMap<Outline, Vec<usize>>,
        equation: Equation,
        parts: Vec<(Source, u64)>,
    ) -> Result<(), AllocError> {
        let outline = equation.outline();
        let place = self.open.len();
        match outlines.get_mut(&outline) {
            Some(places) => {
                if self.has_like(places.as_slice(), &equation) {
                    return Ok(());
                }
                places.push(place)?;
            }
            None => {
                outlines.insert(outline, vec![in self.alloc; place]?)?;
            }
        }
        self.add(equation, parts)
    }

    /// Whether there is such an equation at one of these places, or its negation.
    fn has_like(&self, places: &[usize], equation: &Equation) -> bool {
        for place in places {
            if let Some(open) = self.open.get(*place) {
                if open.equation.is_like(equation) {
                    return true;
                }
            }
        }
        false
    }

    /// Adds an equation.
    fn add(&mut self, equation: Equation, parts: Vec<(Source, u64)>) -> Result<(), AllocError> {
        let place = self.open.len();
        for x in equation.variables(self.alloc)? {
            self.note_use(x, place)?;
        }
        self.open.push(Open {
            equation,
            parts,
            lowest: Vec::new(self.alloc),
            is_odd: false,
        })?;
        self.queue.insert(place)?;
        Ok(())
    }

    /// Notes that a bit is in an equation.
    fn note_use(&mut self, x: u32, place: usize) -> Result<(), AllocError> {
        match self.uses.get_mut(&x) {
            Some(places) => {
                if places.last().copied() != Some(place) {
                    places.push(place)?;
                }
            }
            None => {
                let mut places = Vec::new(self.alloc);
                places.push(place)?;
                self.uses.insert(x, places)?;
            }
        }
        Ok(())
    }

    /// Lets an equation be looked at again.
    pub fn wake(&mut self, place: usize) -> Result<(), AllocError> {
        self.queue.insert(place)?;
        Ok(())
    }

    /// Lets the equations of a bit be looked at again, which have this other bit in its place, if there is one.
    fn wake_uses(&mut self, x: u32, other: Option<u32>) -> Result<(), AllocError> {
        let mut places = Vec::new(self.alloc);
        if let Some(known) = self.uses.get(&x) {
            places.extend_from_slice(known.as_slice())?;
        }
        for place in places {
            self.queue.insert(place)?;
            if let Some(y) = other {
                self.note_use(y, place)?;
            }
        }
        Ok(())
    }

    /// Notes the bits of an equation, which it may not have had before.
    pub fn note_uses(&mut self, place: usize) -> Result<(), AllocError> {
        let Some(open) = self.open.get(place) else {
            return Ok(());
        };
        for x in open.equation.variables(self.alloc)? {
            self.note_use(x, place)?;
        }
        Ok(())
    }

    /// Puts what is known of single bits into an equation.
    fn apply_rules(&mut self, place: usize) -> Result<(), AllocError> {
        let Some(open) = self.open.get_mut(place) else {
            return Ok(());
        };
        for _ in 0..u64::MAX {
            let mut is_done = true;
            for x in open.equation.variables(self.alloc)? {
                if let Some(rule) = self.rules.get(x) {
                    open.replace::<F>(x, rule)?;
                    is_done = false;
                }
            }
            if is_done {
                break;
            }
        }
        Ok(())
    }

    /// The line that an equation is, which is derived if it is no line yet.
    pub fn line_of(
        &mut self,
        place: usize,
        derived: &mut Derived<F, O>,
    ) -> Result<Source, SearchStop>
        ensures unmetered { ¬ (IsErrOf result SearchStop.Spent) }
    {
        let Some(open) = self.open.get_mut(place) else {
            return Err(SearchStop::GaveUp);
        };
        if let [(source, factor)] = open.parts.as_slice() {
            if *factor == 1 {
                return Ok(*source);
            }
        }
        let mut sum = Vec::new(self.alloc);
        for (source, factor) in mem::replace(&mut open.parts, Vec::new(self.alloc)) {
            sum.push((source, constant(self.alloc, of_residue::<F>(factor))?))?;
        }
        let source = Source::Step(derived.push(Reason::Sum(sum), self.since)?);
        open.parts.push((source, 1))?;
        Ok(source)
    }

    /// The bits of an equation, with the lines that say so.
    fn bits_of(&self, place: usize) -> Result<Vec<(u32, Source)>, AllocError> {
        let mut sources = Vec::new(self.alloc);
        if let Some(open) = self.open.get(place) {
            for (x, _) in &open.equation.terms {
                if let Some(source) = self.bits.get(x) {
                    sources.push((*x, *source))?;
                }
            }
        }
        Ok(sources)
    }

    /// Derives a consequence of an equation, over these variables, which increase.
    fn derive(
        &mut self,
        place: usize,
        chosen: &[u32],
        poly: Poly<F, O>,
        derived: &mut Derived<F, O>,
    ) -> Result<Source, SearchStop>
        ensures unmetered { ¬ (IsErrOf result SearchStop.Spent) }
    {
        let line = self.line_of(place, derived)?;
        let bits = self.bits_of(place)?;
        let mut variables = Vec::new(self.alloc);
        variables.extend_from_slice(chosen)?;
        let reason = Reason::Bits {
            line,
            chosen: variables,
            poly: poly.clone()?,
            bits,
        };
        let step = derived.push(reason, self.since)?;
        self.found.push((step, poly))?;
        Ok(Source::Step(step))
    }

    /// Derives what an equation says of a bit, and lets the others be looked at again.
    fn derive_rule(
        &mut self,
        place: usize,
        x: u32,
        known: Known,
        derived: &mut Derived<F, O>,
    ) -> Result<(), SearchStop>
        ensures unmetered { ¬ (IsErrOf result SearchStop.Spent) }
    {
        let poly = known.poly(self.alloc, x)?;
        let (chosen, other) = match known {
            Known::Value(_) => (vec![in self.alloc; x]?, None),
            Known::Same(y) | Known::Opposite(y) => (vec![in self.alloc; x, y]?, Some(y)),
        };
        let source = self.derive(place, chosen.as_slice(), poly, derived)?;
        let rule = Rule {
            known,
            source,
            factor: 1,
        };
        self.rules.insert(x, rule)?;
        self.fresh.insert(x)?;
        self.wake_uses(x, other)?;
        Ok(())
    }

    /// Looks at an equation, and derives what it forces. Says whether there was something. It is one Reduction.
    fn look_at(
        &mut self,
        place: usize,
        derived: &mut Derived<F, O>,
        meter: &mut Meter,
    ) -> Result<bool, SearchStop>
        ensures metered { Metered SearchStop.Spent result meter.old meter.new }
    {
        meter.take(Unit::Reduction)?;
        self.apply_rules(place)?;
        let Some(open) = self.open.get_mut(place) else {
            return Ok(false);
        };
        if !is_read_alike::<F>(&open.equation) {
            return Ok(false);
        }
        match open.equation.look(self.alloc)? {
            Forced::Never => {
                self.derive(place, &[], constant(self.alloc, F::of(1))?, derived)?;
                self.is_closed = true;
                Ok(false)
            }
            Forced::Values(values) => {
                for (x, is_one) in values {
                    self.derive_rule(place, x, Known::Value(is_one), derived)?;
                }
                Ok(true)
            }
            Forced::Pair(x, y, is_same) => {
                let known = if is_same {
                    Known::Same(y)
                } else {
                    Known::Opposite(y)
                };
                self.derive_rule(place, x, known, derived)?;
                Ok(true)
            }
            Forced::Open(lowest, is_odd) => {
                open.lowest = lowest;
                open.is_odd = is_odd;
                self.ripe.insert(place)?;
                Ok(false)
            }
        }
    }

    /// Looks at the equations that wait, until none does or one has no solution.
    pub fn propagate(
        &mut self,
        derived: &mut Derived<F, O>,
        meter: &mut Meter,
    ) -> Result<(), SearchStop>
        ensures metered { Metered SearchStop.Spent result meter.old meter.new }
    {
        for _ in 0..u64::MAX {
            let Some(place) = self.queue.pop_first() else {
                break;
            };
            for _ in 0..u64::MAX {
                if !self.look_at(place, derived, meter)? {
                    break;
                }
            }
            if self.is_closed {
                break;
            }
        }
        Ok(())
    }

    /// Derives of each equation with three bits of the least power of two that one of them is the exclusive or of the others,
    /// or its negation.
    pub fn derive_sums(&mut self, derived: &mut Derived<F, O>) -> Result<(), SearchStop>
        ensures unmetered { ¬ (IsErrOf result SearchStop.Spent) }
    {
        for place in 0..self.open.len() {
            let Some(open) = self.open.get(place) else {
                break;
            };
            if !is_read_alike::<F>(&open.equation) {
                continue;
            }
            if let [x, y, z] = open.lowest.as_slice() {
                let (x, y, z) = (*x, *y, *z);
                let poly = exclusive_or(self.alloc, (x, y, z), open.is_odd)?;
                self.derive(place, &[x, y, z], poly, derived)?;
            }
        }
        Ok(())
    }
}

impl Open {
    /// Replaces a bit by what is known of it.
    fn replace<F: Field>(&mut self, x: u32, rule: &Rule) -> Result<(), AllocError> {
        let c = self.equation.coefficient(x);
        let Some(inverse) = of_residue::<F>(rule.factor).inv() else {
            return Ok(());
        };
        let opposite = 0i128.saturating_sub(c);
        self.equation.add(x, opposite)?;
        match rule.known {
            Known::Value(false) => {}
            Known::Value(true) => self.equation.add_constant(c),
            Known::Same(y) => self.equation.add(y, c)?,
            Known::Opposite(y) => {
                self.equation.add_constant(c);
                self.equation.add(y, opposite)?;
            }
        }
        self.add_part(rule.source, element::<F>(opposite).mul(inverse))
    }

    /// Adds a multiple of a line to the parts.
    pub fn add_part<F: Field>(&mut self, source: Source, factor: F) -> Result<(), AllocError> {
        for part in self.parts.as_mut_slice() {
            if part.0 == source {
                part.1 = of_residue::<F>(part.1).add(factor).residue();
                return Ok(());
            }
        }
        self.parts.push((source, factor.residue()))?;
        Ok(())
    }

    /// Subtracts a multiple of an equation that is a line, where the sum stays between the order and its negation. Says whether
    /// it does.
    pub fn subtract<F: Field>(
        &mut self,
        alloc: Global,
        factor: i128,
        other: &Equation,
        source: Source,
    ) -> Result<bool, AllocError> {
        let negative = 0i128.saturating_sub(factor);
        let mut sum = Equation::new(alloc);
        sum.add_multiple(1, &self.equation)?;
        sum.add_multiple(negative, other)?;
        let (low, high) = sum.reach();
        if !is_within::<F>(low, high) {
            return Ok(false);
        }
        self.equation = sum;
        self.add_part(source, element::<F>(negative))?;
        Ok(true)
    }
}
