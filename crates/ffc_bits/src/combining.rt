//! Differences of equations of bits in which the lowest bits cancel.
ghost use Rattle.std.specs.Prelude.{◌≡◌, IsErrOf};
ghost use Rattle.ffc_base.specs.Metering.{Metered};

use crate::derived::Derived;
use crate::equation::Equation;
use crate::system::System;
use ffc_base::{Meter, SearchStop, Unit};
use ffc_field::Field;
use ffc_mono::MonoOrder;
use std::alloc::{AllocError, Global};

/// Equations with more lowest bits are not set against others.
const MOST_LOWEST: usize = 16;

/// And each is set against so many others at most.
const MOST_PARTNERS: usize = 64;

/// How many numbers two increasing lists have that are not in both.
fn difference(a: &[u32], b: &[u32]) -> usize {
    let shared = a.iter().filter(|x| b.contains(x)).count();
    a.len()
        .saturating_add(b.len())
        .saturating_sub(shared.saturating_mul(2))
}

/// Two equations, and the factor with which the second one is subtracted from the first.
#[derive(Clone, Copy)]
struct Choice {
    longer: usize,
    shorter: usize,
    factor: i128,
    left: usize,
}

impl<F: Field, O: MonoOrder> System<'_, F, O> {
    /// The equations that share a lowest bit with an equation, with that bit.
    fn partners(&self, alloc: Global, place: usize) -> Result<Vec<(usize, u32)>, AllocError> {
        let mut partners = Vec::new(alloc);
        let Some(open) = self.open.get(place) else {
            return Ok(partners);
        };
        if open.lowest.len() < 3 || open.lowest.len() > MOST_LOWEST {
            return Ok(partners);
        }
        for x in &open.lowest {
            if let Some(places) = self.uses.get(x) {
                for other in places {
                    if *other != place && partners.len() < MOST_PARTNERS {
                        partners.push((*other, *x))?;
                    }
                }
            }
        }
        Ok(partners)
    }

    /// How two equations are set against each other so that a bit cancels and fewer lowest bits are left, if they can be.
    fn choice(&self, a: usize, b: usize, x: u32) -> Option<Choice> {
        let (first, second) = (self.open.get(a)?, self.open.get(b)?);
        let sizes = (first.equation.terms.len(), second.equation.terms.len());
        let (longer, shorter) = if sizes.0 >= sizes.1 { (a, b) } else { (b, a) };
        let (long, short) = (self.open.get(longer)?, self.open.get(shorter)?);
        if !short.lowest.contains(&x) || !long.lowest.contains(&x) {
            return None;
        }
        let left = difference(long.lowest.as_slice(), short.lowest.as_slice());
        if left >= long.lowest.len() {
            return None;
        }
        let factor = quotient(&long.equation, &short.equation, x)?;
        Some(Choice {
            longer,
            shorter,
            factor,
            left,
        })
    }

    /// The best way to set an equation against another one.
    fn best_choice(&self, alloc: Global, place: usize) -> Result<Option<Choice>, AllocError> {
        let mut best: Option<Choice> = None;
        for (other, x) in self.partners(alloc, place)? {
            if let Some(choice) = self.choice(place, other, x) {
                let is_better = match best {
                    Some(known) => choice.left < known.left,
                    None => true,
                };
                if is_better {
                    best = Some(choice);
                }
            }
        }
        Ok(best)
    }

    /// Subtracts the one equation from the other, if the difference stays between the order and its negation.
    fn subtract(
        &mut self,
        alloc: Global,
        choice: Choice,
        derived: &mut Derived<F, O>,
    ) -> Result<bool, SearchStop>
        ensures unmetered { ¬ (IsErrOf result SearchStop.Spent) }
    {
        let source = self.line_of(choice.shorter, derived)?;
        let mut other = Equation::new(alloc);
        if let Some(open) = self.open.get(choice.shorter) {
            other.add_multiple(1, &open.equation)?;
        }
        let Some(open) = self.open.get_mut(choice.longer) else {
            return Ok(false);
        };
        if !open.subtract::<F>(alloc, choice.factor, &other, source)? {
            return Ok(false);
        }
        self.note_uses(choice.longer)?;
        self.wake(choice.longer)?;
        Ok(true)
    }

    /// Sets one equation against another so that fewer lowest bits are left. Says whether two were found.
    pub fn combine(
        &mut self,
        alloc: Global,
        derived: &mut Derived<F, O>,
        meter: &mut Meter,
    ) -> Result<bool, SearchStop>
        ensures metered { Metered SearchStop.Spent result meter.old meter.new }
    {
        for _ in 0..u64::MAX {
            let Some(place) = self.ripe.pop_first() else {
                break;
            };
            meter.take(Unit::Reduction)?;
            if let Some(choice) = self.best_choice(alloc, place)? {
                if self.subtract(alloc, choice, derived)? {
                    self.ripe.insert(place)?;
                    return Ok(true);
                }
            }
        }
        Ok(false)
    }
}

/// The factor with which a bit cancels in the first equation less the second one.
fn quotient(long: &Equation, short: &Equation, x: u32) -> Option<i128> {
    let (c, d) = (long.coefficient(x), short.coefficient(x));
    if c.checked_rem(d)? == 0 {
        c.checked_div(d)
    } else {
        None
    }
}
