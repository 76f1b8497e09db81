//! What the lines of a stack say of bits as integers.
ghost use Rattle.std.specs.Prelude.{◌≡◌, IsErrOf};
ghost use Rattle.ffc_base.specs.Metering.{Metered};

use crate::derived::{Derived, Source};
use crate::equation::Equation;
use crate::forms::{Bits, Form, add_bits, bit_forms};
use crate::gates::{FoundGates, add_gates};
use crate::integers::{best_scale, equation_of, of_residue};
use crate::known::Rules;
use crate::models::find_model;
use crate::relations::Cones;
use crate::system::{Consequence, System};
use ffc_base::{Meter, SearchStop};
use ffc_field::Field;
use ffc_line::Line;
use ffc_mono::MonoOrder;
use std::alloc::{AllocError, Global};
use std::collections::BTreeMap;

/// What the lines say.
pub struct Said<F: Field, O: MonoOrder> {
    /// Lines that follow, each derived, with its polynomial. Where a constant other than 0 does, it is the only one.
    pub consequences: Vec<Consequence<F, O>>,
    /// Further ones: that bits are exclusive ors of others, which no equation can use.
    pub sums: Vec<Consequence<F, O>>,
    /// The bit of the greatest weight in the shortest equation that has several solutions, with the line that says that it is a
    /// bit.
    pub heaviest: Option<(u32, Source)>,
}

impl<F: Field, O: MonoOrder> Drop for Said<F, O> {
    fn drop(self) {
        let Said {
            consequences: _,
            sums: _,
            heaviest: _,
        } = self;
    }
}

/// The outputs of gates that are bits, as it was derived of the lines before all cases.
#[derive(Drop)]
pub struct Reasoning {
    outputs: Bits,
    gates: FoundGates,
}

impl Reasoning {
    /// What is derived of the outputs of gates.
    pub fn begin<F: Field, O: MonoOrder>(
        alloc: Global,
        lines: &[Line<F, O>],
        derived: &mut Derived<F, O>,
    ) -> Result<Self, SearchStop>
        ensures unmetered { ¬ (IsErrOf result SearchStop.Spent) }
    {
        let mut bits = BTreeMap::new(alloc);
        add_bits(&mut bits, lines)?;
        let gates = if bits.is_empty() {
            FoundGates::none(alloc)
        } else {
            add_gates(alloc, lines, derived, &mut bits)?
        };
        Ok(Reasoning {
            outputs: bits,
            gates,
        })
    }

    /// Linear equations between the outputs of gates and their inputs that follow from the lines before all cases, each derived.
    pub fn equations<F: Field, O: MonoOrder>(
        &self,
        alloc: Global,
        lines: &[Line<F, O>],
        derived: &mut Derived<F, O>,
    ) -> Result<Vec<Consequence<F, O>>, SearchStop>
        ensures unmetered { ¬ (IsErrOf result SearchStop.Spent) }
    {
        if self.gates.order.is_empty() {
            return Ok(Vec::new(alloc));
        }
        let cones = Cones::new(alloc, lines, &self.outputs, &self.gates);
        cones.equations(derived)
    }

    /// The variables that are bits.
    fn bits<F: Field, O: MonoOrder>(
        &self,
        alloc: Global,
        lines: &[Line<F, O>],
    ) -> Result<Bits, AllocError> {
        let mut bits = BTreeMap::new(alloc);
        for (x, source) in &self.outputs {
            bits.insert(*x, *source)?;
        }
        add_bits(&mut bits, lines)?;
        Ok(bits)
    }

    /// What follows from the lines' equations of bits. Each look at an equation is one Reduction.
    pub fn ask<F: Field, O: MonoOrder>(
        &self,
        alloc: Global,
        lines: &[Line<F, O>],
        derived: &mut Derived<F, O>,
        meter: &mut Meter,
    ) -> Result<Said<F, O>, SearchStop>
        ensures metered { Metered SearchStop.Spent result meter.old meter.new }
    {
        let bits = self.bits(alloc, lines)?;
        if bits.is_empty() {
            return Ok(Said {
                consequences: Vec::new(alloc),
                sums: Vec::new(alloc),
                heaviest: None,
            });
        }
        let mut system = begin(alloc, lines, &bits)?;
        for _ in 0..u64::MAX {
            system.propagate(derived, meter)?;
            if system.is_closed || !system.combine(alloc, derived, meter)? {
                break;
            }
        }
        let mut said = Said {
            consequences: Vec::new(alloc),
            sums: Vec::new(alloc),
            heaviest: heaviest_of(&system).and_then(|x| bits.get(&x).map(|source| (x, *source))),
        };
        let mut found = std::mem::replace(&mut system.found, Vec::new(alloc));
        let last = if system.is_closed {
            found.pop()
        } else {
            system.clash(alloc, lines, derived)?
        };
        if let Some(last) = last {
            said.consequences.push(last)?;
            return Ok(said);
        }
        said.consequences = found;
        system.derive_sums(derived)?;
        said.sums = std::mem::replace(&mut system.found, Vec::new(alloc));
        Ok(said)
    }

    /// Values of bits with which the lines may have a common zero, if some are found: no line follows from them. Each look at an
    /// equation is one Reduction.
    pub fn model<F: Field, O: MonoOrder>(
        &self,
        alloc: Global,
        lines: &[Line<F, O>],
        meter: &mut Meter,
    ) -> Result<Vec<(u32, bool)>, SearchStop>
        ensures metered { Metered SearchStop.Spent result meter.old meter.new }
    {
        let bits = self.bits(alloc, lines)?;
        if bits.is_empty() {
            return Ok(Vec::new(alloc));
        }
        find_model(alloc, lines, &bits, meter)
    }
}

/// A form as an equation over the integers, with the parts that it is the sum of, where it does not pass the order.
fn equation<F: Field>(
    alloc: Global,
    form: &Form,
) -> Result<Option<(Equation, Vec<(Source, u64)>)>, AllocError> {
    let Some(scale) = best_scale::<F>(alloc, form.constant, &form.terms, 0)? else {
        return Ok(None);
    };
    let equation = equation_of(alloc, form.constant, &form.terms, scale)?;
    let mut parts = Vec::new(alloc);
    for (source, c) in form.parts.as_slice() {
        let factor = of_residue::<F>(*c).mul(scale);
        parts.push((*source, factor.residue()))?;
    }
    Ok(Some((equation, parts)))
}

/// The equations of the lines, and what these say of single bits.
fn begin<'a, F: Field, O: MonoOrder>(
    alloc: Global,
    lines: &[Line<F, O>],
    bits: &'a Bits,
) -> Result<System<'a, F, O>, AllocError> {
    let mut rules = Rules::new(alloc);
    let mut forms = Vec::new(alloc);
    for form in bit_forms(alloc, lines, bits)? {
        if let Some((x, rule)) = form.rule::<F>(bits) {
            if !rules.has(x) {
                rules.insert(x, rule)?;
                continue;
            }
        }
        forms.push(form)?;
    }
    let mut equations = Vec::new(alloc);
    for mut form in forms {
        form.apply::<F>(alloc, &rules)?;
        if let Some(found) = equation::<F>(alloc, &form)? {
            equations.push(found)?;
        }
    }
    let mut system = System::new(alloc, lines.len(), bits, rules);
    let mut outlines = BTreeMap::new(alloc);
    for (equation, parts) in equations {
        system.add_new(&mut outlines, equation, parts)?;
    }
    Ok(system)
}

/// The bit of the greatest weight in the shortest equation that has several solutions.
fn heaviest_of<F: Field, O: MonoOrder>(system: &System<'_, F, O>) -> Option<u32> {
    let mut shortest: Option<&Equation> = None;
    for open in &system.open {
        let len = open.equation.terms.len();
        let is_shorter = match shortest {
            Some(equation) => len < equation.terms.len(),
            None => true,
        };
        if len > 0 && is_shorter {
            shortest = Some(&open.equation);
        }
    }
    shortest.and_then(|equation| equation.heaviest())
}
