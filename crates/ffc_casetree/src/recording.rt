//! Recording lines of a stack as facts, each as the sum of its parts, and derived lines by their reasons.
use crate::facts::{BitSum, FactId, NO_FACT};
use crate::sums::record_sum;
use crate::tree::Tree;
use crate::written::terms_of;
use ffc_bits::{Derived, Reason, Source, Step, StepId};
use ffc_cert::Multiple;
use ffc_field::Field;
use ffc_line::{Line, LineId};
use ffc_mono::MonoOrder;
use ffc_poly::Poly;
use std::alloc::{AllocError, Global};
use std::collections::BTreeSet;

/// Where a line stands among all: how many lines of the stack were there before it, whether it is the next one of these, and
/// else its number among the derived lines. Each line follows from lines before it.
type Place = (usize, bool, usize);

/// Lines that are to be recorded.
type Open = BTreeSet<Place>;

/// A stack of lines and the lines that are derived from it.
struct Lines<'a, F: Field, O: MonoOrder> {
    stack: &'a [Line<F, O>],
    derived: &'a Derived<F, O>,
}

impl<F: Field, O: MonoOrder> Drop for Lines<'_, F, O> {
    fn drop(self) {
        let Lines {
            stack: _,
            derived: _,
        } = self;
    }
}

/// The line at a place.
fn source_at(place: Place) -> Source {
    let (lines, is_line, number) = place;
    if is_line {
        Source::Line(lines as LineId)
    } else {
        Source::Step(number)
    }
}

impl<F: Field, O: MonoOrder> Lines<'_, F, O> {
    /// The place of a line.
    fn place_of(&self, source: Source) -> Place {
        match source {
            Source::Line(line) => (line as usize, true, 0),
            Source::Step(number) => match self.derived.steps().get(number) {
                Some(step) => (step.since, false, number),
                None => (0, false, number),
            },
        }
    }

    /// Adds a line that is no fact yet.
    fn add(&self, tree: &Tree, open: &mut Open, source: Source) -> Result<(), AllocError> {
        if tree.fact_at(source).is_none() {
            open.insert(self.place_of(source))?;
        }
        Ok(())
    }

    /// Adds the lines that a line follows from.
    fn add_reasons(&self, tree: &Tree, open: &mut Open, source: Source) -> Result<(), AllocError> {
        match source {
            Source::Line(line) => self.add_parts(tree, open, line),
            Source::Step(number) => match self.derived.steps().get(number) {
                Some(step) => self.add_step(tree, open, step),
                None => Ok(()),
            },
        }
    }

    /// Adds the lines that a line of the stack is the sum of, or the derived line that it is.
    fn add_parts(&self, tree: &Tree, open: &mut Open, line: LineId) -> Result<(), AllocError> {
        if let Some(step) = self.derived.step_of(line) {
            return self.add(tree, open, Source::Step(step));
        }
        if let Some(line) = self.stack.get(line as usize) {
            for part in line.parts.as_slice() {
                self.add(tree, open, Source::Line(part.0))?;
            }
        }
        Ok(())
    }

    /// Adds the lines that a derived line follows from.
    fn add_step(&self, tree: &Tree, open: &mut Open, step: &Step<F, O>) -> Result<(), AllocError> {
        match &step.reason {
            Reason::Sum(parts) => {
                for part in parts {
                    self.add(tree, open, part.0)?;
                }
            }
            Reason::Bits {
                line,
                chosen: _,
                poly: _,
                bits,
            } => {
                self.add(tree, open, *line)?;
                for bit in bits {
                    self.add(tree, open, bit.1)?;
                }
            }
        }
        Ok(())
    }

    /// The lines that are to be recorded, the last one first: this one and those that it follows from.
    fn unrecorded(
        &self,
        alloc: Global,
        tree: &Tree,
        target: Source,
    ) -> Result<Vec<Source>, AllocError> {
        let mut open = BTreeSet::new(alloc);
        self.add(tree, &mut open, target)?;
        let mut order = Vec::new(alloc);
        for _ in 0..u64::MAX {
            let Some(place) = open.pop_last() else {
                break;
            };
            let source = source_at(place);
            order.push(source)?;
            self.add_reasons(tree, &mut open, source)?;
        }
        Ok(order)
    }

    /// Records a line whose reasons are facts, unless it is one.
    fn record_one(&self, alloc: Global, tree: &mut Tree, source: Source) -> Result<(), AllocError> {
        if tree.fact_at(source).is_some() {
            return Ok(());
        }
        match source {
            Source::Line(id) => {
                if let Some(line) = self.stack.get(id as usize) {
                    let multiples = multiples_of(alloc, tree, line.parts.as_slice())?;
                    let fact = record_sum(alloc, tree, multiples)?;
                    tree.note_line(fact, id)?;
                }
            }
            Source::Step(number) => {
                if let Some(step) = self.derived.steps().get(number) {
                    record_step(alloc, tree, number, step)?;
                }
            }
        }
        Ok(())
    }
}

/// Parts of a line as multiples of facts. A part of a line that is no fact is left out.
pub fn multiples_of<F: Field, O: MonoOrder>(
    alloc: Global,
    tree: &Tree,
    parts: &[(LineId, Poly<F, O>)],
) -> Result<Vec<Multiple>, AllocError> {
    let mut multiples = Vec::new(alloc);
    for part in parts {
        if let Some(fact) = tree.fact_of(part.0) {
            multiples.push((fact, terms_of(alloc, &part.1)?))?;
        }
    }
    Ok(multiples)
}

/// Records a derived line, whose reason's lines are facts. One that is none gets a number that no fact has, with which no tree
/// is accepted.
fn record_step<F: Field, O: MonoOrder>(
    alloc: Global,
    tree: &mut Tree,
    number: StepId,
    step: &Step<F, O>,
) -> Result<(), AllocError> {
    let fact = match &step.reason {
        Reason::Sum(parts) => {
            let mut multiples = Vec::new(alloc);
            for part in parts {
                let fact = tree.fact_at(part.0).unwrap_or(NO_FACT);
                multiples.push((fact, terms_of(alloc, &part.1)?))?;
            }
            record_sum(alloc, tree, multiples)?
        }
        Reason::Bits {
            line,
            chosen,
            poly,
            bits,
        } => {
            let mut sum = BitSum {
                line: tree.fact_at(*line).unwrap_or(NO_FACT),
                chosen: chosen.clone()?,
                poly: terms_of(alloc, poly)?,
                variables: Vec::new(alloc),
                bits: Vec::new(alloc),
            };
            for bit in bits {
                sum.variables.push(bit.0)?;
                sum.bits.push(tree.fact_at(bit.1).unwrap_or(NO_FACT))?;
            }
            tree.add_bits(sum)?
        }
    };
    tree.note_step(fact, number, step.line)
}

/// Records a line of the stack or a derived one, and before it those that it is the sum of or follows from, unless they are
/// facts, and answers the fact that it is.
pub fn record<F: Field, O: MonoOrder>(
    alloc: Global,
    tree: &mut Tree,
    lines: &[Line<F, O>],
    derived: &Derived<F, O>,
    target: Source,
) -> Result<FactId, AllocError> {
    let all = Lines {
        stack: lines,
        derived,
    };
    let order = all.unrecorded(alloc, tree, target)?;
    for source in order.iter().rev() {
        all.record_one(alloc, tree, *source)?;
    }
    Ok(tree.fact_at(target).unwrap_or(NO_FACT))
}
