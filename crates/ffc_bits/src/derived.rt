//! Lines that no completion of the stack gives, with what they follow from.
use ffc_field::Field;
use ffc_line::LineId;
use ffc_mono::MonoOrder;
use ffc_poly::Poly;
use std::alloc::{AllocError, Global};
use std::collections::BTreeMap;

/// The number of a derived line, from 0.
pub type StepId = usize;

/// A line of the stack, or a derived one.
#[derive(Clone, Copy, Debug, PartialEq, Eq)]
pub enum Source {
    Line(LineId),
    Step(StepId),
}

/// What a derived line follows from.
pub enum Reason<F: Field, O: MonoOrder> {
    /// It is the sum of these multiples.
    Sum(Vec<(Source, Poly<F, O>)>),
    /// It is the polynomial, which is 0 wherever the line is: the line is a sum of bits over the integers, and the variables
    /// that are chosen have no other values there. Each variable of the line, in increasing order, is a bit by a line.
    Bits {
        line: Source,
        chosen: Vec<u32>,
        poly: Poly<F, O>,
        bits: Vec<(u32, Source)>,
    },
}

impl<F: Field, O: MonoOrder> Drop for Reason<F, O> {
    fn drop(self) {
        match self {
            Reason::Sum(_) => {}
            Reason::Bits {
                line: _,
                chosen: _,
                poly: _,
                bits: _,
            } => {}
        }
    }
}

/// A derived line.
pub struct Step<F: Field, O: MonoOrder> {
    pub reason: Reason<F, O>,
    /// How many lines the stack had when it was derived: its reason names none of the later ones.
    pub since: usize,
    /// The generator of the stack that it is, where it was pushed.
    pub line: Option<LineId>,
}

impl<F: Field, O: MonoOrder> Drop for Step<F, O> {
    fn drop(self) {
        let Step {
            reason: _,
            since: _,
            line: _,
        } = self;
    }
}

/// The derived lines, in the order in which they were derived. A reason names only earlier ones.
pub struct Derived<F: Field, O: MonoOrder> {
    steps: Vec<Step<F, O>>,
    /// The generators of the stack that are derived lines.
    pushed: BTreeMap<LineId, StepId>,
}

impl<F: Field, O: MonoOrder> Drop for Derived<F, O> {
    fn drop(self) {
        let Derived {
            steps: _,
            pushed: _,
        } = self;
    }
}

impl<F: Field, O: MonoOrder> Derived<F, O> {
    /// No lines. It takes no memory.
    pub fn new(alloc: Global) -> Self {
        Derived {
            steps: Vec::new(alloc),
            pushed: BTreeMap::new(alloc),
        }
    }

    /// How many there are.
    pub fn len(&self) -> usize {
        self.steps.len()
    }

    /// The derived lines in order.
    pub fn steps(&self) -> &[Step<F, O>] {
        self.steps.as_slice()
    }

    /// Appends a line that was derived where the stack had so many lines, and answers its number.
    pub fn push(&mut self, reason: Reason<F, O>, since: usize) -> Result<StepId, AllocError> {
        let number = self.steps.len();
        self.steps.push(Step {
            reason,
            since,
            line: None,
        })?;
        Ok(number)
    }

    /// Notes that a derived line is this generator of the stack.
    pub fn note_pushed(&mut self, step: StepId, line: LineId) -> Result<(), AllocError> {
        self.pushed.insert(line, step)?;
        if let Some(step) = self.steps.get_mut(step) {
            step.line = Some(line);
        }
        Ok(())
    }

    /// The derived line that a line of the stack is.
    pub fn step_of(&self, line: LineId) -> Option<StepId> {
        self.pushed.get(&line).copied()
    }

    /// Drops all but the first derived lines, and what is noted of the stack's lines from a number on.
    pub fn cut(&mut self, steps: usize, lines: LineId) {
        self.steps.truncate(steps);
        for _ in 0..u64::MAX {
            match self.pushed.last_key_value() {
                Some((line, _)) if *line >= lines => {}
                _ => break,
            }
            if let Some((_, step)) = self.pushed.pop_last() {
                if let Some(step) = self.steps.get_mut(step) {
                    step.line = None;
                }
            }
        }
    }
}
