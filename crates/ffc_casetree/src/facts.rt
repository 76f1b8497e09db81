//! What a tree is made of: polynomials that are 0 in the cases on which they rest.
use ffc_bits::StepId;
use ffc_cert::{CertLine, Multiple, Sequence, Term};
use ffc_line::LineId;
use std::alloc::{AllocError, Global};

/// The number of a fact, in the order in which facts are recorded. A fact follows from earlier ones.
pub type FactId = u32;

/// A number that no fact and no line has. A tree that refers to it is not accepted.
pub const NO_FACT: FactId = u32::MAX;

/// A polynomial that follows from a sum of bits.
#[derive(Drop)]
pub struct BitSum {
    pub line: FactId,
    pub chosen: Vec<u32>,
    pub poly: Sequence<Term>,
    /// Each variable of the line, in increasing order, and the fact that says that it is a bit.
    pub variables: Vec<u32>,
    pub bits: Vec<FactId>,
}

/// A power of a variable modulo a fact in that variable alone, less the variable.
#[derive(Drop)]
pub struct PowerChain {
    pub line: FactId,
    pub variable: u32,
    pub steps: Vec<CertLine>,
}

/// How a fact is shown.
#[derive(Drop)]
pub enum Shown {
    Generator,
    /// It is the line of a case.
    Case,
    /// It is the sum of these multiples of facts.
    Sum(Vec<Multiple>),
    Bits(BitSum),
    Chain(PowerChain),
}

impl Shown {
    /// The facts that it follows from.
    pub fn sources(&self, alloc: Global) -> Result<Vec<FactId>, AllocError> {
        match self {
            Shown::Generator => Ok(Vec::new(alloc)),
            Shown::Case => Ok(Vec::new(alloc)),
            Shown::Sum(multiples) => lines_of(alloc, multiples.as_slice()),
            Shown::Bits(sum) => {
                let mut sources = sum.bits.clone()?;
                sources.push(sum.line)?;
                Ok(sources)
            }
            Shown::Chain(chain) => {
                let mut sources = Vec::new(alloc);
                sources.push(chain.line)?;
                Ok(sources)
            }
        }
    }

    /// Whether a line of the tree is written for it.
    pub fn is_written(&self) -> bool {
        !matches!(self, Shown::Generator | Shown::Case)
    }
}

/// The facts of multiples.
fn lines_of(alloc: Global, multiples: &[Multiple]) -> Result<Vec<FactId>, AllocError> {
    let mut lines = Vec::new(alloc);
    for multiple in multiples {
        lines.push(multiple.0)?;
    }
    Ok(lines)
}

/// A polynomial that is 0 in the cases on which it rests.
#[derive(Drop)]
pub struct Fact {
    pub shown: Shown,
    /// The line of the innermost case on which it rests, if it rests on any.
    pub case: Option<FactId>,
    /// The line of the stack and the derived line that it is.
    pub line: Option<LineId>,
    pub step: Option<StepId>,
}
