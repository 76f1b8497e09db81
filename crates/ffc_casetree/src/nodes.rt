//! Closed branches.
use crate::facts::FactId;
use ffc_cert::Sequence;
use std::alloc::{AllocError, Global};

/// The number of a closed branch, in the order in which they were closed.
pub type NodeId = usize;

/// How a branch is closed. Each case has its line and its branch.
#[derive(Drop)]
pub enum Node {
    /// By a fact that is a constant other than 0.
    Close(FactId),
    /// By cases over the roots of a fact.
    Roots {
        fact: FactId,
        variable: u32,
        roots: Sequence<u64>,
        cases: Vec<(FactId, NodeId)>,
    },
    /// By cases over all values of a variable.
    Values {
        variable: u32,
        cases: Vec<(FactId, NodeId)>,
    },
}

impl Node {
    /// The fact by which it is closed, if there is one.
    pub fn fact(&self) -> Option<FactId> {
        match self {
            Node::Close(fact) => Some(*fact),
            Node::Roots {
                fact,
                variable: _,
                roots: _,
                cases: _,
            } => Some(*fact),
            Node::Values {
                variable: _,
                cases: _,
            } => None,
        }
    }

    /// Appends its cases, the last one first.
    pub fn append_cases(&self, to: &mut Vec<(FactId, NodeId)>) -> Result<(), AllocError> {
        match self {
            Node::Close(_) => Ok(()),
            Node::Roots {
                fact: _,
                variable: _,
                roots: _,
                cases,
            } => append_last_first(cases.as_slice(), to),
            Node::Values { variable: _, cases } => append_last_first(cases.as_slice(), to),
        }
    }
}

/// Appends cases, the last one first.
fn append_last_first(
    cases: &[(FactId, NodeId)],
    to: &mut Vec<(FactId, NodeId)>,
) -> Result<(), AllocError> {
    for case in cases.iter().rev() {
        to.push(*case)?;
    }
    Ok(())
}
