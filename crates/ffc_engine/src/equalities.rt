//! The equalities of a check, and those of them that are judged.
use ffc_cdcl::Lit;
use ffc_circuit::{Truths, sides};
use ffc_term::{NodeId, NodeTable};
use std::alloc::{AllocError, Global};

/// Which equalities of a trail are judged.
#[derive(Clone, Copy)]
pub enum Scope {
    /// Those on which the truth of the assertions rests.
    Needed,
    /// All of the check, until so many units are spent, since those were not enough once. Where two sums of bits differ in some
    /// place, a trail then says of each place whether they differ there.
    All { until: u64 },
    /// Those on which the truth of the assertions rests, since all were not enough either.
    NeededAgain,
}

/// All equalities of a table.
#[derive(Drop)]
pub struct Equalities {
    alloc: Global,
    nodes: Vec<NodeId>,
}

impl Equalities {
    pub fn of(alloc: Global, table: &NodeTable) -> Result<Self, AllocError> {
        let mut nodes = Vec::new(alloc);
        for id in 0..table.len() {
            if sides(table, id).is_some() {
                nodes.push(id)?;
            }
        }
        Ok(Equalities { alloc, nodes })
    }

    /// Whether one of them has no value.
    pub fn lack_one(&self, truths: &Truths) -> bool {
        self.nodes.iter().any(|node| truths.get(*node).is_none())
    }

    /// Those that have a value, with their values.
    pub fn valued(&self, truths: &Truths) -> Result<Vec<Lit>, AllocError> {
        let mut valued = Vec::new(self.alloc);
        for node in self.nodes.as_slice() {
            if let Some(positive) = truths.get(*node) {
                valued.push(Lit {
                    node: *node,
                    positive,
                })?;
            }
        }
        Ok(valued)
    }
}
