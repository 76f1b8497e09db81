//! The equalities that a clash rests on.
use crate::known::{Reason, Values};
use crate::users::children;
use ffc_cdcl::Lit;
use ffc_circuit::sides;
use ffc_term::{NodeId, NodeTable};
use std::alloc::{AllocError, Global};

/// Values that do not go together.
#[derive(Clone, Copy)]
pub enum Clash {
    /// The sides of this equality, as it was added.
    Equality(Lit),
    /// The value of this node, and another one that it has for this reason.
    Values(NodeId, Reason),
}

/// A way back from a clash to the equalities that it rests on. Its lists are kept for the next one.
#[derive(Drop)]
pub struct Tracing {
    /// Which nodes were reached.
    seen: Vec<bool>,
    /// Those nodes, in the order in which they are gone through.
    reached: Vec<NodeId>,
    /// The equalities among them.
    found: Vec<Lit>,
}

impl Tracing {
    /// One over the nodes below a number.
    pub fn new(alloc: Global, nodes: u32) -> Result<Self, AllocError> {
        Ok(Tracing {
            seen: vec![in alloc; false; nodes as usize]?,
            reached: Vec::new(alloc),
            found: Vec::new(alloc),
        })
    }

    /// Forgets what was reached.
    fn clear(&mut self) {
        for id in self.reached.as_slice() {
            if let Some(seen) = self.seen.get_mut(*id as usize) {
                *seen = false;
            }
        }
        self.reached.clear();
        self.found.clear();
    }

    /// Reaches a node, and says whether it did not before.
    fn want(&mut self, id: NodeId) -> Result<bool, AllocError> {
        if let Some(seen) = self.seen.get_mut(id as usize) {
            if !*seen {
                *seen = true;
                self.reached.push(id)?;
                return Ok(true);
            }
        }
        Ok(false)
    }

    /// Notes an equality, and reaches its sides but for one.
    fn want_sides(
        &mut self,
        table: &NodeTable,
        equality: Lit,
        but: Option<NodeId>,
    ) -> Result<(), AllocError> {
        if self.want(equality.node)? {
            self.found.push(equality)?;
        }
        if let Some((a, b)) = sides(table, equality.node) {
            for side in [a, b] {
                if Some(side) != but {
                    self.want(side)?;
                }
            }
        }
        Ok(())
    }

    /// Reaches the children of a node but for one.
    fn want_children(
        &mut self,
        table: &NodeTable,
        id: NodeId,
        but: Option<NodeId>,
    ) -> Result<(), AllocError> {
        for child in children(table, id) {
            if Some(*child) != but {
                self.want(*child)?;
            }
        }
        Ok(())
    }

    /// Reaches what the value of a node rests on for a reason.
    fn want_reason(
        &mut self,
        table: &NodeTable,
        id: NodeId,
        reason: Reason,
    ) -> Result<(), AllocError> {
        match reason {
            Reason::Children => self.want_children(table, id, None),
            Reason::Zero(child) => {
                self.want(child)?;
                Ok(())
            }
            Reason::Parent(parent) => {
                self.want(parent)?;
                self.want_children(table, parent, Some(id))
            }
            Reason::Equality(equality) => {
                let equality = Lit {
                    node: equality,
                    positive: true,
                };
                self.want_sides(table, equality, Some(id))
            }
        }
    }

    /// Goes from a clash to all that it rests on.
    pub fn trace(
        &mut self,
        table: &NodeTable,
        values: &Values,
        clash: Clash,
    ) -> Result<(), AllocError> {
        self.clear();
        match clash {
            Clash::Equality(equality) => self.want_sides(table, equality, None)?,
            Clash::Values(id, reason) => {
                self.want(id)?;
                self.want_reason(table, id, reason)?;
            }
        }
        // Each node is reached once at most.
        for place in 0..table.len() {
            let Some(id) = self.reached.get(place as usize).copied() else {
                break;
            };
            if let Some(known) = values.get(id) {
                self.want_reason(table, id, known.reason)?;
            }
        }
        Ok(())
    }

    /// The equalities that it found, in the order of their nodes.
    pub fn found(&self, alloc: Global) -> Result<Vec<Lit>, AllocError> {
        let mut found = Vec::from_slice(alloc, self.found.as_slice())?;
        found.sort_unstable_by(|a, b| a.node.cmp(&b.node));
        Ok(found)
    }
}
