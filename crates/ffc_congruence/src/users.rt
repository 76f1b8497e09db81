//! Which nodes have a node as a child.
use crate::nodes::children;
use ffc_term::{NodeId, NodeTable};
use std::alloc::{AllocError, Global};

/// For each node those that have it as a child, once for each time that they do.
#[derive(Drop)]
pub struct Users {
    /// Where the list of each node begins, and at the end where the last one ends.
    starts: Vec<usize>,
    ids: Vec<NodeId>,
}

impl Users {
    /// Those of all nodes of a table.
    pub fn of(alloc: Global, table: &NodeTable) -> Result<Self, AllocError> {
        let count = table.len() as usize;
        let mut users = Users {
            starts: vec![in alloc; 0; count.saturating_add(1)]?,
            ids: Vec::new(alloc),
        };
        users.count(table);
        let total = users.starts.last().copied().unwrap_or(0);
        users.ids = vec![in alloc; 0; total]?;
        users.fill(table);
        Ok(users)
    }

    /// Lets each list begin where, once it is filled from its end on, it will begin.
    fn count(&mut self, table: &NodeTable) {
        for id in 0..table.len() {
            for child in children(table, id) {
                if let Some(start) = self.starts.get_mut(*child as usize) {
                    *start = start.saturating_add(1);
                }
            }
        }
        let mut total = 0usize;
        for start in self.starts.as_mut_slice() {
            total = total.saturating_add(*start);
            *start = total;
        }
    }

    fn fill(&mut self, table: &NodeTable) {
        for id in (0..table.len()).rev() {
            for child in children(table, id) {
                if let Some(start) = self.starts.get_mut(*child as usize) {
                    *start = start.saturating_sub(1);
                    if let Some(place) = self.ids.get_mut(*start) {
                        *place = id;
                    }
                }
            }
        }
    }

    /// Those of a node.
    pub fn of_node(&self, id: u32) -> &[NodeId] {
        let place = id as usize;
        let (Some(start), Some(end)) = (
            self.starts.get(place).copied(),
            self.starts.get(place.saturating_add(1)).copied(),
        ) else {
            return &[];
        };
        let (before, _) = self.ids.split_at(end.min(self.ids.len()));
        let (_, own) = before.split_at(start.min(before.len()));
        own
    }
}
