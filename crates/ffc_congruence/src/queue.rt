//! Nodes that wait to be looked at, each once.
use ffc_term::NodeId;
use std::alloc::{AllocError, Global};

#[derive(Drop)]
pub struct Queue {
    /// Those that wait or did, of which so many were looked at.
    ids: Vec<NodeId>,
    looked: usize,
    waits: Vec<bool>,
}

impl Queue {
    /// A queue for so many nodes.
    pub fn new(alloc: Global, count: usize) -> Result<Queue, AllocError> {
        Ok(Queue {
            ids: Vec::new(alloc),
            looked: 0,
            waits: vec![in alloc; false; count]?,
        })
    }

    /// Lets a node wait, unless it does.
    pub fn push(&mut self, id: NodeId) -> Result<(), AllocError> {
        if let Some(waits) = self.waits.get_mut(id as usize) {
            if !*waits {
                self.ids.push(id)?;
                *waits = true;
            }
        }
        Ok(())
    }

    /// The next node.
    pub fn pop(&mut self) -> Option<NodeId> {
        let id = self.ids.get(self.looked).copied()?;
        self.looked = self.looked.saturating_add(1);
        if let Some(waits) = self.waits.get_mut(id as usize) {
            *waits = false;
        }
        Some(id)
    }

    /// Lets no node wait.
    pub fn clear(&mut self) {
        for _ in self.looked..self.ids.len() {
            let _ = self.pop();
        }
        self.ids.truncate(0);
        self.looked = 0;
    }
}
