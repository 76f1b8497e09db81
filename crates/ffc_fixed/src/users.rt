//! Which nodes have a node as a child.
use ffc_circuit::sides;
use ffc_term::{Node, NodeId, NodeTable};
use std::alloc::{AllocError, Global};

/// The children of a sum, a product or a negation, and the sides of an equality.
pub fn children(table: &NodeTable, id: NodeId) -> &[NodeId] {
    if id >= table.len() {
        return &[];
    }
    match table.node(id) {
        Node::Add(ids) | Node::Mul(ids) | Node::Bitsum(ids) => ids.as_slice(),
        Node::Neg(a) => std::slice::from_ref(a),
        _ => &[],
    }
}

/// For each node those that have it as a child or a side, once for each time that they do.
#[derive(Drop)]
pub struct Users {
    lists: Vec<Vec<NodeId>>,
}

impl Users {
    /// Those of all nodes of a table.
    pub fn of(alloc: Global, table: &NodeTable) -> Result<Self, AllocError> {
        let mut users = Users {
            lists: Vec::new(alloc),
        };
        for id in 0..table.len() {
            users.lists.push(Vec::new(alloc))?;
            for child in children(table, id) {
                users.add(*child, id)?;
            }
            if let Some((a, b)) = sides(table, id) {
                users.add(a, id)?;
                users.add(b, id)?;
            }
        }
        Ok(users)
    }

    fn add(&mut self, child: NodeId, user: NodeId) -> Result<(), AllocError> {
        if let Some(list) = self.lists.get_mut(child as usize) {
            list.push(user)?;
        }
        Ok(())
    }

    pub fn of_node(&self, id: NodeId) -> &[NodeId] {
        match self.lists.get(id as usize) {
            Some(list) => list.as_slice(),
            None => &[],
        }
    }
}
