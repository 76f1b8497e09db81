//! The values that nodes have, with their reasons.
use ffc_term::{Node, NodeId, NodeTable, Sort};
use std::alloc::{AllocError, Global};

/// Why a node has a value.
#[derive(Clone, Copy)]
pub enum Reason {
    /// Its children have values.
    Children,
    /// This child of the product is 0.
    Zero(NodeId),
    /// This node, of which it is a child, has a value, and so have the other children.
    Parent(NodeId),
    /// This equality holds, and its other side has the value.
    Equality(NodeId),
}

/// A value with its reason.
#[derive(Clone, Copy)]
pub struct Known {
    pub value: u64,
    pub reason: Reason,
}

/// The values of nodes, in the order in which they were found.
#[derive(Drop)]
pub struct Values {
    items: Vec<Option<Known>>,
    /// The nodes that have values, but for numbers.
    order: Vec<NodeId>,
}

/// The order of a node's field; 0 where it is Boolean.
pub fn order_of(table: &NodeTable, id: NodeId) -> u64 {
    if id >= table.len() {
        return 0;
    }
    match table.sort_of(id) {
        Sort::Bool => 0,
        Sort::Field(order) => order,
    }
}

impl Values {
    /// Those of the numbers of a table alone.
    pub fn of(alloc: Global, table: &NodeTable) -> Result<Self, AllocError> {
        let mut items = Vec::new(alloc);
        for id in 0..table.len() {
            items.push(match table.node(id) {
                Node::Num(value, _) => Some(Known {
                    value: *value,
                    reason: Reason::Children,
                }),
                _ => None,
            })?;
        }
        Ok(Values {
            items,
            order: Vec::new(alloc),
        })
    }

    pub fn get(&self, id: NodeId) -> Option<Known> {
        match self.items.get(id as usize) {
            Some(item) => *item,
            None => None,
        }
    }

    /// The value of a node.
    pub fn value(&self, id: NodeId) -> Option<u64> {
        self.get(id).map(|known| known.value)
    }

    /// Gives a node a value that has none.
    pub fn set(&mut self, id: NodeId, known: Known) -> Result<(), AllocError> {
        self.order.push(id)?;
        if let Some(item) = self.items.get_mut(id as usize) {
            *item = Some(known);
        }
        Ok(())
    }

    /// The node that got its value at a place of the order.
    pub fn at(&self, place: usize) -> Option<NodeId> {
        self.order.get(place).copied()
    }

    /// How many nodes have values, but for numbers.
    pub fn len(&self) -> usize {
        self.order.len()
    }

    /// Takes away the value that was found at a place of the order.
    fn unset(&mut self, place: usize) {
        let Some(id) = self.at(place) else {
            return;
        };
        if let Some(item) = self.items.get_mut(id as usize) {
            *item = None;
        }
    }

    /// Takes all values away but the first so many, and those of numbers.
    pub fn keep(&mut self, count: usize) {
        for place in count..self.order.len() {
            self.unset(place);
        }
        self.order.truncate(count);
    }
}
