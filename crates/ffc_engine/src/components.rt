//! Nodes that terms and equalities link. Equalities of two components share no variable, whichever of them are on a trail.
use ffc_cdcl::Lit;
use ffc_circuit::sides;
use ffc_field::FieldId;
use ffc_term::{Node, NodeId, NodeTable, Sort};
use std::alloc::{AllocError, Global};

/// The fields, in the order in which they are searched.
const FIELDS: [FieldId; 8] = [
    FieldId::F2,
    FieldId::F3,
    FieldId::F5,
    FieldId::F17,
    FieldId::F65537,
    FieldId::BabyBear,
    FieldId::KoalaBear,
    FieldId::Goldilocks,
];

/// The component of each node of a table, by its least node; and the fields of its equalities.
#[derive(Drop)]
pub struct Components {
    labels: Vec<NodeId>,
    fields: Vec<FieldId>,
}

/// The order of the field whose nodes an equality is of.
fn order_of(table: &NodeTable, equality: NodeId) -> Option<u64> {
    let (left, _) = sides(table, equality)?;
    if left >= table.len() {
        return None;
    }
    match table.sort_of(left) {
        Sort::Bool => None,
        Sort::Field(order) => Some(order),
    }
}

/// Whether an equality is one of a field.
pub fn is_over(table: &NodeTable, order: u64, equality: NodeId) -> bool {
    order_of(table, equality) == Some(order)
}

/// The orders of the fields of a table's equalities, each once.
fn orders_of(alloc: Global, table: &NodeTable) -> Result<Vec<u64>, AllocError> {
    let mut orders = Vec::new(alloc);
    for id in 0..table.len() {
        if let Some(order) = order_of(table, id) {
            if !orders.as_slice().contains(&order) {
                orders.push(order)?;
            }
        }
    }
    Ok(orders)
}

/// The parts, those first whose last equality does not hold.
fn contradictory_first(alloc: Global, parts: Vec<Vec<Lit>>) -> Result<Vec<Vec<Lit>>, AllocError> {
    let mut first = Vec::new(alloc);
    let mut later = Vec::new(alloc);
    for part in parts {
        match part.last() {
            Some(equality) if !equality.positive => first.push(part)?,
            _ => later.push(part)?,
        }
    }
    for part in later {
        first.push(part)?;
    }
    Ok(first)
}

impl Components {
    /// Those of a table (disjoint sets with path halving; Tarjan and van Leeuwen 1984).
    pub fn of(alloc: Global, table: &NodeTable) -> Result<Self, AllocError> {
        let mut components = Components {
            labels: Vec::new(alloc),
            fields: Vec::new(alloc),
        };
        for id in 0..table.len() {
            components.labels.push(id)?;
        }
        for id in 0..table.len() {
            components.link_parts(table, id);
        }
        for id in 0..table.len() {
            let label = components.root(id);
            components.relabel(id, label);
        }
        let orders = orders_of(alloc, table)?;
        for field in FIELDS {
            if orders.as_slice().contains(&field.order()) {
                components.fields.push(field)?;
            }
        }
        Ok(components)
    }

    /// The fields of the table's equalities, in the order in which they are searched.
    pub fn fields(&self) -> &[FieldId] {
        self.fields.as_slice()
    }

    /// The label of a node.
    fn label(&self, id: NodeId) -> NodeId {
        match self.labels.get(id as usize) {
            Some(label) => *label,
            None => id,
        }
    }

    fn relabel(&mut self, id: NodeId, label: NodeId) {
        if let Some(old) = self.labels.get_mut(id as usize) {
            *old = label;
        }
    }

    /// The least node of a node's component so far.
    fn root(&mut self, id: NodeId) -> NodeId {
        let mut id = id;
        for _ in 0..self.labels.len() {
            let parent = self.label(id);
            if parent == id {
                break;
            }
            let next = self.label(parent);
            self.relabel(id, next);
            id = next;
        }
        id
    }

    /// Makes two components one. Numbers link nothing.
    fn link(&mut self, table: &NodeTable, id: NodeId, part: NodeId) {
        if part < table.len() && matches!(table.node(part), Node::Num(..)) {
            return;
        }
        let a = self.root(id);
        let b = self.root(part);
        self.relabel(a.max(b), a.min(b));
    }

    /// Links a node with what it is made of.
    fn link_parts(&mut self, table: &NodeTable, id: NodeId) {
        if id >= table.len() {
            return;
        }
        match table.node(id) {
            Node::Add(ids) | Node::Mul(ids) | Node::Bitsum(ids) => {
                for part in ids.as_slice() {
                    self.link(table, id, *part);
                }
            }
            Node::Neg(a) => self.link(table, id, *a),
            Node::Eq(a, b) => {
                self.link(table, id, *a);
                self.link(table, id, *b);
            }
            _ => {}
        }
    }

    /// Equalities over a field by components, those components first in which some do not hold, since a contradiction rather lies
    /// there. Of each component first those that hold.
    pub fn parts(
        &self,
        alloc: Global,
        table: &NodeTable,
        order: u64,
        equalities: &[Lit],
    ) -> Result<Vec<Vec<Lit>>, AllocError> {
        let mut keys = Vec::new(alloc);
        for (place, equality) in equalities.iter().enumerate() {
            if is_over(table, order, equality.node) {
                keys.push((self.label(equality.node), !equality.positive, place))?;
            }
        }
        keys.sort_unstable();
        let mut parts: Vec<Vec<Lit>> = Vec::new(alloc);
        let mut last = None;
        for (label, _, place) in keys {
            if last != Some(label) {
                parts.push(Vec::new(alloc))?;
                last = Some(label);
            }
            if let (Some(part), Some(equality)) = (parts.last_mut(), equalities.get(place)) {
                part.push(*equality)?;
            }
        }
        contradictory_first(alloc, parts)
    }
}
