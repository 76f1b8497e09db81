//! Nodes of a field, and what stands below them.
use ffc_term::{Node, NodeId, NodeTable};

/// The children of a sum, a product or a negation.
pub fn children(table: &NodeTable, id: NodeId) -> &[NodeId] {
    if id >= table.len() {
        return &[];
    }
    match table.node(id) {
        Node::Add(ids) | Node::Mul(ids) | Node::Bitsum(ids) => ids.as_slice(),
        Node::Neg(a) => std::slice::from_ref(a),
        _ => &[],
    }
}

/// The sides of an equality of field nodes.
pub fn sides(table: &NodeTable, id: NodeId) -> Option<(NodeId, NodeId)> {
    if id >= table.len() {
        return None;
    }
    match table.node(id) {
        Node::Eq(a, b) => Some((*a, *b)),
        _ => None,
    }
}
