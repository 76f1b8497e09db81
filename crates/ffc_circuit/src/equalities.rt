//! Equalities of field nodes.
ghost use Rattle.std.specs.Prelude.{◌≡◌, IsTrue};
ghost use Rattle.ffc_term.specs.Tables.{IsFieldAt};

use ffc_term::{Node, NodeId, NodeTable, Sort};

/// The sides of an equality of field nodes.
pub fn sides(table: &NodeTable, id: NodeId) -> Option<(NodeId, NodeId)> {
    if id >= table.len() {
        return None;
    }
    match table.node(id) {
        Node::Eq(a, b) => Some((*a, *b)),
        _ => None,
    }
}

/// Whether a node is of the field of an order.
pub fn is_of_order(table: &NodeTable, order: u64, id: NodeId) -> bool
    ensures { IsTrue result → IsFieldAt table.now order id }
{
    if id >= table.len() {
        return false;
    }
    match table.sort_of(id) {
        Sort::Bool => false,
        Sort::Field(own) => own == order,
    }
}

/// Whether a node is an equality of field nodes.
pub fn is_equality(table: &NodeTable, id: NodeId) -> bool {
    sides(table, id).is_some()
}

/// The degree and the number of terms that the sides of an equality have at most.
pub fn size_of(table: &NodeTable, id: NodeId) -> (u64, u64) {
    if id < table.len() {
        (table.degree(id), table.length(id))
    } else {
        (0, 0)
    }
}
