//! Nodes with other children.
use ffc_term::{Node, NodeId, NodeList};
use std::alloc::{AllocError, Global};

/// The numbers that nodes of another table have, where they have one.
pub(crate) fn number_in(own: &[Option<NodeId>], id: NodeId) -> Option<NodeId> {
    match own.get(id as usize) {
        Some(number) => *number,
        None => None,
    }
}

fn list_in(
    alloc: Global,
    own: &[Option<NodeId>],
    ids: &NodeList,
) -> Result<Option<NodeList>, AllocError> {
    let mut numbers = Vec::new(alloc);
    for id in ids.as_slice() {
        match number_in(own, *id) {
            Some(number) => numbers.push(number)?,
            None => return Ok(None),
        }
    }
    Ok(Some(NodeList::new(numbers)))
}

/// A node with two children.
fn pair_in(own: &[Option<NodeId>], a: NodeId, b: NodeId) -> Option<(NodeId, NodeId)> {
    match (number_in(own, a), number_in(own, b)) {
        (Some(a), Some(b)) => Some((a, b)),
        _ => None,
    }
}

fn triple_in(
    own: &[Option<NodeId>],
    c: NodeId,
    a: NodeId,
    b: NodeId,
) -> Option<(NodeId, NodeId, NodeId)> {
    match (number_in(own, c), pair_in(own, a, b)) {
        (Some(c), Some((a, b))) => Some((c, a, b)),
        _ => None,
    }
}

/// A node that is no constant with the numbers of its children in place of them. None where a child has no number.
pub(crate) fn copied(
    alloc: Global,
    own: &[Option<NodeId>],
    node: &Node,
) -> Result<Option<Node>, AllocError> {
    Ok(match node {
        Node::True => Some(Node::True),
        Node::False => Some(Node::False),
        Node::BoolConst(_) | Node::FieldConst(..) => None,
        Node::Num(n, order) => Some(Node::Num(*n, *order)),
        Node::Not(a) => number_in(own, *a).map(|a| Node::Not(a)),
        Node::Neg(a) => number_in(own, *a).map(|a| Node::Neg(a)),
        Node::And(ids) => list_in(alloc, own, ids)?.map(|ids| Node::And(ids)),
        Node::Or(ids) => list_in(alloc, own, ids)?.map(|ids| Node::Or(ids)),
        Node::Add(ids) => list_in(alloc, own, ids)?.map(|ids| Node::Add(ids)),
        Node::Mul(ids) => list_in(alloc, own, ids)?.map(|ids| Node::Mul(ids)),
        Node::Bitsum(ids) => list_in(alloc, own, ids)?.map(|ids| Node::Bitsum(ids)),
        Node::Iff(a, b) => pair_in(own, *a, *b).map(|p| Node::Iff(p.0, p.1)),
        Node::Xor(a, b) => pair_in(own, *a, *b).map(|p| Node::Xor(p.0, p.1)),
        Node::Eq(a, b) => pair_in(own, *a, *b).map(|p| Node::Eq(p.0, p.1)),
        Node::IteBool(c, a, b) => triple_in(own, *c, *a, *b).map(|t| Node::IteBool(t.0, t.1, t.2)),
        Node::IteField(c, a, b) => {
            triple_in(own, *c, *a, *b).map(|t| Node::IteField(t.0, t.1, t.2))
        }
    })
}
