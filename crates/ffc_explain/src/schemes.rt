//! The clauses that the kinds of nodes have.
use crate::names::Names;
use ffc_cert::Literal;
use ffc_term::{Node, NodeId};

/// The literals of a clause of at most three.
fn short(alloc: std::alloc::Global, literals: &[Literal]) -> Option<Vec<Literal>> {
    literals.to_vec(alloc).ok()
}

/// A literal, and after it these nodes with one sign.
fn long(names: &Names<'_>, first: Literal, ids: &[NodeId], sign: bool) -> Option<Vec<Literal>> {
    let mut clause = Vec::new(names.alloc);
    clause.push(first).ok()?;
    for id in ids {
        clause.push((sign, *id)).ok()?;
    }
    Some(clause)
}

/// The clause of this index, where each child has one, and of the other scheme, which has all children.
fn gate(
    names: &Names<'_>,
    id: NodeId,
    ids: &[NodeId],
    sign: bool,
    scheme: u32,
    index: u32,
) -> Option<Vec<Literal>> {
    if scheme == 0 {
        let child = *ids.get(index as usize)?;
        return short(names.alloc, &[(!sign, id), (sign, child)]);
    }
    long(names, (sign, id), ids, !sign)
}

/// The clause of a choice between truth values.
fn choice(
    names: &Names<'_>,
    id: NodeId,
    nodes: (NodeId, NodeId, NodeId),
    scheme: u32,
) -> Option<Vec<Literal>> {
    let (c, a, b) = nodes;
    let branch = if scheme % 2 == 0 { a } else { b };
    let sign = scheme < 2;
    short(
        names.alloc,
        &[(!sign, id), (scheme % 2 == 1, c), (sign, branch)],
    )
}

/// The clause of an equality of truth values, or of an exclusive or where the last sign is turned.
fn equality(
    names: &Names<'_>,
    id: NodeId,
    nodes: (NodeId, NodeId),
    scheme: u32,
    is_xor: bool,
) -> Option<Vec<Literal>> {
    let (a, b) = nodes;
    let first = matches!(scheme, 1 | 2);
    let second = matches!(scheme, 0 | 2);
    let first = if is_xor {
        matches!(scheme, 0 | 3)
    } else {
        first
    };
    let second = if is_xor {
        matches!(scheme, 0 | 2)
    } else {
        second
    };
    short(names.alloc, &[(scheme >= 2, id), (first, a), (second, b)])
}

/// The clause of a choice between residues, whose equalities with its branches come after it.
fn residue_choice(
    names: &Names<'_>,
    id: NodeId,
    nodes: (NodeId, NodeId, NodeId),
    scheme: u32,
) -> Option<Vec<Literal>> {
    let (c, a, b) = nodes;
    let place = if scheme == 0 || a == b { 1 } else { 2 };
    short(
        names.alloc,
        &[(scheme == 1, c), (true, id.saturating_add(place))],
    )
}

/// The clause of this scheme and index of a node, where there is one.
pub(crate) fn clause_of(
    names: &Names<'_>,
    id: NodeId,
    scheme: u32,
    index: u32,
) -> Option<Vec<Literal>> {
    match names.node(id)? {
        Node::True => short(names.alloc, &[(true, id)]),
        Node::False => short(names.alloc, &[(false, id)]),
        Node::Not(a) => {
            let sign = scheme == 0;
            short(names.alloc, &[(sign, id), (sign, *a)])
        }
        Node::And(ids) => gate(names, id, ids.as_slice(), true, scheme, index),
        Node::Or(ids) => gate(names, id, ids.as_slice(), false, scheme, index),
        Node::Iff(a, b) => equality(names, id, (*a, *b), scheme, false),
        Node::Xor(a, b) => equality(names, id, (*a, *b), scheme, true),
        Node::IteBool(c, a, b) => choice(names, id, (*c, *a, *b), scheme),
        Node::IteField(c, a, b) => residue_choice(names, id, (*c, *a, *b), scheme),
        _ => None,
    }
}
