//! Tables of nodes that rows make, one node a row.
use crate::commands::{Finding, MALFORMED, UNFIT, numbers, say};
use ffc_term::fitting::{count_constants, fits, is_order, is_plain};
use ffc_term::{Node, NodeId, NodeList, NodeTable, TermStop};
use std::alloc::{AllocError, AllocFailed, Global};

/// The kinds of nodes that rows name.
#[derive(Clone, Copy)]
pub(crate) enum Kind {
    True,
    False,
    BoolConst,
    FieldConst,
    Num,
    Not,
    Eq,
    Neg,
    Add,
    Mul,
    Bitsum,
    IteField,
    Nots,
}

pub(crate) const KINDS: [(&str, Kind); 13] = [
    ("True", Kind::True),
    ("False", Kind::False),
    ("BoolConst", Kind::BoolConst),
    ("FieldConst", Kind::FieldConst),
    ("Num", Kind::Num),
    ("Not", Kind::Not),
    ("Eq", Kind::Eq),
    ("Neg", Kind::Neg),
    ("Add", Kind::Add),
    ("Mul", Kind::Mul),
    ("Bitsum", Kind::Bitsum),
    ("IteField", Kind::IteField),
    ("Nots", Kind::Nots),
];

/// Why a row makes no node.
#[derive(Clone, Copy)]
enum NodeStop {
    Malformed,
    Unfit,
    Stop(TermStop),
}

impl From<TermStop> for NodeStop {
    fn from(stop: TermStop) -> NodeStop {
        NodeStop::Stop(stop)
    }
}

impl From<AllocError> for NodeStop {
    fn from(_: AllocError) -> NodeStop {
        NodeStop::Stop(TermStop::Memory)
    }
}

impl<T: Drop> From<AllocFailed<T>> for NodeStop {
    fn from(_: AllocFailed<T>) -> NodeStop {
        NodeStop::Stop(TermStop::Memory)
    }
}

/// Puts a node that is no constant.
fn put(table: &mut NodeTable, node: Node) -> Result<NodeId, NodeStop> {
    if !fits(table, &node) || !is_plain(&node) {
        return Err(NodeStop::Unfit);
    }
    Ok(table.intern(node)?)
}

/// Puts the next Boolean constant.
fn bool_const(table: &mut NodeTable) -> Result<NodeId, NodeStop> {
    let number = count_constants(table);
    Ok(table.intern(Node::BoolConst(number))?)
}

/// Puts the next constant of the field of this order.
fn field_const(table: &mut NodeTable, order: u64) -> Result<NodeId, NodeStop> {
    if !is_order(order) {
        return Err(NodeStop::Unfit);
    }
    let number = count_constants(table);
    Ok(table.intern(Node::FieldConst(number, order))?)
}

fn ite_field(table: &mut NodeTable, c: NodeId, a: NodeId, b: NodeId) -> Result<NodeId, NodeStop> {
    if !fits(table, &Node::IteField(c, a, b)) {
        return Err(NodeStop::Unfit);
    }
    Ok(table.ite_field(c, a, b)?)
}

/// The numbers as those of nodes, where they are not too great.
pub(crate) fn ids_of(alloc: Global, numbers: &[u64]) -> Result<Option<Vec<NodeId>>, AllocError> {
    let mut ids = Vec::new(alloc);
    for number in numbers {
        match u32::try_from(*number) {
            Ok(id) => ids.push(id)?,
            Err(_) => return Ok(None),
        }
    }
    Ok(Some(ids))
}

/// Puts so many negations, each of the one before it, and the first of this node.
fn nots(table: &mut NodeTable, count: u32, first: NodeId) -> Result<NodeId, NodeStop> {
    let mut last = first;
    for _ in 0..count {
        last = put(table, Node::Not(last))?;
    }
    Ok(last)
}

/// Puts a node that lists others.
fn listing(
    alloc: Global,
    table: &mut NodeTable,
    kind: Kind,
    ids: &[NodeId],
) -> Result<NodeId, NodeStop> {
    let list = NodeList::new(ids.to_vec(alloc)?);
    match kind {
        Kind::Add => put(table, Node::Add(list)),
        Kind::Mul => put(table, Node::Mul(list)),
        Kind::Bitsum => put(table, Node::Bitsum(list)),
        _ => Err(NodeStop::Malformed),
    }
}

/// Puts a node over others.
fn inner(
    alloc: Global,
    table: &mut NodeTable,
    kind: Kind,
    ids: &[NodeId],
) -> Result<NodeId, NodeStop> {
    match (kind, ids) {
        (Kind::Not, [a]) => put(table, Node::Not(*a)),
        (Kind::Eq, [a, b]) => put(table, Node::Eq(*a, *b)),
        (Kind::Neg, [a]) => put(table, Node::Neg(*a)),
        (Kind::IteField, [c, a, b]) => ite_field(table, *c, *a, *b),
        (Kind::Nots, [count, first]) => nots(table, *count, *first),
        _ => listing(alloc, table, kind, ids),
    }
}

/// Puts the node that a row names: its kind, and the numbers after it.
fn make(
    alloc: Global,
    table: &mut NodeTable,
    kind: Kind,
    numbers: &[u64],
) -> Result<NodeId, NodeStop> {
    match (kind, numbers) {
        (Kind::True, []) => put(table, Node::True),
        (Kind::False, []) => put(table, Node::False),
        (Kind::BoolConst, []) => bool_const(table),
        (Kind::FieldConst, [order]) => field_const(table, *order),
        (Kind::Num, [number, order]) => put(table, Node::Num(*number, *order)),
        _ => match ids_of(alloc, numbers)? {
            Some(ids) => inner(alloc, table, kind, ids.as_slice()),
            None => Err(NodeStop::Malformed),
        },
    }
}

/// Puts the node of a row, and answers its number.
pub(crate) fn node_row(alloc: Global, table: &mut NodeTable, kind: Kind, rest: &str) -> Finding {
    let Some(numbers) = numbers(alloc, rest)? else {
        return say(alloc, MALFORMED);
    };
    match make(alloc, table, kind, numbers.as_slice()) {
        Ok(id) => format!(in alloc; "{id}"),
        Err(NodeStop::Malformed) => say(alloc, MALFORMED),
        Err(NodeStop::Unfit) => say(alloc, UNFIT),
        Err(NodeStop::Stop(stop)) => format!(in alloc; "{stop}"),
    }
}
