//! Tests of what a table asks of a new node, for callers that have no proof of it: each says whether a number or a node is
//! as the clauses of `NodeTable` require.
ghost use Rattle.std.specs.Prelude.{◌≡◌, ◌↔◌, List, All, IsTrue};
ghost use Rattle.ffc_field.specs.Orders.{IsOrder};
ghost use Rattle.ffc_term.specs.declared.node.Node.{Node};
ghost use Rattle.ffc_term.specs.Nodes.{IsConstantAt};
ghost use Rattle.ffc_term.specs.Tables.{Fits, IsBooleanAt, IsFieldAt, IsFieldIte, IsNumbered, AreBoolean, AreOfOneField};
ghost use Rattle.ffc_term.specs.Tables.{constant_count};

use crate::node::{Node, NodeId, Sort};
use crate::table::NodeTable;
use ffc_field::FieldId;

/// Whether a number is the order of one of the eight fields.
pub fn is_order(order: u64) -> bool
    ensures { IsTrue result ↔ IsOrder order }
{
    FieldId::of_order(u128::from(order)).is_some()
}

/// Whether a number is that of a Boolean node.
pub fn is_boolean(table: &NodeTable, id: NodeId) -> bool
    ensures { IsTrue result ↔ IsBooleanAt table.now id }
{
    if id >= table.len() {
        return false;
    }
    match table.sort_of(id) {
        Sort::Bool => true,
        Sort::Field(_) => false,
    }
}

/// Whether a number is that of a node of the field of this order.
pub fn is_field(table: &NodeTable, order: u64, id: NodeId) -> bool
    ensures { IsTrue result ↔ IsFieldAt table.now order id }
{
    if id >= table.len() {
        return false;
    }
    match table.sort_of(id) {
        Sort::Bool => false,
        Sort::Field(own) => own == order,
    }
}

/// Whether all numbers are those of Boolean nodes.
pub fn are_boolean(table: &NodeTable, ids: &[NodeId]) -> bool
    ensures { IsTrue result → All (IsBooleanAt table.now) ids.now }
{
    for id in ids {
        if !is_boolean(table, *id) {
            return false;
        }
    }
    true
}

/// Whether all numbers are those of nodes of the field of this order.
pub fn are_field(table: &NodeTable, order: u64, ids: &[NodeId]) -> bool
    ensures { IsTrue result → All (IsFieldAt table.now order) ids.now }
{
    for id in ids {
        if !is_field(table, order, *id) {
            return false;
        }
    }
    true
}

fn are_some_boolean(table: &NodeTable, ids: &[NodeId]) -> bool
    ensures { IsTrue result → AreBoolean table.now ids.now }
{
    !ids.is_empty() && are_boolean(table, ids)
}

/// The order of the first of these nodes, or 0.
fn order_of_first(table: &NodeTable, ids: &[NodeId]) -> u64 {
    match ids.first() {
        Some(id) if *id < table.len() => table.sort_of(*id).order(),
        _ => 0,
    }
}

/// Whether all numbers, of which there is at least one, are those of nodes of one field.
pub fn are_of_one_field(table: &NodeTable, ids: &[NodeId]) -> bool
    ensures { IsTrue result → AreOfOneField table.now ids.now }
{
    let order = order_of_first(table, ids);
    !ids.is_empty() && are_field(table, order, ids)
}

/// Whether a node fits the nodes of a table. It costs what the node lists.
pub fn fits(table: &NodeTable, node: &Node) -> bool
    ensures { IsTrue result → Fits table.now node.now }
{
    match node {
        Node::True | Node::False | Node::BoolConst(_) => true,
        Node::FieldConst(_, order) => is_order(*order),
        Node::Num(n, order) => n < order && is_order(*order),
        Node::Not(a) => is_boolean(table, *a),
        Node::And(ids) | Node::Or(ids) => are_some_boolean(table, ids.as_slice()),
        Node::Iff(a, b) | Node::Xor(a, b) => is_boolean(table, *a) && is_boolean(table, *b),
        Node::IteBool(c, a, b) => is_boolean(table, *c)
            && is_boolean(table, *a)
            && is_boolean(table, *b),
        Node::IteField(c, a, b) => is_boolean(table, *c) && are_of_one_field(table, &[*a, *b]),
        Node::Eq(a, b) => are_of_one_field(table, &[*a, *b]),
        Node::Neg(a) => are_of_one_field(table, &[*a]),
        Node::Add(ids) | Node::Mul(ids) | Node::Bitsum(ids) => are_of_one_field(
            table,
            ids.as_slice(),
        ),
    }
}

/// Neither an `ite` of field sort nor a constant, so that `intern` takes it wherever it fits.
pub fn is_plain(node: &Node) -> bool
    ensures ite { IsTrue result → ¬ (IsFieldIte node.now) }
    ensures numbered { IsTrue result → (nodes : List Node) → IsNumbered nodes node.now }
{
    !matches!(
        node,
        Node::IteField(..) | Node::BoolConst(_) | Node::FieldConst(..)
    )
}

/// Whether a number is that of a constant.
pub fn is_constant(table: &NodeTable, id: NodeId) -> bool
    ensures { IsTrue result → IsConstantAt table.now id }
{
    id < table.len() && table.node(id).is_constant()
}

/// Whether all numbers are those of constants.
pub fn are_constants(table: &NodeTable, ids: &[NodeId]) -> bool
    ensures { IsTrue result → All (IsConstantAt table.now) ids.now }
{
    for id in ids {
        if !is_constant(table, *id) {
            return false;
        }
    }
    true
}

/// How many constants a table has. It costs a step for each node.
pub fn count_constants(table: &NodeTable) -> u32
    ensures { result ≡ constant_count table.now }
{
    let mut count = 0;
    for id in 0..table.len() {
        if table.node(id).is_constant() {
            count += 1;
        }
    }
    count
}
