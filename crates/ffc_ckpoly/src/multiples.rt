//! Multiples of nodes: products of two nodes of which one is a number. They are opened in place, as sums are.
ghost use Rattle.std.specs.Prelude.{◌≡◌, ◌<◌, length, true, false, All, MatchOption, IfSome, IsTrue};
ghost use Rattle.ffc_term.specs.declared.node.Node.{Node as TableNode};
ghost use Rattle.ffc_term.specs.declared.node.Node.TheVariants as node_is;
ghost use Rattle.ffc_term.specs.Nodes.{IsNodeAt};
ghost use Rattle.ffc_term.specs.Tables.{IsTable};
ghost use Rattle.ffc_ckpoly.specs.Multiples.{is_single, number_at, multiple_of_two, multiple_of, is_product};
ghost use Rattle.ffc_ckpoly.specs.Opening.{OpensAlone};

use ffc_term::{Node, NodeId, NodeTable};

/// The number that a node is, if it is one.
fn number_at(table: &NodeTable, id: NodeId) -> Option<u64>
    requires { id < length table.now }
    ensures { result ≡ number_at table.now id }
{
    match table.node(id) {
        Node::Num(n, _) => Some(*n),
        _ => None,
    }
}

/// Of two nodes, the first that is a number, with the other one.
fn multiple_of_two(table: &NodeTable, a: NodeId, b: NodeId) -> Option<(u64, NodeId)>
    requires a_is { a < length table.now }
    requires b_is { b < length table.now }
    ensures { result ≡ multiple_of_two table.now a b }
{
    if let Some(n) = number_at(table, a) {
        return Some((n, b));
    }
    match number_at(table, b) {
        Some(n) => Some((n, a)),
        None => None,
    }
}

/// The number and the node, where the product of these is a multiple of a node.
pub fn multiple_of(table: &NodeTable, ids: &[NodeId]) -> Option<(u64, NodeId)>
    requires { All (λ id. id < length table.now) ids.now }
    ensures { result ≡ multiple_of table.now ids.now }
{
    if ids.len() != 2 {
        return None;
    }
    multiple_of_two(table, ids[0], ids[1])
}

/// The factors of a node, where it is a product that is no multiple.
pub fn factors_of(table: &NodeTable, id: NodeId) -> Option<&[NodeId]>
    requires { id < length table.now }
    ensures factors { MatchOption result ((n : TableNode) → IsNodeAt table.now id n → is_product table.now n ≡ false)
        (λ ids. IsNodeAt table.now id (node_is.Mul ids.now) × (is_product table.now (node_is.Mul ids.now) ≡ true)) }
    ensures valid { IsTable table.now }
{
    let Node::Mul(ids) = table.node(id) else {
        return None;
    };
    let ids = ids.as_slice();
    match multiple_of(table, ids) {
        Some(_) => None,
        None => Some(ids),
    }
}

/// Whether a node is a variable or a number.
pub fn is_single(table: &NodeTable, id: NodeId) -> bool
    requires { id < length table.now }
    ensures { (n : TableNode) → IsNodeAt table.now id n → result ≡ is_single n }
{
    matches!(
        table.node(id),
        Node::FieldConst(..) | Node::Num(..) | Node::IteField(..)
    )
}

/// The node that is multiplied, where a node is a multiple.
fn multiplied(table: &NodeTable, id: NodeId) -> Option<NodeId>
    requires { id < length table.now }
    ensures alone { IfSome result (λ part. OpensAlone table.now part → OpensAlone table.now id) }
    ensures inside { IfSome result (λ part. part < length table.now) }
{
    let Node::Mul(ids) = table.node(id) else {
        return None;
    };
    match multiple_of(table, ids.as_slice()) {
        Some((_, part)) => Some(part),
        None => None,
    }
}

/// Whether a node is a variable or a number, or a multiple of one, which is opened as fast as a polynomial that is there is found.
pub fn opens_alone(table: &NodeTable, id: NodeId) -> bool
    requires { id < length table.now }
    ensures { IsTrue result → OpensAlone table.now id }
{
    match multiplied(table, id) {
        Some(part) => is_single(table, part),
        None => is_single(table, id),
    }
}
