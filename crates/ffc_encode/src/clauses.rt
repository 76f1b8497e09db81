//! The clauses that say what nodes' values are (Tseitin 1968).
ghost use Rattle.std.specs.Prelude.{◌≡◌, ◌<◌, ◌≤◌, [], ◌∷◌, ◌++◌, length, map, All, IfOk, OnOk};
ghost use Rattle.ffc_term.specs.declared.node.Node.TheVariants as node_is;
ghost use Rattle.ffc_rules.specs.Schemes.{one, schemes};
ghost use Rattle.ffc_encode.specs.Clauses.{clause_of, clauses_at, node_clauses, IsTrueAlways};
ghost use Rattle.ffc_encode.specs.Listing.{numbered, indexed, child_clauses, gate};

use ffc_cert::{Literal, Sequence};
use ffc_term::{Node, NodeId, NodeTable};
use std::alloc::{AllocError, Global};

/// A clause of a node, with the numbers of its scheme and, within the scheme, of itself.
#[derive(Debug, Drop)]
pub struct NodeClause {
    pub node: NodeId,
    pub scheme: u32,
    pub index: u32,
    pub lits: Sequence<Literal>,
}

/// Appends a clause.
fn push_clause(
    alloc: Global,
    clauses: &mut Vec<NodeClause>,
    node: NodeId,
    scheme: u32,
    index: u32,
    lits: &[Literal],
) -> Result<(), AllocError>
    ensures { OnOk result (clauses.new.items ≡ clauses.old.items ++ clause_of node scheme index lits.now ∷ []) }
{
    let lits = Sequence::from_vec(Vec::from_slice(alloc, lits)?);
    clauses.push(NodeClause {
        node,
        scheme,
        index,
        lits,
    })?;
    Ok(())
}

/// Appends the clauses of schemes that have one each.
fn push_rows<const N: usize>(
    alloc: Global,
    clauses: &mut Vec<NodeClause>,
    node: NodeId,
    rows: &[[Literal; N]],
) -> Result<(), AllocError>
    requires { length rows.now ≤ 4 }
    ensures { OnOk result (clauses.new.items ≡ clauses.old.items ++ numbered node 0 (map one rows.now)) }
{
    for (scheme, row) in rows.iter().enumerate() {
        push_clause(alloc, clauses, node, scheme as u32, 0, row)?;
    }
    Ok(())
}

/// Appends the scheme of an `and`, where `all` is true, or of an `or`, that has a clause for each child.
fn push_children(
    alloc: Global,
    clauses: &mut Vec<NodeClause>,
    node: NodeId,
    all: bool,
    ids: &[NodeId],
) -> Result<(), AllocError>
    ensures { OnOk result (clauses.new.items ≡ clauses.old.items ++ indexed node 0 0 (child_clauses node all ids.now)) }
{
    for (index, id) in ids.iter().enumerate() {
        let Ok(index) = u32::try_from(index) else {
            return Err(AllocError);
        };
        push_clause(alloc, clauses, node, 0, index, &[(!all, node), (all, *id)])?;
    }
    Ok(())
}

/// A literal, and after it the listed nodes or their negations.
fn long_clause(
    alloc: Global,
    first: Literal,
    positive: bool,
    ids: &[NodeId],
) -> Result<Vec<Literal>, AllocError>
    ensures { IfOk result (λ lits. lits.items ≡ first ∷ map (λ a. (positive, a)) ids.now) }
{
    let mut lits = Vec::new(alloc);
    lits.push(first)?;
    for id in ids {
        lits.push((positive, *id))?;
    }
    Ok(lits)
}

/// Appends the clauses of an `and`, where `all` is true, or of an `or`. More than 2^32 children are more than there is
/// memory for.
fn push_gate(
    alloc: Global,
    clauses: &mut Vec<NodeClause>,
    node: NodeId,
    all: bool,
    ids: &[NodeId],
) -> Result<(), AllocError>
    ensures { OnOk result (clauses.new.items ≡ clauses.old.items ++ numbered node 0 (gate node all ids.now)) }
{
    push_children(alloc, clauses, node, all, ids)?;
    let lits = long_clause(alloc, (all, node), !all, ids)?;
    push_clause(alloc, clauses, node, 1, 0, lits.as_slice())
}

/// Appends the clauses of an equality of truth values.
fn push_iff(
    alloc: Global,
    clauses: &mut Vec<NodeClause>,
    v: NodeId,
    a: NodeId,
    b: NodeId,
) -> Result<(), AllocError>
    ensures { OnOk result (clauses.new.items ≡ clauses.old.items ++ numbered v 0 (schemes v (node_is.Iff a b))) }
{
    let rows = [
        [(false, v), (false, a), (true, b)],
        [(false, v), (true, a), (false, b)],
        [(true, v), (true, a), (true, b)],
        [(true, v), (false, a), (false, b)],
    ];
    push_rows(alloc, clauses, v, &rows)
}

/// Appends the clauses of an exclusive or.
fn push_xor(
    alloc: Global,
    clauses: &mut Vec<NodeClause>,
    v: NodeId,
    a: NodeId,
    b: NodeId,
) -> Result<(), AllocError>
    ensures { OnOk result (clauses.new.items ≡ clauses.old.items ++ numbered v 0 (schemes v (node_is.Xor a b))) }
{
    let rows = [
        [(false, v), (true, a), (true, b)],
        [(false, v), (false, a), (false, b)],
        [(true, v), (false, a), (true, b)],
        [(true, v), (true, a), (false, b)],
    ];
    push_rows(alloc, clauses, v, &rows)
}

/// Appends the clauses of a choice between truth values.
fn push_ite(
    alloc: Global,
    clauses: &mut Vec<NodeClause>,
    v: NodeId,
    c: NodeId,
    a: NodeId,
    b: NodeId,
) -> Result<(), AllocError>
    ensures { OnOk result (clauses.new.items ≡ clauses.old.items ++ numbered v 0 (schemes v (node_is.IteBool c a b))) }
{
    let rows = [
        [(false, v), (false, c), (true, a)],
        [(false, v), (true, c), (true, b)],
        [(true, v), (false, c), (false, a)],
        [(true, v), (true, c), (false, b)],
    ];
    push_rows(alloc, clauses, v, &rows)
}

/// Appends the clauses of a node.
fn push_node(
    alloc: Global,
    table: &NodeTable,
    clauses: &mut Vec<NodeClause>,
    v: NodeId,
) -> Result<(), AllocError>
    requires { v < length table.now }
    ensures { OnOk result (clauses.new.items ≡ clauses.old.items ++ clauses_at table.now v) }
{
    match table.node(v) {
        Node::True => push_rows(alloc, clauses, v, &[[(true, v)]]),
        Node::False => push_rows(alloc, clauses, v, &[[(false, v)]]),
        Node::Not(a) => {
            let rows = [[(true, v), (true, *a)], [(false, v), (false, *a)]];
            push_rows(alloc, clauses, v, &rows)
        }
        Node::And(ids) => push_gate(alloc, clauses, v, true, ids.as_slice()),
        Node::Or(ids) => push_gate(alloc, clauses, v, false, ids.as_slice()),
        Node::Iff(a, b) => push_iff(alloc, clauses, v, *a, *b),
        Node::Xor(a, b) => push_xor(alloc, clauses, v, *a, *b),
        Node::IteBool(c, a, b) => push_ite(alloc, clauses, v, *c, *a, *b),
        Node::IteField(c, _, _) => {
            let (first, second) = table.branches(v);
            let rows = [[(false, *c), (true, first)], [(true, *c), (true, second)]];
            push_rows(alloc, clauses, v, &rows)
        }
        _ => Ok(()),
    }
}

/// The clauses of the schemes of these nodes, in the order of the nodes, of a node's schemes and of a scheme's clauses.
/// It takes time by the number of their literals.
pub fn clauses_of(
    alloc: Global,
    table: &NodeTable,
    nodes: &[NodeId],
) -> Result<Vec<NodeClause>, AllocError>
    requires { All (λ id. id < length table.now) nodes.now }
    ensures listed { IfOk result (λ v. v.items ≡ node_clauses table.now nodes.now) }
    ensures always { IfOk result (λ v. All (IsTrueAlways table.now) v.items) }
{
    let _nodes = table.len();
    let mut clauses = Vec::new(alloc);
    for id in nodes {
        push_node(alloc, table, &mut clauses, *id)?;
    }
    Ok(clauses)
}
