//! The nodes of a check.
ghost use Rattle.std.specs.Prelude.{◌≡◌, ℕ, ◌+◌, ◌<◌, ◌≤◌, ◌^◌, ◌⊎◌, List, length, All, Contains, IfOk, replicate};
ghost use Rattle.std.specs.Prelude.{false, filter, min};
ghost use Rattle.ffc_term.specs.Nodes.{IsNodeAt, children, is_constant, node_at};
ghost use Rattle.ffc_term.specs.Tables.{Fits, IsTable};
ghost use Rattle.ffc_term.specs.Checks.{AreNodesOf, AreConstantsOf, IsClosed};
ghost use Rattle.ffc_term.specs.Marking.{Marks, IsMarking, AreMarkedFrom, IsEqualityOf, IsBroughtBy};
ghost use Rattle.ffc_term.specs.Measuring.{AreMeasuresOf, span_of};

use crate::mark_set::MarkSet;
use crate::measure::Measures;
use crate::node::{Node, NodeId};
use crate::table::{NodeTable, second_equality};
use std::alloc::{AllocError, Global};

// Greater measures are given as this one.
const LARGEST: u128 = 1 << 64;

// Marks these nodes.
fn mark_all(marks: &mut MarkSet, ids: &[NodeId])
    requires { All (λ id. id < length marks.old) ids.now }
    ensures { Marks (Contains ids.now) marks.old marks.new }
{
    for id in ids {
        marks.set(*id);
    }
}

// Marks the children of a node.
fn mark_children(marks: &mut MarkSet, node: &Node)
    requires { All (λ id. id < length marks.old) (children node.now) }
    ensures { Marks (Contains (children node.now)) marks.old marks.new }
{
    match node {
        Node::True | Node::False | Node::BoolConst(_) | Node::FieldConst(..) | Node::Num(..) => {
            mark_all(marks, &[])
        }
        Node::Not(a) | Node::Neg(a) => mark_all(marks, &[*a]),
        Node::Iff(a, b) | Node::Xor(a, b) | Node::Eq(a, b) => mark_all(marks, &[*a, *b]),
        Node::IteBool(c, a, b) | Node::IteField(c, a, b) => mark_all(marks, &[*c, *a, *b]),
        Node::And(ids) | Node::Or(ids) | Node::Add(ids) | Node::Mul(ids) | Node::Bitsum(ids) => {
            mark_all(marks, ids.as_slice())
        }
    }
}

// Marks the equalities of an `ite` of field sort with its branches.
fn mark_equalities(marks: &mut MarkSet, id: NodeId, node: &Node)
    requires within { (k : ℕ) → IsEqualityOf node.now id k → k < length marks.old }
    requires few { id + 2 < 2 ^ 32 }
    ensures { Marks (IsEqualityOf node.now id) marks.old marks.new }
{
    if let Node::IteField(_, a, b) = node {
        let second = second_equality(id, *a, *b);
        marks.set(id + 1);
        marks.set(second);
    }
}

// Marks what a node adds.
fn visit(marks: &mut MarkSet, id: NodeId, node: &Node)
    requires within { (k : ℕ) → IsBroughtBy node.now id k → k < length marks.old }
    requires few { id + 2 < 2 ^ 32 }
    ensures { Marks (IsBroughtBy node.now id) marks.old marks.new }
{
    mark_children(marks, node);
    mark_equalities(marks, id, node);
}

// Marks the nodes of the check over these ones. Children have lower numbers, and an equality after an `ite` adds only the
// `ite` and one of its children, so it is enough to look at each marked number once, from the highest on.
fn mark_nodes(table: &NodeTable, ids: &[NodeId], marks: &mut MarkSet)
    requires within { All (λ id. id < length table.now) ids.now }
    requires clear { marks.old ≡ replicate (length table.now) false }
    ensures marking { IsMarking table.now ids.now marks.new 0 }
    ensures valid { IsTable table.now }
{
    mark_all(marks, ids);
    let mut end = table.len();
    while let Some(id) = marks.last_below(end) {
        visit(marks, id, table.node(id));
        end = id;
    }
}

// The marked numbers below `bound`, in increasing order.
fn marked(alloc: Global, marks: &MarkSet, bound: u32) -> Result<Vec<NodeId>, AllocError>
    requires { length marks.now ≡ bound }
    ensures { IfOk result (λ v. AreMarkedFrom marks.now 0 v.items) }
{
    let mut found = Vec::new(alloc);
    let mut end = bound;
    while let Some(id) = marks.last_below(end) {
        found.push(id)?;
        end = id;
    }
    found.reverse();
    Ok(found)
}

// The constants among these nodes, in the same order.
fn constants_among(table: &NodeTable, nodes: &[NodeId]) -> Result<Vec<NodeId>, AllocError>
    requires { All (λ id. id < length table.now) nodes.now }
    ensures { IfOk result (λ v. v.items ≡ filter (λ id. is_constant (node_at table.now id)) nodes.now) }
{
    let mut constants = Vec::new(table.alloc);
    for id in nodes {
        if table.node(*id).is_constant() {
            constants.push(*id)?;
        }
    }
    Ok(constants)
}

// How many assignments the constants among these nodes have.
fn span_among(table: &NodeTable, nodes: &[NodeId]) -> u128
    requires { All (λ id. id < length table.now) nodes.now }
    ensures { result ≡ min (span_of table.now nodes.now) (2 ^ 64) }
{
    let mut span = 1;
    for id in nodes {
        span = LARGEST.min(span * u128::from(table.node(*id).value_count()));
    }
    span
}

impl NodeTable {
    /// The nodes of the check over these ones, in increasing order. It costs the nodes that it gives and their children,
    /// and two passes over one bit a node of the table, 64 at a time.
    pub fn nodes_of(&self, ids: &[NodeId]) -> Result<Vec<NodeId>, AllocError>
        requires { All (λ id. id < length self.now) ids.now }
        ensures nodes { IfOk result (λ v. AreNodesOf self.now ids.now v.items) }
        ensures closed { IfOk result (λ v. IsClosed self.now v.items) }
    {
        let mut marks = MarkSet::none(self.alloc, self.len())?;
        mark_nodes(self, ids, &mut marks);
        marked(self.alloc, &marks, self.len())
    }

    /// The constants among the nodes of the check over these ones, in increasing order.
    pub fn constants_of(&self, ids: &[NodeId]) -> Result<Vec<NodeId>, AllocError>
        requires { All (λ id. id < length self.now) ids.now }
        ensures { IfOk result (λ v. AreConstantsOf self.now ids.now v.items) }
    {
        let nodes = self.nodes_of(ids)?;
        constants_among(self, &nodes)
    }

    /// What the check over these nodes measures.
    pub fn measures(&self, ids: &[NodeId]) -> Result<Measures, AllocError>
        requires { All (λ id. id < length self.now) ids.now }
        ensures { IfOk result (λ m. AreMeasuresOf self.now ids.now m.span m.work) }
    {
        let nodes = self.nodes_of(ids)?;
        let span = span_among(self, &nodes);
        let work = LARGEST.min(span * nodes.len() as u128);
        Ok(Measures { span, work })
    }
}
