//! The table of nodes.
ghost use Rattle.std.specs.Prelude.{◌≡◌, ℕ, ◌+◌, ◌<◌, ◌≤◌, ◌^◌, ◌↔◌, ◌⊎◌, List, [], length, take, Contains, IfOk};
ghost use Rattle.std.specs.Prelude.{OnErr, IsErrOf, min};
ghost use Rattle.ffc_field.specs.Orders.{IsOrder};
ghost use Rattle.ffc_term.specs.Nodes.{IsNodeAt, sort_at, order_at};
ghost use Rattle.ffc_term.specs.Tables.{Fits, IsFieldAt, IsNumbered, IsFieldIte, IsTable, IsInterned, IsIteInterned};
ghost use Rattle.ffc_term.specs.Tables.{CanCut, ite_nodes, most_nodes, second_equality};
ghost use Rattle.ffc_term.specs.Measuring.{degree_at, length_at, measure_cap};
ghost use Rattle.ffc_term.specs.declared.node.Node.TheVariants as node_is;

use crate::node::{Node, NodeId, Sort};
use crate::store::Store;
use std::alloc::{AllocError, AllocFailed, Global};
use std::marker::Model;
use thiserror::Error;

/// Why a node was not made.
#[derive(Clone, Copy, Debug, PartialEq, Eq, Error)]
pub enum TermStop {
    /// The table has as many nodes as it may have.
    #[error("the table of nodes is full")]
    Nodes,
    /// Out of memory.
    #[error("out of memory")]
    Memory,
}

impl From<AllocError> for TermStop {
    ghost use Rattle.ffc_term.specs.declared.table.TermStop.TheVariants.{Memory};

    ghost from_gives = { λ _ e. e ≡ Memory };

    fn from(_error: AllocError) -> TermStop {
        TermStop::Memory
    }
}

impl<T: Drop> From<AllocFailed<T>> for TermStop {
    ghost use Rattle.ffc_term.specs.declared.table.TermStop.TheVariants.{Memory};

    ghost from_gives = { λ _ e. e ≡ Memory };

    fn from(_error: AllocFailed<T>) -> TermStop {
        TermStop::Memory
    }
}

// The number of the equality of an `ite` of field sort with its second branch.
pub(crate) fn second_equality(id: NodeId, a: NodeId, b: NodeId) -> NodeId
    requires { id + 2 < 2 ^ 32 }
    ensures { result ≡ second_equality id a b }
{
    if a == b { id + 1 } else { id + 2 }
}

/// The nodes of the terms of a script, each once, numbered in the order in which they are interned.
///
/// Clauses see it as the list of its nodes.
#[derive(Debug, Drop)]
pub struct NodeTable {
    pub(crate) store: Store,
    pub(crate) alloc: Global,
}

impl Model for NodeTable {
    ghost use Rattle.std.specs.Prelude.{List};
    ghost use Rattle.ffc_term.specs.declared.node.Node.{Node as TableNode};
    ghost use Rattle.ffc_term.specs.Tables.{HasEqualities};

    ghost Value = { List TableNode };

    ghost view = { λ t. t.store };

    ghost invariant = { λ t. HasEqualities t.store };
}

impl NodeTable {
    /// A table without nodes.
    pub fn new(alloc: Global) -> Result<NodeTable, AllocError>
        ensures { IfOk result (λ t. t ≡ []) }
    {
        Ok(NodeTable {
            store: Store::new(alloc),
            alloc,
        })
    }

    /// How many nodes it has.
    pub fn len(&self) -> u32
        ensures count { result ≡ length self.now }
        ensures valid { IsTable self.now }
    {
        self.store.len()
    }

    /// The node of this number.
    pub fn node(&self, id: NodeId) -> &Node
        requires { id < length self.now }
        ensures at { IsNodeAt self.now id result.now }
        ensures valid { IsTable self.now }
    {
        self.store.node(id)
    }

    /// The sort of the node of this number.
    pub fn sort_of(&self, id: NodeId) -> Sort
        requires { id < length self.now }
        ensures { result ≡ sort_at self.now id }
    {
        self.store.sort(id)
    }

    /// The order of the field that the node of this number belongs to.
    pub fn order_of(&self, id: NodeId) -> u64
        requires { (p : ℕ) × IsFieldAt self.now p id }
        ensures value { result ≡ order_at self.now id }
        ensures known { IsOrder result }
    {
        self.store.sort(id).order()
    }

    /// The degree that the polynomial of a field node has at most, or 2^32 where that is greater; of an equality, the
    /// greater of its sides'.
    pub fn degree(&self, id: NodeId) -> u64
        requires { id < length self.now }
        ensures { result ≡ min (degree_at self.now id) measure_cap }
    {
        self.store.degree(id)
    }

    /// How many terms the polynomial of a field node has at most, or 2^32 where there may be more; of an equality, the
    /// greater of its sides'.
    pub fn length(&self, id: NodeId) -> u64
        requires { id < length self.now }
        ensures { result ≡ min (length_at self.now id) measure_cap }
    {
        self.store.length(id)
    }

    /// The number of the node that is equal to this one, or the next number, under which it is then put. It costs one
    /// look-up.
    pub fn intern(&mut self, node: Node) -> Result<NodeId, TermStop>
        requires fits { Fits self.old node }
        requires plain { ¬ (IsFieldIte node) }
        requires numbered { Contains self.old node ⊎ IsNumbered self.old node }
        ensures ok { IfOk result (IsInterned self.old self.new node) }
        ensures full { IsErrOf result TermStop.Nodes ↔ (¬ (Contains self.old node) × (length self.old ≡ most_nodes)) }
        ensures err { OnErr result (self.new ≡ self.old) }
    {
        self.store.put(node)
    }

    /// The number of the `ite` of field sort; where it is new, its equalities with `a` and `b` are put after it.
    pub fn ite_field(&mut self, c: NodeId, a: NodeId, b: NodeId) -> Result<NodeId, TermStop>
        requires { Fits self.old (node_is.IteField c a b) }
        ensures ok { IfOk result (IsIteInterned self.old self.new c a b) }
        ensures full { IsErrOf result TermStop.Nodes
            ↔ (¬ (Contains self.old (node_is.IteField c a b))
            × (most_nodes < length self.old + length (ite_nodes (length self.old) c a b))) }
        ensures err { OnErr result (self.new ≡ self.old) }
    {
        self.store.put_ite(c, a, b)
    }

    /// Drops the nodes from this number on. It takes no memory.
    pub fn truncate(&mut self, len: u32)
        requires { CanCut self.old len }
        ensures { self.new ≡ take len self.old }
    {
        self.store.cut(len);
    }

    /// The numbers of the equalities of an `ite` of field sort with its two branches.
    pub fn branches(&self, id: NodeId) -> (NodeId, NodeId)
        requires { (c a b : ℕ) × IsNodeAt self.now id (node_is.IteField c a b) }
        ensures first { (c a b : ℕ) → IsNodeAt self.now id (node_is.IteField c a b) → IsNodeAt self.now result.0
            (node_is.Eq id a) }
        ensures second { (c a b : ℕ) → IsNodeAt self.now id (node_is.IteField c a b) → IsNodeAt self.now result.1
            (node_is.Eq id b) }
    {
        match self.node(id) {
            Node::IteField(_, a, b) => (id + 1, second_equality(id, *a, *b)),
            _ => unreachable!(),
        }
    }
}
