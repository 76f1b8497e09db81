//! Nodes by number, each once, with what is kept of each.
ghost use Rattle.std.specs.Prelude.{◌≡◌, ℕ, ◌+◌, ◌<◌, ◌≤◌, ◌↔◌, ◌⊎◌, List, [], ◌++◌, length, take, map, Contains, IfOk};
ghost use Rattle.std.specs.Prelude.{OnErr, IfSome, IfNone, IsErrOf, IsOkUnless, MatchBool, ◌∷◌};
ghost use Rattle.ffc_term.specs.Nodes.{IsNodeAt, sort_at, sort_of_node};
ghost use Rattle.ffc_term.specs.Tables.{Fits, IsNumbered, IsWellFormed, IsInterned, IsIteInterned, ite_nodes};
ghost use Rattle.ffc_term.specs.Tables.{most_nodes};
ghost use Rattle.ffc_term.specs.Measuring.{degree_at, length_at};
ghost use Rattle.ffc_term.specs.Keeping.{capped};
ghost use Rattle.ffc_term.specs.declared.node.Node.TheVariants as node_is;

use crate::kept::Kept;
use crate::node::{Node, NodeId, Sort};
use crate::table::TermStop;
use indexmap::IndexSet;
use std::alloc::Global;
use std::marker::Model;

/// How many nodes a table may have.
pub const MOST_NODES: u32 = 1_048_576;

/// Nodes in the order in which they are interned, each fitting those before it.
#[derive(Debug, Drop)]
pub struct Store {
    nodes: IndexSet<Node>,
    kept: Vec<Kept>,
}

// How many nodes an `ite` of field sort with these branches adds.
fn ite_size(a: NodeId, b: NodeId) -> u32
    ensures size { (t c : ℕ) → result ≡ length (ite_nodes t c a b) }
    ensures few { result ≤ 3 }
{
    if a == b { 2 } else { 3 }
}

// Puts a node after the others where it is not there, and says under which number it is then, and whether it is new.
fn insert(nodes: &mut IndexSet<Node>, node: Node) -> Result<(usize, bool), TermStop>
    ensures put { IfOk result (λ r. IsInterned nodes.old.keys nodes.new.keys node r.0) }
    ensures new { IfOk result
        (λ r. MatchBool r.1 (¬ (Contains nodes.old.keys node) × (nodes.new.keys ≡ nodes.old.keys ++ node ∷ []))
        (nodes.new.keys ≡ nodes.old.keys)) }
    ensures err { OnErr result (nodes.new.keys ≡ nodes.old.keys) }
    ensures memory { IsOkUnless result TermStop.Memory }
{
    Ok(nodes.insert_full(node)?)
}

impl Model for Store {
    ghost use Rattle.std.specs.Prelude.{List};
    ghost use Rattle.ffc_term.specs.declared.node.Node.{Node as TableNode};
    ghost use Rattle.ffc_term.specs.Tables.{IsWellFormed};
    ghost use Rattle.ffc_term.specs.Keeping.{AreKept};

    ghost Value = { List TableNode };

    ghost view = { λ s. s.nodes.keys };

    ghost invariant = { λ s. IsWellFormed s.nodes.keys × AreKept s.nodes.keys s.kept.items };
}

impl Store {
    pub fn new(alloc: Global) -> Self
        ensures { result ≡ [] }
    {
        Store {
            nodes: IndexSet::new(alloc),
            kept: Vec::new(alloc),
        }
    }

    pub fn len(&self) -> u32
        ensures count { result ≡ length self.now }
        ensures valid { IsWellFormed self.now }
    {
        self.nodes.len() as u32
    }

    pub fn node(&self, id: NodeId) -> &Node
        requires { id < length self.now }
        ensures at { IsNodeAt self.now id result.now }
        ensures valid { IsWellFormed self.now }
    {
        &self.nodes.as_slice()[id as usize]
    }

    pub fn sort(&self, id: NodeId) -> Sort
        requires { id < length self.now }
        ensures value { result ≡ sort_at self.now id }
        ensures valid { IsWellFormed self.now }
    {
        self.kept[id as usize].sort
    }

    pub fn degree(&self, id: NodeId) -> u64
        requires { id < length self.now }
        ensures { result ≡ capped (degree_at self.now id) }
    {
        self.kept[id as usize].degree
    }

    pub fn length(&self, id: NodeId) -> u64
        requires { id < length self.now }
        ensures { result ≡ capped (length_at self.now id) }
    {
        self.kept[id as usize].length
    }

    // The number of the node that is equal to this one.
    fn find(&self, node: &Node) -> Option<NodeId>
        ensures found { IfSome result (λ id. IsNodeAt self.now id node.now) }
        ensures none { IfNone result (¬ (Contains self.now node.now)) }
    {
        let at = self.nodes.get_index_of(node)?;
        Some(at as NodeId)
    }

    /// The number of the equal node, or the next number, under which this one is then put.
    pub fn put(&mut self, node: Node) -> Result<NodeId, TermStop>
        requires fits { Fits self.old node }
        requires numbered { Contains self.old node ⊎ IsNumbered self.old node }
        ensures ok { IfOk result (IsInterned self.old self.new node) }
        ensures full { IsErrOf result TermStop.Nodes ↔ (¬ (Contains self.old node) × (length self.old ≡ most_nodes)) }
        ensures err { OnErr result (self.new ≡ self.old) }
    {
        if self.len() == MOST_NODES {
            return self.find(&node).ok_or(TermStop::Nodes);
        }
        self.kept.reserve(1)?;
        let (at, added) = insert(&mut self.nodes, node)?;
        if added {
            Kept::keep(&self.nodes.as_slice()[at], &mut self.kept);
        }
        Ok(at as NodeId)
    }

    /// The same for an `ite` of field sort with its equalities with its branches.
    pub fn put_ite(&mut self, c: NodeId, a: NodeId, b: NodeId) -> Result<NodeId, TermStop>
        requires { Fits self.old (node_is.IteField c a b) }
        ensures ok { IfOk result (IsIteInterned self.old self.new c a b) }
        ensures full { IsErrOf result TermStop.Nodes
            ↔ (¬ (Contains self.old (node_is.IteField c a b))
            × (most_nodes < length self.old + length (ite_nodes (length self.old) c a b))) }
        ensures err { OnErr result (self.new ≡ self.old) }
    {
        if let Some(id) = self.find(&Node::IteField(c, a, b)) {
            return Ok(id);
        }
        let before = self.len();
        if before > MOST_NODES - ite_size(a, b) {
            return Err(TermStop::Nodes);
        }
        match self.put_new_ite(c, a, b) {
            Ok(id) => Ok(id),
            Err(stop) => {
                self.cut(before);
                Err(stop)
            }
        }
    }

    // Puts an `ite` of field sort that is not there, and its equalities. After a refusal some of them may be after the
    // others.
    fn put_new_ite(&mut self, c: NodeId, a: NodeId, b: NodeId) -> Result<NodeId, TermStop>
        requires valid { IsWellFormed self.old }
        requires fits { Fits self.old (node_is.IteField c a b) }
        requires new { ¬ (Contains self.old (node_is.IteField c a b)) }
        requires room { length self.old + length (ite_nodes (length self.old) c a b) ≤ most_nodes }
        ensures ok { IfOk result (λ id. (self.new ≡ self.old ++ ite_nodes id c a b) × (id ≡ length self.old)) }
        ensures front { take (length self.old) self.new ≡ self.old }
        ensures memory { IsOkUnless result TermStop.Memory }
    {
        let id = self.put(Node::IteField(c, a, b))?;
        self.put(Node::Eq(id, a))?;
        if a == b {
            return Ok(id);
        }
        self.put(Node::Eq(id, b))?;
        Ok(id)
    }

    /// Keeps the nodes before this number. It takes no memory.
    pub fn cut(&mut self, len: u32)
        ensures { self.new ≡ take len self.old }
    {
        self.nodes.truncate(len as usize);
        self.kept.truncate(len as usize);
    }
}
