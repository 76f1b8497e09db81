//! A table with the count of its constants.
ghost use Rattle.std.specs.Prelude.{◌≡◌, ◌+◌, ◌-◌, ◌<◌, ◌≤◌, ◌^◌, IsTrue, length};
ghost use Rattle.ffc_mirror.specs.Cutting.{EndsBefore};
ghost use Rattle.ffc_term.specs.Tables.{CanCut};

use ffc_term::fitting::{count_constants, fits, is_plain};
use ffc_term::{Node, NodeId, NodeTable, TermStop};
use std::alloc::{AllocError, Global};
use std::marker::Model;

/// A table of nodes that are put one after another, and how many of them are constants.
#[derive(Drop)]
pub(crate) struct Counted {
    table: NodeTable,
    constants: u32,
}

impl Model for Counted {
    ghost use Rattle.std.specs.Prelude.{◌≡◌, List};
    ghost use Rattle.ffc_term.specs.declared.node.Node.{Node as TableNode};
    ghost use Rattle.ffc_term.specs.Tables.{constant_count};

    ghost Value = { List TableNode };

    ghost view = { λ c. c.table };

    ghost invariant = { λ c. c.constants ≡ constant_count c.table };
}

/// The number of a node that was put; none where the table is full.
fn number_of(put: Result<NodeId, TermStop>) -> Result<Option<NodeId>, AllocError> {
    match put {
        Ok(id) => Ok(Some(id)),
        Err(TermStop::Nodes) => Ok(None),
        Err(TermStop::Memory) => Err(AllocError),
    }
}

impl Counted {
    /// The table without nodes.
    pub(crate) fn new(alloc: Global) -> Result<Counted, AllocError> {
        Ok(Counted {
            table: NodeTable::new(alloc)?,
            constants: 0,
        })
    }

    pub(crate) fn table(&self) -> &NodeTable
        ensures { result.now ≡ self.now }
    {
        &self.table
    }

    /// The number of a node that is no constant, which is put after the others where it is not there. None where it does not fit.
    pub(crate) fn put(&mut self, node: Node) -> Result<Option<NodeId>, AllocError> {
        if node.is_constant() || !fits(&self.table, &node) {
            return Ok(None);
        }
        if let Node::IteField(c, a, b) = node {
            return number_of(self.table.ite_field(c, a, b));
        }
        if !is_plain(&node) {
            return Ok(None);
        }
        number_of(self.table.intern(node))
    }

    /// The number of a new constant, of the field of this order if there is one. None where it does not fit.
    pub(crate) fn put_constant(
        &mut self,
        order: Option<u64>,
    ) -> Result<Option<NodeId>, AllocError> {
        let node = match order {
            None => Node::BoolConst(self.constants),
            Some(order) => Node::FieldConst(self.constants, order),
        };
        let Some(next) = self.constants.checked_add(1) else {
            return Ok(None);
        };
        if !fits(&self.table, &node) {
            return Ok(None);
        }
        let before = self.table.len();
        let put = self.table.intern(node);
        if self.table.len() > before {
            self.constants = next;
        }
        number_of(put)
    }

    /// Drops the nodes from this number on, where no `ite` before it has an equality there; else nothing. Whether it did.
    pub(crate) fn cut(&mut self, len: u32) -> bool {
        if !can_cut(&self.table, len) {
            return false;
        }
        self.table.truncate(len);
        self.constants = count_constants(&self.table);
        true
    }
}

/// Whether the equalities of a node with its branches, if it is an `ite` of field sort, come before a number.
fn has_equalities_before(table: &NodeTable, id: NodeId, len: u32) -> bool
    requires within { id < length table.now }
    requires few { id + 2 < 2 ^ 32 }
    ensures { IsTrue result → EndsBefore table.now len id }
{
    match table.node(id) {
        Node::IteField(_, a, b) => {
            let last = if a == b { id + 1 } else { id + 2 };
            last < len
        }
        _ => true,
    }
}

/// Whether the equalities of the node so many before a number come before it.
fn has_room(table: &NodeTable, len: u32, before: u32) -> bool
    requires within { len ≤ length table.now }
    requires some { 0 < before }
    requires few { before ≤ 2 }
    ensures { IsTrue result → before ≤ len → EndsBefore table.now len (len - before) }
{
    if len < before {
        return true;
    }
    let _nodes = table.len();
    has_equalities_before(table, len - before, len)
}

/// Whether the nodes from this number on may be dropped. The equalities of an `ite` of field sort come at most two after it.
fn can_cut(table: &NodeTable, len: u32) -> bool
    ensures { IsTrue result → CanCut table.now len }
{
    if len > table.len() {
        return false;
    }
    if !has_room(table, len, 1) {
        return false;
    }
    has_room(table, len, 2)
}
