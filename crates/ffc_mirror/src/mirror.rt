//! The nodes of the active list of a check in a table of their own.
ghost use Rattle.std.specs.Prelude.{◌≡◌, ◌<◌, length, All, IfOk, IfSome};
ghost use Rattle.ffc_term.specs.Checks.{IsCheck};
ghost use Rattle.ffc_term.specs.Tables.{IsBooleanAt};

use crate::copying::{copied, number_in};
use crate::counted::Counted;
use crate::outside::{Inside, Outside};
use ffc_term::fitting::are_boolean;
use ffc_term::{Check, Node, NodeId, NodeTable};
use std::alloc::{AllocError, Global};

/// Where a part of the active list ends: how many assertions and how many nodes there are up to there.
#[derive(Clone, Copy)]
struct Mark {
    active: usize,
    nodes: u32,
}

/// Copies of the nodes of a check's active list, numbered as they came: those of what this check has in common with the one before
/// come first.
#[derive(Drop)]
pub struct Mirror {
    alloc: Global,
    copies: Counted,
    /// Of each node of the check's table the number of its copy, if it has one.
    own: Vec<Option<NodeId>>,
    /// Of each copy the node that it is a copy of.
    theirs: Vec<NodeId>,
    /// The active list, and the same by copies.
    theirs_active: Vec<NodeId>,
    own_active: Vec<NodeId>,
    /// The parts in which the active list came.
    marks: Vec<Mark>,
}

/// How many of the first numbers of two lists are the same.
fn common(a: &[NodeId], b: &[NodeId]) -> usize {
    let mut count = 0usize;
    for (x, y) in a.iter().zip(b) {
        if x != y {
            break;
        }
        count = count.saturating_add(1);
    }
    count
}

impl Mirror {
    /// The copies of no nodes.
    pub fn new(alloc: Global) -> Result<Mirror, AllocError> {
        Ok(Mirror {
            alloc,
            copies: Counted::new(alloc)?,
            own: Vec::new(alloc),
            theirs: Vec::new(alloc),
            theirs_active: Vec::new(alloc),
            own_active: Vec::new(alloc),
            marks: Vec::new(alloc),
        })
    }

    /// Drops the copies from this number on. Whether it did.
    fn cut(&mut self, nodes: u32) -> bool {
        if !self.copies.cut(nodes) {
            return false;
        }
        for _ in 0..u64::MAX {
            if self.theirs.len() <= nodes as usize {
                break;
            }
            if let Some(id) = self.theirs.pop() {
                if let Some(number) = self.own.get_mut(id as usize) {
                    *number = None;
                }
            }
        }
        true
    }

    /// Drops all but the parts of the active list that are within its first assertions, so many. How many are left.
    fn keep(&mut self, active: usize) -> Result<Mark, AllocError> {
        for _ in 0..u64::MAX {
            match self.marks.last() {
                Some(mark) if mark.active > active => {
                    let _ = self.marks.pop();
                }
                _ => break,
            }
        }
        let mark = match self.marks.last() {
            Some(mark) => *mark,
            None => Mark {
                active: 0,
                nodes: 0,
            },
        };
        if !self.cut(mark.nodes) {
            *self = Mirror::new(self.alloc)?;
            return Ok(Mark {
                active: 0,
                nodes: 0,
            });
        }
        self.theirs_active.truncate(mark.active);
        self.own_active.truncate(mark.active);
        Ok(mark)
    }

    /// Says that a copy is that of a node.
    fn link(&mut self, id: NodeId, copy: NodeId) -> Result<(), AllocError> {
        let count = (copy as usize).saturating_add(1);
        if self.theirs.len() < count {
            self.theirs.resize(count, id)?;
        }
        if let Some(node) = self.theirs.get_mut(copy as usize) {
            *node = id;
        }
        if let Some(number) = self.own.get_mut(id as usize) {
            *number = Some(copy);
        }
        Ok(())
    }

    /// Copies a node whose children are copied. Whether it did.
    fn copy(&mut self, table: &NodeTable, id: NodeId) -> Result<bool, AllocError>
        requires { id < length table.now }
    {
        if number_in(self.own.as_slice(), id).is_some() {
            return Ok(true);
        }
        let put = match table.node(id) {
            Node::BoolConst(_) => self.copies.put_constant(None)?,
            Node::FieldConst(_, order) => self.copies.put_constant(Some(*order))?,
            node => match copied(self.alloc, self.own.as_slice(), node)? {
                Some(node) => self.copies.put(node)?,
                None => None,
            },
        };
        match put {
            Some(copy) => {
                self.link(id, copy)?;
                Ok(true)
            }
            None => Ok(false),
        }
    }

    /// Copies nodes in increasing order.
    fn copy_all(&mut self, table: &NodeTable, nodes: &[NodeId]) -> Result<bool, AllocError>
        requires { All (λ id. id < length table.now) nodes.now }
    {
        for id in nodes {
            if !self.copy(table, *id)? {
                return Ok(false);
            }
        }
        Ok(true)
    }

    /// Appends a part of the active list with its nodes.
    fn append(&mut self, table: &NodeTable, active: &[NodeId]) -> Result<bool, AllocError>
        requires { All (λ id. id < length table.now) active.now }
    {
        if active.is_empty() {
            return Ok(true);
        }
        let nodes = table.nodes_of(active)?;
        if !self.copy_all(table, nodes.as_slice())? {
            return Ok(false);
        }
        for id in active {
            let Some(copy) = number_in(self.own.as_slice(), *id) else {
                return Ok(false);
            };
            self.theirs_active.push(*id)?;
            self.own_active.push(copy)?;
        }
        self.marks.push(Mark {
            active: self.own_active.len(),
            nodes: self.copies.table().len(),
        })?;
        Ok(true)
    }

    /// Goes over to the active list of a check.
    fn go_over(&mut self, check: &Check) -> Result<bool, AllocError>
        requires { IsCheck check.now }
    {
        if (check.table.len() as usize) < self.own.len() {
            *self = Mirror::new(self.alloc)?;
        }
        self.own.resize(check.table.len() as usize, None)?;
        let common = common(self.theirs_active.as_slice(), check.in_force);
        let kept = self.keep(common)?;
        self.own.resize(check.table.len() as usize, None)?;
        let (before, new) = check.in_force.split_at(common.min(check.in_force.len()));
        let (_, again) = before.split_at(kept.active.min(before.len()));
        Ok(self.append(check.table, again)? && self.append(check.table, new)?)
    }

    /// Follows to the next check: the nodes of what its active list has in common with that of the check before stay. Where it does
    /// not succeed, the next one begins anew; so it does where the table is shorter than before. It costs what is new, the nodes of
    /// the new part of the list and the list itself.
    pub fn follow(&mut self, check: &Check) -> Result<bool, AllocError>
        requires { IsCheck check.now }
    {
        match self.go_over(check) {
            Ok(true) => Ok(true),
            Ok(false) => {
                *self = Mirror::new(self.alloc)?;
                Ok(false)
            }
            Err(stop) => {
                self.marks.clear();
                Err(stop)
            }
        }
    }
}

impl Mirror {
    /// The table of the copies.
    pub fn table(&self) -> &NodeTable
        ensures { result.now ≡ self.now.copies }
    {
        self.copies.table()
    }

    /// The nodes that have copies.
    pub fn nodes(&self) -> &[NodeId] {
        self.theirs.as_slice()
    }

    /// The copies of the active list, where all are Boolean.
    pub fn active(&self) -> Option<&[NodeId]>
        ensures { IfSome result (λ ids. All (IsBooleanAt self.now.copies) ids.now) }
    {
        let active = self.own_active.as_slice();
        if are_boolean(self.copies.table(), active) {
            Some(active)
        } else {
            None
        }
    }

    /// What the copies are called in the table of the check, which has so many nodes.
    pub fn outside(&self, nodes: u32) -> Outside<'_> {
        Outside {
            theirs: self.theirs.as_slice(),
            copies: self.copies.table().len(),
            nodes,
        }
    }

    /// What nodes of the table of the check are called here, where variables from a number on are inverses.
    pub fn inside(&self, first_inverse: u32) -> Inside<'_> {
        Inside {
            own: self.own.as_slice(),
            copies: self.copies.table().len(),
            first_inverse,
        }
    }

    /// The constants among the copies, in increasing order.
    pub fn constants(&self) -> Result<Vec<NodeId>, AllocError> {
        let table = self.copies.table();
        let mut constants = Vec::new(self.alloc);
        for id in 0..table.len() {
            if table.node(id).is_constant() {
                constants.push(id)?;
            }
        }
        Ok(constants)
    }
}
