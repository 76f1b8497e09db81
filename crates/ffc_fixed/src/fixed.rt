//! Values of nodes by the equalities of a trail, one equality after another.
use crate::arithmetic::{inverse, negative, product, sum};
use crate::explaining::{Clash, Tracing};
use crate::known::{Known, Reason, Values, order_of};
use crate::users::{Users, children};
use ffc_cdcl::Lit;
use ffc_circuit::sides;
use ffc_term::{Node, NodeId, NodeTable};
use std::alloc::{AllocError, Global};

/// An equality that was added, with how many values there were before, and how many of them were looked at.
#[derive(Clone, Copy)]
struct Added {
    equality: NodeId,
    values: usize,
    looked: usize,
}

/// What the equalities so far fix.
#[derive(Drop)]
pub struct Fixed<'a> {
    alloc: Global,
    table: &'a NodeTable,
    users: Users,
    values: Values,
    /// How many children of each node were not looked at with a value.
    open: Vec<u32>,
    /// Whether each equality that was added holds.
    truths: Vec<Option<bool>>,
    /// The equalities that were added.
    added: Vec<Added>,
    /// How many of the values were looked at.
    looked: usize,
    tracing: Tracing,
}

/// What is known of a list of children.
#[derive(Clone, Copy)]
struct Partial {
    /// The sum or the product of those that have values.
    known: u64,
    /// The only child that has none, with its weight in a sum.
    missing: Option<(NodeId, u64)>,
    /// Whether there are others.
    more: bool,
}

impl Partial {
    /// Notes a child without a value.
    fn miss(&mut self, id: NodeId, weight: u64, p: u64) {
        self.missing = match self.missing {
            None => Some((id, weight)),
            Some((other, before)) => {
                self.more = self.more || other != id;
                Some((other, sum(before, weight, p)))
            }
        };
    }
}

impl<'a> Fixed<'a> {
    /// No equalities.
    pub fn new(alloc: Global, table: &'a NodeTable) -> Result<Fixed<'a>, AllocError> {
        let mut open = Vec::new(alloc);
        for id in 0..table.len() {
            let mut count = 0u32;
            for child in children(table, id) {
                if *child >= table.len() || !matches!(table.node(*child), Node::Num(..)) {
                    count = count.saturating_add(1);
                }
            }
            open.push(count)?;
        }
        Ok(Fixed {
            alloc,
            table,
            users: Users::of(alloc, table)?,
            values: Values::of(alloc, table)?,
            open,
            truths: vec![in alloc; None; table.len() as usize]?,
            added: Vec::new(alloc),
            looked: 0,
            tracing: Tracing::new(alloc, table.len())?,
        })
    }

    /// How many equalities were added.
    pub fn len(&self) -> usize {
        self.added.len()
    }

    /// Forgets all equalities but the first so many. It costs what the others fixed.
    pub fn keep(&mut self, count: usize) {
        let Some(first) = self.added.get(count).copied() else {
            return;
        };
        for place in count..self.added.len() {
            self.forget_truth(place);
        }
        self.added.truncate(count);
        for place in first.looked..self.looked {
            if let Some(id) = self.values.at(place) {
                self.reopen_users(id);
            }
        }
        self.looked = self.looked.min(first.looked);
        self.values.keep(first.values);
    }

    /// Forgets whether the equality holds that was added at a place.
    fn forget_truth(&mut self, place: usize) {
        let Some(added) = self.added.get(place).copied() else {
            return;
        };
        if let Some(truth) = self.truths.get_mut(added.equality as usize) {
            *truth = None;
        }
    }

    /// Counts a node again for those that use it.
    fn reopen_users(&mut self, id: NodeId) {
        for user in self.users.of_node(id) {
            if let Some(open) = self.open.get_mut(*user as usize) {
                *open = open.saturating_add(1);
            }
        }
    }

    /// Adds an equality of field nodes, which holds or does not. Where values clash now, these equalities do not go together.
    pub fn add(&mut self, equality: Lit) -> Result<Option<Vec<Lit>>, AllocError> {
        self.added.push(Added {
            equality: equality.node,
            values: self.values.len(),
            looked: self.looked,
        })?;
        if let Some(truth) = self.truths.get_mut(equality.node as usize) {
            *truth = Some(equality.positive);
        }
        let mut clash = self.look_at_equality(equality.node)?;
        // Each node gets a value once at most.
        for _ in 0..=self.table.len() {
            if let Some(clash) = clash {
                self.tracing.trace(self.table, &self.values, clash)?;
                return Ok(Some(self.tracing.found(self.alloc)?));
            }
            let Some(id) = self.values.at(self.looked) else {
                break;
            };
            self.looked = self.looked.saturating_add(1);
            clash = self.look_around(id)?;
        }
        Ok(None)
    }

    /// Looks at what the value of a node fixes.
    fn look_around(&mut self, id: NodeId) -> Result<Option<Clash>, AllocError> {
        for place in 0..self.users.of_node(id).len() {
            let Some(user) = self.users.of_node(id).get(place).copied() else {
                break;
            };
            if let Some(open) = self.open.get_mut(user as usize) {
                *open = open.saturating_sub(1);
            }
        }
        for place in 0..self.users.of_node(id).len() {
            let Some(user) = self.users.of_node(id).get(place).copied() else {
                break;
            };
            if let Some(clash) = self.look_at(user, id)? {
                return Ok(Some(clash));
            }
        }
        self.look_at(id, id)
    }

    /// Looks at a node, of which a child or the node itself got a value.
    fn look_at(&mut self, id: NodeId, by: NodeId) -> Result<Option<Clash>, AllocError> {
        let table = self.table;
        if id >= table.len() {
            return Ok(None);
        }
        match table.node(id) {
            Node::Eq(..) => self.look_at_equality(id),
            Node::Add(ids) => self.look_at_sum(id, ids.as_slice(), 1, 1),
            Node::Bitsum(ids) => self.look_at_sum(id, ids.as_slice(), 1, 2),
            Node::Neg(a) => {
                let minus = negative(1, order_of(table, id));
                self.look_at_sum(id, &[*a], minus, 1)
            }
            Node::Mul(ids) => {
                if by != id && self.values.value(by) == Some(0) {
                    return self.fix(id, 0, Reason::Zero(by));
                }
                self.look_at_product(id, ids.as_slice())
            }
            _ => Ok(None),
        }
    }

    /// Gives a node a value, unless it has one, which may be another.
    fn fix(&mut self, id: NodeId, value: u64, reason: Reason) -> Result<Option<Clash>, AllocError> {
        match self.values.value(id) {
            Some(before) if before == value => Ok(None),
            Some(_) => Ok(Some(Clash::Values(id, reason))),
            None => {
                self.values.set(id, Known { value, reason })?;
                Ok(None)
            }
        }
    }

    /// Looks at the sides of an equality, where it was added.
    fn look_at_equality(&mut self, id: NodeId) -> Result<Option<Clash>, AllocError> {
        let Some((a, b)) = sides(self.table, id) else {
            return Ok(None);
        };
        let Some(Some(holds)) = self.truths.get(id as usize).copied() else {
            return Ok(None);
        };
        match (self.values.value(a), self.values.value(b)) {
            (Some(left), Some(right)) if (left == right) != holds => {
                Ok(Some(Clash::Equality(Lit {
                    node: id,
                    positive: holds,
                })))
            }
            (Some(value), None) if holds => self.fix(b, value, Reason::Equality(id)),
            (None, Some(value)) if holds => self.fix(a, value, Reason::Equality(id)),
            _ => Ok(None),
        }
    }

    /// Whether at most one child of a node has no value that was looked at.
    fn is_nearly_known(&self, id: NodeId) -> bool {
        match self.open.get(id as usize) {
            Some(open) => *open <= 1,
            None => false,
        }
    }

    /// Looks at a sum, whose first child has this weight and each further one so many times the weight before.
    fn look_at_sum(
        &mut self,
        id: NodeId,
        ids: &[NodeId],
        first: u64,
        ratio: u64,
    ) -> Result<Option<Clash>, AllocError> {
        if !self.is_nearly_known(id) {
            return Ok(None);
        }
        let p = order_of(self.table, id);
        let mut partial = Partial {
            known: 0,
            missing: None,
            more: false,
        };
        let mut weight = first;
        for child in ids {
            match self.values.value(*child) {
                Some(value) => partial.known = sum(partial.known, product(weight, value, p), p),
                None => partial.miss(*child, weight, p),
            }
            weight = product(weight, ratio, p);
        }
        if partial.more {
            return Ok(None);
        }
        let Some((child, weight)) = partial.missing else {
            return self.fix(id, partial.known, Reason::Children);
        };
        match self.values.value(id) {
            Some(value) if weight != 0 => {
                let rest = sum(value, negative(partial.known, p), p);
                let value = product(rest, inverse(weight, p), p);
                self.fix(child, value, Reason::Parent(id))
            }
            _ => Ok(None),
        }
    }

    /// Looks at a product.
    fn look_at_product(&mut self, id: NodeId, ids: &[NodeId]) -> Result<Option<Clash>, AllocError> {
        if !self.is_nearly_known(id) {
            return Ok(None);
        }
        let p = order_of(self.table, id);
        let mut known = 1;
        let mut missing = None;
        for child in ids {
            match (self.values.value(*child), missing) {
                (Some(value), _) => known = product(known, value, p),
                (None, None) => missing = Some(*child),
                (None, Some(_)) => return Ok(None),
            }
        }
        let Some(child) = missing else {
            return self.fix(id, known, Reason::Children);
        };
        match self.values.value(id) {
            Some(value) if known != 0 => {
                let value = product(value, inverse(known, p), p);
                self.fix(child, value, Reason::Parent(id))
            }
            _ => Ok(None),
        }
    }
}
