//! The congruence closure of the equalities of a trail: which nodes are equal by them, and why (Downey, Sethi and Tarjan 1980).
//! Whatever an equality leads to is noted behind what was noted before, so that the last equalities can be taken away.
use crate::clash::{Clash, Unequal};
use crate::classes::{Classes, Edge, Time};
use crate::cofactors::Unlike;
use crate::index::{Index, Solved};
use crate::nodes::children;
use crate::queue::Queue;
use crate::users::Users;
use ffc_term::{Node, NodeId, NodeTable, Sort};
use std::alloc::{AllocError, Global};
use std::collections::BTreeMap;

/// Why the ends of an edge are equal.
#[derive(Clone, Copy)]
pub enum Reason {
    /// They are the sides of this equality.
    Equality(NodeId),
    /// The first end is what this says, and so is the second, by itself or by what another one says.
    Sums(Solved, Option<Solved>),
    /// They are products of equal factors.
    Products,
    /// The first end is a factor of a product that has a value, the second one of another, and the others say the same.
    Quotients(Solved, Solved),
    /// The first end is a factor of a product and the second one of another, or 0, and the other factor is not 0.
    Cofactors(Solved, Option<Solved>, Unlike),
}

/// The value of a class, and since when it has it.
#[derive(Clone, Copy)]
struct Known {
    value: u64,
    since: Time,
}

/// How much there was before an equality was added.
#[derive(Clone, Copy)]
pub struct Mark {
    edges: usize,
    values: usize,
    sums: usize,
    products: usize,
    quotients: usize,
    cofactors: usize,
    active: usize,
    unequal: usize,
    work: usize,
    clash: Option<Clash>,
}

/// The classes so far. Their ids are the nodes of the table, and after these values that no node of it is.
#[derive(Drop)]
pub struct Closure<'a> {
    pub alloc: Global,
    pub table: &'a NodeTable,
    pub classes: Classes,
    /// Of each root the value.
    known: Vec<Option<Known>>,
    users: Users,
    /// Of each edge.
    reasons: Vec<Reason>,
    /// The ids of values, by their orders.
    numbers: BTreeMap<(u64, u64), u32>,
    /// The orders and values of the ids past the table.
    values: Vec<(u64, u64)>,
    /// What sums of classes are, products, and factors of products.
    pub sums: Index,
    pub products: Index,
    pub quotients: Index,
    pub cofactors: Index,
    pub queue: Queue,
    /// The nodes below the equalities, which alone are looked at.
    active: Vec<NodeId>,
    is_active: Vec<bool>,
    pub unequal: Unequal,
    /// How much may still be looked at.
    pub work: usize,
    /// Of each equality.
    pub marks: Vec<Mark>,
    /// What clashes.
    pub clash: Option<Clash>,
}

impl<'a> Closure<'a> {
    /// No equalities.
    pub fn new(alloc: Global, table: &'a NodeTable) -> Result<Closure<'a>, AllocError> {
        let count = table.len() as usize;
        let mut closure = Closure {
            alloc,
            table,
            classes: Classes::new(alloc),
            known: Vec::new(alloc),
            users: Users::of(alloc, table)?,
            reasons: Vec::new(alloc),
            numbers: BTreeMap::new(alloc),
            values: Vec::new(alloc),
            sums: Index::new(alloc),
            products: Index::new(alloc),
            quotients: Index::new(alloc),
            cofactors: Index::new(alloc),
            queue: Queue::new(alloc, count)?,
            active: Vec::new(alloc),
            is_active: vec![in alloc; false; count]?,
            unequal: Unequal::new(alloc),
            work: crate::looking::MORE_WORK,
            marks: Vec::new(alloc),
            clash: None,
        };
        for id in 0..table.len() {
            match table.node(id) {
                Node::Num(value, order) => closure.add_id(id, Some((*order, *value)))?,
                _ => closure.add_id(id, None)?,
            }
        }
        Ok(closure)
    }

    /// Adds an id, alone in its class; of a value with its order and itself.
    fn add_id(&mut self, id: u32, number: Option<(u64, u64)>) -> Result<(), AllocError> {
        let weight = self.users.of_node(id).len() as u64;
        self.classes.add(weight.saturating_add(1))?;
        self.known.push(number.map(|number| Known {
            value: number.1,
            since: 0,
        }))?;
        if let Some(number) = number {
            self.numbers.insert(number, id)?;
        }
        Ok(())
    }

    /// The order of an id's field; 0 where it has none.
    pub fn order_of(&self, id: u32) -> u64 {
        if id < self.table.len() {
            return match self.table.sort_of(id) {
                Sort::Bool => 0,
                Sort::Field(order) => order,
            };
        }
        let place = id.saturating_sub(self.table.len()) as usize;
        match self.values.get(place) {
            Some(number) => number.0,
            None => 0,
        }
    }

    /// The value of an id's class at a time.
    pub fn value_at(&self, id: u32, time: Time) -> Option<u64> {
        let root = self.classes.root_at(id, time);
        match self.known(root) {
            Some(known) if known.since <= time => Some(known.value),
            _ => None,
        }
    }

    /// What an id is from the beginning, where it is a number.
    pub fn value_of(&self, id: u32) -> Option<u64> {
        self.value_at(id, 0)
    }

    /// How many terms an id or an equality has at most.
    pub fn length(&self, id: u32) -> u64 {
        if id < self.table.len() {
            self.table.length(id)
        } else {
            1
        }
    }

    /// The id of a value of an order, if it has one.
    pub fn id_of(&self, order: u64, value: u64) -> Option<u32> {
        self.numbers.get(&(order, value)).copied()
    }

    /// The id of a value of an order.
    pub fn number(&mut self, order: u64, value: u64) -> Result<u32, AllocError> {
        if let Some(id) = self.id_of(order, value) {
            return Ok(id);
        }
        let id = u32::try_from(self.known.len()).unwrap_or(u32::MAX);
        self.values.push((order, value))?;
        self.add_id(id, Some((order, value)))?;
        Ok(id)
    }

    /// Why the ends of an edge are equal.
    pub fn reason(&self, edge: usize) -> Option<Reason> {
        self.reasons.get(edge).copied()
    }

    fn known(&self, root: u32) -> Option<Known> {
        match self.known.get(root as usize) {
            Some(known) => *known,
            None => None,
        }
    }

    fn set_known(&mut self, root: u32, known: Option<Known>) {
        if let Some(place) = self.known.get_mut(root as usize) {
            *place = known;
        }
    }

    /// Whether a node is below the equalities.
    pub fn is_active(&self, id: NodeId) -> bool {
        self.is_active.get(id as usize).copied().unwrap_or(false)
    }

    /// Adds a node to those that are looked at, or takes it away.
    fn set_active(&mut self, id: NodeId, truth: bool) {
        if let Some(is_active) = self.is_active.get_mut(id as usize) {
            *is_active = truth;
        }
    }

    /// Has a node looked at whenever its class or one of its children's changes.
    pub fn activate(&mut self, id: NodeId) -> Result<(), AllocError> {
        self.active.push(id)?;
        self.set_active(id, true);
        Ok(())
    }

    /// Lets a node wait, and those that have it as a child, as far as they are looked at.
    fn want_around(&mut self, id: u32) -> Result<(), AllocError> {
        if self.is_active(id) && !children(self.table, id).is_empty() {
            self.queue.push(id)?;
        }
        for user in self.users.of_node(id) {
            if let Some(true) = self.is_active.get(*user as usize) {
                self.queue.push(*user)?;
            }
        }
        Ok(())
    }

    /// Lets the nodes wait of which a node is a factor, or a term of a factor.
    pub fn want_products(&mut self, id: u32) -> Result<(), AllocError> {
        if self.value_at(id, self.classes.now()).is_some() {
            return Ok(());
        }
        self.want_around(id)?;
        let mut users = Vec::new(self.alloc);
        users.extend_from_slice(self.users.of_node(id))?;
        for user in &users {
            if self.is_active(*user) {
                self.want_around(*user)?;
            }
        }
        Ok(())
    }

    /// Lets the nodes wait that see the class of an edge change which has come to a value: those around its ids so far.
    fn want_kept(&mut self, edge: Edge) -> Result<(), AllocError> {
        let mut id = self.classes.next(edge.gone);
        for _ in 0..self.known.len() {
            self.want_around(id)?;
            if id == edge.kept {
                break;
            }
            id = self.classes.next(id);
        }
        Ok(())
    }

    /// Lets the nodes wait around the ids that an edge has put below another root, and sees which of these are not to be equal
    /// to what is there.
    fn want_gone(&mut self, edge: Edge) -> Result<(), AllocError> {
        let mut id = self.classes.next(edge.kept);
        for _ in 0..self.known.len() {
            self.want_around(id)?;
            for clash in self.unequal.of_id(self.alloc, id)? {
                let (left, right) = clash.ends();
                if self.clash.is_none() && self.classes.root(left) == self.classes.root(right) {
                    self.clash = Some(clash);
                }
            }
            if id == edge.gone {
                break;
            }
            id = self.classes.next(id);
        }
        Ok(())
    }

    /// Gives the class of the root that stays the value of the other one.
    fn merge_values(&mut self, edge: Edge) -> Result<(), AllocError> {
        match (self.known(edge.kept), self.known(edge.gone)) {
            (Some(one), Some(other)) if one.value != other.value => {
                let order = self.order_of(edge.kept);
                let (a, b) = (self.id_of(order, one.value), self.id_of(order, other.value));
                if let (Some(a), Some(b)) = (a, b) {
                    self.clash = Some(Clash::Values(a, b));
                }
                Ok(())
            }
            (None, Some(other)) => {
                let since = self.classes.now();
                let value = other.value;
                self.set_known(edge.kept, Some(Known { value, since }));
                self.want_kept(edge)
            }
            _ => Ok(()),
        }
    }

    /// Notes that two ids are equal, and says whether that is new.
    pub fn merge(&mut self, a: u32, b: u32, reason: Reason) -> Result<bool, AllocError> {
        if self.clash.is_some() || self.classes.root(a) == self.classes.root(b) {
            return Ok(false);
        }
        self.reasons.push(reason)?;
        let edge = self.classes.join(a, b)?;
        self.merge_values(edge)?;
        self.want_gone(edge)?;
        Ok(true)
    }

    /// Notes that the sides of an equality are not to be equal.
    pub fn set_unequal(&mut self, equality: NodeId, a: u32, b: u32) -> Result<(), AllocError> {
        let clash = Clash::Unequal(equality, a, b);
        if self.classes.root(a) == self.classes.root(b) {
            self.clash = Some(clash);
        }
        self.unequal.push(a, clash)?;
        self.unequal.push(b, clash)
    }

    /// How much there is.
    pub fn mark(&self) -> Mark {
        Mark {
            edges: self.classes.now(),
            values: self.values.len(),
            sums: self.sums.len(),
            products: self.products.len(),
            quotients: self.quotients.len(),
            cofactors: self.cofactors.len(),
            active: self.active.len(),
            unequal: self.unequal.len(),
            work: self.work,
            clash: self.clash,
        }
    }

    /// Takes edges away until there are so many.
    fn part_to(&mut self, count: usize) {
        for _ in count..self.classes.now() {
            let Some(edge) = self.classes.part() else {
                break;
            };
            match self.known(edge.kept) {
                Some(known) if known.since > self.classes.now() => self.set_known(edge.kept, None),
                _ => {}
            }
        }
        self.reasons.truncate(count);
    }

    /// Takes the last ids away until so many are past the table.
    fn drop_values(&mut self, count: usize) {
        for _ in count..self.values.len() {
            if let Some(number) = self.values.pop() {
                let _ = self.numbers.remove(&number);
            }
        }
        let ids = (self.table.len() as usize).saturating_add(self.values.len());
        self.classes.truncate(ids);
        self.known.truncate(ids);
    }

    /// Takes all away that came after a mark. It takes no memory.
    pub fn go_back(&mut self, mark: Mark) {
        self.queue.clear();
        self.part_to(mark.edges);
        self.drop_values(mark.values);
        self.sums.truncate(mark.sums);
        self.products.truncate(mark.products);
        self.quotients.truncate(mark.quotients);
        self.cofactors.truncate(mark.cofactors);
        self.unequal.truncate(mark.unequal);
        for _ in mark.active..self.active.len() {
            if let Some(id) = self.active.pop() {
                self.set_active(id, false);
            }
        }
        self.work = mark.work;
        self.clash = mark.clash;
    }
}
