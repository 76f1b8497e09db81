//! What nodes say of the classes of their children and of their own.
use crate::arithmetic::{inverse, negative, product, sum};
use crate::classes::Time;
use crate::closure::{Closure, Reason};
use crate::forms::{Form, Relation, merged, said};
use crate::index::{Solved, hash_of};
use crate::nodes::children;
use ffc_term::{Node, NodeId};
use std::alloc::AllocError;

/// A sum of more classes says of the node alone what it is.
const MOST_PIVOTS: usize = 16;

/// Nodes are looked at until all of them could have been so many times, and so many terms more.
pub const LOOKS: usize = 64;

pub const MORE_WORK: usize = 1_048_576;

/// How many terms are gone through at a look at a node with so many children.
pub fn cost(children: usize) -> usize {
    let terms = children.saturating_add(1);
    if terms > MOST_PIVOTS {
        terms
    } else {
        terms.saturating_mul(terms)
    }
}

/// What the factors of a product are at a time.
#[derive(Drop)]
pub struct Factors {
    /// The first one that is 0.
    pub zero: Option<NodeId>,
    /// The product of the values of those that have some.
    pub scale: u64,
    /// The others, by their classes.
    pub open: Vec<(u32, NodeId)>,
}

impl Closure<'_> {
    /// The sum that a node is, less the node, with these weights: the first child's, and how many times the one before it each
    /// further one has.
    fn sum_relation(
        &self,
        id: NodeId,
        ids: &[NodeId],
        first: u64,
        ratio: u64,
    ) -> Result<Relation, AllocError> {
        let p = self.order_of(id);
        let mut terms = Vec::new(self.alloc);
        terms.push((id, negative(1, p)))?;
        let mut weight = first;
        for child in ids {
            terms.push((*child, weight))?;
            weight = product(weight, ratio, p);
        }
        Ok(Relation { terms, constant: 0 })
    }

    /// The factors of a product at a time.
    pub fn factors_at(&self, ids: &[NodeId], time: Time, p: u64) -> Result<Factors, AllocError> {
        let mut factors = Factors {
            zero: None,
            scale: 1,
            open: Vec::new(self.alloc),
        };
        for child in ids {
            match self.value_at(*child, time) {
                Some(0) => {
                    factors.zero = Some(*child);
                    break;
                }
                Some(value) => factors.scale = product(factors.scale, value, p),
                None => factors
                    .open
                    .push((self.classes.root_at(*child, time), *child))?,
            }
        }
        Ok(factors)
    }

    /// A product less itself, where at most one of its factors has no value, or one is 0.
    fn product_relation(
        &self,
        id: NodeId,
        ids: &[NodeId],
        time: Time,
    ) -> Result<Option<Relation>, AllocError> {
        let mut relation = Relation {
            terms: Vec::new(self.alloc),
            constant: 0,
        };
        let p = self.order_of(id);
        relation.terms.push((id, negative(1, p)))?;
        let factors = self.factors_at(ids, time, p)?;
        if factors.zero.is_some() {
            return Ok(Some(relation));
        }
        match factors.open.as_slice() {
            [] => relation.constant = factors.scale,
            [(_, child)] => relation.terms.push((*child, factors.scale))?,
            _ => return Ok(None),
        }
        Ok(Some(relation))
    }

    /// What a node says is 0 at a time; none of a product of several factors, or of a node without children.
    pub fn relation_at(&self, id: NodeId, time: Time) -> Result<Option<Relation>, AllocError> {
        let table = self.table;
        if id >= table.len() {
            return Ok(None);
        }
        Ok(match table.node(id) {
            Node::Add(ids) => Some(self.sum_relation(id, ids.as_slice(), 1, 1)?),
            Node::Bitsum(ids) => Some(self.sum_relation(id, ids.as_slice(), 1, 2)?),
            Node::Neg(a) => Some(self.sum_relation(id, &[*a], negative(1, self.order_of(id)), 1)?),
            Node::Mul(ids) => self.product_relation(id, ids.as_slice(), time)?,
            _ => None,
        })
    }

    /// Terms by classes at a time.
    pub fn form_at(
        &self,
        terms: &[(u32, u64)],
        constant: u64,
        time: Time,
        p: u64,
    ) -> Result<Form, AllocError> {
        let mut rest = constant;
        let mut classes = Vec::new(self.alloc);
        for (id, coefficient) in terms {
            match self.value_at(*id, time) {
                Some(value) => rest = sum(rest, product(*coefficient, value, p), p),
                None => classes.push((self.classes.root_at(*id, time), *coefficient))?,
            }
        }
        Ok((rest, merged(self.alloc, classes, p)?))
    }

    /// A term of a class at a time.
    fn term_of(&self, terms: &[(u32, u64)], class: u32, time: Time) -> Option<u32> {
        for (id, _) in terms {
            if self.classes.root_at(*id, time) == class {
                return Some(*id);
            }
        }
        None
    }

    /// Whether what was noted says the same of its term as a form without a class does.
    fn says_same(
        &self,
        other: Solved,
        form: &Form,
        but: Option<u32>,
        factor: u64,
    ) -> Result<bool, AllocError> {
        let p = self.order_of(other.pivot);
        let Some(relation) = self.relation_at(other.node, other.time)? else {
            return Ok(false);
        };
        let (terms, class) = match relation.terms.as_slice() {
            [_, terms @ ..] if other.pivot == other.node => (terms, None),
            terms => (terms, Some(self.classes.root_at(other.pivot, other.time))),
        };
        let that = self.form_at(terms, relation.constant, other.time, p)?;
        let that = said(self.alloc, &that, class, factor_of(other, p), p)?;
        let this = said(self.alloc, form, but, factor, p)?;
        Ok(that.0 == this.0 && that.1 == this.1)
    }

    /// Notes what an id is by a form without a class, or that another one is the same. Says whether its class has changed.
    fn match_sum(
        &mut self,
        solved: Solved,
        form: &Form,
        but: Option<u32>,
    ) -> Result<bool, AllocError> {
        let p = self.order_of(solved.pivot);
        let factor = factor_of(solved, p);
        let hash = hash_of(form, but, factor, p);
        for other in self.sums.found(self.alloc, hash)? {
            if self.classes.root(other.pivot) == self.classes.root(solved.pivot) {
                return Ok(false);
            }
            if self.says_same(other, form, but, factor)? {
                let reason = Reason::Sums(solved, Some(other));
                return self.merge(solved.pivot, other.pivot, reason);
            }
        }
        self.sums.insert(self.alloc, hash, solved)?;
        Ok(false)
    }

    /// Notes what an id is by a form of terms, without a class. Says whether its class has changed.
    fn settle(
        &mut self,
        solved: Solved,
        terms: &[(u32, u64)],
        form: &Form,
        but: Option<u32>,
    ) -> Result<bool, AllocError> {
        let p = self.order_of(solved.pivot);
        let factor = factor_of(solved, p);
        let alone = Reason::Sums(solved, None);
        let (mut count, mut last) = (0usize, None);
        for (class, coefficient) in &form.1 {
            if Some(*class) != but {
                count = count.saturating_add(1);
                last = Some((*class, *coefficient));
            }
        }
        match last {
            None => {
                let number = self.number(p, product(form.0, factor, p))?;
                self.merge(solved.pivot, number, alone)
            }
            Some((class, coefficient))
                if count == 1 && form.0 == 0 && product(coefficient, factor, p) == 1 => {
                let other = self.term_of(terms, class, solved.time).unwrap_or(class);
                self.merge(solved.pivot, other, alone)
            }
            Some(_) => self.match_sum(solved, form, but),
        }
    }

    /// Notes what each class of a relation but the node's own is by the others.
    fn solve_for_terms(&mut self, id: NodeId, relation: &Relation) -> Result<(), AllocError> {
        let time = self.classes.now();
        let own = self.classes.root(id);
        let terms = relation.terms.as_slice();
        let form = self.form_at(terms, relation.constant, time, self.order_of(id))?;
        if form.1.len() > MOST_PIVOTS {
            return Ok(());
        }
        for (class, coefficient) in &form.1 {
            let pivot = self.term_of(terms, *class, time);
            if let (Some(pivot), true) = (pivot, *class != own) {
                let solved = Solved {
                    node: id,
                    pivot,
                    coefficient: *coefficient,
                    time,
                };
                if self.settle(solved, terms, &form, Some(*class))? {
                    return self.queue.push(id);
                }
            }
        }
        Ok(())
    }

    /// Notes what a node is by its children, and what these are by it.
    fn solve(&mut self, id: NodeId, relation: &Relation) -> Result<(), AllocError> {
        let time = self.classes.now();
        let p = self.order_of(id);
        let [_, terms @ ..] = relation.terms.as_slice() else {
            return Ok(());
        };
        let form = self.form_at(terms, relation.constant, time, p)?;
        let own = Solved {
            node: id,
            pivot: id,
            coefficient: negative(1, p),
            time,
        };
        if self.settle(own, terms, &form, None)? {
            return self.queue.push(id);
        }
        self.solve_for_terms(id, relation)
    }

    /// The classes of a product's factors at a time with their exponents, and the product of those that are values.
    fn product_form(&self, id: NodeId, time: Time) -> Result<Form, AllocError> {
        let factors = self.factors_at(children(self.table, id), time, self.order_of(id))?;
        let mut exponents = Vec::new(self.alloc);
        for (class, _) in &factors.open {
            exponents.push((*class, 1))?;
        }
        Ok((factors.scale, merged(self.alloc, exponents, u64::MAX)?))
    }

    /// Notes what a product of several factors is.
    fn match_product(&mut self, id: NodeId) -> Result<(), AllocError> {
        let time = self.classes.now();
        let form = self.product_form(id, time)?;
        let hash = hash_of(&form, None, 1, u64::MAX);
        for other in self.products.found(self.alloc, hash)? {
            if self.classes.root(other.node) == self.classes.root(id) {
                return Ok(());
            }
            let that = self.product_form(other.node, other.time)?;
            if that.0 == form.0 && that.1 == form.1 {
                self.merge(id, other.node, Reason::Products)?;
                return Ok(());
            }
        }
        let solved = Solved {
            node: id,
            pivot: id,
            coefficient: 1,
            time,
        };
        self.products.insert(self.alloc, hash, solved)
    }

    /// Looks at a node.
    fn look_at(&mut self, id: NodeId) -> Result<(), AllocError> {
        match self.relation_at(id, self.classes.now())? {
            Some(relation) => self.solve(id, &relation),
            None => {
                self.match_product(id)?;
                self.match_quotients(id)?;
                self.match_cofactors(id)
            }
        }
    }

    /// Looks at the nodes that wait, until none does or something clashes.
    pub fn close(&mut self) -> Result<(), AllocError> {
        for _ in 0..u64::MAX {
            if self.work == 0 || self.clash.is_some() {
                break;
            }
            let Some(id) = self.queue.pop() else {
                break;
            };
            let work = cost(children(self.table, id).len());
            self.work = self.work.saturating_sub(work);
            self.look_at(id)?;
        }
        self.queue.clear();
        Ok(())
    }
}

/// What a form is multiplied by to say what the term is.
fn factor_of(solved: Solved, p: u64) -> u64 {
    negative(inverse(solved.coefficient, p), p)
}
