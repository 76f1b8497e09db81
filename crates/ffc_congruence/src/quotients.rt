//! Factors of a product that has a value other than 0: the value and the other factors say what each one is, so equal ones are
//! equal in whichever product.
use crate::arithmetic::{inverse, negative, product};
use crate::classes::Time;
use crate::closure::{Closure, Reason};
use crate::forms::{Form, merged};
use crate::index::{Solved, hash_of};
use crate::nodes::children;
use crate::premises::{Premise, ordered};
use ffc_term::NodeId;
use std::alloc::AllocError;

/// Of a product of more factors without values none is noted.
const MOST_FACTORS: usize = 16;

/// The difference of a product and its value, times a weight and a factor of another product.
fn valued(
    closure: &Closure,
    node: NodeId,
    number: u32,
    weight: u64,
    other: u32,
) -> Result<Premise, AllocError> {
    let mut others = Vec::new(closure.alloc);
    others.push(other)?;
    Ok(Premise {
        from: node,
        to: number,
        power: 1,
        weight,
        others,
        inverse: None,
    })
}

impl Closure<'_> {
    /// The value of a node at a time, where it has one other than 0.
    fn unit_at(&self, node: NodeId, time: Time) -> Option<u64> {
        match self.value_at(node, time) {
            Some(value) if value != 0 => Some(value),
            _ => None,
        }
    }

    /// The factors of a product but one that is this id.
    pub fn factors_but(&self, node: NodeId, pivot: u32) -> Result<Vec<NodeId>, AllocError> {
        let mut others = Vec::new(self.alloc);
        let mut is_past = false;
        for id in children(self.table, node) {
            if *id == pivot && !is_past {
                is_past = true;
            } else {
                others.push(*id)?;
            }
        }
        Ok(others)
    }

    /// What is one over a factor of a product at a time, by the others and the value: a residue, and exponents of classes.
    fn quotient_at(
        &self,
        node: NodeId,
        pivot: u32,
        time: Time,
    ) -> Result<Option<Form>, AllocError> {
        let p = self.order_of(node);
        let Some(value) = self.unit_at(node, time) else {
            return Ok(None);
        };
        let others = self.factors_but(node, pivot)?;
        let factors = self.factors_at(others.as_slice(), time, p)?;
        if factors.zero.is_some() {
            return Ok(None);
        }
        let mut exponents = Vec::new(self.alloc);
        for (class, _) in &factors.open {
            exponents.push((*class, 1))?;
        }
        let scale = product(factors.scale, inverse(value, p), p);
        Ok(Some((scale, merged(self.alloc, exponents, u64::MAX)?)))
    }

    /// Notes what a factor of a product is, or that another one is the same. Says whether its class has changed.
    fn match_quotient(&mut self, node: NodeId, pivot: u32) -> Result<bool, AllocError> {
        let time = self.classes.now();
        let Some(form) = self.quotient_at(node, pivot, time)? else {
            return Ok(false);
        };
        let solved = Solved {
            node,
            pivot,
            coefficient: 1,
            time,
        };
        let hash = hash_of(&form, None, 1, u64::MAX);
        for other in self.quotients.found(self.alloc, hash)? {
            if self.classes.root(other.pivot) == self.classes.root(pivot) {
                return Ok(false);
            }
            let Some(that) = self.quotient_at(other.node, other.pivot, other.time)? else {
                continue;
            };
            if that.0 == form.0 && that.1 == form.1 {
                return self.merge(pivot, other.pivot, Reason::Quotients(solved, other));
            }
        }
        self.quotients.insert(self.alloc, hash, solved)?;
        Ok(false)
    }

    /// Notes what each factor of a product is that has a value.
    pub fn match_quotients(&mut self, id: NodeId) -> Result<(), AllocError> {
        let time = self.classes.now();
        if self.unit_at(id, time).is_none() {
            return Ok(());
        }
        let factors = self.factors_at(children(self.table, id), time, self.order_of(id))?;
        if factors.open.len() > MOST_FACTORS {
            return Ok(());
        }
        for (_, pivot) in &factors.open {
            if self.match_quotient(id, *pivot)? {
                return self.queue.push(id);
            }
        }
        Ok(())
    }

    /// Appends what the factors of a product but one are less their values and those of another one, as far as they are
    /// replaced, times a weight and both factors; answers those without values, in the order of their classes.
    pub fn append_others(
        &self,
        solved: Solved,
        both: &[u32],
        weight: u64,
        time: Time,
        premises: &mut Vec<Premise>,
    ) -> Result<(u64, Vec<u32>), AllocError> {
        let p = self.order_of(solved.pivot);
        let ids = self.factors_but(solved.node, solved.pivot)?;
        let values = self.with_values(ids.as_slice(), time)?;
        self.append_replaced(ids.as_slice(), values.as_slice(), both, weight, premises)?;
        let factors = self.factors_at(ids.as_slice(), time, p)?;
        let scale = factors.scale;
        Ok((scale, ordered(self.alloc, factors)?))
    }

    /// Appends what a factor of a product is, less one of another product, where the other factors over the values are equal:
    /// with products m and n of the values v and w it is b*(m - v)/v - a*(n - w)/w and what the other factors differ by, times
    /// a*b.
    pub fn append_quotients(
        &self,
        one: Solved,
        other: Solved,
        time: Time,
        premises: &mut Vec<Premise>,
    ) -> Result<(), AllocError> {
        let p = self.order_of(one.pivot);
        let (Some(first), Some(second)) = (
            self.unit_at(one.node, time),
            self.unit_at(other.node, time),
        ) else {
            return Ok(());
        };
        let (Some(v), Some(w)) = (self.id_of(p, first), self.id_of(p, second)) else {
            return Ok(());
        };
        let by_first = inverse(first, p);
        let by_second = inverse(second, p);
        premises.push(valued(self, one.node, v, by_first, other.pivot)?)?;
        premises.push(valued(self, other.node, w, negative(by_second, p), one.pivot)?)?;
        let both = [one.pivot, other.pivot];
        let (_, open) = self.append_others(one, &both, negative(by_first, p), time, premises)?;
        let (scale, other_open) = self.append_others(other, &both, by_second, time, premises)?;
        self.append_replaced(
            other_open.as_slice(),
            open.as_slice(),
            &both,
            product(scale, by_second, p),
            premises,
        )
    }
}
