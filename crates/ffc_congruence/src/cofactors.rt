//! Factors of products beside a factor that is not 0, since an equality does not hold. Where two products are equal and so are
//! those factors, the others are equal; where a product is 0, its other factor is.
use crate::arithmetic::{inverse, negative, product};
use crate::clash::Clash;
use crate::classes::Time;
use crate::closure::{Closure, Reason};
use crate::forms::{Form, merged, said};
use crate::index::{Solved, hash_of};
use crate::nodes::children;
use crate::premises::{Premise, ordered};
use ffc_term::{Node, NodeId};
use std::alloc::AllocError;

/// So many nodes of a class are asked whether they are not 0.
const MOST_MEMBERS: usize = 16;

/// Why the nodes of a class are not 0: one of them is a multiple of the difference of the sides of an equality that does not
/// hold.
#[derive(Clone, Copy)]
pub struct Unlike {
    pub equality: NodeId,
    /// The node of the class.
    node: NodeId,
    /// Whether it is so by the terms that it is a sum of.
    by_sum: bool,
    /// How many times the difference it is.
    factor: u64,
}

/// The premise that two ids are equal, times a weight and further factors and the inverse that an equality stands for.
fn premise(from: u32, to: u32, weight: u64, others: Vec<u32>, equality: NodeId) -> Premise {
    Premise {
        from,
        to,
        power: 1,
        weight,
        others,
        inverse: Some(equality),
    }
}

impl Closure<'_> {
    /// A term of a negation as one of what is negated.
    fn without_sign(&self, term: (u32, u64), p: u64) -> (u32, u64) {
        let (id, coefficient) = term;
        if id >= self.table.len() {
            return term;
        }
        match self.table.node(id) {
            Node::Neg(a) => (*a, negative(coefficient, p)),
            _ => term,
        }
    }

    /// The terms that a node is the sum of, itself or those of its own.
    fn terms_of(
        &self,
        node: NodeId,
        by_sum: bool,
        time: Time,
    ) -> Result<Vec<(u32, u64)>, AllocError> {
        let mut terms = Vec::new(self.alloc);
        if !by_sum {
            terms.push((node, 1))?;
        } else if let Some(relation) = self.relation_at(node, time)? {
            if let [_, own @ ..] = relation.terms.as_slice() {
                for term in own {
                    terms.push(self.without_sign(*term, self.order_of(node)))?;
                }
            }
        }
        Ok(terms)
    }

    /// Whether a node is a sum.
    fn is_sum(&self, node: NodeId) -> bool {
        node < self.table.len()
            && matches!(
                self.table.node(node),
                Node::Add(_) | Node::Bitsum(_) | Node::Neg(_)
            )
    }

    /// How many times the difference of two ids a form is, if it is such a multiple.
    fn factor_of_difference(
        &self,
        form: &Form,
        left: u32,
        right: u32,
        p: u64,
    ) -> Result<Option<u64>, AllocError> {
        let mut terms = Vec::new(self.alloc);
        terms.push((left, 1))?;
        terms.push((right, negative(1, p)))?;
        let sides = self.form_at(terms.as_slice(), 0, self.classes.now(), p)?;
        let (Some(first), Some(own)) = (sides.1.first().copied(), form.1.first().copied()) else {
            return Ok(None);
        };
        let factor = product(own.1, inverse(first.1, p), p);
        let multiple = said(self.alloc, &sides, None, factor, p)?;
        Ok((multiple.0 == form.0 && multiple.1 == form.1).then_some(factor))
    }

    /// Why a node is not 0, by itself or by its terms.
    fn unlike_by(&self, node: NodeId, by_sum: bool) -> Result<Option<Unlike>, AllocError> {
        let now = self.classes.now();
        let p = self.order_of(node);
        let terms = self.terms_of(node, by_sum, now)?;
        let form = self.form_at(terms.as_slice(), 0, now, p)?;
        if form.1.len() > 2 {
            return Ok(None);
        }
        for (class, _) in &form.1 {
            for clash in self.unequal_of_class(*class)? {
                if let Clash::Unequal(equality, left, right) = clash {
                    if let Some(factor) = self.factor_of_difference(&form, left, right, p)? {
                        return Ok(Some(Unlike {
                            equality,
                            node,
                            by_sum,
                            factor,
                        }));
                    }
                }
            }
        }
        Ok(None)
    }

    /// The equalities that do not hold and have one of some nodes of a class as a side.
    fn unequal_of_class(&self, class: u32) -> Result<Vec<Clash>, AllocError> {
        let mut found = Vec::new(self.alloc);
        let mut id = class;
        for _ in 0..MOST_MEMBERS {
            for clash in self.unequal.of_id(self.alloc, id)? {
                found.push(clash)?;
            }
            id = self.classes.next(id);
            if id == class {
                break;
            }
        }
        Ok(found)
    }

    /// Why the class of an id is not 0, if one of some of its nodes shows it.
    fn unlike(&self, id: u32) -> Result<Option<Unlike>, AllocError> {
        let mut member = id;
        for _ in 0..MOST_MEMBERS {
            if let Some(unlike) = self.unlike_by(member, false)? {
                return Ok(Some(unlike));
            }
            if self.is_sum(member) {
                if let Some(unlike) = self.unlike_by(member, true)? {
                    return Ok(Some(unlike));
                }
            }
            member = self.classes.next(member);
            if member == id {
                break;
            }
        }
        Ok(None)
    }

    /// The residue and the class of the one other factor of a product without a value at a time, and the product's class.
    fn cofactor_at(
        &self,
        node: NodeId,
        pivot: u32,
        time: Time,
    ) -> Result<Option<Form>, AllocError> {
        if self.value_at(node, time).is_some() {
            return Ok(None);
        }
        let others = self.factors_but(node, pivot)?;
        let factors = self.factors_at(others.as_slice(), time, self.order_of(node))?;
        let ([(class, _)], None) = (factors.open.as_slice(), factors.zero) else {
            return Ok(None);
        };
        let mut classes = Vec::new(self.alloc);
        classes.push((*class, 1))?;
        classes.push((self.classes.root_at(node, time), 0))?;
        Ok(Some((factors.scale, classes)))
    }

    /// Sees whether a factor of a product of two is one of another product, where the other factor is not 0. Says whether its
    /// class has changed.
    fn match_cofactor(&mut self, node: NodeId, pivot: u32, unit: u32) -> Result<bool, AllocError> {
        let time = self.classes.now();
        let Some(form) = self.cofactor_at(node, pivot, time)? else {
            return Ok(false);
        };
        let solved = Solved {
            node,
            pivot,
            coefficient: 1,
            time,
        };
        let hash = hash_of(&form, None, 1, u64::MAX);
        for other in self.cofactors.found(self.alloc, hash)? {
            if self.classes.root(other.pivot) == self.classes.root(pivot) {
                return Ok(false);
            }
            let Some(that) = self.cofactor_at(other.node, other.pivot, other.time)? else {
                continue;
            };
            if that.0 == form.0 && that.1 == form.1 {
                let Some(unlike) = self.unlike(unit)? else {
                    return Ok(false);
                };
                let reason = Reason::Cofactors(solved, Some(other), unlike);
                return self.merge(pivot, other.pivot, reason);
            }
        }
        self.cofactors.insert(self.alloc, hash, solved)?;
        Ok(false)
    }

    /// Sees whether a factor of a product that is 0 is, since the other one is not. Says whether its class has changed.
    fn match_zero(&mut self, node: NodeId, pivot: u32, unit: u32) -> Result<bool, AllocError> {
        let Some(unlike) = self.unlike(unit)? else {
            return Ok(false);
        };
        let solved = Solved {
            node,
            pivot,
            coefficient: 1,
            time: self.classes.now(),
        };
        let zero = self.number(self.order_of(pivot), 0)?;
        self.merge(pivot, zero, Reason::Cofactors(solved, None, unlike))
    }

    /// Notes what the factors of a product of two without values say of each other.
    pub fn match_cofactors(&mut self, id: NodeId) -> Result<(), AllocError> {
        let time = self.classes.now();
        let factors = self.factors_at(children(self.table, id), time, self.order_of(id))?;
        let [(_, first), (_, second)] = factors.open.as_slice() else {
            return Ok(());
        };
        let is_zero = self.value_at(id, time) == Some(0);
        for (pivot, unit) in [(*first, *second), (*second, *first)] {
            let has_changed = if is_zero {
                self.match_zero(id, pivot, unit)?
            } else {
                self.match_cofactor(id, pivot, unit)?
            };
            if has_changed {
                return self.queue.push(id);
            }
        }
        Ok(())
    }

    /// Appends premises times factors of which the inverse of an equality is one.
    fn append_times(
        &self,
        own: Vec<Premise>,
        factor: u64,
        other: u32,
        equality: NodeId,
        premises: &mut Vec<Premise>,
    ) -> Result<(), AllocError> {
        let p = self.order_of(other);
        for one in &own {
            let mut others = one.others.clone()?;
            others.push(other)?;
            let weight = product(one.weight, factor, p);
            premises.push(premise(one.from, one.to, weight, others, equality))?;
        }
        Ok(())
    }

    /// What a factor is less the multiple of the difference of the sides that it is.
    fn unlike_premises(
        &self,
        unlike: Unlike,
        unit: u32,
        time: Time,
    ) -> Result<Vec<Premise>, AllocError> {
        let p = self.order_of(unit);
        let mut premises = Vec::new(self.alloc);
        if unit != unlike.node {
            premises.push(premise(
                unit,
                unlike.node,
                negative(1, p),
                Vec::new(self.alloc),
                unlike.equality,
            ))?;
        }
        let mut terms = self.terms_of(unlike.node, unlike.by_sum, time)?;
        if let Some((left, right)) = crate::nodes::sides(self.table, unlike.equality) {
            terms.push((left, negative(unlike.factor, p)))?;
            terms.push((right, unlike.factor))?;
        }
        let terms = merged(self.alloc, terms, p)?;
        self.append_by_classes(terms.as_slice(), time, p, &mut premises)?;
        Ok(premises)
    }

    /// Appends what the others of a product's factors are less their values and one without, times a weight, the product's factor
    /// and the inverse. Answers their residue and that one.
    fn append_cofactor(
        &self,
        solved: Solved,
        weight: u64,
        equality: NodeId,
        time: Time,
        premises: &mut Vec<Premise>,
    ) -> Result<(u64, Option<u32>), AllocError> {
        let p = self.order_of(solved.pivot);
        let mut own = Vec::new(self.alloc);
        let (scale, open) = self.append_others(solved, &[], 1, time, &mut own)?;
        let weight = product(weight, inverse(scale, p), p);
        self.append_times(own, weight, solved.pivot, equality, premises)?;
        Ok((scale, open.first().copied()))
    }

    /// Appends what a factor a of a product m is, less a factor b of another product n, or 0. The other factor u of both is k times
    /// the difference of the sides of an equality that does not hold, and w is the inverse of that: a - b is w/k times m - n and
    /// what the factors differ by, less (a - b)*w/k times what u differs from the multiple by, less (a - b) times the equality's
    /// generator, which the caller takes.
    pub fn append_cofactors(
        &self,
        one: Solved,
        other: Option<Solved>,
        unlike: Unlike,
        time: Time,
        premises: &mut Vec<Premise>,
    ) -> Result<(), AllocError> {
        let p = self.order_of(one.pivot);
        let by = inverse(unlike.factor, p);
        let equality = unlike.equality;
        let minus = negative(by, p);
        let (scale, Some(unit)) = self.append_cofactor(one, minus, equality, time, premises)? else {
            return Ok(());
        };
        let weight = product(by, inverse(scale, p), p);
        let nothing = Vec::new(self.alloc);
        let zero = self.id_of(p, 0).unwrap_or(one.node);
        let to = other.map_or(zero, |other| other.node);
        premises.push(premise(one.node, to, weight, nothing, equality))?;
        self.append_times(
            self.unlike_premises(unlike, unit, time)?,
            by,
            one.pivot,
            equality,
            premises,
        )?;
        if let Some(other) = other {
            let (_, other_unit) = self.append_cofactor(other, by, equality, time, premises)?;
            if let Some(other_unit) = other_unit {
                let mut others = Vec::new(self.alloc);
                others.push(other.pivot)?;
                premises.push(premise(unit, other_unit, minus, others, equality))?;
            }
            let own = self.unlike_premises(unlike, unit, time)?;
            self.append_times(own, minus, other.pivot, equality, premises)?;
        }
        Ok(())
    }
}
