//! What the difference of the ends of an edge is: a sum of multiples of earlier differences of equal ids.
use crate::arithmetic::{inverse, negative, product};
use crate::classes::Time;
use crate::closure::{Closure, Reason};
use crate::forms::merged;
use crate::index::Solved;
use crate::looking::Factors;
use crate::nodes::children;
use ffc_term::{Node, NodeId};
use std::alloc::AllocError;

/// Products of at least so many equal factors that are sums, or of so many equal factors, are taken as powers. Written as one
/// multiple of the difference of the factors they are long.
const MANY_SUMS: usize = 4;

const MANY_FACTORS: usize = 16;

/// The weight times the product of the other ids times the difference of a power of two equal ones.
#[derive(Drop)]
pub struct Premise {
    pub from: u32,
    pub to: u32,
    pub power: u32,
    pub weight: u64,
    pub others: Vec<u32>,
    /// The equality that does not hold by whose inverse it is multiplied too.
    pub inverse: Option<NodeId>,
}

/// The ids of factors in the order of their classes.
pub fn ordered(alloc: std::alloc::Global, factors: Factors) -> Result<Vec<u32>, AllocError> {
    let Factors {
        zero: _,
        scale: _,
        mut open,
    } = factors;
    open.sort_unstable();
    let mut ids = Vec::new(alloc);
    for (_, id) in &open {
        ids.push(*id)?;
    }
    Ok(ids)
}

impl Closure<'_> {
    fn is_product(&self, id: NodeId) -> bool {
        id < self.table.len() && matches!(self.table.node(id), Node::Mul(_))
    }

    /// Factors with values in place of those that have some at a time, up to the first that is 0.
    pub fn with_values(&self, ids: &[u32], time: Time) -> Result<Vec<u32>, AllocError> {
        let mut replaced = Vec::new(self.alloc);
        let has_zero = ids.iter().any(|id| self.value_at(*id, time) == Some(0));
        let mut is_over = false;
        for id in ids {
            let value = self.value_at(*id, time);
            let counts = !is_over && (!has_zero || value == Some(0));
            is_over = is_over || value == Some(0);
            let number = match value {
                Some(value) if counts => self.id_of(self.order_of(*id), value),
                _ => None,
            };
            replaced.push(number.unwrap_or(*id))?;
        }
        Ok(replaced)
    }

    /// How many factors from a place on are replaced together: as many as are equal there, where they make a long power.
    fn count_together(&self, pairs: &[(u32, u32)], place: usize) -> usize {
        let Some((old, new)) = pairs.get(place).copied() else {
            return 1;
        };
        let (_, rest) = pairs.split_at(place.min(pairs.len()));
        let mut count = 0usize;
        for pair in rest {
            if pair.0 != old || pair.1 != new {
                break;
            }
            count = count.saturating_add(1);
        }
        let are_sums = self.length(old) > 1 && self.length(new) > 1;
        if count >= MANY_FACTORS || are_sums && count >= MANY_SUMS {
            count
        } else {
            1
        }
    }

    /// Appends what a product of some ids is, less the product of others in their places, times a weight and further factors.
    pub fn append_replaced(
        &self,
        from: &[u32],
        to: &[u32],
        rest: &[u32],
        weight: u64,
        premises: &mut Vec<Premise>,
    ) -> Result<(), AllocError> {
        let mut pairs = Vec::new(self.alloc);
        for (old, new) in from.iter().zip(to) {
            pairs.push((*old, *new))?;
        }
        pairs.sort_unstable();
        self.append_pairs(pairs.as_slice(), rest, weight, premises)
    }

    /// Whether two ids are the sides of an equality that was given.
    fn are_given(&self, one: u32, other: u32) -> Result<bool, AllocError> {
        let way = self.classes.way(self.alloc, one, other)?;
        let [step] = way.as_slice() else {
            return Ok(false);
        };
        Ok(matches!(self.reason(step.edge), Some(Reason::Equality(_))))
    }

    /// The same where the others are values, times a weight alone. Those that an equality gives are replaced first, so that the
    /// differences of the others, which are longer, are multiplied by values.
    fn append_valued(
        &self,
        from: &[u32],
        to: &[u32],
        weight: u64,
        premises: &mut Vec<Premise>,
    ) -> Result<(), AllocError> {
        let mut pairs = Vec::new(self.alloc);
        let mut others = Vec::new(self.alloc);
        for (old, new) in from.iter().zip(to) {
            if self.are_given(*old, *new)? {
                pairs.push((*old, *new))?;
            } else {
                others.push((*old, *new))?;
            }
        }
        pairs.sort_unstable();
        others.sort_unstable();
        pairs.extend_from_slice(others.as_slice())?;
        self.append_pairs(pairs.as_slice(), &[], weight, premises)
    }

    /// Appends what a product of the first ids of pairs is, less that of the second ones, times a weight and further factors:
    /// one pair after the other is replaced.
    fn append_pairs(
        &self,
        pairs: &[(u32, u32)],
        rest: &[u32],
        weight: u64,
        premises: &mut Vec<Premise>,
    ) -> Result<(), AllocError> {
        let mut place = 0usize;
        for _ in 0..pairs.len() {
            let Some((old, new)) = pairs.get(place).copied() else {
                break;
            };
            let count = self.count_together(pairs, place);
            let end = place.saturating_add(count);
            if old != new {
                let others = self.factors_beside(pairs, place, end, rest)?;
                premises.push(Premise {
                    from: old,
                    to: new,
                    power: u32::try_from(count).unwrap_or(1),
                    weight,
                    others,
                    inverse: None,
                })?;
            }
            place = end;
        }
        Ok(())
    }

    /// The new factors before a place, the old ones from another place on, and further factors.
    fn factors_beside(
        &self,
        pairs: &[(u32, u32)],
        place: usize,
        end: usize,
        rest: &[u32],
    ) -> Result<Vec<u32>, AllocError> {
        let mut others = Vec::new(self.alloc);
        let (before, _) = pairs.split_at(place.min(pairs.len()));
        let (_, after) = pairs.split_at(end.min(pairs.len()));
        for (_, new) in before {
            others.push(*new)?;
        }
        for (old, _) in after {
            others.push(*old)?;
        }
        others.extend_from_slice(rest)?;
        Ok(others)
    }

    /// Appends what a product of several factors is, less another one of equal factors, where an edge says so.
    fn append_products(
        &self,
        one: NodeId,
        other: NodeId,
        time: Time,
        premises: &mut Vec<Premise>,
    ) -> Result<(), AllocError> {
        let p = self.order_of(one);
        let (ids, others) = (children(self.table, one), children(self.table, other));
        let values = self.with_values(ids, time)?;
        let other_values = self.with_values(others, time)?;
        let open = ordered(self.alloc, self.factors_at(ids, time, p)?)?;
        let other_open = ordered(self.alloc, self.factors_at(others, time, p)?)?;
        let mut constants = Vec::new(self.alloc);
        for id in &values {
            if self.value_at(*id, time).is_some() {
                constants.push(*id)?;
            }
        }
        self.append_replaced(ids, values.as_slice(), &[], 1, premises)?;
        self.append_replaced(
            open.as_slice(),
            other_open.as_slice(),
            constants.as_slice(),
            1,
            premises,
        )?;
        let minus = negative(1, p);
        self.append_replaced(others, other_values.as_slice(), &[], minus, premises)
    }

    /// Appends the terms of what a node said is 0, times a factor, over the coefficient of its pivot; and of a product with
    /// values what it is, less what it said.
    fn append_solved(
        &self,
        solved: Solved,
        factor: u64,
        terms: &mut Vec<(u32, u64)>,
        premises: &mut Vec<Premise>,
    ) -> Result<(), AllocError> {
        let p = self.order_of(solved.pivot);
        let factor = product(factor, inverse(solved.coefficient, p), p);
        if let Some(relation) = self.relation_at(solved.node, solved.time)? {
            for (id, coefficient) in &relation.terms {
                terms.push((*id, product(*coefficient, factor, p)))?;
            }
        }
        if self.is_product(solved.node) {
            let ids = children(self.table, solved.node);
            let values = self.with_values(ids, solved.time)?;
            self.append_valued(ids, values.as_slice(), negative(factor, p), premises)?;
        }
        Ok(())
    }

    /// What the ids of a class are compared with: its value, where the coefficients do not cancel, or the first of them.
    fn leader(&self, totals: &[(u32, u64)], root: u32, id: u32, time: Time) -> u32 {
        let at = match totals.binary_search(&(root, 0)) {
            Ok(at) | Err(at) => at,
        };
        let cancels = match totals.get(at) {
            Some(total) => total.0 != root,
            None => true,
        };
        let number = match self.value_at(id, time) {
            Some(value) if !cancels => self.id_of(self.order_of(id), value),
            _ => None,
        };
        number.unwrap_or(id)
    }

    /// For each term its class at a time with the term's place, in order; and the sum of the coefficients of each class.
    fn places_by_class(
        &self,
        terms: &[(u32, u64)],
        time: Time,
        p: u64,
    ) -> Result<(Vec<(u32, u64)>, Vec<(u32, u64)>), AllocError> {
        let mut places = Vec::new(self.alloc);
        let mut totals = Vec::new(self.alloc);
        let mut place = 0u64;
        for (id, coefficient) in terms {
            let root = self.classes.root_at(*id, time);
            places.push((root, place))?;
            totals.push((root, *coefficient))?;
            place = place.saturating_add(1);
        }
        places.sort_unstable();
        Ok((places, merged(self.alloc, totals, p)?))
    }

    /// Appends the differences of terms to what each is compared with, where the terms of each class cancel.
    pub fn append_by_classes(
        &self,
        terms: &[(u32, u64)],
        time: Time,
        p: u64,
        premises: &mut Vec<Premise>,
    ) -> Result<(), AllocError> {
        let (places, totals) = self.places_by_class(terms, time, p)?;
        let mut current: Option<(u32, u32)> = None;
        for (root, place) in &places {
            let Some((id, coefficient)) = terms.get(*place as usize).copied() else {
                continue;
            };
            let to = match current {
                Some((before, to)) if before == *root => to,
                _ => self.leader(totals.as_slice(), *root, id, time),
            };
            current = Some((*root, to));
            if to != id {
                premises.push(Premise {
                    from: id,
                    to,
                    power: 1,
                    weight: negative(coefficient, p),
                    others: Vec::new(self.alloc),
                    inverse: None,
                })?;
            }
        }
        Ok(())
    }

    /// What the difference of the ends of an edge is, which is no equality that was given.
    pub fn premises(&self, edge: usize) -> Result<Vec<Premise>, AllocError> {
        let mut premises = Vec::new(self.alloc);
        let Some((first, second)) = self.classes.ends(edge) else {
            return Ok(premises);
        };
        match self.reason(edge) {
            Some(Reason::Sums(one, other)) => {
                let p = self.order_of(first);
                let mut terms = Vec::new(self.alloc);
                terms.push((first, negative(1, p)))?;
                terms.push((second, 1))?;
                self.append_solved(one, 1, &mut terms, &mut premises)?;
                if let Some(other) = other {
                    self.append_solved(other, negative(1, p), &mut terms, &mut premises)?;
                }
                let terms = merged(self.alloc, terms, p)?;
                self.append_by_classes(terms.as_slice(), edge, p, &mut premises)?;
            }
            Some(Reason::Products) => self.append_products(first, second, edge, &mut premises)?,
            Some(Reason::Quotients(one, other)) => {
                self.append_quotients(one, other, edge, &mut premises)?;
            }
            Some(Reason::Cofactors(one, other, unlike)) => {
                self.append_cofactors(one, other, unlike, edge, &mut premises)?;
            }
            _ => {}
        }
        Ok(premises)
    }
}
