//! The tree of a clash: the differences that it rests on, as sums of multiples of lines.
use crate::grounds::{Grounds, Needed};
use crate::items::{Item, is_short};
use crate::polynomials::{Poly, Polys};
use crate::powers::{Difference, halves, ordered};
use crate::rests::Rests;
use crate::sums::Sum;
use crate::writing::Lines;
use ffc_cdcl::Lit;
use ffc_cert::CertLine;
use ffc_congruence::{Clash, Closure, Reason, Step, negative};
use ffc_term::NodeId;
use std::alloc::{AllocError, Global};
use std::collections::BTreeMap;

/// Past so many monomials or names of differences all that is kept is dropped.
const MOST_KEPT: usize = 65_536;

/// What is kept from one refutation to the next.
#[derive(Drop)]
pub struct Kept {
    polys: Polys,
    pub rests: Rests,
}

impl Kept {
    /// Nothing.
    pub fn new(alloc: Global) -> Result<Kept, AllocError> {
        Ok(Kept {
            polys: Polys::new(alloc)?,
            rests: Rests::new(alloc),
        })
    }

    /// Whether it has become long.
    pub fn is_long(&self) -> bool {
        self.polys.monomials.len() > MOST_KEPT || self.rests.names() > MOST_KEPT
    }
}

/// The tree that is written.
#[derive(Drop)]
struct Tree<'a> {
    closure: &'a Closure<'a>,
    alloc: Global,
    /// The order of the field.
    order: u64,
    kept: Kept,
    lines: Lines,
    grounds: Grounds,
    one: Poly,
    /// The equalities, whose generators are the first lines.
    equalities: Vec<Lit>,
    /// The differences of the ends of edges, in the order of those that are needed.
    edges: Vec<Option<Item>>,
    /// Those of other ids, and of powers.
    differences: Vec<Option<Item>>,
}

impl Tree<'_> {
    /// How many terms a difference has at most.
    fn length(&self, difference: Difference) -> u64 {
        let (from, to, power) = difference;
        self.closure
            .length(from)
            .saturating_pow(power)
            .saturating_add(self.closure.length(to).saturating_pow(power))
    }

    /// The place of a difference.
    fn place(&self, difference: Difference) -> Option<u32> {
        let number = self.kept.rests.number_of(difference)?;
        self.grounds.place(number)
    }

    /// Adds the difference of the ends of an edge along it, times a factor if there is one, to a sum.
    fn add_edge(
        &mut self,
        sum: &mut Sum,
        step: Step,
        factor: Option<&Poly>,
    ) -> Result<(), AllocError> {
        let sign = if step.forward {
            1
        } else {
            negative(1, self.order)
        };
        let slot = self.grounds.slots.get(step.edge).copied().unwrap_or(0);
        match self.edges.get_mut(slot as usize) {
            Some(Some(item)) => item.add_to(
                sum,
                factor.unwrap_or(&self.one),
                sign,
                &mut self.lines,
                &mut self.kept.polys.monomials,
                self.order,
            ),
            _ => Ok(()),
        }
    }

    /// Keeps a difference as a sum.
    fn keep(&mut self, place: u32, sum: Sum) -> Result<(), AllocError> {
        let Some(shared) = self.grounds.shared.get(place as usize).copied() else {
            return Ok(());
        };
        let sum = sum.settled(self.alloc, self.order)?;
        let item = Item::of(sum, self.length(shared.difference), shared.uses);
        if let Some(difference) = self.differences.get_mut(place as usize) {
            *difference = Some(item);
        }
        Ok(())
    }

    /// Sums up the difference of two ids along the edges between them.
    fn prepare_way(&mut self, place: u32, way: (usize, usize)) -> Result<(), AllocError> {
        let mut sum = Sum::zero(self.alloc);
        self.add_way(&mut sum, way, None)?;
        self.keep(place, sum)
    }

    /// Adds a difference that is at hand times a factor to a sum.
    fn add_ready(&mut self, sum: &mut Sum, place: u32, factor: &Poly) -> Result<(), AllocError> {
        let Some(shared) = self.grounds.shared.get(place as usize).copied() else {
            return Ok(());
        };
        if let Some(step) = shared.edge(self.grounds.ways.as_slice()) {
            return self.add_edge(sum, step, Some(factor));
        }
        match self.differences.get_mut(place as usize) {
            Some(Some(item)) => item.add_to(
                sum,
                factor,
                1,
                &mut self.lines,
                &mut self.kept.polys.monomials,
                self.order,
            ),
            _ => Ok(()),
        }
    }

    /// Adds a difference of powers that is at hand times a power of an id to a sum. Says whether it could.
    fn add_times_power(
        &mut self,
        sum: &mut Sum,
        difference: Difference,
        id: u32,
        exponent: u32,
    ) -> Result<bool, AllocError> {
        let Some(factor) = self
            .kept
            .polys
            .power(self.closure, id, exponent, self.order)?
        else {
            return Ok(false);
        };
        if let Some(place) = self.place(difference) {
            self.add_ready(sum, place, &factor)?;
        }
        Ok(true)
    }

    /// Sums up a difference of powers, where those of its halves are at hand. Says whether it could.
    fn prepare_power(&mut self, place: u32, difference: Difference) -> Result<bool, AllocError> {
        let (from, to, power) = difference;
        let (less, more) = halves(power);
        let mut sum = Sum::zero(self.alloc);
        if less == more {
            // Both multiples are of one difference, which is used once.
            let first = self.kept.polys.power(self.closure, from, less, self.order)?;
            let second = self.kept.polys.power(self.closure, to, less, self.order)?;
            let (Some(mut factor), Some(second)) = (first, second) else {
                return Ok(false);
            };
            factor.add_scaled(self.alloc, &second, 1, self.order)?;
            if let Some(half) = self.place((from, to, less)) {
                self.add_ready(&mut sum, half, &factor)?;
            }
        } else if !self.add_times_power(&mut sum, (from, to, more), from, less)?
            || !self.add_times_power(&mut sum, (from, to, less), to, more)?
        {
            return Ok(false);
        }
        self.keep(place, sum)?;
        Ok(true)
    }

    /// The exponents of the differences that a difference of powers rests on, from the least on, and its own.
    fn exponents(&self, power: u32) -> Result<BTreeMap<u32, ()>, AllocError> {
        let mut found = BTreeMap::new(self.alloc);
        let mut waiting = Vec::new(self.alloc);
        waiting.push(power)?;
        for _ in 0..u64::MAX {
            let Some(power) = waiting.pop() else {
                break;
            };
            if power >= 1 && !found.contains_key(&power) {
                let (less, more) = halves(power);
                found.insert(power, ())?;
                waiting.push(less)?;
                waiting.push(more)?;
            }
        }
        Ok(found)
    }

    /// Sums up a difference whose halves are at hand, where it is one of powers. Says whether it could.
    fn prepare_one(&mut self, place: u32) -> Result<bool, AllocError> {
        let is_there = matches!(self.differences.get(place as usize), Some(Some(_)));
        let Some(shared) = self.grounds.shared.get(place as usize).copied() else {
            return Ok(true);
        };
        if is_there || shared.edge(self.grounds.ways.as_slice()).is_some() {
            return Ok(true);
        }
        if shared.difference.2 > 1 {
            return self.prepare_power(place, shared.difference);
        }
        self.prepare_way(place, shared.way)?;
        Ok(true)
    }

    /// Sums up a difference, unless it was. Says whether it could.
    fn prepare(&mut self, place: u32) -> Result<bool, AllocError> {
        let (from, to, power) = match self.grounds.shared.get(place as usize) {
            Some(shared) => shared.difference,
            None => return Ok(true),
        };
        if power > 1 {
            for (exponent, _) in &self.exponents(power)? {
                if let Some(part) = self.place((from, to, *exponent)) {
                    if !self.prepare_one(part)? {
                        return Ok(false);
                    }
                }
            }
        }
        self.prepare_one(place)
    }

    /// Adds the differences of the edges of a way times a factor to a sum.
    fn add_way(
        &mut self,
        sum: &mut Sum,
        way: (usize, usize),
        factor: Option<&Poly>,
    ) -> Result<(), AllocError> {
        for k in way.0..way.1 {
            if let Some(step) = self.grounds.ways.get(k).copied() {
                self.add_edge(sum, step, factor)?;
            }
        }
        Ok(())
    }

    /// Adds a difference times a factor to a sum. Says whether it could.
    fn add(&mut self, sum: &mut Sum, place: u32, factor: &Poly) -> Result<bool, AllocError> {
        match self.grounds.shared.get(place as usize).copied() {
            Some(shared) if shared.is_alone() && is_short(factor, self.order) => {
                self.add_way(sum, shared.way, Some(factor))?;
                return Ok(true);
            }
            _ => {}
        }
        if !self.prepare(place)? {
            return Ok(false);
        }
        self.add_ready(sum, place, factor)?;
        Ok(true)
    }

    /// The line of an equality.
    fn generator_of(&self, equality: NodeId) -> u32 {
        let equalities = self.equalities.as_slice();
        let place = match place_of(equalities, equality, true) {
            Some(place) => Some(place),
            None => place_of(equalities, equality, false),
        };
        match place {
            Some(place) => u32::try_from(place).unwrap_or(0),
            None => 0,
        }
    }

    /// The variable that is the inverse of the difference of the sides of an equality that does not hold.
    fn inverse_of(&self, equality: NodeId) -> u32 {
        self.closure
            .table
            .len()
            .saturating_add(self.generator_of(equality))
    }

    /// Takes the generator of an equality that does not hold times the difference of the ends of an edge from a sum. Says
    /// whether it could.
    fn take_generator(
        &mut self,
        sum: &mut Sum,
        edge: usize,
        equality: NodeId,
    ) -> Result<bool, AllocError> {
        let p = self.order;
        let Some((from, to)) = self.closure.classes.ends(edge) else {
            return Ok(false);
        };
        let minus = negative(1, p);
        let (Some(mut factor), Some(other)) = (
            self.kept.polys.product(self.closure, &[from], minus, p)?,
            self.kept.polys.product(self.closure, &[to], 1, p)?,
        ) else {
            return Ok(false);
        };
        factor.add_scaled(self.alloc, &other, 1, p)?;
        sum.add_line(self.generator_of(equality), &factor, 1, p)?;
        Ok(true)
    }

    /// The factor of the difference in a premise, or its negative; none where it is too long.
    fn factor(
        &mut self,
        edge: usize,
        place: usize,
        is_negative: bool,
    ) -> Result<Option<Poly>, AllocError> {
        let p = self.order;
        let Some(rest) = self.kept.rests.of_edge(edge) else {
            return Ok(None);
        };
        let Some(premise) = rest.premises.get(place) else {
            return Ok(None);
        };
        let weight = if is_negative {
            negative(premise.weight, p)
        } else {
            premise.weight
        };
        let others = premise.others.as_slice();
        let inverse = premise.inverse;
        let made = self.kept.polys.product(self.closure, others, weight, p)?;
        match (made, inverse) {
            (Some(poly), Some(equality)) => {
                let variable = self.inverse_of(equality);
                let times = self.kept.polys.times_variable(&poly, variable)?;
                Ok(Some(times))
            }
            (made, _) => Ok(made),
        }
    }

    /// The factors of the differences that the one of an edge's ends is a sum of multiples of; none where one is too long.
    fn factors(&mut self, edge: usize) -> Result<Option<Vec<Poly>>, AllocError> {
        let p = self.order;
        let mut factors: Vec<Poly> = Vec::new(self.alloc);
        let mut last = None;
        let count = match self.kept.rests.of_edge(edge) {
            Some(rest) => rest.order.len(),
            None => 0,
        };
        for k in 0..count {
            let one = self.kept.rests.part(edge, k);
            let Some((difference, place, is_negative)) = one else {
                break;
            };
            let Some(poly) = self.factor(edge, place, is_negative)? else {
                return Ok(None);
            };
            match factors.last_mut() {
                Some(before) if last == Some(difference) => {
                    before.add_scaled(self.alloc, &poly, 1, p)?;
                }
                _ => factors.push(poly)?,
            }
            last = Some(difference);
        }
        Ok(Some(factors))
    }

    /// Adds the differences of an edge, whose places begin there, times their factors to a sum. Says whether it could.
    fn add_all(
        &mut self,
        sum: &mut Sum,
        parts: usize,
        factors: &[Poly],
    ) -> Result<bool, AllocError> {
        let mut at = parts;
        for factor in factors {
            let place = self.grounds.parts.get(at).copied().unwrap_or(u32::MAX);
            if !factor.terms.is_empty() && !self.add(sum, place, factor)? {
                return Ok(false);
            }
            at = at.saturating_add(1);
        }
        Ok(true)
    }

    /// The difference of the ends of an edge as a sum; none where it is too long.
    fn edge_sum(&mut self, needed: Needed) -> Result<Option<Sum>, AllocError> {
        let edge = needed.edge;
        let factors = match self.kept.rests.take_factors(edge) {
            Some(factors) => factors,
            None => match self.factors(edge)? {
                Some(factors) => factors,
                None => return Ok(None),
            },
        };
        let mut sum = Sum::zero(self.alloc);
        let could = self.add_all(&mut sum, needed.parts, factors.as_slice())?;
        self.kept.rests.give_factors(edge, factors);
        if !could {
            return Ok(None);
        }
        if let Some(Reason::Cofactors(_, _, unlike)) = self.closure.reason(edge) {
            if !self.take_generator(&mut sum, edge, unlike.equality)? {
                return Ok(None);
            }
        }
        Ok(Some(sum.settled(self.alloc, self.order)?))
    }

    /// The difference of the ends of an edge: a given equality is its generator. None where it is too long.
    fn edge_item(&mut self, needed: Needed) -> Result<Option<Item>, AllocError> {
        if let Some(Reason::Equality(equality)) = self.closure.reason(needed.edge) {
            return Ok(Some(Item::of_line(self.alloc, self.generator_of(equality))));
        }
        let Some(sum) = self.edge_sum(needed)? else {
            return Ok(None);
        };
        let length = match self.closure.classes.ends(needed.edge) {
            Some((from, to)) => self.length((from, to, 1)),
            None => 1,
        };
        Ok(Some(Item::of(sum, length, needed.uses)))
    }

    /// Sums up the differences of all edges, from the first on. Says whether it could.
    fn prepare_all(&mut self) -> Result<bool, AllocError> {
        for slot in (0..self.grounds.needed.len()).rev() {
            let Some(needed) = self.grounds.needed.get(slot).copied() else {
                break;
            };
            let Some(item) = self.edge_item(needed)? else {
                return Ok(false);
            };
            if let Some(edge) = self.edges.get_mut(slot) {
                *edge = Some(item);
            }
        }
        Ok(true)
    }

    /// Numbers the generators of the equalities, which come first.
    fn number_all(&mut self) -> Result<(), AllocError> {
        for equality in &self.equalities {
            let length = self.closure.length(equality.node).saturating_add(1);
            self.lines.place(length)?;
        }
        Ok(())
    }

    /// Writes the last line of a clash, which is a constant other than 0. Says whether it could.
    fn conclude(&mut self, clash: Clash) -> Result<bool, AllocError> {
        let p = self.order;
        let (from, to) = clash.ends();
        let (difference, is_negative) = ordered(from, to, 1);
        let sign = if is_negative { negative(1, p) } else { 1 };
        let mut sum = Sum::zero(self.alloc);
        let mut factor = Poly::constant(self.alloc, 1)?;
        if let Clash::Unequal(equality, ..) = clash {
            // The generator of the equality is its difference times its inverse, less 1.
            let variable = self.inverse_of(equality);
            factor = self.kept.polys.times_variable(&factor, variable)?;
            let unit = Poly::constant(self.alloc, negative(sign, p))?;
            sum.add_line(self.generator_of(equality), &unit, 1, p)?;
        }
        let place = self.place(difference).unwrap_or(u32::MAX);
        if !self.add(&mut sum, place, &factor)? {
            return Ok(false);
        }
        let sum = sum.settled(self.alloc, p)?;
        let monomials = &self.kept.polys.monomials;
        let scale = sum.best_scale(monomials, p);
        self.lines.write(&sum, monomials, scale, 1, p)?;
        Ok(true)
    }

    /// The lines of the tree, and what is kept.
    fn into_parts(self) -> Result<(Vec<Lit>, Vec<CertLine>, Kept), AllocError> {
        let Tree {
            closure: _,
            alloc: _,
            order: _,
            kept,
            lines,
            grounds: _,
            one: _,
            equalities,
            edges: _,
            differences: _,
        } = self;
        Ok((equalities, lines.closed()?, kept))
    }
}

/// Equalities that do not hold together, as they are on a trail, and the lines of a tree that closes over their generators.
#[derive(Drop)]
pub struct Refutation {
    /// The order of their field.
    pub order: u64,
    pub equalities: Vec<Lit>,
    pub tree: Vec<CertLine>,
}

/// What a clash rests on; none where there is too much.
pub fn grounds_of(
    closure: &Closure,
    rests: &mut Rests,
    clash: Clash,
) -> Result<Option<Grounds>, AllocError> {
    let (from, to) = clash.ends();
    let mut grounds = Grounds::new(closure.alloc, closure.classes.now())?;
    let is_short = grounds.take_all(closure, rests, from, to)?;
    Ok(is_short.then_some(grounds))
}

/// Whether a literal comes before the one of a node among equalities: first those that hold, each kind by its nodes.
fn is_before(literal: Lit, node: NodeId, positive: bool) -> bool {
    if literal.positive == positive {
        literal.node < node
    } else {
        literal.positive
    }
}

/// The place of a literal among equalities: first those that hold, each kind by its nodes.
fn place_of(equalities: &[Lit], node: NodeId, positive: bool) -> Option<usize> {
    let (mut start, mut end) = (0usize, equalities.len());
    for _ in 0..u64::BITS {
        if start >= end {
            break;
        }
        let middle = start.saturating_add(end.saturating_sub(start) / 2);
        let Some(literal) = equalities.get(middle).copied() else {
            break;
        };
        if is_before(literal, node, positive) {
            start = middle.saturating_add(1);
        } else {
            end = middle;
        }
    }
    match equalities.get(start) {
        Some(literal) if literal.node == node && literal.positive == positive => Some(start),
        _ => None,
    }
}

/// So many differences that are not summed up.
fn none_of(alloc: Global, count: usize) -> Result<Vec<Option<Item>>, AllocError> {
    let mut items = Vec::with_capacity(alloc, count)?;
    for _ in 0..count {
        items.push(None)?;
    }
    Ok(items)
}

/// The refutation by what a clash rests on, of these equalities; none where it is too long. And what is kept.
pub fn refutation_from(
    closure: &Closure,
    clash: Clash,
    equalities: Vec<Lit>,
    grounds: Grounds,
    kept: Kept,
) -> Result<(Option<Refutation>, Kept), AllocError> {
    let alloc = closure.alloc;
    let edges = none_of(alloc, grounds.needed.len())?;
    let differences = none_of(alloc, grounds.shared.len())?;
    let mut tree = Tree {
        closure,
        alloc,
        order: closure.order_of(clash.ends().0),
        kept,
        lines: Lines::new(alloc),
        grounds,
        one: Poly::constant(alloc, 1)?,
        equalities,
        edges,
        differences,
    };
    tree.number_all()?;
    let could = tree.prepare_all()? && tree.conclude(clash)?;
    let order = tree.order;
    let (equalities, lines, kept) = tree.into_parts()?;
    let refutation = Refutation {
        order,
        equalities,
        tree: lines,
    };
    Ok((could.then_some(refutation), kept))
}
