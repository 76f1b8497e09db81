//! What edges rest on, kept as long as they stand.
use crate::polynomials::Poly;
use crate::powers::{Difference, difference_in, halves};
use ffc_congruence::{Closure, Premise};
use std::alloc::{AllocError, Global};
use std::collections::BTreeMap;

/// Factors of more terms are made anew for each refutation.
const MOST_KEPT: usize = 32;

/// What the difference of the ends of an edge is: a sum of multiples of differences of powers of equal ids.
#[derive(Drop)]
pub struct Rest {
    pub premises: Vec<Premise>,
    /// The difference in each of them with its place there, in increasing order, and whether it is a negative one.
    pub order: Vec<(Difference, usize, bool)>,
    /// The differences, each once, with their names.
    pub differences: Vec<(Difference, u32)>,
    /// How many ids there are.
    pub size: usize,
    /// The factor of each difference, where they are kept.
    factors: Option<Vec<Poly>>,
}

impl Rest {
    fn of(alloc: Global, names: &mut Names, premises: Vec<Premise>) -> Result<Rest, AllocError> {
        let mut order = Vec::new(alloc);
        let mut size = 0usize;
        for (place, premise) in premises.iter().enumerate() {
            size = size.saturating_add(premise.others.len().saturating_add(1));
            let (difference, is_negative) = difference_in(premise);
            order.push((difference, place, is_negative))?;
        }
        order.sort_unstable();
        let mut differences = Vec::new(alloc);
        let mut last = None;
        for (difference, _, _) in &order {
            if last != Some(*difference) {
                differences.push((*difference, names.name_all(alloc, *difference)?))?;
            }
            last = Some(*difference);
        }
        Ok(Rest {
            premises,
            order,
            differences,
            size,
            factors: None,
        })
    }

    /// Whether its factors are few and rest on no line of a tree.
    fn can_keep(&self, factors: &[Poly]) -> bool {
        let mut terms = 0usize;
        for factor in factors {
            terms = terms.saturating_add(factor.terms.len());
        }
        let mut are_free = true;
        for premise in &self.premises {
            are_free = are_free && premise.inverse.is_none();
        }
        are_free && terms <= MOST_KEPT
    }
}

/// Numbers that differences are called by.
#[derive(Drop)]
struct Names {
    numbers: BTreeMap<Difference, u32>,
}

impl Names {
    fn name(&mut self, difference: Difference) -> Result<u32, AllocError> {
        if let Some(number) = self.numbers.get(&difference) {
            return Ok(*number);
        }
        let number = u32::try_from(self.numbers.len()).unwrap_or(u32::MAX);
        self.numbers.insert(difference, number)?;
        Ok(number)
    }

    /// Names a difference, and those of lower powers that it is made of.
    fn name_all(&mut self, alloc: Global, difference: Difference) -> Result<u32, AllocError> {
        let (from, to, power) = difference;
        let mut waiting = Vec::new(alloc);
        if power > 1 {
            waiting.push(power)?;
        }
        for _ in 0..u64::MAX {
            let Some(power) = waiting.pop() else {
                break;
            };
            let (less, more) = halves(power);
            for half in [less, more] {
                if !self.numbers.contains_key(&(from, to, half)) {
                    self.name((from, to, half))?;
                    waiting.push(half)?;
                }
            }
        }
        self.name(difference)
    }
}

/// What edges rest on, by their numbers.
#[derive(Drop)]
pub struct Rests {
    alloc: Global,
    names: Names,
    edges: Vec<Option<Rest>>,
}

impl Rests {
    /// Of no edges. It takes no memory.
    pub fn new(alloc: Global) -> Rests {
        Rests {
            alloc,
            names: Names {
                numbers: BTreeMap::new(alloc),
            },
            edges: Vec::new(alloc),
        }
    }

    /// How many differences have names.
    pub fn names(&self) -> usize {
        self.names.numbers.len()
    }

    /// The name of a difference.
    pub fn number_of(&self, difference: Difference) -> Option<u32> {
        self.names.numbers.get(&difference).copied()
    }

    /// The name of a difference, which is given to it where it has none.
    pub fn name(&mut self, difference: Difference) -> Result<u32, AllocError> {
        self.names.name(difference)
    }

    /// Forgets all edges but the first ones.
    pub fn keep(&mut self, count: usize) {
        self.edges.truncate(count);
    }

    /// What an edge rests on, where that was found.
    pub fn of_edge(&self, edge: usize) -> Option<&Rest> {
        match self.edges.get(edge) {
            Some(Some(rest)) => Some(rest),
            _ => None,
        }
    }

    /// The difference at a place of an edge's order, with its premise and whether it is a negative one.
    pub fn part(&self, edge: usize, place: usize) -> Option<(Difference, usize, bool)> {
        match self.of_edge(edge) {
            Some(rest) => rest.order.get(place).copied(),
            None => None,
        }
    }

    /// Finds what an edge rests on, unless that was.
    pub fn find(&mut self, closure: &Closure, edge: usize) -> Result<(), AllocError> {
        if self.of_edge(edge).is_some() {
            return Ok(());
        }
        let premises = closure.premises(edge)?;
        let rest = Rest::of(self.alloc, &mut self.names, premises)?;
        for _ in self.edges.len()..edge.saturating_add(1) {
            self.edges.push(None)?;
        }
        if let Some(place) = self.edges.get_mut(edge) {
            *place = Some(rest);
        }
        Ok(())
    }

    /// The factors of an edge's differences, where they are kept. They are to be given back.
    pub fn take_factors(&mut self, edge: usize) -> Option<Vec<Poly>> {
        match self.edges.get_mut(edge) {
            Some(Some(rest)) => rest.factors.take(),
            _ => None,
        }
    }

    /// Keeps the factors of an edge's differences, where they are few.
    pub fn give_factors(&mut self, edge: usize, factors: Vec<Poly>) {
        if let Some(Some(rest)) = self.edges.get_mut(edge) {
            if rest.can_keep(factors.as_slice()) {
                rest.factors = Some(factors);
            }
        }
    }
}
