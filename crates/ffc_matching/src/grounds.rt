//! What a clash rests on: edges, and differences of equal ids, with how often each is used.
use crate::powers::{Difference, halves, ordered};
use crate::rests::Rests;
use ffc_cdcl::Lit;
use ffc_congruence::{Clash, Closure, Reason, Step};
use ffc_term::NodeId;
use std::alloc::{AllocError, Global};

/// So many edges, differences and factors are gone through, and no more.
const MOST_STEPS: usize = 1_000_000;

/// An edge that a clash rests on.
#[derive(Clone, Copy)]
pub struct Needed {
    pub edge: usize,
    pub uses: u32,
    /// Where the places of its differences begin among those of all edges.
    pub parts: usize,
}

/// A difference that a clash rests on.
#[derive(Clone, Copy)]
pub struct Shared {
    pub difference: Difference,
    pub uses: u32,
    /// Where the way between its ids begins and ends among those of all, where it is no power.
    pub way: (usize, usize),
}

impl Shared {
    /// Whether it is one of ids and used once.
    pub fn is_alone(&self) -> bool {
        self.difference.2 <= 1 && self.uses <= 1
    }

    /// The edge between its ids, where it is one.
    pub fn edge(&self, ways: &[Step]) -> Option<Step> {
        let (start, end) = self.way;
        if end == start.saturating_add(1) {
            ways.get(start).copied()
        } else {
            None
        }
    }
}

/// The edges that a clash rests on, the last one first, and the differences. A difference of ids with one edge between them is
/// used as that.
#[derive(Drop)]
pub struct Grounds {
    pub alloc: Global,
    /// Of each edge how often it is used so far.
    uses: Vec<u32>,
    /// Of each edge its place among those that are needed.
    pub slots: Vec<u32>,
    steps: usize,
    pub needed: Vec<Needed>,
    /// Of each edge in turn the places of its differences.
    pub parts: Vec<u32>,
    pub shared: Vec<Shared>,
    pub ways: Vec<Step>,
    /// Of each difference by its name its place and 1 more, if it has one.
    places: Vec<u32>,
}

/// Appends literals of nodes in increasing order, each once.
fn append_literals(
    used: &mut Vec<Lit>,
    mut nodes: Vec<NodeId>,
    positive: bool,
) -> Result<(), AllocError> {
    nodes.sort_unstable();
    nodes.dedup();
    for node in &nodes {
        used.push(Lit {
            node: *node,
            positive,
        })?;
    }
    Ok(())
}

impl Grounds {
    /// Of so many edges none.
    pub fn new(alloc: Global, edges: usize) -> Result<Grounds, AllocError> {
        Ok(Grounds {
            alloc,
            uses: vec![in alloc; 0; edges]?,
            slots: vec![in alloc; 0; edges]?,
            steps: 0,
            needed: Vec::new(alloc),
            parts: Vec::new(alloc),
            shared: Vec::new(alloc),
            ways: Vec::new(alloc),
            places: Vec::new(alloc),
        })
    }

    /// The place of a difference of this name.
    pub fn place(&self, number: u32) -> Option<u32> {
        match self.places.get(number as usize) {
            Some(place) => place.checked_sub(1),
            None => None,
        }
    }

    /// Counts a use of a difference, and says where it is and whether it is the first.
    fn count(&mut self, number: u32, difference: Difference) -> Result<(u32, bool), AllocError> {
        if let Some(place) = self.place(number) {
            if let Some(shared) = self.shared.get_mut(place as usize) {
                shared.uses = shared.uses.saturating_add(1);
            }
            return Ok((place, false));
        }
        let place = u32::try_from(self.shared.len()).unwrap_or(u32::MAX);
        if let Some(noted) = self.places.get_mut(number as usize) {
            *noted = place.saturating_add(1);
        }
        self.shared.push(Shared {
            difference,
            uses: 1,
            way: (0, 0),
        })?;
        Ok((place, true))
    }

    /// Counts a use of an edge, which is taken later.
    fn want(&mut self, edge: usize) {
        self.steps = self.steps.saturating_add(1);
        if let Some(uses) = self.uses.get_mut(edge) {
            *uses = uses.saturating_add(1);
        }
    }

    /// Notes the way between two ids, and counts a use of the edges on it.
    fn note_way(
        &mut self,
        closure: &Closure,
        place: u32,
        from: u32,
        to: u32,
    ) -> Result<(), AllocError> {
        let start = self.ways.len();
        for step in closure.classes.way(self.alloc, from, to)? {
            self.want(step.edge);
            self.ways.push(step)?;
        }
        let way = (start, self.ways.len());
        if let Some(shared) = self.shared.get_mut(place as usize) {
            shared.way = way;
        }
        Ok(())
    }

    /// Counts a use of the difference of two ids, and of the edges between them where it is the first or there is one.
    fn want_way(
        &mut self,
        closure: &Closure,
        number: u32,
        from: u32,
        to: u32,
    ) -> Result<u32, AllocError> {
        let (place, is_first) = self.count(number, (from, to, 1))?;
        if is_first {
            self.note_way(closure, place, from, to)?;
        } else if let Some(shared) = self.shared.get(place as usize).copied() {
            if let Some(step) = shared.edge(self.ways.as_slice()) {
                self.want(step.edge);
            }
        }
        Ok(place)
    }

    /// Counts a use of a difference of ids or of powers, and lets it wait where it is one of powers and the first.
    fn want_part(
        &mut self,
        closure: &Closure,
        number: u32,
        difference: Difference,
        waiting: &mut Vec<u32>,
    ) -> Result<u32, AllocError> {
        let (from, to, power) = difference;
        if power <= 1 {
            return self.want_way(closure, number, from, to);
        }
        let (place, is_first) = self.count(number, difference)?;
        if is_first {
            waiting.push(power)?;
        }
        Ok(place)
    }

    /// Counts a use of the difference of powers of two ids with half an exponent.
    fn want_half(
        &mut self,
        closure: &Closure,
        rests: &Rests,
        half: Difference,
        waiting: &mut Vec<u32>,
    ) -> Result<(), AllocError> {
        if let Some(number) = rests.number_of(half) {
            self.want_part(closure, number, half, waiting)?;
        }
        Ok(())
    }

    /// Counts a use of a difference of this name, and of what it is made of where it is the first.
    fn want_difference(
        &mut self,
        closure: &Closure,
        rests: &Rests,
        number: u32,
        difference: Difference,
    ) -> Result<u32, AllocError> {
        let (from, to, _) = difference;
        let mut waiting = Vec::new(self.alloc);
        let place = self.want_part(closure, number, difference, &mut waiting)?;
        for _ in 0..u64::MAX {
            let Some(power) = waiting.pop() else {
                break;
            };
            self.steps = self.steps.saturating_add(1);
            let (less, more) = halves(power);
            self.want_half(closure, rests, (from, to, less), &mut waiting)?;
            if more != less {
                self.want_half(closure, rests, (from, to, more), &mut waiting)?;
            }
        }
        Ok(place)
    }

    fn is_too_long(&self) -> bool {
        self.steps > MOST_STEPS
    }

    /// Takes an edge, and counts what it rests on, as long as there are few enough steps.
    fn take(
        &mut self,
        closure: &Closure,
        rests: &mut Rests,
        edge: usize,
        uses: u32,
    ) -> Result<(), AllocError> {
        let parts = self.parts.len();
        rests.find(closure, edge)?;
        self.places.resize(rests.names(), 0)?;
        if let Some(rest) = rests.of_edge(edge) {
            self.steps = self.steps.saturating_add(rest.size);
            for (difference, number) in &rest.differences {
                if self.is_too_long() {
                    break;
                }
                let place = self.want_difference(closure, rests, *number, *difference)?;
                self.parts.push(place)?;
            }
        }
        if let Some(slot) = self.slots.get_mut(edge) {
            *slot = u32::try_from(self.needed.len()).unwrap_or(u32::MAX);
        }
        self.needed.push(Needed { edge, uses, parts })?;
        Ok(())
    }

    /// Takes all edges that the difference of two ids rests on. Says whether these are few enough.
    pub fn take_all(
        &mut self,
        closure: &Closure,
        rests: &mut Rests,
        from: u32,
        to: u32,
    ) -> Result<bool, AllocError> {
        let ((from, to, _), _) = ordered(from, to, 1);
        let number = rests.name((from, to, 1))?;
        self.places.resize(rests.names(), 0)?;
        self.want_way(closure, number, from, to)?;
        for edge in (0..self.uses.len()).rev() {
            let uses = self.uses.get(edge).copied().unwrap_or(0);
            if uses == 0 {
                continue;
            }
            if self.is_too_long() {
                break;
            }
            self.take(closure, rests, edge, uses)?;
        }
        Ok(!self.is_too_long())
    }

    /// Whether there is at most one edge besides each of so many equalities.
    pub fn are_few(&self, equalities: usize) -> bool {
        self.needed.len() <= equalities.saturating_mul(2)
    }

    /// The equalities among the edges, in the order of their nodes, and then those that do not hold.
    pub fn equalities(&self, closure: &Closure, clash: Clash) -> Result<Vec<Lit>, AllocError> {
        let mut equal = Vec::new(self.alloc);
        let mut unequal = Vec::new(self.alloc);
        for needed in &self.needed {
            match closure.reason(needed.edge) {
                Some(Reason::Equality(node)) => equal.push(node)?,
                Some(Reason::Cofactors(_, _, unlike)) => unequal.push(unlike.equality)?,
                _ => {}
            }
        }
        if let Clash::Unequal(node, ..) = clash {
            unequal.push(node)?;
        }
        let mut used = Vec::new(self.alloc);
        append_literals(&mut used, equal, true)?;
        append_literals(&mut used, unequal, false)?;
        Ok(used)
    }
}
