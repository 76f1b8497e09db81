//! The trail: literals that are true together, in the order in which they were put there.
ghost use Rattle.std.specs.Prelude.{◌≡◌, ◌<◌, ◌≤◌, ◌++◌, ◌∷◌, [], true, false, Some, None, Contains, IfOk, IfSome, IsErrOf};
ghost use Rattle.std.specs.Prelude.{length, slice_set};
ghost use Rattle.ffc_base.specs.Metering.{Metered};
ghost use Rattle.ffc_clause.specs.Clauses.{negated};
ghost use Rattle.ffc_cdcl.specs.Literals.{NamesNoNodeTwice};
ghost use Rattle.ffc_cdcl.specs.Trails.{IsOpen, Pays};

use crate::literal::Lit;
use crate::packed::Packed;
use ffc_base::{Meter, SearchStop, Unit};
use ffc_term::NodeId;
use std::alloc::{AllocError, Global};
use std::marker::Model;

/// When and why a node's literal was put on the trail.
#[derive(Clone, Copy)]
pub struct Entry {
    pub level: u32,
    pub position: u32,
    /// The clause of a propagated literal.
    pub reason: Option<u32>,
}

/// A level or a position; there are fewer than 2^32 of either on a trail, which has a literal for each.
fn short(count: usize) -> u32 {
    u32::try_from(count).unwrap_or(u32::MAX)
}

/// Clauses see the literals and the number of nodes. Levels begin at decisions; level 0 has none.
#[derive(Drop)]
pub struct Trail {
    values: Vec<Option<bool>>,
    /// Which literals are on the trail, by their places: what propagation reads.
    truths: Vec<bool>,
    literals: Vec<Lit>,
    entries: Vec<Entry>,
    starts: Vec<usize>,
    /// The least number of literals that it had since it was last asked for.
    kept: usize,
}

impl Model for Trail {
    ghost use Rattle.std.specs.Prelude.{length};
    ghost use Rattle.ffc_cdcl.specs.Trails.{Assigned, IsTrail};

    ghost Value = { Assigned };

    ghost view = { λ t. record { nodes = length t.values.items; literals = t.literals.items } };

    ghost invariant = { λ t. IsTrail t.values.items t.literals.items };
}

/// Gives a node its value.
fn write_at(values: &mut Vec<Option<bool>>, node: NodeId, value: Option<bool>)
    ensures { values.new.items ≡ slice_set values.old.items node value }
{
    if (node as usize) < values.len() {
        values[node as usize] = value;
    }
}

/// Notes whether a literal is on the trail.
fn mark_at(truths: &mut Vec<bool>, literal: Packed, truth: bool) {
    let place = literal.place();
    if place < truths.len() {
        truths[place] = truth;
    }
}

fn enter(entries: &mut Vec<Entry>, node: NodeId, entry: Entry) {
    if (node as usize) < entries.len() {
        entries[node as usize] = entry;
    }
}

impl Trail {
    /// An empty trail over the nodes below a number.
    pub fn new(alloc: Global, nodes: usize) -> Result<Self, AllocError>
        ensures { IfOk result (λ t. t ≡ record { nodes = nodes; literals = [] }) }
    {
        let entry = Entry {
            level: 0,
            position: 0,
            reason: None,
        };
        Ok(Trail {
            values: vec![in alloc; None; nodes]?,
            truths: vec![in alloc; false; nodes.saturating_mul(2)]?,
            literals: Vec::new(alloc),
            entries: vec![in alloc; entry; nodes]?,
            starts: Vec::new(alloc),
            kept: 0,
        })
    }

    /// The value that the trail gives a node.
    #[inline(always)]
    fn value_of(&self, node: NodeId) -> Option<bool>
        ensures given { IfSome result (λ b. Contains self.now.literals (b, node)) }
        ensures none { result ≡ None → node < self.now.nodes → IsOpen self.now node }
    {
        if (node as usize) < self.values.len() {
            self.values[node as usize]
        } else {
            None
        }
    }

    /// Whether the trail has a literal.
    #[inline(always)]
    pub fn is_true(&self, literal: Lit) -> bool
        ensures { result ≡ true → Contains self.now.literals literal }
    {
        self.value_of(literal.node) == Some(literal.positive)
    }

    /// Whether the trail has a literal's negation.
    #[inline(always)]
    pub fn is_false(&self, literal: Lit) -> bool
        ensures { result ≡ true → Contains self.now.literals (negated literal) }
    {
        self.value_of(literal.node) == Some(!literal.positive)
    }

    /// Whether the trail has a literal that a clause of the search has.
    #[inline(always)]
    pub fn has(&self, literal: Packed) -> bool {
        let place = literal.place();
        place < self.truths.len() && self.truths[place]
    }

    /// Whether the trail has neither a literal of this node nor its negation.
    pub fn is_open(&self, node: NodeId) -> bool
        ensures { result ≡ true → IsOpen self.now node }
    {
        (node as usize) < self.values.len() && self.value_of(node).is_none()
    }

    /// The literals in order.
    #[inline(always)]
    pub fn literals(&self) -> &[Lit]
        ensures literals { result.now ≡ self.now.literals }
        ensures distinct { NamesNoNodeTwice result.now }
    {
        self.literals.as_slice()
    }

    /// No node has two literals.
    pub fn names_no_node_twice(&self)
        ensures { NamesNoNodeTwice self.now.literals }
    {
        let _ = &self.literals;
    }

    /// When and why a node's literal was put on the trail.
    #[inline(always)]
    pub fn entry(&self, node: NodeId) -> Option<Entry> {
        self.entries.as_slice().get(node as usize).copied()
    }

    /// A trail has at most so many literals.
    pub fn nodes(&self) -> usize {
        self.values.len()
    }

    pub fn level(&self) -> u32 {
        short(self.starts.len())
    }

    /// How many literals the levels up to this one have.
    pub fn end_of(&self, level: u32) -> usize {
        match self.starts.as_slice().get(level as usize) {
            Some(end) => *end,
            None => self.literals.len(),
        }
    }

    /// How many of its first literals have stood since this was last asked; at first none.
    pub fn take_kept(&mut self) -> usize
        ensures within { result ≤ length self.new.literals }
        ensures same { self.new ≡ self.old }
    {
        let count = self.literals.len();
        let kept = self.kept.min(count);
        self.kept = count;
        kept
    }

    /// Begins a level.
    pub fn begin_level(&mut self) -> Result<(), AllocError>
        ensures { self.new ≡ self.old }
    {
        self.starts.push(self.literals.len())?;
        Ok(())
    }

    /// Puts a literal on the trail, which takes a unit, unless its node has one there. Says whether it did.
    pub fn assign(
        &mut self,
        literal: Lit,
        reason: Option<u32>,
        meter: &mut Meter,
    ) -> Result<bool, SearchStop>
        ensures put { IfOk result (λ put. put ≡ true → self.new.literals ≡ self.old.literals ++ literal ∷ []) }
        ensures kept { IfOk result (λ put. put ≡ false → self.new ≡ self.old) }
        ensures pays { Pays self.old self.new meter.old meter.new }
        ensures metered { Metered SearchStop.Spent result meter.old meter.new }
        ensures room { IsErrOf result SearchStop.Spent → length self.new.literals < self.new.nodes }
    {
        if !self.is_open(literal.node) {
            return Ok(false);
        }
        let entry = Entry {
            level: short(self.starts.len()),
            position: short(self.literals.len()),
            reason,
        };
        if let Err(_) = self.literals.push(literal) {
            return Err(SearchStop::Memory);
        }
        if let Err(_) = meter.take(Unit::Assignment) {
            self.literals.pop();
            return Err(SearchStop::Spent);
        }
        write_at(&mut self.values, literal.node, Some(literal.positive));
        mark_at(&mut self.truths, Packed::of(literal), true);
        enter(&mut self.entries, literal.node, entry);
        Ok(true)
    }

    /// Takes the last literal off the trail.
    fn pop(&mut self) -> Option<Lit>
        ensures { self.new.nodes ≡ self.old.nodes }
    {
        let literal = self.literals.pop()?;
        write_at(&mut self.values, literal.node, None);
        mark_at(&mut self.truths, Packed::of(literal), false);
        Some(literal)
    }

    /// Takes the last literal off the trail where it is above a level. Where none is, the level is the last one from there on.
    pub fn pop_above(&mut self, level: u32) -> Option<Lit>
        ensures { self.new.nodes ≡ self.old.nodes }
    {
        if self.literals.len() > self.end_of(level) {
            let literal = self.pop();
            self.kept = self.kept.min(self.literals.len());
            return literal;
        }
        self.starts.truncate(level as usize);
        None
    }
}
