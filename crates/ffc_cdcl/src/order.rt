//! The order in which nodes are decided: those with the most activity first (VSIDS; Moskewicz, Madigan, Zhao, Zhang and Malik
//! 2001), in a binary heap.
use crate::literal::Lit;
use ffc_term::NodeId;
use std::alloc::{AllocError, Global};

/// Activities are scaled down past this bound.
const MOST_ACTIVITY: u64 = 1 << 60;

/// By how many bits they are scaled down.
const SCALED_BITS: u32 = 40;

/// A heap of fewer than 2^64 nodes has at most this many levels.
const MOST_LEVELS: u32 = 64;

/// A heap of nodes by their activities. Every access is tested, so that it needs no invariant.
#[derive(Drop)]
pub struct Order {
    activities: Vec<u64>,
    heap: Vec<NodeId>,
    places: Vec<Option<usize>>,
    bump: u64,
}

impl Order {
    /// An empty heap over the nodes below a number.
    pub fn new(alloc: Global, nodes: usize) -> Result<Self, AllocError> {
        Ok(Order {
            activities: vec![in alloc; 0; nodes]?,
            heap: Vec::new(alloc),
            places: vec![in alloc; None; nodes]?,
            bump: 1 << SCALED_BITS,
        })
    }

    /// How many nodes are in the heap.
    pub fn len(&self) -> usize {
        self.heap.len()
    }

    /// The activity of the node at a place, or 0.
    #[inline(always)]
    fn activity_at(&self, place: usize) -> u64 {
        match self.heap.as_slice().get(place) {
            Some(node) => self
                .activities
                .as_slice()
                .get(*node as usize)
                .copied()
                .unwrap_or(0),
            None => 0,
        }
    }

    /// Notes that the node at a place is there.
    fn note(&mut self, place: usize) {
        if place < self.heap.len() {
            let node = self.heap[place] as usize;
            if node < self.places.len() {
                self.places[node] = Some(place);
            }
        }
    }

    fn swap(&mut self, a: usize, b: usize) {
        if a < self.heap.len() && b < self.heap.len() {
            self.heap.as_mut_slice().swap(a, b);
            self.note(a);
            self.note(b);
        }
    }

    fn sift_up(&mut self, from: usize) {
        let mut place = from;
        for _ in 0..MOST_LEVELS {
            if place == 0 {
                return;
            }
            let parent = (place - 1) / 2;
            if self.activity_at(place) <= self.activity_at(parent) {
                return;
            }
            self.swap(place, parent);
            place = parent;
        }
    }

    /// The child with more activity, where the place has one.
    fn child(&self, place: usize) -> Option<usize> {
        let count = self.heap.len();
        if place >= count / 2 {
            return None;
        }
        let left = 2 * place + 1;
        if left + 1 < count && self.activity_at(left + 1) > self.activity_at(left) {
            return Some(left + 1);
        }
        Some(left)
    }

    fn sift_down(&mut self, from: usize) {
        let mut place = from;
        for _ in 0..MOST_LEVELS {
            let Some(child) = self.child(place) else {
                return;
            };
            if self.activity_at(child) <= self.activity_at(place) {
                return;
            }
            self.swap(place, child);
            place = child;
        }
    }

    /// Puts a node into the heap, where it is not there.
    pub fn insert(&mut self, node: NodeId) -> Result<(), AllocError> {
        if (node as usize) < self.places.len() && self.places[node as usize].is_none() {
            let place = self.heap.len();
            self.heap.push(node)?;
            self.note(place);
            self.sift_up(place);
        }
        Ok(())
    }

    /// Puts the nodes of a clause into the heap, where they are not there.
    pub fn insert_all(&mut self, clause: &[Lit]) -> Result<(), AllocError> {
        for literal in clause {
            self.insert(literal.node)?;
        }
        Ok(())
    }

    /// Takes the most active node out.
    pub fn pop(&mut self) -> Option<NodeId> {
        if self.heap.len() == 0 {
            return None;
        }
        let last = self.heap.len() - 1;
        self.swap(0, last);
        let node = self.heap.pop()?;
        if (node as usize) < self.places.len() {
            self.places[node as usize] = None;
        }
        self.sift_down(0);
        Some(node)
    }

    /// Scales every activity down.
    fn scale(&mut self) {
        for activity in self.activities.as_mut_slice().iter_mut() {
            *activity >>= SCALED_BITS;
        }
        self.bump = (self.bump >> SCALED_BITS).max(1);
    }

    /// Raises a node's activity.
    pub fn bump(&mut self, node: NodeId) {
        if node as usize >= self.activities.len() {
            return;
        }
        let raised = self.activities[node as usize].saturating_add(self.bump);
        self.activities[node as usize] = raised;
        if raised > MOST_ACTIVITY {
            self.scale();
        }
        if let Some(Some(place)) = self.places.as_slice().get(node as usize).copied() {
            self.sift_up(place);
        }
    }

    /// Makes later bumps count for more.
    pub fn decay(&mut self) {
        self.bump = self.bump.saturating_add(self.bump / 16);
    }
}
