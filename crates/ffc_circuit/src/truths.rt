//! The truth values of a trail, by node.
ghost use Rattle.std.specs.Prelude.{◌≡◌, true, All, Contains};
ghost use Rattle.ffc_clause.specs.Clauses.{Literal, negated};

use ffc_cdcl::Lit;
use ffc_term::NodeId;
use std::alloc::{AllocError, Global};

/// The literals of a trail, with a place among them for each node of a table. A place says nothing where the literal there is one
/// of another node, so literals are forgotten by a truncation (Briggs and Torczon 1993: sparse sets).
#[derive(Drop)]
pub struct Truths {
    places: Vec<usize>,
    literals: Vec<Lit>,
}

/// Whether a trail has this literal at a place.
fn is_at(trail: &[Lit], place: usize, literal: Lit) -> bool
    ensures { result ≡ true → Contains trail.now literal }
{
    place < trail.len() && trail[place].is_same(literal)
}

impl Truths {
    /// No values, of the nodes below a number.
    pub(crate) fn new(alloc: Global, nodes: u32) -> Result<Self, AllocError> {
        Ok(Truths {
            places: vec![in alloc; 0; nodes as usize]?,
            literals: Vec::new(alloc),
        })
    }

    /// The literals, in the order of the trail.
    pub(crate) fn literals(&self) -> &[Lit] {
        self.literals.as_slice()
    }

    /// Makes a literal true.
    pub(crate) fn push(&mut self, literal: Lit) -> Result<(), AllocError> {
        if let Some(place) = self.places.get_mut(literal.node as usize) {
            *place = self.literals.len();
        }
        self.literals.push(literal)?;
        Ok(())
    }

    /// Forgets all literals but so many.
    pub(crate) fn keep(&mut self, count: usize) {
        self.literals.truncate(count);
    }

    /// Where the trail has the literal of a node, if it has one.
    fn place_of(&self, node: NodeId) -> usize {
        match self.places.get(node as usize) {
            Some(place) => *place,
            None => usize::MAX,
        }
    }

    /// The value of a node.
    pub fn get(&self, node: NodeId) -> Option<bool> {
        match self.literals.get(self.place_of(node)) {
            Some(literal) if literal.node == node => Some(literal.positive),
            _ => None,
        }
    }

    /// Whether each literal of a clause is false on the trail that these values are of.
    pub fn falsify(&self, trail: &[Lit], clause: &[Lit]) -> bool
        ensures { result ≡ true → All (λ (l : Literal). Contains trail.now (negated l)) clause.now }
    {
        for literal in clause {
            if !is_at(trail, self.place_of(literal.node), literal.negated()) {
                return false;
            }
        }
        true
    }
}
