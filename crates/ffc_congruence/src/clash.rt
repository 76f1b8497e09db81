//! Equalities that do not go together with what follows from the others.
use ffc_term::NodeId;
use std::alloc::{AllocError, Global};
use std::collections::BTreeMap;

/// Two ids that are equal and are not to be.
#[derive(Clone, Copy)]
pub enum Clash {
    /// Two values.
    Values(u32, u32),
    /// The sides of this equality, which does not hold.
    Unequal(NodeId, u32, u32),
}

impl Clash {
    /// The two ids.
    pub fn ends(self) -> (u32, u32) {
        match self {
            Clash::Values(one, other) => (one, other),
            Clash::Unequal(_, left, right) => (left, right),
        }
    }
}

/// A side of an equality that does not hold, and the entry of the same id before it.
#[derive(Clone, Copy)]
struct Side {
    id: u32,
    clash: Clash,
    before: Option<usize>,
}

/// The equalities that do not hold, by their sides, the last of which can be taken away.
#[derive(Drop)]
pub struct Unequal {
    sides: Vec<Side>,
    /// Of each id its last entry.
    last: BTreeMap<u32, usize>,
}

impl Unequal {
    /// None. It takes no memory.
    pub fn new(alloc: Global) -> Unequal {
        Unequal {
            sides: Vec::new(alloc),
            last: BTreeMap::new(alloc),
        }
    }

    pub fn len(&self) -> usize {
        self.sides.len()
    }

    /// Notes a side of an equality that does not hold.
    pub fn push(&mut self, id: u32, clash: Clash) -> Result<(), AllocError> {
        let before = self.last.insert(id, self.sides.len())?;
        self.sides.push(Side { id, clash, before })?;
        Ok(())
    }

    /// Keeps only the first sides. It takes no memory.
    pub fn truncate(&mut self, count: usize) {
        for _ in count..self.sides.len() {
            let Some(side) = self.sides.pop() else {
                break;
            };
            match (side.before, self.last.get_mut(&side.id)) {
                (Some(before), Some(last)) => *last = before,
                _ => {
                    let _ = self.last.remove(&side.id);
                }
            }
        }
    }

    /// The equalities that do not hold and have this id as a side.
    pub fn of_id(&self, alloc: Global, id: u32) -> Result<Vec<Clash>, AllocError> {
        let mut found = Vec::new(alloc);
        let mut at = self.last.get(&id).copied();
        for _ in 0..self.sides.len() {
            let Some(side) = at.and_then(|place| self.sides.get(place)) else {
                break;
            };
            found.push(side.clash)?;
            at = side.before;
        }
        Ok(found)
    }
}
