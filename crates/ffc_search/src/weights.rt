//! How often the variables of cases were needed to close branches.
use std::alloc::{AllocError, Global};
use std::collections::BTreeMap;

/// For each variable by whose values cases were made, how many closed branches rest on its case. Cases are made by variables
/// of great weight first, as in constraint solvers (Boussemart, Hemery, Lecoutre and Sais 2004: weights of constraints).
#[derive(Drop)]
pub struct Weights {
    items: BTreeMap<u32, u64>,
}

impl Weights {
    /// No variable has a weight. It takes no memory.
    pub fn new(alloc: Global) -> Self {
        Weights {
            items: BTreeMap::new(alloc),
        }
    }

    /// The weight of a variable.
    pub fn of(&self, x: u32) -> u64 {
        self.items.get(&x).copied().unwrap_or(0)
    }

    /// Adds one to the weight of a variable.
    pub fn add(&mut self, x: u32) -> Result<(), AllocError> {
        let weight = self.of(x).saturating_add(1);
        self.items.insert(x, weight)?;
        Ok(())
    }
}
