//! What is known of single bits, by lines that replace them.
ghost use Rattle.std.specs.Prelude.{◌≡◌, IsErrOf};

use crate::derived::Source;
use crate::polynomials::linear;
use ffc_base::SearchStop;
use ffc_field::Field;
use ffc_mono::MonoOrder;
use ffc_poly::Poly;
use std::alloc::{AllocError, Global};
use std::collections::BTreeMap;

/// What a bit is.
#[derive(Clone, Copy)]
pub enum Known {
    Value(bool),
    /// The same as this bit.
    Same(u32),
    /// The other value than this bit.
    Opposite(u32),
}

/// A line that replaces a bit: the polynomial that says what the bit is, times a factor, which is a residue.
#[derive(Clone, Copy)]
pub struct Rule {
    pub known: Known,
    pub source: Source,
    pub factor: u64,
}

/// Rules by the bits that they replace.
#[derive(Drop)]
pub struct Rules {
    places: BTreeMap<u32, usize>,
    rules: Vec<Rule>,
}

impl Rules {
    /// No rules. It takes no memory.
    pub fn new(alloc: Global) -> Self {
        Rules {
            places: BTreeMap::new(alloc),
            rules: Vec::new(alloc),
        }
    }

    /// Whether a bit is replaced.
    pub fn has(&self, x: u32) -> bool {
        self.places.contains_key(&x)
    }

    /// The rule that replaces a bit.
    pub fn get(&self, x: u32) -> Option<&Rule> {
        let place = self.places.get(&x)?;
        self.rules.get(*place)
    }

    /// Replaces a bit by a rule from now on.
    pub fn insert(&mut self, x: u32, rule: Rule) -> Result<(), AllocError> {
        self.places.insert(x, self.rules.len())?;
        self.rules.push(rule)?;
        Ok(())
    }
}

impl Known {
    /// The polynomial that says so of a bit.
    pub fn poly<F: Field, O: MonoOrder>(
        self,
        alloc: Global,
        x: u32,
    ) -> Result<Poly<F, O>, SearchStop>
        ensures unmetered { ¬ (IsErrOf result SearchStop.Spent) }
    {
        let one = F::of(1);
        let minus = one.neg();
        let mut parts = Vec::new(alloc);
        parts.push((one, Some(x)))?;
        match self {
            Known::Value(false) => {}
            Known::Value(true) => parts.push((minus, None))?,
            Known::Same(y) => parts.push((minus, Some(y)))?,
            Known::Opposite(y) => {
                parts.push((one, Some(y)))?;
                parts.push((minus, None))?;
            }
        }
        linear(alloc, parts)
    }
}
