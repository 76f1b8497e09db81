//! Equations of bits over the integers, and what one of them forces.
use std::alloc::{AllocError, Global};
use std::collections::BTreeMap;

/// A constant and multiples of bits that sum to 0. No coefficient is 0.
#[derive(Drop)]
pub struct Equation {
    pub constant: i128,
    pub terms: BTreeMap<u32, i128>,
}

/// What an equation forces.
#[derive(Drop)]
pub enum Forced {
    /// No values of its bits are a solution.
    Never,
    /// These bits have these values.
    Values(Vec<(u32, bool)>),
    /// Two bits are equal, or, with false, opposite.
    Pair(u32, u32, bool),
    /// Nothing of these kinds. These are the bits whose coefficients have the least power of two, so that an even number of
    /// them is 1, or, with true, an odd number.
    Open(Vec<u32>, bool),
}

/// What equations that are alike have in common: how many bits, the first and the last of them, and the size of the constant.
pub type Outline = (usize, Option<u32>, Option<u32>, u128);

/// The exponent of the greatest power of two that divides a number.
fn power_of_two(n: i128) -> u32 {
    n.trailing_zeros()
}

/// The size of a coefficient.
fn weight_of(c: i128) -> i128 {
    if c < 0 { 0i128.saturating_sub(c) } else { c }
}

impl Equation {
    /// The equation that is 0 = 0. It takes no memory.
    pub fn new(alloc: Global) -> Self {
        Equation {
            constant: 0,
            terms: BTreeMap::new(alloc),
        }
    }

    /// Adds to the constant.
    pub fn add_constant(&mut self, c: i128) {
        self.constant = self.constant.saturating_add(c);
    }

    /// Adds a multiple of a bit.
    pub fn add(&mut self, x: u32, c: i128) -> Result<(), AllocError> {
        let sum = self.coefficient(x).saturating_add(c);
        if sum == 0 {
            self.terms.remove(&x);
        } else {
            self.terms.insert(x, sum)?;
        }
        Ok(())
    }

    /// Adds a multiple of an equation.
    pub fn add_multiple(&mut self, factor: i128, other: &Equation) -> Result<(), AllocError> {
        self.add_constant(other.constant.saturating_mul(factor));
        for (x, c) in &other.terms {
            self.add(*x, c.saturating_mul(factor))?;
        }
        Ok(())
    }

    /// The coefficient of a bit.
    pub fn coefficient(&self, x: u32) -> i128 {
        self.terms.get(&x).copied().unwrap_or(0)
    }

    /// The least and the greatest value of the sum.
    pub fn reach(&self) -> (i128, i128) {
        let mut low = self.constant;
        let mut high = self.constant;
        for (_, c) in &self.terms {
            if *c < 0 {
                low = low.saturating_add(*c);
            } else {
                high = high.saturating_add(*c);
            }
        }
        (low, high)
    }

    /// The bits in increasing order.
    pub fn variables(&self, alloc: Global) -> Result<Vec<u32>, AllocError> {
        let mut variables = Vec::new(alloc);
        for (x, _) in &self.terms {
            variables.push(*x)?;
        }
        Ok(variables)
    }

    /// The bit of the greatest weight.
    pub fn heaviest(&self) -> Option<u32> {
        let mut heaviest = None;
        let mut most = 0;
        for (x, c) in &self.terms {
            if c.unsigned_abs() > most {
                most = c.unsigned_abs();
                heaviest = Some(*x);
            }
        }
        heaviest
    }

    /// The exponent of the least power of two among the coefficients, where there is one.
    fn level(&self) -> u32 {
        let mut level = u32::MAX;
        for (_, c) in &self.terms {
            level = level.min(power_of_two(*c));
        }
        level
    }

    /// The bits whose coefficients have this power of two.
    fn at_level(&self, alloc: Global, level: u32) -> Result<Vec<u32>, AllocError> {
        let mut lowest = Vec::new(alloc);
        for (x, c) in &self.terms {
            if power_of_two(*c) == level {
                lowest.push(*x)?;
            }
        }
        Ok(lowest)
    }

    /// The bits whose other value would take the sum past 0, whatever the others are.
    fn by_bounds(
        &self,
        alloc: Global,
        low: i128,
        high: i128,
    ) -> Result<Vec<(u32, bool)>, AllocError> {
        let mut values = Vec::new(alloc);
        for (x, c) in &self.terms {
            let weight = weight_of(*c);
            if low.saturating_add(weight) > 0 {
                values.push((*x, *c < 0))?;
            } else if high.saturating_sub(weight) < 0 {
                values.push((*x, *c > 0))?;
            }
        }
        Ok(values)
    }

    /// Its outline, which its negation has too.
    pub fn outline(&self) -> Outline {
        let first = self.terms.first_key_value().map(|term| *term.0);
        let last = self.terms.last_key_value().map(|term| *term.0);
        (self.terms.len(), first, last, self.constant.unsigned_abs())
    }

    /// Whether this is the same equation, or its negation.
    pub fn is_like(&self, other: &Equation) -> bool {
        self.terms.len() == other.terms.len()
            && (self.is_multiple(other, 1) || self.is_multiple(other, -1))
    }

    /// Whether this is a multiple of an equation that has no more bits.
    fn is_multiple(&self, other: &Equation, factor: i128) -> bool {
        if self.constant != other.constant.saturating_mul(factor) {
            return false;
        }
        for (x, c) in &self.terms {
            if *c != other.coefficient(*x).saturating_mul(factor) {
                return false;
            }
        }
        true
    }

    /// What the equation forces, in time linear in its terms.
    pub fn look(&self, alloc: Global) -> Result<Forced, AllocError> {
        let (low, high) = self.reach();
        let level = self.level();
        let rest = power_of_two(self.constant);
        if low > 0 || high < 0 || self.constant != 0 && rest < level {
            return Ok(Forced::Never);
        }
        let mut values = self.by_bounds(alloc, low, high)?;
        if !values.is_empty() {
            return Ok(Forced::Values(values));
        }
        let lowest = self.at_level(alloc, level)?;
        let is_odd = self.constant != 0 && rest == level;
        match lowest.as_slice() {
            [x] => {
                values.push((*x, is_odd))?;
                Ok(Forced::Values(values))
            }
            [x, y] => Ok(Forced::Pair(*x, *y, !is_odd)),
            _ => Ok(Forced::Open(lowest, is_odd)),
        }
    }
}
