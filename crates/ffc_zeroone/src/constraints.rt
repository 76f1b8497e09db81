//! Sums and conditions of variables that are 0 or 1, and what they force.
use crate::assignment::Assignment;
use std::alloc::{AllocError, Global};

/// At most so many variables have a condition.
pub const MOST_VARIABLES: usize = 6;

/// Of the choices of six values, by the numbers that have these as their binary digits, those in which each variable is 1.
const ONES: [u64; MOST_VARIABLES] = [
    0xaaaa_aaaa_aaaa_aaaa,
    0xcccc_cccc_cccc_cccc,
    0xf0f0_f0f0_f0f0_f0f0,
    0xff00_ff00_ff00_ff00,
    0xffff_0000_ffff_0000,
    0xffff_ffff_0000_0000,
];

/// A constant and multiples of variables that sum to 0. No coefficient is 0.
#[derive(Drop)]
pub struct Sum {
    pub constant: i128,
    pub terms: Vec<(usize, i128)>,
}

/// What is left of a sum where some variables have values.
#[derive(Clone, Copy)]
struct Rest {
    constant: i128,
    low: i128,
    high: i128,
    /// The exponent of the least power of two among the coefficients that are left, how many have it, and the last of these.
    level: u32,
    lowest: usize,
    last: usize,
}

impl Rest {
    /// Adds a variable that has no value.
    fn add(&mut self, x: usize, c: i128) {
        if c < 0 {
            self.low = self.low.saturating_add(c);
        } else {
            self.high = self.high.saturating_add(c);
        }
        let level = c.trailing_zeros();
        if level < self.level {
            self.level = level;
            self.lowest = 0;
        }
        if level == self.level {
            self.lowest = self.lowest.saturating_add(1);
            self.last = x;
        }
    }
}

impl Sum {
    /// What is left of it.
    fn rest(&self, assignment: &Assignment) -> Rest {
        let mut rest = Rest {
            constant: self.constant,
            low: self.constant,
            high: self.constant,
            level: u32::MAX,
            lowest: 0,
            last: 0,
        };
        for (x, c) in self.terms.as_slice() {
            match assignment.value(*x) {
                Some(false) => {}
                Some(true) => {
                    rest.constant = rest.constant.saturating_add(*c);
                    rest.low = rest.low.saturating_add(*c);
                    rest.high = rest.high.saturating_add(*c);
                }
                None => rest.add(*x, *c),
            }
        }
        rest
    }

    /// How many of its variables have no value.
    fn count_open(&self, assignment: &Assignment) -> usize {
        let mut count = 0usize;
        for (x, _) in self.terms.as_slice() {
            if assignment.value(*x).is_none() {
                count = count.saturating_add(1);
            }
        }
        count
    }

    /// Adds what the sum forces, and says whether it can be 0.
    fn look(
        &self,
        assignment: &Assignment,
        forced: &mut Vec<(usize, bool)>,
    ) -> Result<bool, AllocError> {
        let rest = self.rest(assignment);
        let power = rest.constant.trailing_zeros();
        if rest.low > 0 || rest.high < 0 || rest.constant != 0 && power < rest.level {
            return Ok(false);
        }
        if rest.lowest == 1 {
            forced.push((rest.last, rest.constant != 0 && power == rest.level))?;
            return Ok(true);
        }
        for (x, c) in self.terms.as_slice() {
            let weight = if *c < 0 { 0i128.saturating_sub(*c) } else { *c };
            if assignment.value(*x).is_some() {
                continue;
            }
            if rest.low.saturating_add(weight) > 0 {
                forced.push((*x, *c < 0))?;
            } else if rest.high.saturating_sub(weight) < 0 {
                forced.push((*x, *c > 0))?;
            }
        }
        Ok(true)
    }

    /// The variable without a value that has the greatest coefficient, with the value that brings the middle of what the sum can
    /// be towards 0.
    fn choice(&self, assignment: &Assignment) -> Option<(usize, bool)> {
        let rest = self.rest(assignment);
        let middle = rest.low.saturating_add(rest.high);
        let mut heaviest = 0;
        let mut choice = None;
        for (x, c) in self.terms.as_slice() {
            if c.unsigned_abs() > heaviest && assignment.value(*x).is_none() {
                heaviest = c.unsigned_abs();
                choice = Some((*x, (middle < 0) == (*c > 0)));
            }
        }
        choice
    }
}

/// Which values a few variables may have together.
#[derive(Drop)]
pub struct Condition {
    /// At most six.
    pub variables: Vec<usize>,
    /// Of the choices of values, by the numbers that have these as their binary digits, those that are allowed.
    pub allowed: u64,
}

impl Condition {
    /// The choices that are left.
    fn left(&self, assignment: &Assignment) -> u64 {
        let mut left = self.allowed;
        for (x, ones) in self.variables.iter().zip(ONES.as_slice()) {
            match assignment.value(*x) {
                Some(true) => left &= *ones,
                Some(false) => left &= !*ones,
                None => {}
            }
        }
        left
    }

    /// Adds what the condition forces, and says whether it can hold.
    fn look(
        &self,
        assignment: &Assignment,
        forced: &mut Vec<(usize, bool)>,
    ) -> Result<bool, AllocError> {
        let left = self.left(assignment);
        if left == 0 {
            return Ok(false);
        }
        for (x, ones) in self.variables.iter().zip(ONES.as_slice()) {
            if assignment.value(*x).is_none() {
                if left & *ones == 0 {
                    forced.push((*x, false))?;
                } else if left & !*ones == 0 {
                    forced.push((*x, true))?;
                }
            }
        }
        Ok(true)
    }

    /// How many of its variables have no value.
    fn count_open(&self, assignment: &Assignment) -> usize {
        let mut count = 0usize;
        for x in self.variables.as_slice() {
            if assignment.value(*x).is_none() {
                count = count.saturating_add(1);
            }
        }
        count
    }

    /// The first variable without a value.
    fn choice(&self, assignment: &Assignment) -> Option<(usize, bool)> {
        for x in self.variables.as_slice() {
            if assignment.value(*x).is_none() {
                return Some((*x, false));
            }
        }
        None
    }
}

/// A sum or a condition.
pub enum Constraint {
    Sum(Sum),
    Condition(Condition),
}

impl Drop for Constraint {
    fn drop(self) {
        match self {
            Constraint::Sum(_) => {}
            Constraint::Condition(_) => {}
        }
    }
}

impl Constraint {
    /// Its variables.
    pub fn variables(&self, alloc: Global) -> Result<Vec<usize>, AllocError> {
        let mut variables = Vec::new(alloc);
        match self {
            Constraint::Sum(sum) => {
                for (x, _) in sum.terms.as_slice() {
                    variables.push(*x)?;
                }
            }
            Constraint::Condition(condition) => {
                variables.extend_from_slice(condition.variables.as_slice())?;
            }
        }
        Ok(variables)
    }

    /// Adds what it forces, and says whether it can hold.
    pub fn look(
        &self,
        assignment: &Assignment,
        forced: &mut Vec<(usize, bool)>,
    ) -> Result<bool, AllocError> {
        match self {
            Constraint::Sum(sum) => sum.look(assignment, forced),
            Constraint::Condition(condition) => condition.look(assignment, forced),
        }
    }

    /// How many of its variables have no value. Those of a condition count after all those of sums.
    pub fn count_open(&self, assignment: &Assignment) -> (bool, usize) {
        match self {
            Constraint::Sum(sum) => (false, sum.count_open(assignment)),
            Constraint::Condition(condition) => (true, condition.count_open(assignment)),
        }
    }

    /// A variable without a value, and the value to be tried first.
    pub fn choice(&self, assignment: &Assignment) -> Option<(usize, bool)> {
        match self {
            Constraint::Sum(sum) => sum.choice(assignment),
            Constraint::Condition(condition) => condition.choice(assignment),
        }
    }
}
