//! Values that were given to variables.
use std::alloc::{AllocError, Global};

/// The values of variables, and the variables that have one in the order in which they got it.
#[derive(Drop)]
pub struct Assignment {
    values: Vec<Option<bool>>,
    given: Vec<usize>,
}

impl Assignment {
    /// No values. It takes no memory.
    pub fn new(alloc: Global) -> Self {
        Assignment {
            values: Vec::new(alloc),
            given: Vec::new(alloc),
        }
    }

    /// Adds a variable without a value, and answers its number.
    pub fn add(&mut self) -> Result<usize, AllocError> {
        let number = self.values.len();
        self.values.push(None)?;
        Ok(number)
    }

    /// How many variables there are.
    pub fn len(&self) -> usize {
        self.values.len()
    }

    /// The value of a variable, if it has one.
    pub fn value(&self, variable: usize) -> Option<bool> {
        self.values.get(variable).copied().flatten()
    }

    /// How many variables have a value.
    pub fn count(&self) -> usize {
        self.given.len()
    }

    /// Gives a variable a value.
    pub fn give(&mut self, variable: usize, value: bool) -> Result<(), AllocError> {
        if let Some(place) = self.values.get_mut(variable) {
            *place = Some(value);
            self.given.push(variable)?;
        }
        Ok(())
    }

    /// Takes back all but the first values.
    pub fn take_back(&mut self, count: usize) {
        for _ in count..self.given.len() {
            if let Some(variable) = self.given.pop() {
                if let Some(place) = self.values.get_mut(variable) {
                    *place = None;
                }
            }
        }
    }
}
