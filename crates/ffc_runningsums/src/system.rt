//! Equations of bits and of their running sums.
use std::alloc::{AllocError, Global};
use std::collections::BTreeMap;

/// Two bits that are not equal: a generator that is scale*inverse*(one - other) + constant.
#[derive(Clone, Copy)]
pub struct Difference {
    pub inverse: u32,
    pub one: u32,
    pub other: u32,
    pub scale: u64,
    pub constant: u64,
}

/// What a generator says. All numbers but variables are residues.
#[derive(Drop)]
pub enum Shape {
    /// A sum of multiples of at most three variables, with coefficients other than 0, and a constant.
    Linear(Vec<(u32, u64)>, u64),
    /// A variable is a bit: a number, other than 0, times x*x - x.
    Bit(u32, u64),
    Differ(Difference),
    /// It is not looked at.
    Other,
}

/// A linear generator.
#[derive(Drop)]
pub struct Equation {
    pub line: u32,
    pub terms: Vec<(u32, u64)>,
    pub constant: u64,
}

impl Equation {
    /// The coefficient of a variable.
    pub fn coefficient(&self, x: u32) -> u64 {
        for term in self.terms.as_slice() {
            if term.0 == x {
                return term.1;
            }
        }
        0
    }

    /// Its variable, if it has one alone.
    pub fn single(&self) -> Option<u32> {
        match self.terms.as_slice() {
            [term] => Some(term.0),
            _ => None,
        }
    }
}

/// The generator that says that a variable is a bit, and its leading coefficient.
#[derive(Clone, Copy)]
pub struct Bit {
    pub variable: u32,
    pub line: u32,
    pub lead: u64,
}

/// The generators of a tree.
#[derive(Drop)]
pub struct System {
    pub order: u64,
    /// How many generators there are.
    pub count: u32,
    pub equations: Vec<Equation>,
    bits: Vec<Bit>,
    /// The places of bits, by their variables.
    bit_places: BTreeMap<u32, usize>,
    pub differences: Vec<(u32, Difference)>,
    /// The equations that have a variable.
    uses: BTreeMap<u32, Vec<usize>>,
}

impl System {
    /// The system of these generators, in order.
    pub fn new(alloc: Global, order: u64, shapes: Vec<Shape>) -> Result<System, AllocError> {
        let mut system = System {
            order,
            count: 0,
            equations: Vec::new(alloc),
            bits: Vec::new(alloc),
            bit_places: BTreeMap::new(alloc),
            differences: Vec::new(alloc),
            uses: BTreeMap::new(alloc),
        };
        for shape in shapes {
            system.add(alloc, shape)?;
            system.count = system.count.saturating_add(1);
        }
        Ok(system)
    }

    /// Adds the next generator.
    fn add(&mut self, alloc: Global, shape: Shape) -> Result<(), AllocError> {
        let line = self.count;
        match shape {
            Shape::Linear(terms, constant) => self.add_equation(
                alloc,
                Equation {
                    line,
                    terms,
                    constant,
                },
            ),
            Shape::Bit(x, lead) => {
                self.bit_places.insert(x, self.bits.len())?;
                self.bits.push(Bit {
                    variable: x,
                    line,
                    lead,
                })?;
                Ok(())
            }
            Shape::Differ(difference) => {
                self.differences.push((line, difference))?;
                Ok(())
            }
            Shape::Other => Ok(()),
        }
    }

    /// Adds an equation, and notes where its variables are.
    fn add_equation(&mut self, alloc: Global, equation: Equation) -> Result<(), AllocError> {
        let place = self.equations.len();
        for term in equation.terms.as_slice() {
            let mut places = match self.uses.remove(&term.0) {
                Some(places) => places,
                None => Vec::new(alloc),
            };
            places.push(place)?;
            self.uses.insert(term.0, places)?;
        }
        self.equations.push(equation)?;
        Ok(())
    }

    /// The bits in order.
    pub fn bits(&self) -> &[Bit] {
        self.bits.as_slice()
    }

    /// The bit that a variable is, if it is one.
    pub fn bit(&self, x: u32) -> Option<Bit> {
        let place = self.bit_places.get(&x).copied()?;
        self.bits.get(place).copied()
    }

    /// The places of the equations that have a variable.
    pub fn places(&self, x: u32) -> &[usize] {
        match self.uses.get(&x) {
            Some(places) => places.as_slice(),
            None => &[],
        }
    }

    /// Whether there are bits, and equations with three variables.
    pub fn has_sums(&self) -> bool {
        !self.bits.is_empty()
            && self
                .equations
                .iter()
                .any(|equation| equation.terms.len() > 2)
    }

    /// Whether both bits of a pair are in equations.
    pub fn is_summed(&self, pair: Difference) -> bool {
        let are_bits = self.bit(pair.one).is_some() && self.bit(pair.other).is_some();
        are_bits && !self.places(pair.one).is_empty() && !self.places(pair.other).is_empty()
    }
}
