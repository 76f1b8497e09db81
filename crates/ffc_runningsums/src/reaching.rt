//! Which values variables can have: from those of one variable of an equation, and of a bit, follow those of another.
use crate::arithmetic::{inverse, negative, product, sum};
use crate::system::{Equation, System};
use std::alloc::{AllocError, Global};
use std::collections::{BTreeMap, BTreeSet};

/// A variable has so many values at most: the checker bounds the degree of a line.
const MOST_VALUES: usize = 1_024;

/// And so many lists of values are made at most, with so many values in all.
const MOST_LISTS: usize = 4_096;

const MOST_TOTAL: usize = 16_384;

/// A bit that has a value in a case, and the line that says so.
#[derive(Clone, Copy)]
pub struct FixedBit {
    pub variable: u32,
    pub is_one: bool,
    pub line: u32,
}

/// What a bit has been given in a case, if it has, where these few have values.
pub fn fixed_bit(fixed: &[FixedBit], x: u32) -> Option<FixedBit> {
    for bit in fixed {
        if bit.variable == x {
            return Some(*bit);
        }
    }
    None
}

/// How the values of a variable y follow from those of x, where y = slope*x + rise*bit + shift.
#[derive(Clone, Copy)]
pub struct Step {
    /// The place of the list of x, and x.
    pub from: usize,
    pub source: u32,
    pub equation: usize,
    /// The bit, if it has both values.
    pub bit: Option<u32>,
    pub slope: u64,
    pub rise: u64,
    /// What is added with a bit that has one value too.
    pub shift: u64,
    /// The bit that has one value.
    pub fixed: Option<u32>,
}

/// Why a variable has no other values.
#[derive(Clone, Copy)]
pub enum Origin {
    /// By an equation in it alone, at this place.
    Equation(usize),
    /// It is a bit.
    Bit,
    /// It is a bit with one value.
    Fixed,
    Step(Step),
}

/// The values of a variable.
#[derive(Drop)]
pub struct List {
    pub variable: u32,
    pub values: BTreeSet<u64>,
    pub origin: Origin,
}

/// Two lists of a variable that have no value in common.
pub type Clash = (usize, usize);

/// The values of variables.
#[derive(Drop)]
pub struct Reach {
    alloc: Global,
    pub lists: Vec<List>,
    /// The lists of each variable.
    places: BTreeMap<u32, Vec<usize>>,
    /// The lists that nothing has followed from yet, those of up to 1, 2, 4 and so on values apart.
    open: Vec<Vec<usize>>,
    /// How many values there are in all lists.
    pub total: usize,
}

/// Whether two sets have no value in common.
fn are_apart(one: &BTreeSet<u64>, other: &BTreeSet<u64>) -> bool {
    for value in one {
        if other.contains(value) {
            return false;
        }
    }
    true
}

impl Reach {
    /// The values that equations in one variable and bits have.
    fn begin(alloc: Global) -> Self {
        Reach {
            alloc,
            lists: Vec::new(alloc),
            places: BTreeMap::new(alloc),
            open: Vec::new(alloc),
            total: 0,
        }
    }

    /// The earlier lists of a variable.
    fn places_of(&self, x: u32) -> &[usize] {
        match self.places.get(&x) {
            Some(places) => places.as_slice(),
            None => &[],
        }
    }

    /// Adds a list. Answers the place of one of the same variable with which it has no value in common, if there is one.
    fn add(&mut self, list: List) -> Result<Option<Clash>, AllocError> {
        let place = self.lists.len();
        let x = list.variable;
        let mut clash = None;
        for other in self.places_of(x) {
            if let Some(known) = self.lists.get(*other) {
                if are_apart(&list.values, &known.values) {
                    clash = Some((*other, place));
                    break;
                }
            }
        }
        let mut places = match self.places.remove(&x) {
            Some(places) => places,
            None => Vec::new(self.alloc),
        };
        places.push(place)?;
        self.places.insert(x, places)?;
        self.total = self.total.saturating_add(list.values.len());
        self.wait(list.values.len(), place)?;
        self.lists.push(list)?;
        Ok(clash)
    }

    /// Lets a list of so many values wait.
    fn wait(&mut self, count: usize, place: usize) -> Result<(), AllocError> {
        let class = (usize::BITS - count.leading_zeros()) as usize;
        for _ in self.open.len()..class.saturating_add(1) {
            self.open.push(Vec::new(self.alloc))?;
        }
        if let Some(open) = self.open.get_mut(class) {
            open.push(place)?;
        }
        Ok(())
    }

    /// A list that waits, of those with fewest values.
    fn next(&mut self) -> Option<usize> {
        for open in self.open.iter_mut() {
            let place = open.pop();
            if place.is_some() {
                return place;
            }
        }
        None
    }

    /// Whether there is a list of a variable by an equation.
    fn is_made(&self, equation: usize, x: u32) -> bool {
        for place in self.places_of(x) {
            if let Some(list) = self.lists.get(*place) {
                if let Origin::Step(step) = list.origin {
                    if step.equation == equation {
                        return true;
                    }
                }
            }
        }
        false
    }

    /// A list of one value.
    fn add_single(
        &mut self,
        x: u32,
        value: u64,
        origin: Origin,
    ) -> Result<Option<Clash>, AllocError> {
        let mut values = BTreeSet::new(self.alloc);
        values.insert(value)?;
        self.add(List {
            variable: x,
            values,
            origin,
        })
    }

    /// The list of a bit.
    fn add_bit(&mut self, x: u32, fixed: Option<FixedBit>) -> Result<Option<Clash>, AllocError> {
        match fixed {
            Some(bit) => self.add_single(x, u64::from(bit.is_one), Origin::Fixed),
            None => {
                let mut values = BTreeSet::new(self.alloc);
                values.insert(0)?;
                values.insert(1)?;
                self.add(List {
                    variable: x,
                    values,
                    origin: Origin::Bit,
                })
            }
        }
    }

    /// Whether there are two lists of a variable that is no bit.
    pub fn has_met(&self) -> bool {
        for list in self.lists.as_slice() {
            if list.values.len() > 2 && self.places_of(list.variable).len() > 1 {
                return true;
            }
        }
        false
    }

    /// Adds what is known at first.
    fn add_known(
        &mut self,
        system: &System,
        fixed: &[FixedBit],
    ) -> Result<Option<Clash>, AllocError> {
        let p = system.order;
        for (place, equation) in system.equations.iter().enumerate() {
            if let Some(x) = equation.single() {
                let scale = inverse(equation.coefficient(x), p);
                let value = product(negative(equation.constant, p), scale, p);
                let clash = self.add_single(x, value, Origin::Equation(place))?;
                if clash.is_some() {
                    return Ok(clash);
                }
            }
        }
        for bit in system.bits() {
            let clash = self.add_bit(bit.variable, fixed_bit(fixed, bit.variable))?;
            if clash.is_some() {
                return Ok(clash);
            }
        }
        Ok(None)
    }

    /// The values that a step gives.
    fn values_of(&self, step: Step, p: u64) -> Result<BTreeSet<u64>, AllocError> {
        let mut values = BTreeSet::new(self.alloc);
        if let Some(list) = self.lists.get(step.from) {
            for x in &list.values {
                let low = sum(product(step.slope, *x, p), step.shift, p);
                values.insert(low)?;
                if step.bit.is_some() {
                    values.insert(sum(low, step.rise, p))?;
                }
            }
        }
        Ok(values)
    }

    /// Follows a step to a variable, unless that has too many values.
    fn follow(&mut self, system: &System, y: u32, step: Step) -> Result<Option<Clash>, AllocError> {
        if self.is_made(step.equation, y) {
            return Ok(None);
        }
        let values = self.values_of(step, system.order)?;
        if values.len() > MOST_VALUES {
            return Ok(None);
        }
        self.add(List {
            variable: y,
            values,
            origin: Origin::Step(step),
        })
    }

    /// Follows the steps from a list by an equation.
    fn follow_equation(
        &mut self,
        system: &System,
        fixed: &[FixedBit],
        from: usize,
        x: u32,
        place: usize,
    ) -> Result<Option<Clash>, AllocError> {
        let Some(equation) = system.equations.get(place) else {
            return Ok(None);
        };
        for term in equation.terms.as_slice() {
            let y = term.0;
            if y == x {
                continue;
            }
            if let Some(step) = step_by(system, fixed, equation, place, from, x, y) {
                let clash = self.follow(system, y, step)?;
                if clash.is_some() {
                    return Ok(clash);
                }
            }
        }
        Ok(None)
    }

    /// Follows all steps from a list but those by the equation that it is from.
    fn follow_list(
        &mut self,
        system: &System,
        fixed: &[FixedBit],
        from: usize,
    ) -> Result<Option<Clash>, AllocError> {
        let Some(list) = self.lists.get(from) else {
            return Ok(None);
        };
        let x = list.variable;
        let own = match list.origin {
            Origin::Step(step) => Some(step.equation),
            _ => None,
        };
        for place in system.places(x) {
            if Some(*place) != own {
                let clash = self.follow_equation(system, fixed, from, x, *place)?;
                if clash.is_some() {
                    return Ok(clash);
                }
            }
        }
        Ok(None)
    }

    /// Follows steps until two lists clash, or too much was made.
    fn run(&mut self, system: &System, fixed: &[FixedBit]) -> Result<Option<Clash>, AllocError> {
        for _ in 0..u64::MAX {
            if self.lists.len() > MOST_LISTS || self.total > MOST_TOTAL {
                break;
            }
            let Some(place) = self.next() else {
                break;
            };
            let clash = self.follow_list(system, fixed, place)?;
            if clash.is_some() {
                return Ok(clash);
            }
        }
        Ok(None)
    }
}

/// The variable of an equation beside two others.
fn third(equation: &Equation, x: u32, y: u32) -> Option<u32> {
    for term in equation.terms.as_slice() {
        if term.0 != x && term.0 != y {
            return Some(term.0);
        }
    }
    None
}

/// The step from x to y by an equation, if its third variable is a bit, or it has none.
fn step_by(
    system: &System,
    fixed: &[FixedBit],
    equation: &Equation,
    place: usize,
    from: usize,
    x: u32,
    y: u32,
) -> Option<Step> {
    let p = system.order;
    let scale = negative(inverse(equation.coefficient(y), p), p);
    let mut step = Step {
        from,
        source: x,
        equation: place,
        bit: None,
        slope: product(equation.coefficient(x), scale, p),
        rise: 0,
        shift: product(equation.constant, scale, p),
        fixed: None,
    };
    if let Some(b) = third(equation, x, y) {
        let _ = system.bit(b)?;
        step.rise = product(equation.coefficient(b), scale, p);
        match fixed_bit(fixed, b) {
            None => step.bit = Some(b),
            Some(bit) => {
                step.fixed = Some(b);
                if bit.is_one {
                    step.shift = sum(step.shift, step.rise, p);
                }
            }
        }
    }
    Some(step)
}

/// The values of variables, where some bits have values in a case, and two lists of a variable that clash.
pub fn clash_of(
    alloc: Global,
    system: &System,
    fixed: &[FixedBit],
) -> Result<(Reach, Option<Clash>), AllocError> {
    let mut reach = Reach::begin(alloc);
    let clash = reach.add_known(system, fixed)?;
    if clash.is_some() {
        return Ok((reach, clash));
    }
    let clash = reach.run(system, fixed)?;
    Ok((reach, clash))
}

/// The values of another set that are not in one.
pub fn others(
    alloc: Global,
    all: &BTreeSet<u64>,
    without: &BTreeSet<u64>,
) -> Result<BTreeSet<u64>, AllocError> {
    let mut rest = BTreeSet::new(alloc);
    for value in all {
        if !without.contains(value) {
            rest.insert(*value)?;
        }
    }
    Ok(rest)
}

/// The values of slope*x + shift.
pub fn moved(
    alloc: Global,
    values: &BTreeSet<u64>,
    slope: u64,
    shift: u64,
    p: u64,
) -> Result<BTreeSet<u64>, AllocError> {
    let mut images = BTreeSet::new(alloc);
    for value in values {
        images.insert(sum(product(slope, *value, p), shift, p))?;
    }
    Ok(images)
}
