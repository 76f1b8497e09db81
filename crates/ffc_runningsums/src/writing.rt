//! Lines of a tree that show which values variables have.
//!
//! A list of values is shown by the polynomial f whose roots they are: a line that is f of the variable. Where y = a*x + c*b + d
//! for a bit b, the lines (1 - b)*((y - d)^m - (a*x)^m) follow one from the other by m, and their sum with the coefficients of
//! the polynomial with the roots a*r is (1 - b)*g(y), where g has the roots a*r + d. So is b*h(y) shown, where h has the roots
//! a*r + d + c; and the polynomial with the roots of both is the sum of multiples of these two.
use crate::arithmetic::{inverse, negative, product, sum};
use crate::polynomials::{bezout, from_roots};
use crate::reaching::{Clash, FixedBit, List, Origin, Reach, Step, fixed_bit, moved, others};
use crate::system::System;
use ffc_cert::{CertLine, Multiple, Power, Sequence, Term};
use std::alloc::{AllocError, Global};
use std::collections::BTreeSet;

/// A number that no line has. A tree that refers to it is not accepted.
pub const NO_LINE: u32 = u32::MAX;

/// The lines of a tree that are written.
#[derive(Drop)]
pub struct Writer {
    alloc: Global,
    p: u64,
    pub lines: Vec<CertLine>,
    /// The number of the next line on the present branch.
    pub next: u32,
}

/// A step as its lines have it: the case of the bit in which it is, and what is added in that case.
#[derive(Clone, Copy)]
struct Part {
    /// The variables of both sides, and the slope.
    target: u32,
    source: u32,
    slope: u64,
    shift: u64,
    /// The line target - slope*source - shift, times the bit or 1 less the bit, where both cases are shown.
    first: u32,
}

impl Writer {
    /// No lines after so many generators.
    pub fn new(alloc: Global, p: u64, generators: u32) -> Self {
        Writer {
            alloc,
            p,
            lines: Vec::new(alloc),
            next: generators,
        }
    }

    /// The lines that were written.
    pub fn into_lines(self) -> Vec<CertLine> {
        let Writer {
            alloc: _,
            p: _,
            lines,
            next: _,
        } = self;
        lines
    }

    /// A coefficient times a power of a variable.
    fn power(&self, c: u64, x: u32, exponent: usize) -> Result<Term, AllocError> {
        let mut powers: Vec<Power> = Vec::new(self.alloc);
        let exponent = u32::try_from(exponent).unwrap_or(u32::MAX);
        if exponent > 0 {
            powers.push((x, exponent))?;
        }
        Ok((c, Sequence::from_vec(powers)))
    }

    /// A line times a polynomial in a variable.
    fn times(&self, line: u32, poly: &[u64], x: u32) -> Result<Multiple, AllocError> {
        let mut terms = Vec::new(self.alloc);
        for (exponent, c) in poly.iter().enumerate() {
            if *c != 0 {
                terms.push(self.power(*c, x, exponent)?)?;
            }
        }
        Ok((line, Sequence::from_vec(terms)))
    }

    /// A line times a constant.
    fn scaled(&self, line: u32, c: u64) -> Result<Multiple, AllocError> {
        self.times(line, &[c], 0)
    }

    /// Writes a sum of multiples as the next line, without those that are 0.
    pub fn combine(&mut self, multiples: Vec<Multiple>) -> Result<u32, AllocError> {
        let mut kept = Vec::new(self.alloc);
        for multiple in multiples {
            if !multiple.1.as_slice().is_empty() {
                kept.push(multiple)?;
            }
        }
        self.lines
            .push(CertLine::Combine(Sequence::from_vec(kept)))?;
        Ok(self.take_number())
    }

    /// The number of the next line, which is taken.
    pub fn take_number(&mut self) -> u32 {
        let number = self.next;
        self.next = number.saturating_add(1);
        number
    }

    /// Writes a constant times a line, unless that is the line.
    pub fn multiply(&mut self, line: u32, c: u64) -> Result<u32, AllocError> {
        if c == 1 {
            return Ok(line);
        }
        let mut multiples = Vec::new(self.alloc);
        multiples.push(self.scaled(line, c)?)?;
        self.combine(multiples)
    }

    /// Writes the sum of constants times two lines.
    pub fn add(&mut self, one: (u32, u64), other: (u32, u64)) -> Result<u32, AllocError> {
        let mut multiples = Vec::new(self.alloc);
        multiples.push(self.scaled(one.0, one.1)?)?;
        multiples.push(self.scaled(other.0, other.1)?)?;
        self.combine(multiples)
    }

    /// Writes the line x*x - x.
    pub fn write_bit(&mut self, system: &System, x: u32) -> Result<u32, AllocError> {
        match system.bit(x) {
            Some(bit) => self.multiply(bit.line, inverse(bit.lead, self.p)),
            None => Ok(NO_LINE),
        }
    }

    /// Writes the differences of powers of both sides, up to this one, and answers their lines.
    fn write_powers(&mut self, part: Part, degree: usize) -> Result<Vec<u32>, AllocError> {
        let p = self.p;
        let mut lines = Vec::new(self.alloc);
        let mut line = part.first;
        let mut scale = 1u64;
        lines.push(line)?;
        for exponent in 1..degree {
            scale = product(scale, part.slope, p);
            let mut multiples = Vec::new(self.alloc);
            let factor = [negative(part.shift, p), 1];
            multiples.push(self.times(line, &factor, part.target)?)?;
            let mut terms = Vec::new(self.alloc);
            terms.push(self.power(scale, part.source, exponent)?)?;
            multiples.push((part.first, Sequence::from_vec(terms)))?;
            line = self.combine(multiples)?;
            lines.push(line)?;
        }
        Ok(lines)
    }

    /// Writes that the polynomial with these coefficients is 0 at the target less the shift, where a line, times a factor, is
    /// that polynomial at the slope times the source.
    fn write_image(
        &mut self,
        part: Part,
        poly: &[u64],
        before: Multiple,
    ) -> Result<u32, AllocError> {
        let lines = self.write_powers(part, poly.len().saturating_sub(1))?;
        let mut multiples = Vec::new(self.alloc);
        multiples.push(before)?;
        for (line, c) in lines.iter().zip(poly.iter().skip(1)) {
            multiples.push(self.scaled(*line, *c)?)?;
        }
        self.combine(multiples)
    }

    /// Writes the line target - slope*source - shift of a step whose bit, if it has one, has one value.
    fn write_plain(
        &mut self,
        system: &System,
        fixed: &[FixedBit],
        step: Step,
        y: u32,
    ) -> Result<u32, AllocError> {
        let Some(equation) = system.equations.get(step.equation) else {
            return Ok(NO_LINE);
        };
        let unit = inverse(equation.coefficient(y), self.p);
        let known = match step.fixed {
            Some(b) => fixed_bit(fixed, b),
            None => None,
        };
        match known {
            None => self.multiply(equation.line, unit),
            Some(bit) => self.add((equation.line, unit), (bit.line, step.rise)),
        }
    }

    /// Writes that line of a step times a bit, with what is added for the bit, or times 1 less the bit.
    fn write_case(
        &mut self,
        system: &System,
        step: Step,
        y: u32,
        b: u32,
        is_one: bool,
    ) -> Result<u32, AllocError> {
        let p = self.p;
        let (equation, bit) = match (system.equations.get(step.equation), system.bit(b)) {
            (Some(equation), Some(bit)) => (equation, bit),
            _ => return Ok(NO_LINE),
        };
        let unit = inverse(equation.coefficient(y), p);
        let rise = product(step.rise, inverse(bit.lead, p), p);
        let (factor, rise) = if is_one {
            ([0, unit], rise)
        } else {
            ([unit, negative(unit, p)], negative(rise, p))
        };
        let mut multiples = Vec::new(self.alloc);
        multiples.push(self.times(equation.line, &factor, b)?)?;
        multiples.push(self.scaled(bit.line, rise)?)?;
        self.combine(multiples)
    }

    /// Writes the values of a variable that follow without a bit.
    fn write_moved(
        &mut self,
        part: Part,
        source: &BTreeSet<u64>,
        before: u32,
    ) -> Result<u32, AllocError> {
        let p = self.p;
        let images = moved(self.alloc, source, part.slope, 0, p)?;
        let poly = from_roots(self.alloc, &images, p)?;
        let scale = self.power_of(part.slope, source.len());
        let before = self.scaled(before, scale)?;
        self.write_image(part, poly.as_slice(), before)
    }

    /// A power of a residue.
    fn power_of(&self, c: u64, exponent: usize) -> u64 {
        let mut power = 1u64;
        for _ in 0..exponent {
            power = product(power, c, self.p);
        }
        power
    }

    /// Writes the values of a variable that follow with a bit.
    fn write_both(
        &mut self,
        parts: (Part, Part),
        b: u32,
        source: &BTreeSet<u64>,
        all: &BTreeSet<u64>,
        before: u32,
    ) -> Result<u32, AllocError> {
        let (low, high) = parts;
        let p = self.p;
        let images = moved(self.alloc, source, low.slope, 0, p)?;
        let poly = from_roots(self.alloc, &images, p)?;
        let scale = self.power_of(low.slope, source.len());
        let without = self.times(before, &[scale, negative(scale, p)], b)?;
        let one = self.write_image(low, poly.as_slice(), without)?;
        let with = self.times(before, &[0, scale], b)?;
        let other = self.write_image(high, poly.as_slice(), with)?;
        let mut multiples = Vec::new(self.alloc);
        for (line, part) in [(one, low), (other, high)] {
            let own = moved(self.alloc, source, part.slope, part.shift, p)?;
            let rest = others(self.alloc, all, &own)?;
            let factor = from_roots(self.alloc, &rest, p)?;
            multiples.push(self.times(line, factor.as_slice(), part.target)?)?;
        }
        self.combine(multiples)
    }

    /// Writes the values of a variable that follow by a step, where a line shows those of its source.
    fn write_step(
        &mut self,
        system: &System,
        fixed: &[FixedBit],
        step: Step,
        source: &BTreeSet<u64>,
        list: &List,
        before: u32,
    ) -> Result<u32, AllocError> {
        let y = list.variable;
        let mut part = Part {
            target: y,
            source: step.source,
            slope: step.slope,
            shift: step.shift,
            first: NO_LINE,
        };
        let Some(b) = step.bit else {
            part.first = self.write_plain(system, fixed, step, y)?;
            return self.write_moved(part, source, before);
        };
        let mut high = part;
        high.shift = sum(step.shift, step.rise, self.p);
        part.first = self.write_case(system, step, y, b, false)?;
        high.first = self.write_case(system, step, y, b, true)?;
        self.write_both((part, high), b, source, &list.values, before)
    }

    /// Writes the values of a list, where a line shows those that it follows from.
    fn write_list(
        &mut self,
        system: &System,
        fixed: &[FixedBit],
        reach: &Reach,
        list: &List,
        before: u32,
    ) -> Result<u32, AllocError> {
        match list.origin {
            Origin::Equation(place) => match system.equations.get(place) {
                Some(equation) => {
                    let unit = inverse(equation.coefficient(list.variable), self.p);
                    self.multiply(equation.line, unit)
                }
                None => Ok(NO_LINE),
            },
            Origin::Bit => self.write_bit(system, list.variable),
            Origin::Fixed => match fixed_bit(fixed, list.variable) {
                Some(bit) => Ok(bit.line),
                None => Ok(NO_LINE),
            },
            Origin::Step(step) => match reach.lists.get(step.from) {
                Some(source) => self.write_step(system, fixed, step, &source.values, list, before),
                None => Ok(NO_LINE),
            },
        }
    }

    /// Writes the values of the list at a place, after those that it follows from.
    fn write_way(
        &mut self,
        system: &System,
        fixed: &[FixedBit],
        reach: &Reach,
        place: usize,
    ) -> Result<u32, AllocError> {
        let mut way = Vec::new(self.alloc);
        let mut turn = Some(place);
        for _ in 0..u64::MAX {
            let Some(list) = turn.and_then(|place| reach.lists.get(place)) else {
                break;
            };
            way.push(list)?;
            turn = match list.origin {
                Origin::Step(step) => Some(step.from),
                _ => None,
            };
        }
        let mut line = NO_LINE;
        for list in way.iter().rev() {
            line = self.write_list(system, fixed, reach, list, line)?;
        }
        Ok(line)
    }

    /// Writes that two lists have no value in common, which closes the branch.
    pub fn write_clash(
        &mut self,
        system: &System,
        fixed: &[FixedBit],
        reach: &Reach,
        clash: Clash,
    ) -> Result<(), AllocError> {
        let (first, second) = clash;
        let (Some(one), Some(other)) = (reach.lists.get(first), reach.lists.get(second)) else {
            return Ok(());
        };
        let p = self.p;
        let line = self.write_way(system, fixed, reach, first)?;
        let further = self.write_way(system, fixed, reach, second)?;
        let f = from_roots(self.alloc, &one.values, p)?;
        let g = from_roots(self.alloc, &other.values, p)?;
        let (a, b) = bezout(self.alloc, f, g, p)?;
        let mut multiples = Vec::new(self.alloc);
        multiples.push(self.times(line, a.as_slice(), one.variable)?)?;
        multiples.push(self.times(further, b.as_slice(), one.variable)?)?;
        let _ = self.combine(multiples)?;
        self.lines.push(CertLine::Close)?;
        Ok(())
    }
}
