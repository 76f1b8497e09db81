//! Trees from generators whose sums of bits clash.
ghost use Rattle.ffc_base.specs.Metering.{Metered};

use crate::arithmetic::{inverse, negative, product};
use crate::reaching::{Clash, FixedBit, Reach, clash_of};
use crate::system::{Difference, Shape, System};
use crate::writing::Writer;
use ffc_base::{Meter, SearchStop, Unit};
use ffc_cert::{CertLine, Multiple, Sequence, Term};
use std::alloc::{AllocError, Global};

/// So many pairs of bits that are not equal are tried at most.
const MOST_PAIRS: usize = 4;

/// So many values take a unit.
const VALUES_EACH: u64 = 64;

/// The two values of a bit.
const VALUES: [bool; 2] = [false, true];

/// The lists of values in a case that clash.
type Found = (Reach, Clash);

/// What was tried: the units that the values took, and the lines of a tree, if one was found.
#[derive(Drop)]
struct Attempt {
    units: u64,
    lines: Option<Vec<CertLine>>,
}

/// The units that lists of values took.
fn units_of(reach: &Reach) -> u64 {
    let values = reach.total as u64 / VALUES_EACH;
    values.saturating_add(reach.lists.len() as u64)
}

/// A term in two variables.
fn term_in(alloc: Global, c: u64, x: u32, y: Option<u32>) -> Result<Term, AllocError> {
    let mut powers = Vec::new(alloc);
    match y {
        Some(y) if y < x => {
            powers.push((y, 1))?;
            powers.push((x, 1))?;
        }
        Some(y) => {
            powers.push((x, 1))?;
            powers.push((y, 1))?;
        }
        None => powers.push((x, 1))?,
    }
    Ok((c, Sequence::from_vec(powers)))
}

/// Writes the line one + other - 1 for two bits that are not equal: by the generator scale*w*(one - other) + constant, times that
/// line, it is the same but for scale*w*((one*one - one) - (other*other - other)), up to the constant.
fn write_opposite(
    alloc: Global,
    system: &System,
    writer: &mut Writer,
    line: u32,
    pair: Difference,
) -> Result<u32, AllocError> {
    let p = system.order;
    let unit = inverse(pair.constant, p);
    let mut multiples: Vec<Multiple> = Vec::new(alloc);
    let mut terms = Vec::new(alloc);
    terms.push(term_in(alloc, unit, pair.one, None)?)?;
    terms.push(term_in(alloc, unit, pair.other, None)?)?;
    terms.push((negative(unit, p), Sequence::new(alloc)))?;
    multiples.push((line, Sequence::from_vec(terms)))?;
    let factor = negative(product(pair.scale, unit, p), p);
    for (x, c) in [(pair.one, factor), (pair.other, negative(factor, p))] {
        if let Some(bit) = system.bit(x) {
            let c = product(c, inverse(bit.lead, p), p);
            let mut terms = Vec::new(alloc);
            terms.push(term_in(alloc, c, pair.inverse, None)?)?;
            multiples.push((bit.line, Sequence::from_vec(terms)))?;
        }
    }
    writer.combine(multiples)
}

/// The bits of a pair with values in a case that are not equal, where these are their lines.
fn opposites(pair: Difference, is_one: bool, lines: (u32, u32)) -> [FixedBit; 2] {
    [
        FixedBit {
            variable: pair.one,
            is_one,
            line: lines.0,
        },
        FixedBit {
            variable: pair.other,
            is_one: !is_one,
            line: lines.1,
        },
    ]
}

/// Writes the case of a pair in which the first bit has a value, after the lines before the cases.
fn write_case(
    system: &System,
    writer: &mut Writer,
    pair: Difference,
    is_one: bool,
    opposite: u32,
    found: &Found,
) -> Result<(), AllocError> {
    let p = system.order;
    let case = writer.take_number();
    let other = writer.add((opposite, 1), (case, negative(1, p)))?;
    let fixed = opposites(pair, is_one, (case, other));
    writer.write_clash(system, &fixed, &found.0, found.1)
}

/// Writes the tree with the two cases of a pair.
fn write_cases(
    alloc: Global,
    system: &System,
    line: u32,
    pair: Difference,
    cases: &[Found],
) -> Result<Vec<CertLine>, AllocError> {
    let mut writer = Writer::new(alloc, system.order, system.count);
    let opposite = write_opposite(alloc, system, &mut writer, line, pair)?;
    let bit = writer.write_bit(system, pair.one)?;
    let roots = vec![in alloc; 0u64, 1]?;
    writer
        .lines
        .push(CertLine::Split(bit, pair.one, Sequence::from_vec(roots)))?;
    let before = writer.next;
    for (is_one, found) in VALUES.iter().zip(cases) {
        writer.next = before;
        write_case(system, &mut writer, pair, *is_one, opposite, found)?;
    }
    Ok(writer.into_lines())
}

/// Tries both cases of a pair.
fn by_pair(
    alloc: Global,
    system: &System,
    line: u32,
    pair: Difference,
) -> Result<Attempt, AllocError> {
    let mut units = 0u64;
    let mut cases = Vec::new(alloc);
    for is_one in VALUES {
        let fixed = opposites(pair, is_one, (0, 0));
        let (reach, clash) = clash_of(alloc, system, &fixed)?;
        units = units.saturating_add(units_of(&reach));
        match clash {
            Some(clash) => cases.push((reach, clash))?,
            None => return Ok(Attempt { units, lines: None }),
        }
    }
    let lines = write_cases(alloc, system, line, pair, cases.as_slice())?;
    Ok(Attempt {
        units,
        lines: Some(lines),
    })
}

/// Tries pairs of bits in equations that are not equal.
fn by_pairs(alloc: Global, system: &System) -> Result<Attempt, AllocError> {
    let mut attempt = Attempt {
        units: 0,
        lines: None,
    };
    for (line, pair) in system.differences.iter().take(MOST_PAIRS) {
        if system.is_summed(*pair) {
            let tried = by_pair(alloc, system, *line, *pair)?;
            attempt.units = attempt.units.saturating_add(tried.units);
            if tried.lines.is_some() {
                attempt.lines = tried.lines;
                break;
            }
        }
    }
    Ok(attempt)
}

/// How many terms the factors of lines have.
fn terms_of(lines: &[CertLine]) -> u64 {
    let mut terms = 0u64;
    for line in lines {
        if let CertLine::Combine(multiples) = line {
            for multiple in multiples.as_slice() {
                terms = terms.saturating_add(multiple.1.as_slice().len() as u64);
            }
        }
    }
    terms
}

/// Takes the units of an attempt, one for each term of a factor that is written with them, and gives its lines.
fn paid(attempt: Attempt, meter: &mut Meter) -> Result<Option<Vec<CertLine>>, SearchStop>
    ensures metered { Metered SearchStop.Spent result meter.old meter.new }
{
    meter.charge(Unit::Trial, attempt.units)?;
    let written = match &attempt.lines {
        Some(lines) => terms_of(lines.as_slice()),
        None => 0,
    };
    meter.charge(Unit::Reduction, written)?;
    Ok(attempt.lines)
}

/// Generators of which sums of bits are refuted. Each list of values takes a unit, as do 64 values and each term of a factor that
/// is written.
#[derive(Drop)]
pub struct Sums {
    system: System,
    /// Whether some variable was reached from two sides.
    has_met: bool,
}

impl Sums {
    /// Generators of these shapes, in order.
    pub fn new(alloc: Global, order: u64, shapes: Vec<Shape>) -> Result<Sums, AllocError> {
        Ok(Sums {
            system: System::new(alloc, order, shapes)?,
            has_met: false,
        })
    }

    /// Tries without cases.
    fn plainly(&mut self, alloc: Global) -> Result<Attempt, AllocError> {
        let (reach, clash) = clash_of(alloc, &self.system, &[])?;
        self.has_met = reach.has_met();
        let units = units_of(&reach);
        let Some(clash) = clash else {
            return Ok(Attempt { units, lines: None });
        };
        let mut writer = Writer::new(alloc, self.system.order, self.system.count);
        writer.write_clash(&self.system, &[], &reach, clash)?;
        let lines = Some(writer.into_lines());
        Ok(Attempt { units, lines })
    }

    /// A tree without cases, if the sums of bits clash.
    ///
    /// # Errors
    ///
    /// Spent, where the meter is full, and Memory.
    pub fn refuted(
        &mut self,
        alloc: Global,
        meter: &mut Meter,
    ) -> Result<Option<Vec<CertLine>>, SearchStop>
        ensures metered { Metered SearchStop.Spent result meter.old meter.new }
    {
        if !self.system.has_sums() {
            return Ok(None);
        }
        let attempt = self.plainly(alloc)?;
        paid(attempt, meter)
    }

    /// A tree with the two cases of a pair of bits that are not equal, if there is one, where the sums do not clash without, but
    /// meet.
    ///
    /// # Errors
    ///
    /// Spent, where the meter is full, and Memory.
    pub fn refuted_by_pairs(
        &self,
        alloc: Global,
        meter: &mut Meter,
    ) -> Result<Option<Vec<CertLine>>, SearchStop>
        ensures metered { Metered SearchStop.Spent result meter.old meter.new }
    {
        if !self.has_met {
            return Ok(None);
        }
        let attempt = by_pairs(alloc, &self.system)?;
        paid(attempt, meter)
    }
}
