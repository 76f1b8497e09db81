//! Outputs of gates: variables that lines say by bits, with no other values than 0 and 1.
ghost use Rattle.std.specs.Prelude.{◌≡◌, IsErrOf};

use crate::cuts::{Cuts, add_cuts, inputs_of, leaves_of, table_of};
use crate::derived::{Derived, Reason, Source};
use crate::forms::Bits;
use crate::rewriting::{Rewrite, rewritten, square_less};
use ffc_base::SearchStop;
use ffc_field::Field;
use ffc_line::Line;
use ffc_mono::{MonoOrder, MonoRef};
use ffc_poly::Poly;
use std::alloc::{AllocError, Global};
use std::collections::{BTreeMap, BTreeSet};

/// A gate's line has at most so many terms.
pub const MOST_TERMS: usize = 10;

/// And at most so many inputs.
pub const MOST_INPUTS: usize = 6;

/// At most so many gates are between an output and the leaves of a cut.
const MOST_BETWEEN: usize = 16;

/// The gates that were found: the place of each output's line.
pub type Gates = BTreeMap<u32, usize>;

/// The gates that were found, in the order in which that was: each after those of its inputs.
pub struct FoundGates {
    pub order: Vec<u32>,
    /// The place of each in the order.
    pub places: BTreeMap<u32, usize>,
    /// The places of their lines.
    pub gates: Gates,
    pub cuts: Cuts,
}

impl Drop for FoundGates {
    fn drop(self) {
        let FoundGates {
            order: _,
            places: _,
            gates: _,
            cuts: _,
        } = self;
    }
}

impl FoundGates {
    /// No gates. It takes no memory.
    pub fn none(alloc: Global) -> Self {
        FoundGates {
            order: Vec::new(alloc),
            places: BTreeMap::new(alloc),
            gates: BTreeMap::new(alloc),
            cuts: BTreeMap::new(alloc),
        }
    }

    /// Adds a gate, whose line is at this place.
    fn add<F: Field, O: MonoOrder>(
        &mut self,
        alloc: Global,
        lines: &[Line<F, O>],
        output: u32,
        place: usize,
    ) -> Result<(), AllocError> {
        self.places.insert(output, self.order.len())?;
        self.order.push(output)?;
        self.gates.insert(output, place)?;
        if let Some(line) = lines.get(place) {
            add_cuts(alloc, line, output, &mut self.cuts)?;
        }
        Ok(())
    }

    /// Adds the gates of these outputs that are no leaves.
    fn wait_for(
        &self,
        waiting: &mut BTreeSet<usize>,
        leaves: &[u32],
        outputs: &[u32],
    ) -> Result<(), AllocError> {
        for x in outputs {
            if let (Some(place), false) = (self.places.get(x), leaves.contains(x)) {
                waiting.insert(*place)?;
            }
        }
        Ok(())
    }

    /// The gates between some outputs and leaves, the last ones first, with the places of their lines, if they are not many.
    pub fn between<F: Field, O: MonoOrder>(
        &self,
        alloc: Global,
        lines: &[Line<F, O>],
        leaves: &[u32],
        outputs: &[u32],
    ) -> Result<Option<Vec<(u32, usize)>>, AllocError> {
        let mut waiting = BTreeSet::new(alloc);
        self.wait_for(&mut waiting, leaves, outputs)?;
        let mut between = Vec::new(alloc);
        for _ in 0..MOST_BETWEEN {
            let Some(place) = waiting.pop_last() else {
                return Ok(Some(between));
            };
            let Some(x) = self.order.get(place) else {
                return Ok(None);
            };
            let Some(number) = self.gates.get(x) else {
                return Ok(None);
            };
            between.push((*x, *number))?;
            if let Some(line) = lines.get(*number) {
                let inputs = inputs_of(alloc, line, *x)?;
                self.wait_for(&mut waiting, leaves, inputs.as_slice())?;
            }
        }
        Ok(None)
    }
}

/// A line that may be a gate: its only variable that is no bit, which it says, and its inputs.
struct Shape {
    output: u32,
    inputs: Vec<u32>,
}

impl Drop for Shape {
    fn drop(self) {
        let Shape {
            output: _,
            inputs: _,
        } = self;
    }
}

/// The variables of a short line.
pub fn variables_of<F: Field, O: MonoOrder>(
    alloc: Global,
    poly: &Poly<F, O>,
) -> Result<BTreeSet<u32>, AllocError> {
    let mut variables = BTreeSet::new(alloc);
    for (_, m) in poly.iter() {
        for power in m.pairs() {
            variables.insert(power.0)?;
        }
    }
    Ok(variables)
}

/// Whether a variable occurs in a polynomial just once, by itself.
fn occurs_alone<F: Field, O: MonoOrder>(poly: &Poly<F, O>, x: u32) -> bool {
    let mut alone = 0usize;
    for (_, m) in poly.iter() {
        for power in m.pairs() {
            if power.0 == x {
                if m.degree() > 1 {
                    return false;
                }
                alone = alone.saturating_add(1);
            }
        }
    }
    alone == 1
}

/// What a line is as a gate, if all of its variables but one are bits.
fn shape_of<F: Field, O: MonoOrder>(
    alloc: Global,
    poly: &Poly<F, O>,
    bits: &Bits,
) -> Result<Option<Shape>, AllocError> {
    if poly.len() > MOST_TERMS {
        return Ok(None);
    }
    let mut output = None;
    let mut inputs = Vec::new(alloc);
    for x in variables_of(alloc, poly)? {
        if bits.contains_key(&x) {
            inputs.push(x)?;
        } else if output.is_some() {
            return Ok(None);
        } else {
            output = Some(x);
        }
    }
    match output {
        Some(output) if inputs.len() <= MOST_INPUTS && occurs_alone(poly, output) => {
            Ok(Some(Shape { output, inputs }))
        }
        _ => Ok(None),
    }
}

/// The value of a bit in a choice of the values of some bits.
pub fn is_one(inputs: &[u32], x: u32, choice: u64) -> bool {
    for (k, input) in inputs.iter().enumerate() {
        if *input == x {
            return choice
                .checked_shr(u32::try_from(k).unwrap_or(63))
                .unwrap_or(0)
                % 2
                == 1;
        }
    }
    false
}

/// Whether a monomial is just a variable.
fn is_power(m: MonoRef<'_>, x: u32) -> bool {
    match m.pairs() {
        [power] => power.0 == x && power.1 == 1,
        _ => false,
    }
}

/// What a line says of a variable that occurs in it alone, at a choice of the values of its other variables.
pub fn value_at<F: Field, O: MonoOrder>(
    poly: &Poly<F, O>,
    output: u32,
    inputs: &[u32],
    choice: u64,
) -> Option<F> {
    let mut rest = F::of(0);
    let mut slope = F::of(0);
    for (c, m) in poly.iter() {
        if is_power(m, output) {
            slope = c;
        } else if m
            .pairs()
            .iter()
            .all(|power| is_one(inputs, power.0, choice))
        {
            rest = rest.add(c);
        }
    }
    Some(rest.neg().mul(slope.inv()?))
}

/// Which of the inputs are outputs of gates whose own inputs are among these, with the places of their lines, later gates first.
fn inner_gates<F: Field, O: MonoOrder>(
    alloc: Global,
    lines: &[Line<F, O>],
    inputs: &[u32],
    gates: &Gates,
) -> Result<Vec<(u32, usize)>, AllocError> {
    let mut inner = Vec::new(alloc);
    for x in inputs {
        if let Some(place) = gates.get(x) {
            if let Some(line) = lines.get(*place) {
                let variables = variables_of(alloc, &line.poly)?;
                if variables.iter().all(|y| inputs.contains(y)) {
                    inner.push((*x, *place))?;
                }
            }
        }
    }
    inner.sort_unstable_by(|a, b| b.1.cmp(&a.1));
    Ok(inner)
}

/// Whether the inputs have a choice of values that their own gates give.
fn is_given<F: Field, O: MonoOrder>(
    lines: &[Line<F, O>],
    inputs: &[u32],
    inner: &[(u32, usize)],
    choice: u64,
) -> bool {
    for (x, place) in inner {
        if let Some(line) = lines.get(*place) {
            let given = value_at(&line.poly, *x, inputs, choice);
            let value = F::of(u128::from(is_one(inputs, *x, choice)));
            if given != Some(value) {
                return false;
            }
        }
    }
    true
}

/// Whether the output is 0 or 1 at each choice of the inputs that their own gates give.
fn is_bit<F: Field, O: MonoOrder>(
    lines: &[Line<F, O>],
    poly: &Poly<F, O>,
    shape: &Shape,
    inner: &[(u32, usize)],
) -> bool {
    let inputs = shape.inputs.as_slice();
    let count = 1u64
        .checked_shl(u32::try_from(inputs.len()).unwrap_or(0))
        .unwrap_or(0);
    for choice in 0..count {
        if is_given(lines, inputs, inner, choice) {
            match value_at(poly, shape.output, inputs, choice) {
                Some(value) if value.residue() <= 1 => {}
                _ => return false,
            }
        }
    }
    true
}

/// The lines that rewrite the outputs of these gates, the last ones first, and that these inputs are bits.
fn rewrites<'a, F: Field, O: MonoOrder>(
    alloc: Global,
    lines: &'a [Line<F, O>],
    squares: &'a [Poly<F, O>],
    gates: &[(u32, usize)],
    inputs: &[u32],
    bits: &Bits,
) -> Result<Vec<Rewrite<'a, F, O>>, AllocError> {
    let mut rules = Vec::new(alloc);
    for (variable, place) in gates {
        if let Some(line) = lines.get(*place) {
            rules.push(Rewrite {
                source: Source::Line(*place as u64),
                poly: &line.poly,
                variable: *variable,
                exponent: 1,
            })?;
        }
    }
    for (x, square) in inputs.iter().zip(squares) {
        let Some(source) = bits.get(x) else {
            continue;
        };
        let poly = match source {
            Source::Line(line) => match lines.get(*line as usize) {
                Some(line) => &line.poly,
                None => square,
            },
            Source::Step(_) => square,
        };
        rules.push(Rewrite {
            source: *source,
            poly,
            variable: *x,
            exponent: 2,
        })?;
    }
    Ok(rules)
}

/// A polynomial as a sum of multiples of lines, where it is 0 at what these gates give, the last ones first, of inputs that are
/// bits.
pub fn sum_for<F: Field, O: MonoOrder>(
    alloc: Global,
    lines: &[Line<F, O>],
    poly: Poly<F, O>,
    gates: &[(u32, usize)],
    inputs: &[u32],
    bits: &Bits,
) -> Result<Option<Vec<(Source, Poly<F, O>)>>, SearchStop>
    ensures unmetered { ¬ (IsErrOf result SearchStop.Spent) }
{
    let mut squares: Vec<Poly<F, O>> = Vec::new(alloc);
    for x in inputs {
        squares.push(square_less(alloc, *x)?)?;
    }
    let rules = rewrites(alloc, lines, squares.as_slice(), gates, inputs, bits)?;
    rewritten(alloc, poly, rules.as_slice())
}

/// The gates that say the inputs of a line's output by others, the last ones first, and these others, if the output is a bit
/// then.
fn support<F: Field, O: MonoOrder>(
    alloc: Global,
    lines: &[Line<F, O>],
    line: &Line<F, O>,
    shape: &Shape,
    found: &FoundGates,
) -> Result<Option<(Vec<(u32, usize)>, Vec<u32>)>, AllocError> {
    let inputs = shape.inputs.as_slice();
    let mut own = Vec::new(alloc);
    own.extend_from_slice(inputs)?;
    if is_bit(lines, &line.poly, shape, &[]) {
        return Ok(Some((Vec::new(alloc), own)));
    }
    let inner = inner_gates(alloc, lines, inputs, &found.gates)?;
    if !inner.is_empty() && is_bit(lines, &line.poly, shape, inner.as_slice()) {
        return Ok(Some((inner, own)));
    }
    for leaves in leaves_of(alloc, inputs, &found.cuts)? {
        let table = table_of(line, shape.output, inputs, leaves.as_slice(), &found.cuts);
        if table.is_some() {
            let between = found.between(alloc, lines, leaves.as_slice(), inputs)?;
            if let Some(between) = between {
                return Ok(Some((between, leaves)));
            }
        }
    }
    Ok(None)
}

/// Derives that the output of a line is a bit, if the line is a gate, and answers the output.
fn try_gate<F: Field, O: MonoOrder>(
    alloc: Global,
    lines: &[Line<F, O>],
    place: usize,
    derived: &mut Derived<F, O>,
    found: &mut FoundGates,
    bits: &mut Bits,
) -> Result<Option<u32>, SearchStop>
    ensures unmetered { ¬ (IsErrOf result SearchStop.Spent) }
{
    let Some(line) = lines.get(place) else {
        return Ok(None);
    };
    let Some(shape) = shape_of(alloc, &line.poly, bits)? else {
        return Ok(None);
    };
    let Some((inner, leaves)) = support(alloc, lines, line, &shape, found)? else {
        return Ok(None);
    };
    let mut gates = vec![in alloc; (shape.output, place)]?;
    gates.extend_from_slice(inner.as_slice())?;
    let sum = sum_for(
        alloc,
        lines,
        square_less(alloc, shape.output)?,
        gates.as_slice(),
        leaves.as_slice(),
        bits,
    )?;
    let Some(parts) = sum else {
        return Ok(None);
    };
    let step = derived.push(Reason::Sum(parts), lines.len())?;
    found.add(alloc, lines, shape.output, place)?;
    bits.insert(shape.output, Source::Step(step))?;
    Ok(Some(shape.output))
}

/// The places of the short lines in which each variable is that is no bit.
fn waiting_lines<F: Field, O: MonoOrder>(
    alloc: Global,
    lines: &[Line<F, O>],
    bits: &Bits,
) -> Result<BTreeMap<u32, Vec<usize>>, AllocError> {
    let mut waiting: BTreeMap<u32, Vec<usize>> = BTreeMap::new(alloc);
    for (place, line) in lines.iter().enumerate() {
        if line.poly.len() <= MOST_TERMS {
            for x in variables_of(alloc, &line.poly)? {
                if !bits.contains_key(&x) {
                    append(alloc, &mut waiting, x, place)?;
                }
            }
        }
    }
    Ok(waiting)
}

/// Appends a place to those of a variable.
fn append(
    alloc: Global,
    waiting: &mut BTreeMap<u32, Vec<usize>>,
    x: u32,
    place: usize,
) -> Result<(), AllocError> {
    match waiting.get_mut(&x) {
        Some(places) => places.push(place)?,
        None => {
            let mut places = Vec::new(alloc);
            places.push(place)?;
            waiting.insert(x, places)?;
        }
    }
    Ok(())
}

/// Derives of the outputs of gates that they are bits. A line is tried when one of its variables has become a bit.
pub fn add_gates<F: Field, O: MonoOrder>(
    alloc: Global,
    lines: &[Line<F, O>],
    derived: &mut Derived<F, O>,
    bits: &mut Bits,
) -> Result<FoundGates, SearchStop>
    ensures unmetered { ¬ (IsErrOf result SearchStop.Spent) }
{
    let mut found = FoundGates::none(alloc);
    let waiting = waiting_lines(alloc, lines, bits)?;
    let mut queue = BTreeSet::new(alloc);
    for (_, places) in &waiting {
        for place in places {
            queue.insert(*place)?;
        }
    }
    for _ in 0..u64::MAX {
        let Some(place) = queue.pop_first() else {
            break;
        };
        let Some(x) = try_gate(alloc, lines, place, derived, &mut found, bits)? else {
            continue;
        };
        if let Some(places) = waiting.get(&x) {
            for place in places {
                queue.insert(*place)?;
            }
        }
    }
    Ok(found)
}
