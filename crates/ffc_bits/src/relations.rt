//! Linear equations between the outputs of gates and the bits by which they are said, which no gate says by itself: that the
//! carry of an adder and its sum bit are the sum of three bits, in whatever gates it is built.
ghost use Rattle.std.specs.Prelude.{◌≡◌, IsErrOf};

use crate::cuts::{CHOICES, Cuts, value_by};
use crate::derived::{Derived, Reason};
use crate::forms::Bits;
use crate::gates::{FoundGates, sum_for};
use crate::polynomials::linear;
use crate::system::Consequence;
use ffc_base::SearchStop;
use ffc_field::Field;
use ffc_line::Line;
use ffc_mono::MonoOrder;
use ffc_poly::Poly;
use std::alloc::{AllocError, Global};
use std::collections::{BTreeMap, BTreeSet};

/// At most so many variables are in an equation.
const MOST_COLUMNS: usize = 32;

/// The gates that have a cut with these leaves, by their places in the order.
type Groups = BTreeMap<(u32, u32, u32), BTreeSet<usize>>;

/// Values at the choices of leaves, and the multiples of variables that have them as their sum: the first coefficient is the
/// constant.
struct Row<F: Field> {
    values: Vec<F>,
    coefficients: Vec<F>,
}

impl<F: Field> Drop for Row<F> {
    fn drop(self) {
        let Row {
            values: _,
            coefficients: _,
        } = self;
    }
}

impl<F: Field> Row<F> {
    /// Subtracts a multiple of another row.
    fn subtract(&mut self, factor: F, other: &Row<F>) {
        let negative = factor.neg();
        for (a, b) in self.values.iter_mut().zip(other.values.as_slice()) {
            *a = a.add(negative.mul(*b));
        }
        for (a, b) in self
            .coefficients
            .iter_mut()
            .zip(other.coefficients.as_slice())
        {
            *a = a.add(negative.mul(*b));
        }
    }

    /// The place of the first value other than 0, with the value.
    fn first(&self) -> Option<(usize, F)> {
        for (place, value) in self.values.iter().enumerate() {
            if value.residue() != 0 {
                return Some((place, *value));
            }
        }
        None
    }
}

/// Rows whose first values are at different places.
#[derive(Drop)]
struct Rows<F: Field> {
    rows: Vec<Row<F>>,
}

impl<F: Field> Rows<F> {
    /// Subtracts the rows from a row, which is added if something is left. Else the row is answered, whose coefficients are an
    /// equation.
    fn add(&mut self, mut row: Row<F>) -> Result<Option<Row<F>>, AllocError> {
        for known in self.rows.as_slice() {
            if let Some((place, value)) = known.first() {
                let own = row.values.get(place).copied();
                if let (Some(own), Some(inverse)) = (own, value.inv()) {
                    row.subtract(own.mul(inverse), known);
                }
            }
        }
        if row.first().is_none() {
            return Ok(Some(row));
        }
        self.rows.push(row)?;
        Ok(None)
    }
}

/// The row of the variable with this number among so many: its values, or those of the constant 1.
fn row_of<F: Field>(
    alloc: Global,
    cuts: &Cuts,
    leaves: &[u32],
    variable: Option<u32>,
    number: usize,
    count: usize,
) -> Result<Option<Row<F>>, AllocError> {
    let mut values = Vec::new(alloc);
    for choice in 0..CHOICES {
        let is_one = match variable {
            None => Some(true),
            Some(x) => value_by(cuts, leaves, x, choice),
        };
        let Some(is_one) = is_one else {
            return Ok(None);
        };
        values.push(F::of(u128::from(is_one)))?;
    }
    let mut coefficients = vec![in alloc; F::of(0); count]?;
    if let Some(own) = coefficients.get_mut(number) {
        *own = F::of(1);
    }
    Ok(Some(Row {
        values,
        coefficients,
    }))
}

/// Gates with their cuts, of which equations are sought.
pub struct Cones<'a, F: Field, O: MonoOrder> {
    alloc: Global,
    lines: &'a [Line<F, O>],
    bits: &'a Bits,
    found: &'a FoundGates,
}

impl<F: Field, O: MonoOrder> Drop for Cones<'_, F, O> {
    fn drop(self) {
        let Cones {
            alloc: _,
            lines: _,
            bits: _,
            found: _,
        } = self;
    }
}

impl<'a, F: Field, O: MonoOrder> Cones<'a, F, O> {
    /// The gates that were found.
    pub fn new(
        alloc: Global,
        lines: &'a [Line<F, O>],
        bits: &'a Bits,
        found: &'a FoundGates,
    ) -> Self {
        Cones {
            alloc,
            lines,
            bits,
            found,
        }
    }

    /// The gates by the leaves of their cuts.
    fn groups(&self) -> Result<Groups, AllocError> {
        let mut groups: Groups = BTreeMap::new(self.alloc);
        for (x, cuts) in &self.found.cuts {
            let Some(place) = self.found.places.get(x) else {
                continue;
            };
            for cut in cuts {
                let key = match cut.leaves.as_slice() {
                    [a, b] => (*a, *b, *b),
                    [a, b, c] => (*a, *b, *c),
                    _ => continue,
                };
                if let Some(group) = groups.get_mut(&key) {
                    group.insert(*place)?;
                    continue;
                }
                let mut group = BTreeSet::new(self.alloc);
                group.insert(*place)?;
                groups.insert(key, group)?;
            }
        }
        Ok(groups)
    }

    /// The variables of a group: its leaves, the gates by two of them, and its own, each after those that it is said by. Says
    /// how many are not its own.
    fn columns(
        &self,
        leaves: &[u32],
        key: (u32, u32, u32),
        groups: &Groups,
    ) -> Result<(Vec<u32>, usize), AllocError> {
        let mut columns = Vec::new(self.alloc);
        columns.extend_from_slice(leaves)?;
        let (a, b, c) = key;
        if b != c {
            for pair in [(a, b, b), (a, c, c), (b, c, c)] {
                self.add_group(groups.get(&pair), &mut columns)?;
            }
        }
        let others = columns.len();
        self.add_group(groups.get(&key), &mut columns)?;
        Ok((columns, others))
    }

    /// Adds the outputs of a group's gates that are not there yet.
    fn add_group(
        &self,
        group: Option<&BTreeSet<usize>>,
        columns: &mut Vec<u32>,
    ) -> Result<(), AllocError> {
        if let Some(group) = group {
            for place in group {
                if let Some(x) = self.found.order.get(*place) {
                    if columns.len() < MOST_COLUMNS && !columns.contains(x) {
                        columns.push(*x)?;
                    }
                }
            }
        }
        Ok(())
    }

    /// Adds the equations of a group.
    fn add_equations(
        &self,
        key: (u32, u32, u32),
        groups: &Groups,
        derived: &mut Derived<F, O>,
        consequences: &mut Vec<Consequence<F, O>>,
    ) -> Result<(), SearchStop>
        ensures unmetered { ¬ (IsErrOf result SearchStop.Spent) }
    {
        let mut leaves = vec![in self.alloc; key.0, key.1]?;
        if key.2 != key.1 {
            leaves.push(key.2)?;
        }
        let (columns, others) = self.columns(leaves.as_slice(), key, groups)?;
        let count = columns.len().saturating_add(1);
        let mut rows = Rows {
            rows: Vec::new(self.alloc),
        };
        if let Some(row) = row_of(
            self.alloc,
            &self.found.cuts,
            leaves.as_slice(),
            None,
            0,
            count,
        )? {
            rows.add(row)?;
        }
        for (place, x) in columns.iter().enumerate() {
            let number = place.saturating_add(1);
            let row = row_of(
                self.alloc,
                &self.found.cuts,
                leaves.as_slice(),
                Some(*x),
                number,
                count,
            )?;
            let Some(row) = row else {
                continue;
            };
            if let Some(equation) = rows.add(row)? {
                if place >= others {
                    let found = self.derive(
                        leaves.as_slice(),
                        columns.as_slice(),
                        &equation,
                        derived,
                    )?;
                    if let Some(found) = found {
                        consequences.push(found)?;
                    }
                }
            }
        }
        Ok(())
    }

    /// Derives an equation between these variables.
    fn derive(
        &self,
        leaves: &[u32],
        columns: &[u32],
        equation: &Row<F>,
        derived: &mut Derived<F, O>,
    ) -> Result<Option<Consequence<F, O>>, SearchStop>
        ensures unmetered { ¬ (IsErrOf result SearchStop.Spent) }
    {
        let mut outputs = Vec::new(self.alloc);
        let mut terms = Vec::new(self.alloc);
        for (place, c) in equation.coefficients.iter().enumerate() {
            if c.residue() != 0 {
                let variable = match place.checked_sub(1) {
                    None => None,
                    Some(place) => columns.get(place).copied(),
                };
                terms.push((*c, variable))?;
                if let Some(x) = variable {
                    outputs.push(x)?;
                }
            }
        }
        let Some(between) = self
            .found
            .between(self.alloc, self.lines, leaves, outputs.as_slice())?
        else {
            return Ok(None);
        };
        let poly: Poly<F, O> = linear(self.alloc, terms)?;
        let sum = sum_for(
            self.alloc,
            self.lines,
            poly.clone()?,
            between.as_slice(),
            leaves,
            self.bits,
        )?;
        let Some(parts) = sum else {
            return Ok(None);
        };
        let step = derived.push(Reason::Sum(parts), self.lines.len())?;
        Ok(Some((step, poly)))
    }

    /// Derives the equations.
    pub fn equations(
        &self,
        derived: &mut Derived<F, O>,
    ) -> Result<Vec<Consequence<F, O>>, SearchStop>
        ensures unmetered { ¬ (IsErrOf result SearchStop.Spent) }
    {
        let mut consequences = Vec::new(self.alloc);
        let groups = self.groups()?;
        for (key, _) in &groups {
            self.add_equations(*key, &groups, derived, &mut consequences)?;
        }
        Ok(consequences)
    }
}
