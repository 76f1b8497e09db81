//! The linear equalities of a group as a system, and what elimination says of it.
ghost use Rattle.std.specs.Prelude.{◌<◌, length, IsTrue};

use crate::combinations::{multiples_of, one_term};
use crate::vectors::{append_variables, is_linear, vectors_of};
use ffc_base::{Meter, SearchStop, Stop};
use ffc_cdcl::Lit;
use ffc_cert::Multiple;
use ffc_circuit::{Generator, Ranking};
use ffc_echelon::{Solution, solve};
use ffc_field::Field;
use ffc_term::{NodeId, distinct};
use std::alloc::{AllocError, Global};

/// Fewer linear equalities that hold are left to a basis, which decides them as fast.
const FEWEST: usize = 8;

/// How many unknowns and equalities a system has at most: a row that is eliminated takes a place for each unknown.
const MOST: usize = 4_096;

/// How many places the rows of a system have at most where a group has other equalities too: such a group is seldom refuted so, and is
/// judged on many trails.
const MOST_PLACES: usize = 131_072;

/// What elimination finds of equalities.
#[derive(Drop)]
pub enum Decision {
    /// Values of their variables with which they hold.
    Values(Vec<(NodeId, u64)>),
    /// These do not hold together: multiples of their lines, in their order, sum to a constant other than 0. The variables of these
    /// multiples are ranks, and the only one is the inverse of the last equality's difference, where that is one that does not hold.
    Refuted(Vec<Lit>, Ranking, Vec<Multiple>),
}

/// The linear equalities of a group, those that hold and the others.
pub struct System<'a, F: Field> {
    equalities: &'a [Lit],
    /// The differences of their sides.
    polys: &'a [Generator<F>],
    /// The places of the linear ones that hold, and of those that do not.
    equal: Vec<usize>,
    unequal: Vec<usize>,
    /// The variables of these, in increasing order.
    unknowns: Vec<NodeId>,
}

impl<'a, F: Field> Drop for System<'a, F> {
    fn drop(self) {
        let System {
            equalities: _,
            polys: _,
            equal: _,
            unequal: _,
            unknowns: _,
        } = self;
    }
}

/// The places of the linear ones of these equalities that hold, or of those that do not.
fn linear_of<F: Field>(
    alloc: Global,
    equalities: &[Lit],
    polys: &[Generator<F>],
    positive: bool,
) -> Result<Vec<usize>, AllocError> {
    let mut places = Vec::new(alloc);
    for (place, equality) in equalities.iter().enumerate() {
        if let Some(poly) = polys.get(place) {
            if equality.positive == positive && is_linear(poly) {
                places.push(place)?;
            }
        }
    }
    Ok(places)
}

/// Appends the variables of the polynomials at these places.
fn append_all<F: Field>(
    polys: &[Generator<F>],
    places: &[usize],
    variables: &mut Vec<NodeId>,
) -> Result<(), AllocError> {
    for place in places {
        if let Some(poly) = polys.get(*place) {
            append_variables(poly, variables)?;
        }
    }
    Ok(())
}

/// Whether disequalities are fewer than the elements of the field, so that values that avoid all of them are found.
fn are_few<F: Field>(places: &[usize]) -> bool
    ensures { IsTrue result → length places.now < F.ORDER }
{
    (places.len() as u64) < F::ORDER
}

/// The ranking of so many inverses, from a variable on.
fn ranking_of_inverses<F: Field>(
    alloc: Global,
    first: u32,
    count: usize,
) -> Result<Ranking, AllocError> {
    let no_polys: Vec<Generator<F>> = Vec::new(alloc);
    Ranking::of(alloc, no_polys.as_slice(), first, count)
}

impl<'a, F: Field> System<'a, F> {
    /// The linear ones of these equalities, with the differences of their sides; none where few of those that hold are linear, or where
    /// many are and not all.
    pub fn of(
        alloc: Global,
        equalities: &'a [Lit],
        polys: &'a [Generator<F>],
    ) -> Result<Option<System<'a, F>>, AllocError> {
        let equal = linear_of(alloc, equalities, polys, true)?;
        if equal.len() < FEWEST {
            return Ok(None);
        }
        let unequal = linear_of(alloc, equalities, polys, false)?;
        let mut variables = Vec::new(alloc);
        append_all(polys, equal.as_slice(), &mut variables)?;
        append_all(polys, unequal.as_slice(), &mut variables)?;
        let unknowns = distinct(alloc, variables.as_slice())?;
        let system = System {
            equalities,
            polys,
            equal,
            unequal,
            unknowns,
        };
        if !system.is_whole() && system.places() > MOST_PLACES {
            return Ok(None);
        }
        Ok(Some(system))
    }

    /// How many places its rows have.
    fn places(&self) -> usize {
        self.equal.len().saturating_mul(self.unknowns.len())
    }

    /// Whether all equalities of the group are linear.
    pub fn is_whole(&self) -> bool {
        self.equal.len().saturating_add(self.unequal.len()) >= self.polys.len()
    }

    /// What elimination finds; none where the system is too large for it, or has as many disequalities as the field has elements.
    fn solved(&self, alloc: Global, meter: &mut Meter) -> Result<Option<Solution<F>>, Stop> {
        let (equal, unequal) = (self.equal.as_slice(), self.unequal.as_slice());
        let unknowns = self.unknowns.as_slice();
        if unknowns.len() > MOST || equal.len() > MOST || !are_few::<F>(unequal) {
            return Ok(None);
        }
        let zeros = vectors_of(alloc, unknowns, self.polys, equal)?;
        let others = vectors_of(alloc, unknowns, self.polys, unequal)?;
        let (zeros, others) = (zeros.as_slice(), others.as_slice());
        let found = solve(alloc, unknowns.len() as u32, zeros, others, meter)?;
        Ok(Some(found))
    }

    /// The equalities that hold refute each other.
    fn refuted(&self, alloc: Global, coefficients: &[F]) -> Result<Decision, AllocError> {
        let mut chosen = Vec::new(alloc);
        let equal = self.equal.as_slice();
        let multiples = multiples_of(
            alloc,
            self.equalities,
            equal,
            coefficients,
            &[],
            &mut chosen,
        )?;
        let ranking = ranking_of_inverses::<F>(alloc, 0, 0)?;
        Ok(Decision::Refuted(chosen, ranking, multiples))
    }

    /// They refute the other one at a place: the difference of its sides is the combination, and its line has the product of that
    /// with an inverse, less 1.
    fn combined(
        &self,
        alloc: Global,
        first_inverse: u32,
        place: usize,
        coefficients: &[F],
    ) -> Result<Decision, SearchStop> {
        let mut chosen = Vec::new(alloc);
        let equal = self.equal.as_slice();
        let mut multiples = multiples_of(
            alloc,
            self.equalities,
            equal,
            coefficients,
            &[(0, 1)],
            &mut chosen,
        )?;
        let Some(other) = self.unequal.get(place).copied() else {
            return Err(SearchStop::GaveUp);
        };
        let Some(other) = self.equalities.get(other).copied() else {
            return Err(SearchStop::GaveUp);
        };
        let Ok(number) = u32::try_from(chosen.len()) else {
            return Err(SearchStop::GaveUp);
        };
        let Some(inverse) = first_inverse.checked_add(number) else {
            return Err(SearchStop::GaveUp);
        };
        let minus_one = F::of(1).neg().residue();
        multiples.push((number, one_term(alloc, minus_one, &[])?))?;
        chosen.push(other)?;
        let ranking = ranking_of_inverses::<F>(alloc, inverse, 1)?;
        Ok(Decision::Refuted(chosen, ranking, multiples))
    }

    /// The variables with their values.
    fn paired(&self, alloc: Global, values: &[F]) -> Result<Vec<(NodeId, u64)>, AllocError> {
        let mut pairs = Vec::new(alloc);
        for (unknown, value) in self.unknowns.iter().zip(values) {
            pairs.push((*unknown, value.residue()))?;
        }
        Ok(pairs)
    }

    /// What elimination says of the group: values only where all of its equalities are linear. The k-th equality of a refutation has
    /// the variable `first_inverse + k` for the inverse of its difference.
    pub fn decided(
        &self,
        alloc: Global,
        first_inverse: u32,
        meter: &mut Meter,
    ) -> Result<Option<Decision>, SearchStop> {
        match self.solved(alloc, meter)? {
            Some(Solution::Contradiction(coefficients)) => {
                Ok(Some(self.refuted(alloc, coefficients.as_slice())?))
            }
            Some(Solution::Combination(place, coefficients)) => {
                let coefficients = coefficients.as_slice();
                Ok(Some(self.combined(alloc, first_inverse, place, coefficients)?))
            }
            Some(Solution::Values(values)) => {
                if !self.is_whole() {
                    return Ok(None);
                }
                Ok(Some(Decision::Values(self.paired(alloc, values.as_slice())?)))
            }
            None => Ok(None),
        }
    }
}
