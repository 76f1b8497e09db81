//! The order of the variables in the search over one field.
//!
//! In graded reverse lexicographic order the variable of the lowest number leads. So the variables are numbered anew. First
//! come those that occur in no product: where reduction replaces them, no product becomes longer. Then come the inverses of
//! differences. Among the others later ones come first, so that a line says what a later node is by earlier ones, and the
//! second copy of a circuit becomes the first.
use crate::generators::{Generator, GeneratorStop, variables_of};
use ffc_field::Field;
use ffc_mono::{Mono, MonoRef};
use ffc_poly::Poly;
use std::alloc::{AllocError, Global};
use std::collections::{BTreeMap, BTreeSet};

/// The variables of some polynomials, the one that leads first.
#[derive(Drop)]
pub struct Ranking {
    variables: Vec<u32>,
    ranks: BTreeMap<u32, u32>,
}

/// Adds the variables of a monomial, if it is a product.
fn add_factors(factors: &mut BTreeSet<u32>, m: MonoRef<'_>) -> Result<(), AllocError> {
    if m.degree() > 1 {
        for power in m.pairs() {
            factors.insert(power.0)?;
        }
    }
    Ok(())
}

/// The variables that occur in products.
fn factors_of<F: Field>(
    alloc: Global,
    polys: &[Generator<F>],
) -> Result<BTreeSet<u32>, AllocError> {
    let mut factors = BTreeSet::new(alloc);
    for poly in polys {
        for (_, m) in poly.iter() {
            add_factors(&mut factors, m)?;
        }
    }
    Ok(factors)
}

/// Appends the variables that are factors, or those that are not, the last one first.
fn append_last_first(
    variables: &[u32],
    factors: &BTreeSet<u32>,
    are_factors: bool,
    ranked: &mut Vec<u32>,
) -> Result<(), AllocError> {
    for variable in variables.iter().rev() {
        if factors.contains(variable) == are_factors {
            ranked.push(*variable)?;
        }
    }
    Ok(())
}

/// Appends inverses: so many variables from a number on.
fn append_inverses(first: u32, count: usize, ranked: &mut Vec<u32>) -> Result<(), AllocError> {
    let mut variable = Some(first);
    for _ in 0..count {
        let Some(inverse) = variable else {
            break;
        };
        ranked.push(inverse)?;
        variable = inverse.checked_add(1);
    }
    Ok(())
}

/// The power of a variable.
fn power(alloc: Global, variable: u32, exponent: u32) -> Result<Mono, GeneratorStop> {
    if exponent == 0 {
        return Ok(Mono::from_pairs(alloc, &[])?);
    }
    Ok(Mono::from_pairs(alloc, &[(variable, exponent)])?)
}

impl Ranking {
    /// The ranking that has these variables, each once, in this order.
    fn from_variables(alloc: Global, variables: Vec<u32>) -> Result<Self, AllocError> {
        let mut ranks = BTreeMap::new(alloc);
        let mut rank = 0u32;
        for variable in variables.as_slice() {
            ranks.insert(*variable, rank)?;
            rank = rank.saturating_add(1);
        }
        Ok(Ranking { variables, ranks })
    }

    /// The ranking of the variables of these polynomials, and of so many inverses from a variable on.
    pub fn of<F: Field>(
        alloc: Global,
        polys: &[Generator<F>],
        first_inverse: u32,
        inverses: usize,
    ) -> Result<Self, AllocError> {
        let variables = variables_of(alloc, polys)?;
        let factors = factors_of(alloc, polys)?;
        let mut ranked = Vec::new(alloc);
        append_last_first(variables.as_slice(), &factors, false, &mut ranked)?;
        append_inverses(first_inverse, inverses, &mut ranked)?;
        append_last_first(variables.as_slice(), &factors, true, &mut ranked)?;
        Ranking::from_variables(alloc, ranked)
    }

    /// The variables by rank.
    pub fn variables(&self) -> &[u32] {
        self.variables.as_slice()
    }

    /// The ranks in order.
    pub fn ranks(&self, alloc: Global) -> Result<Vec<u32>, AllocError> {
        let mut ranks = Vec::new(alloc);
        let mut next = 0u32;
        for _ in self.variables.as_slice() {
            ranks.push(next)?;
            next = next.saturating_add(1);
        }
        Ok(ranks)
    }

    /// The variable of a rank.
    pub fn variable(&self, rank: u32) -> Option<u32> {
        self.variables.get(rank as usize).copied()
    }

    /// The rank of a variable.
    pub fn rank(&self, variable: u32) -> Option<u32> {
        self.ranks.get(&variable).copied()
    }

    /// A monomial in ranks.
    fn monomial(&self, alloc: Global, m: MonoRef<'_>) -> Result<Mono, GeneratorStop> {
        let mut product = Mono::from_pairs(alloc, &[])?;
        for pair in m.pairs() {
            if let Some(rank) = self.rank(pair.0) {
                product = product.mul(&power(alloc, rank, pair.1)?)?;
            }
        }
        Ok(product)
    }

    /// A polynomial in ranks.
    fn poly<F: Field>(
        &self,
        alloc: Global,
        poly: &Generator<F>,
    ) -> Result<Generator<F>, GeneratorStop> {
        let mut terms = Vec::new(alloc);
        for (c, m) in poly.iter() {
            terms.push((c, self.monomial(alloc, m)?))?;
        }
        Ok(Poly::from_terms(alloc, terms.as_slice())?)
    }

    /// Polynomials in ranks in place of variables.
    pub fn ranked<F: Field>(
        &self,
        alloc: Global,
        polys: &[Generator<F>],
    ) -> Result<Vec<Generator<F>>, GeneratorStop> {
        let mut ranked = Vec::new(alloc);
        for poly in polys {
            ranked.push(self.poly(alloc, poly)?)?;
        }
        Ok(ranked)
    }
}
