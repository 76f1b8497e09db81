//! Elimination in the matrix of a degree, and sums of multiples of generators that are a constant other than 0.
ghost use Rattle.std.specs.Prelude.{◌≡◌, ◌+◌, ◌-◌, ◌*◌, ◌≤◌, List, length, map, IfNone, IfOk, IfSome};
ghost use Rattle.ffc_base.specs.declared.meter.Unit.TheVariants as unit;
ghost use Rattle.ffc_base.specs.declared.stop.Stop.TheVariants as stops;
ghost use Rattle.ffc_echelon.specs.Units.{TakesAtMost};
ghost use Rattle.ffc_macaulay.specs.Finding.{IsFound};
ghost use Rattle.ffc_macaulay.specs.Identities.{AreGenerators, AreLinesOf, HasNoIdentity};
ghost use Rattle.ffc_bounds.specs.Monomials.{columns, rows};
ghost use Rattle.ffc_macaulay.specs.Refuting.{summands_of};
ghost use Rattle.ffc_macaulay.specs.Units.{TakesWithin};
ghost use Rattle.ffc_refutation.specs.Combinations.{IsNonzeroConstant};
ghost use Rattle.ffc_ring.specs.Polynomial.{Terms};

use crate::matrix::{Matrix, matrix_of};
use crate::multiples::Multiple;
use ffc_base::{Meter, Stop};
use ffc_cert::Sequence;
use ffc_echelon::{Echelon, Elimination, eliminate};
use ffc_field::Field;
use ffc_mono::GradedReverseLex;
use ffc_poly::Poly;
use ffc_refutation::Summand;
use std::alloc::{AllocError, Global};

/// What elimination in the matrix of a degree finds.
#[derive(Drop)]
pub(crate) enum Found<F: Field> {
    /// Multiples of the generators that sum to a constant other than 0.
    Identity(Vec<Summand>),
    /// The matrix with an echelon form of its rows. No sum of multiples is a constant other than 0.
    Form(Matrix<F>, Echelon<F>),
}

/// The multiples with a coefficient other than 0.
pub(crate) fn summands_of<F: Field>(
    alloc: Global,
    multiples: &[Multiple],
    coefficients: &[F],
) -> Result<Vec<Summand>, AllocError>
    requires { length coefficients.now ≡ length multiples.now }
    ensures { IfOk result (λ summands. summands.items ≡ summands_of multiples.now (map F.value coefficients.now)) }
{
    let mut summands = Vec::new(alloc);
    for (i, coefficient) in coefficients.iter().enumerate() {
        let residue = coefficient.residue();
        if residue != 0 {
            let multiple = &multiples[i];
            let powers = Sequence::from_vec(Vec::from_slice(alloc, multiple.1.pairs())?);
            summands.push((multiple.0, (residue, powers)))?;
        }
    }
    Ok(summands)
}

/// Eliminates in the matrix of a degree, whose rows are the multiples of the generators and whose columns are the monomials. It takes
/// at most one Reduction for each row and each monomial but 1.
pub(crate) fn eliminated<F: Field>(
    alloc: Global,
    variables: &[u32],
    generators: &[Poly<F, GradedReverseLex>],
    degrees: &[u32],
    degree: u32,
    meter: &mut Meter,
) -> Result<Found<F>, Stop>
    requires generators { AreGenerators degree variables.now degrees.now generators.now }
    requires limit { degree ≤ 1024 }
    requires columns { columns degree variables.now ≤ 4096 }
    requires rows { rows degree variables.now degrees.now ≤ 4096 }
    ensures found { IfOk result (IsFound F.ORDER degree variables.now degrees.now generators.now) }
    ensures units { TakesAtMost unit.Reduction
        (rows degree variables.now degrees.now * (columns degree variables.now - 1)) stops.Spent result meter.old meter.new }
{
    let matrix = matrix_of(alloc, variables, generators, degrees, degree)?;
    let unknowns = matrix.unknowns.len() as u32;
    let outcome = eliminate(alloc, unknowns, matrix.rows.as_slice(), meter)?;
    match outcome {
        Elimination::Contradiction(coefficients) => {
            let multiples = matrix.multiples.as_slice();
            let summands = summands_of(alloc, multiples, coefficients.as_slice())?;
            Ok(Found::Identity(summands))
        }
        Elimination::Form(form) => Ok(Found::Form(matrix, form)),
    }
}

/// A sum of multiples of the generators by monomials that is a constant other than 0, where there is one with degrees up to
/// `degree`, by elimination in Macaulay's matrix. Each monomial of a generator is of at most its stated degree, which counts in place
/// of its own. Each multiple of a row that is subtracted is a Reduction.
///
/// # Errors
///
/// The budget is spent, or out of memory.
pub fn identity<F: Field>(
    alloc: Global,
    variables: &[u32],
    generators: &[Poly<F, GradedReverseLex>],
    degrees: &[u32],
    degree: u32,
    meter: &mut Meter,
) -> Result<Option<Vec<Summand>>, Stop>
    requires generators { AreGenerators degree variables.now degrees.now generators.now }
    requires limit { degree ≤ 1024 }
    requires columns { columns degree variables.now ≤ 4096 }
    requires rows { rows degree variables.now degrees.now ≤ 4096 }
    ensures few { IfOk result (λ found. IfSome found (λ summands. length summands.items ≤ 4096)) }
    ensures found { IfOk result (λ found. IfSome found (λ summands. (lines : List Terms)
        → AreLinesOf F.ORDER generators.now lines → IsNonzeroConstant F.ORDER lines summands.items)) }
    ensures none { IfOk result (λ found. IfNone found ((lines : List Terms)
        → AreLinesOf F.ORDER generators.now lines → HasNoIdentity F.ORDER degree variables.now degrees.now lines)) }
    ensures units { TakesWithin (rows degree variables.now degrees.now * columns degree variables.now
        + columns degree variables.now) stops.Spent result meter.old meter.new }
{
    match eliminated(alloc, variables, generators, degrees, degree, meter)? {
        Found::Identity(summands) => Ok(Some(summands)),
        Found::Form(_, _) => Ok(None),
    }
}
