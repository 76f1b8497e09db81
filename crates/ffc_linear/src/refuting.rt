//! Refutations of linear checks.
ghost use Rattle.std.specs.Prelude.{◌≡◌, ℕ, ◌+◌, ◌≤◌, List, [], length, map, true, IfOk};
ghost use Rattle.ffc_clause.specs.Clauses.{Literal as ForcedLiteral, minus, is_among};
ghost use Rattle.ffc_echelon.specs.Forms.{IsContradiction, IsCombination};
ghost use Rattle.ffc_echelon.specs.Vectors.{Coordinates};
ghost use Rattle.ffc_linear.specs.Affine.{IsAffineForm};
ghost use Rattle.ffc_linear.specs.Refuting.{literals_of, summands_from, IsUsable, AreForcedForms};
ghost use Rattle.ffc_refutation.specs.Given.{AreReadable, AreRight};
ghost use Rattle.ffc_rules.specs.Entries.{NodeCheck};

use ffc_cert::{CertLine, Literal, Power, Sequence};
use ffc_field::Field;
use ffc_refutation::{Reason, Summand, by_combination};
use ffc_term::NodeId;
use std::alloc::{AllocError, Global};

// The negation of each equation with a coefficient other than 0.
fn literals_of<F: Field>(
    alloc: Global,
    equations: &[NodeId],
    coefficients: &[F],
) -> Result<Vec<Literal>, AllocError>
    requires { length coefficients.now ≡ length equations.now }
    ensures { IfOk result (λ v. v.items ≡ literals_of equations.now (map F.value coefficients.now)) }
{
    let mut lits = Vec::new(alloc);
    for (i, coefficient) in coefficients.iter().enumerate() {
        if coefficient.residue() != 0 {
            lits.push((false, equations[i]))?;
        }
    }
    Ok(lits)
}

// The coefficients other than 0, each with a monomial, as multiples of the first lines.
fn summands_of<F: Field>(
    alloc: Global,
    coefficients: &[F],
    monomial: &[Power],
) -> Result<Vec<Summand>, AllocError>
    requires { length coefficients.now ≤ 4096 }
    ensures { IfOk result (λ v. v.items ≡ summands_from 0 monomial.now (map F.value coefficients.now)) }
{
    let mut summands = Vec::new(alloc);
    for coefficient in coefficients {
        let residue = coefficient.residue();
        if residue != 0 {
            let powers = Sequence::from_vec(Vec::from_slice(alloc, monomial)?);
            let number = summands.len() as u32;
            summands.push((number, (residue, powers)))?;
        }
    }
    Ok(summands)
}

/// The refutation of equations by a combination of their forms that is a constant other than 0.
pub(crate) fn refute_equations<F: Field>(
    alloc: Global,
    reasons: &[Reason],
    equations: &[NodeId],
    coefficients: &[F],
) -> Result<Sequence<CertLine>, AllocError>
    requires reasons { length reasons.now ≤ 1048577 }
    requires equations { length equations.now ≤ 4096 }
    requires coefficients { length coefficients.now ≡ length equations.now }
    ensures { IfOk result (λ lines. (c : NodeCheck) (forced : List ForcedLiteral) (constants : List ℕ)
        (vectors : List Coordinates) → AreForcedForms c F.ORDER reasons.now forced constants equations.now vectors
        → IsContradiction F.ORDER (length constants) vectors (map F.value coefficients.now)
        → AreReadable lines × AreRight c lines) }
{
    let lits = literals_of(alloc, equations, coefficients)?;
    let summands = summands_of(alloc, coefficients, &[])?;
    by_combination(alloc, reasons, F::ORDER, lits, summands)
}

/// The refutation of a disequation by a combination of equations' forms that is its form: the difference of its sides
/// is then 0, and its line is -1 with that difference times the inverse that it would have.
pub(crate) fn refute_disequation<F: Field>(
    alloc: Global,
    nodes: u32,
    reasons: &[Reason],
    equations: &[NodeId],
    disequation: NodeId,
    coefficients: &[F],
) -> Result<Sequence<CertLine>, AllocError>
    requires nodes { nodes ≤ 1048576 }
    requires reasons { length reasons.now ≤ 1048577 }
    requires equations { length equations.now ≤ 4096 }
    requires coefficients { length coefficients.now ≡ length equations.now }
    ensures { IfOk result (λ lines. (c : NodeCheck) (forced : List ForcedLiteral) (constants : List ℕ)
        (vectors : List Coordinates) (vector : Coordinates) → length c.nodes ≡ nodes
        → AreForcedForms c F.ORDER reasons.now forced constants equations.now vectors
        → IsUsable c F.ORDER disequation → is_among forced (minus disequation) ≡ true
        → IsAffineForm F.ORDER c.nodes constants disequation vector
        → IsCombination F.ORDER vectors vector [] (map F.value coefficients.now)
        → AreReadable lines × AreRight c lines) }
{
    let mut lits = literals_of(alloc, equations, coefficients)?;
    let place = lits.len() as u32;
    lits.push((true, disequation))?;
    let mut summands = summands_of(alloc, coefficients, &[(nodes + place, 1)])?;
    summands.push((place, (F::ORDER - 1, Sequence::new(alloc))))?;
    by_combination(alloc, reasons, F::ORDER, lits, summands)
}
