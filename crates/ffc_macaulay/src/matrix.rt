//! The rows of the matrix.
ghost use Rattle.std.specs.Prelude.{◌≡◌, ℕ, ◌+◌, ◌%◌, ◌≤◌, [], ◌∷◌, ◌++◌, All, length, map, replicate, slice_index_or, IfOk, OnOk};
ghost use Rattle.ffc_ring.specs.Monomial.{Monomial, mono_mul};
ghost use Rattle.ffc_ring.proofs.PolynomialLemmas.{weighted};
ghost use Rattle.ffc_macaulay.specs.Identities.{AreGenerators};
ghost use Rattle.ffc_macaulay.specs.Matrix.{weight_of, AreRows, IsMatrix, IsMultiplier, IsRow, IsUsable};
ghost use Rattle.ffc_bounds.specs.Monomials.{columns, rows};

use crate::columns::{place_of, unknowns};
use crate::monomials::{monomials, product};
use crate::multiples::{Multiple, multiples};
use ffc_echelon::Vector;
use ffc_field::Field;
use ffc_mono::{GradedReverseLex, Mono};
use ffc_poly::Poly;
use indexmap::IndexSet;
use std::alloc::{AllocError, Global};

/// The matrix of a degree: the monomials of its columns but the last, and for each row which multiple it is.
#[derive(Drop)]
pub(crate) struct Matrix<F: Field> {
    pub(crate) unknowns: IndexSet<Mono>,
    pub(crate) multiples: Vec<Multiple>,
    pub(crate) rows: Vec<Vector<F>>,
}

/// Adds the terms of a generator times a monomial, each in its column.
fn add_multiple<F: Field>(
    alloc: Global,
    dense: &mut [F],
    unknowns: &IndexSet<Mono>,
    multiplier: &Mono,
    generator: &Poly<F, GradedReverseLex>,
) -> Result<(), AllocError>
    requires width { length dense.old ≡ length unknowns.now.keys + 1 }
    requires fits { IsMultiplier (unknowns.now.keys ++ [] ∷ []) generator.now multiplier.now }
    ensures { OnOk result ((f : Monomial → ℕ)
        → weight_of f (unknowns.now.keys ++ [] ∷ []) (λ k. slice_index_or (map F.value dense.new) k 0) % F.ORDER
        ≡ (weight_of f (unknowns.now.keys ++ [] ∷ []) (λ k. slice_index_or (map F.value dense.old) k 0)
        + weighted (λ m. f (mono_mul multiplier.now m)) generator.now) % F.ORDER) }
{
    for i in 0..generator.len() {
        let (coefficient, m) = generator.term(i);
        let m = m.to_mono(alloc)?;
        let place = place_of(unknowns, &product(multiplier, &m)?);
        dense[place] = dense[place].add(coefficient);
    }
    Ok(())
}

/// So many zeros.
fn zeros<F: Field>(alloc: Global, count: usize) -> Result<Vec<F>, AllocError>
    ensures { IfOk result (λ dense. map F.value dense.items ≡ replicate count 0) }
{
    let mut buffer = Vec::new(alloc);
    buffer.resize(count, F::of(0))?;
    Ok(buffer)
}

/// A multiple of a generator as a row.
fn row<F: Field>(
    alloc: Global,
    unknowns: &IndexSet<Mono>,
    multiplier: &Mono,
    generator: &Poly<F, GradedReverseLex>,
) -> Result<Vector<F>, AllocError>
    requires few { length unknowns.now.keys ≤ 4096 }
    requires fits { IsMultiplier (unknowns.now.keys ++ [] ∷ []) generator.now multiplier.now }
    ensures { IfOk result (IsRow F.ORDER (unknowns.now.keys ++ [] ∷ []) generator.now multiplier.now) }
{
    let mut dense = zeros(alloc, unknowns.len() + 1)?;
    add_multiple(alloc, dense.as_mut_slice(), unknowns, multiplier, generator)?;
    let row = Vector::from_dense(alloc, dense.as_slice())?;
    // Reading the coordinates is what says that they are in order.
    let _coordinates = row.coordinates();
    Ok(row)
}

/// Multiples of generators as rows.
fn rows<F: Field>(
    alloc: Global,
    unknowns: &IndexSet<Mono>,
    multiples: &[Multiple],
    generators: &[Poly<F, GradedReverseLex>],
) -> Result<Vec<Vector<F>>, AllocError>
    requires few { length unknowns.now.keys ≤ 4096 }
    requires fits { All (IsUsable (unknowns.now.keys ++ [] ∷ []) generators.now) multiples.now }
    ensures { IfOk result (λ rows. AreRows F.ORDER (unknowns.now.keys ++ [] ∷ []) generators.now multiples.now
        rows.items) }
{
    let mut rows = Vec::new(alloc);
    for multiple in multiples {
        let generator = &generators[multiple.0 as usize];
        rows.push(row(alloc, unknowns, &multiple.1, generator)?)?;
    }
    Ok(rows)
}

/// The matrix of a degree.
pub(crate) fn matrix_of<F: Field>(
    alloc: Global,
    variables: &[u32],
    generators: &[Poly<F, GradedReverseLex>],
    degrees: &[u32],
    degree: u32,
) -> Result<Matrix<F>, AllocError>
    requires generators { AreGenerators degree variables.now degrees.now generators.now }
    requires limit { degree ≤ 1024 }
    requires columns { columns degree variables.now ≤ 4096 }
    requires rows { rows degree variables.now degrees.now ≤ 4096 }
    ensures { IfOk result (λ matrix. IsMatrix F.ORDER degree variables.now degrees.now generators.now
        matrix.unknowns.keys matrix.multiples.items matrix.rows.items) }
{
    let listed = monomials(alloc, variables, degree)?;
    let unknowns = unknowns(alloc, listed.as_slice(), degree)?;
    let multiples = multiples(alloc, variables, degrees, degree)?;
    let rows = rows(alloc, &unknowns, multiples.as_slice(), generators)?;
    Ok(Matrix {
        unknowns,
        multiples,
        rows,
    })
}
