//! Linear polynomials as vectors of their coefficients.
ghost use Rattle.std.specs.Prelude.{◌≡◌, ◌+◌, ◌≤◌, All, length, IfOk};
ghost use Rattle.ffc_echelon.specs.Vectors.{IsBelow};

use ffc_circuit::Generator;
use ffc_echelon::Vector;
use ffc_field::Field;
use ffc_mono::MonoRef;
use std::alloc::{AllocError, Global};

/// Whether each term has a degree of at most 1.
pub(crate) fn is_linear<F: Field>(poly: &Generator<F>) -> bool {
    for (_, m) in poly.iter() {
        if m.degree() > 1 {
            return false;
        }
    }
    true
}

/// Appends the variables of a polynomial, each as often as it occurs.
pub(crate) fn append_variables<F: Field>(
    poly: &Generator<F>,
    variables: &mut Vec<u32>,
) -> Result<(), AllocError> {
    for (_, m) in poly.iter() {
        for power in m.pairs() {
            variables.push(power.0)?;
        }
    }
    Ok(())
}

/// The column of a monomial of degree at most 1: those of the unknowns come first, and then that of the constant.
fn column_of(unknowns: &[u32], m: MonoRef<'_>) -> Option<usize> {
    match m.pairs() {
        [] => Some(unknowns.len()),
        [power, ..] => unknowns.binary_search(&power.0).ok(),
    }
}

/// Sets the coefficients of a polynomial in the columns of its monomials.
fn set_coefficients<F: Field>(row: &mut [F], unknowns: &[u32], poly: &Generator<F>)
    ensures { length row.new ≡ length row.old }
{
    for (c, m) in poly.iter() {
        if let Some(column) = column_of(unknowns, m) {
            if column < row.len() {
                row[column] = c;
            }
        }
    }
}

/// The coefficients of a linear polynomial.
fn vector_of<F: Field>(
    alloc: Global,
    unknowns: &[u32],
    poly: &Generator<F>,
) -> Result<Vector<F>, AllocError>
    requires { length unknowns.now ≤ 4096 }
    ensures { IfOk result (IsBelow (length unknowns.now + 1)) }
{
    let mut row = Vec::new(alloc);
    row.resize(unknowns.len() + 1, F::of(0))?;
    set_coefficients(row.as_mut_slice(), unknowns, poly);
    Vector::from_dense(alloc, row.as_slice())
}

/// The same for each of the polynomials at these places.
pub(crate) fn vectors_of<F: Field>(
    alloc: Global,
    unknowns: &[u32],
    polys: &[Generator<F>],
    places: &[usize],
) -> Result<Vec<Vector<F>>, AllocError>
    requires { length unknowns.now ≤ 4096 }
    ensures below { IfOk result (λ v. All (IsBelow (length unknowns.now + 1)) v.items) }
    ensures count { IfOk result (λ v. length v.items ≤ length places.now) }
{
    let mut vectors = Vec::new(alloc);
    for place in places {
        if let Some(poly) = polys.get(*place) {
            vectors.push(vector_of(alloc, unknowns, poly)?)?;
        }
    }
    Ok(vectors)
}
