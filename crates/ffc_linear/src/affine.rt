//! Equalities of degree 1 as affine forms.
ghost use Rattle.std.specs.Prelude.{◌≡◌, ℕ, ◌+◌, ◌*◌, ◌%◌, ◌≤◌, true, length, map, slice_index_or, Some, All, IfOk};
ghost use Rattle.std.specs.List.Sorted.{IsStrictlyIncreasing};
ghost use Rattle.ffc_echelon.specs.Vectors.{AreCoordinates};
ghost use Rattle.ffc_linear.specs.Affine.{column_of, monomial_column, IsAffineForm, AreAffineForms};
ghost use Rattle.ffc_linear.specs.Forming.{IsAffineIn};
ghost use Rattle.ffc_ring.specs.Monomial.{Monomial};
ghost use Rattle.ffc_ring.specs.Polynomial.{SamePolynomial, written, coefficient, difference};
ghost use Rattle.ffc_rules.specs.Entries.{is_equality_at};
ghost use Rattle.ffc_term.specs.declared.node.Node.TheVariants as node_is;
ghost use Rattle.ffc_term.specs.Measuring.{degree_at, length_at};
ghost use Rattle.ffc_term.specs.Nodes.{IsNodeAt};
ghost use Rattle.ffc_term.specs.Tables.{IsFieldAt, IsTable};
ghost use Rattle.ffc_trees.specs.NodePolynomials.{poly_at};

use ffc_echelon::Vector;
use ffc_encode::{EncodeStop, poly_of};
use ffc_field::Field;
use ffc_mono::GradedReverseLex;
use ffc_poly::Poly;
use ffc_term::{Node, NodeId, NodeTable};
use std::alloc::{AllocError, Global};

/// The column of a constant.
fn column_of(constants: &[NodeId], x: NodeId) -> Option<usize>
    requires { IsStrictlyIncreasing constants.now }
    ensures { result ≡ column_of constants.now x }
{
    match constants.binary_search(&x) {
        Ok(place) => Some(place),
        Err(_) => None,
    }
}

/// The column of the monomial with these powers, if it has one.
fn monomial_column(constants: &[NodeId], powers: &[(u32, u32)]) -> Option<usize>
    requires { IsStrictlyIncreasing constants.now }
    ensures { result ≡ monomial_column constants.now powers.now }
{
    match powers {
        [] => Some(constants.len()),
        [(x, exponent)] => {
            if *exponent == 1 {
                column_of(constants, *x)
            } else {
                None
            }
        }
        _ => None,
    }
}

/// Adds a multiple of a polynomial's coefficients in the columns of its monomials. A monomial of no column is left out.
fn add_multiple<F: Field>(
    dense: &mut [F],
    constants: &[NodeId],
    scale: F,
    poly: &Poly<F, GradedReverseLex>,
)
    requires increasing { IsStrictlyIncreasing constants.now }
    requires width { length dense.old ≡ length constants.now + 1 }
    ensures { (m : Monomial) (k : ℕ) → monomial_column constants.now m ≡ Some k
        → slice_index_or (map F.value dense.new) k 0
        ≡ (slice_index_or (map F.value dense.old) k 0 + F.value scale * written poly.now m) % F.ORDER }
{
    for i in 0..poly.len() {
        let (c, m) = poly.term(i);
        if let Some(k) = monomial_column(constants, m.pairs()) {
            dense[k] = dense[k].add_scaled(scale, c);
        }
    }
}

/// The coefficients of the difference of two polynomials, by columns.
fn difference<F: Field>(
    alloc: Global,
    constants: &[NodeId],
    left: &Poly<F, GradedReverseLex>,
    right: &Poly<F, GradedReverseLex>,
) -> Result<Vec<F>, AllocError>
    requires few { length constants.now ≤ 4096 }
    requires increasing { IsStrictlyIncreasing constants.now }
    ensures width { IfOk result (λ v. length v.items ≡ length constants.now + 1) }
    ensures same { IfOk result (λ v. (m : Monomial) (k : ℕ) → monomial_column constants.now m ≡ Some k
        → slice_index_or (map F.value v.items) k 0 ≡ coefficient F.ORDER (difference F.ORDER left.now right.now) m) }
{
    let mut dense = Vec::new(alloc);
    dense.resize(constants.len() + 1, F::of(0))?;
    add_multiple(dense.as_mut_slice(), constants, F::of(1), left);
    add_multiple(dense.as_mut_slice(), constants, F::of(1).neg(), right);
    Ok(dense)
}

/// The sides of an equality.
fn sides<F: Field>(table: &NodeTable, id: NodeId) -> (NodeId, NodeId)
    requires { is_equality_at table.now F.ORDER id ≡ true }
    ensures at { IsNodeAt table.now id (node_is.Eq result.0 result.1) }
    ensures valid { IsTable table.now }
{
    match table.node(id) {
        Node::Eq(s, t) => (*s, *t),
        _ => unreachable!(),
    }
}

/// The polynomial of a field node that is within the limits.
fn poly_within<F: Field>(
    alloc: Global,
    table: &NodeTable,
    id: NodeId,
) -> Result<Poly<F, GradedReverseLex>, AllocError>
    requires field { IsFieldAt table.now F.ORDER id }
    requires low { degree_at table.now id ≤ 1 }
    requires short { length_at table.now id ≤ 65536 }
    ensures { IfOk result (λ r. SamePolynomial F.ORDER r (poly_at table.now id)) }
{
    match poly_of(alloc, table, id) {
        Ok(found) => Ok(found),
        Err(EncodeStop::Memory) => Err(AllocError),
        Err(_) => unreachable!(),
    }
}

/// The difference of an equality's sides as an affine form in these constants.
fn affine_form<F: Field>(
    alloc: Global,
    table: &NodeTable,
    constants: &[NodeId],
    id: NodeId,
) -> Result<Vector<F>, AllocError>
    requires few { length constants.now ≤ 4096 }
    requires increasing { IsStrictlyIncreasing constants.now }
    requires affine { IsAffineIn F.ORDER table.now constants.now id }
    ensures form { IfOk result (IsAffineForm F.ORDER table.now constants.now id) }
    ensures valid { IfOk result (AreCoordinates F.ORDER) }
{
    let (s, t) = sides::<F>(table, id);
    let left = poly_within::<F>(alloc, table, s)?;
    let right = poly_within::<F>(alloc, table, t)?;
    let dense = difference(alloc, constants, &left, &right)?;
    let form = Vector::from_dense(alloc, dense.as_slice())?;
    // Reading the coordinates is what says that they are in order.
    let _coordinates = form.coordinates();
    Ok(form)
}

/// The difference of each equality's sides as an affine form in these constants.
pub(crate) fn affine_forms<F: Field>(
    alloc: Global,
    table: &NodeTable,
    constants: &[NodeId],
    ids: &[NodeId],
) -> Result<Vec<Vector<F>>, AllocError>
    requires few { length constants.now ≤ 4096 }
    requires increasing { IsStrictlyIncreasing constants.now }
    requires affine { All (IsAffineIn F.ORDER table.now constants.now) ids.now }
    ensures forms { IfOk result (λ v. AreAffineForms F.ORDER table.now constants.now ids.now v.items) }
    ensures valid { IfOk result (λ v. All (AreCoordinates F.ORDER) v.items) }
{
    let mut forms = Vec::new(alloc);
    for id in ids {
        forms.push(affine_form(alloc, table, constants, *id)?)?;
    }
    Ok(forms)
}
