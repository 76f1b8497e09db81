//! Equalities over one constant as polynomials in one variable.
ghost use Rattle.std.specs.Prelude.{◌≡◌, true, All, IfOk};
ghost use Rattle.ffc_ring.specs.Polynomial.{SamePolynomial};
ghost use Rattle.ffc_rules.specs.Entries.{is_equality_at};
ghost use Rattle.ffc_single.specs.Univariate.{IsSideIn, IsEqualityIn, IsFormOf, AreFormsOf};
ghost use Rattle.ffc_term.specs.declared.node.Node.TheVariants as node_is;
ghost use Rattle.ffc_term.specs.Nodes.{IsNodeAt};
ghost use Rattle.ffc_term.specs.Tables.{IsTable};
ghost use Rattle.ffc_trees.specs.NodePolynomials.{poly_at};
ghost use Rattle.ffc_uni.specs.Univariate.{terms_in};

use ffc_encode::{EncodeStop, Polynomials};
use ffc_field::Field;
use ffc_mono::GradedReverseLex;
use ffc_roots::to_univariate;
use ffc_term::{Node, NodeId, NodeTable};
use ffc_uni::Uni;
use std::alloc::{AllocError, Global};

/// The polynomials of a table's nodes, each made once.
pub(crate) type NodePolynomials<'a, F> = Polynomials<'a, F, GradedReverseLex>;

/// The sides of an equality.
fn sides<F: Field>(table: &NodeTable, id: NodeId) -> (NodeId, NodeId)
    requires { is_equality_at table.now F.ORDER id ≡ true }
    ensures at { IsNodeAt table.now id (node_is.Eq result.0 result.1) }
    ensures valid { IsTable table.now }
{
    match table.node(id) {
        Node::Eq(s, t) => (*s, *t),
        _ => unreachable!(),
    }
}

/// The polynomial of a field node in which one constant occurs at most.
fn side<F: Field>(
    alloc: Global,
    polynomials: &mut NodePolynomials<'_, F>,
    variable: NodeId,
    id: NodeId,
) -> Result<Uni<F>, AllocError>
    requires { IsSideIn F.ORDER polynomials.old variable id }
    ensures nodes { polynomials.new ≡ polynomials.old }
    ensures same { IfOk result (λ u. SamePolynomial F.ORDER (terms_in variable u) (poly_at polynomials.old id)) }
{
    let found = match polynomials.copy_of(id) {
        Ok(found) => found,
        Err(EncodeStop::Memory) => return Err(AllocError),
        Err(_) => unreachable!(),
    };
    // Reading the number of terms is what says that they are in order.
    let _terms = found.len();
    match to_univariate(alloc, &found, variable)? {
        Some(form) => Ok(form),
        None => unreachable!(),
    }
}

/// The difference of an equality's sides, in which one constant occurs at most.
fn difference<F: Field>(
    alloc: Global,
    table: &NodeTable,
    polynomials: &mut NodePolynomials<'_, F>,
    variable: NodeId,
    id: NodeId,
) -> Result<Uni<F>, AllocError>
    requires of_table { polynomials.old ≡ table.now }
    requires equality { IsEqualityIn F.ORDER table.now variable id }
    ensures of_table { polynomials.new ≡ table.now }
    ensures form { IfOk result (IsFormOf F.ORDER table.now variable id) }
{
    let (s, t) = sides::<F>(table, id);
    let left = side(alloc, polynomials, variable, s)?;
    let right = side(alloc, polynomials, variable, t)?;
    let form = left.sub(&right)?;
    // Reading the coefficients is what says that the last is not 0.
    let _coefficients = form.coefs();
    Ok(form)
}

/// The difference of each equality's sides, in which one constant occurs at most.
pub(crate) fn differences<F: Field>(
    alloc: Global,
    table: &NodeTable,
    polynomials: &mut NodePolynomials<'_, F>,
    variable: NodeId,
    ids: &[NodeId],
) -> Result<Vec<Uni<F>>, AllocError>
    requires of_table { polynomials.old ≡ table.now }
    requires equalities { All (IsEqualityIn F.ORDER table.now variable) ids.now }
    ensures of_table { polynomials.new ≡ table.now }
    ensures forms { IfOk result (λ v. AreFormsOf F.ORDER table.now variable ids.now v.items) }
{
    let mut forms = Vec::new(alloc);
    for id in ids {
        forms.push(difference(alloc, table, polynomials, variable, *id)?)?;
    }
    Ok(forms)
}
