//! Products of nodes' polynomials.
ghost use Rattle.std.specs.Prelude.{◌≡◌, All, IfOk};
ghost use Rattle.ffc_ring.specs.Polynomial.{SamePolynomial, product, PassesDegree, PassesTerms};
ghost use Rattle.ffc_term.specs.Tables.{IsFieldAt, IsTable};
ghost use Rattle.ffc_trees.specs.NodePolynomials.{node_polys, poly_at, product_of};
ghost use Rattle.ffc_encode.specs.Opening.{IsReady};
ghost use Rattle.ffc_encode.specs.Parts.{AreFactors, AreKnown};

use crate::leaves::{leaf, memory, term};
use ffc_field::Field;
use ffc_mono::MonoOrder;
use ffc_poly::Poly;
use ffc_term::{NodeId, NodeTable};
use std::alloc::{AllocError, Global};
use std::collections::BTreeMap;

/// The polynomial of a factor, which is known or one term.
fn factor<F: Field, O: MonoOrder>(
    alloc: Global,
    table: &NodeTable,
    known: &BTreeMap<NodeId, Poly<F, O>>,
    id: NodeId,
) -> Result<Poly<F, O>, AllocError>
    requires field { IsFieldAt table.now F.ORDER id }
    requires known { AreKnown F.ORDER table.now known.now }
    requires there { IsReady table.now known.now id }
    ensures { IfOk result (λ r. SamePolynomial F.ORDER r (poly_at table.now id)) }
{
    if let Some(part) = known.get(&id) {
        return Ok(part.clone()?);
    }
    match leaf(alloc, table, F::of(1), id)? {
        Some(part) => Ok(part),
        None => unreachable!(),
    }
}

/// The product of those of the two halves of a list of factors.
fn both<F: Field, O: MonoOrder>(
    left: &Poly<F, O>,
    right: &Poly<F, O>,
) -> Result<Poly<F, O>, AllocError>
    requires low { PassesDegree F.ORDER 1024 left.now right.now → ⊥ }
    requires few { PassesTerms F.ORDER 131072 (product left.now right.now) → ⊥ }
    ensures { IfOk result (λ r. SamePolynomial F.ORDER r (product left.now right.now)) }
{
    match left.mul(right) {
        Ok(both) => Ok(both),
        Err(stop) => Err(memory(stop)),
    }
}

/// The product of the factors' polynomials, by halves, so that a long one is multiplied seldom.
pub fn product<F: Field, O: MonoOrder>(
    alloc: Global,
    table: &NodeTable,
    known: &BTreeMap<NodeId, Poly<F, O>>,
    ids: &[NodeId],
) -> Result<Poly<F, O>, AllocError>
    requires valid { IsTable table.now }
    requires known { AreKnown F.ORDER table.now known.now }
    requires factors { AreFactors table.now F.ORDER ids.now }
    requires there { All (IsReady table.now known.now) ids.now }
    ensures { IfOk result (λ r. SamePolynomial F.ORDER r (product_of (node_polys table.now) ids.now)) }
{
    match ids {
        [] => term(alloc, F::of(1), &[]),
        [id] => factor(alloc, table, known, *id),
        _ => {
            let (front, back) = ids.split_at(ids.len() / 2);
            let left = product(alloc, table, known, front)?;
            let right = product(alloc, table, known, back)?;
            both(&left, &right)
        }
    }
}
