//! Sums over nodes, with nested sums opened in place.
ghost use Rattle.std.specs.Prelude.{◌≡◌, ◌+◌, ◌^◌, ◌<◌, ◌++◌, ◌∷◌, [], false, All, sum_by, IfOk, OnOk, option_copied};
ghost use Rattle.ffc_ring.specs.Polynomial.{SamePolynomial, scaled};
ghost use Rattle.ffc_term.specs.declared.node.Node.{Node as TableNode};
ghost use Rattle.ffc_term.specs.Nodes.{IsNodeAt};
ghost use Rattle.ffc_term.specs.Tables.{IsFieldAt, IsTable};
ghost use Rattle.ffc_trees.specs.Normal.{IsNormal};
ghost use Rattle.ffc_trees.specs.NodePolynomials.{node_polys, poly_at};
ghost use Rattle.ffc_ckpoly.specs.Parts.{weighted, owed, AreKnown};
ghost use Rattle.ffc_ckpoly.specs.Multiples.{is_product, operands};
ghost use Rattle.ffc_ckpoly.specs.Opening.{part_at, size_at, waiting_ids, IsThere, IsOpenable};

use crate::multiples::multiple_of;
use crate::poly::CkPoly;
use crate::products::CkSum;
use ffc_field::Field;
use ffc_term::{Node, NodeId, NodeTable};
use std::alloc::{AllocError, Global};
use std::collections::BTreeMap;

/// The polynomial of a node, where it is kept or was made besides.
pub fn part_of<'a, F: Field>(
    known: &'a BTreeMap<NodeId, CkPoly<F>>,
    made: &'a BTreeMap<NodeId, CkPoly<F>>,
    id: NodeId,
) -> Option<&'a CkPoly<F>>
    ensures { option_copied result ≡ part_at known.now made.now id }
{
    match known.get(&id) {
        Some(part) => Some(part),
        None => made.get(&id),
    }
}

/// Lets parts wait, the first with this weight and each further one with the ratio of weights more.
fn push_weighted<F: Field>(
    table: &NodeTable,
    waiting: &mut Vec<(F, NodeId)>,
    first: F,
    ratio: F,
    ids: &[NodeId],
) -> Result<(), AllocError>
    ensures waiting { OnOk result (waiting_ids waiting.new.items ≡ waiting_ids waiting.old.items ++ ids.now) }
    ensures owed { OnOk result (SamePolynomial F.ORDER (owed F.value (node_polys table.now) waiting.new.items)
        (owed F.value (node_polys table.now) waiting.old.items ++ weighted (F.value first) (F.value ratio)
        (node_polys table.now) ids.now)) }
{
    let mut weight = first;
    for id in ids {
        waiting.push((weight, *id))?;
        weight = weight.mul(ratio);
    }
    Ok(())
}

/// Adds a multiple of the polynomial of a node that is no product: that of a variable or a number at once, and for a sum or
/// a multiple its operands wait.
fn open<F: Field>(
    table: &NodeTable,
    sum: CkSum<F>,
    waiting: &mut Vec<(F, NodeId)>,
    weight: F,
    id: NodeId,
) -> Result<CkSum<F>, AllocError>
    requires field { IsFieldAt table.now F.ORDER id }
    requires plain { (n : TableNode) → IsNodeAt table.now id n → is_product table.now n ≡ false }
    ensures waiting { OnOk result ((n : TableNode) → IsNodeAt table.now id n
        → waiting_ids waiting.new.items ≡ waiting_ids waiting.old.items ++ operands table.now n) }
    ensures same { IfOk result
        (λ r. SamePolynomial F.ORDER (r ++ owed F.value (node_polys table.now) waiting.new.items)
        (sum ++ (owed F.value (node_polys table.now) waiting.old.items
        ++ scaled (F.value weight) (poly_at table.now id)))) }
{
    let one = F::of(1);
    match table.node(id) {
        Node::FieldConst(..) => Ok(sum.with_term(weight, &[(id, 1)])?),
        Node::IteField(..) => Ok(sum.with_term(weight, &[(id, 1)])?),
        Node::Num(n, _) => Ok(sum.with_term(weight.mul(F::of(u128::from(*n))), &[])?),
        Node::Add(ids) => {
            push_weighted(table, waiting, weight.mul(one), one, ids.as_slice())?;
            Ok(sum)
        }
        Node::Bitsum(ids) => {
            push_weighted(table, waiting, weight.mul(one), F::of(2), ids.as_slice())?;
            Ok(sum)
        }
        Node::Neg(a) => {
            push_weighted(table, waiting, weight.mul(one.neg()), one, &[*a])?;
            Ok(sum)
        }
        Node::Mul(ids) => match multiple_of(table, ids.as_slice()) {
            Some((n, part)) => {
                let number = F::of(u128::from(n));
                push_weighted(table, waiting, weight.mul(number), one, &[part])?;
                Ok(sum)
            }
            None => unreachable!(),
        },
        _ => unreachable!(),
    }
}

/// Adds a node's polynomial times its weight, where it is there, and else by its parts.
fn add_node<F: Field>(
    table: &NodeTable,
    known: &BTreeMap<NodeId, CkPoly<F>>,
    made: &BTreeMap<NodeId, CkPoly<F>>,
    sum: CkSum<F>,
    waiting: &mut Vec<(F, NodeId)>,
    item: (F, NodeId),
) -> Result<CkSum<F>, AllocError>
    requires valid { IsTable table.now }
    requires known { AreKnown F.ORDER table.now known.now }
    requires made { AreKnown F.ORDER table.now made.now }
    requires node { IsOpenable table.now F.ORDER (IsThere known.now made.now) item.1 }
    requires waiting { All (IsOpenable table.now F.ORDER (IsThere known.now made.now)) (waiting_ids waiting.old.items) }
    ensures waiting { OnOk result
        (All (IsOpenable table.now F.ORDER (IsThere known.now made.now)) (waiting_ids waiting.new.items)) }
    ensures less { OnOk result (sum_by (size_at table.now) (waiting_ids waiting.new.items)
        < sum_by (size_at table.now) (waiting_ids waiting.old.items) + size_at table.now item.1) }
    ensures same { IfOk result
        (λ r. SamePolynomial F.ORDER (r ++ owed F.value (node_polys table.now) waiting.new.items)
        (sum ++ (owed F.value (node_polys table.now) waiting.old.items
        ++ scaled (F.value item.0) (poly_at table.now item.1)))) }
{
    let Some(part) = part_of(known, made, item.1) else {
        return open(table, sum, waiting, item.0, item.1);
    };
    let _degree = part.degree();
    sum.with_product(item.0.residue(), &[], part)
}

/// The polynomial of a node, with the sums and multiples under it opened in place, so that no polynomial is made for them. The
/// products under it, as far as it is opened, have to be there.
pub fn opened_sum<F: Field>(
    alloc: Global,
    table: &NodeTable,
    known: &BTreeMap<NodeId, CkPoly<F>>,
    made: &BTreeMap<NodeId, CkPoly<F>>,
    id: NodeId,
) -> Result<CkPoly<F>, AllocError>
    requires valid { IsTable table.now }
    requires known { AreKnown F.ORDER table.now known.now }
    requires made { AreKnown F.ORDER table.now made.now }
    requires node { IsOpenable table.now F.ORDER (IsThere known.now made.now) id }
    ensures same { IfOk result (λ r. SamePolynomial F.ORDER r (poly_at table.now id)) }
    ensures normal { IfOk result (λ r. IsNormal F.ORDER r) }
{
    let mut sum = CkSum::new(alloc);
    let mut waiting = Vec::new(alloc);
    waiting.push((F::of(1), id))?;
    while let Some(item) = waiting.pop() {
        sum = add_node(table, known, made, sum, &mut waiting, item)?;
    }
    sum.total()
}
