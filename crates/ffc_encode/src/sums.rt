//! Sums over nodes. Nested sums are opened in place: each node under a sum gives way to its parts once, with the sum of its
//! weights, since nodes are taken by decreasing number and parts have lower numbers.
ghost use Rattle.std.specs.Prelude.{◌≡◌, ◌+◌, ◌<◌, ◌∷◌, ◌++◌, [], length, IsTrue, IfOk, OnOk, MatchOption};
ghost use Rattle.std.specs.BinaryHeap.{heap_items};
ghost use Rattle.std.specs.List.Sorted.{IsPermutation};
ghost use Rattle.ffc_ring.specs.Polynomial.{SamePolynomial, scaled};
ghost use Rattle.ffc_term.specs.Tables.{IsFieldAt, IsTable};
ghost use Rattle.ffc_poly.specs.Ordered.{sum_of};
ghost use Rattle.ffc_trees.specs.NodePolynomials.{node_polys, poly_at};
ghost use Rattle.ffc_encode.specs.Parts.{IsWithin, AreKnown};
ghost use Rattle.ffc_encode.specs.Waiting.{owed_of, owed, AreOwed, AreOpened, owed_size, geometric, Takes, IsOfNode};
ghost use Rattle.ffc_encode.specs.Opening.{IsOpenable, IsReady, IsSumAt, size_at};

use crate::leaves::{leaf, memory};
use ffc_field::Field;
use ffc_mono::MonoOrder;
use ffc_poly::Poly;
use ffc_term::{Node, NodeId, NodeTable};
use std::alloc::{AllocError, Global};
use std::collections::{BTreeMap, BinaryHeap};

/// A multiple of a node's polynomial that is still to be added. The weight is a residue.
#[derive(Clone, Copy, Debug, PartialEq, Eq, PartialOrd, Ord)]
pub struct Owed {
    pub node: NodeId,
    pub weight: u64,
}

/// Lets a multiple of a node's polynomial wait.
fn owe<F: Field>(waiting: &mut BinaryHeap<Owed>, node: NodeId, weight: F) -> Result<(), AllocError>
    ensures { OnOk result (IsPermutation (owed_of node (F.value weight) ∷ heap_items waiting.old)
        (heap_items waiting.new)) }
{
    waiting.push(Owed {
        node,
        weight: weight.residue(),
    })?;
    Ok(())
}

/// Lets nodes wait, the first with this weight and each further one with the ratio of weights more.
fn owe_all<F: Field>(
    waiting: &mut BinaryHeap<Owed>,
    ids: &[NodeId],
    first: F,
    ratio: F,
) -> Result<(), AllocError>
    ensures { OnOk result (IsPermutation (geometric F.ORDER (F.value first) (F.value ratio) ids.now
        ++ heap_items waiting.old) (heap_items waiting.new)) }
{
    let mut weight = first;
    for id in ids {
        owe(waiting, *id, weight)?;
        weight = weight.mul(ratio);
    }
    Ok(())
}

/// Whether it is this node's turn.
fn is_next(waiting: &BinaryHeap<Owed>, node: NodeId) -> bool
    ensures { IsTrue result → IsOfNode node (heap_items waiting.now) }
{
    match waiting.peek() {
        Some(other) => other.node == node,
        None => false,
    }
}

/// Takes the node of the greatest number with the sum of its weights.
fn next<F: Field>(waiting: &mut BinaryHeap<Owed>) -> Option<Owed>
    ensures { MatchOption result (heap_items waiting.old ≡ [])
        (λ x. Takes F.ORDER (heap_items waiting.old) x (heap_items waiting.new)) }
{
    let Some(first) = waiting.pop() else {
        return None;
    };
    let mut weight = F::of(u128::from(first.weight));
    'same: while is_next(waiting, first.node) {
        let Some(other) = waiting.pop() else {
            unreachable!();
        };
        weight = weight.add(F::of(u128::from(other.weight)));
    }
    Some(Owed {
        node: first.node,
        weight: weight.residue(),
    })
}

/// The product of a polynomial with a constant.
fn multiple<F: Field, O: MonoOrder>(part: &Poly<F, O>, c: F) -> Result<Poly<F, O>, AllocError>
    ensures { IfOk result (λ r. SamePolynomial F.ORDER r (scaled (F.value c) part.now)) }
{
    match part.scale(c) {
        Ok(product) => Ok(product),
        Err(stop) => Err(memory(stop)),
    }
}

/// Lets the parts of a sum wait in its place.
fn open<F: Field>(
    table: &NodeTable,
    waiting: &mut BinaryHeap<Owed>,
    weight: F,
    id: NodeId,
) -> Result<(), AllocError>
    requires field { IsFieldAt table.now F.ORDER id }
    requires sum { IsSumAt table.now id }
    ensures waiting { OnOk result (AreOpened table.now id (heap_items waiting.old) (heap_items waiting.new)) }
    ensures same { OnOk result (SamePolynomial F.ORDER (owed (node_polys table.now) (heap_items waiting.new))
        (scaled (F.value weight) (poly_at table.now id) ++ owed (node_polys table.now) (heap_items waiting.old))) }
{
    match table.node(id) {
        Node::Add(ids) => owe_all(waiting, ids.as_slice(), weight, F::of(1)),
        Node::Bitsum(ids) => owe_all(waiting, ids.as_slice(), weight, F::of(2)),
        Node::Neg(a) => owe(waiting, *a, weight.neg()),
        _ => unreachable!(),
    }
}

/// Adds a multiple of a node's polynomial: at once where it is known or one term, and else by the node's parts, which wait.
fn settle<F: Field, O: MonoOrder>(
    alloc: Global,
    table: &NodeTable,
    known: &BTreeMap<NodeId, Poly<F, O>>,
    waiting: &mut BinaryHeap<Owed>,
    parts: &mut Vec<Poly<F, O>>,
    item: Owed,
) -> Result<(), AllocError>
    requires valid { IsTable table.now }
    requires node { IsOpenable table.now F.ORDER (IsReady table.now known.now) item.node }
    requires known { AreKnown F.ORDER table.now known.now }
    requires waiting { AreOwed table.now F.ORDER (IsReady table.now known.now) (heap_items waiting.old) }
    ensures waiting { OnOk result (AreOwed table.now F.ORDER (IsReady table.now known.now) (heap_items waiting.new)) }
    ensures less { OnOk result (owed_size table.now (heap_items waiting.new)
        < owed_size table.now (heap_items waiting.old) + size_at table.now item.node) }
    ensures same { OnOk result (SamePolynomial F.ORDER (sum_of parts.new.items ++ owed (node_polys table.now)
        (heap_items waiting.new))
        (sum_of parts.old.items ++ (scaled item.weight (poly_at table.now item.node) ++ owed (node_polys table.now)
        (heap_items waiting.old)))) }
{
    let weight = F::of(u128::from(item.weight));
    if let Some(part) = known.get(&item.node) {
        parts.push(multiple(part, weight)?)?;
        return Ok(());
    }
    if let Some(part) = leaf(alloc, table, weight, item.node)? {
        parts.push(part)?;
        return Ok(());
    }
    open(table, waiting, weight, item.node)
}

/// The sum of the parts of a node's polynomial.
fn total<F: Field, O: MonoOrder>(
    alloc: Global,
    table: &NodeTable,
    parts: &[Poly<F, O>],
    id: NodeId,
) -> Result<Poly<F, O>, AllocError>
    requires within { IsWithin table.now F.ORDER id }
    requires same { SamePolynomial F.ORDER (sum_of parts.now) (poly_at table.now id) }
    ensures { IfOk result (λ r. SamePolynomial F.ORDER r (poly_at table.now id)) }
{
    let _nodes = table.len();
    let _id = id;
    match Poly::sum(alloc, parts) {
        Ok(sum) => Ok(sum),
        Err(stop) => Err(memory(stop)),
    }
}

/// The polynomial of a node that is no product. The products under it, as far as it is opened, have to be known.
pub fn sum_at<F: Field, O: MonoOrder>(
    alloc: Global,
    table: &NodeTable,
    known: &BTreeMap<NodeId, Poly<F, O>>,
    id: NodeId,
) -> Result<Poly<F, O>, AllocError>
    requires valid { IsTable table.now }
    requires within { IsWithin table.now F.ORDER id }
    requires known { AreKnown F.ORDER table.now known.now }
    requires opens { IsOpenable table.now F.ORDER (IsReady table.now known.now) id }
    ensures { IfOk result (λ r. SamePolynomial F.ORDER r (poly_at table.now id)) }
{
    let mut parts = Vec::new(alloc);
    let mut waiting = BinaryHeap::new(alloc);
    owe(&mut waiting, id, F::of(1))?;
    while let Some(item) = next::<F>(&mut waiting) {
        settle(alloc, table, known, &mut waiting, &mut parts, item)?;
    }
    total(alloc, table, parts.as_slice(), id)
}
