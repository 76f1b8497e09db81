//! Which polynomials are made for that of a node: those of products, and of sums that are factors. Sums that are only added
//! are opened in place, and single terms are made where they are used.
ghost use Rattle.std.specs.Prelude.{◌≡◌, ◌∷◌, [], ◌⊎◌, ◌<◌, true, false, length, IfSome, IfOk, OnOk};
ghost use Rattle.ffc_term.specs.Nodes.{IsNodeAt};
ghost use Rattle.ffc_term.specs.Tables.{IsTable};
ghost use Rattle.ffc_term.specs.declared.node.Node.{Node as TableNode};
ghost use Rattle.ffc_trees.specs.Parts.{parts_of};
ghost use Rattle.ffc_encode.specs.Parts.{IsWithin};
ghost use Rattle.ffc_encode.specs.Opening.{is_leaf, is_product};
ghost use Rattle.ffc_encode.specs.Order.{HasId, AreNoted, IsNowListed, CanBeMadeInOrder, IsListedOrLeaf};

use ffc_field::Field;
use ffc_mono::MonoOrder;
use ffc_poly::Poly;
use ffc_term::{Node, NodeId, NodeTable};
use std::alloc::{AllocError, Global};
use std::collections::{BTreeMap, BTreeSet};

/// Whether the polynomial of a node is made by itself, where it is asked for or a factor, or is not.
fn is_made(node: &Node, factor: bool) -> bool
    ensures { result ≡ false → (is_leaf node.now ≡ true) ⊎ ((factor ≡ false) × (is_product node.now ≡ false)) }
{
    match node {
        Node::Mul(_) => true,
        Node::FieldConst(..) | Node::IteField(..) | Node::Num(..) => false,
        _ => factor,
    }
}

/// Whether a node is a factor of those that were looked at, where it was one before, or was not, or was not reached.
fn is_factor(before: Option<bool>, factor: bool) -> bool
    ensures factor { factor ≡ true → result ≡ true }
    ensures before { IfSome before (λ b. b ≡ true → result ≡ true) }
{
    match before {
        Some(before) => before || factor,
        None => factor,
    }
}

/// Lets a node that is not known wait, to be looked at.
fn note_one<F: Field, O: MonoOrder>(
    known: &BTreeMap<NodeId, Poly<F, O>>,
    waiting: &mut BTreeMap<NodeId, bool>,
    id: NodeId,
    factor: bool,
) -> Result<(), AllocError>
    ensures { OnOk result (AreNoted known.now waiting.old waiting.new factor (id ∷ [])) }
{
    if known.contains_key(&id) {
        return Ok(());
    }
    let noted = is_factor(waiting.get(&id).copied(), factor);
    waiting.insert(id, noted)?;
    Ok(())
}

/// The same for each of these nodes.
fn note_all<F: Field, O: MonoOrder>(
    known: &BTreeMap<NodeId, Poly<F, O>>,
    waiting: &mut BTreeMap<NodeId, bool>,
    ids: &[NodeId],
    factors: bool,
) -> Result<(), AllocError>
    ensures { OnOk result (AreNoted known.now waiting.old waiting.new factors ids.now) }
{
    for id in ids {
        note_one(known, waiting, *id, factors)?;
    }
    Ok(())
}

/// The same for the parts of a node.
fn note_parts<F: Field, O: MonoOrder>(
    table: &NodeTable,
    known: &BTreeMap<NodeId, Poly<F, O>>,
    waiting: &mut BTreeMap<NodeId, bool>,
    id: NodeId,
) -> Result<(), AllocError>
    requires { id < length table.now }
    ensures { OnOk result ((n : TableNode) → IsNodeAt table.now id n
        → AreNoted known.now waiting.old waiting.new (is_product n) (parts_of n)) }
{
    match table.node(id) {
        Node::Add(ids) => note_all(known, waiting, ids.as_slice(), false),
        Node::Bitsum(ids) => note_all(known, waiting, ids.as_slice(), false),
        Node::Mul(ids) => note_all(known, waiting, ids.as_slice(), true),
        Node::Neg(a) => note_one(known, waiting, *a, false),
        _ => Ok(()),
    }
}

/// Lists a node, if its polynomial is made by itself.
fn list_made(
    table: &NodeTable,
    to_make: &mut BTreeSet<NodeId>,
    id: NodeId,
    factor: bool,
) -> Result<(), AllocError>
    requires { id < length table.now }
    ensures listed { OnOk result (IsNowListed table.now to_make.old to_make.new id factor) }
    ensures valid { IsTable table.now }
{
    if is_made(table.node(id), factor) {
        to_make.insert(id)?;
    }
    Ok(())
}

/// The nodes whose polynomials are made for that of a node, which is one of them or a single term. Each node under it is
/// looked at once, the greatest number first, since parts have smaller numbers.
pub fn nodes_to_make<F: Field, O: MonoOrder>(
    alloc: Global,
    table: &NodeTable,
    known: &BTreeMap<NodeId, Poly<F, O>>,
    id: NodeId,
) -> Result<BTreeSet<NodeId>, AllocError>
    requires { IsWithin table.now F.ORDER id }
    ensures made { IfOk result (CanBeMadeInOrder table.now F.ORDER known.now) }
    ensures itself { IfOk result (λ ids. IsListedOrLeaf table.now ids id) }
{
    let mut to_make = BTreeSet::new(alloc);
    let mut waiting = BTreeMap::new(alloc);
    waiting.insert(id, true)?;
    while let Some((next, factor)) = waiting.pop_last() {
        list_made(table, &mut to_make, next, factor)?;
        note_parts(table, known, &mut waiting, next)?;
    }
    Ok(to_make)
}
