//! Which nodes under a node have polynomials made by themselves.
ghost use Rattle.std.specs.Prelude.{◌≡◌, ◌∷◌, [], ◌<◌, true, false, length, All, IfSome, IfOk, OnOk};
ghost use Rattle.ffc_term.specs.Nodes.{IsNodeAt};
ghost use Rattle.ffc_term.specs.Tables.{IsTable};
ghost use Rattle.ffc_term.specs.declared.node.Node.{Node as TableNode};
ghost use Rattle.ffc_trees.specs.Parts.{parts_of};
ghost use Rattle.ffc_ckpoly.specs.Parts.{IsWithin};
ghost use Rattle.ffc_ckpoly.specs.Multiples.{is_product, operands};
ghost use Rattle.ffc_ckpoly.specs.Uses.{HasId, AreNoted, IsNowListed, CanBeMadeInOrder};

use crate::multiples::{is_single, multiple_of, opens_alone};
use crate::poly::CkPoly;
use ffc_field::Field;
use ffc_term::{Node, NodeId, NodeTable};
use std::alloc::{AllocError, Global};
use std::collections::{BTreeMap, BTreeSet};

/// How a node is used by those that were looked at: by more than one, and by a product.
#[derive(Clone, Copy)]
pub struct Use {
    many: bool,
    factor: bool,
}

impl Use {
    /// Whether the polynomial of a node is made by itself: that of a product, of a factor, and of a sum that is used more
    /// than once, or a multiple of a sum or a product.
    fn is_made(self, table: &NodeTable, node: &Node) -> bool
        requires { All (λ c. c < length table.now) (parts_of node.now) }
        ensures { result ≡ false → (self.factor ≡ false) × (is_product table.now node.now ≡ false) }
    {
        match node {
            Node::Mul(ids) => match multiple_of(table, ids.as_slice()) {
                Some((_, part)) => self.factor || (self.many && !is_single(table, part)),
                None => true,
            },
            Node::Add(_) => self.factor || self.many,
            Node::Bitsum(_) => self.factor || self.many,
            Node::Neg(_) => self.factor || self.many,
            _ => self.factor,
        }
    }
}

/// A use more, where a node was used in this way before, or was not.
fn one_more(before: Option<Use>, factor: bool) -> Use
    ensures factor { factor ≡ true → result.factor ≡ true }
    ensures before { IfSome before (λ uses. uses.factor ≡ true → result.factor ≡ true) }
{
    match before {
        Some(uses) => Use {
            many: true,
            factor: factor || uses.factor,
        },
        None => Use {
            many: false,
            factor,
        },
    }
}

/// Notes a use of a node that is not known. A variable or a number, or a multiple of one, is only noted as a factor.
fn note_one<F: Field>(
    table: &NodeTable,
    known: &BTreeMap<NodeId, CkPoly<F>>,
    waiting: &mut BTreeMap<NodeId, Use>,
    id: NodeId,
    factor: bool,
) -> Result<(), AllocError>
    requires { id < length table.now }
    ensures { OnOk result (AreNoted table.now known.now waiting.old waiting.new factor (id ∷ [])) }
{
    if !factor && opens_alone(table, id) {
        return Ok(());
    }
    if known.contains_key(&id) {
        return Ok(());
    }
    let noted = one_more(waiting.get(&id).copied(), factor);
    waiting.insert(id, noted)?;
    Ok(())
}

/// The same for each of these nodes.
fn note_all<F: Field>(
    table: &NodeTable,
    known: &BTreeMap<NodeId, CkPoly<F>>,
    waiting: &mut BTreeMap<NodeId, Use>,
    ids: &[NodeId],
    factors: bool,
) -> Result<(), AllocError>
    requires { All (λ id. id < length table.now) ids.now }
    ensures { OnOk result (AreNoted table.now known.now waiting.old waiting.new factors ids.now) }
{
    for id in ids {
        note_one(table, known, waiting, *id, factors)?;
    }
    Ok(())
}

/// The same for the operands of a node.
fn note_operands<F: Field>(
    table: &NodeTable,
    known: &BTreeMap<NodeId, CkPoly<F>>,
    waiting: &mut BTreeMap<NodeId, Use>,
    id: NodeId,
) -> Result<(), AllocError>
    requires { id < length table.now }
    ensures { OnOk result ((n : TableNode) → IsNodeAt table.now id n → AreNoted table.now known.now waiting.old waiting.new
        (is_product table.now n) (operands table.now n)) }
{
    match table.node(id) {
        Node::Add(ids) => note_all(table, known, waiting, ids.as_slice(), false),
        Node::Bitsum(ids) => note_all(table, known, waiting, ids.as_slice(), false),
        Node::Mul(ids) => match multiple_of(table, ids.as_slice()) {
            Some((_, part)) => note_one(table, known, waiting, part, false),
            None => note_all(table, known, waiting, ids.as_slice(), true),
        },
        Node::Neg(a) => note_one(table, known, waiting, *a, false),
        _ => Ok(()),
    }
}

/// Lists a node, if its polynomial is made by itself.
fn list_made(
    table: &NodeTable,
    to_make: &mut BTreeSet<NodeId>,
    id: NodeId,
    uses: Use,
) -> Result<(), AllocError>
    requires { id < length table.now }
    ensures listed { OnOk result (IsNowListed table.now to_make.old to_make.new id uses) }
    ensures valid { IsTable table.now }
{
    if uses.is_made(table, table.node(id)) {
        to_make.insert(id)?;
    }
    Ok(())
}

/// A node and those nodes under it that are not known and whose polynomials are made by themselves. Each node under it is
/// looked at once, the greatest number first, since parts have smaller numbers.
pub fn nodes_to_make<F: Field>(
    alloc: Global,
    table: &NodeTable,
    known: &BTreeMap<NodeId, CkPoly<F>>,
    id: NodeId,
) -> Result<BTreeSet<NodeId>, AllocError>
    requires { IsWithin table.now F.ORDER id }
    ensures made { IfOk result (CanBeMadeInOrder table.now F.ORDER known.now) }
    ensures itself { IfOk result (λ ids. HasId ids id) }
{
    let mut to_make = BTreeSet::new(alloc);
    let mut waiting = BTreeMap::new(alloc);
    waiting.insert(
        id,
        Use {
            many: false,
            factor: true,
        },
    )?;
    while let Some((next, uses)) = waiting.pop_last() {
        list_made(table, &mut to_make, next, uses)?;
        note_operands(table, known, &mut waiting, next)?;
    }
    Ok(to_make)
}
