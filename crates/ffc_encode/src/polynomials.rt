//! Polynomials of nodes.
ghost use Rattle.std.specs.Prelude.{◌≡◌, ◌<◌, ◌≤◌, ◌↔◌, length, IfOk, OnOk, IfErr, IfSome, IsSome, IsErrOf};
ghost use Rattle.std.specs.Ordering.{nat_cmp};
ghost use Rattle.std.specs.BTreeMap.{get};
ghost use Rattle.ffc_ring.specs.Polynomial.{SamePolynomial};
ghost use Rattle.ffc_term.specs.Tables.{IsFieldAt};
ghost use Rattle.ffc_term.specs.Measuring.{degree_at, length_at};
ghost use Rattle.ffc_trees.specs.NodePolynomials.{poly_at};
ghost use Rattle.ffc_encode.specs.Opening.{CanMake, IsReady};
ghost use Rattle.ffc_encode.specs.Parts.{IsWithin, AreKnown, IsKept};
ghost use Rattle.ffc_encode.specs.Values.{HasValues};

use crate::order::nodes_to_make;
use crate::products::product;
use crate::stop::EncodeStop;
use crate::sums::sum_at;
use ffc_field::Field;
use ffc_mono::MonoOrder;
use ffc_poly::Poly;
use ffc_term::{Node, NodeId, NodeTable};
use std::alloc::{AllocError, Global};
use std::collections::BTreeMap;
use std::marker::Model;

/// The greatest degree of a node whose polynomial is made.
const MOST_DEGREE: u64 = 255;

/// The greatest number of terms of such a node.
const MOST_TERMS: u64 = 65_536;

/// The polynomial of a node. What it is made of has to be known.
fn made<F: Field, O: MonoOrder>(
    alloc: Global,
    table: &NodeTable,
    known: &BTreeMap<NodeId, Poly<F, O>>,
    id: NodeId,
) -> Result<Poly<F, O>, AllocError>
    requires within { IsWithin table.now F.ORDER id }
    requires known { AreKnown F.ORDER table.now known.now }
    requires parts { CanMake table.now (IsReady table.now known.now) (IsReady table.now known.now) id }
    ensures { IfOk result (λ r. SamePolynomial F.ORDER r (poly_at table.now id)) }
{
    match table.node(id) {
        Node::Mul(ids) => product(alloc, table, known, ids.as_slice()),
        _ => sum_at(alloc, table, known, id),
    }
}

/// Makes the polynomial of a node, and keeps it.
fn make<F: Field, O: MonoOrder>(
    alloc: Global,
    table: &NodeTable,
    known: &mut BTreeMap<NodeId, Poly<F, O>>,
    id: NodeId,
) -> Result<(), AllocError>
    requires within { IsWithin table.now F.ORDER id }
    requires known { AreKnown F.ORDER table.now known.old }
    requires parts { CanMake table.now (IsReady table.now known.old) (IsReady table.now known.old) id }
    ensures known { AreKnown F.ORDER table.now known.new }
    ensures kept { OnOk result (IsKept known.old known.new id) }
{
    let found = made(alloc, table, known, id)?;
    known.insert(id, found)?;
    Ok(())
}

/// Keeps the polynomial of a node, and those that it is made of. Each node under it is looked at once.
fn learn<F: Field, O: MonoOrder>(
    alloc: Global,
    table: &NodeTable,
    known: &mut BTreeMap<NodeId, Poly<F, O>>,
    id: NodeId,
) -> Result<(), AllocError>
    requires within { IsWithin table.now F.ORDER id }
    requires known { AreKnown F.ORDER table.now known.old }
    ensures known { AreKnown F.ORDER table.now known.new }
    ensures learnt { OnOk result (IsSome (get nat_cmp known.new id)) }
{
    if known.contains_key(&id) {
        return Ok(());
    }
    let mut to_make = nodes_to_make(alloc, table, known, id)?;
    let _nodes = table.len();
    while let Some(next) = to_make.pop_first() {
        make(alloc, table, known, next)?;
    }
    if known.contains_key(&id) {
        return Ok(());
    }
    make(alloc, table, known, id)
}

/// Whether the polynomial of a node is within the limits on degree and length.
fn is_within(table: &NodeTable, id: NodeId) -> Result<(), EncodeStop>
    requires { id < length table.now }
    ensures low { OnOk result (degree_at table.now id ≤ 255) }
    ensures short { OnOk result (length_at table.now id ≤ 65536) }
    ensures too_high { IsErrOf result EncodeStop.TooHigh ↔ (255 < degree_at table.now id) }
    ensures too_long { IsErrOf result EncodeStop.TooLong
        ↔ ((degree_at table.now id ≤ 255) × (65536 < length_at table.now id)) }
{
    if table.degree(id) > MOST_DEGREE {
        return Err(EncodeStop::TooHigh);
    }
    if table.length(id) > MOST_TERMS {
        return Err(EncodeStop::TooLong);
    }
    Ok(())
}

/// The polynomials of a table's nodes over one field, each made once. Clauses see the nodes of the table.
pub struct Polynomials<'a, F: Field, O: MonoOrder> {
    table: &'a NodeTable,
    known: BTreeMap<NodeId, Poly<F, O>>,
    alloc: Global,
}

impl<'a, F: Field, O: MonoOrder> Drop for Polynomials<'a, F, O> {
    fn drop(self) {
        let Polynomials {
            table: _,
            known: _,
            alloc: _,
        } = self;
    }
}

impl<'a, F: Field, O: MonoOrder> Model for Polynomials<'a, F, O> {
    ghost use Rattle.std.specs.Prelude.{List};
    ghost use Rattle.ffc_term.specs.declared.node.Node.{Node as TableNode};
    ghost use Rattle.ffc_encode.specs.Parts.{AreKnown};

    ghost Value = { List TableNode };

    ghost view = { λ k. k.table.now };

    ghost invariant = { λ k. AreKnown F.ORDER k.table.now k.known };
}

impl<'a, F: Field, O: MonoOrder> Polynomials<'a, F, O> {
    /// None is made yet. It takes no memory.
    pub fn new(alloc: Global, table: &'a NodeTable) -> Self
        ensures { result ≡ table.now }
    {
        Polynomials {
            table,
            known: BTreeMap::new(alloc),
            alloc,
        }
    }

    /// Makes the polynomial of a field node, and keeps it and those that it is made of.
    pub fn learn(&mut self, id: NodeId) -> Result<(), EncodeStop>
        requires { IsFieldAt self.old F.ORDER id }
        ensures nodes { self.new ≡ self.old }
        ensures too_high { IsErrOf result EncodeStop.TooHigh ↔ (255 < degree_at self.old id) }
        ensures too_long { IsErrOf result EncodeStop.TooLong
            ↔ ((degree_at self.old id ≤ 255) × (65536 < length_at self.old id)) }
    {
        is_within(self.table, id)?;
        learn(self.alloc, self.table, &mut self.known, id)?;
        Ok(())
    }

    /// The polynomial of a field node, if it is kept.
    pub fn known(&self, id: NodeId) -> Option<&Poly<F, O>>
        requires { IsFieldAt self.now F.ORDER id }
        ensures same { IfSome result (λ r. SamePolynomial F.ORDER r.now (poly_at self.now id)) }
        ensures value { IfSome result (λ r. HasValues F.ORDER self.now id r.now) }
    {
        let _nodes = self.table.len();
        match self.known.get(&id) {
            Some(found) => Some(found),
            None => None,
        }
    }

    /// The polynomial of a field node. It and those that it is made of are kept. What it says of the table ends with the
    /// borrow: `learn` and `known` serve a caller who asks for more than one.
    pub fn poly_of(&mut self, id: NodeId) -> Result<&Poly<F, O>, EncodeStop>
        requires { IsFieldAt self.old F.ORDER id }
        ensures same { IfOk result (λ r. SamePolynomial F.ORDER r.now (poly_at self.old id)) }
        ensures value { IfOk result (λ r. HasValues F.ORDER self.old id r.now) }
        ensures too_high { IsErrOf result EncodeStop.TooHigh ↔ (255 < degree_at self.old id) }
        ensures too_long { IsErrOf result EncodeStop.TooLong
            ↔ ((degree_at self.old id ≤ 255) × (65536 < length_at self.old id)) }
    {
        let _nodes = self.table.len();
        is_within(self.table, id)?;
        learn(self.alloc, self.table, &mut self.known, id)?;
        match self.known.get(&id) {
            Some(found) => Ok(found),
            None => unreachable!(),
        }
    }

    /// A copy of the polynomial of a field node. The polynomial and those that it is made of are kept.
    pub fn copy_of(&mut self, id: NodeId) -> Result<Poly<F, O>, EncodeStop>
        requires { IsFieldAt self.old F.ORDER id }
        ensures nodes { self.new ≡ self.old }
        ensures same { IfOk result (λ r. SamePolynomial F.ORDER r (poly_at self.old id)) }
        ensures value { IfOk result (λ r. HasValues F.ORDER self.old id r) }
        ensures too_high { IsErrOf result EncodeStop.TooHigh ↔ (255 < degree_at self.old id) }
        ensures too_long { IsErrOf result EncodeStop.TooLong
            ↔ ((degree_at self.old id ≤ 255) × (65536 < length_at self.old id)) }
    {
        let _nodes = self.table.len();
        is_within(self.table, id)?;
        learn(self.alloc, self.table, &mut self.known, id)?;
        match self.known.get(&id) {
            Some(found) => Ok(found.clone()?),
            None => unreachable!(),
        }
    }
}

/// The polynomial of a field node.
pub fn poly_of<F: Field, O: MonoOrder>(
    alloc: Global,
    table: &NodeTable,
    id: NodeId,
) -> Result<Poly<F, O>, EncodeStop>
    requires { IsFieldAt table.now F.ORDER id }
    ensures same { IfOk result (λ r. SamePolynomial F.ORDER r (poly_at table.now id)) }
    ensures value { IfOk result (λ r. HasValues F.ORDER table.now id r) }
    ensures too_high { IsErrOf result EncodeStop.TooHigh ↔ (255 < degree_at table.now id) }
    ensures too_long { IsErrOf result EncodeStop.TooLong
        ↔ ((degree_at table.now id ≤ 255) × (65536 < length_at table.now id)) }
{
    let _nodes = table.len();
    is_within(table, id)?;
    let mut known = BTreeMap::new(alloc);
    learn(alloc, table, &mut known, id)?;
    match known.remove(&id) {
        Some(found) => Ok(found),
        None => unreachable!(),
    }
}
