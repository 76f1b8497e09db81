//! Polynomials of nodes.
ghost use Rattle.std.specs.Prelude.{◌≡◌, ◌+◌, ◌^◌, ◌<◌, ◌≤◌, ◌++◌, ◌∷◌, [], ◌⊎◌, ◌↔◌, ℕ, length, All, sum_by, IfOk, OnOk};
ghost use Rattle.std.specs.Prelude.{IsSome, IsErrOf, OnErr, Some};
ghost use Rattle.std.specs.Ordering.{nat_cmp};
ghost use Rattle.std.specs.BTreeMap.{get, IsUnchanged, Updates};
ghost use Rattle.ffc_ring.specs.Monomial.{IsMonomial, degree};
ghost use Rattle.ffc_ring.specs.Polynomial.{SamePolynomial, difference};
ghost use Rattle.ffc_term.specs.Tables.{IsFieldAt, IsTable};
ghost use Rattle.ffc_term.specs.Measuring.{degree_at, length_at};
ghost use Rattle.ffc_trees.specs.Normal.{IsNormal, degree_of};
ghost use Rattle.ffc_trees.specs.NodePolynomials.{product_of, node_polys, poly_at};
ghost use Rattle.ffc_trees.specs.Same.{IsSameLine};
ghost use Rattle.ffc_ckpoly.specs.Parts.{IsWithin, AreKnown};
ghost use Rattle.ffc_ckpoly.specs.Opening.{IsThere, CanMake};

use crate::buffer::Buffer;
use crate::multiples::factors_of;
use crate::opening::{opened_sum, part_of};
use crate::poly::CkPoly;
use crate::powers::Power;
use crate::uses::nodes_to_make;
use ffc_field::Field;
use ffc_term::{NodeId, NodeTable};
use std::alloc::{AllocError, Global};
use std::collections::BTreeMap;
use std::marker::Model;
use thiserror::Error;

/// The greatest degree of a node whose polynomial is computed.
const MOST_DEGREE: u64 = 255;

/// The greatest number of terms of such a node.
const MOST_TERMS: u64 = 65_536;

/// How many terms of polynomials are kept from one difference to the next.
const MOST_KEPT: usize = 4_194_304;

/// The polynomial of one term.
fn term<F: Field>(alloc: Global, c: F, m: &[Power]) -> Result<CkPoly<F>, AllocError>
    requires m_is { IsMonomial m.now }
    requires fits { degree m.now < 2 ^ 64 }
    ensures same { IfOk result (λ r. SamePolynomial F.ORDER r ((F.value c, m.now) ∷ [])) }
    ensures normal { IfOk result (λ r. IsNormal F.ORDER r) }
{
    let mut buffer = Buffer::new(alloc);
    buffer.push(c, m)?;
    CkPoly::sum_in(alloc, &buffer)
}

/// The product of the parts' polynomials, by halves.
fn product<F: Field>(
    alloc: Global,
    table: &NodeTable,
    known: &BTreeMap<NodeId, CkPoly<F>>,
    made: &BTreeMap<NodeId, CkPoly<F>>,
    ids: &[NodeId],
) -> Result<CkPoly<F>, AllocError>
    requires valid { IsTable table.now }
    requires known { AreKnown F.ORDER table.now known.now }
    requires made { AreKnown F.ORDER table.now made.now }
    requires fields { All (IsFieldAt table.now F.ORDER) ids.now }
    requires parts { All (IsThere known.now made.now) ids.now }
    requires low { sum_by (degree_at table.now) ids.now ≤ 255 }
    ensures same { IfOk result (λ r. SamePolynomial F.ORDER r (product_of (node_polys table.now) ids.now)) }
    ensures normal { IfOk result (λ r. IsNormal F.ORDER r) }
    ensures degree { IfOk result (λ r. degree_of r ≤ sum_by (degree_at table.now) ids.now) }
{
    match ids {
        [] => term(alloc, F::of(1), &[]),
        [id] => match part_of(known, made, *id) {
            Some(part) => part.copied(alloc),
            None => unreachable!(),
        },
        _ => {
            let (front, back) = ids.split_at(ids.len() / 2);
            let left = product(alloc, table, known, made, front)?;
            let right = product(alloc, table, known, made, back)?;
            left.mul(&right)
        }
    }
}

/// The polynomial of a node, from those that are kept and those that were made besides.
fn polynomial_of<F: Field>(
    alloc: Global,
    table: &NodeTable,
    known: &BTreeMap<NodeId, CkPoly<F>>,
    made: &BTreeMap<NodeId, CkPoly<F>>,
    id: NodeId,
) -> Result<CkPoly<F>, AllocError>
    requires within { IsWithin table.now F.ORDER id }
    requires known { AreKnown F.ORDER table.now known.now }
    requires made { AreKnown F.ORDER table.now made.now }
    requires parts { CanMake table.now (IsThere known.now made.now) (IsThere known.now made.now) id }
    ensures { IfOk result (λ r. IsSameLine F.ORDER r (poly_at table.now id)) }
{
    match factors_of(table, id) {
        Some(ids) => product(alloc, table, known, made, ids),
        None => opened_sum(alloc, table, known, made, id),
    }
}

/// Keeps the polynomial of a node.
fn keep<F: Field>(
    known: &mut BTreeMap<NodeId, CkPoly<F>>,
    id: NodeId,
    part: CkPoly<F>,
) -> Result<(), AllocError>
    ensures ok { OnOk result (Updates nat_cmp known.old known.new id (Some part)) }
    ensures err { OnErr result (IsUnchanged known.old known.new) }
{
    known.insert(id, part)?;
    Ok(())
}

/// The polynomial of a node. Each node under it is looked at once; sums and multiples under it are opened in place, and the
/// polynomials of products, of their factors and of sums that are used more than once are kept until it is made.
fn side_of<F: Field>(
    alloc: Global,
    table: &NodeTable,
    known: &BTreeMap<NodeId, CkPoly<F>>,
    id: NodeId,
) -> Result<CkPoly<F>, AllocError>
    requires within { IsWithin table.now F.ORDER id }
    requires known { AreKnown F.ORDER table.now known.now }
    ensures { IfOk result (λ r. IsSameLine F.ORDER r (poly_at table.now id)) }
{
    let _nodes = table.len();
    let mut to_make = nodes_to_make(alloc, table, known, id)?;
    let mut made = BTreeMap::new(alloc);
    while let Some(next) = to_make.pop_first() {
        let part = polynomial_of(alloc, table, known, &made, next)?;
        keep(&mut made, next, part)?;
    }
    match made.remove(&id) {
        Some(side) => Ok(side),
        None => unreachable!(),
    }
}

/// Keeps the polynomial of a node, and counts its terms.
fn learn<F: Field>(
    alloc: Global,
    table: &NodeTable,
    known: &mut BTreeMap<NodeId, CkPoly<F>>,
    kept: &mut usize,
    id: NodeId,
) -> Result<(), AllocError>
    requires within { IsWithin table.now F.ORDER id }
    requires known { AreKnown F.ORDER table.now known.old }
    ensures known { AreKnown F.ORDER table.now known.new }
    ensures learnt { OnOk result (IsSome (get nat_cmp known.new id)) }
    ensures others { OnOk result ((q : ℕ) → IsSome (get nat_cmp known.old q) → IsSome (get nat_cmp known.new q)) }
{
    if known.contains_key(&id) {
        return Ok(());
    }
    let side = side_of(alloc, table, known, id)?;
    let terms = side.terms();
    keep(known, id, side)?;
    *kept = kept.saturating_add(terms);
    Ok(())
}

/// The difference of two polynomials that are known.
fn known_difference<F: Field>(
    table: &NodeTable,
    known: &BTreeMap<NodeId, CkPoly<F>>,
    s: NodeId,
    t: NodeId,
) -> Result<CkPoly<F>, AllocError>
    requires left { IsWithin table.now F.ORDER s }
    requires right { IsWithin table.now F.ORDER t }
    requires known { AreKnown F.ORDER table.now known.now }
    requires has_left { IsSome (get nat_cmp known.now s) }
    requires has_right { IsSome (get nat_cmp known.now t) }
    ensures difference { IfOk result
        (λ r. SamePolynomial F.ORDER r (difference F.ORDER (poly_at table.now s) (poly_at table.now t))) }
    ensures normal { IfOk result (λ r. IsNormal F.ORDER r) }
    ensures low { IfOk result (λ r. degree_of r ≤ 255) }
{
    let _nodes = table.len();
    known[&s].sub(&known[&t])
}

/// The difference of the polynomials of two nodes, which are kept.
fn difference_of<F: Field>(
    alloc: Global,
    table: &NodeTable,
    known: &mut BTreeMap<NodeId, CkPoly<F>>,
    kept: &mut usize,
    s: NodeId,
    t: NodeId,
) -> Result<CkPoly<F>, AllocError>
    requires left { IsWithin table.now F.ORDER s }
    requires right { IsWithin table.now F.ORDER t }
    requires known { AreKnown F.ORDER table.now known.old }
    ensures known { AreKnown F.ORDER table.now known.new }
    ensures difference { IfOk result
        (λ r. SamePolynomial F.ORDER r (difference F.ORDER (poly_at table.now s) (poly_at table.now t))) }
    ensures normal { IfOk result (λ r. IsNormal F.ORDER r) }
    ensures low { IfOk result (λ r. degree_of r ≤ 255) }
{
    learn(alloc, table, known, kept, s)?;
    learn(alloc, table, known, kept, t)?;
    known_difference(table, known, s, t)
}

/// The polynomials of nodes that differences were asked of, over one field. Clauses see the nodes of the table.
///
/// The sides of differences are kept, until they have 4,194,304 terms together: then they are dropped, before the next
/// difference. While a side is made, the polynomials of the products under it, of their factors and of sums that are used
/// more than once are kept too, at most 65,536 terms each; of other sums none is made.
pub struct NodePolys<'a, F: Field> {
    table: &'a NodeTable,
    known: BTreeMap<NodeId, CkPoly<F>>,
    /// How many terms the sides have that were made since they were last dropped.
    kept: usize,
}

impl<'a, F: Field> Drop for NodePolys<'a, F> {
    fn drop(self) {
        let NodePolys {
            table: _,
            known: _,
            kept: _,
        } = self;
    }
}

impl<'a, F: Field> Model for NodePolys<'a, F> {
    ghost use Rattle.std.specs.Prelude.{List};
    ghost use Rattle.ffc_term.specs.declared.node.Node.{Node as TableNode};
    ghost use Rattle.ffc_ckpoly.specs.Parts.{AreKnown};

    ghost Value = { List TableNode };

    ghost view = { λ k. k.table.now };

    ghost invariant = { λ k. AreKnown F.ORDER k.table.now k.known };
}

impl<'a, F: Field> NodePolys<'a, F> {
    /// Nothing is computed yet. It takes no memory.
    pub fn new(alloc: Global, table: &'a NodeTable) -> Self
        ensures { result ≡ table.now }
    {
        NodePolys {
            table,
            known: BTreeMap::new(alloc),
            kept: 0,
        }
    }

    /// The table.
    pub fn table(&self) -> &'a NodeTable
        ensures { result.now ≡ self.now }
    {
        self.table
    }

    /// Drops what is kept, where it is too much.
    fn make_room(&mut self, alloc: Global)
        ensures { self.new ≡ self.old }
    {
        if self.kept > MOST_KEPT {
            self.known = BTreeMap::new(alloc);
            self.kept = 0;
        }
    }

    /// The difference of the polynomials of two nodes, which are kept for later ones.
    pub fn difference(
        &mut self,
        alloc: Global,
        s: NodeId,
        t: NodeId,
    ) -> Result<CkPoly<F>, AllocError>
        requires left { IsWithin self.old F.ORDER s }
        requires right { IsWithin self.old F.ORDER t }
        ensures nodes { self.new ≡ self.old }
        ensures difference { IfOk result
            (λ r. SamePolynomial F.ORDER r (difference F.ORDER (poly_at self.old s) (poly_at self.old t))) }
        ensures normal { IfOk result (λ r. IsNormal F.ORDER r) }
        ensures low { IfOk result (λ r. degree_of r ≤ 255) }
    {
        self.make_room(alloc);
        difference_of(alloc, self.table, &mut self.known, &mut self.kept, s, t)
    }
}

/// Why a node's polynomial is not computed.
#[derive(Clone, Copy, Debug, PartialEq, Eq, Drop, Error)]
pub enum CkStop {
    /// The node has a degree above 255 or a length above 65,536.
    #[error("the degree or the length passes the limit")]
    Over,
    /// Out of memory.
    #[error("out of memory")]
    Memory,
}

impl From<AllocError> for CkStop {
    ghost use Rattle.std.specs.Prelude.{◌≡◌};
    ghost use Rattle.ffc_ckpoly.specs.declared.nodes.CkStop.TheVariants.{Memory};

    ghost from_gives = { λ _ stop. stop ≡ Memory };

    fn from(_: AllocError) -> CkStop {
        CkStop::Memory
    }
}

/// The polynomial of a field node, by those of its parts, each computed once.
pub fn ck_poly_of<F: Field>(
    alloc: Global,
    table: &NodeTable,
    id: NodeId,
) -> Result<CkPoly<F>, CkStop>
    requires { IsFieldAt table.now F.ORDER id }
    ensures same { IfOk result (λ r. IsSameLine F.ORDER r (poly_at table.now id)) }
    ensures over { IsErrOf result CkStop.Over ↔ ((255 < degree_at table.now id) ⊎ (65536 < length_at table.now id)) }
{
    if table.degree(id) > MOST_DEGREE {
        return Err(CkStop::Over);
    }
    if table.length(id) > MOST_TERMS {
        return Err(CkStop::Over);
    }
    let known = BTreeMap::new(alloc);
    Ok(side_of(alloc, table, &known, id)?)
}
