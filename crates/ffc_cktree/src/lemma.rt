//! Lemmas: the first lines of their trees, and the trees over the field of their order.
ghost use Rattle.std.specs.Prelude.{◌≡◌, ◌+◌, ◌^◌, ◌<◌, ◌≤◌, ◌++◌, ◌∷◌, length, drop, All, IfOk};
ghost use Rattle.std.specs.List.{AllByRecursion};
ghost use Rattle.ffc_field.specs.Orders.{IsOrder};
ghost use Rattle.ffc_cert.specs.Ranges.{IsLine};
ghost use Rattle.ffc_term.specs.Measuring.{degree_at, length_at};
ghost use Rattle.ffc_trees.specs.Normal.{IsNormal, degree_of};
ghost use Rattle.ffc_trees.specs.NodePolynomials.{variable, constant};
ghost use Rattle.ffc_ring.specs.Polynomial.{SamePolynomial, product, difference};
ghost use Rattle.ffc_trees.specs.Same.{IsSameLine, AreSameLines};
ghost use Rattle.ffc_trees.specs.FirstLines.{first_line, first_lines};
ghost use Rattle.ffc_trees.specs.Laws.{IsOnEquality};
ghost use Rattle.ffc_trees.specs.TreeLines.{limits};
ghost use Rattle.ffc_trees.specs.Trees.{tree_read};
ghost use Rattle.ffc_cktree.specs.Lines.{AreLines};

use crate::rows::pair;
use crate::stop::{BrokenLine, TreeStop};
use crate::walk::read_tree;
use ffc_cert::CertLine;
use ffc_ckpoly::{CkPoly, NodePolys};
use ffc_field::{BabyBear, F2, F3, F5, F17, F65537, Field, FieldId, Goldilocks, KoalaBear};
use ffc_term::{Node, NodeId, NodeTable};
use std::alloc::{AllocError, Global};
use std::marker::Model;

/// The line of a literal, where w numbers the variable for the inverse.
fn first_line<F: Field>(
    alloc: Global,
    polys: &mut NodePolys<'_, F>,
    w: u32,
    lit: (bool, NodeId),
) -> Result<CkPoly<F>, AllocError>
    requires equality { IsOnEquality polys.old F.ORDER lit }
    requires low { degree_at polys.old lit.1 ≤ 255 }
    ensures nodes { polys.new ≡ polys.old }
    ensures same { IfOk result (λ r. IsSameLine F.ORDER r (first_line F.ORDER polys.old w lit)) }
    ensures small { IfOk result (λ r. degree_of r ≤ 1024) }
{
    let table = polys.table();
    let Node::Eq(s, t) = table.node(lit.1) else {
        unreachable!();
    };
    let difference = polys.difference(alloc, *s, *t)?;
    if !lit.0 {
        return Ok(difference);
    }
    inverted(alloc, &difference, w)
}

/// f*w - 1, for a variable w.
fn inverted<F: Field>(alloc: Global, f: &CkPoly<F>, w: u32) -> Result<CkPoly<F>, AllocError>
    requires { degree_of f.now ≤ 255 }
    ensures same { IfOk result
        (λ r. SamePolynomial F.ORDER r (difference F.ORDER (product f.now (variable w)) (constant 1))) }
    ensures normal { IfOk result (λ r. IsNormal F.ORDER r) }
    ensures small { IfOk result (λ r. degree_of r ≤ 1024) }
{
    let row = pair(alloc, F::of(0), F::of(1))?;
    let inverse = CkPoly::from_coefficients(alloc, w, row.as_slice())?;
    let unit = pair(alloc, F::of(1), F::of(0))?;
    let one = CkPoly::from_coefficients(alloc, w, unit.as_slice())?;
    let product = f.mul(&inverse)?;
    product.sub(&one)
}

/// The first lines of a lemma's tree, one for each literal. The variables for inverses are numbered from the number of
/// nodes on.
fn first_lines<F: Field>(
    alloc: Global,
    polys: &mut NodePolys<'_, F>,
    lits: &[(bool, NodeId)],
) -> Result<Vec<CkPoly<F>>, AllocError>
    requires equalities { All (IsOnEquality polys.old F.ORDER) lits.now }
    requires low { All (λ lit. degree_at polys.old lit.1 ≤ 255) lits.now }
    requires few { length polys.old + length lits.now < 2 ^ 32 }
    ensures nodes { polys.new ≡ polys.old }
    ensures same { IfOk result (λ v. AreSameLines F.ORDER v.items (first_lines polys.old F.ORDER lits.now)) }
    ensures lines { IfOk result (λ v. AreLines F.ORDER v.items) }
{
    let mut lines = Vec::new(alloc);
    let mut w = polys.table().len();
    for lit in lits {
        lines.push(first_line(alloc, polys, w, *lit)?)?;
        w += 1;
    }
    Ok(lines)
}

/// Judges the tree of a lemma over a field.
fn lemma<F: Field>(
    alloc: Global,
    polys: &mut NodePolys<'_, F>,
    lits: &[(bool, NodeId)],
    lines: &[CertLine],
) -> Result<usize, TreeStop>
    requires equalities { All (IsOnEquality polys.old F.ORDER) lits.now }
    requires low { All (λ lit. degree_at polys.old lit.1 ≤ 255) lits.now }
    requires few { length polys.old + length lits.now < 2 ^ 32 }
    requires ranges { AllByRecursion IsLine lines.now }
    ensures nodes { polys.new ≡ polys.old }
    ensures within { IfOk result (λ n. n ≤ length lines.now) }
    ensures read { IfOk result (λ n. tree_read limits F.ORDER (first_lines polys.old F.ORDER lits.now) lines.now
        ≡ Ok (drop n lines.now)) }
    ensures broken { (b : BrokenLine) → result ≡ Err (TreeStop.Broken b)
        → tree_read limits F.ORDER (first_lines polys.old F.ORDER lits.now) lines.now
        ≡ Err (record { offset = b.offset; rule = b.rule }) }
{
    let first = first_lines(alloc, polys, lits)?;
    read_tree(alloc, first, lines)
}

/// The polynomials of a table's nodes that were computed so far, for each of the eight fields. Clauses see the nodes of
/// the table.
pub struct Kept<'a> {
    f2: NodePolys<'a, F2>,
    f3: NodePolys<'a, F3>,
    f5: NodePolys<'a, F5>,
    f17: NodePolys<'a, F17>,
    f65537: NodePolys<'a, F65537>,
    baby_bear: NodePolys<'a, BabyBear>,
    koala_bear: NodePolys<'a, KoalaBear>,
    goldilocks: NodePolys<'a, Goldilocks>,
}

impl Drop for Kept<'_> {
    fn drop(self) {
        let Kept {
            f2: _,
            f3: _,
            f5: _,
            f17: _,
            f65537: _,
            baby_bear: _,
            koala_bear: _,
            goldilocks: _,
        } = self;
    }
}

impl<'a> Model for Kept<'a> {
    ghost use Rattle.std.specs.Prelude.{◌≡◌, List};
    ghost use Rattle.ffc_term.specs.declared.node.Node.{Node as TableNode};

    ghost Value = { List TableNode };

    ghost view = { λ k. k.f2 };

    ghost invariant = { λ k. (k.f3 ≡ k.f2) × (k.f5 ≡ k.f2) × (k.f17 ≡ k.f2) × (k.f65537 ≡ k.f2) × (k.baby_bear ≡ k.f2)
        × (k.koala_bear ≡ k.f2) × (k.goldilocks ≡ k.f2) };
}

impl<'a> Kept<'a> {
    /// Nothing is computed yet. It takes no memory.
    pub fn new(alloc: Global, table: &'a NodeTable) -> Self
        ensures { result ≡ table.now }
    {
        Kept {
            f2: NodePolys::new(alloc, table),
            f3: NodePolys::new(alloc, table),
            f5: NodePolys::new(alloc, table),
            f17: NodePolys::new(alloc, table),
            f65537: NodePolys::new(alloc, table),
            baby_bear: NodePolys::new(alloc, table),
            koala_bear: NodePolys::new(alloc, table),
            goldilocks: NodePolys::new(alloc, table),
        }
    }
}

/// Judges the tree of a lemma over the field of this order, and answers how many lines it has. The lines are those after
/// the lemma's own, to the end of its entry.
pub fn lemma_tree(
    alloc: Global,
    kept: &mut Kept<'_>,
    order: u64,
    lits: &[(bool, NodeId)],
    lines: &[CertLine],
) -> Result<usize, TreeStop>
    requires order { IsOrder order }
    requires equalities { All (IsOnEquality kept.old order) lits.now }
    requires within { All (λ lit. (degree_at kept.old lit.1 ≤ 255) × (length_at kept.old lit.1 ≤ 65536)) lits.now }
    requires few { length kept.old + length lits.now < 2 ^ 32 }
    requires ranges { AllByRecursion IsLine lines.now }
    ensures nodes { kept.new ≡ kept.old }
    ensures within { IfOk result (λ n. n ≤ length lines.now) }
    ensures read { IfOk result (λ n. tree_read limits order (first_lines kept.old order lits.now) lines.now
        ≡ Ok (drop n lines.now)) }
    ensures broken { (b : BrokenLine) → result ≡ Err (TreeStop.Broken b)
        → tree_read limits order (first_lines kept.old order lits.now) lines.now
        ≡ Err (record { offset = b.offset; rule = b.rule }) }
{
    match FieldId::of_order(u128::from(order)) {
        Some(FieldId::F2) => lemma(alloc, &mut kept.f2, lits, lines),
        Some(FieldId::F3) => lemma(alloc, &mut kept.f3, lits, lines),
        Some(FieldId::F5) => lemma(alloc, &mut kept.f5, lits, lines),
        Some(FieldId::F17) => lemma(alloc, &mut kept.f17, lits, lines),
        Some(FieldId::F65537) => lemma(alloc, &mut kept.f65537, lits, lines),
        Some(FieldId::BabyBear) => lemma(alloc, &mut kept.baby_bear, lits, lines),
        Some(FieldId::KoalaBear) => lemma(alloc, &mut kept.koala_bear, lits, lines),
        Some(FieldId::Goldilocks) => lemma(alloc, &mut kept.goldilocks, lits, lines),
        None => unreachable!(),
    }
}
