//! Generators: the lines of a lemma's literals as polynomials.
ghost use Rattle.std.specs.Prelude.{◌≡◌, ℕ, ◌+◌, ◌-◌, ◌<◌, ◌≤◌, ◌^◌, [], ◌∷◌, ◌++◌, true, length, slice_index_or, All, IfOk, OnOk};
ghost use Rattle.ffc_combination.specs.Forced.{IsUsable};
ghost use Rattle.ffc_combination.specs.Generators.{IsGenerator, AreGeneratorsOf, AreKnown};
ghost use Rattle.ffc_ring.specs.Polynomial.{SamePolynomial, PassesTerms, PassesDegree, difference, term_product, scaled};
ghost use Rattle.ffc_rules.specs.Entries.{is_equality_at};
ghost use Rattle.ffc_term.specs.declared.node.Node.TheVariants as node_is;
ghost use Rattle.ffc_term.specs.Measuring.{degree_at, length_at};
ghost use Rattle.ffc_term.specs.Nodes.{IsNodeAt, node_at};
ghost use Rattle.ffc_term.specs.Tables.{IsFieldAt, IsTable};
ghost use Rattle.ffc_trees.specs.FirstLines.{difference_of, first_line, first_lines};
ghost use Rattle.ffc_trees.specs.NodePolynomials.{constant, poly_at};
ghost use Rattle.ffc_trees.specs.Normal.{IsNormal};

use ffc_cert::Literal;
use ffc_encode::{EncodeStop, Polynomials};
use ffc_field::Field;
use ffc_mono::{GradedReverseLex, Mono, MonoStop};
use ffc_poly::{Poly, PolyStop};
use ffc_term::{Node, NodeId, NodeTable};
use std::alloc::{AllocError, Global};

/// A polynomial that is 0 where what is forced holds.
pub(crate) type Generator<F> = Poly<F, GradedReverseLex>;

/// The sides of an equality.
fn sides<F: Field>(table: &NodeTable, id: NodeId) -> (NodeId, NodeId)
    requires { is_equality_at table.now F.ORDER id ≡ true }
    ensures at { IsNodeAt table.now id (node_is.Eq result.0 result.1) }
    ensures valid { IsTable table.now }
{
    match table.node(id) {
        Node::Eq(s, t) => (*s, *t),
        _ => unreachable!(),
    }
}

/// The polynomial of a field node that is within the limits.
fn side<F: Field>(
    polynomials: &mut Polynomials<'_, F, GradedReverseLex>,
    id: NodeId,
) -> Result<Generator<F>, AllocError>
    requires field { IsFieldAt polynomials.old F.ORDER id }
    requires low { degree_at polynomials.old id ≤ 255 }
    requires short { length_at polynomials.old id ≤ 65536 }
    ensures nodes { polynomials.new ≡ polynomials.old }
    ensures same { IfOk result (λ r. SamePolynomial F.ORDER r (poly_at polynomials.old id)) }
{
    match polynomials.copy_of(id) {
        Ok(found) => Ok(found),
        Err(EncodeStop::Memory) => Err(AllocError),
        Err(_) => unreachable!(),
    }
}

/// The difference of two polynomials, which has few terms.
fn minus<F: Field>(left: &Generator<F>, right: &Generator<F>) -> Result<Generator<F>, AllocError>
    requires { PassesTerms F.ORDER 131072 (difference F.ORDER left.now right.now) → ⊥ }
    ensures same { IfOk result (λ r. SamePolynomial F.ORDER r (difference F.ORDER left.now right.now)) }
    ensures normal { IfOk result (IsNormal F.ORDER) }
{
    match left.sub(right) {
        Ok(found) => {
            // The number of terms is what says that they are in order.
            let _terms = found.len();
            Ok(found)
        }
        Err(PolyStop::Memory) => Err(AllocError),
        Err(_) => unreachable!(),
    }
}

/// One side of an equality minus the other. Polynomials of nodes that were made before are not made again.
pub(crate) fn difference_of<F: Field>(
    polynomials: &mut Polynomials<'_, F, GradedReverseLex>,
    table: &NodeTable,
    id: NodeId,
) -> Result<Generator<F>, AllocError>
    requires of_table { polynomials.old ≡ table.now }
    requires usable { IsUsable F.ORDER table.now id }
    ensures of_table { polynomials.new ≡ polynomials.old }
    ensures same { IfOk result
        (λ r. SamePolynomial F.ORDER r (difference_of F.ORDER table.now (node_at table.now id))) }
    ensures normal { IfOk result (IsNormal F.ORDER) }
{
    let (s, t) = sides::<F>(table, id);
    let left = side(polynomials, s)?;
    let right = side(polynomials, t)?;
    minus(&left, &right)
}

/// A variable as a monomial.
fn variable(alloc: Global, number: u32) -> Result<Mono, AllocError>
    ensures { IfOk result (λ m. m ≡ (number, 1) ∷ []) }
{
    match Mono::from_pairs(alloc, &[(number, 1)]) {
        Ok(found) => Ok(found),
        Err(MonoStop::Memory) => Err(AllocError),
        Err(MonoStop::DegreeOver) => unreachable!(),
    }
}

/// The monomial 1.
fn one(alloc: Global) -> Result<Mono, AllocError>
    ensures { IfOk result (λ m. m ≡ []) }
{
    match Mono::from_pairs(alloc, &[]) {
        Ok(found) => Ok(found),
        Err(MonoStop::Memory) => Err(AllocError),
        Err(MonoStop::DegreeOver) => unreachable!(),
    }
}

/// The polynomial -1.
fn minus_one<F: Field>(alloc: Global) -> Result<Generator<F>, AllocError>
    ensures { IfOk result (λ r. SamePolynomial F.ORDER r (scaled (F.ORDER - 1) (constant 1))) }
{
    let mut terms = Vec::new(alloc);
    terms.push((F::of(1).neg(), one(alloc)?))?;
    match Poly::from_terms(alloc, terms.as_slice()) {
        Ok(found) => Ok(found),
        Err(PolyStop::Memory) => Err(AllocError),
        Err(_) => unreachable!(),
    }
}

/// Says that a polynomial has an inverse, which is a variable: their product minus 1. It has few terms, and no high degree.
fn with_inverse<F: Field>(
    alloc: Global,
    poly: &Generator<F>,
    number: u32,
) -> Result<Generator<F>, AllocError>
    requires low { PassesDegree F.ORDER 1024 ((1, (number, 1) ∷ []) ∷ []) poly.now → ⊥ }
    requires short { PassesTerms F.ORDER 131072
        (difference F.ORDER (term_product 1 ((number, 1) ∷ []) poly.now) (constant 1)) → ⊥ }
    ensures same { IfOk result (λ r. SamePolynomial F.ORDER r
        (difference F.ORDER (term_product 1 ((number, 1) ∷ []) poly.now) (constant 1))) }
    ensures normal { IfOk result (IsNormal F.ORDER) }
{
    let inverse = variable(alloc, number)?;
    let minus_one = minus_one::<F>(alloc)?;
    match minus_one.add_multiple(F::of(1), inverse.as_ref(), poly) {
        Ok(found) => {
            // The number of terms is what says that they are in order.
            let _terms = found.len();
            Ok(found)
        }
        Err(PolyStop::Memory) => Err(AllocError),
        Err(PolyStop::DegreeOver) => unreachable!(),
        Err(PolyStop::TermsOver) => unreachable!(),
    }
}

/// The line of a literal, where `number` is the variable for an inverse.
fn generator<F: Field>(
    alloc: Global,
    polynomials: &mut Polynomials<'_, F, GradedReverseLex>,
    table: &NodeTable,
    number: u32,
    literal: Literal,
) -> Result<Generator<F>, AllocError>
    requires of_table { polynomials.old ≡ table.now }
    requires table { IsTable table.now }
    requires usable { IsUsable F.ORDER table.now literal.1 }
    requires short { length (first_line F.ORDER table.now number literal) ≤ 131072 }
    ensures of_table { polynomials.new ≡ polynomials.old }
    ensures line { IfOk result (IsGenerator F.ORDER (first_line F.ORDER table.now number literal)) }
{
    let poly = difference_of::<F>(polynomials, table, literal.1)?;
    if literal.0 {
        with_inverse(alloc, &poly, number)
    } else {
        Ok(poly)
    }
}

/// The lines of a lemma's literals, none of which has many terms.
fn generators_of<F: Field>(
    alloc: Global,
    table: &NodeTable,
    literals: &[Literal],
) -> Result<Vec<Generator<F>>, AllocError>
    requires usable { All (λ l. IsUsable F.ORDER table.now l.1) literals.now }
    requires few { length literals.now ≤ 4096 }
    requires short { (i : ℕ) → i < length literals.now
        → length (slice_index_or (first_lines table.now F.ORDER literals.now) i []) ≤ 131072 }
    ensures { IfOk result (λ v. AreGeneratorsOf F.ORDER (first_lines table.now F.ORDER literals.now) v.items) }
{
    let mut polynomials = Polynomials::new(alloc, table);
    let nodes = table.len();
    let mut generators = Vec::new(alloc);
    for (place, literal) in literals.iter().enumerate() {
        let number = nodes + place as u32;
        generators.push(generator(alloc, &mut polynomials, table, number, *literal)?)?;
    }
    Ok(generators)
}

/// Makes the generators, where they are not made yet.
pub(crate) fn make<F: Field>(
    alloc: Global,
    table: &NodeTable,
    literals: &[Literal],
    generators: &mut Vec<Generator<F>>,
) -> Result<(), AllocError>
    requires usable { All (λ l. IsUsable F.ORDER table.now l.1) literals.now }
    requires few { length literals.now ≤ 4096 }
    requires short { (i : ℕ) → i < length literals.now
        → length (slice_index_or (first_lines table.now F.ORDER literals.now) i []) ≤ 131072 }
    requires known { AreKnown F.ORDER (first_lines table.now F.ORDER literals.now) generators.old.items }
    ensures { OnOk result (AreGeneratorsOf F.ORDER (first_lines table.now F.ORDER literals.now) generators.new.items) }
{
    if generators.len() == 0 {
        *generators = generators_of(alloc, table, literals)?;
    }
    Ok(())
}
