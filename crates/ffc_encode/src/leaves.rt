//! Polynomials of single terms: those of variables and numbers.
ghost use Rattle.std.specs.Prelude.{◌≡◌, ◌≤◌, ◌∷◌, [], IfOk, IfSome, IfNone};
ghost use Rattle.ffc_ring.specs.Monomial.{IsMonomial, degree};
ghost use Rattle.ffc_ring.specs.Polynomial.{SamePolynomial, scaled};
ghost use Rattle.ffc_term.specs.Tables.{IsFieldAt};
ghost use Rattle.ffc_trees.specs.NodePolynomials.{poly_at};
ghost use Rattle.ffc_encode.specs.Opening.{IsLeafAt};

use ffc_field::Field;
use ffc_mono::{Mono, MonoOrder, MonoStop};
use ffc_poly::{Poly, PolyStop};
use ffc_term::{Node, NodeId, NodeTable};
use std::alloc::{AllocError, Global};

/// The monomial with these powers.
fn monomial(alloc: Global, powers: &[(u32, u32)]) -> Result<Mono, AllocError>
    requires m_is { IsMonomial powers.now }
    requires low { degree powers.now ≤ 1024 }
    ensures { IfOk result (λ m. m ≡ powers.now) }
{
    match Mono::from_pairs(alloc, powers) {
        Ok(m) => Ok(m),
        Err(MonoStop::Memory) => Err(AllocError),
        Err(MonoStop::DegreeOver) => unreachable!(),
    }
}

/// The error of a sum or product that is within the limits.
pub fn memory(stop: PolyStop) -> AllocError
    requires { stop ≡ PolyStop.Memory }
{
    match stop {
        PolyStop::Memory => AllocError,
        _ => unreachable!(),
    }
}

/// The polynomial of one term.
pub fn term<F: Field, O: MonoOrder>(
    alloc: Global,
    c: F,
    powers: &[(u32, u32)],
) -> Result<Poly<F, O>, AllocError>
    requires m_is { IsMonomial powers.now }
    requires low { degree powers.now ≤ 1024 }
    ensures { IfOk result (λ r. SamePolynomial F.ORDER r ((F.value c, powers.now) ∷ [])) }
{
    let m = monomial(alloc, powers)?;
    let mut terms = Vec::new(alloc);
    terms.push((c, m))?;
    match Poly::from_terms(alloc, terms.as_slice()) {
        Ok(one) => Ok(one),
        Err(stop) => Err(memory(stop)),
    }
}

/// A multiple of the polynomial of a node that is a variable or a number, or `None` for another node.
pub fn leaf<F: Field, O: MonoOrder>(
    alloc: Global,
    table: &NodeTable,
    weight: F,
    id: NodeId,
) -> Result<Option<Poly<F, O>>, AllocError>
    requires { IsFieldAt table.now F.ORDER id }
    ensures same { IfOk result
        (λ o. IfSome o (λ r. SamePolynomial F.ORDER r (scaled (F.value weight) (poly_at table.now id)))) }
    ensures none { IfOk result (λ o. IfNone o (IsLeafAt table.now id → ⊥)) }
{
    match table.node(id) {
        Node::FieldConst(..) => Ok(Some(term(alloc, weight, &[(id, 1)])?)),
        Node::IteField(..) => Ok(Some(term(alloc, weight, &[(id, 1)])?)),
        Node::Num(n, _) => Ok(Some(term(alloc, weight.mul(F::of(u128::from(*n))), &[])?)),
        _ => Ok(None),
    }
}
