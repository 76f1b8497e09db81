//! Polynomials of the solver as the checker has them.
ghost use Rattle.std.specs.Prelude.{◌≤◌, IfOk};
ghost use Rattle.ffc_trees.specs.Normal.{degree_of};
ghost use Rattle.ffc_trees.specs.Same.{IsSameLine};

use ffc_ckpoly::CkPoly;
use ffc_field::Field;
use ffc_mono::MonoOrder;
use ffc_poly::Poly;
use std::alloc::{AllocError, Global};

/// A polynomial as the checker has it: a line that a tree begins with.
pub fn first_line<F: Field, O: MonoOrder>(
    alloc: Global,
    poly: &Poly<F, O>,
) -> Result<CkPoly<F>, AllocError>
    ensures same { IfOk result (λ r. IsSameLine F.ORDER r poly.now) }
    ensures low { IfOk result (λ r. degree_of r ≤ 1024) }
{
    let mut terms = Vec::new(alloc);
    for i in 0..poly.len() {
        let (c, m) = poly.term(i);
        let mut powers = Vec::new(alloc);
        powers.extend_from_slice(m.pairs())?;
        terms.push((c, powers))?;
    }
    let line = CkPoly::from_terms(alloc, &terms)?;
    Ok(line)
}
