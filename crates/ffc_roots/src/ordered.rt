//! Residues in increasing order.
ghost use Rattle.std.specs.Prelude.{◌≡◌, ℕ, ◌∷◌, map, Contains, IfOk, OnOk};
ghost use Rattle.ffc_uni.specs.Univariate.{SameUnivariate, product_of_roots};
ghost use Rattle.ffc_roots.specs.Parts.{AreRising};

use ffc_field::Field;
use std::alloc::{AllocError, Global};

/// Puts the residue of a new root at its place.
pub fn insert_root<F: Field>(roots: &mut Vec<u64>, root: F) -> Result<(), AllocError>
    requires rising { AreRising F.ORDER 0 roots.old.items }
    requires absent { Contains roots.old.items (F.value root) → ⊥ }
    ensures rising { OnOk result (AreRising F.ORDER 0 roots.new.items) }
    ensures product { OnOk result (SameUnivariate F.ORDER (product_of_roots F.ORDER roots.new.items)
        (product_of_roots F.ORDER (F.value root ∷ roots.old.items))) }
{
    let residue = root.residue();
    match roots.binary_search(&residue) {
        Ok(_) => unreachable!(),
        Err(place) => roots.insert(place, residue)?,
    }
    Ok(())
}

/// The elements with these residues.
pub fn elements_of<F: Field>(alloc: Global, residues: &[u64]) -> Result<Vec<F>, AllocError>
    requires { AreRising F.ORDER 0 residues.now }
    ensures { IfOk result (λ v. map F.value v.items ≡ residues.now) }
{
    let mut elements = Vec::new(alloc);
    for residue in residues {
        elements.push(F::of(u128::from(*residue)))?;
    }
    Ok(elements)
}
