//! The columns: the monomials other than 1, each an unknown of the elimination, and 1 after them.
ghost use Rattle.std.specs.Prelude.{◌≡◌, ◌+◌, ◌≤◌, ◌<◌, [], ◌∷◌, ◌++◌, All, Contains, length, slice_index_or, IfOk, OnOk};
ghost use Rattle.ffc_ring.specs.Monomial.{degree};
ghost use Rattle.ffc_macaulay.specs.Matrix.{AddsOfDegree, AreUnknowns};
ghost use Rattle.ffc_macaulay.specs.Solving.{IsColumnOf};

use crate::monomials::power;
use ffc_mono::Mono;
use indexmap::IndexSet;
use std::alloc::{AllocError, Global};

/// Puts a monomial after the others, where it is not there.
fn insert(unknowns: &mut IndexSet<Mono>, m: &Mono) -> Result<(), AllocError>
    ensures { OnOk result (AddsOfDegree (degree m.now) (m.now ∷ []) unknowns.old.keys unknowns.new.keys) }
{
    unknowns.insert_full(m.clone()?)?;
    Ok(())
}

/// Puts the monomials of one degree after the others.
fn insert_of_degree(
    unknowns: &mut IndexSet<Mono>,
    monomials: &[Mono],
    wanted: u32,
) -> Result<(), AllocError>
    ensures { OnOk result (AddsOfDegree wanted monomials.now unknowns.old.keys unknowns.new.keys) }
{
    for m in monomials {
        if m.degree() == wanted {
            insert(unknowns, m)?;
        }
    }
    Ok(())
}

/// The unknowns' monomials: those of higher degrees first, and those of degree 1 last.
pub(crate) fn unknowns(
    alloc: Global,
    monomials: &[Mono],
    highest: u32,
) -> Result<IndexSet<Mono>, AllocError>
    requires { All (λ m. degree m ≤ highest) monomials.now }
    ensures { IfOk result (λ unknowns. AreUnknowns 0 monomials.now unknowns.keys) }
{
    let mut unknowns = IndexSet::new(alloc);
    for below in (0..highest).rev() {
        insert_of_degree(&mut unknowns, monomials, below + 1)?;
    }
    // The length is what says that each is there once.
    let _count = unknowns.len();
    Ok(unknowns)
}

/// The column of a monomial.
pub(crate) fn place_of(unknowns: &IndexSet<Mono>, m: &Mono) -> usize
    requires { Contains (unknowns.now.keys ++ [] ∷ []) m.now }
    ensures place { slice_index_or (unknowns.now.keys ++ [] ∷ []) result [] ≡ m.now }
    ensures within { result < length unknowns.now.keys + 1 }
{
    match unknowns.get_index_of(m) {
        Some(place) => place,
        None => unknowns.len(),
    }
}

/// The column of a variable.
pub(crate) fn column_of(
    alloc: Global,
    unknowns: &IndexSet<Mono>,
    variable: u32,
) -> Result<u32, AllocError>
    requires few { length unknowns.now.keys ≤ 4096 }
    requires listed { Contains (unknowns.now.keys ++ [] ∷ []) ((variable, 1) ∷ []) }
    ensures { IfOk result (IsColumnOf unknowns.now.keys variable) }
{
    let m = power(alloc, variable, 1)?;
    Ok(place_of(unknowns, &m) as u32)
}
