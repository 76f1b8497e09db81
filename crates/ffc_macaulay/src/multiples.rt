//! Which multiples of generators are rows.
ghost use Rattle.std.specs.Prelude.{◌≡◌, ◌≤◌, ◌<◌, ◌^◌, ◌++◌, All, length, map, IfOk, OnOk};
ghost use Rattle.ffc_macaulay.specs.Matrix.{multiples_from};

use crate::monomials::monomials;
use ffc_mono::Mono;
use std::alloc::{AllocError, Global};

/// The number of a generator, and the monomial that it is multiplied by.
pub(crate) type Multiple = (u32, Mono);

/// Appends the multiples of a generator by monomials.
fn append(
    multiples: &mut Vec<Multiple>,
    generator: u32,
    multipliers: &[Mono],
) -> Result<(), AllocError>
    ensures { OnOk result (multiples.new.items ≡ multiples.old.items ++ map (λ u. (generator, u)) multipliers.now) }
{
    for multiplier in multipliers {
        multiples.push((generator, multiplier.clone()?))?;
    }
    Ok(())
}

/// The multiples of generators of these degrees whose degrees are at most `degree`.
pub(crate) fn multiples(
    alloc: Global,
    variables: &[u32],
    degrees: &[u32],
    degree: u32,
) -> Result<Vec<Multiple>, AllocError>
    requires low { All (λ e. e ≤ degree) degrees.now }
    requires limit { degree ≤ 1024 }
    requires few { length degrees.now < 2 ^ 32 }
    ensures { IfOk result (λ found. found.items ≡ multiples_from degree variables.now 0 degrees.now) }
{
    let mut found = Vec::new(alloc);
    for generator in 0..degrees.len() {
        let multipliers = monomials(alloc, variables, degree - degrees[generator])?;
        append(&mut found, generator as u32, multipliers.as_slice())?;
    }
    Ok(found)
}
