//! Forms by the columns of their last unknowns.
ghost use Rattle.std.specs.Prelude.{◌≡◌, ◌<◌, ◌++◌, [], ◌∷◌, All, length, map, replicate, slice_set, IfOk, OnOk, MatchOption};
ghost use Rattle.ffc_echelon.specs.Vectors.{AreCoordinates};
ghost use Rattle.ffc_echelon.specs.Placing.{AreGroups, EndsBefore, IsLastUnknown, group_at};

use crate::value::inverse_of;
use crate::vector::Vector;
use ffc_field::Field;
use std::alloc::{AllocError, Global};

/// The last column of an unknown in which a vector has a coordinate, with that coordinate.
fn last_unknown<F: Field>(vector: &Vector<F>, unknowns: u32) -> Option<(u32, F)>
    ensures last { MatchOption result (EndsBefore unknowns 0 vector.now)
        (λ e. IsLastUnknown unknowns vector.now e.0 (F.value e.1)) }
    ensures valid { AreCoordinates F.ORDER vector.now }
{
    let coordinates = vector.coordinates();
    for place in (0..coordinates.len()).rev() {
        let entry = &coordinates[place];
        if entry.0 < unknowns {
            return Some((entry.0, entry.1));
        }
    }
    None
}

/// So many empty groups.
fn no_groups<F: Field>(alloc: Global, unknowns: u32) -> Result<Vec<Vec<(usize, F)>>, AllocError>
    ensures { IfOk result (λ groups. map (λ g. g.items) groups.items ≡ replicate unknowns []) }
{
    let mut groups = Vec::new(alloc);
    for _ in 0..unknowns {
        groups.push(Vec::new(alloc))?;
    }
    Ok(groups)
}

/// Appends to the group of a column.
fn append<F: Field>(
    groups: &mut [Vec<(usize, F)>],
    column: usize,
    member: (usize, F),
) -> Result<(), AllocError>
    requires { column < length groups.old }
    ensures { OnOk result (map (λ g. g.items) groups.new ≡ slice_set (map (λ g. g.items) groups.old) column
        (group_at (map (λ g. g.items) groups.old) column ++ member ∷ [])) }
{
    groups[column].push(member)?;
    Ok(())
}

/// Of each column the forms whose last unknown it has, by number and with the inverse of the coordinate there.
pub(crate) fn groups_of<F: Field>(
    alloc: Global,
    unknowns: u32,
    forms: &[Vector<F>],
) -> Result<Vec<Vec<(usize, F)>>, AllocError>
    ensures groups { IfOk result (λ groups. AreGroups F.ORDER F.value unknowns forms.now
        (length forms.now) (map (λ g. g.items) groups.items)) }
    ensures valid { OnOk result (All (AreCoordinates F.ORDER) forms.now) }
{
    let mut groups = no_groups(alloc, unknowns)?;
    for (number, form) in forms.iter().enumerate() {
        if let Some(last) = last_unknown(form, unknowns) {
            let inverse = inverse_of(last.1);
            append(groups.as_mut_slice(), last.0 as usize, (number, inverse))?;
        }
    }
    Ok(groups)
}
