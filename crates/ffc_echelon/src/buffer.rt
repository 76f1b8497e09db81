//! Dense buffers, to which multiples of sparse vectors are added.
ghost use Rattle.std.specs.Prelude.{◌≡◌, ◌<◌, ◌≤◌, ◌^◌, length, map, replicate, vec_len, slice_index_or, IfOk};
ghost use Rattle.ffc_echelon.specs.Buffers.{raised, with_multiple, nonzero_from};

use ffc_field::Field;
use std::alloc::{AllocError, Global};

/// A buffer of so many zeros.
pub(crate) fn zeros<F: Field>(alloc: Global, count: usize) -> Result<Vec<F>, AllocError>
    ensures { IfOk result (λ v. map F.value v.items ≡ replicate count 0) }
{
    let mut buffer = Vec::new(alloc);
    buffer.resize(count, F::of(0))?;
    Ok(buffer)
}

/// Adds to one element; there is none past the end.
pub(crate) fn add_at<F: Field>(buffer: &mut [F], place: usize, more: F)
    ensures { map F.value buffer.new ≡ raised F.ORDER (map F.value buffer.old) place (F.value more) }
{
    if place < buffer.len() {
        buffer[place] = buffer[place].add(more);
    }
}

/// Adds a multiple of a vector: one product for each coordinate. Columns past the end are left out.
pub(crate) fn add_multiple<F: Field>(buffer: &mut [F], scale: F, coordinates: &[(u32, F)])
    ensures { map F.value buffer.new ≡ with_multiple F.ORDER (F.value scale)
        (map (λ e. (e.0, F.value e.1)) coordinates.now) (map F.value buffer.old) }
{
    for (column, coordinate) in coordinates {
        let place = *column as usize;
        if place < buffer.len() {
            buffer[place] = buffer[place].add_scaled(scale, *coordinate);
        }
    }
}

/// The elements other than 0, with their places.
pub(crate) fn nonzero<F: Field>(alloc: Global, buffer: &[F]) -> Result<Vec<(u32, F)>, AllocError>
    requires { length buffer.now ≤ 2 ^ 32 }
    ensures { IfOk result (λ v. map (λ e. (e.0, F.value e.1)) v.items ≡ nonzero_from 0 (map F.value buffer.now)) }
{
    let mut coordinates = Vec::new(alloc);
    for place in 0..buffer.len() {
        let coordinate = buffer[place];
        if coordinate.residue() != 0 {
            coordinates.push((place as u32, coordinate))?;
        }
    }
    Ok(coordinates)
}
