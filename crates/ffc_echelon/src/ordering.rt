//! Systems whose unknowns are taken in another order. A row of an echelon form changes the vectors that have a coordinate in
//! the column in which it leads, so elimination does least where unknowns lead first that few vectors have (Markowitz 1957).
ghost use Rattle.std.specs.Prelude.{◌≡◌, ◌+◌, ◌<◌, ◌^◌, ◌++◌, ◌∷◌, [], All, length, map, slice_index_or, slice_set, IfOk};
ghost use Rattle.std.specs.List.Sorted.{IsPermutation};
ghost use Rattle.ffc_echelon.specs.Ordering.{numbers_below, ArePlaced, AreReordered, IsReordered};
ghost use Rattle.ffc_echelon.specs.Vectors.{IsBelow};

use crate::buffer::zeros;
use crate::reduction::scattered;
use crate::vector::Vector;
use ffc_field::Field;
use std::alloc::{AllocError, Global};

/// Counts a vector in the columns of unknowns in which it has coordinates.
fn count_in<F: Field>(counts: &mut [u32], vector: &Vector<F>)
    ensures { length counts.new ≡ length counts.old }
{
    for (column, _) in vector.coordinates() {
        let place = *column as usize;
        if place < counts.len() {
            counts[place] = counts[place].saturating_add(1);
        }
    }
}

/// For each unknown how many of these vectors have a coordinate in its column.
fn counts_of<F: Field>(
    alloc: Global,
    unknowns: u32,
    vectors: &[Vector<F>],
) -> Result<Vec<u32>, AllocError>
    ensures { IfOk result (λ counts. length counts.items ≡ unknowns) }
{
    let mut counts = vec![in alloc; 0; unknowns as usize]?;
    for vector in vectors {
        count_in(counts.as_mut_slice(), vector);
    }
    Ok(counts)
}

/// Each unknown, after how often it is counted.
fn counted(alloc: Global, counts: &[u32]) -> Result<Vec<(u32, u32)>, AllocError>
    requires { length counts.now < 2 ^ 32 }
    ensures { IfOk result (λ pairs. map (λ e. e.1) pairs.items ≡ numbers_below (length counts.now)) }
{
    let mut pairs = Vec::new(alloc);
    for (place, count) in counts.iter().enumerate() {
        pairs.push((*count, place as u32))?;
    }
    Ok(pairs)
}

/// The unknowns of counted ones.
fn unknowns_of(alloc: Global, pairs: &[(u32, u32)]) -> Result<Vec<u32>, AllocError>
    ensures { IfOk result (λ order. order.items ≡ map (λ e. e.1) pairs.now) }
{
    let mut order = Vec::new(alloc);
    for pair in pairs {
        order.push(pair.1)?;
    }
    Ok(order)
}

/// The unknowns, those first that few of these vectors have.
pub(crate) fn rarest_first<F: Field>(
    alloc: Global,
    unknowns: u32,
    vectors: &[Vector<F>],
) -> Result<Vec<u32>, AllocError>
    ensures order { IfOk result (λ order. IsPermutation (numbers_below unknowns) order.items) }
    ensures long { IfOk result (λ order. length order.items ≡ unknowns) }
{
    let counts = counts_of(alloc, unknowns, vectors)?;
    let mut pairs = counted(alloc, counts.as_slice())?;
    pairs.sort_unstable();
    unknowns_of(alloc, pairs.as_slice())
}

/// The elements of a buffer in this order, and after them the last one.
fn gathered<F: Field>(alloc: Global, order: &[u32], buffer: &[F]) -> Result<Vec<F>, AllocError>
    requires long { length buffer.now ≡ length order.now + 1 }
    requires inside { All (λ k. k < length order.now) order.now }
    ensures { IfOk result (λ v. map F.value v.items
        ≡ map (λ k. slice_index_or (map F.value buffer.now) k 0) (order.now ++ length order.now ∷ [])) }
{
    let mut dense = Vec::new(alloc);
    for column in order {
        dense.push(buffer[*column as usize])?;
    }
    dense.push(buffer[order.len()])?;
    Ok(dense)
}

/// A vector with the columns of unknowns in this order.
fn reordered<F: Field>(
    alloc: Global,
    order: &[u32],
    vector: &Vector<F>,
) -> Result<Vector<F>, AllocError>
    requires few { length order.now + 1 < 2 ^ 32 }
    requires inside { All (λ k. k < length order.now) order.now }
    requires within { IsBelow (length order.now + 1) vector.now }
    ensures { IfOk result (IsReordered F.ORDER order.now vector.now) }
{
    let buffer = scattered(alloc, order.len() + 1, vector)?;
    let dense = gathered(alloc, order, buffer.as_slice())?;
    let made = Vector::from_dense(alloc, dense.as_slice())?;
    // Reading the coordinates is what says that they are in order.
    let _coordinates = made.coordinates();
    Ok(made)
}

/// The same for each of these vectors.
pub(crate) fn reordered_all<F: Field>(
    alloc: Global,
    order: &[u32],
    vectors: &[Vector<F>],
) -> Result<Vec<Vector<F>>, AllocError>
    requires few { length order.now + 1 < 2 ^ 32 }
    requires inside { All (λ k. k < length order.now) order.now }
    requires within { All (IsBelow (length order.now + 1)) vectors.now }
    ensures all { IfOk result (λ v. AreReordered F.ORDER order.now vectors.now v.items) }
    ensures long { IfOk result (λ v. length v.items ≡ length vectors.now) }
{
    let mut all = Vec::new(alloc);
    for vector in vectors {
        all.push(reordered(alloc, order, vector)?)?;
    }
    Ok(all)
}

/// Puts a value at a place.
fn place_one<F: Field>(point: &mut [F], place: usize, value: F)
    requires { place < length point.old }
    ensures { point.new ≡ slice_set point.old place value }
{
    point[place] = value;
}

/// Puts values, which are in this order, at the places of their unknowns.
fn place_all<F: Field>(order: &[u32], values: &[F], point: &mut [F])
    requires order { IsPermutation (numbers_below (length order.now)) order.now }
    requires long { length values.now ≡ length order.now }
    requires wide { length point.old ≡ length order.now }
    ensures wide { length point.new ≡ length point.old }
    ensures each { ArePlaced F.value order.now values.now (length order.now) point.new }
{
    for (place, column) in order.iter().enumerate() {
        place_one(point, *column as usize, values[place]);
    }
}

/// The values of unknowns, from their values in this order.
pub(crate) fn restored<F: Field>(
    alloc: Global,
    order: &[u32],
    values: &[F],
) -> Result<Vec<F>, AllocError>
    requires order { IsPermutation (numbers_below (length order.now)) order.now }
    requires long { length values.now ≡ length order.now }
    ensures wide { IfOk result (λ point. length point.items ≡ length order.now) }
    ensures each { IfOk result (λ point. ArePlaced F.value order.now values.now (length order.now) point.items) }
{
    let mut point = zeros(alloc, order.len())?;
    place_all(order, values, point.as_mut_slice());
    Ok(point)
}
