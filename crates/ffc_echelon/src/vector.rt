//! Vectors by their coordinates other than 0.
ghost use Rattle.std.specs.Prelude.{◌≡◌, ℕ, ◌≤◌, ◌^◌, length, map, slice_index_or, IfOk};
ghost use Rattle.ffc_echelon.specs.Vectors.{AreCoordinates, IsBelow, coordinate};

use crate::buffer::nonzero;
use ffc_field::Field;
use std::alloc::{AllocError, Global};
use std::marker::Model;

/// A vector by its coordinates other than 0, with their columns, which increase strictly. Clauses see the pairs of column and
/// residue.
#[derive(Drop)]
pub struct Vector<F: Field> {
    coordinates: Vec<(u32, F)>,
}

impl<F: Field> Model for Vector<F> {
    ghost use Rattle.std.specs.Prelude.{ℕ, List, map};
    ghost use Rattle.ffc_echelon.specs.Vectors.{Coordinates, AreCoordinates};

    ghost Value = { Coordinates };

    ghost view = { λ v. map (λ e. (e.0, F.value e.1)) v.coordinates.items };

    ghost invariant = { λ v. AreCoordinates F.ORDER (map (λ e. (e.0, F.value e.1)) v.coordinates.items) };
}

impl<F: Field> Vector<F> {
    /// The vector with these coordinates. It takes no memory.
    pub fn from_coordinates(coordinates: Vec<(u32, F)>) -> Vector<F>
        requires { AreCoordinates F.ORDER (map (λ e. (e.0, F.value e.1)) coordinates.items) }
        ensures { result ≡ map (λ e. (e.0, F.value e.1)) coordinates.items }
    {
        Vector { coordinates }
    }

    /// The vector with these coordinates in the columns from 0 on.
    pub fn from_dense(alloc: Global, dense: &[F]) -> Result<Vector<F>, AllocError>
        requires few { length dense.now ≤ 2 ^ 32 }
        ensures same { IfOk result (λ v. (k : ℕ) → coordinate v k ≡ slice_index_or (map F.value dense.now) k 0) }
        ensures below { IfOk result (IsBelow (length dense.now)) }
    {
        Ok(Vector {
            coordinates: nonzero(alloc, dense)?,
        })
    }

    /// The coordinates with their columns. It takes no memory.
    pub fn coordinates(&self) -> &[(u32, F)]
        ensures value { map (λ e. (e.0, F.value e.1)) result.now ≡ self.now }
        ensures valid { AreCoordinates F.ORDER self.now }
    {
        self.coordinates.as_slice()
    }
}
