//! Values of affine forms at points, and the points of a line at which they are 0.
ghost use Rattle.std.specs.Prelude.{◌≡◌, ◌≢◌, ◌<◌, All, length, map, slice_index_or};
ghost use Rattle.ffc_field.specs.Modular.{mul_mod};
ghost use Rattle.ffc_echelon.specs.Vectors.{AreCoordinates, IsBelow, coordinate, dot};
ghost use Rattle.ffc_echelon.specs.Placing.{IsRootIn};

use crate::vector::Vector;
use ffc_field::Field;

/// The product of a vector with a point: one product for each coordinate.
pub(crate) fn value_at<F: Field>(vector: &Vector<F>, point: &[F]) -> F
    requires { IsBelow (length point.now) vector.now }
    ensures value { F.value result ≡ dot F.ORDER (map F.value point.now) vector.now }
    ensures valid { AreCoordinates F.ORDER vector.now }
{
    let coordinates = vector.coordinates();
    let mut value = F::of(0);
    for entry in coordinates {
        value = value.add_scaled(entry.1, point[entry.0 as usize]);
    }
    value
}

/// The residue in a column with which a point is a zero of a vector. `inverse` is that of the vector's coordinate there.
pub(crate) fn root_in<F: Field>(vector: &Vector<F>, point: &[F], column: usize, inverse: F) -> F
    requires within { IsBelow (length point.now) vector.now }
    requires inside { column < length point.now }
    requires inverse { mul_mod F.ORDER (coordinate vector.now column) (F.value inverse) ≡ 1 }
    ensures root { IsRootIn F.ORDER (map F.value point.now) vector.now column (F.value result) }
    ensures valid { AreCoordinates F.ORDER vector.now }
{
    point[column].sub(value_at(vector, point).mul(inverse))
}

/// The inverse of an element that is not 0.
pub(crate) fn inverse_of<F: Field>(element: F) -> F
    requires { F.value element ≢ 0 }
    ensures { mul_mod F.ORDER (F.value element) (F.value result) ≡ 1 }
{
    match element.inv() {
        Some(inverse) => inverse,
        None => unreachable!(),
    }
}
