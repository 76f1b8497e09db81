//! Of which inputs a reduced vector is a combination.
ghost use Rattle.std.specs.Prelude.{◌≡◌, ℕ, ◌<◌, List, All, map, length, IfOk};
ghost use Rattle.ffc_echelon.specs.Vectors.{Coordinates};
ghost use Rattle.ffc_echelon.specs.Forms.{IsFormOf, IsRestOf, IsCombination};
ghost use Rattle.ffc_echelon.specs.Progress.{AreKeptOf, IsSumOf};

use crate::buffer::{add_at, add_multiple, zeros};
use crate::form::{Echelon, Reduction, Row};
use ffc_field::Field;
use std::alloc::{AllocError, Global};

/// The coefficients of the inputs in so many times multiples of rows. From the last row to the first, a row's weight moves to its
/// input and to the rows before it.
pub(crate) fn combine<F: Field>(
    alloc: Global,
    rows: &[Row<F>],
    inputs: usize,
    scale: F,
    multipliers: &[(u32, F)],
) -> Result<Vec<F>, AllocError>
    ensures { IfOk result (λ coefficients. (vectors : List Coordinates) → length vectors ≡ inputs
        → AreKeptOf F.ORDER vectors rows.now
        → All (λ (m : ℕ × ℕ). m.0 < length rows.now) (map (λ m. (m.0, F.value m.1)) multipliers.now)
        → IsSumOf F.ORDER vectors rows.now (F.value scale) (map (λ m. (m.0, F.value m.1)) multipliers.now)
        (map F.value coefficients.items)) }
{
    let mut coefficients = zeros(alloc, inputs)?;
    let mut weights = zeros(alloc, rows.len())?;
    add_multiple(weights.as_mut_slice(), scale, multipliers);
    for number in (0..rows.len()).rev() {
        let row = &rows[number];
        let weight = weights[number].mul(row.scale);
        add_at(coefficients.as_mut_slice(), row.input as usize, weight);
        add_multiple(
            weights.as_mut_slice(),
            weight.neg(),
            row.multipliers.as_slice(),
        );
    }
    Ok(coefficients)
}

impl<F: Field> Echelon<F> {
    /// The coefficient of each input in what a reduction subtracted, found from the last row to the first: one product for each
    /// multiple that was subtracted from a row.
    pub fn combination(&self, alloc: Global, reduction: &Reduction<F>) -> Result<Vec<F>, AllocError>
        ensures { IfOk result (λ coefficients. (inputs : List Coordinates) (vector : Coordinates)
            → IsFormOf F.ORDER self.now.unknowns inputs self.now
            → IsRestOf F.ORDER self.now.kept vector reduction.now.rest
            (map (λ m. (m.0, F.value m.1)) reduction.now.multipliers.items)
            → IsCombination F.ORDER inputs vector reduction.now.rest (map F.value coefficients.items)) }
    {
        combine(
            alloc,
            self.rows.as_slice(),
            self.inputs as usize,
            F::of(1),
            reduction.multipliers.as_slice(),
        )
    }
}
