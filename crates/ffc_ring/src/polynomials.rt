//! The laws of polynomials.
ghost use Rattle.ffc_ring.specs.PolynomialLaws.{SumAddsCoefficients, DifferenceSubtractsCoefficients};
ghost use Rattle.ffc_ring.specs.PolynomialLaws.{ScaledMultipliesCoefficients, MultipleShiftsCoefficients};
ghost use Rattle.ffc_ring.specs.PolynomialLaws.{MultipleHasShiftedMonomials, SumAtPoint, DifferenceAtPoint};
ghost use Rattle.ffc_ring.specs.PolynomialLaws.{ProductAtPoint, OneValue, SameSums, SameProducts, SumCommutes};
ghost use Rattle.ffc_ring.specs.PolynomialLaws.{ProductCommutes, ProductAssociates, ProductDistributes};
ghost use Rattle.ffc_ring.specs.PolynomialLaws.{ProductDistributesFromLeft, ProductWithOne};

/// The coefficients of sums, differences and multiples.
pub fn coefficients()
    ensures sum { SumAddsCoefficients }
    ensures difference { DifferenceSubtractsCoefficients }
    ensures scaled { ScaledMultipliesCoefficients }
    ensures multiple { MultipleShiftsCoefficients }
    ensures shifted { MultipleHasShiftedMonomials }
{}

/// The value at a point keeps sums, differences and products, and belongs to the polynomial and not to the
/// list of terms that it is written as.
pub fn values()
    ensures sum { SumAtPoint }
    ensures difference { DifferenceAtPoint }
    ensures product { ProductAtPoint }
    ensures one { OneValue }
{}

/// Sums and products belong to the polynomials and not to the lists of terms that they are written as.
pub fn congruence()
    ensures sums { SameSums }
    ensures products { SameProducts }
{}

/// Polynomials are a commutative ring.
pub fn ring()
    ensures sum_commutes { SumCommutes }
    ensures product_commutes { ProductCommutes }
    ensures product_associates { ProductAssociates }
    ensures distributes { ProductDistributes }
    ensures distributes_from_left { ProductDistributesFromLeft }
    ensures with_one { ProductWithOne }
{}
