//! What holds of polynomials in one variable, for the crates above. Each function has an empty body: its contract is
//! the law.
ghost use Rattle.ffc_uni.specs.Laws.{OneNormal, SumOfValues, ProductOfValues, OneValue, SameSums, SameProducts};
ghost use Rattle.ffc_uni.specs.Laws.{SameInRing, SameOutOfRing, SumInRing, ProductInRing, ValueInRing, ZerosOfChains};
ghost use Rattle.ffc_uni.specs.Laws.{FewPairs};

use ffc_field::Field;

/// There is one normal list of each polynomial.
pub fn normal_lists()
    ensures { OneNormal }
{}

/// The value at a point keeps sums and products, and belongs to the polynomial.
pub fn values()
    ensures sum { SumOfValues }
    ensures product { ProductOfValues }
    ensures one { OneValue }
{}

/// Sums and products belong to the polynomials and not to the lists that they are written as.
pub fn congruence()
    ensures sums { SameSums }
    ensures products { SameProducts }
{}

/// Polynomials in one variable are those of the ring of polynomials in many.
pub fn in_ring()
    ensures same { SameInRing }
    ensures same_back { SameOutOfRing }
    ensures sum { SumInRing }
    ensures product { ProductInRing }
    ensures value { ValueInRing }
{}

/// Each zero x of f in the field has r(x) = x for the last remainder r of a chain modulo f, because x^p = x (Fermat).
pub fn zeros_of_chains<F: Field>()
    ensures { ZerosOfChains F.ORDER }
{}

/// A chain has at most 126 pairs: two for each of the 63 digits after the first.
pub fn length_of_chains()
    ensures { FewPairs }
{}
