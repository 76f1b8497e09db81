//! The laws of monomials.
ghost use Rattle.ffc_ring.specs.Counting.{CountOfMonomials, CountIsReached};
ghost use Rattle.ffc_ring.specs.MonomialLaws.{OneMonomial, ProductIsMonomial, ProductAddsExponents, LcmIsMonomial};
ghost use Rattle.ffc_ring.specs.MonomialLaws.{LcmTakesGreater, ProductAddsDegrees, ProductCommutes, ProductAssociates};
ghost use Rattle.ffc_ring.specs.MonomialLaws.{ProductWithOne, ProductCancels, DividesProduct, DivisorIsNoHigher};
ghost use Rattle.ffc_ring.specs.MonomialLaws.{QuotientIsMonomial, QuotientTimesDivisor, QuotientSubtractsExponents};
ghost use Rattle.ffc_ring.specs.MonomialLaws.{QuotientSubtractsDegrees, DividesItself, DividesThrough};
ghost use Rattle.ffc_ring.specs.MonomialLaws.{MutualDivisorsAreEqual, FirstDividesLcm, SecondDividesLcm};
ghost use Rattle.ffc_ring.specs.MonomialLaws.{LcmDividesCommonMultiples, CoprimeLcmIsProduct, ProductOfValues};

/// Monomials with equal exponents are equal.
pub fn equal_exponents()
    ensures { OneMonomial }
{}

/// What a product is.
pub fn product()
    ensures monomial { ProductIsMonomial }
    ensures exponents { ProductAddsExponents }
    ensures degrees { ProductAddsDegrees }
    ensures value { ProductOfValues }
{}

/// What a least common multiple is.
pub fn least_common_multiple()
    ensures monomial { LcmIsMonomial }
    ensures exponents { LcmTakesGreater }
    ensures of_first { FirstDividesLcm }
    ensures of_second { SecondDividesLcm }
    ensures least { LcmDividesCommonMultiples }
    ensures coprime { CoprimeLcmIsProduct }
{}

/// How many monomials there are in given variables up to a degree.
pub fn count()
    ensures most { CountOfMonomials }
    ensures reached { CountIsReached }
{}

/// Products are those of a commutative monoid in which factors cancel.
pub fn monoid()
    ensures commutes { ProductCommutes }
    ensures associates { ProductAssociates }
    ensures with_one { ProductWithOne }
    ensures cancels { ProductCancels }
{}

/// Divisibility, and what a quotient is.
pub fn divisibility()
    ensures product { DividesProduct }
    ensures degree { DivisorIsNoHigher }
    ensures quotient_monomial { QuotientIsMonomial }
    ensures quotient { QuotientTimesDivisor }
    ensures quotient_exponents { QuotientSubtractsExponents }
    ensures quotient_degree { QuotientSubtractsDegrees }
    ensures itself { DividesItself }
    ensures through { DividesThrough }
    ensures mutual { MutualDivisorsAreEqual }
{}
