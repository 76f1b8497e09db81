//! The laws of the monomials up to a degree. The functions have empty bodies.
ghost use Rattle.ffc_macaulay.specs.MonomialLaws.{MonomialsAreUpTo, MonomialsAreAll, MonomialsAreCounted};
ghost use Rattle.ffc_macaulay.specs.MonomialLaws.{ProductsAreMonomials};

/// Which monomials there are in given variables up to a degree, and how many.
pub fn monomials()
    ensures up_to { MonomialsAreUpTo }
    ensures all { MonomialsAreAll }
    ensures counted { MonomialsAreCounted }
    ensures products { ProductsAreMonomials }
{}
