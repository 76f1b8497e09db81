//! Buchberger's criterion. The function does nothing when it runs: it states the laws in its contract.
ghost use Rattle.ffc_ideal.specs.Ideals.{BuchbergersCriterion, ClosedWithoutConstant, LeadingOrZero};

/// Lines whose S-polynomials all reduce to zero are a Gröbner basis of their ideal, over every monomial order.
pub fn buchbergers_criterion()
    ensures leading { LeadingOrZero }
    ensures criterion { BuchbergersCriterion }
    ensures no_one { ClosedWithoutConstant }
{}
