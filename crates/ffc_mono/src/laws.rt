//! The laws of leading terms and of graded orders. The functions do nothing when they run: each states the laws in
//! its contract.
ghost use Rattle.ffc_mono.specs.Graded.{GradedReverseLexIsGraded, OneVariableIsGraded, GreaterIsNoLower};
ghost use Rattle.ffc_mono.specs.Graded.{DescentIsShort, DescentInOneIsShort};
ghost use Rattle.ffc_mono.specs.Leading.{LeadingOfProduct, LeadingOfMultiple, LeadingOfSum, LeadingOfEqualSum};
ghost use Rattle.ffc_mono.specs.Leading.{CancelledSumIsBelow, CancelledStepIsBelow, OneLeading};
ghost use Rattle.ffc_mono.specs.MonomialOrder.{DivisorIsNoGreater};

/// The leading terms of products, multiples and sums, in every monomial order.
pub fn leading_terms()
    ensures one { OneLeading }
    ensures product { LeadingOfProduct }
    ensures multiple { LeadingOfMultiple }
    ensures sum { LeadingOfSum }
    ensures equal_sum { LeadingOfEqualSum }
    ensures cancelled_sum { CancelledSumIsBelow }
    ensures cancelled_step { CancelledStepIsBelow }
{}

/// What divides is not greater, in every monomial order.
pub fn divisors()
    ensures { DivisorIsNoGreater }
{}

/// In graded orders the greater total degree is greater, and in one variable in every order.
pub fn graded_orders()
    ensures reverse_lex { GradedReverseLexIsGraded }
    ensures one_variable { OneVariableIsGraded }
    ensures no_lower { GreaterIsNoLower }
    ensures descent { DescentIsShort }
    ensures descent_in_one { DescentInOneIsShort }
{}
