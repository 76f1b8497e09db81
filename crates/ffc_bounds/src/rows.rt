//! Checks that the definitions are tried on. Each function has an empty body: what its contract says was computed.
ghost use Rattle.ffc_bounds.specs.Rows.{AreCombined, AreLinear, ForcingRefutes};

/// Linear checks at their bounds and one unit below, and checks that are not linear.
pub fn linear_checks()
    ensures { AreLinear }
{}

/// Checks that propagation refutes at their bounds and not one unit below, and checks that it does not refute.
pub fn forcing_refutes()
    ensures { ForcingRefutes }
{}

/// Checks that combinations refute: the sizes of their matrices, and their bounds.
pub fn combined_checks()
    ensures { AreCombined }
{}
