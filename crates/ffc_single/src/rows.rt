//! Bounds that the definition is tried on. The function has an empty body: what its contract says was computed.
ghost use Rattle.ffc_single.specs.Rows.{AreBounds};

/// The bounds of checks whose equations and roots are known.
pub fn bounds()
    ensures { AreBounds }
{}
