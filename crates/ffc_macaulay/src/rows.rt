//! Matrices that the definitions are tried on. The function has an empty body: what its contract says was computed.
ghost use Rattle.ffc_macaulay.specs.Rows.{AreSizes};

/// The sizes of small matrices.
pub fn sizes()
    ensures { AreSizes }
{}
