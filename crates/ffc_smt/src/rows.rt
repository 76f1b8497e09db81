//! Scripts that the definitions are tried on. Each function has an empty body: what its contract says was computed from
//! the bytes of the scripts.
ghost use Rattle.ffc_smt.specs.Rows.{AreTexts, AreCodes, AreFirstFaults, AreLevels, AreValues, AreNodes, ArePlaces};

/// How texts end, with and without a text fault.
pub fn texts()
    ensures { AreTexts }
{}

/// One script and more for each code of a command's fault.
pub fn codes()
    ensures { AreCodes }
{}

/// Commands with two faults, of which one counts.
pub fn first_faults()
    ensures { AreFirstFaults }
{}

/// Levels, names and what is active.
pub fn levels()
    ensures { AreLevels }
{}

/// Values of terms.
pub fn values()
    ensures { AreValues }
{}

/// The nodes that scripts make.
pub fn nodes()
    ensures { AreNodes }
{}

/// What fits at a place of a command, and what is refused there.
pub fn places()
    ensures { ArePlaces }
{}
