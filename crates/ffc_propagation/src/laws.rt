//! What follows from an answer of propagation.
ghost use Rattle.ffc_propagation.specs.Laws.{ForcedIsUnrefuted};

/// Where all that is forced is listed, and no literal is there with its negation, propagation refutes the check within no budget.
pub fn forced_is_unrefuted()
    ensures { ForcedIsUnrefuted }
{}
