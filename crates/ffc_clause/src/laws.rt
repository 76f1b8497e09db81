//! The laws of hints and of propagation.
ghost use Rattle.ffc_clause.specs.Laws.{HintsAreSound, PropagationIsSound, RefutedAreNeverTrue, ConflictsRefute};

/// A clause that follows by hints is true where those clauses are that the hints name.
pub fn hints_are_sound()
    ensures { HintsAreSound }
{}

/// What is propagated is true where the clauses are.
pub fn propagation_is_sound()
    ensures { PropagationIsSound }
{}

/// Clauses that propagation refutes are never all true.
pub fn refuted_are_never_true()
    ensures { RefutedAreNeverTrue }
{}

/// A literal that is propagated with its negation refutes some clause.
pub fn conflicts_refute()
    ensures { ConflictsRefute }
{}
