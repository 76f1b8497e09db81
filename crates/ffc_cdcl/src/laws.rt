//! What refutations and models mean.
ghost use Rattle.ffc_cdcl.specs.Laws.{RefutationsAreSound, ModelsAreSound};

/// Clauses that are refuted are never true together with the lemmas.
pub fn refutations_are_sound()
    ensures { RefutationsAreSound }
{}

/// Where there is a model, all clauses are true under some truth values.
pub fn models_are_sound()
    ensures { ModelsAreSound }
{}
