//! What holds of the definitions alone.
ghost use Rattle.ffc_script.specs.Laws.{LongTextsAreCut};

/// A text past the limit says what its front up to the first byte past the limit says.
pub fn long_texts_are_cut()
    ensures { LongTextsAreCut }
{}
