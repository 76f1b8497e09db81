//! What holds of the definitions alone.
ghost use Rattle.ffc_lex.specs.GoingOn.{GoesOn};
ghost use Rattle.ffc_lex.specs.Order.{FormsAreInOrder};

/// What is judged of a text so far holds however it goes on.
pub fn reading_goes_on()
    ensures { GoesOn }
{}

/// The tokens of a form are in order, in the text, and the first one opens the form.
pub fn forms_are_in_order()
    ensures { FormsAreInOrder }
{}
