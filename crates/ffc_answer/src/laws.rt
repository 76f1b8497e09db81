//! What holds of the answers to every script, for the crates above. Each function has an empty body: its contract is the law.
ghost use Rattle.ffc_answer.specs.Laws.{AnswersGoOn, RememberingGoesOn, ViewsCanAnswer};

/// What is remembered of the last check fits the state that each command leaves.
pub fn remembering_goes_on()
    ensures { RememberingGoesOn }
{}

/// The answers to more steps are those so far, and then those that follow from what is remembered.
pub fn answers_go_on()
    ensures { AnswersGoOn }
{}

/// A view of a step can be answered from.
pub fn views_can_answer()
    ensures { ViewsCanAnswer }
{}
