//! What holds of the reading of every form, for the crates above. Each function has an empty body: its contract is the law.
ghost use Rattle.ffc_smt.specs.Answering.{KeepingEffectsKeep, OptionsAreSet};
ghost use Rattle.ffc_smt.specs.FaultLaws.{FaultsAreAtTokens, FirstFaultIsLeftmost, TreesAreInOrder};
ghost use Rattle.ffc_smt.specs.GoingOn.{ReadingGoesOn};
ghost use Rattle.ffc_smt.specs.OrderLaws.{OrdersAreTheEight};
ghost use Rattle.ffc_smt.specs.PartFaults.{LeastFaultIsAnswered, PartsFaultsAreAtTokens};
ghost use Rattle.ffc_smt.specs.TreeShapes.{TreesAreDetermined};

/// Every fault of a tree is at a token of it.
pub fn faults_are_at_tokens()
    ensures { FaultsAreAtTokens }
{}

/// The places of the tokens of a form's tree increase.
pub fn trees_are_in_order()
    ensures { TreesAreInOrder }
{}

/// The fault that is answered is the leftmost: of two lists, all of the one left of all of the other, the left one's.
pub fn first_fault_is_leftmost()
    ensures { FirstFaultIsLeftmost }
{}

/// A fault of the list that no other is before is the one that is answered.
pub fn least_fault_is_answered()
    ensures { LeastFaultIsAnswered }
{}

/// The faults of arguments and of a `let`'s variables are at tokens of them.
pub fn parts_faults_are_at_tokens()
    ensures { PartsFaultsAreAtTokens }
{}

/// The tree of a form is determined by its tokens, and is read from them from the left.
pub fn trees_are_determined()
    ensures { TreesAreDetermined }
{}

/// What the forms of a text say stays where the text goes on, and the next ones are read from the state that they leave.
pub fn scripts_go_on()
    ensures { ReadingGoesOn }
{}

/// The orders that a command names, and those that the tests take, are the eight.
pub fn orders_are_the_eight()
    ensures { OrdersAreTheEight }
{}

/// A command that keeps the model changes no level, no name, no assertion and no constant.
pub fn keeping_effects_keep()
    ensures { KeepingEffectsKeep }
{}

/// Setting an option gives it this value, and leaves the others.
pub fn options_are_set()
    ensures { OptionsAreSet }
{}
