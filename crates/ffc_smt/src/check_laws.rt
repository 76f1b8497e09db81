//! What holds of the checks of every script, for the crates above. Each function has an empty body: its contract is the law.
ghost use Rattle.ffc_smt.specs.Asking.{MakingUpToTheLimit};
ghost use Rattle.ffc_smt.specs.CheckLaws.{ScriptsKeepChecks, StepsKeepChecks};
ghost use Rattle.ffc_smt.specs.ScopedStates.{CommandsKeepScopes, ScriptsKeepScopes};
ghost use Rattle.ffc_smt.specs.StepLaws.{LightCommandsFit, StepsKeepValues};

/// A level speaks of the constants of its own names and of the levels below it, and the first order is one of the
/// solver's: so at the start, and so after each command.
pub fn commands_keep_scopes()
    ensures { CommandsKeepScopes }
{}

/// So before and after every command of a script.
pub fn scripts_keep_scopes()
    ensures { ScriptsKeepScopes }
{}

/// A command that is read at a sound state: what is active, what is asked for and what is asserted, defined or declared
/// has its node, which means it; and so has any other term that could be read there.
pub fn steps_keep_values()
    ensures { StepsKeepValues }
{}

/// The check of a command that is read at a sound state is valid, and its nodes are true exactly where its terms are.
pub fn steps_keep_checks()
    ensures { StepsKeepChecks }
{}

/// So every check of a script.
pub fn scripts_keep_checks()
    ensures { ScriptsKeepChecks }
{}

/// Each node that a function asks for fits the table so far, also where all of them are too many.
pub fn making_up_to_the_limit()
    ensures { MakingUpToTheLimit }
{}

/// A command that is light for the nodes that are left is not refused for its nodes.
pub fn light_commands_fit()
    ensures { LightCommandsFit }
{}
