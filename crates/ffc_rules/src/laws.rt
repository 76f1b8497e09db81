//! What holds of every entry that breaks no rule, for the crates above. Each function has an empty body: its contract is the law.
ghost use Rattle.ffc_rules.specs.Laws.{
  SchemesAreTrue,
  SchemesAreListed,
  ClausesAreSound,
  ConesAreNodes,
  CasesAreAll,
  EntriesAreTrue,
  BrokenLinesAreNear,
  ReachedAreLeast,
  CoresAreSound,
  EntriesAreTrueOfChecks,
  AcceptanceIsSound,
  ValuesAreKept,
  CasesAreKept,
  RefutationsAreKept,
};

/// The clause of each scheme is true under every assignment.
pub fn schemes_are_true()
    ensures { SchemesAreTrue }
{}

/// The listed schemes of a node are those that have a clause.
pub fn schemes_are_listed()
    ensures { SchemesAreListed }
{}

/// Under an assignment that makes all that is active true, each clause of a refutation is true.
pub fn clauses_are_sound()
    ensures { ClausesAreSound }
{}

/// The nodes of a check, as they are computed, are its nodes.
pub fn cones_are_nodes()
    ensures { ConesAreNodes }
{}

/// Going through the numbered assignments of a check's constants is going through all assignments.
pub fn cases_are_all()
    ensures { CasesAreAll }
{}

/// An entry that breaks no rule is true of its check.
pub fn entries_are_true()
    ensures { EntriesAreTrue }
{}

/// Listed values break no rule where some assignment that agrees with them makes all true.
pub fn values_are_kept()
    ensures { ValuesAreKept }
{}

/// An entry by cases breaks no rule where there are few enough and no assignment makes all true.
pub fn cases_are_kept()
    ensures { CasesAreKept }
{}

/// A list of lines breaks no rule exactly where its lines give clauses in turn that end with the empty one.
pub fn refutations_are_kept()
    ensures { RefutationsAreKept }
{}

/// A broken line is one of the entry's, or the one after it.
pub fn broken_lines_are_near()
    ensures { BrokenLinesAreNear }
{}

/// What is reached in a refutation that breaks no rule is the least list that has the last clause and, with each clause, its
/// hints.
pub fn reached_are_least()
    ensures { ReachedAreLeast }
{}

/// No assignment makes all true that is in the core of an entry that breaks no rule.
pub fn cores_are_sound()
    ensures { CoresAreSound }
{}

/// An entry that breaks no rule is true of its check of a script: of the terms that are active there.
pub fn entries_are_true_of_checks()
    ensures { EntriesAreTrueOfChecks }
{}

/// Where a certificate is accepted for a script, each check of the script has an entry that is true of it.
pub fn acceptance_is_sound()
    ensures { AcceptanceIsSound }
{}
