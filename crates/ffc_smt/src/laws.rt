//! What holds of every script, for the crates above. Each function has an empty body: its contract is the law.
ghost use Rattle.ffc_smt.specs.Again.{MadeOnce};
ghost use Rattle.ffc_smt.specs.Bounds.{WeightBoundsNodes};
ghost use Rattle.ffc_smt.specs.Interning.{ChoosingIsOne, InterningIsOne};
ghost use Rattle.ffc_smt.specs.Law.{NodesKeepValues};
ghost use Rattle.ffc_smt.specs.ScriptLaw.{ScriptsKeepValues, ScriptsReadTerms};
ghost use Rattle.ffc_smt.specs.Sorting.{ScriptsHaveSorts, StatesHaveSorts, TermsHaveSorts};
ghost use Rattle.ffc_smt.specs.States.{
  CommandsKeepStates,
  ReadTermsAreDefined,
  ReadTermsAreSound,
  ScriptsKeepStates,
  SoundTermsMakeTables,
};
ghost use Rattle.ffc_smt.specs.TreeLaws.{FormsAreTrees, TreesKeepTokens};

/// Every node that a term makes has, under every assignment, the value of the term.
pub fn nodes_keep_values()
    ensures { NodesKeepValues }
{}

/// A term that is made again makes nothing.
pub fn terms_are_made_once()
    ensures { MadeOnce }
{}

/// How many nodes a term makes, by its weight.
pub fn weight_bounds_nodes()
    ensures { WeightBoundsNodes }
{}

/// The tokens of a tree are those that it was read from.
pub fn trees_keep_tokens()
    ensures { TreesKeepTokens }
{}

/// Every form of a text has a tree.
pub fn forms_are_trees()
    ensures { FormsAreTrees }
{}

/// What a table does when it is asked for a node is what the definitions say.
pub fn interning_is_one()
    ensures { InterningIsOne }
{}

/// The same for an `ite` of field sort with its equalities.
pub fn choosing_is_one()
    ensures { ChoosingIsOne }
{}

/// A term that is read has the sort that it was read with.
pub fn terms_have_sorts()
    ensures { TermsHaveSorts }
{}

/// A command keeps the sorts of all names.
pub fn states_have_sorts()
    ensures { StatesHaveSorts }
{}

/// Before every command of a script all names have their sorts.
pub fn scripts_have_sorts()
    ensures { ScriptsHaveSorts }
{}

/// A term that is read is well-sorted, and what it speaks of was declared and made.
pub fn read_terms_are_sound()
    ensures { ReadTermsAreSound }
{}

/// Such a term makes a table of a table, and its node means it.
pub fn sound_terms_make_tables()
    ensures { SoundTermsMakeTables }
{}

/// What the defined names of a term that is read mean was interned.
pub fn read_terms_are_defined()
    ensures { ReadTermsAreDefined }
{}

/// The nodes of every state are a table, and all its terms are sound: so at the start, and so after each command.
pub fn commands_keep_states()
    ensures { CommandsKeepStates }
{}

/// So before and after every command of a script.
pub fn scripts_keep_states()
    ensures { ScriptsKeepStates }
{}

/// For every text, each step that is a check, each active term there and every assignment, the term's node in the
/// nodes so far has the value of the term.
pub fn scripts_keep_values()
    ensures { ScriptsKeepValues }
{}

/// For every text and each step, every term that could be read there makes a table, and its node means it.
pub fn scripts_read_terms()
    ensures { ScriptsReadTerms }
{}
