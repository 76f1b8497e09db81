//! The context of a script.
ghost use Rattle.std.specs.Prelude.{◌≡◌, ◌<◌, [], ◌∷◌, ◌++◌, length, map, option_map, Some, All, IfOk, OnOk, OnErr};
ghost use Rattle.std.specs.List.Sorted.{IsStrictlyIncreasing};
ghost use Rattle.ffc_field.specs.Orders.{order_of_id};
ghost use Rattle.ffc_smt.specs.Scopes.{declared_of, level_of};
ghost use Rattle.ffc_smt.specs.TableChecks.{declared_nodes, names_in_force, nodes_in_force};
ghost use Rattle.ffc_elab.specs.Histories.{check_now, known_of, state_of};
ghost use Rattle.ffc_elab.specs.Contexts.{AreInScope, IsSoundContext};

use crate::answers::{Command, Declared};
use crate::dispatch::head_of;
use crate::store::Store;
use crate::taken::Taken;
use ffc_field::FieldId;
use ffc_lex::{Form, Lexer, Text};
use ffc_term::{NodeId, NodeTable};
use ffc_words::{FormWords, TakeStop};
use std::alloc::{AllocError, Global};
use std::marker::Model;

/// What the commands of a script so far leave: names, levels, assertions, nodes.
///
/// Clauses see it as the forms that it has taken, the oldest first; what these leave is `known_of` them.
#[derive(Drop)]
pub struct Context {
    taken: Taken,
    store: Store,
}

impl Model for Context {
    ghost use Rattle.std.specs.Prelude.{List};
    ghost use Rattle.ffc_smt.specs.Trees.{Word};

    ghost Value = { List (List Word) };

    ghost use Rattle.ffc_elab.specs.Histories.{known_of};
    ghost use Rattle.ffc_elab.specs.Kept.{IsKept, IsKnown};

    ghost view = { λ c. c.taken.forms };

    ghost invariant = { λ c. IsKept (known_of c.taken.forms) c.store × IsKnown (known_of c.taken.forms) };
}

impl Context {
    ghost use Rattle.ffc_elab.specs.Answers.{declared_as};

    /// A context of a script of which nothing has come.
    pub fn new(alloc: Global) -> Result<Context, AllocError>
        ensures { IfOk result (λ c. c ≡ []) }
    {
        Ok(Context {
            taken: Taken::new(),
            store: Store::new(alloc)?,
        })
    }

    /// The nodes of the active assertions, the oldest first; after a check under assumptions also theirs. Each constant that
    /// they rest on is in scope.
    pub fn in_force(&self) -> &[NodeId]
        ensures nodes { result.now ≡ nodes_in_force (check_now (known_of self.now)) }
        ensures scope { AreInScope (known_of self.now) result.now }
    {
        &self.store.in_force
    }

    /// The name of each of them, where it has one.
    pub fn names(&self) -> &[Option<Text>]
        ensures { result.now ≡ names_in_force (check_now (known_of self.now)) }
    {
        &self.store.names
    }

    /// The declared constants that are in scope, the oldest first. Their nodes are in the table.
    #[tactic(auto, using(crate::proofs::ContextLemmas::declared_within))]
    pub fn declared(&self) -> &[Declared]
        ensures constants { result.now ≡ map (declared_as (state_of self.now).nodes) (declared_of (state_of self.now)) }
        ensures within { All (λ d. d.node < length (state_of self.now).nodes) result.now }
    {
        &self.store.declared
    }

    /// Their nodes, in increasing order.
    pub fn declared_nodes(&self) -> &[NodeId]
        ensures nodes { result.now ≡ declared_nodes (check_now (known_of self.now)) }
        ensures increasing { IsStrictlyIncreasing result.now }
    {
        &self.store.declared_nodes
    }

    /// All nodes that were made.
    pub fn table(&self) -> &NodeTable
        ensures { result.now ≡ (state_of self.now).nodes }
    {
        &self.store.table
    }

    /// How many levels are open above 0.
    pub fn level(&self) -> u32
        ensures { result ≡ level_of (state_of self.now) }
    {
        self.store.marks.len() as u32
    }

    /// The field that the script named first.
    pub fn field(&self) -> Option<FieldId>
        ensures { option_map order_of_id result ≡ (state_of self.now).first_order }
    {
        self.store.first
    }

    /// Whether each command that asks for nothing is answered.
    pub fn print_success(&self) -> bool
        ensures { result ≡ (state_of self.now).options.print_success }
    {
        self.store.options.print_success
    }

    /// What it keeps is sound, and the check that it shows is valid. It does nothing when it runs.
    pub fn stays_sound(&self)
        ensures { IsSoundContext self.now }
    {}
}

impl Context {
    ghost use Rattle.ffc_smt.specs.CommandReading.{command_read, limits};
    ghost use Rattle.ffc_smt.specs.Faults.{Sound};
    ghost use Rattle.ffc_smt.specs.ScriptLaw.{HasNode};
    ghost use Rattle.ffc_smt.specs.Terms as smt;
    ghost use Rattle.ffc_smt.specs.Trees.{Tree, form_tree, word_of};
    ghost use Rattle.ffc_words.specs.Given.{IsGiven};
    ghost use Rattle.ffc_elab.specs.Answers.{TakesAs};
    ghost use Rattle.ffc_elab.specs.Contexts.{asked_nodes, terms_of};

    /// Takes the last form of a lexer: answers its command and does what it says, or answers its first fault. A form that is
    /// refused leaves the context as it was. Each term of the command has a node then, whose value under every assignment is
    /// the term's; the constants on which what is asked for rests are in scope.
    ///
    /// It takes one step a word, with a look-up of each name, and one look-up a node: a term makes its nodes by at most two
    /// steps a unit of its weight, which is at most 16,777,216. No name, level, assertion or node is gone over but those that
    /// the command drops. Terms of any depth take no more of the stack of calls. The texts of names, assertions' names and
    /// terms that are asked for are copied.
    pub fn take(&mut self, form: &Form, lexer: &Lexer) -> Result<Command, TakeStop>
        requires { IsGiven form.now lexer.now }
        ensures taken { (tree : Tree) → form_tree lexer.now.text form.now ≡ Some tree
            → TakesAs (known_of self.old) tree (command_read limits (state_of self.old) tree) result
            (known_of self.new) }
        ensures ok { OnOk result (self.new ≡ self.old ++ map (word_of lexer.now.text) form.now ∷ []) }
        ensures refused { OnErr result (self.new ≡ self.old) }
        ensures sound { IsSoundContext self.new }
        ensures values { (tree : Tree) (said : smt.Command) → form_tree lexer.now.text form.now ≡ Some tree
            → command_read limits (state_of self.old) tree ≡ Sound said
            → OnOk result (All (HasNode (state_of self.new).nodes) (terms_of said)) }
        ensures asked { IfOk result (λ command. AreInScope (known_of self.new) (asked_nodes command)) }
    {
        let words = FormWords::new(form, lexer);
        match head_of(&words, self.store.logic) {
            Err(fault) => Err(TakeStop::Fault(fault)),
            Ok(head) => match self.store.take_command(&words, head) {
                Err(stop) => Err(stop),
                Ok(command) => {
                    self.taken.take(form, lexer);
                    Ok(command)
                }
            },
        }
    }
}
