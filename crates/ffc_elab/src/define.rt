//! `define-fun`.
ghost use Rattle.std.specs.Prelude.{◌≡◌, ◌≢◌, [], All, OnOk, OnErr};
ghost use Rattle.ffc_field.specs.Orders.{IsOrder};
ghost use Rattle.ffc_smt.specs.Scopes.{Meant, with_name};
ghost use Rattle.ffc_smt.specs.Terms.{Term};
ghost use Rattle.ffc_terms.specs.Codes.{IsMeaning};
ghost use Rattle.ffc_elab.specs.Histories.{Known};
ghost use Rattle.ffc_elab.specs.Orders.{orders_of};

use crate::answers::{Command, Effect};
use crate::defining::{Definition, read_definition};
use crate::making::MOST_WEIGHT;
use crate::store::Store;
use ffc_terms::{Macro, Meaning, TermRead};
use ffc_words::{FaultCode, FormWords, TakeStop};
use std::alloc::AllocError;

impl Store {
    ghost use Rattle.ffc_elab.specs.Kept.{IsKept};
    ghost use Rattle.ffc_elab.specs.Changes.{HasGlobalNames, IsDefinition, IsSame, in_state, with_orders};

    /// Gives a name to what is no constant in a form of these words. Nothing is assumed any more.
    fn name_meaning(
        &mut self,
        words: &FormWords,
        name: &[u8],
        value: Meaning,
    ) -> Result<(), AllocError>
        ensures ok { OnOk result ((k : Known) (m : Meant) → HasGlobalNames k.state → IsDefinition m
            → IsMeaning k.state.nodes self.old.symbols.terms value m → All IsOrder (orders_of words.now)
            → IsKept k self.old
            → IsKept (in_state (with_orders (orders_of words.now) (with_name name.now m k.state))) self.new) }
        ensures err { OnErr result (IsSame self.old self.new) }
    {
        self.push_name(name, value)?;
        self.forget_assumptions();
        self.name_orders(words);
        Ok(())
    }
}

impl Store {
    ghost use Rattle.ffc_smt.specs.Trees.{Tree, items_of};
    ghost use Rattle.ffc_smt.specs.CommandReading.{limits};
    ghost use Rattle.ffc_parts.specs.declared.heads.Head.TheVariants as head;
    ghost use Rattle.ffc_elab.specs.Defining.{IsDefinitionRead};
    ghost use Rattle.ffc_elab.specs.Kept.{IsKept, IsKnown};
    ghost use Rattle.ffc_elab.specs.Making.{IsSoundRead};
    ghost use Rattle.ffc_elab.specs.Reading.{IsFormOf, IsCommandForm, read_by_head};
    ghost use Rattle.ffc_elab.specs.Taking.{IsReady, TakesKept};

    /// Takes a definition without parameters: the name means the node of its body.
    fn define_term(
        &mut self,
        words: &FormWords,
        definition: &Definition,
    ) -> Result<Command, TakeStop>
        requires { (t : Term) × IsSoundRead self.old.table self.old.symbols.terms t definition.now.body }
        ensures { (k : Known) (tree : Tree) → IsKept k self.old → IsKnown k → IsFormOf words.now tree
            → (form : IsCommandForm words.now k.state tree head.DefineFun)
            → IsDefinitionRead k.state.nodes self.old.symbols (read_by_head limits k.state head.DefineFun form.closing
            (items_of form.items)) definition.now → definition.now.parameters.items ≡ []
            → TakesKept k tree self.new result }
    {
        let before = self.table.len();
        match self.term_node(words, &definition.body) {
            Err(stop) => Err(stop),
            Ok(node) => match self.name_meaning(
                words,
                definition.name,
                Meaning::Defined(definition.sort, node),
            ) {
                Ok(()) => Ok(Command::Quiet(Effect::EndsModel)),
                Err(_) => {
                    self.keep_nodes(before);
                    Err(TakeStop::Memory)
                }
            },
        }
    }

    /// Takes a definition with parameters: its code is kept, and each call of it makes nodes.
    fn define_macro(
        &mut self,
        words: &FormWords,
        definition: Definition,
    ) -> Result<Command, TakeStop>
        ensures { (k : Known) (tree : Tree) → IsKept k self.old → IsKnown k → IsFormOf words.now tree
            → (form : IsCommandForm words.now k.state tree head.DefineFun)
            → IsDefinitionRead k.state.nodes self.old.symbols (read_by_head limits k.state head.DefineFun form.closing
            (items_of form.items)) definition.entry → definition.entry.parameters.items ≢ []
            → TakesKept k tree self.new result }
    {
        let Definition {
            name,
            parameters,
            sort,
            body,
        } = definition;
        if body.weight > MOST_WEIGHT {
            return Err(TakeStop::Fault(words.fault(FaultCode::Nodes, 0)));
        }
        let TermRead {
            code,
            sort: _,
            height,
            weight,
            next: _,
        } = body;
        let value = Meaning::Macro(Macro {
            parameters,
            sort,
            code,
            height,
            weight,
        });
        match self.name_meaning(words, name, value) {
            Ok(()) => Ok(Command::Quiet(Effect::EndsModel)),
            Err(_) => Err(TakeStop::Memory),
        }
    }

    /// Takes `define-fun`.
    pub(crate) fn define_fun_command(&mut self, words: &FormWords) -> Result<Command, TakeStop>
        requires { IsReady words.now self.old head.DefineFun }
        ensures { (k : Known) (tree : Tree) → IsKept k self.old → IsKnown k → IsFormOf words.now tree
            → IsCommandForm words.now k.state tree head.DefineFun → TakesKept k tree self.new result }
    {
        match read_definition(self.alloc, words, &self.symbols) {
            Err(stop) => Err(stop),
            Ok(definition) => {
                if definition.parameters.is_empty() {
                    self.define_term(words, &definition)
                } else {
                    self.define_macro(words, definition)
                }
            }
        }
    }
}
