//! `assert`.
ghost use Rattle.std.specs.Prelude.{◌≡◌, [], All, option_map, OnOk, OnErr, Some};
ghost use Rattle.ffc_field.specs.Orders.{IsOrder};
ghost use Rattle.ffc_smt.specs.Scopes.{with_assertion};
ghost use Rattle.ffc_smt.specs.Scripts.{labelled};
ghost use Rattle.ffc_smt.specs.TableChecks.{node_of};
ghost use Rattle.ffc_smt.specs.Terms.{Term};
ghost use Rattle.ffc_terms.specs.Codes.{IsKnown as IsKnownNode};
ghost use Rattle.ffc_elab.specs.Histories.{Known};
ghost use Rattle.ffc_elab.specs.Orders.{orders_of};

use crate::answers::{Command, Effect};
use crate::asserting::{Assertion, read_assertion};
use crate::store::Store;
use ffc_lex::Text;
use ffc_term::{NodeId, Sort};
use ffc_terms::Meaning;
use ffc_words::{FormWords, TakeStop};
use std::alloc::AllocError;

impl Store {
    ghost use Rattle.ffc_elab.specs.Kept.{IsKept};
    ghost use Rattle.ffc_elab.specs.Changes.{HasGlobalNames, IsSame, in_state, with_orders};

    /// Asserts a term of this node, and gives it this name.
    fn push_labelled(&mut self, node: NodeId, name: &[u8]) -> Result<(), AllocError>
        ensures ok { OnOk result ((k : Known) (t : Term) → HasGlobalNames k.state → IsKnownNode k.state.nodes t node
            → node ≡ node_of k.state.nodes t → IsKept k self.old
            → IsKept
            (in_state
            (labelled (Some name.now) t (with_assertion (record { term = t; label = Some name.now }) k.state)))
            self.new) }
        ensures err { OnErr result (IsSame self.old self.new) }
    {
        let text = Text::copy_of(self.alloc, name)?;
        self.reserve_assertion()?;
        self.push_name(name, Meaning::Defined(Sort::Bool, node))?;
        match self.push_assertion(node, Some(text)) {
            Ok(()) => Ok(()),
            // The memory was taken before.
            Err(error) => Err(error),
        }
    }

    /// Asserts a term of this node in a form of these words, and names it where there is a name. Nothing is assumed any
    /// more.
    fn push_asserted(
        &mut self,
        words: &FormWords,
        node: NodeId,
        name: Option<&[u8]>,
    ) -> Result<(), AllocError>
        ensures ok { OnOk result ((k : Known) (t : Term) → HasGlobalNames k.state → IsKnownNode k.state.nodes t node
            → node ≡ node_of k.state.nodes t → All IsOrder (orders_of words.now) → IsKept k self.old
            → IsKept
            (in_state
            (with_orders (orders_of words.now)
            (labelled (option_map (λ b. b.now) name.entry) t
            (with_assertion (record { term = t; label = option_map (λ b. b.now) name.entry }) k.state)))) self.new) }
        ensures err { OnErr result (IsSame self.old self.new) }
    {
        match name {
            None => self.push_assertion(node, None)?,
            Some(name) => self.push_labelled(node, name)?,
        }
        self.name_orders(words);
        Ok(())
    }
}

impl Store {
    ghost use Rattle.ffc_smt.specs.Trees.{Tree, items_of};
    ghost use Rattle.ffc_smt.specs.CommandReading.{limits};
    ghost use Rattle.ffc_parts.specs.declared.heads.Head.TheVariants as head;
    ghost use Rattle.ffc_elab.specs.Asserting.{IsAssertion};
    ghost use Rattle.ffc_elab.specs.Kept.{IsKept, IsKnown};
    ghost use Rattle.ffc_elab.specs.Making.{IsSoundRead};
    ghost use Rattle.ffc_elab.specs.Reading.{IsFormOf, IsCommandForm, read_by_head};
    ghost use Rattle.ffc_elab.specs.Taking.{IsReady, TakesKept};

    /// Takes an assertion that was read.
    fn assert(&mut self, words: &FormWords, assertion: &Assertion) -> Result<Command, TakeStop>
        requires { (t : Term) × IsSoundRead self.old.table self.old.symbols.terms t assertion.now.term }
        ensures { (k : Known) (tree : Tree) → IsKept k self.old → IsKnown k → IsFormOf words.now tree
            → (form : IsCommandForm words.now k.state tree head.Assert)
            → IsAssertion k.state.nodes self.old.symbols (read_by_head limits k.state head.Assert form.closing
            (items_of form.items)) assertion.now → TakesKept k tree self.new result }
    {
        let before = self.table.len();
        match self.term_node(words, &assertion.term) {
            Err(stop) => Err(stop),
            Ok(node) => match self.push_asserted(words, node, assertion.name) {
                Ok(()) => Ok(Command::Quiet(Effect::EndsModel)),
                Err(_) => {
                    self.keep_nodes(before);
                    Err(TakeStop::Memory)
                }
            },
        }
    }

    /// Takes `assert`.
    pub(crate) fn assert_command(&mut self, words: &FormWords) -> Result<Command, TakeStop>
        requires { IsReady words.now self.old head.Assert }
        ensures { (k : Known) (tree : Tree) → IsKept k self.old → IsKnown k → IsFormOf words.now tree
            → IsCommandForm words.now k.state tree head.Assert → TakesKept k tree self.new result }
    {
        match read_assertion(self.alloc, words, &self.symbols) {
            Err(stop) => Err(stop),
            Ok(assertion) => self.assert(words, &assertion),
        }
    }
}
