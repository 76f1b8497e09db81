//! `get-value` and `check-sat-assuming`.
ghost use Rattle.std.specs.Prelude.{◌≡◌};
ghost use Rattle.ffc_smt.specs.Trees.{Tree};
ghost use Rattle.ffc_elab.specs.Histories.{Known};

use crate::answers::{Asked, Command};
use crate::asked_lists::{AskedList, Listed, read_list};
use crate::asked_nodes::make_all;
use crate::making::MOST_WEIGHT;
use crate::store::Store;
use ffc_term::TermStop;
use ffc_words::{FaultCode, FormWords, TakeStop};

impl Store {
    ghost use Rattle.ffc_parts.specs.declared.heads.Head.TheVariants as head;
    ghost use Rattle.ffc_elab.specs.AskedLists.{listed_head};
    ghost use Rattle.ffc_elab.specs.Asking.{MakesListed, ReadsLight};
    ghost use Rattle.ffc_elab.specs.Kept.{IsKept, IsKnown};
    ghost use Rattle.ffc_elab.specs.Reading.{IsFormOf, IsCommandForm};
    ghost use Rattle.ffc_elab.specs.Taking.{IsReady, TakesKept};

    /// The list of a command that is not too heavy, or the first fault.
    fn read_light(&self, words: &FormWords, listed: Listed) -> Result<AskedList, TakeStop>
        ensures { (k : Known) (tree : Tree) → IsKept k self.now → IsCommandForm words.now k.state tree
            (listed_head listed)
            → ReadsLight k tree self.now.symbols words.now listed result }
    {
        match read_list(self.alloc, words, &self.symbols, listed) {
            Err(stop) => Err(stop),
            Ok(list) => {
                if list.weight > MOST_WEIGHT {
                    return Err(TakeStop::Fault(words.fault(FaultCode::Nodes, 0)));
                }
                Ok(list)
            }
        }
    }

    /// Makes the nodes of a command's terms. On an error the table is as before.
    fn make_listed(&mut self, words: &FormWords, listed: Listed) -> Result<Vec<Asked>, TakeStop>
        requires { IsReady words.now self.old (listed_head listed) }
        ensures made { (k : Known) (tree : Tree) → IsKept k self.old → IsKnown k → IsCommandForm words.now k.state tree
            (listed_head listed)
            → MakesListed k tree words.now listed self.old.table self.new.table result }
        ensures others { self.new ≡ record self.old { table = self.new.table } }
    {
        match self.read_light(words, listed) {
            Err(stop) => Err(stop),
            Ok(list) => {
                let terms = list.terms;
                match make_all(self.alloc, words, &mut self.table, &self.symbols, &terms) {
                    Ok(asked) => Ok(asked),
                    Err(TermStop::Memory) => Err(TakeStop::Memory),
                    Err(TermStop::Nodes) => Err(TakeStop::Fault(words.fault(FaultCode::Nodes, 0))),
                }
            }
        }
    }

    /// Takes `get-value`. It costs one step a word, one look-up a node, and the texts of the terms.
    pub(crate) fn get_value_command(&mut self, words: &FormWords) -> Result<Command, TakeStop>
        requires { IsReady words.now self.old head.GetValue }
        ensures { (k : Known) (tree : Tree) → IsKept k self.old → IsKnown k → IsFormOf words.now tree
            → IsCommandForm words.now k.state tree head.GetValue → TakesKept k tree self.new result }
    {
        match self.make_listed(words, Listed::Values) {
            Err(stop) => Err(stop),
            Ok(asked) => {
                self.forget_assumptions();
                self.name_orders(words);
                Ok(Command::GetValue(asked))
            }
        }
    }

    /// Takes `check-sat-assuming`. It costs one step a word, one look-up a node, and the texts of the assumptions.
    pub(crate) fn check_assuming_command(&mut self, words: &FormWords) -> Result<Command, TakeStop>
        requires { IsReady words.now self.old head.CheckSatAssuming }
        ensures { (k : Known) (tree : Tree) → IsKept k self.old → IsKnown k → IsFormOf words.now tree
            → IsCommandForm words.now k.state tree head.CheckSatAssuming → TakesKept k tree self.new result }
    {
        let before = self.table.len();
        match self.make_listed(words, Listed::Assumptions) {
            Err(stop) => Err(stop),
            Ok(asked) => match self.assume(&asked) {
                Ok(()) => Ok(Command::CheckAssuming(asked)),
                Err(_) => {
                    self.keep_nodes(before);
                    Err(TakeStop::Memory)
                }
            },
        }
    }
}
