//! Commands, by their heads.
ghost use Rattle.ffc_smt.specs.Trees.{Tree};
ghost use Rattle.ffc_elab.specs.Histories.{Known};

use crate::answers::Command;
use crate::store::Store;
use ffc_parts::Head;
use ffc_words::{FormWords, TakeStop};

impl Store {
    ghost use Rattle.ffc_elab.specs.Kept.{IsKept, IsKnown};
    ghost use Rattle.ffc_elab.specs.Reading.{IsFormOf, IsCommandForm};
    ghost use Rattle.ffc_elab.specs.Taking.{IsReady, TakesKept};

    /// Takes a form with this head.
    pub(crate) fn take_command(
        &mut self,
        words: &FormWords,
        head: Head,
    ) -> Result<Command, TakeStop>
        requires { IsReady words.now self.old head }
        ensures { (k : Known) (tree : Tree) → IsKept k self.old → IsKnown k → IsFormOf words.now tree
            → IsCommandForm words.now k.state tree head → TakesKept k tree self.new result }
    {
        match head {
            Head::DeclareConst => self.declare_const_command(words),
            Head::DeclareFun => self.declare_fun_command(words),
            Head::DefineSort => self.define_sort_command(words),
            Head::DefineFun => self.define_fun_command(words),
            Head::Assert => self.assert_command(words),
            Head::CheckSatAssuming => self.check_assuming_command(words),
            Head::GetValue => self.get_value_command(words),
            _ => self.plain_command(words, head),
        }
    }
}
