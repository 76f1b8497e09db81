//! Names of sorts.
ghost use Rattle.std.specs.Prelude.{All, OnOk, OnErr};
ghost use Rattle.ffc_field.specs.Orders.{IsOrder};
ghost use Rattle.ffc_smt.specs.Scopes.{with_sort};
ghost use Rattle.ffc_elab.specs.Histories.{Known};
ghost use Rattle.ffc_elab.specs.Orders.{orders_of};

use crate::answers::{Command, Effect};
use crate::declaring::define_sort;
use crate::levels::{Mark, count_more};
use crate::store::Store;
use ffc_term::Sort;
use ffc_words::{FormWords, TakeStop};
use std::alloc::AllocError;

impl Store {
    ghost use Rattle.ffc_elab.specs.Kept.{IsKept, IsKnown};
    ghost use Rattle.ffc_elab.specs.Changes.{in_state, with_orders, with_state};

    /// Names a sort: on level 0 where declarations are global, else on the innermost level.
    fn push_sort(&mut self, name: &[u8], sort: Sort) -> Result<(), AllocError>
        ensures ok { OnOk result ((k : Known) → IsKnown k → IsKept k self.old
            → IsKept (with_state k (with_sort name.now sort k.state)) self.new) }
        ensures err { OnErr result ((k : Known) → IsKept k self.old → IsKept k self.new) }
    {
        let key = Vec::from_slice(self.alloc, name)?;
        self.symbols.sorts.push(self.alloc, key, sort)?;
        let _count = self.symbols.sorts.len();
        if !self.options.global_declarations {
            count_more(&mut self.marks, Mark::of_sort());
        }
        Ok(())
    }

    /// Names a sort in a form of these words. Nothing is assumed any more.
    fn name_sort(&mut self, words: &FormWords, name: &[u8], sort: Sort) -> Result<(), AllocError>
        ensures ok { OnOk result ((k : Known) → IsKnown k → All IsOrder (orders_of words.now) → IsKept k self.old
            → IsKept (in_state (with_orders (orders_of words.now) (with_sort name.now sort k.state))) self.new) }
        ensures err { OnErr result ((k : Known) → IsKept k self.old → IsKept k self.new) }
    {
        self.push_sort(name, sort)?;
        self.forget_assumptions();
        self.name_orders(words);
        Ok(())
    }
}

impl Store {
    ghost use Rattle.ffc_smt.specs.Trees.{Tree};
    ghost use Rattle.ffc_parts.specs.declared.heads.Head.TheVariants as head;
    ghost use Rattle.ffc_elab.specs.Kept.{IsKept, IsKnown};
    ghost use Rattle.ffc_elab.specs.Reading.{IsFormOf, IsCommandForm};
    ghost use Rattle.ffc_elab.specs.Taking.{TakesKept};

    /// Takes `define-sort`.
    pub(crate) fn define_sort_command(&mut self, words: &FormWords) -> Result<Command, TakeStop>
        ensures { (k : Known) (tree : Tree) → IsKept k self.old → IsKnown k → IsFormOf words.now tree
            → IsCommandForm words.now k.state tree head.DefineSort → TakesKept k tree self.new result }
    {
        match define_sort(words, &self.symbols) {
            Err(fault) => Err(TakeStop::Fault(fault)),
            Ok((name, sort)) => match self.name_sort(words, name, sort) {
                Ok(()) => Ok(Command::Quiet(Effect::EndsModel)),
                Err(_) => Err(TakeStop::Memory),
            },
        }
    }
}
