//! Names of terms.
ghost use Rattle.std.specs.Prelude.{◌≡◌, OnOk, OnErr};
ghost use Rattle.ffc_smt.specs.Scopes.{Meant, with_name};
ghost use Rattle.ffc_terms.specs.Codes.{IsMeaning};
ghost use Rattle.ffc_elab.specs.Histories.{Known};

use crate::levels::{Mark, count_more};
use crate::store::Store;
use ffc_terms::Meaning;
use std::alloc::AllocError;

impl Store {
    ghost use Rattle.ffc_elab.specs.Kept.{IsKept};
    ghost use Rattle.ffc_elab.specs.Changes.{HasGlobalNames, IsDefinition, IsSame, with_state};

    /// Gives a name to what is no constant: on level 0 where declarations are global, else on the innermost level.
    pub(crate) fn push_name(&mut self, name: &[u8], value: Meaning) -> Result<(), AllocError>
        ensures ok { OnOk result ((k : Known) (m : Meant) → HasGlobalNames k.state → IsDefinition m
            → IsMeaning k.state.nodes self.old.symbols.terms value m → IsKept k self.old
            → IsKept (with_state k (with_name name.now m k.state)) self.new) }
        ensures err { OnErr result (IsSame self.old self.new) }
        ensures others { (self.new.in_force ≡ self.old.in_force) × (self.new.names ≡ self.old.names) }
    {
        let key = Vec::from_slice(self.alloc, name)?;
        self.symbols.terms.push(self.alloc, key, value)?;
        let _count = self.symbols.terms.len();
        if !self.options.global_declarations {
            count_more(&mut self.marks, Mark::of_name());
        }
        Ok(())
    }
}
