//! Entries from values that are known of some constants.
ghost use Rattle.std.specs.Prelude.{◌≡◌, length, All, IfOk};
ghost use Rattle.ffc_check.specs.Assigning.{with_values};
ghost use Rattle.ffc_check.specs.Judged.{judged_check};
ghost use Rattle.ffc_rules.specs.Laws.{IsValid};
ghost use Rattle.ffc_term.specs.Nodes.{IsConstantAt};
ghost use Rattle.ffc_trials.specs.Known.{AreModelValuesOf};
ghost use Rattle.ffc_trials.specs.Stops.{AreModelValues};

use crate::counting::{give, list_numbers};
use crate::enumerate::{all_false, with_zeros};
use ffc_cert::Sequence;
use ffc_term::{Check, NodeId, NodeTable, Value};
use std::alloc::{AllocError, Global};

/// Gives each of these constants its value, one after another.
pub(crate) fn give_known(table: &NodeTable, known: &[(NodeId, u64)], values: &mut [Value])
    requires constants { All (λ p. IsConstantAt table.now p.0) known.now }
    requires long { length values.old ≡ length table.now }
    ensures { values.new ≡ with_values table.now values.old known.now }
{
    for pair in known {
        give(table.node(pair.0), pair.1, values);
    }
}

/// A value of each declared constant, where the values that are known make all assertions true; the other constants are false or 0.
pub fn completed_model(
    alloc: Global,
    check: &Check,
    known: &[(NodeId, u64)],
) -> Result<Sequence<(u32, u64)>, AllocError>
    requires valid { IsValid (judged_check check.now) }
    requires known { AreModelValuesOf (judged_check check.now) known.now }
    ensures { IfOk result (AreModelValues (judged_check check.now)) }
{
    let mut values = all_false(alloc, check.table.len() as usize)?;
    give_known(check.table, known, values.as_mut_slice());
    let mut pairs = with_zeros(alloc, check.declared)?;
    list_numbers(check.table, values.as_slice(), pairs.as_mut_slice());
    Ok(Sequence::from_vec(pairs))
}
