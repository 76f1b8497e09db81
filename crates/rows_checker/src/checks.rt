//! Certificates of one entry that are judged for the check that asserts nodes of a table, and the cores of refutations.
ghost use Rattle.std.specs.Prelude.{IfOk, IsTrue, All};
ghost use Rattle.ffc_field.specs.Orders.{IsOrder};
ghost use Rattle.ffc_rules.specs.Laws.{IsUnsat};
ghost use Rattle.ffc_check.specs.Judged.{IsReadableEntry};
ghost use Rattle.ffc_term.specs.Checks.{IsCheck, IsValidCheck};
ghost use Rattle.ffc_term.specs.Tables.{IsBooleanAt};

use crate::commands::{Finding, MALFORMED, UNFIT, numbers, say};
use crate::entries::entry_of;
use crate::nodes::ids_of;
use ffc_cert::Entry;
use ffc_check::check_entry;
use ffc_core::{check_core, core_of};
use ffc_term::fitting::{are_boolean, is_order};
use ffc_term::{Check, NodeId, NodeTable};
use std::alloc::{AllocError, Global};

/// The line that the entry of a certificate begins at.
const FIRST_LINE: u64 = 2;

/// What later rows check: the field that was named first, and the active nodes.
#[derive(Drop)]
pub(crate) struct Asserted {
    order: u64,
    in_force: Vec<NodeId>,
}

impl Asserted {
    pub(crate) fn none(alloc: Global) -> Asserted {
        Asserted {
            order: 2,
            in_force: Vec::new(alloc),
        }
    }
}

/// The constants of the check that asserts these nodes.
fn constants(table: &NodeTable, in_force: &[NodeId], order: u64) -> Result<Vec<NodeId>, AllocError>
    requires order { IsOrder order }
    requires boolean { All (IsBooleanAt table.now) in_force.now }
    ensures { IfOk result (λ v. IsValidCheck table.now v.items in_force.now order) }
{
    let _nodes = table.len();
    table.constants_of(in_force)
}

fn is_unsat(entry: &Entry) -> bool
    ensures { IsTrue result → IsUnsat entry.now }
{
    match entry {
        Entry::UnsatCases | Entry::UnsatSteps(_) => true,
        Entry::Sat(_) | Entry::Unknown(_) => false,
    }
}

/// Judges an entry.
fn judged(alloc: Global, check: &Check, entry: &Entry) -> Finding
    requires valid { IsCheck check.now }
    requires readable { IsReadableEntry entry.now }
{
    match check_entry(alloc, check, entry, FIRST_LINE) {
        Ok(()) => say(alloc, "accepted"),
        Err(stop) => format!(in alloc; "{stop}"),
    }
}

/// Judges a refutation with this list as its core.
fn judged_with_core(alloc: Global, check: &Check, entry: &Entry, listed: &[u64]) -> Finding
    requires valid { IsCheck check.now }
    requires readable { IsReadableEntry entry.now }
{
    if !is_unsat(entry) {
        return say(alloc, UNFIT);
    }
    match check_core(alloc, check, entry, FIRST_LINE, listed) {
        Ok(()) => say(alloc, "accepted"),
        Err(stop) => format!(in alloc; "{stop}"),
    }
}

/// Judges an entry, with a core where one is listed.
fn judge(
    alloc: Global,
    table: &NodeTable,
    asserted: &Asserted,
    entry: &Entry,
    listed: Option<&[u64]>,
) -> Finding
    requires { IsReadableEntry entry.now }
{
    let in_force = asserted.in_force.as_slice();
    let order = asserted.order;
    if !is_order(order) || !are_boolean(table, in_force) {
        return say(alloc, UNFIT);
    }
    let declared = constants(table, in_force, order)?;
    let check = Check {
        table,
        declared: declared.as_slice(),
        in_force,
        first_order: order,
    };
    match listed {
        None => judged(alloc, &check, entry),
        Some(listed) => judged_with_core(alloc, &check, entry, listed),
    }
}

#[derive(Clone, Copy)]
pub(crate) enum CheckCommand {
    Judge,
    JudgeCore,
    Core,
}

pub(crate) const CHECK_COMMANDS: [(&str, CheckCommand); 3] = [
    ("judge", CheckCommand::Judge),
    ("judge-core", CheckCommand::JudgeCore),
    ("core", CheckCommand::Core),
];

/// The numbers that a refutation uses of a list of so many active nodes.
fn core(alloc: Global, entry: &Entry, in_force: u64) -> Finding {
    let core = core_of(alloc, entry, in_force)?;
    format!(in alloc; "{core:?}")
}

fn answered(
    alloc: Global,
    table: &NodeTable,
    asserted: &Asserted,
    command: CheckCommand,
    entry: &Entry,
    numbers: &[u64],
) -> Finding
    requires { IsReadableEntry entry.now }
{
    match (command, numbers) {
        (CheckCommand::Judge, []) => judge(alloc, table, asserted, entry, None),
        (CheckCommand::JudgeCore, _) => judge(alloc, table, asserted, entry, Some(numbers)),
        (CheckCommand::Core, [in_force]) => core(alloc, entry, *in_force),
        _ => say(alloc, MALFORMED),
    }
}

/// Judges the certificate that was built up, or finds its core.
pub(crate) fn check_row(
    alloc: Global,
    table: &NodeTable,
    asserted: &Asserted,
    text: &[u8],
    command: CheckCommand,
    rest: &str,
) -> Finding {
    let Some(numbers) = numbers(alloc, rest)? else {
        return say(alloc, MALFORMED);
    };
    match entry_of(alloc, text) {
        Some(entry) => answered(alloc, table, asserted, command, &entry, numbers.as_slice()),
        None => say(alloc, "no entry"),
    }
}

/// Says what later rows check: the order of the field, and the numbers of the active nodes.
pub(crate) fn assert_row(alloc: Global, asserted: &mut Asserted, rest: &str) -> Finding {
    let Some(numbers) = numbers(alloc, rest)? else {
        return say(alloc, MALFORMED);
    };
    let [order, ids @ ..] = numbers.as_slice() else {
        return say(alloc, MALFORMED);
    };
    match ids_of(alloc, ids)? {
        Some(in_force) => {
            *asserted = Asserted {
                order: *order,
                in_force,
            };
            Ok(String::new(alloc))
        }
        None => say(alloc, MALFORMED),
    }
}
