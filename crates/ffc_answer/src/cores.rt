//! Cores, by the names of assertions and by assumptions.
ghost use Rattle.std.specs.Prelude.{◌≡◌, ◌++◌, map, IfOk, OnOk};
ghost use Rattle.std.specs.Option.{option_copied};
ghost use Rattle.ffc_lex.specs.Names.{written_symbol};
ghost use Rattle.ffc_rules.specs.Cores.{names_at};
ghost use Rattle.ffc_answer.specs.Seen.{assumed_texts, assumptions_seen, core_seen, has_core, name_at};

use crate::texts::{append_error, append_list};
use crate::view::View;
use ffc_cert::Entry;
use ffc_elab::Asked;
use ffc_lex::{Text, symbol_text};
use std::alloc::{AllocError, Global};

/// Whether the last check has no model, and nothing has ended its core.
fn has_core(view: &View) -> bool
    ensures { result ≡ has_core view.now }
{
    match view.last {
        Some(Entry::UnsatCases | Entry::UnsatSteps(_)) => view.fresh,
        _ => false,
    }
}

/// The name at a number, where there is one.
fn name_at(names: &[Option<Text>], number: u64) -> Option<&Text>
    ensures { option_copied result ≡ name_at names.now number }
{
    match names.get(number as usize) {
        Some(Some(name)) => Some(name),
        _ => None,
    }
}

/// The names at these numbers, as symbols are written.
fn symbols_at(
    alloc: Global,
    names: &[Option<Text>],
    numbers: &[u64],
) -> Result<Vec<Text>, AllocError>
    ensures { IfOk result (λ texts. texts.items ≡ map written_symbol (names_at names.now numbers.now)) }
{
    let mut texts = Vec::new(alloc);
    for number in numbers {
        if let Some(name) = name_at(names, *number) {
            texts.push(symbol_text(alloc, name.bytes())?)?;
        }
    }
    Ok(texts)
}

/// The assumption at a number, where there is one; so many assertions come before them.
fn assumption_at(assertions: usize, asked: &[Asked], number: u64) -> Option<&Text>
    ensures { option_copied result ≡ name_at (assumed_texts assertions asked.now) number }
{
    let place = number as usize;
    if place < assertions {
        return None;
    }
    match asked.get(place - assertions) {
        Some(assumption) => Some(&assumption.text),
        None => None,
    }
}

/// The assumptions at these numbers, as written.
fn assumptions_at(
    alloc: Global,
    assertions: usize,
    asked: &[Asked],
    numbers: &[u64],
) -> Result<Vec<Text>, AllocError>
    ensures { IfOk result (λ texts. texts.items ≡ names_at (assumed_texts assertions asked.now) numbers.now) }
{
    let mut texts = Vec::new(alloc);
    for number in numbers {
        if let Some(text) = assumption_at(assertions, asked, *number) {
            texts.push(Text::copy_of(alloc, text.bytes())?)?;
        }
    }
    Ok(texts)
}

/// Appends the names in the core, where there is one.
pub(crate) fn append_core(alloc: Global, view: &View, out: &mut Vec<u8>) -> Result<(), AllocError>
    ensures { OnOk result (out.new.items ≡ out.old.items ++ core_seen view.now) }
{
    if !has_core(view) {
        return append_error(b"no core", out);
    }
    let texts = symbols_at(alloc, view.context.names(), view.core)?;
    append_list(texts.as_slice(), out)
}

/// Appends the assumptions in the core, where there is one of a check under assumptions.
pub(crate) fn append_assumptions(
    alloc: Global,
    view: &View,
    out: &mut Vec<u8>,
) -> Result<(), AllocError>
    ensures { OnOk result (out.new.items ≡ out.old.items ++ assumptions_seen view.now) }
{
    match view.asked {
        Some(asked) if has_core(view) => {
            let assertions = view.context.in_force().len();
            let texts = assumptions_at(alloc, assertions, asked, view.core)?;
            append_list(texts.as_slice(), out)
        }
        _ => append_error(b"no assumptions", out),
    }
}
