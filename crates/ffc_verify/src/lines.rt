//! The lines that the checker writes.
ghost use Rattle.std.specs.Prelude.{◌≡◌, ◌∷◌, [], ◌++◌, codes, decimal, map, IfOk, OnOk};
ghost use Rattle.std.specs.Option.{option_copied, option_and_then};
ghost use Rattle.std.specs.Prelude.{slice_get};
ghost use Rattle.ffc_lex.specs.Names.{written_symbol};
ghost use Rattle.ffc_rules.specs.Cores.{names_at};
ghost use Rattle.ffc_verify.specs.Due.{core_text};
ghost use Rattle.ffc_verify.specs.Judged.{cause_of};
ghost use Rattle.ffc_verify.specs.Texts.{accepted_line, cause_text, core_line, fault_line, refused_line, spaced};
ghost use Rattle.ffc_verify.specs.Texts.{spaced_after};

use crate::verdicts::{Cause, Refusal};
use ffc_cert::{Entry, Numbered};
use ffc_core::core_of;
use ffc_lex::{Text, symbol_text};
use ffc_words::ScriptFault;
use itoa::Buffer;
use std::alloc::{AllocError, Global};

/// Appends a number in decimal.
fn append_number(n: u64, out: &mut Vec<u8>) -> Result<(), AllocError>
    ensures { OnOk result (out.new.items ≡ out.old.items ++ decimal n) }
{
    let mut buffer = Buffer::new();
    out.extend_from_slice(buffer.format(n).as_bytes())
}

/// Appends the line of a script's fault.
pub(crate) fn append_fault(fault: ScriptFault, out: &mut Vec<u8>) -> Result<(), AllocError>
    ensures { OnOk result (out.new.items ≡ out.old.items ++ fault_line fault.line fault.column fault.code) }
{
    out.extend_from_slice(b"(error \"")?;
    append_number(fault.line, out)?;
    out.push(b':')?;
    append_number(fault.column, out)?;
    out.push(b' ')?;
    append_number(u64::from(fault.code.number()), out)?;
    out.extend_from_slice(b"\")\n")
}

/// Appends the line that says how many entries were accepted.
pub(crate) fn append_accepted(
    sat: u64,
    unsat: u64,
    unknown: u64,
    out: &mut Vec<u8>,
) -> Result<(), AllocError>
    ensures { OnOk result (out.new.items ≡ out.old.items
        ++ accepted_line (record { sat = sat; unsat = unsat; unknown = unknown })) }
{
    out.extend_from_slice(b"accepted ")?;
    append_number(sat, out)?;
    out.push(b' ')?;
    append_number(unsat, out)?;
    out.push(b' ')?;
    append_number(unknown, out)?;
    out.push(b'\n')?;
    Ok(())
}

fn append_cause(cause: Cause, out: &mut Vec<u8>) -> Result<(), AllocError>
    ensures { OnOk result (out.new.items ≡ out.old.items ++ cause_text (cause_of cause)) }
{
    match cause {
        Cause::Format(code) => {
            out.extend_from_slice(b"format ")?;
            append_number(u64::from(code), out)
        }
        Cause::Rule(rule) => {
            out.extend_from_slice(b"rule ")?;
            append_number(u64::from(rule), out)
        }
    }
}

/// Appends the line of a refusal.
pub(crate) fn append_refusal(refusal: &Refusal, out: &mut Vec<u8>) -> Result<(), AllocError>
    ensures { OnOk result (out.new.items ≡ out.old.items ++ refused_line refusal.now.entry refusal.now.line
        (cause_of refusal.now.cause)) }
{
    out.extend_from_slice(b"refused ")?;
    append_number(refusal.entry, out)?;
    out.push(b' ')?;
    append_number(refusal.line, out)?;
    out.push(b' ')?;
    append_cause(refusal.cause, out)?;
    out.push(b'\n')?;
    Ok(())
}

/// The name at a number, where there is one.
fn name_at(names: &[Option<Text>], number: u64) -> Option<&Text>
    ensures { option_copied result ≡ option_and_then (λ name. name) (slice_get names.now number) }
{
    match names.get(number as usize) {
        Some(Some(name)) => Some(name),
        _ => None,
    }
}

/// Appends the symbol of a name, as it is written.
fn push_symbol(alloc: Global, name: &Text, texts: &mut Vec<Text>) -> Result<(), AllocError>
    ensures { OnOk result (texts.new.items ≡ texts.old.items ++ written_symbol name.now ∷ []) }
{
    let symbol = symbol_text(alloc, name.bytes())?;
    texts.push(symbol)?;
    Ok(())
}

/// The names at these numbers, as symbols are written.
fn symbols_at(
    alloc: Global,
    names: &[Option<Text>],
    numbers: &[u64],
) -> Result<Vec<Text>, AllocError>
    ensures { IfOk result (λ texts. texts.items ≡ map written_symbol (names_at names.now numbers.now)) }
{
    let mut texts = Vec::new(alloc);
    for number in numbers {
        match name_at(names, *number) {
            Some(name) => push_symbol(alloc, name, &mut texts)?,
            None => {}
        }
    }
    Ok(texts)
}

/// Appends texts, a space before each.
fn append_after(texts: &[Text], out: &mut Vec<u8>) -> Result<(), AllocError>
    ensures { OnOk result (out.new.items ≡ out.old.items ++ spaced_after texts.now) }
{
    for text in texts {
        out.push(b' ')?;
        out.extend_from_slice(text.bytes())?;
    }
    Ok(())
}

/// Appends texts, a space between two of them.
fn append_spaced(texts: &[Text], out: &mut Vec<u8>) -> Result<(), AllocError>
    ensures { OnOk result (out.new.items ≡ out.old.items ++ spaced texts.now) }
{
    match texts {
        [] => Ok(()),
        [first, rest @ ..] => {
            out.extend_from_slice(first.bytes())?;
            append_after(rest, out)
        }
    }
}

/// Appends the line of a core, which has these numbers.
fn append_core_line(
    alloc: Global,
    entry: u64,
    names: &[Option<Text>],
    numbers: &[u64],
    out: &mut Vec<u8>,
) -> Result<(), AllocError>
    ensures { OnOk result (out.new.items ≡ out.old.items ++ core_line entry (names_at names.now numbers.now)) }
{
    let texts = symbols_at(alloc, names, numbers)?;
    out.extend_from_slice(b"core ")?;
    append_number(entry, out)?;
    out.extend_from_slice(b" (")?;
    append_spaced(texts.as_slice(), out)?;
    out.extend_from_slice(b")\n")
}

/// Appends the line of an entry's core, if it says that its check has no model.
pub(crate) fn append_core(
    alloc: Global,
    entry: &Numbered,
    names: &[Option<Text>],
    in_force: u64,
    out: &mut Vec<u8>,
) -> Result<(), AllocError>
    ensures { OnOk result (out.new.items ≡ out.old.items ++ core_text names.now in_force entry.now.number
        entry.now.entry) }
{
    match &entry.entry {
        Entry::Sat(_) | Entry::Unknown(_) => Ok(()),
        Entry::UnsatCases | Entry::UnsatSteps(_) => {
            let numbers = core_of(alloc, &entry.entry, in_force)?;
            append_core_line(alloc, entry.number, names, numbers.as_slice(), out)
        }
    }
}
