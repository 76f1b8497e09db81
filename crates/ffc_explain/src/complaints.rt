//! Faults of scripts and refusals of certificates in words.
use crate::faults::{fault_name, fault_sentence};
use crate::page::Page;
use crate::places::{line_at, write_line, write_met};
use crate::rules::{form_name, form_sentence, rule_name, rule_sentence};
use crate::sorts::write_sorts;
use crate::walk::Walk;
use ffc_lex::FaultCode;
use ffc_script::ScriptStop;
use ffc_words::ScriptFault;
use std::alloc::Global;
use std::str;

/// How many bytes of a line of a certificate are shown.
const MOST_SHOWN: usize = 120;

/// What a refusal of the checker says: its entry, its line, whether a rule is broken, and which.
#[derive(Clone, Copy)]
struct Refusal {
    entry: u64,
    line: u64,
    is_rule: bool,
    code: u64,
}

/// Goes through a script to its end, or to why it is not read on.
fn walk_through(alloc: Global, script: &[u8]) -> Result<(), ScriptStop> {
    let mut walk = Walk::new(alloc, script)?;
    for _ in 0..u64::MAX {
        match walk.next() {
            Ok(Some(_)) => {}
            Ok(None) => return Ok(()),
            Err(stop) => return Err(stop),
        }
    }
    Ok(())
}

/// Writes what is wrong with what was met at a fault; of a term of the wrong sort, which sort it has, and which belongs there.
fn write_wrong(alloc: Global, fault: ScriptFault, script: &[u8], page: &mut Page) {
    if fault.code != FaultCode::Sort || !write_sorts(alloc, script, fault, page) {
        page.text(fault_sentence(fault.code));
    }
}

/// Writes the fault of a script: its place, its name, what was met, and the line with a caret.
fn write_fault(alloc: Global, fault: ScriptFault, name: &str, script: &[u8], page: &mut Page) {
    page.text(name);
    page.text(":");
    page.number(fault.line);
    page.text(":");
    page.number(fault.column);
    page.text(": ");
    page.text(fault_name(fault.code));
    page.text(": ");
    write_met(script, fault.line, fault.column, page);
    page.text(" ");
    write_wrong(alloc, fault, script, page);
    page.text(" [fault ");
    page.number(u64::from(fault.code.number()));
    page.text("]\n");
    write_line(script, fault.line, fault.column, page);
}

/// Writes the fault of a script of this name, and says whether it has one. Where memory is out, it says no.
pub fn write_script_fault(alloc: Global, name: &str, script: &[u8], page: &mut Page) -> bool {
    match walk_through(alloc, script) {
        Ok(()) => false,
        Err(stop) => match stop {
            ScriptStop::Fault(fault) => {
                write_fault(alloc, fault, name, script, page);
                true
            }
            ScriptStop::Memory => false,
        },
    }
}

/// A number that is written in decimal.
fn number_in(word: Option<&str>) -> Option<u64> {
    word?.parse::<u64>().ok()
}

/// What the line of a refusal says.
fn refusal_of(line: &[u8]) -> Option<Refusal> {
    let text = str::from_utf8(line).ok()?;
    let mut words = text.trim().split(' ');
    if words.next()? != "refused" {
        return None;
    }
    let entry = number_in(words.next())?;
    let line = number_in(words.next())?;
    let is_rule = words.next()? == "rule";
    let code = number_in(words.next())?;
    Some(Refusal {
        entry,
        line,
        is_rule,
        code,
    })
}

/// Writes a refusal: the line of the certificate, what it breaks, and its text.
fn write_refusal_of(refusal: Refusal, name: &str, certificate: &[u8], page: &mut Page) {
    page.text(name);
    page.text(":");
    page.number(refusal.line);
    page.text(": entry ");
    page.number(refusal.entry);
    page.text(": ");
    if refusal.is_rule {
        page.text(rule_name(refusal.code));
        page.text(": ");
        page.text(rule_sentence(refusal.code));
        page.text(" [rule ");
    } else {
        page.text(form_name(refusal.code));
        page.text(": ");
        page.text(form_sentence(refusal.code));
        page.text(" [form ");
    }
    page.number(refusal.code);
    page.text("]\n");
    write_cut(line_at(certificate, refusal.line), page);
}

/// Writes a line of a certificate, cut where it is long.
fn write_cut(line: &[u8], page: &mut Page) {
    page.text("    ");
    page.bytes(&line[..line.len().min(MOST_SHOWN)]);
    page.text(if line.len() > MOST_SHOWN {
        "..\n"
    } else {
        "\n"
    });
}

/// Writes why a certificate of this name is refused, by the line that the checker wrote, and says whether that is a refusal.
pub fn write_refusal(line: &[u8], name: &str, certificate: &[u8], page: &mut Page) -> bool {
    match refusal_of(line) {
        Some(refusal) => {
            write_refusal_of(refusal, name, certificate, page);
            true
        }
        None => false,
    }
}
