//! A line for each check, and the entry in words.
use crate::names::Names;
use crate::page::Page;
use crate::refutation::explain_refutation;
use crate::values::explain_values;
use ffc_cert::{Cause, CertLine, Entry};
use ffc_core::core_of;

/// The verdict of an entry.
fn verdict_of(entry: &Entry) -> &'static str {
    match entry {
        Entry::Sat(_) => "sat",
        Entry::UnsatCases | Entry::UnsatSteps(_) => "unsat",
        Entry::Unknown(_) => "unknown",
    }
}

/// How many of the lines are clauses.
fn clause_count(lines: &[CertLine]) -> u64 {
    let mut count = 0u64;
    for line in lines {
        if line.is_clause() {
            count = count.saturating_add(1);
        }
    }
    count
}

/// Writes the names of the assertions that an entry uses, or their numbers in the list of what is active.
fn write_core(names: &Names<'_>, entry: &Entry, page: &mut Page) {
    page.text(", core");
    match core_of(names.alloc, entry, names.active.len() as u64) {
        Ok(numbers) => {
            page.text(if numbers.is_empty() { " empty" } else { "" });
            for number in numbers.as_slice() {
                page.text(" ");
                names.write_label(*number, page);
            }
        }
        Err(_) => page.fail(),
    }
}

/// Writes a count of units, where there are any.
fn write_units(count: u64, what: &str, page: &mut Page) {
    if count > 0 {
        page.text(", ");
        page.count(count, what);
    }
}

/// Writes why a check is unknown.
fn write_cause(cause: Cause, page: &mut Page) {
    match cause {
        Cause::Degree => page.text("an equality has a degree above 255"),
        Cause::Terms => page.text("an equality has more than 65,536 terms when multiplied out"),
        Cause::Memory => page.text("out of memory"),
        Cause::Steps(trials, reductions, literals, chains) => {
            page.text("all units of --steps are taken");
            write_units(trials, "trial", page);
            write_units(reductions, "step", page);
            write_units(literals, "literal", page);
            write_units(chains, "product", page);
        }
    }
}

/// Writes the figures of an entry.
fn write_figures(names: &Names<'_>, entry: &Entry, page: &mut Page) {
    match entry {
        Entry::Sat(pairs) => {
            page.text("values of ");
            page.count(pairs.as_slice().len() as u64, "constant");
        }
        Entry::UnsatCases => {
            page.text("all assignments gone through");
            write_core(names, entry, page);
        }
        Entry::UnsatSteps(lines) => {
            page.text("refutation of ");
            page.count(clause_count(lines.as_slice()), "clause");
            write_core(names, entry, page);
        }
        Entry::Unknown(cause) => write_cause(*cause, page),
    }
}

/// Writes the line of a check.
pub(crate) fn write_check(
    names: &Names<'_>,
    number: u64,
    line: u64,
    entry: &Entry,
    page: &mut Page,
) {
    page.text("check ");
    page.number(number);
    page.text(", line ");
    page.number(line);
    page.text(": ");
    page.text(verdict_of(entry));
    page.text(match entry {
        Entry::Unknown(_) => " (",
        _ => ", checked (",
    });
    write_figures(names, entry, page);
    page.text(")\n");
}

/// Explains an entry in words.
pub(crate) fn explain(names: &Names<'_>, entry: &Entry, page: &mut Page) {
    match entry {
        Entry::Sat(pairs) => explain_values(names, pairs.as_slice(), page),
        Entry::UnsatCases => {
            page.text(
                "    Each assignment of the constants was tried: none makes all of the core true.\n",
            );
        }
        Entry::UnsatSteps(lines) => explain_refutation(names, lines.as_slice(), page),
        Entry::Unknown(_) => {}
    }
}
