//! The writer of entries.
ghost use Rattle.std.specs.Prelude.{◌≡◌, ◌<◌, ◌-◌, ◌^◌, ◌++◌, ◌⊎◌, length, min, OnOk, OnErr};
ghost use Rattle.ffc_cert.specs.Spelling.{order_item, line_items, line_text, value_line, cause_items, clauses};
ghost use Rattle.ffc_cert.specs.Spelling.{counted, entry_text, number, term};
ghost use Rattle.ffc_cert.specs.WellFormed.{FitsVersion};
ghost use Rattle.std.specs.List.{flat_map};
ghost use Rattle.ffc_cert.specs.Extending.{Extends};

use crate::entries::{Cause, CertLine, Entry, Term};
use crate::sequences::Sequence;
use crate::spelled::{Spelled, number_len, write_number};
use std::alloc::{AllocError, Global};

#[tactic(auto, using(crate::proofs::Appending::appending))]
fn write_order(order: Option<u64>, out: &mut Vec<u8>) -> Result<(), AllocError>
    ensures ok { OnOk result (out.new.items ≡ out.old.items ++ order_item order) }
    ensures err { OnErr result (Extends out.old.items out.new.items) }
{
    match order {
        None => Ok(()),
        Some(order) => order.write(out),
    }
}

/// Appends what follows the letter of a line of bits.
#[tactic(auto, using(crate::proofs::Appending::appending))]
fn write_bits(
    line: u32,
    chosen: &Sequence<u32>,
    polynomial: &Sequence<Term>,
    bits: &Sequence<u32>,
    out: &mut Vec<u8>,
) -> Result<(), AllocError>
    ensures ok { OnOk result (out.new.items ≡ out.old.items ++ number line ++ counted number chosen.now
        ++ counted term polynomial.now ++ counted number bits.now) }
    ensures err { OnErr result (Extends out.old.items out.new.items) }
{
    line.write(out)?;
    chosen.write(out)?;
    polynomial.write(out)?;
    bits.write(out)
}

/// Appends a line without its LF.
#[tactic(auto, using(crate::proofs::Appending::appending), unfolding(crate::specs::Spelling::line_items))]
fn write_items(line: &CertLine, out: &mut Vec<u8>) -> Result<(), AllocError>
    ensures ok { OnOk result (out.new.items ≡ out.old.items ++ line_items line.now) }
    ensures err { OnErr result (Extends out.old.items out.new.items) }
{
    match line {
        CertLine::Assume(number) => {
            out.push(b'a')?;
            number.write(out)
        }
        CertLine::Scheme(node, scheme, index) => {
            out.push(b'n')?;
            node.write(out)?;
            scheme.write(out)?;
            index.write(out)
        }
        CertLine::Hinted(lits, hints) => {
            out.push(b'r')?;
            lits.write(out)?;
            hints.write(out)
        }
        CertLine::Lemma { order, lits } => {
            out.push(b'f')?;
            write_order(*order, out)?;
            lits.write(out)
        }
        CertLine::Combine(multiples) => {
            out.push(b'c')?;
            multiples.write(out)
        }
        CertLine::Bits(line, chosen, polynomial, bits) => {
            out.push(b'b')?;
            write_bits(*line, chosen, polynomial, bits, out)
        }
        CertLine::Chain(line, variable, steps) => {
            out.push(b'p')?;
            line.write(out)?;
            variable.write(out)?;
            steps.write(out)
        }
        CertLine::Step(quotient, remainder) => {
            out.push(b'u')?;
            quotient.write(out)?;
            remainder.write(out)
        }
        CertLine::Split(line, variable, zeros) => {
            out.push(b's')?;
            line.write(out)?;
            variable.write(out)?;
            zeros.write(out)
        }
        CertLine::Values(variable, trees) => {
            out.push(b'v')?;
            variable.write(out)?;
            trees.write(out)
        }
        CertLine::Close => Ok(out.push(b'z')?),
    }
}

#[tactic(auto, using(crate::proofs::Appending::appending))]
fn write_line(line: &CertLine, out: &mut Vec<u8>) -> Result<(), AllocError>
    ensures ok { OnOk result (out.new.items ≡ out.old.items ++ line_text line.now) }
    ensures err { OnErr result (Extends out.old.items out.new.items) }
{
    write_items(line, out)?;
    out.push(b'\n')?;
    Ok(())
}

#[tactic(auto, using(crate::proofs::Appending::appending))]
fn write_value(value: &(u32, u64), out: &mut Vec<u8>) -> Result<(), AllocError>
    ensures ok { OnOk result (out.new.items ≡ out.old.items ++ value_line value.now) }
    ensures err { OnErr result (Extends out.old.items out.new.items) }
{
    out.push(b'=')?;
    value.0.write(out)?;
    value.1.write(out)?;
    out.push(b'\n')?;
    Ok(())
}

/// Appends an unknown entry's cause.
#[tactic(auto, using(crate::proofs::Appending::appending), unfolding(crate::specs::Spelling::cause_items))]
fn write_cause(cause: Cause, out: &mut Vec<u8>) -> Result<(), AllocError>
    ensures ok { OnOk result (out.new.items ≡ out.old.items ++ cause_items cause) }
    ensures err { OnErr result (Extends out.old.items out.new.items) }
{
    match cause {
        Cause::Degree => out.extend_from_slice(b" degree"),
        Cause::Terms => out.extend_from_slice(b" terms"),
        Cause::Steps(trials, reductions, assignments, chains) => {
            out.extend_from_slice(b" steps")?;
            trials.write(out)?;
            reductions.write(out)?;
            assignments.write(out)?;
            chains.write(out)
        }
        Cause::Memory => out.extend_from_slice(b" memory"),
    }
}

/// How many of the lines are clauses.
fn clause_count(lines: &[CertLine]) -> u64
    ensures { result ≡ clauses lines.now }
{
    let mut count = 0;
    for line in lines {
        if line.is_clause() {
            count += 1;
        }
    }
    count
}

#[tactic(auto, using(crate::proofs::Appending::appending))]
fn write_values(values: &[(u32, u64)], out: &mut Vec<u8>) -> Result<(), AllocError>
    ensures ok { OnOk result (out.new.items ≡ out.old.items ++ flat_map value_line values.now) }
    ensures err { OnErr result (Extends out.old.items out.new.items) }
{
    for value in values {
        write_value(value, out)?;
    }
    Ok(())
}

#[tactic(auto, using(crate::proofs::Appending::appending))]
fn write_lines(lines: &[CertLine], out: &mut Vec<u8>) -> Result<(), AllocError>
    ensures ok { OnOk result (out.new.items ≡ out.old.items ++ flat_map line_text lines.now) }
    ensures err { OnErr result (Extends out.old.items out.new.items) }
{
    for line in lines {
        write_line(line, out)?;
    }
    Ok(())
}

#[tactic(auto, using(crate::proofs::Appending::appending), unfolding(crate::specs::Spelling::entry_text))]
fn append_entry(entry: &Entry, out: &mut Vec<u8>) -> Result<(), AllocError>
    ensures ok { OnOk result (out.new.items ≡ out.old.items ++ entry_text entry.now) }
    ensures err { OnErr result (Extends out.old.items out.new.items) }
{
    match entry {
        Entry::Sat(values) => {
            let values = values.as_slice();
            out.extend_from_slice(b"sat")?;
            write_number(values.len() as u64, out)?;
            out.push(b'\n')?;
            write_values(values, out)
        }
        Entry::UnsatCases => out.extend_from_slice(b"unsat e\n"),
        Entry::UnsatSteps(lines) => {
            let lines = lines.as_slice();
            out.extend_from_slice(b"unsat")?;
            write_number(clause_count(lines), out)?;
            out.push(b'\n')?;
            write_lines(lines, out)
        }
        Entry::Unknown(cause) => {
            out.extend_from_slice(b"unknown")?;
            write_cause(*cause, out)?;
            out.push(b'\n')?;
            Ok(())
        }
    }
}

/// Appends the one text of an entry. It is the same in each version, since a lemma says whether it names an order. Where
/// memory runs out, nothing is appended.
pub fn write_entry(
    _alloc: Global,
    version: u8,
    entry: &Entry,
    out: &mut Vec<u8>,
) -> Result<(), AllocError>
    requires version { (version ≡ 1) ⊎ ((version ≡ 2) ⊎ (version ≡ 3)) }
    requires fits { FitsVersion version entry.now }
    ensures ok { OnOk result (out.new.items ≡ out.old.items ++ entry_text entry.now) }
    ensures err { OnErr result (out.new.items ≡ out.old.items) }
{
    out.reserve(text_len(version, entry) as usize)?;
    let length = out.len();
    if let Err(stop) = append_entry(entry, out) {
        out.truncate(length);
        return Err(stop);
    }
    Ok(())
}

fn order_len(order: Option<u64>) -> u64
    ensures value { result ≡ length (order_item order) }
    ensures short { result < 64 }
{
    match order {
        None => 0,
        Some(order) => number_len(order),
    }
}

/// How long a line is with its LF, or the greatest number where that is less.
#[tactic(auto, unfolding(crate::specs::Spelling::line_items))]
fn line_len(line: &CertLine) -> u64
    ensures { result ≡ min (length (line_text line.now)) (2 ^ 64 - 1) }
{
    let items = match line {
        CertLine::Assume(number) => number.text_len(),
        CertLine::Scheme(node, scheme, index) => {
            let places = scheme.text_len().saturating_add(index.text_len());
            node.text_len().saturating_add(places)
        }
        CertLine::Hinted(lits, hints) => lits.text_len().saturating_add(hints.text_len()),
        CertLine::Lemma { order, lits } => order_len(*order).saturating_add(lits.text_len()),
        CertLine::Combine(multiples) => multiples.text_len(),
        CertLine::Bits(line, chosen, polynomial, bits) => {
            let lists = polynomial.text_len().saturating_add(bits.text_len());
            let after = chosen.text_len().saturating_add(lists);
            line.text_len().saturating_add(after)
        }
        CertLine::Chain(line, variable, steps) => {
            let counts = variable.text_len().saturating_add(steps.text_len());
            line.text_len().saturating_add(counts)
        }
        CertLine::Step(quotient, remainder) => {
            quotient.text_len().saturating_add(remainder.text_len())
        }
        CertLine::Split(line, variable, zeros) => {
            let zeros = variable.text_len().saturating_add(zeros.text_len());
            line.text_len().saturating_add(zeros)
        }
        CertLine::Values(variable, trees) => variable.text_len().saturating_add(trees.text_len()),
        CertLine::Close => 0,
    };
    items.saturating_add(2)
}

fn value_len(value: &(u32, u64)) -> u64
    ensures { result ≡ min (length (value_line value.now)) (2 ^ 64 - 1) }
{
    value
        .0
        .text_len()
        .saturating_add(value.1.text_len())
        .saturating_add(2)
}

fn values_len(values: &[(u32, u64)]) -> u64
    ensures { result ≡ min (length (flat_map value_line values.now)) (2 ^ 64 - 1) }
{
    let mut total = 0u64;
    for value in values {
        total = total.saturating_add(value_len(value));
    }
    total
}

fn lines_len(lines: &[CertLine]) -> u64
    ensures { result ≡ min (length (flat_map line_text lines.now)) (2 ^ 64 - 1) }
{
    let mut total = 0u64;
    for line in lines {
        total = total.saturating_add(line_len(line));
    }
    total
}

#[tactic(auto, unfolding(crate::specs::Spelling::cause_items))]
fn cause_len(cause: Cause) -> u64
    ensures value { result ≡ length (cause_items cause) }
    ensures short { result < 512 }
{
    match cause {
        Cause::Degree => 7,
        Cause::Terms => 6,
        Cause::Steps(trials, reductions, assignments, chains) => {
            let counts = number_len(trials)
                + number_len(reductions)
                + number_len(assignments)
                + number_len(chains);
            counts + 6
        }
        Cause::Memory => 7,
    }
}

/// The length of an entry's text, or the greatest number where that is less. It takes no memory.
#[tactic(auto, unfolding(crate::specs::Spelling::entry_text))]
pub fn text_len(version: u8, entry: &Entry) -> u64
    requires version { (version ≡ 1) ⊎ ((version ≡ 2) ⊎ (version ≡ 3)) }
    requires fits { FitsVersion version entry.now }
    ensures { result ≡ min (length (entry_text entry.now)) (2 ^ 64 - 1) }
{
    match entry {
        Entry::Sat(values) => {
            let values = values.as_slice();
            let first = number_len(values.len() as u64) + 4;
            values_len(values).saturating_add(first)
        }
        Entry::UnsatCases => 8,
        Entry::UnsatSteps(lines) => {
            let lines = lines.as_slice();
            let first = number_len(clause_count(lines)) + 6;
            lines_len(lines).saturating_add(first)
        }
        Entry::Unknown(cause) => cause_len(*cause) + 8,
    }
}
