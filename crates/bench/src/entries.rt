//! Judges entries of generated certificates.
ghost use Rattle.ffc_rules.specs.Laws.{IsValid};
ghost use Rattle.ffc_check.specs.Judged.{judged_check};

use crate::checks::{false_equality, is_valid, unequal_sums};
use crate::refutations;
use ffc_base::Stop;
use ffc_cert::CertReader;
use ffc_check::{CheckStop, check_entry};
use ffc_field::{Field, Goldilocks};
use ffc_term::{Check, NodeId, NodeTable, TermStop};
use std::alloc::{AllocError, Global};
use std::io;

/// The order of the field whose elements are gone through.
const SMALL_ORDER: u64 = 65_537;

/// What the checker answers.
#[derive(Drop)]
enum Answer {
    Accepted,
    Refused(u64, u8),
    None,
}

/// Judges the one entry of a certificate.
fn judged(alloc: Global, check: &Check, text: &str) -> Answer
    requires { IsValid (judged_check check.now) }
{
    let mut reader = CertReader::new(alloc, 1, false);
    if reader.feed(text.as_bytes()).is_err() {
        return Answer::None;
    }
    match reader.next_entry() {
        Ok(Some(read)) => match check_entry(alloc, check, &read.entry, 2) {
            Ok(()) => Answer::Accepted,
            Err(CheckStop::Broken(broken)) => Answer::Refused(broken.line, broken.rule),
            Err(CheckStop::Memory) => Answer::None,
        },
        _ => Answer::None,
    }
}

/// Judges it for a check over this table.
fn judged_over(
    alloc: Global,
    table: &NodeTable,
    declared: &[NodeId],
    in_force: &[NodeId],
    order: u64,
    text: &str,
) -> Answer {
    let check = Check {
        table,
        declared,
        in_force,
        first_order: order,
    };
    if !is_valid(&check) {
        return Answer::None;
    }
    judged(alloc, &check, text)
}

/// Judges a refutation of 1 = 2 over a table with so many negations of it.
fn refuted(alloc: Global, negations: u32, text: &str) -> Result<Answer, TermStop> {
    let order = Goldilocks::ORDER;
    let table = false_equality(alloc, order, negations)?;
    Ok(judged_over(alloc, &table, &[], &[2, 3], order, text))
}

/// Judges an entry by cases over a table with so many nodes and one constant.
fn enumerated(alloc: Global, nodes: u32) -> Result<Answer, TermStop> {
    let table = unequal_sums(alloc, SMALL_ORDER, nodes.saturating_sub(3))?;
    let last = table.len().saturating_sub(1);
    let text = "ffcert 2\nunsat e\n";
    Ok(judged_over(alloc, &table, &[0], &[last], SMALL_ORDER, text))
}

/// The text of a refutation.
fn text_of(alloc: Global, kind: u32, size: u32, count: u32) -> Result<String, Stop> {
    match kind {
        0 => Ok(refutations::clauses(alloc, size)?),
        1 => Ok(refutations::products(alloc, count)?),
        _ => refutations::chains(alloc, size, count),
    }
}

fn answer_to(alloc: Global, kind: u32, size: u32, count: u32) -> Answer {
    let found = if kind == 3 {
        enumerated(alloc, size)
    } else {
        match text_of(alloc, kind, size, count) {
            Ok(text) => refuted(alloc, 24, text.as_str()),
            Err(_) => Ok(Answer::None),
        }
    };
    found.unwrap_or(Answer::None)
}

/// Judges an entry: in case 0 a clause refutation over so many nodes, in case 1 `count` lines of 4,194,304 products, in case 2
/// `count` chains over a polynomial of degree `size` over Goldilocks, in case 3 one by the 65,537 values of a constant in a
/// check of `size` nodes.
pub fn run<R: Print>(rt: &R, alloc: Global, kind: u32, size: u32, count: u32) -> io::Result<()> {
    match answer_to(alloc, kind, size, count) {
        Answer::Accepted => println!(rt; "accepted"),
        Answer::Refused(line, rule) => println!(rt; "refused at line {line} by rule {rule}"),
        Answer::None => println!(rt; "no answer"),
    }
}
