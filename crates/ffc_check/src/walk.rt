//! Refutations, line by line.
ghost use Rattle.std.specs.Prelude.{◌≡◌, ◌+◌, ◌<◌, ◌^◌, nat_lt, [], length, OnOk};
ghost use Rattle.std.specs.List.{list_all, AllByRecursion};
ghost use Rattle.ffc_cert.specs.declared.entries.CertLine.TheVariants as lines;
ghost use Rattle.ffc_cert.specs.Ranges.{IsLine};
ghost use Rattle.ffc_rules.specs.Entries.{limits, is_boolean, clause_given, lines_fault};
ghost use Rattle.ffc_rules.specs.Laws.{IsValid};
ghost use Rattle.ffc_check.specs.Answers.{Answers, Gives};
ghost use Rattle.ffc_check.specs.Giving.{IsGiven};
ghost use Rattle.ffc_check.specs.Judged.{judged_check};
ghost use Rattle.ffc_check.specs.Lengths.{FewLiterals};

use crate::arena::ClauseList;
use crate::assumed::Assumed;
use crate::hints::follows;
use crate::lemmas::check_lemma;
use crate::schemes::scheme_clause;
use crate::stop::{CheckStop, breaks};
use ffc_cert::{CertLine, Literal, Sequence};
use ffc_cktree::{Kept, rules};
use ffc_term::{Check, NodeId, NodeTable, Sort};
use std::alloc::Global;

/// What lines so far have given, and what is used again from line to line.
#[derive(Drop)]
pub struct Refutation<'a> {
    clauses: ClauseList,
    assumed: Assumed,
    kept: Kept<'a>,
}

/// Whether a number is that of a Boolean node.
pub fn is_boolean(table: &NodeTable, id: NodeId) -> bool
    ensures { result ≡ is_boolean table.now id }
{
    id < table.len() && table.sort_of(id) == Sort::Bool
}

/// Whether all literals are on Boolean nodes.
fn are_boolean(table: &NodeTable, literals: &[Literal]) -> bool
    ensures { result ≡ list_all (λ x. is_boolean table.now x.1) literals.now }
{
    for literal in literals {
        if !is_boolean(table, literal.1) {
            return false;
        }
    }
    true
}

/// Whether all hints name clauses, of which there are so many.
fn are_earlier(hints: &[u32], count: usize) -> bool
    ensures { result ≡ list_all (λ h. nat_lt h count) hints.now }
{
    for hint in hints {
        if *hint as usize >= count {
            return false;
        }
    }
    true
}

/// Takes an assertion or an assumption.
fn take_assumed(
    check: &Check,
    clauses: &mut ClauseList,
    line: u64,
    k: u32,
    rest: &[CertLine],
) -> Result<usize, CheckStop>
    ensures { Gives result (clause_given limits (judged_check check.now) clauses.old line (lines.Assume k) rest.now)
        (IsGiven clauses.old clauses.new rest.now) }
{
    if k as usize >= check.in_force.len() {
        return Err(breaks(rules::ASSUME, line));
    }
    clauses.push(&[(true, check.in_force[k as usize])])?;
    Ok(0)
}

/// Takes the clause of a scheme.
fn take_scheme(
    alloc: Global,
    check: &Check,
    clauses: &mut ClauseList,
    line: u64,
    at: (u32, u32, u32),
    rest: &[CertLine],
) -> Result<usize, CheckStop>
    ensures { Gives result (clause_given limits (judged_check check.now) clauses.old line (lines.Scheme at.0 at.1 at.2)
        rest.now) (IsGiven clauses.old clauses.new rest.now) }
{
    let (node, scheme, index) = at;
    if node >= check.table.len() {
        return Err(breaks(rules::REFERENCE, line));
    }
    match scheme_clause(alloc, check.table, node, scheme, index)? {
        None => Err(breaks(rules::NODE_RULE, line)),
        Some(clause) => {
            clauses.push(clause.as_slice())?;
            Ok(0)
        }
    }
}

/// Takes a clause that follows by hints.
fn take_hinted(
    check: &Check,
    state: &mut Refutation<'_>,
    line: u64,
    literals: &Sequence<Literal>,
    hints: &Sequence<u32>,
    rest: &[CertLine],
) -> Result<usize, CheckStop>
    requires nothing { state.old.assumed ≡ [] }
    ensures given { Gives result (clause_given limits (judged_check check.now) state.old.clauses line
        (lines.Hinted literals.now hints.now) rest.now) (IsGiven state.old.clauses state.new.clauses rest.now) }
    ensures nothing { OnOk result (state.new.assumed ≡ []) }
    ensures kept { state.new.kept ≡ state.old.kept }
{
    let lits = literals.as_slice();
    let numbers = hints.as_slice();
    if !are_boolean(check.table, lits) {
        return Err(breaks(rules::REFERENCE, line));
    }
    if !are_earlier(numbers, state.clauses.len()) {
        return Err(breaks(rules::REFERENCE, line));
    }
    if !follows(&state.clauses, &mut state.assumed, lits, numbers)? {
        return Err(breaks(rules::HINTS, line));
    }
    state.clauses.push(lits)?;
    Ok(0)
}

/// Takes the clause of a line, and answers how many of the lines after it belong to its tree.
fn take_clause(
    alloc: Global,
    check: &Check,
    state: &mut Refutation<'_>,
    line: u64,
    here: &CertLine,
    rest: &[CertLine],
) -> Result<usize, CheckStop>
    requires valid { IsValid (judged_check check.now) }
    requires nothing { state.old.assumed ≡ [] }
    requires kept { state.old.kept ≡ check.now.table.now }
    requires ranges { AllByRecursion IsLine rest.now }
    requires short { FewLiterals here.now }
    requires line { line + length rest.now + 1 < 2 ^ 64 }
    ensures given { Gives result (clause_given limits (judged_check check.now) state.old.clauses line here.now rest.now)
        (IsGiven state.old.clauses state.new.clauses rest.now) }
    ensures nothing { OnOk result (state.new.assumed ≡ []) }
    ensures kept { state.new.kept ≡ state.old.kept }
{
    match here {
        CertLine::Assume(k) => take_assumed(check, &mut state.clauses, line, *k, rest),
        CertLine::Scheme(node, scheme, index) => {
            let at = (*node, *scheme, *index);
            take_scheme(alloc, check, &mut state.clauses, line, at, rest)
        }
        CertLine::Hinted(literals, hints) => take_hinted(check, state, line, literals, hints, rest),
        CertLine::Lemma { order, lits } => {
            let literals = lits.as_slice();
            let kept = &mut state.kept;
            let used = check_lemma(alloc, check, kept, *order, literals, line, rest)?;
            state.clauses.push(literals)?;
            Ok(used)
        }
        _ => Err(breaks(rules::REFERENCE, line)),
    }
}

/// Judges the lines of a refutation, the first of which has this number. It keeps one list of clauses.
pub fn check_lines(
    alloc: Global,
    check: &Check,
    lines: &[CertLine],
    line: u64,
) -> Result<(), CheckStop>
    requires valid { IsValid (judged_check check.now) }
    requires ranges { AllByRecursion IsLine lines.now }
    requires short { AllByRecursion FewLiterals lines.now }
    requires first { 0 < line }
    requires line { line + length lines.now + 1 < 2 ^ 64 }
    ensures { Answers result (lines_fault limits (judged_check check.now) [] line 0 lines.now) }
{
    let mut state = Refutation {
        clauses: ClauseList::new(alloc),
        assumed: Assumed::new(alloc),
        kept: Kept::new(alloc, check.table),
    };
    let mut i = 0;
    while i < lines.len() {
        let rest = &lines[i + 1..];
        let used = take_clause(alloc, check, &mut state, line + i as u64, &lines[i], rest)?;
        i += 1 + used;
    }
    if state.clauses.ends_empty() {
        Ok(())
    } else {
        Err(breaks(rules::NOT_EMPTY, line + i as u64 - 1))
    }
}
