//! Cores.
ghost use Rattle.std.specs.Prelude.{◌≡◌, ℕ, ◌-◌, ◌<◌, ◌==◌, false, [], length, get_or, IfOk};
ghost use Rattle.std.specs.List.{filter, range_with_len};
ghost use Rattle.ffc_rules.specs.Cones.{is_listed};
ghost use Rattle.ffc_rules.specs.Cores.{clause_lines, reached_clauses, numbers_reached, core};

use crate::marks::{mark_hints, mark_taken, marked};
use ffc_cert::{CertLine, Entry};
use std::alloc::{AllocError, Global};

/// The numbers from 0 on, so many.
fn all_numbers(alloc: Global, count: u64) -> Result<Vec<u64>, AllocError>
    ensures { IfOk result (λ v. v.items ≡ range_with_len 0 count) }
{
    let mut out = Vec::new(alloc);
    for k in 0..count {
        out.push(k)?;
    }
    Ok(out)
}

/// How many of the lines are clauses.
fn clause_count(lines: &[CertLine]) -> usize
    ensures { result ≡ length (clause_lines lines.now) }
{
    let mut n = 0;
    for line in lines {
        if line.is_clause() {
            n += 1;
        }
    }
    n
}

/// So many marks, of which the last is set.
fn last_marked(alloc: Global, count: usize) -> Result<Vec<bool>, AllocError>
    ensures len { IfOk result (λ v. length v.items ≡ count) }
    ensures last { IfOk result (λ v. (h : ℕ) → h < count → get_or v.items h false ≡ (h == count - 1)) }
{
    let mut marks = vec![in alloc; false; count]?;
    if count > 0 {
        marks[count - 1] = true;
    }
    Ok(marks)
}

/// Marks the clauses that are reached from marked ones by hints: each line is looked at once, from the last to the first.
fn reach_all(marks: &mut [bool], lines: &[CertLine])
    requires len { length marks.old ≡ length (clause_lines lines.now) }
    requires last { (h : ℕ) → h < length marks.old → get_or marks.old h false
        ≡ is_listed (reached_clauses (length marks.old) []) h }
    ensures len { length marks.new ≡ length marks.old }
    ensures reached { (h : ℕ) → h < length marks.old → get_or marks.new h false
        ≡ is_listed (reached_clauses 0 (clause_lines lines.now)) h }
{
    let mut k = marks.len();
    let mut i = lines.len();
    while i > 0 {
        i -= 1;
        let line = &lines[i];
        if line.is_clause() {
            k -= 1;
            mark_hints(marks, k, line);
        }
    }
}

/// Which clauses are reached from the last one by hints.
fn reached(alloc: Global, lines: &[CertLine]) -> Result<Vec<bool>, AllocError>
    ensures len { IfOk result (λ v. length v.items ≡ length (clause_lines lines.now)) }
    ensures reached { IfOk result (λ v. (h : ℕ) → h < length (clause_lines lines.now) → get_or v.items h false
        ≡ is_listed (reached_clauses 0 (clause_lines lines.now)) h) }
{
    let mut marks = last_marked(alloc, clause_count(lines))?;
    reach_all(marks.as_mut_slice(), lines);
    Ok(marks)
}

/// Which numbers of an active list the marked clauses take.
fn taken(
    alloc: Global,
    lines: &[CertLine],
    marks: &[bool],
    in_force: u64,
) -> Result<Vec<bool>, AllocError>
    requires len { length marks.now ≡ length (clause_lines lines.now) }
    requires reached { (h : ℕ) → h < length (clause_lines lines.now) → get_or marks.now h false
        ≡ is_listed (reached_clauses 0 (clause_lines lines.now)) h }
    ensures len { IfOk result (λ v. length v.items ≡ in_force) }
    ensures taken { IfOk result (λ v. (a : ℕ) → a < in_force → get_or v.items a false
        ≡ is_listed (numbers_reached lines.now) a) }
{
    let mut numbers = vec![in alloc; false; in_force as usize]?;
    let mut k = 0;
    for line in lines {
        if line.is_clause() {
            if marks[k] {
                mark_taken(numbers.as_mut_slice(), line);
            }
            k += 1;
        }
    }
    Ok(numbers)
}

/// The numbers that a refutation uses.
fn core_of_lines(alloc: Global, lines: &[CertLine], in_force: u64) -> Result<Vec<u64>, AllocError>
    ensures { IfOk result (λ v. v.items ≡ filter (λ k. is_listed (numbers_reached lines.now) k)
        (range_with_len 0 in_force)) }
{
    let marks = reached(alloc, lines)?;
    let numbers = taken(alloc, lines, marks.as_slice(), in_force)?;
    marked(alloc, numbers.as_slice())
}

/// The numbers of an active list that an entry uses, where the list has so many: of a refutation those that the last
/// clause reaches by hints, of an entry by cases all. It takes time in proportion to the entry and the list.
pub fn core_of(alloc: Global, entry: &Entry, in_force: u64) -> Result<Vec<u64>, AllocError>
    ensures { IfOk result (λ v. v.items ≡ core entry.now in_force) }
{
    match entry {
        Entry::UnsatCases => all_numbers(alloc, in_force),
        Entry::UnsatSteps(lines) => core_of_lines(alloc, lines.as_slice(), in_force),
        Entry::Sat(_) => Ok(Vec::new(alloc)),
        Entry::Unknown(_) => Ok(Vec::new(alloc)),
    }
}
