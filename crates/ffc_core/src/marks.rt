//! What a line of a refutation marks.
ghost use Rattle.std.specs.Prelude.{◌≡◌, ℕ, ◌<◌, ◌||◌, false, length, get_or, if◌then◌else◌, IfOk};
ghost use Rattle.std.specs.List.{filter, range_with_len};
ghost use Rattle.ffc_rules.specs.Cones.{is_listed};
ghost use Rattle.ffc_rules.specs.Cores.{hints_of, taken_by};

use ffc_cert::CertLine;
use std::alloc::{AllocError, Global};

/// Marks the clauses of these numbers.
fn mark_all(marks: &mut [bool], numbers: &[u32])
    ensures marked { (h : ℕ) → h < length marks.old → get_or marks.new h false
        ≡ (is_listed numbers.now h || get_or marks.old h false) }
    ensures len { length marks.new ≡ length marks.old }
{
    for number in numbers {
        let h = *number as usize;
        if h < marks.len() {
            marks[h] = true;
        }
    }
}

/// Marks the clauses that the clause of this number cites, if it is marked itself.
pub fn mark_hints(marks: &mut [bool], k: usize, line: &CertLine)
    requires { k < length marks.old }
    ensures marked { (h : ℕ) → h < length marks.old → get_or marks.new h false
        ≡ (if get_or marks.old k false then is_listed (hints_of line.now) h || get_or marks.old h false else get_or
        marks.old h false) }
    ensures len { length marks.new ≡ length marks.old }
{
    if marks[k] {
        match line {
            CertLine::Hinted(_, hints) => mark_all(marks, hints.as_slice()),
            _ => {}
        }
    }
}

/// Marks the number that a clause takes from the active list.
pub fn mark_taken(numbers: &mut [bool], line: &CertLine)
    ensures marked { (a : ℕ) → a < length numbers.old → get_or numbers.new a false
        ≡ (is_listed (taken_by line.now) a || get_or numbers.old a false) }
    ensures len { length numbers.new ≡ length numbers.old }
{
    match line {
        CertLine::Assume(k) => {
            let a = *k as usize;
            if a < numbers.len() {
                numbers[a] = true;
            }
        }
        _ => {}
    }
}

/// The marked numbers, in increasing order.
pub fn marked(alloc: Global, marks: &[bool]) -> Result<Vec<u64>, AllocError>
    ensures { IfOk result (λ v. v.items ≡ filter (λ k. get_or marks.now k false)
        (range_with_len 0 (length marks.now))) }
{
    let mut out = Vec::new(alloc);
    for i in 0..marks.len() {
        if marks[i] {
            out.push(i as u64)?;
        }
    }
    Ok(out)
}
