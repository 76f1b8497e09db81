//! The generators that a line's parts lead to.
ghost use Rattle.std.specs.Prelude.{◌≡◌, ℕ, ◌<◌, false, length, get_or, IfOk};
ghost use Rattle.std.specs.List.{filter, range_with_len};
ghost use Rattle.ffc_line.specs.Lines.{AreLines};
ghost use Rattle.ffc_stack.specs.Marks.{IsMarked, IsMarkedBy, IsMarkedFrom, IsReachedTo, is_marked_generator};

use ffc_field::Field;
use ffc_line::{Line, LineId};
use ffc_mono::MonoOrder;
use ffc_poly::Poly;
use std::alloc::{AllocError, Global};

/// Marks a line.
fn mark(reached: &mut [bool], line: LineId)
    ensures { IsMarked line reached.old reached.new }
{
    let place = line as usize;
    if place < reached.len() {
        reached[place] = true;
    }
}

/// Marks the lines that parts name.
fn mark_parts<F: Field, O: MonoOrder>(reached: &mut [bool], parts: &[(LineId, Poly<F, O>)])
    ensures { IsMarkedBy parts.now reached.old reached.new }
{
    for number in 0..parts.len() {
        mark(reached, parts[number].0);
    }
}

/// Marks the lines that the parts of a line name, if it is marked itself.
fn mark_from<F: Field, O: MonoOrder>(reached: &mut [bool], lines: &[Line<F, O>], place: usize)
    requires within { place < length lines.now }
    requires len { length reached.old ≡ length lines.now }
    ensures { IsMarkedFrom lines.now place reached.old reached.new }
{
    if reached[place] {
        mark_parts(reached, lines[place].parts.as_slice());
    }
}

/// Marks the lines that a line leads to, in one pass downwards, since parts name earlier lines.
fn mark_below<F: Field, O: MonoOrder>(reached: &mut [bool], lines: &[Line<F, O>], line: LineId)
    requires lines { AreLines F.ORDER lines.now }
    requires len { length reached.old ≡ length lines.now }
    requires none { (h : ℕ) → get_or reached.old h false ≡ false }
    ensures { IsReachedTo lines.now line 0 reached.new }
{
    mark(reached, line);
    for place in (0..lines.len()).rev() {
        mark_from(reached, lines, place);
    }
}

/// Which lines a line leads to.
pub fn reached_from<F: Field, O: MonoOrder>(
    alloc: Global,
    lines: &[Line<F, O>],
    line: LineId,
) -> Result<Vec<bool>, AllocError>
    requires { AreLines F.ORDER lines.now }
    ensures { IfOk result (λ v. IsReachedTo lines.now line 0 v.items) }
{
    let mut reached = vec![in alloc; false; lines.len()]?;
    mark_below(reached.as_mut_slice(), lines, line);
    Ok(reached)
}

/// Whether the line at a place is a generator that is marked.
fn is_found<F: Field, O: MonoOrder>(lines: &[Line<F, O>], reached: &[bool], place: usize) -> bool
    requires within { place < length lines.now }
    requires len { length reached.now ≡ length lines.now }
    ensures { result ≡ is_marked_generator lines.now reached.now place }
{
    reached[place] && lines[place].parts.as_slice().is_empty()
}

/// The numbers of those marked lines that are generators.
pub fn generators_among<F: Field, O: MonoOrder>(
    alloc: Global,
    lines: &[Line<F, O>],
    reached: &[bool],
) -> Result<Vec<LineId>, AllocError>
    requires { length reached.now ≡ length lines.now }
    ensures { IfOk result (λ v. v.items ≡ filter (is_marked_generator lines.now reached.now)
        (range_with_len 0 (length lines.now))) }
{
    let mut numbers = Vec::new(alloc);
    for place in 0..lines.len() {
        if is_found(lines, reached, place) {
            numbers.push(place as u64)?;
        }
    }
    Ok(numbers)
}
