//! Lines whose leading monomials divide a monomial.
ghost use Rattle.std.specs.Prelude.{◌≡◌, ◌<◌, ◌⊎◌, length, All, Some, None, IfOk, IfSome, IfNone, OnOk};
ghost use Rattle.ffc_basis.specs.Dividing.{LeadsDivisor, LeadsNoDivisor};
ghost use Rattle.ffc_basis.specs.Indexing.{IsIndexOf};
ghost use Rattle.ffc_line.specs.Lines.{polys_of};
ghost use Rattle.ffc_basis.specs.Reduction.{IsIrreducible};

use crate::index::Index;
use ffc_field::Field;
use ffc_line::Line;
use ffc_mono::{MonoOrder, MonoRef};
use std::alloc::{AllocError, Global};

/// The first of these lines whose leading monomial divides this one.
fn first_divisor<F: Field, O: MonoOrder>(
    lines: &[Line<F, O>],
    numbers: &[usize],
    m: MonoRef<'_>,
) -> Option<usize>
    requires { All (λ i. i < length lines.now) numbers.now }
    ensures some { IfSome result (LeadsDivisor F.ORDER O.cmp (polys_of lines.now) m.entry.powers.now) }
    ensures none { IfNone result (All (LeadsNoDivisor F.ORDER O.cmp (polys_of lines.now) m.entry.powers.now) numbers.now) }
{
    for number in numbers {
        if let Some(lead) = lines[*number].poly.lead() {
            if lead.1.divides(m) {
                return Some(*number);
            }
        }
    }
    None
}

/// The lesser of two numbers, where there are any.
fn lesser(a: Option<usize>, b: Option<usize>) -> Option<usize>
    ensures some { IfSome result (λ i. (a ≡ Some i) ⊎ (b ≡ Some i)) }
    ensures none { IfNone result ((a ≡ None) × (b ≡ None)) }
{
    match (a, b) {
        (Some(i), Some(j)) => Some(i.min(j)),
        (Some(i), None) => Some(i),
        (None, b) => b,
    }
}

/// The first line whose leading monomial divides a monomial.
pub(crate) fn oldest_divisor<F: Field, O: MonoOrder>(
    lines: &[Line<F, O>],
    index: &Index,
    m: MonoRef<'_>,
) -> Option<usize>
    requires { IsIndexOf F.ORDER O.cmp (polys_of lines.now) index.now }
    ensures some { IfSome result (LeadsDivisor F.ORDER O.cmp (polys_of lines.now) m.entry.powers.now) }
    ensures none { IfNone result (IsIrreducible F.ORDER O.cmp (polys_of lines.now) m.entry.powers.now) }
{
    let mut oldest = index.constant;
    for power in m.pairs() {
        let found = first_divisor(lines, index.begun_by(power.0), m);
        oldest = lesser(oldest, found);
    }
    oldest
}

/// Appends those of these lines whose leading monomials divide this one.
fn append_divisors<F: Field, O: MonoOrder>(
    lines: &[Line<F, O>],
    numbers: &[usize],
    m: MonoRef<'_>,
    found: &mut Vec<usize>,
) -> Result<(), AllocError>
    requires numbers { All (λ i. i < length lines.now) numbers.now }
    requires found { All (λ i. i < length lines.now) found.old.items }
    ensures { OnOk result (All (λ i. i < length lines.now) found.new.items) }
{
    for number in numbers {
        if let Some(lead) = lines[*number].poly.lead() {
            if lead.1.divides(m) {
                found.push(*number)?;
            }
        }
    }
    Ok(())
}

/// The lines, other than constants, whose leading monomials divide a monomial.
pub(crate) fn divisors<F: Field, O: MonoOrder>(
    alloc: Global,
    lines: &[Line<F, O>],
    index: &Index,
    m: MonoRef<'_>,
) -> Result<Vec<usize>, AllocError>
    requires { IsIndexOf F.ORDER O.cmp (polys_of lines.now) index.now }
    ensures { IfOk result (λ found. All (λ i. i < length lines.now) found.items) }
{
    let mut found = Vec::new(alloc);
    for power in m.pairs() {
        append_divisors(lines, index.begun_by(power.0), m, &mut found)?;
    }
    Ok(found)
}
