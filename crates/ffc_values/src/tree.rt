//! The tree that refutes by the values of variables.
ghost use Rattle.std.specs.Prelude.{◌≡◌, ◌+◌, ◌*◌, ◌<◌, ◌≤◌, ◌^◌, ◌++◌, [], ◌∷◌, All, IfOk, OnOk, length, map};
ghost use Rattle.ffc_refutation.specs.Written.{IsNumbered};
ghost use Rattle.ffc_values.specs.Written.{next_line, known_lines, knowns_of, values_tree};

use crate::dividing::{Known, divide};
use crate::sums::Sums;
use ffc_cert::{CertLine, Power, Sequence};
use ffc_field::Field;
use ffc_mono::GradedReverseLex;
use ffc_poly::Poly;
use ffc_refutation::Determined;
use std::alloc::{AllocError, Global};

/// Writes the sum of each of the first variables, and gives their values with the lines.
fn write_knowns(
    alloc: Global,
    sums: &mut Sums,
    variables: &[u32],
    determined: Vec<Determined>,
) -> Result<Vec<Known>, AllocError>
    requires none { sums.old.pending.items ≡ [] }
    requires room { next_line sums.old + 4097 * length determined.items + 1 < 2 ^ 31 }
    requires within { length determined.items ≤ length variables.now }
    requires terms { All (λ d. length d.summands.items ≤ 4096) determined.items }
    ensures knowns { IfOk result (λ knowns. knowns.items ≡ knowns_of (next_line sums.old) variables.now determined.items) }
    ensures first { OnOk result (sums.new.first ≡ sums.old.first) }
    ensures lines { OnOk result (sums.new.lines.items ≡ sums.old.lines.items ++ known_lines (next_line sums.old) determined.items) }
    ensures pending { OnOk result (sums.new.pending.items ≡ []) }
    ensures numbered { OnOk result (All (λ d. All IsNumbered d.summands.items) determined.items) }
    ensures few { OnOk result (next_line sums.new + 1 < 2 ^ 31) }
{
    let mut knowns = Vec::new(alloc);
    let mut left = determined;
    left.reverse();
    let mut place = 0;
    while let Some(Determined { value, summands }) = left.pop() {
        let line = sums.write_sum(summands)?;
        knowns.push(Known {
            variable: variables[place],
            line,
            value,
        })?;
        place += 1;
    }
    Ok(knowns)
}

/// The tree, after so many lines: the sum of each of the first variables, and then the line of a literal less the multiples of these
/// that its polynomial is, but for its value.
pub(crate) fn values_tree<F: Field>(
    alloc: Global,
    first: u32,
    variables: &[u32],
    determined: Vec<Determined>,
    line: u32,
    inverse: &[Power],
    sides: &Poly<F, GradedReverseLex>,
) -> Result<Vec<CertLine>, AllocError>
    requires first { first ≤ 4097 }
    requires values { length determined.items ≤ 4096 }
    requires within { length determined.items ≤ length variables.now }
    requires terms { All (λ d. length d.summands.items ≤ 4096) determined.items }
    ensures lines { IfOk result (λ lines. lines.items
        ≡ values_tree F.ORDER first variables.now determined.items line inverse.now sides.now) }
    ensures numbered { OnOk result (All (λ d. All IsNumbered d.summands.items) determined.items) }
{
    let mut sums = Sums::new(alloc, first);
    let knowns = write_knowns(alloc, &mut sums, variables, determined)?;
    sums.add(line, (1, Sequence::new(alloc)))?;
    divide(&mut sums, knowns.as_slice(), sides, inverse)?;
    let lines = sums.close()?;
    Ok(lines)
}
