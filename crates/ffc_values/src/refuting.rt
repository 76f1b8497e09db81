//! Refutations by the values of variables.
ghost use Rattle.std.specs.Prelude.{◌≡◌, ◌+◌, ◌<◌, ◌≤◌, All, IfOk, length};
ghost use Rattle.ffc_rules.specs.Entries.{NodeCheck};
ghost use Rattle.ffc_refutation.specs.Given.{AreReadable, AreRight};
ghost use Rattle.ffc_values.specs.Values.{IsRefutedByValues};
ghost use Rattle.ffc_values.specs.Written as lines;

use crate::tree::values_tree;
use ffc_cert::{CertLine, Literal, Power, Sequence};
use ffc_field::Field;
use ffc_lemmatree::by_tree;
use ffc_mono::GradedReverseLex;
use ffc_poly::Poly;
use ffc_refutation::{Determined, Reason};
use std::alloc::{AllocError, Global};

/// The inverse of a disequation's sides' difference, which the line of its literal has as a factor.
fn inverse_of(alloc: Global, nodes: u32, line: u32, truth: bool) -> Result<Vec<Power>, AllocError>
    requires nodes { nodes ≤ 1048576 }
    requires line { line < 4097 }
    ensures { IfOk result (λ powers. powers.items ≡ lines.inverse_of nodes line truth) }
{
    let mut powers = Vec::new(alloc);
    if truth {
        powers.push((nodes + line, 1))?;
    }
    Ok(powers)
}

/// The refutation by reasons that force literals, and a lemma over equalities that is then false, in a table of so many nodes. Sums of
/// multiples of its first lines are the first of some variables less their values, and at these values the literal numbered `line` is
/// true, where `sides` is the difference of the sides of its equality. The tree has one line at least for each of these variables, and
/// a sum of as many multiples as the degrees of the terms of `sides` add up to.
pub fn by_values<F: Field>(
    alloc: Global,
    reasons: &[Reason],
    lits: Vec<Literal>,
    nodes: u32,
    variables: &[u32],
    mut determined: Vec<Determined>,
    line: u32,
    sides: &Poly<F, GradedReverseLex>,
) -> Result<Sequence<CertLine>, AllocError>
    requires few { length reasons.now ≤ 1048577 }
    requires nodes { nodes ≤ 1048576 }
    requires short { length lits.items ≤ 4097 }
    requires there { line < length lits.items }
    requires values { length determined.items ≤ 4096 }
    requires terms { All (λ d. length d.summands.items ≤ 4096) determined.items }
    ensures readable { IfOk result (λ lines. (c : NodeCheck)
        → IsRefutedByValues c reasons.now F.ORDER lits.items nodes variables.now determined.items line sides.now
        → AreReadable lines) }
    ensures right { IfOk result (λ lines. (c : NodeCheck)
        → IsRefutedByValues c reasons.now F.ORDER lits.items nodes variables.now determined.items line sides.now
        → AreRight c lines) }
{
    let (truth, _) = lits[line as usize];
    // There is one for each of the first variables, and none beyond them.
    determined.truncate(variables.len());
    let inverse = inverse_of(alloc, nodes, line, truth)?;
    let first = lits.len() as u32;
    let tree = values_tree(
        alloc,
        first,
        variables,
        determined,
        line,
        inverse.as_slice(),
        sides,
    )?;
    let lines = by_tree(alloc, reasons, F::ORDER, lits, tree)?;
    Ok(lines)
}
