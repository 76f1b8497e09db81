//! Refutations by the roots of polynomials in one variable.
ghost use Rattle.std.specs.Prelude.{◌≡◌, ◌+◌, ◌≤◌, ◌++◌, length, map, IfOk};
ghost use Rattle.ffc_clause.specs.Clauses.{plus, minus};
ghost use Rattle.ffc_rules.specs.Entries.{NodeCheck};
ghost use Rattle.ffc_refutation.specs.Given.{AreReadable, AreRight};
ghost use Rattle.ffc_lemmatree.specs.Roots.{IsRefutedByRoots};
ghost use Rattle.ffc_lemmatree.specs.Written.{single_tree, IsLow, IsNormalStep, IsNormalEnding};
ghost use Rattle.std.specs.Prelude.{All};

use crate::cases::CaseNumbers;
use crate::endings::{Ending, EuclidStep};
use crate::euclid::{euclid_lines, last_divisor};
use crate::fitting::fits;
use crate::roots::ending_lines;
use crate::tree::by_tree;
use ffc_cert::{CertLine, Literal, Sequence};
use ffc_field::Field;
use ffc_refutation::Reason;
use ffc_term::NodeId;
use std::alloc::{AllocError, Global};

/// The literals of the lemma: no equation holds, or some disequation does not.
fn literals_of(
    alloc: Global,
    equations: &[NodeId],
    disequations: &[NodeId],
) -> Result<Vec<Literal>, AllocError>
    ensures { IfOk result (λ lits. lits.items ≡ map minus equations.now ++ map plus disequations.now) }
{
    let mut lits = Vec::new(alloc);
    for equation in equations {
        lits.push((false, *equation))?;
    }
    for disequation in disequations {
        lits.push((true, *disequation))?;
    }
    Ok(lits)
}

/// The tree, where so many first lines are of equations, and then so many of disequations.
fn single_tree<F: Field>(
    alloc: Global,
    nodes: u32,
    x: NodeId,
    equations: u32,
    disequations: u32,
    start: u32,
    steps: &[EuclidStep<F>],
    ending: &Ending<F>,
) -> Result<Vec<CertLine>, AllocError>
    requires low { IsLow nodes disequations steps.now ending.now }
    requires short { equations + disequations ≤ 8192 }
    ensures lines { IfOk result (λ lines. lines.items
        ≡ single_tree F.ORDER x nodes equations disequations start steps.now ending.now) }
    ensures steps { IfOk result (λ lines. All (IsNormalStep F.ORDER) steps.now) }
    ensures ending { IfOk result (λ lines. IsNormalEnding F.ORDER ending.now) }
{
    let first = equations + disequations;
    let mut lines = euclid_lines(alloc, x, start, first, steps)?;
    let last = last_divisor(start, first, steps.len());
    let next = first + steps.len() as u32;
    let numbers = CaseNumbers {
        variable: x,
        first_line: equations,
        first_inverse: nodes + equations,
        root_line: next + 2,
    };
    let mut end = ending_lines(alloc, last, next, numbers, disequations, ending)?;
    lines.append(&mut end)?;
    Ok(lines)
}

/// The refutation by reasons that force equations and disequations over one constant, where the equations have no common root at
/// which no disequation is false. The equations' common divisor is the last of the steps of Euclid's algorithm, from the
/// polynomial of the equation at the place `start` on. Where something does not fit the checker's
/// limits, the lines are no refutation.
pub fn by_roots<F: Field>(
    alloc: Global,
    reasons: &[Reason],
    nodes: u32,
    variable: NodeId,
    equations: &[NodeId],
    disequations: &[NodeId],
    start: u32,
    steps: &[EuclidStep<F>],
    ending: Ending<F>,
) -> Result<Sequence<CertLine>, AllocError>
    requires few { length reasons.now ≤ 1048577 }
    requires short { length equations.now + length disequations.now ≤ 8192 }
    ensures readable { IfOk result (λ lines. (c : NodeCheck)
        → IsRefutedByRoots c F.ORDER reasons.now nodes variable equations.now disequations.now start steps.now ending
        → AreReadable lines) }
    ensures right { IfOk result (λ lines. (c : NodeCheck)
        → IsRefutedByRoots c F.ORDER reasons.now nodes variable equations.now disequations.now start steps.now ending
        → AreRight c lines) }
{
    let lits = literals_of(alloc, equations, disequations)?;
    let count = disequations.len() as u32;
    let tree = if fits(nodes, count, steps, &ending) {
        single_tree(
            alloc,
            nodes,
            variable,
            equations.len() as u32,
            count,
            start,
            steps,
            &ending,
        )?
    } else {
        Vec::new(alloc)
    };
    by_tree(alloc, reasons, F::ORDER, lits, tree)
}
