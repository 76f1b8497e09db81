//! Whether a tree is read to its end from the generators.
ghost use Rattle.std.specs.Prelude.{◌≡◌, [], Ok, IfOk, IsTrue};
ghost use Rattle.ffc_trees.specs.Same.{AreSameLines};
ghost use Rattle.ffc_trees.specs.TreeLines.{limits};
ghost use Rattle.ffc_trees.specs.Trees.{tree_read};
ghost use Rattle.ffc_cktree.specs.Lines.{AreLines};
ghost use Rattle.ffc_stack.specs.Stacks.{generators};

use ffc_casetree::{are_lines, first_line};
use ffc_cert::CertLine;
use ffc_ckpoly::CkPoly;
use ffc_cktree::{TreeStop, read_tree};
use ffc_field::Field;
use ffc_line::Line;
use ffc_mono::MonoOrder;
use ffc_trees::trees_read_alike;
use std::alloc::{AllocError, Global};

/// The generators among the lines, as the checker has them.
fn first_lines<F: Field, O: MonoOrder>(
    alloc: Global,
    lines: &[Line<F, O>],
) -> Result<Vec<CkPoly<F>>, AllocError>
    ensures same { IfOk result (λ v. AreSameLines F.ORDER v.items (generators lines.now)) }
    ensures low { IfOk result (λ v. AreLines F.ORDER v.items) }
{
    let mut first = Vec::new(alloc);
    for line in lines {
        if line.parts.is_empty() {
            first.push(first_line(alloc, &line.poly)?)?;
        }
    }
    Ok(first)
}

/// Whether a tree is read to its end from the generators among the lines.
pub fn is_accepted<F: Field, O: MonoOrder>(
    alloc: Global,
    lines: &[Line<F, O>],
    tree: &[CertLine],
) -> Result<bool, AllocError>
    ensures { IfOk result (λ yes. IsTrue yes → tree_read limits F.ORDER (generators lines.now) tree.now ≡ Ok []) }
{
    if !are_lines(tree) {
        return Ok(false);
    }
    trees_read_alike();
    let first = first_lines(alloc, lines)?;
    match read_tree(alloc, first, tree) {
        Ok(count) => Ok(count == tree.len()),
        Err(TreeStop::Broken(_)) => Ok(false),
        Err(TreeStop::Memory) => Err(AllocError),
    }
}
