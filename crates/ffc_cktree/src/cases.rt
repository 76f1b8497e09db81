//! Cases: by the roots of a line in one variable, or by all values of a variable.
ghost use Rattle.std.specs.Prelude.{◌≡◌, ℕ, ◌+◌, ◌<◌, ◌≤◌, true, List, length, map, reverse, ◌++◌, ◌∷◌, [], IfOk, OnOk};
ghost use Rattle.std.specs.List.{range_with_len};
ghost use Rattle.ffc_ring.specs.Polynomial.{Terms};
ghost use Rattle.ffc_trees.specs.Normal.{degree_of};
ghost use Rattle.ffc_trees.specs.Same.{IsSameLine};
ghost use Rattle.ffc_trees.specs.TreeLines.{root_line, case_lines, split_line, values_line, are_below};
ghost use Rattle.ffc_cktree.specs.Lines.{AreLines};
ghost use Rattle.ffc_cktree.specs.Waiting.{cases_at};

use crate::rows::{are_below, are_same, elements, pair, root_product};
use crate::rules;
use crate::stop::LineStop;
use ffc_ckpoly::CkPoly;
use ffc_field::Field;
use std::alloc::{AllocError, Global};

/// The greatest order whose values are listed.
const MOST_VALUES: u64 = 17;

/// A branch that waits: so many lines of the present branch, and after them the variable less a root.
#[derive(Clone, Copy, Debug)]
pub struct Case {
    pub mark: usize,
    pub variable: u32,
    pub root: u64,
}

/// The line x - root.
pub fn root_line<F: Field>(alloc: Global, x: u32, root: u64) -> Result<CkPoly<F>, AllocError>
    requires { root < F.ORDER }
    ensures same { IfOk result (λ r. IsSameLine F.ORDER r (root_line F.ORDER x root)) }
    ensures low { IfOk result (λ r. degree_of r ≤ 1024) }
{
    let coefs = pair(alloc, F::of(u128::from(root)).neg(), F::of(1))?;
    CkPoly::from_coefficients(alloc, x, coefs.as_slice())
}

/// Tests cases by the roots of a line. Rule 12 where the line is not there; rule 7 where there is no root, a root is no
/// residue, or the line is not the product of the x - root. It costs the square of the number of roots.
pub fn split<F: Field>(
    alloc: Global,
    lines: &[CkPoly<F>],
    k: u32,
    x: u32,
    roots: &[u64],
) -> Result<(), LineStop>
    requires { AreLines F.ORDER lines.now }
    ensures kept { OnOk result (split_line F.ORDER lines.now k x roots.now
        ≡ Ok (case_lines F.ORDER lines.now x roots.now)) }
    ensures residues { OnOk result (are_below F.ORDER roots.now ≡ true) }
    ensures broken { (rule : ℕ) → result ≡ Err (LineStop.Rule rule) → split_line F.ORDER lines.now k x roots.now
        ≡ Err rule }
{
    let Some(line) = lines.get(k as usize) else {
        return Err(LineStop::Rule(rules::REFERENCE));
    };
    if roots.is_empty() || !are_below(F::ORDER, roots) {
        return Err(LineStop::Rule(rules::SPLIT));
    }
    let Some(coefs) = line.coefficients(alloc, x)? else {
        return Err(LineStop::Rule(rules::SPLIT));
    };
    if roots.len() >= coefs.len() {
        return Err(LineStop::Rule(rules::SPLIT));
    }
    let elements = elements::<F>(alloc, roots)?;
    let product = root_product(alloc, elements.as_slice())?;
    if !are_same(coefs.as_slice(), product.as_slice()) {
        return Err(LineStop::Rule(rules::SPLIT));
    }
    Ok(())
}

/// All values of a variable. Rule 7 where the field has more than 17 elements, or there are not as many cases.
pub fn values<F: Field>(alloc: Global, count: u32) -> Result<Vec<u64>, LineStop>
    ensures all { IfOk result (λ v. v.items ≡ range_with_len 0 F.ORDER) }
    ensures kept { OnOk result ((lines : List Terms) (x : ℕ) → values_line F.ORDER lines x count
        ≡ Ok (case_lines F.ORDER lines x (range_with_len 0 F.ORDER))) }
    ensures broken { (rule : ℕ) → result ≡ Err (LineStop.Rule rule) → (lines : List Terms) (x : ℕ)
        → values_line F.ORDER lines x count ≡ Err rule }
{
    if F::ORDER > MOST_VALUES || u64::from(count) != F::ORDER {
        return Err(LineStop::Rule(rules::SPLIT));
    }
    let mut all = Vec::new(alloc);
    for value in 0..F::ORDER {
        all.push(value)?;
    }
    Ok(all)
}

/// Lets the cases of these roots wait, the first of them to be opened next.
pub fn push_cases(
    waiting: &mut Vec<Case>,
    mark: usize,
    x: u32,
    roots: &[u64],
) -> Result<(), AllocError>
    ensures { OnOk result (reverse waiting.new.items ≡ cases_at mark x roots.now ++ reverse waiting.old.items) }
{
    for place in (0..roots.len()).rev() {
        waiting.push(Case {
            mark,
            variable: x,
            root: roots[place],
        })?;
    }
    Ok(())
}
