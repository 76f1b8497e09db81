//! Cuts of gates: a few bits by which the output of a gate is said, through the gates between (Cong and Ding 1994).
use crate::gates::{MOST_INPUTS, is_one, value_at, variables_of};
use ffc_field::Field;
use ffc_line::Line;
use ffc_mono::MonoOrder;
use std::alloc::{AllocError, Global};
use std::collections::BTreeMap;

/// A cut has at most so many leaves.
const MOST_LEAVES: usize = 3;

/// How many choices of their values there are.
pub const CHOICES: u64 = 8;

/// A gate has at most so many cuts.
const MOST_CUTS: usize = 12;

/// The leaves of a cut in increasing order, and the value of the output at each choice of their values, by the number that has
/// these as its binary digits.
pub struct Cut {
    pub leaves: Vec<u32>,
    pub table: u64,
}

impl Drop for Cut {
    fn drop(self) {
        let Cut {
            leaves: _,
            table: _,
        } = self;
    }
}

/// The cuts of the gates.
pub type Cuts = BTreeMap<u32, Vec<Cut>>;

/// The leaves of two cuts, if these are not too many.
fn merged(alloc: Global, a: &[u32], b: &[u32]) -> Result<Option<Vec<u32>>, AllocError> {
    let mut leaves = Vec::new(alloc);
    leaves.extend_from_slice(a)?;
    for x in b {
        if !leaves.contains(x) {
            leaves.push(*x)?;
        }
    }
    if leaves.len() > MOST_LEAVES {
        return Ok(None);
    }
    leaves.sort_unstable();
    Ok(Some(leaves))
}

/// Adds a cut's leaves to a list where they are new.
fn add_leaves(list: &mut Vec<Vec<u32>>, leaves: Vec<u32>) -> Result<(), AllocError> {
    let is_known = list
        .iter()
        .any(|known| known.as_slice() == leaves.as_slice());
    if !is_known && list.len() < MOST_CUTS {
        list.push(leaves)?;
    }
    Ok(())
}

/// Adds what leaves are with those of cuts.
fn add_merged(
    alloc: Global,
    list: &mut Vec<Vec<u32>>,
    leaves: &[u32],
    cuts: Option<&Vec<Cut>>,
) -> Result<(), AllocError> {
    if let Some(cuts) = cuts {
        for cut in cuts {
            if let Some(found) = merged(alloc, leaves, cut.leaves.as_slice())? {
                add_leaves(list, found)?;
            }
        }
    }
    Ok(())
}

/// The leaves of the cuts of a gate with these inputs.
pub fn leaves_of(alloc: Global, inputs: &[u32], cuts: &Cuts) -> Result<Vec<Vec<u32>>, AllocError> {
    let mut list = Vec::new(alloc);
    list.push(Vec::new(alloc))?;
    for x in inputs {
        let mut longer = Vec::new(alloc);
        for leaves in &list {
            if let Some(found) = merged(alloc, leaves.as_slice(), &[*x])? {
                add_leaves(&mut longer, found)?;
            }
            add_merged(alloc, &mut longer, leaves.as_slice(), cuts.get(x))?;
        }
        list = longer;
    }
    Ok(list)
}

/// The value of a bit at a choice of the values of leaves, if they say it.
pub fn value_by(cuts: &Cuts, leaves: &[u32], x: u32, choice: u64) -> Option<bool> {
    if leaves.contains(&x) {
        return Some(is_one(leaves, x, choice));
    }
    for cut in cuts.get(&x)? {
        if cut.leaves.iter().all(|leaf| leaves.contains(leaf)) {
            let mut own = 0u64;
            for (k, leaf) in cut.leaves.iter().enumerate() {
                if is_one(leaves, *leaf, choice) {
                    own |= 1u64.checked_shl(u32::try_from(k).ok()?)?;
                }
            }
            return Some(cut.table.checked_shr(u32::try_from(own).ok()?)? % 2 == 1);
        }
    }
    None
}

/// The values of a gate's output at the choices of the values of leaves, if they say it.
pub fn table_of<F: Field, O: MonoOrder>(
    line: &Line<F, O>,
    output: u32,
    inputs: &[u32],
    leaves: &[u32],
    cuts: &Cuts,
) -> Option<u64> {
    let mut table = 0u64;
    for choice in 0..CHOICES {
        let mut own = 0u64;
        for (k, x) in inputs.iter().enumerate() {
            if value_by(cuts, leaves, *x, choice)? {
                own |= 1u64.checked_shl(u32::try_from(k).ok()?)?;
            }
        }
        match value_at(&line.poly, output, inputs, own)?.residue() {
            0 => {}
            1 => table |= 1u64.checked_shl(u32::try_from(choice).ok()?)?,
            _ => return None,
        }
    }
    Some(table)
}

/// The inputs of a gate: the variables of its line but its output.
pub fn inputs_of<F: Field, O: MonoOrder>(
    alloc: Global,
    line: &Line<F, O>,
    output: u32,
) -> Result<Vec<u32>, AllocError> {
    let mut inputs = Vec::new(alloc);
    for x in variables_of(alloc, &line.poly)? {
        if x != output {
            inputs.push(x)?;
        }
    }
    Ok(inputs)
}

/// Adds the cuts of a gate, whose inputs that are outputs of gates have theirs.
pub fn add_cuts<F: Field, O: MonoOrder>(
    alloc: Global,
    line: &Line<F, O>,
    output: u32,
    cuts: &mut Cuts,
) -> Result<(), AllocError> {
    let inputs = inputs_of(alloc, line, output)?;
    if inputs.len() > MOST_INPUTS {
        return Ok(());
    }
    let mut found = Vec::new(alloc);
    for leaves in leaves_of(alloc, inputs.as_slice(), cuts)? {
        if let Some(table) = table_of(line, output, inputs.as_slice(), leaves.as_slice(), cuts) {
            found.push(Cut { leaves, table })?;
        }
    }
    cuts.insert(output, found)?;
    Ok(())
}
