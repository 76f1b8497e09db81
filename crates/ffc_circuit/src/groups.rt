//! Equalities in groups that share no variable.
use crate::generators::Generator;
use crate::occurrences::Occurrences;
use ffc_cdcl::Lit;
use ffc_field::Field;
use std::alloc::{AllocError, Global};

/// Gives a polynomial the number of a group, and all that are linked to it by shared variables.
fn label_from(
    occurrences: &mut Occurrences,
    labels: &mut Vec<Option<usize>>,
    open: &mut Vec<usize>,
    number: usize,
) -> Result<(), AllocError> {
    for _ in 0..u64::MAX {
        let Some(place) = open.pop() else {
            break;
        };
        if let Some(label) = labels.get_mut(place) {
            if label.is_none() {
                *label = Some(number);
                occurrences.append_neighbours(place, open)?;
            }
        }
    }
    Ok(())
}

/// For each polynomial the number of its group, and how many groups there are.
fn labels_of<F: Field>(
    alloc: Global,
    polys: &[Generator<F>],
) -> Result<(Vec<Option<usize>>, usize), AllocError> {
    let mut occurrences = Occurrences::new(alloc);
    for poly in polys {
        occurrences.add(alloc, poly)?;
    }
    let mut labels = vec![in alloc; None; polys.len()]?;
    let mut open = Vec::new(alloc);
    let mut count = 0usize;
    for place in 0..polys.len() {
        if let Some(None) = labels.get(place) {
            open.push(place)?;
            label_from(&mut occurrences, &mut labels, &mut open, count)?;
            count = count.saturating_add(1);
        }
    }
    Ok((labels, count))
}

/// Whether all equalities at these places hold.
fn hold(equalities: &[Lit], places: &[usize]) -> bool {
    for place in places {
        if let Some(equality) = equalities.get(*place) {
            if !equality.positive {
                return false;
            }
        }
    }
    true
}

/// The groups, those first in which some equalities do not hold.
fn contradictory_first(
    alloc: Global,
    equalities: &[Lit],
    groups: Vec<Vec<usize>>,
) -> Result<Vec<Vec<usize>>, AllocError> {
    let mut first = Vec::new(alloc);
    let mut later = Vec::new(alloc);
    for group in groups {
        if hold(equalities, group.as_slice()) {
            later.push(group)?;
        } else {
            first.push(group)?;
        }
    }
    for group in later {
        first.push(group)?;
    }
    Ok(first)
}

/// The places of equalities, of which these are the differences of the sides, in groups that share no variable. Groups in which
/// some do not hold come first: a contradiction rather lies there. Within a group the order stays.
pub fn groups_of<F: Field>(
    alloc: Global,
    equalities: &[Lit],
    polys: &[Generator<F>],
) -> Result<Vec<Vec<usize>>, AllocError> {
    let (labels, count) = labels_of(alloc, polys)?;
    let mut groups: Vec<Vec<usize>> = Vec::new(alloc);
    for _ in 0..count {
        groups.push(Vec::new(alloc))?;
    }
    for (place, label) in labels.iter().enumerate() {
        if let Some(label) = label {
            if let Some(group) = groups.get_mut(*label) {
                group.push(place)?;
            }
        }
    }
    contradictory_first(alloc, equalities, groups)
}
