//! Sums over ids or classes, with residues as coefficients.
use crate::arithmetic::{product, sum};
use std::alloc::{AllocError, Global};

/// A constant and coefficients of classes in increasing order, none of which is 0; or the residue of a product and exponents of
/// classes in increasing order.
pub type Form = (u64, Vec<(u32, u64)>);

/// A sum of ids with coefficients and a constant that is 0, wherever some ids have their values.
#[derive(Drop)]
pub struct Relation {
    pub terms: Vec<(u32, u64)>,
    pub constant: u64,
}

/// The terms in increasing order, those of one id as one, without those that are 0.
pub fn merged(
    alloc: Global,
    mut terms: Vec<(u32, u64)>,
    p: u64,
) -> Result<Vec<(u32, u64)>, AllocError> {
    terms.sort_unstable();
    let mut found = Vec::new(alloc);
    let mut last: Option<(u32, u64)> = None;
    for (id, coefficient) in &terms {
        last = match last {
            Some((before, so_far)) if before == *id => {
                Some((before, sum(so_far, *coefficient, p)))
            }
            _ => {
                push_nonzero(&mut found, last)?;
                Some((*id, *coefficient))
            }
        };
    }
    push_nonzero(&mut found, last)?;
    Ok(found)
}

/// Appends a term, unless it is 0.
fn push_nonzero(found: &mut Vec<(u32, u64)>, term: Option<(u32, u64)>) -> Result<(), AllocError> {
    if let Some((id, coefficient)) = term {
        if coefficient != 0 {
            found.push((id, coefficient))?;
        }
    }
    Ok(())
}

/// A form without a class, times a factor.
pub fn said(
    alloc: Global,
    form: &Form,
    but: Option<u32>,
    factor: u64,
    p: u64,
) -> Result<Form, AllocError> {
    let mut terms = Vec::new(alloc);
    for (class, coefficient) in &form.1 {
        if Some(*class) != but {
            terms.push((*class, product(*coefficient, factor, p)))?;
        }
    }
    Ok((product(form.0, factor, p), terms))
}
