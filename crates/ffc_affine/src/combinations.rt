//! Combinations of equalities as multiples of the first lines of a tree.
use ffc_cdcl::Lit;
use ffc_cert::{Multiple, Power, Sequence, Term};
use ffc_field::Field;
use std::alloc::{AllocError, Global};

/// The polynomial of one term.
pub(crate) fn one_term(
    alloc: Global,
    coefficient: u64,
    powers: &[Power],
) -> Result<Sequence<Term>, AllocError> {
    let mut terms = Vec::new(alloc);
    let powers = Vec::from_slice(alloc, powers)?;
    terms.push((coefficient, Sequence::from_vec(powers)))?;
    Ok(Sequence::from_vec(terms))
}

/// The multiples that a combination has: those of the equalities at these places with coefficients other than 0, each times a
/// monomial. These equalities are appended, in the order of their lines.
pub(crate) fn multiples_of<F: Field>(
    alloc: Global,
    equalities: &[Lit],
    places: &[usize],
    coefficients: &[F],
    powers: &[Power],
    chosen: &mut Vec<Lit>,
) -> Result<Vec<Multiple>, AllocError> {
    let mut multiples = Vec::new(alloc);
    let mut number = 0u32;
    for (place, coefficient) in places.iter().zip(coefficients) {
        let residue = coefficient.residue();
        if let Some(equality) = equalities.get(*place) {
            if residue != 0 {
                multiples.push((number, one_term(alloc, residue, powers)?))?;
                chosen.push(*equality)?;
                number = number.saturating_add(1);
            }
        }
    }
    Ok(multiples)
}
