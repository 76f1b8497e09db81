//! Lemmas: clauses over equalities of one field, with the case trees that show them.
use crate::renumber::Uses;
use ffc_cdcl::{Lit, Literals};
use ffc_cert::{CertLine, Sequence};
use ffc_circuit::Ranking;
use std::alloc::{AllocError, Global};

/// Equalities of one field that do not hold together, and the tree that shows it.
#[derive(Drop)]
pub struct Lemma {
    /// The order of their field.
    pub order: u64,
    /// The clause: their negations.
    pub lits: Literals,
    /// The lines of the certificate that close the case tree over their generators.
    pub tree: Vec<CertLine>,
}

/// The negations of the equalities whose generators are used.
fn negations(alloc: Global, equalities: &[Lit], uses: &Uses) -> Result<Literals, AllocError> {
    let mut lits = Literals::new(alloc);
    for (k, equality) in equalities.iter().enumerate() {
        if uses.has(k) {
            lits.push(equality.negated())?;
        }
    }
    Ok(lits)
}

impl Lemma {
    /// The lemma that a tree in ranks shows of equalities, of which the first ones are its generators: just those that it uses
    /// are named. For each line of bits in it the ranks are given that its last numbers are for. None where a number does not
    /// fit.
    pub fn of(
        alloc: Global,
        order: u64,
        equalities: &[Lit],
        first_inverse: u32,
        ranking: &Ranking,
        tree: Vec<CertLine>,
        sums: &[Vec<u32>],
    ) -> Result<Option<Self>, AllocError> {
        let uses = Uses::of(
            alloc,
            equalities.len(),
            first_inverse,
            ranking,
            tree.as_slice(),
        )?;
        let lits = negations(alloc, equalities, &uses)?;
        match uses.renumbered(alloc, tree, sums)? {
            Some(tree) => Ok(Some(Lemma { order, lits, tree })),
            None => Ok(None),
        }
    }

    /// Appends the lemma's line and its tree.
    pub fn append_to(self, alloc: Global, lines: &mut Vec<CertLine>) -> Result<(), AllocError> {
        let Lemma { order, lits, tree } = self;
        lines.push(CertLine::Lemma {
            order: Some(order),
            lits: listed(alloc, lits.as_slice())?,
        })?;
        for line in tree {
            lines.push(line)?;
        }
        Ok(())
    }
}

/// Literals as a certificate has them.
pub fn listed(alloc: Global, lits: &[Lit]) -> Result<Sequence<(bool, u32)>, AllocError> {
    let mut items = Vec::new(alloc);
    for literal in lits {
        items.push((literal.positive, literal.node))?;
    }
    Ok(Sequence::from_vec(items))
}
