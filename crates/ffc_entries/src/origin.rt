//! Where clauses are from.
use crate::lemma::Lemma;
use ffc_cert::CertLine;
use ffc_term::NodeId;
use std::alloc::{AllocError, Global};

/// Where a clause is from.
#[derive(Drop)]
pub enum Origin {
    /// The assertion of this number.
    Assertion(u32),
    /// A node's scheme: the node, the scheme, the index.
    Scheme(NodeId, u32, u32),
    /// A lemma, which the tree in it shows.
    Lemma(Lemma),
    /// The lemma at this place among those that are kept.
    Kept(usize),
    /// Equalities that were set aside undecided: the clause keeps the search from them, and nothing may rest on it.
    SetAside,
}

impl Origin {
    /// Whether a refutation may rest on the clause.
    pub fn is_proved(&self) -> bool {
        !matches!(self, Origin::SetAside)
    }

    /// Appends the lines of the clause, if it has some.
    pub fn append_to(self, alloc: Global, lines: &mut Vec<CertLine>) -> Result<(), AllocError> {
        match self {
            Origin::Assertion(number) => lines.push(CertLine::Assume(number))?,
            Origin::Scheme(node, scheme, index) => {
                lines.push(CertLine::Scheme(node, scheme, index))?
            }
            Origin::Lemma(lemma) => lemma.append_to(alloc, lines)?,
            Origin::Kept(_) | Origin::SetAside => {}
        }
        Ok(())
    }
}

/// Where the clauses that a refutation names are from, by number.
#[derive(Drop)]
pub struct Origins {
    /// Those of the added clauses.
    pub added: Vec<Origin>,
    /// Those of the theory's lemmas.
    pub lemmas: Vec<Origin>,
}
