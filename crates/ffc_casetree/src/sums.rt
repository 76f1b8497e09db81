//! Sums of multiples of facts, as lines of a tree.
use crate::facts::FactId;
use crate::tree::Tree;
use ffc_cert::{Multiple, Sequence, Term};
use std::alloc::{AllocError, Global};
use std::mem;

/// A line has at most so many terms in its factors, since the checker bounds the products of a line. A longer sum goes on in
/// a further line.
const MOST_TERMS: usize = 512;

/// A sum that is recorded, up to the last multiples of it.
#[derive(Drop)]
struct Sum {
    alloc: Global,
    multiples: Vec<Multiple>,
    /// How many terms their factors have.
    terms: usize,
}

impl Sum {
    fn new(alloc: Global) -> Self {
        Sum {
            alloc,
            multiples: Vec::new(alloc),
            terms: 0,
        }
    }

    /// Adds a fact times a factor.
    fn add(&mut self, tree: &mut Tree, fact: FactId, factor: Vec<Term>) -> Result<(), AllocError> {
        let mut piece = Vec::new(self.alloc);
        for term in factor {
            if self.terms >= MOST_TERMS {
                self.append(fact, mem::replace(&mut piece, Vec::new(self.alloc)))?;
                self.carry(tree)?;
            }
            piece.push(term)?;
            self.terms = self.terms.saturating_add(1);
        }
        self.append(fact, piece)
    }

    /// Appends a fact times a piece of a factor, if that has a term.
    fn append(&mut self, fact: FactId, piece: Vec<Term>) -> Result<(), AllocError> {
        if !piece.is_empty() {
            self.multiples.push((fact, Sequence::from_vec(piece)))?;
        }
        Ok(())
    }

    /// Records the sum so far as a fact, and goes on with it.
    fn carry(&mut self, tree: &mut Tree) -> Result<(), AllocError> {
        let so_far = mem::replace(&mut self.multiples, Vec::new(self.alloc));
        let number = tree.add_sum(so_far)?;
        let mut one = Vec::new(self.alloc);
        one.push((1, Sequence::new(self.alloc)))?;
        self.terms = one.len();
        self.append(number, one)
    }
}

/// Records a sum of multiples of facts, as several facts where it is long, and answers the last one.
pub fn record_sum(
    alloc: Global,
    tree: &mut Tree,
    multiples: Vec<Multiple>,
) -> Result<FactId, AllocError> {
    let mut sum = Sum::new(alloc);
    for (fact, factor) in multiples {
        sum.add(tree, fact, factor.into_vec())?;
    }
    let Sum {
        alloc: _,
        multiples,
        terms: _,
    } = sum;
    tree.add_sum(multiples)
}
