//! Copies of a circuit matched node by node: what follows from the equalities of a trail by congruence (`ffc_congruence`), with a
//! case tree that shows it.
//!
//! The tree has a line for each step that a clash rests on, the difference of two equal nodes as a sum of multiples of earlier
//! such differences (tree.rt, writing.rt), whose factors are the polynomials of single nodes (polynomials.rt). Circuits name
//! their wires, so these are short, however deep the circuit is. What is found is tested by the caller.
#![tactic(auto)]

mod grounds;
mod items;
mod monomials;
mod polynomials;
mod powers;
mod rests;
mod sums;
mod tree;
mod writing;

use crate::tree::{Kept, grounds_of, refutation_from};
use ffc_cdcl::Lit;
use ffc_congruence::{Clash, Closure};
use ffc_term::NodeTable;
use std::alloc::{AllocError, Global};
pub use tree::Refutation;

/// Equalities of a trail, of any fields, with what follows from them by congruence.
#[derive(Drop)]
pub struct Matcher<'a> {
    closure: Closure<'a>,
    /// The equalities that the last clash rested on, by themselves.
    again: Option<Closure<'a>>,
    /// What is kept from one refutation to the next.
    kept: Option<Kept>,
}

impl<'a> Matcher<'a> {
    /// No equalities of a table's nodes. It takes some lists as long as the table.
    pub fn new(alloc: Global, table: &'a NodeTable) -> Result<Matcher<'a>, AllocError> {
        Ok(Matcher {
            closure: Closure::new(alloc, table)?,
            again: None,
            kept: None,
        })
    }

    /// How many equalities there are.
    pub fn len(&self) -> usize {
        self.closure.len()
    }

    /// Forgets all equalities but the first ones. It takes no memory, and the time that what followed from the others took.
    pub fn keep(&mut self, count: usize) {
        self.closure.keep(count);
        if let Some(kept) = self.kept.as_mut() {
            kept.rests.keep(self.closure.classes.now());
        }
    }

    /// Adds an equality, with what follows from it and those before. Answers what clashes, if anything does: then further ones
    /// are only counted.
    pub fn add(&mut self, equality: Lit) -> Result<Option<Clash>, AllocError> {
        self.closure.add(equality)
    }

    /// What is kept of earlier refutations, unless it has become long.
    fn take_kept(&mut self) -> Result<Kept, AllocError> {
        match self.kept.take() {
            Some(kept) if !kept.is_long() => Ok(kept),
            _ => Kept::new(self.closure.alloc),
        }
    }

    /// The equalities that a clash rests on, added anew, and what clashes then.
    fn add_again(&mut self, equalities: &[Lit]) -> Result<Option<Clash>, AllocError> {
        if self.again.is_none() {
            let closure = Closure::new(self.closure.alloc, self.closure.table)?;
            self.again = Some(closure);
        }
        match self.again.as_mut() {
            Some(again) => again.add_all(equalities),
            None => Ok(None),
        }
    }

    /// The refutation by a clash, where it is not too long. What follows from each equality by itself leads to longer steps than
    /// what follows from all, so where there are many steps the equalities that the clash rests on are added anew, together. It
    /// takes about as long as the nodes below these take to be looked at some times.
    pub fn refutation(&mut self, clash: Clash) -> Result<Option<Refutation>, AllocError> {
        let mut kept = self.take_kept()?;
        let Some(grounds) = grounds_of(&self.closure, &mut kept.rests, clash)? else {
            self.kept = Some(kept);
            return Ok(None);
        };
        let equalities = grounds.equalities(&self.closure, clash)?;
        if !grounds.are_few(equalities.len()) {
            let again = self.add_again(equalities.as_slice())?;
            if let (Some(closure), Some(clash)) = (self.again.as_ref(), again) {
                kept.rests.keep(0);
                let (found, mut kept) = refutation_by(closure, clash, kept)?;
                kept.rests.keep(0);
                self.kept = Some(kept);
                return Ok(found);
            }
        }
        let (found, kept) = refutation_from(&self.closure, clash, equalities, grounds, kept)?;
        self.kept = Some(kept);
        Ok(found)
    }
}

/// The refutation by a clash of a closure of which nothing is kept; none where it is too long. And what is kept.
fn refutation_by(
    closure: &Closure,
    clash: Clash,
    kept: Kept,
) -> Result<(Option<Refutation>, Kept), AllocError> {
    let mut kept = kept;
    match grounds_of(closure, &mut kept.rests, clash)? {
        Some(grounds) => {
            let equalities = grounds.equalities(closure, clash)?;
            refutation_from(closure, clash, equalities, grounds, kept)
        }
        None => Ok((None, kept)),
    }
}
