//! What copies are called in the table of a check and back, and entries over copies as entries for the check.
use crate::copying::number_in;
use crate::naming::{Naming, relisted, renamed};
use ffc_cert::{CertLine, Entry, Literal, Sequence};
use ffc_term::{Check, NodeId};
use std::alloc::{AllocError, Global};

/// What copies are called in the table of a check. Variables past the copies are inverses, which come after the table's nodes.
#[derive(Clone, Copy)]
pub struct Outside<'a> {
    pub(crate) theirs: &'a [NodeId],
    pub(crate) copies: u32,
    pub(crate) nodes: u32,
}

impl Naming for Outside<'_> {
    fn node(&self, node: NodeId) -> Option<NodeId> {
        self.theirs.get(node as usize).copied()
    }

    fn variable(&self, variable: u32) -> Option<u32> {
        match variable.checked_sub(self.copies) {
            Some(inverse) => self.nodes.checked_add(inverse),
            None => self.node(variable),
        }
    }

    fn line(&self, line: u32) -> Option<u32> {
        Some(line)
    }
}

/// The copies of nodes of the table of a check. Variables from a number on are inverses, which come after the copies.
#[derive(Clone, Copy)]
pub struct Inside<'a> {
    pub(crate) own: &'a [Option<NodeId>],
    pub(crate) copies: u32,
    pub(crate) first_inverse: u32,
}

impl Naming for Inside<'_> {
    fn node(&self, node: NodeId) -> Option<NodeId> {
        number_in(self.own, node)
    }

    fn variable(&self, variable: u32) -> Option<u32> {
        match variable.checked_sub(self.first_inverse) {
            Some(inverse) => self.copies.checked_add(inverse),
            None => self.node(variable),
        }
    }

    fn line(&self, line: u32) -> Option<u32> {
        Some(line)
    }
}

impl Outside<'_> {
    fn lemma(
        self,
        alloc: Global,
        order: Option<u64>,
        lits: &[Literal],
    ) -> Result<Option<CertLine>, AllocError> {
        match relisted(alloc, &self, lits)? {
            Some(lits) => Ok(Some(CertLine::Lemma { order, lits })),
            None => Ok(None),
        }
    }

    fn hinted(
        self,
        alloc: Global,
        lits: &[Literal],
        hints: Sequence<u32>,
    ) -> Result<Option<CertLine>, AllocError> {
        match relisted(alloc, &self, lits)? {
            Some(lits) => Ok(Some(CertLine::Hinted(lits, hints))),
            None => Ok(None),
        }
    }

    fn line_of(self, alloc: Global, line: CertLine) -> Result<Option<CertLine>, AllocError> {
        match line {
            CertLine::Assume(number) => Ok(Some(CertLine::Assume(number))),
            CertLine::Scheme(node, scheme, index) => Ok(
                self.node(node)
                    .map(|node| CertLine::Scheme(node, scheme, index)),
            ),
            CertLine::Hinted(lits, hints) => self.hinted(alloc, lits.as_slice(), hints),
            CertLine::Lemma { order, lits } => self.lemma(alloc, order, lits.as_slice()),
            other => renamed(alloc, &self, &other),
        }
    }

    /// The lines of a refutation; none where a copy has no name.
    fn lines(self, alloc: Global, lines: Sequence<CertLine>) -> Result<Option<Entry>, AllocError> {
        let mut made = Vec::new(alloc);
        for line in lines.into_vec() {
            match self.line_of(alloc, line)? {
                Some(line) => made.push(line)?,
                None => return Ok(None),
            }
        }
        Ok(Some(Entry::UnsatSteps(Sequence::from_vec(made))))
    }

    /// Values of the declared constants of a check: 0 where the copies have none.
    fn values(
        self,
        alloc: Global,
        check: &Check,
        known: &[(u32, u64)],
    ) -> Result<Entry, AllocError> {
        let mut listed = Vec::new(alloc);
        for pair in known {
            if let Some(node) = self.node(pair.0) {
                listed.push((node, pair.1))?;
            }
        }
        listed.sort_unstable();
        let mut pairs = Vec::new(alloc);
        let mut next = 0usize;
        for id in check.declared {
            let mut value = 0;
            if let Some(pair) = listed.get(next) {
                if pair.0 == *id {
                    value = pair.1;
                    next = next.saturating_add(1);
                }
            }
            pairs.push((*id, value))?;
        }
        Ok(Entry::Sat(Sequence::from_vec(pairs)))
    }

    /// An entry over copies as one for a check; none where a copy has no name.
    pub fn entry(
        self,
        alloc: Global,
        check: &Check,
        entry: Entry,
    ) -> Result<Option<Entry>, AllocError> {
        match entry {
            Entry::Sat(pairs) => Ok(Some(self.values(alloc, check, pairs.as_slice())?)),
            Entry::UnsatSteps(lines) => self.lines(alloc, lines),
            other => Ok(Some(other)),
        }
    }
}
