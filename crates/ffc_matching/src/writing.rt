//! Sums of multiples of lines, as lines of a tree.
use crate::monomials::Monomials;
use crate::sums::Sum;
use ffc_cert::{CertLine, Multiple, Sequence, Term};
use ffc_congruence::product;
use std::alloc::{AllocError, Global};

/// A line has at most so many terms in its factors, and these with the terms of their lines so many products: the checker
/// bounds both. A longer sum goes on in a further line.
const MOST_TERMS: usize = 512;

const MOST_PRODUCTS: u64 = 2_000_000;

/// So many terms a line is taken to have of which it is not known.
const UNKNOWN_LENGTH: u64 = 65_536;

/// The lines of a tree that were written. The first lines of the tree are its generators, which are not.
#[derive(Drop)]
pub struct Lines {
    alloc: Global,
    written: Vec<CertLine>,
    /// How many terms each line of the tree has at most.
    lengths: Vec<u64>,
}

/// The line that is written, up to its last multiples so far.
#[derive(Drop)]
struct Line {
    multiples: Vec<Multiple>,
    terms: usize,
    products: u64,
}

impl Lines {
    /// No lines.
    pub fn new(alloc: Global) -> Lines {
        Lines {
            alloc,
            written: Vec::new(alloc),
            lengths: Vec::new(alloc),
        }
    }

    /// Numbers the next line of the tree, which has so many terms at most.
    pub fn place(&mut self, length: u64) -> Result<u32, AllocError> {
        let number = u32::try_from(self.lengths.len()).unwrap_or(u32::MAX);
        self.lengths.push(length)?;
        Ok(number)
    }

    fn length(&self, line: u32) -> u64 {
        match self.lengths.get(line as usize) {
            Some(length) => *length,
            None => UNKNOWN_LENGTH,
        }
    }

    /// Writes the line that was begun.
    fn flush(&mut self, begun: &mut Line, length: u64) -> Result<u32, AllocError> {
        let multiples = std::mem::replace(&mut begun.multiples, Vec::new(self.alloc));
        self.written
            .push(CertLine::Combine(Sequence::from_vec(multiples)))?;
        begun.terms = 0;
        begun.products = 0;
        self.place(length)
    }

    /// Adds a line times a term, which so many terms of the same line follow at most.
    fn add_term(
        &mut self,
        begun: &mut Line,
        line: u32,
        term: Term,
        more: usize,
    ) -> Result<(), AllocError> {
        if begun.terms >= MOST_TERMS || begun.products >= MOST_PRODUCTS {
            let before = self.flush(begun, UNKNOWN_LENGTH)?;
            begun.push(self.alloc, before, (1, Sequence::new(self.alloc)), 0)?;
            begun.products = UNKNOWN_LENGTH;
        }
        begun.products = begun.products.saturating_add(self.length(line));
        begun.push(self.alloc, line, term, more)
    }

    /// Writes a sum times a constant, in several lines where it is long, and answers the number of the last one, which has so
    /// many terms at most.
    pub fn write(
        &mut self,
        sum: &Sum,
        monomials: &Monomials,
        scale: u64,
        length: u64,
        p: u64,
    ) -> Result<u32, AllocError> {
        let groups = groups_of(sum.terms.as_slice());
        let mut begun = Line {
            multiples: Vec::with_capacity(self.alloc, groups.min(MOST_TERMS))?,
            terms: 0,
            products: 0,
        };
        let mut left = sum.terms.as_slice();
        let mut last = None;
        for (line, monomial, value) in &sum.terms {
            let mut more = 0;
            if let [_, rest @ ..] = left {
                left = rest;
            }
            if last != Some(*line) {
                last = Some(*line);
                more = count_of(left, *line).min(MOST_TERMS);
            }
            let powers = monomials.powers(*monomial).to_vec(self.alloc)?;
            let term = (product(*value, scale, p), Sequence::from_vec(powers));
            self.add_term(&mut begun, *line, term, more)?;
        }
        self.flush(&mut begun, length)
    }

    /// The lines, closed by the last one.
    pub fn closed(self) -> Result<Vec<CertLine>, AllocError> {
        let Lines {
            alloc,
            written,
            lengths: _,
        } = self;
        // They are kept for long, so without memory that is not used.
        let mut lines = Vec::with_capacity(alloc, written.len().saturating_add(1))?;
        for line in written {
            lines.push(line)?;
        }
        lines.push(CertLine::Close)?;
        Ok(lines)
    }
}

impl Line {
    /// Appends a line times a term, which so many terms of the same line follow.
    fn push(
        &mut self,
        alloc: Global,
        line: u32,
        term: Term,
        more: usize,
    ) -> Result<(), AllocError> {
        self.terms = self.terms.saturating_add(1);
        if let Some(last) = self.multiples.last_mut() {
            if last.0 == line {
                return last.1.push(term);
            }
        }
        let mut terms = Vec::with_capacity(alloc, more.saturating_add(1))?;
        terms.push(term)?;
        self.multiples.push((line, Sequence::from_vec(terms)))?;
        Ok(())
    }
}

/// How many terms of this line come first.
fn count_of(terms: &[(u32, u32, u64)], line: u32) -> usize {
    let mut count = 0usize;
    for term in terms {
        if term.0 != line {
            break;
        }
        count = count.saturating_add(1);
    }
    count
}

/// How many lines there are, where the terms of each stand together.
fn groups_of(terms: &[(u32, u32, u64)]) -> usize {
    let mut count = 0usize;
    let mut last = None;
    for (line, _, _) in terms {
        if last != Some(*line) {
            count = count.saturating_add(1);
        }
        last = Some(*line);
    }
    count
}
