//! Trees over fewer generators, with variables in place of ranks.
use ffc_cert::{CertLine, Multiple, Sequence, Term};
use ffc_circuit::Ranking;
use ffc_mirror::{Naming, renamed, terms};
use ffc_term::NodeId;
use std::alloc::{AllocError, Global};

/// Which generators a tree uses: those of which a line is a multiple or a case, and those whose inverse occurs.
#[derive(Drop)]
pub struct Uses<'a> {
    marks: Vec<bool>,
    first_inverse: u32,
    ranking: &'a Ranking,
}

impl<'a> Uses<'a> {
    /// What a tree in ranks uses of so many generators. The inverse for the k-th generator is the variable
    /// `first_inverse + k`.
    pub fn of(
        alloc: Global,
        generators: usize,
        first_inverse: u32,
        ranking: &'a Ranking,
        tree: &[CertLine],
    ) -> Result<Self, AllocError> {
        let mut uses = Uses {
            marks: vec![in alloc; false; generators]?,
            first_inverse,
            ranking,
        };
        if let Some(CertLine::Close) = tree.first() {
            uses.mark_last();
        }
        for line in tree {
            uses.mark_line(line);
        }
        Ok(uses)
    }

    fn mark(&mut self, generator: usize) {
        if let Some(mark) = self.marks.get_mut(generator) {
            *mark = true;
        }
    }

    /// A tree that closes at once does so by its last generator.
    fn mark_last(&mut self) {
        if let Some(mark) = self.marks.last_mut() {
            *mark = true;
        }
    }

    fn mark_variable(&mut self, rank: u32) {
        let Some(variable) = self.ranking.variable(rank) else {
            return;
        };
        if let Some(place) = variable.checked_sub(self.first_inverse) {
            self.mark(place as usize);
        }
    }

    fn mark_term(&mut self, term: &Term) {
        for power in term.1.as_slice() {
            self.mark_variable(power.0);
        }
    }

    fn mark_multiple(&mut self, multiple: &Multiple) {
        self.mark(multiple.0 as usize);
        for term in multiple.1.as_slice() {
            self.mark_term(term);
        }
    }

    fn mark_line(&mut self, line: &CertLine) {
        match line {
            CertLine::Combine(multiples) => {
                for multiple in multiples.as_slice() {
                    self.mark_multiple(multiple);
                }
            }
            CertLine::Bits(line, _, polynomial, bits) => {
                self.mark(*line as usize);
                for term in polynomial.as_slice() {
                    self.mark_term(term);
                }
                for bit in bits.as_slice() {
                    self.mark(*bit as usize);
                }
            }
            CertLine::Chain(line, rank, _) | CertLine::Split(line, rank, _) => {
                self.mark(*line as usize);
                self.mark_variable(*rank);
            }
            CertLine::Values(rank, _) => self.mark_variable(*rank),
            _ => {}
        }
    }

    /// Whether a generator is used.
    pub fn has(&self, generator: usize) -> bool {
        match self.marks.get(generator) {
            Some(mark) => *mark,
            None => false,
        }
    }

    /// The numbers that lines and variables have where the other generators are left out.
    fn numbering(&self, alloc: Global) -> Result<Numbering<'a>, AllocError> {
        let mut numbers = Vec::new(alloc);
        let mut next = 0u32;
        for mark in self.marks.as_slice() {
            numbers.push(next)?;
            if *mark {
                next = next.saturating_add(1);
            }
        }
        Ok(Numbering {
            numbers,
            kept: next,
            first_inverse: self.first_inverse,
            ranking: self.ranking,
        })
    }

    /// The tree over the generators that it uses; none where a number does not fit. For each line of bits in it the ranks are
    /// given that its last numbers are for.
    pub fn renumbered(
        &self,
        alloc: Global,
        tree: Vec<CertLine>,
        sums: &[Vec<u32>],
    ) -> Result<Option<Vec<CertLine>>, AllocError> {
        let numbering = self.numbering(alloc)?;
        let mut lines = Vec::new(alloc);
        let mut left = sums;
        for line in &tree {
            let made = match line {
                CertLine::Bits(line, chosen, polynomial, bits) => {
                    let mut ranks: &[u32] = &[];
                    if let [first, rest @ ..] = left {
                        ranks = first.as_slice();
                        left = rest;
                    }
                    numbering.bits(
                        alloc,
                        *line,
                        chosen.as_slice(),
                        polynomial.as_slice(),
                        bits.as_slice(),
                        ranks,
                    )?
                }
                other => renamed(alloc, &numbering, other)?,
            };
            match made {
                Some(line) => lines.push(line)?,
                None => return Ok(None),
            }
        }
        Ok(Some(lines))
    }
}

/// New numbers of generators, of the lines after them and of the inverses, and what the variables of ranks are.
#[derive(Drop)]
struct Numbering<'a> {
    numbers: Vec<u32>,
    kept: u32,
    first_inverse: u32,
    ranking: &'a Ranking,
}

impl Naming for Numbering<'_> {
    fn node(&self, node: NodeId) -> Option<NodeId> {
        Some(node)
    }

    fn line(&self, line: u32) -> Option<u32> {
        match self.numbers.get(line as usize) {
            Some(number) => Some(*number),
            None => {
                let after = (line as usize).checked_sub(self.numbers.len())?;
                let number = (after as u64).checked_add(u64::from(self.kept))?;
                u32::try_from(number).ok()
            }
        }
    }

    fn variable(&self, rank: u32) -> Option<u32> {
        let variable = self.ranking.variable(rank)?;
        match variable.checked_sub(self.first_inverse) {
            Some(place) => match self.numbers.get(place as usize) {
                Some(number) => self.first_inverse.checked_add(*number),
                None => Some(variable),
            },
            None => Some(variable),
        }
    }
}

impl Numbering<'_> {
    /// Variables of ranks, from the lowest.
    fn increasing(
        &self,
        alloc: Global,
        ranks: &[u32],
    ) -> Result<Option<Sequence<u32>>, AllocError> {
        let mut made = Vec::new(alloc);
        for rank in ranks {
            match self.variable(*rank) {
                Some(variable) => made.push(variable)?,
                None => return Ok(None),
            }
        }
        made.sort_unstable();
        Ok(Some(Sequence::from_vec(made)))
    }

    /// The numbers of lines that are for these ranks, by the variables of these from the lowest.
    fn by_variables(
        &self,
        alloc: Global,
        lines: &[u32],
        ranks: &[u32],
    ) -> Result<Option<Sequence<u32>>, AllocError> {
        let mut pairs = Vec::new(alloc);
        for (line, rank) in lines.iter().zip(ranks) {
            match (self.variable(*rank), self.line(*line)) {
                (Some(variable), Some(number)) => pairs.push((variable, number))?,
                _ => return Ok(None),
            }
        }
        pairs.sort_unstable();
        let mut made = Vec::new(alloc);
        for pair in pairs {
            made.push(pair.1)?;
        }
        Ok(Some(Sequence::from_vec(made)))
    }

    /// A line of bits, whose last numbers are for these ranks.
    fn bits(
        &self,
        alloc: Global,
        line: u32,
        chosen: &[u32],
        polynomial: &[Term],
        bits: &[u32],
        ranks: &[u32],
    ) -> Result<Option<CertLine>, AllocError> {
        let chosen = self.increasing(alloc, chosen)?;
        let terms = terms(alloc, self, polynomial)?;
        let bits = self.by_variables(alloc, bits, ranks)?;
        match (self.line(line), chosen, terms, bits) {
            (Some(line), Some(chosen), Some(terms), Some(bits)) => {
                Ok(Some(CertLine::Bits(line, chosen, terms, bits)))
            }
            _ => Ok(None),
        }
    }
}
