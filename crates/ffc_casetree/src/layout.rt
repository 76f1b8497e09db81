//! Laying out a tree as lines of a certificate.
//!
//! Only facts that a closed branch needs are written, each where the innermost case on which it rests begins, so that all
//! branches in that case share it.
use crate::facts::{BitSum, Fact, FactId, NO_FACT, PowerChain, Shown};
use crate::nodes::{Node, NodeId};
use crate::tree::Tree;
use ffc_cert::{CertLine, Multiple, Sequence};
use std::alloc::{AllocError, Global};
use std::mem;

/// A branch that is to be written: its case, if it is not the whole tree, and how many lines stand before it.
#[derive(Clone, Copy)]
struct Visit {
    case: Option<FactId>,
    node: NodeId,
    count: u32,
}

/// What is written so far, and the order in which facts are written.
#[derive(Drop)]
struct Layout {
    alloc: Global,
    facts: Vec<Fact>,
    nodes: Vec<Node>,
    /// For each fact, whether it is needed.
    needed: Vec<bool>,
    /// The first fact that rests on no case, for each case the first one that rests on it and on no inner one, and for each
    /// fact the next one beside it.
    begin: Option<FactId>,
    first: Vec<Option<FactId>>,
    next: Vec<Option<FactId>>,
    /// For each fact its number on the present branch.
    numbers: Vec<u32>,
    written: Vec<CertLine>,
    /// For each line of bits the variables that its last numbers are for.
    sums: Vec<Vec<u32>>,
}

impl Layout {
    fn new(alloc: Global, facts: Vec<Fact>, nodes: Vec<Node>) -> Result<Self, AllocError> {
        let count = facts.len();
        Ok(Layout {
            alloc,
            facts,
            nodes,
            needed: vec![in alloc; false; count]?,
            begin: None,
            first: vec![in alloc; None; count]?,
            next: vec![in alloc; None; count]?,
            numbers: vec![in alloc; NO_FACT; count]?,
            written: Vec::new(alloc),
            sums: Vec::new(alloc),
        })
    }

    /// Marks a fact as needed.
    fn need(&mut self, fact: FactId) {
        if let Some(mark) = self.needed.get_mut(fact as usize) {
            *mark = true;
        }
    }

    /// Marks the facts by which the branches of the tree are closed.
    fn need_endings(&mut self, root: NodeId) -> Result<(), AllocError> {
        let mut open = Vec::new(self.alloc);
        open.push((NO_FACT, root))?;
        for _ in 0..u64::MAX {
            let Some((_, number)) = open.pop() else {
                break;
            };
            if let Some(node) = self.nodes.get(number) {
                node.append_cases(&mut open)?;
                if let Some(fact) = node.fact() {
                    self.need(fact);
                }
            }
        }
        Ok(())
    }

    /// Marks what a needed fact follows from, and puts it first among those of its case, if it is written.
    fn list(&mut self, number: FactId) -> Result<(), AllocError> {
        let place = number as usize;
        let Some(fact) = self.facts.get(place) else {
            return Ok(());
        };
        if !fact.shown.is_written() || self.needed.get(place).copied() != Some(true) {
            return Ok(());
        }
        let case = fact.case;
        for source in fact.shown.sources(self.alloc)? {
            self.need(source);
        }
        let after = match case {
            Some(case) => set(&mut self.first, case as usize, Some(number)),
            None => mem::replace(&mut self.begin, Some(number)),
        };
        let _ = set(&mut self.next, place, after);
        Ok(())
    }

    /// Lists the needed facts, the last one first: a fact follows from earlier ones.
    fn list_all(&mut self) -> Result<(), AllocError> {
        for place in (0..self.facts.len()).rev() {
            self.list(u32::try_from(place).unwrap_or(NO_FACT))?;
        }
        Ok(())
    }

    /// The number of a fact on the present branch.
    fn number(&self, fact: FactId) -> u32 {
        self.numbers.get(fact as usize).copied().unwrap_or(NO_FACT)
    }

    /// Gives a fact the next number.
    fn give_number(&mut self, fact: FactId, count: &mut u32) {
        if let Some(number) = self.numbers.get_mut(fact as usize) {
            *number = *count;
        }
        *count = count.saturating_add(1);
    }

    /// Multiples with the numbers of their facts.
    fn numbered(&self, mut multiples: Vec<Multiple>) -> Sequence<Multiple> {
        for multiple in multiples.iter_mut() {
            multiple.0 = self.number(multiple.0);
        }
        Sequence::from_vec(multiples)
    }

    /// Writes what follows from a sum of bits.
    fn write_bits(&mut self, sum: BitSum) -> Result<(), AllocError> {
        let BitSum {
            line,
            chosen,
            poly,
            variables,
            mut bits,
        } = sum;
        for bit in bits.iter_mut() {
            *bit = self.number(*bit);
        }
        let line = self.number(line);
        self.sums.push(variables)?;
        self.written.push(CertLine::Bits(
            line,
            Sequence::from_vec(chosen),
            poly,
            Sequence::from_vec(bits),
        ))?;
        Ok(())
    }

    /// Writes a chain with its steps.
    fn write_chain(&mut self, chain: PowerChain) -> Result<(), AllocError> {
        let PowerChain {
            line,
            variable,
            steps,
        } = chain;
        let count = u32::try_from(steps.len()).unwrap_or(u32::MAX);
        let line = self.number(line);
        self.written.push(CertLine::Chain(line, variable, count))?;
        for step in steps {
            self.written.push(step)?;
        }
        Ok(())
    }

    /// Writes a fact, and gives it the next number.
    fn write_fact(&mut self, fact: FactId, count: &mut u32) -> Result<(), AllocError> {
        let shown = match self.facts.get_mut(fact as usize) {
            Some(fact) => mem::replace(&mut fact.shown, Shown::Case),
            None => Shown::Case,
        };
        match shown {
            Shown::Generator => {}
            Shown::Case => {}
            Shown::Sum(multiples) => {
                let numbered = self.numbered(multiples);
                self.written.push(CertLine::Combine(numbered))?;
            }
            Shown::Bits(sum) => self.write_bits(sum)?,
            Shown::Chain(chain) => self.write_chain(chain)?,
        }
        self.give_number(fact, count);
        Ok(())
    }

    /// Writes the facts from one on that belong to the same case.
    fn write_facts(&mut self, first: Option<FactId>, count: &mut u32) -> Result<(), AllocError> {
        let mut turn = first;
        for _ in 0..u64::MAX {
            let Some(fact) = turn else {
                break;
            };
            self.write_fact(fact, count)?;
            turn = self.next.get(fact as usize).copied().flatten();
        }
        Ok(())
    }

    /// Writes that a branch is closed by a fact, which has to be the last line.
    fn write_close(&mut self, fact: FactId, count: u32) -> Result<(), AllocError> {
        let number = self.number(fact);
        if number != count.saturating_sub(1) {
            let mut one = Vec::new(self.alloc);
            one.push((1, Sequence::new(self.alloc)))?;
            let mut multiples = Vec::new(self.alloc);
            multiples.push((number, Sequence::from_vec(one)))?;
            self.written
                .push(CertLine::Combine(Sequence::from_vec(multiples)))?;
        }
        self.written.push(CertLine::Close)?;
        Ok(())
    }

    /// Writes the end of a branch, or that it goes on by cases, and appends these.
    fn write_end(
        &mut self,
        node: NodeId,
        count: u32,
        cases: &mut Vec<(FactId, NodeId)>,
    ) -> Result<(), AllocError> {
        let node = match self.nodes.get_mut(node) {
            Some(node) => mem::replace(node, Node::Close(NO_FACT)),
            None => Node::Close(NO_FACT),
        };
        node.append_cases(cases)?;
        match node {
            Node::Close(fact) => self.write_close(fact, count),
            Node::Roots {
                fact,
                variable,
                roots,
                cases: _cases,
            } => {
                let line = self.number(fact);
                self.written.push(CertLine::Split(line, variable, roots))?;
                Ok(())
            }
            Node::Values { variable, cases } => {
                let values = u32::try_from(cases.len()).unwrap_or(u32::MAX);
                self.written.push(CertLine::Values(variable, values))?;
                Ok(())
            }
        }
    }

    /// Writes a branch up to its cases, and lets these wait.
    fn visit(&mut self, visit: Visit, waiting: &mut Vec<Visit>) -> Result<(), AllocError> {
        let mut count = visit.count;
        let first = match visit.case {
            Some(case) => {
                self.give_number(case, &mut count);
                self.first.get(case as usize).copied().flatten()
            }
            None => self.begin,
        };
        self.write_facts(first, &mut count)?;
        let mut cases = Vec::new(self.alloc);
        self.write_end(visit.node, count, &mut cases)?;
        for (case, node) in cases {
            waiting.push(Visit {
                case: Some(case),
                node,
                count,
            })?;
        }
        Ok(())
    }

    /// Numbers the generators, which come first, and answers how many there are.
    fn number_generators(&mut self) -> u32 {
        let mut count = 0;
        for place in 0..self.facts.len() {
            match self.facts.get(place) {
                Some(fact) if matches!(fact.shown, Shown::Generator) => {}
                _ => break,
            }
            self.give_number(u32::try_from(place).unwrap_or(NO_FACT), &mut count);
        }
        count
    }

    /// Writes the whole tree.
    fn write(&mut self, root: NodeId) -> Result<(), AllocError> {
        let mut waiting = Vec::new(self.alloc);
        waiting.push(Visit {
            case: None,
            node: root,
            count: self.number_generators(),
        })?;
        for _ in 0..u64::MAX {
            let Some(visit) = waiting.pop() else {
                break;
            };
            self.visit(visit, &mut waiting)?;
        }
        Ok(())
    }
}

/// Sets what is at a place, and answers what was there.
fn set(list: &mut Vec<Option<FactId>>, place: usize, fact: Option<FactId>) -> Option<FactId> {
    match list.get_mut(place) {
        Some(known) => mem::replace(known, fact),
        None => None,
    }
}

impl Tree {
    /// The lines of the tree that a closed branch is, and for each line of bits among them the variables that its last numbers
    /// are for.
    pub fn into_lines(
        self,
        alloc: Global,
        root: NodeId,
    ) -> Result<(Vec<CertLine>, Vec<Vec<u32>>), AllocError> {
        let (facts, nodes) = self.into_parts();
        let mut layout = Layout::new(alloc, facts, nodes)?;
        layout.need_endings(root)?;
        layout.list_all()?;
        layout.write(root)?;
        let written = mem::replace(&mut layout.written, Vec::new(alloc));
        let sums = mem::replace(&mut layout.sums, Vec::new(alloc));
        Ok((written, sums))
    }
}
