//! The facts and the closed branches of a tree, as a search finds them.
use crate::facts::{BitSum, Fact, FactId, NO_FACT, PowerChain, Shown};
use crate::nodes::{Node, NodeId};
use ffc_bits::{Source, StepId};
use ffc_cert::{CertLine, Multiple, Sequence};
use ffc_line::LineId;
use std::alloc::{AllocError, Global};
use std::collections::BTreeSet;

/// How much of a tree there was.
#[derive(Clone, Copy)]
pub struct Mark {
    facts: usize,
    nodes: usize,
}

/// A tree whose branches are closed from the innermost ones on. A fact belongs to the innermost case on which it rests, so
/// branches that need the same fact share it.
#[derive(Drop)]
pub struct Tree {
    pub(crate) facts: Vec<Fact>,
    pub(crate) nodes: Vec<Node>,
    /// For each line of the stack, the fact that it is.
    lines: Vec<Option<FactId>>,
    /// And for each derived line.
    steps: Vec<Option<FactId>>,
}

impl Tree {
    /// The tree with no facts. It takes no memory.
    pub fn new(alloc: Global) -> Self {
        Tree {
            facts: Vec::new(alloc),
            nodes: Vec::new(alloc),
            lines: Vec::new(alloc),
            steps: Vec::new(alloc),
        }
    }

    /// Records a generator, which is this line of the stack, if it is one. Generators come before all other facts.
    pub fn add_generator(&mut self, line: Option<LineId>) -> Result<FactId, AllocError> {
        let number = self.push(Shown::Generator, None)?;
        if let Some(line) = line {
            self.note_line(number, line)?;
        }
        Ok(number)
    }

    /// How much there is.
    pub fn mark(&self) -> Mark {
        Mark {
            facts: self.facts.len(),
            nodes: self.nodes.len(),
        }
    }

    /// Drops what was recorded since there was so much.
    pub fn cut(&mut self, mark: Mark) {
        self.nodes.truncate(mark.nodes);
        for _ in mark.facts..self.facts.len() {
            self.drop_last();
        }
    }

    /// Drops the last fact.
    fn drop_last(&mut self) {
        let Some(fact) = self.facts.pop() else {
            return;
        };
        let number = u32::try_from(self.facts.len()).unwrap_or(NO_FACT);
        if let Some(line) = fact.line {
            take_number(&mut self.lines, line as usize, number);
        }
        if let Some(step) = fact.step {
            take_number(&mut self.steps, step, number);
        }
    }

    /// Forgets which facts the lines of the stack and the derived ones are from these numbers on.
    pub fn forget(&mut self, lines: usize, steps: usize) {
        self.lines.truncate(lines);
        self.steps.truncate(steps);
    }

    /// The fact that a line of the stack is.
    pub fn fact_of(&self, line: LineId) -> Option<FactId> {
        self.lines.get(line as usize).copied().flatten()
    }

    /// The fact that a line of the stack or a derived one is.
    pub fn fact_at(&self, source: Source) -> Option<FactId> {
        match source {
            Source::Line(line) => self.fact_of(line),
            Source::Step(step) => self.steps.get(step).copied().flatten(),
        }
    }

    /// Records the line of a case, which is this line of the stack.
    pub fn open_case(&mut self, line: LineId) -> Result<FactId, AllocError> {
        let number = u32::try_from(self.facts.len()).unwrap_or(NO_FACT);
        self.push(Shown::Case, Some(number))?;
        self.note_line(number, line)?;
        Ok(number)
    }

    /// Records a sum of multiples of facts.
    pub(crate) fn add_sum(&mut self, multiples: Vec<Multiple>) -> Result<FactId, AllocError> {
        let mut case = None;
        for multiple in multiples.as_slice() {
            case = self.innermost(case, multiple.0);
        }
        self.push(Shown::Sum(multiples), case)
    }

    /// Records what follows from a sum of bits.
    pub(crate) fn add_bits(&mut self, sum: BitSum) -> Result<FactId, AllocError> {
        let mut case = self.innermost(None, sum.line);
        for bit in sum.bits.as_slice() {
            case = self.innermost(case, *bit);
        }
        self.push(Shown::Bits(sum), case)
    }

    /// Records the power of a variable modulo a fact in that variable alone, to the order of the field, less the variable.
    pub fn add_chain(
        &mut self,
        line: FactId,
        variable: u32,
        steps: Vec<CertLine>,
    ) -> Result<FactId, AllocError> {
        let case = self.innermost(None, line);
        let chain = PowerChain {
            line,
            variable,
            steps,
        };
        self.push(Shown::Chain(chain), case)
    }

    /// The facts and the closed branches.
    pub(crate) fn into_parts(self) -> (Vec<Fact>, Vec<Node>) {
        let Tree {
            facts,
            nodes,
            lines: _,
            steps: _,
        } = self;
        (facts, nodes)
    }

    /// Notes that a fact is this line of the stack.
    pub(crate) fn note_line(&mut self, number: FactId, line: LineId) -> Result<(), AllocError> {
        if let Some(fact) = self.facts.get_mut(number as usize) {
            fact.line = Some(line);
        }
        give_number(&mut self.lines, line as usize, number)
    }

    /// Notes that a fact is this derived line, and a line of the stack, where it was pushed.
    pub fn note_step(
        &mut self,
        number: FactId,
        step: StepId,
        line: Option<LineId>,
    ) -> Result<(), AllocError> {
        if let Some(fact) = self.facts.get_mut(number as usize) {
            fact.step = Some(step);
        }
        give_number(&mut self.steps, step, number)?;
        match line {
            Some(line) => self.note_line(number, line),
            None => Ok(()),
        }
    }

    /// Closes a branch by a fact that is a constant.
    pub fn close(&mut self, fact: FactId) -> Result<NodeId, AllocError> {
        self.add_node(Node::Close(fact))
    }

    /// The cases over all roots of a fact, each by its line and closed.
    pub fn split(
        &mut self,
        fact: FactId,
        variable: u32,
        roots: Sequence<u64>,
        cases: Vec<(FactId, NodeId)>,
    ) -> Result<NodeId, AllocError> {
        self.add_node(Node::Roots {
            fact,
            variable,
            roots,
            cases,
        })
    }

    /// The cases over all values of a variable, each by its line and closed.
    pub fn split_values(
        &mut self,
        variable: u32,
        cases: Vec<(FactId, NodeId)>,
    ) -> Result<NodeId, AllocError> {
        self.add_node(Node::Values { variable, cases })
    }

    /// The lines of the cases on which a fact rests.
    pub fn cases_under(&self, alloc: Global, fact: FactId) -> Result<BTreeSet<FactId>, AllocError> {
        let mut cases = BTreeSet::new(alloc);
        let mut open = BTreeSet::new(alloc);
        open.insert(fact)?;
        for _ in 0..u64::MAX {
            let Some(number) = open.pop_last() else {
                break;
            };
            self.add_cases(alloc, number, &mut open, &mut cases)?;
        }
        Ok(cases)
    }

    /// Adds a fact to the cases, if it is one, and else what it follows from to the open facts, if it rests on a case.
    fn add_cases(
        &self,
        alloc: Global,
        number: FactId,
        open: &mut BTreeSet<FactId>,
        cases: &mut BTreeSet<FactId>,
    ) -> Result<(), AllocError> {
        let Some(fact) = self.facts.get(number as usize) else {
            return Ok(());
        };
        if fact.case.is_none() {
            return Ok(());
        }
        if fact.case == Some(number) {
            cases.insert(number)?;
            return Ok(());
        }
        for source in fact.shown.sources(alloc)? {
            open.insert(source)?;
        }
        Ok(())
    }

    /// The inner one of a case and of the innermost one on which a fact rests: later cases are inner ones.
    fn innermost(&self, case: Option<FactId>, number: FactId) -> Option<FactId> {
        let other = self.facts.get(number as usize).and_then(|fact| fact.case);
        match (case, other) {
            (Some(case), Some(other)) => Some(case.max(other)),
            (Some(case), None) => Some(case),
            (None, other) => other,
        }
    }

    /// Records a fact.
    fn push(&mut self, shown: Shown, case: Option<FactId>) -> Result<FactId, AllocError> {
        let number = u32::try_from(self.facts.len()).unwrap_or(NO_FACT);
        self.facts.push(Fact {
            shown,
            case,
            line: None,
            step: None,
        })?;
        Ok(number)
    }

    /// Adds a closed branch.
    fn add_node(&mut self, node: Node) -> Result<NodeId, AllocError> {
        let number = self.nodes.len();
        self.nodes.push(node)?;
        Ok(number)
    }
}

/// Notes a number.
fn give_number(
    numbers: &mut Vec<Option<FactId>>,
    place: usize,
    number: FactId,
) -> Result<(), AllocError> {
    if numbers.len() <= place {
        numbers.resize(place.saturating_add(1), None)?;
    }
    if let Some(known) = numbers.get_mut(place) {
        *known = Some(number);
    }
    Ok(())
}

/// Takes a number back, if it is still the one that is noted.
fn take_number(numbers: &mut Vec<Option<FactId>>, place: usize, number: FactId) {
    if let Some(known) = numbers.get_mut(place) {
        if *known == Some(number) {
            *known = None;
        }
    }
}
