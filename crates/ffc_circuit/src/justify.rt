//! The equalities on which the truth of a check's assertions rests.
use crate::equalities::{is_equality, size_of};
use crate::truths::Truths;
use ffc_cdcl::Lit;
use ffc_term::{Node, NodeId, NodeTable, Sort};
use std::alloc::{AllocError, Global};

/// How well a child serves as the one that makes its node true or false. The least is the best.
#[derive(Clone, Copy, PartialEq, Eq, PartialOrd, Ord)]
enum Kind {
    /// It is needed in any case.
    Needed,
    /// It is no equality.
    Gate,
    /// It says that two sides are equal.
    Equal,
    /// It says that they are not, which takes a variable more.
    Unequal,
}

/// What a child costs: its kind, then the size of its sides.
#[derive(Clone, Copy, PartialEq, Eq, PartialOrd, Ord)]
struct Cost {
    kind: Kind,
    degree: u64,
    length: u64,
}

impl Cost {
    /// The cost of what has no sides.
    fn of_kind(kind: Kind) -> Cost {
        Cost {
            kind,
            degree: 0,
            length: 0,
        }
    }
}

/// What a walk did, as far as it has to be known to undo it.
#[derive(Clone, Copy)]
enum Change {
    /// The last open node became needed.
    Wanted,
    /// An open node was looked at.
    Visited(NodeId),
    /// The choice of a child was put off.
    PutOff,
    /// A choice was made.
    Chosen(NodeId),
    /// An equality was found.
    Found,
}

/// A walk from assertions down to what their truth rests on. It waits at the first node on the way that has no value, and goes on
/// from there once the trail has grown. Where literals leave the trail it undoes what it did since they came.
#[derive(Drop)]
pub struct Walk<'a> {
    alloc: Global,
    table: &'a NodeTable,
    truths: Truths,
    /// Of each node, whether it is needed.
    needed: Vec<bool>,
    /// Needed nodes to look at.
    open: Vec<NodeId>,
    /// Needed nodes for which one child is enough, to look at when nothing else is open.
    choices: Vec<NodeId>,
    /// Whether it waits for a value.
    waits: bool,
    /// The needed equalities so far that have values, in the order in which they were come upon.
    found: Vec<Lit>,
    /// What was done since it began.
    changes: Vec<Change>,
    /// For each literal of the trail, how many changes there were before it.
    marks: Vec<usize>,
}

impl<'a> Walk<'a> {
    /// A walk that begins at assertions, with no values.
    pub fn new(
        alloc: Global,
        table: &'a NodeTable,
        assertions: &[NodeId],
    ) -> Result<Walk<'a>, AllocError> {
        let mut walk = Walk {
            alloc,
            table,
            truths: Truths::new(alloc, table.len())?,
            needed: vec![in alloc; false; table.len() as usize]?,
            open: Vec::new(alloc),
            choices: Vec::new(alloc),
            waits: false,
            found: Vec::new(alloc),
            changes: Vec::new(alloc),
            marks: Vec::new(alloc),
        };
        walk.want_all(assertions)?;
        walk.changes.clear();
        Ok(walk)
    }

    /// Goes on with a trail, whose first `standing` literals are those of the trail before. Gives how many of the equalities that it
    /// had come upon stand.
    pub fn follow(&mut self, standing: usize, trail: &[Lit]) -> Result<usize, AllocError> {
        self.keep(standing)?;
        let kept = self.found.len();
        for place in self.marks.len()..trail.len() {
            self.marks.push(self.changes.len())?;
            self.truths.push(trail[place])?;
        }
        self.go_on()?;
        Ok(kept)
    }

    /// Undoes what was done since the trail had so many literals.
    fn keep(&mut self, standing: usize) -> Result<(), AllocError> {
        if let Some(before) = self.marks.get(standing).copied() {
            for _ in before..self.changes.len() {
                self.undo_last()?;
            }
            self.marks.truncate(standing);
            self.truths.keep(standing);
        }
        Ok(())
    }

    /// Undoes the last change. The lists have had what is put back, so that it takes no memory.
    fn undo_last(&mut self) -> Result<(), AllocError> {
        match self.changes.pop() {
            Some(Change::Wanted) => {
                if let Some(id) = self.open.pop() {
                    self.unmark(id);
                }
            }
            Some(Change::Visited(id)) => self.open.push(id)?,
            Some(Change::PutOff) => {
                self.choices.pop();
            }
            Some(Change::Chosen(id)) => self.choices.push(id)?,
            Some(Change::Found) => {
                self.found.pop();
            }
            None => {}
        }
        Ok(())
    }

    /// The needed equalities that it has come upon so far, with their values.
    pub fn found(&self) -> &[Lit] {
        self.found.as_slice()
    }

    /// The values so far.
    pub fn truths(&self) -> &Truths {
        &self.truths
    }

    /// Marks a node as needed, and says whether it is newly so.
    fn mark(&mut self, id: NodeId) -> bool {
        match self.needed.get_mut(id as usize) {
            Some(mark) => {
                let newly = !*mark;
                *mark = true;
                newly
            }
            None => false,
        }
    }

    fn is_needed(&self, id: NodeId) -> bool {
        match self.needed.get(id as usize) {
            Some(mark) => *mark,
            None => false,
        }
    }

    fn unmark(&mut self, id: NodeId) {
        if let Some(mark) = self.needed.get_mut(id as usize) {
            *mark = false;
        }
    }

    fn want(&mut self, id: NodeId) -> Result<(), AllocError> {
        if self.mark(id) {
            self.open.push(id)?;
            self.changes.push(Change::Wanted)?;
        }
        Ok(())
    }

    fn want_all(&mut self, ids: &[NodeId]) -> Result<(), AllocError> {
        for id in ids {
            self.want(*id)?;
        }
        Ok(())
    }

    fn has_value(&self, id: NodeId) -> bool {
        self.truths.get(id).is_some()
    }

    /// The condition and the branches of a node that has them.
    fn branching(&self, id: NodeId) -> Option<(NodeId, NodeId, NodeId)> {
        if id >= self.table.len() {
            return None;
        }
        match self.table.node(id) {
            Node::IteBool(c, a, b) => Some((*c, *a, *b)),
            Node::IteField(c, _, _) => {
                let (first, second) = self.table.branches(id);
                Some((*c, first, second))
            }
            _ => None,
        }
    }

    /// Whether a value is missing before it can go on with a node. Where a condition has no value, both branches are needed, and it
    /// waits until they have values: another literal may give the condition one before.
    fn lacks_value(&self, id: NodeId) -> bool {
        if id >= self.table.len() {
            return false;
        }
        if matches!(self.table.sort_of(id), Sort::Bool) && !self.has_value(id) {
            return true;
        }
        match self.branching(id) {
            Some((condition, then, otherwise)) => {
                !self.has_value(condition) && !(self.has_value(then) && self.has_value(otherwise))
            }
            None => false,
        }
    }

    /// Wants the condition of a node and the branch that it takes, or both branches where the condition has no value.
    fn want_branch(
        &mut self,
        condition: NodeId,
        then: NodeId,
        otherwise: NodeId,
    ) -> Result<(), AllocError> {
        match self.truths.get(condition) {
            Some(true) => self.want_all(&[condition, then]),
            Some(false) => self.want_all(&[condition, otherwise]),
            None => self.want_all(&[then, otherwise]),
        }
    }

    /// Wants all children of a gate with the value for which all count, and else puts the choice of one off.
    fn want_children(
        &mut self,
        id: NodeId,
        children: &[NodeId],
        all: bool,
    ) -> Result<(), AllocError> {
        if self.truths.get(id) == Some(all) {
            return self.want_all(children);
        }
        self.choices.push(id)?;
        self.changes.push(Change::PutOff)?;
        Ok(())
    }

    /// Notes a needed equality with its value, and wants its sides.
    fn find(&mut self, id: NodeId, left: NodeId, right: NodeId) -> Result<(), AllocError> {
        if let Some(positive) = self.truths.get(id) {
            self.found.push(Lit { node: id, positive })?;
            self.changes.push(Change::Found)?;
        }
        self.want_all(&[left, right])
    }

    /// Wants what the value of a node rests on.
    fn visit(&mut self, id: NodeId) -> Result<(), AllocError> {
        let table = self.table;
        if id >= table.len() {
            return Ok(());
        }
        if let Some((condition, then, otherwise)) = self.branching(id) {
            return self.want_branch(condition, then, otherwise);
        }
        match table.node(id) {
            Node::Not(a) | Node::Neg(a) => self.want(*a),
            Node::Iff(a, b) | Node::Xor(a, b) => self.want_all(&[*a, *b]),
            Node::Eq(a, b) => self.find(id, *a, *b),
            Node::And(ids) => self.want_children(id, ids.as_slice(), true),
            Node::Or(ids) => self.want_children(id, ids.as_slice(), false),
            Node::Add(ids) | Node::Mul(ids) | Node::Bitsum(ids) => self.want_all(ids.as_slice()),
            _ => Ok(()),
        }
    }

    /// Looks at the open node that was put there last. Says whether it went on.
    fn visit_last(&mut self, id: NodeId) -> Result<bool, AllocError> {
        if self.lacks_value(id) {
            return Ok(false);
        }
        self.open.pop();
        self.changes.push(Change::Visited(id))?;
        self.visit(id)?;
        Ok(true)
    }

    /// What a node with this value costs.
    fn cost(&self, id: NodeId, value: bool) -> Cost {
        if self.is_needed(id) {
            Cost::of_kind(Kind::Needed)
        } else if is_equality(self.table, id) {
            let kind = if value { Kind::Equal } else { Kind::Unequal };
            let (degree, length) = size_of(self.table, id);
            Cost {
                kind,
                degree,
                length,
            }
        } else {
            Cost::of_kind(Kind::Gate)
        }
    }

    /// The cost of a child: of a negation, that of what it negates, unless the negation is needed.
    fn cost_of_child(&self, id: NodeId, value: bool) -> Cost {
        match negated(self.table, id) {
            Some(inner) => {
                if self.is_needed(id) {
                    self.cost(id, value)
                } else {
                    self.cost(inner, !value)
                }
            }
            None => self.cost(id, value),
        }
    }

    /// The child of this value that costs least.
    fn best(&self, children: &[NodeId], value: bool) -> Option<NodeId> {
        let mut best: Option<(Cost, NodeId)> = None;
        for child in children {
            if self.truths.get(*child) == Some(value) {
                best = cheaper(best, (self.cost_of_child(*child, value), *child));
            }
        }
        best.map(|found| found.1)
    }

    /// The child that makes a gate what it is.
    fn choice(&self, id: NodeId) -> Option<NodeId> {
        if id >= self.table.len() {
            return None;
        }
        match self.table.node(id) {
            Node::And(ids) => self.best(ids.as_slice(), false),
            Node::Or(ids) => self.best(ids.as_slice(), true),
            _ => None,
        }
    }

    /// Wants the child that makes the gate what it is whose choice was put off last. Says whether it went on.
    fn choose_last(&mut self, id: NodeId) -> Result<bool, AllocError> {
        let Some(child) = self.choice(id) else {
            return Ok(false);
        };
        self.choices.pop();
        self.changes.push(Change::Chosen(id))?;
        self.want(child)?;
        Ok(true)
    }

    /// Goes on until nothing is open, or a value is missing. Each node is looked at once, and has its choice at most once.
    fn go_on(&mut self) -> Result<(), AllocError> {
        self.waits = false;
        for _ in 0..2 * u64::from(self.table.len()) {
            let went_on = if let Some(id) = self.open.last().copied() {
                self.visit_last(id)?
            } else if let Some(id) = self.choices.last().copied() {
                self.choose_last(id)?
            } else {
                break;
            };
            if !went_on {
                self.waits = true;
                break;
            }
        }
        Ok(())
    }

    /// Whether a value is missing.
    pub fn waits(&self) -> bool {
        self.waits
    }

    /// The equalities on which the truth of the assertions rests, with their values, in the order of their nodes; all that have a
    /// value where one is missing.
    pub fn equalities(&self) -> Result<Vec<Lit>, AllocError> {
        let mut equalities = Vec::new(self.alloc);
        if self.waits {
            for literal in self.truths.literals() {
                if is_equality(self.table, literal.node) {
                    equalities.push(*literal)?;
                }
            }
        } else {
            equalities.extend_from_slice(self.found.as_slice())?;
        }
        equalities.sort_unstable_by(|a, b| a.node.cmp(&b.node));
        Ok(equalities)
    }
}

/// The cheaper of two children, the first where they cost the same.
fn cheaper(best: Option<(Cost, NodeId)>, other: (Cost, NodeId)) -> Option<(Cost, NodeId)> {
    match best {
        Some(found) => {
            if other.0 < found.0 {
                Some(other)
            } else {
                Some(found)
            }
        }
        None => Some(other),
    }
}

/// What a node negates, if it is a negation.
fn negated(table: &NodeTable, id: NodeId) -> Option<NodeId> {
    if id >= table.len() {
        return None;
    }
    match table.node(id) {
        Node::Not(a) => Some(*a),
        _ => None,
    }
}
