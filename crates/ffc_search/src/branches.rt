//! Branches: cases by the values of a variable, each a level of the stack.
//!
//! A branch that is closed rests on some of the cases that are open, and closes the innermost of them. The cases inside of that
//! one are left, with all that was closed in them (backjumping; Marques-Silva and Sakallah 1999). When all cases of a variable
//! are closed, the branch in which they were made is closed, and rests on what they rest on beside themselves.
ghost use Rattle.std.specs.Prelude.{◌≡◌, ℕ};
ghost use Rattle.ffc_base.specs.Metering.{Metered};
ghost use Rattle.ffc_search.specs.Above.{StaysAbove, ComesDown};

use crate::bitsums::BitLines;
use crate::choosing::Candidate;
use crate::differences::Differences;
use crate::inverses::{Given, Inverse};
use crate::points::less_root;
use crate::roots::{Cases, record_product};
use crate::weights::Weights;
use ffc_base::{Meter, SearchStop};
use ffc_basis::Progress;
use ffc_bits::{Derived, Reason, Reasoning, Source};
use ffc_casetree::{FactId, Mark, NodeId, Tree, record, residues};
use ffc_field::Field;
use ffc_line::{Line, LineId};
use ffc_mono::MonoOrder;
use ffc_poly::Poly;
use ffc_stack::BasisStack;
use std::alloc::{AllocError, Global};
use std::collections::{BTreeMap, BTreeSet};

/// Why cases are made.
pub enum Cause<F: Field, O: MonoOrder> {
    /// Their values are all roots of a polynomial.
    Roots(Candidate<F, O>, Cases<F>),
    /// Their values are all that there are.
    All,
    /// Their values are guesses.
    Guesses,
}

impl<F: Field, O: MonoOrder> Drop for Cause<F, O> {
    fn drop(self) {
        match self {
            Cause::Roots(_, _) => {}
            Cause::All => {}
            Cause::Guesses => {}
        }
    }
}

impl<F: Field, O: MonoOrder> Cause<F, O> {
    /// The branch in which such cases of a variable were made, each closed, which rest on these cases beside themselves. It is
    /// closed, unless the cases are guesses.
    fn close(
        self,
        alloc: Global,
        tree: &mut Tree,
        lines: &[Line<F, O>],
        derived: &Derived<F, O>,
        variable: u32,
        closed: Vec<(FactId, NodeId)>,
        mut needs: BTreeSet<FactId>,
    ) -> Result<Ended, AllocError> {
        match self {
            Cause::Guesses => Ok(Ended::GivenUp),
            Cause::All => {
                let node = tree.split_values(variable, closed)?;
                Ok(Ended::Closed(node, needs))
            }
            Cause::Roots(candidate, cases) => {
                let fact = record_product(alloc, tree, lines, derived, &candidate, &cases)?;
                let mut under = tree.cases_under(alloc, fact)?;
                needs.append(&mut under)?;
                let roots = residues(alloc, cases.zeros.as_slice())?;
                let node = tree.split(fact, variable, roots, closed)?;
                Ok(Ended::Closed(node, needs))
            }
        }
    }
}

/// Cases by the values of a variable, of which the first ones were opened.
struct Branching<F: Field, O: MonoOrder> {
    cause: Cause<F, O>,
    variable: u32,
    values: Vec<F>,
    /// How many cases were opened.
    opened: usize,
    /// How much of the tree there was before the cases, and how many lines were derived.
    mark: Mark,
    derived: usize,
    /// And how many changes of monomials.
    changes: usize,
    /// The line of the case that is open.
    case: FactId,
    /// The cases that are closed, each by its line, and the cases outside on which they rest.
    closed: Vec<(FactId, NodeId)>,
    needs: BTreeSet<FactId>,
    /// Whether a case was given up.
    is_open: bool,
}

impl<F: Field, O: MonoOrder> Drop for Branching<F, O> {
    fn drop(self) {
        let Branching {
            cause: _,
            variable: _,
            values: _,
            opened: _,
            mark: _,
            derived: _,
            changes: _,
            case: _,
            closed: _,
            needs: _,
            is_open: _,
        } = self;
    }
}

impl<F: Field, O: MonoOrder> Branching<F, O> {
    /// Goes back from a branch that ended to these cases, whose open one it is or is in. The next case is to be opened, or the
    /// branch in which the cases were made ended too.
    fn go_back(
        mut self,
        alloc: Global,
        tree: &mut Tree,
        lines: &[Line<F, O>],
        derived: &Derived<F, O>,
        ended: Ended,
    ) -> Result<Result<Self, Ended>, AllocError> {
        match ended {
            Ended::GivenUp => self.is_open = true,
            Ended::Closed(node, mut needs) => {
                if !needs.remove(&self.case) {
                    return Ok(Err(Ended::Closed(node, needs)));
                }
                self.closed.push((self.case, node))?;
                self.needs.append(&mut needs)?;
            }
        }
        if self.opened < self.values.len() {
            return Ok(Ok(self));
        }
        Ok(Err(self.end(alloc, tree, lines, derived)?))
    }

    /// How the branch ended in which the cases were made, which were all opened.
    fn end(
        self,
        alloc: Global,
        tree: &mut Tree,
        lines: &[Line<F, O>],
        derived: &Derived<F, O>,
    ) -> Result<Ended, AllocError> {
        let Branching {
            cause,
            variable,
            values: _,
            opened: _,
            mark,
            derived: _,
            changes: _,
            case: _,
            closed,
            needs,
            is_open,
        } = self;
        let ended = if is_open {
            Ended::GivenUp
        } else {
            cause.close(alloc, tree, lines, derived, variable, closed, needs)?
        };
        if matches!(ended, Ended::GivenUp) {
            tree.cut(mark);
        }
        Ok(ended)
    }
}

/// A level of the stack above those that were there before.
enum Level<F: Field, O: MonoOrder> {
    Case(Branching<F, O>),
    /// What equations of bits force. So many lines were derived before.
    Consequences(usize),
}

impl<F: Field, O: MonoOrder> Drop for Level<F, O> {
    fn drop(self) {
        match self {
            Level::Case(_) => {}
            Level::Consequences(_) => {}
        }
    }
}

impl<F: Field, O: MonoOrder> Level<F, O> {
    /// The cases that it is one of, or how many lines were derived before its consequences.
    fn into_case(self) -> Result<Branching<F, O>, usize> {
        match self {
            Level::Case(branching) => Ok(branching),
            Level::Consequences(before) => Err(before),
        }
    }
}

/// How a branch ended.
#[derive(Drop)]
pub enum Ended {
    /// It is closed, and rests on these cases.
    Closed(NodeId, BTreeSet<FactId>),
    GivenUp,
}

/// Where the search is: the levels that are open, the outermost first, and the tree so far.
pub struct Walk<F: Field, O: MonoOrder> {
    pub tree: Tree,
    pub derived: Derived<F, O>,
    /// The polynomials that are not 0, unless they are lines of the stack.
    pub differences: Differences<F, O>,
    /// The lines before all cases that say of variables that they are bits.
    pub bits: BitLines,
    /// How many lines there were before those of the innermost case.
    pub fresh: usize,
    /// What is known of bits, where they are reasoned about.
    pub reasoning: Option<Reasoning>,
    waiting: Vec<Level<F, O>>,
    /// The whole tree, once it is closed.
    root: Option<NodeId>,
    /// Whether the equations of gates were added, and values of the bits tried.
    pub has_equations: bool,
    pub has_tried_bits: bool,
    /// How many units a branch is completed with.
    share: u64,
    pub weights: Weights,
}

impl<F: Field, O: MonoOrder> Drop for Walk<F, O> {
    fn drop(self) {
        let Walk {
            tree: _,
            derived: _,
            differences: _,
            bits: _,
            fresh: _,
            reasoning: _,
            has_equations: _,
            has_tried_bits: _,
            waiting: _,
            root: _,
            share: _,
            weights: _,
        } = self;
    }
}

/// Pops a level, where it is the second one or a later one above so many.
fn pop_above<F: Field, O: MonoOrder>(stack: &mut BasisStack<F, O>, floor: u64)
    ensures { StaysAbove floor stack.old stack.new }
{
    if stack.depth().saturating_sub(floor) > 1 {
        stack.pop();
    }
}

/// Pops the levels above so many.
pub fn pop_to<F: Field, O: MonoOrder>(stack: &mut BasisStack<F, O>, floor: u64)
    ensures { ComesDown floor stack.old stack.new }
{
    while stack.depth() > floor {
        stack.pop();
    }
}

impl<F: Field, O: MonoOrder> Walk<F, O> {
    /// The walk with no case, from these generators.
    pub fn begin(
        alloc: Global,
        given: &Given<F, O>,
        share: u64,
        weights: Weights,
    ) -> Result<Self, AllocError> {
        let mut walk = Walk {
            tree: Tree::new(alloc),
            derived: Derived::new(alloc),
            differences: Differences::new(alloc),
            bits: BTreeMap::new(alloc),
            fresh: 0,
            reasoning: None,
            has_equations: false,
            has_tried_bits: false,
            waiting: Vec::new(alloc),
            root: None,
            share,
            weights,
        };
        let mut inverses = given.inverses.iter();
        for line in given.lines.as_slice() {
            let fact = walk.tree.add_generator(*line)?;
            if line.is_none() {
                if let Some(inverse) = inverses.next() {
                    walk.add_inverse(alloc, fact, inverse)?;
                }
            }
        }
        Ok(walk)
    }

    /// Adds a polynomial that is not 0, where this generator says so. As a derived line it has no reason: it is a fact already.
    fn add_inverse(
        &mut self,
        alloc: Global,
        generator: FactId,
        inverse: &Inverse<F, O>,
    ) -> Result<(), AllocError> {
        let step = self.derived.push(Reason::Sum(Vec::new(alloc)), 0)?;
        self.tree.note_step(generator, step, None)?;
        self.differences.add(inverse, step)
    }

    /// The tree, with its root where it is closed, and the weights.
    pub fn into_parts(self) -> (Tree, Option<NodeId>, Weights) {
        let Walk {
            tree,
            derived: _,
            differences: _,
            bits: _,
            fresh: _,
            reasoning: _,
            has_equations: _,
            has_tried_bits: _,
            waiting: _,
            root,
            share: _,
            weights,
        } = self;
        (tree, root, weights)
    }

    /// Drops the derived lines from a number on, where the stack has so many lines.
    fn forget(&mut self, lines: usize, derived: usize) {
        self.derived.cut(derived, lines as LineId);
        self.tree.forget(lines, derived);
    }

    /// Closes the present branch by a fact that is a constant, and adds to the weights of the cases on which it rests.
    fn close(&mut self, alloc: Global, fact: FactId) -> Result<Ended, AllocError> {
        let node = self.tree.close(fact)?;
        let needs = self.tree.cases_under(alloc, fact)?;
        for level in self.waiting.as_slice() {
            if let Level::Case(branching) = level {
                if needs.contains(&branching.case) {
                    self.weights.add(branching.variable)?;
                }
            }
        }
        Ok(Ended::Closed(node, needs))
    }

    /// Closes the present branch by a line that is a constant.
    pub fn close_by_line(
        &mut self,
        alloc: Global,
        lines: &[Line<F, O>],
        source: Source,
    ) -> Result<Ended, AllocError> {
        let fact = record(alloc, &mut self.tree, lines, &self.derived, source)?;
        self.close(alloc, fact)
    }

    /// Closes the present branch by a polynomial without roots.
    pub fn close_by_candidate(
        &mut self,
        alloc: Global,
        lines: &[Line<F, O>],
        candidate: &Candidate<F, O>,
        cases: &Cases<F>,
    ) -> Result<Ended, AllocError> {
        let fact = record_product(
            alloc,
            &mut self.tree,
            lines,
            &self.derived,
            candidate,
            cases,
        )?;
        self.close(alloc, fact)
    }

    /// Goes back from a branch that ended to the cases in which it is.
    fn go_back(
        &mut self,
        alloc: Global,
        lines: &[Line<F, O>],
        branching: Branching<F, O>,
        ended: Ended,
    ) -> Result<Result<Branching<F, O>, Ended>, AllocError> {
        self.forget(lines.len(), branching.derived);
        self.differences.cut(branching.changes);
        branching.go_back(alloc, &mut self.tree, lines, &self.derived, ended)
    }
}

/// Opens the next case: a level with the line x - value.
fn open_case<F: Field, O: MonoOrder>(
    alloc: Global,
    stack: &mut BasisStack<F, O>,
    walk: &mut Walk<F, O>,
    mut branching: Branching<F, O>,
    meter: &mut Meter,
) -> Result<Progress, SearchStop>
    ensures above { (floor : ℕ) → StaysAbove floor stack.old stack.new }
    ensures metered { Metered SearchStop.Spent result meter.old meter.new }
{
    let Some(value) = branching.values.get(branching.opened).copied() else {
        return Err(SearchStop::GaveUp);
    };
    let poly = less_root(alloc, branching.variable, value)?;
    branching.case = walk.tree.open_case(stack.lines().len() as LineId)?;
    branching.opened = branching.opened.saturating_add(1);
    walk.fresh = stack.lines().len();
    walk.waiting.push(Level::Case(branching))?;
    Ok(stack.push_within(&[poly], walk.share, meter)?)
}

/// Leaves the present branch, which ended, and opens the case that waits next. None waits where the search has gone through all.
pub fn leave<F: Field, O: MonoOrder>(
    alloc: Global,
    stack: &mut BasisStack<F, O>,
    walk: &mut Walk<F, O>,
    how: Ended,
    floor: u64,
    meter: &mut Meter,
) -> Result<Option<Progress>, SearchStop>
    ensures above { StaysAbove floor stack.old stack.new }
    ensures metered { Metered SearchStop.Spent result meter.old meter.new }
{
    let mut ended = how;
    for _ in 0..u64::MAX {
        let Some(level) = walk.waiting.pop() else {
            break;
        };
        pop_above(stack, floor);
        match level.into_case() {
            Err(before) => walk.forget(stack.lines().len(), before),
            Ok(cases) => match walk.go_back(alloc, stack.lines(), cases, ended)? {
                Ok(cases) => {
                    return Ok(Some(open_case(alloc, stack, walk, cases, meter)?));
                }
                Err(next) => ended = next,
            },
        }
    }
    if let Ended::Closed(node, _) = ended {
        walk.root = Some(node);
    }
    Ok(None)
}

/// Adds a level with derived lines, after so many.
pub fn push_consequences<F: Field, O: MonoOrder>(
    stack: &mut BasisStack<F, O>,
    walk: &mut Walk<F, O>,
    before: usize,
    polys: &[Poly<F, O>],
    meter: &mut Meter,
) -> Result<Progress, SearchStop>
    ensures above { (floor : ℕ) → StaysAbove floor stack.old stack.new }
    ensures metered { Metered SearchStop.Spent result meter.old meter.new }
{
    walk.waiting.push(Level::Consequences(before))?;
    Ok(stack.push_within(polys, walk.share, meter)?)
}

/// Goes on by cases: those of these values of a variable. With no value the present branch is given up.
pub fn branch_by<F: Field, O: MonoOrder>(
    alloc: Global,
    stack: &mut BasisStack<F, O>,
    walk: &mut Walk<F, O>,
    cause: Cause<F, O>,
    variable: u32,
    values: Vec<F>,
    floor: u64,
    meter: &mut Meter,
) -> Result<Option<Progress>, SearchStop>
    ensures above { StaysAbove floor stack.old stack.new }
    ensures metered { Metered SearchStop.Spent result meter.old meter.new }
{
    if values.is_empty() {
        return leave(alloc, stack, walk, Ended::GivenUp, floor, meter);
    }
    let branching = Branching {
        cause,
        variable,
        values,
        opened: 0,
        mark: walk.tree.mark(),
        derived: walk.derived.len(),
        changes: walk.differences.mark(),
        case: 0,
        closed: Vec::new(alloc),
        needs: BTreeSet::new(alloc),
        is_open: false,
    };
    Ok(Some(open_case(alloc, stack, walk, branching, meter)?))
}
