//! The tree of a lemma in words.
use crate::expanding::difference_of;
use crate::names::{Names, write_residue};
use crate::page::Page;
use crate::polynomials::{Polynomial, product, write_polynomial, write_variable};
use ffc_cert::{CertLine, Literal, Multiple, Term};
use ffc_term::Node;

/// How many spaces at most stand before a line for the branches that it is in.
const MOST_INDENT: usize = 16;

/// A line of a tree; none where it would be long.
type Line = Option<Polynomial>;

/// Branches that wait for the end of the one before.
#[derive(Drop)]
struct Branches {
    /// How many lines each branch begins with.
    lines: usize,
    variable: u32,
    /// The values of the variable in the branches; none where it has all values from 0 on.
    values: Option<Vec<u64>>,
    /// The number of the next branch.
    next: u64,
    count: u64,
}

/// A chain whose steps come.
#[derive(Clone, Copy)]
struct Chain {
    line: u32,
    variable: u32,
    steps: u32,
    left: u32,
}

/// The tree of a lemma, as far as it was explained.
#[derive(Drop)]
pub(crate) struct Tree<'a> {
    names: Names<'a>,
    order: u64,
    lines: Vec<Line>,
    branches: Vec<Branches>,
    chain: Option<Chain>,
}

/// The order of the equality that a literal is on.
fn order_of(names: &Names<'_>, literal: Literal) -> u64 {
    match names.node(literal.1) {
        Some(Node::Eq(a, _)) => names.order(*a),
        _ => 0,
    }
}

/// The difference times the variable for its inverse, minus 1.
fn inverted(names: &Names<'_>, difference: &Polynomial, order: u64, variable: u32) -> Line {
    let inverse = Polynomial::variable(names.alloc, order, variable)?;
    let one = Polynomial::constant(names.alloc, order, 1)?;
    let mut made = Polynomial::zero(names.alloc, order);
    let is_short = made.add_product(names.alloc, difference, &inverse)
        && made.add_scaled(names.alloc, order.saturating_sub(1), &one);
    is_short.then_some(made)
}

/// The line that stands for the negation of a literal.
fn first_line(names: &Names<'_>, order: u64, literal: Literal, variable: u32) -> Line {
    let Some(Node::Eq(a, b)) = names.node(literal.1) else {
        return None;
    };
    let difference = difference_of(names, order, *a, *b)?;
    if literal.0 {
        inverted(names, &difference, order, variable)
    } else {
        Some(difference)
    }
}

impl<'a> Tree<'a> {
    /// No tree.
    pub(crate) fn none(names: Names<'a>) -> Tree<'a> {
        Tree {
            names,
            order: 0,
            lines: Vec::new(names.alloc),
            branches: Vec::new(names.alloc),
            chain: None,
        }
    }

    /// Begins the tree of a lemma: its clause is supposed to be false, which gives a line for each literal.
    pub(crate) fn begin(&mut self, literals: &[Literal], page: &mut Page) {
        self.order = literals
            .first()
            .map_or(0, |literal| order_of(&self.names, *literal));
        self.lines.clear();
        self.branches.clear();
        self.chain = None;
        page.text("      Shown by polynomials modulo ");
        page.number(self.order);
        page.text(", each of which is 0 where the clause is false:\n");
        let mut variable = self.names.table.len();
        for literal in literals {
            let line = first_line(&self.names, self.order, *literal, variable);
            self.add_line(line, page);
            if literal.0 {
                self.name_inverse(*literal, variable, page);
            } else {
                page.text("\n");
            }
            variable = variable.saturating_add(1);
        }
    }

    /// Says what the variable for an inverse is.
    fn name_inverse(&self, literal: Literal, variable: u32, page: &mut Page) {
        let Some(Node::Eq(a, b)) = self.names.node(literal.1) else {
            return;
        };
        page.text(", where ");
        write_variable(&self.names, variable, page);
        page.text(" is 1 / (");
        self.names.write_term(*a, page);
        page.text(" - ");
        self.names.write_term(*b, page);
        page.text(")\n");
    }

    /// Writes the space before a line.
    fn indent(&self, page: &mut Page) {
        page.text("        ");
        for _ in 0..self.branches.len().min(MOST_INDENT) {
            page.text("  ");
        }
    }

    /// Adds a line, and writes it without its end.
    fn add_line(&mut self, line: Line, page: &mut Page) {
        self.indent(page);
        page.text("line ");
        page.number(self.lines.len() as u64);
        page.text(": ");
        write_polynomial(&line, &self.names, page);
        if self.lines.push(line).is_err() {
            page.fail();
        }
    }

    /// The line of this number.
    fn line(&self, number: u32) -> Option<&Polynomial> {
        match self.lines.get(number as usize) {
            Some(Some(line)) => Some(line),
            _ => None,
        }
    }

    /// The sum of multiples of lines.
    fn sum_of(&self, multiples: &[Multiple]) -> Line {
        let alloc = self.names.alloc;
        let mut made = Polynomial::zero(alloc, self.order);
        for multiple in multiples {
            let factor = Polynomial::of_terms(alloc, self.order, multiple.1.as_slice())?;
            if !made.add_product(alloc, &factor, self.line(multiple.0)?) {
                return None;
            }
        }
        Some(made)
    }

    /// Writes a multiple of a line.
    fn write_multiple(&self, multiple: &Multiple, is_first: bool, page: &mut Page) {
        let factor = Polynomial::of_terms(self.names.alloc, self.order, multiple.1.as_slice());
        let constant = match &factor {
            Some(factor) => factor.as_constant(),
            None => None,
        };
        let minus_one = self.order > 2 && constant == Some(self.order - 1);
        page.text(match (is_first, minus_one) {
            (true, true) => "-",
            (false, true) => " - ",
            (true, false) => "",
            (false, false) => " + ",
        });
        if constant != Some(1) && !minus_one {
            page.text("(");
            write_polynomial(&factor, &self.names, page);
            page.text(")*");
        }
        page.text("line ");
        page.number(u64::from(multiple.0));
    }

    /// Explains a sum of multiples.
    fn combine(&mut self, multiples: &[Multiple], page: &mut Page) {
        let line = self.sum_of(multiples);
        self.add_line(line, page);
        page.text(" = ");
        let mut is_first = true;
        for multiple in multiples {
            self.write_multiple(multiple, is_first, page);
            is_first = false;
        }
        page.text(if multiples.is_empty() { "0\n" } else { "\n" });
    }

    /// Adds a polynomial that is 0 wherever the line of this number is, which is a sum of bits.
    fn follow_from_bits(&mut self, sum: u32, polynomial: &[Term], page: &mut Page) {
        let line = Polynomial::of_terms(self.names.alloc, self.order, polynomial);
        let constant = match &line {
            Some(line) => line.as_constant(),
            None => None,
        };
        self.add_line(line, page);
        if constant == Some(0) {
            page.text("\n");
            return;
        }
        page.text(", since line ");
        page.number(u64::from(sum));
        page.text(" is a sum of bits that cannot be 0");
        page.text(if constant.is_some() {
            "\n"
        } else {
            " otherwise\n"
        });
    }

    /// Takes a step of a chain; the last one gives the chain's line.
    fn step(&mut self, remainder: &[u64], page: &mut Page) {
        let Some(chain) = self.chain else {
            return;
        };
        let left = chain.left.saturating_sub(1);
        self.chain = Some(Chain { left, ..chain });
        if left > 0 {
            return;
        }
        let line = self.chain_line(chain.variable, remainder);
        self.add_line(line, page);
        page.text(", since ");
        write_variable(&self.names, chain.variable, page);
        page.text("^");
        page.number(self.order);
        page.text(" = ");
        write_variable(&self.names, chain.variable, page);
        page.text(" (the power modulo line ");
        page.number(u64::from(chain.line));
        page.text(" by ");
        page.count(u64::from(chain.steps), "product");
        page.text(")\n");
    }

    /// The last remainder of a chain minus its variable.
    fn chain_line(&self, variable: u32, remainder: &[u64]) -> Line {
        let alloc = self.names.alloc;
        let mut made = Polynomial::of_coefficients(alloc, self.order, variable, remainder)?;
        let variable = Polynomial::variable(alloc, self.order, variable)?;
        made.add_scaled(alloc, self.order.saturating_sub(1), &variable)
            .then_some(made)
    }

    /// Begins branches.
    fn split(&mut self, variable: u32, values: Option<Vec<u64>>, count: u64, page: &mut Page) {
        let branches = Branches {
            lines: self.lines.len(),
            variable,
            values,
            next: 0,
            count,
        };
        if self.branches.push(branches).is_err() {
            page.fail();
        }
        self.next_branch(page);
    }

    /// The line of a branch: the variable minus its value.
    fn branch_line(&self, variable: u32, value: u64) -> Line {
        let alloc = self.names.alloc;
        let mut made = Polynomial::variable(alloc, self.order, variable)?;
        let one = Polynomial::constant(alloc, self.order, 1)?;
        let scale = product(self.order.saturating_sub(1), value, self.order);
        made.add_scaled(alloc, scale, &one).then_some(made)
    }

    /// Goes on with the next branch; those that are through are dropped.
    fn next_branch(&mut self, page: &mut Page) {
        for _ in 0..u64::MAX {
            let Some(branches) = self.branches.pop() else {
                return;
            };
            if branches.next < branches.count {
                self.enter(branches, page);
                return;
            }
        }
    }

    /// Begins the next of these branches.
    fn enter(&mut self, branches: Branches, page: &mut Page) {
        let mut branches = branches;
        let value = match &branches.values {
            Some(values) => values.get(branches.next as usize).copied().unwrap_or(0),
            None => branches.next,
        };
        let variable = branches.variable;
        self.lines.truncate(branches.lines);
        branches.next = branches.next.saturating_add(1);
        if self.branches.push(branches).is_err() {
            page.fail();
        }
        let line = self.branch_line(variable, value);
        self.add_line(line, page);
        page.text(", in the case ");
        write_variable(&self.names, variable, page);
        page.text(" = ");
        write_residue(value, self.order, page);
        page.text("\n");
    }

    /// Ends a branch.
    fn close(&mut self, page: &mut Page) {
        self.indent(page);
        page.text("line ");
        page.number((self.lines.len() as u64).saturating_sub(1));
        page.text(" is not 0: contradiction\n");
        self.next_branch(page);
    }

    /// Explains a line of the tree.
    pub(crate) fn explain(&mut self, line: &CertLine, page: &mut Page) {
        match line {
            CertLine::Combine(multiples) => self.combine(multiples.as_slice(), page),
            CertLine::Bits(sum, _, polynomial, _) => {
                self.follow_from_bits(*sum, polynomial.as_slice(), page);
            }
            CertLine::Chain(line, variable, steps) => {
                self.chain = Some(Chain {
                    line: *line,
                    variable: *variable,
                    steps: *steps,
                    left: *steps,
                });
            }
            CertLine::Step(_, remainder) => self.step(remainder.as_slice(), page),
            CertLine::Split(line, variable, roots) => {
                self.announce_roots(*line, *variable, roots.as_slice(), page);
                match roots.as_slice().to_vec(self.names.alloc) {
                    Ok(values) => {
                        let count = values.len() as u64;
                        self.split(*variable, Some(values), count, page);
                    }
                    Err(_) => page.fail(),
                }
            }
            CertLine::Values(variable, count) => {
                self.announce_values(*variable, *count, page);
                self.split(*variable, None, u64::from(*count), page);
            }
            CertLine::Close => self.close(page),
            _ => {}
        }
    }

    /// Says what the roots of a line are.
    fn announce_roots(&self, line: u32, variable: u32, roots: &[u64], page: &mut Page) {
        self.indent(page);
        page.text("line ");
        page.number(u64::from(line));
        page.text(" is 0 only where ");
        write_variable(&self.names, variable, page);
        page.text(" is one of");
        for root in roots {
            page.text(" ");
            write_residue(*root, self.order, page);
        }
        page.text("; by cases:\n");
    }

    /// Says which values a variable has.
    fn announce_values(&self, variable: u32, count: u32, page: &mut Page) {
        self.indent(page);
        write_variable(&self.names, variable, page);
        page.text(" has ");
        page.count(u64::from(count), "value");
        page.text("; by cases:\n");
    }
}
