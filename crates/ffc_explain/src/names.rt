//! Nodes by the names and terms of the script.
use crate::page::Page;
use ffc_cert::Literal;
use ffc_elab::{Context, Declared};
use ffc_lex::{Text, symbol_text};
use ffc_term::{Node, NodeId, NodeTable, Sort};
use std::alloc::Global;

/// How many parts of a term are written: symbols, and what stands around them.
const MOST_PARTS: u32 = 120;

/// What is left to be written of a term.
#[derive(Clone, Copy)]
enum Part {
    Node(NodeId),
    Text(&'static str),
}

/// The nodes of a check and the names in its scope.
#[derive(Clone, Copy)]
pub(crate) struct Names<'a> {
    pub(crate) alloc: Global,
    pub(crate) table: &'a NodeTable,
    pub(crate) declared: &'a [Declared],
    /// What is active: assertions, the oldest first, and then assumptions.
    pub(crate) active: &'a [NodeId],
    /// The name of each of these, where it has one.
    pub(crate) labels: &'a [Option<Text>],
}

/// Puts a part on the stack of those that are left.
fn push(parts: &mut Vec<Part>, part: Part, page: &mut Page) {
    if parts.push(part).is_err() {
        page.fail();
    }
}

/// Writes the head of an application, and puts its arguments on the stack, the first on top.
fn open(head: &'static str, arguments: &[NodeId], parts: &mut Vec<Part>, page: &mut Page) {
    page.text(head);
    push(parts, Part::Text(")"), page);
    for argument in arguments.iter().rev() {
        push(parts, Part::Node(*argument), page);
        push(parts, Part::Text(" "), page);
    }
}

/// The largest order of which all residues are written as they are.
const MOST_PLAIN: u64 = 17;

/// Writes a residue; of a large order one above half of it as a negative number.
pub(crate) fn write_residue(residue: u64, order: u64, page: &mut Page) {
    if order > MOST_PLAIN && residue > order / 2 && residue < order {
        page.text("-");
        page.number(order - residue);
    } else {
        page.number(residue);
    }
}

impl<'a> Names<'a> {
    /// The nodes and names of a context.
    pub(crate) fn of(alloc: Global, context: &'a Context) -> Names<'a> {
        Names {
            alloc,
            table: context.table(),
            declared: context.declared(),
            active: context.in_force(),
            labels: context.names(),
        }
    }

    /// The node of this number, where there is one.
    pub(crate) fn node(&self, id: NodeId) -> Option<&'a Node> {
        if id < self.table.len() {
            Some(self.table.node(id))
        } else {
            None
        }
    }

    /// The order of a node's field; 0 where it is a truth value.
    pub(crate) fn order(&self, id: NodeId) -> u64 {
        if id < self.table.len() {
            self.table.sort_of(id).order()
        } else {
            0
        }
    }

    /// Writes a symbol as the script has it.
    pub(crate) fn write_symbol(&self, name: &Text, page: &mut Page) {
        match symbol_text(self.alloc, name.bytes()) {
            Ok(text) => page.bytes(text.bytes()),
            Err(_) => page.fail(),
        }
    }

    /// Writes the name of a constant.
    pub(crate) fn write_constant(&self, id: NodeId, page: &mut Page) {
        let place = self
            .declared
            .binary_search_by_key(&id, |constant| constant.node);
        match place {
            Ok(index) => match self.declared.get(index) {
                Some(constant) => self.write_symbol(&constant.name, page),
                None => page.text("?"),
            },
            Err(_) => {
                page.text("node ");
                page.number(u64::from(id));
            }
        }
    }

    /// Writes the head of a node, and leaves its children on the stack.
    fn write_node(&self, id: NodeId, parts: &mut Vec<Part>, page: &mut Page) {
        let Some(node) = self.node(id) else {
            page.text("?");
            return;
        };
        match node {
            Node::True => page.text("true"),
            Node::False => page.text("false"),
            Node::BoolConst(_) | Node::FieldConst(_, _) => self.write_constant(id, page),
            Node::Num(residue, order) => write_residue(*residue, *order, page),
            Node::Not(a) => open("(not", &[*a], parts, page),
            Node::And(ids) => open("(and", ids.as_slice(), parts, page),
            Node::Or(ids) => open("(or", ids.as_slice(), parts, page),
            Node::Iff(a, b) | Node::Eq(a, b) => open("(=", &[*a, *b], parts, page),
            Node::Xor(a, b) => open("(xor", &[*a, *b], parts, page),
            Node::IteBool(c, a, b) | Node::IteField(c, a, b) => {
                open("(ite", &[*c, *a, *b], parts, page);
            }
            Node::Add(ids) => open("(ff.add", ids.as_slice(), parts, page),
            Node::Mul(ids) => open("(ff.mul", ids.as_slice(), parts, page),
            Node::Neg(a) => open("(ff.neg", &[*a], parts, page),
            Node::Bitsum(ids) => open("(ff.bitsum", ids.as_slice(), parts, page),
        }
    }

    /// Writes the term of a node, cut where it is long.
    pub(crate) fn write_term(&self, id: NodeId, page: &mut Page) {
        let mut parts = Vec::new(self.alloc);
        push(&mut parts, Part::Node(id), page);
        for _ in 0..MOST_PARTS {
            match parts.pop() {
                Some(Part::Node(node)) => self.write_node(node, &mut parts, page),
                Some(Part::Text(text)) => page.text(text),
                None => return,
            }
        }
        if !parts.is_empty() {
            page.text(" ..");
        }
    }

    /// Writes what a literal says.
    pub(crate) fn write_literal(&self, literal: Literal, page: &mut Page) {
        match self.node(literal.1) {
            Some(Node::Eq(a, b)) => {
                self.write_term(*a, page);
                page.text(if literal.0 { " = " } else { " != " });
                self.write_term(*b, page);
            }
            _ => {
                page.text(if literal.0 { "" } else { "not " });
                self.write_term(literal.1, page);
            }
        }
    }

    /// Writes a clause.
    pub(crate) fn write_clause(&self, clause: &[Literal], page: &mut Page) {
        if clause.is_empty() {
            page.text("contradiction");
        }
        let mut before = "";
        for literal in clause {
            page.text(before);
            self.write_literal(*literal, page);
            before = " or ";
        }
    }

    /// Writes the name of what is active at a number, or the number.
    pub(crate) fn write_label(&self, number: u64, page: &mut Page) {
        match self.labels.get(number as usize) {
            Some(Some(name)) => self.write_symbol(name, page),
            _ => {
                page.text("#");
                page.number(number);
            }
        }
    }

    /// Writes a sort.
    pub(crate) fn write_sort(&self, sort: Sort, page: &mut Page) {
        match sort {
            Sort::Bool => page.text("Bool"),
            Sort::Field(order) => {
                page.text("modulo ");
                page.number(order);
            }
        }
    }
}
