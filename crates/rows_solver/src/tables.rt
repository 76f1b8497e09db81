//! Clauses and polynomials of nodes. Each node is tested before it is put.
ghost use Rattle.std.specs.Prelude.{◌↔◌, ◌<◌, All, IsTrue, length};

use crate::naming::named;
use crate::page::Page;
use crate::reading::{Words, words_of};
use crate::writing::{write_poly, write_poly_or};
use ffc_encode::{EncodeStop, NodeClause, Polynomials, clauses_of, poly_of};
use ffc_field::{BabyBear, Field};
use ffc_mono::GradedReverseLex;
use ffc_poly::Poly;
use ffc_term::fitting::{count_constants, fits, is_field, is_order, is_plain};
use ffc_term::{Node, NodeId, NodeList, NodeTable, Sort};
use std::alloc::Global;

/// A step on a table.
#[derive(Clone, Copy)]
enum Verb {
    Bool,
    Field,
    Ite,
    Clauses,
    Poly,
    After,
    /// A further node is put.
    Node(Kind),
}

/// A kind of node.
#[derive(Clone, Copy)]
enum Kind {
    True,
    False,
    Not,
    And,
    Or,
    Iff,
    Xor,
    IteBool,
    Num,
    Add,
    Mul,
    Neg,
    Bitsum,
}

const VERBS: [(&str, Verb); 19] = [
    ("bool", Verb::Bool),
    ("field", Verb::Field),
    ("ite-field", Verb::Ite),
    ("clauses", Verb::Clauses),
    ("poly", Verb::Poly),
    ("after", Verb::After),
    ("true", Verb::Node(Kind::True)),
    ("false", Verb::Node(Kind::False)),
    ("not", Verb::Node(Kind::Not)),
    ("and", Verb::Node(Kind::And)),
    ("or", Verb::Node(Kind::Or)),
    ("iff", Verb::Node(Kind::Iff)),
    ("xor", Verb::Node(Kind::Xor)),
    ("ite-bool", Verb::Node(Kind::IteBool)),
    ("num", Verb::Node(Kind::Num)),
    ("add", Verb::Node(Kind::Add)),
    ("mul", Verb::Node(Kind::Mul)),
    ("neg", Verb::Node(Kind::Neg)),
    ("bitsum", Verb::Node(Kind::Bitsum)),
];

/// The words that are left, as nodes' numbers.
fn ids(alloc: Global, words: &Words<'_>) -> Option<Vec<NodeId>> {
    let mut out = Vec::new(alloc);
    for word in words.rest() {
        out.push(word.parse::<u32>().ok()?).ok()?;
    }
    Some(out)
}

fn list(alloc: Global, words: &Words<'_>) -> Option<NodeList> {
    Some(NodeList::new(ids(alloc, words)?))
}

/// The node of a kind with these children.
fn node(alloc: Global, kind: Kind, words: &mut Words<'_>) -> Option<Node> {
    Some(match kind {
        Kind::True => Node::True,
        Kind::False => Node::False,
        Kind::Not => Node::Not(words.small()?),
        Kind::And => Node::And(list(alloc, words)?),
        Kind::Or => Node::Or(list(alloc, words)?),
        Kind::Iff => Node::Iff(words.small()?, words.small()?),
        Kind::Xor => Node::Xor(words.small()?, words.small()?),
        Kind::IteBool => Node::IteBool(words.small()?, words.small()?, words.small()?),
        Kind::Num => Node::Num(words.number()?, BabyBear::ORDER),
        Kind::Add => Node::Add(list(alloc, words)?),
        Kind::Mul => Node::Mul(list(alloc, words)?),
        Kind::Neg => Node::Neg(words.small()?),
        Kind::Bitsum => Node::Bitsum(list(alloc, words)?),
    })
}

/// Puts a node that is no constant.
fn put(table: &mut NodeTable, node: Node) -> Option<NodeId> {
    if !fits(table, &node) {
        return None;
    }
    if !is_plain(&node) {
        return None;
    }
    table.intern(node).ok()
}

/// Puts the next constant.
fn declare(table: &mut NodeTable, sort: Sort) -> Option<NodeId> {
    let number = count_constants(table);
    match sort {
        Sort::Bool => table.intern(Node::BoolConst(number)).ok(),
        Sort::Field(order) => {
            if !is_order(order) {
                return None;
            }
            table.intern(Node::FieldConst(number, order)).ok()
        }
    }
}

/// Puts an `ite` of field nodes, and its equalities with them.
fn put_ite(table: &mut NodeTable, words: &mut Words<'_>) -> Option<NodeId> {
    let condition = words.small()?;
    let yes = words.small()?;
    let no = words.small()?;
    if !fits(table, &Node::IteField(condition, yes, no)) {
        return None;
    }
    table.ite_field(condition, yes, no).ok()
}

/// Writes a clause: node, scheme, index, literals.
fn write_clause(page: &mut Page, clause: &NodeClause) {
    page.number(u64::from(clause.node));
    page.count(" ", u64::from(clause.scheme));
    page.count(" ", u64::from(clause.index));
    for (positive, id) in clause.lits.as_slice() {
        page.count(if *positive { " +" } else { " -" }, u64::from(*id));
    }
}

/// Whether a number is that of a node.
fn is_node(table: &NodeTable, id: NodeId) -> bool
    ensures { IsTrue result ↔ (id < length table.now) }
{
    id < table.len()
}

/// Whether all numbers are those of nodes.
fn are_nodes(table: &NodeTable, ids: &[NodeId]) -> bool
    ensures { IsTrue result → All (λ id. id < length table.now) ids.now }
{
    for id in ids {
        if !is_node(table, *id) {
            return false;
        }
    }
    true
}

/// Writes the clauses of the nodes that are left to read.
fn write_clauses(
    alloc: Global,
    page: &mut Page,
    table: &NodeTable,
    words: &Words<'_>,
) -> Option<()> {
    let ids = ids(alloc, words)?;
    if !are_nodes(table, ids.as_slice()) {
        return None;
    }
    let mut before = "";
    let clauses = clauses_of(alloc, table, ids.as_slice()).ok()?;
    for clause in clauses.iter() {
        page.say(before);
        write_clause(page, clause);
        before = ", ";
    }
    Some(())
}

/// A polynomial of a node, or why there is none.
type Made = Result<Poly<BabyBear, GradedReverseLex>, EncodeStop>;

/// A node's polynomial. With no contract of its own it keeps the proof of its caller short.
fn polynomial(alloc: Global, table: &NodeTable, id: NodeId) -> Option<Made> {
    if !is_field(table, BabyBear::ORDER, id) {
        return None;
    }
    Some(poly_of::<BabyBear, GradedReverseLex>(alloc, table, id))
}

/// Writes a node's polynomial.
fn write_polynomial(alloc: Global, page: &mut Page, table: &NodeTable, id: NodeId) -> Option<()> {
    write_poly_or(page, polynomial(alloc, table, id)?);
    Some(())
}

/// Writes a node's polynomial, which is made after that of another node.
fn write_known(
    alloc: Global,
    page: &mut Page,
    table: &NodeTable,
    first: NodeId,
    id: NodeId,
) -> Option<()> {
    if !is_field(table, BabyBear::ORDER, first) || !is_field(table, BabyBear::ORDER, id) {
        return None;
    }
    let mut polys = Polynomials::<BabyBear, GradedReverseLex>::new(alloc, table);
    polys.learn(first).ok()?;
    polys.learn(id).ok()?;
    write_poly(page, polys.known(id)?);
    Some(())
}

/// Writes the number of a node that was put.
fn write_id(page: &mut Page, id: Option<NodeId>) -> Option<()> {
    page.number(u64::from(id?));
    Some(())
}

/// Does a step on a table.
fn step(
    alloc: Global,
    table: &mut NodeTable,
    words: &mut Words<'_>,
    page: &mut Page,
) -> Option<()> {
    match named(&VERBS, words.next()?)? {
        Verb::Bool => write_id(page, declare(table, Sort::Bool)),
        Verb::Field => write_id(page, declare(table, Sort::Field(BabyBear::ORDER))),
        Verb::Ite => write_id(page, put_ite(table, words)),
        Verb::Clauses => write_clauses(alloc, page, table, words),
        Verb::Poly => write_polynomial(alloc, page, table, words.small()?),
        Verb::After => write_known(alloc, page, table, words.small()?, words.small()?),
        Verb::Node(kind) => {
            let node = node(alloc, kind, words)?;
            write_id(page, put(table, node))
        }
    }
}

/// Begins a table with no node, and does the steps.
pub fn row(alloc: Global, steps: &[&str], page: &mut Page) -> Option<()> {
    let mut table = NodeTable::new(alloc).ok()?;
    page.count("nodes ", u64::from(table.len()));
    for text in steps {
        page.begin(text);
        let words = words_of(alloc, text)?;
        step(alloc, &mut table, &mut Words::new(words.as_slice()), page)?;
    }
    Some(())
}
