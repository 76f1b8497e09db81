//! Refutations in words.
use crate::names::Names;
use crate::page::Page;
use crate::schemes::clause_of;
use crate::trees::Tree;
use ffc_cert::{CertLine, Literal};
use ffc_term::Node;

/// How many lines of a refutation are explained.
const MOST_EXPLAINED: usize = 2000;

/// Writes numbers as `1, 2 and 3`.
fn write_numbers(numbers: &[u32], page: &mut Page) {
    let mut left = numbers.len();
    for number in numbers {
        page.number(u64::from(*number));
        left = left.saturating_sub(1);
        page.text(match left {
            0 => "",
            1 => " and ",
            _ => ", ",
        });
    }
}

/// Writes where a clause is from that follows by hints.
fn write_hints(hints: &[u32], page: &mut Page) {
    page.text(if hints.len() == 1 {
        ", from clause "
    } else {
        ", from clauses "
    });
    write_numbers(hints, page);
    page.text("\n");
}

/// Writes the clause of an active assertion.
fn write_assumed(names: &Names<'_>, number: u32, page: &mut Page) {
    match names.active.get(number as usize) {
        Some(id) => names.write_literal((true, *id), page),
        None => page.text("?"),
    }
    page.text(", asserted as ");
    names.write_label(u64::from(number), page);
    page.text("\n");
}

/// The word for the kind of a node that has clauses.
fn word_of(node: &Node) -> &'static str {
    match node {
        Node::True => "true",
        Node::False => "false",
        Node::Not(_) => "not",
        Node::And(_) => "and",
        Node::Or(_) => "or",
        Node::Xor(_, _) => "xor",
        Node::IteBool(_, _, _) => "ite",
        _ => "=",
    }
}

/// Writes the clause of a node's kind.
fn write_scheme(names: &Names<'_>, id: u32, scheme: u32, index: u32, page: &mut Page) {
    match clause_of(names, id, scheme, index) {
        Some(clause) => names.write_clause(clause.as_slice(), page),
        None => page.text("?"),
    }
    page.text(", by the meaning of ");
    match names.node(id) {
        Some(Node::IteField(_, _, _)) | None => names.write_term(id, page),
        Some(node) => page.text(word_of(node)),
    }
    page.text("\n");
}

/// Writes the clause of a lemma, and begins its tree.
fn write_lemma(names: &Names<'_>, literals: &[Literal], tree: &mut Tree<'_>, page: &mut Page) {
    names.write_clause(literals, page);
    page.text(", a lemma\n");
    tree.begin(literals, page);
}

/// Writes what a clause says and where it is from.
fn write_clause(names: &Names<'_>, line: &CertLine, tree: &mut Tree<'_>, page: &mut Page) {
    match line {
        CertLine::Assume(number) => write_assumed(names, *number, page),
        CertLine::Scheme(id, scheme, index) => write_scheme(names, *id, *scheme, *index, page),
        CertLine::Hinted(literals, hints) => {
            names.write_clause(literals.as_slice(), page);
            write_hints(hints.as_slice(), page);
        }
        CertLine::Lemma { order: _, lits } => write_lemma(names, lits.as_slice(), tree, page),
        _ => {}
    }
}

/// Explains a refutation: each clause with where it is from, and the tree of each lemma.
pub(crate) fn explain_refutation(names: &Names<'_>, lines: &[CertLine], page: &mut Page) {
    page.text("    These clauses hold in each model, and the last one never does:\n");
    let mut tree = Tree::none(*names);
    let mut clauses = 0u64;
    for line in lines.iter().take(MOST_EXPLAINED) {
        if line.is_clause() {
            page.text("    clause ");
            page.number(clauses);
            page.text(": ");
            write_clause(names, line, &mut tree, page);
            clauses = clauses.saturating_add(1);
        } else {
            tree.explain(line, page);
        }
    }
    let left = lines.len().saturating_sub(MOST_EXPLAINED);
    if left > 0 {
        page.text("    .. and ");
        page.count(left as u64, "line");
        page.text(" more\n");
    }
}
