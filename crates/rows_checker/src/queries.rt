//! What a table is asked of its nodes.
ghost use Rattle.std.specs.Prelude.{ℕ, ◌<◌, All, IsTrue, length};
ghost use Rattle.ffc_term.specs.Tables.{CanCut};

use crate::commands::{Finding, MALFORMED, UNFIT, add_word, numbers, say};
use crate::nodes::ids_of;
use ffc_term::fitting::are_boolean;
use ffc_term::{Assignment, Node, NodeId, NodeTable, Value, distinct};
use std::alloc::{AllocError, Global};

#[derive(Clone, Copy)]
pub(crate) enum Query {
    Count,
    Drop,
    Measure,
    Cone,
    Value,
    AllTrue,
}

pub(crate) const QUERIES: [(&str, Query); 6] = [
    ("count", Query::Count),
    ("drop", Query::Drop),
    ("measure", Query::Measure),
    ("cone", Query::Cone),
    ("value", Query::Value),
    ("all-true", Query::AllTrue),
];

/// Where this holds, nodes may be dropped from any number on.
fn has_no_ite(table: &NodeTable) -> bool
    ensures { IsTrue result → (len : ℕ) → CanCut table.now len }
{
    for id in 0..table.len() {
        if matches!(table.node(id), Node::IteField(..)) {
            return false;
        }
    }
    true
}

fn count(alloc: Global, table: &NodeTable) -> Finding {
    let count = table.len();
    format!(in alloc; "{count} nodes")
}

/// Drops the nodes from a number on.
fn drop_from(alloc: Global, table: &mut NodeTable, from: NodeId) -> Finding {
    if !has_no_ite(table) {
        return say(alloc, UNFIT);
    }
    table.truncate(from);
    count(alloc, table)
}

/// The degree and the length that are kept of a node.
fn measure(alloc: Global, table: &NodeTable, id: NodeId) -> Finding {
    if id >= table.len() {
        return say(alloc, UNFIT);
    }
    let degree = table.degree(id);
    let length = table.length(id);
    format!(in alloc; "degree {degree}, length {length}")
}

/// How many nodes and constants the check over these nodes has, and its measures.
fn cone_of(alloc: Global, table: &NodeTable, ids: &[NodeId]) -> Finding
    requires { All (λ id. id < length table.now) ids.now }
{
    let nodes = table.nodes_of(ids)?.len();
    let constants = table.constants_of(ids)?.len();
    let measures = table.measures(ids)?;
    let span = measures.span;
    let work = measures.work;
    format!(in alloc; "nodes {nodes}, constants {constants}, assignments {span}, work {work}")
}

fn cone(alloc: Global, table: &NodeTable, id: NodeId) -> Finding {
    if id >= table.len() {
        return say(alloc, UNFIT);
    }
    cone_of(alloc, table, &[id])
}

/// The value of a node under an assignment.
fn evaluate(
    alloc: Global,
    table: &NodeTable,
    root: NodeId,
    values: &Assignment,
) -> Result<Value, AllocError>
    requires { root < length table.now }
{
    let nodes = table.nodes_of(&[root])?;
    let mut out = vec![in alloc; Value::Bool(false); table.len() as usize]?;
    table.eval_into(&nodes, values, &mut out);
    Ok(out[root as usize])
}

fn value(alloc: Global, table: &NodeTable, values: &Assignment, root: NodeId) -> Finding {
    if root >= table.len() {
        return say(alloc, UNFIT);
    }
    let value = evaluate(alloc, table, root, values)?;
    format!(in alloc; "{value:?}")
}

/// The values of nodes, one after another.
fn each_value(alloc: Global, table: &NodeTable, values: &Assignment, ids: &[NodeId]) -> Finding {
    let mut all = String::new(alloc);
    for id in ids {
        add_word(&mut all, value(alloc, table, values, *id)?.as_str())?;
    }
    Ok(all)
}

/// Whether these nodes are all true under an assignment.
fn are_true(
    alloc: Global,
    table: &NodeTable,
    ids: &[NodeId],
    values: &Assignment,
) -> Result<Option<bool>, AllocError> {
    if !are_boolean(table, ids) {
        return Ok(None);
    }
    let nodes = table.nodes_of(ids)?;
    let roots = distinct(alloc, ids)?;
    let mut out = vec![in alloc; Value::Bool(false); table.len() as usize]?;
    Ok(Some(table.are_true(&nodes, &roots, values, &mut out)))
}

fn all_true(alloc: Global, table: &NodeTable, values: &Assignment, ids: &[NodeId]) -> Finding {
    match are_true(alloc, table, ids, values)? {
        Some(true) => say(alloc, "true"),
        Some(false) => say(alloc, "false"),
        None => say(alloc, UNFIT),
    }
}

fn answered(
    alloc: Global,
    table: &mut NodeTable,
    values: &Assignment,
    query: Query,
    ids: &[NodeId],
) -> Finding {
    match (query, ids) {
        (Query::Count, []) => count(alloc, table),
        (Query::Drop, [from]) => drop_from(alloc, table, *from),
        (Query::Measure, [id]) => measure(alloc, table, *id),
        (Query::Cone, [id]) => cone(alloc, table, *id),
        (Query::Value, _) => each_value(alloc, table, values, ids),
        (Query::AllTrue, _) => all_true(alloc, table, values, ids),
        _ => say(alloc, MALFORMED),
    }
}

/// Asks a table about the nodes of these numbers, where its constants have these values.
pub(crate) fn query_row(
    alloc: Global,
    table: &mut NodeTable,
    values: &Assignment,
    query: Query,
    rest: &str,
) -> Finding {
    let Some(numbers) = numbers(alloc, rest)? else {
        return say(alloc, MALFORMED);
    };
    match ids_of(alloc, numbers.as_slice())? {
        Some(ids) => answered(alloc, table, values, query, ids.as_slice()),
        None => say(alloc, MALFORMED),
    }
}

fn value_of(word: &str) -> Option<Value> {
    match word {
        "true" => Some(Value::Bool(true)),
        "false" => Some(Value::Bool(false)),
        _ => word.parse::<u64>().ok().map(Value::Field),
    }
}

/// The values of a row.
fn values_of(alloc: Global, text: &str) -> Result<Option<Vec<Value>>, AllocError> {
    let mut values = Vec::new(alloc);
    for word in text.split_ascii_whitespace() {
        match value_of(word) {
            Some(value) => values.push(value)?,
            None => return Ok(None),
        }
    }
    Ok(Some(values))
}

/// Says which values the constants have in later rows.
pub(crate) fn values_row(alloc: Global, values: &mut Assignment, rest: &str) -> Finding {
    match values_of(alloc, rest)? {
        Some(given) => {
            *values = Assignment::new(given);
            Ok(String::new(alloc))
        }
        None => say(alloc, MALFORMED),
    }
}
