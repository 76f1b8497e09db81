//! The nodes that functions make of the nodes of their arguments.
ghost use Rattle.std.specs.Prelude.{◌≡◌, ◌<◌, ◌≤◌, length, IfOk};
ghost use Rattle.ffc_term.specs.declared.node.Sort.TheVariants as sort;
ghost use Rattle.ffc_term.specs.Nodes.{sort_at};
ghost use Rattle.ffc_term.specs.Tables.{Fits, IsNumbered, IsFieldIte};
ghost use Rattle.ffc_smt.specs.Asking.{IsSortAt};
ghost use Rattle.ffc_smt.specs.Making as making;
ghost use Rattle.ffc_smt.specs.Terms as term;
ghost use Rattle.ffc_parts.specs.Operators.{operator_of};
ghost use Rattle.ffc_parts.specs.Growing.{AllOfOneSort, AreAlike, AreTaken, AreAllAt, AreOfOneSort, Makes, MakesAll};
ghost use Rattle.ffc_parts.specs.Growing.{implied};

use crate::operators::Operator;
use ffc_term::{Node, NodeId, NodeList, NodeTable, Sort, TermStop};
use std::alloc::{AllocError, Global};

/// The number of a node, which is put after the others where it is new.
pub fn put(table: &mut NodeTable, node: Node) -> Result<NodeId, TermStop>
    requires fits { Fits table.old node }
    requires plain { ¬ (IsFieldIte node) }
    requires numbered { IsNumbered table.old node }
    ensures { Makes table.old table.new (making.interned table.old node) result }
{
    let _before = table.len();
    let put = table.intern(node);
    let _after = table.len();
    put
}

/// The equality of two nodes of one sort.
pub fn equality(table: &mut NodeTable, a: NodeId, b: NodeId) -> Result<NodeId, TermStop>
    requires { AreAlike table.old a b }
    ensures { Makes table.old table.new (making.equality table.old a b) result }
{
    match table.sort_of(a) {
        Sort::Bool => put(table, Node::Iff(a, b)),
        Sort::Field(_) => put(table, Node::Eq(a, b)),
    }
}

/// The equality and then its `Not`.
pub fn difference(table: &mut NodeTable, a: NodeId, b: NodeId) -> Result<NodeId, TermStop>
    requires { AreAlike table.old a b }
    ensures { Makes table.old table.new (making.difference table.old a b) result }
{
    let equal = equality(table, a, b)?;
    put(table, Node::Not(equal))
}

/// `Xor` from the left.
pub fn exclusive(table: &mut NodeTable, first: NodeId, rest: &[NodeId]) -> Result<NodeId, TermStop>
    requires first { IsSortAt table.old sort.Bool first }
    requires rest { AreAllAt table.old sort.Bool rest.now }
    ensures { Makes table.old table.new (making.exclusive table.old first rest.now) result }
{
    let _before = table.len();
    let mut made = first;
    for b in rest {
        made = put(table, Node::Xor(made, *b))?;
    }
    Ok(made)
}

/// `Not(a)`, and then `Or(Not(a), b)`.
pub fn implication(
    table: &mut NodeTable,
    alloc: Global,
    a: NodeId,
    b: NodeId,
) -> Result<NodeId, TermStop>
    requires first { IsSortAt table.old sort.Bool a }
    requires second { IsSortAt table.old sort.Bool b }
    ensures { Makes table.old table.new (making.implication table.old a b) result }
{
    let negated = put(table, Node::Not(a))?;
    let _between = table.len();
    let parts = Vec::from_slice(alloc, &[negated, b])?;
    put(table, Node::Or(NodeList::new(parts)))
}

/// The implications from the right.
pub fn implications(
    table: &mut NodeTable,
    alloc: Global,
    ids: &[NodeId],
) -> Result<NodeId, TermStop>
    requires some { 0 < length ids.now }
    requires each { AreAllAt table.old sort.Bool ids.now }
    ensures { Makes table.old table.new (implied table.old ids.now) result }
{
    let _before = table.len();
    let mut at = ids.len() - 1;
    let mut made = ids[at];
    while at > 0 {
        at -= 1;
        made = implication(table, alloc, ids[at], made)?;
    }
    Ok(made)
}

/// The equality of each with the next.
pub fn neighbours(
    table: &mut NodeTable,
    first: NodeId,
    rest: &[NodeId],
    parts: &mut Vec<NodeId>,
) -> Result<(), TermStop>
    requires { AreOfOneSort table.old first rest.now }
    ensures { MakesAll table.old table.new (making.neighbours table.old first rest.now) parts.old.items parts.new.items
        result }
{
    let _before = table.len();
    let mut last = first;
    for b in rest {
        let equal = equality(table, last, *b)?;
        let _after = table.len();
        parts.push(equal)?;
        last = *b;
    }
    Ok(())
}

/// The difference of a node from each.
pub fn differences_from(
    table: &mut NodeTable,
    a: NodeId,
    rest: &[NodeId],
    parts: &mut Vec<NodeId>,
) -> Result<(), TermStop>
    requires { AreOfOneSort table.old a rest.now }
    ensures { MakesAll table.old table.new (making.differences_from table.old a rest.now) parts.old.items
        parts.new.items result }
{
    let _before = table.len();
    for b in rest {
        let differs = difference(table, a, *b)?;
        let _after = table.len();
        parts.push(differs)?;
    }
    Ok(())
}

/// The difference of each pair, ordered by the first and then the second.
pub fn differences(
    table: &mut NodeTable,
    ids: &[NodeId],
    parts: &mut Vec<NodeId>,
) -> Result<(), TermStop>
    requires { AllOfOneSort table.old ids.now }
    ensures { MakesAll table.old table.new (making.differences table.old ids.now) parts.old.items parts.new.items
        result }
{
    let _before = table.len();
    for (i, a) in ids.iter().enumerate() {
        differences_from(table, *a, &ids[i + 1..], parts)?;
    }
    Ok(())
}

/// The choice between two nodes of one sort.
pub fn choice(table: &mut NodeTable, c: NodeId, a: NodeId, b: NodeId) -> Result<NodeId, TermStop>
    requires condition { IsSortAt table.old sort.Bool c }
    requires alike { AreAlike table.old a b }
    ensures { Makes table.old table.new (making.choice (sort_at table.old a) table.old c a b) result }
{
    let _before = table.len();
    match table.sort_of(a) {
        Sort::Bool => put(table, Node::IteBool(c, a, b)),
        Sort::Field(_) => {
            let made = table.ite_field(c, a, b);
            let _after = table.len();
            made
        }
    }
}

fn list(alloc: Global, ids: &[NodeId]) -> Result<NodeList, AllocError>
    ensures { IfOk result (λ made. made ≡ ids.now) }
{
    Ok(NodeList::new(Vec::from_slice(alloc, ids)?))
}

/// That each is equal to the next.
pub fn all_equal(table: &mut NodeTable, alloc: Global, ids: &[NodeId]) -> Result<NodeId, TermStop>
    requires some { 2 ≤ length ids.now }
    requires alike { AllOfOneSort table.old ids.now }
    ensures { Makes table.old table.new (making.applied_made term.Equal table.old ids.now) result }
{
    if ids.len() == 2 {
        return equality(table, ids[0], ids[1]);
    }
    let _before = table.len();
    let mut parts = Vec::new(alloc);
    neighbours(table, ids[0], &ids[1..], &mut parts)?;
    put(table, Node::And(NodeList::new(parts)))
}

/// That no two are equal.
pub fn all_distinct(
    table: &mut NodeTable,
    alloc: Global,
    ids: &[NodeId],
) -> Result<NodeId, TermStop>
    requires some { 2 ≤ length ids.now }
    requires alike { AllOfOneSort table.old ids.now }
    ensures { Makes table.old table.new (making.applied_made term.Distinct table.old ids.now) result }
{
    if ids.len() == 2 {
        return difference(table, ids[0], ids[1]);
    }
    let _before = table.len();
    let mut parts = Vec::new(alloc);
    differences(table, ids, &mut parts)?;
    put(table, Node::And(NodeList::new(parts)))
}

/// The node of a function of these nodes. Where it does not fit the table, a part of what it needs may be there.
pub fn apply(
    table: &mut NodeTable,
    alloc: Global,
    op: Operator,
    ids: &[NodeId],
) -> Result<NodeId, TermStop>
    requires { AreTaken (operator_of op) table.old ids.now }
    ensures { Makes table.old table.new (making.applied_made (operator_of op) table.old ids.now) result }
{
    let _before = table.len();
    match op {
        Operator::Not => put(table, Node::Not(ids[0])),
        Operator::And => put(table, Node::And(list(alloc, ids)?)),
        Operator::Or => put(table, Node::Or(list(alloc, ids)?)),
        Operator::Xor => exclusive(table, ids[0], &ids[1..]),
        Operator::Implies => implications(table, alloc, ids),
        Operator::Equal => all_equal(table, alloc, ids),
        Operator::Distinct => all_distinct(table, alloc, ids),
        Operator::Ite => choice(table, ids[0], ids[1], ids[2]),
        Operator::Add => put(table, Node::Add(list(alloc, ids)?)),
        Operator::Mul => put(table, Node::Mul(list(alloc, ids)?)),
        Operator::Neg => put(table, Node::Neg(ids[0])),
        Operator::Bitsum => put(table, Node::Bitsum(list(alloc, ids)?)),
    }
}
