//! Checks for entries, whose validity is tested as the program runs.
ghost use Rattle.std.specs.Prelude.{◌≡◌, IsTrue, All, [], ◌∷◌};
ghost use Rattle.std.specs.List.{list_all};
ghost use Rattle.ffc_field.specs.Orders.{IsOrder};
ghost use Rattle.ffc_term.specs.Nodes.{IsConstantAt};
ghost use Rattle.ffc_term.specs.Tables.{IsFieldAt, AreOfOneField, IsBooleanAt, constant_count};
ghost use Rattle.ffc_rules.specs.Entries.{is_boolean};
ghost use Rattle.ffc_rules.specs.Laws.{IsValid};
ghost use Rattle.ffc_check.specs.Judged.{judged_check};

use ffc_field::FieldId;
use ffc_term::{Check, Node, NodeId, NodeList, NodeTable, Sort, TermStop};
use std::alloc::Global;

fn is_field(table: &NodeTable, order: u64, id: NodeId) -> bool
    ensures { IsTrue result → IsFieldAt table.now order id }
{
    if id >= table.len() {
        return false;
    }
    match table.sort_of(id) {
        Sort::Bool => false,
        Sort::Field(own) => own == order,
    }
}

fn are_of_one_field(table: &NodeTable, order: u64, a: NodeId, b: NodeId) -> bool
    ensures { IsTrue result → AreOfOneField table.now (a ∷ b ∷ []) }
{
    is_field(table, order, a) && is_field(table, order, b)
}

fn is_order(order: u64) -> bool
    ensures { IsTrue result → IsOrder order }
{
    FieldId::of_order(u128::from(order)).is_some()
}

fn is_constant(table: &NodeTable, id: NodeId) -> bool
    ensures { IsTrue result → IsConstantAt table.now id }
{
    if id >= table.len() {
        return false;
    }
    table.node(id).is_constant()
}

fn are_constants(table: &NodeTable, ids: &[NodeId]) -> bool
    ensures { IsTrue result → All (IsConstantAt table.now) ids.now }
{
    for id in ids {
        if !is_constant(table, *id) {
            return false;
        }
    }
    true
}

fn constant_count(table: &NodeTable) -> usize
    ensures { result ≡ constant_count table.now }
{
    let mut count = 0;
    for id in 0..table.len() {
        if table.node(id).is_constant() {
            count += 1;
        }
    }
    count
}

fn is_boolean(table: &NodeTable, id: NodeId) -> bool
    ensures { result ≡ is_boolean table.now id }
{
    id < table.len() && table.sort_of(id) == Sort::Bool
}

fn are_boolean(table: &NodeTable, ids: &[NodeId]) -> bool
    ensures { result ≡ list_all (is_boolean table.now) ids.now }
{
    for id in ids {
        if !is_boolean(table, *id) {
            return false;
        }
    }
    true
}

/// A check that declares all constants of its table, of which there is at most one.
pub fn is_valid(check: &Check) -> bool
    ensures { IsTrue result → IsValid (judged_check check.now) }
{
    let _nodes = check.table.len();
    if check.declared.len() > 1 {
        return false;
    }
    if constant_count(check.table) != check.declared.len() {
        return false;
    }
    if !are_constants(check.table, check.declared) {
        return false;
    }
    if !is_order(check.first_order) {
        return false;
    }
    are_boolean(check.table, check.in_force)
}

/// Puts a number.
fn number(table: &mut NodeTable, order: u64, n: u64) -> Result<NodeId, TermStop> {
    if !is_order(order) || n >= order {
        return Err(TermStop::Nodes);
    }
    table.intern(Node::Num(n, order))
}

/// Puts an equality.
fn equality(table: &mut NodeTable, order: u64, a: NodeId, b: NodeId) -> Result<NodeId, TermStop> {
    if !are_of_one_field(table, order, a, b) {
        return Err(TermStop::Nodes);
    }
    table.intern(Node::Eq(a, b))
}

/// Puts a negation.
fn negation(table: &mut NodeTable, a: NodeId) -> Result<NodeId, TermStop> {
    if !is_boolean(table, a) {
        return Err(TermStop::Nodes);
    }
    table.intern(Node::Not(a))
}

/// Puts a sum of two nodes.
fn sum(
    alloc: Global,
    table: &mut NodeTable,
    order: u64,
    a: NodeId,
    b: NodeId,
) -> Result<NodeId, TermStop> {
    if !are_of_one_field(table, order, a, b) {
        return Err(TermStop::Nodes);
    }
    let mut ids = Vec::new(alloc);
    ids.push(a)?;
    ids.push(b)?;
    table.intern(Node::Add(NodeList::new(ids)))
}

/// 1, 2, that they are equal, and so many negations, each of the one before it.
pub fn false_equality(alloc: Global, order: u64, negations: u32) -> Result<NodeTable, TermStop> {
    let mut table = NodeTable::new(alloc)?;
    let a = number(&mut table, order, 1)?;
    let b = number(&mut table, order, 2)?;
    let mut last = equality(&mut table, order, a, b)?;
    for _ in 0..negations {
        last = negation(&mut table, last)?;
    }
    Ok(table)
}

/// A constant x, 1, so many sums, each of the one before it and 1, and that the last two are equal. The last node is false
/// for each value of x.
pub fn unequal_sums(alloc: Global, order: u64, sums: u32) -> Result<NodeTable, TermStop> {
    let mut table = NodeTable::new(alloc)?;
    if !is_order(order) {
        return Err(TermStop::Nodes);
    }
    let mut last = table.intern(Node::FieldConst(0, order))?;
    let one = number(&mut table, order, 1)?;
    let mut before = last;
    for _ in 0..sums {
        before = last;
        last = sum(alloc, &mut table, order, last, one)?;
    }
    equality(&mut table, order, before, last)?;
    Ok(table)
}
