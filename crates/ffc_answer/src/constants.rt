//! Values of nodes where constants have listed values.
ghost use Rattle.std.specs.Prelude.{◌≡◌, ℕ, ◌<◌, false, length, slice_index_or, slice_set, All, IfOk};
ghost use Rattle.ffc_term.specs.declared.value.Value.TheVariants as value;
ghost use Rattle.ffc_term.specs.Tables.{constant_count};
ghost use Rattle.ffc_term.specs.Values.{value_at, value_in};
ghost use Rattle.ffc_rules.specs.Assignments.{listed_assignment, listed_value, number_of_constant, value_of_number};

use ffc_term::{Assignment, Node, NodeId, NodeTable, Value};
use std::alloc::{AllocError, Global};

/// How many constants a table has.
fn constant_count(table: &NodeTable) -> usize
    ensures { result ≡ constant_count table.now }
{
    let mut count = 0;
    for id in 0..table.len() {
        if table.node(id).is_constant() {
            count += 1;
        }
    }
    count
}

/// Gives the constant of this node, if it is one, the value of a number.
fn give(node: &Node, number: u64, values: &mut [Value])
    ensures { values.new ≡ slice_set values.old (number_of_constant node.now) (value_of_number node.now number) }
{
    let (k, value) = match node {
        Node::BoolConst(k) => (*k as usize, Value::Bool(number == 1)),
        Node::FieldConst(k, _) => (*k as usize, Value::Field(number)),
        _ => (0, Value::Bool(false)),
    };
    if k < values.len() {
        values[k] = value;
    }
}

/// Gives constants, by their nodes, their values. Of a constant that is listed twice the first value counts.
fn give_listed(table: &NodeTable, pairs: &[(u32, u64)], values: &mut [Value])
    requires within { All (λ p. p.0 < length table.now) pairs.now }
    requires clear { (k : ℕ) → k < length values.old → slice_index_or values.old k (value.Bool false)
        ≡ value.Bool false }
    ensures { (k : ℕ) → k < length values.old → slice_index_or values.new k (value.Bool false)
        ≡ listed_value table.now pairs.now k }
{
    for i in 0..pairs.len() {
        let pair = pairs[pairs.len() - 1 - i];
        give(table.node(pair.0), pair.1, values);
    }
}

/// The assignment that gives constants, by their nodes, these values.
fn assignment_of(
    alloc: Global,
    table: &NodeTable,
    pairs: &[(u32, u64)],
) -> Result<Assignment, AllocError>
    requires { All (λ p. p.0 < length table.now) pairs.now }
    ensures { IfOk result (λ a. a ≡ listed_assignment table.now pairs.now) }
{
    let count = constant_count(table);
    let mut values = vec![in alloc; Value::Bool(false); count]?;
    give_listed(table, pairs, values.as_mut_slice());
    Ok(Assignment::new(values))
}

/// The values of these nodes, each at its number, where constants have the listed values. All other constants are false or 0.
/// It costs the cone of the nodes, and a few passes over the table.
pub(crate) fn values_of(
    alloc: Global,
    table: &NodeTable,
    ids: &[NodeId],
    pairs: &[(u32, u64)],
) -> Result<Vec<Value>, AllocError>
    requires ids { All (λ id. id < length table.now) ids.now }
    requires pairs { All (λ p. p.0 < length table.now) pairs.now }
    ensures long { IfOk result (λ values. length values.items ≡ length table.now) }
    ensures at { IfOk result
        (λ values. All (λ id. value_in values.items id ≡ value_at table.now (listed_assignment table.now pairs.now) id)
        ids.now) }
{
    let assignment = assignment_of(alloc, table, pairs)?;
    let cone = table.nodes_of(ids)?;
    let mut values = vec![in alloc; Value::Bool(false); table.len() as usize]?;
    table.eval_into(cone.as_slice(), &assignment, values.as_mut_slice());
    Ok(values)
}
