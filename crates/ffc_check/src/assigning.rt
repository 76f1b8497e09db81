//! Assignments, and what they make true.
ghost use Rattle.std.specs.Prelude.{◌≡◌, ◌<◌, length, All, IfOk};
ghost use Rattle.std.specs.List.Sorted.{IsStrictlyIncreasing};
ghost use Rattle.ffc_term.specs.Nodes.{IsConstantAt};
ghost use Rattle.ffc_term.specs.Tables.{constant_count};
ghost use Rattle.ffc_term.specs.Checks.{IsClosed, AreNodesOf};
ghost use Rattle.ffc_term.specs.Lists.{HaveSameNumbers};
ghost use Rattle.ffc_rules.specs.Assignments.{are_true, digits};
ghost use Rattle.ffc_check.specs.Assigning.{with_value, with_values};

use ffc_term::{Assignment, Check, Node, NodeId, NodeTable, Value};
use std::alloc::{AllocError, Global};

/// How many constants a table has.
pub fn constant_count(table: &NodeTable) -> usize
    ensures { result ≡ constant_count table.now }
{
    let mut count = 0;
    for id in 0..table.len() {
        if table.node(id).is_constant() {
            count += 1;
        }
    }
    count
}

/// A value for each constant of a table.
pub fn default_values(alloc: Global, table: &NodeTable) -> Result<Vec<Value>, AllocError>
    ensures { IfOk result (λ values. length values.items ≡ constant_count table.now) }
{
    let count = constant_count(table);
    vec![in alloc; Value::Bool(false); count]
}

/// Gives a constant the value of a number.
fn give(table: &NodeTable, constant: NodeId, number: u64, values: &mut [Value])
    requires { IsConstantAt table.now constant }
    ensures { values.new ≡ with_value table.now values.old (constant, number) }
{
    let (k, value) = match table.node(constant) {
        Node::BoolConst(k) => (*k as usize, Value::Bool(number == 1)),
        Node::FieldConst(k, _) => (*k as usize, Value::Field(number)),
        _ => unreachable!(),
    };
    if k < values.len() {
        values[k] = value;
    }
}

/// Gives each of these constants its value, one after another.
pub fn give_listed(table: &NodeTable, pairs: &[(u32, u64)], values: &mut [Value])
    requires { All (λ p. IsConstantAt table.now p.0) pairs.now }
    ensures { values.new ≡ with_values table.now values.old pairs.now }
{
    for pair in pairs {
        give(table, pair.0, pair.1, values);
    }
}

/// Gives each of these constants its digit of a number, the least digit to the first.
pub fn give_digits(table: &NodeTable, constants: &[NodeId], number: u64, values: &mut [Value])
    requires { All (IsConstantAt table.now) constants.now }
    ensures { values.new ≡ with_values table.now values.old (digits table.now constants.now number) }
{
    let mut left = number;
    for constant in constants {
        let count = table.node(*constant).value_count();
        give(table, *constant, left % count, values);
        left /= count;
    }
}

/// Whether all that is active, of which `asserted` lists the nodes, is true under an assignment. The nodes are evaluated up to
/// the first of these that is false; their values go into `out`.
pub fn is_model(
    check: &Check,
    nodes: &[NodeId],
    asserted: &[NodeId],
    assignment: &Assignment,
    out: &mut [Value],
) -> bool
    requires nodes { AreNodesOf check.now.table.now check.now.in_force.now nodes.now }
    requires closed { IsClosed check.now.table.now nodes.now }
    requires increasing { IsStrictlyIncreasing asserted.now }
    requires asserted { HaveSameNumbers asserted.now check.now.in_force.now }
    requires long { length out.old ≡ length check.now.table.now }
    ensures { result ≡ are_true check.now.table.now check.now.in_force.now assignment.now }
{
    check.table.are_true(nodes, asserted, assignment, out)
}
