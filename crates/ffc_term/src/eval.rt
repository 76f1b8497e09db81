//! Evaluation of nodes.
ghost use Rattle.std.specs.Prelude.{◌≡◌, ◌+◌, ◌*◌, ◌%◌, ◌<◌, length, All, Contains, sum_by};
ghost use Rattle.std.specs.List.{list_any, list_all};
ghost use Rattle.std.specs.List.Sorted.{IsStrictlyIncreasing};
ghost use Rattle.ffc_field.specs.Orders.{IsOrder};
ghost use Rattle.ffc_term.specs.Nodes.{children, IsComputed, IsNodeAt, order_at};
ghost use Rattle.ffc_term.specs.declared.node.Node.{Node};
ghost use Rattle.ffc_term.specs.Tables.{IsTable};
ghost use Rattle.ffc_term.specs.Checks.{IsClosed};
ghost use Rattle.ffc_term.specs.Values.{HoldsValues, truth, value_at, truth_in, residue_in, product_by, bit_sum_from};
ghost use Rattle.ffc_term.specs.Values.{is_same_truth, value_of_node};

use crate::modular::{Operation, compute};
use crate::node::{Node, NodeId};
use crate::table::NodeTable;
use crate::value::{Assignment, Value};

// The truth value that a list of values has for a node.
fn truth_of(known: &[Value], id: NodeId) -> bool
    requires { id < length known.now }
    ensures { result ≡ truth_in known.now id }
{
    known[id as usize].truth()
}

// The residue that a list of values has for a node.
fn residue_of(known: &[Value], id: NodeId) -> u64
    requires { id < length known.now }
    ensures { result ≡ residue_in known.now id }
{
    known[id as usize].residue()
}

fn all_true(known: &[Value], ids: &[NodeId]) -> bool
    requires { All (λ id. id < length known.now) ids.now }
    ensures { result ≡ list_all (truth_in known.now) ids.now }
{
    for id in ids {
        if !truth_of(known, *id) {
            return false;
        }
    }
    true
}

fn any_true(known: &[Value], ids: &[NodeId]) -> bool
    requires { All (λ id. id < length known.now) ids.now }
    ensures { result ≡ list_any (truth_in known.now) ids.now }
{
    for id in ids {
        if truth_of(known, *id) {
            return true;
        }
    }
    false
}

// The value of a node of this order, from those of its children.
fn value_of(node: &Node, order: u64, values: &Assignment, known: &[Value]) -> Value
    requires within { All (λ id. id < length known.now) (children node.now) }
    requires order { IsComputed node.now → IsOrder order }
    ensures { result ≡ value_of_node order values.now known.now node.now }
{
    match node {
        Node::True => Value::Bool(true),
        Node::False => Value::Bool(false),
        Node::BoolConst(k) => Value::Bool(values.truth(*k)),
        Node::FieldConst(k, order) => Value::Field(values.residue(*k, *order)),
        Node::Num(n, _) => Value::Field(*n),
        Node::Not(a) => Value::Bool(!truth_of(known, *a)),
        Node::And(ids) => Value::Bool(all_true(known, ids.as_slice())),
        Node::Or(ids) => Value::Bool(any_true(known, ids.as_slice())),
        Node::Iff(a, b) => Value::Bool(truth_of(known, *a) == truth_of(known, *b)),
        Node::Xor(a, b) => Value::Bool(truth_of(known, *a) != truth_of(known, *b)),
        Node::IteBool(c, a, b) => Value::Bool(truth_of(
            known,
            if truth_of(known, *c) { *a } else { *b },
        )),
        Node::IteField(c, a, b) => Value::Field(residue_of(
            known,
            if truth_of(known, *c) { *a } else { *b },
        )),
        Node::Eq(a, b) => Value::Bool(residue_of(known, *a) == residue_of(known, *b)),
        Node::Add(ids) => Value::Field(compute(Operation::Sum, known, ids.as_slice(), order)),
        Node::Mul(ids) => Value::Field(compute(Operation::Product, known, ids.as_slice(), order)),
        Node::Neg(a) => Value::Field(order.saturating_sub(residue_of(known, *a)) % order),
        Node::Bitsum(ids) => Value::Field(compute(Operation::BitSum, known, ids.as_slice(), order)),
    }
}

// The value of a node of the table, from those of its children.
fn value_at(table: &NodeTable, id: NodeId, values: &Assignment, known: &[Value]) -> Value
    requires inside { id < length table.now }
    requires within { (n : Node) → IsNodeAt table.now id n → All (λ c. c < length known.now) (children n) }
    ensures value { (n : Node) → IsNodeAt table.now id n → result ≡ value_of_node (order_at table.now id) values.now
        known.now n }
    ensures valid { IsTable table.now }
{
    value_of(table.node(id), table.sort_of(id).order(), values, known)
}

impl NodeTable {
    /// Writes the value of each listed node at its number. It takes no memory.
    ///
    /// The list is one that `nodes_of` gives, or another increasing one that has the children of its nodes.
    pub fn eval_into(&self, nodes: &[NodeId], values: &Assignment, out: &mut [Value])
        requires closed { IsClosed self.now nodes.now }
        requires long { length out.old ≡ length self.now }
        ensures { HoldsValues self.now values.now nodes.now out.old out.new }
    {
        for id in nodes {
            out[*id as usize] = value_at(self, *id, values, out);
        }
    }

    /// Whether all roots are true under an assignment. It takes no memory.
    ///
    /// The nodes are listed as for `eval_into`, and are evaluated in order, up to the first root that is false: `out` holds
    /// the values of these nodes alone.
    pub fn are_true(
        &self,
        nodes: &[NodeId],
        roots: &[NodeId],
        values: &Assignment,
        out: &mut [Value],
    ) -> bool
        requires closed { IsClosed self.now nodes.now }
        requires increasing { IsStrictlyIncreasing roots.now }
        requires among { All (Contains nodes.now) roots.now }
        requires long { length out.old ≡ length self.now }
        ensures { result ≡ list_all (λ id. truth (value_at self.now values.now id)) roots.now }
    {
        let mut next = 0;
        for id in nodes {
            let value = value_at(self, *id, values, out);
            out[*id as usize] = value;
            if next < roots.len() && roots[next] == *id {
                if !value.truth() {
                    return false;
                }
                next += 1;
            }
        }
        true
    }
}
