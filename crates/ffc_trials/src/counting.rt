//! Assignments one after another, in the order of their numbers.
ghost use Rattle.std.specs.Prelude.{◌≡◌, ◌+◌, ◌<◌, ◌^◌, ◌==◌, if◌then◌else◌, length, map, true, All, slice_set};
ghost use Rattle.ffc_term.specs.Nodes.{IsConstantAt, is_constant, node_at};
ghost use Rattle.ffc_term.specs.Values.{value_in};
ghost use Rattle.ffc_term.specs.Measuring.{value_count};
ghost use Rattle.ffc_rules.specs.Assignments.{value_of_number, number_of_constant};
ghost use Rattle.ffc_check.specs.Assigning.{with_value};
ghost use Rattle.ffc_trials.specs.Counting.{number_for, number_given, advanced};

use ffc_term::{Node, NodeId, NodeTable, Value};

/// The value at this place, and false where there is none.
fn value_at(values: &[Value], k: u32) -> Value
    ensures { result ≡ value_in values.now k }
{
    match values.get(k as usize) {
        Some(value) => *value,
        None => Value::Bool(false),
    }
}

/// What a constant is given, as a number.
fn number_at(constant: &Node, values: &[Value]) -> u64
    ensures number { result ≡ number_for constant.now (value_in values.now (number_of_constant constant.now)) }
    ensures room { result + 1 < 2 ^ 64 }
{
    match constant {
        Node::BoolConst(k) => u64::from(value_at(values, *k).truth()),
        Node::FieldConst(k, order) => {
            let residue = value_at(values, *k).residue();
            if residue < *order { residue } else { 0 }
        }
        _ => 0,
    }
}

/// Gives a constant the value of a number.
pub fn give(constant: &Node, number: u64, values: &mut [Value])
    requires constant { is_constant constant.now ≡ true }
    requires inside { number_of_constant constant.now < length values.old }
    ensures { values.new ≡ slice_set values.old (number_of_constant constant.now)
        (value_of_number constant.now number) }
{
    match constant {
        Node::BoolConst(k) => values[*k as usize] = Value::Bool(number == 1),
        Node::FieldConst(k, _) => values[*k as usize] = Value::Field(number),
        _ => unreachable!(),
    }
}

/// Adds one to the digit of a constant, and says whether there is a carry.
fn advance_one(table: &NodeTable, constant: NodeId, values: &mut [Value]) -> bool
    requires constant { IsConstantAt table.now constant }
    requires long { length values.old ≡ length table.now }
    ensures carry { result
        ≡ (number_given table.now values.old constant + 1 == value_count (node_at table.now constant)) }
    ensures set { values.new ≡ with_value table.now values.old
        (constant, if result then 0 else number_given table.now values.old constant + 1) }
{
    let node = table.node(constant);
    let next = number_at(node, values) + 1;
    let carry = next == node.value_count();
    give(node, if carry { 0 } else { next }, values);
    carry
}

/// Makes an assignment of these constants the next one by number, and the first one after the last. It costs the constants whose
/// digits change, two at most on the average.
pub fn advance(table: &NodeTable, constants: &[NodeId], values: &mut [Value])
    requires constants { All (IsConstantAt table.now) constants.now }
    requires long { length values.old ≡ length table.now }
    ensures { values.new ≡ advanced table.now constants.now values.old }
{
    for constant in constants {
        if !advance_one(table, *constant, values) {
            return;
        }
    }
}

/// Puts what each listed constant is given beside it.
pub fn list_numbers(table: &NodeTable, values: &[Value], pairs: &mut [(u32, u64)])
    requires { All (λ p. p.0 < length table.now) pairs.old }
    ensures { pairs.new ≡ map (λ p. (p.0, number_given table.now values.now p.0)) pairs.old }
{
    for pair in pairs.iter_mut() {
        pair.1 = number_at(table.node(pair.0), values);
    }
}
