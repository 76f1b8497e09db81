//! Listed values in words: each constant's, and what they make of the assertions.
use crate::names::{Names, write_residue};
use crate::page::Page;
use crate::polynomials::{product, sum};
use ffc_term::{Node, NodeId};

/// The values of all nodes by their numbers; truth values are 0 and 1.
type Values = Vec<u64>;

/// The value of a node; 0 where there is none.
fn value_at(values: &[u64], id: NodeId) -> u64 {
    match values.get(id as usize) {
        Some(value) => *value,
        None => 0,
    }
}

/// Whether all these nodes are true.
fn all_true(values: &[u64], ids: &[NodeId]) -> bool {
    for id in ids {
        if value_at(values, *id) == 0 {
            return false;
        }
    }
    true
}

/// Whether one of these nodes is true.
fn some_true(values: &[u64], ids: &[NodeId]) -> bool {
    for id in ids {
        if value_at(values, *id) != 0 {
            return true;
        }
    }
    false
}

/// The sum of nodes, each times the power of a base for its place.
fn sum_at(values: &[u64], ids: &[NodeId], base: u64, order: u64) -> u64 {
    let mut total = 0;
    let mut scale = 1;
    for id in ids {
        total = sum(total, product(scale, value_at(values, *id), order), order);
        scale = product(scale, base, order);
    }
    total
}

/// The product of nodes.
fn product_at(values: &[u64], ids: &[NodeId], order: u64) -> u64 {
    let mut total = 1;
    for id in ids {
        total = product(total, value_at(values, *id), order);
    }
    total
}

/// The value of a node by those of its children; none of a constant, whose value is listed.
fn computed(node: &Node, order: u64, values: &[u64]) -> Option<u64> {
    let at = |id: &NodeId| value_at(values, *id);
    let value = match node {
        Node::True => 1,
        Node::False => 0,
        Node::BoolConst(_) | Node::FieldConst(_, _) => return None,
        Node::Num(residue, _) => *residue,
        Node::Not(a) => u64::from(at(a) == 0),
        Node::And(ids) => u64::from(all_true(values, ids.as_slice())),
        Node::Or(ids) => u64::from(some_true(values, ids.as_slice())),
        Node::Iff(a, b) | Node::Eq(a, b) => u64::from(at(a) == at(b)),
        Node::Xor(a, b) => u64::from(at(a) != at(b)),
        Node::IteBool(c, a, b) | Node::IteField(c, a, b) => at(if at(c) != 0 { a } else { b }),
        Node::Add(ids) => sum_at(values, ids.as_slice(), 1, order),
        Node::Bitsum(ids) => sum_at(values, ids.as_slice(), 2, order),
        Node::Mul(ids) => product_at(values, ids.as_slice(), order),
        Node::Neg(a) => product(order.saturating_sub(1), at(a), order),
    };
    Some(value)
}

/// Puts a value in its place, where there is one.
fn set_value(values: &mut Values, id: NodeId, value: u64) {
    let place = id as usize;
    if place < values.len() {
        values[place] = value;
    }
}

/// The values of all nodes, where those of the constants are listed; none where memory is out.
fn values_of(names: &Names<'_>, pairs: &[(u32, u64)]) -> Option<Values> {
    let count = names.table.len();
    let mut values = vec![in names.alloc; 0u64; count as usize].ok()?;
    for pair in pairs {
        set_value(&mut values, pair.0, pair.1);
    }
    for id in 0..count {
        let found = match names.node(id) {
            Some(node) => computed(node, names.order(id), values.as_slice()),
            None => None,
        };
        if let Some(found) = found {
            set_value(&mut values, id, found);
        }
    }
    Some(values)
}

/// Writes the value of a constant.
fn write_value(names: &Names<'_>, pair: (u32, u64), page: &mut Page) {
    page.text("    ");
    names.write_constant(pair.0, page);
    page.text(" = ");
    let order = names.order(pair.0);
    if order == 0 {
        page.text(if pair.1 == 0 { "false" } else { "true" });
    } else {
        write_residue(pair.1, order, page);
        page.text(" modulo ");
        page.number(order);
    }
    page.text("\n");
}

/// Writes what the values make of an assertion.
fn write_assertion(names: &Names<'_>, number: u64, id: NodeId, values: &[u64], page: &mut Page) {
    page.text("    ");
    names.write_label(number, page);
    page.text(": ");
    names.write_term(id, page);
    match names.node(id) {
        Some(Node::Eq(a, b)) => {
            let order = names.order(*a);
            page.text(": ");
            write_residue(value_at(values, *a), order, page);
            page.text(" = ");
            write_residue(value_at(values, *b), order, page);
            page.text("\n");
        }
        _ => page.text(if value_at(values, id) == 0 {
            ": false\n"
        } else {
            ": true\n"
        }),
    }
}

/// Explains listed values.
pub(crate) fn explain_values(names: &Names<'_>, pairs: &[(u32, u64)], page: &mut Page) {
    page.text("    Under the values\n");
    for pair in pairs {
        page.text("  ");
        write_value(names, *pair, page);
    }
    page.text("    each assertion is true:\n");
    let Some(values) = values_of(names, pairs) else {
        page.fail();
        return;
    };
    let mut number = 0u64;
    for id in names.active {
        page.text("  ");
        write_assertion(names, number, *id, values.as_slice(), page);
        number = number.saturating_add(1);
    }
}
