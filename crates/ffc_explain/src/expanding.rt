//! The polynomial of a node, from those of its children.
use crate::names::Names;
use crate::polynomials::{Polynomial, product};
use ffc_term::{Node, NodeId};
use std::alloc::Global;
use std::collections::BTreeMap;

/// How many steps the polynomial of a node may take.
const MOST_STEPS: u32 = 20_000;

/// The polynomials of nodes that are known: those that were made, and of each node the place of its own.
#[derive(Drop)]
struct Known {
    places: BTreeMap<NodeId, usize>,
    made: Vec<Polynomial>,
}

impl Known {
    /// None are known.
    fn none(alloc: Global) -> Known {
        Known {
            places: BTreeMap::new(alloc),
            made: Vec::new(alloc),
        }
    }

    fn get(&self, id: NodeId) -> Option<&Polynomial> {
        self.made.get(*self.places.get(&id)?)
    }

    /// Adds the polynomial of a node; none where memory is out.
    fn add(&mut self, id: NodeId, polynomial: Polynomial) -> Option<()> {
        self.places.insert(id, self.made.len()).ok()?;
        self.made.push(polynomial).ok()
    }
}

/// The sum of the polynomials of nodes, each times the power of a base for its place.
fn sum_of(
    alloc: Global,
    order: u64,
    known: &Known,
    ids: &[NodeId],
    base: u64,
) -> Option<Polynomial> {
    let mut made = Polynomial::zero(alloc, order);
    let mut scale = 1;
    for id in ids {
        if !made.add_scaled(alloc, scale, known.get(*id)?) {
            return None;
        }
        scale = product(scale, base, order);
    }
    Some(made)
}

/// The product of the polynomials of nodes.
fn product_of(alloc: Global, order: u64, known: &Known, ids: &[NodeId]) -> Option<Polynomial> {
    let mut made = Polynomial::constant(alloc, order, 1)?;
    for id in ids {
        let mut next = Polynomial::zero(alloc, order);
        if !next.add_product(alloc, &made, known.get(*id)?) {
            return None;
        }
        made = next;
    }
    Some(made)
}

/// The polynomial of a node whose children's are known. An `ite` is a variable.
fn of_known(
    alloc: Global,
    order: u64,
    known: &Known,
    id: NodeId,
    node: &Node,
) -> Option<Polynomial> {
    match node {
        Node::Num(residue, _) => Polynomial::constant(alloc, order, *residue),
        Node::Add(ids) => sum_of(alloc, order, known, ids.as_slice(), 1),
        Node::Bitsum(ids) => sum_of(alloc, order, known, ids.as_slice(), 2),
        Node::Mul(ids) => product_of(alloc, order, known, ids.as_slice()),
        Node::Neg(a) => {
            let mut made = Polynomial::zero(alloc, order);
            made.add_scaled(alloc, order.saturating_sub(1), known.get(*a)?)
                .then_some(made)
        }
        _ => Polynomial::variable(alloc, order, id),
    }
}

/// The children whose polynomials make up the node's.
fn parts_of(node: &Node) -> &[NodeId] {
    match node {
        Node::Add(ids) | Node::Bitsum(ids) | Node::Mul(ids) => ids.as_slice(),
        Node::Neg(a) => std::slice::from_ref(a),
        _ => &[],
    }
}

/// Puts the parts that are not known on the stack, and says whether there are any; none where memory is out.
fn wait_for(known: &Known, node: &Node, waiting: &mut Vec<NodeId>) -> Option<bool> {
    let mut is_waiting = false;
    for part in parts_of(node) {
        if known.get(*part).is_none() {
            waiting.push(*part).ok()?;
            is_waiting = true;
        }
    }
    Some(is_waiting)
}

/// One step towards the polynomial of the last node that waits.
fn step(names: &Names<'_>, order: u64, known: &mut Known, waiting: &mut Vec<NodeId>) -> Option<()> {
    let id = *waiting.last()?;
    let node = names.node(id)?;
    if wait_for(known, node, waiting)? {
        return Some(());
    }
    if known.get(id).is_none() {
        let made = of_known(names.alloc, order, known, id, node)?;
        known.add(id, made)?;
    }
    let _ = waiting.pop();
    Some(())
}

/// The polynomial of a node of a field; none where it is long.
pub(crate) fn polynomial_of(names: &Names<'_>, order: u64, id: NodeId) -> Option<Polynomial> {
    let mut known = Known::none(names.alloc);
    let mut waiting = Vec::new(names.alloc);
    waiting.push(id).ok()?;
    for _ in 0..MOST_STEPS {
        if waiting.is_empty() {
            break;
        }
        step(names, order, &mut known, &mut waiting)?;
    }
    // It is made last, from the others.
    known.made.pop()
}

/// The difference of the polynomials of two nodes; none where it is long.
pub(crate) fn difference_of(
    names: &Names<'_>,
    order: u64,
    a: NodeId,
    b: NodeId,
) -> Option<Polynomial> {
    let mut made = polynomial_of(names, order, a)?;
    let other = polynomial_of(names, order, b)?;
    made.add_scaled(names.alloc, order.saturating_sub(1), &other)
        .then_some(made)
}
