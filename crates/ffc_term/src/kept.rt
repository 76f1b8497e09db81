//! What is kept of each node beside it.
ghost use Rattle.std.specs.Prelude.{◌≡◌, ◌<◌, ◌∷◌, [], ◌++◌, slice_index, sum_by, vec_len, vec_capacity};
ghost use Rattle.ffc_term.specs.Nodes.{sort_in, sort_of_node};
ghost use Rattle.ffc_term.specs.Measuring.{number_in, greatest_by, degree_of_node, length_of_node};
ghost use Rattle.ffc_term.specs.Values.{product_by};
ghost use Rattle.ffc_term.specs.Keeping.{kept_sorts, kept_degrees, kept_lengths, capped, IsKeptOf};
ghost use Rattle.ffc_term.specs.declared.kept.Kept.{Kept};

use crate::node::{Node, NodeId, Sort};

// Up to which number degrees and lengths are kept exactly.
const MEASURE_CAP: u128 = 1 << 32;

/// What is kept of a node.
#[derive(Clone, Copy, Debug)]
pub struct Kept {
    pub sort: Sort,
    /// Its degree, or 2^32 where that is greater.
    pub degree: u64,
    /// Its length, or 2^32 where that is greater.
    pub length: u64,
}

// The sort that is kept of a node; Boolean past the end.
fn sort_of(kept: &[Kept], id: NodeId) -> Sort
    ensures { result ≡ sort_in (kept_sorts kept.now) id }
{
    match kept.get(id as usize) {
        Some(found) => found.sort,
        None => Sort::Bool,
    }
}

// The sort that is kept of the first of these nodes.
fn sort_of_first(kept: &[Kept], ids: &[NodeId]) -> Sort
    ensures { result ≡ sort_in (kept_sorts kept.now) (slice_index ids.now 0) }
{
    match ids.first() {
        Some(id) => sort_of(kept, *id),
        None => sort_of(kept, 0),
    }
}

// The sort of a node that comes after those of which this is kept.
fn sort_of_node(node: &Node, kept: &[Kept]) -> Sort
    ensures { result ≡ sort_of_node (kept_sorts kept.now) node.now }
{
    match node {
        Node::FieldConst(_, order) | Node::Num(_, order) => Sort::Field(*order),
        Node::IteField(_, a, _) | Node::Neg(a) => sort_of(kept, *a),
        Node::Add(ids) | Node::Mul(ids) | Node::Bitsum(ids) => sort_of_first(kept, ids.as_slice()),
        Node::True
        | Node::False
        | Node::BoolConst(_)
        | Node::Not(_)
        | Node::And(_)
        | Node::Or(_)
        | Node::Iff(..)
        | Node::Xor(..)
        | Node::IteBool(..)
        | Node::Eq(..) => Sort::Bool,
    }
}

// The degree that is kept of a node; 0 past the end.
fn degree_of(kept: &[Kept], id: NodeId) -> u64
    ensures { result ≡ number_in (kept_degrees kept.now) id }
{
    match kept.get(id as usize) {
        Some(found) => found.degree,
        None => 0,
    }
}

// The length that is kept of a node; 0 past the end.
fn length_of(kept: &[Kept], id: NodeId) -> u64
    ensures { result ≡ number_in (kept_lengths kept.now) id }
{
    match kept.get(id as usize) {
        Some(found) => found.length,
        None => 0,
    }
}

fn greatest_degree(kept: &[Kept], ids: &[NodeId]) -> u64
    ensures { result ≡ greatest_by (number_in (kept_degrees kept.now)) ids.now }
{
    let mut greatest = 0;
    for id in ids {
        greatest = degree_of(kept, *id).max(greatest);
    }
    greatest
}

fn sum_of_degrees(kept: &[Kept], ids: &[NodeId]) -> u64
    ensures { result ≡ capped (sum_by (number_in (kept_degrees kept.now)) ids.now) }
{
    let mut sum = 0;
    for id in ids {
        sum = MEASURE_CAP.min(sum + u128::from(degree_of(kept, *id)));
    }
    sum as u64
}

fn sum_of_lengths(kept: &[Kept], ids: &[NodeId]) -> u64
    ensures { result ≡ capped (sum_by (number_in (kept_lengths kept.now)) ids.now) }
{
    let mut sum = 0;
    for id in ids {
        sum = MEASURE_CAP.min(sum + u128::from(length_of(kept, *id)));
    }
    sum as u64
}

fn product_of_lengths(kept: &[Kept], ids: &[NodeId]) -> u64
    ensures { result ≡ capped (product_by (number_in (kept_lengths kept.now)) ids.now) }
{
    let mut product = 1;
    for id in ids {
        product = MEASURE_CAP.min(product * u128::from(length_of(kept, *id)));
    }
    product as u64
}

// The degree of a node that comes after those of which this is kept.
fn degree_of_node(node: &Node, kept: &[Kept]) -> u64
    ensures { capped result ≡ capped (degree_of_node (kept_degrees kept.now) node.now) }
{
    match node {
        Node::FieldConst(..) | Node::IteField(..) => 1,
        Node::Eq(a, b) => degree_of(kept, *a).max(degree_of(kept, *b)),
        Node::Add(ids) | Node::Bitsum(ids) => greatest_degree(kept, ids.as_slice()),
        Node::Mul(ids) => sum_of_degrees(kept, ids.as_slice()),
        Node::Neg(a) => degree_of(kept, *a),
        Node::True
        | Node::False
        | Node::BoolConst(_)
        | Node::Num(..)
        | Node::Not(_)
        | Node::And(_)
        | Node::Or(_)
        | Node::Iff(..)
        | Node::Xor(..)
        | Node::IteBool(..) => 0,
    }
}

// The length of a node that comes after those of which this is kept.
fn length_of_node(node: &Node, kept: &[Kept]) -> u64
    ensures { capped result ≡ capped (length_of_node (kept_lengths kept.now) node.now) }
{
    match node {
        Node::FieldConst(..) | Node::IteField(..) | Node::Num(..) => 1,
        Node::Eq(a, b) => length_of(kept, *a).max(length_of(kept, *b)),
        Node::Add(ids) | Node::Bitsum(ids) => sum_of_lengths(kept, ids.as_slice()),
        Node::Mul(ids) => product_of_lengths(kept, ids.as_slice()),
        Node::Neg(a) => length_of(kept, *a),
        Node::True
        | Node::False
        | Node::BoolConst(_)
        | Node::Not(_)
        | Node::And(_)
        | Node::Or(_)
        | Node::Iff(..)
        | Node::Xor(..)
        | Node::IteBool(..) => 0,
    }
}

impl Kept {
    // What is kept of a node that comes after those of which the rest is kept.
    fn of(node: &Node, kept: &[Kept]) -> Kept
        ensures { IsKeptOf kept.now node.now result }
    {
        Kept {
            sort: sort_of_node(node, kept),
            degree: degree_of_node(node, kept).min(MEASURE_CAP as u64),
            length: length_of_node(node, kept).min(MEASURE_CAP as u64),
        }
    }

    /// Puts what is kept of a node after what is kept of the nodes before it. There has to be room.
    pub fn keep(node: &Node, kept: &mut Vec<Kept>)
        requires { vec_len kept.old < vec_capacity kept.old }
        ensures { (k : Kept) × IsKeptOf kept.old.items node.now k × (kept.new.items ≡ kept.old.items ++ k ∷ []) }
    {
        let new = Kept::of(node, kept.as_slice());
        let _ = kept.push(new);
    }
}
