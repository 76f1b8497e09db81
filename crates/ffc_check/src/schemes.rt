//! The clauses of nodes' schemes.
ghost use Rattle.std.specs.Prelude.{◌≡◌, ◌+◌, ◌<◌, ◌^◌, [], ◌∷◌, length, map, slice_get, IfOk};
ghost use Rattle.ffc_term.specs.declared.node.Node.TheVariants as node_is;
ghost use Rattle.ffc_rules.specs.Schemes.{one, schemes, scheme_clause};
ghost use Rattle.ffc_check.specs.Patterns.{scheme_in, clauses_of};
ghost use Rattle.ffc_check.specs.Gates.{IsShort, gate_schemes, literals_of};

use ffc_cert::Literal;
use ffc_term::{Node, NodeId, NodeTable};
use std::alloc::{AllocError, Global};

/// A short clause, if there is one.
#[derive(Clone, Copy)]
pub enum Pattern {
    Nothing,
    One(Literal),
    Two(Literal, Literal),
    Three(Literal, Literal, Literal),
}

/// Of a negation.
fn not_pattern(v: NodeId, a: NodeId, scheme: u32) -> Pattern
    ensures { clauses_of result ≡ scheme_in (schemes v (node_is.Not a)) scheme }
{
    match scheme {
        0 => Pattern::Two((true, v), (true, a)),
        1 => Pattern::Two((false, v), (false, a)),
        _ => Pattern::Nothing,
    }
}

/// Of an equality of truth values.
fn iff_pattern(v: NodeId, a: NodeId, b: NodeId, scheme: u32) -> Pattern
    ensures { clauses_of result ≡ scheme_in (schemes v (node_is.Iff a b)) scheme }
{
    match scheme {
        0 => Pattern::Three((false, v), (false, a), (true, b)),
        1 => Pattern::Three((false, v), (true, a), (false, b)),
        2 => Pattern::Three((true, v), (true, a), (true, b)),
        3 => Pattern::Three((true, v), (false, a), (false, b)),
        _ => Pattern::Nothing,
    }
}

/// Of an exclusive or.
fn xor_pattern(v: NodeId, a: NodeId, b: NodeId, scheme: u32) -> Pattern
    ensures { clauses_of result ≡ scheme_in (schemes v (node_is.Xor a b)) scheme }
{
    match scheme {
        0 => Pattern::Three((false, v), (true, a), (true, b)),
        1 => Pattern::Three((false, v), (false, a), (false, b)),
        2 => Pattern::Three((true, v), (false, a), (true, b)),
        3 => Pattern::Three((true, v), (true, a), (false, b)),
        _ => Pattern::Nothing,
    }
}

/// Of a choice between truth values.
fn ite_bool_pattern(v: NodeId, c: NodeId, a: NodeId, b: NodeId, scheme: u32) -> Pattern
    ensures { clauses_of result ≡ scheme_in (schemes v (node_is.IteBool c a b)) scheme }
{
    match scheme {
        0 => Pattern::Three((false, v), (false, c), (true, a)),
        1 => Pattern::Three((false, v), (true, c), (true, b)),
        2 => Pattern::Three((true, v), (false, c), (false, a)),
        3 => Pattern::Three((true, v), (true, c), (false, b)),
        _ => Pattern::Nothing,
    }
}

/// Of a choice between residues: its equalities with its branches come after it in the table.
fn ite_field_pattern(v: NodeId, c: NodeId, a: NodeId, b: NodeId, scheme: u32) -> Pattern
    requires { v + 2 < 2 ^ 32 }
    ensures { clauses_of result ≡ scheme_in (schemes v (node_is.IteField c a b)) scheme }
{
    match scheme {
        0 => Pattern::Two((false, c), (true, v + 1)),
        1 => {
            let second = if a == b { v + 1 } else { v + 2 };
            Pattern::Two((true, c), (true, second))
        }
        _ => Pattern::Nothing,
    }
}

/// Of the constants true and false.
fn truth_pattern(v: NodeId, truth: bool, scheme: u32) -> Pattern
    ensures { clauses_of result ≡ scheme_in (one ((truth, v) ∷ []) ∷ []) scheme }
{
    match scheme {
        0 => Pattern::One((truth, v)),
        _ => Pattern::Nothing,
    }
}

/// Of a node that has no list of children.
fn pattern_of(v: NodeId, node: &Node, scheme: u32) -> Pattern
    requires few { v + 2 < 2 ^ 32 }
    requires short { IsShort node.now }
    ensures { clauses_of result ≡ scheme_in (schemes v node.now) scheme }
{
    match node {
        Node::True => truth_pattern(v, true, scheme),
        Node::False => truth_pattern(v, false, scheme),
        Node::Not(a) => not_pattern(v, *a, scheme),
        Node::Iff(a, b) => iff_pattern(v, *a, *b, scheme),
        Node::Xor(a, b) => xor_pattern(v, *a, *b, scheme),
        Node::IteBool(c, a, b) => ite_bool_pattern(v, *c, *a, *b, scheme),
        Node::IteField(c, a, b) => ite_field_pattern(v, *c, *a, *b, scheme),
        Node::And(_) | Node::Or(_) => unreachable!(),
        _ => Pattern::Nothing,
    }
}

/// The literals of a pattern, as the clause of this index.
fn short_clause(
    alloc: Global,
    pattern: Pattern,
    index: u32,
) -> Result<Option<Vec<Literal>>, AllocError>
    ensures { IfOk result (λ found. literals_of found ≡ slice_get (clauses_of pattern) index) }
{
    if index != 0 {
        return Ok(None);
    }
    match pattern {
        Pattern::Nothing => Ok(None),
        Pattern::One(a) => Ok(Some(vec![in alloc; a]?)),
        Pattern::Two(a, b) => Ok(Some(vec![in alloc; a, b]?)),
        Pattern::Three(a, b, c) => Ok(Some(vec![in alloc; a, b, c]?)),
    }
}

/// A literal, and after it the listed nodes or their negations.
fn long_clause(
    alloc: Global,
    first: Literal,
    ids: &[NodeId],
    sign: bool,
) -> Result<Vec<Literal>, AllocError>
    ensures { IfOk result (λ clause. clause.items ≡ first ∷ map (λ a. (sign, a)) ids.now) }
{
    let mut clause = Vec::new(alloc);
    clause.push(first)?;
    for id in ids {
        clause.push((sign, *id))?;
    }
    Ok(clause)
}

/// Of an `and`, where `all` is true, and of an `or`. It makes no other clause of the scheme.
fn gate_clause(
    alloc: Global,
    v: NodeId,
    all: bool,
    ids: &[NodeId],
    scheme: u32,
    index: u32,
) -> Result<Option<Vec<Literal>>, AllocError>
    ensures { IfOk result (λ found. literals_of found ≡ slice_get (scheme_in (gate_schemes v all ids.now) scheme)
        index) }
{
    match scheme {
        0 => match ids.get(index as usize) {
            Some(a) => Ok(Some(vec![in alloc; (!all, v), (all, *a)]?)),
            None => Ok(None),
        },
        1 => {
            if index != 0 {
                return Ok(None);
            }
            Ok(Some(long_clause(alloc, (all, v), ids, !all)?))
        }
        _ => Ok(None),
    }
}

/// The clause of this scheme and index of a node, if there is one. It costs its literals.
pub fn scheme_clause(
    alloc: Global,
    table: &NodeTable,
    node: NodeId,
    scheme: u32,
    index: u32,
) -> Result<Option<Vec<Literal>>, AllocError>
    requires { node < length table.now }
    ensures { IfOk result (λ found. literals_of found ≡ scheme_clause table.now node scheme index) }
{
    match table.node(node) {
        Node::And(ids) => gate_clause(alloc, node, true, ids.as_slice(), scheme, index),
        Node::Or(ids) => gate_clause(alloc, node, false, ids.as_slice(), scheme, index),
        other => short_clause(alloc, pattern_of(node, other, scheme), index),
    }
}
