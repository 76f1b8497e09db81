//! The equalities that are forced, those whose negations are, the variables, and whether a check is flat.
ghost use Rattle.std.specs.Prelude.{◌≡◌, ℕ, ◌<◌, true, false, if◌then◌else◌, length, filter, slice_index_or, All, IfOk};
ghost use Rattle.std.specs.List.{list_all};
ghost use Rattle.ffc_bounds.specs.Conjunctions.{is_field_ite};
ghost use Rattle.ffc_check.specs.Judged.{judged_check};
ghost use Rattle.ffc_clause.specs.Clauses.{is_among};
ghost use Rattle.ffc_combination.specs.Flat.{is_flat};
ghost use Rattle.ffc_combination.specs.Forced.{is_forced_equality};
ghost use Rattle.ffc_rules.specs.Cones.{is_equality};
ghost use Rattle.ffc_rules.specs.Laws.{IsValid};
ghost use Rattle.ffc_term.specs.Nodes.{node_at};
ghost use Rattle.ffc_trees.specs.NodePolynomials.{is_variable};
ghost use Rattle.ffc_trials.specs.Parts.{IsConeOf};

use ffc_cert::Literal;
use ffc_conjunction::Conjunction;
use ffc_term::{Check, Node, NodeId, NodeTable};
use ffc_trials::Cone;
use std::alloc::{AllocError, Global};

/// For each node below a number whether its literal with this truth value is among some.
fn marks_of(
    alloc: Global,
    nodes: u32,
    literals: &[Literal],
    truth: bool,
) -> Result<Vec<bool>, AllocError>
    ensures long { IfOk result (λ marks. length marks.items ≡ nodes) }
    ensures marks { IfOk result (λ marks. (id : ℕ) → id < nodes
        → slice_index_or marks.items id false ≡ is_among literals.now (truth, id)) }
{
    let mut marks = vec![in alloc; false; nodes as usize]?;
    for literal in literals {
        if literal.0 == truth && literal.1 < nodes {
            marks[literal.1 as usize] = true;
        }
    }
    Ok(marks)
}

fn is_equality(node: &Node) -> bool
    ensures { result ≡ is_equality node.now }
{
    matches!(node, Node::Eq(..))
}

fn is_variable(node: &Node) -> bool
    ensures { result ≡ is_variable node.now }
{
    matches!(node, Node::FieldConst(..) | Node::IteField(..))
}

/// The equalities among these nodes whose literal with this truth value is among some, in the same order.
pub(crate) fn equalities_among(
    alloc: Global,
    table: &NodeTable,
    nodes: &[NodeId],
    literals: &[Literal],
    truth: bool,
) -> Result<Vec<NodeId>, AllocError>
    requires { All (λ id. id < length table.now) nodes.now }
    ensures { IfOk result (λ v. v.items ≡ filter (is_forced_equality table.now literals.now truth) nodes.now) }
{
    let marks = marks_of(alloc, table.len(), literals, truth)?;
    let mut found = Vec::new(alloc);
    for id in nodes {
        if is_equality(table.node(*id)) && marks[*id as usize] {
            found.push(*id)?;
        }
    }
    Ok(found)
}

/// The nodes among these that are variables of polynomials, in the same order.
pub(crate) fn variables_among(
    alloc: Global,
    table: &NodeTable,
    nodes: &[NodeId],
) -> Result<Vec<u32>, AllocError>
    requires { All (λ id. id < length table.now) nodes.now }
    ensures { IfOk result (λ v. v.items ≡ filter (λ id. is_variable (node_at table.now id)) nodes.now) }
{
    let mut found = Vec::new(alloc);
    for id in nodes {
        if is_variable(table.node(*id)) {
            found.push(*id)?;
        }
    }
    Ok(found)
}

fn is_field_ite(node: &Node) -> bool
    ensures { result ≡ is_field_ite node.now }
{
    matches!(node, Node::IteField(..))
}

/// Whether no node among these is an `ite` of field sort.
fn have_no_ite(table: &NodeTable, nodes: &[NodeId]) -> bool
    requires { All (λ id. id < length table.now) nodes.now }
    ensures { result ≡ list_all (λ id. if is_field_ite (node_at table.now id) then false else true) nodes.now }
{
    for id in nodes {
        if is_field_ite(table.node(*id)) {
            return false;
        }
    }
    true
}

/// Whether a check is a conjunction of equations and disequations without `ite` of field sort.
pub(crate) fn is_flat(alloc: Global, check: &Check, cone: &Cone) -> Result<bool, AllocError>
    requires valid { IsValid (judged_check check.now) }
    requires cone { IsConeOf (judged_check check.now) cone.now }
    ensures { IfOk result (λ flat. flat ≡ is_flat (judged_check check.now)) }
{
    let nodes = cone.nodes.as_slice();
    if !have_no_ite(check.table, nodes) {
        return Ok(false);
    }
    let found = Conjunction::of(alloc, check, nodes)?;
    Ok(found.is_some())
}
