//! Which checks are linear within a budget.
ghost use Rattle.std.specs.Prelude.{◌≡◌, ◌<◌, ◌+◌, ◌*◌, ◌&&◌, length, filter, nat_le, All, IfOk};
ghost use Rattle.std.specs.Prelude.{true, false, if◌then◌else◌};
ghost use Rattle.std.specs.List.{list_all};
ghost use Rattle.ffc_check.specs.Judged.{judged_check};
ghost use Rattle.ffc_conjunction.specs.Literals.{AreLiteralsOf};
ghost use Rattle.ffc_rules.specs.Cones.{is_equality};
ghost use Rattle.ffc_bounds.specs.Conjunctions.{field_constants, has_one_order, is_field_constant, is_field_ite};
ghost use Rattle.ffc_rules.specs.Entries.{limits};
ghost use Rattle.ffc_bounds.specs.Linear.{is_linear_within};
ghost use Rattle.ffc_term.specs.Measuring.{degree_at, length_at};
ghost use Rattle.ffc_term.specs.Nodes.{node_at};
ghost use Rattle.ffc_trials.specs.Parts.{IsConeOf};

use ffc_conjunction::Conjunction;
use ffc_term::{Check, Node, NodeId, NodeTable};
use ffc_trials::{Cone, field_order};
use std::alloc::{AllocError, Global};

/// The most constants, and the most equations and disequations together, of a linear check.
const MOST_LINEAR: usize = 4096;

/// The most terms of an equality of a linear check.
const MOST_TERMS: u64 = 65_536;

fn is_field_constant(node: &Node) -> bool
    ensures { result ≡ is_field_constant node.now }
{
    matches!(node, Node::FieldConst(..))
}

fn is_field_ite(node: &Node) -> bool
    ensures { result ≡ is_field_ite node.now }
{
    matches!(node, Node::IteField(..))
}

fn is_equality(node: &Node) -> bool
    ensures { result ≡ is_equality node.now }
{
    matches!(node, Node::Eq(..))
}

/// The field constants among these nodes, in the same order.
fn constants_among(
    alloc: Global,
    table: &NodeTable,
    nodes: &[NodeId],
) -> Result<Vec<NodeId>, AllocError>
    requires { All (λ id. id < length table.now) nodes.now }
    ensures { IfOk result (λ v. v.items ≡ filter (λ id. is_field_constant (node_at table.now id)) nodes.now) }
{
    let mut constants = Vec::new(alloc);
    for id in nodes {
        if is_field_constant(table.node(*id)) {
            constants.push(*id)?;
        }
    }
    Ok(constants)
}

/// The field constants of a check, in increasing order.
pub(crate) fn field_constants(
    alloc: Global,
    check: &Check,
    cone: &Cone,
) -> Result<Vec<NodeId>, AllocError>
    requires cone { IsConeOf (judged_check check.now) cone.now }
    ensures { IfOk result (λ v. v.items ≡ field_constants check.now.table.now check.now.in_force.now) }
{
    constants_among(alloc, check.table, cone.nodes.as_slice())
}

/// Whether no node among these is an `ite` of field sort.
fn have_no_ite(table: &NodeTable, nodes: &[NodeId]) -> bool
    requires { All (λ id. id < length table.now) nodes.now }
    ensures { result ≡ list_all (λ id. if is_field_ite (node_at table.now id) then false else true) nodes.now }
{
    for id in nodes {
        if is_field_ite(table.node(*id)) {
            return false;
        }
    }
    true
}

/// Whether a node is affine, and has no more terms than the limit.
fn is_affine(table: &NodeTable, id: NodeId) -> bool
    requires { id < length table.now }
    ensures { result ≡ (nat_le (degree_at table.now id) 1 && nat_le (length_at table.now id) 65536) }
{
    table.degree(id) <= 1 && table.length(id) <= MOST_TERMS
}

/// Whether the equalities among these nodes are affine, and have no more terms than the limit.
fn are_affine(table: &NodeTable, nodes: &[NodeId]) -> bool
    requires { All (λ id. id < length table.now) nodes.now }
    ensures { result ≡ list_all (λ id. nat_le (degree_at table.now id) 1 && nat_le (length_at table.now id) 65536)
        (filter (λ id. is_equality (node_at table.now id)) nodes.now) }
{
    for id in nodes {
        if is_equality(table.node(*id)) && !is_affine(table, *id) {
            return false;
        }
    }
    true
}

/// Whether `constants`, `equations` and `disequations` in these numbers are decided within so many units.
fn are_within(constants: usize, equations: usize, disequations: usize, units: u64) -> bool
    ensures { result ≡ (nat_le constants 4096
        && (nat_le (equations + disequations) 4096
        && nat_le ((equations + disequations) * constants + constants * (disequations + 1)) units)) }
{
    if constants > MOST_LINEAR || equations > MOST_LINEAR || disequations > MOST_LINEAR {
        return false;
    }
    let literals = equations + disequations;
    literals <= MOST_LINEAR
        && (literals * constants + constants * (disequations + 1)) as u64 <= units
}

/// Whether a conjunction is linear within so many units.
pub(crate) fn is_linear_within(
    check: &Check,
    cone: &Cone,
    conjunction: &Conjunction,
    constants: &[NodeId],
    units: u64,
) -> bool
    requires cone { IsConeOf (judged_check check.now) cone.now }
    requires literals { AreLiteralsOf (judged_check check.now) conjunction.now }
    requires constants { constants.now ≡ field_constants check.now.table.now check.now.in_force.now }
    requires field { has_one_order check.now.table.now check.now.in_force.now ≡ true }
    ensures { result ≡ is_linear_within limits (judged_check check.now) units }
{
    let nodes = cone.nodes.as_slice();
    if !have_no_ite(check.table, nodes) || !are_affine(check.table, nodes) {
        return false;
    }
    let equations = conjunction.equations.len();
    let disequations = conjunction.disequations.len();
    (disequations as u64) < field_order(check, cone)
        && are_within(constants.len(), equations, disequations, units)
}
