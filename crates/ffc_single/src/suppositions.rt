//! Which checks have one field constant, and no `ite` of field sort.
ghost use Rattle.std.specs.Prelude.{◌≡◌, ◌≢◌, ◌<◌, [], ◌∷◌, length, filter, All, IfOk, IfSome, Ok, None};
ghost use Rattle.std.specs.Prelude.{true, false, if◌then◌else◌};
ghost use Rattle.std.specs.List.{list_all};
ghost use Rattle.ffc_check.specs.Judged.{judged_check};
ghost use Rattle.ffc_bounds.specs.Conjunctions.{field_constants, has_no_ite, is_field_constant, is_field_ite};
ghost use Rattle.ffc_term.specs.Nodes.{node_at};
ghost use Rattle.ffc_trials.specs.Parts.{IsConeOf};

use ffc_term::{Check, Node, NodeId, NodeTable};
use ffc_trials::Cone;
use std::alloc::{AllocError, Global};

fn is_field_constant(node: &Node) -> bool
    ensures { result ≡ is_field_constant node.now }
{
    matches!(node, Node::FieldConst(..))
}

fn is_field_ite(node: &Node) -> bool
    ensures { result ≡ is_field_ite node.now }
{
    matches!(node, Node::IteField(..))
}

/// The field constants among these nodes, in the same order.
fn constants_among(
    alloc: Global,
    table: &NodeTable,
    nodes: &[NodeId],
) -> Result<Vec<NodeId>, AllocError>
    requires { All (λ id. id < length table.now) nodes.now }
    ensures { IfOk result (λ v. v.items ≡ filter (λ id. is_field_constant (node_at table.now id)) nodes.now) }
{
    let mut constants = Vec::new(alloc);
    for id in nodes {
        if is_field_constant(table.node(*id)) {
            constants.push(*id)?;
        }
    }
    Ok(constants)
}

/// The field constant of a check that has one.
pub(crate) fn only_constant(
    alloc: Global,
    check: &Check,
    cone: &Cone,
) -> Result<Option<NodeId>, AllocError>
    requires cone { IsConeOf (judged_check check.now) cone.now }
    ensures some { IfOk result (λ found. IfSome found
        (λ x. field_constants check.now.table.now check.now.in_force.now ≡ x ∷ [])) }
    ensures none { result ≡ Ok None
        → length (field_constants check.now.table.now check.now.in_force.now) ≢ 1 }
{
    let constants = constants_among(alloc, check.table, cone.nodes.as_slice())?;
    if constants.len() == 1 {
        return Ok(Some(constants[0]));
    }
    Ok(None)
}

/// Whether no node among these is an `ite` of field sort.
fn have_no_ite(table: &NodeTable, nodes: &[NodeId]) -> bool
    requires { All (λ id. id < length table.now) nodes.now }
    ensures { result ≡ list_all (λ id. if is_field_ite (node_at table.now id) then false else true) nodes.now }
{
    for id in nodes {
        if is_field_ite(table.node(*id)) {
            return false;
        }
    }
    true
}

/// Whether no node of a check is an `ite` of field sort.
pub(crate) fn has_no_ite(check: &Check, cone: &Cone) -> bool
    requires { IsConeOf (judged_check check.now) cone.now }
    ensures { result ≡ has_no_ite check.now.table.now check.now.in_force.now }
{
    have_no_ite(check.table, cone.nodes.as_slice())
}
