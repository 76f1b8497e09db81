//! The nodes that a check's assignments are tried on.
ghost use Rattle.std.specs.Prelude.{◌≡◌, ◌<◌, ◌^◌, length, filter, min, All, IfOk};
ghost use Rattle.ffc_term.specs.Nodes.{is_constant, node_at};
ghost use Rattle.ffc_term.specs.Measuring.{span_of};
ghost use Rattle.ffc_rules.specs.Laws.{IsValid};
ghost use Rattle.ffc_check.specs.Judged.{judged_check};
ghost use Rattle.ffc_trials.specs.Parts.{IsConeOf};

use ffc_term::{Check, NodeId, NodeTable, distinct};
use std::alloc::{AllocError, Global};

/// Greater numbers of assignments are given as this one.
const LARGEST: u128 = 1 << 64;

/// The nodes of a check, and the assertions and the constants among them, each in increasing order and once.
#[derive(Drop)]
pub struct Cone {
    pub nodes: Vec<NodeId>,
    pub assertions: Vec<NodeId>,
    pub constants: Vec<NodeId>,
}

/// The constants among these nodes, in the same order.
fn constants_among(
    alloc: Global,
    table: &NodeTable,
    nodes: &[NodeId],
) -> Result<Vec<NodeId>, AllocError>
    requires { All (λ id. id < length table.now) nodes.now }
    ensures { IfOk result (λ v. v.items ≡ filter (λ id. is_constant (node_at table.now id)) nodes.now) }
{
    let mut constants = Vec::new(alloc);
    for id in nodes {
        if table.node(*id).is_constant() {
            constants.push(*id)?;
        }
    }
    Ok(constants)
}

impl Cone {
    /// The cone of a check. The table is walked once.
    pub fn of(alloc: Global, check: &Check) -> Result<Cone, AllocError>
        requires valid { IsValid (judged_check check.now) }
        ensures { IfOk result (IsConeOf (judged_check check.now)) }
    {
        let nodes = check.table.nodes_of(check.in_force)?;
        let assertions = distinct(alloc, check.in_force)?;
        let constants = constants_among(alloc, check.table, nodes.as_slice())?;
        Ok(Cone {
            nodes,
            assertions,
            constants,
        })
    }
}

/// How many assignments these constants have.
pub fn span_among(table: &NodeTable, constants: &[NodeId]) -> u128
    requires { All (λ id. id < length table.now) constants.now }
    ensures { result ≡ min (span_of table.now constants.now) (2 ^ 64) }
{
    let mut span = 1;
    for id in constants {
        span = LARGEST.min(span * u128::from(table.node(*id).value_count()));
    }
    span
}
