//! The limits of polynomials, and whether a check passes one.
ghost use Rattle.std.specs.Prelude.{◌≡◌, ◌<◌, ◌≤◌, ◌/◌, ◌==◌, if◌then◌else◌, min, nat_lt, length, filter, All, OnOk};
ghost use Rattle.std.specs.Prelude.{IfErr, IfSome, IfNone, false};
ghost use Rattle.std.specs.List.{list_any};
ghost use Rattle.ffc_term.specs.Nodes.{node_at};
ghost use Rattle.ffc_term.specs.Measuring.{degree_at, length_at};
ghost use Rattle.ffc_rules.specs.Causes.{is_small};
ghost use Rattle.ffc_rules.specs.Cones.{is_equality};
ghost use Rattle.ffc_rules.specs.Entries.{limits};
ghost use Rattle.ffc_rules.specs.Laws.{IsValid};
ghost use Rattle.ffc_check.specs.Judged.{judged_check};
ghost use Rattle.ffc_trials.specs.Parts.{IsConeOf};
ghost use Rattle.ffc_trials.specs.Stops.{IsWithinLimits, IsPassed, IsSmallSpan};

use crate::cone::{Cone, span_among};
use crate::stop::DecideStop;
use ffc_term::{Check, Node, NodeId, NodeTable};

/// The highest degree that an equality may have.
const MOST_DEGREE: u64 = 255;

/// The most terms that an equality may have.
const MOST_TERMS: u64 = 65_536;

/// The most work of a check that is small: the number of its assignments times that of its nodes.
const MOST_WORK: u128 = 16_777_216;

fn is_equality(node: &Node) -> bool
    ensures { result ≡ is_equality node.now }
{
    matches!(node, Node::Eq(..))
}

/// Whether the degree of an equality among these nodes is too high.
fn passes_degree(table: &NodeTable, nodes: &[NodeId]) -> bool
    requires { All (λ id. id < length table.now) nodes.now }
    ensures { result ≡ list_any (λ id. nat_lt 255 (degree_at table.now id))
        (filter (λ id. is_equality (node_at table.now id)) nodes.now) }
{
    for id in nodes {
        if is_equality(table.node(*id)) && table.degree(*id) > MOST_DEGREE {
            return true;
        }
    }
    false
}

/// Whether an equality among these nodes has too many terms.
fn passes_length(table: &NodeTable, nodes: &[NodeId]) -> bool
    requires { All (λ id. id < length table.now) nodes.now }
    ensures { result ≡ list_any (λ id. nat_lt 65536 (length_at table.now id))
        (filter (λ id. is_equality (node_at table.now id)) nodes.now) }
{
    for id in nodes {
        if is_equality(table.node(*id)) && table.length(*id) > MOST_TERMS {
            return true;
        }
    }
    false
}

/// Whether the equalities of a check are within the limits of polynomials, or which limit is passed.
pub fn check_limits(check: &Check, cone: &Cone) -> Result<(), DecideStop>
    requires cone { IsConeOf (judged_check check.now) cone.now }
    ensures within { OnOk result (IsWithinLimits (judged_check check.now)) }
    ensures passed { IfErr result (IsPassed (judged_check check.now)) }
{
    if passes_degree(check.table, cone.nodes.as_slice()) {
        return Err(DecideStop::TooHigh);
    }
    if passes_length(check.table, cone.nodes.as_slice()) {
        return Err(DecideStop::TooLong);
    }
    Ok(())
}

/// How many assignments the constants of a check have, where it is small within the budget.
pub fn small_span(check: &Check, cone: &Cone, steps: u64) -> Option<u64>
    requires valid { IsValid (judged_check check.now) }
    requires cone { IsConeOf (judged_check check.now) cone.now }
    ensures small { IfSome result (IsSmallSpan (judged_check check.now) steps) }
    ensures large { IfNone result (is_small limits (judged_check check.now) steps ≡ false) }
{
    let span = span_among(check.table, cone.constants.as_slice());
    if span * cone.nodes.len() as u128 > MOST_WORK {
        return None;
    }
    if span > u128::from(steps) {
        return None;
    }
    Some(span as u64)
}

/// How many of the first assignments of a check with so many nodes are tried, whatever else is: half of the budget, within the
/// most work of a small check.
pub fn first_count(nodes: usize, steps: u64) -> u64
    ensures count { result ≡ (if nodes == 0 then 0 else min (steps / 2) (16777216 / nodes)) }
    ensures within { result ≤ steps }
{
    if nodes == 0 {
        return 0;
    }
    (steps / 2).min(MOST_WORK as u64 / nodes as u64)
}
