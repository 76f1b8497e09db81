//! Clauses over equalities, with case trees.
ghost use Rattle.std.specs.Prelude.{◌≡◌, ◌<◌, ◌+◌, ◌^◌, true, length, All};
ghost use Rattle.std.specs.List.{list_all, AllByRecursion};
ghost use Rattle.ffc_cert.specs.Ranges.{IsLine};
ghost use Rattle.ffc_smt.specs.Numbers.{is_order};
ghost use Rattle.ffc_term.specs.Tables.{IsTable};
ghost use Rattle.ffc_trees.specs.FirstLines.{first_lines};
ghost use Rattle.ffc_trees.specs.TreeLines.{limits as tree_limits};
ghost use Rattle.ffc_trees.specs.Trees.{tree_read};
ghost use Rattle.ffc_rules.specs.Entries.{limits, is_equality_at, is_within, order_or, tree_given, lemma_given};
ghost use Rattle.ffc_rules.specs.Laws.{IsValid};
ghost use Rattle.ffc_check.specs.Answers.{Gives};
ghost use Rattle.ffc_check.specs.Giving.{IsTakenWith};
ghost use Rattle.ffc_check.specs.Judged.{judged_check};

use crate::stop::{CheckStop, breaks};
use ffc_cert::{CertLine, Literal};
use ffc_cktree::{Kept, TreeStop, lemma_tree, rules};
use ffc_term::{Check, Node, NodeId, NodeTable};
use std::alloc::Global;

/// The greatest degree of an equality in a lemma.
const MOST_DEGREE: u64 = 255;

/// The greatest number of terms of an equality in a lemma.
const MOST_TERMS: u64 = 65_536;

/// The orders of the fields.
const ORDERS: [u64; 8] = [
    2,
    3,
    5,
    17,
    65_537,
    2_013_265_921,
    2_130_706_433,
    18_446_744_069_414_584_321,
];

/// Whether a number is the order of one of the fields.
fn is_order(order: u64) -> bool
    ensures { result ≡ is_order order }
{
    ORDERS.contains(&order)
}

/// Whether a number is that of an equality of this order.
fn is_equality(table: &NodeTable, order: u64, id: NodeId) -> bool
    ensures { result ≡ is_equality_at table.now order id }
{
    if id >= table.len() {
        return false;
    }
    match table.node(id) {
        Node::Eq(a, _) => table.sort_of(*a).order() == order,
        _ => false,
    }
}

/// Whether all literals are on equalities of this order.
fn are_equalities(table: &NodeTable, order: u64, literals: &[Literal]) -> bool
    ensures { result ≡ list_all (λ x. is_equality_at table.now order x.1) literals.now }
{
    for literal in literals {
        if !is_equality(table, order, literal.1) {
            return false;
        }
    }
    true
}

/// Whether degree and length of an equality are within the limits.
fn is_within(table: &NodeTable, id: NodeId) -> bool
    requires { id < length table.now }
    ensures { result ≡ is_within limits table.now id }
{
    table.degree(id) <= MOST_DEGREE && table.length(id) <= MOST_TERMS
}

/// Whether all literals are on equalities within the limits.
fn are_within(table: &NodeTable, literals: &[Literal]) -> bool
    requires { All (λ x. x.1 < length table.now) literals.now }
    ensures { result ≡ list_all (λ x. is_within limits table.now x.1) literals.now }
{
    for literal in literals {
        if !is_within(table, literal.1) {
            return false;
        }
    }
    true
}

/// Judges the tree of a lemma at the front of the lines after it, and answers how many lines it has.
fn tree_lines(
    alloc: Global,
    kept: &mut Kept<'_>,
    order: u64,
    literals: &[Literal],
    line: u64,
    rest: &[CertLine],
) -> Result<usize, CheckStop>
    requires table { IsTable kept.old }
    requires order { is_order order ≡ true }
    requires equalities { list_all (λ x. is_equality_at kept.old order x.1) literals.now ≡ true }
    requires small { list_all (λ x. is_within limits kept.old x.1) literals.now ≡ true }
    requires ranges { AllByRecursion IsLine rest.now }
    requires few { length literals.now < 2 ^ 31 }
    requires line { line + length rest.now + 1 < 2 ^ 64 }
    ensures given { Gives result
        (tree_given literals.now line (tree_read tree_limits order (first_lines kept.old order literals.now) rest.now))
        (IsTakenWith literals.now rest.now) }
    ensures kept { kept.new ≡ kept.old }
{
    match lemma_tree(alloc, kept, order, literals, rest) {
        Ok(used) => Ok(used),
        Err(TreeStop::Broken(broken)) => Err(breaks(broken.rule, line + 1 + broken.offset)),
        Err(TreeStop::Memory) => Err(CheckStop::Memory),
    }
}

/// Judges a lemma with its tree, and answers how many lines the tree has.
pub fn check_lemma(
    alloc: Global,
    check: &Check,
    kept: &mut Kept<'_>,
    order: Option<u64>,
    literals: &[Literal],
    line: u64,
    rest: &[CertLine],
) -> Result<usize, CheckStop>
    requires valid { IsValid (judged_check check.now) }
    requires kept { kept.old ≡ check.now.table.now }
    requires ranges { AllByRecursion IsLine rest.now }
    requires few { length literals.now < 2 ^ 31 }
    requires line { line + length rest.now + 1 < 2 ^ 64 }
    ensures given { Gives result (lemma_given limits (judged_check check.now) (order_or check.now.first_order order)
        literals.now line rest.now) (IsTakenWith literals.now rest.now) }
    ensures kept { kept.new ≡ kept.old }
{
    let order = order.unwrap_or(check.first_order);
    if !is_order(order) {
        return Err(breaks(rules::REFERENCE, line));
    }
    if !are_equalities(check.table, order, literals) {
        return Err(breaks(rules::REFERENCE, line));
    }
    if !are_within(check.table, literals) {
        return Err(breaks(rules::LIMIT, line));
    }
    tree_lines(alloc, kept, order, literals, line, rest)
}
