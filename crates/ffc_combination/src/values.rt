//! Values of a check's constants, and what is true under them.
ghost use Rattle.std.specs.Prelude.{◌≡◌, ◌<◌, false, length, map, All, IfOk, IfSome, None};
ghost use Rattle.std.specs.List.Sorted.{IsStrictlyIncreasing};
ghost use Rattle.ffc_check.specs.Assigning.{with_values};
ghost use Rattle.ffc_check.specs.Judged.{judged_check};
ghost use Rattle.ffc_combination.specs.Values.{AreValuesUnder, IsFieldConstant, IsTrueAt, truth_by};
ghost use Rattle.ffc_rules.specs.Laws.{IsValid};
ghost use Rattle.ffc_trials.specs.Parts.{IsConeOf};

use ffc_cert::Literal;
use ffc_refutation::Determined;
use ffc_term::{Assignment, Check, Node, NodeId, NodeTable, Value};
use ffc_trials::Cone;
use std::alloc::{AllocError, Global};

/// These constants with the values that are determined.
pub(crate) fn pairs_of(
    alloc: Global,
    constants: &[NodeId],
    determined: &[Determined],
) -> Result<Vec<(NodeId, u64)>, AllocError>
    requires { length determined.now ≡ length constants.now }
    ensures constants { IfOk result (λ pairs. map (λ p. p.0) pairs.items ≡ constants.now) }
    ensures values { IfOk result (λ pairs. map (λ p. p.1) pairs.items ≡ map (λ d. d.value) determined.now) }
{
    let mut pairs = Vec::new(alloc);
    for (place, known) in determined.iter().enumerate() {
        pairs.push((constants[place], known.value))?;
    }
    Ok(pairs)
}

/// Gives each of these constants its value, one after another.
fn give(table: &NodeTable, pairs: &[(NodeId, u64)], values: &mut [Value])
    requires constants { All (λ p. IsFieldConstant table.now p.0) pairs.now }
    requires long { length values.old ≡ length table.now }
    ensures { values.new ≡ with_values table.now values.old pairs.now }
{
    for pair in pairs {
        match table.node(pair.0) {
            Node::FieldConst(k, _) => values[*k as usize] = Value::Field(pair.1),
            _ => unreachable!(),
        }
    }
}

/// The values of a check's nodes where these constants have these values, and all others are false or 0.
pub(crate) fn values_under(
    alloc: Global,
    check: &Check,
    cone: &Cone,
    pairs: &[(NodeId, u64)],
) -> Result<Vec<Value>, AllocError>
    requires valid { IsValid (judged_check check.now) }
    requires cone { IsConeOf (judged_check check.now) cone.now }
    requires constants { All (λ p. IsFieldConstant check.now.table.now p.0) pairs.now }
    requires increasing { IsStrictlyIncreasing (map (λ p. p.0) pairs.now) }
    ensures { IfOk result (λ values. AreValuesUnder (judged_check check.now) pairs.now values.items) }
{
    let count = check.table.len() as usize;
    let mut given = vec![in alloc; Value::Bool(false); count]?;
    give(check.table, pairs, given.as_mut_slice());
    let assignment = Assignment::new(given);
    let mut values = vec![in alloc; Value::Bool(false); count]?;
    check
        .table
        .eval_into(cone.nodes.as_slice(), &assignment, values.as_mut_slice());
    Ok(values)
}

/// Whether a literal is true.
fn is_true(values: &[Value], literal: Literal) -> bool
    requires { literal.1 < length values.now }
    ensures { result ≡ truth_by values.now literal }
{
    let truth = values[literal.1 as usize].truth();
    if literal.0 { truth } else { !truth }
}

/// The place of the first of these literals that is true.
pub(crate) fn first_true(values: &[Value], literals: &[Literal]) -> Option<usize>
    requires { All (λ l. l.1 < length values.now) literals.now }
    ensures some { IfSome result (IsTrueAt values.now literals.now) }
    ensures none { result ≡ None → All (λ l. truth_by values.now l ≡ false) literals.now }
{
    for (place, literal) in literals.iter().enumerate() {
        if is_true(values, *literal) {
            return Some(place);
        }
    }
    None
}
