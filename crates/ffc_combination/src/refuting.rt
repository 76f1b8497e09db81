//! Deciding checks by sums of multiples of what propagation forces.
ghost use Rattle.std.specs.Prelude.{◌≡◌, ◌+◌, ◌-◌, ◌<◌, true, length, IfOk, IfSome, Ok, None};
ghost use Rattle.ffc_base.specs.Metering.{Takes, total};
ghost use Rattle.ffc_bounds.specs.Combinations.{IsRefutedByCombination, IsSolvedByCombination, node_variables};
ghost use Rattle.ffc_bounds.specs.Conjunctions.{has_order};
ghost use Rattle.ffc_check.specs.Judged.{judged_check};
ghost use Rattle.ffc_combination.specs.Flat.{is_flat};
ghost use Rattle.ffc_combination.specs.Search.{AreChoicesOf};
ghost use Rattle.ffc_combination.specs.Values.{IsRightCombined};
ghost use Rattle.ffc_propagation.specs.Answers.{AreAllForced};
ghost use Rattle.ffc_rules.specs.Cones.{cone as check_cone};
ghost use Rattle.ffc_rules.specs.Laws.{IsValid};
ghost use Rattle.ffc_trials.specs.Parts.{IsConeOf};
ghost use Rattle.ffc_trials.specs.Stops.{IsWithinLimits};

use crate::choices::{Choice, greatest_degree};
use crate::combined::Combined;
use crate::literals::{equalities_among, is_flat, variables_among};
use crate::search::{Choices, searched};
use ffc_base::Meter;
use ffc_cert::Literal;
use ffc_field::Field;
use ffc_refutation::Reason;
use ffc_term::Check;
use ffc_trials::Cone;
use std::alloc::{AllocError, Global};

/// The most variables of a check with which the matrix of a degree is small enough: with one more that of degree 2 has 4,186 columns.
const MOST_VARIABLES: usize = 89;

/// The choices of generators of a check.
fn choices_of<F: Field>(
    alloc: Global,
    check: &Check,
    cone: &Cone,
    literals: &[Literal],
    reasons: &[Reason],
    variables: &[u32],
    flat: bool,
) -> Result<Choices, AllocError>
    requires valid { IsValid (judged_check check.now) }
    requires cone { IsConeOf (judged_check check.now) cone.now }
    requires field { has_order check.now.table.now check.now.in_force.now F.ORDER ≡ true }
    requires within { IsWithinLimits (judged_check check.now) }
    requires forced { AreAllForced (judged_check check.now) literals.now reasons.now }
    requires variables { variables.now ≡ node_variables check.now.table.now check.now.in_force.now }
    requires some { 0 < length variables.now }
    requires flat { flat ≡ is_flat (judged_check check.now) }
    ensures { IfOk result (AreChoicesOf (judged_check check.now) F.ORDER reasons.now) }
{
    let (table, nodes) = (check.table, cone.nodes.as_slice());
    let equal = equalities_among(alloc, table, nodes, literals, true)?;
    let unequal = equalities_among(alloc, table, nodes, literals, false)?;
    let (equal, unequal) = (equal.as_slice(), unequal.as_slice());
    let lowest = greatest_degree(table, unequal);
    let equations = Choice::of(alloc, table, variables, flat, lowest, equal, &[])?;
    if unequal.is_empty() {
        return Ok(Choices {
            equations,
            all: None,
        });
    }
    let all = Choice::of(alloc, table, variables, flat, lowest, equal, unequal)?;
    Ok(Choices {
        equations,
        all: Some(all),
    })
}

/// Decides a check by sums of multiples of generators, of a degree of at most 1,024, in a matrix of at most 4,096 rows and columns. Where
/// such a sum is a constant other than 0, the check is refuted (Hilbert's Nullstellensatz by linear algebra). Where such sums are the
/// constants of a flat check, each less a residue, these are the values of a model, or the check is refuted by them (Lazard 1983). The
/// generators are the polynomials of the equalities that are forced, alone and then with those of the disequations. F is the field of
/// each field node of the check. Each multiple of a row that is subtracted is a Reduction, and the values that are tested are one Trial.
/// The degrees are gone through from 2 on, up to the first for which too few units are left; of neighbors of about the same cost the last
/// is tried. Constants are solved for from the greatest degree of a disequation on.
///
/// # Errors
///
/// Out of memory.
pub fn combination<F: Field>(
    alloc: Global,
    check: &Check,
    cone: &Cone,
    literals: &[Literal],
    reasons: &[Reason],
    meter: &mut Meter,
) -> Result<Option<Combined>, AllocError>
    requires valid { IsValid (judged_check check.now) }
    requires cone { IsConeOf (judged_check check.now) cone.now }
    requires field { has_order check.now.table.now check.now.in_force.now F.ORDER ≡ true }
    requires within { IsWithinLimits (judged_check check.now) }
    requires forced { AreAllForced (judged_check check.now) literals.now reasons.now }
    ensures found { IfOk result (λ o. IfSome o (IsRightCombined (judged_check check.now))) }
    ensures none { result ≡ Ok None → IsRefutedByCombination (length (check_cone check.now.table.now check.now.in_force.now)
        + (meter.old.budget - total meter.old)) (judged_check check.now) → ⊥ }
    ensures unsolved { result ≡ Ok None → IsSolvedByCombination (length (check_cone check.now.table.now check.now.in_force.now)
        + (meter.old.budget - total meter.old)) (judged_check check.now) → ⊥ }
    ensures units { Takes meter.old meter.new }
{
    // Reading what is left is what says that no more than the budget was taken.
    let _left = meter.left();
    let variables = variables_among(alloc, check.table, cone.nodes.as_slice())?;
    if variables.is_empty() {
        return Ok(None);
    }
    if variables.len() > MOST_VARIABLES {
        return Ok(None);
    }
    let variables = variables.as_slice();
    let flat = is_flat(alloc, check, cone)?;
    let choices = choices_of::<F>(alloc, check, cone, literals, reasons, variables, flat)?;
    searched::<F>(alloc, check, cone, reasons, &choices, meter)
}
