//! Deciding conjunctions in one constant.
ghost use Rattle.std.specs.Prelude.{◌≡◌, ◌+◌, ◌-◌, ◌≤◌, length, true, IfOk, IsErrOf};
ghost use Rattle.ffc_base.specs.Metering.{Takes, total};
ghost use Rattle.ffc_base.specs.declared.stop.Stop.TheVariants as stops;
ghost use Rattle.ffc_bounds.specs.Conjunctions.{has_order};
ghost use Rattle.ffc_check.specs.Judged.{judged_check};
ghost use Rattle.ffc_rules.specs.Laws.{IsValid};
ghost use Rattle.ffc_single.specs.Answering.{IsSingleAnswer};
ghost use Rattle.ffc_single.specs.Decisions.{IsFlatInOne, HasConstantDivisor, HasRoots, Decides, HasTooFewFor};
ghost use Rattle.ffc_trials.specs.Parts.{IsConeOf};
ghost use Rattle.ffc_trials.specs.Stops.{IsWithinLimits};

use crate::divisor::{Divisor, divisor_of};
use crate::suppositions::{has_no_ite, only_constant};
use crate::trials::{Cases, Outcome, roots_within, try_roots};
use crate::univariate::differences;
use ffc_base::{Meter, Stop};
use ffc_conjunction::Conjunction;
use ffc_encode::Polynomials;
use ffc_field::Field;
use ffc_lemmatree::{Ending, by_roots};
use ffc_linear::LinearAnswer;
use ffc_refutation::by_conflict;
use ffc_roots::Roots;
use ffc_term::{Check, NodeId};
use ffc_trials::Cone;
use ffc_uni::Uni;
use std::alloc::{AllocError, Global};

/// The most equations of a check that is decided.
const MOST_EQUATIONS: usize = 4096;

/// Gives the constant the first root of the equations at which no disequation is false, and refutes the check where
/// there is none.
fn at_roots<F: Field>(
    alloc: Global,
    check: &Check,
    conjunction: &Conjunction,
    variable: NodeId,
    divisor: &Divisor<F>,
    roots: Roots<F>,
    unequal: &[Uni<F>],
    meter: &mut Meter,
) -> Result<LinearAnswer, AllocError>
    requires roots { HasRoots (judged_check check.now) F.ORDER variable conjunction.now divisor.now roots unequal.now }
    requires left { total meter.old + length roots.zeros ≤ meter.old.budget }
    ensures answer { IfOk result (Decides (judged_check check.now)) }
    ensures takes { Takes meter.old meter.new }
{
    let zeros = roots.zeros.as_slice();
    let disequations = conjunction.disequations.as_slice();
    let found = match try_roots(alloc, zeros, disequations, unequal, meter)? {
        Outcome::Value(x) => {
            let mut pairs = Vec::new(alloc);
            pairs.push((variable, x.residue()))?;
            return Ok(LinearAnswer::Values(pairs));
        }
        Outcome::Cases(found) => found,
    };
    let Cases {
        disequations: picked,
        cases,
    } = found;
    let lines = by_roots(
        alloc,
        conjunction.reasons.as_slice(),
        check.table.len(),
        variable,
        conjunction.equations.as_slice(),
        picked.as_slice(),
        divisor.start,
        divisor.steps.as_slice(),
        Ending::Roots { roots, cases },
    )?;
    Ok(LinearAnswer::Refuted(lines))
}

/// Refutes a check whose equations have a constant as their common divisor.
fn without_roots<F: Field>(
    alloc: Global,
    check: &Check,
    conjunction: &Conjunction,
    variable: NodeId,
    divisor: &Divisor<F>,
) -> Result<LinearAnswer, AllocError>
    requires { HasConstantDivisor (judged_check check.now) F.ORDER variable conjunction.now divisor.now }
    ensures { IfOk result (Decides (judged_check check.now)) }
{
    let reasons = conjunction.reasons.as_slice();
    let equations = conjunction.equations.as_slice();
    let nodes = check.table.len();
    let (start, steps) = (divisor.start, divisor.steps.as_slice());
    let lines = by_roots(
        alloc,
        reasons,
        nodes,
        variable,
        equations,
        &[],
        start,
        steps,
        Ending::Constant,
    )?;
    Ok(LinearAnswer::Refuted(lines))
}

/// Decides a flat check in one constant.
fn decided<F: Field>(
    alloc: Global,
    check: &Check,
    conjunction: &Conjunction,
    variable: NodeId,
    meter: &mut Meter,
) -> Result<LinearAnswer, Stop>
    requires { IsFlatInOne (judged_check check.now) F.ORDER variable conjunction.now }
    ensures answer { IfOk result (Decides (judged_check check.now)) }
    ensures units { IsErrOf result stops.Spent → HasTooFewFor (judged_check check.now) meter.old }
    ensures takes { Takes meter.old meter.new }
{
    let table = check.table;
    let mut polynomials = Polynomials::new(alloc, table);
    let equations = conjunction.equations.as_slice();
    let equal: Vec<Uni<F>> = differences(alloc, table, &mut polynomials, variable, equations)?;
    let Some(divisor) = divisor_of(alloc, equal.as_slice(), meter)? else {
        return Ok(LinearAnswer::Undecided);
    };
    if divisor.value.coefs().len() == 1 {
        let answer = without_roots(alloc, check, conjunction, variable, &divisor)?;
        return Ok(answer);
    }
    let roots = roots_within(alloc, &divisor.value, meter)?;
    let disequations = conjunction.disequations.as_slice();
    let unequal: Vec<Uni<F>> = differences(alloc, table, &mut polynomials, variable, disequations)?;
    let unequal = unequal.as_slice();
    let answer = at_roots(
        alloc,
        check,
        conjunction,
        variable,
        &divisor,
        roots,
        unequal,
        meter,
    )?;
    Ok(answer)
}

/// Decides a conjunction of equations and disequations in one constant, whose equations are not all 0. F is the field
/// of each field node of the check. Each multiple of a monomial that is subtracted to find a common divisor is a
/// Reduction, each product modulo the divisor a Chain, and each root that is tried a Trial.
///
/// # Errors
///
/// Out of memory.
pub fn single<F: Field>(
    alloc: Global,
    check: &Check,
    cone: &Cone,
    meter: &mut Meter,
) -> Result<LinearAnswer, AllocError>
    requires valid { IsValid (judged_check check.now) }
    requires cone { IsConeOf (judged_check check.now) cone.now }
    requires field { has_order check.now.table.now check.now.in_force.now F.ORDER ≡ true }
    requires within { IsWithinLimits (judged_check check.now) }
    ensures answer { IfOk result (IsSingleAnswer (judged_check check.now) (meter.old.budget - total meter.old)) }
    ensures units { Takes meter.old meter.new }
{
    let Some(variable) = only_constant(alloc, check, cone)? else {
        return Ok(LinearAnswer::Undecided);
    };
    if !has_no_ite(check, cone) {
        return Ok(LinearAnswer::Undecided);
    }
    let Some(conjunction) = Conjunction::of(alloc, check, cone.nodes.as_slice())? else {
        return Ok(LinearAnswer::Undecided);
    };
    if conjunction.clashes {
        let lines = by_conflict(alloc, conjunction.reasons.as_slice())?;
        return Ok(LinearAnswer::Refuted(lines));
    }
    let equations = conjunction.equations.len();
    if equations == 0 || equations > MOST_EQUATIONS {
        return Ok(LinearAnswer::Undecided);
    }
    // Reading what is left is what says that no more than the budget was taken.
    let _left = meter.left();
    match decided::<F>(alloc, check, &conjunction, variable, meter) {
        Ok(answer) => Ok(answer),
        Err(stop) => match stop {
            Stop::Spent => Ok(LinearAnswer::Undecided),
            Stop::Memory => Err(AllocError),
        },
    }
}
