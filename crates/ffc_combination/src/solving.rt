//! What the values that sums of multiples determine decide of a flat check.
ghost use Rattle.std.specs.Prelude.{ℕ, ◌≡◌, ◌<◌, ◌≤◌, length, IfOk};
ghost use Rattle.ffc_check.specs.Judged.{judged_check};
ghost use Rattle.ffc_combination.specs.Solving.{IsMissed, IsSolvedChoice};
ghost use Rattle.ffc_combination.specs.Values.{IsLemmaWith, IsRightCombined, literal_at};
ghost use Rattle.ffc_refutation.specs.Given.{AreReadable, AreRight};
ghost use Rattle.ffc_trials.specs.Parts.{IsConeOf};

use crate::choices::Choice;
use crate::combined::Combined;
use crate::generators::difference_of;
use crate::values::{first_true, pairs_of, values_under};
use ffc_cert::{CertLine, Literal, Sequence};
use ffc_encode::Polynomials;
use ffc_field::Field;
use ffc_refutation::{Determined, Reason};
use ffc_term::Check;
use ffc_trials::Cone;
use ffc_values::by_values;
use std::alloc::{AllocError, Global};

/// The lemma of a choice's literals, with the one of this place of those that are tested after them where it is none of them, and that
/// literal's place in the lemma. The choice's literals are the first of those that are tested.
fn lemma_with(
    alloc: Global,
    own: &[Literal],
    tested: &[Literal],
    place: usize,
) -> Result<(Vec<Literal>, u32), AllocError>
    requires few { length own.now ≤ 4096 }
    requires there { place < length tested.now }
    requires first { (i : ℕ) → i < length own.now → literal_at tested.now i ≡ literal_at own.now i }
    ensures { IfOk result (λ r. IsLemmaWith own.now tested.now place r.0.items r.1) }
{
    let mut literals = Vec::from_slice(alloc, own)?;
    if place < own.len() {
        return Ok((literals, place as u32));
    }
    literals.push(tested[place])?;
    Ok((literals, own.len() as u32))
}

/// Refutes a check by the values of its constants, at which a literal is true that is false where all assertions are true.
fn refuted_at<F: Field>(
    alloc: Global,
    check: &Check,
    reasons: &[Reason],
    choice: &Choice,
    tested: &[Literal],
    determined: Vec<Determined>,
    place: usize,
) -> Result<Sequence<CertLine>, AllocError>
    requires { IsMissed (judged_check check.now) F.ORDER reasons.now choice.now tested.now determined.items place }
    ensures readable { IfOk result AreReadable }
    ensures right { IfOk result (AreRight (judged_check check.now)) }
{
    let (literals, line) = lemma_with(alloc, choice.literals.as_slice(), tested, place)?;
    let mut polynomials = Polynomials::new(alloc, check.table);
    let sides = difference_of::<F>(&mut polynomials, check.table, tested[place].1)?;
    let nodes = check.table.len();
    let variables = choice.variables.as_slice();
    by_values(
        alloc, reasons, literals, nodes, variables, determined, line, &sides,
    )
}

/// Gives the constants of a flat check the values that are determined, or refutes the check where a literal of what is forced is false
/// under them.
pub(crate) fn settled<F: Field>(
    alloc: Global,
    check: &Check,
    cone: &Cone,
    reasons: &[Reason],
    choice: &Choice,
    tested: &[Literal],
    determined: Vec<Determined>,
) -> Result<Combined, AllocError>
    requires cone { IsConeOf (judged_check check.now) cone.now }
    requires solved { IsSolvedChoice (judged_check check.now) F.ORDER reasons.now choice.now tested.now determined.items }
    ensures { IfOk result (IsRightCombined (judged_check check.now)) }
{
    let constants = &choice.variables.as_slice()[..determined.len()];
    let pairs = pairs_of(alloc, constants, determined.as_slice())?;
    let values = values_under(alloc, check, cone, pairs.as_slice())?;
    let Some(place) = first_true(values.as_slice(), tested) else {
        return Ok(Combined::Values(pairs));
    };
    let lines = refuted_at::<F>(alloc, check, reasons, choice, tested, determined, place)?;
    Ok(Combined::Refuted(lines))
}
