//! Whether 1, or a polynomial, is in the ideal of generators.
ghost use Rattle.std.specs.Prelude.{List, length, IfOk, IfErr, IfSome, IfNone};
ghost use Rattle.ffc_mono.specs.Orders.{graded_reverse_lex_cmp};
ghost use Rattle.ffc_ring.specs.Polynomial.{Terms, SamePolynomial, difference};
ghost use Rattle.ffc_line.specs.Lines.{polys_of, combination, AreBefore, AreLists, ArePolynomials};
ghost use Rattle.ffc_basis.specs.Reduction.{ArePartsAtMost, IsReduced, IsStopped};
ghost use Rattle.ffc_basis.specs.Completed.{IsCompletion};
ghost use Rattle.ffc_basis.specs.Units.{TakesReductions};
ghost use Rattle.ffc_ideal.specs.Answers.{AreBasisLines, ArePairsOf, IsIdealAnswer, IsMembership, IsIdealStop};
ghost use Rattle.ffc_ideal.specs.Answers.{IsWithinCompletion, IsWithinMembership};

use crate::answers::{IdealAnswer, IdealStop, Membership};
use crate::completing::{Completed, complete_generators, constant_line};
use crate::shown::{with_constant, with_member, with_multiple};
use ffc_base::{Meter, Stop};
use ffc_basis::{Completion, Pairs, Reduced};
use ffc_field::Field;
use ffc_line::Line;
use ffc_mono::GradedReverseLex;
use ffc_poly::Poly;
use std::alloc::{AllocError, Global};
use std::mem;

/// Whether 1 is in the ideal of the generators, that is, whether the equations that they are have no common zero in any
/// extension of the field (Cox, Little and O'Shea, chapter 4, section 1). Each S-polynomial that is formed and each multiple that
/// is subtracted is one Reduction.
pub fn closed_or_free<F: Field>(
    alloc: Global,
    gens: &[Poly<F, GradedReverseLex>],
    meter: &mut Meter,
) -> Result<IdealAnswer<F>, IdealStop<F>>
    ensures answer { IfOk result (IsIdealAnswer F.ORDER graded_reverse_lex_cmp gens.now) }
    ensures stop { IfErr result (IsIdealStop F.ORDER graded_reverse_lex_cmp gens.now meter.new
        (IsWithinCompletion F.ORDER meter.old)) }
    ensures reductions { TakesReductions meter.old meter.new }
{
    let Completed { basis, completion } = complete_generators(alloc, gens, meter)?;
    Ok(answer_by(alloc, basis.into_lines(), completion)?)
}

/// The answer that the lines of a completed basis give.
fn answer_by<F: Field>(
    alloc: Global,
    lines: Vec<Line<F, GradedReverseLex>>,
    completion: Completion,
) -> Result<IdealAnswer<F>, AllocError>
    requires lists { AreLists (polys_of lines.items) }
    requires completion { IsCompletion F.ORDER graded_reverse_lex_cmp (polys_of lines.items) completion }
    ensures { IfOk result (λ answer. (gens : List Terms) → AreBasisLines F.ORDER graded_reverse_lex_cmp gens lines.items
        → IsIdealAnswer F.ORDER graded_reverse_lex_cmp gens answer) }
{
    match completion {
        Completion::Constant(line) => Ok(IdealAnswer::One(with_constant(alloc, lines, line)?)),
        Completion::Closed => match constant_line(lines.as_slice()) {
            Some(line) => Ok(IdealAnswer::One(with_constant(alloc, lines, line)?)),
            None => Ok(IdealAnswer::Free),
        },
        Completion::SetAside(pairs) => match constant_line(lines.as_slice()) {
            Some(line) => Ok(IdealAnswer::One(with_constant(alloc, lines, line)?)),
            None => Ok(IdealAnswer::SetAside(lines, pairs, None)),
        },
    }
}

/// Whether a polynomial is in the ideal of the generators. The units are those of a completion and a reduction.
pub fn member<F: Field>(
    alloc: Global,
    gens: &[Poly<F, GradedReverseLex>],
    poly: &Poly<F, GradedReverseLex>,
    meter: &mut Meter,
) -> Result<Membership<F>, IdealStop<F>>
    ensures answer { IfOk result (IsMembership F.ORDER graded_reverse_lex_cmp gens.now poly.now) }
    ensures stop { IfErr result (IsIdealStop F.ORDER graded_reverse_lex_cmp gens.now meter.new
        (IsWithinMembership F.ORDER poly.now meter.old)) }
    ensures reductions { TakesReductions meter.old meter.new }
{
    let Completed {
        mut basis,
        completion,
    } = complete_generators(alloc, gens, meter)?;
    let pairs = match completion {
        Completion::Constant(line) => {
            let shown = with_multiple(alloc, basis.into_lines(), poly, line)?;
            return Ok(Membership::Inside(shown));
        }
        Completion::Closed => Pairs::new(alloc),
        Completion::SetAside(pairs) => pairs,
    };
    match basis.reduce(poly, meter) {
        Ok(reduced) => Ok(membership_by(alloc, basis.into_lines(), pairs, poly, reduced)?),
        Err(Stop::Spent) => Err(IdealStop::Spent(basis.into_lines())),
        Err(Stop::Memory) => Err(IdealStop::Memory),
    }
}

/// What the reduction of a polynomial by the lines of a completed basis says of it.
fn membership_by<F: Field>(
    alloc: Global,
    lines: Vec<Line<F, GradedReverseLex>>,
    pairs: Pairs,
    poly: &Poly<F, GradedReverseLex>,
    mut reduced: Reduced<F, GradedReverseLex>,
) -> Result<Membership<F>, AllocError>
    requires lists { AreLists (polys_of lines.items) }
    requires pairs { ArePairsOf F.ORDER graded_reverse_lex_cmp (polys_of lines.items) pairs }
    requires difference { SamePolynomial F.ORDER reduced.rest
        (difference F.ORDER poly.now (combination (polys_of lines.items) reduced.parts.items)) }
    requires before { AreBefore (length lines.items) reduced.parts.items }
    requires polynomials { ArePolynomials F.ORDER graded_reverse_lex_cmp reduced.parts.items }
    requires at_most { ArePartsAtMost F.ORDER graded_reverse_lex_cmp (polys_of lines.items) poly.now
        reduced.parts.items }
    requires reduced { IfNone reduced.over
        (IsReduced F.ORDER graded_reverse_lex_cmp (polys_of lines.items) reduced.rest) }
    requires over { IfSome reduced.over (λ t. IsStopped F.ORDER graded_reverse_lex_cmp (polys_of lines.items)
        reduced.rest reduced.parts.items t.0 t.1) }
    ensures { IfOk result (λ answer. (gens : List Terms) → AreBasisLines F.ORDER graded_reverse_lex_cmp gens lines.items
        → IsMembership F.ORDER graded_reverse_lex_cmp gens poly.now answer) }
{
    if reduced.rest.is_zero() {
        let parts = mem::replace(&mut reduced.parts, Vec::new(alloc));
        let shown = with_member(lines, poly, parts)?;
        return Ok(Membership::Inside(shown));
    }
    if reduced.over.is_some() {
        return Ok(Membership::SetAside(lines, pairs, Some(reduced)));
    }
    let _terms = reduced.rest.len();
    if pairs.as_slice().is_empty() {
        return Ok(Membership::Outside);
    }
    Ok(Membership::SetAside(lines, pairs, None))
}
