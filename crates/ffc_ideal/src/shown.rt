//! Lines that show what is in an ideal.
ghost use Rattle.std.specs.Prelude.{◌≡◌, ◌≢◌, [], List, length, IfOk};
ghost use Rattle.ffc_mono.specs.Orders.{graded_reverse_lex_cmp};
ghost use Rattle.ffc_ring.specs.Polynomial.{Terms, SamePolynomial, product};
ghost use Rattle.ffc_poly.specs.Ordered.{IsConstant};
ghost use Rattle.ffc_line.specs.Lines.{polys_of, combination, AreBefore};
ghost use Rattle.ffc_basis.specs.Completion.{IsConstantLine};
ghost use Rattle.ffc_ideal.specs.Answers.{AreBasisLines, ShowSums, ShowOne, ShowMember};

use ffc_field::Field;
use ffc_line::{Line, LineId};
use ffc_mono::GradedReverseLex;
use ffc_poly::{Poly, PolyStop};
use std::alloc::{AllocError, Global};

/// What a constant other than 0 is multiplied by to give a polynomial.
fn quotient_by<F: Field>(
    poly: &Poly<F, GradedReverseLex>,
    constant: &Poly<F, GradedReverseLex>,
) -> Result<Poly<F, GradedReverseLex>, AllocError>
    requires nonzero { constant.now ≢ [] }
    requires constant { IsConstant F.ORDER constant.now }
    ensures { IfOk result (λ q. SamePolynomial F.ORDER poly.now (product q constant.now)) }
{
    let _terms = poly.len();
    let Some(lead) = constant.lead() else {
        unreachable!();
    };
    let Some(inverse) = lead.0.inv() else {
        unreachable!();
    };
    match poly.scale(inverse) {
        Ok(quotient) => Ok(quotient),
        Err(PolyStop::Memory) => Err(AllocError),
        Err(_) => unreachable!(),
    }
}

/// The lines, and a polynomial as the last one, which is the sum of these parts.
pub fn with_member<F: Field>(
    mut lines: Vec<Line<F, GradedReverseLex>>,
    poly: &Poly<F, GradedReverseLex>,
    parts: Vec<(LineId, Poly<F, GradedReverseLex>)>,
) -> Result<Vec<Line<F, GradedReverseLex>>, AllocError>
    requires before { AreBefore (length lines.items) parts.items }
    requires sum { SamePolynomial F.ORDER poly.now (combination (polys_of lines.items) parts.items) }
    ensures { IfOk result (λ r. (gens : List Terms) → AreBasisLines F.ORDER graded_reverse_lex_cmp gens lines.items
        → ShowMember F.ORDER gens poly.now r.items × (parts.items ≢ [] → ShowSums F.ORDER gens r.items)) }
{
    lines.push(Line {
        poly: poly.clone()?,
        parts,
    })?;
    Ok(lines)
}

/// The lines, and a polynomial as the last one, which is a multiple of a constant other than 0.
pub fn with_multiple<F: Field>(
    alloc: Global,
    lines: Vec<Line<F, GradedReverseLex>>,
    poly: &Poly<F, GradedReverseLex>,
    constant: LineId,
) -> Result<Vec<Line<F, GradedReverseLex>>, AllocError>
    requires { IsConstantLine F.ORDER (polys_of lines.items) constant }
    ensures { IfOk result (λ r. (gens : List Terms) → AreBasisLines F.ORDER graded_reverse_lex_cmp gens lines.items
        → ShowMember F.ORDER gens poly.now r.items × ShowSums F.ORDER gens r.items) }
{
    let quotient = quotient_by(poly, &lines[constant as usize].poly)?;
    let mut parts = Vec::new(alloc);
    parts.push((constant, quotient))?;
    with_member(lines, poly, parts)
}

/// The lines, which end with a constant other than 0: the one with this number, or that line again.
pub fn with_constant<F: Field>(
    alloc: Global,
    lines: Vec<Line<F, GradedReverseLex>>,
    constant: LineId,
) -> Result<Vec<Line<F, GradedReverseLex>>, AllocError>
    requires { IsConstantLine F.ORDER (polys_of lines.items) constant }
    ensures { IfOk result (λ r. (gens : List Terms) → AreBasisLines F.ORDER graded_reverse_lex_cmp gens lines.items
        → ShowOne F.ORDER gens r.items) }
{
    let place = constant as usize;
    if place + 1 == lines.len() {
        return Ok(lines);
    }
    let poly = lines[place].poly.clone()?;
    with_multiple(alloc, lines, &poly, constant)
}
