//! Completed bases of generators.
ghost use Rattle.std.specs.Prelude.{IfOk, IfErr, IfSome, IfNone, OnOk};
ghost use Rattle.ffc_mono.specs.Orders.{graded_reverse_lex_cmp};
ghost use Rattle.ffc_line.specs.Lines.{polys_of, AreLists};
ghost use Rattle.ffc_basis.specs.Completion.{IsConstantLine};
ghost use Rattle.ffc_basis.specs.Completed.{IsCompletion};
ghost use Rattle.ffc_basis.specs.Units.{TakesReductions, IsCompletionBound};
ghost use Rattle.ffc_ideal.specs.Answers.{AreBasisLines, HasNoConstant, IsIdealStop, IsWithinCompletion};

use crate::answers::IdealStop;
use ffc_base::{Meter, Stop};
use ffc_basis::{Basis, Completion};
use ffc_field::Field;
use ffc_line::{Line, LineId};
use ffc_mono::GradedReverseLex;
use ffc_poly::Poly;
use std::alloc::Global;

/// A basis and how far it was completed.
pub struct Completed<F: Field> {
    pub basis: Basis<F, GradedReverseLex>,
    pub completion: Completion,
}

/// Completes the basis of these generators.
pub fn complete_generators<F: Field>(
    alloc: Global,
    gens: &[Poly<F, GradedReverseLex>],
    meter: &mut Meter,
) -> Result<Completed<F>, IdealStop<F>>
    ensures lines { IfOk result (λ r. AreBasisLines F.ORDER graded_reverse_lex_cmp gens.now r.basis) }
    ensures completion { IfOk result (λ r. IsCompletion F.ORDER graded_reverse_lex_cmp (polys_of r.basis) r.completion) }
    ensures bound { IfOk result (λ r. IsCompletionBound F.ORDER graded_reverse_lex_cmp (polys_of r.basis)
        meter.old meter.new) }
    ensures stop { IfErr result (IsIdealStop F.ORDER graded_reverse_lex_cmp gens.now meter.new
        (IsWithinCompletion F.ORDER meter.old)) }
    ensures reductions { TakesReductions meter.old meter.new }
{
    let mut basis = Basis::start(alloc, gens)?;
    match basis.complete(meter) {
        Ok(completion) => {
            let _lines = basis.lines();
            Ok(Completed { basis, completion })
        }
        Err(Stop::Spent) => Err(IdealStop::Spent(basis.into_lines())),
        Err(Stop::Memory) => Err(IdealStop::Memory),
    }
}

/// The number of a line that is a constant other than 0.
pub fn constant_line<F: Field>(lines: &[Line<F, GradedReverseLex>]) -> Option<LineId>
    ensures found { IfSome result (IsConstantLine F.ORDER (polys_of lines.now)) }
    ensures none { IfNone result (HasNoConstant F.ORDER (polys_of lines.now)) }
{
    for (place, line) in lines.iter().enumerate() {
        if !line.poly.is_zero() && line.poly.is_constant() {
            return Some(place as LineId);
        }
    }
    None
}
