//! Lines for the cases of roots.
ghost use Rattle.std.specs.Prelude.{◌≡◌, ◌+◌, ◌^◌, ◌<◌, ◌≤◌, ◌∷◌, [], All, IfOk, length};
ghost use Rattle.ffc_cert.specs.declared.entries.CertLine.TheVariants.{Close};
ghost use Rattle.ffc_lemmatree.specs.Written.{root_case_lines, all_case_lines, IsNormalCase, IsLowCase};

use crate::endings::RootCase;
use crate::written::{coefficients, constant, polynomial_times};
use ffc_cert::{CertLine, Sequence};
use ffc_field::Field;
use std::alloc::{AllocError, Global};

/// The numbers that the lines of all cases have in common: the variable, the line of the first disequation and the variable of
/// its inverse, and the line of X less the root.
#[derive(Clone, Copy)]
pub(crate) struct CaseNumbers {
    pub variable: u32,
    pub first_line: u32,
    pub first_inverse: u32,
    pub root_line: u32,
}

/// The sum that is 1 in the case of a root.
fn case_line<F: Field>(
    alloc: Global,
    numbers: CaseNumbers,
    case: &RootCase<F>,
) -> Result<CertLine, AllocError>
    requires line { numbers.first_line + case.now.disequation < 2 ^ 32 }
    requires inverse { numbers.first_inverse + case.now.disequation < 2 ^ 32 }
    requires low { length case.now.quotient ≤ 256 }
    ensures line { IfOk result (λ line. line ∷ Close ∷ [] ≡ root_case_lines F.ORDER numbers case.now) }
    ensures normal { IfOk result (λ line. IsNormalCase F.ORDER case.now) }
{
    let quotient = coefficients(alloc, &case.quotient)?;
    let inverse = numbers.first_inverse + case.disequation;
    let factor = polynomial_times(alloc, numbers.variable, &quotient, inverse)?;
    let mut multiples = Vec::new(alloc);
    multiples.push((numbers.root_line, factor))?;
    multiples.push((
        numbers.first_line + case.disequation,
        constant(alloc, F::of(1).neg().residue())?,
    ))?;
    Ok(CertLine::Combine(Sequence::from_vec(multiples)))
}

/// The lines of all cases.
pub(crate) fn case_lines<F: Field>(
    alloc: Global,
    numbers: CaseNumbers,
    count: u32,
    cases: &[RootCase<F>],
) -> Result<Vec<CertLine>, AllocError>
    requires line { numbers.first_line + count < 2 ^ 32 }
    requires inverse { numbers.first_inverse + count < 2 ^ 32 }
    requires low { All (IsLowCase count) cases.now }
    ensures lines { IfOk result (λ lines. lines.items ≡ all_case_lines F.ORDER numbers cases.now) }
    ensures normal { IfOk result (λ lines. All (IsNormalCase F.ORDER) cases.now) }
{
    let mut lines = Vec::new(alloc);
    for case in cases {
        lines.push(case_line(alloc, numbers, case)?)?;
        lines.push(CertLine::Close)?;
    }
    Ok(lines)
}
