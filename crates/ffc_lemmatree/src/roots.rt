//! Lines for the roots of a divisor.
ghost use Rattle.std.specs.Prelude.{◌≡◌, ◌+◌, ◌^◌, ◌<◌, ◌≤◌, ◌++◌, ◌∷◌, All, OnOk, IfOk, length, map};
ghost use Rattle.ffc_trees.specs.Closing.{written_step};
ghost use Rattle.ffc_uni.specs.Univariate.{IsNormal};
ghost use Rattle.ffc_lemmatree.specs.Written.{constant_lines, sum_line, split_lines, roots_lines, ending_lines};
ghost use Rattle.ffc_lemmatree.specs.Written.{IsNormalPair, IsNormalCase, AreNormalRoots, IsNormalEnding};
ghost use Rattle.ffc_lemmatree.specs.Written.{AreLowRoots, IsLowEnding, IsLowCase};

use crate::cases::{CaseNumbers, case_lines};
use crate::endings::{Ending, RootCase};
use crate::written::{coefficients, constant, residues, sum_line};
use ffc_cert::{CertLine, Sequence};
use ffc_field::Field;
use ffc_roots::Roots;
use ffc_uni::Uni;
use std::alloc::{AllocError, Global};

/// The line of a step of a chain.
fn step_line<F: Field>(alloc: Global, pair: &(Uni<F>, Uni<F>)) -> Result<CertLine, AllocError>
    ensures line { IfOk result (λ line. line ≡ written_step pair.now) }
    ensures normal { IfOk result (λ line. IsNormalPair F.ORDER pair.now) }
{
    let quotient = coefficients(alloc, &pair.0)?;
    let remainder = coefficients(alloc, &pair.1)?;
    Ok(CertLine::Step(Sequence::from_vec(quotient), Sequence::from_vec(remainder)))
}

/// Writes the steps of a chain.
fn write_steps<F: Field>(
    alloc: Global,
    lines: &mut Vec<CertLine>,
    pairs: &[(Uni<F>, Uni<F>)],
) -> Result<(), AllocError>
    ensures lines { OnOk result (lines.new.items ≡ lines.old.items ++ map written_step pairs.now) }
    ensures normal { OnOk result (All (IsNormalPair F.ORDER) pairs.now) }
{
    for pair in pairs {
        lines.push(step_line(alloc, pair)?)?;
    }
    Ok(())
}

/// The line of the product of the X - root, from those of the divisor and of the chain.
fn product_line<F: Field>(
    alloc: Global,
    x: u32,
    last: u32,
    next: u32,
    roots: &Roots<F>,
) -> Result<CertLine, AllocError>
    requires a { length roots.now.a ≤ 256 }
    requires b { length roots.now.b ≤ 256 }
    ensures line { IfOk result (λ line. line ≡ sum_line x last roots.now.a next roots.now.b) }
    ensures a { IfOk result (λ line. IsNormal F.ORDER roots.now.a) }
    ensures b { IfOk result (λ line. IsNormal F.ORDER roots.now.b) }
{
    let a = coefficients(alloc, &roots.a)?;
    let b = coefficients(alloc, &roots.b)?;
    sum_line(alloc, x, (last, &a), (next, &b))
}

/// The end where there is no root, and else the split with its cases.
fn split_lines<F: Field>(
    alloc: Global,
    numbers: CaseNumbers,
    count: u32,
    roots: &[F],
    cases: &[RootCase<F>],
) -> Result<Vec<CertLine>, AllocError>
    requires some { 0 < numbers.root_line }
    requires line { numbers.first_line + count < 2 ^ 32 }
    requires inverse { numbers.first_inverse + count < 2 ^ 32 }
    requires low { All (IsLowCase count) cases.now }
    ensures lines { IfOk result
        (λ lines. lines.items ≡ split_lines F.ORDER numbers (map F.value roots.now) cases.now) }
    ensures residues { IfOk result (λ lines. All (λ z. z < F.ORDER) (map F.value roots.now)) }
    ensures cases { IfOk result (λ lines. All (IsNormalCase F.ORDER) cases.now) }
{
    let values = residues(alloc, roots)?;
    let mut written = case_lines(alloc, numbers, count, cases)?;
    let mut lines = Vec::new(alloc);
    if roots.is_empty() {
        lines.push(CertLine::Close)?;
        return Ok(lines);
    }
    lines.push(CertLine::Split(
        numbers.root_line - 1,
        numbers.variable,
        Sequence::from_vec(values),
    ))?;
    lines.append(&mut written)?;
    Ok(lines)
}

/// What follows the line `last` of a divisor with these roots, where `next` is the number of the chain's line.
fn roots_lines<F: Field>(
    alloc: Global,
    last: u32,
    next: u32,
    numbers: CaseNumbers,
    count: u32,
    roots: &Roots<F>,
    cases: &[RootCase<F>],
) -> Result<Vec<CertLine>, AllocError>
    requires some { 0 < numbers.root_line }
    requires line { numbers.first_line + count < 2 ^ 32 }
    requires inverse { numbers.first_inverse + count < 2 ^ 32 }
    requires low { AreLowRoots count roots.now cases.now }
    ensures lines { IfOk result (λ lines. lines.items ≡ roots_lines F.ORDER last next numbers roots.now cases.now) }
    ensures normal { IfOk result (λ lines. AreNormalRoots F.ORDER roots.now cases.now) }
{
    let pairs = roots.chain.steps.as_slice();
    let mut lines = Vec::new(alloc);
    lines.push(CertLine::Chain(last, numbers.variable, pairs.len() as u32))?;
    write_steps(alloc, &mut lines, pairs)?;
    lines.push(product_line(alloc, numbers.variable, last, next, roots)?)?;
    let mut split = split_lines(alloc, numbers, count, roots.zeros.as_slice(), cases)?;
    lines.append(&mut split)?;
    Ok(lines)
}

/// A constant divisor closes.
fn constant_lines(alloc: Global, last: u32) -> Result<Vec<CertLine>, AllocError>
    ensures { IfOk result (λ lines. lines.items ≡ constant_lines last) }
{
    let mut multiples = Vec::new(alloc);
    multiples.push((last, constant(alloc, 1)?))?;
    let mut lines = Vec::new(alloc);
    lines.push(CertLine::Combine(Sequence::from_vec(multiples)))?;
    lines.push(CertLine::Close)?;
    Ok(lines)
}

/// What follows the line of the last divisor.
pub(crate) fn ending_lines<F: Field>(
    alloc: Global,
    last: u32,
    next: u32,
    numbers: CaseNumbers,
    count: u32,
    ending: &Ending<F>,
) -> Result<Vec<CertLine>, AllocError>
    requires some { 0 < numbers.root_line }
    requires line { numbers.first_line + count < 2 ^ 32 }
    requires inverse { numbers.first_inverse + count < 2 ^ 32 }
    requires low { IsLowEnding count ending.now }
    ensures lines { IfOk result (λ lines. lines.items ≡ ending_lines F.ORDER last next numbers ending.now) }
    ensures normal { IfOk result (λ lines. IsNormalEnding F.ORDER ending.now) }
{
    match ending {
        Ending::Constant => constant_lines(alloc, last),
        Ending::Roots { roots, cases } => {
            roots_lines(alloc, last, next, numbers, count, roots, cases.as_slice())
        }
    }
}
