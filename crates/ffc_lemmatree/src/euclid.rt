//! Lines for the steps of Euclid's algorithm.
ghost use Rattle.std.specs.Prelude.{◌≡◌, ◌+◌, ◌^◌, ◌<◌, ◌≤◌, All, IfOk, length};
ghost use Rattle.ffc_lemmatree.specs.Written as lines;
ghost use Rattle.ffc_lemmatree.specs.Written.{sum_line, euclid_lines, IsNormalStep, IsLowStep};

use crate::endings::EuclidStep;
use crate::written::{coefficients, sum_line};
use ffc_cert::CertLine;
use ffc_field::Field;
use std::alloc::{AllocError, Global};

/// The line of a step after the divisor in the line `last`.
fn step_line<F: Field>(
    alloc: Global,
    x: u32,
    last: u32,
    step: &EuclidStep<F>,
) -> Result<CertLine, AllocError>
    requires { IsLowStep step.now }
    ensures line { IfOk result (λ line. line ≡ sum_line x last step.now.a step.now.equation step.now.b) }
    ensures normal { IfOk result (λ line. IsNormalStep F.ORDER step.now) }
{
    let a = coefficients(alloc, &step.a)?;
    let b = coefficients(alloc, &step.b)?;
    sum_line(alloc, x, (last, &a), (step.equation, &b))
}

/// The lines of steps, from the divisor in the line `start` on. They have numbers from `first` on.
pub(crate) fn euclid_lines<F: Field>(
    alloc: Global,
    x: u32,
    start: u32,
    first: u32,
    steps: &[EuclidStep<F>],
) -> Result<Vec<CertLine>, AllocError>
    requires few { first + length steps.now < 2 ^ 32 }
    requires low { All IsLowStep steps.now }
    ensures lines { IfOk result (λ lines. lines.items ≡ euclid_lines x start first steps.now) }
    ensures normal { IfOk result (λ lines. All (IsNormalStep F.ORDER) steps.now) }
{
    let mut lines = Vec::new(alloc);
    let mut last = start;
    let mut next = first;
    for step in steps {
        lines.push(step_line(alloc, x, last, step)?)?;
        last = next;
        next += 1;
    }
    Ok(lines)
}

/// The number of the last divisor's line after so many steps.
pub(crate) fn last_divisor(start: u32, first: u32, count: usize) -> u32
    requires { first + count < 2 ^ 32 }
    ensures { result ≡ lines.last_divisor start first count }
{
    if count == 0 {
        start
    } else {
        first + (count as u32 - 1)
    }
}
