//! Whether what a solver found is few enough to be written.
ghost use Rattle.std.specs.Prelude.{◌<◌, ◌≤◌, ◌↔◌, All, IsTrue, length};
ghost use Rattle.ffc_lemmatree.specs.Written.{IsLowStep, IsLowCase, AreLowRoots, IsLowEnding, IsLow};

use crate::endings::{Ending, EuclidStep, RootCase};
use crate::written::MOST_COEFFICIENTS;
use ffc_field::Field;
use ffc_roots::Roots;
use ffc_uni::Uni;

/// How many nodes a table has at most.
const MOST_NODES: u32 = 1_048_576;

/// How many steps of Euclid's algorithm are written at most.
const MOST_STEPS: usize = 256;

/// How many steps the chain of a power has at most.
const MOST_PAIRS: usize = 126;

/// Whether a polynomial has few coefficients.
fn is_low<F: Field>(u: &Uni<F>) -> bool
    ensures { IsTrue result ↔ (length u.now ≤ 256) }
{
    u.coefs().len() <= MOST_COEFFICIENTS
}

/// Whether the factors of each step have.
fn are_low_steps<F: Field>(steps: &[EuclidStep<F>]) -> bool
    ensures { IsTrue result ↔ All IsLowStep steps.now }
{
    for step in steps {
        if !is_low(&step.a) || !is_low(&step.b) {
            return false;
        }
    }
    true
}

/// Whether each case is that of one of so many disequations, with a quotient of few coefficients.
fn are_low_cases<F: Field>(count: u32, cases: &[RootCase<F>]) -> bool
    ensures { IsTrue result ↔ All (IsLowCase count) cases.now }
{
    for case in cases {
        if case.disequation >= count || !is_low(&case.quotient) {
            return false;
        }
    }
    true
}

/// Whether the roots of a divisor are few enough.
fn are_low_roots<F: Field>(count: u32, roots: &Roots<F>, cases: &[RootCase<F>]) -> bool
    ensures { IsTrue result ↔ AreLowRoots count roots.now cases.now }
{
    roots.chain.steps.as_slice().len() <= MOST_PAIRS
        && is_low(&roots.a)
        && is_low(&roots.b)
        && are_low_cases(count, cases)
}

/// Whether an ending is few enough.
fn is_low_ending<F: Field>(count: u32, ending: &Ending<F>) -> bool
    ensures { IsTrue result ↔ IsLowEnding count ending.now }
{
    match ending {
        Ending::Constant => true,
        Ending::Roots { roots, cases } => are_low_roots(count, roots, cases.as_slice()),
    }
}

/// Whether steps and ending are, after so many nodes, where there are so many disequations.
pub(crate) fn fits<F: Field>(
    nodes: u32,
    count: u32,
    steps: &[EuclidStep<F>],
    ending: &Ending<F>,
) -> bool
    ensures { IsTrue result ↔ IsLow nodes count steps.now ending.now }
{
    nodes <= MOST_NODES
        && steps.len() <= MOST_STEPS
        && are_low_steps(steps)
        && is_low_ending(count, ending)
}
