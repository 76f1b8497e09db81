//! What is answered of ideals.
use ffc_basis::{Pairs, Reduced};
use ffc_field::Field;
use ffc_line::Line;
use ffc_mono::GradedReverseLex;
use std::alloc::AllocError;

/// Whether 1 is in an ideal.
#[derive(Debug, Drop)]
pub enum IdealAnswer<F: Field> {
    /// It is. The lines are the generators and sums of multiples of earlier lines; the last one is a constant other than 0.
    One(Vec<Line<F, GradedReverseLex>>),
    /// It is not.
    Free,
    /// At these pairs of lines a limit was passed.
    SetAside(Vec<Line<F, GradedReverseLex>>, Pairs, Option<Reduced<F, GradedReverseLex>>),
}

/// Whether a polynomial is in an ideal.
#[derive(Debug, Drop)]
pub enum Membership<F: Field> {
    /// It is. The lines are the generators and sums of multiples of earlier lines; the last one is the polynomial.
    Inside(Vec<Line<F, GradedReverseLex>>),
    /// It is not.
    Outside,
    /// A limit was passed at these pairs of lines, or in the reduction of the polynomial, which is there then.
    SetAside(Vec<Line<F, GradedReverseLex>>, Pairs, Option<Reduced<F, GradedReverseLex>>),
}

/// Why there is no answer.
#[derive(Debug, Drop)]
pub enum IdealStop<F: Field> {
    /// The budget is spent. These are the lines so far.
    Spent(Vec<Line<F, GradedReverseLex>>),
    /// Out of memory.
    Memory,
}

impl<F: Field> From<AllocError> for IdealStop<F> {
    ghost use Rattle.std.specs.Prelude.{◌≡◌};
    ghost use Rattle.ffc_ideal.specs.declared.answers.IdealStop.TheVariants.{Memory};

    ghost from_gives = { λ _ stop. stop ≡ Memory };

    fn from(_: AllocError) -> IdealStop<F> {
        IdealStop::Memory
    }
}
