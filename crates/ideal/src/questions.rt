//! Questions about ideals, over a field that is still a name.
use crate::reading::{poly, polys};
use crate::refusals::Refusal;
use crate::writing::{Limits, Lines};
use ffc_base::Meter;
use ffc_field::{Field, ForField};
use ffc_ideal::{IdealAnswer, IdealStop, Membership, closed_or_free, member};
use ffc_mono::GradedReverseLex;
use ffc_poly::Poly;
use std::alloc::Global;
use std::fmt::Display;

/// What is asked.
#[derive(Clone, Copy)]
pub enum Asked<'a> {
    /// Nothing but whether this is a polynomial.
    Polynomial(&'a str),
    /// Whether 1 is in the ideal.
    One,
    /// Whether this polynomial is.
    Member(&'a str),
}

/// A question about the ideal of generators.
#[derive(Drop)]
pub struct Question<'a, 'b> {
    pub alloc: Global,
    pub generators: &'b [&'a str],
    pub asked: Asked<'a>,
    pub units: u64,
    /// Whether lines are printed.
    pub shows_lines: bool,
    pub page: &'b mut String,
}

/// Appends what is displayed of a value.
fn show<D: Display>(page: &mut String, value: &D) -> Result<(), Refusal> {
    match write!(page, "{value}") {
        Ok(()) => Ok(()),
        Err(_) => Err(Refusal::Memory),
    }
}

/// Prints an answer that lines show.
fn show_lines<F: Field>(
    page: &mut String,
    word: &str,
    lines: Lines<'_, F>,
    shows_lines: bool,
) -> Result<(), Refusal> {
    page.push_str(word)?;
    if shows_lines {
        show(page, &lines)?;
    }
    Ok(())
}

/// Prints why there is no answer, where that is not memory.
fn show_stop<F: Field>(page: &mut String, stop: &IdealStop<F>) -> Result<(), Refusal> {
    match stop {
        IdealStop::Spent(_) => {
            page.push_str("spent\n")?;
            Ok(())
        }
        IdealStop::Memory => Err(Refusal::Memory),
    }
}

/// Prints whether 1 is in the ideal.
fn ask_one<F: Field>(
    alloc: Global,
    gens: &[Poly<F, GradedReverseLex>],
    units: u64,
    shows_lines: bool,
    page: &mut String,
) -> Result<(), Refusal> {
    let generators = gens.len();
    match closed_or_free(alloc, gens, &mut Meter::new(units)) {
        Ok(IdealAnswer::One(lines)) => {
            let lines = Lines {
                lines: lines.as_slice(),
                generators,
            };
            show_lines(page, "one\n", lines, shows_lines)
        }
        Ok(IdealAnswer::Free) => {
            page.push_str("free\n")?;
            Ok(())
        }
        Ok(IdealAnswer::SetAside(_, pairs, stopped)) => {
            let limits = Limits {
                pairs: pairs.as_slice(),
                stopped: &stopped,
            };
            show(page, &limits)
        }
        Err(stop) => show_stop(page, &stop),
    }
}

/// Prints whether a polynomial is in the ideal.
fn ask_member<F: Field>(
    alloc: Global,
    gens: &[Poly<F, GradedReverseLex>],
    poly: &Poly<F, GradedReverseLex>,
    units: u64,
    shows_lines: bool,
    page: &mut String,
) -> Result<(), Refusal> {
    let generators = gens.len();
    match member(alloc, gens, poly, &mut Meter::new(units)) {
        Ok(Membership::Inside(lines)) => {
            let lines = Lines {
                lines: lines.as_slice(),
                generators,
            };
            show_lines(page, "inside\n", lines, shows_lines)
        }
        Ok(Membership::Outside) => {
            page.push_str("outside\n")?;
            Ok(())
        }
        Ok(Membership::SetAside(_, pairs, stopped)) => {
            let limits = Limits {
                pairs: pairs.as_slice(),
                stopped: &stopped,
            };
            show(page, &limits)
        }
        Err(stop) => show_stop(page, &stop),
    }
}

impl ForField for Question<'_, '_> {
    type Out = Result<(), Refusal>;

    ghost can_run = { λ _ _. Unit {0} };

    ghost gives = { λ _ _ _. Unit {0} };

    fn run<F: Field>(self) -> Result<(), Refusal> {
        if let Asked::Polynomial(text) = self.asked {
            let _poly = poly::<F>(self.alloc, text)?;
            return Ok(());
        }
        let gens = polys::<F>(self.alloc, self.generators)?;
        match self.asked {
            Asked::Member(text) => {
                let asked = poly::<F>(self.alloc, text)?;
                ask_member(
                    self.alloc,
                    gens.as_slice(),
                    &asked,
                    self.units,
                    self.shows_lines,
                    self.page,
                )
            }
            _ => ask_one(
                self.alloc,
                gens.as_slice(),
                self.units,
                self.shows_lines,
                self.page,
            ),
        }
    }
}
