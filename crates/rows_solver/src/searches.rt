//! Values and refutations that a search finds.
use crate::page::Page;
use crate::reading::{Words, numbers, polys};
use crate::writing::write_elements;
use ffc_base::{Meter, SearchStop};
use ffc_field::Field;
use ffc_mono::MonoOrder;
use ffc_search::{Found, search};
use ffc_stack::BasisStack;
use std::alloc::Global;

/// What a search answers. With no contract of its own it keeps the proof of its caller short.
fn ask<F: Field, O: MonoOrder>(
    alloc: Global,
    stack: &mut BasisStack<F, O>,
    vars: &[u32],
    meter: &mut Meter,
) -> Result<Found<F>, SearchStop> {
    search(alloc, stack, vars, false, meter)
}

/// Writes what a search found.
fn write_found<F: Field>(page: &mut Page, found: &Result<Found<F>, SearchStop>) {
    match found {
        Ok(Found::Values(values)) => {
            page.say("values ");
            write_elements(page, values.as_slice());
        }
        Ok(Found::Closed(_, _)) => page.say("closed"),
        Err(stop) => page.show(stop),
    }
}

/// Searches, and writes what is found, and whether the stack is left with one level and as many lines as before.
fn write_searched<F: Field, O: MonoOrder>(
    alloc: Global,
    stack: &mut BasisStack<F, O>,
    vars: &[u32],
    meter: &mut Meter,
    page: &mut Page,
) {
    let lines = stack.lines().len();
    let found = ask(alloc, stack, vars, meter);
    write_found(page, &found);
    page.say(", stack kept: ");
    page.answer(stack.depth() == 1 && stack.lines().len() == lines);
}

/// The variables of these numbers.
fn variables(alloc: Global, text: &str) -> Option<Vec<u32>> {
    let mut out = Vec::new(alloc);
    for number in numbers(alloc, text)? {
        out.push(u32::try_from(number).ok()?).ok()?;
    }
    Some(out)
}

/// Pushes generators, which are hardly completed, and searches for values of these variables.
pub fn row<F: Field, O: MonoOrder>(
    alloc: Global,
    words: &mut Words<'_>,
    page: &mut Page,
) -> Option<()> {
    let vars = variables(alloc, words.next()?)?;
    let mut meter = Meter::new(words.number()?);
    let gens = polys::<F, O>(alloc, words.rest())?;
    let mut stack = BasisStack::<F, O>::new(alloc);
    let _ = stack.push_within(gens.as_slice(), 4, &mut meter).ok()?;
    write_searched(alloc, &mut stack, vars.as_slice(), &mut meter, page);
    Some(())
}
