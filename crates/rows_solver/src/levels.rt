//! Levels of generators that are pushed and popped.
use crate::bases::{write_completion, write_progress};
use crate::naming::named;
use crate::page::Page;
use crate::reading::{Words, poly, polys, words_of};
use crate::writing::write_poly;
use ffc_base::{Meter, Stop};
use ffc_basis::{Completion, Progress};
use ffc_field::Field;
use ffc_line::LineId;
use ffc_mono::MonoOrder;
use ffc_poly::Poly;
use ffc_stack::BasisStack;
use ffc_stack::laws::{pop_undoes_push, push_goes_on};
use std::alloc::Global;

/// A step on a stack of levels.
#[derive(Clone, Copy)]
enum Verb {
    Push,
    Parts,
    Pop,
    Reduce,
    Lines,
}

const VERBS: [(&str, Verb); 5] = [
    ("push", Verb::Push),
    ("parts", Verb::Parts),
    ("pop", Verb::Pop),
    ("reduce", Verb::Reduce),
    ("lines", Verb::Lines),
];

/// How many lines have no parts, and so are generators.
fn generators<F: Field, O: MonoOrder>(stack: &BasisStack<F, O>) -> u64 {
    let mut count: u64 = 0;
    for line in stack.lines() {
        if line.parts.is_empty() {
            count = count.wrapping_add(1);
        }
    }
    count
}

/// Writes how many levels and generators there are.
fn write_depth<F: Field, O: MonoOrder>(page: &mut Page, stack: &BasisStack<F, O>) {
    page.count("depth ", stack.depth());
    page.count(", generators ", generators(stack));
}

/// Writes how many generators a constant rests on.
fn write_constant<F: Field, O: MonoOrder>(
    page: &mut Page,
    stack: &BasisStack<F, O>,
    line: LineId,
) -> Option<()> {
    let generators = stack.generators_of(line).ok()?;
    page.count("constant of generators ", generators.len() as u64);
    Some(())
}

/// Writes what is found with a pushed level.
fn write_pushed<F: Field, O: MonoOrder>(
    page: &mut Page,
    stack: &BasisStack<F, O>,
    found: &Result<Completion, Stop>,
) -> Option<()> {
    match found {
        Ok(Completion::Constant(line)) => return write_constant(page, stack, *line),
        Ok(completion) => write_completion(page, completion),
        Err(stop) => page.show(stop),
    }
    Some(())
}

/// Pushes a level, and completes it in parts of one unit.
fn push_in_parts<F: Field, O: MonoOrder>(
    stack: &mut BasisStack<F, O>,
    gens: &[Poly<F, O>],
    meter: &mut Meter,
) -> Result<Progress, Stop> {
    let mut progress = stack.push_within(gens, 0, meter);
    for _ in 0..100u8 {
        if let Ok(Progress::Left) = progress {
            progress = stack.go_on(1, meter);
        }
    }
    progress
}

/// Pops so many levels, where there are as many.
fn pop<F: Field, O: MonoOrder>(stack: &mut BasisStack<F, O>, count: u64, page: &mut Page) {
    for _ in 0..count {
        if stack.depth() > 0 {
            stack.pop();
        }
    }
    write_depth(page, stack);
}

/// Pushes a level of the generators that are left to read, at once or in parts, within so many units.
fn push<F: Field, O: MonoOrder>(
    alloc: Global,
    stack: &mut BasisStack<F, O>,
    words: &mut Words<'_>,
    page: &mut Page,
    is_at_once: bool,
) -> Option<()> {
    let mut meter = Meter::new(words.number()?);
    let gens = polys::<F, O>(alloc, words.rest())?;
    if is_at_once {
        let found = stack.push(gens.as_slice(), &mut meter);
        write_pushed(page, stack, &found)?;
    } else {
        let found = push_in_parts(stack, gens.as_slice(), &mut meter);
        write_progress(page, &found);
    }
    page.say(", ");
    write_depth(page, stack);
    Some(())
}

/// Writes the remainder of a polynomial.
fn reduce<F: Field, O: MonoOrder>(
    alloc: Global,
    stack: &mut BasisStack<F, O>,
    words: &mut Words<'_>,
    page: &mut Page,
) -> Option<()> {
    let mut meter = Meter::new(words.number()?);
    let poly = poly::<F, O>(alloc, words.next()?)?;
    match stack.reduce(&poly, &mut meter) {
        Ok(reduced) => write_poly(page, &reduced.rest),
        Err(stop) => page.show(&stop),
    }
    Some(())
}

/// Does a step on a stack of levels.
fn step<F: Field, O: MonoOrder>(
    alloc: Global,
    stack: &mut BasisStack<F, O>,
    words: &mut Words<'_>,
    page: &mut Page,
) -> Option<()> {
    match named(&VERBS, words.next()?)? {
        Verb::Push => return push(alloc, stack, words, page, true),
        Verb::Parts => return push(alloc, stack, words, page, false),
        Verb::Reduce => return reduce(alloc, stack, words, page),
        Verb::Lines => page.number(stack.lines().len() as u64),
        Verb::Pop => pop(stack, words.number()?, page),
    }
    Some(())
}

/// Begins a stack with no level, and does the steps. The laws are called too: they are proved, and do nothing.
pub fn row<F: Field, O: MonoOrder>(alloc: Global, steps: &[&str], page: &mut Page) -> Option<()> {
    pop_undoes_push::<F, O>();
    push_goes_on::<F, O>();
    let mut stack = BasisStack::<F, O>::new(alloc);
    write_depth(page, &stack);
    for text in steps {
        page.begin(text);
        let words = words_of(alloc, text)?;
        step(alloc, &mut stack, &mut Words::new(words.as_slice()), page)?;
    }
    Some(())
}
