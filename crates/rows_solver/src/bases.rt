//! Polynomials reduced by the lines of a basis, ideals completed to bases, and levels of generators.
use crate::naming::named;
use crate::page::Page;
use crate::reading::{Words, poly, polys, words_of};
use crate::writing::{write_monomial, write_poly};
use ffc_base::{Meter, Stop};
use ffc_basis::{Basis, Completion, Progress, Reduced};
use ffc_field::Field;
use ffc_line::{Line, LineId};
use ffc_mono::{Mono, MonoOrder, MonoRef};
use ffc_poly::Poly;
use std::alloc::Global;
use std::cmp::Ordering;

/// The most units of a completion in parts.
const UNITS: u64 = 1_000_000;

/// A step on a basis.
#[derive(Clone, Copy)]
enum Verb {
    Add,
    Cut,
    Reduce,
    Complete,
    Within,
    Parts,
    Lines,
    Leads,
    Sums,
}

const VERBS: [(&str, Verb); 9] = [
    ("add", Verb::Add),
    ("cut", Verb::Cut),
    ("reduce", Verb::Reduce),
    ("complete", Verb::Complete),
    ("within", Verb::Within),
    ("parts", Verb::Parts),
    ("lines", Verb::Lines),
    ("leads", Verb::Leads),
    ("sums", Verb::Sums),
];

/// A polynomial less the parts' multiples of the lines.
fn less_parts<F: Field, O: MonoOrder>(
    lines: &[Line<F, O>],
    poly: &Poly<F, O>,
    parts: &[(LineId, Poly<F, O>)],
) -> Option<Poly<F, O>> {
    let mut left = poly.clone().ok()?;
    for (number, factor) in parts {
        let line = lines.get(*number as usize)?;
        let multiple = factor.mul(&line.poly).ok()?;
        left = left.sub(&multiple).ok()?;
    }
    Some(left)
}

/// How many of the lines have parts, and how many of those are their sum.
fn count_sums<F: Field, O: MonoOrder>(lines: &[Line<F, O>]) -> Option<(u64, u64)> {
    let mut with_parts: u64 = 0;
    let mut sums: u64 = 0;
    for line in lines {
        if line.parts.len() > 0 {
            with_parts = with_parts.wrapping_add(1);
            if less_parts(lines, &line.poly, line.parts.as_slice())?.is_zero() {
                sums = sums.wrapping_add(1);
            }
        }
    }
    Some((with_parts, sums))
}

/// Writes whether each line with parts is their sum, and whether there is one.
fn write_sums<F: Field, O: MonoOrder>(page: &mut Page, lines: &[Line<F, O>]) -> Option<()> {
    let (with_parts, sums) = count_sums(lines)?;
    page.answer(with_parts == sums && sums > 0);
    Some(())
}

/// Whether a monomial is a multiple of the leading monomial of a line that is another one.
fn is_proper_multiple<F: Field, O: MonoOrder>(lines: &[Line<F, O>], m: MonoRef<'_>) -> bool {
    for line in lines {
        if let Some((_, lead)) = line.poly.lead() {
            if lead.divides(m) && !m.divides(lead) {
                return true;
            }
        }
    }
    false
}

/// Puts a monomial into a list that falls, where it is not in it.
fn put_falling<O: MonoOrder>(alloc: Global, list: &mut Vec<Mono>, m: MonoRef<'_>) -> Option<()> {
    let new = m.to_mono(alloc).ok()?;
    let mut place = 0usize;
    for other in list.iter() {
        match O::compare(other, &new) {
            Ordering::Greater => place = place.wrapping_add(1),
            Ordering::Equal => return Some(()),
            Ordering::Less => {}
        }
    }
    list.insert(place.min(list.len()), new).ok()
}

/// The leading monomials of the lines that are no multiples of others, each once, from the greatest.
fn least_leads<F: Field, O: MonoOrder>(alloc: Global, lines: &[Line<F, O>]) -> Option<Vec<Mono>> {
    let mut leads = Vec::new(alloc);
    for line in lines {
        if let Some((_, lead)) = line.poly.lead() {
            if !is_proper_multiple(lines, lead) {
                put_falling::<O>(alloc, &mut leads, lead)?;
            }
        }
    }
    Some(leads)
}

/// Writes these leading monomials.
fn write_leads<F: Field, O: MonoOrder>(
    alloc: Global,
    page: &mut Page,
    lines: &[Line<F, O>],
) -> Option<()> {
    let leads = least_leads(alloc, lines)?;
    let mut before = "";
    for lead in leads.iter() {
        page.say(before);
        write_monomial(page, lead);
        before = " ";
    }
    Some(())
}

/// Writes a remainder, and whether it is the polynomial less the parts' multiples of the lines.
fn write_reduced<F: Field, O: MonoOrder>(
    page: &mut Page,
    lines: &[Line<F, O>],
    poly: &Poly<F, O>,
    reduced: &Reduced<F, O>,
) -> Option<()> {
    write_poly(page, &reduced.rest);
    if reduced.over.is_some() {
        page.say(", past a limit");
    }
    let left = less_parts(lines, poly, reduced.parts.as_slice())?;
    page.say(", less the parts: ");
    page.answer(left == reduced.rest);
    Some(())
}

/// Writes pairs of lines.
fn write_pairs(page: &mut Page, pairs: &[(LineId, LineId)]) {
    for (first, second) in pairs {
        page.count(" ", u64::from(*first));
        page.count(",", u64::from(*second));
    }
}

/// Writes what a completion found.
pub fn write_completion(page: &mut Page, completion: &Completion) {
    match completion {
        Completion::Closed => page.say("closed"),
        Completion::Constant(line) => page.count("constant ", u64::from(*line)),
        Completion::SetAside(pairs) => {
            page.say("set aside");
            write_pairs(page, pairs.as_slice());
        }
    }
}

/// Writes what a completion found, or why it stopped.
fn write_completion_or(page: &mut Page, found: &Result<Completion, Stop>) {
    match found {
        Ok(completion) => write_completion(page, completion),
        Err(stop) => page.show(stop),
    }
}

/// Writes what a part of a completion found, or why it stopped.
pub fn write_progress(page: &mut Page, found: &Result<Progress, Stop>) {
    match found {
        Ok(Progress::Done(completion)) => write_completion(page, completion),
        Ok(Progress::Left) => page.say("pairs are left"),
        Err(stop) => page.show(stop),
    }
}

/// Completes a basis in parts of so many units.
fn complete_in_parts<F: Field, O: MonoOrder>(basis: &mut Basis<F, O>, units: u64, page: &mut Page) {
    let mut meter = Meter::new(UNITS);
    let mut found = basis.complete_within(units, &mut meter);
    page.say(if let Ok(Progress::Left) = found {
        "pairs were left, "
    } else {
        "at once, "
    });
    for _ in 0..UNITS {
        if let Ok(Progress::Left) = found {
            found = basis.complete_within(units, &mut meter);
        }
    }
    write_progress(page, &found);
}

/// Reads units and a polynomial, and reduces it by a basis.
fn reduce<F: Field, O: MonoOrder>(
    alloc: Global,
    basis: &mut Basis<F, O>,
    words: &mut Words<'_>,
    page: &mut Page,
) -> Option<()> {
    let mut meter = Meter::new(words.number()?);
    let poly = poly::<F, O>(alloc, words.next()?)?;
    match basis.reduce(&poly, &mut meter) {
        Ok(reduced) => return write_reduced(page, basis.lines(), &poly, &reduced),
        Err(stop) => page.show(&stop),
    }
    Some(())
}

/// Drops the lines from a number on.
fn cut<F: Field, O: MonoOrder>(basis: &mut Basis<F, O>, len: u64, page: &mut Page) -> Option<()> {
    if len > basis.lines().len() as u64 {
        return None;
    }
    basis.cut(len as usize);
    page.say("done");
    Some(())
}

/// Whether generators are added. With no contract of its own it keeps the proof of its caller short.
fn is_added<F: Field, O: MonoOrder>(basis: &mut Basis<F, O>, gens: &[Poly<F, O>]) -> bool {
    basis.add(gens).is_ok()
}

/// Adds the generators that are left to read.
fn add<F: Field, O: MonoOrder>(
    alloc: Global,
    basis: &mut Basis<F, O>,
    words: &Words<'_>,
    page: &mut Page,
) -> Option<()> {
    let gens = polys::<F, O>(alloc, words.rest())?;
    page.say(if is_added(basis, gens.as_slice()) {
        "done"
    } else {
        "out of memory"
    });
    Some(())
}

/// Completes a basis within so many units, and writes what is found.
fn complete<F: Field, O: MonoOrder>(basis: &mut Basis<F, O>, units: u64, page: &mut Page) {
    let found = basis.complete(&mut Meter::new(units));
    write_completion_or(page, &found);
}

/// Does a part of a completion of so many units, and writes what is found.
fn complete_within<F: Field, O: MonoOrder>(basis: &mut Basis<F, O>, units: u64, page: &mut Page) {
    let found = basis.complete_within(units, &mut Meter::new(UNITS));
    write_progress(page, &found);
}

/// Does a step on a basis.
fn step<F: Field, O: MonoOrder>(
    alloc: Global,
    basis: &mut Basis<F, O>,
    words: &mut Words<'_>,
    page: &mut Page,
) -> Option<()> {
    match named(&VERBS, words.next()?)? {
        Verb::Reduce => return reduce(alloc, basis, words, page),
        Verb::Leads => return write_leads(alloc, page, basis.lines()),
        Verb::Sums => return write_sums(page, basis.lines()),
        Verb::Add => add(alloc, basis, words, page)?,
        Verb::Cut => cut(basis, words.number()?, page)?,
        Verb::Lines => page.number(basis.lines().len() as u64),
        Verb::Parts => complete_in_parts(basis, words.number()?, page),
        Verb::Within => complete_within(basis, words.number()?, page),
        Verb::Complete => complete(basis, words.number()?, page),
    }
    Some(())
}

/// Begins a basis of generators, and does the steps.
pub fn row<F: Field, O: MonoOrder>(
    alloc: Global,
    words: &mut Words<'_>,
    steps: &[&str],
    page: &mut Page,
) -> Option<()> {
    let gens = polys::<F, O>(alloc, words.rest())?;
    let mut basis = Basis::<F, O>::start(alloc, gens.as_slice()).ok()?;
    page.say("begun");
    for text in steps {
        page.begin(text);
        let words = words_of(alloc, text)?;
        step(alloc, &mut basis, &mut Words::new(words.as_slice()), page)?;
    }
    Some(())
}
