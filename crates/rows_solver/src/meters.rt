//! Meters, and the units that are taken from them.
use crate::naming::named;
use crate::page::Page;
use crate::reading::{Words, words_of};
use ffc_base::{Meter, Unit};
use std::alloc::Global;

/// A step on a meter.
#[derive(Clone, Copy)]
enum Verb {
    Take,
    Count,
    Budget,
}

const VERBS: [(&str, Verb); 3] = [
    ("take", Verb::Take),
    ("count", Verb::Count),
    ("budget", Verb::Budget),
];

const UNITS: [(&str, Unit); 4] = [
    ("trial", Unit::Trial),
    ("reduction", Unit::Reduction),
    ("assignment", Unit::Assignment),
    ("chain", Unit::Chain),
];

/// The next word, as a kind of unit.
fn unit(words: &mut Words<'_>) -> Option<Unit> {
    named(&UNITS, words.next()?)
}

/// Takes a unit, and writes whether there was one.
fn write_taken(page: &mut Page, meter: &mut Meter, unit: Unit) {
    page.say(match meter.take(unit) {
        Ok(()) => "taken",
        Err(_) => "spent",
    });
}

/// Does a step on a meter.
fn step(meter: &mut Meter, words: &mut Words<'_>, page: &mut Page) -> Option<()> {
    match named(&VERBS, words.next()?)? {
        Verb::Take => write_taken(page, meter, unit(words)?),
        Verb::Count => page.number(meter.count(unit(words)?)),
        Verb::Budget => page.number(meter.budget()),
    }
    Some(())
}

/// Begins a meter with a budget, and does the steps.
pub fn row(alloc: Global, words: &mut Words<'_>, steps: &[&str], page: &mut Page) -> Option<()> {
    let mut meter = Meter::new(words.number()?);
    page.say("begun");
    for text in steps {
        page.begin(text);
        let words = words_of(alloc, text)?;
        step(&mut meter, &mut Words::new(words.as_slice()), page)?;
    }
    Some(())
}
