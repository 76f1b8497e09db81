//! The lines of a text, one after another.
use crate::questions::{Asked, Question};
use crate::reading::number;
use crate::refusals::Refusal;
use ffc_field::FieldId;
use std::alloc::Global;

/// The units of a question where no line says it.
const UNITS: u64 = 1_000_000;

/// What a line says.
#[derive(Clone, Copy)]
enum Word {
    Field,
    Units,
    Lines,
    Generator,
    One,
    Member,
}

const WORDS: [(&str, Word); 6] = [
    ("field", Word::Field),
    ("units", Word::Units),
    ("lines", Word::Lines),
    ("generator", Word::Generator),
    ("one", Word::One),
    ("member", Word::Member),
];

/// What the first word of a line means.
fn word_of(text: &str) -> Result<Word, Refusal> {
    for (known, word) in WORDS {
        if known == text {
            return Ok(word);
        }
    }
    Err(Refusal::Word)
}

/// That nothing comes after a word.
fn alone(rest: &str) -> Result<(), Refusal> {
    if rest.is_empty() {
        Ok(())
    } else {
        Err(Refusal::More)
    }
}

/// A problem so far: a field and generators.
#[derive(Drop)]
pub struct Problem<'a> {
    alloc: Global,
    field: Option<FieldId>,
    units: u64,
    shows_lines: bool,
    generators: Vec<&'a str>,
}

impl<'a> Problem<'a> {
    pub fn new(alloc: Global) -> Self {
        Problem {
            alloc,
            field: None,
            units: UNITS,
            shows_lines: false,
            generators: Vec::new(alloc),
        }
    }

    /// Begins a problem over the field of an order.
    fn begin(&mut self, order: &str) -> Result<(), Refusal> {
        let Ok(order) = order.parse::<u64>() else {
            return Err(Refusal::Order);
        };
        let Some(field) = FieldId::of_order(u128::from(order)) else {
            return Err(Refusal::Order);
        };
        *self = Problem::new(self.alloc);
        self.field = Some(field);
        Ok(())
    }

    /// Answers a question about the generators so far.
    fn ask(&self, asked: Asked<'a>, page: &mut String) -> Result<(), Refusal> {
        let Some(field) = self.field else {
            return Err(Refusal::NoField);
        };
        field.run(Question {
            alloc: self.alloc,
            generators: self.generators.as_slice(),
            asked,
            units: self.units,
            shows_lines: self.shows_lines,
            page,
        })
    }

    /// Takes a line. What is answered is appended to the page.
    pub fn take(&mut self, line: &'a str, page: &mut String) -> Result<(), Refusal> {
        let line = line.trim();
        if line.is_empty() || line.starts_with('#') {
            return Ok(());
        }
        let (first, rest) = line.split_once(' ').unwrap_or((line, ""));
        let rest = rest.trim();
        match word_of(first)? {
            Word::Field => self.begin(rest),
            Word::Units => {
                self.units = number(rest)?;
                Ok(())
            }
            Word::Lines => {
                alone(rest)?;
                self.shows_lines = true;
                Ok(())
            }
            Word::Generator => {
                self.ask(Asked::Polynomial(rest), page)?;
                self.generators.push(rest)?;
                Ok(())
            }
            Word::One => {
                alone(rest)?;
                self.ask(Asked::One, page)
            }
            Word::Member => self.ask(Asked::Member(rest), page),
        }
    }
}
