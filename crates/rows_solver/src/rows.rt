//! Which library a row is about.
use crate::naming::{MonomialOrder, field, named, ordering};
use crate::page::Page;
use crate::reading::{Words, words_of};
use crate::{
    bases, fields, formulas, levels, meters, monomials, one_variable, outside, polynomials,
    searches, tables,
};
use ffc_field::{BabyBear, F5, Field, FieldId, ForField, Goldilocks};
use ffc_mono::{GradedReverseLex, Lex, MonoOrder};
use std::alloc::Global;
use std::rt::Files;

/// What the first word of a row names.
#[derive(Clone, Copy)]
enum Subject {
    Single(Single),
    Table,
    Clauses,
    Source,
    Sink,
    Meter,
    Over(OverField),
    /// A subject over one of three fields and an order of monomials, which the next words name.
    Ordered(OverBoth),
}

/// A subject whose rows have one step.
#[derive(Clone, Copy)]
enum Single {
    Orders,
    Laws,
    Mono,
}

/// A subject over a field, which the second word names.
#[derive(Clone, Copy)]
enum OverField {
    Field,
    Uni,
}

/// A subject over a field and an order of monomials.
#[derive(Clone, Copy)]
enum OverBoth {
    Poly,
    Basis,
    Stack,
    Search,
}

const SUBJECTS: [(&str, Subject); 14] = [
    ("order", Subject::Single(Single::Orders)),
    ("laws", Subject::Single(Single::Laws)),
    ("mono", Subject::Single(Single::Mono)),
    ("table", Subject::Table),
    ("clauses", Subject::Clauses),
    ("source", Subject::Source),
    ("sink", Subject::Sink),
    ("meter", Subject::Meter),
    ("field", Subject::Over(OverField::Field)),
    ("uni", Subject::Over(OverField::Uni)),
    ("poly", Subject::Ordered(OverBoth::Poly)),
    ("basis", Subject::Ordered(OverBoth::Basis)),
    ("stack", Subject::Ordered(OverBoth::Stack)),
    ("search", Subject::Ordered(OverBoth::Search)),
];

/// Does a row over a field and an order of monomials.
fn over_both<F: Field, O: MonoOrder>(
    alloc: Global,
    subject: OverBoth,
    words: &mut Words<'_>,
    steps: &[&str],
    page: &mut Page,
) -> Option<()> {
    match subject {
        OverBoth::Poly => {
            alone(steps)?;
            polynomials::row::<F, O>(alloc, words, page)
        }
        OverBoth::Basis => bases::row::<F, O>(alloc, words, steps, page),
        OverBoth::Stack => levels::row::<F, O>(alloc, steps, page),
        OverBoth::Search => {
            alone(steps)?;
            searches::row::<F, O>(alloc, words, page)
        }
    }
}

/// Does a row over a field and an order of monomials that is still a name.
fn ordered<F: Field>(
    alloc: Global,
    subject: OverBoth,
    words: &mut Words<'_>,
    steps: &[&str],
    page: &mut Page,
) -> Option<()> {
    match ordering(words.next()?)? {
        MonomialOrder::Lex => over_both::<F, Lex>(alloc, subject, words, steps, page),
        MonomialOrder::GradedReverseLex => {
            over_both::<F, GradedReverseLex>(alloc, subject, words, steps, page)
        }
    }
}

/// A row over a field that is still a name.
#[derive(Drop)]
struct Work<'a, 'b> {
    alloc: Global,
    subject: OverField,
    words: Words<'a>,
    steps: &'a [&'a str],
    page: &'b mut Page,
}

impl ForField for Work<'_, '_> {
    type Out = Option<()>;

    ghost can_run = { λ _ _. Unit {0} };

    ghost gives = { λ _ _ _. Unit {0} };

    fn run<F: Field>(self) -> Option<()> {
        let mut words = self.words;
        match self.subject {
            OverField::Field => {
                alone(self.steps)?;
                fields::row::<F>(&mut words, self.page)
            }
            OverField::Uni => {
                alone(self.steps)?;
                one_variable::row::<F>(self.alloc, &mut words, self.page)
            }
        }
    }
}

/// Does a row over a field.
fn over_field(
    alloc: Global,
    subject: OverField,
    mut words: Words<'_>,
    steps: &[&str],
    page: &mut Page,
) -> Option<()> {
    let id = field(words.next()?)?;
    id.run(Work {
        alloc,
        subject,
        words,
        steps,
        page,
    })
}

/// Does a row over a field and an order of monomials. Each field is a copy of the whole search, so there are three.
fn over_order(
    alloc: Global,
    subject: OverBoth,
    mut words: Words<'_>,
    steps: &[&str],
    page: &mut Page,
) -> Option<()> {
    match field(words.next()?)? {
        FieldId::F5 => ordered::<F5>(alloc, subject, &mut words, steps, page),
        FieldId::BabyBear => ordered::<BabyBear>(alloc, subject, &mut words, steps, page),
        FieldId::Goldilocks => ordered::<Goldilocks>(alloc, subject, &mut words, steps, page),
        _ => None,
    }
}

/// Whether a subject that has no further steps is alone in its row.
pub fn alone(steps: &[&str]) -> Option<()> {
    if steps.is_empty() { Some(()) } else { None }
}

/// Does a row of a subject that has one step.
fn one_step<R: AllocGlobal>(
    rt: &R,
    subject: Single,
    words: &mut Words<'_>,
    page: &mut Page,
) -> Option<()> {
    match subject {
        Single::Orders => fields::order(words, page),
        Single::Laws => fields::laws(page),
        Single::Mono => monomials::row(rt.alloc(), words, page),
    }
}

/// Does a row: the words of its first step, and the further steps.
fn begin<R: Files + Input + Print + AllocGlobal>(
    rt: &R,
    mut words: Words<'_>,
    steps: &[&str],
    page: &mut Page,
) -> Option<()> {
    let alloc = rt.alloc();
    match named(&SUBJECTS, words.next()?)? {
        Subject::Single(subject) => {
            alone(steps)?;
            one_step(rt, subject, &mut words, page)
        }
        Subject::Table => tables::row(alloc, steps, page),
        Subject::Clauses => formulas::row(alloc, &mut words, steps, page),
        Subject::Source => outside::source_row(rt, &mut words, steps, page),
        Subject::Sink => outside::sink_row(rt, &mut words, steps, page),
        Subject::Meter => meters::row(alloc, &mut words, steps, page),
        Subject::Over(subject) => over_field(alloc, subject, words, steps, page),
        Subject::Ordered(subject) => over_order(alloc, subject, words, steps, page),
    }
}

/// Does the steps of a row.
fn steps_of<R: Files + Input + Print + AllocGlobal>(
    rt: &R,
    page: &mut Page,
    line: &str,
) -> Option<()> {
    let steps: Vec<&str> = line.split('|').collect(rt.alloc()).ok()?;
    let (first, steps) = steps.as_slice().split_first()?;
    let words = words_of(rt.alloc(), first)?;
    page.begin(first);
    begin(rt, Words::new(words.as_slice()), steps, page)
}

/// Writes a row with what is found. A row is refused where it is not written as it should be, or where what a call
/// requires does not hold.
pub fn row<R: Files + Input + Print + AllocGlobal>(rt: &R, page: &mut Page, line: &str) {
    if steps_of(rt, page, line).is_none() {
        page.say("refused");
    }
}
