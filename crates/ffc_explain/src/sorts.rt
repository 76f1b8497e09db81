//! Which sort a term has that does not belong where it stands, and which sort belongs there.
ghost use Rattle.std.specs.Prelude.{IfSome};
ghost use Rattle.ffc_words.specs.Given.{IsGiven};

use crate::page::Page;
use ffc_elab::Context;
use ffc_lex::{Form, Lexer, Token, TokenKind};
use ffc_words::ScriptFault;
use std::alloc::Global;

/// The orders of the fields, as scripts write them.
const ORDERS: [&str; 8] = [
    "2",
    "3",
    "5",
    "17",
    "65537",
    "2013265921",
    "2130706433",
    "18446744069414584321",
];

/// A sort by which a term is tried.
#[derive(Clone, Copy)]
enum Tried {
    Bool,
    Field(&'static str),
    AnyField,
}

/// The command with a fault, cut at the term that the fault is at, and what the commands before it leave.
#[derive(Drop)]
struct Faulty<'a> {
    context: Context,
    before: &'a [u8],
    term: &'a [u8],
    after: &'a [u8],
}

/// The byte after a token.
fn end_of(token: &Token) -> u64 {
    token.start.saturating_add(token.length)
}

/// Where the term at a place begins and ends: a token, or all up to the parenthesis that closes it.
fn extent(form: &Form, fault: ScriptFault) -> Option<(u64, u64)> {
    let mut start = None;
    let mut depth = 0u64;
    for token in form.tokens() {
        if start.is_none() {
            if token.line != fault.line || token.column != fault.column {
                continue;
            }
            start = Some(token.start);
        }
        match token.kind {
            TokenKind::LeftParen => depth = depth.saturating_add(1),
            TokenKind::RightParen => depth = depth.saturating_sub(1),
            _ => {}
        }
        if depth == 0 {
            return start.map(|from| (from, end_of(token)));
        }
    }
    None
}

/// The bytes of a text between two places.
fn between(text: &[u8], from: u64, to: u64) -> &[u8] {
    let end = to.min(text.len() as u64) as usize;
    let start = from.min(end as u64) as usize;
    &text[start..end]
}

/// A command that is cut at the term with the fault.
fn cut<'a>(
    script: &'a [u8],
    form: &Form,
    fault: ScriptFault,
    context: Context,
) -> Option<Faulty<'a>> {
    let tokens = form.tokens();
    let (first, last) = (tokens.first()?, tokens.last()?);
    let (start, end) = extent(form, fault)?;
    Some(Faulty {
        context,
        before: between(script, first.start, start),
        term: between(script, start, end),
        after: between(script, end, end_of(last)),
    })
}

/// The next form of a text, if there is one and memory for it.
fn next_form(lexer: &mut Lexer) -> Option<Form>
    ensures { IfSome result (λ form. IsGiven form lexer.new) }
{
    match lexer.next_form() {
        Ok(Some(form)) => Some(form),
        _ => None,
    }
}

/// The command with the fault. None where memory is out.
fn faulty_command<'a>(alloc: Global, script: &'a [u8], fault: ScriptFault) -> Option<Faulty<'a>> {
    let mut lexer = Lexer::new(alloc);
    lexer.feed(script).ok()?;
    let mut context = Context::new(alloc).ok()?;
    for _ in 0..u64::MAX {
        let form = next_form(&mut lexer)?;
        if context.take(&form, &lexer).is_err() {
            return cut(script, &form, fault, context);
        }
    }
    None
}

/// Whether a command is taken.
fn takes(alloc: Global, context: &mut Context, command: Page) -> bool {
    let Ok(text) = command.finish() else {
        return false;
    };
    let mut lexer = Lexer::new(alloc);
    if lexer.feed(text.as_slice()).is_err() {
        return false;
    }
    match next_form(&mut lexer) {
        Some(form) => context.take(&form, &lexer).is_ok(),
        None => false,
    }
}

/// A command of its own.
fn plain(alloc: Global, text: &str) -> Page {
    let mut page = Page::new(alloc);
    page.text(text);
    page
}

/// Writes a sort.
fn write_sort(sort: Tried, page: &mut Page) {
    match sort {
        Tried::Bool => page.text("Bool"),
        Tried::AnyField => page.text("a field element"),
        Tried::Field(order) => {
            page.text("(_ FiniteField ");
            page.text(order);
            page.text(")");
        }
    }
}

/// Whether the term is of a sort: a function is defined by it.
fn is_of(alloc: Global, faulty: &mut Faulty<'_>, sort: Tried) -> bool {
    let mut page = plain(alloc, "(define-fun |the sort of a term| () ");
    write_sort(sort, &mut page);
    page.text(" ");
    page.bytes(faulty.term);
    page.text(")");
    takes(alloc, &mut faulty.context, page)
}

/// Whether a constant of a sort may stand in the term's place. What the command does is undone.
fn belongs(alloc: Global, faulty: &mut Faulty<'_>, sort: Tried) -> bool {
    let mut page = Page::new(alloc);
    page.bytes(faulty.before);
    match sort {
        Tried::Field(order) => {
            page.text("#f0m");
            page.text(order);
        }
        Tried::Bool | Tried::AnyField => page.text("true"),
    }
    page.bytes(faulty.after);
    takes(alloc, &mut faulty.context, plain(alloc, "(push 1)"));
    let is_taken = takes(alloc, &mut faulty.context, page);
    takes(alloc, &mut faulty.context, plain(alloc, "(pop 1)"));
    is_taken
}

/// The sort of the term. None where it has names of its own place.
fn sort_of(alloc: Global, faulty: &mut Faulty<'_>) -> Option<Tried> {
    if is_of(alloc, faulty, Tried::Bool) {
        return Some(Tried::Bool);
    }
    for order in ORDERS {
        if is_of(alloc, faulty, Tried::Field(order)) {
            return Some(Tried::Field(order));
        }
    }
    None
}

/// The sort that belongs there, where no other fault of the command hides it.
fn sort_wanted(alloc: Global, faulty: &mut Faulty<'_>) -> Option<Tried> {
    // A definition may outlast the level that it is tried in.
    if faulty.before.starts_with(b"(define-fun") {
        return None;
    }
    if belongs(alloc, faulty, Tried::Bool) {
        return Some(Tried::Bool);
    }
    let [first, second, ..] = ORDERS;
    if belongs(alloc, faulty, Tried::Field(first)) && belongs(alloc, faulty, Tried::Field(second)) {
        return Some(Tried::AnyField);
    }
    for order in ORDERS {
        if belongs(alloc, faulty, Tried::Field(order)) {
            return Some(Tried::Field(order));
        }
    }
    None
}

/// Writes which sort the term at a fault of sorts has, and which belongs there. Says whether it is known.
pub(crate) fn write_sorts(
    alloc: Global,
    script: &[u8],
    fault: ScriptFault,
    page: &mut Page,
) -> bool {
    let Some(mut faulty) = faulty_command(alloc, script, fault) else {
        return false;
    };
    let Some(found) = sort_of(alloc, &mut faulty) else {
        return false;
    };
    page.text("has sort ");
    write_sort(found, page);
    match sort_wanted(alloc, &mut faulty) {
        Some(wanted) => {
            page.text(", where ");
            write_sort(wanted, page);
            page.text(" belongs");
        }
        None => page.text(", which does not belong there"),
    }
    true
}
