//! Words of scripts: numbers, sorts and terms, and commands that a context takes.
ghost use Rattle.ffc_words.specs.Given.{IsGiven};

use crate::commands::{Finding, MALFORMED, OUT_OF_MEMORY, say, split_row};
use crate::forms::next_form;
use ffc_elab::Context;
use ffc_lex::{Form, Lexer};
use ffc_parts::{Signed, constant_of, literal_number, literal_order, residue_of};
use ffc_term::Sort;
use ffc_terms::{Names, Symbols, sort_at, term_at};
use ffc_words::{FormWords, TakeStop};
use std::alloc::Global;

#[derive(Clone, Copy)]
pub(crate) enum ScriptCommand {
    Literal,
    Constant,
    Sort,
    Term,
    Script,
    Take,
    Active,
    State,
}

pub(crate) const SCRIPT_COMMANDS: [(&str, ScriptCommand); 8] = [
    ("literal", ScriptCommand::Literal),
    ("constant", ScriptCommand::Constant),
    ("sort", ScriptCommand::Sort),
    ("term", ScriptCommand::Term),
    ("script", ScriptCommand::Script),
    ("take", ScriptCommand::Take),
    ("active", ScriptCommand::Active),
    ("state", ScriptCommand::State),
];

fn residue(alloc: Global, number: Signed, order: u64) -> Finding {
    if order == 0 {
        return say(alloc, "no order");
    }
    let residue = residue_of(number, order);
    format!(in alloc; "residue {residue} of order {order}")
}

/// The residue and the order of a literal of a field.
fn literal(alloc: Global, written: &[u8]) -> Finding {
    match (literal_number(written), literal_order(written)) {
        (Some(number), Some(order)) => residue(alloc, number, order),
        (Some(_), None) => say(alloc, "no order"),
        (None, _) => say(alloc, "no number"),
    }
}

/// The number of a constant of a field.
fn constant(alloc: Global, written: &[u8]) -> Finding {
    match constant_of(written) {
        Some(number) => format!(in alloc; "{number:?}"),
        None => say(alloc, "no number"),
    }
}

/// Reads a form's first term, without names, to a height: its height and its weight, or its fault.
fn term(alloc: Global, form: &Form, lexer: &Lexer, limit: u32) -> Finding
    requires { IsGiven form.now lexer.now }
{
    let symbols = Symbols {
        terms: Names::new(alloc),
        sorts: Names::new(alloc),
    };
    let words = FormWords::new(form, lexer);
    match term_at(alloc, &words, &symbols, Names::new(alloc), 1, limit) {
        Ok(read) => {
            let height = read.height;
            let weight = read.weight;
            format!(in alloc; "height {height}, weight {weight}")
        }
        Err(stop) => match stop {
            TakeStop::Fault(fault) => {
                let code = fault.code;
                format!(in alloc; "fault {code}")
            }
            TakeStop::Memory => say(alloc, OUT_OF_MEMORY),
        },
    }
}

fn term_row(alloc: Global, rest: &str) -> Finding {
    let (limit, written) = split_row(rest);
    let Ok(limit) = limit.parse::<u32>() else {
        return say(alloc, MALFORMED);
    };
    let text = format!(in alloc; "({written})")?;
    let mut lexer = Lexer::new(alloc);
    match next_form(&mut lexer, text.as_bytes()) {
        Some(form) => term(alloc, &form, &lexer, limit),
        None => say(alloc, MALFORMED),
    }
}

/// Reads a form's first sort, where F is a name of the sort of the field of order 5.
fn sort(alloc: Global, form: &Form, lexer: &Lexer) -> Finding
    requires { IsGiven form.now lexer.now }
{
    let mut sorts = Names::new(alloc);
    sorts.push(alloc, b"F".to_vec(alloc)?, Sort::Field(5))?;
    let words = FormWords::new(form, lexer);
    match sort_at(&sorts, &words, 1) {
        Ok((sort, _)) => format!(in alloc; "{sort:?}"),
        Err(fault) => {
            let code = fault.code;
            format!(in alloc; "fault {code}")
        }
    }
}

fn sort_row(alloc: Global, rest: &str) -> Finding {
    let text = format!(in alloc; "({rest})")?;
    let mut lexer = Lexer::new(alloc);
    match next_form(&mut lexer, text.as_bytes()) {
        Some(form) => sort(alloc, &form, &lexer),
        None => say(alloc, MALFORMED),
    }
}

/// How many nodes and active terms a context has.
fn size(alloc: Global, context: &Context) -> Finding {
    let nodes = context.table().len();
    let active = context.in_force().len();
    format!(in alloc; "nodes {nodes}, active {active}")
}

/// Why a form was not taken, and the context's size.
fn refused(alloc: Global, context: &Context, stop: TakeStop) -> Finding {
    match stop {
        TakeStop::Fault(fault) => {
            let code = fault.code;
            let size = size(alloc, context)?;
            format!(in alloc; "fault {code}, {size}")
        }
        TakeStop::Memory => say(alloc, OUT_OF_MEMORY),
    }
}

/// Takes a form: its fault, if it has one, and how many nodes and active terms there are after it.
fn take(alloc: Global, context: &mut Context, form: &Form, lexer: &Lexer) -> Finding
    requires { IsGiven form.now lexer.now }
{
    match context.take(form, lexer) {
        Ok(_command) => size(alloc, context),
        Err(stop) => refused(alloc, context, stop),
    }
}

fn take_row(alloc: Global, context: &mut Context, rest: &str) -> Finding {
    let mut lexer = Lexer::new(alloc);
    match next_form(&mut lexer, rest.as_bytes()) {
        Some(form) => take(alloc, context, &form, &lexer),
        None => say(alloc, MALFORMED),
    }
}

/// The nodes of a context's active terms.
fn active(alloc: Global, context: &Context) -> Finding {
    let active = context.in_force();
    format!(in alloc; "{active:?}")
}

/// What a context has beside nodes and active terms.
fn state(alloc: Global, context: &Context) -> Finding {
    let level = context.level();
    let names = context.names().len();
    let constants = context.declared().len();
    let nodes = context.declared_nodes().len();
    let field = context.field();
    let success = context.print_success();
    format!(in alloc;
        "level {level}, names {names}, constants {constants} with nodes {nodes}, field {field:?}, success {success}"
    )
}

/// Reads what a row writes, or has a context take it.
pub(crate) fn script_row(
    alloc: Global,
    context: &mut Context,
    command: ScriptCommand,
    rest: &str,
) -> Finding {
    match command {
        ScriptCommand::Literal => literal(alloc, rest.as_bytes()),
        ScriptCommand::Constant => constant(alloc, rest.as_bytes()),
        ScriptCommand::Sort => sort_row(alloc, rest),
        ScriptCommand::Term => term_row(alloc, rest),
        ScriptCommand::Take => take_row(alloc, context, rest),
        ScriptCommand::Active => active(alloc, context),
        ScriptCommand::State => state(alloc, context),
        ScriptCommand::Script => {
            *context = Context::new(alloc)?;
            Ok(String::new(alloc))
        }
    }
}
