//! Takes the forms of a script that repeats one line: names, sorts, levels and nodes.
ghost use Rattle.std.specs.Prelude.{◌≡◌, false};

use crate::pieces::{Pieces, piece, repeated};
use crate::scripts::LINE;
use ffc_elab::Context;
use ffc_lex::{LexStop, Lexer};
use ffc_words::TakeStop;
use std::alloc::{AllocError, Global};
use std::io;

/// The names that the line uses.
const DECLARATIONS: &[u8] =
    b"(set-logic QF_FF)(define-sort F () (_ FiniteField 17))(declare-const x F)(declare-const |y z| F)\n";

/// Why nothing is counted.
#[derive(Clone, Copy, Debug)]
enum Stop {
    Fault,
    Memory,
}

impl From<AllocError> for Stop {
    fn from(_error: AllocError) -> Stop {
        Stop::Memory
    }
}

impl From<LexStop> for Stop {
    fn from(stop: LexStop) -> Stop {
        match stop {
            LexStop::Fault(_) => Stop::Fault,
            LexStop::Memory => Stop::Memory,
        }
    }
}

impl From<TakeStop> for Stop {
    fn from(stop: TakeStop) -> Stop {
        match stop {
            TakeStop::Fault(_) => Stop::Fault,
            TakeStop::Memory => Stop::Memory,
        }
    }
}

/// Takes a form, if one is whole.
#[tactic(auto, using(ffc_terms::proofs::GivenLemmas::given_now))]
fn take_next(lexer: &mut Lexer, context: &mut Context) -> Result<bool, Stop>
    requires { lexer.old.finished ≡ false }
    ensures { lexer.new.finished ≡ false }
{
    let Some(form) = lexer.next_form()? else {
        return Ok(false);
    };
    let _command = context.take(&form, lexer)?;
    Ok(true)
}

/// Takes the forms that are whole, and counts them.
fn drain(lexer: &mut Lexer, context: &mut Context, count: u64) -> Result<u64, Stop>
    requires { lexer.old.finished ≡ false }
    ensures { lexer.new.finished ≡ false }
{
    let mut forms = count;
    'forms: for _ in 0..u64::MAX {
        if !take_next(lexer, context)? {
            return Ok(forms);
        }
        forms = forms.wrapping_add(1);
    }
    Ok(forms)
}

/// Takes the forms of the pieces, and counts them.
fn take_pieces(
    lexer: &mut Lexer,
    context: &mut Context,
    script: &[u8],
    pieces: Pieces,
) -> Result<u64, Stop>
    requires { lexer.old.finished ≡ false }
{
    let mut forms = 0;
    let mut start = 0;
    'pieces: for _ in 0..pieces.count {
        lexer.feed(piece(script, start, pieces.bytes))?;
        forms = drain(lexer, context, forms)?;
        start = start.wrapping_add(pieces.bytes) % LINE.len();
    }
    Ok(forms)
}

/// How many forms the declarations and the pieces have, and how many assertions are active at their end.
fn counts(alloc: Global, pieces: Pieces) -> Result<(u64, usize), Stop> {
    let script = repeated(alloc, LINE, pieces.bytes)?;
    let mut context = Context::new(alloc)?;
    let mut lexer = Lexer::new(alloc);
    lexer.feed(DECLARATIONS)?;
    let declarations = drain(&mut lexer, &mut context, 0)?;
    let forms = take_pieces(&mut lexer, &mut context, script.as_slice(), pieces)?;
    Ok((declarations.wrapping_add(forms), context.in_force().len()))
}

/// Prints how many forms were taken, and how many assertions are active.
pub fn run<R: Print>(rt: &R, alloc: Global, pieces: Pieces) -> io::Result<()> {
    match counts(alloc, pieces) {
        Ok((forms, assertions)) => println!(rt; "{forms} forms, {assertions} assertions"),
        Err(Stop::Fault) => println!(rt; "a fault"),
        Err(Stop::Memory) => println!(rt; "out of memory"),
    }
}
