//! Reads a script that repeats one line, and counts its forms.
ghost use Rattle.std.specs.Prelude.{◌≡◌, false};

use crate::pieces::{Pieces, piece, repeated};
use ffc_lex::{LexStop, Lexer};
use std::alloc::Global;
use std::io;

/// The line that is repeated.
pub(crate) const LINE: &[u8] =
    b"(assert (= (ff.add x |y z| #f3m17) (as ff-1 F))) (set-info :k \"s\"\"t\") ; c\n";

/// Takes the forms that are whole, and counts them.
fn drain(lexer: &mut Lexer, count: u64) -> Result<u64, LexStop>
    requires { lexer.old.finished ≡ false }
    ensures { lexer.new.finished ≡ false }
{
    let mut forms = count;
    'forms: for _ in 0..u64::MAX {
        if lexer.next_form()?.is_none() {
            return Ok(forms);
        }
        forms = forms.wrapping_add(1);
    }
    Ok(forms)
}

fn count_of_forms(alloc: Global, pieces: Pieces) -> Result<u64, LexStop> {
    let size = pieces.bytes;
    let script = repeated(alloc, LINE, size)?;
    let mut lexer = Lexer::new(alloc);
    let mut forms = 0;
    let mut start = 0;
    'pieces: for _ in 0..pieces.count {
        lexer.feed(piece(script.as_slice(), start, size))?;
        forms = drain(&mut lexer, forms)?;
        start = start.wrapping_add(size) % LINE.len();
    }
    Ok(forms)
}

/// Prints how many forms the pieces have.
pub fn run<R: Print>(rt: &R, alloc: Global, pieces: Pieces) -> io::Result<()> {
    match count_of_forms(alloc, pieces) {
        Ok(forms) => println!(rt; "{forms} forms"),
        Err(LexStop::Fault(_)) => println!(rt; "a fault"),
        Err(LexStop::Memory) => println!(rt; "out of memory"),
    }
}
