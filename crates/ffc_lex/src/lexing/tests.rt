//! What no public call shows: how many bytes a lexer holds.
ghost use Rattle.std.specs.Prelude.{◌≡◌, false};

use super::*;
use std::test::Fail;

/// Feeds a piece, and takes the forms that are whole.
fn take_piece(lexer: &mut Lexer, piece: &[u8]) -> Result<(), LexStop>
    requires { lexer.old.finished ≡ false }
    ensures { lexer.new.finished ≡ false }
{
    lexer.feed(piece)?;
    'forms: for _ in 0..=piece.len() as u64 {
        if lexer.next_form()?.is_none() {
            break;
        }
    }
    Ok(())
}

/// How many bytes of a text are held that comes in so many equal pieces.
fn bytes_held(alloc: Global, piece: &[u8], count: u64) -> Result<usize, LexStop> {
    let mut lexer = Lexer::new(alloc);
    'pieces: for _ in 0..count {
        take_piece(&mut lexer, piece)?;
    }
    Ok(lexer.window.len().saturating_add(lexer.form.bytes.len()))
}

/// A text of 200,000 bytes, of which at most a form, a piece and the bytes that need not be dropped yet are held.
#[test]
fn lets_go_of_bytes(rt: HostRuntime) -> Result<(), Fail> {
    for piece in [" ; c\n", "; c d", "(a b)", "(|a|)", "     "] {
        assert!(rt; bytes_held(rt.alloc(), piece.as_bytes(), 40_000)? <= 4096 + 2 * 5);
    }
    Ok(())
}
