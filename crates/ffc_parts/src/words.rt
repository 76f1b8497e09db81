//! Names of tokens, by their kind and their bytes.
ghost use Rattle.std.specs.Prelude.{◌≡◌, ◌-◌, length, take, drop};
ghost use Rattle.std.specs.Option.{option_copied};
ghost use Rattle.ffc_smt.specs.Trees.{name_by_kind};
ghost use Rattle.ffc_parts.specs.Words.{is_kind_of_word, is_name_by_kind};

use ffc_lex::{TokenKind, is_reserved};

/// The name that a symbol is, unless it is reserved; that of a quoted symbol is what is between the bars.
pub fn name_of(kind: TokenKind, bytes: &[u8]) -> Option<&[u8]>
    ensures { option_copied result ≡ name_by_kind kind bytes.now }
{
    match kind {
        TokenKind::Symbol => if is_reserved(bytes) {
            None
        } else {
            Some(bytes)
        },
        TokenKind::Quoted => Some(between_bars(bytes)),
        TokenKind::LeftParen
        | TokenKind::RightParen
        | TokenKind::Numeral
        | TokenKind::Decimal
        | TokenKind::Keyword
        | TokenKind::Str
        | TokenKind::FieldLiteral => None,
    }
}

/// All bytes but the first and the last.
fn between_bars(bytes: &[u8]) -> &[u8]
    ensures { result.now ≡ take (length bytes.now - 2) (drop 1 bytes.now) }
{
    if bytes.len() < 2 {
        return &bytes[..0];
    }
    &bytes[1..bytes.len() - 1]
}

/// Whether it is this reserved word.
pub fn is_word(kind: TokenKind, bytes: &[u8], word: &[u8]) -> bool
    ensures { result ≡ is_kind_of_word word.now kind bytes.now }
{
    kind == TokenKind::Symbol && is_reserved(bytes) && bytes == word
}

/// Whether it is this name, with or without bars.
pub fn is_named(kind: TokenKind, bytes: &[u8], name: &[u8]) -> bool
    ensures { result ≡ is_name_by_kind name.now kind bytes.now }
{
    match name_of(kind, bytes) {
        Some(found) => found == name,
        None => false,
    }
}
