//! What token a word is.
ghost use Rattle.std.specs.Prelude.{◌≡◌, ℕ};
ghost use Rattle.std.specs.List.{list_all, prefix_len};
ghost use Rattle.ffc_lex.specs.Bytes.{is_digit, is_word_byte};
ghost use Rattle.ffc_lex.specs.Words.{hash_kind, is_decimal, is_field_word, is_fraction, is_numeral, is_order_part};
ghost use Rattle.ffc_lex.specs.Words.{is_residue, is_signed_residue, is_symbol_word, keyword_kind, word_kind};

use crate::byte_classes::is_word;
use crate::tokens::TokenKind;

fn is_digit_byte(byte: u8) -> bool
    ensures { result ≡ is_digit byte }
{
    byte.is_ascii_digit()
}

/// How many digits there are at the front.
fn count_of_digits(word: &[u8]) -> usize
    ensures { result ≡ prefix_len is_digit word.now }
{
    word.iter().take_while(|byte| is_digit_byte(**byte)).count()
}

fn are_digits(word: &[u8]) -> bool
    ensures { result ≡ list_all is_digit word.now }
{
    word.iter().all(|byte| is_digit_byte(*byte))
}

/// 0, or digits that don't begin with 0.
#[tactic(auto, unfolding(crate::specs::Words::is_numeral))]
fn is_numeral_word(word: &[u8]) -> bool
    ensures { result ≡ is_numeral word.now }
{
    match word {
        [] => false,
        [only] => is_digit_byte(*only),
        [first, ..] => *first != b'0' && are_digits(word),
    }
}

fn is_fraction_part(word: &[u8]) -> bool
    ensures { result ≡ is_fraction word.now }
{
    match word {
        [] | [_] => false,
        [first, rest @ ..] => *first == b'.' && are_digits(rest),
    }
}

#[tactic(auto, unfolding(crate::specs::Words::is_decimal))]
fn is_decimal_word(word: &[u8]) -> bool
    ensures { result ≡ is_decimal word.now }
{
    let count = count_of_digits(word);
    is_numeral_word(&word[..count]) && is_fraction_part(&word[count..])
}

fn are_word_bytes(word: &[u8]) -> bool
    ensures { result ≡ list_all is_word_byte word.now }
{
    word.iter().all(|byte| is_word(*byte))
}

/// A word that doesn't begin with a digit.
#[tactic(auto, unfolding(crate::specs::Words::is_symbol_word))]
pub(crate) fn is_symbol(word: &[u8]) -> bool
    ensures { result ≡ is_symbol_word word.now }
{
    match word {
        [] => false,
        [first, ..] => { !is_digit_byte(*first) && are_word_bytes(word) }
    }
}

fn is_order_part(word: &[u8]) -> bool
    ensures { result ≡ is_order_part word.now }
{
    match word {
        [] => false,
        [first, rest @ ..] => *first == b'm' && is_numeral_word(rest),
    }
}

fn is_residue_part(word: &[u8]) -> bool
    ensures { result ≡ is_residue word.now }
{
    let count = count_of_digits(word);
    is_numeral_word(&word[..count]) && is_order_part(&word[count..])
}

fn is_signed_residue_part(word: &[u8]) -> bool
    ensures { result ≡ is_signed_residue word.now }
{
    match word {
        [] => false,
        [first, rest @ ..] => is_residue_part(if *first == b'-' { rest } else { word }),
    }
}

/// `f`, an optional minus sign, a numeral, `m`, and a numeral.
#[tactic(auto, unfolding(crate::specs::Words::is_field_word))]
fn is_field_literal(word: &[u8]) -> bool
    ensures { result ≡ is_field_word word.now }
{
    match word {
        [] => false,
        [first, rest @ ..] => *first == b'f' && is_signed_residue_part(rest),
    }
}

/// What token a word is by itself, if it is one.
#[tactic(auto, unfolding(crate::specs::Words::word_kind))]
pub(crate) fn kind_of_word(word: &[u8]) -> Option<TokenKind>
    ensures { result ≡ word_kind word.now }
{
    if is_symbol(word) {
        Some(TokenKind::Symbol)
    } else if is_numeral_word(word) {
        Some(TokenKind::Numeral)
    } else if is_decimal_word(word) {
        Some(TokenKind::Decimal)
    } else {
        None
    }
}

/// What token a colon and a word are.
#[tactic(auto, unfolding(crate::specs::Words::keyword_kind))]
pub(crate) fn kind_of_keyword(word: &[u8]) -> Option<TokenKind>
    ensures { result ≡ keyword_kind word.now }
{
    if !is_symbol(word) {
        return None;
    }
    Some(TokenKind::Keyword)
}

/// What token a `#` and a word are.
#[tactic(auto, unfolding(crate::specs::Words::hash_kind))]
pub(crate) fn kind_of_hash(word: &[u8]) -> Option<TokenKind>
    ensures { result ≡ hash_kind word.now }
{
    if is_field_literal(word) {
        Some(TokenKind::FieldLiteral)
    } else {
        None
    }
}
