//! Terms as they were written.
ghost use Rattle.std.specs.Prelude.{◌≡◌, [], ◌∷◌, ◌++◌, ◌+◌, List, length, if◌then◌else◌, OnOk, IfOk};
ghost use Rattle.ffc_smt.specs.Trees.{Tree, Word, tokens_of};
ghost use Rattle.ffc_smt.specs.Answering.{space_between, text_of};
ghost use Rattle.ffc_words.specs.Words.{IsTreeAt};

use ffc_lex::{Text, TokenKind};
use ffc_words::FormWords;
use std::alloc::{AllocError, Global};

/// Whether a space is between two words of these kinds.
fn is_spaced(before: TokenKind, next: TokenKind) -> bool
    ensures { (if result then 32 ∷ [] else []) ≡ space_between before next }
{
    match before {
        TokenKind::LeftParen => false,
        _ => match next {
            TokenKind::RightParen => false,
            _ => true,
        },
    }
}

/// Appends a word, which comes after one of this kind.
fn push_word(
    bytes: &mut Vec<u8>,
    before: TokenKind,
    kind: TokenKind,
    word: &[u8],
) -> Result<(), AllocError>
    ensures { OnOk result (bytes.new.items ≡ bytes.old.items ++ (space_between before kind ++ word.now)) }
{
    if is_spaced(before, kind) {
        bytes.push(b' ')?;
    }
    bytes.extend_from_slice(word)?;
    Ok(())
}

/// The words from one place up to another one as they were written, with one space between two, but none after `(` and
/// none before `)`.
pub(crate) fn text_between(
    alloc: Global,
    words: &FormWords,
    start: usize,
    end: usize,
) -> Result<Text, AllocError>
    ensures { IfOk result (λ t. (tree : Tree) (rest : List Word) → IsTreeAt words.now start tree rest → end ≡ start
        + length (tokens_of tree) → t ≡ text_of (tokens_of tree)) }
{
    let mut bytes = Vec::new(alloc);
    // As after a parenthesis, no space is before the first word.
    let mut before = TokenKind::LeftParen;
    for i in start..end {
        let kind = words.kind(i);
        push_word(&mut bytes, before, kind, words.bytes(i))?;
        before = kind;
    }
    Ok(Text::from_vec(bytes))
}
