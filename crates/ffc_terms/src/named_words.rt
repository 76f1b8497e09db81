//! Words of a form as names.
ghost use Rattle.std.specs.Prelude.{◌≡◌};
ghost use Rattle.std.specs.Option.{option_copied};
ghost use Rattle.ffc_smt.specs.Trees.{name_of};
ghost use Rattle.ffc_smt.specs.TermReading as reading;
ghost use Rattle.ffc_words.specs.Words.{word_at};

use ffc_words::FormWords;

/// The name that a word is, if it is one.
pub fn name_at<'a>(words: &FormWords<'a>, at: usize) -> Option<&'a [u8]>
    ensures { option_copied result ≡ name_of (word_at words.now at) }
{
    ffc_parts::name_of(words.kind(at), words.bytes(at))
}

/// Whether a word is this name, with or without bars.
pub fn is_named(words: &FormWords, at: usize, name: &[u8]) -> bool
    ensures { result ≡ reading.is_named name.now (word_at words.now at) }
{
    ffc_parts::is_named(words.kind(at), words.bytes(at), name)
}

/// Whether a word is this reserved word.
pub fn is_word(words: &FormWords, at: usize, word: &[u8]) -> bool
    ensures { result ≡ reading.is_word word.now (word_at words.now at) }
{
    ffc_parts::is_word(words.kind(at), words.bytes(at), word)
}
