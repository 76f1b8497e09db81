//! Classes of bytes.
ghost use Rattle.std.specs.Prelude.{◌≡◌, ◌==◌};
ghost use Rattle.ffc_lex.specs.Bytes.{byte_class, is_line_end, is_quoted_byte, is_text_byte, is_word_byte};

/// What a byte is, at the start of a token or between two.
#[derive(Clone, Copy, Debug, PartialEq, Eq)]
pub enum ByteClass {
    /// Tab, LF, CR and space.
    White,
    Semicolon,
    LeftParen,
    RightParen,
    Bar,
    Quote,
    Colon,
    Hash,
    /// What words are made of.
    Word,
    /// What occurs only in strings, quoted symbols and comments.
    Other,
}

#[tactic(auto, unfolding(crate::specs::Bytes::byte_class, crate::specs::Bytes::is_word_byte))]
pub(crate) fn class_of(byte: u8) -> ByteClass
    ensures { result ≡ byte_class byte }
{
    match byte {
        b'\t' | b'\n' | b'\r' | b' ' => ByteClass::White,
        b';' => ByteClass::Semicolon,
        b'(' => ByteClass::LeftParen,
        b')' => ByteClass::RightParen,
        b'|' => ByteClass::Bar,
        b'"' => ByteClass::Quote,
        b':' => ByteClass::Colon,
        b'#' => ByteClass::Hash,
        b'a'..=b'z' | b'A'..=b'Z' | b'0'..=b'9' => ByteClass::Word,
        b'~' | b'!' | b'@' | b'$' | b'%' | b'^' | b'&' | b'*' | b'_' => ByteClass::Word,
        b'-' | b'+' | b'=' | b'<' | b'>' | b'.' | b'?' | b'/' => ByteClass::Word,
        _ => ByteClass::Other,
    }
}

/// Whether words are made of a byte.
#[tactic(auto, unfolding(crate::specs::Bytes::is_word_byte))]
pub(crate) fn is_word(byte: u8) -> bool
    ensures { result ≡ is_word_byte byte }
{
    match byte {
        b'a'..=b'z' | b'A'..=b'Z' | b'0'..=b'9' => true,
        b'~' | b'!' | b'@' | b'$' | b'%' | b'^' | b'&' | b'*' | b'_' => true,
        b'-' | b'+' | b'=' | b'<' | b'>' | b'.' | b'?' | b'/' => true,
        _ => false,
    }
}

/// Whether a byte ends a comment.
#[tactic(auto, unfolding(crate::specs::Bytes::is_line_end))]
pub(crate) fn ends_line(byte: u8) -> bool
    ensures { result ≡ is_line_end byte }
{
    byte == b'\n' || byte == b'\r'
}

/// Whether a byte is a quotation mark, which ends a string or is the first of two.
pub(crate) fn is_quote(byte: u8) -> bool
    ensures { result ≡ (byte == 34) }
{
    byte == b'"'
}

/// Whether a byte may occur in a string.
#[tactic(auto, unfolding(crate::specs::Bytes::is_text_byte))]
pub(crate) fn is_text(byte: u8) -> bool
    ensures { result ≡ is_text_byte byte }
{
    matches!(byte, b'\t' | b'\n' | b'\r' | 32..=126 | 128..=255)
}

/// Whether a byte may occur between the bars of a quoted symbol.
#[tactic(auto, unfolding(crate::specs::Bytes::is_quoted_byte))]
pub(crate) fn is_quoted(byte: u8) -> bool
    ensures { result ≡ is_quoted_byte byte }
{
    byte != b'|' && byte != b'\\' && is_text(byte)
}
