//! What a scanner is inside of.

/// What the bytes that were looked at, but belong to no token yet, are.
#[derive(Clone, Copy, Debug, PartialEq, Eq)]
pub enum Mode {
    /// There are none.
    Between,
    Comment,
    Word,
    /// A colon and a word.
    Keyword,
    /// A `#` and a word.
    FieldLiteral,
    Quoted,
    Str,
    /// A string whose last byte is a quotation mark, which ends it or is the first of two.
    StrMark,
}
