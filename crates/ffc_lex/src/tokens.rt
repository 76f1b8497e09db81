//! Tokens, and the forms that they make up.
use std::marker::Model;

/// What a token is.
#[derive(Clone, Copy, Debug, PartialEq, Eq)]
pub enum TokenKind {
    LeftParen,
    RightParen,
    Numeral,
    Decimal,
    Symbol,
    /// A symbol between bars. It is the same symbol as its contents, and never a reserved word.
    Quoted,
    Keyword,
    Str,
    /// `#fNmP`, N modulo P.
    FieldLiteral,
}

/// A token, and where it is in the text.
#[derive(Clone, Copy, Debug, PartialEq, Eq)]
pub struct Token {
    pub kind: TokenKind,
    /// How many bytes of the text come before it.
    pub start: u64,
    pub length: u64,
    pub line: u64,
    pub column: u64,
}

/// A place in the text: how many bytes come before it, and its line and column.
#[derive(Clone, Copy, Debug, PartialEq, Eq)]
pub struct Place {
    pub index: u64,
    pub line: u64,
    pub column: u64,
}

/// A command's tokens, from its first parenthesis to the one that closes it. Clauses see them as a list.
#[derive(Drop)]
pub struct Form {
    tokens: Vec<Token>,
}

impl Model for Form {
    ghost use Rattle.std.specs.Prelude.{List};
    ghost use Rattle.ffc_lex.specs.declared.tokens.Token.{Token};

    ghost Value = { List Token };

    ghost view = { λ form. form.tokens.items };
}

impl Form {
    ghost use Rattle.std.specs.Prelude.{◌≡◌};

    pub(crate) fn new(tokens: Vec<Token>) -> Form
        ensures { result ≡ tokens.items }
    {
        Form { tokens }
    }

    /// The tokens in order.
    pub fn tokens(&self) -> &[Token]
        ensures { result.now ≡ self.now }
    {
        &self.tokens
    }
}
