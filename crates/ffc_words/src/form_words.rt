//! The words of a form.
ghost use Rattle.std.specs.Prelude.{◌≡◌, ◌+◌, ◌-◌, ◌^◌, ◌<◌, List, length, map};
ghost use Rattle.ffc_smt.specs.Trees.{Tree, Word, tokens_of, word_of};
ghost use Rattle.std.specs.List.{AllPairs};
ghost use Rattle.ffc_lex.specs.Faults.{code_number};
ghost use Rattle.ffc_smt.specs.FaultLaws.{IsWordBefore};
ghost use Rattle.ffc_smt.specs.Faults.{word_fault};
ghost use Rattle.ffc_words.specs.Given.{IsGiven};
ghost use Rattle.ffc_words.specs.Skipping as skipping;
ghost use Rattle.ffc_words.specs.Words.{IsTreeAt, fault_of, word_at};

use ffc_lex::{FaultCode, Form, Lexer, ScriptFault, Token, TokenKind};
use std::marker::Model;

/// The tokens of the last form that a lexer gave, with their bytes. Clauses see them as words.
#[derive(Drop)]
pub struct FormWords<'a> {
    tokens: &'a [Token],
    lexer: &'a Lexer,
}

/// How many parentheses are open after a word of this kind.
fn depth_after(kind: TokenKind, depth: usize) -> usize
    requires { depth < 2 ^ 64 - 1 }
    ensures { result ≡ skipping.depth_after kind depth }
{
    match kind {
        TokenKind::LeftParen => depth + 1,
        TokenKind::RightParen => depth.saturating_sub(1),
        _ => depth,
    }
}

impl<'a> Model for FormWords<'a> {
    ghost use Rattle.std.specs.Prelude.{List, map};
    ghost use Rattle.ffc_smt.specs.Trees.{Word, word_of};
    ghost use Rattle.ffc_words.specs.Given.{IsGiven};

    ghost Value = { List Word };

    ghost view = { λ w. map (word_of w.lexer.now.text) w.tokens.now };

    ghost invariant = { λ w. IsGiven w.tokens.now w.lexer.now };
}

impl<'a> FormWords<'a> {
    /// Those of this form.
    pub fn new(form: &'a Form, lexer: &'a Lexer) -> FormWords<'a>
        requires { IsGiven form.now lexer.now }
        ensures { result ≡ map (word_of lexer.now.text) form.now }
    {
        FormWords {
            tokens: form.tokens(),
            lexer,
        }
    }

    pub fn len(&self) -> usize
        ensures { result ≡ length self.now }
    {
        self.tokens.len()
    }

    /// The kind of a word; past the end, that of a right parenthesis.
    pub fn kind(&self, at: usize) -> TokenKind
        ensures { result ≡ (word_at self.now at).kind }
    {
        let tokens = self.tokens;
        if at < tokens.len() {
            tokens[at].kind
        } else {
            TokenKind::RightParen
        }
    }

    /// A word as it is written; past the end, no bytes.
    pub fn bytes(&self, at: usize) -> &'a [u8]
        ensures { result.now ≡ (word_at self.now at).bytes }
    {
        let tokens = self.tokens;
        if at < tokens.len() {
            self.lexer.bytes_of(&tokens[at])
        } else {
            &[]
        }
    }

    /// The line of a word; past the end, 0.
    pub fn line(&self, at: usize) -> u64
        ensures { result ≡ (word_at self.now at).line }
    {
        let tokens = self.tokens;
        if at < tokens.len() {
            tokens[at].line
        } else {
            0
        }
    }

    /// The column of a word; past the end, 0.
    pub fn column(&self, at: usize) -> u64
        ensures { result ≡ (word_at self.now at).column }
    {
        let tokens = self.tokens;
        if at < tokens.len() {
            tokens[at].column
        } else {
            0
        }
    }

    /// A fault of this code at a word.
    pub fn fault(&self, code: FaultCode, at: usize) -> ScriptFault
        ensures { fault_of result ≡ word_fault (code_number code) (word_at self.now at) }
    {
        ScriptFault {
            line: self.line(at),
            column: self.column(at),
            code,
        }
    }

    /// The place after the tree that begins at this place.
    pub fn skip(&self, at: usize) -> usize
        ensures { (tree : Tree) (rest : List Word) → IsTreeAt self.now at tree rest → result ≡ at
            + length (tokens_of tree) }
    {
        let mut depth = 0usize;
        for i in at..self.len() {
            depth = depth_after(self.kind(i), depth);
            if depth == 0 {
                return i + 1;
            }
        }
        self.len()
    }

    /// The places of the words increase. It does nothing when it runs.
    pub fn are_in_order(&self)
        ensures { AllPairs IsWordBefore self.now }
    {
        let _tokens = self.tokens;
    }
}
