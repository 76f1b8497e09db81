//! Scripts in pieces: their forms, tokens and faults.
ghost use Rattle.std.specs.Prelude.{◌≡◌, false};
ghost use Rattle.ffc_words.specs.Given.{IsGiven};

use crate::commands::{Finding, MALFORMED, add_word, say};
use crate::pieces::Cut;
use crate::texts::append;
use ffc_lex::{Form, LexStop, Lexer, Token};
use ffc_words::FormWords;
use std::alloc::{AllocError, Global};
use std::{mem, str};

/// A lexer of a text that has not ended.
#[derive(Drop)]
pub(crate) struct OpenLexer {
    lexer: Lexer,
    ghost open: { lexer.finished ≡ false },
}

impl OpenLexer {
    pub(crate) fn new(alloc: Global) -> OpenLexer {
        OpenLexer {
            lexer: Lexer::new(alloc),
        }
    }

    fn feed(&mut self, piece: &[u8]) -> Result<(), LexStop> {
        self.lexer.feed(piece)
    }

    fn next_form(&mut self) -> Result<Option<Form>, LexStop> {
        self.lexer.next_form()
    }

    /// Ends the text, where no whole form is left.
    fn end(self) -> Result<(), LexStop> {
        let OpenLexer { mut lexer } = self;
        match lexer.next_form()? {
            Some(_) => Ok(()),
            None => lexer.finish(),
        }
    }

    /// The words of the next form.
    #[tactic(auto, using(ffc_terms::proofs::GivenLemmas::given_now))]
    fn next_words(&mut self, alloc: Global) -> Finding {
        match self.lexer.next_form() {
            Ok(Some(form)) => words(alloc, &form, &self.lexer),
            Ok(None) => say(alloc, "no form"),
            Err(stop) => format!(in alloc; "{stop}"),
        }
    }
}

/// The words of a form as they are written, with a space between each two.
fn words(alloc: Global, form: &Form, lexer: &Lexer) -> Finding
    requires { IsGiven form.now lexer.now }
{
    let mut written = String::new(alloc);
    let words = FormWords::new(form, lexer);
    for i in 0..words.len() {
        add_word(&mut written, str::from_utf8(words.bytes(i)).unwrap_or("?"))?;
    }
    Ok(written)
}

/// Appends the tokens of the next form, and returns whether there is one.
fn take_form(lexer: &mut OpenLexer, tokens: &mut Vec<Token>) -> Result<bool, LexStop> {
    match lexer.next_form()? {
        Some(form) => {
            tokens.extend_from_slice(form.tokens())?;
            Ok(true)
        }
        None => Ok(false),
    }
}

/// Feeds a piece, and appends the tokens of the forms that are whole.
fn take_piece(lexer: &mut OpenLexer, piece: &[u8], tokens: &mut Vec<Token>) -> Result<(), LexStop> {
    lexer.feed(piece)?;
    for _ in 0..=piece.len() as u64 {
        if !take_form(lexer, tokens)? {
            break;
        }
    }
    Ok(())
}

/// Reads a text in pieces, and appends the tokens of its forms.
fn read(alloc: Global, text: &[u8], cut: Cut, tokens: &mut Vec<Token>) -> Result<(), LexStop> {
    let (front, back) = text.split_at(cut.first.min(text.len()));
    let mut lexer = OpenLexer::new(alloc);
    take_piece(&mut lexer, front, tokens)?;
    for piece in back.chunks(cut.later.max(1)) {
        take_piece(&mut lexer, piece, tokens)?;
    }
    lexer.end()
}

/// The fault of a text in pieces.
pub(crate) fn fault(alloc: Global, text: &[u8], cut: Cut) -> Finding {
    let mut tokens = Vec::new(alloc);
    match read(alloc, text, cut, &mut tokens) {
        Ok(()) => say(alloc, "no fault"),
        Err(stop) => format!(in alloc; "{stop}"),
    }
}

/// A line for each token: its kind, its first byte, its length, and its line and column.
fn described(alloc: Global, tokens: &[Token]) -> Finding {
    let mut lines = String::new(alloc);
    for token in tokens {
        if !lines.is_empty() {
            lines.push('\n')?;
        }
        lines.push_str(format!(in alloc; "{token:?}")?.as_str())?;
    }
    Ok(lines)
}

/// The tokens of the forms of a text in pieces, or its fault.
pub(crate) fn tokens(alloc: Global, text: &[u8], cut: Cut) -> Finding {
    let mut tokens = Vec::new(alloc);
    match read(alloc, text, cut, &mut tokens) {
        Ok(()) => described(alloc, tokens.as_slice()),
        Err(stop) => format!(in alloc; "{stop}"),
    }
}

#[derive(Clone, Copy)]
pub(crate) enum LexerCommand {
    Feed,
    Form,
    End,
}

pub(crate) const LEXER_COMMANDS: [(&str, LexerCommand); 3] = [
    ("feed", LexerCommand::Feed),
    ("form", LexerCommand::Form),
    ("end", LexerCommand::End),
];

/// What a lexer's answer that has nothing more to say is printed as.
fn answer(alloc: Global, answer: Result<(), LexStop>) -> Finding {
    match answer {
        Ok(()) => say(alloc, "no fault"),
        Err(stop) => format!(in alloc; "{stop}"),
    }
}

fn feed(alloc: Global, lexer: &mut OpenLexer, rest: &str) -> Finding {
    let mut piece = Vec::new(alloc);
    if append(&mut piece, rest)? {
        answer(alloc, lexer.feed(&piece))
    } else {
        say(alloc, MALFORMED)
    }
}

/// Feeds a lexer, asks it for its next form, or ends its text and begins another.
pub(crate) fn lexer_row(
    alloc: Global,
    lexer: &mut OpenLexer,
    command: LexerCommand,
    rest: &str,
) -> Finding {
    match command {
        LexerCommand::Feed => feed(alloc, lexer, rest),
        LexerCommand::Form => lexer.next_words(alloc),
        LexerCommand::End => {
            let ended = mem::replace(lexer, OpenLexer::new(alloc));
            answer(alloc, ended.end())
        }
    }
}
