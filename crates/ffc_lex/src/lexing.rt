//! The lexer: bytes in any pieces to forms and text faults.
ghost use Rattle.std.specs.Prelude.{◌≡◌, ℕ, ◌+◌, ◌-◌, ◌≤◌, false, true, [], length, take, drop, Some, None, IfOk};
ghost use Rattle.std.specs.Prelude.{IfErr, IfSome, IfNone, OnOk};
ghost use Rattle.ffc_lex.specs.Lexing.{IsOfLastForm, IsRead, MatchStop, due_fault, due_form, end_fault, extended};

use crate::MAX_BYTES;
use crate::faults::{LexStop, ScriptFault};
use crate::last_form::LastForm;
use crate::scanning::{Scanner, first_start_of};
use crate::tokens::{Form, Token};
use ffc_base::GhostText;
use std::alloc::{AllocError, Global};
use std::marker::Model;

/// How many bytes may be held that no call needs any more, beside as many as there are others.
const MAX_DEAD: usize = 4096;

/// Reads a text that comes in pieces. Clauses see the text so far, how many forms of it were given, and the fault that is
/// kept: from the first fault on, each call answers that fault.
///
/// Each byte is looked at once, and a word's once more when it ends, so the time is linear in the text, whatever the pieces
/// are. Of the text it holds the form that isn't ended, the last one that was given and what was fed after them: its memory
/// is at most a constant times the bytes of these and of the largest piece.
#[derive(Drop)]
pub struct Lexer {
    alloc: Global,
    /// The text so far.
    input: GhostText,
    /// The text without the bytes that were dropped.
    window: Vec<u8>,
    scanner: Scanner,
    given: u64,
    form: LastForm,
    fault: Option<ScriptFault>,
    finished: bool,
}

impl Model for Lexer {
    ghost use Rattle.ffc_lex.specs.Lexing.{Lexing};
    ghost use Rattle.ffc_lex.specs.Kept.{IsKept};

    ghost Value = { Lexing };

    ghost view = { λ l. record { text = l.input.bytes; given = l.given; fault = l.fault; finished = l.finished } };

    ghost invariant = { λ l. IsKept l.input.bytes l.given l.fault l.scanner l.window.items l.form.bytes.items
        l.form.start l.form.end };
}

impl Lexer {
    /// A lexer of a text of which there is nothing so far. It takes no memory.
    pub fn new(alloc: Global) -> Lexer
        ensures { result ≡ record { text = []; given = 0; fault = None; finished = false } }
    {
        Lexer {
            alloc,
            input: GhostText::new(),
            window: Vec::new(alloc),
            scanner: Scanner::new(alloc),
            given: 0,
            form: LastForm {
                start: 0,
                end: 0,
                bytes: Vec::new(alloc),
            },
            fault: None,
            finished: false,
        }
    }

    /// Appends a piece to the text.
    pub fn feed(&mut self, piece: &[u8]) -> Result<(), LexStop>
        requires { self.old.finished ≡ false }
        ensures ok { OnOk result ((self.old.fault ≡ None)
            × (self.new ≡ record self.old { text = extended self.old.text piece.now })) }
        ensures stop { IfErr result (λ stop. (self.new ≡ self.old)
            × MatchStop stop (λ fault. self.old.fault ≡ Some fault) (self.old.fault ≡ None)) }
    {
        if let Some(fault) = self.fault {
            return Err(LexStop::Fault(fault));
        }
        self.let_go()?;
        let length = self.scanner.kept() as usize + self.window.len();
        let taken = piece.len().min(MAX_BYTES as usize + 1 - length);
        let piece = &piece[..taken];
        self.window.extend_from_slice(piece)?;
        self.input.append(piece);
        Ok(())
    }

    /// Lets go of the bytes that no call needs any more, once they are more than the others: so over a run the cost is
    /// constant a byte.
    fn let_go(&mut self) -> Result<(), AllocError>
        requires { self.old.fault ≡ None }
        ensures { self.new ≡ self.old }
    {
        let kept = self.scanner.kept();
        let dead = (self.scanner.floor() - kept) as usize;
        if dead <= self.window.len() - dead + MAX_DEAD {
            return Ok(());
        }
        let window = Vec::from_slice(self.alloc, &self.window[dead..])?;
        self.form.set_aside(self.alloc, &self.window, kept)?;
        self.window = window;
        self.scanner.let_go();
        Ok(())
    }

    /// Gives the next form. `None` says that it isn't whole in the text so far, and that no byte of that is at fault.
    ///
    /// Inside a form a word, with a `:` or `#` directly before it, is judged once the next byte has come, or by `finish`.
    /// Every other byte is judged at once.
    pub fn next_form(&mut self) -> Result<Option<Form>, LexStop>
        ensures form { IfOk result (λ found. found ≡ due_form self.old.fault self.old.text self.old.given) }
        ensures given { IfOk result
            (λ found. IfSome found (λ form. self.new ≡ record self.old { given = self.old.given + 1 })) }
        ensures none { IfOk result (λ found. IfNone found (self.new ≡ self.old)) }
        ensures no_fault { OnOk result (due_fault self.old.fault self.old.text self.old.given ≡ None) }
        ensures stop { IfErr result (λ stop. MatchStop stop
            (λ fault. (due_fault self.old.fault self.old.text self.old.given ≡ Some fault)
            × (self.new ≡ record self.old { fault = Some fault }))
            (self.new ≡ self.old)) }
    {
        if let Some(fault) = self.fault {
            return Err(LexStop::Fault(fault));
        }
        match self.scanner.scan(&self.window) {
            Ok(Some(form)) => {
                self.given += 1;
                self.form.end = self.scanner.index();
                self.form.start = first_start_of(form.tokens(), self.form.end);
                Ok(Some(form))
            }
            Ok(None) => Ok(None),
            Err(stop) => match stop {
                LexStop::Fault(met) => {
                    self.fault = Some(met);
                    Err(LexStop::Fault(met))
                }
                LexStop::Memory => Err(LexStop::Memory),
            },
        }
    }

    /// Says that the text ends here. Inside a form that is a fault: `FaultCode::Byte` where the last word, `:` or `#` is no
    /// token, else `FaultCode::Unended`.
    pub fn finish(&mut self) -> Result<(), LexStop>
        requires { IsRead self.old }
        ensures ok { OnOk result ((end_fault self.old.fault self.old.text ≡ None)
            × (self.new ≡ record self.old { finished = true })) }
        ensures stop { IfErr result (λ stop. MatchStop stop
            (λ fault. (end_fault self.old.fault self.old.text ≡ Some fault)
            × (self.new ≡ record self.old { fault = Some fault; finished = true }))
            (self.new ≡ self.old)) }
    {
        if let Some(fault) = self.fault {
            self.finished = true;
            return Err(LexStop::Fault(fault));
        }
        match self.scanner.scan(&self.window) {
            Ok(None) => {}
            Ok(Some(_)) => unreachable!(),
            Err(LexStop::Fault(_)) => unreachable!(),
            Err(LexStop::Memory) => return Err(LexStop::Memory),
        }
        self.finished = true;
        match self.scanner.fault_at_end(&self.window) {
            None => Ok(()),
            Some(fault) => {
                self.fault = Some(fault);
                Err(LexStop::Fault(fault))
            }
        }
    }

    /// A token as it is written.
    pub fn bytes_of(&self, token: &Token) -> &[u8]
        requires { IsOfLastForm token.now self.now }
        ensures { result.now ≡ take token.now.length (drop token.now.start self.now.text) }
    {
        self.form.bytes_at(&self.window, self.scanner.kept(), token.start, token.length)
    }
}

#[cfg(test)]
mod tests;
