//! The scanner: looks at each byte of a text once, in order, and makes tokens of them.
ghost use Rattle.std.specs.Prelude.{◌≡◌, ℕ, ◌+◌, ◌-◌, ◌<◌, ◌≤◌, ◌==◌, false, if◌then◌else◌, List, [], drop, length};
ghost use Rattle.std.specs.Prelude.{IfOk, IfSome, OnOk, OnErr};
ghost use Rattle.ffc_lex.specs.Bytes.{byte_class};
ghost use Rattle.ffc_lex.specs.Faults.{code_number};
ghost use Rattle.ffc_lex.specs.Reading.{end_fault_of, fault_at as fault_at_place, origin, past};
ghost use Rattle.ffc_lex.specs.Scan.{AfterByte, AfterEnd, AfterScan, AfterTake, Begins, IsFacing, IsNoParenthesis};
ghost use Rattle.ffc_lex.specs.Scan.{IsReady, begun, is_ended_by, first_start, floor_of, IsHeld, kind_in, moved, reach};
ghost use Rattle.ffc_lex.specs.Scan.{scanned, settled, with_token, with_token_through};

use crate::byte_classes::{ByteClass, class_of, ends_line, is_quote, is_quoted, is_text, is_word};
use crate::faults::{FaultCode, LexStop, ScriptFault};
use crate::modes::Mode;
use crate::tokens::{Form, Place, Token, TokenKind};
use crate::words::{kind_of_hash, kind_of_keyword, kind_of_word};
use crate::{MAX_BYTES, MAX_DEPTH};
use std::alloc::{AllocError, Global};
use std::marker::Model;
use std::mem;

/// The place after a byte.
fn place_past(byte: u8, place: Place) -> Place
    requires index { place.index < MAX_BYTES }
    requires line { place.line ≤ place.index + 1 }
    requires column { place.column ≤ place.index + 1 }
    ensures { result ≡ past byte place }
{
    let (line, column) = if byte == b'\n' {
        (place.line + 1, 1)
    } else {
        (place.line, place.column + 1)
    };
    Place {
        index: place.index + 1,
        line,
        column,
    }
}

/// A fault at this place.
fn lex_fault(place: Place, code: FaultCode) -> ScriptFault
    ensures { result ≡ fault_at_place (code_number code) place }
{
    ScriptFault {
        line: place.line,
        column: place.column,
        code,
    }
}

fn fault_at(place: Place, code: FaultCode) -> LexStop
    ensures { result ≡ LexStop.Fault (fault_at_place (code_number code) place) }
{
    LexStop::Fault(lex_fault(place, code))
}

#[derive(Drop)]
pub(crate) struct Scanner {
    alloc: Global,
    /// How many bytes in front of the text were dropped.
    kept: u64,
    /// The next byte.
    at: Place,
    /// The first byte of what is being scanned.
    start: Place,
    mode: Mode,
    /// How many parentheses are open.
    depth: u64,
    /// The first byte of the open form.
    first: Place,
    tokens: Vec<Token>,
}

impl Model for Scanner {
    ghost use Rattle.ffc_lex.specs.Scan.{Scan, IsInRange};

    ghost Value = { Scan };

    ghost view = { λ s. record {
      kept = s.kept;
      at = s.at;
      start = s.start;
      mode = s.mode;
      depth = s.depth;
      first = s.first;
      tokens = s.tokens.items;
    } };

    ghost invariant = { λ s. IsInRange s.kept s.at s.start s.mode s.depth s.tokens.items };
}

impl Scanner {
    pub(crate) fn new(alloc: Global) -> Scanner
        ensures { result ≡ begun 0 origin }
    {
        let origin = Place {
            index: 0,
            line: 1,
            column: 1,
        };
        Scanner {
            alloc,
            kept: 0,
            at: origin,
            start: origin,
            mode: Mode::Between,
            depth: 0,
            first: origin,
            tokens: Vec::new(alloc),
        }
    }

    /// How many bytes in front of the text were dropped.
    pub(crate) fn kept(&self) -> u64
        ensures result { result ≡ self.now.kept }
        ensures within { result ≤ self.now.at.index }
    {
        self.kept
    }

    /// The place of the next byte.
    pub(crate) fn index(&self) -> u64
        ensures { result ≡ self.now.at.index }
    {
        self.at.index
    }

    /// The first byte that is still to be read.
    fn reach(&self) -> u64
        ensures { result ≡ reach self.now.mode self.now.at self.now.start }
    {
        match self.mode {
            Mode::Comment => self.at.index,
            _ => self.start.index,
        }
    }

    /// The first byte that is still wanted. No later token begins before it.
    pub(crate) fn floor(&self) -> u64
        ensures result { result ≡ floor_of self.now }
        ensures kept { self.now.kept ≤ result }
        ensures within { result ≤ self.now.at.index }
    {
        first_start_of(&self.tokens, self.reach())
    }

    /// Lets go of the bytes that are no longer wanted.
    pub(crate) fn let_go(&mut self)
        ensures { self.new ≡ record self.old { kept = floor_of self.old } }
    {
        self.kept = self.floor();
    }

    /// Looks at the next byte, which stays in what is being scanned.
    fn advance(&mut self, byte: u8)
        requires { self.old.at.index < MAX_BYTES }
        ensures { self.new ≡ moved byte self.old }
    {
        self.at = place_past(byte, self.at);
    }

    /// Ends what is being scanned before the next byte.
    fn settle(&mut self)
        ensures { self.new ≡ settled self.old }
    {
        self.start = self.at;
        self.mode = Mode::Between;
    }

    /// Ends a token before the next byte.
    fn push(&mut self, kind: TokenKind) -> Result<(), AllocError>
        requires held { self.old.kept ≤ self.old.start.index }
        ensures ok { OnOk result (self.new ≡ with_token kind self.old) }
        ensures err { OnErr result (self.new ≡ self.old) }
    {
        self.tokens.push(Token {
            kind,
            start: self.start.index,
            length: self.at.index - self.start.index,
            line: self.start.line,
            column: self.start.column,
        })?;
        self.start = self.at;
        self.mode = Mode::Between;
        Ok(())
    }

    /// Looks at the next byte, with which a token ends.
    fn push_through(&mut self, kind: TokenKind, byte: u8) -> Result<(), AllocError>
        requires limit { self.old.at.index < MAX_BYTES }
        requires held { self.old.kept ≤ self.old.start.index }
        ensures ok { OnOk result (self.new ≡ with_token_through kind byte self.old) }
        ensures err { OnErr result (self.new ≡ self.old) }
    {
        self.tokens.push(Token {
            kind,
            start: self.start.index,
            length: self.at.index - self.start.index + 1,
            line: self.start.line,
            column: self.start.column,
        })?;
        self.at = place_past(byte, self.at);
        self.start = self.at;
        self.mode = Mode::Between;
        Ok(())
    }

    /// Whether what is being scanned ends before this byte. Of a word or a string only the next byte shows that.
    fn ends_before(&self, byte: u8) -> bool
        ensures { result ≡ is_ended_by self.now.mode byte }
    {
        match self.mode {
            Mode::Word | Mode::Keyword | Mode::FieldLiteral => !is_word(byte),
            Mode::StrMark => !is_quote(byte),
            _ => false,
        }
    }

    /// The bytes that are being scanned.
    fn so_far<'a>(&self, window: &'a [u8]) -> &'a [u8]
        requires held { self.now.kept ≤ self.now.start.index }
        requires within { self.now.at.index ≤ self.now.kept + length window.now }
        ensures { (text : List ℕ) → window.now ≡ drop self.now.kept text → result.now ≡ scanned text self.now }
    {
        &window[(self.start.index - self.kept) as usize..(self.at.index - self.kept) as usize]
    }

    /// What token the bytes from the start to the next byte are, if they are one.
    fn kind_so_far(&self, window: &[u8]) -> Option<TokenKind>
        requires { self.now.at.index ≤ self.now.kept + length window.now }
        ensures { (text : List ℕ) → window.now ≡ drop self.now.kept text → result
            ≡ kind_in self.now.mode (scanned text self.now) }
    {
        match self.mode {
            Mode::Word => kind_of_word(self.so_far(window)),
            Mode::Keyword => kind_of_keyword(after_first(self.so_far(window))),
            Mode::FieldLiteral => kind_of_hash(after_first(self.so_far(window))),
            _ => Some(TokenKind::Str),
        }
    }

    /// The fault of a text that ends here.
    pub(crate) fn fault_at_end(&self, window: &[u8]) -> Option<ScriptFault>
        requires { self.now.at.index ≤ self.now.kept + length window.now }
        ensures { (n : ℕ) (text : List ℕ) → window.now ≡ drop self.now.kept text → IsReady n text self.now
            → self.now.at.index ≡ length text → result ≡ end_fault_of text }
    {
        if self.depth == 0 {
            return None;
        }
        match self.kind_so_far(window) {
            Some(_) => Some(lex_fault(self.first, FaultCode::Unended)),
            None => Some(lex_fault(self.start, FaultCode::Byte)),
        }
    }

    /// Ends what the next byte ends before itself.
    fn end_before(&mut self, window: &[u8], byte: u8) -> Result<(), LexStop>
        requires { self.old.at.index ≤ self.old.kept + length window.now }
        ensures kept { self.new.kept ≡ self.old.kept }
        ensures same { self.new.at ≡ self.old.at }
        ensures ended { (n : ℕ) (text : List ℕ) → window.now ≡ drop self.old.kept text → IsFacing n text byte self.old
            → AfterEnd result n text byte self.new }
    {
        if !self.ends_before(byte) {
            return Ok(());
        }
        match self.kind_so_far(window) {
            Some(kind) => {
                self.push(kind)?;
                Ok(())
            }
            None => Err(fault_at(self.start, FaultCode::Byte)),
        }
    }

    /// Looks at the next byte, which stays in what is being scanned, now in this mode.
    fn stay(&mut self, mode: Mode, byte: u8)
        requires limit { self.old.at.index < MAX_BYTES }
        requires held { self.old.kept ≤ self.old.start.index }
        ensures { self.new ≡ moved byte (record self.old { mode = mode }) }
    {
        self.mode = mode;
        self.advance(byte);
    }

    /// The first byte of the form that a token at the next byte is of.
    fn form_start(&self) -> Place
        ensures { result ≡ (if self.now.depth == 0 then self.now.at else self.now.first) }
    {
        if self.depth == 0 { self.at } else { self.first }
    }

    /// One more parenthesis is open, of the form that begins there.
    fn deepen(&mut self, first: Place)
        requires { self.old.depth < MAX_DEPTH }
        ensures { self.new ≡ record self.old { depth = self.old.depth + 1; first = first } }
    {
        self.depth += 1;
        self.first = first;
    }

    /// One parenthesis fewer is open.
    fn rise(&mut self)
        requires { 0 < self.old.depth }
        ensures { self.new ≡ record self.old { depth = self.old.depth - 1 } }
    {
        self.depth -= 1;
    }

    /// Gives the tokens so far.
    fn take_form(&mut self) -> Form
        ensures form { result ≡ self.old.tokens }
        ensures held { IsHeld self.old.kept self.old.at.index self.old.at.index result }
        ensures left { self.new ≡ record self.old { first = self.old.at; tokens = [] } }
    {
        self.first = self.at;
        let tokens = mem::replace(&mut self.tokens, Vec::new(self.alloc));
        Form::new(tokens)
    }

    /// Opens a parenthesis.
    fn open(&mut self, byte: u8) -> Result<(), LexStop>
        requires limit { self.old.at.index < MAX_BYTES }
        requires held { self.old.kept ≤ self.old.start.index }
        ensures kept { self.new.kept ≡ self.old.kept }
        ensures step { OnOk result (self.new.at.index ≡ self.old.at.index + 1) }
        ensures read { (n : ℕ) (text : List ℕ) → IsFacing n text byte self.old → self.old.mode ≡ Mode.Between
            → byte_class byte ≡ ByteClass.LeftParen → AfterByte result n text self.new }
    {
        if self.depth == MAX_DEPTH {
            return Err(fault_at(self.at, FaultCode::Depth));
        }
        let first = self.form_start();
        self.push_through(TokenKind::LeftParen, byte)?;
        self.deepen(first);
        Ok(())
    }

    /// Closes a parenthesis. Gives the form where that was its first.
    fn close(&mut self, byte: u8) -> Result<Option<Form>, LexStop>
        requires limit { self.old.at.index < MAX_BYTES }
        requires held { self.old.kept ≤ self.old.start.index }
        ensures kept { self.new.kept ≡ self.old.kept }
        ensures step { OnOk result (self.new.at.index ≡ self.old.at.index + 1) }
        ensures held { IfOk result
            (λ found. IfSome found (λ form. IsHeld self.old.kept self.new.at.index self.new.at.index form)) }
        ensures read { (n : ℕ) (text : List ℕ) → IsFacing n text byte self.old → self.old.mode ≡ Mode.Between
            → byte_class byte ≡ ByteClass.RightParen → AfterTake result n text self.new }
    {
        if self.depth == 0 {
            return Err(fault_at(self.at, FaultCode::Close));
        }
        self.push_through(TokenKind::RightParen, byte)?;
        self.rise();
        if self.depth > 0 {
            return Ok(None);
        }
        Ok(Some(self.take_form()))
    }

    /// Looks at the first byte of what is scanned in this mode.
    fn begin(&mut self, mode: Mode, byte: u8) -> Result<(), LexStop>
        requires limit { self.old.at.index < MAX_BYTES }
        requires held { self.old.kept ≤ self.old.start.index }
        ensures kept { self.new.kept ≡ self.old.kept }
        ensures step { OnOk result (self.new.at.index ≡ self.old.at.index + 1) }
        ensures read { (n : ℕ) (text : List ℕ) → IsFacing n text byte self.old → self.old.mode ≡ Mode.Between
            → Begins mode byte → AfterByte result n text self.new }
    {
        if self.depth == 0 {
            return Err(fault_at(self.at, FaultCode::Byte));
        }
        self.stay(mode, byte);
        Ok(())
    }

    /// Looks at a byte between two tokens that is no parenthesis.
    fn take_first(&mut self, class: ByteClass, byte: u8) -> Result<(), LexStop>
        requires limit { self.old.at.index < MAX_BYTES }
        requires held { self.old.kept ≤ self.old.start.index }
        ensures kept { self.new.kept ≡ self.old.kept }
        ensures step { OnOk result (self.new.at.index ≡ self.old.at.index + 1) }
        ensures read { (n : ℕ) (text : List ℕ) → IsFacing n text byte self.old → self.old.mode ≡ Mode.Between
            → byte_class byte ≡ class → IsNoParenthesis class → AfterByte result n text self.new }
    {
        match class {
            ByteClass::White => {
                self.advance(byte);
                self.settle();
                Ok(())
            }
            ByteClass::Semicolon => {
                self.stay(Mode::Comment, byte);
                Ok(())
            }
            ByteClass::Bar => self.begin(Mode::Quoted, byte),
            ByteClass::Quote => self.begin(Mode::Str, byte),
            ByteClass::Colon => self.begin(Mode::Keyword, byte),
            ByteClass::Hash => self.begin(Mode::FieldLiteral, byte),
            ByteClass::Word => self.begin(Mode::Word, byte),
            _ => Err(fault_at(self.at, FaultCode::Byte)),
        }
    }

    /// Looks at a byte between two tokens.
    fn take_between(&mut self, byte: u8) -> Result<Option<Form>, LexStop>
        requires limit { self.old.at.index < MAX_BYTES }
        requires held { self.old.kept ≤ self.old.start.index }
        ensures kept { self.new.kept ≡ self.old.kept }
        ensures step { OnOk result (self.new.at.index ≡ self.old.at.index + 1) }
        ensures held { IfOk result
            (λ found. IfSome found (λ form. IsHeld self.old.kept self.new.at.index self.new.at.index form)) }
        ensures read { (n : ℕ) (text : List ℕ) → IsFacing n text byte self.old → self.old.mode ≡ Mode.Between
            → AfterTake result n text self.new }
    {
        match class_of(byte) {
            ByteClass::LeftParen => {
                self.open(byte)?;
                Ok(None)
            }
            ByteClass::RightParen => self.close(byte),
            class => {
                self.take_first(class, byte)?;
                Ok(None)
            }
        }
    }

    /// Looks at a byte of a comment.
    fn take_in_comment(&mut self, byte: u8)
        requires { self.old.at.index < MAX_BYTES }
        ensures kept { self.new.kept ≡ self.old.kept }
        ensures step { self.new.at.index ≡ self.old.at.index + 1 }
        ensures read { (n : ℕ) (text : List ℕ) → IsFacing n text byte self.old → self.old.mode ≡ Mode.Comment
            → IsReady n text self.new }
    {
        self.advance(byte);
        if ends_line(byte) {
            self.settle();
        }
    }

    /// Looks at a byte of a quoted symbol.
    fn take_in_quoted(&mut self, byte: u8) -> Result<(), LexStop>
        requires limit { self.old.at.index < MAX_BYTES }
        requires held { self.old.kept ≤ self.old.start.index }
        ensures kept { self.new.kept ≡ self.old.kept }
        ensures step { OnOk result (self.new.at.index ≡ self.old.at.index + 1) }
        ensures read { (n : ℕ) (text : List ℕ) → IsFacing n text byte self.old → self.old.mode ≡ Mode.Quoted
            → AfterByte result n text self.new }
    {
        if byte == b'|' {
            self.push_through(TokenKind::Quoted, byte)?;
            return Ok(());
        }
        if !is_quoted(byte) {
            return Err(fault_at(self.at, FaultCode::Byte));
        }
        self.advance(byte);
        Ok(())
    }

    /// Looks at a byte of a string.
    fn take_in_string(&mut self, byte: u8) -> Result<(), LexStop>
        requires limit { self.old.at.index < MAX_BYTES }
        requires held { self.old.kept ≤ self.old.start.index }
        ensures kept { self.new.kept ≡ self.old.kept }
        ensures step { OnOk result (self.new.at.index ≡ self.old.at.index + 1) }
        ensures read { (n : ℕ) (text : List ℕ) → IsFacing n text byte self.old → self.old.mode ≡ Mode.Str
            → AfterByte result n text self.new }
    {
        if is_quote(byte) {
            self.stay(Mode::StrMark, byte);
            return Ok(());
        }
        if !is_text(byte) {
            return Err(fault_at(self.at, FaultCode::Byte));
        }
        self.advance(byte);
        Ok(())
    }

    /// Looks at a byte inside a token or a comment, which doesn't end before it.
    fn take_inside(&mut self, byte: u8) -> Result<(), LexStop>
        requires { self.old.at.index < MAX_BYTES }
        ensures kept { self.new.kept ≡ self.old.kept }
        ensures step { OnOk result (self.new.at.index ≡ self.old.at.index + 1) }
        ensures read { (n : ℕ) (text : List ℕ) → IsFacing n text byte self.old → is_ended_by self.old.mode byte ≡ false
            → (self.old.mode ≡ Mode.Between → ⊥) → AfterByte result n text self.new }
    {
        match self.mode {
            Mode::Comment => {
                self.take_in_comment(byte);
                Ok(())
            }
            Mode::Quoted => self.take_in_quoted(byte),
            Mode::Str => self.take_in_string(byte),
            Mode::StrMark => {
                self.stay(Mode::Str, byte);
                Ok(())
            }
            Mode::Word | Mode::Keyword | Mode::FieldLiteral | Mode::Between => {
                self.advance(byte);
                Ok(())
            }
        }
    }

    /// Looks at the next byte of the text, which the window has. Gives the form that it ends.
    fn take(&mut self, window: &[u8]) -> Result<Option<Form>, LexStop>
        requires { self.old.at.index < self.old.kept + length window.now }
        ensures kept { self.new.kept ≡ self.old.kept }
        ensures step { OnOk result (self.new.at.index ≡ self.old.at.index + 1) }
        ensures held { IfOk result
            (λ found. IfSome found (λ form. IsHeld self.old.kept self.new.at.index self.new.at.index form)) }
        ensures read { (n : ℕ) (text : List ℕ) → window.now ≡ drop self.old.kept text → IsReady n text self.old
            → AfterTake result n text self.new }
    {
        let byte = window[(self.at.index - self.kept) as usize];
        self.end_before(window, byte)?;
        if self.at.index == MAX_BYTES {
            return Err(fault_at(self.at, FaultCode::Length));
        }
        match self.mode {
            Mode::Between => self.take_between(byte),
            _ => match self.take_inside(byte) {
                Ok(()) => Ok(None),
                Err(stop) => Err(stop),
            },
        }
    }

    /// Looks at the bytes of the text that weren't looked at, up to the end of a form, and gives it. The window has the text
    /// after the bytes that were dropped.
    pub(crate) fn scan(&mut self, window: &[u8]) -> Result<Option<Form>, LexStop>
        requires { self.old.at.index ≤ self.old.kept + length window.now }
        ensures kept { self.new.kept ≡ self.old.kept }
        ensures held { IfOk result
            (λ found. IfSome found (λ form. IsHeld self.old.kept self.new.at.index self.new.at.index form)) }
        ensures read { (n : ℕ) (text : List ℕ) → window.now ≡ drop self.old.kept text → IsReady n text self.old
            → AfterScan result n text self.new }
    {
        while ((self.at.index - self.kept) as usize) < window.len() {
            match self.take(window) {
                Ok(None) => {}
                Ok(Some(form)) => return Ok(Some(form)),
                Err(stop) => return Err(stop),
            }
        }
        Ok(None)
    }
}

/// Where the first of these tokens begins, or another place where there is none.
pub(crate) fn first_start_of(tokens: &[Token], otherwise: u64) -> u64
    ensures { result ≡ first_start tokens.now otherwise }
{
    match tokens {
        [] => otherwise,
        [first, ..] => first.start,
    }
}

/// The bytes after the first.
fn after_first(bytes: &[u8]) -> &[u8]
    ensures { result.now ≡ drop 1 bytes.now }
{
    match bytes {
        [] => bytes,
        [_, rest @ ..] => rest,
    }
}
