//! The lexer of scripts: from bytes, in any pieces, to forms and text faults.
//!
//! What a text's forms and faults are is said in `specs/` over the whole text (`reading_of`), with no word of pieces. A
//! `Lexer` is fed pieces of a text, and gives that text's forms one by one. SMT-LIB 2.6, section 3.1.
#![tactic(auto)]

mod byte_classes;
mod faults;
mod last_form;
mod laws;
mod lexing;
mod modes;
mod names;
mod scanning;
mod texts;
mod tokens;
mod words;

pub use faults::{FaultCode, LexStop, ScriptFault};
pub use laws::{forms_are_in_order, reading_goes_on};
pub use lexing::Lexer;
pub use names::{is_reserved, is_theory_symbol, symbol_text};
pub use texts::Text;
pub use tokens::{Form, Token, TokenKind};

/// How many bytes a script may have. One more is a fault (`FaultCode::Length`).
pub const MAX_BYTES: u64 = 67_108_864;

/// How many parentheses may be open. One more is a fault (`FaultCode::Depth`).
pub const MAX_DEPTH: u64 = 65_536;
