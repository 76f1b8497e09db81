//! The faults of scripts, and why a lexer stops.
use std::alloc::{AllocError, AllocFailed};
use std::fmt;
use std::marker::Model;
use thiserror::Error;

/// What is wrong with a script. It is printed as its number.
#[derive(Clone, Copy, Debug, PartialEq, Eq)]
pub enum FaultCode {
    /// A byte that is not allowed there, or a word, `:` or `#` that begins no token.
    Byte,
    /// The text ends inside a form.
    Unended,
    /// A parenthesis that closes no form.
    Close,
    /// A form whose first item is none of the commands.
    Command,
    /// An item that does not fit, is missing or is one too many.
    Shape,
    /// A logic other than QF_FF.
    Logic,
    /// A command that needs a logic before one is set, or what may come only before it is set.
    Order,
    /// A name that is not in scope.
    Name,
    /// A name that is taken, or occurs twice in a list.
    Twice,
    /// A term of the wrong sort.
    Sort,
    /// An order that no field of the solver has.
    Modulus,
    /// A constant of a field that is spelled wrongly, or is 2^128 or more in size.
    Number,
    /// A parenthesis that opens one too many, or a term that is too high.
    Depth,
    /// Too many nodes, or a command that is too heavy.
    Nodes,
    /// A level too many, or one too few.
    Levels,
    /// A byte too many.
    Length,
}

impl FaultCode {
    ghost use Rattle.std.specs.Prelude.{◌≡◌};
    ghost use Rattle.ffc_lex.specs.Faults.{code_number};

    /// The number by which answers name it. No code has the number 12.
    pub fn number(self) -> u8
        ensures { result ≡ code_number self }
    {
        match self {
            FaultCode::Byte => 1,
            FaultCode::Unended => 2,
            FaultCode::Close => 3,
            FaultCode::Command => 4,
            FaultCode::Shape => 5,
            FaultCode::Logic => 6,
            FaultCode::Order => 7,
            FaultCode::Name => 8,
            FaultCode::Twice => 9,
            FaultCode::Sort => 10,
            FaultCode::Modulus => 11,
            FaultCode::Number => 13,
            FaultCode::Depth => 14,
            FaultCode::Nodes => 15,
            FaultCode::Levels => 16,
            FaultCode::Length => 17,
        }
    }
}

impl fmt::Display for FaultCode {
    ghost use Rattle.std.specs.Prelude.{Some, decimal};
    ghost use Rattle.ffc_lex.specs.Faults.{code_number};

    ghost output = { λ code. Some (decimal (code_number code)) };

    fn fmt<W: fmt::Write>(&self, f: &mut fmt::Formatter<W>) -> fmt::Result {
        let number = self.number();
        write!(f, "{number}")
    }
}

/// The fault of a script and its place, counted from 1: lines by LF, columns by bytes. Clauses see the number of its code.
#[derive(Clone, Copy, Debug, PartialEq, Eq, Error)]
#[error("line {line}, column {column}: fault {code}")]
pub struct ScriptFault {
    pub line: u64,
    pub column: u64,
    pub code: FaultCode,
}

impl Model for ScriptFault {
    ghost use Rattle.ffc_lex.specs.Faults.{Fault, code_number};
    ghost use Rattle.ffc_lex.specs.FaultNumbers.{code_numbered, number_gives_its_code};

    ghost Value = { Fault };

    ghost view = { λ f. record { line = f.line; column = f.column; code = code_number f.code } };

    ghost inverse = { λ f. record { line = f.line; column = f.column; code = code_numbered f.code } };

    ghost inverse_ok = { λ f h i. record { line = f.line; column = f.column; code = number_gives_its_code f.code i } };
}

/// Why a call gave no answer.
#[derive(Clone, Copy, Debug, PartialEq, Eq, Error)]
pub enum LexStop {
    #[error(transparent)]
    Fault(ScriptFault),
    /// Out of memory.
    #[error("out of memory")]
    Memory,
}

impl From<AllocError> for LexStop {
    ghost use Rattle.std.specs.Prelude.{◌≡◌};
    ghost use Rattle.ffc_lex.specs.declared.faults.LexStop.TheVariants.{Memory};

    ghost from_gives = { λ _ e. e ≡ Memory };

    fn from(_: AllocError) -> LexStop {
        LexStop::Memory
    }
}

impl<T: Drop> From<AllocFailed<T>> for LexStop {
    ghost use Rattle.std.specs.Prelude.{◌≡◌};
    ghost use Rattle.ffc_lex.specs.declared.faults.LexStop.TheVariants.{Memory};

    ghost from_gives = { λ _ e. e ≡ Memory };

    fn from(_: AllocFailed<T>) -> LexStop {
        LexStop::Memory
    }
}
