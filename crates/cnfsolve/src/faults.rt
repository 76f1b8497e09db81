//! Why a text in the DIMACS format is refused.
use std::alloc::AllocError;

/// What was expected in place of the first word that is not allowed at its place.
#[derive(Clone, Copy, Debug, PartialEq, Eq)]
pub enum Cause {
    /// The words `p cnf` and two numbers below 2^32.
    Head,
    /// A literal, of a variable below 2^32, or `0` at the end of a clause.
    Item,
    /// A clause whose variables are at most the greatest one of its formula. It is refused at its end.
    Range,
    /// More of a formula, in place of the end of the text.
    End,
}

/// Where and why a text is refused. Lines are numbered from 1.
#[derive(Clone, Copy, Debug, PartialEq, Eq)]
pub struct Fault {
    pub line: u64,
    pub cause: Cause,
}

/// Why formulas were not read.
#[derive(Clone, Copy, Debug, PartialEq, Eq)]
pub enum ReadStop {
    Fault(Fault),
    /// Out of memory.
    Memory,
}

impl From<AllocError> for ReadStop {
    ghost use Rattle.std.specs.Prelude.{◌≡◌};
    ghost use Rattle.cnfsolve.specs.declared.faults.ReadStop.{ReadStop};

    ghost from_gives = { λ _ stop. stop ≡ ReadStop.Memory };

    fn from(_error: AllocError) -> ReadStop {
        ReadStop::Memory
    }
}
