//! What a certificate says of a check, and why a text is none.
use crate::sequences::Sequence;
use std::alloc::{AllocError, AllocFailed};
use thiserror::Error;

/// A node of Boolean sort, by its number, with true for the node and false for its negation.
pub type Literal = (bool, u32);

/// A variable and its exponent.
pub type Power = (u32, u32);

/// A coefficient and a monomial: its variables increase strictly, and its exponents are at least 1.
pub type Term = (u64, Sequence<Power>);

/// The number of an earlier line of a tree, and the polynomial that it is multiplied by.
pub type Multiple = (u32, Sequence<Term>);

/// The answer to one check.
#[derive(Debug, Drop)]
pub enum Entry {
    /// A value for each constant, by its node. A Bool is 0 or 1.
    Sat(Sequence<(u32, u64)>),
    /// No assignment is a model, as going through all of them shows.
    UnsatCases,
    /// A refutation by clauses, in the order in which they are written, each `Lemma` followed by the lines of its tree.
    UnsatSteps(Sequence<CertLine>),
    Unknown(Cause),
}

/// Why a check is not decided.
#[derive(Clone, Copy, Debug, PartialEq, Eq)]
pub enum Cause {
    Degree,
    Terms,
    /// The budget is spent: Trials, Reductions, Assignments and Chains.
    Steps(u64, u64, u64, u64),
    Memory,
}

/// A line of a clause or of a tree.
#[derive(Debug, Drop)]
pub enum CertLine {
    /// The assertion of this number, from 0, in the active list.
    Assume(u32),
    /// The clause of a node's scheme: the node, the scheme, the index.
    Scheme(u32, u32, u32),
    /// A clause that follows by unit propagation over hints, which are earlier clauses of the entry.
    Hinted(Sequence<Literal>, Sequence<u32>),
    /// A clause over equalities of one order, which version 1 does not name. A tree follows.
    Lemma {
        order: Option<u64>,
        lits: Sequence<Literal>,
    },
    /// A sum of multiples of earlier lines of the tree.
    Combine(Sequence<Multiple>),
    /// A polynomial that is 0 wherever a sum of bits is, in version 3 alone: the line of the sum, the bits whose values are
    /// gone through, by their variables in increasing order, the polynomial, and for each variable of the sum in increasing
    /// order the line that says that it is a bit.
    Bits(u32, Sequence<u32>, Sequence<Term>, Sequence<u32>),
    /// Fermat's identity modulo a line in one variable: the line, the variable, and how many `Step` lines follow.
    Chain(u32, u32, u32),
    /// A product modulo the line of the chain: the quotient and the remainder, their coefficients from the lowest.
    Step(Sequence<u64>, Sequence<u64>),
    /// Cases over all roots of a line: the line, the variable, the roots. One tree for each follows.
    Split(u32, u32, Sequence<u64>),
    /// Cases over all values of a variable: the variable, and how many trees follow.
    Values(u32, u32),
    /// The last line is a constant other than 0.
    Close,
}

impl CertLine {
    ghost use Rattle.std.specs.Prelude.{◌≡◌};
    ghost use Rattle.ffc_cert.specs.Spelling.{is_clause};

    /// Whether it is a clause, and not a line of a lemma's tree.
    #[tactic(auto, unfolding(crate::specs::Spelling::is_clause))]
    pub fn is_clause(&self) -> bool
        ensures { result ≡ is_clause self.now }
    {
        matches!(
            self,
            CertLine::Assume(_)
                | CertLine::Scheme(_, _, _)
                | CertLine::Hinted(_, _)
                | CertLine::Lemma { .. }
        )
    }
}

/// An entry with its number, from 1, and the number of its first line.
#[derive(Debug, Drop)]
pub struct Numbered {
    pub number: u64,
    pub first_line: u64,
    pub entry: Entry,
}

/// The first fault of a text: the entry, from 1, or 0 for line 1; the line, from 1.
#[derive(Clone, Copy, Debug, PartialEq, Eq, Error)]
#[error("entry {entry}, line {line}: fault {code}")]
pub struct CertFault {
    pub entry: u64,
    pub line: u64,
    /// 1 for a line 1 that names no version that is read, 2 for a line that has no form that may come there, 3 for a number
    /// that is not canonical or out of range, 4 for a text that ends before an entry does, and 5 for an entry that is too
    /// long.
    pub code: u8,
}

/// Why a reader stops.
#[derive(Clone, Copy, Debug, PartialEq, Eq, Error)]
pub enum CertStop {
    #[error(transparent)]
    Fault(CertFault),
    /// Out of memory.
    #[error("out of memory")]
    Memory,
}

impl From<AllocError> for CertStop {
    ghost use Rattle.std.specs.Prelude.{◌≡◌};
    ghost use Rattle.ffc_cert.specs.declared.entries.CertStop.TheVariants.{Memory};

    ghost from_gives = { λ _ e. e ≡ Memory };

    fn from(_: AllocError) -> CertStop {
        CertStop::Memory
    }
}

impl<T: Drop> From<AllocFailed<T>> for CertStop {
    ghost use Rattle.std.specs.Prelude.{◌≡◌};
    ghost use Rattle.ffc_cert.specs.declared.entries.CertStop.TheVariants.{Memory};

    ghost from_gives = { λ _ e. e ≡ Memory };

    fn from(_: AllocFailed<T>) -> CertStop {
        CertStop::Memory
    }
}
