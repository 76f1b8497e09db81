//! Why a line or a tree gives nothing.
use std::alloc::{AllocError, AllocFailed};
use thiserror::Error;

/// Why a line gives nothing.
#[derive(Clone, Copy, Debug, PartialEq, Eq, Drop, Error)]
pub enum LineStop {
    /// The line breaks this rule.
    #[error("rule {0} is broken")]
    Rule(u8),
    /// Out of memory.
    #[error("out of memory")]
    Memory,
}

impl From<AllocError> for LineStop {
    ghost use Rattle.std.specs.Prelude.{◌≡◌};
    ghost use Rattle.ffc_cktree.specs.declared.stop.LineStop.TheVariants.{Memory};

    ghost from_gives = { λ _ stop. stop ≡ Memory };

    fn from(_: AllocError) -> LineStop {
        LineStop::Memory
    }
}

impl<T: Drop> From<AllocFailed<T>> for LineStop {
    ghost use Rattle.std.specs.Prelude.{◌≡◌};
    ghost use Rattle.ffc_cktree.specs.declared.stop.LineStop.TheVariants.{Memory};

    ghost from_gives = { λ _ stop. stop ≡ Memory };

    fn from(_: AllocFailed<T>) -> LineStop {
        LineStop::Memory
    }
}

/// The first line of a tree that breaks a rule.
#[derive(Clone, Copy, Debug, PartialEq, Eq, Drop, Error)]
#[error("line {offset} of the tree breaks rule {rule}")]
pub struct BrokenLine {
    /// The number of the line, from 0 at the tree's first one.
    pub offset: u64,
    pub rule: u8,
}

/// Why a tree is not read to its end.
#[derive(Clone, Copy, Debug, PartialEq, Eq, Drop, Error)]
pub enum TreeStop {
    /// A line breaks a rule.
    #[error(transparent)]
    Broken(BrokenLine),
    /// Out of memory.
    #[error("out of memory")]
    Memory,
}

impl From<AllocError> for TreeStop {
    ghost use Rattle.std.specs.Prelude.{◌≡◌};
    ghost use Rattle.ffc_cktree.specs.declared.stop.TreeStop.TheVariants.{Memory};

    ghost from_gives = { λ _ stop. stop ≡ Memory };

    fn from(_: AllocError) -> TreeStop {
        TreeStop::Memory
    }
}
