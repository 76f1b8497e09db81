//! What is wrong with a line.
use std::alloc::{AllocError, AllocFailed};
use thiserror::Error;

/// Why a line has no form that may come there: the first cause from the left.
#[derive(Clone, Copy, Debug, PartialEq, Eq, Error)]
pub enum Flaw {
    /// An item that is not allowed there.
    #[error("an item is not allowed there")]
    Form,
    /// Digits that are no canonical number, or one out of range.
    #[error("a number is not canonical, or out of range")]
    Number,
    /// The line ends before an item that it needs.
    #[error("the line ends before an item that it needs")]
    Missing,
}

/// Why a line was not read.
#[derive(Clone, Copy, Debug, PartialEq, Eq, Error)]
pub enum LineStop {
    #[error(transparent)]
    Flaw(Flaw),
    /// Out of memory.
    #[error("out of memory")]
    Memory,
}

impl From<Flaw> for LineStop {
    ghost use Rattle.std.specs.Prelude.{◌≡◌};
    ghost use Rattle.ffc_cert.specs.declared.flaws.LineStop.TheVariants.{Flaw};

    ghost from_gives = { λ flaw e. e ≡ Flaw flaw };

    fn from(flaw: Flaw) -> LineStop {
        LineStop::Flaw(flaw)
    }
}

impl From<AllocError> for LineStop {
    ghost use Rattle.std.specs.Prelude.{◌≡◌};
    ghost use Rattle.ffc_cert.specs.declared.flaws.LineStop.TheVariants.{Memory};

    ghost from_gives = { λ _ e. e ≡ Memory };

    fn from(_: AllocError) -> LineStop {
        LineStop::Memory
    }
}

impl<T: Drop> From<AllocFailed<T>> for LineStop {
    ghost use Rattle.std.specs.Prelude.{◌≡◌};
    ghost use Rattle.ffc_cert.specs.declared.flaws.LineStop.TheVariants.{Memory};

    ghost from_gives = { λ _ e. e ≡ Memory };

    fn from(_: AllocFailed<T>) -> LineStop {
        LineStop::Memory
    }
}
