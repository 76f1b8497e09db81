//! Why an entry is refused.
ghost use Rattle.std.specs.Prelude.{◌≡◌};
ghost use Rattle.ffc_check.specs.declared.stop.CheckStop.TheVariants as stops;

use std::alloc::{AllocError, AllocFailed};
use thiserror::Error;

/// The first line of an entry that breaks a rule, by its number in the certificate, and the rule's number.
#[derive(Clone, Copy, Debug, PartialEq, Eq, Error)]
#[error("line {line} breaks rule {rule}")]
pub struct Broken {
    pub line: u64,
    pub rule: u8,
}

/// Why an entry is not accepted.
#[derive(Clone, Copy, Debug, PartialEq, Eq, Error)]
pub enum CheckStop {
    #[error(transparent)]
    Broken(Broken),
    /// Out of memory.
    #[error("out of memory")]
    Memory,
}

impl From<AllocError> for CheckStop {
    ghost use Rattle.std.specs.Prelude.{◌≡◌};
    ghost use Rattle.ffc_check.specs.declared.stop.CheckStop.TheVariants.{Memory};

    ghost from_gives = { λ _ stop. stop ≡ Memory };

    fn from(_: AllocError) -> CheckStop {
        CheckStop::Memory
    }
}

impl<T: Drop> From<AllocFailed<T>> for CheckStop {
    ghost use Rattle.std.specs.Prelude.{◌≡◌};
    ghost use Rattle.ffc_check.specs.declared.stop.CheckStop.TheVariants.{Memory};

    ghost from_gives = { λ _ stop. stop ≡ Memory };

    fn from(_: AllocFailed<T>) -> CheckStop {
        CheckStop::Memory
    }
}

/// A broken rule as the cause.
pub fn breaks(rule: u8, line: u64) -> CheckStop
    ensures { result ≡ stops.Broken (record { line = line; rule = rule }) }
{
    CheckStop::Broken(Broken { line, rule })
}
