//! Why a check is not decided.
use ffc_cert::Cause;
use std::alloc::{AllocError, AllocFailed};
use thiserror::Error;

/// Why a check is not decided.
#[derive(Clone, Copy, Debug, PartialEq, Eq, Error)]
pub enum DecideStop {
    /// The budget is spent: Trials, Reductions, Assignments and Chains.
    #[error("the budget is spent")]
    Spent(u64, u64, u64, u64),
    /// An equality has a higher degree than polynomials may have.
    #[error("an equality has a degree above the limit")]
    TooHigh,
    /// An equality has more terms than polynomials may have.
    #[error("an equality has more terms than the limit")]
    TooLong,
    /// Out of memory.
    #[error("out of memory")]
    Memory,
}

impl DecideStop {
    ghost use Rattle.std.specs.Prelude.{◌≡◌};
    ghost use Rattle.ffc_trials.specs.Stops.{cause_of};

    /// The cause that a certificate states.
    pub fn cause(self) -> Cause
        ensures { result ≡ cause_of self }
    {
        match self {
            DecideStop::Spent(trials, reductions, assignments, chains) => {
                Cause::Steps(trials, reductions, assignments, chains)
            }
            DecideStop::TooHigh => Cause::Degree,
            DecideStop::TooLong => Cause::Terms,
            DecideStop::Memory => Cause::Memory,
        }
    }
}

impl From<AllocError> for DecideStop {
    ghost use Rattle.std.specs.Prelude.{◌≡◌};
    ghost use Rattle.ffc_trials.specs.declared.stop.DecideStop.TheVariants.{Memory};

    ghost from_gives = { λ _ stop. stop ≡ Memory };

    fn from(_: AllocError) -> DecideStop {
        DecideStop::Memory
    }
}

impl<T: Drop> From<AllocFailed<T>> for DecideStop {
    ghost use Rattle.std.specs.Prelude.{◌≡◌};
    ghost use Rattle.ffc_trials.specs.declared.stop.DecideStop.TheVariants.{Memory};

    ghost from_gives = { λ _ stop. stop ≡ Memory };

    fn from(_: AllocFailed<T>) -> DecideStop {
        DecideStop::Memory
    }
}
