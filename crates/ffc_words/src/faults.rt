//! Why a command is not taken.
use ffc_lex::ScriptFault;
use std::alloc::{AllocError, AllocFailed};
use thiserror::Error;

/// Why a command was not taken.
#[derive(Clone, Copy, Debug, PartialEq, Eq, Error)]
pub enum TakeStop {
    #[error(transparent)]
    Fault(ScriptFault),
    /// Out of memory.
    #[error("out of memory")]
    Memory,
}

impl From<ScriptFault> for TakeStop {
    ghost use Rattle.std.specs.Prelude.{◌≡◌};
    ghost use Rattle.ffc_words.specs.declared.faults.TakeStop.TheVariants.{Fault};

    ghost from_gives = { λ f e. e ≡ Fault f };

    fn from(fault: ScriptFault) -> TakeStop {
        TakeStop::Fault(fault)
    }
}

impl From<AllocError> for TakeStop {
    ghost use Rattle.std.specs.Prelude.{◌≡◌};
    ghost use Rattle.ffc_words.specs.declared.faults.TakeStop.TheVariants.{Memory};

    ghost from_gives = { λ _ e. e ≡ Memory };

    fn from(_error: AllocError) -> TakeStop {
        TakeStop::Memory
    }
}

impl<T: Drop> From<AllocFailed<T>> for TakeStop {
    ghost use Rattle.std.specs.Prelude.{◌≡◌};
    ghost use Rattle.ffc_words.specs.declared.faults.TakeStop.TheVariants.{Memory};

    ghost from_gives = { λ _ e. e ≡ Memory };

    fn from(_error: AllocFailed<T>) -> TakeStop {
        TakeStop::Memory
    }
}
