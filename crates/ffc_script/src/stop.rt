//! Why a script is not read on.
use ffc_lex::LexStop;
use ffc_words::{ScriptFault, TakeStop};
use std::alloc::AllocError;
use thiserror::Error;

/// Why a call gave no answer.
#[derive(Clone, Copy, Debug, PartialEq, Eq, Error)]
pub enum ScriptStop {
    #[error(transparent)]
    Fault(ScriptFault),
    /// Out of memory.
    #[error("out of memory")]
    Memory,
}

impl From<AllocError> for ScriptStop {
    ghost use Rattle.std.specs.Prelude.{◌≡◌};
    ghost use Rattle.ffc_script.specs.declared.stop.ScriptStop.TheVariants.{Memory};

    ghost from_gives = { λ _ e. e ≡ Memory };

    fn from(_error: AllocError) -> ScriptStop {
        ScriptStop::Memory
    }
}

impl From<LexStop> for ScriptStop {
    ghost use Rattle.std.specs.Prelude.{◌≡◌};
    ghost use Rattle.ffc_script.specs.Stops.{lexing_stop};

    ghost from_gives = { λ s e. e ≡ lexing_stop s };

    fn from(stop: LexStop) -> ScriptStop {
        match stop {
            LexStop::Fault(fault) => ScriptStop::Fault(fault),
            LexStop::Memory => ScriptStop::Memory,
        }
    }
}

impl From<TakeStop> for ScriptStop {
    ghost use Rattle.std.specs.Prelude.{◌≡◌};
    ghost use Rattle.ffc_script.specs.Stops.{taking_stop};

    ghost from_gives = { λ s e. e ≡ taking_stop s };

    fn from(stop: TakeStop) -> ScriptStop {
        match stop {
            TakeStop::Fault(fault) => ScriptStop::Fault(fault),
            TakeStop::Memory => ScriptStop::Memory,
        }
    }
}
