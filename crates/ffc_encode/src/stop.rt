//! Why a node's polynomial is not given.
use std::alloc::AllocError;
use thiserror::Error;

/// Why a node's polynomial is not given.
#[derive(Clone, Copy, Debug, PartialEq, Eq, Drop, Error)]
pub enum EncodeStop {
    /// The degree may be above 255.
    #[error("the degree passes the limit")]
    TooHigh,
    /// The degree is at most 255, and there may be more than 65,536 terms.
    #[error("the number of terms passes the limit")]
    TooLong,
    /// Out of memory.
    #[error("out of memory")]
    Memory,
}

impl From<AllocError> for EncodeStop {
    ghost use Rattle.std.specs.Prelude.{◌≡◌};
    ghost use Rattle.ffc_encode.specs.declared.stop.EncodeStop.TheVariants.{Memory};

    ghost from_gives = { λ _ stop. stop ≡ Memory };

    fn from(_: AllocError) -> EncodeStop {
        EncodeStop::Memory
    }
}
