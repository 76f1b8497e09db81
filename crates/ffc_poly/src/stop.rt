//! Why a polynomial was not made.
use std::alloc::AllocError;
use thiserror::Error;

/// Why a polynomial was not made.
#[derive(Clone, Copy, Debug, PartialEq, Eq, Drop, Error)]
pub enum PolyStop {
    /// The total degree of a product of two terms would pass the limit.
    #[error("the total degree passes the limit")]
    DegreeOver,
    /// There would be more terms than the limit.
    #[error("there are more terms than the limit")]
    TermsOver,
    /// Out of memory.
    #[error("out of memory")]
    Memory,
}

impl From<AllocError> for PolyStop {
    ghost use Rattle.std.specs.Prelude.{◌≡◌};
    ghost use Rattle.ffc_poly.specs.declared.stop.PolyStop.TheVariants.{Memory};

    ghost from_gives = { λ _ stop. stop ≡ Memory };

    fn from(_: AllocError) -> PolyStop {
        PolyStop::Memory
    }
}
