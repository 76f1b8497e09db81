//! Why work that is metered stops before it has an answer.
use crate::meter::Spent;
use std::alloc::{AllocError, AllocFailed};
use thiserror::Error;

/// Why work with a meter stopped: there is no other cause.
#[derive(Clone, Copy, Debug, PartialEq, Eq, Drop, Error)]
pub enum Stop {
    /// The budget is spent.
    #[error("the budget is spent")]
    Spent,
    /// Out of memory.
    #[error("out of memory")]
    Memory,
}

impl From<AllocError> for Stop {
    ghost use Rattle.std.specs.Prelude.{◌≡◌};
    ghost use Rattle.ffc_base.specs.declared.stop.Stop.TheVariants.{Memory};

    ghost from_gives = { λ _ stop. stop ≡ Memory };

    fn from(_: AllocError) -> Stop {
        Stop::Memory
    }
}

impl<T: Drop> From<AllocFailed<T>> for Stop {
    ghost use Rattle.std.specs.Prelude.{◌≡◌};
    ghost use Rattle.ffc_base.specs.declared.stop.Stop.TheVariants.{Memory};

    ghost from_gives = { λ _ stop. stop ≡ Memory };

    fn from(_: AllocFailed<T>) -> Stop {
        Stop::Memory
    }
}

impl From<Spent> for Stop {
    ghost use Rattle.std.specs.Prelude.{◌≡◌};
    ghost use Rattle.ffc_base.specs.declared.stop.Stop.TheVariants as stops;

    ghost from_gives = { λ _ stop. stop ≡ stops.Spent };

    fn from(_: Spent) -> Stop {
        Stop::Spent
    }
}

/// Why a search stopped without an answer.
#[derive(Clone, Copy, Debug, PartialEq, Eq, Drop, Error)]
pub enum SearchStop {
    /// The budget is spent.
    #[error("the budget is spent")]
    Spent,
    /// Out of memory.
    #[error("out of memory")]
    Memory,
    /// The search has no further choice, or a limit of polynomials or of certificates is passed. More units do not help.
    #[error("the search gave up")]
    GaveUp,
}

impl From<Stop> for SearchStop {
    ghost use Rattle.std.specs.Prelude.{◌≡◌};
    ghost use Rattle.ffc_base.specs.Stops.{in_search};

    ghost from_gives = { λ stop made. made ≡ in_search stop };

    fn from(stop: Stop) -> SearchStop {
        match stop {
            Stop::Spent => SearchStop::Spent,
            Stop::Memory => SearchStop::Memory,
        }
    }
}

impl From<AllocError> for SearchStop {
    ghost use Rattle.std.specs.Prelude.{◌≡◌};
    ghost use Rattle.ffc_base.specs.declared.stop.SearchStop.TheVariants.{Memory};

    ghost from_gives = { λ _ stop. stop ≡ Memory };

    fn from(_: AllocError) -> SearchStop {
        SearchStop::Memory
    }
}

impl<T: Drop> From<AllocFailed<T>> for SearchStop {
    ghost use Rattle.std.specs.Prelude.{◌≡◌};
    ghost use Rattle.ffc_base.specs.declared.stop.SearchStop.TheVariants.{Memory};

    ghost from_gives = { λ _ stop. stop ≡ Memory };

    fn from(_: AllocFailed<T>) -> SearchStop {
        SearchStop::Memory
    }
}

impl From<Spent> for SearchStop {
    ghost use Rattle.std.specs.Prelude.{◌≡◌};
    ghost use Rattle.ffc_base.specs.declared.stop.SearchStop.TheVariants as stops;

    ghost from_gives = { λ _ stop. stop ≡ stops.Spent };

    fn from(_: Spent) -> SearchStop {
        SearchStop::Spent
    }
}
