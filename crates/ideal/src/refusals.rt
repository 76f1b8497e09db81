//! Why a line is refused.
use ffc_mono::MonoStop;
use ffc_poly::PolyStop;
use std::alloc::{AllocError, AllocFailed};
use thiserror::Error;

/// Why a line is refused.
#[derive(Clone, Copy, Debug, PartialEq, Eq, Drop, Error)]
pub enum Refusal {
    #[error("expected `field`, `units`, `lines`, `generator`, `one` or `member`")]
    Word,
    #[error("expected nothing after the word")]
    More,
    #[error("expected the order of one of the eight fields")]
    Order,
    #[error("expected a line `field` before")]
    NoField,
    #[error("expected a number below 2^64")]
    Number,
    #[error("expected a term")]
    Term,
    #[error("expected a number below 2^64, or `x` and a number below 2^32")]
    Factor,
    #[error("expected an exponent below 2^32")]
    Exponent,
    #[error("a term has a total degree above 1024")]
    Degree,
    #[error("there are more than 131072 terms")]
    Terms,
    #[error("out of memory")]
    Memory,
}

impl From<AllocError> for Refusal {
    fn from(_: AllocError) -> Refusal {
        Refusal::Memory
    }
}

impl<T: Drop> From<AllocFailed<T>> for Refusal {
    fn from(_: AllocFailed<T>) -> Refusal {
        Refusal::Memory
    }
}

impl From<MonoStop> for Refusal {
    fn from(stop: MonoStop) -> Refusal {
        match stop {
            MonoStop::DegreeOver => Refusal::Degree,
            MonoStop::Memory => Refusal::Memory,
        }
    }
}

impl From<PolyStop> for Refusal {
    fn from(stop: PolyStop) -> Refusal {
        match stop {
            PolyStop::DegreeOver => Refusal::Degree,
            PolyStop::TermsOver => Refusal::Terms,
            PolyStop::Memory => Refusal::Memory,
        }
    }
}
