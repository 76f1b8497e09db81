//! Terms that were read.
use crate::frames::Place;
use ffc_term::Sort;

/// A term that was read: where it begins, its sort, its height and its weight.
#[derive(Clone, Copy, PartialEq, Eq)]
pub(crate) struct Value {
    pub(crate) place: Place,
    pub(crate) sort: Sort,
    pub(crate) height: u32,
    pub(crate) weight: u32,
}
