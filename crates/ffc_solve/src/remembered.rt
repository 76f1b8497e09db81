//! What is remembered of the last check.
use ffc_cert::Entry;
use ffc_elab::{Asked, Effect};

/// The last check, as far as later commands ask for it.
#[derive(Debug, Drop)]
pub struct Remembered {
    pub entry: Entry,
    /// Whether no command since has ended its model.
    pub fresh: bool,
    /// The numbers of the active list that the entry uses.
    pub core: Vec<u64>,
    /// The assumptions of a `check-sat-assuming`.
    pub asked: Option<Vec<Asked>>,
}

/// How many checks had each verdict.
#[derive(Clone, Copy, Debug, PartialEq, Eq)]
pub struct Tally {
    pub sat: u64,
    pub unsat: u64,
    pub unknown: u64,
}
