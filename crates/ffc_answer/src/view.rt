//! What an answer is read from.
use ffc_cert::Entry;
use ffc_elab::{Asked, Context};

/// The context after a command, and what is remembered of the last check.
#[derive(Clone, Copy)]
pub struct View<'a> {
    pub context: &'a Context,
    /// The entry of the last check, where there was one.
    pub last: Option<&'a Entry>,
    /// Whether no command since has ended its model.
    pub fresh: bool,
    /// The numbers of the active list that the entry uses; none where it is no refutation.
    pub core: &'a [u64],
    /// The assumptions of the last check, where it was a check under assumptions.
    pub asked: Option<&'a [Asked]>,
}
