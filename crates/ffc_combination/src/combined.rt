//! What is found of a check.
use ffc_cert::{CertLine, Sequence};
use ffc_term::NodeId;

/// What a combination finds of a check.
#[derive(Drop)]
pub enum Combined {
    /// A refutation.
    Refuted(Sequence<CertLine>),
    /// Values of the field constants, in increasing order of their nodes, that make all assertions true.
    Values(Vec<(NodeId, u64)>),
}
