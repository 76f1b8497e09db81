//! What one check looks at.
use crate::node::NodeId;
use crate::table::NodeTable;

/// A check: the constants that are declared, the Boolean nodes that are active, and the order that was named first.
#[derive(Clone, Copy)]
pub struct Check<'a> {
    pub table: &'a NodeTable,
    pub declared: &'a [NodeId],
    pub in_force: &'a [NodeId],
    pub first_order: u64,
}
