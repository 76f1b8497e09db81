//! Measures of a check.
ghost use Rattle.std.specs.Prelude.{◌≡◌, ◌<◌, length, All, IfOk, vec_len};
ghost use Rattle.ffc_term.specs.Measuring.{AreMeasuresOf};

use crate::node::{Node, NodeId};
use crate::table::NodeTable;
use std::alloc::AllocError;

/// How many assignments the constants of a check have, and that times the number of its nodes; each is given as 2^64
/// where it is greater.
#[derive(Clone, Copy, Debug, PartialEq, Eq)]
pub struct Measures {
    pub span: u128,
    pub work: u128,
}
