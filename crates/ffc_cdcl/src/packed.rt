//! Literals in four bytes, as the buffer of clauses has them (Eén and Sörensson 2003).
use crate::literal::Lit;
use ffc_term::NodeId;

/// Twice a node, and one more where the literal is positive. Nodes of 2^31 and more are not distinguished from smaller ones; what
/// is learned from one in place of another does not follow by its hints, so the search ends.
#[derive(Clone, Copy)]
pub struct Packed(pub u32);

impl Packed {
    #[inline(always)]
    pub fn of(literal: Lit) -> Packed {
        Packed(literal.node.wrapping_mul(2) | u32::from(literal.positive))
    }

    #[inline(always)]
    pub fn node(self) -> NodeId {
        self.0 / 2
    }

    #[inline(always)]
    pub fn is_positive(self) -> bool {
        self.0 % 2 == 1
    }

    #[inline(always)]
    pub fn literal(self) -> Lit {
        Lit {
            node: self.node(),
            positive: self.is_positive(),
        }
    }

    /// The literal that is true where this one is false.
    #[inline(always)]
    pub fn negated(self) -> Packed {
        Packed(self.0 ^ 1)
    }

    /// The literal's place among the literals of all nodes.
    #[inline(always)]
    pub fn place(self) -> usize {
        self.0 as usize
    }
}
