//! The nodes of a table, and their sorts.
use crate::list::NodeList;

/// The number of a node in its table.
pub type NodeId = u32;

/// The sort of a node: Boolean, or a field by its order.
#[derive(Clone, Copy, Debug, PartialEq, Eq)]
pub enum Sort {
    Bool,
    Field(u64),
}

impl Sort {
    ghost use Rattle.std.specs.Prelude.{◌≡◌};
    ghost use Rattle.ffc_term.specs.Nodes.{order_of_sort};

    /// The order of the field; 0 where it is none.
    pub fn order(self) -> u64
        ensures { result ≡ order_of_sort self }
    {
        match self {
            Sort::Bool => 0,
            Sort::Field(order) => order,
        }
    }
}

/// A node of the table. Its children have lower numbers.
///
/// The second part of `FieldConst` and `Num` is the order of their field.
#[derive(Debug, PartialEq, Eq, Hash, Drop)]
pub enum Node {
    True,
    False,
    /// The Boolean constant of this number, counted over all constants.
    BoolConst(u32),
    /// The field constant of this number, counted over all constants.
    FieldConst(u32, u64),
    /// A residue.
    Num(u64, u64),
    Not(NodeId),
    And(NodeList),
    Or(NodeList),
    /// Equality of two Boolean nodes.
    Iff(NodeId, NodeId),
    Xor(NodeId, NodeId),
    IteBool(NodeId, NodeId, NodeId),
    IteField(NodeId, NodeId, NodeId),
    /// Equality of two field nodes.
    Eq(NodeId, NodeId),
    Add(NodeList),
    Mul(NodeList),
    Neg(NodeId),
    /// The sum of the children, each times the power of 2 of its place.
    Bitsum(NodeList),
}

impl Node {
    ghost use Rattle.std.specs.Prelude.{◌≡◌};
    ghost use Rattle.ffc_term.specs.Nodes.{is_constant};
    ghost use Rattle.ffc_term.specs.Measuring.{value_count};

    /// Whether it is a declared constant.
    pub fn is_constant(&self) -> bool
        ensures { result ≡ is_constant self.now }
    {
        matches!(self, Node::BoolConst(_) | Node::FieldConst(..))
    }

    /// How many values it can have, where it is a constant; else 1.
    pub fn value_count(&self) -> u64
        ensures { result ≡ value_count self.now }
    {
        match self {
            Node::BoolConst(_) => 2,
            Node::FieldConst(_, order) => *order,
            _ => 1,
        }
    }
}
