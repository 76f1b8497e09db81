//! Terms in a flat form: what is to be done to make a term's node, in order.
use ffc_parts::Operator;
use ffc_term::NodeId;

/// A step of making a node, over a stack of nodes and a stack of local variables, each as its node.
#[derive(Clone, Copy, Debug, PartialEq, Eq)]
pub enum Op {
    Truth(bool),
    /// A residue and the order of its field.
    Number(u64, u64),
    /// The node of a constant, or of a name that was defined without parameters.
    Known(NodeId),
    /// A local variable, by how many were bound before it.
    Local(usize),
    /// A function of so many nodes.
    Apply(Operator, usize),
    /// The last nodes become local variables, the last of them first.
    Bind(usize),
    /// So many local variables end.
    Unbind(usize),
    /// A macro, by how many names were in scope before it, and so many nodes as its parameters.
    Call(usize, usize),
}
