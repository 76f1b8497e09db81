//! What a command asks for.
use ffc_lex::Text;
use ffc_term::{NodeId, Sort};

/// What a command does to the model that was found last.
#[derive(Clone, Copy, Debug, PartialEq, Eq)]
pub enum Effect {
    Keeps,
    EndsModel,
    /// It also ends the last verdict.
    Forgets,
}

/// A term or an assumption that is asked for: its node, and how it was written.
#[derive(Debug, Drop)]
pub struct Asked {
    pub node: NodeId,
    pub text: Text,
}

/// A command, as far as whoever answers it has to know it.
#[derive(Debug, Drop)]
pub enum Command {
    /// Nothing is asked for.
    Quiet(Effect),
    Check,
    CheckAssuming(Vec<Asked>),
    GetModel,
    GetValue(Vec<Asked>),
    /// Why the last verdict was unknown.
    GetReason,
    GetCore,
    GetAssumptions,
    /// To print this.
    Say(Text),
    /// An option or an information that is not known.
    Unsupported,
    Exit,
}

/// A declared constant that is in scope.
#[derive(Debug, Drop)]
pub struct Declared {
    pub name: Text,
    pub node: NodeId,
    pub sort: Sort,
}
