//! What a context keeps of the commands so far.
ghost use Rattle.std.specs.Prelude.{IfOk};
ghost use Rattle.ffc_elab.specs.Histories.{first_known};

use crate::answers::Declared;
use crate::levels::Mark;
use ffc_field::FieldId;
use ffc_lex::Text;
use ffc_parts::Options;
use ffc_term::{NodeId, NodeTable};
use ffc_terms::{Names, Symbols};
use std::alloc::{AllocError, Global};

/// The names, levels, assertions and nodes that the commands so far leave.
#[derive(Drop)]
pub(crate) struct Store {
    pub(crate) alloc: Global,
    /// Whether the logic is set.
    pub(crate) logic: bool,
    pub(crate) options: Options,
    /// Of each level above 0, the outermost first.
    pub(crate) marks: Vec<Mark>,
    pub(crate) symbols: Symbols,
    pub(crate) table: NodeTable,
    /// How many constants were declared over the whole script.
    pub(crate) constants: u32,
    /// The field that was named first.
    pub(crate) first: Option<FieldId>,
    /// The nodes of the active assertions, the oldest first, and of the assumptions of the last command after them.
    pub(crate) in_force: Vec<NodeId>,
    /// The name of each of them, where it has one.
    pub(crate) names: Vec<Option<Text>>,
    /// How many of them are assumptions.
    pub(crate) assumed: usize,
    /// The constants that are in scope, the oldest first.
    pub(crate) declared: Vec<Declared>,
    /// Their nodes.
    pub(crate) declared_nodes: Vec<NodeId>,
}

impl Store {
    ghost use Rattle.ffc_elab.specs.Kept.{IsKept};

    /// What is kept where nothing was taken.
    pub(crate) fn new(alloc: Global) -> Result<Store, AllocError>
        ensures { IfOk result (IsKept first_known) }
    {
        Ok(Store {
            alloc,
            logic: false,
            options: Options::new(),
            marks: Vec::new(alloc),
            symbols: Symbols {
                terms: Names::new(alloc),
                sorts: Names::new(alloc),
            },
            table: NodeTable::new(alloc)?,
            constants: 0,
            first: None,
            in_force: Vec::new(alloc),
            names: Vec::new(alloc),
            assumed: 0,
            declared: Vec::new(alloc),
            declared_nodes: Vec::new(alloc),
        })
    }
}
