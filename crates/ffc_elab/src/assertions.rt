//! Assertions.
ghost use Rattle.std.specs.Prelude.{◌≡◌, ◌<◌, ◌≤◌, [], ◌∷◌, ◌++◌, length, take, vec_len, vec_capacity, IsOk, OnOk};
ghost use Rattle.std.specs.Prelude.{OnErr};
ghost use Rattle.ffc_smt.specs.Scopes.{with_assertion};
ghost use Rattle.ffc_smt.specs.TableChecks.{node_of};
ghost use Rattle.ffc_smt.specs.Terms.{Term};
ghost use Rattle.ffc_elab.specs.Histories.{Known};

use crate::levels::{Mark, count_more};
use crate::store::Store;
use ffc_lex::Text;
use ffc_term::NodeId;
use std::alloc::AllocError;

/// Keeps the first ones, so many, and puts a node and its name after them.
fn put_after(
    nodes: &mut Vec<NodeId>,
    names: &mut Vec<Option<Text>>,
    count: usize,
    node: NodeId,
    name: Option<Text>,
) -> Result<(), AllocError>
    ensures nodes { OnOk result (nodes.new.items ≡ take count nodes.old.items ++ node ∷ []) }
    ensures names { OnOk result (names.new.items ≡ take count names.old.items ++ name ∷ []) }
    ensures old_nodes { OnErr result (nodes.new.items ≡ nodes.old.items) }
    ensures old_names { OnErr result (names.new.items ≡ names.old.items) }
    ensures sure { vec_len nodes.old < vec_capacity nodes.old → vec_len names.old < vec_capacity names.old
        → IsOk result }
{
    nodes.reserve(1)?;
    names.reserve(1)?;
    nodes.truncate(count);
    names.truncate(count);
    nodes.push(node)?;
    names.push(name)?;
    Ok(())
}

impl Store {
    ghost use Rattle.ffc_elab.specs.Kept.{IsKept};
    ghost use Rattle.ffc_elab.specs.Changes.{HasRoom, IsSame, in_state};

    /// Takes the memory for one more assertion.
    pub(crate) fn reserve_assertion(&mut self) -> Result<(), AllocError>
        ensures same { IsSame self.old self.new }
        ensures ok { OnOk result (HasRoom self.new) }
    {
        self.in_force.reserve(1)?;
        self.names.reserve(1)?;
        Ok(())
    }

    /// Asserts a term of this node on the innermost level. Nothing is assumed any more.
    pub(crate) fn push_assertion(
        &mut self,
        node: NodeId,
        name: Option<Text>,
    ) -> Result<(), AllocError>
        ensures ok { OnOk result ((k : Known) (t : Term) → node ≡ node_of k.state.nodes t → IsKept k self.old
            → IsKept (in_state (with_assertion (record { term = t; label = name }) k.state)) self.new) }
        ensures err { OnErr result (IsSame self.old self.new) }
        ensures sure { HasRoom self.old → IsOk result }
    {
        let count = self.in_force.len().saturating_sub(self.assumed);
        put_after(&mut self.in_force, &mut self.names, count, node, name)?;
        self.assumed = 0;
        let _count = self.in_force.len();
        count_more(&mut self.marks, Mark::of_assertion());
        Ok(())
    }
}
