//! Assumptions of the last command.
ghost use Rattle.std.specs.Prelude.{◌≡◌, ◌+◌, ◌≤◌, ◌++◌, List, None, length, map, take, vec_len, vec_capacity, OnOk};
ghost use Rattle.std.specs.Prelude.{OnErr};
ghost use Rattle.ffc_smt.specs.Terms as smt;
ghost use Rattle.ffc_elab.specs.Answers.{asked_as};
ghost use Rattle.ffc_elab.specs.Histories.{Known};

use crate::answers::Asked;
use crate::store::Store;
use ffc_lex::Text;
use ffc_term::NodeId;
use std::alloc::AllocError;

/// Appends the nodes of terms, for which there is room.
fn push_nodes(nodes: &mut Vec<NodeId>, asked: &[Asked])
    requires { vec_len nodes.old + length asked.now ≤ vec_capacity nodes.old }
    ensures { nodes.new.items ≡ nodes.old.items ++ map (λ a. a.node) asked.now }
{
    for term in asked {
        let _ = nodes.push(term.node);
    }
}

/// Appends that they have no names, for which there is room.
fn push_unnamed(names: &mut Vec<Option<Text>>, asked: &[Asked])
    requires { vec_len names.old + length asked.now ≤ vec_capacity names.old }
    ensures { names.new.items ≡ names.old.items ++ map (λ _. None) asked.now }
{
    for _ in asked {
        let _ = names.push(None);
    }
}

/// Keeps the first ones, so many, and puts terms without names after them.
fn put_unnamed_after(
    nodes: &mut Vec<NodeId>,
    names: &mut Vec<Option<Text>>,
    count: usize,
    asked: &[Asked],
) -> Result<(), AllocError>
    ensures nodes { OnOk result (nodes.new.items ≡ take count nodes.old.items ++ map (λ a. a.node) asked.now) }
    ensures names { OnOk result (names.new.items ≡ take count names.old.items ++ map (λ _. None) asked.now) }
    ensures old_nodes { OnErr result (nodes.new.items ≡ nodes.old.items) }
    ensures old_names { OnErr result (names.new.items ≡ names.old.items) }
{
    nodes.reserve(asked.len())?;
    names.reserve(asked.len())?;
    nodes.truncate(count);
    names.truncate(count);
    push_nodes(nodes, asked);
    push_unnamed(names, asked);
    Ok(())
}

impl Store {
    ghost use Rattle.ffc_elab.specs.Kept.{IsKept};
    ghost use Rattle.ffc_elab.specs.Changes.{IsSame, assuming};

    /// Assumes these terms, and what was assumed before no more.
    pub(crate) fn assume(&mut self, asked: &[Asked]) -> Result<(), AllocError>
        ensures ok { OnOk result ((k : Known) (terms : List smt.Asked) → asked.now ≡ map (asked_as k.state.nodes) terms
            → IsKept k self.old → IsKept (assuming terms k.state) self.new) }
        ensures err { OnErr result (IsSame self.old self.new) }
    {
        let count = self.in_force.len().saturating_sub(self.assumed);
        put_unnamed_after(&mut self.in_force, &mut self.names, count, asked)?;
        self.assumed = asked.len();
        Ok(())
    }
}
