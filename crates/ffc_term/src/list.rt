//! Lists of nodes by number, as the children of a node.
ghost use Rattle.std.specs.Prelude.{◌≡◌, ℕ, List, IfOk, nat_eq};
ghost use Rattle.std.specs.Hash as fed;
ghost use Rattle.std.specs.Cmp.Lexicographic.{pointwise};
ghost use Rattle.std.specs.Cmp.Rules.{comparing, hashing};
ghost use Rattle.std.specs.List.Sorted.{IsStrictlyIncreasing};
ghost use Rattle.std.proofs.Common.{rules};
ghost use Rattle.ffc_term.specs.Lists.{HaveSameNumbers};

use crate::node::NodeId;
use std::alloc::{AllocError, Global};
use std::hash::{Hash, Hasher};
use std::marker::Model;

/// A list of nodes, by number. Clauses see it as the list alone.
#[derive(Debug, Drop)]
pub struct NodeList {
    ids: Vec<NodeId>,
}

impl Model for NodeList {
    ghost Value = { List ℕ };

    ghost view = { λ a. a.ids.items };
}

impl NodeList {
    /// The vector as a list. It takes no memory.
    pub fn new(ids: Vec<NodeId>) -> Self
        ensures { result ≡ ids.items }
    {
        NodeList { ids }
    }

    pub fn as_slice(&self) -> &[NodeId]
        ensures { result.now ≡ self.now }
    {
        self.ids.as_slice()
    }

    /// The list as a vector. It takes no memory.
    pub fn into_vec(self) -> Vec<NodeId>
        ensures { result.items ≡ self }
    {
        let NodeList { ids } = self;
        ids
    }
}

impl PartialEq for NodeList {
    ghost eq = { pointwise nat_eq };

    ghost laws = { Prim.search (comparing, rules) };

    fn eq(&self, other: &NodeList) -> bool {
        self.ids == other.ids
    }
}

impl Eq for NodeList {
    ghost laws = { Prim.search (comparing, rules) };
}

impl Hash for NodeList {
    ghost hash_input = { fed.slice fed.u32 };

    ghost respects_eq = { Prim.search (hashing, rules) };

    fn hash<H: Hasher>(&self, state: &mut H) {
        self.ids.hash(state);
    }
}

/// The nodes of a list in increasing order, each once.
pub fn distinct(alloc: Global, ids: &[NodeId]) -> Result<Vec<NodeId>, AllocError>
    ensures increasing { IfOk result (λ v. IsStrictlyIncreasing v.items) }
    ensures same { IfOk result (λ v. HaveSameNumbers v.items ids.now) }
{
    let mut sorted = ids.to_vec(alloc)?;
    sorted.sort_unstable();
    sorted.dedup();
    Ok(sorted)
}
