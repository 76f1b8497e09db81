//! The walk over a check's nodes, from the last to the first, that finds what is asserted.
ghost use Rattle.std.specs.Prelude.{◌≡◌, ℕ, ◌<◌, ◌++◌, List, [], ◌∷◌, length, All, true, IfOk};
ghost use Rattle.ffc_conjunction.specs.Forced.{IsForcing};
ghost use Rattle.ffc_conjunction.specs.Walks.{IsWalk, Visits, Walks};
ghost use Rattle.ffc_rules.specs.Cones.{is_listed};
ghost use Rattle.ffc_rules.specs.Entries.{NodeCheck};
ghost use Rattle.ffc_term.specs.Nodes.{IsNodeAt};
ghost use Rattle.ffc_term.specs.declared.node.Node.TheVariants as node_is;

use crate::forcing::Forcing;
use ffc_refutation::Reason;
use ffc_term::{Node, NodeId, NodeTable};
use std::alloc::{AllocError, Global};

/// What is forced of the nodes, and the equations and disequations so far, each from the last.
#[derive(Drop)]
pub(crate) struct Walk {
    pub(crate) forcing: Forcing,
    pub(crate) equations: Vec<NodeId>,
    pub(crate) disequations: Vec<NodeId>,
}

impl Walk {
    /// Begins with the active nodes.
    pub(crate) fn new(
        alloc: Global,
        table: &NodeTable,
        active: &[NodeId],
    ) -> Result<Walk, AllocError>
        requires { All (λ id. id < length table.now) active.now }
        ensures long { IfOk result (λ w. length w.forcing.marks.items ≡ length table.now) }
        ensures walk { IfOk result (λ w. (c : NodeCheck) → c.nodes ≡ table.now → c.in_force ≡ active.now
            → IsWalk c active.now [] w) }
    {
        let mut forcing = Forcing::new(alloc, table.len())?;
        forcing.assert_active(active)?;
        Ok(Walk {
            forcing,
            equations: Vec::new(alloc),
            disequations: Vec::new(alloc),
        })
    }

    // Visits the negation of a node that is asserted. Whether the node is an equality.
    fn visit_negation(
        &mut self,
        table: &NodeTable,
        id: NodeId,
        a: NodeId,
    ) -> Result<bool, AllocError>
        requires at { IsNodeAt table.now id (node_is.Not a) }
        requires within { a < length table.now }
        requires long { length self.old.forcing.marks.items ≡ length table.now }
        ensures long { length self.new.forcing.marks.items ≡ length table.now }
        ensures visits { (c : NodeCheck) (found denied : List ℕ) → c.nodes ≡ table.now → is_listed found id ≡ true
            → IsForcing c found denied self.old.forcing → IfOk result (Visits c found denied id self.old self.new) }
    {
        let Node::Eq(..) = table.node(a) else {
            return Ok(false);
        };
        self.disequations.push(a)?;
        self.forcing.deny(a, Reason::Scheme(id, 1, 0))?;
        Ok(true)
    }

    // Visits a node that is asserted. Whether a conjunction of equations and disequations may have it.
    fn visit(&mut self, table: &NodeTable, id: NodeId) -> Result<bool, AllocError>
        requires within { id < length table.now }
        requires long { length self.old.forcing.marks.items ≡ length table.now }
        ensures long { length self.new.forcing.marks.items ≡ length table.now }
        ensures visits { (c : NodeCheck) (found denied : List ℕ) → c.nodes ≡ table.now → is_listed found id ≡ true
            → IsForcing c found denied self.old.forcing → IfOk result (Visits c found denied id self.old self.new) }
    {
        match table.node(id) {
            Node::True => Ok(true),
            Node::And(ids) => {
                self.forcing.assert_parts(id, ids.as_slice())?;
                Ok(true)
            }
            Node::Eq(..) => {
                self.equations.push(id)?;
                Ok(true)
            }
            Node::Not(a) => self.visit_negation(table, id, *a),
            _ => Ok(false),
        }
    }

    // Visits a node where it is asserted.
    fn look_at(&mut self, table: &NodeTable, id: NodeId) -> Result<bool, AllocError>
        requires within { id < length table.now }
        requires long { length self.old.forcing.marks.items ≡ length table.now }
        ensures long { length self.new.forcing.marks.items ≡ length table.now }
        ensures walks { (c : NodeCheck) (ids xs : List ℕ) → c.nodes ≡ table.now → IsWalk c ids xs self.old
            → IfOk result (Walks c ids (id ∷ xs) self.new) }
    {
        if self.forcing.asserts(id) {
            self.visit(table, id)
        } else {
            Ok(true)
        }
    }

    /// Looks at these nodes from the last to the first. Whether a conjunction of equations and disequations may have each one that
    /// is asserted; it stops at the first one of which that is false.
    pub(crate) fn look_at_all(
        &mut self,
        table: &NodeTable,
        nodes: &[NodeId],
    ) -> Result<bool, AllocError>
        requires within { All (λ id. id < length table.now) nodes.now }
        requires long { length self.old.forcing.marks.items ≡ length table.now }
        ensures { (c : NodeCheck) (ids : List ℕ) → c.nodes ≡ table.now → IsWalk c ids [] self.old
            → IfOk result (Walks c ids nodes.now self.new) }
    {
        let mut k = nodes.len();
        while k > 0 {
            k -= 1;
            if !self.look_at(table, nodes[k])? {
                return Ok(false);
            }
        }
        Ok(true)
    }
}
