//! Which nodes are asserted or denied, and the reasons that force it.
ghost use Rattle.std.specs.Prelude.{◌≡◌, ℕ, ◌<◌, List, [], ◌∷◌, ◌++◌, length, All, true, false, IfOk, OnOk, if◌then◌else◌};
ghost use Rattle.ffc_clause.specs.Clauses.{plus, minus};
ghost use Rattle.ffc_conjunction.specs.Forced.{is_asserted, mark_at, Gives, IsForcing};
ghost use Rattle.ffc_rules.specs.Cones.{is_listed};
ghost use Rattle.ffc_rules.specs.Entries.{NodeCheck};
ghost use Rattle.ffc_term.specs.Nodes.{IsNodeAt};
ghost use Rattle.ffc_term.specs.declared.node.Node.TheVariants as node_is;

use ffc_refutation::Reason;
use ffc_term::NodeId;
use std::alloc::{AllocError, Global};

/// What is forced of a node.
#[derive(Clone, Copy)]
enum Mark {
    Unmarked,
    Asserted,
    Denied,
}

/// A mark for each node of a table, and the reasons of the marks in the order in which they force them. Once a node is forced both
/// ways there is a clash: the last reason is then a clause that is false, and no reason is added after it.
#[derive(Drop)]
pub(crate) struct Forcing {
    marks: Vec<Mark>,
    pub(crate) reasons: Vec<Reason>,
    pub(crate) clashes: bool,
}

impl Forcing {
    /// Nothing is forced of the nodes below a number.
    pub(crate) fn new(alloc: Global, nodes: u32) -> Result<Forcing, AllocError>
        ensures long { IfOk result (λ f. length f.marks.items ≡ nodes) }
        ensures nothing { IfOk result (λ f. (c : NodeCheck) → length c.nodes ≡ nodes → IsForcing c [] [] f) }
    {
        Ok(Forcing {
            marks: vec![in alloc; Mark::Unmarked; nodes as usize]?,
            reasons: Vec::new(alloc),
            clashes: false,
        })
    }

    /// Whether a node is asserted.
    pub(crate) fn asserts(&self, id: NodeId) -> bool
        requires { id < length self.now.marks.items }
        ensures { result ≡ is_asserted (mark_at self.now.marks.items id) }
    {
        matches!(self.marks[id as usize], Mark::Asserted)
    }

    // Adds a reason, and whether there is a clash with it, unless there was one before.
    fn add(&mut self, reason: Reason, clashes: bool) -> Result<(), AllocError>
        ensures marks { self.new.marks.items ≡ self.old.marks.items }
        ensures reasons { OnOk result (self.new.reasons.items ≡ (if self.old.clashes then self.old.reasons.items
            else self.old.reasons.items ++ reason ∷ [])) }
        ensures clashes { OnOk result (self.new.clashes ≡ (if self.old.clashes then true else clashes)) }
    {
        if !self.clashes {
            self.reasons.push(reason)?;
            self.clashes = clashes;
        }
        Ok(())
    }

    /// Asserts a node. Each other literal of the reason's clause is false.
    pub(crate) fn assert(&mut self, id: NodeId, reason: Reason) -> Result<(), AllocError>
        requires { id < length self.old.marks.items }
        ensures long { length self.new.marks.items ≡ length self.old.marks.items }
        ensures forced { (c : NodeCheck) (found denied : List ℕ) → IsForcing c found denied self.old
            → Gives c found (plus id) reason → OnOk result (IsForcing c (id ∷ found) denied self.new) }
    {
        match self.marks[id as usize] {
            Mark::Asserted => Ok(()),
            Mark::Unmarked => {
                self.marks[id as usize] = Mark::Asserted;
                self.add(reason, false)
            }
            Mark::Denied => {
                self.marks[id as usize] = Mark::Asserted;
                self.add(reason, true)
            }
        }
    }

    /// Denies a node. Each other literal of the reason's clause is false.
    pub(crate) fn deny(&mut self, id: NodeId, reason: Reason) -> Result<(), AllocError>
        requires { id < length self.old.marks.items }
        ensures long { length self.new.marks.items ≡ length self.old.marks.items }
        ensures forced { (c : NodeCheck) (found denied : List ℕ) → IsForcing c found denied self.old
            → Gives c found (minus id) reason → OnOk result (IsForcing c found (id ∷ denied) self.new) }
    {
        match self.marks[id as usize] {
            Mark::Denied => Ok(()),
            Mark::Unmarked => {
                self.marks[id as usize] = Mark::Denied;
                self.add(reason, false)
            }
            Mark::Asserted => self.add(reason, true),
        }
    }

    /// Asserts the active nodes. More than 2^32 are more than there is memory for.
    pub(crate) fn assert_active(&mut self, ids: &[NodeId]) -> Result<(), AllocError>
        requires { All (λ id. id < length self.old.marks.items) ids.now }
        ensures long { length self.new.marks.items ≡ length self.old.marks.items }
        ensures forced { (c : NodeCheck) → c.in_force ≡ ids.now → IsForcing c [] [] self.old
            → OnOk result (IsForcing c ids.now [] self.new) }
    {
        for (number, id) in ids.iter().enumerate() {
            let Ok(number) = u32::try_from(number) else {
                return Err(AllocError);
            };
            self.assert(*id, Reason::Assertion(number))?;
        }
        Ok(())
    }

    /// Asserts the parts of an `and` that is asserted. More than 2^32 are more than there is memory for.
    pub(crate) fn assert_parts(&mut self, node: NodeId, ids: &[NodeId]) -> Result<(), AllocError>
        requires { All (λ id. id < length self.old.marks.items) ids.now }
        ensures long { length self.new.marks.items ≡ length self.old.marks.items }
        ensures forced { (c : NodeCheck) (found denied : List ℕ) → IsNodeAt c.nodes node (node_is.And ids.now)
            → is_listed found node ≡ true → IsForcing c found denied self.old
            → OnOk result (IsForcing c (ids.now ++ found) denied self.new) }
    {
        for (index, id) in ids.iter().enumerate() {
            let Ok(index) = u32::try_from(index) else {
                return Err(AllocError);
            };
            self.assert(*id, Reason::Scheme(node, 0, index))?;
        }
        Ok(())
    }
}
