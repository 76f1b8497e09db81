//! Literals that are forced one after another, with their reasons.
ghost use Rattle.std.specs.Prelude.{◌≡◌, ◌<◌, length, filter, slice_get, All, IfOk};
ghost use Rattle.ffc_propagation.specs.Trails.{is_true_at, is_false_at, is_open_at, HasOneOpen, IsTrail, HasTaken};
ghost use Rattle.ffc_propagation.specs.Trails.{HasTakenAll};
ghost use Rattle.ffc_propagation.specs.Forcing.{IsGiven, IsForcing, Forced};
ghost use Rattle.ffc_rules.specs.Entries.{NodeCheck};

use ffc_cert::Literal;
use ffc_refutation::Reason;
use ffc_term::NodeId;
use std::alloc::{AllocError, Global};

/// The literals that are forced, each after those that force it, with the reason of each. Where a clause is false, its
/// reason is the last one, and no literal belongs to it.
#[derive(Drop)]
pub(crate) struct Trail {
    /// How each node is forced, if it is.
    pub(crate) marks: Vec<Option<bool>>,
    pub(crate) literals: Vec<Literal>,
    pub(crate) reasons: Vec<Reason>,
}

impl Trail {
    /// Nothing is forced of the nodes below a number.
    pub(crate) fn new(alloc: Global, nodes: u32) -> Result<Trail, AllocError>
        ensures long { IfOk result (λ t. length t.marks.items ≡ nodes) }
        ensures trail { IfOk result IsTrail }
        ensures forced { (c : NodeCheck) → IfOk result (IsForcing c) }
    {
        Ok(Trail {
            marks: vec![in alloc; None; nodes as usize]?,
            literals: Vec::new(alloc),
            reasons: Vec::new(alloc),
        })
    }

    /// Whether a literal is forced.
    fn is_true(&self, literal: Literal) -> bool
        requires { literal.1 < length self.now.marks.items }
        ensures { result ≡ is_true_at self.now.marks.items literal }
    {
        self.marks[literal.1 as usize] == Some(literal.0)
    }

    /// Whether its negation is forced.
    fn is_false(&self, literal: Literal) -> bool
        requires { literal.1 < length self.now.marks.items }
        ensures { result ≡ is_false_at self.now.marks.items literal }
    {
        self.marks[literal.1 as usize] == Some(!literal.0)
    }

    /// The first literal of a clause whose negation is not forced.
    fn first_open(&self, literals: &[Literal]) -> Option<Literal>
        requires { All (λ l. l.1 < length self.now.marks.items) literals.now }
        ensures { result ≡ slice_get (filter (is_open_at self.now.marks.items) literals.now) 0 }
    {
        for literal in literals {
            if !self.is_false(*literal) {
                return Some(*literal);
            }
        }
        None
    }

    /// Takes the clause of a reason, of which at most one literal is open: that one is forced. Where none is, the clause is
    /// false. Whether it is.
    pub(crate) fn take(&mut self, literals: &[Literal], reason: Reason) -> Result<bool, AllocError>
        requires trail { IsTrail self.old }
        requires within { All (λ l. l.1 < length self.old.marks.items) literals.now }
        requires unit { HasOneOpen self.old.marks.items literals.now }
        ensures taken { IfOk result (HasTaken literals.now self.old self.new) }
        ensures forced { (c : NodeCheck) → IsGiven c reason literals.now → IsForcing c self.old
            → IfOk result (Forced c self.new) }
    {
        let Some(literal) = self.first_open(literals) else {
            self.reasons.push(reason)?;
            return Ok(true);
        };
        if !self.is_true(literal) {
            self.reasons.push(reason)?;
            self.literals.push(literal)?;
            self.marks[literal.1 as usize] = Some(literal.0);
        }
        Ok(false)
    }

    /// Takes the assertions. Whether one of them is false. More than 2^32 are more than there is memory for.
    pub(crate) fn take_active(&mut self, ids: &[NodeId]) -> Result<bool, AllocError>
        requires trail { IsTrail self.old }
        requires within { All (λ id. id < length self.old.marks.items) ids.now }
        ensures taken { IfOk result (HasTakenAll ids.now self.old self.new) }
        ensures forced { (c : NodeCheck) → c.in_force ≡ ids.now → IsForcing c self.old → IfOk result (Forced c self.new) }
    {
        for (number, id) in ids.iter().enumerate() {
            let Ok(number) = u32::try_from(number) else {
                return Err(AllocError);
            };
            if self.take(&[(true, *id)], Reason::Assertion(number))? {
                return Ok(true);
            }
        }
        Ok(false)
    }
}
