//! The literals of a conjunction.
ghost use Rattle.std.specs.Prelude.{◌≡◌, false, reverse, IfOk, IfSome};
ghost use Rattle.ffc_check.specs.Judged.{judged_check};
ghost use Rattle.ffc_conjunction.specs.Literals.{AreLiteralsOf};
ghost use Rattle.ffc_rules.specs.Cones.{cone};
ghost use Rattle.ffc_bounds.specs.Conjunctions.{is_conjunction};
ghost use Rattle.ffc_rules.specs.Laws.{IsValid};

use crate::walk::Walk;
use ffc_refutation::Reason;
use ffc_term::{Check, NodeId};
use std::alloc::{AllocError, Global};

/// The equations and disequations of a conjunction, by the numbers of their equalities in increasing order (a disequation's in
/// that of its negation), and the reasons that force them, in the order in which they do. Where an equality is asserted together
/// with its negation, `clashes` is true, and the last reason is a clause that is then false.
#[derive(Drop)]
pub struct Conjunction {
    pub equations: Vec<NodeId>,
    pub disequations: Vec<NodeId>,
    pub reasons: Vec<Reason>,
    pub clashes: bool,
}

impl Conjunction {
    // What a walk has found, in increasing order.
    fn from_walk(walk: Walk) -> Conjunction
        ensures equations { result.equations.items ≡ reverse walk.equations.items }
        ensures disequations { result.disequations.items ≡ reverse walk.disequations.items }
        ensures reasons { result.reasons.items ≡ walk.forcing.reasons.items }
        ensures clashes { result.clashes ≡ walk.forcing.clashes }
    {
        let Walk {
            forcing,
            mut equations,
            mut disequations,
        } = walk;
        equations.reverse();
        disequations.reverse();
        Conjunction {
            equations,
            disequations,
            reasons: forcing.reasons,
            clashes: forcing.clashes,
        }
    }

    /// The literals of a check, or None where it is no conjunction of equations and disequations. `nodes` are those of the check;
    /// each is looked at once, from the last.
    pub fn of(
        alloc: Global,
        check: &Check,
        nodes: &[NodeId],
    ) -> Result<Option<Conjunction>, AllocError>
        requires valid { IsValid (judged_check check.now) }
        requires nodes { nodes.now ≡ cone check.now.table.now check.now.in_force.now }
        ensures some { IfOk result (λ found. IfSome found (AreLiteralsOf (judged_check check.now))) }
        ensures none { result ≡ Ok None → is_conjunction check.now.table.now check.now.in_force.now ≡ false }
    {
        let mut walk = Walk::new(alloc, check.table, check.in_force)?;
        if !walk.look_at_all(check.table, nodes)? {
            return Ok(None);
        }
        Ok(Some(Conjunction::from_walk(walk)))
    }
}
