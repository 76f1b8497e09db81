//! The levels of assertions and names.
ghost use Rattle.std.specs.Prelude.{◌≡◌, ◌+◌, ◌≤◌, [], OnOk, OnErr};
ghost use Rattle.ffc_smt.specs.Terms.{Reset};
ghost use Rattle.ffc_smt.specs.Scopes.{State, cleared, level_of};
ghost use Rattle.ffc_elab.specs.Histories.{Known};
ghost use Rattle.ffc_elab.specs.Changes.{LastIsMore, more};

use crate::store::Store;
use ffc_parts::Options;
use std::alloc::AllocError;

/// What a level above 0 has, so that a pop drops no more: how many names, names of sorts, declared constants and
/// assertions.
#[derive(Clone, Copy, Debug, PartialEq, Eq)]
pub struct Mark {
    pub names: usize,
    pub sorts: usize,
    pub declared: usize,
    pub asserted: usize,
}

impl Mark {
    ghost use Rattle.ffc_smt.specs.Scopes.{empty_level};
    ghost use Rattle.ffc_elab.specs.Kept.{mark_of};

    /// That of a level that was just opened.
    pub fn new() -> Mark
        ensures { result ≡ mark_of empty_level }
    {
        Mark {
            names: 0,
            sorts: 0,
            declared: 0,
            asserted: 0,
        }
    }

    /// One name of a sort.
    pub(crate) fn of_sort() -> Mark
        ensures { result ≡ record { names = 0; sorts = 1; declared = 0; asserted = 0 } }
    {
        Mark {
            names: 0,
            sorts: 1,
            declared: 0,
            asserted: 0,
        }
    }

    /// One name of terms.
    pub(crate) fn of_name() -> Mark
        ensures { result ≡ record { names = 1; sorts = 0; declared = 0; asserted = 0 } }
    {
        Mark {
            names: 1,
            sorts: 0,
            declared: 0,
            asserted: 0,
        }
    }

    /// One assertion.
    pub(crate) fn of_assertion() -> Mark
        ensures { result ≡ record { names = 0; sorts = 0; declared = 0; asserted = 1 } }
    {
        Mark {
            names: 0,
            sorts: 0,
            declared: 0,
            asserted: 1,
        }
    }

    /// One name of a declared constant.
    pub(crate) fn of_constant() -> Mark
        ensures { result ≡ record { names = 1; sorts = 0; declared = 1; asserted = 0 } }
    {
        Mark {
            names: 1,
            sorts: 0,
            declared: 1,
            asserted: 0,
        }
    }
}

fn more(by: usize, count: usize) -> usize
    ensures { result ≡ more by count }
{
    count.saturating_add(by)
}

/// Counts more in the last mark, if there is one.
pub(crate) fn count_more(marks: &mut Vec<Mark>, by: Mark)
    ensures { LastIsMore by marks.old.items marks.new.items }
{
    let count = marks.len();
    if count == 0 {
        return;
    }
    let mark = marks[count - 1];
    marks[count - 1] = Mark {
        names: more(by.names, mark.names),
        sorts: more(by.sorts, mark.sorts),
        declared: more(by.declared, mark.declared),
        asserted: more(by.asserted, mark.asserted),
    };
}

impl Store {
    ghost use Rattle.ffc_elab.specs.Kept.{IsKept};
    ghost use Rattle.ffc_elab.specs.Changes.{in_state, popped, pushed, quietly_after, with_state};

    /// Drops the assumptions of the last command.
    pub(crate) fn forget_assumptions(&mut self)
        ensures { (k : Known) → IsKept k self.old → IsKept (in_state k.state) self.new }
    {
        let count = self.in_force.len().saturating_sub(self.assumed);
        self.in_force.truncate(count);
        self.names.truncate(count);
        self.assumed = 0;
    }

    /// Closes the innermost level, if one is open. It costs what the level declared and asserted.
    fn pop_level(&mut self)
        ensures { (s : State) → IsKept (in_state s) self.old → IsKept (in_state (popped 1 s)) self.new }
    {
        let Some(mark) = self.marks.pop() else {
            return;
        };
        let names = self.symbols.terms.len().saturating_sub(mark.names);
        self.symbols.terms.cut(names);
        let sorts = self.symbols.sorts.len().saturating_sub(mark.sorts);
        self.symbols.sorts.cut(sorts);
        let declared = self.declared.len().saturating_sub(mark.declared);
        self.declared.truncate(declared);
        self.declared_nodes.truncate(declared);
        let asserted = self.in_force.len().saturating_sub(mark.asserted);
        self.in_force.truncate(asserted);
        self.names.truncate(asserted);
    }

    /// Closes so many levels.
    pub(crate) fn pop(&mut self, count: usize)
        ensures { (s : State) → IsKept (in_state s) self.old → IsKept (in_state (popped count s)) self.new }
    {
        for _ in 0..count {
            self.pop_level();
        }
    }

    /// Opens so many levels.
    pub(crate) fn push(&mut self, count: u32) -> Result<(), AllocError>
        ensures ok { OnOk result ((k : Known) → level_of k.state + count ≤ 65536 → IsKept k self.old
            → IsKept (with_state k (pushed count k.state)) self.new) }
        ensures err { OnErr result ((k : Known) → IsKept k self.old → IsKept k self.new) }
    {
        let levels = self.marks.len().saturating_add(count as usize);
        self.marks.resize(levels, Mark::new())?;
        Ok(())
    }

    /// Drops what is asserted on level 0, and its names unless declarations are global.
    fn clear_base(&mut self)
        ensures { (s : State) → s.levels ≡ [] → IsKept (in_state s) self.old → IsKept (in_state (cleared s)) self.new }
    {
        self.in_force.clear();
        self.names.clear();
        if self.options.global_declarations {
            return;
        }
        self.symbols.terms.cut(0);
        self.symbols.sorts.cut(0);
        self.declared.clear();
        self.declared_nodes.clear();
    }

    /// Back to level 0, without assertions and, unless declarations are global, without names.
    pub(crate) fn reset_assertions(&mut self)
        ensures { (s : State) → IsKept (in_state s) self.old → IsKept (in_state (cleared s)) self.new }
    {
        let levels = self.marks.len();
        self.pop(levels);
        self.clear_base();
    }

    /// As at the start, but for the nodes, the count of constants and the first order.
    pub(crate) fn reset(&mut self)
        ensures { (s : State) → IsKept (in_state s) self.old → IsKept (in_state (quietly_after Reset s)) self.new }
    {
        self.logic = false;
        self.options = Options::new();
        self.marks.clear();
        self.symbols.terms.cut(0);
        self.symbols.sorts.cut(0);
        self.in_force.clear();
        self.names.clear();
        self.declared.clear();
        self.declared_nodes.clear();
    }
}
