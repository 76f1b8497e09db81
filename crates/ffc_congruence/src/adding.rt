//! Equalities of a trail, one after another, and all that follows from them.
use crate::clash::Clash;
use crate::closure::{Closure, Reason};
use crate::looking::{LOOKS, cost};
use crate::nodes::{children, sides};
use ffc_cdcl::Lit;
use ffc_term::NodeId;
use std::alloc::AllocError;

impl Closure<'_> {
    /// How many equalities there are.
    pub fn len(&self) -> usize {
        self.marks.len()
    }

    /// Has the nodes below these looked at.
    fn activate_below(&mut self, left: NodeId, right: NodeId) -> Result<(), AllocError> {
        let table = self.table;
        let mut fresh = Vec::new(self.alloc);
        let mut waiting = Vec::new(self.alloc);
        waiting.push(left)?;
        waiting.push(right)?;
        for _ in 0..u64::MAX {
            let Some(id) = waiting.pop() else {
                break;
            };
            if !self.is_active(id) && id < table.len() {
                self.activate(id)?;
                fresh.push(id)?;
                waiting.extend_from_slice(children(table, id))?;
            }
        }
        // Children are looked at first.
        fresh.sort_unstable();
        for id in &fresh {
            let count = children(table, *id).len();
            if count > 0 {
                self.work = self.work.saturating_add(cost(count).saturating_mul(LOOKS));
                self.queue.push(*id)?;
            }
        }
        Ok(())
    }

    /// Adds an equality, and nothing yet of what follows from it.
    fn put(&mut self, equality: Lit) -> Result<(), AllocError> {
        let mark = self.mark();
        self.marks.push(mark)?;
        if let (Some((left, right)), None) = (sides(self.table, equality.node), self.clash) {
            self.activate_below(left, right)?;
            if equality.positive {
                self.merge(left, right, Reason::Equality(equality.node))?;
            } else {
                self.set_unequal(equality.node, left, right)?;
                self.want_products(left)?;
                self.want_products(right)?;
            }
        }
        Ok(())
    }

    /// Adds an equality, with what follows from it and those before. Answers what clashes, if anything does.
    pub fn add(&mut self, equality: Lit) -> Result<Option<Clash>, AllocError> {
        self.put(equality)?;
        self.close()?;
        Ok(self.clash)
    }

    /// Forgets all equalities and adds others, with what follows from them together: it rests on fewer steps than where each is
    /// added with what follows from it. Answers what clashes, if anything does.
    pub fn add_all(&mut self, equalities: &[Lit]) -> Result<Option<Clash>, AllocError> {
        self.keep(0);
        for equality in equalities {
            self.put(*equality)?;
        }
        self.close()?;
        Ok(self.clash)
    }

    /// Forgets all equalities but the first ones. It takes no memory, and the time that what followed from the others took.
    pub fn keep(&mut self, count: usize) {
        if let Some(mark) = self.marks.get(count).copied() {
            self.go_back(mark);
            self.marks.truncate(count);
        }
    }
}
