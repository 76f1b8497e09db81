//! What is learned from a conflict, and the lists that it takes to find that out.
use crate::answer::Hint;
use crate::literal::Lit;
use ffc_term::NodeId;
use std::alloc::{AllocError, Global};

/// What a conflict teaches. The lists keep their memory from one conflict to the next.
#[derive(Drop)]
pub struct Lesson {
    /// Its first literal is true from then on, and the second one has the level to go back to.
    pub clause: Vec<Lit>,
    pub hints: Vec<Hint>,
    /// The nodes that are marked: those of the clause, of resolved literals, and of what they follow from.
    pub marked: Vec<NodeId>,
    /// The clauses of resolved literals, the last of the trail first.
    pub reasons: Vec<u32>,
    /// Literals that follow from those of the clause: their places on the trail, and the clauses by which they were propagated.
    pub implied: Vec<(u32, u32)>,
    /// The clauses by which the lesson follows, in the order of propagation.
    pub sources: Vec<u32>,
    /// What is left of a clause without its literals of level 0.
    pub shorter: Vec<Lit>,
    /// Literals whose clauses are still to be read.
    pub waiting: Vec<Lit>,
}

impl Lesson {
    /// A lesson of nothing. It takes no memory.
    pub fn new(alloc: Global) -> Self {
        Lesson {
            clause: Vec::new(alloc),
            hints: Vec::new(alloc),
            marked: Vec::new(alloc),
            reasons: Vec::new(alloc),
            implied: Vec::new(alloc),
            sources: Vec::new(alloc),
            shorter: Vec::new(alloc),
            waiting: Vec::new(alloc),
        }
    }

    /// Lists the clauses by which the lesson follows: those of literals that were left out and those of resolved literals, each
    /// in the order of propagation, and the conflict.
    pub fn list_sources(&mut self, conflict: u32) -> Result<(), AllocError> {
        for (_, clause) in self.implied.as_slice() {
            self.sources.push(*clause)?;
        }
        for clause in self.reasons.as_slice().iter().rev() {
            self.sources.push(*clause)?;
        }
        self.sources.push(conflict)?;
        Ok(())
    }

    /// Forgets the last conflict.
    pub fn clear(&mut self) {
        self.clause.truncate(0);
        self.hints.truncate(0);
        self.marked.truncate(0);
        self.reasons.truncate(0);
        self.implied.truncate(0);
        self.sources.truncate(0);
        self.waiting.truncate(0);
    }
}
