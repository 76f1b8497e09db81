//! Which clauses watch which literals (two watched literals with blocking literals; Moskewicz and others 2001, Eén and Sörensson
//! 2003).
use crate::packed::Packed;
use crate::trail::Trail;
use std::alloc::{AllocError, Global};
use std::mem;

/// A clause that watches a literal, with another literal of it: where that one is true, the clause need not be read.
#[derive(Clone, Copy)]
pub struct Watcher {
    /// Where the clause lies in the buffer.
    pub place: u32,
    pub blocker: Packed,
}

/// A clause of two literals that watches one of them. It is never read while its literals are propagated.
#[derive(Clone, Copy)]
pub struct Pair {
    /// The number of the clause.
    pub clause: u32,
    pub other: Packed,
}

/// What watches each literal, by the literal's place.
#[derive(Drop)]
struct Lists<T: Copy> {
    alloc: Global,
    lists: Vec<Vec<T>>,
}

impl<T: Copy> Lists<T> {
    /// Empty lists for the literals of the nodes below a number.
    fn new(alloc: Global, nodes: usize) -> Result<Self, AllocError> {
        let mut lists = Vec::new(alloc);
        for _ in 0..nodes {
            lists.push(Vec::new(alloc))?;
            lists.push(Vec::new(alloc))?;
        }
        Ok(Lists { alloc, lists })
    }

    #[inline(always)]
    fn push(&mut self, literal: Packed, item: T) -> Result<(), AllocError> {
        let place = literal.place();
        if place < self.lists.len() {
            self.lists[place].push(item)?;
        }
        Ok(())
    }

    /// Empties all lists. They keep their memory.
    fn clear(&mut self) {
        for k in 0..self.lists.len() {
            self.lists[k].truncate(0);
        }
    }

    #[inline(always)]
    fn take(&mut self, literal: Packed) -> Vec<T> {
        let place = literal.place();
        let empty = Vec::new(self.alloc);
        if place < self.lists.len() {
            mem::replace(&mut self.lists[place], empty)
        } else {
            empty
        }
    }

    #[inline(always)]
    fn put(&mut self, literal: Packed, list: Vec<T>) {
        let place = literal.place();
        if place < self.lists.len() {
            self.lists[place] = list;
        }
    }
}

/// Which clauses watch each literal.
#[derive(Drop)]
pub struct Watches {
    watchers: Lists<Watcher>,
    pairs: Lists<Pair>,
}

impl Watches {
    /// Empty lists for the literals of the nodes below a number.
    pub fn new(alloc: Global, nodes: usize) -> Result<Self, AllocError> {
        Ok(Watches {
            watchers: Lists::new(alloc, nodes)?,
            pairs: Lists::new(alloc, nodes)?,
        })
    }

    /// Lets a clause watch a literal.
    #[inline(always)]
    pub fn push(&mut self, literal: Packed, watcher: Watcher) -> Result<(), AllocError> {
        self.watchers.push(literal, watcher)
    }

    /// Lets a clause watch its first two literals, where it has two.
    pub fn watch(&mut self, literals: &[u32], place: u32, clause: u32) -> Result<(), AllocError> {
        if literals.len() < 2 {
            return Ok(());
        }
        let first = Packed(literals[0]);
        let second = Packed(literals[1]);
        for (own, other) in [(first, second), (second, first)] {
            if literals.len() == 2 {
                self.pairs.push(own, Pair { clause, other })?;
            } else {
                let blocker = other;
                self.push(own, Watcher { place, blocker })?;
            }
        }
        Ok(())
    }

    /// Empties all lists. They keep their memory.
    pub fn clear(&mut self) {
        self.watchers.clear();
        self.pairs.clear();
    }

    /// Takes out the list of a literal.
    #[inline(always)]
    pub fn take(&mut self, literal: Packed) -> Vec<Watcher> {
        self.watchers.take(literal)
    }

    /// Puts the list of a literal back.
    #[inline(always)]
    pub fn put(&mut self, literal: Packed, list: Vec<Watcher>) {
        self.watchers.put(literal, list);
    }

    /// Takes out the clauses of two literals that watch a literal.
    #[inline(always)]
    pub fn take_pairs(&mut self, literal: Packed) -> Vec<Pair> {
        self.pairs.take(literal)
    }

    /// Puts them back.
    #[inline(always)]
    pub fn put_pairs(&mut self, literal: Packed, list: Vec<Pair>) {
        self.pairs.put(literal, list);
    }
}

/// What becomes of a clause whose watched literal became false.
pub enum Watched {
    /// Its other watched literal is true.
    True(Packed),
    /// It watches `to` from now on; the other watched literal is `other`.
    Moved { to: Packed, other: Packed },
    /// All its literals but perhaps this one are false.
    Unit(Packed),
    /// It has fewer than two literals.
    Short,
}

/// Finds another literal to watch. The watched literals are the first two.
#[inline(always)]
pub fn watch_another(trail: &Trail, literals: &mut [u32], falsified: Packed) -> Watched {
    if literals.len() < 2 {
        return Watched::Short;
    }
    if literals[0] == falsified.0 {
        literals[0] = literals[1];
        literals[1] = falsified.0;
    }
    let first = Packed(literals[0]);
    if trail.has(first) {
        return Watched::True(first);
    }
    for k in 2..literals.len() {
        let literal = Packed(literals[k]);
        if !trail.has(literal.negated()) {
            literals[k] = literals[1];
            literals[1] = literal.0;
            return Watched::Moved {
                to: literal,
                other: first,
            };
        }
    }
    Watched::Unit(first)
}
