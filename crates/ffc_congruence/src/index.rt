//! Forms that were noted, by their hashes, the last of which can be taken away.
use crate::classes::Time;
use crate::forms::Form;
use ffc_term::NodeId;
use std::alloc::{AllocError, Global};

/// The least number of lists.
const LEAST: usize = 64;

/// A node that says of a term of its own what it is by the others, as of a time: the term's coefficient in the sum that is 0. Of a
/// product the term is the node.
#[derive(Clone, Copy)]
pub struct Solved {
    pub node: NodeId,
    pub pivot: u32,
    pub coefficient: u64,
    pub time: Time,
}

/// What was noted, and what was before it in its list.
#[derive(Clone, Copy)]
struct Entry {
    hash: u64,
    solved: Solved,
    next: Option<usize>,
}

/// A form itself is not kept, since what said it says it again.
#[derive(Drop)]
pub struct Index {
    entries: Vec<Entry>,
    /// The last entry of each list.
    heads: Vec<Option<usize>>,
}

impl Index {
    /// Nothing. It takes no memory.
    pub fn new(alloc: Global) -> Index {
        Index {
            entries: Vec::new(alloc),
            heads: Vec::new(alloc),
        }
    }

    pub fn len(&self) -> usize {
        self.entries.len()
    }

    /// The list of a hash.
    fn place(&self, hash: u64) -> usize {
        let count = self.heads.len() as u64;
        if count == 0 {
            0
        } else {
            (hash % count) as usize
        }
    }

    fn head(&self, hash: u64) -> Option<usize> {
        match self.heads.get(self.place(hash)) {
            Some(head) => *head,
            None => None,
        }
    }

    fn set_head(&mut self, hash: u64, entry: Option<usize>) {
        let place = self.place(hash);
        if let Some(head) = self.heads.get_mut(place) {
            *head = entry;
        }
    }

    /// Puts an entry at the end of its list.
    fn link(&mut self, number: usize) {
        let Some(hash) = self.entries.get(number).map(|entry| entry.hash) else {
            return;
        };
        let before = self.head(hash);
        if let Some(entry) = self.entries.get_mut(number) {
            entry.next = before;
        }
        self.set_head(hash, Some(number));
    }

    /// Makes twice as many lists, as soon as there are as many entries.
    fn grow(&mut self, alloc: Global) -> Result<(), AllocError> {
        if self.entries.len() >= self.heads.len() {
            let count = self.entries.len().saturating_mul(2).max(LEAST);
            self.heads = vec![in alloc; None; count]?;
            for number in 0..self.entries.len() {
                self.link(number);
            }
        }
        Ok(())
    }

    /// Notes a form by its hash.
    pub fn insert(&mut self, alloc: Global, hash: u64, solved: Solved) -> Result<(), AllocError> {
        self.grow(alloc)?;
        let number = self.entries.len();
        self.entries.push(Entry {
            hash,
            solved,
            next: None,
        })?;
        self.link(number);
        Ok(())
    }

    /// Keeps only the first entries. It takes no memory.
    pub fn truncate(&mut self, count: usize) {
        for _ in count..self.entries.len() {
            if let Some(entry) = self.entries.pop() {
                self.set_head(entry.hash, entry.next);
            }
        }
    }

    /// What was noted of forms of a hash, the last one first.
    pub fn found(&self, alloc: Global, hash: u64) -> Result<Vec<Solved>, AllocError> {
        let mut found = Vec::new(alloc);
        let mut at = self.head(hash);
        for _ in 0..self.entries.len() {
            let Some(entry) = at.and_then(|number| self.entries.get(number)) else {
                break;
            };
            if entry.hash == hash {
                found.push(entry.solved)?;
            }
            at = entry.next;
        }
        Ok(found)
    }
}

/// A hash of a form, of which one class is left out, times a factor.
pub fn hash_of(form: &Form, but: Option<u32>, factor: u64, p: u64) -> u64 {
    let mut hash = mixed(0, crate::arithmetic::product(form.0, factor, p));
    for (class, coefficient) in &form.1 {
        if Some(*class) != but {
            hash = mixed(hash, u64::from(*class));
            hash = mixed(hash, crate::arithmetic::product(*coefficient, factor, p));
        }
    }
    hash
}

/// A hash with a further number (Fibonacci hashing; Knuth 1973, section 6.4).
fn mixed(hash: u64, number: u64) -> u64 {
    let next = (hash ^ number).wrapping_mul(0x9e37_79b9_7f4a_7c15);
    next ^ (next / 0x2000_0000)
}
