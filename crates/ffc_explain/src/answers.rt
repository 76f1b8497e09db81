//! The answers of the solver, each for itself.
ghost use Rattle.std.specs.Prelude.{◌≡◌, None, Some};

use ffc_base::{Sink, WriteStop};
use std::alloc::Global;

/// A sink in memory that remembers where each write began: each answer is one write.
#[derive(Drop)]
pub struct Answers {
    bytes: Vec<u8>,
    starts: Vec<usize>,
}

impl Answers {
    /// No answers. It takes no memory.
    pub fn new(alloc: Global) -> Answers {
        Answers {
            bytes: Vec::new(alloc),
            starts: Vec::new(alloc),
        }
    }

    /// The answer of this number, from 0; empty where there is none.
    pub fn at(&self, number: usize) -> &[u8] {
        let Some(start) = self.starts.get(number) else {
            return &[];
        };
        let end = match self.starts.get(number.saturating_add(1)) {
            Some(end) => *end,
            None => self.bytes.len(),
        };
        match self.bytes.get(*start..end) {
            Some(answer) => answer,
            None => &[],
        }
    }
}

impl Sink for Answers {
    ghost holds = { λ s. Some s.bytes.items };

    ghost name = { λ _. None };

    ghost faults = { λ _. 0 };

    fn write(&mut self, bytes: &[u8]) -> Result<(), WriteStop> {
        if self.starts.push(self.bytes.len()).is_err() {
            return Err(WriteStop::Memory);
        }
        if self.bytes.extend_from_slice(bytes).is_err() {
            let _ = self.starts.pop();
            return Err(WriteStop::Memory);
        }
        Ok(())
    }
}
