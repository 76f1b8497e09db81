//! Marks on numbers of nodes: one bit a number, 64 in a word.
ghost use Rattle.std.specs.Prelude.{◌≡◌, ℕ, ◌+◌, ◌<◌, ◌≤◌, length, false, true, replicate, IfOk, IfSome, IfNone};
ghost use Rattle.std.specs.Int.{bit_at};
ghost use Rattle.std.proofs.Math.ListN.{set};
ghost use Rattle.ffc_term.specs.Marking.{IsMarked, IsNoneMarked};

use crate::node::NodeId;
use std::alloc::{AllocError, Global};
use std::marker::Model;

/// Which numbers below a bound are marked. Clauses see it as the list of the marks.
#[derive(Drop)]
pub struct MarkSet {
    words: Vec<u64>,
    bound: u32,
}

impl Model for MarkSet {
    ghost use Rattle.std.specs.Prelude.{◌*◌, ◌≤◌, Bool, List, length};
    ghost use Rattle.ffc_term.specs.Marking.{marks_in};

    ghost Value = { List Bool };

    ghost view = { λ m. marks_in m.words.items m.bound };

    ghost invariant = { λ m. m.bound ≤ 64 * length m.words.items };
}

// The highest bit up to `last` that is set.
fn highest_bit(word: u64, last: u32) -> Option<u32>
    requires { last < 64 }
    ensures some { IfSome result (λ i. (i ≤ last) × (bit_at word i ≡ 1)
        × ((j : ℕ) → i < j → j ≤ last → bit_at word j ≡ 0)) }
    ensures none { IfNone result ((j : ℕ) → j ≤ last → bit_at word j ≡ 0) }
{
    let bits = word & (u64::MAX >> (63 - last));
    if bits == 0 {
        return None;
    }
    Some(bits.ilog2())
}

impl MarkSet {
    /// No marks on the numbers below a bound.
    pub fn none(alloc: Global, bound: u32) -> Result<MarkSet, AllocError>
        ensures { IfOk result (λ m. m ≡ replicate bound false) }
    {
        let words = vec![in alloc; 0; bound.div_ceil(64) as usize]?;
        Ok(MarkSet { words, bound })
    }

    /// Marks a number.
    pub fn set(&mut self, id: NodeId)
        requires { id < length self.old }
        ensures { self.new ≡ set self.old id true }
    {
        self.words[(id / 64) as usize] |= 1 << (id % 64);
    }

    /// The last marked number below `end`. It looks at one word for each 64 numbers between both.
    pub fn last_below(&self, end: NodeId) -> Option<NodeId>
        requires { end ≤ length self.now }
        ensures some { IfSome result (λ id. (id < end) × IsMarked self.now id × IsNoneMarked self.now (id + 1) end) }
        ensures none { IfNone result (IsNoneMarked self.now 0 end) }
    {
        let mut past = end;
        while past > 0 {
            let word = (past - 1) / 64;
            if let Some(bit) = highest_bit(self.words[word as usize], (past - 1) % 64) {
                return Some(64 * word + bit);
            }
            past = 64 * word;
        }
        None
    }
}
