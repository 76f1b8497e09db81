//! Pairs of lines, and what is known of them.
ghost use Rattle.std.specs.Prelude.{◌≡◌, ℕ, ◌∷◌, ◌++◌, ◌↔◌, [], List, IsTrue, OnOk, OnErr};
ghost use Rattle.std.specs.Bool.{OnFalse};
ghost use Rattle.ffc_basis.specs.PairTable.{settled_one, with_over, IsRepresentedState};
ghost use Rattle.ffc_basis.specs.declared.pair.PairState.TheVariants as states;

use ffc_line::LineId;
use std::alloc::{AllocError, Global};
use std::marker::Model;

/// Pairs of lines, by number. Clauses see a list.
#[derive(Debug, Drop)]
pub struct Pairs {
    items: Vec<(LineId, LineId)>,
}

impl Model for Pairs {
    ghost use Rattle.std.specs.Prelude.{ℕ, List};

    ghost Value = { List (ℕ × ℕ) };

    ghost view = { λ p. p.items.items };
}

impl Pairs {
    /// No pairs. It takes no memory.
    pub fn new(alloc: Global) -> Self
        ensures { result ≡ [] }
    {
        Pairs {
            items: Vec::new(alloc),
        }
    }

    /// Appends a pair.
    pub(crate) fn push(&mut self, first: LineId, second: LineId) -> Result<(), AllocError>
        ensures pushed { OnOk result (self.new ≡ self.old ++ (first, second) ∷ []) }
        ensures unchanged { OnErr result (self.new ≡ self.old) }
    {
        self.items.push((first, second))?;
        Ok(())
    }

    /// The pairs in order. It takes no memory.
    pub fn as_slice(&self) -> &[(LineId, LineId)]
        ensures { result.now ≡ self.now }
    {
        self.items.as_slice()
    }
}

/// What is known of a pair.
#[derive(Clone, Copy, Debug)]
pub(crate) enum PairState {
    /// Its S-polynomial was not reduced yet.
    Pending,
    /// Its S-polynomial reduces to zero by so many lines, the first ones.
    Closed(usize),
    /// By so many lines, the first ones, its S-polynomial is a sum of multiples below the least common multiple of the two
    /// leading monomials. So it reduces to zero if all pairs are so or closed.
    Represented(usize),
    /// With so many lines, the first ones, a limit was passed.
    Over(usize),
}

/// A pair of lines.
#[derive(Clone, Copy, Debug)]
pub(crate) struct PairRecord {
    pub first: usize,
    pub second: usize,
    pub state: PairState,
}

impl PairRecord {
    /// Whether nothing is known of its S-polynomial.
    pub fn is_pending(&self) -> bool
        ensures { IsTrue result ↔ (self.now.state ≡ states.Pending) }
    {
        match self.state {
            PairState::Pending => true,
            PairState::Closed(_) => false,
            PairState::Represented(_) => false,
            PairState::Over(_) => false,
        }
    }

    /// Whether it is known to reduce to zero.
    pub fn is_closed(&self) -> bool
        ensures { IsTrue result → (n : ℕ) × (self.now.state ≡ states.Closed n) }
    {
        match self.state {
            PairState::Pending => false,
            PairState::Closed(_) => true,
            PairState::Represented(_) => false,
            PairState::Over(_) => false,
        }
    }

    /// Whether it is known to be a sum of multiples below the least common multiple.
    pub fn is_represented(&self) -> bool
        ensures { IsTrue result → IsRepresentedState self.now.state }
    {
        match self.state {
            PairState::Pending => false,
            PairState::Closed(_) => true,
            PairState::Represented(_) => true,
            PairState::Over(_) => false,
        }
    }

    /// Whether its S-polynomial was reduced, or follows from others by itself.
    pub fn is_settled(&self) -> bool
        ensures { IsTrue result ↔ (settled_one self.now.state ≡ 1) }
    {
        match self.state {
            PairState::Pending => false,
            PairState::Closed(_) => true,
            PairState::Represented(_) => false,
            PairState::Over(_) => true,
        }
    }

    /// Whether a limit was passed at it.
    pub fn is_over(&self) -> bool
        ensures { OnFalse result ((t : ℕ × ℕ) (ts : List (ℕ × ℕ)) → with_over self.now.state t ts ≡ ts) }
    {
        match self.state {
            PairState::Pending => false,
            PairState::Closed(_) => false,
            PairState::Represented(_) => false,
            PairState::Over(_) => true,
        }
    }
}
