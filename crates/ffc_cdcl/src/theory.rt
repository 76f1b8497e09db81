//! Theories, which are asked about trails.
ghost use Rattle.std.specs.Prelude.{◌≡◌, ◌≤◌, List, IfOk, length};
ghost use Rattle.ffc_base.specs.Metering.{Metered};
ghost use Rattle.ffc_clause.specs.Clauses.{Literal, Clause};
ghost use Rattle.ffc_cdcl.specs.Literals.{NamesNoNodeTwice};
ghost use Rattle.ffc_cdcl.specs.Theories.{KeepsLemmas, OnAgreed, NamesLemma, IsFalseOn};

use crate::literal::{Lit, Literals};
use ffc_base::{Meter, SearchStop};

/// What a theory says of a trail.
#[derive(Debug, Drop)]
pub enum TheoryAnswer {
    /// Its values fit the trail.
    Agreed,
    /// This lemma of it, with its number, is false on the trail.
    Conflict(Literals, u64),
}

/// What the nodes mean beyond their clauses. A theory has lemmas, which are clauses by number, and values, which fit a trail
/// or not.
pub trait Theory {
    /// Its lemmas, by number.
    ghost lemmas: { Self → List Clause };

    /// Its present values fit a trail.
    ghost fits: { Self → List Literal → Type 0 };

    /// Judges a trail, whose first `standing` literals are those of the trail that was judged before. No clause rests on that.
    fn check(
        &mut self,
        standing: usize,
        trail: &[Lit],
        meter: &mut Meter,
    ) -> Result<TheoryAnswer, SearchStop>
        requires distinct { NamesNoNodeTwice trail.now }
        requires within { standing ≤ length trail.now }
        ensures kept { KeepsLemmas (lemmas self.old) (lemmas self.new) }
        ensures agreed { IfOk result (OnAgreed (fits self.new trail.now)) }
        ensures lemma { IfOk result (NamesLemma (lemmas self.new)) }
        ensures refuted { IfOk result (IsFalseOn trail.now) }
        ensures metered { Metered SearchStop.Spent result meter.old meter.new };
}
