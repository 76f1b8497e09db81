//! What a solver answers.
use crate::literal::Literals;

/// A clause that a step follows from, by its number.
#[derive(Clone, Copy, Debug, PartialEq, Eq)]
pub enum Hint {
    /// An added clause.
    Added(u64),
    /// A lemma of the theory.
    Lemma(u64),
    /// An earlier step.
    Step(u64),
}

/// A clause with the hints by which it follows.
#[derive(Debug, Drop)]
pub struct HintedClause {
    pub lits: Literals,
    pub hints: Vec<Hint>,
}

/// What a solver found.
#[derive(Debug, Drop)]
pub enum Outcome {
    /// A trail that makes every clause true and on which the theory agreed.
    Model(Literals),
    /// Steps of which the last is the empty clause.
    Refuted(Vec<HintedClause>),
}
