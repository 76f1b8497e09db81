//! Literals, and lists of them.
ghost use Rattle.std.specs.Prelude.{◌≡◌, ◌++◌, ◌∷◌, [], ◌↔◌, IsTrue, IfOk, OnOk, OnErr, length};
ghost use Rattle.ffc_clause.specs.Clauses.{negated, same_literal};
ghost use Rattle.ffc_clause.specs.Marks.{place_of};

use ffc_term::NodeId;
use std::alloc::{AllocError, Global};
use std::marker::Model;

/// A node, or its negation.
#[derive(Clone, Copy, Debug)]
pub struct Lit {
    pub node: NodeId,
    pub positive: bool,
}

impl Model for Lit {
    ghost use Rattle.ffc_clause.specs.Clauses.{Literal};

    ghost Value = { Literal };

    ghost view = { λ l. (l.positive, l.node) };

    ghost inverse = { λ l. record { node = l.1; positive = l.0 } };
}

impl Lit {
    /// The literal that is true where this one is false.
    #[inline(always)]
    pub fn negated(self) -> Self
        ensures { result ≡ negated self }
    {
        Lit {
            node: self.node,
            positive: !self.positive,
        }
    }

    /// Whether the two are one.
    #[inline(always)]
    pub fn is_same(self, other: Lit) -> bool
        ensures { result ≡ same_literal self other }
    {
        self.positive == other.positive && self.node == other.node
    }

    /// The literal's place among the literals of all nodes.
    #[inline(always)]
    pub fn place(self) -> usize
        ensures { result ≡ place_of self }
    {
        2 * self.node as usize + usize::from(self.positive)
    }
}

/// A list of literals: a clause, or a trail.
#[derive(Debug, Drop)]
pub struct Literals {
    items: Vec<Lit>,
}

impl Model for Literals {
    ghost use Rattle.std.specs.Prelude.{List};
    ghost use Rattle.ffc_clause.specs.Clauses.{Literal};

    ghost Value = { List Literal };

    ghost view = { λ l. l.items.items };
}

impl Literals {
    /// No literals. It takes no memory.
    pub fn new(alloc: Global) -> Self
        ensures { result ≡ [] }
    {
        Literals {
            items: Vec::new(alloc),
        }
    }

    /// A copy of these literals.
    pub fn copied(alloc: Global, literals: &[Lit]) -> Result<Self, AllocError>
        ensures { IfOk result (λ copy. copy ≡ literals.now) }
    {
        Ok(Literals {
            items: Vec::from_slice(alloc, literals)?,
        })
    }

    #[inline(always)]
    pub fn as_slice(&self) -> &[Lit]
        ensures { result.now ≡ self.now }
    {
        self.items.as_slice()
    }

    pub fn len(&self) -> usize
        ensures { result ≡ length self.now }
    {
        self.items.len()
    }

    /// Appends a literal.
    pub fn push(&mut self, literal: Lit) -> Result<(), AllocError>
        ensures ok { OnOk result (self.new ≡ self.old ++ literal ∷ []) }
        ensures err { OnErr result (self.new ≡ self.old) }
    {
        self.items.push(literal)?;
        Ok(())
    }
}
