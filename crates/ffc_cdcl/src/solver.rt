//! What a solver has between its calls: added clauses in scopes, lemmas of the theory, and learned clauses.
ghost use Rattle.std.specs.Prelude.{◌≡◌, ◌<◌, ◌≤◌, ◌↔◌, ◌++◌, IsTrue, ℕ, true, false, ◌∷◌, [], All, IfOk, IfSome, OnOk};
ghost use Rattle.std.specs.Prelude.{OnErr, length, map, take};
ghost use Rattle.ffc_cdcl.specs.State.{AllBelow, Implies, kept_clauses, LearnedFollow};

use crate::answer::Hint;
use crate::literal::{Lit, Literals};
use crate::walk::Walk;
use std::alloc::{AllocError, Global};
use std::marker::Model;

/// A learned clause. It rests on the first `base` added clauses, on lemmas and on learned clauses before it.
#[derive(Drop)]
pub struct Learned {
    pub clause: Literals,
    pub base: usize,
    /// Where its hints begin and end among those of all learned clauses.
    pub hints: (usize, usize),
    /// Its literal block distance: how many decision levels its literals had (Audemard and Simon 2009).
    pub lbd: u32,
}

/// A clause-learning solver. Clauses are numbered in the order in which they were added.
#[derive(Drop)]
pub struct Solver {
    pub(crate) alloc: Global,
    pub(crate) nodes: u32,
    pub(crate) added: Vec<Literals>,
    pub(crate) scopes: Vec<usize>,
    pub(crate) lemmas: Vec<(u64, Literals)>,
    pub(crate) learned: Vec<Learned>,
    /// The hints of all learned clauses, one after another.
    pub(crate) hints: Vec<Hint>,
    /// How many conflicts there were in all calls.
    pub(crate) conflicts: u64,
}

impl Model for Solver {
    ghost use Rattle.ffc_cdcl.specs.State.{State};

    ghost Value = { State };

    ghost use Rattle.std.specs.Prelude.{map};
    ghost use Rattle.ffc_cdcl.specs.Resting.{IsResting, learned_clauses};

    ghost view = { λ s. record {
      nodes = s.nodes;
      added = s.added.items;
      scopes = s.scopes.items;
      lemmas = s.lemmas.items;
      learned = learned_clauses s.learned.items;
    } };

    ghost invariant = { λ s. IsResting s.nodes s.added.items s.lemmas.items s.learned.items };
}

/// How many learned clauses there are before the first one that rests on more than `base` added clauses.
fn resting_on(learned: &[Learned], base: usize) -> usize
    ensures within { result ≤ length learned.now }
    ensures resting { All (λ x. x.base ≤ base) (take result learned.now) }
{
    for (k, clause) in learned.iter().enumerate() {
        if clause.base > base {
            return k;
        }
    }
    learned.len()
}

/// Where the hints of the last learned clause end.
fn end_of_hints(learned: &[Learned]) -> usize {
    match learned.last() {
        Some(last) => last.hints.1,
        None => 0,
    }
}

impl Solver {
    /// A solver over the nodes below this number, with no clauses.
    pub fn new(alloc: Global, nodes: u32) -> Result<Self, AllocError>
        ensures { IfOk result (λ s. s ≡ record { nodes = nodes; added = []; scopes = []; lemmas = []; learned = [] }) }
    {
        Ok(Solver {
            alloc,
            nodes,
            added: Vec::new(alloc),
            scopes: Vec::new(alloc),
            lemmas: Vec::new(alloc),
            learned: Vec::new(alloc),
            hints: Vec::new(alloc),
            conflicts: 0,
        })
    }

    /// How many clauses were false on a trail above level 0, in all calls of `solve`. It says nothing of the clauses.
    pub fn conflicts(&self) -> u64 {
        self.conflicts
    }

    /// Lets later clauses name the nodes below this number.
    pub fn grow(&mut self, nodes: u32) -> Result<(), AllocError>
        requires { self.old.nodes ≤ nodes }
        ensures ok { OnOk result (self.new ≡ record self.old { nodes = nodes }) }
        ensures err { OnErr result (self.new ≡ self.old) }
    {
        self.nodes = nodes;
        Ok(())
    }

    /// Whether the literals name nodes that a clause may name.
    pub fn can_add(&self, lits: &[Lit]) -> bool
        ensures { IsTrue result ↔ AllBelow self.now.nodes lits.now }
    {
        for literal in lits {
            if literal.node >= self.nodes {
                return false;
            }
        }
        true
    }

    /// Adds a clause, and gives its number.
    pub fn add_clause(&mut self, lits: &[Lit]) -> Result<u64, AllocError>
        requires { AllBelow self.old.nodes lits.now }
        ensures number { IfOk result (λ k. k ≡ length self.old.added) }
        ensures ok { OnOk result (self.new ≡ record self.old { added = self.old.added ++ lits.now ∷ [] }) }
        ensures err { OnErr result (self.new ≡ self.old) }
    {
        let number = self.added.len() as u64;
        let clause = Literals::copied(self.alloc, lits)?;
        self.added.push(clause)?;
        Ok(number)
    }

    /// Opens a scope.
    pub fn push_scope(&mut self) -> Result<(), AllocError>
        ensures ok { OnOk result
            (self.new ≡ record self.old { scopes = self.old.scopes ++ length self.old.added ∷ [] }) }
        ensures err { OnErr result (self.new ≡ self.old) }
    {
        self.scopes.push(self.added.len())?;
        Ok(())
    }

    /// Closes the last scope: the clauses that were added in it are dropped, and what was learned from them.
    pub fn pop_scope(&mut self)
        requires { 0 < length self.old.scopes }
        ensures dropped { (count : ℕ) × (self.old.scopes ≡ self.new.scopes ++ count ∷ [])
            × (self.new.added ≡ take count self.old.added) }
        ensures nodes { self.new.nodes ≡ self.old.nodes }
        ensures lemmas { self.new.lemmas ≡ self.old.lemmas }
        ensures learned { (count : ℕ) × (self.new.learned ≡ take count self.old.learned) }
        ensures follow { LearnedFollow self.new }
    {
        if let Some(count) = self.scopes.pop() {
            self.learned
                .truncate(resting_on(self.learned.as_slice(), count));
            self.added.truncate(count);
            self.hints.truncate(end_of_hints(self.learned.as_slice()));
        }
    }

    /// The hints of a learned clause.
    pub(crate) fn hints_of(&self, learned: &Learned) -> &[Hint] {
        let (start, end) = learned.hints;
        if start <= end && end <= self.hints.len() {
            &self.hints[start..end]
        } else {
            &[]
        }
    }

    /// The clause that a hint names, and how many of the added clauses it rests on.
    fn named(&self, hint: Hint) -> Option<(&[Lit], usize)>
        ensures base { IfSome result (λ named. named.1 ≤ length self.now.added) }
        ensures implied { IfSome result (λ named. Implies (take named.1 self.now.added) (kept_clauses self.now.lemmas)
            named.0.now) }
    {
        match hint {
            Hint::Added(k) => {
                let clause = self.added.get(k as usize)?;
                Some((clause.as_slice(), k as usize + 1))
            }
            Hint::Lemma(k) => {
                if k as usize >= self.lemmas.len() {
                    return None;
                }
                let lemma = &self.lemmas[k as usize];
                Some((lemma.1.as_slice(), 0))
            }
            Hint::Step(k) => {
                let learned = self.learned.get(k as usize)?;
                Some((learned.clause.as_slice(), learned.base))
            }
        }
    }

    /// Whether a clause follows by hints, and on how many of the added clauses it then rests. Here a hint names a lemma by its
    /// place among the kept ones, and a step by its place among the learned clauses.
    fn derives(
        &self,
        walk: &mut Walk,
        clause: &[Lit],
        hints: &[Hint],
    ) -> Result<Option<usize>, AllocError>
        ensures base { IfOk result (λ found. IfSome found (λ base. base ≤ length self.now.added)) }
        ensures implied { IfOk result
            (λ found. IfSome found (λ base. Implies (take base self.now.added) (kept_clauses self.now.lemmas)
            clause.now)) }
    {
        walk.begin(clause)?;
        let mut base = 0;
        for hint in hints {
            let Some((taken, rests)) = self.named(*hint) else {
                return Ok(None);
            };
            walk.take(taken)?;
            if base < rests {
                base = rests;
            }
        }
        if walk.follows() {
            Ok(Some(base))
        } else {
            Ok(None)
        }
    }

    /// Keeps a learned clause where it follows by its hints, and says whether it does.
    pub(crate) fn learn(
        &mut self,
        walk: &mut Walk,
        clause: &[Lit],
        hints: &[Hint],
        lbd: u32,
    ) -> Result<bool, AllocError>
        ensures learned { IfOk result (λ kept. kept ≡ true → self.new
            ≡ record self.old { learned = self.old.learned ++ clause.now ∷ [] }) }
        ensures refused { IfOk result (λ kept. kept ≡ false → self.new ≡ self.old) }
        ensures err { OnErr result (self.new ≡ self.old) }
    {
        let Some(base) = self.derives(walk, clause, hints)? else {
            return Ok(false);
        };
        let clause = Literals::copied(self.alloc, clause)?;
        let start = self.hints.len();
        self.hints.extend_from_slice(hints)?;
        self.learned.push(Learned {
            clause,
            base,
            hints: (start, self.hints.len()),
            lbd,
        })?;
        Ok(true)
    }

    /// Keeps a lemma of the theory, by its number there.
    pub(crate) fn keep_lemma(&mut self, number: u64, clause: &[Lit]) -> Result<(), AllocError>
        ensures ok { OnOk result
            (self.new ≡ record self.old { lemmas = self.old.lemmas ++ (number, clause.now) ∷ [] }) }
        ensures err { OnErr result (self.new ≡ self.old) }
    {
        let clause = Literals::copied(self.alloc, clause)?;
        self.lemmas.push((number, clause))?;
        Ok(())
    }

    /// What was learned follows.
    pub(crate) fn learned_follow(&self)
        ensures { LearnedFollow self.now }
    {
        let _ = &self.learned;
    }
}
