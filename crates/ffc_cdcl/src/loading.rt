//! Clauses taken into a search.
ghost use Rattle.std.specs.Prelude.{◌≡◌, [], IfOk};
ghost use Rattle.ffc_cdcl.specs.State.{SameClauses};

use crate::answer::Hint;
use crate::literal::Lit;
use crate::search::Search;
use crate::solver::Solver;
use std::alloc::AllocError;

/// A solver has at most so many learned clauses when a search begins, else it drops them all.
const MOST_LEARNED: usize = 200_000;

/// Learned clauses of at most so many levels are taken into the next search.
const RELOADED_LBD: u32 = 6;

impl Search {
    /// The literals of a clause without repetitions, or None where it has a literal and its negation.
    fn simplified(&mut self, clause: &[Lit]) -> Result<Option<Vec<Lit>>, AllocError>
        ensures { self.new.trail ≡ self.old.trail }
    {
        let mut kept = Vec::new(self.alloc);
        let mut is_trivial = false;
        for literal in clause {
            let place = literal.place();
            let opposite = literal.negated().place();
            if place >= self.marks.len() || self.marks[place] {
                continue;
            }
            if opposite < self.marks.len() && self.marks[opposite] {
                is_trivial = true;
            }
            kept.push(*literal)?;
            self.marks[place] = true;
        }
        for literal in kept.as_slice() {
            let place = literal.place();
            if place < self.marks.len() {
                self.marks[place] = false;
            }
        }
        if is_trivial {
            return Ok(None);
        }
        Ok(Some(kept))
    }

    /// Lets a clause watch its first two literals, where it has two.
    fn watch(&mut self, place: u32, number: u32) -> Result<(), AllocError>
        ensures { self.new.trail ≡ self.old.trail }
    {
        let literals = self.arena.literals_of(number);
        if literals.len() < 2 {
            self.short.push(number)?;
            return Ok(());
        }
        self.watches.watch(literals, place, number)
    }

    /// Adds a clause whose first two literals are to be watched.
    pub fn attach(&mut self, clause: &[Lit], hint: Hint, lbd: u32) -> Result<u32, AllocError>
        ensures { self.new.trail ≡ self.old.trail }
    {
        let (place, number) = self.arena.add(clause, hint, lbd)?;
        self.order.insert_all(clause)?;
        self.watch(place, number)?;
        Ok(number)
    }

    /// Adds the clause of the lesson.
    pub fn attach_lesson(&mut self, hint: Hint, lbd: u32) -> Result<u32, AllocError>
        ensures { self.new.trail ≡ self.old.trail }
    {
        let clause = self.lesson.clause.as_slice();
        let (place, number) = self.arena.add(clause, hint, lbd)?;
        self.watch(place, number)?;
        Ok(number)
    }

    /// Takes a clause of the solver into the search. Where it has a literal and its negation, nothing needs to watch it, but its
    /// nodes are to be decided: a model gives one of them a value.
    fn load(&mut self, clause: &[Lit], hint: Hint, lbd: u32) -> Result<(), AllocError>
        ensures { self.new.trail ≡ self.old.trail }
    {
        match self.simplified(clause)? {
            Some(literals) => {
                self.attach(literals.as_slice(), hint, lbd)?;
                Ok(())
            }
            None => self.order.insert_all(clause),
        }
    }

    /// Adds a clause that is false on the trail, so that it watches its literals of the highest levels.
    pub fn attach_false(&mut self, clause: &[Lit], hint: Hint) -> Result<u32, AllocError> {
        let mut literals = Vec::new(self.alloc);
        for literal in clause {
            literals.push(*literal)?;
        }
        for k in 1..literals.len() {
            if self.level_of(literals[k]) > self.level_of(literals[0]) {
                literals.as_mut_slice().swap(0, k);
            }
        }
        for k in 2..literals.len() {
            if self.level_of(literals[k]) > self.level_of(literals[1]) {
                literals.as_mut_slice().swap(1, k);
            }
        }
        self.attach(literals.as_slice(), hint, 0)
    }
}

impl Solver {
    /// A search with the clauses of the solver.
    pub(crate) fn begin(&self) -> Result<Search, AllocError>
        ensures { IfOk result (λ s. s.trail ≡ record { nodes = self.now.nodes; literals = [] }) }
    {
        let mut search = Search::new(self.alloc, self.nodes)?;
        for (k, clause) in self.added.as_slice().iter().enumerate() {
            search.load(clause.as_slice(), Hint::Added(k as u64), 0)?;
        }
        for (k, lemma) in self.lemmas.as_slice().iter().enumerate() {
            search.load(lemma.1.as_slice(), Hint::Lemma(k as u64), 0)?;
        }
        for (k, learned) in self.learned.as_slice().iter().enumerate() {
            if learned.lbd <= RELOADED_LBD {
                let hint = Hint::Step(k as u64);
                search.load(learned.clause.as_slice(), hint, learned.lbd)?;
            }
        }
        Ok(search)
    }

    /// Drops the learned clauses, where there are too many.
    pub(crate) fn forget(&mut self)
        ensures same { SameClauses self.old self.new }
        ensures lemmas { self.new.lemmas ≡ self.old.lemmas }
    {
        if self.learned.len() > MOST_LEARNED {
            self.learned.truncate(0);
            self.hints.truncate(0);
        }
    }
}
