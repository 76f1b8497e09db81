//! Refutations as entries of a certificate.
use crate::kept::KeptLemmas;
use crate::lemma::listed;
use crate::origin::{Origin, Origins};
use ffc_cdcl::{Hint, HintedClause};
use ffc_cert::{CertLine, Entry, Sequence};
use ffc_mirror::Mirror;
use std::alloc::{AllocError, Global};

/// Which clauses a refutation uses, from its last step on.
#[derive(Drop)]
struct Used {
    added: Vec<bool>,
    lemmas: Vec<bool>,
    steps: Vec<bool>,
}

/// Marks a place of a list.
fn mark(marks: &mut Vec<bool>, place: u64) {
    if let Some(mark) = marks.get_mut(place as usize) {
        *mark = true;
    }
}

/// Whether a place of a list is marked.
fn is_marked(marks: &Vec<bool>, place: usize) -> bool {
    match marks.get(place) {
        Some(mark) => *mark,
        None => false,
    }
}

impl Used {
    /// Of so many added clauses and lemmas.
    fn of(
        alloc: Global,
        added: usize,
        lemmas: usize,
        steps: &[HintedClause],
    ) -> Result<Self, AllocError> {
        let mut used = Used {
            added: vec![in alloc; false; added]?,
            lemmas: vec![in alloc; false; lemmas]?,
            steps: vec![in alloc; false; steps.len()]?,
        };
        if let Some(last) = used.steps.last_mut() {
            *last = true;
        }
        for (k, step) in steps.iter().enumerate().rev() {
            if is_marked(&used.steps, k) {
                used.mark_hints(step.hints.as_slice());
            }
        }
        Ok(used)
    }

    fn mark_hints(&mut self, hints: &[Hint]) {
        for hint in hints {
            match hint {
                Hint::Added(k) => mark(&mut self.added, *k),
                Hint::Lemma(k) => mark(&mut self.lemmas, *k),
                Hint::Step(k) => mark(&mut self.steps, *k),
            }
        }
    }
}

/// Whether marked clauses are proved.
fn are_proved(origins: &[Origin], marks: &Vec<bool>) -> bool {
    for (k, origin) in origins.iter().enumerate() {
        if is_marked(marks, k) && !origin.is_proved() {
            return false;
        }
    }
    true
}

/// Whether the last of these steps rests on proved clauses alone, where these are the added ones and the lemmas.
pub fn is_proved(
    alloc: Global,
    added: &[Origin],
    lemmas: &[Origin],
    steps: &[HintedClause],
) -> Result<bool, AllocError> {
    let used = Used::of(alloc, added.len(), lemmas.len(), steps)?;
    Ok(are_proved(added, &used.added) && are_proved(lemmas, &used.lemmas))
}

/// Where lemmas are kept, and the copies over which they are written.
#[derive(Clone, Copy)]
pub struct Shelf<'a> {
    pub lemmas: &'a KeptLemmas,
    pub mirror: &'a Mirror,
}

impl Shelf<'_> {
    /// Where a clause is from, with the lemma itself where it is kept.
    fn taken(self, origin: Origin) -> Result<Origin, AllocError> {
        match origin {
            Origin::Kept(place) => Ok(match self.lemmas.lemma(place, self.mirror)? {
                Some(lemma) => Origin::Lemma(lemma),
                None => Origin::SetAside,
            }),
            other => Ok(other),
        }
    }
}

/// The lines of an entry so far, and the numbers of its clauses.
#[derive(Drop)]
struct Writer<'a> {
    alloc: Global,
    shelf: Shelf<'a>,
    lines: Vec<CertLine>,
    clauses: u32,
    /// Of each added clause so far, its number in the entry.
    added: Vec<Option<u32>>,
    /// Of each lemma so far.
    lemmas: Vec<Option<u32>>,
    /// Of each step so far.
    steps: Vec<Option<u32>>,
}

/// The number at a place of a list.
fn number_at(numbers: &Vec<Option<u32>>, place: u64) -> Option<u32> {
    match numbers.get(place as usize) {
        Some(number) => *number,
        None => None,
    }
}

impl<'a> Writer<'a> {
    fn new(alloc: Global, shelf: Shelf<'a>) -> Self {
        Writer {
            alloc,
            shelf,
            lines: Vec::new(alloc),
            clauses: 0,
            added: Vec::new(alloc),
            lemmas: Vec::new(alloc),
            steps: Vec::new(alloc),
        }
    }

    /// The number of the next clause.
    fn next_number(&mut self) -> u32 {
        let number = self.clauses;
        self.clauses = number.saturating_add(1);
        number
    }

    /// Writes the lines of a clause, where it is used, and gives its number.
    fn write(&mut self, is_used: bool, origin: Origin) -> Result<Option<u32>, AllocError> {
        if !is_used {
            return Ok(None);
        }
        let origin = self.shelf.taken(origin)?;
        origin.append_to(self.alloc, &mut self.lines)?;
        Ok(Some(self.next_number()))
    }

    fn add_clauses(&mut self, used: &Used, origins: Vec<Origin>) -> Result<(), AllocError> {
        for origin in origins {
            let is_used = is_marked(&used.added, self.added.len());
            let number = self.write(is_used, origin)?;
            self.added.push(number)?;
        }
        Ok(())
    }

    fn add_lemmas(&mut self, used: &Used, origins: Vec<Origin>) -> Result<(), AllocError> {
        for origin in origins {
            let is_used = is_marked(&used.lemmas, self.lemmas.len());
            let number = self.write(is_used, origin)?;
            self.lemmas.push(number)?;
        }
        Ok(())
    }

    /// The numbers of the clauses that hints name; none where one has no number.
    fn numbers(&self, hints: &[Hint]) -> Result<Option<Sequence<u32>>, AllocError> {
        let mut numbers = Vec::new(self.alloc);
        for hint in hints {
            let number = match hint {
                Hint::Added(k) => number_at(&self.added, *k),
                Hint::Lemma(k) => number_at(&self.lemmas, *k),
                Hint::Step(k) => number_at(&self.steps, *k),
            };
            match number {
                Some(number) => numbers.push(number)?,
                None => return Ok(None),
            }
        }
        Ok(Some(Sequence::from_vec(numbers)))
    }

    /// Adds a step, and says whether its hints have numbers.
    fn add_step(&mut self, used: &Used, step: &HintedClause) -> Result<bool, AllocError> {
        let mut number = None;
        if is_marked(&used.steps, self.steps.len()) {
            let Some(hints) = self.numbers(step.hints.as_slice())? else {
                return Ok(false);
            };
            let lits = listed(self.alloc, step.lits.as_slice())?;
            number = Some(self.next_number());
            self.lines.push(CertLine::Hinted(lits, hints))?;
        }
        self.steps.push(number)?;
        Ok(true)
    }
}

/// The entry of a refutation, with those of the added clauses, of the lemmas and of the steps that its last step rests on. None
/// where a hint names no clause.
pub fn refutation(
    alloc: Global,
    origins: Origins,
    shelf: Shelf<'_>,
    steps: &[HintedClause],
) -> Result<Option<Entry>, AllocError> {
    let Origins { added, lemmas } = origins;
    let used = Used::of(alloc, added.len(), lemmas.len(), steps)?;
    let mut writer = Writer::new(alloc, shelf);
    writer.add_clauses(&used, added)?;
    writer.add_lemmas(&used, lemmas)?;
    for step in steps {
        if !writer.add_step(&used, step)? {
            return Ok(None);
        }
    }
    let Writer {
        alloc: _,
        shelf: _,
        lines,
        clauses: _,
        added: _,
        lemmas: _,
        steps: _,
    } = writer;
    Ok(Some(Entry::UnsatSteps(Sequence::from_vec(lines))))
}
