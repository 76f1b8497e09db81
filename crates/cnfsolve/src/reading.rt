//! Formulas in the DIMACS format, one after another in one text.
ghost use Rattle.std.specs.Prelude.{◌≡◌, [], All, OnOk, IfOk, IfErr};
ghost use Rattle.std.specs.Str.{bytes_eq};
ghost use Rattle.cnfsolve.specs.Reading.{start, expecting, take_item, take_at, take_word, take_byte, reading_from};
ghost use Rattle.cnfsolve.specs.Reading.{finished, formulas_of};
ghost use Rattle.cnfsolve.specs.Reading.{take_plain, refused, without_clauses};
ghost use Rattle.cnfsolve.specs.Steps.{Stops};

use crate::faults::{Cause, Fault, ReadStop};
use crate::stages::{Mode, Stage};
use crate::words::{Item, item_of, number_of};
use ffc_cdcl::{Literals, Solver};
use std::alloc::{AllocError, Global};
use std::marker::Model;
use std::mem;

/// What was read of a text.
#[derive(Drop)]
pub struct Reader {
    alloc: Global,
    line: u64,
    mode: Mode,
    word: Vec<u8>,
    stage: Stage,
    clause: Literals,
    formula: Solver,
    formulas: Vec<Solver>,
}

impl Model for Reader {
    ghost use Rattle.std.specs.Prelude.{◌≡◌, [], All};
    ghost use Rattle.cnfsolve.specs.Reading.{Reading};

    ghost Value = { Reading };

    ghost view = { λ r. record {
      line = r.line;
      mode = r.mode;
      word = r.word.items;
      stage = r.stage;
      clause = r.clause;
      formula = r.formula;
      formulas = r.formulas.items;
    } };

    ghost invariant = { λ r. (r.formula.lemmas ≡ []) × All (λ f. f.lemmas ≡ []) r.formulas.items };
}

/// Whether a word is this one.
fn is_word(word: &[u8], wanted: &[u8]) -> bool
    ensures { result ≡ bytes_eq word.now wanted.now }
{
    word == wanted
}

impl Reader {
    fn new(alloc: Global) -> Result<Self, AllocError>
        ensures { IfOk result (λ r. r ≡ start) }
    {
        Ok(Reader {
            alloc,
            line: 1,
            mode: Mode::Fresh,
            word: Vec::new(alloc),
            stage: Stage::Problem,
            clause: Literals::new(alloc),
            formula: Solver::new(alloc, 0)?,
            formulas: Vec::new(alloc),
        })
    }

    /// Refuses the text here.
    fn refuse(&self, cause: Cause) -> ReadStop
        ensures { Stops (refused cause self.now) result }
    {
        ReadStop::Fault(Fault {
            line: self.line,
            cause,
        })
    }

    /// Goes on after a clause or a head, where so many clauses are to come.
    fn expect(&mut self, clauses: u32) -> Result<(), AllocError>
        ensures { OnOk result (self.new ≡ expecting clauses self.old) }
    {
        if clauses > 0 {
            self.stage = Stage::Body(clauses);
            return Ok(());
        }
        let next = Solver::new(self.alloc, 0)?;
        let formula = mem::replace(&mut self.formula, next);
        self.formulas.push(formula)?;
        self.stage = Stage::Problem;
        Ok(())
    }

    /// Ends the clause, where its variables are in range.
    fn end_clause(&mut self, clauses: u32) -> Result<(), ReadStop>
        ensures ok { OnOk result (take_item Item.End clauses self.old ≡ Ok self.new) }
        ensures err { IfErr result (Stops (take_item Item.End clauses self.old)) }
    {
        if !self.formula.can_add(self.clause.as_slice()) {
            return Err(self.refuse(Cause::Range));
        }
        self.formula.add_clause(self.clause.as_slice())?;
        self.clause = Literals::new(self.alloc);
        self.expect(clauses.saturating_sub(1))?;
        Ok(())
    }

    fn take_item(&mut self, item: Item, clauses: u32) -> Result<(), ReadStop>
        ensures ok { OnOk result (take_item item clauses self.old ≡ Ok self.new) }
        ensures err { IfErr result (Stops (take_item item clauses self.old)) }
    {
        match item {
            Item::Literal(literal) => {
                self.clause.push(literal)?;
                Ok(())
            }
            Item::End => self.end_clause(clauses),
        }
    }

    /// Begins a formula over so many variables with so many clauses.
    fn begin_formula(&mut self, variables: u32, clauses: u32) -> Result<(), AllocError>
        ensures { OnOk result (self.new ≡ expecting clauses (record self.old { formula = without_clauses variables })) }
    {
        self.formula = Solver::new(self.alloc, variables)?;
        self.expect(clauses)
    }

    /// Takes a word at its place.
    fn take_at(&mut self, word: &[u8]) -> Result<(), ReadStop>
        ensures ok { OnOk result (take_at self.old.stage word.now self.old ≡ Ok self.new) }
        ensures err { IfErr result (Stops (take_at self.old.stage word.now self.old)) }
    {
        match self.stage {
            Stage::Problem => {
                if !is_word(word, b"p") {
                    return Err(self.refuse(Cause::Head));
                }
                self.stage = Stage::Format;
            }
            Stage::Format => {
                if !is_word(word, b"cnf") {
                    return Err(self.refuse(Cause::Head));
                }
                self.stage = Stage::Variables;
            }
            Stage::Variables => match number_of(word) {
                Some(number) => self.stage = Stage::Clauses(number),
                None => return Err(self.refuse(Cause::Head)),
            },
            Stage::Clauses(variables) => match number_of(word) {
                Some(number) => self.begin_formula(variables, number)?,
                None => return Err(self.refuse(Cause::Head)),
            },
            Stage::Body(clauses) => match item_of(word) {
                Some(item) => self.take_item(item, clauses)?,
                None => return Err(self.refuse(Cause::Item)),
            },
        }
        Ok(())
    }

    /// Takes the word that ends here, if one does.
    fn end_word(&mut self) -> Result<(), ReadStop>
        ensures ok { OnOk result (take_word self.old.word self.old ≡ Ok self.new) }
        ensures err { IfErr result (Stops (take_word self.old.word self.old)) }
    {
        if self.word.len() == 0 {
            return Ok(());
        }
        let word = mem::replace(&mut self.word, Vec::new(self.alloc));
        self.take_at(word.as_slice())
    }

    /// Takes a byte that is neither a line end nor in a comment.
    fn take_plain(&mut self, byte: u8) -> Result<(), ReadStop>
        ensures ok { OnOk result (take_plain byte self.old ≡ Ok self.new) }
        ensures err { IfErr result (Stops (take_plain byte self.old)) }
    {
        if byte == b' ' || byte == b'\t' || byte == b'\r' {
            self.end_word()?;
        } else if let Err(_) = self.word.push(byte) {
            return Err(ReadStop::Memory);
        }
        self.mode = Mode::Words;
        Ok(())
    }

    fn take_byte(&mut self, byte: u8) -> Result<(), ReadStop>
        ensures ok { OnOk result (take_byte byte self.old ≡ Ok self.new) }
        ensures err { IfErr result (Stops (take_byte byte self.old)) }
    {
        if byte == b'\n' {
            self.end_word()?;
            self.line = self.line.saturating_add(1);
            self.mode = Mode::Fresh;
            return Ok(());
        }
        match self.mode {
            Mode::Fresh if byte == b'c' => {
                self.mode = Mode::Comment;
                Ok(())
            }
            Mode::Comment => Ok(()),
            _ => self.take_plain(byte),
        }
    }

    fn take_bytes(&mut self, text: &[u8]) -> Result<(), ReadStop>
        ensures ok { OnOk result (reading_from self.old text.now ≡ Ok self.new) }
        ensures err { IfErr result (Stops (reading_from self.old text.now)) }
    {
        for byte in text {
            self.take_byte(*byte)?;
        }
        Ok(())
    }

    /// The formulas, where the text ends here.
    fn finish(mut self) -> Result<Vec<Solver>, ReadStop>
        ensures ok { IfOk result (λ found. finished (take_word self.word self) ≡ Ok found.items) }
        ensures fresh { IfOk result (λ found. All (λ f. f.lemmas ≡ []) found.items) }
        ensures err { IfErr result (Stops (finished (take_word self.word self))) }
    {
        self.end_word()?;
        match self.stage {
            Stage::Problem => Ok(self.formulas),
            _ => Err(self.refuse(Cause::End)),
        }
    }
}

/// The formulas of a text.
pub fn read_formulas(alloc: Global, text: &[u8]) -> Result<Vec<Solver>, ReadStop>
    ensures ok { IfOk result (λ found. formulas_of text.now ≡ Ok found.items) }
    ensures fresh { IfOk result (λ found. All (λ f. f.lemmas ≡ []) found.items) }
    ensures err { IfErr result (Stops (formulas_of text.now)) }
{
    let mut reader = Reader::new(alloc)?;
    reader.take_bytes(text)?;
    reader.finish()
}
