//! Sums of multiples of a tree's lines, in parts that are few enough.
ghost use Rattle.std.specs.Prelude.{◌≡◌, ◌+◌, ◌<◌, ◌≤◌, ◌^◌, ◌++◌, [], ◌∷◌, All, IfOk, OnOk, length, map};
ghost use Rattle.ffc_cert.specs.declared.entries.CertLine.TheVariants.{Combine, Close};
ghost use Rattle.ffc_cert.specs.Ranges.{IsNarrow};
ghost use Rattle.ffc_refutation.specs.Written.{multiple_of, whole_line, IsNumbered};
ghost use Rattle.ffc_values.specs.Written.{Adds, HasRoom, next_line, sums_lines};

use crate::narrow::is_narrow;
use ffc_cert::{CertLine, Multiple, Power, Sequence, Term};
use ffc_refutation::Summand;
use std::alloc::{AllocError, Global};
use std::mem;

/// How many multiples a sum has at most: few enough for the checker's limit on products, also where the first one is the whole of
/// the sum before.
const MOST_MULTIPLES: usize = 448;

/// The variables of a term have 32 bits, as each of their type has.
fn have_numbers(powers: &[Power])
    ensures { All (λ f. IsNarrow f.0) powers.now }
{
    for power in powers {
        is_narrow(power.0);
    }
}

/// A line times one term.
fn multiple_of(alloc: Global, line: u32, term: Term) -> Result<Multiple, AllocError>
    ensures { IfOk result (λ multiple. multiple ≡ multiple_of (line, term)) }
{
    let mut terms = Vec::new(alloc);
    terms.push(term)?;
    Ok((line, Sequence::from_vec(terms)))
}

/// Sums that are written one after another, each with the part before as its first multiple.
#[derive(Drop)]
pub(crate) struct Sums {
    alloc: Global,
    /// How many lines the tree begins with.
    first: u32,
    /// The lines that are written.
    lines: Vec<CertLine>,
    /// The multiples of the next line so far.
    pending: Vec<Multiple>,
}

impl Sums {
    /// No sums, after so many lines.
    pub(crate) fn new(alloc: Global, first: u32) -> Sums
        ensures first { result.first ≡ first }
        ensures lines { result.lines.items ≡ [] }
        ensures pending { result.pending.items ≡ [] }
    {
        Sums {
            alloc,
            first,
            lines: Vec::new(alloc),
            pending: Vec::new(alloc),
        }
    }

    pub(crate) fn allocator(&self) -> Global {
        self.alloc
    }

    /// Writes the multiples so far as a line, and gives its number.
    pub(crate) fn write(&mut self) -> Result<u32, AllocError>
        requires { next_line self.old < 2 ^ 32 }
        ensures number { IfOk result (λ number. number ≡ next_line self.old) }
        ensures first { OnOk result (self.new.first ≡ self.old.first) }
        ensures lines { OnOk result (self.new.lines.items ≡ self.old.lines.items ++ Combine self.old.pending.items ∷ []) }
        ensures pending { OnOk result (self.new.pending.items ≡ []) }
    {
        let number = self.first + self.lines.len() as u32;
        let sum = mem::replace(&mut self.pending, Vec::new(self.alloc));
        self.lines.push(CertLine::Combine(Sequence::from_vec(sum)))?;
        Ok(number)
    }

    /// Writes a part where it has as many multiples as one may have. It is the first multiple of the next one.
    fn make_room(&mut self) -> Result<(), AllocError>
        requires { next_line self.old < 2 ^ 32 }
        ensures room { OnOk result (HasRoom self.old self.new) }
        ensures few { OnOk result (length self.new.lines.items ≤ length self.old.lines.items + 1) }
    {
        if self.pending.len() < MOST_MULTIPLES {
            return Ok(());
        }
        let number = self.write()?;
        let one = (1, Sequence::new(self.alloc));
        self.pending.push(multiple_of(self.alloc, number, one)?)?;
        Ok(())
    }

    /// Adds a line times one term.
    pub(crate) fn add(&mut self, line: u32, term: Term) -> Result<(), AllocError>
        requires { next_line self.old < 2 ^ 32 }
        ensures adds { OnOk result (Adds (multiple_of (line, term) ∷ []) self.old self.new) }
        ensures few { OnOk result (length self.new.lines.items ≤ length self.old.lines.items + 1) }
    {
        let multiple = multiple_of(self.alloc, line, term)?;
        self.make_room()?;
        self.pending.push(multiple)?;
        Ok(())
    }

    /// Adds multiples by one term each.
    fn add_all(&mut self, summands: Vec<Summand>) -> Result<(), AllocError>
        requires { next_line self.old + length summands.items < 2 ^ 32 }
        ensures adds { OnOk result (Adds (map multiple_of summands.items) self.old self.new) }
        ensures numbered { OnOk result (All IsNumbered summands.items) }
        ensures few { OnOk result (length self.new.lines.items ≤ length self.old.lines.items + length summands.items) }
    {
        let mut left = summands;
        left.reverse();
        while let Some((line, term)) = left.pop() {
            have_numbers(term.1.as_slice());
            self.add(line, term)?;
        }
        Ok(())
    }

    /// Writes the sum of multiples by one term each after what is written, and gives the number of its last line.
    pub(crate) fn write_sum(&mut self, summands: Vec<Summand>) -> Result<u32, AllocError>
        requires none { self.old.pending.items ≡ [] }
        requires room { next_line self.old + length summands.items < 2 ^ 32 }
        ensures number { IfOk result (λ number. number + 1 ≡ next_line self.new) }
        ensures first { OnOk result (self.new.first ≡ self.old.first) }
        ensures lines { OnOk result (self.new.lines.items
            ≡ self.old.lines.items ++ sums_lines (next_line self.old) [] (map multiple_of summands.items)) }
        ensures pending { OnOk result (self.new.pending.items ≡ []) }
        ensures numbered { OnOk result (All IsNumbered summands.items) }
        ensures few { OnOk result (length self.new.lines.items ≤ length self.old.lines.items + length summands.items + 1) }
    {
        self.add_all(summands)?;
        let number = self.write()?;
        Ok(number)
    }

    /// The lines with the last part, and the end of the tree.
    pub(crate) fn close(self) -> Result<Vec<CertLine>, AllocError>
        ensures { IfOk result (λ lines. lines.items
            ≡ self.lines.items ++ (Combine self.pending.items ∷ Close ∷ [])) }
    {
        let Sums {
            alloc: _,
            first: _,
            mut lines,
            pending,
        } = self;
        lines.push(CertLine::Combine(Sequence::from_vec(pending)))?;
        lines.push(CertLine::Close)?;
        Ok(lines)
    }
}
