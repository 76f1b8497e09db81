//! The tree of a lemma that a combination of its first lines proves.
ghost use Rattle.std.specs.Prelude.{◌≡◌, ◌+◌, ◌<◌, ◌≤◌, ◌^◌, ◌++◌, [], ◌∷◌, All, IfOk, OnOk, length, map};
ghost use Rattle.ffc_cert.specs.declared.entries.CertLine.TheVariants.{Combine, Close};
ghost use Rattle.ffc_cert.specs.Ranges.{IsNarrow};
ghost use Rattle.ffc_refutation.specs.Written.{multiple_of, whole_line, sums_tree, IsNumbered};
ghost use Rattle.ffc_refutation.specs.Steps.{HasRoom, GoesOn};

use crate::narrow::is_narrow;
use ffc_cert::{CertLine, Multiple, Power, Sequence, Term};
use std::alloc::{AllocError, Global};
use std::mem;

/// The number of a lemma's first line, and the term that it is multiplied by.
pub type Summand = (u32, Term);

/// The value of a variable, and the multiples of a lemma's first lines that sum to the variable less it.
#[derive(Drop)]
pub struct Determined {
    pub value: u64,
    pub summands: Vec<Summand>,
}

/// How many multiples a sum has at most: few enough for the checker's limit on products, also where the first one is the whole of
/// the sum before.
const MOST_MULTIPLES: usize = 448;

/// The variables of a term have 32 bits, as each of their type has.
fn have_numbers(powers: &[Power])
    ensures { All (λ f. IsNarrow f.0) powers.now }
{
    for power in powers {
        is_narrow(power.0);
    }
}

/// A line times one term.
fn multiple_of(alloc: Global, summand: Summand) -> Result<Multiple, AllocError>
    ensures multiple { IfOk result (λ multiple. multiple ≡ multiple_of summand) }
    ensures numbered { IfOk result (λ multiple. IsNumbered summand) }
{
    let (line, term) = summand;
    have_numbers(term.1.as_slice());
    let mut terms = Vec::new(alloc);
    terms.push(term)?;
    Ok((line, Sequence::from_vec(terms)))
}

/// A line times 1.
fn whole_line(alloc: Global, number: u32) -> Result<Multiple, AllocError>
    ensures { IfOk result (λ multiple. multiple ≡ whole_line number) }
{
    let mut terms = Vec::new(alloc);
    terms.push((1, Sequence::new(alloc)))?;
    Ok((number, Sequence::from_vec(terms)))
}

/// Sums that are written one after another, each with the one before as its first multiple.
#[derive(Drop)]
struct Sums {
    alloc: Global,
    /// The lines that are written.
    lines: Vec<CertLine>,
    /// The number of the line that the next sum is.
    next: u32,
    /// The multiples of the next sum so far.
    pending: Vec<Multiple>,
}

impl Sums {
    /// Writes the sum. It is the first multiple of the next one.
    fn write(&mut self) -> Result<(), AllocError>
        requires { self.old.next + 1 < 2 ^ 32 }
        ensures lines { OnOk result (self.new.lines.items ≡ self.old.lines.items ++ Combine self.old.pending.items ∷ []) }
        ensures next { OnOk result (self.new.next ≡ self.old.next + 1) }
        ensures pending { OnOk result (self.new.pending.items ≡ whole_line self.old.next ∷ []) }
    {
        let sum = mem::replace(&mut self.pending, Vec::new(self.alloc));
        self.lines.push(CertLine::Combine(Sequence::from_vec(sum)))?;
        self.pending.push(whole_line(self.alloc, self.next)?)?;
        self.next += 1;
        Ok(())
    }

    /// Writes the sum where it has as many multiples as one may have.
    fn make_room(&mut self) -> Result<(), AllocError>
        requires { self.old.next + 1 < 2 ^ 32 }
        ensures room { OnOk result (HasRoom self.old self.new) }
        ensures next { OnOk result (self.new.next ≤ self.old.next + 1) }
    {
        if self.pending.len() < MOST_MULTIPLES {
            return Ok(());
        }
        self.write()?;
        Ok(())
    }

    /// Adds a multiple.
    fn add(&mut self, multiple: Multiple) -> Result<(), AllocError>
        requires { self.old.next + 1 < 2 ^ 32 }
        ensures tree { OnOk result (GoesOn multiple self.old self.new) }
        ensures next { OnOk result (self.new.next ≤ self.old.next + 1) }
    {
        self.make_room()?;
        self.pending.push(multiple)?;
        Ok(())
    }

    /// The lines with the last sum, which closes the tree.
    fn close(self) -> Result<Vec<CertLine>, AllocError>
        ensures { IfOk result (λ lines. lines.items ≡ self.lines.items ++ sums_tree self.next self.pending.items []) }
    {
        let Sums {
            alloc: _,
            mut lines,
            next: _,
            pending,
        } = self;
        lines.push(CertLine::Combine(Sequence::from_vec(pending)))?;
        lines.push(CertLine::Close)?;
        Ok(lines)
    }
}

/// Lines, and the tree that adds up multiples of a lemma's first lines, which are so many.
pub(crate) fn with_tree(
    alloc: Global,
    lines: Vec<CertLine>,
    first: u32,
    summands: Vec<Summand>,
) -> Result<Vec<CertLine>, AllocError>
    requires { first + length summands.items < 2 ^ 32 }
    ensures lines { IfOk result (λ all. all.items ≡ lines.items ++ sums_tree first [] (map multiple_of summands.items)) }
    ensures numbered { IfOk result (λ all. All IsNumbered summands.items) }
{
    let mut left = summands;
    left.reverse();
    let mut sums = Sums {
        alloc,
        lines,
        next: first,
        pending: Vec::new(alloc),
    };
    while let Some(summand) = left.pop() {
        sums.add(multiple_of(alloc, summand)?)?;
    }
    sums.close()
}
