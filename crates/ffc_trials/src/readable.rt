//! Whether an entry is one that a certificate of version 2 may have, or of version 3, which has lines of bits too.
ghost use Rattle.std.specs.Prelude.{◌≡◌, ◌⊎◌, IsTrue, IfSome};
ghost use Rattle.ffc_cert.specs.Ranges.{IsNarrow, IsWide, IsLiteral, IsPower, VariablesIncrease, IsTerm, IsMultiple};
ghost use Rattle.ffc_cert.specs.Ranges.{AreVariables, Increase};
ghost use Rattle.ffc_cert.specs.Ranges.{IsCounted, IsValue, IsLine, IsCause};
ghost use Rattle.ffc_cert.specs.declared.entries.CertLine.TheVariants.{Bits};
ghost use Rattle.ffc_cert.specs.WellFormed.{FitsVersion, IsReadable, IsWellFormed, IsRefutation, LineFitsVersion};
ghost use Rattle.ffc_trials.specs.Opened.{opened, opened_by_clause, opened_by_step, opened_by_tree};
ghost use Rattle.ffc_trials.specs.Versions.{written_version};

use ffc_cert::{
    Cause, CertLine, Entry, Literal, MAX_BYTES, Multiple, Power, Sequence, Term, text_len,
};

/// The most items that a list may have, and the most clauses of a refutation.
const MOST_ITEMS: u64 = 4_294_967_295;

/// A part of a line. Its numbers may be out of range, and its lists too long.
trait Ranged {
    ghost fits: { Self → Type 0 };

    fn is_in_range(&self) -> bool
        ensures { IsTrue result → fits self.now };
}

impl Ranged for u32 {
    ghost fits = { IsNarrow };

    fn is_in_range(&self) -> bool {
        let _number = *self;
        true
    }
}

impl Ranged for u64 {
    ghost fits = { IsWide };

    fn is_in_range(&self) -> bool {
        let _number = *self;
        true
    }
}

impl Ranged for Literal {
    ghost fits = { IsLiteral };

    fn is_in_range(&self) -> bool {
        self.1.is_in_range()
    }
}

/// A node and its value.
impl Ranged for (u32, u64) {
    ghost fits = { IsValue };

    fn is_in_range(&self) -> bool {
        self.0.is_in_range() && self.1.is_in_range()
    }
}

impl Ranged for Power {
    ghost fits = { IsPower };

    fn is_in_range(&self) -> bool {
        let (_variable, exponent) = *self;
        exponent > 0
    }
}

/// Whether the variables of these powers increase.
fn variables_increase(powers: &[Power]) -> bool
    ensures { IsTrue result → VariablesIncrease powers.now }
{
    let mut least = 0u64;
    for power in powers {
        let variable = u64::from(power.0);
        if variable < least {
            return false;
        }
        least = variable + 1;
    }
    true
}

impl Ranged for Term {
    ghost fits = { IsTerm };

    fn is_in_range(&self) -> bool {
        if !self.0.is_in_range() {
            return false;
        }
        self.1.is_in_range() && variables_increase(self.1.as_slice())
    }
}

impl Ranged for Multiple {
    ghost fits = { IsMultiple };

    fn is_in_range(&self) -> bool {
        self.0.is_in_range() && self.1.is_in_range()
    }
}

impl<T: Ranged> Ranged for Sequence<T> {
    ghost fits = { IsCounted T.fits };

    fn is_in_range(&self) -> bool {
        let items = self.as_slice();
        if items.len() as u64 > MOST_ITEMS {
            return false;
        }
        for item in items {
            if !item.is_in_range() {
                return false;
            }
        }
        true
    }
}

/// Whether numbers increase strictly.
fn increase(numbers: &[u32]) -> bool
    ensures { IsTrue result → Increase numbers.now }
{
    let mut least = 0u64;
    for number in numbers {
        let number = u64::from(*number);
        if number < least {
            return false;
        }
        least = number + 1;
    }
    true
}

/// Whether these are variables in range that increase strictly.
fn are_variables(variables: &Sequence<u32>) -> bool
    ensures { IsTrue result → AreVariables variables.now }
{
    variables.is_in_range() && increase(variables.as_slice())
}

/// Whether the parts of a line of bits are in range.
fn is_bits(
    line: u32,
    chosen: &Sequence<u32>,
    polynomial: &Sequence<Term>,
    lines: &Sequence<u32>,
) -> bool
    ensures { IsTrue result → IsLine (Bits line chosen.now polynomial.now lines.now) }
{
    if !are_variables(chosen) {
        return false;
    }
    if !polynomial.is_in_range() {
        return false;
    }
    lines.is_in_range()
}

/// The version that is written, with lines of bits or without them.
fn version_for(bits: bool) -> u8
    ensures version { result ≡ written_version bits }
    ensures known { (result ≡ 1) ⊎ ((result ≡ 2) ⊎ (result ≡ 3)) }
{
    if bits { 3 } else { 2 }
}

/// Whether the numbers of a line are in range, a lemma names its order, and lines of bits are only where they may be.
fn is_line(line: &CertLine, bits: bool) -> bool
    ensures ranges { IsTrue result → IsLine line.now }
    ensures fits { IsTrue result → LineFitsVersion (written_version bits) line.now }
{
    match line {
        CertLine::Assume(number) => number.is_in_range(),
        CertLine::Scheme(node, scheme, index) => {
            node.is_in_range() && scheme.is_in_range() && index.is_in_range()
        }
        CertLine::Hinted(lits, hints) => lits.is_in_range() && hints.is_in_range(),
        CertLine::Lemma { order, lits } => match order {
            None => false,
            Some(order) => order.is_in_range() && lits.is_in_range(),
        },
        CertLine::Combine(multiples) => multiples.is_in_range(),
        CertLine::Bits(line, chosen, polynomial, lines) => {
            bits && is_bits(*line, chosen, polynomial, lines)
        }
        CertLine::Chain(line, variable, steps) => {
            line.is_in_range() && variable.is_in_range() && steps.is_in_range()
        }
        CertLine::Step(quotient, remainder) => quotient.is_in_range() && remainder.is_in_range(),
        CertLine::Split(line, variable, zeros) => {
            line.is_in_range() && variable.is_in_range() && zeros.is_in_range()
        }
        CertLine::Values(variable, trees) => variable.is_in_range() && trees.is_in_range(),
        CertLine::Close => true,
    }
}

/// What is still to come before the next clause: trees of a lemma, and before them steps of a chain.
#[derive(Clone, Copy)]
pub struct Open {
    pub trees: u64,
    pub steps: u64,
}

impl Open {
    /// Nothing is to come.
    const NONE: Open = Open { trees: 0, steps: 0 };

    /// Whether nothing is to come.
    fn is_none(self) -> bool
        ensures trees { IsTrue result → self.trees ≡ 0 }
        ensures steps { IsTrue result → self.steps ≡ 0 }
    {
        self.trees == 0 && self.steps == 0
    }

    /// After a clause that calls for so many trees.
    fn after_clause(self, trees: u64) -> Option<Open>
        ensures { result ≡ opened_by_clause self trees }
    {
        if self.steps == 0 && self.trees == 0 {
            Some(Open { trees, steps: 0 })
        } else {
            None
        }
    }

    /// After a line of a tree that puts so many trees in the place of its own, and so many steps before them.
    fn after_tree(self, trees: u64, steps: u64) -> Option<Open>
        ensures { IfSome result (λ next. opened_by_tree self trees steps ≡ Some next) }
    {
        if self.steps == 0 && self.trees > 0 {
            let trees = (self.trees - 1).checked_add(trees)?;
            Some(Open { trees, steps })
        } else {
            None
        }
    }

    /// After a step of a chain.
    fn after_step(self) -> Option<Open>
        ensures { result ≡ opened_by_step self }
    {
        if self.steps > 0 {
            Some(Open {
                trees: self.trees,
                steps: self.steps - 1,
            })
        } else {
            None
        }
    }

    /// After a line, where that line may come here.
    fn after(self, line: &CertLine) -> Option<Open>
        ensures { IfSome result (λ next. opened self line.now ≡ Some next) }
    {
        match line {
            CertLine::Assume(_) | CertLine::Scheme(_, _, _) | CertLine::Hinted(_, _) => {
                self.after_clause(0)
            }
            CertLine::Lemma { .. } => self.after_clause(1),
            CertLine::Combine(_) | CertLine::Bits(_, _, _, _) => self.after_tree(1, 0),
            CertLine::Chain(_, _, steps) => self.after_tree(1, u64::from(*steps)),
            CertLine::Step(_, _) => self.after_step(),
            CertLine::Split(_, _, zeros) => self.after_tree(zeros.as_slice().len() as u64, 0),
            CertLine::Values(_, trees) => self.after_tree(u64::from(*trees), 0),
            CertLine::Close => self.after_tree(0, 0),
        }
    }
}

/// Whether these lines are clauses in their order, each lemma with its tree, and all numbers in range.
fn is_refutation(lines: &[CertLine], bits: bool) -> bool
    ensures { IsTrue result → IsRefutation (written_version bits) lines.now }
{
    let mut open = Open::NONE;
    let mut clauses = 0u64;
    for line in lines {
        if !is_line(line, bits) {
            return false;
        }
        let Some(next) = open.after(line) else {
            return false;
        };
        open = next;
        if line.is_clause() {
            clauses += 1;
        }
    }
    if !open.is_none() {
        return false;
    }
    clauses <= MOST_ITEMS
}

/// Whether the counts of a cause are in range.
fn is_cause(cause: &Cause) -> bool
    ensures { IsTrue result → IsCause cause.now }
{
    match cause {
        Cause::Degree | Cause::Terms | Cause::Memory => true,
        Cause::Steps(trials, reductions, assignments, chains) => {
            trials.is_in_range()
                && reductions.is_in_range()
                && assignments.is_in_range()
                && chains.is_in_range()
        }
    }
}

/// Whether an entry is well formed.
fn is_well_formed(entry: &Entry, bits: bool) -> bool
    ensures well_formed { IsTrue result → IsWellFormed (written_version bits) entry.now }
    ensures fits { IsTrue result → FitsVersion (written_version bits) entry.now }
{
    match entry {
        Entry::Sat(values) => values.is_in_range(),
        Entry::UnsatCases => true,
        Entry::UnsatSteps(lines) => is_refutation(lines.as_slice(), bits),
        Entry::Unknown(cause) => is_cause(cause),
    }
}

/// Whether an entry is well formed, in version 2 or with `bits` in version 3, and its text not too long. It costs about what
/// its text has to be written, and takes no
/// memory.
pub fn is_readable(entry: &Entry, bits: bool) -> bool
    ensures { IsTrue result → IsReadable (written_version bits) entry.now }
{
    if !is_well_formed(entry, bits) {
        return false;
    }
    text_len(version_for(bits), entry) <= MAX_BYTES
}
