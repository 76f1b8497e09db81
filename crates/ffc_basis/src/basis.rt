//! Bases.
ghost use Rattle.std.specs.Prelude.{◌≡◌, ◌≤◌, [], length, vec_len, take, IfOk, IfSome, IfNone, OnOk, OnErr, IsErrOf};
ghost use Rattle.ffc_base.specs.Metering.{Metered};
ghost use Rattle.ffc_ring.specs.Polynomial.{SamePolynomial, difference};
ghost use Rattle.ffc_basis.specs.Completion.{ReducesToZero};
ghost use Rattle.ffc_basis.specs.Completed.{IsFront, IsCompletion, IsProgress, HasTaken};
ghost use Rattle.ffc_basis.specs.Units.{TakesReductions, IsReductionBound, IsCompletionBound};
ghost use Rattle.ffc_basis.specs.Indexing.{IsIndexOf};
ghost use Rattle.ffc_line.specs.Lines.{polys_of, combination, AreBefore, AreLines, ArePolynomials, AreGenerators};
ghost use Rattle.ffc_line.specs.Lines.{AreLists, IsAddedTo};
ghost use Rattle.ffc_basis.specs.Reduction.{ArePartsAtMost, IsReduced, IsStopped};

use crate::completion::{Completion, Progress};
use crate::index::{Index, push_line};
use crate::pairing::{Pairing, advance};
use crate::reduction::{Reduced, reduce_by};
use ffc_base::{Meter, Stop};
use ffc_dense::Table;
use ffc_field::Field;
use ffc_line::Line;
use ffc_mono::MonoOrder;
use ffc_poly::Poly;
use std::alloc::{AllocError, Global};
use std::marker::Model;

/// Polynomials, each a generator or a recorded combination of earlier ones.
#[derive(Debug)]
pub struct Basis<F: Field, O: MonoOrder> {
    lines: Vec<Line<F, O>>,
    index: Index,
    pairing: Pairing,
    table: Table<F, O>,
}

impl<F: Field, O: MonoOrder> Drop for Basis<F, O> {
    fn drop(self) {
        let Basis {
            lines: _,
            index: _,
            pairing: _,
            table: _,
        } = self;
    }
}

impl<F: Field, O: MonoOrder> Model for Basis<F, O> {
    ghost use Rattle.std.specs.Prelude.{List};
    ghost use Rattle.ffc_dense.specs.Tables.{AreMultiplesOf};
    ghost use Rattle.ffc_basis.specs.Indexing.{IsIndexOf};
    ghost use Rattle.ffc_line.specs.Lines.{AreLines, polys_of};
    ghost use Rattle.ffc_basis.specs.PairTable.{ArePairs, AreFew, seconds};
    ghost use Rattle.ffc_line.specs.declared.line.Line.{Line};

    ghost Value = { List (Line F O) };

    ghost view = { λ b. b.lines.items };

    ghost invariant = { λ b. AreLines F.ORDER b.lines.items
        × ArePairs F.ORDER O.cmp (polys_of b.lines.items) b.pairing.records.items b.pairing.paired
        × AreFew (seconds b.pairing.records.items) b.pairing.paired
        × IsIndexOf F.ORDER O.cmp (polys_of b.lines.items) b.index
        × AreMultiplesOf F.ORDER (polys_of b.lines.items) b.table.1 };
}

impl<F: Field, O: MonoOrder> Basis<F, O> {
    /// The basis with no lines. It takes no memory.
    pub fn new(alloc: Global) -> Self
        ensures { result ≡ [] }
    {
        Basis {
            lines: Vec::new(alloc),
            index: Index::new(alloc),
            pairing: Pairing::new(alloc),
            table: Table::new(alloc),
        }
    }

    /// The basis whose lines are these generators in order.
    pub fn start(alloc: Global, gens: &[Poly<F, O>]) -> Result<Self, AllocError>
        ensures { IfOk result (λ b. AreGenerators b gens.now) }
    {
        let mut lines = Vec::new(alloc);
        let mut index = Index::new(alloc);
        append_generators(&mut lines, &mut index, gens)?;
        Ok(Basis {
            lines,
            index,
            pairing: Pairing::new(alloc),
            table: Table::new(alloc),
        })
    }

    /// The lines in order. It takes no memory.
    pub fn lines(&self) -> &[Line<F, O>]
        ensures value { result.now ≡ self.now }
        ensures lines { AreLines F.ORDER self.now }
    {
        &self.lines
    }

    /// The lines in order, where the basis is done with. It takes no memory.
    pub fn into_lines(self) -> Vec<Line<F, O>>
        ensures value { result.items ≡ self }
        ensures lines { AreLines F.ORDER self }
        ensures lists { AreLists (polys_of self) }
    {
        let Basis {
            lines,
            index: _,
            pairing: _,
            table: _,
        } = self;
        lines
    }

    /// Appends generators. Without memory nothing changes.
    pub fn add(&mut self, gens: &[Poly<F, O>]) -> Result<(), AllocError>
        ensures added { OnOk result (IsAddedTo self.old self.new gens.now) }
        ensures unchanged { OnErr result (self.new ≡ self.old) }
    {
        let count = self.lines.len();
        match append_generators(&mut self.lines, &mut self.index, gens) {
            Ok(()) => Ok(()),
            Err(stop) => {
                self.index.cut(&self.lines, count);
                self.lines.truncate(count);
                Err(stop)
            }
        }
    }

    /// Drops the lines from a number on. It takes no memory.
    pub fn cut(&mut self, len: usize)
        requires { len ≤ length self.old }
        ensures { self.new ≡ take len self.old }
    {
        self.index.cut(&self.lines, len);
        self.lines.truncate(len);
        self.pairing.cut(len);
        self.table.cut(len);
    }

    /// Completes the basis by Buchberger's algorithm (Buchberger 1965; Cox, Little and O'Shea, chapter 2, section 7). Each
    /// S-polynomial that is formed and each multiple that is subtracted is one Reduction. At Spent the lines so far stand,
    /// and a later call goes on with them.
    pub fn complete(&mut self, meter: &mut Meter) -> Result<Completion, Stop>
        ensures stays { IsFront F.ORDER O.cmp self.old self.new }
        ensures found { IfOk result (IsCompletion F.ORDER O.cmp (polys_of self.new)) }
        ensures metered { Metered Stop.Spent result meter.old meter.new }
        ensures reductions { TakesReductions meter.old meter.new }
        ensures bound { (IsErrOf result Stop.Memory → ⊥) → IsCompletionBound F.ORDER O.cmp (polys_of self.new)
            meter.old meter.new }
        ensures unchanged { IsErrOf result Stop.Memory → self.new ≡ self.old }
    {
        match self.complete_within(u64::MAX, meter) {
            Ok(Progress::Done(completion)) => Ok(completion),
            Ok(Progress::Left) => {
                let _budget = meter.budget();
                Err(Stop::Spent)
            }
            Err(stop) => Err(stop),
        }
    }

    /// Does a part of that work: pairs are left only where at least so many units were taken. Reductions of lines come before
    /// other S-polynomials, and are all done, also past the units: a pair simplifies where both lines are linear, or where one
    /// line's leading monomial divides that of the other line and it is no longer. With no units no other pair is reduced.
    /// The units are looked at between two pairs, so a call with at least one unit goes on by at least one pair.
    pub fn complete_within(&mut self, units: u64, meter: &mut Meter) -> Result<Progress, Stop>
        ensures stays { IsFront F.ORDER O.cmp self.old self.new }
        ensures found { IfOk result (IsProgress F.ORDER O.cmp (polys_of self.new)) }
        ensures left { IfOk result (HasTaken meter.old meter.new units) }
        ensures metered { Metered Stop.Spent result meter.old meter.new }
        ensures reductions { TakesReductions meter.old meter.new }
        ensures bound { (IsErrOf result Stop.Memory → ⊥) → IsCompletionBound F.ORDER O.cmp (polys_of self.new)
            meter.old meter.new }
        ensures unchanged { IsErrOf result Stop.Memory → self.new ≡ self.old }
    {
        let count = self.lines.len();
        match advance(
            &mut self.lines,
            &mut self.index,
            &mut self.table,
            &mut self.pairing,
            units,
            meter,
        ) {
            Ok(progress) => Ok(progress),
            Err(Stop::Spent) => Err(Stop::Spent),
            Err(Stop::Memory) => {
                self.cut(count);
                Err(Stop::Memory)
            }
        }
    }

    /// Reduces a polynomial by the lines: what is left of it is the polynomial minus the sum of the parts' multiples of
    /// lines, and no leading monomial of a line divides a monomial of it, unless a limit of polynomials is passed before. Each
    /// multiple that is subtracted is one Reduction.
    pub fn reduce(&mut self, poly: &Poly<F, O>, meter: &mut Meter) -> Result<Reduced<F, O>, Stop>
        ensures difference { IfOk result (λ r. SamePolynomial F.ORDER r.rest
            (difference F.ORDER poly.now (combination (polys_of self.old) r.parts.items))) }
        ensures lines_exist { IfOk result (λ r. AreBefore (length self.old) r.parts.items) }
        ensures polynomials { IfOk result (λ r. ArePolynomials F.ORDER O.cmp r.parts.items) }
        ensures at_most { IfOk result (λ r. ArePartsAtMost F.ORDER O.cmp (polys_of self.old) poly.now r.parts.items) }
        ensures zero { IfOk result (λ r. r.rest ≡ [] → ReducesToZero F.ORDER O.cmp (polys_of self.old) poly.now) }
        ensures reduced { IfOk result (λ r. IfNone r.over (IsReduced F.ORDER O.cmp (polys_of self.old) r.rest)) }
        ensures over { IfOk result (λ r. IfSome r.over (λ t.
            IsStopped F.ORDER O.cmp (polys_of self.old) r.rest r.parts.items t.0 t.1)) }
        ensures metered { Metered Stop.Spent result meter.old meter.new }
        ensures reductions { TakesReductions meter.old meter.new }
        ensures bound { IsReductionBound F.ORDER O.cmp (polys_of self.old) poly.now meter.old meter.new }
        ensures unchanged { self.new ≡ self.old }
    {
        reduce_by(
            *self.lines.allocator(),
            self.lines.as_slice(),
            &self.index,
            &mut self.table,
            poly,
            meter,
        )
    }
}

/// A generator as a line.
fn generator<F: Field, O: MonoOrder>(
    alloc: Global,
    poly: &Poly<F, O>,
) -> Result<Line<F, O>, AllocError>
    ensures poly { IfOk result (λ l. l.poly ≡ poly.now) }
    ensures parts { IfOk result (λ l. l.parts.items ≡ []) }
{
    Ok(Line {
        poly: poly.clone()?,
        parts: Vec::new(alloc),
    })
}

/// Appends generators as lines, as many as there is memory for.
fn append_generators<F: Field, O: MonoOrder>(
    lines: &mut Vec<Line<F, O>>,
    index: &mut Index,
    gens: &[Poly<F, O>],
) -> Result<(), AllocError>
    ensures added { OnOk result (IsAddedTo lines.old.items lines.new.items gens.now) }
    ensures index { IsIndexOf F.ORDER O.cmp (polys_of lines.old.items) index.old
        → IsIndexOf F.ORDER O.cmp (polys_of lines.new.items) index.new }
    ensures lists { AreLists (polys_of lines.old.items) → AreLists (polys_of lines.new.items) }
    ensures kept { take (vec_len lines.old) lines.new.items ≡ lines.old.items }
{
    for poly in gens {
        let _length = poly.len();
        let line = generator(*lines.allocator(), poly)?;
        push_line(lines, index, line)?;
    }
    Ok(())
}
