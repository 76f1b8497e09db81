//! A basis in levels.
ghost use Rattle.std.specs.Prelude.{◌≡◌, ℕ, ◌<◌, [], ◌∷◌, ◌++◌, length, IfOk, IfSome, IfNone, OnOk, OnErr, IsErrOf};
ghost use Rattle.std.specs.Prelude.{List};
ghost use Rattle.ffc_base.specs.Metering.{Metered};
ghost use Rattle.ffc_ring.specs.Polynomial.{Terms, SamePolynomial, difference};
ghost use Rattle.ffc_basis.specs.Completed.{IsCompletion, IsFront, IsProgress, HasTaken};
ghost use Rattle.ffc_basis.specs.Completion.{ReducesToZero};
ghost use Rattle.ffc_line.specs.Lines.{polys_of, combination, AreBefore, AreLines, ArePolynomials};
ghost use Rattle.ffc_basis.specs.Reduction.{ArePartsAtMost, IsReduced, IsStopped};
ghost use Rattle.ffc_basis.specs.Units.{TakesReductions, IsReductionBound, IsCompletionBound};
ghost use Rattle.ffc_stack.specs.Generators.{AreGeneratorsOf};
ghost use Rattle.ffc_stack.specs.Stacks.{stack_of, generators, levels, joined, LeadToLive, IsBegun, IsPushed};
ghost use Rattle.ffc_stack.specs.Stacks.{IsCompletedWith, IsStoppedWith, IsStoppedAfter, GoesOn, IsPopped};

use crate::generators::{generators_among, reached_from};
use ffc_base::{Meter, Stop};
use ffc_basis::{Basis, Completion, Progress, Reduced};
use ffc_field::Field;
use ffc_line::{Line, LineId};
use ffc_mono::MonoOrder;
use ffc_poly::Poly;
use std::alloc::{AllocError, Global};
use std::marker::Model;

/// A basis whose generators come in levels, the newest of which can be dropped.
#[derive(Debug)]
pub struct BasisStack<F: Field, O: MonoOrder> {
    basis: Basis<F, O>,
    /// For each level, how many lines there were when it began.
    marks: Vec<usize>,
}

impl<F: Field, O: MonoOrder> Drop for BasisStack<F, O> {
    fn drop(self) {
        let BasisStack { basis: _, marks: _ } = self;
    }
}

impl<F: Field, O: MonoOrder> Model for BasisStack<F, O> {
    ghost use Rattle.std.specs.Prelude.{length};
    ghost use Rattle.ffc_stack.specs.Stacks.{Stack, stack_of, AreMarks, HaveNoneBelow};

    ghost Value = { Stack F O };

    ghost view = { λ s. stack_of s.basis s.marks.items };

    ghost invariant = { λ s. AreMarks 0 (length s.basis) s.marks.items × HaveNoneBelow s.basis s.marks.items };
}

impl<F: Field, O: MonoOrder> BasisStack<F, O> {
    /// The stack without lines and levels. It takes no memory.
    pub fn new(alloc: Global) -> Self
        ensures { result ≡ stack_of [] [] }
    {
        BasisStack {
            basis: Basis::new(alloc),
            marks: Vec::new(alloc),
        }
    }

    /// Adds a level of generators and completes the basis. After an error the stack is as before.
    pub fn push(&mut self, gens: &[Poly<F, O>], meter: &mut Meter) -> Result<Completion, Stop>
        ensures pushed { OnOk result (IsPushed self.old self.new gens.now) }
        ensures added { OnOk result (IsCompletedWith F.ORDER O.cmp self.old self.new gens.now) }
        ensures level { OnOk result (levels self.new ≡ levels self.old ++ gens.now ∷ []) }
        ensures found { IfOk result (IsCompletion F.ORDER O.cmp (polys_of self.new.lines)) }
        ensures unchanged { OnErr result (self.new ≡ self.old) }
        ensures metered { Metered Stop.Spent result meter.old meter.new }
        ensures reductions { TakesReductions meter.old meter.new }
        ensures bound { OnOk result (IsCompletionBound F.ORDER O.cmp (polys_of self.new.lines) meter.old meter.new) }
        ensures stopped { IsErrOf result Stop.Spent → IsStoppedWith F.ORDER O.cmp self.old gens.now meter.old
            meter.new }
    {
        self.begin(gens)?;
        match self.basis.complete(meter) {
            Ok(found) => Ok(found),
            Err(stop) => {
                self.pop();
                Err(stop)
            }
        }
    }

    /// Adds a level of generators, and completes the basis as far as it is done after this many units.
    pub fn push_within(
        &mut self,
        gens: &[Poly<F, O>],
        units: u64,
        meter: &mut Meter,
    ) -> Result<Progress, Stop>
        ensures pushed { OnOk result (IsPushed self.old self.new gens.now) }
        ensures added { OnOk result (IsCompletedWith F.ORDER O.cmp self.old self.new gens.now) }
        ensures level { OnOk result (levels self.new ≡ levels self.old ++ gens.now ∷ []) }
        ensures found { IfOk result (IsProgress F.ORDER O.cmp (polys_of self.new.lines)) }
        ensures left { IfOk result (HasTaken meter.old meter.new units) }
        ensures unchanged { OnErr result (self.new ≡ self.old) }
        ensures metered { Metered Stop.Spent result meter.old meter.new }
        ensures reductions { TakesReductions meter.old meter.new }
        ensures bound { OnOk result (IsCompletionBound F.ORDER O.cmp (polys_of self.new.lines) meter.old meter.new) }
        ensures stopped { IsErrOf result Stop.Spent → IsStoppedWith F.ORDER O.cmp self.old gens.now meter.old
            meter.new }
    {
        self.begin(gens)?;
        match self.basis.complete_within(units, meter) {
            Ok(progress) => Ok(progress),
            Err(stop) => {
                self.pop();
                Err(stop)
            }
        }
    }

    /// Goes on with the completion, for this many units. Lines are added to the newest level.
    pub fn go_on(&mut self, units: u64, meter: &mut Meter) -> Result<Progress, Stop>
        ensures stays { OnOk result (GoesOn self.old self.new) }
        ensures added { OnOk result (IsFront F.ORDER O.cmp self.old.lines self.new.lines) }
        ensures level { OnOk result (levels self.new ≡ levels self.old) }
        ensures found { IfOk result (IsProgress F.ORDER O.cmp (polys_of self.new.lines)) }
        ensures left { IfOk result (HasTaken meter.old meter.new units) }
        ensures unchanged { OnErr result (self.new ≡ self.old) }
        ensures metered { Metered Stop.Spent result meter.old meter.new }
        ensures reductions { TakesReductions meter.old meter.new }
        ensures bound { OnOk result (IsCompletionBound F.ORDER O.cmp (polys_of self.new.lines) meter.old meter.new) }
        ensures stopped { IsErrOf result Stop.Spent → IsStoppedAfter F.ORDER O.cmp self.old meter.old meter.new }
    {
        let before = self.basis.lines().len();
        match self.basis.complete_within(units, meter) {
            Ok(progress) => Ok(progress),
            Err(stop) => {
                self.basis.cut(before);
                Err(stop)
            }
        }
    }

    /// Drops the newest level. It takes no memory.
    pub fn pop(&mut self)
        requires { 0 < length self.old.marks }
        ensures popped { IsPopped self.old self.new }
        ensures level { (last : List Terms) × (levels self.old ≡ levels self.new ++ last ∷ []) }
    {
        if let Some(count) = self.marks.pop() {
            self.basis.cut(count);
        }
    }

    /// The lines in order. It takes no memory.
    pub fn lines(&self) -> &[Line<F, O>]
        ensures value { result.now ≡ self.now.lines }
        ensures lines { AreLines F.ORDER self.now.lines }
        ensures generators { generators self.now.lines ≡ joined (levels self.now) }
        ensures live { LeadToLive self.now }
    {
        self.basis.lines()
    }

    /// How many levels there are.
    pub fn depth(&self) -> u64
        ensures { result ≡ length self.now.marks }
    {
        self.marks.len() as u64
    }

    /// Reduces a polynomial by the lines, as `Basis::reduce` does.
    pub fn reduce(&mut self, poly: &Poly<F, O>, meter: &mut Meter) -> Result<Reduced<F, O>, Stop>
        ensures difference { IfOk result (λ r. SamePolynomial F.ORDER r.rest
            (difference F.ORDER poly.now (combination (polys_of self.old.lines) r.parts.items))) }
        ensures lines_exist { IfOk result (λ r. AreBefore (length self.old.lines) r.parts.items) }
        ensures polynomials { IfOk result (λ r. ArePolynomials F.ORDER O.cmp r.parts.items) }
        ensures at_most { IfOk result (λ r. ArePartsAtMost F.ORDER O.cmp (polys_of self.old.lines) poly.now
            r.parts.items) }
        ensures zero { IfOk result (λ r. r.rest ≡ [] → ReducesToZero F.ORDER O.cmp (polys_of self.old.lines) poly.now) }
        ensures reduced { IfOk result (λ r. IfNone r.over (IsReduced F.ORDER O.cmp (polys_of self.old.lines) r.rest)) }
        ensures over { IfOk result (λ r. IfSome r.over (λ t.
            IsStopped F.ORDER O.cmp (polys_of self.old.lines) r.rest r.parts.items t.0 t.1)) }
        ensures metered { Metered Stop.Spent result meter.old meter.new }
        ensures reductions { TakesReductions meter.old meter.new }
        ensures bound { IsReductionBound F.ORDER O.cmp (polys_of self.old.lines) poly.now meter.old meter.new }
        ensures unchanged { self.new ≡ self.old }
    {
        self.basis.reduce(poly, meter)
    }

    /// The numbers of the generators that the line's parts lead to, in increasing order.
    pub fn generators_of(&self, line: LineId) -> Result<Vec<LineId>, AllocError>
        ensures { IfOk result (λ ns. AreGeneratorsOf self.now.lines line ns.items) }
    {
        let alloc = *self.marks.allocator();
        let lines = self.basis.lines();
        let reached = reached_from(alloc, lines, line)?;
        generators_among(alloc, lines, reached.as_slice())
    }

    /// Begins a level with these generators. Without memory nothing changes.
    fn begin(&mut self, gens: &[Poly<F, O>]) -> Result<(), AllocError>
        ensures begun { OnOk result (IsBegun self.old self.new gens.now) }
        ensures level { OnOk result (levels self.new ≡ levels self.old ++ gens.now ∷ []) }
        ensures unchanged { OnErr result (self.new ≡ self.old) }
    {
        let count = self.basis.lines().len();
        self.marks.push(count)?;
        match self.basis.add(gens) {
            Ok(()) => Ok(()),
            Err(stop) => {
                let _ = self.marks.pop();
                Err(stop)
            }
        }
    }
}
