//! The walk over a tree: one list of lines, and a mark for each branch that waits.
ghost use Rattle.std.specs.Prelude.{◌≡◌, ℕ, ◌≤◌, true, false, length, map, reverse, drop, ◌++◌, ◌∷◌, [], IfOk, All};
ghost use Rattle.std.specs.List.{AllByRecursion};
ghost use Rattle.ffc_ring.specs.Polynomial.{AreTerms};
ghost use Rattle.ffc_cert.specs.Ranges.{IsLine};
ghost use Rattle.ffc_cert.specs.declared.entries.CertLine.TheVariants as line;
ghost use Rattle.ffc_trees.specs.Normal.{IsNormal, degree_of};
ghost use Rattle.ffc_trees.specs.TreeLines.{limits, are_below, case_lines, closes};
ghost use Rattle.ffc_trees.specs.Trees.{Open, with_power, branch_read, step_read, tree_read};
ghost use Rattle.ffc_trees.specs.Same.{IsSameStage};
ghost use Rattle.ffc_cktree.specs.Lines.{AreLines};
ghost use Rattle.ffc_cktree.specs.Factors.{factors_of};
ghost use Rattle.ffc_cktree.specs.Waiting.{branches_of, AreStacked};
ghost use Rattle.ffc_cktree.specs.Walking.{power_of, IsShort, is_closed, stage_read, Leads, tree_stop};

use crate::bits::bits;
use crate::cases::{Case, push_cases, root_line, split, values};
use crate::chain::{Factor, Running, begin, fermat, step};
use crate::rules;
use crate::stop::{BrokenLine, LineStop, TreeStop};
use crate::sums::combine;
use ffc_cert::{CertLine, Multiple, Term};
use ffc_ckpoly::CkPoly;
use ffc_field::Field;
use std::alloc::{AllocError, Global};
use std::marker::Model;

/// How far a tree has been read: the lines of the present branch, the branches that wait, and the chain that has begun.
#[derive(Debug, Drop)]
pub struct Walk<F: Field> {
    lines: Vec<CkPoly<F>>,
    waiting: Vec<Case>,
    chain: Option<Running<F>>,
    closed: bool,
}

impl<F: Field> Model for Walk<F> {
    ghost use Rattle.std.specs.Prelude.{length, reverse};
    ghost use Rattle.ffc_trees.specs.Trees.{Stage};
    ghost use Rattle.ffc_cktree.specs.Lines.{AreLines};
    ghost use Rattle.ffc_cktree.specs.Waiting.{AreStacked};
    ghost use Rattle.ffc_cktree.specs.Walking.{stage_of, IsShort};

    ghost Value = { Stage };

    ghost view = { λ w. stage_of F.ORDER F.value w.closed w.lines.items (reverse w.waiting.items) w.chain };

    ghost invariant = { λ w. AreLines F.ORDER w.lines.items × AreStacked F.ORDER (length w.lines.items)
        (reverse w.waiting.items) × IsShort w.chain };
}

/// Opens the branch that waits first. Where none does, the tree is closed.
fn next_branch<F: Field>(
    alloc: Global,
    mut lines: Vec<CkPoly<F>>,
    mut waiting: Vec<Case>,
) -> Result<Walk<F>, AllocError>
    requires lines { AreLines F.ORDER lines.items }
    requires stacked { AreStacked F.ORDER (length lines.items) (reverse waiting.items) }
    ensures { IfOk result
        (λ w. IsSameStage F.ORDER w (Open (branches_of F.ORDER lines.items (reverse waiting.items)))) }
{
    let Some(case) = waiting.pop() else {
        return Ok(Walk {
            lines,
            waiting,
            chain: None,
            closed: true,
        });
    };
    lines.truncate(case.mark);
    lines.push(root_line(alloc, case.variable, case.root)?)?;
    Ok(Walk {
        lines,
        waiting,
        chain: None,
        closed: false,
    })
}

/// Opens the branches of these roots, the first of them now.
fn branch_off<F: Field>(
    alloc: Global,
    lines: Vec<CkPoly<F>>,
    mut waiting: Vec<Case>,
    x: u32,
    roots: &[u64],
) -> Result<Walk<F>, AllocError>
    requires lines { AreLines F.ORDER lines.items }
    requires stacked { AreStacked F.ORDER (length lines.items) (reverse waiting.items) }
    requires residues { are_below F.ORDER roots.now ≡ true }
    ensures { IfOk result (λ w. IsSameStage F.ORDER w
        (Open (case_lines F.ORDER lines.items x roots.now ++ branches_of F.ORDER lines.items
        (reverse waiting.items)))) }
{
    push_cases(&mut waiting, lines.len(), x, roots)?;
    next_branch(alloc, lines, waiting)
}

/// Adds a line to the present branch.
fn with_line<F: Field>(
    mut lines: Vec<CkPoly<F>>,
    waiting: Vec<Case>,
    line: CkPoly<F>,
) -> Result<Walk<F>, AllocError>
    requires lines { AreLines F.ORDER lines.items }
    requires stacked { AreStacked F.ORDER (length lines.items) (reverse waiting.items) }
    requires normal { IsNormal F.ORDER line }
    requires low { degree_of line ≤ 1024 }
    ensures { IfOk result
        (λ w. w ≡ Open ((lines.items ++ line ∷ []) ∷ branches_of F.ORDER lines.items (reverse waiting.items))) }
{
    lines.push(line)?;
    Ok(Walk {
        lines,
        waiting,
        chain: None,
        closed: false,
    })
}

/// Goes on with a chain. Without a factor to come its line is added.
fn with_power<F: Field>(
    alloc: Global,
    lines: Vec<CkPoly<F>>,
    waiting: Vec<Case>,
    variable: u32,
    modulus: Vec<F>,
    power: Vec<F>,
    mut factors: Vec<Factor>,
) -> Result<Walk<F>, AllocError>
    requires lines { AreLines F.ORDER lines.items }
    requires stacked { AreStacked F.ORDER (length lines.items) (reverse waiting.items) }
    requires modulus { length modulus.items ≤ 1025 }
    requires power { length power.items ≤ 1025 }
    ensures { IfOk result
        (λ w. IsSameStage F.ORDER w (with_power F.ORDER variable (map F.value modulus.items) lines.items
        (branches_of F.ORDER lines.items (reverse waiting.items)) (factors_of factors.items)
        (map F.value power.items))) }
{
    let Some(factor) = factors.pop() else {
        let line = fermat(alloc, variable, power.as_slice())?;
        return with_line(lines, waiting, line);
    };
    Ok(Walk {
        lines,
        waiting,
        chain: Some(Running {
            variable,
            modulus,
            power,
            factor,
            factors,
        }),
        closed: false,
    })
}

/// Whether the last line is a constant other than 0.
fn closes<F: Field>(lines: &[CkPoly<F>]) -> bool
    ensures { result ≡ closes F.ORDER lines.now }
{
    match lines.last() {
        Some(line) => line.is_nonzero_constant(),
        None => false,
    }
}

/// Begins a chain of the present branch.
fn begin_chain<F: Field>(
    alloc: Global,
    lines: Vec<CkPoly<F>>,
    waiting: Vec<Case>,
    k: u32,
    x: u32,
    steps: u32,
) -> Result<Walk<F>, LineStop>
    requires lines { AreLines F.ORDER lines.items }
    requires stacked { AreStacked F.ORDER (length lines.items) (reverse waiting.items) }
    ensures kept { IfOk result
        (λ w. Leads F.ORDER
        (branch_read limits F.ORDER lines.items (branches_of F.ORDER lines.items (reverse waiting.items))
        (line.Chain k x steps)) w) }
    ensures broken { (rule : ℕ) → result ≡ Err (LineStop.Rule rule) → branch_read limits F.ORDER lines.items
        (branches_of F.ORDER lines.items (reverse waiting.items)) (line.Chain k x steps) ≡ Err rule }
{
    let (modulus, factors) = begin(alloc, lines.as_slice(), k, x, steps)?;
    let mut power = Vec::new(alloc);
    power.push(F::of(0))?;
    power.push(F::of(1))?;
    let next = with_power(alloc, lines, waiting, x, modulus, power, factors)?;
    Ok(next)
}

/// Adds a sum of multiples to the present branch.
fn add_sum<F: Field>(
    alloc: Global,
    lines: Vec<CkPoly<F>>,
    waiting: Vec<Case>,
    multiples: &[Multiple],
) -> Result<Walk<F>, LineStop>
    requires lines { AreLines F.ORDER lines.items }
    requires stacked { AreStacked F.ORDER (length lines.items) (reverse waiting.items) }
    requires terms_are { All (λ m. AreTerms m.1) multiples.now }
    ensures kept { IfOk result
        (λ w. Leads F.ORDER
        (branch_read limits F.ORDER lines.items (branches_of F.ORDER lines.items (reverse waiting.items))
        (line.Combine multiples.now)) w) }
    ensures broken { (rule : ℕ) → result ≡ Err (LineStop.Rule rule) → branch_read limits F.ORDER lines.items
        (branches_of F.ORDER lines.items (reverse waiting.items)) (line.Combine multiples.now) ≡ Err rule }
{
    let sum = combine(alloc, lines.as_slice(), multiples)?;
    let next = with_line(lines, waiting, sum)?;
    Ok(next)
}

/// Adds the polynomial of a line of bits to the present branch.
fn add_bits<F: Field>(
    alloc: Global,
    lines: Vec<CkPoly<F>>,
    waiting: Vec<Case>,
    k: u32,
    chosen: &[u32],
    written: &[Term],
    numbers: &[u32],
) -> Result<Walk<F>, LineStop>
    requires lines { AreLines F.ORDER lines.items }
    requires stacked { AreStacked F.ORDER (length lines.items) (reverse waiting.items) }
    requires terms_are { AreTerms written.now }
    ensures kept { IfOk result
        (λ w. Leads F.ORDER
        (branch_read limits F.ORDER lines.items (branches_of F.ORDER lines.items (reverse waiting.items))
        (line.Bits k chosen.now written.now numbers.now)) w) }
    ensures broken { (rule : ℕ) → result ≡ Err (LineStop.Rule rule) → branch_read limits F.ORDER lines.items
        (branches_of F.ORDER lines.items (reverse waiting.items)) (line.Bits k chosen.now written.now numbers.now)
        ≡ Err rule }
{
    let line = bits(alloc, lines.as_slice(), k, chosen, written, numbers)?;
    let next = with_line(lines, waiting, line)?;
    Ok(next)
}

/// One line of the present branch.
fn read_branch<F: Field>(
    alloc: Global,
    lines: Vec<CkPoly<F>>,
    waiting: Vec<Case>,
    line: &CertLine,
) -> Result<Walk<F>, LineStop>
    requires lines { AreLines F.ORDER lines.items }
    requires stacked { AreStacked F.ORDER (length lines.items) (reverse waiting.items) }
    requires ranges { IsLine line.now }
    ensures kept { IfOk result
        (λ w. Leads F.ORDER
        (branch_read limits F.ORDER lines.items (branches_of F.ORDER lines.items (reverse waiting.items)) line.now) w) }
    ensures broken { (rule : ℕ) → result ≡ Err (LineStop.Rule rule) → branch_read limits F.ORDER lines.items
        (branches_of F.ORDER lines.items (reverse waiting.items)) line.now ≡ Err rule }
{
    match line {
        CertLine::Combine(multiples) => add_sum(alloc, lines, waiting, multiples.as_slice()),
        CertLine::Bits(k, chosen, written, numbers) => add_bits(
            alloc,
            lines,
            waiting,
            *k,
            chosen.as_slice(),
            written.as_slice(),
            numbers.as_slice(),
        ),
        CertLine::Chain(k, x, steps) => begin_chain(alloc, lines, waiting, *k, *x, *steps),
        CertLine::Split(k, x, roots) => {
            split(alloc, lines.as_slice(), *k, *x, roots.as_slice())?;
            let next = branch_off(alloc, lines, waiting, *x, roots.as_slice())?;
            Ok(next)
        }
        CertLine::Values(x, count) => {
            let roots = values::<F>(alloc, *count)?;
            let next = branch_off(alloc, lines, waiting, *x, roots.as_slice())?;
            Ok(next)
        }
        CertLine::Close => {
            if !closes(lines.as_slice()) {
                return Err(LineStop::Rule(rules::NOT_CLOSED));
            }
            let next = next_branch(alloc, lines, waiting)?;
            Ok(next)
        }
        _ => Err(LineStop::Rule(rules::NOT_CLOSED)),
    }
}

/// One step of a chain of the present branch.
fn read_step<F: Field>(
    alloc: Global,
    lines: Vec<CkPoly<F>>,
    waiting: Vec<Case>,
    running: Running<F>,
    line: &CertLine,
) -> Result<Walk<F>, LineStop>
    requires lines { AreLines F.ORDER lines.items }
    requires stacked { AreStacked F.ORDER (length lines.items) (reverse waiting.items) }
    requires short { IsShort (Some running) }
    ensures kept { IfOk result
        (λ w. Leads F.ORDER (step_read limits F.ORDER (power_of F.value running) lines.items
        (branches_of F.ORDER lines.items (reverse waiting.items)) line.now) w) }
    ensures broken { (rule : ℕ) → result ≡ Err (LineStop.Rule rule)
        → step_read limits F.ORDER (power_of F.value running) lines.items
        (branches_of F.ORDER lines.items (reverse waiting.items)) line.now ≡ Err rule }
{
    let CertLine::Step(quotient, remainder) = line else {
        return Err(LineStop::Rule(rules::NOT_CLOSED));
    };
    let Running {
        variable,
        modulus,
        power,
        factor,
        factors,
    } = running;
    let power = step(
        alloc,
        modulus.as_slice(),
        factor,
        power.as_slice(),
        quotient.as_slice(),
        remainder.as_slice(),
    )?;
    let next = with_power(alloc, lines, waiting, variable, modulus, power, factors)?;
    Ok(next)
}

impl<F: Field> Walk<F> {
    /// The walk at the first line of a tree, from the lines that hold at its root.
    fn new(alloc: Global, lines: Vec<CkPoly<F>>) -> Self
        requires { AreLines F.ORDER lines.items }
        ensures { result ≡ Open (lines.items ∷ []) }
    {
        Walk {
            lines,
            waiting: Vec::new(alloc),
            chain: None,
            closed: false,
        }
    }

    /// Whether no branch is open.
    fn is_closed(&self) -> bool
        ensures { result ≡ is_closed self.now }
    {
        self.closed
    }

    /// The walk after a line of the tree.
    fn read(self, alloc: Global, line: &CertLine) -> Result<Self, LineStop>
        requires open { is_closed self ≡ false }
        requires ranges { IsLine line.now }
        ensures kept { IfOk result (λ w. Leads F.ORDER (stage_read limits F.ORDER self line.now) w) }
        ensures broken { (rule : ℕ) → result ≡ Err (LineStop.Rule rule) → stage_read limits F.ORDER self line.now
            ≡ Err rule }
    {
        let Walk {
            lines,
            waiting,
            chain,
            closed: _,
        } = self;
        match chain {
            Some(running) => read_step(alloc, lines, waiting, running, line),
            None => read_branch(alloc, lines, waiting, line),
        }
    }
}

/// A line's stop, as that of its tree.
fn stopped(stop: LineStop, offset: u64) -> TreeStop
    ensures { result ≡ tree_stop stop offset }
{
    match stop {
        LineStop::Rule(rule) => TreeStop::Broken(BrokenLine { offset, rule }),
        LineStop::Memory => TreeStop::Memory,
    }
}

/// Reads a tree from the lines that hold at its root, and answers how many lines it has. Where the lines end before the
/// tree does, the line that is not there closes nothing.
pub fn read_tree<F: Field>(
    alloc: Global,
    first: Vec<CkPoly<F>>,
    lines: &[CertLine],
) -> Result<usize, TreeStop>
    requires first { AreLines F.ORDER first.items }
    requires ranges { AllByRecursion IsLine lines.now }
    ensures within { IfOk result (λ n. n ≤ length lines.now) }
    ensures read { IfOk result (λ n. tree_read limits F.ORDER first.items lines.now ≡ Ok (drop n lines.now)) }
    ensures broken { (b : BrokenLine) → result ≡ Err (TreeStop.Broken b)
        → tree_read limits F.ORDER first.items lines.now ≡ Err (record { offset = b.offset; rule = b.rule }) }
{
    let mut walk = Walk::new(alloc, first);
    for (at, line) in lines.iter().enumerate() {
        if walk.is_closed() {
            return Ok(at);
        }
        walk = match walk.read(alloc, line) {
            Ok(next) => next,
            Err(stop) => return Err(stopped(stop, at as u64)),
        };
    }
    if walk.is_closed() {
        return Ok(lines.len());
    }
    Err(stopped(LineStop::Rule(rules::NOT_CLOSED), lines.len() as u64))
}
