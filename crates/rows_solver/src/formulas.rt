//! Small formulas, with a theory that agrees and with one that has a lemma.
ghost use Rattle.std.specs.Prelude.{◌≡◌, [], true, false, Contains, IfSome};
ghost use Rattle.ffc_cdcl.specs.State.{AreListed};

use crate::naming::named;
use crate::page::Page;
use crate::reading::{Words, words_of};
use ffc_base::{Meter, SearchStop};
use ffc_cdcl::{Lit, Literals, Outcome, Solver, Theory, TheoryAnswer};
use std::alloc::Global;

/// A theory with no lemmas, which agrees with every trail.
#[derive(Drop)]
struct Agreeing;

impl Theory for Agreeing {
    ghost use Rattle.std.specs.Prelude.{[]};

    ghost lemmas = { λ _. [] };

    ghost fits = { λ _ _. Unit {0} };

    fn check(
        &mut self,
        _standing: usize,
        _trail: &[Lit],
        _meter: &mut Meter,
    ) -> Result<TheoryAnswer, SearchStop> {
        Ok(TheoryAnswer::Agreed)
    }
}

/// A theory in which the nodes 0 and 1 are not both true.
#[derive(Drop)]
struct NotBoth {
    alloc: Global,
}

/// Whether a trail has a literal.
fn has(trail: &[Lit], literal: Lit) -> bool
    ensures { result ≡ true → Contains trail.now literal }
{
    for other in trail {
        if other.is_same(literal) {
            return true;
        }
    }
    false
}

impl Theory for NotBoth {
    ghost use Rattle.std.specs.Prelude.{[], ◌∷◌, false};

    ghost lemmas = { λ _. ((false, 0) ∷ (false, 1) ∷ []) ∷ [] };

    ghost fits = { λ _ _. Unit {0} };

    fn check(
        &mut self,
        _standing: usize,
        trail: &[Lit],
        _meter: &mut Meter,
    ) -> Result<TheoryAnswer, SearchStop> {
        if !has(trail, plus(0)) || !has(trail, plus(1)) {
            return Ok(TheoryAnswer::Agreed);
        }
        let lemma = Literals::copied(self.alloc, &[minus(0), minus(1)])?;
        Ok(TheoryAnswer::Conflict(lemma, 0))
    }
}

fn plus(node: u32) -> Lit
    ensures { result ≡ (true, node) }
{
    Lit {
        node,
        positive: true,
    }
}

fn minus(node: u32) -> Lit
    ensures { result ≡ (false, node) }
{
    Lit {
        node,
        positive: false,
    }
}

/// A step on a formula.
#[derive(Clone, Copy)]
enum Verb {
    Add,
    Pigeons,
    Scope,
    Solve(Wanted),
}

/// What is written of an answer.
#[derive(Clone, Copy)]
enum Wanted {
    /// Whether there is a model.
    Kind,
    /// Which value a node has in it.
    Value,
    /// Whether the refutation has more than so many steps.
    Steps,
}

const VERBS: [(&str, Verb); 6] = [
    ("add", Verb::Add),
    ("pigeons", Verb::Pigeons),
    ("scope", Verb::Scope),
    ("solve", Verb::Solve(Wanted::Kind)),
    ("value", Verb::Solve(Wanted::Value)),
    ("steps", Verb::Solve(Wanted::Steps)),
];

/// A literal as `+1` or `-1`.
fn literal(text: &str) -> Option<Lit> {
    match text.strip_prefix('-') {
        Some(node) => Some(minus(node.parse::<u32>().ok()?)),
        None => Some(plus(text.strip_prefix('+')?.parse::<u32>().ok()?)),
    }
}

/// A clause as `+0,-1`.
fn clause(alloc: Global, text: &str) -> Option<Literals> {
    let mut out = Literals::new(alloc);
    for part in text.split(',') {
        out.push(literal(part)?).ok()?;
    }
    Some(out)
}

/// The clauses that are left to read.
fn clauses(alloc: Global, words: &Words<'_>) -> Option<Vec<Literals>> {
    let mut out = Vec::new(alloc);
    for word in words.rest() {
        out.push(clause(alloc, word)?).ok()?;
    }
    Some(out)
}

/// The clause that a pigeon sits in one of the holes.
fn pigeon_clause(alloc: Global, holes: u32, pigeon: u32) -> Option<Literals> {
    let mut out = Literals::new(alloc);
    for hole in 0..holes {
        out.push(plus(pigeon.wrapping_mul(holes).wrapping_add(hole)))
            .ok()?;
    }
    Some(out)
}

/// Puts the clauses that no two of this pigeon and those before it sit in one hole.
fn put_apart(alloc: Global, out: &mut Vec<Literals>, holes: u32, pigeon: u32) -> Option<()> {
    for other in 0..pigeon {
        for hole in 0..holes {
            let one = minus(pigeon.wrapping_mul(holes).wrapping_add(hole));
            let two = minus(other.wrapping_mul(holes).wrapping_add(hole));
            out.push(Literals::copied(alloc, &[one, two]).ok()?).ok()?;
        }
    }
    Some(())
}

/// The clauses that say that so many pigeons sit in one hole fewer, each alone.
fn pigeon_clauses(alloc: Global, holes: u32) -> Option<Vec<Literals>> {
    let mut out = Vec::new(alloc);
    for pigeon in 0..=holes {
        out.push(pigeon_clause(alloc, holes, pigeon)?).ok()?;
        put_apart(alloc, &mut out, holes, pigeon)?;
    }
    Some(out)
}

/// Adds a clause, where it names nodes that it may name.
fn add(solver: &mut Solver, lits: &[Lit]) -> Option<()>
    ensures lemmas { solver.new.lemmas ≡ solver.old.lemmas }
    ensures scopes { solver.new.scopes ≡ solver.old.scopes }
{
    if !solver.can_add(lits) {
        return None;
    }
    let _ = solver.add_clause(lits).ok()?;
    Some(())
}

/// Adds these clauses.
fn add_all(solver: &mut Solver, clauses: &[Literals]) -> Option<()>
    ensures lemmas { solver.new.lemmas ≡ solver.old.lemmas }
    ensures scopes { solver.new.scopes ≡ solver.old.scopes }
{
    for clause in clauses {
        add(solver, clause.as_slice())?;
    }
    Some(())
}

/// Writes which value a node has in a model.
fn write_value(page: &mut Page, trail: &[Lit], node: u32) {
    page.say(if has(trail, plus(node)) {
        "model with +"
    } else if has(trail, minus(node)) {
        "model with -"
    } else {
        "model without "
    });
    page.number(u64::from(node));
}

/// Writes an answer.
fn write_outcome(page: &mut Page, wanted: Wanted, number: u32, outcome: &Outcome) {
    match (wanted, outcome) {
        (Wanted::Value, Outcome::Model(trail)) => write_value(page, trail.as_slice(), number),
        (_, Outcome::Model(_)) => page.say("model"),
        (Wanted::Steps, Outcome::Refuted(steps)) => {
            page.count("refuted in more than ", u64::from(number));
            page.say(" steps: ");
            page.answer(steps.len() as u64 > u64::from(number));
        }
        (_, Outcome::Refuted(_)) => page.say("refuted"),
    }
}

/// Solves within so many units.
fn solve<T: Theory>(solver: &mut Solver, theory: &mut T, units: u64) -> Result<Outcome, SearchStop>
    requires { AreListed (T.lemmas theory.old) solver.old.lemmas }
    ensures lemmas { AreListed (T.lemmas theory.new) solver.new.lemmas }
    ensures scopes { solver.new.scopes ≡ solver.old.scopes }
{
    solver.solve(theory, &mut Meter::new(units))
}

/// Writes an answer, or why there is none.
fn write_outcome_or(
    page: &mut Page,
    wanted: Wanted,
    number: u32,
    found: &Result<Outcome, SearchStop>,
) {
    match found {
        Ok(outcome) => write_outcome(page, wanted, number, outcome),
        Err(stop) => page.show(stop),
    }
}

/// Solves in a scope with these clauses.
fn in_scope<T: Theory>(
    solver: &mut Solver,
    theory: &mut T,
    units: u64,
    clauses: &[Literals],
) -> Option<Result<Outcome, SearchStop>>
    requires { AreListed (T.lemmas theory.old) solver.old.lemmas }
    ensures { AreListed (T.lemmas theory.new) solver.new.lemmas }
{
    solver.push_scope().ok()?;
    add_all(solver, clauses)?;
    let found = solve(solver, theory, units);
    solver.pop_scope();
    Some(found)
}

/// Adds the clauses that are left to read, and writes how many.
fn add_read(alloc: Global, solver: &mut Solver, words: &Words<'_>, page: &mut Page) -> Option<()>
    ensures { solver.new.lemmas ≡ solver.old.lemmas }
{
    let clauses = clauses(alloc, words)?;
    page.number(clauses.len() as u64);
    add_all(solver, clauses.as_slice())
}

/// Adds the clauses of pigeons, and writes how many.
fn add_pigeons(alloc: Global, solver: &mut Solver, holes: u32, page: &mut Page) -> Option<()>
    ensures { solver.new.lemmas ≡ solver.old.lemmas }
{
    let clauses = pigeon_clauses(alloc, holes)?;
    page.number(clauses.len() as u64);
    add_all(solver, clauses.as_slice())
}

/// Reads units and clauses, and solves in a scope with them.
fn solve_in_scope<T: Theory>(
    alloc: Global,
    solver: &mut Solver,
    theory: &mut T,
    words: &mut Words<'_>,
    page: &mut Page,
) -> Option<()>
    requires { AreListed (T.lemmas theory.old) solver.old.lemmas }
    ensures { AreListed (T.lemmas theory.new) solver.new.lemmas }
{
    let units = words.number()?;
    let clauses = clauses(alloc, words)?;
    let found = in_scope(solver, theory, units, clauses.as_slice())?;
    write_outcome_or(page, Wanted::Kind, 0, &found);
    Some(())
}

/// Reads units and a number, and solves.
fn solve_read<T: Theory>(
    solver: &mut Solver,
    theory: &mut T,
    wanted: Wanted,
    words: &mut Words<'_>,
    page: &mut Page,
) -> Option<()>
    requires { AreListed (T.lemmas theory.old) solver.old.lemmas }
    ensures { AreListed (T.lemmas theory.new) solver.new.lemmas }
{
    let units = words.number()?;
    let number = words.small().unwrap_or(0);
    let found = solve(solver, theory, units);
    write_outcome_or(page, wanted, number, &found);
    Some(())
}

/// Does a step on a formula.
fn step<T: Theory>(
    alloc: Global,
    solver: &mut Solver,
    theory: &mut T,
    words: &mut Words<'_>,
    page: &mut Page,
) -> Option<()>
    requires { AreListed (T.lemmas theory.old) solver.old.lemmas }
    ensures { AreListed (T.lemmas theory.new) solver.new.lemmas }
{
    match named(&VERBS, words.next()?)? {
        Verb::Add => add_read(alloc, solver, words, page),
        Verb::Pigeons => add_pigeons(alloc, solver, words.small()?, page),
        Verb::Scope => solve_in_scope(alloc, solver, theory, words, page),
        Verb::Solve(wanted) => solve_read(solver, theory, wanted, words, page),
    }
}

/// Does the steps on a formula.
fn with_theory<T: Theory + Drop>(
    alloc: Global,
    mut solver: Solver,
    mut theory: T,
    steps: &[&str],
    page: &mut Page,
) -> Option<()>
    requires { solver.lemmas ≡ [] }
{
    for text in steps {
        page.begin(text);
        let words = words_of(alloc, text)?;
        step(
            alloc,
            &mut solver,
            &mut theory,
            &mut Words::new(words.as_slice()),
            page,
        )?;
    }
    Some(())
}

/// A solver of clauses of so many nodes, at first of fewer.
fn grown(alloc: Global, first: u32, nodes: u32) -> Option<Solver>
    ensures { IfSome result (λ solver. solver.lemmas ≡ []) }
{
    if nodes < first {
        return None;
    }
    let mut solver = Solver::new(alloc, first).ok()?;
    solver.grow(nodes).ok()?;
    Some(solver)
}

/// The theories of formulas.
#[derive(Clone, Copy)]
enum Kind {
    Agreeing,
    NotBoth,
}

const KINDS: [(&str, Kind); 2] = [("agreeing", Kind::Agreeing), ("not-both", Kind::NotBoth)];

/// Begins a formula with no clause, and does the steps.
pub fn row(alloc: Global, words: &mut Words<'_>, steps: &[&str], page: &mut Page) -> Option<()> {
    let kind = named(&KINDS, words.next()?)?;
    let first = words.small()?;
    let solver = grown(alloc, first, words.small()?)?;
    page.say("begun");
    match kind {
        Kind::Agreeing => with_theory(alloc, solver, Agreeing, steps, page),
        Kind::NotBoth => with_theory(alloc, solver, NotBoth { alloc }, steps, page),
    }
}
