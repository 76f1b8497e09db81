//! Interns the nodes of terms, operation by operation, on stacks of its own.
ghost use Rattle.std.specs.Prelude.{◌≡◌, ◌<◌, ◌≤◌, ◌+◌, ◌++◌, ◌∷◌, [], ℕ, suc, List, length, map, reverse, slice_get, OnOk};
ghost use Rattle.std.specs.Prelude.{Some, None};
ghost use Rattle.ffc_term.specs.declared.node.Node.{Node};
ghost use Rattle.ffc_term.specs.Tables.{Fits, IsNumbered, IsFieldIte, IsTable};
ghost use Rattle.ffc_smt.specs.Making as nodes_of;
ghost use Rattle.ffc_smt.specs.Making.{Made};
ghost use Rattle.ffc_smt.specs.Terms.{Term};
ghost use Rattle.ffc_parts.specs.Growing.{Makes};
ghost use Rattle.ffc_parts.specs.Operators.{operator_of};
ghost use Rattle.ffc_terms.specs.Slots.{at_slot};
ghost use Rattle.ffc_terms.specs.declared.scope.Macro.{Macro};
ghost use Rattle.ffc_terms.specs.declared.scope.Meaning.{Meaning};
ghost use Rattle.ffc_terms.specs.declared.scope.Meaning.TheVariants as meaning;
ghost use Rattle.ffc_smt.specs.Meaning.{Env};
ghost use Rattle.ffc_making.specs.Machine as machine;
ghost use Rattle.ffc_making.specs.Machine.{Acts, AreLast, CanAct, CanApply, CanEnd, CanGo, CanRun, GoesOn, IsCodeOf};
ghost use Rattle.ffc_making.specs.Machine.{IsMacroAt, Puts, Runs, Steps, Takes};

use ffc_parts::{Operator, apply, put};
use ffc_term::{Node, NodeId, NodeTable, TermStop};
use ffc_terms::{Op, Symbols};
use std::alloc::{AllocError, Global};
use std::marker::Model;

/// Where the walk goes on after the code of a macro, and where the local variables begin there.
#[derive(Drop)]
struct Return<'a> {
    rest: &'a [Op],
    base: usize,
}

/// What is being made.
#[derive(Drop)]
struct Maker<'a> {
    /// The operations to come.
    rest: &'a [Op],
    /// Where the local variables begin.
    base: usize,
    calls: Vec<Return<'a>>,
    /// The nodes that wait to be taken.
    stack: Vec<NodeId>,
    locals: Vec<NodeId>,
}

impl<'a> Model for Maker<'a> {
    ghost use Rattle.std.specs.Prelude.{map};
    ghost use Rattle.ffc_making.specs.Machine.{Making, making, saved};

    ghost Value = { Making };

    ghost view = { λ m. making m.rest.now m.base (map (λ c. saved c.rest.now c.base) m.calls.items) m.stack.items
        m.locals.items };
}

/// The last of these nodes become local variables, the last of them first.
fn move_last(
    stack: &mut Vec<NodeId>,
    locals: &mut Vec<NodeId>,
    count: usize,
) -> Result<(), AllocError>
    ensures { OnOk result ((kept ids : List ℕ) → AreLast stack.old.items kept ids count → (stack.new.items ≡ kept)
        × (locals.new.items ≡ locals.old.items ++ reverse ids)) }
{
    for _ in 0..count {
        match stack.pop() {
            Some(id) => locals.push(id)?,
            None => return Ok(()),
        }
    }
    Ok(())
}

impl<'a> Maker<'a> {
    /// Before the operations of this code.
    fn new(alloc: Global, code: &'a [Op]) -> Maker<'a>
        ensures { result ≡ machine.making code.now 0 [] [] [] }
    {
        Maker {
            rest: code,
            base: 0,
            calls: Vec::new(alloc),
            stack: Vec::new(alloc),
            locals: Vec::new(alloc),
        }
    }

    /// The next operation, where there is one.
    fn next(&mut self) -> Option<Op>
        ensures { Takes self.old self.new result }
    {
        if self.rest.is_empty() {
            return None;
        }
        let op = self.rest[0];
        self.rest = &self.rest[1..];
        Some(op)
    }

    /// The code ends: that of a macro, or that of the whole term.
    fn end(&mut self) -> Result<Option<NodeId>, TermStop>
        requires { CanEnd self.old }
        ensures { (n : ℕ) (symbols : Env Meaning) (wanted : Made) (nodes : List Node) → IsTable nodes → self.old.rest
            ≡ [] → GoesOn (suc n) symbols wanted nodes self.old → Steps n symbols wanted nodes nodes self.new result }
    {
        match self.calls.pop() {
            None => match self.stack.pop() {
                Some(id) => Ok(Some(id)),
                None => unreachable!(),
            },
            Some(last) => {
                self.locals.truncate(self.base);
                self.rest = last.rest;
                self.base = last.base;
                Ok(None)
            }
        }
    }

    /// A node is put where it is new, and waits.
    fn put_new(&mut self, table: &mut NodeTable, node: Node) -> Result<(), TermStop>
        requires fits { Fits table.old node }
        requires plain { ¬ (IsFieldIte node) }
        requires numbered { IsNumbered table.old node }
        ensures { Puts table.old table.new (nodes_of.interned table.old node)
            (machine.waiting self.old.rest (nodes_of.interned table.old node).id self.old) self.new result }
    {
        let id = put(table, node)?;
        self.stack.push(id)?;
        Ok(())
    }

    /// A local variable's node waits.
    fn fetch(&mut self, slot: usize) -> Result<(), AllocError>
        requires { self.old.base + slot < length self.old.locals }
        ensures { OnOk result ((id : ℕ) → slice_get self.old.locals (self.old.base + slot) ≡ Some id → self.new
            ≡ machine.waiting self.old.rest id self.old) }
    {
        let id = self.locals[self.base + slot];
        self.stack.push(id)?;
        Ok(())
    }

    /// The last nodes are a function's arguments, and its node waits.
    fn apply_last(
        &mut self,
        alloc: Global,
        table: &mut NodeTable,
        f: Operator,
        count: usize,
    ) -> Result<(), TermStop>
        requires { CanApply table.old self.old.stack f count }
        ensures { (kept ids : List ℕ) → AreLast self.old.stack kept ids count
            → Puts table.old table.new (nodes_of.applied_made (operator_of f) table.old ids)
            (machine.making self.old.rest self.old.base self.old.calls
            (kept ++ (nodes_of.applied_made (operator_of f) table.old ids).id ∷ []) self.old.locals) self.new result }
    {
        let first = self.stack.len() - count;
        let id = apply(table, alloc, f, &self.stack[first..])?;
        self.stack.truncate(first);
        self.stack.push(id)?;
        Ok(())
    }

    /// The last nodes become local variables.
    fn bind(&mut self, count: usize) -> Result<(), AllocError>
        ensures { OnOk result ((kept ids : List ℕ) → AreLast self.old.stack kept ids count
            → self.new ≡ machine.making self.old.rest self.old.base self.old.calls kept
            (self.old.locals ++ reverse ids)) }
    {
        move_last(&mut self.stack, &mut self.locals, count)
    }

    /// The last local variables end.
    fn unbind(&mut self, count: usize)
        ensures { (kept gone : List ℕ) → AreLast self.old.locals kept gone count
            → self.new ≡ machine.making self.old.rest self.old.base self.old.calls self.old.stack kept }
    {
        let len = self.locals.len();
        self.locals.truncate(len.saturating_sub(count));
    }

    /// A macro's code comes next, with the last nodes as its parameters.
    fn call(&mut self, symbols: &'a Symbols, place: usize, count: usize) -> Result<(), AllocError>
        requires { IsMacroAt symbols.now.terms place }
        ensures { OnOk result ((callee : Macro) (kept ids : List ℕ) → at_slot (map (λ x. x.1) symbols.now.terms) place
            ≡ Some (meaning.Macro callee) → AreLast self.old.stack kept ids count
            → self.new ≡ machine.making callee.code.items (length self.old.locals)
            (self.old.calls ++ machine.saved self.old.rest self.old.base ∷ []) kept (self.old.locals ++ reverse ids)) }
    {
        let Some(callee) = symbols.macro_at(place) else {
            unreachable!();
        };
        self.calls.push(Return {
            rest: self.rest,
            base: self.base,
        })?;
        self.base = self.locals.len();
        self.rest = &callee.code;
        move_last(&mut self.stack, &mut self.locals, count)
    }

    /// This operation, which stood before those to come.
    fn act(
        &mut self,
        alloc: Global,
        table: &mut NodeTable,
        symbols: &'a Symbols,
        op: Op,
    ) -> Result<(), TermStop>
        requires { CanAct symbols.now.terms table.old self.old op }
        ensures { (n : ℕ) (wanted : Made) → machine.Goes (GoesOn n symbols.now.terms wanted) symbols.now.terms wanted
            table.old self.old (op ∷ self.old.rest)
            → Acts n symbols.now.terms wanted table.old table.new self.new result }
    {
        let _before = table.len();
        match op {
            Op::Truth(true) => self.put_new(table, Node::True),
            Op::Truth(false) => self.put_new(table, Node::False),
            Op::Number(n, p) => self.put_new(table, Node::Num(n, p)),
            Op::Known(id) => {
                self.stack.push(id)?;
                Ok(())
            }
            Op::Local(slot) => {
                self.fetch(slot)?;
                Ok(())
            }
            Op::Apply(f, count) => self.apply_last(alloc, table, f, count),
            Op::Bind(count) => {
                self.bind(count)?;
                Ok(())
            }
            Op::Unbind(count) => {
                self.unbind(count);
                Ok(())
            }
            Op::Call(place, count) => {
                self.call(symbols, place, count)?;
                Ok(())
            }
        }
    }

    /// The next operation, or the end of the code.
    fn step(
        &mut self,
        alloc: Global,
        table: &mut NodeTable,
        symbols: &'a Symbols,
    ) -> Result<Option<NodeId>, TermStop>
        requires { CanGo symbols.now.terms table.old self.old }
        ensures { (n : ℕ) (wanted : Made) → GoesOn (suc n) symbols.now.terms wanted table.old self.old
            → Steps n symbols.now.terms wanted table.old table.new self.new result }
    {
        let _before = table.len();
        match self.next() {
            None => self.end(),
            Some(op) => match self.act(alloc, table, symbols, op) {
                Ok(()) => Ok(None),
                Err(stop) => Err(stop),
            },
        }
    }

    /// Up to so many steps, which are enough to reach the end.
    fn run(
        &mut self,
        alloc: Global,
        table: &mut NodeTable,
        symbols: &'a Symbols,
        steps: u64,
    ) -> Result<Option<NodeId>, TermStop>
        requires { CanRun symbols.now.terms table.old self.old steps }
        ensures { (n : ℕ) (wanted : Made) → n ≤ steps → GoesOn n symbols.now.terms wanted table.old self.old
            → Runs wanted table.old table.new result }
    {
        let _before = table.len();
        for _ in 0..steps {
            match self.step(alloc, table, symbols) {
                Ok(None) => {}
                Ok(Some(id)) => return Ok(Some(id)),
                Err(stop) => return Err(stop),
            }
        }
        Ok(None)
    }
}

/// Makes the nodes of a term: each operation of its code, and of the macros that it calls, in turn. The answer is the term's
/// node. No term with this code may weigh more than the limit: it takes at most one step more than twice its weight.
///
/// Macros are on a stack of its own, and not on the stack of calls.
pub fn make(
    alloc: Global,
    table: &mut NodeTable,
    symbols: &Symbols,
    code: &[Op],
    limit: u32,
) -> Result<NodeId, TermStop>
    requires { (t : Term) × IsCodeOf table.old symbols.now.terms t limit code.now }
    ensures { (t : Term) → IsCodeOf table.old symbols.now.terms t limit code.now
        → Makes table.old table.new (nodes_of.made [] table.old t) result }
{
    let mut maker = Maker::new(alloc, code);
    match maker.run(alloc, table, symbols, 2 * (limit as u64) + 1) {
        Ok(Some(id)) => Ok(id),
        // The steps are enough.
        Ok(None) => unreachable!(),
        Err(stop) => Err(stop),
    }
}
