//! Terms word by word, with what is around a word on a stack.
ghost use Rattle.std.specs.Prelude.{◌≡◌, ◌<◌, ◌≤◌, ◌^◌, ◌-◌, ◌+◌, List, ℕ, drop, IfOk, OnOk, OnErr};
ghost use Rattle.ffc_words.specs.Words.{word_at};
ghost use Rattle.ffc_terms.specs.Slots.{slot_of};
ghost use Rattle.ffc_terms.specs.Walking as walking;
ghost use Rattle.ffc_terms.specs.Walking.{AreFramesBelow, IsBelow, IsStageBelow, Moves, Steps};

use crate::callees::{Callee, Parts};
use crate::codes::Op;
use crate::environment::Names;
use crate::frames::{Frame, Frames, Place, Stage, place_at};
use crate::leaves::{Head, constant, head_at, leaf_at};
use crate::named_words::name_at;
use crate::scope::Symbols;
use crate::sorts::{SortStage, SortStep, sort_step};
use crate::values::Value;
use ffc_lex::{TokenKind, is_theory_symbol};
use ffc_parts::{Signed, residue_of};
use ffc_term::Sort;
use ffc_words::{FaultCode, FormWords, TakeStop};
use std::alloc::{AllocError, Global};
use std::marker::Model;

/// What is read, and in which scope.
#[derive(Drop)]
pub(crate) struct Reader<'a> {
    pub(crate) alloc: Global,
    pub(crate) words: &'a FormWords<'a>,
    pub(crate) symbols: &'a Symbols,
    /// The greatest height of a term.
    pub(crate) limit: u32,
}

/// The place in a term that reading has reached.
#[derive(Drop)]
pub(crate) struct Walk {
    pub(crate) stage: Stage,
    pub(crate) frames: Frames,
    pub(crate) code: Vec<Op>,
    pub(crate) locals: Names<Sort>,
    pub(crate) pending: Names<Sort>,
}

impl Model for Walk {
    ghost use Rattle.ffc_terms.specs.Walking.{Walking};

    ghost Value = { Walking };

    ghost view = { λ w. record {
      stage = w.stage;
      frames = w.frames;
      code = w.code.items;
      locals = w.locals;
      pending = w.pending;
    } };
}

/// The last names of the one become names of the other, the last one first.
fn move_last(
    alloc: Global,
    from: &mut Names<Sort>,
    onto: &mut Names<Sort>,
    count: usize,
) -> Result<(), AllocError>
    ensures { OnOk result ((from.new, onto.new) ≡ walking.moved count from.old onto.old) }
{
    for _ in 0..count {
        match from.pop() {
            Some((name, sort)) => onto.push(alloc, name, sort)?,
            None => return Ok(()),
        }
    }
    Ok(())
}

/// The residue of a number, where the order is not 0.
fn residue_or(n: Signed, p: u64) -> u64
    ensures { result ≡ walking.residue_or n p }
{
    if p == 0 { 0 } else { residue_of(n, p) }
}

impl Walk {
    /// Before a term in which these local variables are in scope.
    pub(crate) fn new(alloc: Global, locals: Names<Sort>) -> Walk
        ensures { result ≡ walking.first_walking locals }
    {
        Walk {
            stage: Stage::Term,
            frames: Frames::new(alloc),
            code: Vec::new(alloc),
            locals,
            pending: Names::new(alloc),
        }
    }

    /// The code so far.
    pub(crate) fn into_code(self) -> Vec<Op>
        ensures { result.items ≡ self.code }
    {
        let Walk { code, .. } = self;
        code
    }

    /// A term is complete.
    #[tactic(auto, unfolding(crate::specs::Walking::given))]
    fn give(&mut self, reader: &Reader, value: Value) -> Result<Option<Value>, TakeStop>
        requires { AreFramesBelow (2 ^ 64 - 2) self.old.frames }
        ensures { Steps (walking.given reader.now.limit reader.now.symbols.now value self.old) result self.new }
    {
        match self.frames.pop() {
            None => Ok(Some(value)),
            Some(Frame::Call(place, callee, parts)) => {
                if !callee.wanted(reader.symbols, parts).allows(value.sort) {
                    return Err(TakeStop::Fault(value.place.fault(FaultCode::Sort)));
                }
                let parts = parts.with(value.sort, value.height, value.weight);
                self.frames.push(Frame::Call(place, callee, parts))?;
                self.stage = Stage::Term;
                Ok(None)
            }
            Some(Frame::Value(place, parts)) => {
                self.pending.set_last(value.sort);
                let parts = parts.with(value.sort, value.height, value.weight);
                self.stage = Stage::Bound(place, parts);
                Ok(None)
            }
            Some(Frame::Body(place, parts)) => {
                let parts = parts.with_body(value.height, value.weight);
                self.stage = Stage::End(place, parts, value.sort);
                Ok(None)
            }
        }
    }

    /// A term in parentheses, of parts of this height and this weight, is complete.
    #[tactic(auto, unfolding(crate::specs::Walking::ended))]
    fn end(
        &mut self,
        reader: &Reader,
        place: Place,
        sort: Sort,
        height: u32,
        weight: u32,
        op: Op,
    ) -> Result<Option<Value>, TakeStop>
        requires { AreFramesBelow (2 ^ 64 - 2) self.old.frames }
        ensures { Steps (walking.ended reader.now.limit reader.now.symbols.now place sort (height + 1)
            (walking.plus_one weight) op self.old) result self.new }
    {
        if height >= reader.limit {
            return Err(TakeStop::Fault(place.fault(FaultCode::Depth)));
        }
        self.code.push(op)?;
        let value = Value {
            place,
            sort,
            height: height + 1,
            weight: weight.saturating_add(1),
        };
        self.give(reader, value)
    }

    /// A parenthesis that closes a call.
    #[tactic(auto, unfolding(crate::specs::Walking::closed))]
    fn close(&mut self, reader: &Reader, at: usize) -> Result<Option<Value>, TakeStop>
        requires { AreFramesBelow (2 ^ 64 - 2) self.old.frames }
        ensures { Steps (walking.closed reader.now.limit reader.now.symbols.now (word_at reader.now.words.now at)
            self.old self.old.frames) result self.new }
    {
        match self.frames.pop() {
            Some(Frame::Call(place, callee, parts)) => {
                if parts.count < callee.least(reader.symbols) {
                    return Err(TakeStop::Fault(reader.words.fault(FaultCode::Shape, at)));
                }
                let (height, weight) = callee.body(reader.symbols);
                let sort = callee.result_sort(reader.symbols, parts);
                let op = callee.op(parts.count);
                let parts = parts.with_body(height, weight);
                self.end(reader, place, sort, parts.height, parts.weight, op)
            }
            None | Some(Frame::Value(..) | Frame::Body(..)) => {
                Err(TakeStop::Fault(reader.words.fault(FaultCode::Shape, at)))
            }
        }
    }

    /// Whether no further argument is taken.
    fn takes_none(&self, reader: &Reader) -> bool
        ensures { result ≡ walking.takes_none reader.now.limit reader.now.symbols.now self.now.frames }
    {
        match self.frames.last() {
            Some(Frame::Call(_, callee, parts)) => callee.is_full(reader.symbols, parts.count),
            None | Some(Frame::Value(..) | Frame::Body(..)) => false,
        }
    }

    /// A term of one word.
    #[tactic(auto, unfolding(crate::specs::Walking::leaf_at))]
    fn leaf(&mut self, reader: &Reader, at: usize) -> Result<Option<Value>, TakeStop>
        requires { AreFramesBelow (2 ^ 64 - 2) self.old.frames }
        ensures { Steps (walking.leaf_at reader.now.limit reader.now.symbols.now (word_at reader.now.words.now at)
            self.old) result self.new }
    {
        let leaf = match leaf_at(reader.symbols, &self.locals, reader.words, at) {
            Ok(leaf) => leaf,
            Err(fault) => return Err(TakeStop::Fault(fault)),
        };
        self.code.push(leaf.op)?;
        let value = Value {
            place: place_at(reader.words, at),
            sort: leaf.sort,
            height: 0,
            weight: 1,
        };
        self.give(reader, value)
    }

    /// A word where a term begins or a call ends.
    #[tactic(auto, unfolding(crate::specs::Walking::term_step))]
    fn term(&mut self, reader: &Reader, at: usize) -> Result<Option<Value>, TakeStop>
        requires { AreFramesBelow (2 ^ 64 - 2) self.old.frames }
        ensures { Steps (walking.term_step reader.now.limit reader.now.symbols.now (word_at reader.now.words.now at)
            self.old) result self.new }
    {
        let kind = reader.words.kind(at);
        if kind == TokenKind::RightParen {
            return self.close(reader, at);
        }
        if self.takes_none(reader) {
            return Err(TakeStop::Fault(reader.words.fault(FaultCode::Shape, at)));
        }
        if kind == TokenKind::LeftParen {
            self.stage = Stage::Head(place_at(reader.words, at));
            return Ok(None);
        }
        self.leaf(reader, at)
    }

    /// The word after the parenthesis that opens a term.
    #[tactic(auto, unfolding(crate::specs::Walking::head_step))]
    fn head(&mut self, reader: &Reader, place: Place, at: usize) -> Result<(), TakeStop>
        ensures { Moves (walking.head_step reader.now.limit reader.now.symbols.now place
            (word_at reader.now.words.now at) self.old) result self.new }
    {
        match head_at(reader.symbols, &self.locals, reader.words, at) {
            Ok(Head::Let) => self.stage = Stage::Let(place),
            Ok(Head::As) => self.stage = Stage::Constant(place),
            Ok(Head::Callee(callee)) => {
                self.frames.push(Frame::Call(place, callee, Parts::none()))?;
                self.stage = Stage::Term;
            }
            Err(fault) => return Err(TakeStop::Fault(fault)),
        }
        Ok(())
    }

    /// The variables of a `let` begin to hold, and its body is next.
    #[tactic(auto, unfolding(crate::specs::Walking::bound))]
    fn bind(&mut self, reader: &Reader, place: Place, parts: Parts) -> Result<(), AllocError>
        ensures { OnOk result (self.new ≡ walking.bound reader.now.limit reader.now.symbols.now place parts self.old) }
    {
        move_last(
            reader.alloc,
            &mut self.pending,
            &mut self.locals,
            parts.count,
        )?;
        self.code.push(Op::Bind(parts.count))?;
        self.frames.push(Frame::Body(place, parts))?;
        self.stage = Stage::Term;
        Ok(())
    }

    /// A word where a variable with its term begins, or the list of these ends.
    #[tactic(auto, unfolding(crate::specs::Walking::bindings_step))]
    fn bindings(
        &mut self,
        reader: &Reader,
        place: Place,
        parts: Parts,
        at: usize,
    ) -> Result<(), TakeStop>
        ensures { Moves (walking.bindings_step reader.now.limit reader.now.symbols.now place parts
            (word_at reader.now.words.now at) self.old) result self.new }
    {
        match reader.words.kind(at) {
            TokenKind::LeftParen => {
                self.stage = Stage::Variable(place, parts);
                Ok(())
            }
            TokenKind::RightParen => {
                if parts.count == 0 {
                    return Err(TakeStop::Fault(reader.words.fault(FaultCode::Shape, at)));
                }
                self.bind(reader, place, parts)?;
                Ok(())
            }
            _ => Err(TakeStop::Fault(reader.words.fault(FaultCode::Shape, at))),
        }
    }

    /// Whether one of the last names of variables is this one.
    fn is_late(&self, count: usize, name: &[u8]) -> bool
        ensures { result ≡ walking.is_late count self.now.pending (slot_of self.now.pending name.now) }
    {
        match self.pending.find(name) {
            Some(slot) => self.pending.len().saturating_sub(slot) <= count,
            None => false,
        }
    }

    /// The name of a variable.
    #[tactic(auto, unfolding(crate::specs::Walking::variable_step))]
    fn variable(
        &mut self,
        reader: &Reader,
        place: Place,
        parts: Parts,
        at: usize,
    ) -> Result<(), TakeStop>
        ensures { Moves (walking.variable_step reader.now.limit reader.now.symbols.now place parts
            (word_at reader.now.words.now at) self.old) result self.new }
    {
        let Some(name) = name_at(reader.words, at) else {
            return Err(TakeStop::Fault(reader.words.fault(FaultCode::Shape, at)));
        };
        if is_theory_symbol(name) || self.is_late(parts.count, name) {
            return Err(TakeStop::Fault(reader.words.fault(FaultCode::Twice, at)));
        }
        let name = Vec::from_slice(reader.alloc, name)?;
        self.pending.push(reader.alloc, name, Sort::Bool)?;
        self.frames.push(Frame::Value(place, parts))?;
        self.stage = Stage::Term;
        Ok(())
    }

    /// So many local variables end.
    fn unbind(&mut self, count: usize)
        ensures { self.new ≡ record self.old { locals = drop count self.old.locals } }
    {
        let len = self.locals.len();
        self.locals.cut(len.saturating_sub(count));
    }

    /// The parenthesis that closes a `let`.
    #[tactic(auto, unfolding(crate::specs::Walking::end_step))]
    fn end_let(
        &mut self,
        reader: &Reader,
        place: Place,
        parts: Parts,
        sort: Sort,
        at: usize,
    ) -> Result<Option<Value>, TakeStop>
        requires { AreFramesBelow (2 ^ 64 - 2) self.old.frames }
        ensures { Steps (walking.end_step reader.now.limit reader.now.symbols.now place parts sort
            (word_at reader.now.words.now at) self.old) result self.new }
    {
        if reader.words.kind(at) != TokenKind::RightParen {
            return Err(TakeStop::Fault(reader.words.fault(FaultCode::Shape, at)));
        }
        self.unbind(parts.count);
        self.end(
            reader,
            place,
            sort,
            parts.height,
            parts.weight,
            Op::Unbind(parts.count),
        )
    }

    /// The W of `(as W S)`.
    #[tactic(auto, unfolding(crate::specs::Walking::constant_step))]
    fn constant(&mut self, reader: &Reader, place: Place, at: usize) -> Result<(), TakeStop>
        ensures { Moves (walking.constant_step reader.now.limit reader.now.symbols.now place
            (word_at reader.now.words.now at) self.old) result self.new }
    {
        match constant(reader.words, at) {
            Ok(n) => {
                self.stage = Stage::SortStart(place, n);
                Ok(())
            }
            Err(fault) => Err(TakeStop::Fault(fault)),
        }
    }

    /// A word of the S of `(as W S)`, which begins at the second place.
    #[tactic(auto, unfolding(crate::specs::Walking::sort_word))]
    fn sort(
        &mut self,
        reader: &Reader,
        place: Place,
        n: Signed,
        front: Place,
        stage: SortStage,
        at: usize,
    ) -> Result<(), TakeStop>
        ensures { Moves (walking.sort_word reader.now.limit reader.now.symbols.now place n front stage
            (word_at reader.now.words.now at) self.old) result self.new }
    {
        match sort_step(&reader.symbols.sorts, reader.words, at, stage) {
            Ok(SortStep::More(next)) => {
                self.stage = Stage::SortMore(place, n, front, next);
                Ok(())
            }
            Ok(SortStep::Whole(Sort::Field(p))) => {
                self.stage = Stage::Close(place, n, p);
                Ok(())
            }
            Ok(SortStep::Whole(Sort::Bool)) => Err(TakeStop::Fault(front.fault(FaultCode::Sort))),
            Err(fault) => Err(TakeStop::Fault(fault)),
        }
    }

    /// The parenthesis that closes `(as W S)`.
    #[tactic(auto, unfolding(crate::specs::Walking::close_step))]
    fn close_constant(
        &mut self,
        reader: &Reader,
        place: Place,
        n: Signed,
        p: u64,
        at: usize,
    ) -> Result<Option<Value>, TakeStop>
        requires { AreFramesBelow (2 ^ 64 - 2) self.old.frames }
        ensures { Steps (walking.close_step reader.now.limit reader.now.symbols.now place n p
            (word_at reader.now.words.now at) self.old) result self.new }
    {
        if reader.words.kind(at) != TokenKind::RightParen {
            return Err(TakeStop::Fault(reader.words.fault(FaultCode::Shape, at)));
        }
        self.code.push(Op::Number(residue_or(n, p), p))?;
        let value = Value {
            place,
            sort: Sort::Field(p),
            height: 0,
            weight: 1,
        };
        self.give(reader, value)
    }

    /// The parenthesis that opens the list of variables.
    #[tactic(auto, unfolding(crate::specs::Walking::open_step))]
    fn open_list(&mut self, reader: &Reader, place: Place, at: usize) -> Result<(), TakeStop>
        ensures { Moves (walking.open_step reader.now.limit reader.now.symbols.now place
            (word_at reader.now.words.now at) self.old) result self.new }
    {
        if reader.words.kind(at) != TokenKind::LeftParen {
            return Err(TakeStop::Fault(reader.words.fault(FaultCode::Shape, at)));
        }
        self.stage = Stage::Bindings(place, Parts::none());
        Ok(())
    }

    /// The parenthesis that closes a variable with its term.
    #[tactic(auto, unfolding(crate::specs::Walking::bound_step))]
    fn close_pair(
        &mut self,
        reader: &Reader,
        place: Place,
        parts: Parts,
        at: usize,
    ) -> Result<(), TakeStop>
        ensures { Moves (walking.bound_step reader.now.limit reader.now.symbols.now place parts
            (word_at reader.now.words.now at) self.old) result self.new }
    {
        if reader.words.kind(at) != TokenKind::RightParen {
            return Err(TakeStop::Fault(reader.words.fault(FaultCode::Shape, at)));
        }
        self.stage = Stage::Bindings(place, parts);
        Ok(())
    }

    /// Takes a word. It gives the outermost term where that is complete.
    pub(crate) fn step(&mut self, reader: &Reader, at: usize) -> Result<Option<Value>, TakeStop>
        requires { IsBelow (2 ^ 64 - 2) self.old }
        ensures { Steps (walking.step reader.now.limit reader.now.symbols.now (word_at reader.now.words.now at)
            self.old) result self.new }
    {
        match self.stage {
            Stage::Term => return self.term(reader, at),
            Stage::End(place, parts, sort) => return self.end_let(reader, place, parts, sort, at),
            Stage::Close(place, n, p) => return self.close_constant(reader, place, n, p, at),
            Stage::Head(place) => self.head(reader, place, at)?,
            Stage::Let(place) => self.open_list(reader, place, at)?,
            Stage::Bindings(place, parts) => self.bindings(reader, place, parts, at)?,
            Stage::Variable(place, parts) => self.variable(reader, place, parts, at)?,
            Stage::Bound(place, parts) => self.close_pair(reader, place, parts, at)?,
            Stage::Constant(place) => self.constant(reader, place, at)?,
            Stage::SortStart(place, n) => {
                let front = place_at(reader.words, at);
                self.sort(reader, place, n, front, SortStage::Start, at)?
            }
            Stage::SortMore(place, n, front, stage) => {
                self.sort(reader, place, n, front, stage, at)?
            }
        }
        Ok(None)
    }
}
