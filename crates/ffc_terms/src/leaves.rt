//! Terms of one word, and the words that a term in parentheses may begin with.
ghost use Rattle.std.specs.Prelude.{◌≡◌};
ghost use Rattle.ffc_words.specs.Words.{word_at};
ghost use Rattle.ffc_terms.specs.Answers.{answered};
ghost use Rattle.ffc_terms.specs.Leaves as leaves;

use crate::callees::Callee;
use crate::codes::Op;
use crate::environment::Names;
use crate::named_words::{is_word, name_at};
use crate::scope::{Meaning, Symbols};
use ffc_lex::{TokenKind, is_theory_symbol};
use ffc_parts::{Signed, constant_of, literal_number, literal_order, operator_named, residue_of};
use ffc_term::Sort;
use ffc_words::{FaultCode, FormWords, ScriptFault};

/// A term of one word: its code, and its sort.
#[derive(Clone, Copy, PartialEq, Eq)]
pub(crate) struct Leaf {
    pub(crate) op: Op,
    pub(crate) sort: Sort,
}

/// What is at the head of a term in parentheses.
#[derive(Clone, Copy, PartialEq, Eq)]
pub(crate) enum Head {
    Let,
    As,
    Callee(Callee),
}

/// `#fNmP`
fn literal(words: &FormWords, at: usize) -> Result<Leaf, ScriptFault>
    ensures { answered result ≡ leaves.literal (word_at words.now at) }
{
    let Some(p) = literal_order(words.bytes(at)) else {
        return Err(words.fault(FaultCode::Modulus, at));
    };
    match literal_number(words.bytes(at)) {
        Some(n) => Ok(Leaf {
            op: Op::Number(residue_of(n, p), p),
            sort: Sort::Field(p),
        }),
        None => Err(words.fault(FaultCode::Number, at)),
    }
}

/// What a name in scope means, without arguments.
fn global(symbols: &Symbols, words: &FormWords, at: usize, name: &[u8]) -> Result<Leaf, ScriptFault>
    ensures { answered result ≡ leaves.global symbols.now (word_at words.now at) name.now }
{
    match symbols.terms.get(name) {
        None => Err(words.fault(FaultCode::Name, at)),
        Some(Meaning::Constant(_, sort, node)) => Ok(Leaf {
            op: Op::Known(*node),
            sort: *sort,
        }),
        Some(Meaning::Defined(sort, node)) => Ok(Leaf {
            op: Op::Known(*node),
            sort: *sort,
        }),
        Some(Meaning::Macro(_)) => Err(words.fault(FaultCode::Shape, at)),
    }
}

/// A name as a term.
fn named(
    symbols: &Symbols,
    locals: &Names<Sort>,
    words: &FormWords,
    at: usize,
) -> Result<Leaf, ScriptFault>
    ensures { answered result ≡ leaves.named symbols.now locals.now (word_at words.now at) }
{
    let Some(name) = name_at(words, at) else {
        return Err(words.fault(FaultCode::Shape, at));
    };
    if name == b"true".as_slice() {
        return Ok(Leaf {
            op: Op::Truth(true),
            sort: Sort::Bool,
        });
    }
    if name == b"false".as_slice() {
        return Ok(Leaf {
            op: Op::Truth(false),
            sort: Sort::Bool,
        });
    }
    if is_theory_symbol(name) {
        return Err(words.fault(FaultCode::Shape, at));
    }
    match locals.locate(name) {
        Some((slot, sort)) => Ok(Leaf {
            op: Op::Local(slot),
            sort: *sort,
        }),
        None => global(symbols, words, at, name),
    }
}

/// A term of one word.
#[tactic(auto, unfolding(crate::specs::Leaves::leaf))]
pub(crate) fn leaf_at(
    symbols: &Symbols,
    locals: &Names<Sort>,
    words: &FormWords,
    at: usize,
) -> Result<Leaf, ScriptFault>
    ensures { answered result ≡ leaves.leaf symbols.now locals.now (word_at words.now at) }
{
    if words.kind(at) == TokenKind::FieldLiteral {
        literal(words, at)
    } else {
        named(symbols, locals, words, at)
    }
}

/// What a name in scope is as a head.
fn global_head(
    symbols: &Symbols,
    words: &FormWords,
    at: usize,
    name: &[u8],
) -> Result<Head, ScriptFault>
    ensures { answered result ≡ leaves.global_head symbols.now (word_at words.now at) name.now }
{
    match symbols.terms.locate(name) {
        None => Err(words.fault(FaultCode::Name, at)),
        Some((place, Meaning::Macro(_))) => Ok(Head::Callee(Callee::Macro(place))),
        Some((_, Meaning::Constant(..) | Meaning::Defined(..))) => Err(words.fault(
            FaultCode::Shape,
            at,
        )),
    }
}

/// What a name is as a head.
fn named_head(
    symbols: &Symbols,
    locals: &Names<Sort>,
    words: &FormWords,
    at: usize,
    name: &[u8],
) -> Result<Head, ScriptFault>
    ensures { answered result ≡ leaves.named_head symbols.now locals.now (word_at words.now at) name.now }
{
    if let Some(op) = operator_named(name) {
        return Ok(Head::Callee(Callee::Function(op)));
    }
    if is_theory_symbol(name) || locals.find(name).is_some() {
        return Err(words.fault(FaultCode::Shape, at));
    }
    global_head(symbols, words, at, name)
}

/// The word after the parenthesis that opens a term.
#[tactic(auto, unfolding(crate::specs::Leaves::head))]
pub(crate) fn head_at(
    symbols: &Symbols,
    locals: &Names<Sort>,
    words: &FormWords,
    at: usize,
) -> Result<Head, ScriptFault>
    ensures { answered result ≡ leaves.head symbols.now locals.now (word_at words.now at) }
{
    if is_word(words, at, b"let") {
        return Ok(Head::Let);
    }
    if is_word(words, at, b"as") {
        return Ok(Head::As);
    }
    match name_at(words, at) {
        None => Err(words.fault(FaultCode::Shape, at)),
        Some(name) => named_head(symbols, locals, words, at, name),
    }
}

/// The W of `(as W S)`.
#[tactic(auto, unfolding(crate::specs::Leaves::constant))]
pub(crate) fn constant(words: &FormWords, at: usize) -> Result<Signed, ScriptFault>
    ensures { answered result ≡ leaves.constant (word_at words.now at) }
{
    let Some(name) = name_at(words, at) else {
        return Err(words.fault(FaultCode::Shape, at));
    };
    match constant_of(name) {
        Some(n) => Ok(n),
        None => Err(words.fault(FaultCode::Number, at)),
    }
}
