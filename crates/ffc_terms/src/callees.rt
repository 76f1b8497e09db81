//! What is applied to arguments, and what is known of the arguments so far.
ghost use Rattle.std.specs.Prelude.{◌≡◌, ◌<◌, ◌^◌, ◌-◌};
ghost use Rattle.ffc_parts.specs.Operators.{wanted_of};
ghost use Rattle.ffc_smt.specs.TermReading as reading;
ghost use Rattle.ffc_terms.specs.Callees as callees;

use crate::codes::Op;
use crate::scope::Symbols;
use ffc_parts::{Operator, Wanted};
use ffc_term::Sort;

/// A function, or a macro by how many names of terms came before it.
#[derive(Clone, Copy, PartialEq, Eq)]
pub(crate) enum Callee {
    Function(Operator),
    Macro(usize),
}

/// The arguments so far: how many, the sorts of the first two, the greatest height and the sum of the weights.
#[derive(Clone, Copy, PartialEq, Eq)]
pub(crate) struct Parts {
    pub(crate) count: usize,
    pub(crate) first: Option<Sort>,
    pub(crate) second: Option<Sort>,
    pub(crate) height: u32,
    pub(crate) weight: u32,
}

impl Parts {
    /// None.
    pub(crate) fn none() -> Parts
        ensures { result ≡ callees.no_parts }
    {
        Parts {
            count: 0,
            first: None,
            second: None,
            height: 0,
            weight: 0,
        }
    }

    /// One more argument.
    pub(crate) fn with(self, sort: Sort, height: u32, weight: u32) -> Parts
        requires { self.count < 2 ^ 64 - 1 }
        ensures { result ≡ callees.with_part sort height weight self }
    {
        Parts {
            count: self.count + 1,
            first: if self.count == 0 {
                Some(sort)
            } else {
                self.first
            },
            second: if self.count == 1 {
                Some(sort)
            } else {
                self.second
            },
            height: self.height.max(height),
            weight: self.weight.saturating_add(weight),
        }
    }

    /// The body of a `let`.
    pub(crate) fn with_body(self, height: u32, weight: u32) -> Parts
        ensures { result ≡ callees.with_body height weight self }
    {
        Parts {
            count: self.count,
            first: self.first,
            second: self.second,
            height: self.height.max(height),
            weight: self.weight.saturating_add(weight),
        }
    }
}

impl Callee {
    /// How many arguments it takes at least.
    pub(crate) fn least(self, symbols: &Symbols) -> usize
        ensures { result ≡ callees.least symbols.now self }
    {
        match self {
            Callee::Function(op) => op.least() as usize,
            Callee::Macro(place) => match symbols.macro_at(place) {
                Some(found) => found.parameters.len(),
                None => 0,
            },
        }
    }

    /// Whether it takes no more than so many arguments.
    pub(crate) fn is_full(self, symbols: &Symbols, count: usize) -> bool
        ensures { result ≡ callees.is_full symbols.now self count }
    {
        match self {
            Callee::Function(op) => match op.most() {
                Some(most) => (most as usize) <= count,
                None => false,
            },
            Callee::Macro(place) => match symbols.macro_at(place) {
                Some(found) => found.parameters.len() <= count,
                None => true,
            },
        }
    }

    /// The sort that it wants next.
    pub(crate) fn wanted(self, symbols: &Symbols, parts: Parts) -> Wanted
        ensures { wanted_of result ≡ callees.wanted symbols.now self parts.first parts.second parts.count }
    {
        match self {
            Callee::Function(op) => op.wanted(parts.first, parts.second, parts.count.min(2) as u32),
            Callee::Macro(place) => match symbols.macro_at(place) {
                Some(found) => match found.parameters.get(parts.count) {
                    Some(sort) => Wanted::Only(*sort),
                    None => Wanted::AnySort,
                },
                None => Wanted::AnySort,
            },
        }
    }

    /// The sort of what it makes.
    pub(crate) fn result_sort(self, symbols: &Symbols, parts: Parts) -> Sort
        ensures { result ≡ callees.result_sort symbols.now self parts.first parts.second }
    {
        match self {
            Callee::Function(op) => op.result_sort(parts.first, parts.second),
            Callee::Macro(place) => match symbols.macro_at(place) {
                Some(found) => found.sort,
                None => Sort::Bool,
            },
        }
    }

    /// The height and the weight of its body.
    pub(crate) fn body(self, symbols: &Symbols) -> (u32, u32)
        ensures { result ≡ callees.body symbols.now self }
    {
        match self {
            Callee::Function(_) => (0, 0),
            Callee::Macro(place) => match symbols.macro_at(place) {
                Some(found) => (found.height, found.weight),
                None => (0, 0),
            },
        }
    }

    /// What is to be done with the nodes of so many arguments.
    pub(crate) fn op(self, count: usize) -> Op
        ensures { result ≡ callees.op_of self count }
    {
        match self {
            Callee::Function(op) => Op::Apply(op, count),
            Callee::Macro(place) => Op::Call(place, count),
        }
    }
}
