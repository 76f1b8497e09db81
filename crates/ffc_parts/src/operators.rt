//! The functions of the core theory and of the theory of finite fields, with the sorts that they take.
ghost use Rattle.std.specs.Prelude.{◌≡◌, option_map};
ghost use Rattle.ffc_smt.specs.Meaning.{found};
ghost use Rattle.ffc_smt.specs.TermReading as reading;
ghost use Rattle.ffc_parts.specs.Operators.{operator_of, wanted_of};

use crate::tables::found_in;
use ffc_term::Sort;

#[derive(Clone, Copy, Debug, PartialEq, Eq)]
pub enum Operator {
    Not,
    And,
    Or,
    Xor,
    Implies,
    Equal,
    Distinct,
    Ite,
    Add,
    Mul,
    Neg,
    Bitsum,
}

/// The functions by name.
const OPERATORS: [(&[u8], Operator); 12] = [
    (b"not", Operator::Not),
    (b"and", Operator::And),
    (b"or", Operator::Or),
    (b"xor", Operator::Xor),
    (b"=>", Operator::Implies),
    (b"=", Operator::Equal),
    (b"distinct", Operator::Distinct),
    (b"ite", Operator::Ite),
    (b"ff.add", Operator::Add),
    (b"ff.mul", Operator::Mul),
    (b"ff.neg", Operator::Neg),
    (b"ff.bitsum", Operator::Bitsum),
];

/// The function of a name.
pub fn operator_named(name: &[u8]) -> Option<Operator>
    ensures { option_map operator_of result ≡ found reading.operators name.now }
{
    found_in(&OPERATORS, name)
}

/// Which sort an argument may have.
#[derive(Clone, Copy, Debug, PartialEq, Eq)]
pub enum Wanted {
    AnySort,
    AnyField,
    Only(Sort),
}

/// The sort of another argument, where that has one.
fn same_as(other: Option<Sort>) -> Wanted
    ensures { wanted_of result ≡ reading.same_as other }
{
    match other {
        None => Wanted::AnySort,
        Some(sort) => Wanted::Only(sort),
    }
}

impl Wanted {
    pub fn allows(self, sort: Sort) -> bool
        ensures { result ≡ reading.is_wanted (wanted_of self) sort }
    {
        match (self, sort) {
            (Wanted::AnySort, _) => true,
            (Wanted::AnyField, Sort::Bool) => false,
            (Wanted::AnyField, Sort::Field(_)) => true,
            (Wanted::Only(Sort::Bool), Sort::Bool) => true,
            (Wanted::Only(Sort::Bool), Sort::Field(_)) => false,
            (Wanted::Only(Sort::Field(_)), Sort::Bool) => false,
            (Wanted::Only(Sort::Field(p)), Sort::Field(q)) => p == q,
        }
    }
}

impl Operator {
    /// How many arguments it takes at least.
    pub fn least(self) -> u32
        ensures { result ≡ reading.least (operator_of self) }
    {
        match self {
            Operator::Not | Operator::And | Operator::Or | Operator::Neg | Operator::Bitsum => 1,
            Operator::Ite => 3,
            Operator::Xor
            | Operator::Implies
            | Operator::Equal
            | Operator::Distinct
            | Operator::Add
            | Operator::Mul => 2,
        }
    }

    /// How many arguments it takes at most, where that is bounded.
    pub fn most(self) -> Option<u32>
        ensures { result ≡ reading.most (operator_of self) }
    {
        match self {
            Operator::Not | Operator::Neg => Some(1),
            Operator::Ite => Some(3),
            Operator::And
            | Operator::Or
            | Operator::Xor
            | Operator::Implies
            | Operator::Equal
            | Operator::Distinct
            | Operator::Add
            | Operator::Mul
            | Operator::Bitsum => None,
        }
    }

    /// The sort that it wants at a place, counted from 0, with those of its first and second argument.
    pub fn wanted(self, first: Option<Sort>, second: Option<Sort>, place: u32) -> Wanted
        ensures { wanted_of result ≡ reading.wanted (operator_of self) first second place }
    {
        match self {
            Operator::Not | Operator::And | Operator::Or | Operator::Xor | Operator::Implies => {
                Wanted::Only(Sort::Bool)
            }
            Operator::Equal | Operator::Distinct => {
                if place == 0 {
                    Wanted::AnySort
                } else {
                    same_as(first)
                }
            }
            Operator::Ite => {
                if place == 0 {
                    Wanted::Only(Sort::Bool)
                } else if place == 1 {
                    Wanted::AnySort
                } else {
                    same_as(second)
                }
            }
            Operator::Neg => Wanted::AnyField,
            Operator::Add | Operator::Mul | Operator::Bitsum => {
                if place == 0 {
                    Wanted::AnyField
                } else {
                    same_as(first)
                }
            }
        }
    }

    /// The sort of what it makes.
    pub fn result_sort(self, first: Option<Sort>, second: Option<Sort>) -> Sort
        ensures { result ≡ reading.result_sort (operator_of self) first second }
    {
        match self {
            Operator::Ite => second.unwrap_or(Sort::Bool),
            Operator::Add | Operator::Mul | Operator::Neg | Operator::Bitsum => first.unwrap_or(
                Sort::Bool,
            ),
            Operator::Not
            | Operator::And
            | Operator::Or
            | Operator::Xor
            | Operator::Implies
            | Operator::Equal
            | Operator::Distinct => Sort::Bool,
        }
    }
}
