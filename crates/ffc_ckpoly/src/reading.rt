//! What is read off terms laid flat.
ghost use Rattle.std.specs.Prelude.{◌≡◌, ◌%◌};
ghost use Rattle.ffc_ring.specs.Monomial.{mono_value};
ghost use Rattle.ffc_ring.specs.Polynomial.{poly_value};
ghost use Rattle.ffc_trees.specs.Normal.{degree_of};
ghost use Rattle.ffc_ckpoly.specs.Flat.{cut, Parts, HaveMonomials};
ghost use Rattle.ffc_ckpoly.specs.Sorted.{point_of};

use crate::powers::{Power, degree};
use ffc_field::Field;

/// The greatest degree of a term, and 0 where there is none.
pub fn greatest_degree<F: Field>(marks: &[(F, usize)], powers: &[Power]) -> u64
    requires parts { Parts 0 marks.now powers.now }
    requires monomials { HaveMonomials (cut F.value 0 marks.now powers.now) }
    ensures { result ≡ degree_of (cut F.value 0 marks.now powers.now) }
{
    let mut greatest = 0;
    let mut start = 0;
    let mut rest = powers;
    for mark in marks {
        let (first, after) = rest.split_at(mark.1 - start);
        greatest = degree(first).max(greatest);
        rest = after;
        start = mark.1;
    }
    greatest
}

/// The coordinate of a variable. It is 0 past the end.
fn coordinate<F: Field>(at: &[F], variable: u32) -> F
    ensures { F.value result ≡ point_of F.value at.now variable }
{
    at.get(variable as usize).copied().unwrap_or(F::of(0))
}

/// The value of a monomial at a point.
fn monomial_value<F: Field>(powers: &[Power], at: &[F]) -> F
    ensures { F.value result ≡ mono_value (point_of F.value at.now) powers.now % F.ORDER }
{
    let mut value = F::of(1);
    for power in powers {
        value = value.mul(coordinate(at, power.0).pow(power.1));
    }
    value
}

/// The value of the terms' sum at a point.
pub fn value_at<F: Field>(marks: &[(F, usize)], powers: &[Power], at: &[F]) -> F
    requires { Parts 0 marks.now powers.now }
    ensures { F.value result ≡ poly_value F.ORDER (point_of F.value at.now) (cut F.value 0 marks.now powers.now) }
{
    let mut sum = F::of(0);
    let mut start = 0;
    let mut rest = powers;
    for mark in marks {
        let (first, after) = rest.split_at(mark.1 - start);
        sum = sum.add(mark.0.mul(monomial_value(first, at)));
        rest = after;
        start = mark.1;
    }
    sum
}
