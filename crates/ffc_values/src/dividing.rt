//! The division of a polynomial by variables less their values: each power of a variable is its value times the power before, and a
//! multiple of that line.
ghost use Rattle.std.specs.Prelude.{◌≡◌, ◌+◌, ◌<◌, ◌≤◌, ◌^◌, ◌++◌, IfOk, OnOk, length, map};
ghost use Rattle.ffc_ring.specs.Monomial.{degree};
ghost use Rattle.ffc_bounds.specs.Monomials.{power};
ghost use Rattle.ffc_refutation.specs.Written.{multiple_of};
ghost use Rattle.ffc_values.specs.Written as lines;
ghost use Rattle.ffc_values.specs.Written.{Adds, next_line, power_summands, power_rest, term_summands, quotients};

use crate::sums::Sums;
use ffc_cert::{Power, Sequence};
use ffc_field::Field;
use ffc_mono::GradedReverseLex;
use ffc_poly::Poly;
use std::alloc::{AllocError, Global};

/// A variable with its value, and the number of the line that is the variable less it.
#[derive(Clone, Copy)]
pub(crate) struct Known {
    pub(crate) variable: u32,
    pub(crate) line: u32,
    pub(crate) value: u64,
}

/// What is known of a variable.
fn known_of(knowns: &[Known], variable: u32) -> Option<Known>
    ensures { result ≡ lines.known_of knowns.now variable }
{
    for known in knowns {
        if known.variable == variable {
            return Some(*known);
        }
    }
    None
}

/// The power of a variable, times powers of variables that come after it.
fn product_of(
    alloc: Global,
    variable: u32,
    exponent: u32,
    rest: &[Power],
    inverse: &[Power],
) -> Result<Sequence<Power>, AllocError>
    ensures { IfOk result (λ m. m ≡ power variable exponent ++ (rest.now ++ inverse.now)) }
{
    let mut powers = Vec::new(alloc);
    if exponent > 0 {
        powers.push((variable, exponent))?;
    }
    powers.extend_from_slice(rest)?;
    powers.extend_from_slice(inverse)?;
    Ok(Sequence::from_vec(powers))
}

/// Adds the quotient of a power times others by the variable less its value. The rest has the coefficient that is given back, and the
/// other powers.
fn divide_power<F: Field>(
    sums: &mut Sums,
    known: Known,
    coefficient: F,
    exponent: u32,
    rest: &[Power],
    inverse: &[Power],
) -> Result<F, AllocError>
    requires { next_line sums.old + exponent < 2 ^ 32 }
    ensures adds { OnOk result (Adds (map multiple_of (power_summands F.ORDER known (rest.now ++ inverse.now) (F.value coefficient) exponent))
        sums.old sums.new) }
    ensures rest { IfOk result (λ c. F.value c ≡ power_rest F.ORDER known.value (F.value coefficient) exponent) }
    ensures few { OnOk result (length sums.new.lines.items ≤ length sums.old.lines.items + exponent) }
{
    let value = F::of(u128::from(known.value));
    let mut c = coefficient;
    let mut left = exponent;
    while left > 0 {
        left -= 1;
        let powers = product_of(sums.allocator(), known.variable, left, rest, inverse)?;
        sums.add(known.line, (c.residue(), powers))?;
        c = c.mul(value);
    }
    Ok(c)
}

/// Adds the quotients of a term by one variable after another.
fn divide_term<F: Field>(
    sums: &mut Sums,
    knowns: &[Known],
    coefficient: F,
    powers: &[Power],
    inverse: &[Power],
) -> Result<(), AllocError>
    requires { next_line sums.old + degree powers.now < 2 ^ 32 }
    ensures adds { OnOk result (Adds (map multiple_of (term_summands F.ORDER knowns.now inverse.now (F.value coefficient) powers.now))
        sums.old sums.new) }
    ensures few { OnOk result (length sums.new.lines.items ≤ length sums.old.lines.items + degree powers.now) }
{
    let mut c = coefficient;
    let mut left = powers;
    while let Some((power, rest)) = left.split_first() {
        let Some(known) = known_of(knowns, power.0) else {
            return Ok(());
        };
        c = divide_power(sums, known, c, power.1, rest, inverse)?;
        left = rest;
    }
    Ok(())
}

/// Adds the quotients of a negated polynomial, each times the inverse.
pub(crate) fn divide<F: Field>(
    sums: &mut Sums,
    knowns: &[Known],
    polynomial: &Poly<F, GradedReverseLex>,
    inverse: &[Power],
) -> Result<(), AllocError>
    requires { next_line sums.old < 2 ^ 31 }
    ensures adds { OnOk result (Adds (map multiple_of (quotients F.ORDER knowns.now inverse.now polynomial.now)) sums.old sums.new) }
{
    for place in 0..polynomial.len() {
        let (coefficient, monomial) = polynomial.term(place);
        divide_term(sums, knowns, coefficient.neg(), monomial.pairs(), inverse)?;
    }
    Ok(())
}
