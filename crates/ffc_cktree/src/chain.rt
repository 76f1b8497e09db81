//! Chains: x^p modulo a line in x alone, by repeated squaring, as its steps are written.
ghost use Rattle.std.specs.Prelude.{◌≡◌, ℕ, ◌+◌, ◌^◌, ◌<◌, ◌≤◌, length, map, ◌++◌, ◌∷◌, [], IfOk, OnOk};
ghost use Rattle.ffc_uni.specs.Chains.{digits_of};
ghost use Rattle.ffc_uni.specs.Univariate.{SameUnivariate, IsNormal};
ghost use Rattle.ffc_trees.specs.Normal.{degree_of};
ghost use Rattle.ffc_trees.specs.Same.{IsSameLine};
ghost use Rattle.ffc_trees.specs.TreeLines.{limits, chain_line, step_line, times_factor, fermat_line, factors_over};
ghost use Rattle.ffc_cktree.specs.Lines.{AreLines};
ghost use Rattle.ffc_cktree.specs.Factors.{factor_of, factors_of};
ghost use Rattle.ffc_cktree.specs.Identities.{product_length, multiplied_length, is_one_longer, is_identity};

use crate::rows::{
    are_below, are_same, elements, pair, product_and_rest, product_of, square_of, without_zeros,
};
use crate::rules;
use crate::stop::LineStop;
use ffc_ckpoly::CkPoly;
use ffc_field::Field;
use std::alloc::{AllocError, Global};

/// How many coefficients a quotient or a remainder may have, as written.
const MOST_COEFFICIENTS: usize = 1_025;

/// What a power is multiplied by.
#[derive(Clone, Copy, Debug, PartialEq, Eq)]
pub enum Factor {
    Itself,
    Variable,
}

/// A chain that has begun: the power of the variable so far modulo a line, and what it is multiplied by next.
#[derive(Debug, Drop)]
pub struct Running<F: Field> {
    pub variable: u32,
    pub modulus: Vec<F>,
    pub power: Vec<F>,
    pub factor: Factor,
    /// What it is multiplied by then, from the last to the first.
    pub factors: Vec<Factor>,
}

/// Appends the factors of a binary digit.
fn push_digit(factors: &mut Vec<Factor>, one: bool) -> Result<(), AllocError>
    ensures { OnOk result (map factor_of factors.new.items ≡ map factor_of factors.old.items
        ++ factors_over (one ∷ [])) }
{
    factors.push(Factor::Itself)?;
    if one {
        factors.push(Factor::Variable)?;
    }
    Ok(())
}

/// The factors of the power to p, from the last to the first: after the highest binary digit a square for each, and where
/// it is 1 a product with x.
pub fn factors(alloc: Global, p: u64) -> Result<Vec<Factor>, AllocError>
    ensures { IfOk result (λ v. factors_of v.items ≡ factors_over (digits_of p)) }
{
    let mut factors = Vec::new(alloc);
    let mut begun = false;
    for place in (0..64u32).rev() {
        let one = (p >> place) % 2 == 1;
        if begun {
            push_digit(&mut factors, one)?;
        }
        begun = begun || one;
    }
    factors.reverse();
    Ok(factors)
}

/// The line that a chain is over, by its coefficients, and the factors of the chain. Rule 12 where the line is not there;
/// rule 6 where it has another variable, or the chain has not as many steps as there are factors.
pub fn begin<F: Field>(
    alloc: Global,
    lines: &[CkPoly<F>],
    k: u32,
    x: u32,
    steps: u32,
) -> Result<(Vec<F>, Vec<Factor>), LineStop>
    requires { AreLines F.ORDER lines.now }
    ensures short { IfOk result (λ r. length r.0.items ≤ 1025) }
    ensures line { IfOk result (λ r. chain_line F.ORDER lines.now k x steps ≡ Ok (map F.value r.0.items)) }
    ensures factors { IfOk result (λ r. factors_of r.1.items ≡ factors_over (digits_of F.ORDER)) }
    ensures broken { (rule : ℕ) → result ≡ Err (LineStop.Rule rule) → chain_line F.ORDER lines.now k x steps
        ≡ Err rule }
{
    let Some(line) = lines.get(k as usize) else {
        return Err(LineStop::Rule(rules::REFERENCE));
    };
    let Some(modulus) = line.coefficients(alloc, x)? else {
        return Err(LineStop::Rule(rules::CHAIN));
    };
    let factors = factors(alloc, F::ORDER)?;
    if factors.len() as u64 != u64::from(steps) {
        return Err(LineStop::Rule(rules::CHAIN));
    }
    Ok((modulus, factors))
}

/// The product of a power and its factor.
fn multiplied<F: Field>(alloc: Global, factor: Factor, power: &[F]) -> Result<Vec<F>, AllocError>
    requires { length power.now ≤ 1025 }
    ensures { IfOk result (λ v. SameUnivariate F.ORDER (map F.value v.items)
        (times_factor (factor_of factor) (map F.value power.now))) }
{
    match factor {
        Factor::Itself => square_of(alloc, power),
        Factor::Variable => {
            let variable = pair(alloc, F::of(0), F::of(1))?;
            product_of(alloc, variable.as_slice(), power)
        }
    }
}

/// How many coefficients the product of two rows has, where neither ends with a zero.
fn product_length(a: usize, b: usize) -> usize
    requires { a + b < 2 ^ 64 }
    ensures { result ≡ product_length a b }
{
    if a == 0 || b == 0 { 0 } else { a + b - 1 }
}

/// Whether one of three lengths is greater than both others.
fn is_one_longer(a: usize, b: usize, c: usize) -> bool
    ensures { result ≡ is_one_longer a b c }
{
    (a > b && a > c) || (b > a && b > c) || (c > a && c > b)
}

/// How many coefficients a power times its factor has, where the power does not end with a zero.
fn multiplied_length(factor: Factor, power: usize) -> usize
    requires { power ≤ 1025 }
    ensures { result ≡ multiplied_length (factor_of factor) power }
{
    match factor {
        Factor::Itself => product_length(power, power),
        Factor::Variable => product_length(2, power),
    }
}

/// Whether a power times its factor is quotient times modulus and the rest, of rows that do not end with zeros. Where one of
/// the three has more coefficients than both others it is not, and no product is made.
fn is_short_identity<F: Field>(
    alloc: Global,
    modulus: &[F],
    factor: Factor,
    power: &[F],
    quotient: &[F],
    rest: &[F],
) -> Result<bool, AllocError>
    requires modulus { length modulus.now ≤ 1025 }
    requires power { length power.now ≤ 1025 }
    requires quotient { length quotient.now ≤ 1025 }
    requires modulus_is { IsNormal F.ORDER (map F.value modulus.now) }
    requires power_is { IsNormal F.ORDER (map F.value power.now) }
    requires quotient_is { IsNormal F.ORDER (map F.value quotient.now) }
    requires rest_is { IsNormal F.ORDER (map F.value rest.now) }
    ensures { IfOk result (λ b. b ≡ is_identity F.ORDER (map F.value modulus.now) (factor_of factor)
        (map F.value power.now) (map F.value quotient.now) (map F.value rest.now)) }
{
    let left = multiplied_length(factor, power.len());
    let right = product_length(quotient.len(), modulus.len());
    if is_one_longer(left, right, rest.len()) {
        return Ok(false);
    }
    let left = multiplied(alloc, factor, power)?;
    let right = product_and_rest(alloc, quotient, modulus, rest)?;
    Ok(are_same(left.as_slice(), right.as_slice()))
}

/// The same of any rows: zeros at their ends are left out first.
fn is_identity<F: Field>(
    alloc: Global,
    modulus: &[F],
    factor: Factor,
    power: &[F],
    quotient: &[F],
    rest: &[F],
) -> Result<bool, AllocError>
    requires modulus { length modulus.now ≤ 1025 }
    requires power { length power.now ≤ 1025 }
    requires quotient { length quotient.now ≤ 1025 }
    ensures { IfOk result (λ b. b ≡ is_identity F.ORDER (map F.value modulus.now) (factor_of factor)
        (map F.value power.now) (map F.value quotient.now) (map F.value rest.now)) }
{
    let modulus = without_zeros(modulus);
    let power = without_zeros(power);
    let quotient = without_zeros(quotient);
    let rest = without_zeros(rest);
    is_short_identity(alloc, modulus, factor, power, quotient, rest)
}

/// The power after a step. Rule 11 where the quotient or the remainder is too long; rule 6 where a coefficient is no
/// residue, or the product is not quotient times modulus and the remainder. It costs the lengths that are written, and
/// where the identity may hold half the square of the power's length and the product of the quotient's and the modulus', none
/// of them with zeros at its end. With remainders below the degree of the modulus this is about 1.5 times the square of that
/// degree. A remainder that is longer, which no writer needs, makes the next step dearer: of at most 1,025 coefficients, and
/// of at most 513 and half the degree where the identity holds.
pub fn step<F: Field>(
    alloc: Global,
    modulus: &[F],
    factor: Factor,
    power: &[F],
    quotient: &[u64],
    remainder: &[u64],
) -> Result<Vec<F>, LineStop>
    requires modulus { length modulus.now ≤ 1025 }
    requires power { length power.now ≤ 1025 }
    ensures kept { IfOk result (λ v. step_line limits F.ORDER (map F.value modulus.now) (factor_of factor)
        (map F.value power.now) quotient.now remainder.now ≡ Ok (map F.value v.items)) }
    ensures short { IfOk result (λ v. length v.items ≤ 1025) }
    ensures broken { (rule : ℕ) → result ≡ Err (LineStop.Rule rule)
        → step_line limits F.ORDER (map F.value modulus.now) (factor_of factor) (map F.value power.now) quotient.now
        remainder.now ≡ Err rule }
{
    if quotient.len() > MOST_COEFFICIENTS || remainder.len() > MOST_COEFFICIENTS {
        return Err(LineStop::Rule(rules::LIMIT));
    }
    if !are_below(F::ORDER, quotient) || !are_below(F::ORDER, remainder) {
        return Err(LineStop::Rule(rules::CHAIN));
    }
    let quotient = elements(alloc, quotient)?;
    let rest = elements(alloc, remainder)?;
    let (q, r) = (quotient.as_slice(), rest.as_slice());
    let holds = is_identity(alloc, modulus, factor, power, q, r)?;
    if !holds {
        return Err(LineStop::Rule(rules::CHAIN));
    }
    Ok(rest)
}

/// The line of a chain: the power less x.
pub fn fermat<F: Field>(alloc: Global, x: u32, power: &[F]) -> Result<CkPoly<F>, AllocError>
    requires { length power.now ≤ 1025 }
    ensures same { IfOk result (λ r. IsSameLine F.ORDER r (fermat_line F.ORDER x (map F.value power.now))) }
    ensures low { IfOk result (λ r. degree_of r ≤ 1024) }
{
    let whole = CkPoly::from_coefficients(alloc, x, power)?;
    let variable = pair(alloc, F::of(0), F::of(1))?;
    let line = CkPoly::from_coefficients(alloc, x, variable.as_slice())?;
    whole.sub(&line)
}
