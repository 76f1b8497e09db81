//! The monomials in given variables up to a degree.
ghost use Rattle.std.specs.Prelude.{◌≡◌, ◌+◌, ◌≤◌, ◌++◌, All, flat_map, IfOk, OnOk};
ghost use Rattle.ffc_ring.specs.Monomial.{IsMonomial, degree, mono_mul};
ghost use Rattle.ffc_bounds.specs.Monomials.{power, with_powers, monomials};

use ffc_mono::{Mono, MonoStop};
use std::alloc::{AllocError, Global};

/// The product of monomials whose degrees are not too high.
pub(crate) fn product(a: &Mono, b: &Mono) -> Result<Mono, AllocError>
    requires { degree a.now + degree b.now ≤ 1024 }
    ensures { IfOk result (λ m. m ≡ mono_mul a.now b.now) }
{
    match a.mul(b) {
        Ok(found) => Ok(found),
        Err(MonoStop::Memory) => Err(AllocError),
        Err(MonoStop::DegreeOver) => unreachable!(),
    }
}

/// The monomial with these powers, whose degree is not too high.
fn with_pairs(alloc: Global, pairs: &[(u32, u32)]) -> Result<Mono, AllocError>
    requires monomial { IsMonomial pairs.now }
    requires low { degree pairs.now ≤ 1024 }
    ensures { IfOk result (λ m. m ≡ pairs.now) }
{
    match Mono::from_pairs(alloc, pairs) {
        Ok(found) => Ok(found),
        Err(MonoStop::Memory) => Err(AllocError),
        Err(MonoStop::DegreeOver) => unreachable!(),
    }
}

/// A power of a variable.
pub(crate) fn power(alloc: Global, variable: u32, exponent: u32) -> Result<Mono, AllocError>
    requires { exponent ≤ 1024 }
    ensures { IfOk result (λ m. m ≡ power variable exponent) }
{
    if exponent == 0 {
        return with_pairs(alloc, &[]);
    }
    with_pairs(alloc, &[(variable, exponent)])
}

/// Appends a monomial times the powers of a variable, as far as the degree permits.
fn append_with_powers(
    alloc: Global,
    found: &mut Vec<Mono>,
    variable: u32,
    m: &Mono,
    highest: u32,
) -> Result<(), AllocError>
    requires low { degree m.now ≤ highest }
    requires limit { highest ≤ 1024 }
    ensures { OnOk result (found.new.items ≡ found.old.items ++ with_powers highest variable m.now) }
{
    let most = highest - m.degree();
    for exponent in 0..most + 1 {
        let power = power(alloc, variable, exponent)?;
        found.push(product(&power, m)?)?;
    }
    Ok(())
}

/// Monomials times the powers of one more variable.
fn with_variable(
    alloc: Global,
    others: &[Mono],
    variable: u32,
    highest: u32,
) -> Result<Vec<Mono>, AllocError>
    requires low { All (λ m. degree m ≤ highest) others.now }
    requires limit { highest ≤ 1024 }
    ensures { IfOk result (λ found. found.items ≡ flat_map (with_powers highest variable) others.now) }
{
    let mut found = Vec::new(alloc);
    for m in others {
        append_with_powers(alloc, &mut found, variable, m, highest)?;
    }
    Ok(found)
}

/// The monomials in these variables up to a degree.
pub(crate) fn monomials(
    alloc: Global,
    variables: &[u32],
    degree: u32,
) -> Result<Vec<Mono>, AllocError>
    requires { degree ≤ 1024 }
    ensures { IfOk result (λ found. found.items ≡ monomials degree variables.now) }
{
    let mut found = Vec::new(alloc);
    found.push(power(alloc, 0, 0)?)?;
    for place in (0..variables.len()).rev() {
        found = with_variable(alloc, found.as_slice(), variables[place], degree)?;
    }
    Ok(found)
}
