//! Whether lines of a tree have the ranges that a certificate can have.
ghost use Rattle.std.specs.Prelude.{◌<◌, ◌^◌, length, IsTrue};
ghost use Rattle.std.specs.List.{AllByRecursion};
ghost use Rattle.ffc_cert.specs.Ranges.{IsNarrow, IsWide, IsPower, IsMonomial, IsCounted, IsTerm, IsMultiple, AreVariables, IsLine};

use ffc_cert::{CertLine, Multiple, Power, Term};

/// Whether a number has 32 bits, as each of its type has.
fn is_narrow(n: u32) -> bool
    ensures { IsTrue result → IsNarrow n }
{
    u64::from(n) <= u64::from(u32::MAX)
}

/// Whether a list is short enough to be written after its count.
fn is_counted(len: usize) -> bool
    ensures { IsTrue result → len < 2 ^ 32 }
{
    len <= u32::MAX as usize
}

/// Whether a power may stand in a monomial.
fn is_power(variable: u32, exponent: u32) -> bool
    ensures { IsTrue result → IsPower (variable, exponent) }
{
    exponent > 0
}

/// Whether the variables of a list increase strictly, with exponents of at least 1.
fn is_monomial(powers: &[Power]) -> bool
    ensures { IsTrue result → IsMonomial powers.now }
{
    let mut least = 0u64;
    for power in powers {
        if u64::from(power.0) < least || !is_power(power.0, power.1) {
            return false;
        }
        least = u64::from(power.0) + 1;
    }
    is_counted(powers.len())
}

/// Whether a term has a monomial.
fn is_term(coefficient: u64, powers: &[Power]) -> bool
    ensures { IsTrue result → IsTerm (coefficient, powers.now) }
{
    is_monomial(powers)
}

/// Whether each term has a monomial.
fn are_terms(terms: &[Term]) -> bool
    ensures { IsTrue result → IsCounted IsTerm terms.now }
{
    for term in terms {
        if !is_term(term.0, term.1.as_slice()) {
            return false;
        }
    }
    is_counted(terms.len())
}

/// Whether a multiple has terms.
fn is_multiple(line: u32, terms: &[Term]) -> bool
    ensures { IsTrue result → IsMultiple (line, terms.now) }
{
    is_narrow(line) && are_terms(terms)
}

/// Whether each multiple has terms.
fn are_multiples(multiples: &[Multiple]) -> bool
    ensures { IsTrue result → IsCounted IsMultiple multiples.now }
{
    for multiple in multiples {
        if !is_multiple(multiple.0, multiple.1.as_slice()) {
            return false;
        }
    }
    is_counted(multiples.len())
}

/// Whether a list of numbers is short enough.
fn are_numbers(numbers: &[u64]) -> bool
    ensures { IsTrue result → IsCounted IsWide numbers.now }
{
    is_counted(numbers.len())
}

/// Whether variables increase strictly.
fn are_variables(variables: &[u32]) -> bool
    ensures { IsTrue result → AreVariables variables.now }
{
    let mut least = 0u64;
    for variable in variables {
        if u64::from(*variable) < least || !is_narrow(*variable) {
            return false;
        }
        least = u64::from(*variable) + 1;
    }
    is_counted(variables.len())
}

/// Whether a list of numbers of 32 bits is short enough.
fn are_narrow(numbers: &[u32]) -> bool
    ensures { IsTrue result → IsCounted IsNarrow numbers.now }
{
    for number in numbers {
        if !is_narrow(*number) {
            return false;
        }
    }
    is_counted(numbers.len())
}

/// Whether a line of a tree has the ranges that a certificate can have. A line of another form has not.
fn is_line(line: &CertLine) -> bool
    ensures { IsTrue result → IsLine line.now }
{
    match line {
        CertLine::Combine(multiples) => are_multiples(multiples.as_slice()),
        CertLine::Bits(line, chosen, polynomial, bits) => {
            is_narrow(*line)
                && are_variables(chosen.as_slice())
                && are_terms(polynomial.as_slice())
                && are_narrow(bits.as_slice())
        }
        CertLine::Step(quotient, remainder) => {
            are_numbers(quotient.as_slice()) && are_numbers(remainder.as_slice())
        }
        CertLine::Split(line, x, zeros) => {
            is_narrow(*line) && is_narrow(*x) && are_numbers(zeros.as_slice())
        }
        CertLine::Chain(line, x, count) => {
            is_narrow(*line) && is_narrow(*x) && is_narrow(*count)
        }
        CertLine::Values(x, count) => is_narrow(*x) && is_narrow(*count),
        CertLine::Close => true,
        _ => false,
    }
}

/// Whether all lines of a tree do.
pub fn are_lines(lines: &[CertLine]) -> bool
    ensures { IsTrue result → AllByRecursion IsLine lines.now }
{
    for line in lines {
        if !is_line(line) {
            return false;
        }
    }
    true
}
