//! Polynomials and answers as they are printed.
use ffc_basis::Reduced;
use ffc_field::Field;
use ffc_line::{Line, LineId};
use ffc_mono::{GradedReverseLex, MonoRef};
use ffc_poly::Poly;
use std::fmt;

/// A polynomial as a sum of terms.
#[derive(Drop)]
struct Sum<'a, F: Field>(&'a Poly<F, GradedReverseLex>);

/// Writes a product of powers.
fn write_powers<W: fmt::Write>(f: &mut fmt::Formatter<W>, pairs: &[(u32, u32)]) -> fmt::Result {
    let mut before = "";
    for (variable, exponent) in pairs {
        write!(f, "{before}x{variable}")?;
        if *exponent != 1 {
            write!(f, "^{exponent}")?;
        }
        before = "*";
    }
    Ok(())
}

/// Writes a term.
fn write_term<F: Field, W: fmt::Write>(
    f: &mut fmt::Formatter<W>,
    coefficient: F,
    monomial: MonoRef<'_>,
) -> fmt::Result {
    let residue = coefficient.residue();
    if monomial.degree() == 0 {
        return write!(f, "{residue}");
    }
    if residue != 1 {
        write!(f, "{residue}*")?;
    }
    write_powers(f, monomial.pairs())
}

impl<F: Field> fmt::Display for Sum<'_, F> {
    fn fmt<W: fmt::Write>(&self, f: &mut fmt::Formatter<W>) -> fmt::Result {
        if self.0.is_zero() {
            return write!(f, "0");
        }
        let mut is_later = false;
        for (coefficient, monomial) in self.0.iter() {
            if is_later {
                write!(f, " + ")?;
            }
            write_term(f, coefficient, monomial)?;
            is_later = true;
        }
        Ok(())
    }
}

/// Writes the sum of parts' multiples of lines.
fn write_parts<F: Field, W: fmt::Write>(
    f: &mut fmt::Formatter<W>,
    parts: &[(LineId, Poly<F, GradedReverseLex>)],
) -> fmt::Result {
    if parts.is_empty() {
        return write!(f, "0");
    }
    let mut before = "";
    for part in parts {
        let number = part.0;
        let factor = Sum(&part.1);
        write!(f, "{before}({factor})*line {number}")?;
        before = " + ";
    }
    Ok(())
}

/// Lines, of which the first ones, so many, are generators.
#[derive(Drop)]
pub struct Lines<'a, F: Field> {
    pub lines: &'a [Line<F, GradedReverseLex>],
    pub generators: usize,
}

impl<F: Field> fmt::Display for Lines<'_, F> {
    fn fmt<W: fmt::Write>(&self, f: &mut fmt::Formatter<W>) -> fmt::Result {
        for (number, line) in self.lines.iter().enumerate() {
            if number >= self.generators {
                let poly = Sum(&line.poly);
                write!(f, "line {number}: {poly} = ")?;
                write_parts(f, line.parts.as_slice())?;
                writeln!(f)?;
            }
        }
        Ok(())
    }
}

/// Pairs of lines and a reduction at which a limit was passed.
#[derive(Drop)]
pub struct Limits<'a, F: Field> {
    pub pairs: &'a [(LineId, LineId)],
    pub stopped: &'a Option<Reduced<F, GradedReverseLex>>,
}

impl<F: Field> fmt::Display for Limits<'_, F> {
    fn fmt<W: fmt::Write>(&self, f: &mut fmt::Formatter<W>) -> fmt::Result {
        write!(f, "set aside:")?;
        for (first, second) in self.pairs {
            write!(f, " {first},{second}")?;
        }
        if let Some(reduced) = self.stopped {
            if let Some((number, monomial)) = &reduced.over {
                write!(f, " line {number} by ")?;
                write_powers(f, monomial.pairs())?;
            }
        }
        writeln!(f)
    }
}
