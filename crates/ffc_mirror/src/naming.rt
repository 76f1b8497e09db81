//! Lines of a certificate with other names.
use ffc_cert::{CertLine, Literal, Multiple, Power, Sequence, Term};
use ffc_term::NodeId;
use std::alloc::{AllocError, Global};

/// What nodes, variables and lines are called elsewhere, where they have a name there.
pub trait Naming {
    fn node(&self, node: NodeId) -> Option<NodeId>;

    fn variable(&self, variable: u32) -> Option<u32>;

    fn line(&self, line: u32) -> Option<u32>;
}

/// Literals with other names.
pub fn relisted<N: Naming>(
    alloc: Global,
    naming: &N,
    lits: &[Literal],
) -> Result<Option<Sequence<Literal>>, AllocError> {
    let mut made = Vec::with_capacity(alloc, lits.len())?;
    for literal in lits {
        match naming.node(literal.1) {
            Some(node) => made.push((literal.0, node))?,
            None => return Ok(None),
        }
    }
    Ok(Some(Sequence::from_vec(made)))
}

fn powers<N: Naming>(
    alloc: Global,
    naming: &N,
    powers: &[Power],
) -> Result<Option<Sequence<Power>>, AllocError> {
    let mut made = Vec::with_capacity(alloc, powers.len())?;
    for power in powers {
        match naming.variable(power.0) {
            Some(variable) => made.push((variable, power.1))?,
            None => return Ok(None),
        }
    }
    made.sort_unstable();
    Ok(Some(Sequence::from_vec(made)))
}

/// Terms with other names.
pub fn terms<N: Naming>(
    alloc: Global,
    naming: &N,
    terms: &[Term],
) -> Result<Option<Sequence<Term>>, AllocError> {
    let mut made = Vec::with_capacity(alloc, terms.len())?;
    for term in terms {
        match powers(alloc, naming, term.1.as_slice())? {
            Some(powers) => made.push((term.0, powers))?,
            None => return Ok(None),
        }
    }
    Ok(Some(Sequence::from_vec(made)))
}

fn multiple<N: Naming>(
    alloc: Global,
    naming: &N,
    multiple: &Multiple,
) -> Result<Option<Multiple>, AllocError> {
    let terms = terms(alloc, naming, multiple.1.as_slice())?;
    match (naming.line(multiple.0), terms) {
        (Some(line), Some(terms)) => Ok(Some((line, terms))),
        _ => Ok(None),
    }
}

fn multiples<N: Naming>(
    alloc: Global,
    naming: &N,
    multiples: &[Multiple],
) -> Result<Option<CertLine>, AllocError> {
    let mut made = Vec::with_capacity(alloc, multiples.len())?;
    for item in multiples {
        match multiple(alloc, naming, item)? {
            Some(multiple) => made.push(multiple)?,
            None => return Ok(None),
        }
    }
    Ok(Some(CertLine::Combine(Sequence::from_vec(made))))
}

fn chain<N: Naming>(naming: &N, line: u32, variable: u32, steps: u32) -> Option<CertLine> {
    match (naming.line(line), naming.variable(variable)) {
        (Some(line), Some(variable)) => Some(CertLine::Chain(line, variable, steps)),
        _ => None,
    }
}

fn split<N: Naming>(
    alloc: Global,
    naming: &N,
    line: u32,
    variable: u32,
    roots: &Sequence<u64>,
) -> Result<Option<CertLine>, AllocError> {
    let roots = Sequence::from_vec(roots.as_slice().to_vec(alloc)?);
    match (naming.line(line), naming.variable(variable)) {
        (Some(line), Some(variable)) => Ok(Some(CertLine::Split(line, variable, roots))),
        _ => Ok(None),
    }
}

fn step(
    alloc: Global,
    quotient: &Sequence<u64>,
    remainder: &Sequence<u64>,
) -> Result<CertLine, AllocError> {
    Ok(CertLine::Step(
        Sequence::from_vec(quotient.as_slice().to_vec(alloc)?),
        Sequence::from_vec(remainder.as_slice().to_vec(alloc)?),
    ))
}

/// A line of a case tree with other names. None where a name is missing, of a line that is no part of a tree, and of a line of bits,
/// which does not say the variables by which its last numbers are in order.
pub fn renamed<N: Naming>(
    alloc: Global,
    naming: &N,
    line: &CertLine,
) -> Result<Option<CertLine>, AllocError> {
    match line {
        CertLine::Combine(items) => multiples(alloc, naming, items.as_slice()),
        CertLine::Chain(line, variable, steps) => Ok(chain(naming, *line, *variable, *steps)),
        CertLine::Step(quotient, remainder) => Ok(Some(step(alloc, quotient, remainder)?)),
        CertLine::Split(line, variable, roots) => split(alloc, naming, *line, *variable, roots),
        CertLine::Values(variable, trees) => Ok(
            naming
                .variable(*variable)
                .map(|variable| CertLine::Values(variable, *trees)),
        ),
        CertLine::Close => Ok(Some(CertLine::Close)),
        _ => Ok(None),
    }
}

/// The lines of a case tree with other names; none where one is missing.
pub fn renamed_all<N: Naming>(
    alloc: Global,
    naming: &N,
    lines: &[CertLine],
) -> Result<Option<Vec<CertLine>>, AllocError> {
    let mut made = Vec::with_capacity(alloc, lines.len())?;
    for line in lines {
        match renamed(alloc, naming, line)? {
            Some(line) => made.push(line)?,
            None => return Ok(None),
        }
    }
    Ok(Some(made))
}
