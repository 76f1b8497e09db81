//! Polynomials of the checker in one variable over the field of order 5, by their lengths, degrees and values.
use crate::commands::{Finding, MALFORMED, UNFIT, numbers, say};
use ffc_ckpoly::{CkPoly, CkStop, CkSum, ck_poly_of};
use ffc_field::{F5, Field};
use ffc_term::NodeTable;
use ffc_term::fitting::is_field;
use std::alloc::{AllocError, Global};

#[derive(Clone, Copy)]
pub(crate) enum PolyCommand {
    Line,
    One,
    Zero,
    Sum,
    Difference,
    Product,
    Multiple,
    OfNode,
}

pub(crate) const POLY_COMMANDS: [(&str, PolyCommand); 8] = [
    ("x-plus", PolyCommand::Line),
    ("one", PolyCommand::One),
    ("zero", PolyCommand::Zero),
    ("sum", PolyCommand::Sum),
    ("difference", PolyCommand::Difference),
    ("product", PolyCommand::Product),
    ("multiple", PolyCommand::Multiple),
    ("of-node", PolyCommand::OfNode),
];

/// The greatest degree of the polynomials that are multiplied.
const MOST_DEGREE: u64 = 9;

/// A polynomial over the field of order 5, or None where a call asks for more than a row gives.
type Made = Result<Option<CkPoly<F5>>, AllocError>;

/// The polynomial x + c, where x is the first variable.
fn line(alloc: Global, c: u64) -> Made {
    let mut x = Vec::new(alloc);
    x.push((0, 1))?;
    let mut terms = Vec::new(alloc);
    terms.push((F5::of(1), x))?;
    terms.push((F5::of(u128::from(c)), Vec::new(alloc)))?;
    Ok(Some(CkPoly::from_terms(alloc, terms.as_slice())?))
}

/// The polynomial 1.
fn one(alloc: Global) -> Made {
    let mut terms = Vec::new(alloc);
    terms.push((F5::of(1), Vec::new(alloc)))?;
    Ok(Some(CkPoly::from_terms(alloc, terms.as_slice())?))
}

/// The product, where the degrees are small.
fn product(f: &CkPoly<F5>, g: &CkPoly<F5>) -> Made {
    if f.degree() > MOST_DEGREE || g.degree() > MOST_DEGREE {
        return Ok(None);
    }
    Ok(Some(f.mul(g)?))
}

/// The product c*x*f as a sum of multiples, where the degree is small.
fn multiple(alloc: Global, c: u64, f: &CkPoly<F5>) -> Made {
    if f.degree() > MOST_DEGREE {
        return Ok(None);
    }
    let sum = CkSum::new(alloc).with_product(c, &[(0, 1)], f)?;
    Ok(Some(sum.total()?))
}

/// The polynomial of a node.
fn of_node(alloc: Global, table: &NodeTable, id: u64) -> Made {
    let Ok(id) = u32::try_from(id) else {
        return Ok(None);
    };
    if !is_field(table, 5, id) {
        return Ok(None);
    }
    match ck_poly_of::<F5>(alloc, table, id) {
        Ok(found) => Ok(Some(found)),
        Err(CkStop::Over) => Ok(None),
        Err(CkStop::Memory) => Err(AllocError),
    }
}

/// Two polynomials by their numbers.
fn two(polys: &[CkPoly<F5>], a: u64, b: u64) -> Option<(&CkPoly<F5>, &CkPoly<F5>)> {
    match (polys.get(a as usize), polys.get(b as usize)) {
        (Some(f), Some(g)) => Some((f, g)),
        _ => None,
    }
}

/// The polynomial that two others make.
fn of_two(command: PolyCommand, f: &CkPoly<F5>, g: &CkPoly<F5>) -> Made {
    match command {
        PolyCommand::Sum => Ok(Some(f.add(g)?)),
        PolyCommand::Difference => Ok(Some(f.sub(g)?)),
        PolyCommand::Product => product(f, g),
        _ => Ok(None),
    }
}

/// The polynomial of a row, by its command and the numbers after it.
fn make(
    alloc: Global,
    table: &NodeTable,
    polys: &[CkPoly<F5>],
    command: PolyCommand,
    numbers: &[u64],
) -> Made {
    match (command, numbers) {
        (PolyCommand::Line, [c]) => line(alloc, *c),
        (PolyCommand::One, []) => one(alloc),
        (PolyCommand::Zero, []) => Ok(Some(CkPoly::zero(alloc))),
        (PolyCommand::OfNode, [id]) => of_node(alloc, table, *id),
        (PolyCommand::Multiple, [c, a]) => match polys.get(*a as usize) {
            Some(f) => multiple(alloc, *c, f),
            None => Ok(None),
        },
        (_, [a, b]) => match two(polys, *a, *b) {
            Some((f, g)) => of_two(command, f, g),
            None => Ok(None),
        },
        _ => Ok(None),
    }
}

/// The number of a polynomial, how many terms it has, its degree, and its value at 3.
fn measures(alloc: Global, number: usize, f: &CkPoly<F5>) -> Finding {
    let terms = f.terms();
    let degree = f.degree();
    let value = f.value(&[F5::of(3)]).residue();
    format!(in alloc; "{number}: terms {terms}, degree {degree}, value {value}")
}

/// Makes the polynomial of a row, and lists it after the others.
pub(crate) fn poly_row(
    alloc: Global,
    table: &NodeTable,
    polys: &mut Vec<CkPoly<F5>>,
    command: PolyCommand,
    rest: &str,
) -> Finding {
    let Some(numbers) = numbers(alloc, rest)? else {
        return say(alloc, MALFORMED);
    };
    match make(alloc, table, polys.as_slice(), command, numbers.as_slice())? {
        Some(made) => {
            let finding = measures(alloc, polys.len(), &made)?;
            polys.push(made)?;
            Ok(finding)
        }
        None => say(alloc, UNFIT),
    }
}
