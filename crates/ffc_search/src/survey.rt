//! What lines say of their variables.
use ffc_field::Field;
use ffc_line::Line;
use ffc_mono::{MonoOrder, MonoRef};
use ffc_poly::Poly;
use std::alloc::{AllocError, Global};
use std::collections::{BTreeMap, BTreeSet};

/// How many terms a short line has at most.
const SHORT: usize = 8;

/// How much more a term of a short line counts.
const SHORT_WEIGHT: u64 = 8;

/// The variable and its exponent, where the leading monomial is a power of one variable.
pub fn leading_power<F: Field, O: MonoOrder>(poly: &Poly<F, O>) -> Option<(u32, u32)> {
    match poly.lead() {
        Some((_, m)) => match m.pairs() {
            [power] => Some(*power),
            _ => None,
        },
        None => None,
    }
}

/// The variables that are leading monomials of lines, each with the place and the length of its shortest line: reduction
/// replaces them.
pub type Linear = BTreeMap<u32, (usize, usize)>;

/// The variables that reduction replaces, with their lines.
pub fn linear_lines<F: Field, O: MonoOrder>(
    alloc: Global,
    lines: &[Line<F, O>],
) -> Result<Linear, AllocError> {
    let mut linear = BTreeMap::new(alloc);
    for (place, line) in lines.iter().enumerate() {
        if let Some((x, 1)) = leading_power(&line.poly) {
            let len = line.poly.len();
            let known = linear.get(&x).copied();
            if is_shorter(len, known) {
                linear.insert(x, (place, len))?;
            }
        }
    }
    Ok(linear)
}

/// Whether a line is shorter than a known one, if there is one.
fn is_shorter(len: usize, known: Option<(usize, usize)>) -> bool {
    match known {
        Some((_, shortest)) => len < shortest,
        None => true,
    }
}

/// How often variables occur, with weights.
type Uses = BTreeMap<u32, u64>;

/// Adds to the uses of the variables of a monomial. In a monomial of degree 1 an occurrence has no weight.
fn count_monomial(uses: &mut Uses, m: MonoRef<'_>, weight: u64) -> Result<(), AllocError> {
    let weight = if m.degree() > 1 { weight } else { 0 };
    for power in m.pairs() {
        let before = uses.get(&power.0).copied().unwrap_or(0);
        uses.insert(power.0, weight.saturating_add(before))?;
    }
    Ok(())
}

/// Adds to the uses of the variables of a polynomial.
fn count_polynomial<F: Field, O: MonoOrder>(
    uses: &mut Uses,
    poly: &Poly<F, O>,
) -> Result<(), AllocError> {
    let weight = if poly.len() > SHORT { 1 } else { SHORT_WEIGHT };
    for i in 0..poly.len() {
        count_monomial(uses, poly.term(i).1, weight)?;
    }
    Ok(())
}

/// The variable of the greatest use among those that are not linear, the highest of them: in an order that is graded by
/// reverse lexicographic comparison it leads last, and lines rather say what others are by it.
fn greatest_use(uses: &Uses, linear: &Linear) -> Option<u32> {
    let mut best: Option<(u32, u64)> = None;
    for (x, count) in uses.iter() {
        if linear.contains_key(x) {
            continue;
        }
        let more = match best {
            Some((_, most)) => *count >= most,
            None => true,
        };
        if more {
            best = Some((*x, *count));
        }
    }
    best.map(|found| found.0)
}

/// The variables that occur in products.
pub fn factors_of<F: Field, O: MonoOrder>(
    alloc: Global,
    lines: &[Line<F, O>],
) -> Result<BTreeSet<u32>, AllocError> {
    let mut factors = BTreeSet::new(alloc);
    for line in lines {
        for (_, m) in line.poly.iter() {
            add_factors(&mut factors, m)?;
        }
    }
    Ok(factors)
}

/// Adds the variables of a monomial, if it is a product.
fn add_factors(factors: &mut BTreeSet<u32>, m: MonoRef<'_>) -> Result<(), AllocError> {
    if m.degree() > 1 {
        for power in m.pairs() {
            factors.insert(power.0)?;
        }
    }
    Ok(())
}

/// The variable by whose values cases are made: it occurs in most products, and reduction does not replace it.
pub fn most_used<F: Field, O: MonoOrder>(
    alloc: Global,
    lines: &[Line<F, O>],
    linear: &Linear,
) -> Result<Option<u32>, AllocError> {
    let mut uses = BTreeMap::new(alloc);
    for line in lines {
        count_polynomial(&mut uses, &line.poly)?;
    }
    Ok(greatest_use(&uses, linear))
}

/// The variable that leads last among those that occur in products, and that reduction does not replace: what a circuit is
/// given comes before what it computes.
pub fn earliest<F: Field, O: MonoOrder>(
    alloc: Global,
    lines: &[Line<F, O>],
    linear: &Linear,
) -> Result<Option<u32>, AllocError> {
    let mut uses = BTreeMap::new(alloc);
    for line in lines {
        count_polynomial(&mut uses, &line.poly)?;
    }
    let mut last = None;
    let mut free = None;
    for (x, count) in uses.iter() {
        if !linear.contains_key(x) {
            free = Some(*x);
            if *count > 0 {
                last = Some(*x);
            }
        }
    }
    Ok(last.or(free))
}
