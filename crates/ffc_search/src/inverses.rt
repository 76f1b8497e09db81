//! Generators that say that a polynomial has an inverse, and the others.
use ffc_field::Field;
use ffc_line::{Line, LineId};
use ffc_mono::{Mono, MonoOrder, MonoRef, MonoStop};
use ffc_poly::{Poly, PolyStop};
use std::alloc::{AllocError, Global};
use std::collections::{BTreeMap, BTreeSet};

/// A generator that is the product of a variable and a polynomial, and a constant other than 0: the polynomial is not 0, and the
/// variable, which occurs in no other generator, has the value that follows.
pub struct Inverse<F: Field, O: MonoOrder> {
    pub variable: u32,
    pub poly: Poly<F, O>,
    pub constant: F,
}

impl<F: Field, O: MonoOrder> Drop for Inverse<F, O> {
    fn drop(self) {
        let Inverse {
            variable: _,
            poly: _,
            constant: _,
        } = self;
    }
}

/// The generators of a search, in order: the line of its stack that each is, unless it is one of the inverses.
pub struct Given<F: Field, O: MonoOrder> {
    pub lines: Vec<Option<LineId>>,
    pub inverses: Vec<Inverse<F, O>>,
}

impl<F: Field, O: MonoOrder> Drop for Given<F, O> {
    fn drop(self) {
        let Given {
            lines: _,
            inverses: _,
        } = self;
    }
}

impl<F: Field, O: MonoOrder> Given<F, O> {
    /// The generators among the lines of a stack, all of them as lines.
    pub fn whole(alloc: Global, lines: &[Line<F, O>]) -> Result<Self, AllocError> {
        let mut given = Given {
            lines: Vec::new(alloc),
            inverses: Vec::new(alloc),
        };
        for (i, line) in lines.iter().enumerate() {
            if line.parts.is_empty() {
                given.lines.push(Some(i as LineId))?;
            }
        }
        Ok(given)
    }

    /// The generators among lines, and those that are no inverses, which a stack begins with.
    pub fn apart(
        alloc: Global,
        lines: &[Line<F, O>],
    ) -> Result<(Self, Vec<Poly<F, O>>), AllocError> {
        let uses = uses_of(alloc, lines)?;
        let mut given = Given {
            lines: Vec::new(alloc),
            inverses: Vec::new(alloc),
        };
        let mut others = Vec::new(alloc);
        for line in lines {
            if line.parts.is_empty() {
                given.append(alloc, &line.poly, &uses, &mut others)?;
            }
        }
        Ok((given, others))
    }

    /// Appends a generator, to the others too where it is no inverse.
    fn append(
        &mut self,
        alloc: Global,
        poly: &Poly<F, O>,
        uses: &BTreeMap<u32, usize>,
        others: &mut Vec<Poly<F, O>>,
    ) -> Result<(), AllocError> {
        match inverse_of(alloc, poly, uses)? {
            Some(inverse) => {
                self.inverses.push(inverse)?;
                self.lines.push(None)?;
            }
            None => {
                self.lines.push(Some(others.len() as LineId))?;
                others.push(poly.clone()?)?;
            }
        }
        Ok(())
    }
}

/// The variables of a polynomial.
fn variables_of<F: Field, O: MonoOrder>(
    alloc: Global,
    poly: &Poly<F, O>,
) -> Result<BTreeSet<u32>, AllocError> {
    let mut variables = BTreeSet::new(alloc);
    for (_, m) in poly.iter() {
        for power in m.pairs() {
            variables.insert(power.0)?;
        }
    }
    Ok(variables)
}

/// In how many generators each variable occurs.
fn uses_of<F: Field, O: MonoOrder>(
    alloc: Global,
    lines: &[Line<F, O>],
) -> Result<BTreeMap<u32, usize>, AllocError> {
    let mut uses = BTreeMap::new(alloc);
    for line in lines {
        if line.parts.is_empty() {
            for x in variables_of(alloc, &line.poly)? {
                let before = uses.get(&x).copied().unwrap_or(0usize);
                uses.insert(x, before.saturating_add(1))?;
            }
        }
    }
    Ok(uses)
}

/// A variable of a monomial that occurs once in it, and in no other generator.
fn own_variable(m: MonoRef<'_>, uses: &BTreeMap<u32, usize>) -> Option<u32> {
    for power in m.pairs() {
        if power.1 == 1 && uses.get(&power.0).copied() == Some(1) {
            return Some(power.0);
        }
    }
    None
}

/// A monomial without a variable that it has with exponent 1.
fn without(alloc: Global, m: MonoRef<'_>, x: &Mono) -> Result<Option<Mono>, AllocError> {
    let whole = m.to_mono(alloc)?;
    if !x.divides(&whole) {
        return Ok(None);
    }
    let rest = whole.quotient(x)?;
    if x.divides(&rest) {
        return Ok(None);
    }
    Ok(Some(rest))
}

/// A generator as the inverse of a polynomial, if it is one.
fn inverse_of<F: Field, O: MonoOrder>(
    alloc: Global,
    poly: &Poly<F, O>,
    uses: &BTreeMap<u32, usize>,
) -> Result<Option<Inverse<F, O>>, AllocError> {
    let Some(variable) = poly.lead().and_then(|lead| own_variable(lead.1, uses)) else {
        return Ok(None);
    };
    let x = match Mono::from_pairs(alloc, &[(variable, 1)]) {
        Ok(x) => x,
        Err(MonoStop::Memory) => return Err(AllocError),
        Err(_) => return Ok(None),
    };
    let mut constant = F::of(0);
    let mut terms = Vec::new(alloc);
    for (c, m) in poly.iter() {
        if m.degree() == 0 {
            constant = c;
            continue;
        }
        let Some(rest) = without(alloc, m, &x)? else {
            return Ok(None);
        };
        terms.push((c, rest))?;
    }
    if constant.residue() == 0 {
        return Ok(None);
    }
    match Poly::from_terms(alloc, terms.as_slice()) {
        Ok(poly) => Ok(Some(Inverse {
            variable,
            poly,
            constant,
        })),
        Err(PolyStop::Memory) => Err(AllocError),
        Err(_) => Ok(None),
    }
}
