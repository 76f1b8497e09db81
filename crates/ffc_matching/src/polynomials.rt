//! Polynomials with residues as coefficients, and those of the nodes that are factors.
use crate::monomials::{Monomials, ONE};
use ffc_congruence::{Closure, children, merged, negative, product};
use ffc_term::{Node, NodeId};
use std::alloc::{AllocError, Global};
use std::collections::BTreeMap;

/// Longer polynomials are not made, nor products of so many times as many pairs of terms.
const MOST_TERMS: usize = 4_096;

const PAIRS: usize = 16;

/// Monomials in increasing order of their numbers, with coefficients other than 0.
#[derive(Drop)]
pub struct Poly {
    pub terms: Vec<(u32, u64)>,
}

impl Poly {
    pub fn zero(alloc: Global) -> Poly {
        Poly {
            terms: Vec::new(alloc),
        }
    }

    /// A monomial times a constant.
    pub fn term(alloc: Global, monomial: u32, value: u64) -> Result<Poly, AllocError> {
        let mut poly = Poly::zero(alloc);
        if value != 0 {
            poly.terms.push((monomial, value))?;
        }
        Ok(poly)
    }

    pub fn constant(alloc: Global, value: u64) -> Result<Poly, AllocError> {
        Poly::term(alloc, ONE, value)
    }

    /// Multiplies it by a constant.
    fn scale(&mut self, factor: u64, p: u64) {
        if factor == 0 {
            self.terms.clear();
        } else if factor != 1 {
            for term in self.terms.as_mut_slice() {
                term.1 = product(term.1, factor, p);
            }
        }
    }

    /// Adds another one times a constant.
    pub fn add_scaled(
        &mut self,
        alloc: Global,
        other: &Poly,
        factor: u64,
        p: u64,
    ) -> Result<(), AllocError> {
        let mut all = std::mem::replace(&mut self.terms, Vec::new(alloc));
        for (monomial, value) in &other.terms {
            all.push((*monomial, product(*value, factor, p)))?;
        }
        self.terms = merged(alloc, all, p)?;
        Ok(())
    }

    /// The product of two; none where it is too long.
    fn multiplied(
        &self,
        monomials: &mut Monomials,
        other: &Poly,
        p: u64,
    ) -> Result<Option<Poly>, AllocError> {
        let pairs = self.terms.len().saturating_mul(other.terms.len());
        if pairs > MOST_TERMS.saturating_mul(PAIRS) {
            return Ok(None);
        }
        let alloc = monomials.alloc;
        let mut all = Vec::new(alloc);
        for (monomial, value) in &self.terms {
            for (second, factor) in &other.terms {
                let monomial = monomials.times(*monomial, *second)?;
                all.push((monomial, product(*value, *factor, p)))?;
            }
        }
        let terms = merged(alloc, all, p)?;
        Ok((terms.len() <= MOST_TERMS).then_some(Poly { terms }))
    }
}

/// The polynomials of nodes that were asked for, and of all below them; none of one that is too long.
#[derive(Drop)]
pub struct Polys {
    alloc: Global,
    pub monomials: Monomials,
    made: BTreeMap<u32, Option<Poly>>,
}

impl Polys {
    /// No polynomials.
    pub fn new(alloc: Global) -> Result<Polys, AllocError> {
        Ok(Polys {
            alloc,
            monomials: Monomials::new(alloc)?,
            made: BTreeMap::new(alloc),
        })
    }

    /// Makes the polynomial of an id, and those below it.
    fn want(&mut self, closure: &Closure, id: u32) -> Result<(), AllocError> {
        let mut waiting = Vec::new(self.alloc);
        waiting.push(id)?;
        for _ in 0..u64::MAX {
            let Some(next) = waiting.last().copied() else {
                break;
            };
            let count = waiting.len();
            if !self.made.contains_key(&next) {
                for child in children(closure.table, next) {
                    if !self.made.contains_key(child) {
                        waiting.push(*child)?;
                    }
                }
            }
            if waiting.len() == count {
                let _ = waiting.pop();
                self.make(closure, next)?;
            }
        }
        Ok(())
    }

    /// Makes the polynomial of an id whose children have theirs, unless it was.
    fn make(&mut self, closure: &Closure, id: u32) -> Result<(), AllocError> {
        if !self.made.contains_key(&id) {
            let poly = self.poly(closure, id)?;
            self.made.insert(id, poly)?;
        }
        Ok(())
    }

    fn poly(&mut self, closure: &Closure, id: u32) -> Result<Option<Poly>, AllocError> {
        if let Some(value) = closure.value_of(id) {
            return Ok(Some(Poly::constant(self.alloc, value)?));
        }
        if id >= closure.table.len() {
            return Ok(None);
        }
        let p = closure.order_of(id);
        match closure.table.node(id) {
            Node::Add(ids) => self.sum(ids.as_slice(), 1, 1, p),
            Node::Bitsum(ids) => self.sum(ids.as_slice(), 1, 2, p),
            Node::Neg(a) => self.sum(&[*a], negative(1, p), 1, p),
            Node::Mul(ids) => {
                let one = Poly::constant(self.alloc, 1)?;
                self.times(one, ids.as_slice(), p)
            }
            _ => {
                let variable = self.monomials.variable(id)?;
                Ok(Some(Poly::term(self.alloc, variable, 1)?))
            }
        }
    }

    /// The sum of ids, of which the first has this weight and each further one so many times the one before.
    fn sum(
        &self,
        ids: &[NodeId],
        first: u64,
        ratio: u64,
        p: u64,
    ) -> Result<Option<Poly>, AllocError> {
        let mut all = Vec::new(self.alloc);
        let mut weight = first;
        for id in ids {
            let Some(Some(poly)) = self.made.get(id) else {
                return Ok(None);
            };
            for (monomial, value) in &poly.terms {
                all.push((*monomial, product(*value, weight, p)))?;
            }
            if all.len() > MOST_TERMS {
                return Ok(None);
            }
            weight = product(weight, ratio, p);
        }
        let terms = merged(self.alloc, all, p)?;
        Ok(Some(Poly { terms }))
    }

    /// A polynomial times ids that were made.
    fn times(&mut self, first: Poly, ids: &[u32], p: u64) -> Result<Option<Poly>, AllocError> {
        let mut made = first;
        for id in ids {
            let Some(Some(poly)) = self.made.get(id) else {
                return Ok(None);
            };
            match made.multiplied(&mut self.monomials, poly, p)? {
                Some(longer) => made = longer,
                None => return Ok(None),
            }
        }
        Ok(Some(made))
    }

    /// A constant times the product of ids of one field.
    pub fn product(
        &mut self,
        closure: &Closure,
        ids: &[u32],
        weight: u64,
        p: u64,
    ) -> Result<Option<Poly>, AllocError> {
        let mut made = Poly::constant(self.alloc, weight)?;
        let mut others = Vec::new(self.alloc);
        for id in ids {
            match closure.value_of(*id) {
                Some(value) => made.scale(value, p),
                None => {
                    self.want(closure, *id)?;
                    others.push(*id)?;
                }
            }
        }
        self.times(made, others.as_slice(), p)
    }

    /// A polynomial times a variable.
    pub fn times_variable(&mut self, poly: &Poly, variable: u32) -> Result<Poly, AllocError> {
        let variable = self.monomials.variable(variable)?;
        let mut terms = Vec::new(self.alloc);
        for (monomial, value) in &poly.terms {
            terms.push((self.monomials.times(*monomial, variable)?, *value))?;
        }
        terms.sort_unstable();
        Ok(Poly { terms })
    }

    /// The power of an id of a field.
    pub fn power(
        &mut self,
        closure: &Closure,
        id: u32,
        exponent: u32,
        p: u64,
    ) -> Result<Option<Poly>, AllocError> {
        let ids = vec![in self.alloc; id; exponent as usize]?;
        self.product(closure, ids.as_slice(), 1, p)
    }
}
