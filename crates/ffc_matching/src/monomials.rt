//! Monomials, each once.
use std::alloc::{AllocError, Global};
use std::collections::BTreeMap;

/// Variables in increasing order with their exponents.
type Powers = Vec<(u32, u32)>;

/// The number of the monomial without variables.
pub const ONE: u32 = 0;

/// No more products are remembered.
const MOST_PRODUCTS: usize = 65_536;

/// The monomials so far, by number.
#[derive(Drop)]
pub struct Monomials {
    pub alloc: Global,
    list: Vec<Powers>,
    /// How many bytes each takes in a line.
    bytes: Vec<u64>,
    numbers: BTreeMap<Powers, u32>,
    /// The products of pairs that were asked for, the lesser number first.
    products: BTreeMap<(u32, u32), u32>,
}

/// How many digits a number has.
pub fn digits(number: u64) -> u64 {
    let (mut rest, mut count) = (number, 1u64);
    for _ in 0..u64::BITS {
        if rest < 10_000 {
            break;
        }
        rest /= 10_000;
        count = count.saturating_add(4);
    }
    for bound in [10, 100, 1_000] {
        if rest >= bound {
            count = count.saturating_add(1);
        }
    }
    count
}

impl Monomials {
    /// The one without variables alone.
    pub fn new(alloc: Global) -> Result<Monomials, AllocError> {
        let mut monomials = Monomials {
            alloc,
            list: Vec::new(alloc),
            bytes: Vec::new(alloc),
            numbers: BTreeMap::new(alloc),
            products: BTreeMap::new(alloc),
        };
        monomials.number(Vec::new(alloc))?;
        Ok(monomials)
    }

    /// How many there are.
    pub fn len(&self) -> usize {
        self.list.len()
    }

    /// The number of a monomial.
    fn number(&mut self, powers: Powers) -> Result<u32, AllocError> {
        if let Some(number) = self.numbers.get(&powers) {
            return Ok(*number);
        }
        let number = u32::try_from(self.list.len()).unwrap_or(u32::MAX);
        let mut bytes = digits(powers.len() as u64);
        for (variable, exponent) in &powers {
            let both = digits(u64::from(*variable)).saturating_add(digits(u64::from(*exponent)));
            bytes = bytes.saturating_add(both).saturating_add(2);
        }
        self.bytes.push(bytes)?;
        self.numbers.insert(powers.clone()?, number)?;
        self.list.push(powers)?;
        Ok(number)
    }

    /// A variable.
    pub fn variable(&mut self, variable: u32) -> Result<u32, AllocError> {
        self.number(vec![in self.alloc; (variable, 1)]?)
    }

    /// The variables and exponents of a monomial.
    pub fn powers(&self, monomial: u32) -> &[(u32, u32)] {
        match self.list.get(monomial as usize) {
            Some(powers) => powers.as_slice(),
            None => &[],
        }
    }

    /// How many bytes it takes in a line.
    pub fn bytes(&self, monomial: u32) -> u64 {
        self.bytes.get(monomial as usize).copied().unwrap_or(1)
    }

    /// The product of two.
    pub fn times(&mut self, a: u32, b: u32) -> Result<u32, AllocError> {
        if a == ONE {
            return Ok(b);
        }
        if b == ONE {
            return Ok(a);
        }
        let pair = (a.min(b), a.max(b));
        if let Some(product) = self.products.get(&pair) {
            return Ok(*product);
        }
        let product = self.multiplied(a, b)?;
        if self.products.len() < MOST_PRODUCTS {
            self.products.insert(pair, product)?;
        }
        Ok(product)
    }

    /// The product of two that was not asked for.
    fn multiplied(&mut self, a: u32, b: u32) -> Result<u32, AllocError> {
        let mut all = Vec::new(self.alloc);
        all.extend_from_slice(self.powers(a))?;
        all.extend_from_slice(self.powers(b))?;
        all.sort_unstable();
        let mut powers: Powers = Vec::new(self.alloc);
        for (variable, exponent) in &all {
            let before = match powers.last() {
                Some(last) if last.0 == *variable => last.1,
                _ => 0,
            };
            if before > 0 {
                let _ = powers.pop();
            }
            powers.push((*variable, before.saturating_add(*exponent)))?;
        }
        self.number(powers)
    }
}
