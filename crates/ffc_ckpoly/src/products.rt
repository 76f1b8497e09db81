//! Sums of multiples.
ghost use Rattle.std.specs.Prelude.{◌≡◌, ◌+◌, ◌^◌, ◌<◌, ◌++◌, ◌∷◌, [], IfOk};
ghost use Rattle.ffc_ring.specs.Monomial.{IsMonomial, degree};
ghost use Rattle.ffc_ring.specs.Polynomial.{SamePolynomial, term_product};
ghost use Rattle.ffc_trees.specs.Normal.{IsNormal, degree_of};

use crate::buffer::Buffer;
use crate::poly::CkPoly;
use crate::powers::{Power, append_written};
use ffc_field::Field;
use std::alloc::{AllocError, Global};
use std::marker::Model;

/// How many products wait at least before like terms are merged.
const FEW_PRODUCTS: usize = 65_536;

/// The products of a sum. Like terms are merged at its end, and before each product where more than twice as many terms are
/// there as after the last merge, so that memory is bounded by the terms of the sum so far. A clause sees the list of terms.
#[derive(Debug)]
pub struct CkSum<F: Field> {
    buffer: Buffer<F>,
    /// How many terms wait at most for a merge.
    limit: usize,
    /// Room for the powers of a written term, kept so that no term takes memory of its own.
    written: Vec<Power>,
}

impl<F: Field> Drop for CkSum<F> {
    fn drop(self) {
        let CkSum {
            buffer: _,
            limit: _,
            written: _,
        } = self;
    }
}

impl<F: Field> Model for CkSum<F> {
    ghost use Rattle.std.specs.Prelude.{ℕ, List};
    ghost use Rattle.ffc_ckpoly.specs.Flat.{cut, Parts, HaveMonomials};

    ghost Value = { List (ℕ × List (ℕ × ℕ)) };

    ghost view = { λ a. cut F.value 0 a.buffer.marks.items a.buffer.powers.items };

    ghost invariant = { λ a. Parts 0 a.buffer.marks.items a.buffer.powers.items
        × HaveMonomials (cut F.value 0 a.buffer.marks.items a.buffer.powers.items) };
}

impl<F: Field> CkSum<F> {
    /// No products. It takes no memory.
    pub fn new(alloc: Global) -> Self
        ensures { result ≡ [] }
    {
        CkSum {
            buffer: Buffer::new(alloc),
            limit: FEW_PRODUCTS,
            written: Vec::new(alloc),
        }
    }

    /// The same sum, with like terms merged where there are many terms.
    fn merged(self) -> Result<Self, AllocError>
        ensures { IfOk result (λ r. SamePolynomial F.ORDER r self) }
    {
        let CkSum {
            buffer,
            limit,
            written,
        } = self;
        if buffer.marks.len() <= limit {
            return Ok(CkSum {
                buffer,
                limit,
                written,
            });
        }
        let alloc = *buffer.marks.allocator();
        let sum = CkPoly::sum_in(alloc, &buffer)?;
        let limit = sum.terms().saturating_mul(2).max(FEW_PRODUCTS);
        let buffer = sum.into_buffer();
        Ok(CkSum {
            buffer,
            limit,
            written,
        })
    }

    /// Adds one term.
    pub(crate) fn with_term(self, c: F, m: &[Power]) -> Result<Self, AllocError>
        requires m_is { IsMonomial m.now }
        requires fits { degree m.now < 2 ^ 64 }
        ensures { IfOk result (λ r. r ≡ self ++ (F.value c, m.now) ∷ []) }
    {
        let CkSum {
            mut buffer,
            limit,
            written,
        } = self;
        buffer.push(c, m)?;
        Ok(CkSum {
            buffer,
            limit,
            written,
        })
    }

    /// Adds the product of a written term and a polynomial. It costs the powers of both.
    pub fn with_product(self, c: u64, m: &[(u32, u32)], f: &CkPoly<F>) -> Result<Self, AllocError>
        requires m_is { IsMonomial m.now }
        requires fits { degree m.now + degree_of f.now < 2 ^ 64 }
        ensures { IfOk result (λ r. SamePolynomial F.ORDER r (self ++ term_product c m.now f.now)) }
    {
        let sum = self.merged()?;
        sum.with_more(c, m, f)
    }

    /// The same, without a merge before it.
    fn with_more(self, c: u64, m: &[(u32, u32)], f: &CkPoly<F>) -> Result<Self, AllocError>
        requires m_is { IsMonomial m.now }
        requires fits { degree m.now + degree_of f.now < 2 ^ 64 }
        ensures { IfOk result (λ r. SamePolynomial F.ORDER r (self ++ term_product c m.now f.now)) }
    {
        let CkSum {
            mut buffer,
            limit,
            mut written,
        } = self;
        written.clear();
        append_written(&mut written, m)?;
        f.append_multiple(&mut buffer, F::of(u128::from(c)), written.as_slice())?;
        Ok(CkSum {
            buffer,
            limit,
            written,
        })
    }

    /// The sum of the products, merged by halves.
    pub fn total(self) -> Result<CkPoly<F>, AllocError>
        ensures sum { IfOk result (λ r. SamePolynomial F.ORDER r self) }
        ensures normal { IfOk result (λ r. IsNormal F.ORDER r) }
    {
        let CkSum {
            buffer,
            limit: _,
            written: _,
        } = self;
        let alloc = *buffer.marks.allocator();
        CkPoly::sum_in(alloc, &buffer)
    }
}
