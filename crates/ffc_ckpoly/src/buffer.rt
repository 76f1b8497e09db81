//! Terms laid flat.
ghost use Rattle.std.specs.Prelude.{◌≡◌, ◌+◌, ◌^◌, ◌<◌, [], ◌∷◌, ◌++◌, OnOk, IfOk};
ghost use Rattle.ffc_ring.specs.Monomial.{IsMonomial, degree, mono_mul};
ghost use Rattle.ffc_ckpoly.specs.Flat.{cut, Parts, times, rows, RowFits, ProductFits};
ghost use Rattle.ffc_ckpoly.specs.Sorted.{residues};

use crate::powers::{Power, append_product, append_written};
use ffc_field::Field;
use std::alloc::{AllocError, Global};

/// Terms in any order: the powers of all their monomials in one vector, and for each term its coefficient and the place
/// where its powers end.
#[derive(Debug)]
pub struct Buffer<F: Field> {
    pub powers: Vec<Power>,
    pub marks: Vec<(F, usize)>,
}

impl<F: Field> Drop for Buffer<F> {
    fn drop(self) {
        let Buffer {
            powers: _,
            marks: _,
        } = self;
    }
}

impl<F: Field> Buffer<F> {
    /// No terms. It takes no memory.
    pub fn new(alloc: Global) -> Self
        ensures none { cut F.value 0 result.marks.items result.powers.items ≡ [] }
        ensures parts { Parts 0 result.marks.items result.powers.items }
    {
        Buffer {
            powers: Vec::new(alloc),
            marks: Vec::new(alloc),
        }
    }

    /// Appends a term.
    pub fn push(&mut self, c: F, m: &[Power]) -> Result<(), AllocError>
        requires { Parts 0 self.old.marks.items self.old.powers.items }
        ensures terms { OnOk result (cut F.value 0 self.new.marks.items self.new.powers.items
            ≡ cut F.value 0 self.old.marks.items self.old.powers.items ++ (F.value c, m.now) ∷ []) }
        ensures parts { OnOk result (Parts 0 self.new.marks.items self.new.powers.items) }
    {
        self.powers.extend_from_slice(m)?;
        let end = self.powers.len();
        self.marks.push((c, end))?;
        Ok(())
    }

    /// Appends the product of c, m and n.
    pub fn push_product(&mut self, c: F, m: &[Power], n: &[Power]) -> Result<(), AllocError>
        requires parts { Parts 0 self.old.marks.items self.old.powers.items }
        requires m_is { IsMonomial m.now }
        requires n_is { IsMonomial n.now }
        requires fits { degree m.now + degree n.now < 2 ^ 64 }
        ensures terms { OnOk result (cut F.value 0 self.new.marks.items self.new.powers.items
            ≡ cut F.value 0 self.old.marks.items self.old.powers.items ++ (F.value c, mono_mul m.now n.now) ∷ []) }
        ensures parts { OnOk result (Parts 0 self.new.marks.items self.new.powers.items) }
    {
        append_product(&mut self.powers, m, n)?;
        let end = self.powers.len();
        self.marks.push((c, end))?;
        Ok(())
    }

    /// Appends a term whose exponents have 32 bits.
    pub fn push_written(&mut self, c: F, m: &[(u32, u32)]) -> Result<(), AllocError>
        requires { Parts 0 self.old.marks.items self.old.powers.items }
        ensures terms { OnOk result (cut F.value 0 self.new.marks.items self.new.powers.items
            ≡ cut F.value 0 self.old.marks.items self.old.powers.items ++ (F.value c, m.now) ∷ []) }
        ensures parts { OnOk result (Parts 0 self.new.marks.items self.new.powers.items) }
    {
        append_written(&mut self.powers, m)?;
        let end = self.powers.len();
        self.marks.push((c, end))?;
        Ok(())
    }

    /// Appends the products of c, m and each of the terms that these marks cut from powers.
    pub fn push_row(
        &mut self,
        c: F,
        m: &[Power],
        marks: &[(F, usize)],
        powers: &[Power],
    ) -> Result<(), AllocError>
        requires parts { Parts 0 self.old.marks.items self.old.powers.items }
        requires row { Parts 0 marks.now powers.now }
        requires m_is { IsMonomial m.now }
        requires fits { RowFits m.now (cut F.value 0 marks.now powers.now) }
        ensures terms { OnOk result (cut F.value 0 self.new.marks.items self.new.powers.items
            ≡ cut F.value 0 self.old.marks.items self.old.powers.items ++ times F.ORDER (F.value c) m.now
            (cut F.value 0 marks.now powers.now)) }
        ensures parts { OnOk result (Parts 0 self.new.marks.items self.new.powers.items) }
    {
        let mut start = 0;
        let mut rest = powers;
        for mark in marks {
            let (first, after) = rest.split_at(mark.1 - start);
            self.push_product(c.mul(mark.0), m, first)?;
            rest = after;
            start = mark.1;
        }
        Ok(())
    }
}

/// The terms with borrowed monomials.
pub fn terms_of<'a, F: Field>(
    alloc: Global,
    marks: &[(F, usize)],
    powers: &'a [Power],
) -> Result<Vec<(F, &'a [Power])>, AllocError>
    requires { Parts 0 marks.now powers.now }
    ensures { IfOk result (λ v. residues F.value v.items ≡ cut F.value 0 marks.now powers.now) }
{
    let mut out = Vec::new(alloc);
    let mut start = 0;
    let mut rest = powers;
    for mark in marks {
        let (first, after) = rest.split_at(mark.1 - start);
        out.push((mark.0, first))?;
        rest = after;
        start = mark.1;
    }
    Ok(out)
}

/// The products of each two terms, those of the second list in a buffer.
pub fn products_of<F: Field>(
    alloc: Global,
    a: &[(F, &[Power])],
    b: &Buffer<F>,
) -> Result<Buffer<F>, AllocError>
    requires parts { Parts 0 b.now.marks.items b.now.powers.items }
    requires fits { ProductFits (residues F.value a.now) (cut F.value 0 b.now.marks.items b.now.powers.items) }
    ensures terms { IfOk result (λ r. cut F.value 0 r.marks.items r.powers.items
        ≡ rows F.ORDER (residues F.value a.now) (cut F.value 0 b.now.marks.items b.now.powers.items)) }
    ensures parts { IfOk result (λ r. Parts 0 r.marks.items r.powers.items) }
{
    let mut out = Buffer::new(alloc);
    for term in a {
        out.push_row(term.0, term.1, b.marks.as_slice(), b.powers.as_slice())?;
    }
    Ok(out)
}
