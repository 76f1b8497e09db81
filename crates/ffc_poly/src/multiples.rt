//! Sums with a multiple, in one merge.
ghost use Rattle.std.specs.Prelude.{◌≡◌, ◌≢◌, ◌++◌, drop, IfOk, OnOk};
ghost use Rattle.ffc_ring.specs.Polynomial.{SamePolynomial, term_product};
ghost use Rattle.ffc_poly.specs.Ordered.{IsOrdered, RowFits, times, next_product};

use crate::terms::TermList;
use ffc_field::Field;
use ffc_mono::{DEGREE_LIMIT, MonoOrder, MonoRef, MonoRow};
use std::alloc::{AllocError, Global};
use std::cmp::Ordering;

/// Puts m times the monomial at a place into the row, alone; past the last one the row is left empty.
fn set_product<F: Field>(
    row: &mut MonoRow,
    m: MonoRef<'_>,
    terms: &TermList<F>,
    place: usize,
) -> Result<(), AllocError>
    requires { RowFits DEGREE_LIMIT m.powers.now (drop place terms.now) }
    ensures { OnOk result (row.new ≡ next_product m.entry.powers.now (drop place terms.now)) }
{
    row.truncate(0);
    if place < terms.len() {
        row.push_product(m, terms.get(place).1)?;
    }
    Ok(())
}

/// Appends c*m times the terms from a place on.
fn extend_products<F: Field>(
    out: &mut TermList<F>,
    c: F,
    m: MonoRef<'_>,
    terms: &TermList<F>,
    from: usize,
) -> Result<(), AllocError>
    requires { RowFits DEGREE_LIMIT m.powers.now (drop from terms.now) }
    ensures { OnOk result (out.new ≡ out.old ++ times F.ORDER (F.value c) m.entry.powers.now (drop from terms.now)) }
{
    for i in from..terms.len() {
        let (t, n) = terms.get(i);
        out.push_product(c.mul(t), m, n)?;
    }
    Ok(())
}

/// a + c*m*b for a constant c other than 0, in one merge: each product with m is made when it comes to the front.
pub fn merged_multiple<F: Field, O: MonoOrder>(
    alloc: Global,
    a: &TermList<F>,
    c: F,
    m: MonoRef<'_>,
    b: &TermList<F>,
) -> Result<TermList<F>, AllocError>
    requires a_is { IsOrdered F.ORDER O.cmp DEGREE_LIMIT a.now }
    requires b_is { IsOrdered F.ORDER O.cmp DEGREE_LIMIT b.now }
    requires c_is { F.value c ≢ 0 }
    requires fits { RowFits DEGREE_LIMIT m.powers.now b.now }
    ensures ordered { IfOk result (λ v. IsOrdered F.ORDER O.cmp DEGREE_LIMIT v) }
    ensures same { IfOk result
        (λ v. SamePolynomial F.ORDER v (a.now ++ term_product (F.value c) m.entry.powers.now b.now)) }
{
    let mut out = TermList::new(alloc);
    let mut product = MonoRow::new(alloc);
    set_product(&mut product, m, b, 0)?;
    let mut i = 0;
    let mut j = 0;
    while i < a.len() && j < b.len() {
        let (s, n) = a.get(i);
        let t = c.mul(b.get(j).0);
        match O::compare_borrowed(n, product.get(0)) {
            Ordering::Less => {
                out.push(t, product.get(0))?;
                j += 1;
                set_product(&mut product, m, b, j)?;
            }
            Ordering::Equal => {
                let sum = s.add(t);
                if sum.residue() != 0 {
                    out.push(sum, n)?;
                }
                i += 1;
                j += 1;
                set_product(&mut product, m, b, j)?;
            }
            Ordering::Greater => {
                out.push(s, n)?;
                i += 1;
            }
        }
    }
    out.extend_from(a, i, a.len())?;
    extend_products(&mut out, c, m, b, j)?;
    Ok(out)
}
