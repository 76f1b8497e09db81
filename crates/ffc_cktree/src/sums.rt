//! Lines that are sums of multiples of lines before them.
ghost use Rattle.std.specs.Prelude.{◌≡◌, ℕ, ◌≤◌, ◌++◌, true, not, nat_lt, All, IfOk};
ghost use Rattle.std.specs.List.{list_all};
ghost use Rattle.ffc_ring.specs.Polynomial.{AreTerms, SamePolynomial, product};
ghost use Rattle.ffc_trees.specs.Normal.{IsNormal, degree_of};
ghost use Rattle.ffc_trees.specs.TreeLines.{limits, are_there, are_residues, products_in, sum_of_multiples};
ghost use Rattle.ffc_trees.specs.TreeLines.{combine_line};
ghost use Rattle.ffc_cktree.specs.Lines.{AreLines, Gives, is_low, are_low, all_low};

use crate::rules;
use crate::stop::LineStop;
use ffc_cert::{Multiple, Power, Term};
use ffc_ckpoly::{CkPoly, CkSum};
use ffc_field::Field;
use std::alloc::{AllocError, Global};

/// How many products of two terms a sum may have.
pub const MOST_PRODUCTS: u128 = 4_194_304;

/// The greatest degree of a written term, and of a sum.
const MOST_DEGREE: u64 = 1_024;

/// How many terms a sum may have.
pub const MOST_TERMS: usize = 131_072;

/// Whether each multiple is of a line that is there.
fn are_there<F: Field>(lines: &[CkPoly<F>], multiples: &[Multiple]) -> bool
    ensures { result ≡ are_there lines.now multiples.now }
{
    for multiple in multiples {
        if multiple.0 as usize >= lines.len() {
            return false;
        }
    }
    true
}

/// Whether the products of two terms are few enough. It stops at the first that is too many.
fn are_few<F: Field>(lines: &[CkPoly<F>], multiples: &[Multiple]) -> bool
    requires { are_there lines.now multiples.now ≡ true }
    ensures { result ≡ not (nat_lt 4194304 (products_in lines.now multiples.now)) }
{
    let mut products = 0;
    for multiple in multiples {
        let line = &lines[multiple.0 as usize];
        products += multiple.1.as_slice().len() as u128 * line.terms() as u128;
        if products > MOST_PRODUCTS {
            return false;
        }
    }
    true
}

/// Whether a written monomial is within the limit on degrees.
fn is_low(powers: &[Power]) -> bool
    ensures { result ≡ is_low powers.now }
{
    let mut total = 0;
    for power in powers {
        total += u64::from(power.1);
        if total > MOST_DEGREE {
            return false;
        }
    }
    true
}

/// Whether all written terms are within the limit on degrees.
pub fn are_low(terms: &[Term]) -> bool
    ensures { result ≡ are_low terms.now }
{
    for term in terms {
        if !is_low(term.1.as_slice()) {
            return false;
        }
    }
    true
}

/// Whether all written multiples are.
fn all_low(multiples: &[Multiple]) -> bool
    ensures { result ≡ all_low multiples.now }
{
    for multiple in multiples {
        if !are_low(multiple.1.as_slice()) {
            return false;
        }
    }
    true
}

/// Whether all coefficients of written terms are residues.
fn are_below(order: u64, terms: &[Term]) -> bool
    ensures { result ≡ list_all (λ t. nat_lt t.0 order) terms.now }
{
    for term in terms {
        if term.0 >= order {
            return false;
        }
    }
    true
}

/// Whether all coefficients of the written multiples are residues.
fn all_below(order: u64, multiples: &[Multiple]) -> bool
    ensures { result ≡ are_residues order multiples.now }
{
    for multiple in multiples {
        if !are_below(order, multiple.1.as_slice()) {
            return false;
        }
    }
    true
}

/// Adds the products of written terms and a polynomial.
pub fn with_multiple<F: Field>(
    sum: CkSum<F>,
    terms: &[Term],
    line: &CkPoly<F>,
) -> Result<CkSum<F>, AllocError>
    requires terms_are { AreTerms terms.now }
    requires low { are_low terms.now ≡ true }
    requires line_low { degree_of line.now ≤ 1024 }
    ensures { IfOk result (λ r. SamePolynomial F.ORDER r (sum ++ product terms.now line.now)) }
{
    let mut all = sum;
    for term in terms {
        all = all.with_product(term.0, term.1.as_slice(), line)?;
    }
    Ok(all)
}

/// The sum of the multiples.
fn total<F: Field>(
    alloc: Global,
    lines: &[CkPoly<F>],
    multiples: &[Multiple],
) -> Result<CkPoly<F>, AllocError>
    requires there { are_there lines.now multiples.now ≡ true }
    requires terms_are { All (λ m. AreTerms m.1) multiples.now }
    requires low { all_low multiples.now ≡ true }
    requires lines_are { AreLines F.ORDER lines.now }
    ensures sum { IfOk result (λ r. SamePolynomial F.ORDER r (sum_of_multiples lines.now multiples.now)) }
    ensures normal { IfOk result (λ r. IsNormal F.ORDER r) }
{
    let mut sum = CkSum::new(alloc);
    for multiple in multiples {
        sum = with_multiple(sum, multiple.1.as_slice(), &lines[multiple.0 as usize])?;
    }
    sum.total()
}

/// The line of a sum, or the rule that it breaks: 12 where a line is not there, 11 where a limit is passed, and 5 where a
/// coefficient is no residue. The limits on written terms are tested before any product is made.
pub fn combine<F: Field>(
    alloc: Global,
    lines: &[CkPoly<F>],
    multiples: &[Multiple],
) -> Result<CkPoly<F>, LineStop>
    requires terms_are { All (λ m. AreTerms m.1) multiples.now }
    requires lines_are { AreLines F.ORDER lines.now }
    ensures kept { IfOk result (λ r. Gives F.ORDER (combine_line limits F.ORDER lines.now multiples.now) r) }
    ensures low { IfOk result (λ r. degree_of r ≤ 1024) }
    ensures broken { (rule : ℕ) → result ≡ Err (LineStop.Rule rule)
        → combine_line limits F.ORDER lines.now multiples.now ≡ Err rule }
{
    if !are_there(lines, multiples) {
        return Err(LineStop::Rule(rules::REFERENCE));
    }
    if !are_few(lines, multiples) {
        return Err(LineStop::Rule(rules::LIMIT));
    }
    if !all_low(multiples) {
        return Err(LineStop::Rule(rules::LIMIT));
    }
    let line = total(alloc, lines, multiples)?;
    if line.degree() > MOST_DEGREE {
        return Err(LineStop::Rule(rules::LIMIT));
    }
    if line.terms() > MOST_TERMS {
        return Err(LineStop::Rule(rules::LIMIT));
    }
    if !all_below(F::ORDER, multiples) {
        return Err(LineStop::Rule(rules::COMBINATION));
    }
    Ok(line)
}
