//! Lines of bits: where a sum of bits is 0 as an integer.
ghost use Rattle.std.specs.Prelude.{◌≡◌, ℕ, ◌+◌, ◌*◌, ◌^◌, ◌≤◌, ◌%◌, ◌==◌, ◌&&◌, ◌++◌, ◌∷◌, [], true, not, nat_lt, List, length, IfOk};
ghost use Rattle.std.specs.List.{list_all};
ghost use Rattle.ffc_ring.specs.Monomial.{same_monomial};
ghost use Rattle.ffc_ring.specs.Polynomial.{Terms, AreTerms, SamePolynomial, poly_value};
ghost use Rattle.ffc_trees.specs.Normal.{IsNormal, degree_of};
ghost use Rattle.ffc_trees.specs.TreeLines.{limits, is_there};
ghost use Rattle.ffc_trees.specs.BitLines.{is_listed, is_among, is_linear_monomial, is_linear, variables_of, are_bits};
ghost use Rattle.ffc_trees.specs.BitLines.{are_square_and_root, is_bit, choices_of, point_of, is_settled};
ghost use Rattle.ffc_trees.specs.BitLines.{is_written_in, is_of_bits, follows, are_choices_within, bits_line};
ghost use Rattle.ffc_ckpoly.specs.Sorted.{residues, IsSorted};
ghost use Rattle.ffc_cktree.specs.Lines.{AreLines, Gives, are_low};
ghost use Rattle.ffc_cktree.specs.Extents.{IsSmall, IsLeft};

use crate::extent::{Left, extent_among, extent_of, is_apart, is_between, is_listed, left_besides};
use crate::rules;
use crate::stop::LineStop;
use crate::sums::{MOST_PRODUCTS, MOST_TERMS, are_low, with_multiple};
use ffc_cert::{Power, Term};
use ffc_ckpoly::{CkPoly, CkSum};
use ffc_field::Field;
use std::alloc::{AllocError, Global};

/// How many variables a line of bits may go through.
const MOST_CHOSEN: usize = 12;

// ---- what is written

/// Whether all these lines are there.
fn all_there<F: Field>(lines: &[CkPoly<F>], numbers: &[u32]) -> bool
    ensures { result ≡ list_all (is_there lines.now) numbers.now }
{
    for number in numbers {
        if *number as usize >= lines.len() {
            return false;
        }
    }
    true
}

/// Whether the choices are few enough for so many terms of the line and written terms.
fn are_few(chosen: usize, terms: usize, written: usize) -> bool
    ensures { (ns : List ℕ) (line ts : Terms) → length ns ≡ chosen → length line ≡ terms → length ts ≡ written
        → result ≡ are_choices_within limits line ns ts }
{
    if chosen > MOST_CHOSEN {
        return false;
    }
    let choices = 1u128 << chosen as u32;
    choices * terms as u128 <= MOST_PRODUCTS && choices * written as u128 <= MOST_PRODUCTS
}

/// Whether each variable of a written monomial is one of these.
fn is_among(xs: &[u32], powers: &[Power]) -> bool
    ensures { result ≡ is_among xs.now powers.now }
{
    for power in powers {
        if !is_listed(xs, power.0) {
            return false;
        }
    }
    true
}

/// Whether all coefficients of written terms are residues, and all their variables are among these.
fn is_written_in(order: u64, chosen: &[u32], written: &[Term]) -> bool
    ensures { result ≡ is_written_in order chosen.now written.now }
{
    for term in written {
        if term.0 >= order || !is_among(chosen, term.1.as_slice()) {
            return false;
        }
    }
    true
}

/// The polynomial of written terms.
fn polynomial_of<F: Field>(alloc: Global, written: &[Term]) -> Result<CkPoly<F>, AllocError>
    requires terms_are { AreTerms written.now }
    requires low { are_low written.now ≡ true }
    ensures same { IfOk result (λ r. SamePolynomial F.ORDER r written.now) }
    ensures normal { IfOk result (λ r. IsNormal F.ORDER r) }
    ensures low { IfOk result (λ r. degree_of r ≤ 1024) }
{
    let mut unit = Vec::new(alloc);
    unit.push(F::of(1))?;
    let one = CkPoly::from_coefficients(alloc, 0, unit.as_slice())?;
    let sum = with_multiple(CkSum::new(alloc), written, &one)?;
    sum.total()
}

// ---- the variables of the line

/// Whether a monomial is 1 or a variable.
fn is_linear_monomial(powers: &[(u32, u64)]) -> bool
    ensures { result ≡ is_linear_monomial powers.now }
{
    match powers {
        [] => true,
        [power] => power.1 == 1,
        _ => false,
    }
}

/// Whether no term has a degree above 1.
fn is_linear<F: Field>(terms: &[(F, &[(u32, u64)])]) -> bool
    ensures { result ≡ is_linear (residues F.value terms.now) }
{
    for term in terms {
        if !is_linear_monomial(term.1) {
            return false;
        }
    }
    true
}

/// The variables of a linear line, in increasing order. Its terms are in decreasing order.
fn variables_of<F: Field>(
    alloc: Global,
    terms: &[(F, &[(u32, u64)])],
) -> Result<Vec<u32>, AllocError>
    requires sorted { IsSorted F.ORDER (residues F.value terms.now) }
    requires linear { is_linear (residues F.value terms.now) ≡ true }
    ensures { IfOk result (λ v. v.items ≡ variables_of (residues F.value terms.now)) }
{
    let mut variables = Vec::new(alloc);
    for place in (0..terms.len()).rev() {
        if let Some(power) = terms[place].1.first() {
            variables.push(power.0)?;
        }
    }
    Ok(variables)
}

/// Whether all these are variables of the line.
fn are_listed(variables: &[u32], xs: &[u32]) -> bool
    ensures { result ≡ list_all (is_listed variables.now) xs.now }
{
    for x in xs {
        if !is_listed(variables, *x) {
            return false;
        }
    }
    true
}

/// Whether a monomial is this power of x.
fn is_power(powers: &[(u32, u64)], x: u32, exponent: u64) -> bool
    ensures { result ≡ same_monomial powers.now ((x, exponent) ∷ []) }
{
    match powers {
        [power] => power.0 == x && power.1 == exponent,
        _ => false,
    }
}

/// Whether two monomials are x * x and x, in either order.
fn are_square_and_root(x: u32, m: &[(u32, u64)], n: &[(u32, u64)]) -> bool
    ensures { result ≡ are_square_and_root x m.now n.now }
{
    (is_power(m, x, 2) && is_power(n, x, 1)) || (is_power(m, x, 1) && is_power(n, x, 2))
}

/// Whether two elements are c and -c for some c other than 0.
fn are_opposite<F: Field>(c: F, d: F) -> bool
    ensures { result ≡ (nat_lt 0 (F.value c % F.ORDER) && ((F.value c + F.value d) % F.ORDER == 0)) }
{
    c.residue() != 0 && c.add(d).residue() == 0
}

/// Whether terms are a constant other than 0 times x * x - x.
fn are_bit<F: Field>(x: u32, terms: &[(F, &[(u32, u64)])]) -> bool
    ensures { result ≡ is_bit F.ORDER x (residues F.value terms.now) }
{
    match terms {
        [t, u] => are_square_and_root(x, t.1, u.1) && are_opposite(t.0, u.0),
        _ => false,
    }
}

/// Whether a line is such a multiple. It costs nothing where the line has not two terms.
fn is_bit<F: Field>(x: u32, line: &CkPoly<F>) -> Result<bool, AllocError>
    ensures { IfOk result (λ b. b ≡ is_bit F.ORDER x line.now) }
{
    if line.terms() != 2 {
        return Ok(false);
    }
    let terms = line.borrowed()?;
    Ok(are_bit(x, terms.as_slice()))
}

/// Whether each variable is a bit by the line whose number is at its place.
fn are_bits<F: Field>(
    lines: &[CkPoly<F>],
    variables: &[u32],
    numbers: &[u32],
) -> Result<bool, AllocError>
    requires { list_all (is_there lines.now) numbers.now ≡ true }
    ensures { IfOk result (λ b. b ≡ are_bits F.ORDER lines.now variables.now numbers.now) }
{
    let mut left = variables;
    let mut right = numbers;
    while let (Some((x, left_rest)), Some((number, right_rest))) = (
        left.split_first(),
        right.split_first(),
    ) {
        if !is_bit(*x, &lines[*number as usize])? {
            return Ok(false);
        }
        left = left_rest;
        right = right_rest;
    }
    Ok(left.is_empty() && right.is_empty())
}

// ---- the choices

/// The value of written terms where these variables are 1, and all others 0.
fn value_at<F: Field>(ones: &[u32], written: &[Term]) -> F
    requires { AreTerms written.now }
    ensures { F.value result ≡ poly_value F.ORDER (point_of ones.now) written.now }
{
    let mut sum = F::of(0);
    for term in written {
        if is_among(ones, term.1.as_slice()) {
            sum = sum.add(F::of(u128::from(term.0)));
        }
    }
    sum
}

/// Whether the polynomial is 0 at a choice, or the choice is impossible.
fn is_settled<F: Field>(
    terms: &[(F, &[(u32, u64)])],
    left: &Left,
    written: &[Term],
    ones: &[u32],
) -> bool
    requires terms_are { AreTerms written.now }
    requires small { IsSmall left.now.extent }
    ensures { (chosen : List ℕ) → IsLeft F.ORDER (residues F.value terms.now) chosen left.now
        → result ≡ is_settled F.ORDER (residues F.value terms.now) chosen written.now ones.now }
{
    value_at::<F>(ones, written).residue() == 0 || is_apart(extent_among(ones, terms), left)
}

/// Whether all choices for the other variables are settled, with these variables 1 before them. It calls itself at
/// most 12 deep.
fn are_settled<F: Field>(
    alloc: Global,
    terms: &[(F, &[(u32, u64)])],
    left: &Left,
    written: &[Term],
    ones: &[u32],
    others: &[u32],
) -> Result<bool, AllocError>
    requires terms_are { AreTerms written.now }
    requires small { IsSmall left.now.extent }
    ensures { IfOk result (λ b. (chosen : List ℕ) → IsLeft F.ORDER (residues F.value terms.now) chosen left.now
        → b ≡ list_all (λ more. is_settled F.ORDER (residues F.value terms.now) chosen written.now (ones.now ++ more))
        (choices_of others.now)) }
{
    let Some((x, rest)) = others.split_first() else {
        return Ok(is_settled(terms, left, written, ones));
    };
    if !are_settled(alloc, terms, left, written, ones, rest)? {
        return Ok(false);
    }
    let mut with_x = Vec::new(alloc);
    with_x.extend_from_slice(ones)?;
    with_x.push(*x)?;
    are_settled(alloc, terms, left, written, with_x.as_slice(), rest)
}

// ---- the rule

/// Whether written terms are 0 wherever a line of bits is.
fn follows<F: Field>(
    alloc: Global,
    terms: &[(F, &[(u32, u64)])],
    variables: &[u32],
    chosen: &[u32],
    written: &[Term],
) -> Result<bool, AllocError>
    requires variables { variables.now ≡ variables_of (residues F.value terms.now) }
    requires terms_are { AreTerms written.now }
    ensures { IfOk result (λ b. b ≡ follows F.ORDER (residues F.value terms.now) chosen.now written.now) }
{
    let all = extent_of(terms);
    if !are_listed(variables, chosen) || !is_between(all, terms) {
        return Ok(false);
    }
    let left = left_besides(all, chosen, terms);
    are_settled(alloc, terms, &left, written, &[], chosen)
}

/// Whether a line is one of bits, and written terms are 0 wherever it is.
fn shows<F: Field>(
    alloc: Global,
    lines: &[CkPoly<F>],
    line: &CkPoly<F>,
    chosen: &[u32],
    written: &[Term],
    bits: &[u32],
) -> Result<bool, AllocError>
    requires terms_are { AreTerms written.now }
    requires there { list_all (is_there lines.now) bits.now ≡ true }
    ensures { IfOk result (λ b. b ≡ (is_of_bits F.ORDER lines.now line.now bits.now
        && follows F.ORDER line.now chosen.now written.now)) }
{
    let terms = line.borrowed()?;
    if !is_linear(terms.as_slice()) {
        return Ok(false);
    }
    let variables = variables_of(alloc, terms.as_slice())?;
    if !are_bits(lines, variables.as_slice(), bits)? {
        return Ok(false);
    }
    follows(
        alloc,
        terms.as_slice(),
        variables.as_slice(),
        chosen,
        written,
    )
}

/// The line of bits, or the rule that it breaks: 12 where a line is not there, 11 where a limit is passed, and 13 where the
/// written terms are no residues in the chosen variables, or are not 0 wherever the line is. For each choice of values it
/// goes through the terms of the line and the written ones.
pub fn bits<F: Field>(
    alloc: Global,
    lines: &[CkPoly<F>],
    k: u32,
    chosen: &[u32],
    written: &[Term],
    bits: &[u32],
) -> Result<CkPoly<F>, LineStop>
    requires terms_are { AreTerms written.now }
    requires lines_are { AreLines F.ORDER lines.now }
    ensures kept { IfOk result (λ r. Gives F.ORDER
        (bits_line limits F.ORDER lines.now k chosen.now written.now bits.now) r) }
    ensures low { IfOk result (λ r. degree_of r ≤ 1024) }
    ensures broken { (rule : ℕ) → result ≡ Err (LineStop.Rule rule)
        → bits_line limits F.ORDER lines.now k chosen.now written.now bits.now ≡ Err rule }
{
    let Some(line) = lines.get(k as usize) else {
        return Err(LineStop::Rule(rules::REFERENCE));
    };
    if !all_there(lines, bits) {
        return Err(LineStop::Rule(rules::REFERENCE));
    }
    if !are_few(chosen.len(), line.terms(), written.len()) {
        return Err(LineStop::Rule(rules::LIMIT));
    }
    if !are_low(written) {
        return Err(LineStop::Rule(rules::LIMIT));
    }
    let polynomial = polynomial_of(alloc, written)?;
    if polynomial.terms() > MOST_TERMS {
        return Err(LineStop::Rule(rules::LIMIT));
    }
    if !is_written_in(F::ORDER, chosen, written) {
        return Err(LineStop::Rule(rules::BITS));
    }
    if !shows(alloc, lines, line, chosen, written, bits)? {
        return Err(LineStop::Rule(rules::BITS));
    }
    Ok(polynomial)
}
