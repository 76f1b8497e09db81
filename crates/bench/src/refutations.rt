//! Texts of certificates for a check that asserts 1 = 2 and its negation. The nodes are 1, 2, 1 = 2 as node 2, and negations
//! from node 3 on.
ghost use Rattle.std.specs.Prelude.{◌≤◌, length};

use ffc_base::{Meter, Stop};
use ffc_field::{Field, Goldilocks};
use ffc_uni::{Chain, Uni, pow_mod_chain};
use std::alloc::{AllocError, Global};

/// The node of the first literal that is not asserted.
const FIRST_NODE: u32 = 4;

/// The units that a chain may take.
const BUDGET: u64 = 1_000_000;

/// The coefficients are multiples of this number, 2^64 over the golden ratio.
const STEP: u64 = 0x9e37_79b9_7f4a_7c15;

/// Appends the literals of a clause: each of so many nodes, by the binary digits of its number from the highest.
fn push_literals(text: &mut String, number: u32, count: u32) -> Result<(), AllocError> {
    for place in 0..count.min(24) {
        let digit = (number >> (count.min(24) - 1 - place)) % 2;
        let sign = if digit == 0 { "+" } else { "-" };
        let node = FIRST_NODE + place;
        write!(text, " {sign}{node}")?;
    }
    Ok(())
}

/// Appends the clauses of this many literals, each from the two clauses with one literal more.
fn push_level(text: &mut String, literals: u32, below: u32) -> Result<(), AllocError> {
    for number in 0..1u32 << literals.min(24) {
        write!(text, "r {literals}")?;
        push_literals(text, number, literals)?;
        let first = below.saturating_add(number).saturating_add(number);
        writeln!(text, " 2 {first} {}", first.saturating_add(1))?;
    }
    Ok(())
}

/// Appends the clauses of this many literals, each by the two asserted ones.
fn push_leaves(text: &mut String, depth: u32) -> Result<(), AllocError> {
    for number in 0..1u32 << depth.min(20) {
        write!(text, "r {depth}")?;
        push_literals(text, number, depth)?;
        text.push_str(" 3 0 1 2\n")?;
    }
    Ok(())
}

/// A clause refutation in the form of a full binary tree: all clauses over so many nodes, and by each two of them the clause
/// without the last literal.
pub fn clauses(alloc: Global, depth: u32) -> Result<String, AllocError> {
    let depth = depth.min(20);
    let mut text = String::new(alloc);
    let clauses = (2u32 << depth).saturating_add(2);
    writeln!(text, "ffcert 2\nunsat {clauses}\na 0\na 1\nn 3 1 0")?;
    push_leaves(&mut text, depth)?;
    let mut below = 3u32;
    for up in 0..depth {
        let literals = depth - 1 - up;
        push_level(&mut text, literals, below)?;
        below = below.saturating_add(2u32 << literals.min(20));
    }
    Ok(text)
}

/// Begins a refutation by one lemma over Goldilocks, whose first line is the constant -1.
fn begun(alloc: Global) -> Result<String, AllocError> {
    let mut text = String::new(alloc);
    let order = Goldilocks::ORDER;
    writeln!(text, "ffcert 2\nunsat 3\na 0\nf {order} 1 -2")?;
    Ok(text)
}

/// Ends it by the constant 1.
fn end(text: &mut String) -> Result<(), AllocError> {
    writeln!(text, "c 1 0 1 {} 0\nz\nr 0 2 0 1", Goldilocks::ORDER - 1)
}

/// A coefficient other than 0.
fn coefficient(number: u32) -> u64 {
    (u64::from(number) + 1).wrapping_mul(STEP) % (Goldilocks::ORDER - 1) + 1
}

/// Appends a power of a variable, unless it is 1.
fn push_power(text: &mut String, variable: u32, exponent: u32) -> Result<(), AllocError> {
    if exponent > 0 {
        write!(text, " {variable} {exponent}")?;
    }
    Ok(())
}

/// Appends a term in two variables.
fn push_term(text: &mut String, number: u32) -> Result<(), AllocError> {
    let (i, j) = (number / 8, number % 8);
    let variables = u32::from(i > 0) + u32::from(j > 0);
    write!(text, " {} {variables}", coefficient(number))?;
    push_power(text, 10, i)?;
    push_power(text, 11, j)
}

/// Appends a line that multiplies another one by 2,048 terms.
fn push_multiple(text: &mut String, line: u32) -> Result<(), AllocError> {
    write!(text, "c 1 {line} 2048")?;
    for number in 0..2048u32 {
        push_term(text, number)?;
    }
    text.push_str("\n")
}

/// A refutation with so many lines of 4,194,304 products.
pub fn products(alloc: Global, count: u32) -> Result<String, AllocError> {
    let mut text = begun(alloc)?;
    push_multiple(&mut text, 0)?;
    for _ in 0..count {
        push_multiple(&mut text, 1)?;
    }
    end(&mut text)?;
    Ok(text)
}

/// Appends a list of coefficients.
fn push_list(text: &mut String, coefs: &[Goldilocks]) -> Result<(), AllocError> {
    write!(text, " {}", coefs.len())?;
    for coef in coefs {
        write!(text, " {}", coef.residue())?;
    }
    Ok(())
}

/// Appends the line of a polynomial in the variable 10, by a multiple of -1.
fn push_polynomial(text: &mut String, coefs: &[Goldilocks]) -> Result<(), AllocError> {
    write!(text, "c 1 0 {}", coefs.len())?;
    for (exponent, coef) in coefs.iter().enumerate() {
        write!(
            text,
            " {} {}",
            coef.neg().residue(),
            u32::from(exponent > 0)
        )?;
        if exponent > 0 {
            write!(text, " 10 {exponent}")?;
        }
    }
    text.push_str("\n")
}

/// A polynomial of this degree.
fn polynomial(alloc: Global, degree: u32) -> Result<Uni<Goldilocks>, AllocError> {
    let mut coefs = Vec::new(alloc);
    for number in 0..degree.clamp(2, 1024) + 1 {
        coefs.push(Goldilocks::of(u128::from(coefficient(number))))?;
    }
    Uni::from_coefs(alloc, coefs.as_slice())
}

/// Appends a chain that raises a variable to the order of the field modulo a polynomial.
fn push_chain(text: &mut String, chain: &Chain<Goldilocks>) -> Result<(), AllocError> {
    writeln!(text, "p 1 10 {}", chain.steps.as_slice().len())?;
    for step in chain.steps.as_slice() {
        text.push_str("u")?;
        push_list(text, step.0.coefs())?;
        push_list(text, step.1.coefs())?;
        text.push_str("\n")?;
    }
    Ok(())
}

/// Appends so many chains over a polynomial.
fn push_chains(
    text: &mut String,
    alloc: Global,
    f: &Uni<Goldilocks>,
    count: u32,
) -> Result<(), Stop>
    requires { 2 ≤ length f.now }
{
    let chain = pow_mod_chain(alloc, f, &mut Meter::new(BUDGET))?;
    for _ in 0..count {
        push_chain(text, &chain)?;
    }
    Ok(())
}

/// A refutation with so many chains over a polynomial of this degree.
pub fn chains(alloc: Global, degree: u32, count: u32) -> Result<String, Stop> {
    let f = polynomial(alloc, degree)?;
    if f.coefs().len() < 2 {
        return Err(Stop::Memory);
    }
    let mut text = begun(alloc)?;
    push_polynomial(&mut text, f.coefs())?;
    push_chains(&mut text, alloc, &f, count)?;
    end(&mut text)?;
    Ok(text)
}
