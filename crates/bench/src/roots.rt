//! All roots of a polynomial in one variable that has as many of them as its degree, or none.
ghost use Rattle.std.specs.Prelude.{◌≤◌, length};

use ffc_base::{Meter, Stop};
use ffc_field::{BabyBear, Field, Goldilocks};
use ffc_roots::roots;
use ffc_uni::Uni;
use std::alloc::{AllocError, Global};
use std::io;

/// The units that a run may take.
const BUDGET: u64 = 1_000_000_000;

/// A number that is no square in either field.
const NO_SQUARE: u128 = 11;

/// The elements are multiples of this number, 2^64 over the golden ratio.
const STEP: u128 = 0x9e37_79b9_7f4a_7c15;

/// So many elements.
fn elements<F: Field>(alloc: Global, count: u32) -> Result<Vec<F>, AllocError> {
    let mut out = Vec::new(alloc);
    for i in 0..count {
        out.push(F::of((u128::from(i) + 1) * STEP))?;
    }
    Ok(out)
}

/// A polynomial of this degree whose roots are all in the field.
fn split<F: Field>(alloc: Global, degree: u32) -> Result<Uni<F>, AllocError> {
    let roots = elements::<F>(alloc, degree)?;
    Uni::from_roots(alloc, roots.as_slice())
}

/// A polynomial of this degree, if it is even, with no root in the field: a square less a number that is none.
fn without_roots<F: Field>(alloc: Global, degree: u32) -> Result<Uni<F>, AllocError> {
    let coefs = elements::<F>(alloc, degree / 2 + 1)?;
    let half = Uni::from_coefs(alloc, coefs.as_slice())?;
    let mut constant = Vec::new(alloc);
    constant.push(F::of(NO_SQUARE))?;
    let constant = Uni::from_coefs(alloc, constant.as_slice())?;
    half.mul(&half)?.sub(&constant)
}

/// How many roots a polynomial has.
fn count<F: Field>(alloc: Global, f: &Uni<F>) -> Result<usize, Stop>
    requires { 2 ≤ length f.now }
{
    let mut meter = Meter::new(BUDGET);
    let found = roots(alloc, f, &mut meter)?;
    Ok(found.zeros.as_slice().len())
}

/// How many roots the polynomial of a case has.
fn case<F: Field>(alloc: Global, kind: u32, degree: u32) -> Result<usize, Stop> {
    let f = if kind == 0 {
        split::<F>(alloc, degree)?
    } else {
        without_roots::<F>(alloc, degree)?
    };
    if f.coefs().len() < 2 {
        return Ok(0);
    }
    count(alloc, &f)
}

/// Prints how many roots the polynomial of a case has: 0 one of this degree with all its roots in the field, 1 one with none,
/// and 2 more for the same over BabyBear in place of Goldilocks.
pub fn run<R: Print>(rt: &R, alloc: Global, kind: u32, degree: u32) -> io::Result<()> {
    let found = if kind < 2 {
        case::<Goldilocks>(alloc, kind, degree)
    } else {
        case::<BabyBear>(alloc, kind - 2, degree)
    };
    match found {
        Ok(count) => println!(rt; "{count} roots"),
        Err(_) => println!(rt; "no result"),
    }
}
