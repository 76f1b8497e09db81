//! Values of terms at points, and the test for equal terms.
ghost use Rattle.std.specs.Prelude.{◌≡◌, ◌%◌, ◌↔◌, IsTrue};
ghost use Rattle.ffc_ring.specs.Monomial.{mono_value};
ghost use Rattle.ffc_field.specs.Modular.{pow_mod};
ghost use Rattle.ffc_ring.specs.Polynomial.{poly_value};
ghost use Rattle.ffc_poly.specs.Ordered.{point_of};

use crate::terms::TermList;
use ffc_field::Field;

/// The coordinate of a variable. It is 0 past the end.
fn coordinate<F: Field>(at: &[F], variable: u32) -> F
    ensures { F.value result ≡ point_of F.value at.now variable }
{
    at.get(variable as usize).copied().unwrap_or(F::of(0))
}

/// The power of a coordinate. Most exponents are 1.
fn power_of<F: Field>(coordinate: F, exponent: u32) -> F
    ensures { F.value result ≡ pow_mod F.ORDER (F.value coordinate) exponent }
{
    if exponent == 1 {
        coordinate
    } else {
        coordinate.pow(u64::from(exponent))
    }
}

/// The value of a monomial at a point.
fn monomial_value<F: Field>(powers: &[(u32, u32)], at: &[F]) -> F
    ensures { F.value result ≡ mono_value (point_of F.value at.now) powers.now % F.ORDER }
{
    let mut value = F::of(1);
    for power in powers {
        value = value.mul(power_of(coordinate(at, power.0), power.1));
    }
    value
}

/// The value of the terms' sum at a point.
pub fn value_at<F: Field>(terms: &TermList<F>, at: &[F]) -> F
    ensures { F.value result ≡ poly_value F.ORDER (point_of F.value at.now) terms.now }
{
    let mut sum = F::of(0);
    for i in 0..terms.len() {
        let (c, m) = terms.get(i);
        sum = sum.add_scaled(c, monomial_value(m.pairs(), at));
    }
    sum
}

/// Whether both are the same list of terms.
pub fn are_equal<F: Field>(a: &TermList<F>, b: &TermList<F>) -> bool
    ensures { IsTrue result ↔ (a.now ≡ b.now) }
{
    if a.len() != b.len() {
        return false;
    }
    for i in 0..a.len() {
        let (s, m) = a.get(i);
        let (t, n) = b.get(i);
        if s.residue() != t.residue() {
            return false;
        }
        if m != n {
            return false;
        }
    }
    true
}
