//! Points, and whether the generators vanish there.
ghost use Rattle.std.specs.Prelude.{◌≡◌, ℕ, ◌<◌, ◌^◌, ◌==◌, if◌then◌else◌, length, vec_len, map, IfOk, OnOk, IsTrue};
ghost use Rattle.std.specs.Prelude.{IsErrOf};
ghost use Rattle.std.specs.List.{list_all};
ghost use Rattle.ffc_poly.specs.Ordered.{point_of as dense_point};
ghost use Rattle.ffc_stack.specs.Stacks.{generators};
ghost use Rattle.ffc_search.specs.Finding.{point_at, is_zero_line, IsCommonZero};

use crate::differences::Differences;
use crate::survey::{Linear, factors_of};
use ffc_field::Field;
use ffc_line::Line;
use ffc_mono::MonoOrder;
use ffc_poly::{Poly, PolyStop};
use ffc_roots::from_univariate;
use ffc_uni::Uni;
use std::alloc::{AllocError, Global};

/// Where polynomials are not to be 0, their variables get multiples of these numbers: small values first, and then those of a
/// prime near the golden section of 2^32, of which small sums and differences are rarely equal.
const STEPS: [u128; 2] = [1, 2_654_435_761];

/// The polynomial x - root.
pub fn less_root<F: Field, O: MonoOrder>(
    alloc: Global,
    x: u32,
    root: F,
) -> Result<Poly<F, O>, AllocError> {
    let mut coefs = Vec::new(alloc);
    coefs.push(root.neg())?;
    coefs.push(F::of(1))?;
    match from_univariate(alloc, &Uni::from_coefs(alloc, &coefs)?, x) {
        Ok(poly) => Ok(poly),
        Err(PolyStop::Memory) => Err(AllocError),
        Err(_) => unreachable!(),
    }
}

/// Gives each variable that reduction replaces the value that its line says, from the one that leads last on, where the others
/// have the values of a point.
fn fill_in<F: Field, O: MonoOrder>(
    lines: &[Line<F, O>],
    linear: &Linear,
    point: &mut Vec<F>,
) -> Result<(), AllocError> {
    for (x, (place, _)) in linear.iter().rev() {
        if let Some(line) = lines.get(*place) {
            let value = value_of(&line.poly, point.as_slice());
            set_coordinate(point, *x, value)?;
        }
    }
    Ok(())
}

/// The point that gives the variables of polynomials that are not to be 0 multiples of a step, one after the other, but 0 where
/// they are factors in lines or replaced.
fn spread<F: Field, O: MonoOrder>(
    alloc: Global,
    lines: &[Line<F, O>],
    vars: &[u32],
    linear: &Linear,
    differences: &Differences<F, O>,
    step: u128,
) -> Result<Vec<F>, AllocError> {
    let factors = factors_of(alloc, lines)?;
    let mut point = Vec::new(alloc);
    let mut value = F::of(step);
    for x in vars {
        if differences.has(*x) && !factors.contains(x) && !linear.contains_key(x) {
            set_coordinate(&mut point, *x, value)?;
            value = value.add(F::of(step));
        }
    }
    Ok(point)
}

/// The value of the leading variable with which a linear polynomial is 0, where the others have these values.
fn value_of<F: Field, O: MonoOrder>(poly: &Poly<F, O>, point: &[F]) -> F {
    let Some((c, _)) = poly.lead() else {
        return F::of(0);
    };
    let rest = poly.eval(point).neg();
    match c.inv() {
        Some(inverse) => inverse.mul(rest),
        None => F::of(0),
    }
}

/// The values of these variables.
fn values_of<F: Field>(alloc: Global, vars: &[u32], point: &[F]) -> Result<Vec<F>, AllocError> {
    let mut values = Vec::new(alloc);
    for x in vars {
        let value = match point.get(*x as usize) {
            Some(value) => *value,
            None => F::of(0),
        };
        values.push(value)?;
    }
    Ok(values)
}

/// Fills a point up with zeros, so that it has this coordinate.
fn fill_to<F: Field>(point: &mut Vec<F>, x: usize) -> Result<(), AllocError>
    requires { x < 2 ^ 32 }
    ensures long { OnOk result (x < vec_len point.new) }
    ensures same { OnOk result ((y : ℕ) → dense_point F.value point.new.items y
        ≡ dense_point F.value point.old.items y) }
{
    if point.len() <= x {
        point.resize(x + 1, F::of(0))?;
    }
    Ok(())
}

/// Gives a coordinate of a point a value.
pub fn set_coordinate<F: Field>(point: &mut Vec<F>, x: u32, value: F) -> Result<(), AllocError>
    ensures { OnOk result ((y : ℕ) → dense_point F.value point.new.items y
        ≡ (if y == x then F.value value else dense_point F.value point.old.items y)) }
{
    fill_to(point, x as usize)?;
    point[x as usize] = value;
    Ok(())
}

/// The point that gives each of these variables its value, and every other variable 0.
fn point_of<F: Field>(alloc: Global, vars: &[u32], values: &[F]) -> Result<Vec<F>, AllocError>
    requires { length values.now ≡ length vars.now }
    ensures { IfOk result (λ v. (x : ℕ) → dense_point F.value v.items x ≡ point_at vars.now (map F.value values.now)
        x) }
{
    let mut point = Vec::new(alloc);
    for place in (0..vars.len()).rev() {
        set_coordinate(&mut point, vars[place], values[place])?;
    }
    Ok(point)
}

/// Whether a line has parts, or is 0 at a point.
fn is_zero_line<F: Field, O: MonoOrder>(line: &Line<F, O>, point: &[F]) -> bool
    ensures { result ≡ is_zero_line F.ORDER (dense_point F.value point.now) line.now }
{
    !line.parts.is_empty() || line.poly.eval(point).residue() == 0
}

/// Whether the generators among the lines are 0 at a point.
fn vanish<F: Field, O: MonoOrder>(lines: &[Line<F, O>], point: &[F]) -> bool
    ensures { result ≡ list_all (is_zero_line F.ORDER (dense_point F.value point.now)) lines.now }
{
    for line in lines {
        if !is_zero_line(line, point) {
            return false;
        }
    }
    true
}

/// Whether these values are a common zero of the generators among the lines.
pub fn is_zero<F: Field, O: MonoOrder>(
    alloc: Global,
    lines: &[Line<F, O>],
    vars: &[u32],
    values: &[F],
) -> Result<bool, AllocError>
    ensures { IfOk result (λ yes. IsTrue yes → IsCommonZero F.ORDER (generators lines.now) vars.now
        (map F.value values.now)) }
{
    if values.len() != vars.len() {
        return Ok(false);
    }
    let point = point_of(alloc, vars, values)?;
    Ok(vanish(lines, &point))
}

/// The values of these variables at a point that is a common zero of the generators, where the inverses that are none of the
/// lines get the values that follow.
pub fn zero_at<F: Field, O: MonoOrder>(
    alloc: Global,
    lines: &[Line<F, O>],
    vars: &[u32],
    mut point: Vec<F>,
    differences: &Differences<F, O>,
) -> Result<Option<Vec<F>>, AllocError> {
    if !differences.invert(&mut point)? {
        return Ok(None);
    }
    let values = values_of(alloc, vars, point.as_slice())?;
    if is_zero(alloc, lines, vars, &values)? {
        return Ok(Some(values));
    }
    Ok(None)
}

/// The values that the linear lines say, where each variable that is left is 0, if these are a common zero of the generators;
/// where polynomials are not to be 0, other values too of the variables that are left.
pub fn zero_at_hand<F: Field, O: MonoOrder>(
    alloc: Global,
    lines: &[Line<F, O>],
    vars: &[u32],
    linear: &Linear,
    differences: &Differences<F, O>,
) -> Result<Option<Vec<F>>, AllocError> {
    let mut point = Vec::new(alloc);
    fill_in(lines, linear, &mut point)?;
    let found = zero_at(alloc, lines, vars, point, differences)?;
    if found.is_some() || differences.is_empty() {
        return Ok(found);
    }
    for step in STEPS {
        let mut point = spread(alloc, lines, vars, linear, differences, step)?;
        fill_in(lines, linear, &mut point)?;
        let found = zero_at(alloc, lines, vars, point, differences)?;
        if found.is_some() {
            return Ok(found);
        }
    }
    Ok(None)
}
