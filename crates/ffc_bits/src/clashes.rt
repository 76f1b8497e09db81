//! Lines that what is found of bits makes constants.
ghost use Rattle.std.specs.Prelude.{◌≡◌, IsErrOf};

use crate::derived::{Derived, Reason, Source};
use crate::integers::of_residue;
use crate::known::{Rule, Rules};
use crate::polynomials::{constant, within};
use crate::rewriting::Rewrite;
use crate::system::{Consequence, System};
use ffc_base::SearchStop;
use ffc_field::Field;
use ffc_line::Line;
use ffc_mono::MonoOrder;
use ffc_poly::Poly;
use std::alloc::Global;
use std::collections::BTreeSet;

/// Only lines with so few terms are looked at.
const MOST_TERMS: usize = 10;

/// And so many bits are replaced in each at most.
const MOST_REPLACED: usize = 32;

/// Whether a polynomial has one of these variables.
fn has_any<F: Field, O: MonoOrder>(poly: &Poly<F, O>, variables: &BTreeSet<u32>) -> bool {
    for (_, m) in poly.iter() {
        for power in m.pairs() {
            if variables.contains(&power.0) {
                return true;
            }
        }
    }
    false
}

/// The first variable of a polynomial that a rule replaces, with the rule.
fn first_rule<F: Field, O: MonoOrder>(poly: &Poly<F, O>, rules: &Rules) -> Option<(u32, Rule)> {
    for (_, m) in poly.iter() {
        for power in m.pairs() {
            if let Some(rule) = rules.get(power.0) {
                return Some((power.0, *rule));
            }
        }
    }
    None
}

/// A line with bits replaced by what is known of them, and the multiples of lines that it is then.
fn replaced<F: Field, O: MonoOrder>(
    alloc: Global,
    place: usize,
    poly: &Poly<F, O>,
    rules: &Rules,
) -> Result<(Poly<F, O>, Vec<(Source, Poly<F, O>)>), SearchStop>
    ensures unmetered { ¬ (IsErrOf result SearchStop.Spent) }
{
    let mut rest = poly.clone()?;
    let mut parts = Vec::new(alloc);
    parts.push((Source::Line(place as u64), constant(alloc, F::of(1))?))?;
    for _ in 0..MOST_REPLACED {
        let Some((x, rule)) = first_rule(&rest, rules) else {
            break;
        };
        let Some(inverse) = of_residue::<F>(rule.factor).inv() else {
            break;
        };
        let known = rule.known.poly(alloc, x)?;
        let rewrite = Rewrite {
            source: rule.source,
            poly: &known,
            variable: x,
            exponent: 1,
        };
        let (left, factor) = rewrite.run(alloc, rest)?;
        rest = left;
        parts.push((rule.source, within(factor.scale(inverse.neg()))?))?;
    }
    Ok((rest, parts))
}

impl<F: Field, O: MonoOrder> System<'_, F, O> {
    /// A line that is a constant other than 0 with what was found of bits, derived as such.
    pub fn clash(
        &self,
        alloc: Global,
        lines: &[Line<F, O>],
        derived: &mut Derived<F, O>,
    ) -> Result<Option<Consequence<F, O>>, SearchStop>
        ensures unmetered { ¬ (IsErrOf result SearchStop.Spent) }
    {
        for (place, line) in lines.iter().enumerate() {
            if line.poly.len() <= MOST_TERMS && has_any(&line.poly, &self.fresh) {
                let (rest, parts) = replaced(alloc, place, &line.poly, &self.rules)?;
                if rest.is_constant() && !rest.is_zero() {
                    let step = derived.push(Reason::Sum(parts), lines.len())?;
                    return Ok(Some((step, rest)));
                }
            }
        }
        Ok(None)
    }
}
