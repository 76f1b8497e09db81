//! The roots of a common divisor, and what is found at each.
ghost use Rattle.std.specs.Prelude.{◌≡◌, ◌≢◌, ◌+◌, ◌-◌, ◌≤◌, ◌∷◌, [], length, All, IfOk, IfSome, IsErrOf, None};
ghost use Rattle.ffc_base.specs.Metering.{Takes, total};
ghost use Rattle.ffc_base.specs.declared.stop.Stop.TheVariants as stops;
ghost use Rattle.ffc_single.specs.Outcomes.{AreFoundRoots, HasTooFewUnits, IsFirstZero, IsOutcomeOf};
ghost use Rattle.ffc_uni.specs.Univariate.{SameUnivariate, times, value_of};

use ffc_base::{Meter, Stop, Unit};
use ffc_field::Field;
use ffc_lemmatree::RootCase;
use ffc_roots::{Roots, roots};
use ffc_term::NodeId;
use ffc_uni::Uni;
use std::alloc::{AllocError, Global};

/// A disequation that is false at each root, with the root's case.
#[derive(Drop)]
pub(crate) struct Cases<F: Field> {
    pub disequations: Vec<NodeId>,
    pub cases: Vec<RootCase<F>>,
}

/// What is found at roots.
#[derive(Drop)]
pub(crate) enum Outcome<F: Field> {
    /// No disequation is false at this one.
    Value(F),
    /// A disequation is false at each.
    Cases(Cases<F>),
}

/// All roots of g in the field. A unit for each that there may be is left.
pub(crate) fn roots_within<F: Field>(
    alloc: Global,
    g: &Uni<F>,
    meter: &mut Meter,
) -> Result<Roots<F>, Stop>
    requires { 2 ≤ length g.now }
    ensures found { IfOk result (AreFoundRoots F.ORDER g.now) }
    ensures left { IfOk result (λ r. total meter.new + length r.zeros ≤ meter.new.budget) }
    ensures few { IsErrOf result stops.Spent → HasTooFewUnits F.ORDER g.now meter.old }
    ensures takes { Takes meter.old meter.new }
{
    let degree = g.coefs().len() as u64 - 1;
    let left = meter.left();
    if left < degree {
        return Err(Stop::Spent);
    }
    let mut own = Meter::new(left - degree);
    let found = roots(alloc, g, &mut own);
    meter.charge(Unit::Chain, own.count(Unit::Chain))?;
    let found = found?;
    Ok(found)
}

/// The place of the first of these polynomials that is 0 at x.
fn first_zero<F: Field>(forms: &[Uni<F>], x: F) -> Option<usize>
    ensures some { IfSome result (IsFirstZero F.ORDER (F.value x) forms.now) }
    ensures none { result ≡ None → All (λ f. value_of F.ORDER (F.value x) f ≢ 0) forms.now }
{
    for (place, form) in forms.iter().enumerate() {
        if form.eval(x).residue() == 0 {
            return Some(place);
        }
    }
    None
}

/// A polynomial divided by X less a root of it.
fn without_root<F: Field>(alloc: Global, f: &Uni<F>, root: F) -> Result<Uni<F>, AllocError>
    requires { value_of F.ORDER (F.value root) f.now ≡ 0 }
    ensures division { IfOk result (λ q. SameUnivariate F.ORDER f.now (times q ((F.ORDER - F.value root) ∷ 1 ∷ []))) }
    ensures short { IfOk result (λ q. length q ≤ length f.now) }
{
    let mut only = Vec::new(alloc);
    only.push(root)?;
    let factor = Uni::from_roots(alloc, &only)?;
    let (quotient, _) = f.div_rem(&factor)?;
    Ok(quotient)
}

/// Looks at each root in turn: it is the constant's value, unless a disequation is false there. Each is a Trial.
pub(crate) fn try_roots<F: Field>(
    alloc: Global,
    zeros: &[F],
    ids: &[NodeId],
    forms: &[Uni<F>],
    meter: &mut Meter,
) -> Result<Outcome<F>, AllocError>
    requires few { length zeros.now ≤ 4096 }
    requires same { length ids.now ≡ length forms.now }
    requires low { All (λ f. length f ≤ 256) forms.now }
    requires left { total meter.old + length zeros.now ≤ meter.old.budget }
    ensures outcome { IfOk result (IsOutcomeOf F.ORDER F.value zeros.now ids.now forms.now) }
    ensures takes { Takes meter.old meter.new }
{
    let mut found = Cases {
        disequations: Vec::new(alloc),
        cases: Vec::new(alloc),
    };
    for (number, root) in zeros.iter().enumerate() {
        if let Err(_) = meter.take(Unit::Trial) {
            unreachable!()
        }
        let Some(place) = first_zero(forms, *root) else {
            return Ok(Outcome::Value(*root));
        };
        found.disequations.push(ids[place])?;
        found.cases.push(RootCase {
            disequation: number as u32,
            quotient: without_root(alloc, &forms[place], *root)?,
        })?;
    }
    Ok(Outcome::Cases(found))
}
