//! Systems of affine forms, brought to echelon form and solved.
ghost use Rattle.std.specs.Prelude.{◌≡◌, ◌+◌, ◌<◌, ◌^◌, All, length, IfOk};
ghost use Rattle.ffc_echelon.specs.Vectors.{IsBelow};

use ffc_base::{Meter, Stop, Unit};
use ffc_echelon::{Elimination, Vector, eliminate};
use ffc_field::{BabyBear, Field, Goldilocks};
use std::alloc::{AllocError, Global};
use std::io;

/// The units that a run may take.
const BUDGET: u64 = 1_000_000_000_000;

/// The most unknowns of a system.
const LARGEST: u32 = 4096;

/// The most coordinates of a sparse form.
const FEW: u32 = 4;

/// What became of a system.
#[derive(Clone, Copy)]
struct Outcome {
    has_solution: bool,
    reductions: u64,
    trials: u64,
}

/// Pseudo random numbers, by the linear congruential generator of Knuth's MMIX.
#[derive(Drop)]
struct Numbers {
    state: u64,
}

impl Numbers {
    fn draw(&mut self) -> u64 {
        self.state = self
            .state
            .wrapping_mul(6_364_136_223_846_793_005)
            .wrapping_add(1_442_695_040_888_963_407);
        self.state >> 16
    }
}

/// A form in all of the unknowns, whose columns come before that of the constant.
fn fill<F: Field>(dense: &mut [F], numbers: &mut Numbers)
    ensures { length dense.new ≡ length dense.old }
{
    for place in 0..dense.len() {
        dense[place] = F::of(u128::from(numbers.draw()));
    }
}

/// A form with a few coordinates at random places, of which that of the constant is one.
fn fill_few<F: Field>(dense: &mut [F], numbers: &mut Numbers)
    ensures { length dense.new ≡ length dense.old }
{
    for place in 0..dense.len() {
        dense[place] = F::of(0);
    }
    for _ in 0..FEW {
        let place = numbers.draw() as usize;
        if let Some(place) = place.checked_rem(dense.len()) {
            dense[place] = F::of(u128::from(numbers.draw()));
        }
    }
}

/// A form of a case.
fn form<F: Field>(
    alloc: Global,
    columns: usize,
    is_dense: bool,
    numbers: &mut Numbers,
) -> Result<Vector<F>, AllocError>
    requires { columns < 2 ^ 32 }
    ensures { IfOk result (IsBelow columns) }
{
    let mut dense = vec![in alloc; F::of(0); columns]?;
    if is_dense {
        fill(dense.as_mut_slice(), numbers);
    } else {
        fill_few(dense.as_mut_slice(), numbers);
    }
    Vector::from_dense(alloc, dense.as_slice())
}

/// So many forms in as many unknowns.
fn system<F: Field>(alloc: Global, size: u32, is_dense: bool) -> Result<Vec<Vector<F>>, AllocError>
    requires { size + 1 < 2 ^ 32 }
    ensures within { IfOk result (λ v. All (IsBelow (size + 1)) v.items) }
    ensures long { IfOk result (λ v. length v.items ≡ size) }
{
    let mut numbers = Numbers { state: 1 };
    let mut forms = Vec::new(alloc);
    for _ in 0..size {
        forms.push(form(alloc, size as usize + 1, is_dense, &mut numbers)?)?;
    }
    Ok(forms)
}

/// Solves a system.
fn solved<F: Field>(alloc: Global, size: u32, is_dense: bool) -> Result<Outcome, Stop>
    requires { size + 1 < 2 ^ 32 }
{
    let forms = system::<F>(alloc, size, is_dense)?;
    let mut meter = Meter::new(BUDGET);
    let has_solution = match eliminate(alloc, size, forms.as_slice(), &mut meter)? {
        Elimination::Form(form) => {
            let avoided = Vec::new(alloc);
            let values = form.solution(alloc, avoided.as_slice(), &mut meter)?;
            values.len() == size as usize
        }
        Elimination::Contradiction(_) => false,
    };
    Ok(Outcome {
        has_solution,
        reductions: meter.count(Unit::Reduction),
        trials: meter.count(Unit::Trial),
    })
}

/// Solves so many equations in as many unknowns: case 0 dense ones, 1 ones with at most four coordinates, over Goldilocks; 2 and 3 the
/// same over BabyBear.
pub fn run<R: Print>(rt: &R, alloc: Global, kind: u32, size: u32) -> io::Result<()> {
    let size = size.min(LARGEST);
    let is_dense = kind % 2 == 0;
    let found = if kind < 2 {
        solved::<Goldilocks>(alloc, size, is_dense)
    } else {
        solved::<BabyBear>(alloc, size, is_dense)
    };
    let Ok(outcome) = found else {
        return println!(rt; "no result");
    };
    let words = if outcome.has_solution {
        "a solution"
    } else {
        "a contradiction"
    };
    println!(rt;
        "{words}, {} reductions, {} trials",
        outcome.reductions, outcome.trials
    )
}
