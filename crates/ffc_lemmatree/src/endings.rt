//! How polynomials in one variable refute, as a solver finds it.
use ffc_field::Field;
use ffc_roots::Roots;
use ffc_uni::Uni;

/// One step of Euclid's algorithm over equations: the next divisor is a times the one before plus b times the polynomial of the
/// equation of this place.
#[derive(Drop)]
pub struct EuclidStep<F: Field> {
    pub equation: u32,
    pub a: Uni<F>,
    pub b: Uni<F>,
}

/// A root's case: the place of a disequation that is false there, and its polynomial divided by X less the root.
#[derive(Drop)]
pub struct RootCase<F: Field> {
    pub disequation: u32,
    pub quotient: Uni<F>,
}

/// How the common divisor refutes: it is a constant other than 0, or it has these roots (maybe none), each with its case.
#[derive(Drop)]
pub enum Ending<F: Field> {
    Constant,
    Roots {
        roots: Roots<F>,
        cases: Vec<RootCase<F>>,
    },
}
