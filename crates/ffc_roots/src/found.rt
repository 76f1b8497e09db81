//! What finding roots answers.
use crate::elements::Elements;
use ffc_field::Field;
use ffc_uni::{Chain, Uni};

/// The roots of f in the field, and why there are no others: with r the last remainder of the chain of X^p modulo f, each
/// root is one of r - X too, and a*f + b*(r - X) is the product of the X - root.
#[derive(Debug, Drop)]
pub struct Roots<F: Field> {
    pub zeros: Elements<F>,
    pub chain: Chain<F>,
    pub a: Uni<F>,
    pub b: Uni<F>,
}
