//! Lines of a basis.
use ffc_field::Field;
use ffc_mono::MonoOrder;
use ffc_poly::Poly;

/// The number of a line, from 0.
pub type LineId = u64;

/// A polynomial of a basis: a generator, which has no parts, or the sum of its parts' multiples of earlier lines.
#[derive(Debug)]
pub struct Line<F: Field, O: MonoOrder> {
    pub poly: Poly<F, O>,
    /// The numbers of earlier lines, and what each is multiplied by.
    pub parts: Vec<(LineId, Poly<F, O>)>,
}

impl<F: Field, O: MonoOrder> Drop for Line<F, O> {
    fn drop(self) {
        let Line { poly: _, parts: _ } = self;
    }
}
